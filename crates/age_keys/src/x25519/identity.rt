//! X25519 identities.
ghost use Rattle.std.specs.Prelude.{◌≡◌, IfOk, option_map};
ghost use Rattle.age_error.specs.Bytes.{AreBytesOf};
ghost use Rattle.age_bech32.specs.Written.{bech32_text};
ghost use Rattle.age_suite.specs.Draw.{taken, left_after};
ghost use Rattle.age_v1.specs.X25519.{identity_prefix};

use crate::texts::{parse_key, text_of};
use crate::x25519::recipient::Recipient;
use crate::x25519::unwrapping::unwrap_first;
use age_error::DecryptError;
use age_error::bytes::known_array;
use age_format::Stanza;
use age_suite::draw::Draw;
use age_suite::secrecy::{FileKey, SecretString};
use age_suite::suite::Suite;
use std::alloc::{AllocError, Global};
use std::marker::{Model, PhantomData};
use std::slice;
use std::str::FromStr;

/// One who decrypts: a secret of 32 bytes. It has no `Debug` and no `Display`, so no text shows it by chance. In contracts it is
/// the list of the secret's bytes.
#[derive(Drop)]
pub struct Identity<S> {
    secret: [u8; 32],
    suite: PhantomData<S>,
}

impl<S> Model for Identity<S> {
    ghost use Rattle.std.specs.Prelude.{List, ℕ};
    ghost use Rattle.age_error.specs.Bytes.{AreBytesOf};

    ghost Value = { List ℕ };

    ghost view = { λ identity. identity.secret };

    ghost invariant = { λ identity. AreBytesOf 32 identity.secret };
}

impl<S: Suite> Identity<S> {
    /// A new identity, whose secret is the next 32 random bytes. `None` where fewer are left, and then none is taken.
    pub fn generate(draw: &mut Draw) -> Option<Identity<S>>
        ensures secret { option_map (λ identity. identity) result ≡ taken 32 draw.old }
        ensures left { draw.new ≡ left_after 32 draw.old }
    {
        let secret = draw.take::<32>()?;
        Some(Identity::of(secret))
    }

    /// The recipient that this identity belongs to.
    pub fn to_public(&self) -> Recipient<S>
        ensures { result ≡ S.public_of self.now }
    {
        Recipient::of(S::public(&self.secret))
    }
}

impl<S> Identity<S> {
    // The identity of a secret.
    fn of(secret: [u8; 32]) -> Identity<S>
        ensures { result ≡ secret }
    {
        // For the proof alone: these are bytes, each below 256.
        known_array(&secret);
        Identity {
            secret,
            suite: PhantomData,
        }
    }

    /// The secret is 32 bytes: a fact for proofs alone, which costs nothing.
    pub(crate) fn known(&self)
        ensures { AreBytesOf 32 self.now }
    {
        // For the proof alone: these are bytes, each below 256.
        known_array(&self.secret);
    }

    /// The text of the identity, in upper case: Bech32 (BIP 173) of the secret with the prefix `AGE-SECRET-KEY-`. It shows the
    /// secret. `AllocError` where memory is refused.
    pub fn to_string(&self, alloc: Global) -> Result<SecretString, AllocError>
        ensures { IfOk result (λ text. text ≡ bech32_text identity_prefix self.now) }
    {
        let text = text_of(alloc, "AGE-SECRET-KEY-", &self.secret)?;
        Ok(SecretString::from(text))
    }
}

impl<S> FromStr for Identity<S> {
    type Err = &'static str;

    ghost use Rattle.std.specs.Prelude.{MatchResult, codes};
    ghost use Rattle.age_keys.specs.KeyTexts.{IsRefusedAs};
    ghost use Rattle.age_v1.specs.X25519.{identity_prefix, IsKeyText};

    ghost from_str_gives = { λ text result. MatchResult result (λ identity. IsKeyText identity_prefix text identity)
        (λ message. IsRefusedAs identity_prefix (codes "incorrect identity length") text message.now) };

    /// Reads the text of an identity, in either case, and takes no memory. What it is refused with, in this order:
    ///
    /// - `invalid Bech32 encoding`: it is no Bech32 (BIP 173) of any length.
    /// - `incorrect HRP`: its prefix isn't `AGE-SECRET-KEY-`.
    /// - `incorrect identity length`: it has other than 32 bytes.
    fn from_str(text: &str) -> Result<Identity<S>, &'static str> {
        match parse_key(text, "AGE-SECRET-KEY-", "incorrect identity length") {
            Ok(secret) => Ok(Identity::of(secret)),
            Err(message) => Err(message),
        }
    }
}

impl<S> Clone for Identity<S> {
    ghost use Rattle.std.specs.Prelude.{◌≡◌, ⊤};

    ghost is_clone = { λ identity other. other ≡ identity };

    ghost is_infallible = { λ _. ⊤ };

    // It takes no memory, so it never fails.
    fn clone(&self) -> Result<Identity<S>, AllocError> {
        Ok(Identity::of(self.secret))
    }
}

impl<S: Suite> age_format::Identity for Identity<S> {
    ghost use Rattle.age_v1.specs.Identities.{FirstOf, Steady};
    ghost use Rattle.age_v1.specs.X25519.{UnwrapsBy};

    ghost unwraps = { FirstOf (Steady (UnwrapsBy S.opened S.shared_of S.public_of)) };

    fn unwrap_stanza(
        &mut self,
        alloc: Global,
        stanza: &Stanza,
    ) -> Option<Result<FileKey, DecryptError>> {
        unwrap_first::<S>(alloc, &self.secret, slice::from_ref(stanza))
    }

    // As the trait's own goes through them, but with the public value computed once.
    fn unwrap_stanzas(
        &mut self,
        alloc: Global,
        stanzas: &[Stanza],
    ) -> Option<Result<FileKey, DecryptError>> {
        unwrap_first::<S>(alloc, &self.secret, stanzas)
    }
}
