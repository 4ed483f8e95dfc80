//! X25519 recipients.
ghost use Rattle.std.specs.Prelude.{◌≡◌};
ghost use Rattle.age_error.specs.Bytes.{AreBytesOf};

use crate::texts::parse_key;
use crate::x25519::wrapping::{NO_SECRET, stanza_of, wrap_key};
use age_bech32::encode_array;
use age_error::EncryptError;
use age_error::bytes::known_array;
use age_format::Stanza;
use age_suite::draw::Draw;
use age_suite::secrecy::FileKey;
use age_suite::suite::Suite;
use std::alloc::{AllocError, Global};
use std::collections::BTreeSet;
use std::fmt;
use std::hash::{Hash, Hasher};
use std::marker::{Model, PhantomData};
use std::str::FromStr;

/// One to whom files are encrypted: the public value of an identity's secret. In contracts it is the list of its 32 bytes.
#[derive(Drop)]
pub struct Recipient<S> {
    public: [u8; 32],
    suite: PhantomData<S>,
}

impl<S> Model for Recipient<S> {
    ghost use Rattle.std.specs.Prelude.{List, ℕ};
    ghost use Rattle.age_error.specs.Bytes.{AreBytesOf};

    ghost Value = { List ℕ };

    ghost view = { λ recipient. recipient.public };

    ghost invariant = { λ recipient. AreBytesOf 32 recipient.public };
}

impl<S> Recipient<S> {
    // The recipient of a public value.
    pub(crate) fn of(public: [u8; 32]) -> Recipient<S>
        ensures { result ≡ public }
    {
        // For the proof alone: these are bytes, each below 256.
        known_array(&public);
        Recipient {
            public,
            suite: PhantomData,
        }
    }

    /// The public value is 32 bytes: a fact for proofs alone, which costs nothing.
    pub(crate) fn known(&self)
        ensures { AreBytesOf 32 self.now }
    {
        // For the proof alone: these are bytes, each below 256.
        known_array(&self.public);
    }
}

impl<S: Suite> age_format::Recipient for Recipient<S> {
    ghost use Rattle.age_v1.specs.X25519.{WrapsFor};

    ghost wraps = { λ recipient. WrapsFor S.seal_of S.shared_of S.public_of recipient };

    fn wrap_file_key(
        &self,
        alloc: Global,
        file_key: &FileKey,
        draw: &mut Draw,
    ) -> Result<(Vec<Stanza>, BTreeSet<String>), EncryptError> {
        let Some(ephemeral) = draw.take::<32>() else {
            return Err(EncryptError::ShortRandom);
        };
        // For the proof alone: these are bytes, each below 256.
        known_array(&ephemeral);
        known_array(file_key.expose_secret());
        let shared = S::x25519(&ephemeral, &self.public);
        if shared == NO_SECRET {
            return Err(EncryptError::ZeroSharedSecret);
        }
        let share = S::public(&ephemeral);
        let key = wrap_key(&share, &self.public, &shared);
        let mut stanzas = Vec::new(alloc);
        stanzas.push(stanza_of::<S>(alloc, &share, &key, file_key)?)?;
        Ok((stanzas, BTreeSet::new(alloc)))
    }
}

impl<S> FromStr for Recipient<S> {
    type Err = &'static str;

    ghost use Rattle.std.specs.Prelude.{MatchResult, codes};
    ghost use Rattle.age_keys.specs.KeyTexts.{IsRefusedAs};
    ghost use Rattle.age_v1.specs.X25519.{recipient_prefix, IsKeyText};

    ghost from_str_gives = { λ text result. MatchResult result (λ recipient. IsKeyText recipient_prefix text recipient)
        (λ message. IsRefusedAs recipient_prefix (codes "incorrect pubkey length") text message.now) };

    /// Reads the text of a recipient, in either case, and takes no memory. What it is refused with, in this order:
    ///
    /// - `invalid Bech32 encoding`: it is no Bech32 (BIP 173) of any length.
    /// - `incorrect HRP`: its prefix isn't `age`.
    /// - `incorrect pubkey length`: it has other than 32 bytes.
    fn from_str(text: &str) -> Result<Recipient<S>, &'static str> {
        match parse_key(text, "age", "incorrect pubkey length") {
            Ok(public) => Ok(Recipient::of(public)),
            Err(message) => Err(message),
        }
    }
}

impl<S> fmt::Display for Recipient<S> {
    ghost use Rattle.std.specs.Prelude.{Some};
    ghost use Rattle.age_bech32.specs.Written.{bech32_text};
    ghost use Rattle.age_v1.specs.X25519.{recipient_prefix};

    ghost output = { λ recipient. Some (bech32_text recipient_prefix recipient) };

    /// The text of the recipient, in lower case.
    fn fmt<W: fmt::Write>(&self, f: &mut fmt::Formatter<W>) -> fmt::Result {
        let Some(text) = encode_array::<62>("age", &self.public) else {
            unreachable!();
        };
        match str::from_utf8(&text) {
            Ok(text) => f.write_str(text),
            Err(_) => unreachable!(),
        }
    }
}

impl<S> fmt::Debug for Recipient<S> {
    ghost use Rattle.std.specs.Prelude.{Some};
    ghost use Rattle.age_bech32.specs.Written.{bech32_text};
    ghost use Rattle.age_v1.specs.X25519.{recipient_prefix};

    ghost debug_output = { λ recipient. Some (bech32_text recipient_prefix recipient) };

    // The text of `Display`.
    fn fmt<W: fmt::Write>(&self, f: &mut fmt::Formatter<W>) -> fmt::Result {
        fmt::Display::fmt(self, f)
    }
}

impl<S> Clone for Recipient<S> {
    ghost use Rattle.std.specs.Prelude.{◌≡◌, ⊤};

    ghost is_clone = { λ recipient other. other ≡ recipient };

    ghost is_infallible = { λ _. ⊤ };

    // It takes no memory, so it never fails.
    fn clone(&self) -> Result<Recipient<S>, AllocError> {
        Ok(Recipient::of(self.public))
    }
}

impl<S> PartialEq for Recipient<S> {
    ghost use Rattle.std.specs.Str.{bytes_eq};
    ghost use Rattle.std.specs.Cmp.{partial_equiv_from_equiv};
    ghost use Rattle.std.proofs.lemmas.Cmp.{nat_list_eq_equiv};

    ghost eq = { bytes_eq };

    ghost laws = { partial_equiv_from_equiv nat_list_eq_equiv };

    /// Whether the 32 bytes are the same.
    fn eq(&self, other: &Recipient<S>) -> bool {
        self.public == other.public
    }
}

impl<S> Eq for Recipient<S> {
    ghost use Rattle.std.proofs.lemmas.Cmp.{nat_list_eq_equiv};

    ghost laws = { nat_list_eq_equiv };
}

impl<S> Hash for Recipient<S> {
    ghost use Rattle.std.specs.Prelude.{[], ◌∷◌};
    ghost use Rattle.age_keys.specs.RecipientLemmas.{same_input};

    ghost hash_input = { λ recipient. recipient ∷ [] };

    ghost respects_eq = { same_input };

    /// Its 32 bytes in one write.
    fn hash<H: Hasher>(&self, state: &mut H) {
        state.write(&self.public);
    }
}
