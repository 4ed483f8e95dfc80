//! Identities of those who know a passphrase.
ghost use Rattle.std.specs.Prelude.{◌≡◌, ◌⊎◌, ◌+◌, ◌≤◌, Some, Err, length};
ghost use Rattle.age_error.specs.DecryptErrors.{decrypt_refusal, ExcessiveWork, OutOfMemory as out_of_memory};
ghost use Rattle.age_format.specs.Unwrapping.{key_answer};
ghost use Rattle.age_v1.specs.RecipientType.{UnwrapsOwn};
ghost use Rattle.age_v1.specs.Scrypt.{HasStretching, key_under};

use crate::scrypt::stretching::{TAG, stretch, stretching_of};
use crate::stanzas::open_file_key;
use age_error::DecryptError;
use age_error::suite::ScryptError;
use age_format::Stanza;
use age_suite::secrecy::{FileKey, SecretString};
use age_suite::suite::Suite;
use std::alloc::Global;
use std::marker::{Model, PhantomData};

/// One who decrypts with a passphrase. It has no `Debug` and no `Display`, so no text shows the passphrase by chance. In contracts it
/// is a record of the passphrase's bytes, of the work factor that it is meant for and of the largest one that it takes, both logarithms
/// to base 2.
///
/// It answers to stanzas of the type scrypt, and passes over all others. What it refuses one of that type with, in this order, but for
/// `OutOfMemory`, which can come in place of each:
///
/// - `InvalidHeader`: it hasn't two arguments, the base64 of 16 bytes and the decimal of a number from 1 to 255 without leading zeros, or
///   a body of 32 bytes.
/// - `ExcessiveWork`: the number is above the largest work factor, for which no work is done, or the suite doesn't accept it.
/// - `DecryptionFailed`: the body doesn't open under the passphrase.
#[derive(Drop)]
pub struct Identity<S> {
    passphrase: SecretString,
    target: u8,
    most: u8,
    suite: PhantomData<S>,
}

impl<S> Model for Identity<S> {
    ghost use Rattle.age_v1.specs.Scrypt.{PassphraseIdentity};

    ghost Value = { PassphraseIdentity };

    ghost view = { λ identity. record { passphrase = identity.passphrase; target = identity.target; most = identity.most } };
}

impl<S> Identity<S> {
    /// The identity of a passphrase, meant for a work factor of at most 63. It takes factors up to four above it, which is sixteen
    /// times the work. It takes no memory.
    pub fn new(passphrase: SecretString, target: u8) -> Identity<S>
        requires { target ≤ 63 }
        ensures { result ≡ record { passphrase = passphrase; target = target; most = target + 4 } }
    {
        Identity {
            passphrase,
            target,
            most: target + 4,
            suite: PhantomData,
        }
    }

    /// Takes work factors up to this one, and none above it. A stanza that asks for more is refused before any work is done.
    pub fn set_max_work_factor(&mut self, most: u8)
        ensures { self.new ≡ record { passphrase = self.old.passphrase; target = self.old.target; most = most } }
    {
        self.most = most;
    }
}

impl<S: Suite> Identity<S> {
    // The refusal of a work factor.
    fn too_much(&self, required: u8) -> DecryptError
        ensures { decrypt_refusal result ≡ ExcessiveWork required self.now.target }
    {
        DecryptError::ExcessiveWork {
            required,
            target: self.target,
        }
    }

    // What it answers to a salt, a work factor and a body of 32 bytes.
    fn open_under(
        &self,
        alloc: Global,
        salt: &[u8; 16],
        factor: u8,
        body: &[u8],
    ) -> Result<FileKey, DecryptError>
        requires { length body.now ≡ 32 }
        ensures { (key_answer result ≡ key_under S.opened S.stretch_of S.accepts self.now (record { salt = salt.now; factor = factor }) body.now)
            ⊎ (key_answer result ≡ Err out_of_memory) }
    {
        if factor > self.most {
            return Err(self.too_much(factor));
        }
        let key = match stretch::<S>(alloc, self.passphrase.expose_secret(), salt, factor) {
            Ok(key) => key,
            Err(ScryptError::InvalidParams) => return Err(self.too_much(factor)),
            Err(ScryptError::OutOfMemory) => return Err(DecryptError::OutOfMemory),
        };
        match open_file_key::<S>(alloc, &key, body)? {
            Some(file_key) => Ok(file_key),
            None => Err(DecryptError::DecryptionFailed),
        }
    }

    // What it answers to a stanza with the tag of this type.
    fn unwrap_own(&self, alloc: Global, stanza: &Stanza) -> Result<FileKey, DecryptError>
        ensures { UnwrapsOwn HasStretching (λ with_ body. Some (key_under S.opened S.stretch_of S.accepts self.now with_ body)) stanza.now
            (Some (key_answer result)) }
    {
        match stretching_of(alloc, stanza)? {
            Some(with_) => self.open_under(alloc, with_.salt(), with_.factor(), stanza.body()),
            None => Err(DecryptError::InvalidHeader),
        }
    }
}

impl<S: Suite> age_format::Identity for Identity<S> {
    ghost use Rattle.age_v1.specs.Identities.{FirstOf, Steady};
    ghost use Rattle.age_v1.specs.Scrypt.{UnwrapsUnder};

    ghost unwraps = { FirstOf (Steady (UnwrapsUnder S.opened S.stretch_of S.accepts)) };

    fn unwrap_stanza(
        &mut self,
        alloc: Global,
        stanza: &Stanza,
    ) -> Option<Result<FileKey, DecryptError>> {
        if stanza.tag() != TAG {
            return None;
        }
        Some(self.unwrap_own(alloc, stanza))
    }
}
