//! Recipients who know a passphrase.
ghost use Rattle.std.specs.Prelude.{◌≡◌, ◌≤◌, [], ◌∷◌, Ok, IfOk};
ghost use Rattle.std.specs.Result.{result_map_both};
ghost use Rattle.age_error.specs.Bytes.{AreBytes};
ghost use Rattle.age_error.specs.EncryptErrors.{encrypt_refusal};
ghost use Rattle.age_error.specs.Labels.{labels_of};
ghost use Rattle.age_base64.specs.Base64.{columns};
ghost use Rattle.age_v1.specs.Encrypting.{IsOrNoMemory};
ghost use Rattle.age_v1.specs.RecipientType.{no_nonce};
ghost use Rattle.age_v1.specs.Scrypt.{scrypt_stanza};

use crate::scrypt::stretching::{TAG, stretch};
use crate::stanzas::seal_stanza;
use age_base64::encode_columns;
use age_error::EncryptError;
use age_error::bytes::{known_array, known_bytes};
use age_error::suite::ScryptError;
use age_format::Stanza;
use age_suite::draw::Draw;
use age_suite::secrecy::{FileKey, SecretString};
use age_suite::suite::Suite;
use std::alloc::{AllocError, Global};
use std::collections::BTreeSet;
use std::marker::{Model, PhantomData};

/// All who know a passphrase, with the work factor that it is stretched with. It has no `Debug` and no `Display`, so no text shows the
/// passphrase by chance. In contracts it is a record of the passphrase's bytes and the work factor, the logarithm to base 2.
///
/// It wraps a file key in one stanza of the type scrypt. A salt of 16 random bytes is drawn, then the 24 bytes of its one label, and the
/// passphrase is stretched after that. The label is drawn anew each time, so that nobody else may have the file too. Its refusals, in this
/// order: `ShortRandom` where fewer bytes are left, `WorkFactorRefused` where the suite doesn't accept the work factor, and
/// `OutOfMemory`.
#[derive(Drop)]
pub struct Recipient<S> {
    passphrase: SecretString,
    factor: u8,
    suite: PhantomData<S>,
}

impl<S> Model for Recipient<S> {
    ghost use Rattle.std.specs.Prelude.{◌≤◌};
    ghost use Rattle.age_error.specs.Bytes.{AreBytes};
    ghost use Rattle.age_v1.specs.Scrypt.{PassphraseRecipient};

    ghost Value = { PassphraseRecipient };

    ghost view = { λ recipient. record { passphrase = recipient.passphrase; factor = recipient.factor } };

    ghost invariant = { λ recipient. AreBytes recipient.passphrase × (1 ≤ recipient.factor) × (recipient.factor ≤ 63) };
}

impl<S> Recipient<S> {
    /// The recipient of a passphrase and a work factor from 1 to 63: scrypt works on 2^`log_n` blocks. It takes no memory.
    pub fn new(passphrase: SecretString, log_n: u8) -> Recipient<S>
        requires some { 1 ≤ log_n }
        requires most { log_n ≤ 63 }
        ensures { result ≡ record { passphrase = passphrase; factor = log_n } }
    {
        // For the proof alone: these are bytes, each below 256.
        known_bytes(passphrase.expose_secret().as_bytes());
        Recipient {
            passphrase,
            factor: log_n,
            suite: PhantomData,
        }
    }

    /// Takes another work factor from 1 to 63.
    pub fn set_work_factor(&mut self, log_n: u8)
        requires some { 1 ≤ log_n }
        requires most { log_n ≤ 63 }
        ensures { self.new ≡ record { passphrase = self.old.passphrase; factor = log_n } }
    {
        self.factor = log_n;
    }

    /// What a recipient is: a fact for proofs alone, which costs nothing.
    pub(crate) fn known(&self)
        ensures { AreBytes self.now.passphrase × (1 ≤ self.now.factor) × (self.now.factor ≤ 63) }
    {
        // A look at a field opens `self`, whose invariant the proof has then.
        let _ = &self.factor;
    }
}

// The stanza of a salt, a work factor and of the file key sealed under a wrap key.
fn stanza_of<S: Suite>(
    alloc: Global,
    salt: &[u8; 16],
    factor: u8,
    wrap_key: &[u8; 32],
    file_key: &FileKey,
) -> Result<Stanza, EncryptError>
    ensures { IsOrNoMemory (Ok (scrypt_stanza salt.now factor (S.seal_of wrap_key.now no_nonce file_key.now)))
        (result_map_both (λ s. s) (λ e. encrypt_refusal e) result) }
{
    // For the proof alone: these are bytes, each below 256.
    known_array(salt);
    let mut args = Vec::new(alloc);
    args.push(encode_columns(alloc, salt)?)?;
    args.push(format!(in alloc; "{factor}")?)?;
    seal_stanza::<S>(alloc, TAG, args, wrap_key, file_key)
}

// The set of one label: the base64 of random bytes.
fn labels_with(alloc: Global, label: &[u8; 24]) -> Result<BTreeSet<String>, AllocError>
    ensures { IfOk result (λ labels. labels_of labels ≡ columns label.now ∷ []) }
{
    let mut labels = BTreeSet::new(alloc);
    labels.insert(encode_columns(alloc, label)?)?;
    Ok(labels)
}

impl<S: Suite> age_format::Recipient for Recipient<S> {
    ghost use Rattle.age_v1.specs.Scrypt.{WrapsUnder};

    ghost wraps = { λ recipient. WrapsUnder S.seal_of S.stretch_of S.accepts recipient };

    fn wrap_file_key(
        &self,
        alloc: Global,
        file_key: &FileKey,
        draw: &mut Draw,
    ) -> Result<(Vec<Stanza>, BTreeSet<String>), EncryptError> {
        let Some(salt) = draw.take::<16>() else {
            return Err(EncryptError::ShortRandom);
        };
        let Some(label) = draw.take::<24>() else {
            return Err(EncryptError::ShortRandom);
        };
        // For the proof alone: these are bytes, each below 256.
        known_array(&salt);
        known_array(&label);
        known_array(file_key.expose_secret());
        let key = match stretch::<S>(alloc, self.passphrase.expose_secret(), &salt, self.factor) {
            Ok(key) => key,
            Err(ScryptError::InvalidParams) => return Err(EncryptError::WorkFactorRefused),
            Err(ScryptError::OutOfMemory) => return Err(EncryptError::OutOfMemory),
        };
        let mut stanzas = Vec::new(alloc);
        stanzas.push(stanza_of::<S>(alloc, &salt, self.factor, &key, file_key)?)?;
        Ok((stanzas, labels_with(alloc, &label)?))
    }
}
