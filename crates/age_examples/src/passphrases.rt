//! Files under a passphrase.
ghost use Rattle.std.specs.Prelude.{◌≡◌, ◌≤◌, [], ◌∷◌, Err, IfOk, IfErr, None};
ghost use Rattle.age.specs.Encrypting.{Prepares};
ghost use Rattle.age.specs.Scrypt.{PassphraseRecipient, WrapsUnder};
ghost use Rattle.age.specs.ScryptLaws.{IsMeantFor};
ghost use Rattle.age.specs.FileLaws.{PreparesApart};
ghost use Rattle.age_examples.specs.Keys.{IsWhole, IsNotWritten, RefusesUnless};

use age::draw::Draw;
use age::io::{Error, write_all};
use age::laws::{files_carry_themselves, passphrase_files};
use age::scrypt::Identity;
use age::secrecy::SecretString;
use age::streaming::FileError;
use age::suite::Suite;
use age::suite::laws::known_bytes;
use age::{Encryptor, decrypt};
use std::alloc::Global;

// The file of a plaintext that was prepared for.
fn file_of<S: Suite>(alloc: Global, encryptor: Encryptor<S>, plain: &[u8]) -> Result<Vec<u8>, Error>
    ensures made { IfOk result (λ file. IsWhole S.seal_of encryptor plain.now file.items) }
    ensures refused { IfErr result (IsNotWritten plain.now) }
{
    // Facts for the proof alone.
    files_carry_themselves::<S>();
    // For the proof alone: these are bytes, each below 256.
    known_bytes(plain);
    let mut writer = encryptor.wrap_output(alloc, Vec::new(alloc))?;
    write_all(&mut writer, plain)?;
    let file = writer.finish()?;
    Ok(file)
}

/// Encrypts a plaintext under a passphrase with a work factor from 1 to 63, and decrypts the file with an identity: the plaintext.
///
/// Where the identity has the passphrase and takes the work factor, and a full last chunk of the file doesn't open as one in the middle too,
/// a success is the plaintext, and it refuses as `Encryptor::with_user_passphrase` does, with `TooLong` for a plaintext past 2^60 bytes, or
/// for want of memory, and for nothing else.
pub fn kept_under_a_passphrase<S: Suite>(
    alloc: Global,
    passphrase: SecretString,
    log_n: u8,
    identity: &mut Identity<S>,
    draw: &mut Draw,
    plain: &[u8],
) -> Result<Vec<u8>, FileError>
    requires some { 1 ≤ log_n }
    requires most { log_n ≤ 63 }
    ensures plaintext { let recipient : PassphraseRecipient = record { passphrase = passphrase; factor = log_n } in
        IsMeantFor recipient identity.old →
        PreparesApart (WrapsUnder S.seal_of S.stretch_of S.accepts) (recipient ∷ []) None draw.old draw.new S.seal_of plain.now →
        IfOk result (λ given. given.items ≡ plain.now) }
    ensures refused { let recipient : PassphraseRecipient = record { passphrase = passphrase; factor = log_n } in
        IsMeantFor recipient identity.old →
        PreparesApart (WrapsUnder S.seal_of S.stretch_of S.accepts) (recipient ∷ []) None draw.old draw.new S.seal_of plain.now →
        IfErr result (RefusesUnless (λ e. Prepares (WrapsUnder S.seal_of S.stretch_of S.accepts) (recipient ∷ []) None draw.old (Err e) draw.new)
        (IsNotWritten plain.now)) }
{
    // Facts for the proof alone.
    passphrase_files::<S>();
    // For the proof alone: these are bytes, each below 256.
    known_bytes(passphrase.expose_secret().as_bytes());
    let encryptor = Encryptor::<S>::with_user_passphrase(alloc, passphrase, log_n, draw)?;
    let file = file_of(alloc, encryptor, plain)?;
    match decrypt::<S, Identity<S>>(alloc, identity, &file) {
        Err(error) => Err(FileError::Decrypt(error)),
        Ok(given) => Ok(given),
    }
}
