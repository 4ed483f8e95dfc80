//! The commands, from what they are given on: the words of a command line, and the texts of the files that it names.
ghost use Rattle.std.specs.Prelude.{◌≡◌, List, ℕ, [], ◌∷◌, length};
ghost use Rattle.age.specs.EncryptErrors.{encrypt_refusal};
ghost use Rattle.sazh_core.specs.Encrypting.{AppendsEncrypted, draws_for_keys, draws_for_passphrase};
ghost use Rattle.sazh_core.specs.Given.{Answers, DecryptsBy, DecryptsSomeBy, GivesPartBy, MigratedBy, FindsOpenerBy, RekeysBy, Verifies, VerifiesFile, WithGiven};
ghost use Rattle.sazh_core.specs.Locked.{HasLocked, IsLocked, NamesCommand, NamesKeys, is_for_nobody, tells_wrong};
ghost use Rattle.sazh_core.specs.Passphrase.{RefusesPassphrase, first_line};
ghost use Rattle.sazh_core.specs.Words.{AreOfWords, RefusesWords};

use crate::callbacks::GivesOnce;
use crate::decrypting::{decrypt, decrypt_part, migrate_text, seek_part};
use crate::encrypting::{encrypt_to_keys, encrypt_under};
use crate::error::{
    CommandError, GivenError, KeyringError, PassphraseError, RekeyError, WordsError,
};
use crate::holder::Holder;
use crate::keyring::{Held, Keyring, holders_of};
use crate::measuring::{Measured, Measuring};
use crate::opening::opens_header;
use crate::passphrase::passphrase_of;
use crate::random::RandomBytes;
use crate::rekeying::rekey;
use crate::words::{Word, keys_of_words};
use age::armor::{ArmoredReader, Format};
use age::format::HeaderV1;
use age::io::{BufReader, Bytes, Read, Seek, Write};
use age::stream::StreamReader;
use age::streaming::FileError;
use age::suite::Suite;
use age::{Callbacks, DecryptError, EncryptError, Identity, Recipient, scrypt, x25519};
use std::alloc::Global;

/// Encrypts what `reader` still has to the recipients that these words name, as `encrypt_to_keys` does: to all of them, in their order, and to
/// no other.
///
/// # Errors
///
/// - `Given`: the words name no recipients, as `keys_of_words` says. Nothing was read or written, and the source wasn't asked.
/// - `Command`: those of `encrypt_to_keys`.
pub fn encrypt_to_words<'a, S: Suite, B: RandomBytes, R: Read, W: Write>(
    alloc: Global,
    words: &'a [Word],
    source: &mut B,
    format: Format,
    reader: &mut R,
    writer: &mut W,
) -> Result<(), GivenError<WordsError, CommandError>>
    ensures { WithGiven (λ e. RefusesWords ⟦<ArmoredReader<BufReader<Bytes<'a>>> as Read>⟧ S S.public_of words.now e)
        ((source.new ≡ source.old) × (reader.new ≡ reader.old) × (writer.new ≡ writer.old))
        (λ (keys : List (List ℕ)). AreOfWords S.public_of words.now keys)
        (λ keys done. AppendsEncrypted B.gives ⟦<x25519::Recipient<S> as Recipient>⟧.wraps keys (draws_for_keys (length keys)) source.old source.new
        ⟦<S as Suite>⟧ ⟦<R as Read>⟧ ⟦<W as Write>⟧ format reader.old reader.new writer.old writer.new done)
        (λ _ done told. Answers done told) result }
{
    match keys_of_words::<S>(alloc, words) {
        Err(error) => Err(GivenError::Given(error)),
        Ok(keys) => match encrypt_to_keys::<S, B, R, W>(
            alloc, &keys, source, format, reader, writer,
        ) {
            Ok(()) => Ok(()),
            Err(error) => Err(GivenError::Command(error)),
        },
    }
}

/// Encrypts what `reader` still has with the passphrase that this text gives, as `encrypt_under` does: with its first line.
///
/// # Errors
///
/// - `Given`: the text gives no passphrase, as `passphrase_of` says. Nothing was read or written, and the source wasn't asked.
/// - `Command`: those of `encrypt_under`.
pub fn encrypt_under_text<S: Suite, B: RandomBytes, R: Read, W: Write>(
    alloc: Global,
    text: &[u8],
    source: &mut B,
    format: Format,
    reader: &mut R,
    writer: &mut W,
) -> Result<(), GivenError<PassphraseError, CommandError>>
    ensures { WithGiven (λ e. RefusesPassphrase e text.now) ((source.new ≡ source.old) × (reader.new ≡ reader.old) × (writer.new ≡ writer.old))
        (λ (passphrase : List ℕ). passphrase ≡ first_line text.now)
        (λ passphrase done. AppendsEncrypted B.gives ⟦<scrypt::Recipient<S> as Recipient>⟧.wraps
        (record { passphrase = passphrase; factor = 18 } ∷ []) draws_for_passphrase
        source.old source.new ⟦<S as Suite>⟧ ⟦<R as Read>⟧ ⟦<W as Write>⟧ format reader.old reader.new writer.old writer.new done)
        (λ _ done told. Answers done told) result }
{
    match passphrase_of(alloc, text) {
        Err(error) => Err(GivenError::Given(error)),
        Ok(passphrase) => match encrypt_under::<S, B, R, W>(
            alloc, passphrase, source, format, reader, writer,
        ) {
            Ok(()) => Ok(()),
            Err(error) => Err(GivenError::Command(error)),
        },
    }
}

// Whether the recipients of a file of identities are refused since its passphrase doesn't open it.
fn is_wrong_passphrase(refused: &EncryptError) -> bool
    ensures { result ≡ tells_wrong (encrypt_refusal refused.now) }
{
    matches!(
        refused,
        EncryptError::EncryptedIdentities(DecryptError::KeyDecryptionFailed)
    )
}

// Whether this is a file of identities that its passphrase doesn't open.
fn is_locked<S: Suite, R: Read + Drop, C: Callbacks>(
    alloc: Global,
    holder: &mut Holder<S, R, C>,
) -> bool
    ensures { IsLocked holder.old result }
{
    match holder {
        Holder::Key(_) => false,
        Holder::Passphrase(_) => false,
        Holder::File(identity) => match identity.recipients(alloc) {
            Ok(_) => false,
            Err(refused) => is_wrong_passphrase(&refused),
        },
    }
}

// Whether one of them is such a file.
fn has_locked<S: Suite, R: Read + Drop, C: Callbacks>(
    alloc: Global,
    holders: &mut [Holder<S, R, C>],
) -> bool
    ensures { HasLocked holders.old result }
{
    for holder in holders.iter_mut() {
        if is_locked(alloc, holder) {
            return true;
        }
    }
    false
}

// Whether a file wasn't opened since nobody has a key.
fn is_for_nobody(error: &FileError) -> bool
    ensures { result ≡ is_for_nobody error.now }
{
    matches!(error, FileError::Decrypt(DecryptError::NoMatchingKeys))
}

// Why nothing was decrypted: where nobody has a key, and a file of identities isn't opened by its passphrase, that is told.
fn with_locked<S: Suite, R: Read + Drop, C: Callbacks>(
    alloc: Global,
    holders: &mut [Holder<S, R, C>],
    error: FileError,
) -> FileError
    ensures { NamesKeys holders.old error result }
{
    if !is_for_nobody(&error) {
        return error;
    }
    if has_locked(alloc, holders) {
        return FileError::Decrypt(DecryptError::KeyDecryptionFailed);
    }
    error
}

/// Decrypts a whole file, as `decrypt` does, by the first of those who decrypt with what is given that answers.
///
/// # Errors
///
/// - `Given`: what is given names nobody, as `holders_of` says. Nothing was read or written.
/// - `Command`: those of `decrypt`. Where nobody has a key, and a file of identities isn't opened by its passphrase, it is
///   `Decrypt(KeyDecryptionFailed)`.
pub fn decrypt_by<'a, S: Suite, R: Read, W: Write>(
    alloc: Global,
    keyring: &'a Keyring,
    reader: &mut R,
    writer: &mut W,
) -> Result<(), GivenError<KeyringError, FileError>>
    ensures { DecryptsBy ⟦<Holder<S, ArmoredReader<BufReader<Bytes<'a>>>, GivesOnce> as Identity>⟧.unwraps ⟦<S as Suite>⟧
        ⟦<ArmoredReader<BufReader<Bytes<'a>>> as Read>⟧ ⟦<W as Write>⟧ keyring.now ⟦<R as Read>⟧ reader.old reader.new writer.old writer.new result }
{
    match holders_of::<S>(alloc, keyring) {
        Err(error) => Err(GivenError::Given(error)),
        Ok(holders) => {
            let mut holders = holders;
            match decrypt::<S, Held<'a, S>, R, W>(alloc, &mut holders, reader, writer) {
                Ok(()) => Ok(()),
                Err(error) => Err(GivenError::Command(with_locked(alloc, &mut holders, error))),
            }
        }
    }
}

/// Decrypts a whole file, as `decrypt_by` does, and keeps no byte of it: answers the length of its plaintext and its digest by SHA-256.
///
/// A success says that the input carried a file of a plaintext of this length and this digest. The refusals are those of `decrypt_by`, and
/// `Command(Io(TooLong))` of 2^64 bytes and more. After one of `Given` nothing was read, after any other so much as `decrypt_by` had read by then.
pub fn verify_by<'a, S: Suite, R: Read>(
    alloc: Global,
    keyring: &'a Keyring,
    reader: &mut R,
) -> Result<Measured, GivenError<KeyringError, FileError>>
    ensures steps { Verifies ⟦<Holder<S, ArmoredReader<BufReader<Bytes<'a>>>, GivesOnce> as Identity>⟧.unwraps ⟦<S as Suite>⟧
        ⟦<ArmoredReader<BufReader<Bytes<'a>>> as Read>⟧ ⟦<Measuring as Write>⟧ keyring.now ⟦<R as Read>⟧ reader.old reader.new result }
    ensures file { VerifiesFile ⟦<Holder<S, ArmoredReader<BufReader<Bytes<'a>>>, GivesOnce> as Identity>⟧.unwraps ⟦<S as Suite>⟧
        ⟦<ArmoredReader<BufReader<Bytes<'a>>> as Read>⟧ ⟦<Measuring as Write>⟧ keyring.now ⟦<R as Read>⟧ reader.old result }
{
    let mut plaintext = Measuring::new();
    match decrypt_by::<S, R, Measuring>(alloc, keyring, reader, &mut plaintext) {
        Ok(()) => Ok(plaintext.finish()),
        Err(error) => Err(error),
    }
}

/// Which of those who decrypt with what is given opens a file with this header, as `opens_header` does: its number, counted from 0 in the order
/// of `holders_of`.
///
/// # Errors
///
/// - `Given`: what is given names nobody, as `holders_of` says.
/// - `Command(Decrypt)`: those of `opens_header`. Where nobody has a key, and a file of identities isn't opened by its passphrase, it is
///   `KeyDecryptionFailed`.
pub fn opens_by<'a, S: Suite>(
    alloc: Global,
    keyring: &'a Keyring,
    header: &HeaderV1,
) -> Result<usize, GivenError<KeyringError, FileError>>
    ensures { FindsOpenerBy ⟦<Holder<S, ArmoredReader<BufReader<Bytes<'a>>>, GivesOnce> as Identity>⟧.unwraps
        ⟦<ArmoredReader<BufReader<Bytes<'a>>> as Read>⟧
        keyring.now header.now result }
{
    match holders_of::<S>(alloc, keyring) {
        Err(error) => Err(GivenError::Given(error)),
        Ok(holders) => {
            let mut holders = holders;
            match opens_header::<Held<'a, S>>(alloc, &mut holders, header) {
                Ok(number) => Ok(number),
                Err(error) => Err(GivenError::Command(with_locked(
                    alloc,
                    &mut holders,
                    FileError::Decrypt(error),
                ))),
            }
        }
    }
}

/// Decrypts `count` bytes of a file's plaintext from `place` on, as `decrypt_part` does, by the first of those who decrypt with what is given
/// that answers.
///
/// # Errors
///
/// - `Given`: what is given names nobody, as `holders_of` says. Nothing was read or written.
/// - `Command`: those of `decrypt_part`. Where nobody has a key, and a file of identities isn't opened by its passphrase, it is
///   `Decrypt(KeyDecryptionFailed)`.
pub fn decrypt_part_by<'a, S: Suite, R: Read, W: Write>(
    alloc: Global,
    keyring: &'a Keyring,
    place: u64,
    count: u64,
    reader: &mut R,
    writer: &mut W,
) -> Result<(), GivenError<KeyringError, FileError>>
    ensures { DecryptsSomeBy ⟦<Holder<S, ArmoredReader<BufReader<Bytes<'a>>>, GivesOnce> as Identity>⟧.unwraps ⟦<S as Suite>⟧
        ⟦<ArmoredReader<BufReader<Bytes<'a>>> as Read>⟧ ⟦<W as Write>⟧ keyring.now
        ⟦<R as Read>⟧ place count reader.old reader.new writer.old writer.new result }
{
    match holders_of::<S>(alloc, keyring) {
        Err(error) => Err(GivenError::Given(error)),
        Ok(holders) => {
            let mut holders = holders;
            match decrypt_part::<S, Held<'a, S>, R, W>(
                alloc,
                &mut holders,
                place,
                count,
                reader,
                writer,
            ) {
                Ok(()) => Ok(()),
                Err(error) => Err(GivenError::Command(with_locked(alloc, &mut holders, error))),
            }
        }
    }
}

/// Decrypts `count` bytes of a file's plaintext from `place` on, as `seek_part` does, by the first of those who decrypt with what is given that
/// answers. The file is gone then.
///
/// # Errors
///
/// - `Given`: what is given names nobody, as `holders_of` says. Nothing was read or written.
/// - `Command`: those of `seek_part`. Where nobody has a key, and a file of identities isn't opened by its passphrase, it is
///   `Decrypt(KeyDecryptionFailed)`.
pub fn seek_part_by<'a, S: Suite, R: Seek + Drop, W: Write>(
    alloc: Global,
    keyring: &'a Keyring,
    place: u64,
    count: u64,
    file: R,
    writer: &mut W,
) -> Result<(), GivenError<KeyringError, FileError>>
    ensures { GivesPartBy ⟦<Holder<S, ArmoredReader<BufReader<Bytes<'a>>>, GivesOnce> as Identity>⟧.unwraps ⟦<S as Suite>⟧
        ⟦<ArmoredReader<BufReader<Bytes<'a>>> as Read>⟧ ⟦<W as Write>⟧ keyring.now ⟦<R as Read>⟧ ⟦<ArmoredReader<BufReader<R>> as Read>⟧
        ⟦<StreamReader<S, ArmoredReader<BufReader<R>>> as Read>⟧
        ⟦<ArmoredReader<BufReader<R>> as Seek>⟧.seek_refuses place count «file» writer.old writer.new result }
{
    match holders_of::<S>(alloc, keyring) {
        Err(error) => Err(GivenError::Given(error)),
        Ok(holders) => {
            let mut holders = holders;
            match seek_part::<S, Held<'a, S>, R, W>(
                alloc,
                &mut holders,
                place,
                count,
                file,
                writer,
            ) {
                Ok(()) => Ok(()),
                Err(error) => Err(GivenError::Command(with_locked(alloc, &mut holders, error))),
            }
        }
    }
}

/// Rewrites a file from before the standard, as `migrate_text` does, by the first of those who decrypt with what is given that answers.
///
/// # Errors
///
/// - `Given`: what is given names nobody, as `holders_of` says. Nothing was read or written.
/// - `Command`: those of `migrate_text`. Where nobody has a key, and a file of identities isn't opened by its passphrase, it is
///   `Decrypt(KeyDecryptionFailed)`.
pub fn migrate_by<'a, S: Suite, R: Read + Drop, W: Write>(
    alloc: Global,
    keyring: &'a Keyring,
    reader: R,
    writer: &mut W,
) -> Result<(), GivenError<KeyringError, FileError>>
    ensures { MigratedBy ⟦<Holder<S, ArmoredReader<BufReader<Bytes<'a>>>, GivesOnce> as Identity>⟧.unwraps ⟦<S as Suite>⟧
        ⟦<ArmoredReader<BufReader<Bytes<'a>>> as Read>⟧ ⟦<W as Write>⟧ keyring.now ⟦<R as Read>⟧
        ⟦<ArmoredReader<BufReader<R>> as Read>⟧ reader writer.old writer.new result }
{
    match holders_of::<S>(alloc, keyring) {
        Err(error) => Err(GivenError::Given(error)),
        Ok(holders) => {
            let mut holders = holders;
            match migrate_text::<S, Held<'a, S>, R, W>(alloc, &mut holders, reader, writer) {
                Ok(()) => Ok(()),
                Err(error) => Err(GivenError::Command(with_locked(alloc, &mut holders, error))),
            }
        }
    }
}

// The same of a command that draws random bytes too.
fn command_with_locked<S: Suite, R: Read + Drop, C: Callbacks>(
    alloc: Global,
    holders: &mut [Holder<S, R, C>],
    error: CommandError,
) -> CommandError
    ensures { NamesCommand holders.old error result }
{
    match error {
        CommandError::Random(error) => CommandError::Random(error),
        CommandError::File(error) => CommandError::File(with_locked(alloc, holders, error)),
    }
}

/// Encrypts the plaintext of a file to the recipients that these words name, as `rekey` does, decrypted by the first of those who decrypt with
/// what is given that answers.
///
/// # Errors
///
/// - `Given`: the words name no recipients, as `keys_of_words` says, or else what is given names nobody, as `holders_of` says. Nothing was
///   drawn or written.
/// - `Command`: those of `rekey`. Where nobody has a key, and a file of identities isn't opened by its passphrase, it is
///   `File(Decrypt(KeyDecryptionFailed))`.
pub fn rekey_by<'a, S: Suite, B: RandomBytes, R: Read + Drop, W: Write>(
    alloc: Global,
    keyring: &'a Keyring,
    words: &'a [Word],
    source: &mut B,
    format: Format,
    reader: R,
    writer: &mut W,
) -> Result<(), GivenError<RekeyError, CommandError>>
    ensures { RekeysBy ⟦<Holder<S, ArmoredReader<BufReader<Bytes<'a>>>, GivesOnce> as Identity>⟧.unwraps B.gives
        ⟦<x25519::Recipient<S> as Recipient>⟧.wraps
        ⟦<S as Suite>⟧ ⟦<ArmoredReader<BufReader<Bytes<'a>>> as Read>⟧ ⟦<W as Write>⟧ keyring.now words.now ⟦<R as Read>⟧
        ⟦<ArmoredReader<BufReader<R>> as Read>⟧
        ⟦<StreamReader<S, ArmoredReader<BufReader<R>>> as Read>⟧ format source.old source.new reader writer.old writer.new result }
{
    let keys = match keys_of_words::<S>(alloc, words) {
        Err(error) => return Err(GivenError::Given(RekeyError::Words(error))),
        Ok(keys) => keys,
    };
    match holders_of::<S>(alloc, keyring) {
        Err(error) => Err(GivenError::Given(RekeyError::Keyring(error))),
        Ok(holders) => {
            let mut holders = holders;
            match rekey::<S, Held<'a, S>, B, R, W>(
                alloc,
                &mut holders,
                &keys,
                source,
                format,
                reader,
                writer,
            ) {
                Ok(()) => Ok(()),
                Err(error) => Err(GivenError::Command(command_with_locked(
                    alloc,
                    &mut holders,
                    error,
                ))),
            }
        }
    }
}
