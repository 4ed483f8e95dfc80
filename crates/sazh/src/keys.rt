//! Whom to encrypt to, and with what to decrypt: what the words of a command line name is read, and looked at once before anything is written.

use crate::failure::{Failure, done_with, named, said, tell};
use crate::files::{copied, read};
use crate::lines::{Wanted, bad_line, bad_plugin, bad_word};
use age_standard::StandardSuite;
use sazh_command::{Identities, Recipient};
use sazh_core::error::{IdentitiesError, KeyringError, RecipientsError, WordsError};
use sazh_core::holder::Holder;
use sazh_core::keyring::{Held, KeyFile, Keyring, holders_of};
use sazh_core::passphrase::passphrase_of;
use sazh_core::words::{Word, keys_of_words};

/// The text of the file of a passphrase of this name, which gives one.
pub fn passphrase_text(rt: &HostRuntime, name: &str) -> Result<Vec<u8>, Failure> {
    let text = read(rt, name)?;
    done_with(rt, name, passphrase_of(rt.alloc(), &text))?;
    Ok(text)
}

// A word that names recipients, with the bytes of the file that it names.
fn word_of(rt: &HostRuntime, word: &Recipient) -> Result<Word, Failure> {
    match word {
        Recipient::Text(text) => Ok(Word::Text(copied(rt, text)?)),
        Recipient::File(name) => Ok(Word::File(read(rt, name)?)),
        Recipient::IdentityFile(name) => Ok(Word::Identities(read(rt, name)?)),
    }
}

// The words that name recipients, in their order.
fn words_of(rt: &HostRuntime, asked: &[Recipient]) -> Result<Vec<Word>, Failure> {
    let mut words: Vec<Word> = Vec::new(rt.alloc());
    for word in asked {
        words.push(word_of(rt, word)?)?;
    }
    Ok(words)
}

// That the file of this name, which has these bytes, is none of recipients.
fn bad_file(rt: &HostRuntime, name: &str, bytes: &[u8], why: RecipientsError) -> Failure {
    match why {
        RecipientsError::NotRecipient { line } => {
            bad_line(rt, name, bytes, line, Wanted::Recipient)
        }
        why => named(rt, name, &why),
    }
}

/// That the recipients of the file of identities of this name, which has these bytes, can't be told.
pub fn bad_identities(rt: &HostRuntime, name: &str, bytes: &[u8], why: IdentitiesError) -> Failure {
    match why {
        IdentitiesError::OutOfMemory => Failure::OutOfMemory,
        IdentitiesError::NotIdentity { line } => bad_line(rt, name, bytes, line, Wanted::Identity),
        IdentitiesError::Plugin => bad_plugin(rt, name, bytes),
        why => named(rt, name, &why),
    }
}

// That one of these words was refused.
fn bad_words(rt: &HostRuntime, asked: &[Recipient], words: &[Word], error: WordsError) -> Failure {
    match error {
        WordsError::OutOfMemory => Failure::OutOfMemory,
        WordsError::NotRecipient { word, why } => match asked.get(word) {
            Some(Recipient::Text(text)) => bad_word(rt, text),
            _ => said(rt, &why),
        },
        WordsError::File { word, why } => match (asked.get(word), words.get(word)) {
            (Some(Recipient::File(name)), Some(Word::File(bytes))) => bad_file(
                rt, name, bytes, why,
            ),
            _ => said(rt, &why),
        },
        WordsError::Identities { word, why } => match (asked.get(word), words.get(word)) {
            (Some(Recipient::IdentityFile(name)), Some(Word::Identities(bytes))) => {
                bad_identities(rt, name, bytes, why)
            }
            _ => said(rt, &why),
        },
    }
}

/// The words that name recipients, in their order, with the bytes of the files that they name. Each names some.
pub fn words(rt: &HostRuntime, asked: &[Recipient]) -> Result<Vec<Word>, Failure> {
    let words = words_of(rt, asked)?;
    match keys_of_words::<StandardSuite>(rt.alloc(), &words) {
        Ok(_) => Ok(words),
        Err(error) => Err(bad_words(rt, asked, &words, error)),
    }
}

// A file of identities of this name, with its bytes.
fn key_file(rt: &HostRuntime, name: &str) -> Result<KeyFile, Failure> {
    let bytes = read(rt, name)?;
    let name = copied(rt, name)?;
    Ok(KeyFile { name, bytes })
}

// The files of identities of these names, in their order.
fn key_files(rt: &HostRuntime, names: &[String]) -> Result<Vec<KeyFile>, Failure> {
    let mut files: Vec<KeyFile> = Vec::new(rt.alloc());
    for name in names {
        files.push(key_file(rt, name)?)?;
    }
    Ok(files)
}

// What is wrong with a file of identities.
fn bad_key_file(rt: &HostRuntime, file: &KeyFile, error: KeyringError) -> Failure {
    let name = file.name.as_str();
    match error {
        KeyringError::NotIdentity { line, .. } => {
            bad_line(rt, name, &file.bytes, line, Wanted::Identity)
        }
        KeyringError::Plugin { .. } => bad_plugin(rt, name, &file.bytes),
        KeyringError::NoPassphrase { .. } => named(
            rt,
            name,
            &"it is encrypted with a passphrase: give that by -p FILE",
        ),
        error => named(rt, name, &error),
    }
}

// That these files, and the file of a passphrase of this name, name nobody who decrypts.
fn bad_keyring(
    rt: &HostRuntime,
    files: &[KeyFile],
    passphrase: Option<&str>,
    error: KeyringError,
) -> Failure {
    let number = match error {
        KeyringError::OutOfMemory => return Failure::OutOfMemory,
        KeyringError::Passphrase(why) => {
            return match passphrase {
                Some(name) => named(rt, name, &why),
                None => said(rt, &why),
            };
        }
        KeyringError::NotIdentity { file, .. }
        | KeyringError::TooLong { file }
        | KeyringError::Plugin { file }
        | KeyringError::NoIdentity { file }
        | KeyringError::NoPassphrase { file } => file,
    };
    match files.get(number) {
        Some(file) => bad_key_file(rt, file, error),
        None => said(rt, &error),
    }
}

// What is told of a passphrase that nobody asks for.
const UNUSED: &str = "its passphrase isn't needed: no file of identities is encrypted";

// Whether one of those who decrypt has the keys in an encrypted file.
fn has_protected(all: &[Held<StandardSuite>]) -> bool {
    for one in all {
        if let Holder::File(_) = one {
            return true;
        }
    }
    false
}

// The text of the file of a passphrase of this name, where one is named.
fn text_if_named(rt: &HostRuntime, name: Option<&str>) -> Result<Option<Vec<u8>>, Failure> {
    match name {
        None => Ok(None),
        Some(name) => Ok(Some(read(rt, name)?)),
    }
}

// Whether a file of identities is encrypted. Each names somebody who decrypts.
fn is_protected(
    rt: &HostRuntime,
    keyring: &Keyring,
    passphrase: Option<&str>,
) -> Result<bool, Failure> {
    match holders_of::<StandardSuite>(rt.alloc(), keyring) {
        Ok(all) => Ok(has_protected(&all)),
        Err(error) => match keyring {
            Keyring::Files(files, _) => Err(bad_keyring(rt, files, passphrase, error)),
            Keyring::Passphrase(_) => Err(said(rt, &error)),
        },
    }
}

// The identities in the files of these names, and the passphrase in that of another for those that are encrypted.
fn keyring_of_files(
    rt: &HostRuntime,
    names: &[String],
    passphrase: Option<&str>,
) -> Result<Keyring, Failure> {
    let files = key_files(rt, names)?;
    let keyring = Keyring::Files(files, text_if_named(rt, passphrase)?);
    let is_needed = is_protected(rt, &keyring, passphrase)?;
    match passphrase {
        Some(name) if !is_needed => tell(rt, &named(rt, name, &UNUSED)),
        _ => {}
    }
    Ok(keyring)
}

/// What there is to decrypt with. It names somebody who decrypts.
pub fn keyring(rt: &HostRuntime, asked: &Identities) -> Result<Keyring, Failure> {
    match asked {
        Identities::Files(names) => keyring_of_files(rt, names, None),
        Identities::ProtectedFiles(names, file) => {
            keyring_of_files(rt, names, Some(file.as_str()))
        }
        Identities::PassphraseFile(name) => Ok(Keyring::Passphrase(passphrase_text(rt, name)?)),
    }
}
