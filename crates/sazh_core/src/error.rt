//! What is wrong with files of recipients, of identities and of a passphrase,
//! and with a source of random bytes, and why a command on a file isn't done.
ghost use Rattle.std.specs.Prelude.{◌≡◌};
ghost use Rattle.sazh_core.specs.declared.error.CommandError.TheVariants as command;

use age::streaming::FileError;
use age::{DecryptError, EncryptError, io};
use std::fmt;
use std::fmt::Display;
use thiserror::Error;

/// Why a text isn't that of a file of recipients.
#[derive(Clone, Copy, Debug, Error, PartialEq, Eq)]
pub enum RecipientsError {
    /// It isn't UTF-8.
    #[error("not UTF-8")]
    NotText,
    /// This line, counted from 1, is the text of no recipient, and isn't passed over.
    #[error("line {line} is no recipient")]
    NotRecipient { line: usize },
    /// No line is the text of a recipient.
    #[error("no recipient in it")]
    NoRecipient,
    /// Memory was refused.
    #[error("out of memory")]
    OutOfMemory,
}

/// Why a text isn't that of a file of identities, or the recipients of its identities can't be told.
#[derive(Clone, Copy, Debug, Error, PartialEq, Eq)]
pub enum IdentitiesError {
    /// This line, counted from 1, is no identity, and the file isn't one under a passphrase.
    #[error("line {line} is no identity")]
    NotIdentity { line: usize },
    /// It has more than 16 MiB.
    #[error("more than 16 MiB")]
    TooLong,
    /// An identity in it is a plugin's.
    #[error("an identity of a plugin")]
    Plugin,
    /// No identity is in it.
    #[error("no identity is in it")]
    NoIdentity,
    /// It is encrypted with a passphrase, and its recipients can't be told without that.
    #[error("it is encrypted with a passphrase, without which its recipients can't be told")]
    Encrypted,
    /// Memory was refused.
    #[error("out of memory")]
    OutOfMemory,
}

/// Why the words of a command line name no recipients. A word's number is counted from 0.
#[derive(Debug, Drop, Error)]
pub enum WordsError {
    /// This word is the text of no recipient.
    #[error("no recipient: {why}")]
    NotRecipient { word: usize, why: &'static str },
    /// This word names a file whose bytes aren't those of a file of recipients.
    #[error("{why}")]
    File { word: usize, why: RecipientsError },
    /// This word names a file whose bytes aren't those of a file of identities, or one whose recipients can't be told.
    #[error("{why}")]
    Identities { word: usize, why: IdentitiesError },
    /// Memory was refused.
    #[error("out of memory")]
    OutOfMemory,
}

/// Why a text isn't that of a file of a passphrase.
#[derive(Clone, Copy, Debug, Error, PartialEq, Eq)]
pub enum PassphraseError {
    /// Its first line isn't UTF-8.
    #[error("the passphrase isn't UTF-8")]
    NotText,
    /// Its first line is empty, or there is none.
    #[error("the passphrase is empty")]
    Empty,
    /// Memory was refused.
    #[error("out of memory")]
    OutOfMemory,
}

/// Why the files that a command line gives name nobody who decrypts. A file's number is counted from 0.
#[derive(Clone, Copy, Debug, Error, PartialEq, Eq)]
pub enum KeyringError {
    /// This line of this file, counted from 1, is no identity, and the file isn't one under a passphrase.
    #[error("line {line} is no identity")]
    NotIdentity { file: usize, line: usize },
    /// This file has more than 16 MiB.
    #[error("more than 16 MiB")]
    TooLong { file: usize },
    /// An identity in this file is a plugin's.
    #[error("an identity of a plugin")]
    Plugin { file: usize },
    /// No identity is in this file.
    #[error("no identity is in it")]
    NoIdentity { file: usize },
    /// This file is encrypted with a passphrase, and none is given.
    #[error("it is encrypted with a passphrase, and none is given")]
    NoPassphrase { file: usize },
    /// The text of the passphrase gives none.
    #[error("{0}")]
    Passphrase(PassphraseError),
    /// Memory was refused.
    #[error("out of memory")]
    OutOfMemory,
}

/// Why what is given to encrypt a file to others is refused.
#[derive(Debug, Drop, Error)]
pub enum RekeyError {
    /// What it is to be decrypted with.
    #[error("{0}")]
    Keyring(KeyringError),
    /// The words that name its recipients.
    #[error("{0}")]
    Words(WordsError),
}

/// Why it isn't told what a file shows. Bytes are counted of what its text carries.
#[derive(Debug, Drop, Error)]
pub enum InspectionError {
    /// There is no header at its front, for this reason, which shows at the last of so many bytes.
    #[error("{why}")]
    Header { count: u64, why: DecryptError },
    /// What follows the header isn't read to its end, for this reason, after so many bytes in all.
    #[error("{why}")]
    Rest { count: u64, why: io::Error },
    /// Memory was refused.
    #[error("out of memory")]
    OutOfMemory,
}

/// Why there are no random bytes.
#[derive(Clone, Copy, Debug, Error, PartialEq, Eq)]
pub enum RandomError {
    /// The source gave none.
    #[error("the system gives no random bytes")]
    NoRandom,
    /// Memory was refused.
    #[error("out of memory")]
    OutOfMemory,
}

/// Why a command on a file isn't done. Its text is that of the error in it.
#[derive(Debug, Drop, Error)]
pub enum CommandError {
    /// There are no random bytes. Nothing was read or written.
    #[error("{0}")]
    Random(RandomError),
    /// As the call of the library on the file refuses.
    #[error("{0}")]
    File(FileError),
}

impl From<RandomError> for CommandError {
    ghost from_gives = { λ error e. e ≡ command.Random error };

    fn from(error: RandomError) -> CommandError {
        CommandError::Random(error)
    }
}

impl From<FileError> for CommandError {
    ghost from_gives = { λ error e. e ≡ command.File error };

    fn from(error: FileError) -> CommandError {
        CommandError::File(error)
    }
}

impl From<EncryptError> for CommandError {
    ghost use Rattle.age.specs.FileErrorVariants.{Encrypt};

    ghost from_gives = { λ error e. e ≡ command.File (Encrypt error) };

    fn from(error: EncryptError) -> CommandError {
        CommandError::File(FileError::Encrypt(error))
    }
}

/// Why a command isn't done. Its text is that of the error in it.
#[derive(Debug, Drop)]
pub enum GivenError<G, C> {
    /// For what it was given besides its input. Nothing was read or written.
    Given(G),
    /// For its input, its output, or what it takes on the way.
    Command(C),
}

impl<G: Display, C: Display> Display for GivenError<G, C> {
    fn fmt<W: fmt::Write>(&self, f: &mut fmt::Formatter<W>) -> fmt::Result {
        match self {
            GivenError::Given(error) => write!(f, "{error}"),
            GivenError::Command(error) => write!(f, "{error}"),
        }
    }
}
