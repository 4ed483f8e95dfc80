//! What a call on a whole file refuses with.
ghost use Rattle.std.specs.Prelude.{◌≡◌};
ghost use Rattle.age_error.specs.declared.file.FileError.TheVariants.{Io, Encrypt, Decrypt};

use crate::decrypt::DecryptError;
use crate::encrypt::EncryptError;
use crate::io;
use thiserror::Error;

/// Why a call on a whole file was refused. Its text is that of the error in it.
#[derive(Debug, Drop, Error)]
pub enum FileError {
    /// A reader or a writer refused, or what was read is no payload under the key.
    #[error("{0}")]
    Io(io::Error),
    /// Nothing was encrypted.
    #[error("{0}")]
    Encrypt(EncryptError),
    /// The file's header refused, or no identity has its key.
    #[error("{0}")]
    Decrypt(DecryptError),
}

impl From<io::Error> for FileError {
    ghost from_gives = { λ error e. e ≡ Io error };

    fn from(error: io::Error) -> FileError {
        FileError::Io(error)
    }
}

impl From<EncryptError> for FileError {
    ghost from_gives = { λ error e. e ≡ Encrypt error };

    fn from(error: EncryptError) -> FileError {
        FileError::Encrypt(error)
    }
}

impl From<DecryptError> for FileError {
    ghost from_gives = { λ error e. e ≡ Decrypt error };

    fn from(error: DecryptError) -> FileError {
        FileError::Decrypt(error)
    }
}
