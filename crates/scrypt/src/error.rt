//! What scrypt refuses with.
ghost use Rattle.std.specs.Prelude.{◌≡◌, Some};
ghost use Rattle.scrypt.specs.Messages.{message};
ghost use Rattle.scrypt.specs.declared.error.ScryptError.TheVariants.{OutOfMemory as out_of_memory};

use std::alloc::AllocError;
use std::{error, fmt};

/// Why no key was made of a passphrase.
#[derive(Clone, Copy, Debug, PartialEq, Eq, Hash)]
pub enum ScryptError {
    /// The work factor is 0 or above 63.
    InvalidParams,
    /// The memory that the work factor asks for was refused.
    OutOfMemory,
}

impl fmt::Display for ScryptError {
    ghost output = { λ e. Some (message e) };

    fn fmt<W: fmt::Write>(&self, f: &mut fmt::Formatter<W>) -> fmt::Result {
        f.write_str(match self {
            ScryptError::InvalidParams => "invalid scrypt parameters",
            ScryptError::OutOfMemory => "out of memory",
        })
    }
}

impl error::Error for ScryptError {}

impl From<AllocError> for ScryptError {
    ghost from_gives = { λ _ e. e ≡ out_of_memory };

    fn from(_: AllocError) -> ScryptError {
        ScryptError::OutOfMemory
    }
}
