//! Why a text is not read or not written.
ghost use Rattle.std.specs.Prelude.{◌≡◌, Some};
ghost use Rattle.age_bech32.specs.Refusals.{message};
ghost use Rattle.age_bech32.specs.declared.error.Bech32Error.TheVariants.{OutOfMemory as out_of_memory};

use std::alloc::{AllocError, AllocFailed};
use std::{error, fmt};

/// Why a text is not read or not written.
#[derive(Clone, Copy, Debug, PartialEq, Eq)]
pub enum Bech32Error {
    /// The text is no Bech32, or the prefix may not be written.
    Invalid,
    /// Memory was refused.
    OutOfMemory,
}

impl fmt::Display for Bech32Error {
    ghost output = { λ e. Some (message e) };

    fn fmt<W: fmt::Write>(&self, f: &mut fmt::Formatter<W>) -> fmt::Result {
        f.write_str(match self {
            Bech32Error::Invalid => "invalid Bech32 encoding",
            Bech32Error::OutOfMemory => "out of memory",
        })
    }
}

impl error::Error for Bech32Error {}

impl From<AllocError> for Bech32Error {
    ghost from_gives = { λ _ e. e ≡ out_of_memory };

    fn from(_: AllocError) -> Bech32Error {
        Bech32Error::OutOfMemory
    }
}

impl<T: Drop> From<AllocFailed<T>> for Bech32Error {
    ghost from_gives = { λ _ e. e ≡ out_of_memory };

    fn from(_: AllocFailed<T>) -> Bech32Error {
        Bech32Error::OutOfMemory
    }
}
