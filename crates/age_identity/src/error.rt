//! Why a file of identities isn't one of recipients.
ghost use Rattle.std.specs.Prelude.{◌≡◌, Some};
ghost use Rattle.age_identity.specs.ConvertErrors.{convert_message};
ghost use Rattle.age_identity.specs.declared.error.IdentityFileConvertError.TheVariants.{FailedToWriteOutput};
ghost use Rattle.age_error.specs.declared.io.Error.TheVariants.{OutOfMemory};

use age_error::io;
use std::alloc::AllocError;
use std::{error, fmt};

/// Why the recipients of a file of identities aren't written. `filename` is the name of the file, where it has one.
#[derive(Debug, Drop)]
pub enum IdentityFileConvertError {
    /// The output refused, or memory was refused.
    FailedToWriteOutput(io::Error),
    /// The file has an identity of the plugin of this name, whose recipient only the plugin knows.
    IdentityFileContainsPlugin {
        filename: Option<String>,
        plugin_name: String,
    },
    /// The file has no identity.
    NoIdentities {
        filename: Option<String>,
    },
}

impl fmt::Display for IdentityFileConvertError {
    ghost output = { λ e. Some (convert_message e) };

    fn fmt<W: fmt::Write>(&self, f: &mut fmt::Formatter<W>) -> fmt::Result {
        match self {
            IdentityFileConvertError::FailedToWriteOutput(_) => {
                f.write_str("failed to write output")
            }
            IdentityFileConvertError::IdentityFileContainsPlugin { plugin_name, .. } => write!(
                f,
                "identity file contains a plugin identity: {plugin_name}"
            ),
            IdentityFileConvertError::NoIdentities { .. } => f.write_str("no identities in file"),
        }
    }
}

impl error::Error for IdentityFileConvertError {}

impl From<io::Error> for IdentityFileConvertError {
    ghost from_gives = { λ error e. e ≡ FailedToWriteOutput error };

    fn from(error: io::Error) -> IdentityFileConvertError {
        IdentityFileConvertError::FailedToWriteOutput(error)
    }
}

impl From<AllocError> for IdentityFileConvertError {
    ghost from_gives = { λ _ e. e ≡ FailedToWriteOutput OutOfMemory };

    fn from(_: AllocError) -> IdentityFileConvertError {
        IdentityFileConvertError::FailedToWriteOutput(io::Error::OutOfMemory)
    }
}
