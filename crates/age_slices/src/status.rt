//! The numbers of refusals, as callers outside of Rattle see them.
//!
//! 0 is a success, 1 that the room for the answer is too short, and each refusal has a number above 1.
ghost use Rattle.std.specs.Prelude.{◌≡◌, ◌<◌};
ghost use Rattle.age_slices.specs.Status;

use age::armor::ArmoredReadError;
use age::io::Error;
use age::streaming::FileError;
use age::{DecryptError, EncryptError};

/// The answer was handed out.
pub const DONE: u32 = 0;

/// The room for the answer is too short. How long it has to be is told beside it.
pub const OUT_TOO_SHORT: u32 = 1;

/// The front that was handed in is too short to tell. More of the file is needed.
pub const NEED_MORE: u32 = 2;

/// An argument has another length, or is larger, than the call takes.
pub const BAD_ARGUMENT: u32 = 3;

/// Memory was refused.
pub const OUT_OF_MEMORY: u32 = 4;

/// The number of a fault of a text in armor.
pub fn of_armor(fault: ArmoredReadError) -> u32
    ensures number { result ≡ Status.of_armor fault }
    ensures above { 1 < result }
{
    match fault {
        ArmoredReadError::Base64 => 30,
        ArmoredReadError::InvalidBeginMarker => 31,
        ArmoredReadError::InvalidUtf8 => 32,
        ArmoredReadError::LineContainsCr => 33,
        ArmoredReadError::MissingPadding => 34,
        ArmoredReadError::NotWrappedAt64Chars => 35,
        ArmoredReadError::ShortLineInMiddle => 36,
        ArmoredReadError::TrailingGarbage => 37,
    }
}

/// The number of what a reader, a writer or a seek refused with. That of a fault of a device doesn't tell its kind, and that of a line that is no
/// identity doesn't tell the line.
pub fn of_io(error: Error) -> u32
    ensures number { result ≡ Status.of_io error }
    ensures above { 1 < result }
{
    match error {
        Error::Device(_) => 10,
        Error::UnexpectedEof => 11,
        Error::WriteZero => 12,
        Error::BeforeStart => 13,
        Error::PastEnd => 14,
        Error::Truncated => 15,
        Error::BadChunk => 16,
        Error::AfterLast => 17,
        Error::LastChunkEmpty => 18,
        Error::BadEnd => 19,
        Error::TooLong => 20,
        Error::LimitExceeded => 21,
        Error::Armor(fault) => of_armor(fault),
        Error::NotIdentity { .. } => 22,
        Error::Failed => 23,
        Error::OutOfMemory => OUT_OF_MEMORY,
    }
}

/// The number of why a file isn't decrypted.
pub fn of_decrypt(error: &DecryptError) -> u32
    ensures number { result ≡ Status.of_decrypt error.now }
    ensures above { 1 < result }
{
    match error {
        DecryptError::DecryptionFailed => 40,
        DecryptError::ExcessiveWork { .. } => 41,
        DecryptError::InvalidHeader => 42,
        DecryptError::InvalidMac => 43,
        DecryptError::Io(error) => of_io(*error),
        DecryptError::KeyDecryptionFailed => 44,
        DecryptError::NoMatchingKeys => 45,
        DecryptError::PluginResolve(_) => 46,
        DecryptError::UnknownFormat => 47,
        DecryptError::OutOfMemory => OUT_OF_MEMORY,
    }
}

/// The number of why nothing is encrypted.
pub fn of_encrypt(error: &EncryptError) -> u32
    ensures number { result ≡ Status.of_encrypt error.now }
    ensures above { 1 < result }
{
    match error {
        EncryptError::EncryptedIdentities(_) => 50,
        EncryptError::IncompatibleRecipients { .. } => 51,
        EncryptError::InvalidRecipientLabels(_) => 52,
        EncryptError::Io(error) => of_io(*error),
        EncryptError::MissingRecipients => 53,
        EncryptError::MixedRecipientAndPassphrase => 54,
        EncryptError::PluginResolve(_) => 46,
        EncryptError::ShortRandom => 55,
        EncryptError::ZeroSharedSecret => 56,
        EncryptError::WorkFactorRefused => 57,
        EncryptError::OutOfMemory => OUT_OF_MEMORY,
    }
}

/// The number of why a call on a whole file was refused.
pub fn of_file(error: &FileError) -> u32
    ensures number { result ≡ Status.of_file error.now }
    ensures above { 1 < result }
{
    match error {
        FileError::Io(error) => of_io(*error),
        FileError::Encrypt(error) => of_encrypt(error),
        FileError::Decrypt(error) => of_decrypt(error),
    }
}
