//! The numbers of refusals besides those of the library: of texts that name recipients or give a passphrase, and of random bytes.
ghost use Rattle.std.specs.Prelude.{◌≡◌, ◌<◌};
ghost use Rattle.age_files.specs.Status;

use age_slices::status::{OUT_OF_MEMORY, of_file};
use sazh_core::error::{
    CommandError, IdentitiesError, PassphraseError, RandomError, RecipientsError,
};

/// The number of why there are no random bytes.
pub fn of_random(error: RandomError) -> u32
    ensures number { result ≡ Status.of_random error }
    ensures above { 1 < result }
{
    match error {
        RandomError::NoRandom => 55,
        RandomError::OutOfMemory => OUT_OF_MEMORY,
    }
}

/// The number of why a plaintext wasn't encrypted.
pub fn of_command(error: &CommandError) -> u32
    ensures number { result ≡ Status.of_command error.now }
    ensures above { 1 < result }
{
    match error {
        CommandError::Random(error) => of_random(*error),
        CommandError::File(error) => of_file(error),
    }
}

/// The number of why a text names no recipients, which doesn't tell the line.
pub fn of_recipients(error: RecipientsError) -> u32
    ensures number { result ≡ Status.of_recipients error }
    ensures above { 1 < result }
{
    match error {
        RecipientsError::NotText => 60,
        RecipientsError::NotRecipient { .. } => 61,
        RecipientsError::NoRecipient => 62,
        RecipientsError::OutOfMemory => OUT_OF_MEMORY,
    }
}

/// The number of why a text gives no passphrase.
pub fn of_passphrase(error: PassphraseError) -> u32
    ensures number { result ≡ Status.of_passphrase error }
    ensures above { 1 < result }
{
    match error {
        PassphraseError::NotText => 60,
        PassphraseError::Empty => 64,
        PassphraseError::OutOfMemory => OUT_OF_MEMORY,
    }
}

/// The number of why the recipients of identities aren't told, which doesn't tell the line.
pub fn of_identities(error: IdentitiesError) -> u32
    ensures number { result ≡ Status.of_identities error }
    ensures above { 1 < result }
{
    match error {
        IdentitiesError::NotIdentity { .. } => 22,
        IdentitiesError::TooLong => 21,
        IdentitiesError::Plugin => 46,
        IdentitiesError::NoIdentity => 63,
        IdentitiesError::Encrypted => 65,
        IdentitiesError::OutOfMemory => OUT_OF_MEMORY,
    }
}
