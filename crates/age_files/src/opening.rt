//! The payload of a file under a passphrase, told by the file's front alone.
ghost use Rattle.std.specs.Prelude.{Option, Result};
ghost use Rattle.age.specs.Types.{DecryptError as decrypt_error};
ghost use Rattle.age_files.specs.Opening.{OpensHeaderUnder};
ghost use Rattle.age_files.specs.Status;
ghost use Rattle.age_slices.specs.Opening.{HandsOutPayload};
ghost use Rattle.age_slices.specs.Status.{of_decrypt as decrypt_status};
ghost use Rattle.age_slices.specs.declared.opening.PayloadAt.{PayloadAt as payload_at};
ghost use Rattle.sazh_core.specs.declared.error.GivenError.{GivenError as given_error};
ghost use Rattle.sazh_core.specs.declared.error.PassphraseError.{PassphraseError as passphrase_error};

use crate::status::of_passphrase;
use age::suite::Suite;
use age::{DecryptError, Identity, scrypt};
use age_slices::handing::refuse;
use age_slices::opening::{PayloadAt, hand_out_payload, open_header_by};
use sazh_core::error::{GivenError, PassphraseError};
use sazh_core::passphrase::{identity_of, passphrase_of};
use std::alloc::Global;
use std::slice;

/// The key of the payload and where it begins, by the passphrase that a text gives, its first line, as `open_header_by` tells them. It takes work
/// factors up to 22, and no passphrase is stretched before the front is long enough.
///
/// # Errors
///
/// - `Given`: the text gives no passphrase, as `passphrase_of` says, whatever the front is.
/// - `Command`: those of `open_header_by`.
pub fn open_header_with<S: Suite>(
    alloc: Global,
    text: &[u8],
    front: &[u8],
) -> Result<Option<PayloadAt>, GivenError<PassphraseError, DecryptError>>
    ensures { OpensHeaderUnder ⟦<scrypt::Identity<S> as Identity>⟧.unwraps text.now front.now result }
{
    match passphrase_of(alloc, text) {
        Err(error) => Err(GivenError::Given(error)),
        Ok(passphrase) => {
            let mut identity: scrypt::Identity<S> = identity_of(passphrase);
            match open_header_by::<scrypt::Identity<S>>(
                alloc,
                slice::from_mut(&mut identity),
                front,
            ) {
                Ok(found) => Ok(found),
                Err(error) => Err(GivenError::Command(error)),
            }
        }
    }
}

/// Hands out what `open_header_with` tells, as `hand_out_payload` does.
pub fn open_header_with_out<S: Suite>(
    alloc: Global,
    text: &[u8],
    front: &[u8],
    out: &mut [u8],
    written: &mut usize,
    place: &mut usize,
) -> u32
    ensures { (answer : Result (Option payload_at) (given_error passphrase_error decrypt_error))
        × OpensHeaderUnder ⟦<scrypt::Identity<S> as Identity>⟧.unwraps text.now front.now answer
        × HandsOutPayload (Status.of_given Status.of_passphrase decrypt_status) answer out.old out.new written.new place.new result }
{
    match open_header_with::<S>(alloc, text, front) {
        Ok(found) => hand_out_payload(Ok(found), out, written, place),
        Err(GivenError::Command(error)) => hand_out_payload(Err(error), out, written, place),
        Err(GivenError::Given(error)) => {
            *place = 0;
            refuse(of_passphrase(error), written)
        }
    }
}
