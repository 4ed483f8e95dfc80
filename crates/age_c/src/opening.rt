//! The payload of a file, told by the file's front.
ghost use Rattle.std.specs.Prelude.{Option, Result};
ghost use Rattle.age.specs.Types.{DecryptError as decrypt_error};
ghost use Rattle.age_files.specs.Opening.{OpensHeaderUnder};
ghost use Rattle.age_files.specs.Status;
ghost use Rattle.age_slices.specs.Decrypting.{AreIdentities, RefusesIdentityText};
ghost use Rattle.age_slices.specs.Opening.{HandsOutPayload, OpensHeaderBy};
ghost use Rattle.age_slices.specs.Status.{of_decrypt as decrypt_status};
ghost use Rattle.age_slices.specs.declared.opening.PayloadAt.{PayloadAt as payload_at};
ghost use Rattle.sazh_core.specs.declared.error.GivenError.{GivenError as given_error};
ghost use Rattle.sazh_core.specs.declared.error.PassphraseError.{PassphraseError as passphrase_error};

use age::{Identity, scrypt, x25519};
use age_files::opening::open_header_with_out;
use age_slices::opening::open_header_out;
use age_standard::StandardSuite;
use std::alloc::Global;

/// Tells the key of the payload and where it begins, by the identities in a text, as `open_header_out` does.
#[unsafe(no_mangle)]
pub extern "C" fn age_open_header(
    alloc: Global,
    identities: &[u8],
    front: &[u8],
    out: &mut [u8],
    written: &mut usize,
    place: &mut usize,
) -> u32
    ensures { (answer : Result (Option payload_at) decrypt_error)
        × OpensHeaderBy ⟦<x25519::Identity<StandardSuite> as Identity>⟧.unwraps (RefusesIdentityText identities.now) (AreIdentities identities.now)
        front.now answer
        × HandsOutPayload decrypt_status answer out.old out.new written.new place.new result }
{
    open_header_out::<StandardSuite>(alloc, identities, front, out, written, place)
}

/// Tells the key of the payload and where it begins, by the passphrase that a text gives, as `open_header_with_out` does.
#[unsafe(no_mangle)]
pub extern "C" fn age_open_header_passphrase(
    alloc: Global,
    passphrase: &[u8],
    front: &[u8],
    out: &mut [u8],
    written: &mut usize,
    place: &mut usize,
) -> u32
    ensures { (answer : Result (Option payload_at) (given_error passphrase_error decrypt_error))
        × OpensHeaderUnder ⟦<scrypt::Identity<StandardSuite> as Identity>⟧.unwraps passphrase.now front.now answer
        × HandsOutPayload (Status.of_given Status.of_passphrase decrypt_status) answer out.old out.new written.new place.new result }
{
    open_header_with_out::<StandardSuite>(alloc, passphrase, front, out, written, place)
}
