//! Slices that are decrypted with a passphrase.
ghost use Rattle.std.specs.Prelude.{◌≡◌, ◌<◌, ℕ, List, vec_items, Result};
ghost use Rattle.std.specs.Result.{result_map_both};
ghost use Rattle.age.specs.Types.{FileError as file_error};
ghost use Rattle.age_files.specs.Decrypting.{DecryptsUnder};
ghost use Rattle.age_files.specs.Status;
ghost use Rattle.age_slices.specs.Handing.{HandsOutAnswer};
ghost use Rattle.age_slices.specs.Status.{of_file as file_status};
ghost use Rattle.sazh_core.specs.declared.error.GivenError.{GivenError as given_error};
ghost use Rattle.sazh_core.specs.declared.error.PassphraseError.{PassphraseError as passphrase_error};

use crate::status::of_passphrase;
use age::io::{Bytes, Read, Write};
use age::streaming::FileError;
use age::suite::Suite;
use age::{Identity, scrypt};
use age_slices::decrypting::plaintext_by;
use age_slices::handing::{hand_out, refuse};
use age_slices::status::of_file;
use sazh_core::error::{GivenError, PassphraseError};
use sazh_core::passphrase::{identity_of, passphrase_of};
use std::alloc::Global;
use std::slice;

/// The plaintext of a file, bare or in armor, by the passphrase that a text gives, its first line. It takes work factors up to 22.
///
/// # Errors
///
/// - `Given`: the text gives no passphrase, as `passphrase_of` says.
/// - `Command`: those of `plaintext_by`.
pub fn decrypt_with<'a, S: Suite>(
    alloc: Global,
    text: &[u8],
    file: &'a [u8],
) -> Result<Vec<u8>, GivenError<PassphraseError, FileError>>
    ensures { DecryptsUnder ⟦<scrypt::Identity<S> as Identity>⟧.unwraps ⟦<S as Suite>⟧ ⟦<Bytes<'a> as Read>⟧ ⟦<Vec<u8> as Write>⟧ vec_items
        text.now file.now (result_map_both vec_items (λ e. e) result) }
{
    match passphrase_of(alloc, text) {
        Err(error) => Err(GivenError::Given(error)),
        Ok(passphrase) => {
            let mut identity: scrypt::Identity<S> = identity_of(passphrase);
            match plaintext_by::<S, scrypt::Identity<S>>(
                alloc,
                slice::from_mut(&mut identity),
                file,
            ) {
                Ok(plain) => Ok(plain),
                Err(error) => Err(GivenError::Command(error)),
            }
        }
    }
}

// The number of why a file isn't decrypted by a passphrase.
fn status_with(error: &GivenError<PassphraseError, FileError>) -> u32
    ensures number { result ≡ Status.of_given Status.of_passphrase file_status error.now }
    ensures above { 1 < result }
{
    match error {
        GivenError::Given(error) => of_passphrase(*error),
        GivenError::Command(error) => of_file(error),
    }
}

/// Hands out what `decrypt_with` answers: the plaintext at the front of `out` and how many bytes it has, or a number above 0, of which 1 says that
/// `out` is too short, and then how long it has to be, and the others are those of refusals. But where it succeeds `out` stays as it was.
pub fn decrypt_with_out<'a, S: Suite>(
    alloc: Global,
    text: &[u8],
    file: &'a [u8],
    out: &mut [u8],
    written: &mut usize,
) -> u32
    ensures { (answer : Result (List ℕ) (given_error passphrase_error file_error))
        × DecryptsUnder ⟦<scrypt::Identity<S> as Identity>⟧.unwraps ⟦<S as Suite>⟧ ⟦<Bytes<'a> as Read>⟧ ⟦<Vec<u8> as Write>⟧ vec_items text.now
        file.now answer
        × HandsOutAnswer (Status.of_given Status.of_passphrase file_status) answer out.old out.new written.new result }
{
    match decrypt_with::<S>(alloc, text, file) {
        Ok(plain) => hand_out(&plain, out, written),
        Err(error) => refuse(status_with(&error), written),
    }
}
