//! Keys over slices: new ones, with random bytes that are handed in, and the recipients of identities.
ghost use Rattle.std.specs.Prelude.{◌<◌, ℕ, List, vec_items, Result};
ghost use Rattle.std.specs.Result.{result_map_both};
ghost use Rattle.age.specs.Types.{EncryptError as encrypt_error};
ghost use Rattle.age_files.specs.Keys.{MakesKey, TellsRecipients};
ghost use Rattle.age_files.specs.Status;
ghost use Rattle.age_slices.specs.Handing.{HandsOutAnswer};
ghost use Rattle.age_slices.specs.Status.{of_encrypt as encrypt_status};
ghost use Rattle.sazh_core.specs.declared.error.IdentitiesError.{IdentitiesError as identities_error};

use crate::status::of_identities;
use age::EncryptError;
use age::armor::ArmoredReader;
use age::draw::Draw;
use age::io::{BufReader, Bytes, Read};
use age::suite::Suite;
use age_slices::handing::{hand_out, refuse};
use age_slices::status::of_encrypt;
use sazh_core::error::IdentitiesError;
use sazh_core::keygen::new_key_file;
use sazh_core::own_recipients::{recipients_of_identities, text_of_recipients};
use std::alloc::Global;

/// The text of a new X25519 identity, whose secret is the first 32 bytes of `given`, in the form of `new_key_file`: a line with its recipient behind
/// `# public key: `, and a line with the identity. More bytes may be handed in, and aren't used.
///
/// # Errors
///
/// - `ShortRandom`: fewer than 32 bytes were handed in.
/// - `OutOfMemory`: memory was refused.
pub fn new_key<S: Suite>(alloc: Global, given: &[u8]) -> Result<Vec<u8>, EncryptError>
    ensures { MakesKey S.public_of given.now (result_map_both vec_items (λ e. e) result) }
{
    match Vec::from_slice(alloc, given) {
        Err(_) => Err(EncryptError::OutOfMemory),
        Ok(bytes) => {
            let mut draw = Draw::new(bytes);
            new_key_file::<S>(alloc, &mut draw)
        }
    }
}

/// The text of the recipients of all identities in a text, one to a line, in the order of its lines. There is one or more.
///
/// # Errors
///
/// Those of `recipients_of_identities`.
pub fn recipients_text_of<'a, S: Suite>(
    alloc: Global,
    text: &'a [u8],
) -> Result<Vec<u8>, IdentitiesError>
    ensures { TellsRecipients ⟦<ArmoredReader<BufReader<Bytes<'a>>> as Read>⟧ ⟦<S as Suite>⟧ text.now (result_map_both vec_items (λ e. e) result) }
{
    match recipients_of_identities::<S>(alloc, text) {
        Err(error) => Err(error),
        Ok(recipients) => match text_of_recipients(alloc, &recipients) {
            Err(_) => Err(IdentitiesError::OutOfMemory),
            Ok(told) => Ok(told),
        },
    }
}

/// Hands out what `new_key` answers: the text at the front of `out` and how many bytes it has, or a number above 0, of which 1 says that `out` is too
/// short, and then how long it has to be, and the others are those of refusals. But where it succeeds `out` stays as it was.
pub fn new_key_out<S: Suite>(
    alloc: Global,
    given: &[u8],
    out: &mut [u8],
    written: &mut usize,
) -> u32
    ensures { (answer : Result (List ℕ) encrypt_error) × MakesKey S.public_of given.now answer
        × HandsOutAnswer encrypt_status answer out.old out.new written.new result }
{
    match new_key::<S>(alloc, given) {
        Ok(text) => hand_out(&text, out, written),
        Err(error) => refuse(of_encrypt(&error), written),
    }
}

/// Hands out what `recipients_text_of` answers, as `new_key_out` does.
pub fn recipients_text_out<'a, S: Suite>(
    alloc: Global,
    text: &'a [u8],
    out: &mut [u8],
    written: &mut usize,
) -> u32
    ensures { (answer : Result (List ℕ) identities_error)
        × TellsRecipients ⟦<ArmoredReader<BufReader<Bytes<'a>>> as Read>⟧ ⟦<S as Suite>⟧ text.now answer
        × HandsOutAnswer Status.of_identities answer out.old out.new written.new result }
{
    match recipients_text_of::<S>(alloc, text) {
        Ok(told) => hand_out(&told, out, written),
        Err(error) => refuse(of_identities(error), written),
    }
}
