//! Slices that are decrypted.
ghost use Rattle.std.specs.Prelude.{ℕ, List, vec_items, Result, MatchResult};
ghost use Rattle.std.specs.Result.{result_map_both};
ghost use Rattle.std.specs.Str.Lines.{lines};
ghost use Rattle.age.specs.Entries.{AreEntries};
ghost use Rattle.age.specs.IdentityFile.{entries_of};
ghost use Rattle.age.specs.Types.{FileError as file_error};
ghost use Rattle.age_slices.specs.Decrypting.{AreIdentities, DecryptsBytesBy, DecryptsBytes, RefusesIdentityText, RefusesIdentityReading};
ghost use Rattle.age_slices.specs.Handing.{HandsOutAnswer};
ghost use Rattle.age_slices.specs.Status;

use crate::handing::{hand_out, refuse};
use crate::status::of_file;
use age::armor::laws::carried_is_unique;
use age::io::{Bytes, Error, Read, Write};
use age::laws::one_plaintext;
use age::streaming::{FileError, decrypt_all};
use age::suite::Suite;
use age::suite::laws::known_bytes;
use age::{DecryptError, Identity, IdentityFile, NoCallbacks, x25519};
use std::alloc::Global;

// What is read of a text of identities.
fn read_text<S>(alloc: Global, text: &[u8]) -> Result<IdentityFile<S, NoCallbacks>, Error>
    ensures { MatchResult result (λ file. AreEntries (lines text.now) (entries_of file)) (λ e. RefusesIdentityReading text.now e) }
{
    IdentityFile::from_buffer(alloc, Bytes::new(text))
}

/// The identities in a text, one to a line as in a file of identities, in their order. There may be none.
///
/// # Errors
///
/// - `Io(NotIdentity)`: this line, counted from 1, is the text of no identity, and isn't passed over.
/// - `Io(LimitExceeded)`: the text has more than 16 MiB, and no line of these is bad.
/// - `PluginResolve`: an identity in it is a plugin's.
/// - `OutOfMemory`: memory was refused.
pub fn identities_of<S>(
    alloc: Global,
    text: &[u8],
) -> Result<Vec<x25519::Identity<S>>, DecryptError>
    ensures { MatchResult result (λ keys. AreIdentities text.now keys.items) (λ e. RefusesIdentityText text.now e) }
{
    match read_text::<S>(alloc, text) {
        Ok(found) => found.into_identities(alloc),
        Err(error) => Err(DecryptError::from(error)),
    }
}

/// The plaintext of a file, bare or in armor, by the first of these that answers, or as `decrypt_all` refuses.
pub fn plaintext_by<'a, S: Suite, I: Identity>(
    alloc: Global,
    identities: &mut [I],
    file: &'a [u8],
) -> Result<Vec<u8>, FileError>
    ensures { DecryptsBytes I.unwraps ⟦<S as Suite>⟧ ⟦<Bytes<'a> as Read>⟧ ⟦<Vec<u8> as Write>⟧ vec_items identities.old identities.new file.now
        (result_map_both vec_items (λ e. e) result) }
{
    // Facts for the proof alone.
    known_bytes(file);
    carried_is_unique();
    one_plaintext::<S>();
    let mut reader = Bytes::new(file);
    let mut plain = Vec::new(alloc);
    match decrypt_all::<S, I, Bytes, Vec<u8>>(alloc, identities, &mut reader, &mut plain) {
        Ok(()) => Ok(plain),
        Err(error) => Err(error),
    }
}

/// The plaintext of a file, bare or in armor, by the first of the identities in `text` that answers.
///
/// A success says that the bytes carry a file of exactly this plaintext. A file for one of the identities, of a plaintext of at most 2^60 bytes that
/// has no full last chunk which opens as a middle one, is refused for want of memory alone. A file of identities that is itself encrypted is one more
/// file, whose plaintext is the text.
///
/// # Errors
///
/// - `Decrypt`: the text names no identities, as `identities_of` says.
/// - Those of `decrypt_all`.
pub fn decrypt_by<'a, S: Suite>(
    alloc: Global,
    text: &[u8],
    file: &'a [u8],
) -> Result<Vec<u8>, FileError>
    ensures { DecryptsBytesBy ⟦<x25519::Identity<S> as Identity>⟧.unwraps ⟦<S as Suite>⟧ ⟦<Bytes<'a> as Read>⟧ ⟦<Vec<u8> as Write>⟧ vec_items
        (RefusesIdentityText text.now) (AreIdentities text.now) file.now (result_map_both vec_items (λ e. e) result) }
{
    match identities_of::<S>(alloc, text) {
        Err(error) => Err(FileError::Decrypt(error)),
        Ok(keys) => {
            let mut keys = keys;
            plaintext_by::<S, x25519::Identity<S>>(alloc, &mut keys, file)
        }
    }
}

/// Hands out what `decrypt_by` answers: the plaintext at the front of `out` and how many bytes it has, or a number above 0, of which 1 says that
/// `out`
/// is too short, and then how long it has to be, and the others are those of refusals. But where it succeeds `out` stays as it was: no byte of a
/// file that was refused comes out.
pub fn decrypt_by_out<'a, S: Suite>(
    alloc: Global,
    text: &[u8],
    file: &'a [u8],
    out: &mut [u8],
    written: &mut usize,
) -> u32
    ensures { (answer : Result (List ℕ) file_error)
        × DecryptsBytesBy ⟦<x25519::Identity<S> as Identity>⟧.unwraps ⟦<S as Suite>⟧ ⟦<Bytes<'a> as Read>⟧ ⟦<Vec<u8> as Write>⟧ vec_items
        (RefusesIdentityText text.now) (AreIdentities text.now) file.now answer
        × HandsOutAnswer Status.of_file answer out.old out.new written.new result }
{
    match decrypt_by::<S>(alloc, text, file) {
        Ok(plain) => hand_out(&plain, out, written),
        Err(error) => refuse(of_file(&error), written),
    }
}
