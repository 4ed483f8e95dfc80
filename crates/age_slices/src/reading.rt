//! How a caller reads a file by its header and its chunks in order, and one piece by its number: worked examples, with what comes of each.
ghost use Rattle.std.specs.Prelude.{◌≡◌, ◌⊎◌, ◌+◌, ◌*◌, ◌≤◌, ◌<◌, true, false, ◌^◌, vec_items, length, take, drop, Some, MatchOption, MatchResult};
ghost use Rattle.std.specs.Result.{result_map_both};
ghost use Rattle.age.specs.DeliveredPayload.{payload_delivers, prepend};
ghost use Rattle.age.specs.ErrorVariants.{OutOfMemory};
ghost use Rattle.age.specs.Stretch.{whole};
ghost use Rattle.age.specs.Payload.{chunk, chunk_nonce};
ghost use Rattle.age_slices.specs.Reading.{IsNoMiddle, ReadsByChunks, ReadsPiece};

use crate::chunks::open_chunk;
use crate::opening::open_header_by;
use age::io::Error;
use age::stream::laws::delivery_laws;
use age::stream::{CHUNK, MOST_CHUNKS, nonce_of};
use age::streaming::FileError;
use age::suite::Suite;
use age::suite::laws::{known_array, known_bytes};
use age::{DecryptError, Identity};
use std::alloc::Global;

// What stands behind so many bytes.
fn behind(bytes: &[u8], count: usize) -> &[u8]
    requires { count ≤ length bytes.now }
    ensures { result.now ≡ drop count bytes.now }
{
    &bytes[count..]
}

// Whether it says that memory was refused.
fn wants_memory(error: Error) -> bool
    ensures { result ≡ false → error ≡ OutOfMemory → ⊥ }
{
    matches!(error, Error::OutOfMemory)
}

// What the chunk of this number holds, which the rest begins with, where it isn't the last one.
fn middle_piece<S: Suite>(
    alloc: Global,
    key: &[u8; 32],
    number: u64,
    rest: &[u8],
) -> Result<Option<Vec<u8>>, Error>
    ensures { MatchResult result (λ found. MatchOption found (IsNoMiddle S.opened key.now number rest.now)
        (λ piece. (65552 ≤ length rest.now) × (S.opened key.now (chunk_nonce number false) (take 65552 rest.now) ≡ Some (vec_items piece))))
        (λ e. e ≡ OutOfMemory) }
{
    if rest.len() < CHUNK {
        return Ok(None);
    }
    match open_chunk::<S>(alloc, key, number, false, &rest[..CHUNK]) {
        Ok(piece) => Ok(Some(piece)),
        Err(error) => {
            if wants_memory(error) {
                Err(Error::OutOfMemory)
            } else {
                Ok(None)
            }
        }
    }
}

// What the chunk of this number holds, which the rest begins with, and whether it is the last one, with which the rest ends.
fn next_piece<S: Suite>(
    alloc: Global,
    key: &[u8; 32],
    number: u64,
    rest: &[u8],
) -> Result<(Vec<u8>, bool), Error>
    ensures { MatchResult result
        (λ it. ((it.1 ≡ true) × (payload_delivers S.opened key.now number (whole rest.now) ≡ whole (vec_items it.0)))
        ⊎ ((it.1 ≡ false) × (65552 ≤ length rest.now) × (number < 2 ^ 44)
        × (payload_delivers S.opened key.now number (whole rest.now)
        ≡ prepend (vec_items it.0) (payload_delivers S.opened key.now (number + 1) (whole (drop 65552 rest.now))))))
        (λ e. (e ≡ OutOfMemory) ⊎ ((payload_delivers S.opened key.now number (whole rest.now)).ends_well ≡ false)) }
{
    if rest.is_empty() {
        return Err(Error::Truncated);
    }
    if number >= MOST_CHUNKS {
        return Err(Error::TooLong);
    }
    // For the proof alone: these are bytes, each below 256.
    known_array(key);
    known_bytes(rest);
    known_array(&nonce_of(number, false));
    match middle_piece::<S>(alloc, key, number, rest) {
        Err(error) => Err(error),
        Ok(Some(piece)) => Ok((piece, false)),
        Ok(None) => match open_chunk::<S>(alloc, key, number, true, rest) {
            Ok(piece) => Ok((piece, true)),
            Err(error) => Err(error),
        },
    }
}

// The plaintext of a payload under its key.
fn plain_of<S: Suite>(alloc: Global, key: &[u8; 32], sealed: &[u8]) -> Result<Vec<u8>, Error>
    ensures { MatchResult result (λ plain. payload_delivers S.opened key.now 0 (whole sealed.now) ≡ whole plain.items)
        (λ e. (e ≡ OutOfMemory) ⊎ ((payload_delivers S.opened key.now 0 (whole sealed.now)).ends_well ≡ false)) }
{
    let mut plain = Vec::new(alloc);
    let mut rest = sealed;
    let mut number = 0;
    loop {
        let (piece, last) = match next_piece::<S>(alloc, key, number, rest) {
            Ok(next) => next,
            Err(error) => return Err(error),
        };
        if plain.extend_from_slice(&piece).is_err() {
            return Err(Error::OutOfMemory);
        }
        if last {
            return Ok(plain);
        }
        rest = behind(rest, CHUNK);
        number += 1;
    }
}

/// The plaintext of a bare file, by the first of these that answers, read as a caller in another language reads
/// it: the header first, then the chunks in order, until one opens as the last, and nothing may be left then.
///
/// # Errors
///
/// - `Decrypt`: those of `open_header_by`, and `Io(UnexpectedEof)` where the file ends before its header and its nonce do.
/// - `Io`: `Truncated` where the file ends before its last chunk, `BadChunk` and `LastChunkEmpty` as `open_chunk`, also where bytes follow the last
///   chunk, `TooLong` past 2^44 chunks, and `OutOfMemory`.
pub fn read_by_chunks<S: Suite, I: Identity>(
    alloc: Global,
    identities: &mut [I],
    file: &[u8],
) -> Result<Vec<u8>, FileError>
    ensures { ReadsByChunks I.unwraps S.seal_of identities.old identities.new file.now (result_map_both vec_items (λ e. e) result) }
{
    // A fact for the proof alone.
    delivery_laws::<S>();
    let at = match open_header_by::<I>(alloc, identities, file) {
        Ok(None) => return Err(FileError::Decrypt(DecryptError::Io(Error::UnexpectedEof))),
        Ok(Some(at)) => at,
        Err(error) => return Err(FileError::Decrypt(error)),
    };
    let sealed = behind(file, at.place);
    // For the proof alone: these are bytes, each below 256.
    known_array(&at.key);
    known_bytes(sealed);
    match plain_of::<S>(alloc, &at.key, sealed) {
        Ok(plain) => Ok(plain),
        Err(error) => Err(FileError::Io(error)),
    }
}

// The chunk of this number, of 65,552 bytes or what is left.
fn chunk_at(sealed: &[u8], number: usize) -> &[u8]
    requires { 65552 * number ≤ length sealed.now }
    ensures { result.now ≡ chunk number sealed.now }
{
    let rest = behind(sealed, CHUNK * number);
    if rest.len() < CHUNK {
        rest
    } else {
        &rest[..CHUNK]
    }
}

/// A piece of the plaintext of a payload, by its number and under the key of the payload, read as a caller in another language
/// reads it: that chunk alone, by its place, as the last one where the payload ends with it and as one before it elsewhere.
///
/// # Errors
///
/// - `PastEnd`: the payload ends before a chunk of this number.
/// - `BadChunk`, `LastChunkEmpty`, `OutOfMemory`: as `open_chunk`.
pub fn read_piece<S: Suite>(
    alloc: Global,
    key: &[u8; 32],
    number: u64,
    sealed: &[u8],
) -> Result<Vec<u8>, Error>
    ensures { ReadsPiece S.seal_of key.now number sealed.now (result_map_both vec_items (λ e. e) result) }
{
    // For the proof alone: these are bytes, each below 256.
    known_array(key);
    known_bytes(sealed);
    let last = (sealed.len().saturating_sub(1) / CHUNK) as u64;
    if number > last {
        return Err(Error::PastEnd);
    }
    open_chunk::<S>(
        alloc,
        key,
        number,
        number == last,
        chunk_at(sealed, number as usize),
    )
}
