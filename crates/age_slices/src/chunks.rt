//! Chunks of a payload, one at a time, by their numbers.
//!
//! The payload of a file is read so: chunk 0, then 1 and so on, each of 65,552 bytes and not as the last, until one doesn't open so or no full one is
//! left. That one is opened as the last, and nothing may follow it. Any chunk can be opened by its place, which is 65,552 times its number; that
//! it is the last one of the file only a chunk tells that opens as the last.
ghost use Rattle.std.specs.Prelude.{◌≡◌, ◌≢◌, ◌+◌, true, false, length, vec_items, MatchOption};
ghost use Rattle.std.specs.Result.{result_map_both};
ghost use Rattle.age.specs.Payload.{last_piece, plain_len};
ghost use Rattle.age_slices.specs.Chunks.{IsChunkLength, IsPieceLength, OpensChunk, SealsChunk};
ghost use Rattle.age_slices.specs.Handing.{HandsOutUnder};

use crate::handing::{hand_out, refuse};
use crate::status::{BAD_ARGUMENT, of_io};
use age::io::Error;
use age::stream::{CHUNK, PIECE, nonce_of};
use age::suite::{Opens, Suite};
use std::alloc::Global;

/// How many chunks the payload of a plaintext of so many bytes has.
pub fn chunk_count(plain_length: u64) -> u64
    ensures { result ≡ last_piece plain_length + 1 }
{
    plain_length.saturating_sub(1) / 65_536 + 1
}

/// How many bytes the plaintext of a payload of so many bytes has. `None` where no payload is so long.
#[tactic(auto, using(crate::proofs::Lengths::plain_len_is))]
pub fn plain_length(payload_length: u64) -> Option<u64>
    ensures { result ≡ plain_len payload_length }
{
    let last = payload_length.saturating_sub(1) / 65_552;
    let rest = payload_length - 65_552 * last;
    if rest >= 16 && (last == 0 || rest > 16) {
        Some(payload_length - 16 * (last + 1))
    } else {
        None
    }
}

// Whether a chunk may have so many bytes.
fn is_chunk_length(last: bool, count: usize) -> bool
    ensures yes { result ≡ true → IsChunkLength last count }
    ensures no { result ≡ false → IsChunkLength last count → ⊥ }
{
    if last { count <= CHUNK } else { count == CHUNK }
}

// Whether a piece of this number may.
fn is_piece_length(last: bool, number: u64, count: usize) -> bool
    ensures yes { result ≡ true → IsPieceLength last number count }
    ensures no { result ≡ false → IsPieceLength last number count → ⊥ }
{
    if !last {
        return count == PIECE;
    }
    if count == 0 {
        return number == 0;
    }
    count <= PIECE
}

// A key of 32 bytes.
fn key_of(key: &[u8]) -> Option<[u8; 32]>
    ensures { MatchOption result (length key.now ≢ 32) (λ all. all ≡ key.now) }
{
    if key.len() != 32 {
        return None;
    }
    key.first_chunk::<32>().copied()
}

/// What a text opens to as the chunk of this number under the key of the payload, as the last one or as one before it.
///
/// # Errors
///
/// - `BadChunk`: a chunk before the last hasn't 65,552 bytes, the last has more, or it is no seal under the key and its nonce.
/// - `LastChunkEmpty`: the last chunk opens to nothing, and it isn't chunk 0.
/// - `OutOfMemory`: memory was refused.
pub fn open_chunk<S: Suite>(
    alloc: Global,
    key: &[u8; 32],
    number: u64,
    last: bool,
    text: &[u8],
) -> Result<Vec<u8>, Error>
    ensures { OpensChunk S.opened key.now number last text.now (result_map_both vec_items (λ e. e) result) }
{
    if !is_chunk_length(last, text.len()) {
        return Err(Error::BadChunk);
    }
    let mut opens = Opens::new();
    match S::open(alloc, &mut opens, key, &nonce_of(number, last), text) {
        Err(_) => Err(Error::OutOfMemory),
        Ok(None) => Err(Error::BadChunk),
        Ok(Some(plain)) => {
            if last && number > 0 && plain.is_empty() {
                Err(Error::LastChunkEmpty)
            } else {
                Ok(plain)
            }
        }
    }
}

/// The seal of a piece of a plaintext as the chunk of this number under the key of the payload, as the last one or as one before it.
///
/// # Errors
///
/// - `BadChunk`: a piece before the last hasn't 65,536 bytes, or the last has more, or none though it isn't piece 0.
/// - `OutOfMemory`: memory was refused.
pub fn seal_chunk<S: Suite>(
    alloc: Global,
    key: &[u8; 32],
    number: u64,
    last: bool,
    plain: &[u8],
) -> Result<Vec<u8>, Error>
    ensures { SealsChunk S.seal_of key.now number last plain.now (result_map_both vec_items (λ e. e) result) }
{
    if !is_piece_length(last, number, plain.len()) {
        return Err(Error::BadChunk);
    }
    match S::seal(alloc, key, &nonce_of(number, last), plain) {
        Err(_) => Err(Error::OutOfMemory),
        Ok(sealed) => Ok(sealed),
    }
}

/// Hands out what `open_chunk` answers under a key of 32 bytes, or a number above 0: that `out` is too short, and then how long it has to be, that
/// the key hasn't 32 bytes (`BAD_ARGUMENT`), or that of a refusal. But where it succeeds `out` stays as it was.
pub fn open_chunk_out<S: Suite>(
    alloc: Global,
    key: &[u8],
    number: u64,
    last: bool,
    text: &[u8],
    out: &mut [u8],
    written: &mut usize,
) -> u32
    ensures { HandsOutUnder key.now (OpensChunk S.opened key.now number last text.now) out.old out.new written.new result }
{
    match key_of(key) {
        None => refuse(BAD_ARGUMENT, written),
        Some(key) => match open_chunk::<S>(alloc, &key, number, last, text) {
            Ok(plain) => hand_out(&plain, out, written),
            Err(error) => refuse(of_io(error), written),
        },
    }
}

/// Hands out what `seal_chunk` answers, as `open_chunk_out` does.
pub fn seal_chunk_out<S: Suite>(
    alloc: Global,
    key: &[u8],
    number: u64,
    last: bool,
    plain: &[u8],
    out: &mut [u8],
    written: &mut usize,
) -> u32
    ensures { HandsOutUnder key.now (SealsChunk S.seal_of key.now number last plain.now) out.old out.new written.new result }
{
    match key_of(key) {
        None => refuse(BAD_ARGUMENT, written),
        Some(key) => match seal_chunk::<S>(alloc, &key, number, last, plain) {
            Ok(sealed) => hand_out(&sealed, out, written),
            Err(error) => refuse(of_io(error), written),
        },
    }
}
