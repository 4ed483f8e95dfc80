//! Chunks of a payload, one at a time, under its key.
ghost use Rattle.std.specs.Prelude.{◌≡◌, ◌+◌, MatchOption};
ghost use Rattle.age.specs.Payload.{last_piece, plain_len};
ghost use Rattle.age_slices.specs.Chunks.{OpensChunk, SealsChunk};
ghost use Rattle.age_slices.specs.Handing.{HandsOutUnder};

use age::suite::Suite;
use age_slices::chunks::{chunk_count, open_chunk_out, plain_length, seal_chunk_out};
use age_slices::status::{BAD_ARGUMENT, DONE};
use age_standard::StandardSuite;
use std::alloc::Global;

/// How many chunks the payload of a plaintext of so many bytes has.
#[unsafe(no_mangle)]
pub extern "C" fn age_chunk_count(plain_length: u64) -> u64
    ensures { result ≡ last_piece plain_length + 1 }
{
    chunk_count(plain_length)
}

/// Tells how many bytes the plaintext of a payload of so many bytes has: 0, and `length` is how many. Where no payload is so long the answer is
/// `BAD_ARGUMENT`, and `length` is 0.
#[unsafe(no_mangle)]
pub extern "C" fn age_plain_length(payload_length: u64, length: &mut u64) -> u32
    ensures { MatchOption (plain_len payload_length) ((result ≡ 3) × (length.new ≡ 0)) (λ n. (result ≡ 0) × (length.new ≡ n)) }
{
    match plain_length(payload_length) {
        None => {
            *length = 0;
            BAD_ARGUMENT
        }
        Some(known) => {
            *length = known;
            DONE
        }
    }
}

/// Opens the chunk of this number, as the last one or as one before it, as `open_chunk_out` does.
#[unsafe(no_mangle)]
pub extern "C" fn age_open_chunk(
    alloc: Global,
    key: &[u8],
    number: u64,
    last: bool,
    text: &[u8],
    out: &mut [u8],
    written: &mut usize,
) -> u32
    ensures { HandsOutUnder key.now (OpensChunk ⟦<StandardSuite as Suite>⟧.opened key.now number last text.now)
        out.old out.new written.new result }
{
    open_chunk_out::<StandardSuite>(alloc, key, number, last, text, out, written)
}

/// Seals a piece of a plaintext as the chunk of this number, as the last one or as one before it, as `seal_chunk_out` does.
#[unsafe(no_mangle)]
pub extern "C" fn age_seal_chunk(
    alloc: Global,
    key: &[u8],
    number: u64,
    last: bool,
    plain: &[u8],
    out: &mut [u8],
    written: &mut usize,
) -> u32
    ensures { HandsOutUnder key.now (SealsChunk ⟦<StandardSuite as Suite>⟧.seal_of key.now number last plain.now)
        out.old out.new written.new result }
{
    seal_chunk_out::<StandardSuite>(alloc, key, number, last, plain, out, written)
}
