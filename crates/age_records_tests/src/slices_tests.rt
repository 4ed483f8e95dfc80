//! The worked examples of `age_slices`, run to their success: a file by its header and its chunks, and pieces by their numbers.

use crate::fixtures::{bench_text, sealed};
use age::armor::Format;
use age_bench::recipient::BenchIdentity;
use age_bench::suite::BenchSuite;
use age_slices::reading::{read_by_chunks, read_piece};
use std::alloc::Global;
use std::slice;
use std::test::Fail;
use test_support::answers::{gives, is_refusal};
use test_support::fixtures::{KEY, part, plaintext};

// Whether the file of a plaintext of so many bytes gives that plaintext.
fn is_read(alloc: Global, length: usize) -> Result<bool, Fail> {
    let plain = plaintext(alloc, length)?;
    let file = bench_text(alloc, Format::Binary, &plain)?;
    let mut identity = BenchIdentity;
    let given = read_by_chunks::<BenchSuite, BenchIdentity>(
        alloc,
        slice::from_mut(&mut identity),
        &file,
    );
    Ok(gives(given, &plain))
}

// A short last chunk alone, a full one, one after it, and two full ones.
#[test]
fn files_are_read_by_their_chunks(rt: HostRuntime) -> Result<(), Fail> {
    for length in [0, 1, 65_536, 65_537, 131_072] {
        assert!(rt; is_read(rt.alloc(), length)?, "of {length} bytes");
    }
    Ok(())
}

// Whether the payload of a plaintext of so many bytes gives the piece of this number, or, past the last, that there is none.
fn is_piece(alloc: Global, length: usize, number: usize, is_there: bool) -> Result<bool, Fail> {
    let plain = plaintext(alloc, length)?;
    let payload = sealed(alloc, &plain)?;
    let given = read_piece::<BenchSuite>(alloc, &KEY, number as u64, &payload);
    if !is_there {
        return Ok(is_refusal(alloc, given, "cannot seek past the end"));
    }
    let from = number.saturating_mul(65_536);
    Ok(gives(given, part(&plain, from, from.saturating_add(65_536))))
}

// How long a plaintext is, the number of a piece, and whether it has that.
const PIECES: [(usize, usize, bool); 10] = [
    (0, 0, true),
    (0, 1, false),
    (36, 0, true),
    (65_536, 0, true),
    (65_536, 1, false),
    (65_537, 0, true),
    (65_537, 1, true),
    (131_073, 1, true),
    (131_073, 2, true),
    (131_073, 3, false),
];

#[test]
fn pieces_are_read_by_their_numbers(rt: HostRuntime) -> Result<(), Fail> {
    for (length, number, is_there) in PIECES {
        assert!(rt;
            is_piece(rt.alloc(), length, number, is_there)?,
            "{number} of {length} bytes"
        );
    }
    Ok(())
}
