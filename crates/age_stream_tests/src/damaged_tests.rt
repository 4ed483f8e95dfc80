//! Payloads whose chunks were exchanged, repeated, cut off or lengthened, each as it stands and in armor, through three layers.

use crate::fixtures::{Call, in_armor, reader_answers, sealed};
use age::io::{Bytes, Error, SeekFrom};
use age_bench::suite::BenchSuite;
use std::alloc::{AllocError, Global};
use std::process::Abort;
use std::test::Fail;
use test_support::fixtures::{armored, part};

// The plaintext has two full pieces and a byte, so the payload has two full chunks and one of 17 bytes: A, B and C.
const LENGTH: usize = 131_073;

const A: (usize, usize) = (0, 65_552);

const B: (usize, usize) = (65_552, 131_104);

const C: (usize, usize) = (131_104, 131_121);

// A seek to the end is refused since it is a bad one, and reads are until a seek succeeds, which leads to bytes that are right.
const BAD_END: [Call; 4] = [
    Call::Refuses(SeekFrom::End(0), Error::BadEnd),
    Call::Failed,
    Call::Goes(SeekFrom::Start(7), 7),
    Call::Gives(7),
];

// No seek succeeds where the payload's length is that of no plaintext.
const NO_LENGTH: [Call; 4] = [
    Call::Refuses(SeekFrom::End(0), Error::BadEnd),
    Call::Failed,
    Call::Refuses(SeekFrom::Start(0), Error::BadEnd),
    Call::Failed,
];

// Where the second of two exchanged chunks was first, nothing comes. The last chunk is right, and so is the length.
const OF_EXCHANGED: [Call; 5] = [
    Call::LeavesUntil(0, 0, Error::BadChunk),
    Call::Failed,
    Call::Goes(SeekFrom::Start(131_072), 131_072),
    Call::Gives(131_072),
    Call::Ends,
];

const END_OF_EXCHANGED: [Call; 4] = [
    Call::Goes(SeekFrom::End(0), 131_073),
    Call::Ends,
    Call::Goes(SeekFrom::Start(131_072), 131_072),
    Call::Gives(131_072),
];

// Where the first chunk is repeated, its bytes come once.
const OF_REPEATED: [Call; 4] = [
    Call::LeavesUntil(0, 65_536, Error::BadChunk),
    Call::Failed,
    Call::Goes(SeekFrom::Start(65_535), 65_535),
    Call::Gives(65_535),
];

// Where the last chunk is missing, the bytes of those before it come.
const OF_CUT: [Call; 4] = [
    Call::LeavesUntil(0, 131_072, Error::Truncated),
    Call::Failed,
    Call::Goes(SeekFrom::Start(70_000), 70_000),
    Call::Gives(70_000),
];

// Where 16 bytes of the second chunk are left, or of the last, it is none.
const OF_CUT_IN_SECOND: [Call; 2] = [Call::LeavesUntil(0, 65_536, Error::BadChunk), Call::Failed];

const OF_CUT_IN_LAST: [Call; 2] = [Call::LeavesUntil(0, 131_072, Error::BadChunk), Call::Failed];

// Where a byte follows the last chunk, it is none either.
const OF_LENGTHENED: [Call; 4] = [
    Call::LeavesUntil(0, 131_072, Error::BadChunk),
    Call::Failed,
    Call::Goes(SeekFrom::Start(131_071), 131_071),
    Call::Gives(131_071),
];

// The pieces of a payload, one after the other.
fn joined(alloc: Global, payload: &[u8], pieces: &[(usize, usize)]) -> Result<Vec<u8>, AllocError> {
    let mut damaged = Vec::new(alloc);
    for (from, to) in pieces {
        damaged.extend_from_slice(part(payload, *from, *to))?;
    }
    Ok(damaged)
}

// A new reader of these bytes answers so.
fn bare_answers(
    rt: &impl Abort,
    alloc: Global,
    payload: &[u8],
    calls: &[Call],
) -> Result<(), Fail> {
    reader_answers::<BenchSuite, _>(rt, alloc, Bytes::new(payload), calls)
}

// So does one of their armor.
fn armor_answers(rt: &impl Abort, alloc: Global, text: &[u8], calls: &[Call]) -> Result<(), Fail> {
    reader_answers::<BenchSuite, _>(rt, alloc, in_armor(alloc, text)?, calls)
}

// What is made of these pieces answers so, bare and in armor: the first calls on a new reader, and the others on another.
fn answers_in_both(
    rt: &impl Abort,
    alloc: Global,
    damaged: &[u8],
    front: &[Call],
    end: &[Call],
) -> Result<(), Fail> {
    bare_answers(rt, alloc, damaged, front)?;
    bare_answers(rt, alloc, damaged, end)?;
    let text = armored(alloc, damaged)?;
    armor_answers(rt, alloc, &text, front)?;
    armor_answers(rt, alloc, &text, end)
}

// The payload.
fn payload(alloc: Global) -> Result<Vec<u8>, Fail> {
    let payload = sealed::<BenchSuite>(alloc, LENGTH)?;
    if payload.len() != 131_121 {
        return Err(Fail::from("another length"));
    }
    Ok(payload)
}

#[test]
fn exchanged_chunks_are_refused(rt: HostRuntime) -> Result<(), Fail> {
    let damaged = joined(rt.alloc(), &payload(rt.alloc())?, &[B, A, C])?;
    answers_in_both(&rt, rt.alloc(), &damaged, &OF_EXCHANGED, &END_OF_EXCHANGED)
}

#[test]
fn a_repeated_chunk_is_refused(rt: HostRuntime) -> Result<(), Fail> {
    let damaged = joined(rt.alloc(), &payload(rt.alloc())?, &[A, A, B, C])?;
    answers_in_both(&rt, rt.alloc(), &damaged, &OF_REPEATED, &BAD_END)
}

#[test]
fn a_payload_without_its_last_chunk_is_refused(rt: HostRuntime) -> Result<(), Fail> {
    let damaged = joined(rt.alloc(), &payload(rt.alloc())?, &[A, B])?;
    answers_in_both(&rt, rt.alloc(), &damaged, &OF_CUT, &BAD_END)
}

#[test]
fn a_payload_cut_after_16_bytes_of_a_chunk_is_refused(rt: HostRuntime) -> Result<(), Fail> {
    let alloc = rt.alloc();
    let damaged = joined(alloc, &payload(alloc)?, &[A, (65_552, 65_568)])?;
    answers_in_both(&rt, alloc, &damaged, &OF_CUT_IN_SECOND, &NO_LENGTH)?;
    let damaged = joined(alloc, &payload(alloc)?, &[A, B, (131_104, 131_120)])?;
    answers_in_both(&rt, alloc, &damaged, &OF_CUT_IN_LAST, &NO_LENGTH)
}

#[test]
fn a_lengthened_payload_is_refused(rt: HostRuntime) -> Result<(), Fail> {
    let damaged = joined(rt.alloc(), &payload(rt.alloc())?, &[A, B, C, (0, 1)])?;
    answers_in_both(&rt, rt.alloc(), &damaged, &OF_LENGTHENED, &BAD_END)
}
