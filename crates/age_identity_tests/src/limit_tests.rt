//! Readers with a limit.

use crate::fixtures::{reads, refuses, shows};
use age_devices::{Script, Source, Step};
use age_error::io::{Error, ErrorKind};
use age_identity::util::LimitedReader;
use age_io::{BufRead, BufReader, Bytes, Read, read_to_end};
use std::alloc::Global;
use std::test::Fail;
use test_support::answers::delivers_until;

// Whether `read_to_end` of a reader answers this, and has `abc` then.
fn reads_abc<R: Read>(
    alloc: Global,
    reader: &mut R,
    got: &mut Vec<u8>,
    answer: Result<usize, Error>,
) -> bool {
    read_to_end(alloc, reader, got) == answer && got.as_slice() == b"abc".as_slice()
}

// Whether `read_to_end` of the first bytes of `abcd` or of `abc` gives `abc` and answers so, and again gives nothing more and answers so.
fn reads_twice(
    alloc: Global,
    bytes: &[u8],
    limit: usize,
    answer: Result<usize, Error>,
    again: Result<usize, Error>,
) -> bool {
    let mut reader = LimitedReader::new(Bytes::new(bytes), limit);
    let mut got = Vec::new(alloc);
    reads_abc(alloc, &mut reader, &mut got, answer)
        && reads_abc(alloc, &mut reader, &mut got, again)
}

#[test]
fn a_byte_past_the_limit_is_refused_for_good(rt: HostRuntime) -> Result<(), Fail> {
    let alloc = rt.alloc();
    let refusal = Err(Error::LimitExceeded);
    assert!(rt; reads_twice(alloc, b"abcd", 3, refusal, refusal));
    assert!(rt; reads_twice(alloc, b"abc", 3, Ok(3), Ok(0)));
    assert!(rt; reads_twice(alloc, b"abc", 4, Ok(3), Ok(0)));
    Ok(())
}

// Whether of `abcd` a reader of a limit of 3 shows what it gives.
fn shows_three<R: BufRead>(reader: &mut R) -> bool {
    let mut part = [0; 2];
    shows(reader, b"abc")
        && reads(reader, &mut part, Ok(2))
        && part == [b'a', b'b']
        && shows(reader, b"c")
        && reads(reader, &mut [0; 8], Ok(1))
}

// Whether it is past its limit for good, for each who looks and each who reads.
fn is_past_its_limit<R: BufRead>(reader: &mut R) -> bool {
    let refusal = Err(Error::LimitExceeded);
    refuses(reader, Error::LimitExceeded)
        && refuses(reader, Error::LimitExceeded)
        && reads(reader, &mut [0; 8], refusal)
        && reads(reader, &mut [], refusal)
}

// Whether of two bytes a reader with their count for a limit gives both, and ends.
fn ends_at_its_limit<R: BufRead>(reader: &mut R) -> bool {
    let mut room = [0; 8];
    reads(reader, &mut room, Ok(2)) && shows(reader, b"") && reads(reader, &mut room, Ok(0))
}

#[test]
fn what_is_shown_ends_at_the_limit(rt: HostRuntime) -> Result<(), Fail> {
    let mut reader = LimitedReader::new(Bytes::new(b"abcd"), 3);
    assert!(rt; shows_three(&mut reader));
    assert!(rt; is_past_its_limit(&mut reader));
    assert!(rt; ends_at_its_limit(&mut LimitedReader::new(Bytes::new(b"ab"), 2)));
    Ok(())
}

// What a device does that moves a byte and fails, and moves more and fails.
const FAULTS: [Step; 4] = [
    Step::Move(1),
    Step::Fail(ErrorKind::PermissionDenied),
    Step::Move(8),
    Step::Fail(ErrorKind::Interrupted),
];

// A device of three bytes that does those steps.
fn faulty() -> Source<'static> {
    Source::new(Script::new(&FAULTS, 8), b"abc")
}

// Whether a reader of a limit of 2 over that device answers so.
fn passes_faults_on<R: Read>(reader: &mut R) -> bool {
    let mut room = [0; 4];
    reads(reader, &mut room, Ok(1))
        && reads(
            reader,
            &mut room,
            Err(Error::Device(ErrorKind::PermissionDenied)),
        )
        && reads(reader, &mut room, Ok(1))
        && reads(
            reader,
            &mut room,
            Err(Error::Device(ErrorKind::Interrupted)),
        )
        && reads(reader, &mut room, Err(Error::LimitExceeded))
}

#[test]
fn faults_below_are_passed_on(rt: HostRuntime) -> Result<(), Fail> {
    assert!(rt; passes_faults_on(&mut LimitedReader::new(faulty(), 2)));
    Ok(())
}

#[test]
fn a_buffer_may_stand_over_a_limit(rt: HostRuntime) -> Result<(), Fail> {
    let alloc = rt.alloc();
    let mut reader = BufReader::new(alloc, LimitedReader::new(Bytes::new(b"abcd"), 3))?;
    assert!(rt; delivers_until(alloc, &mut reader, b"abc", Error::LimitExceeded));
    Ok(())
}
