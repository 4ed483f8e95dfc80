//! Two opened chunks are kept, the ones that were used last: how often chunks are opened.

use crate::fixtures::{
    Call, answers, armor_answers, buffered, payload_answers, reader_of, sealed, with_a_bad_chunk,
};
use age::io::{Bytes, Error, Seek, SeekFrom};
use age::stream::StreamReader;
use age::suite::Suite;
use age_bench::suite::BenchSuite;
use std::alloc::Global;
use std::process::Abort;
use std::test::Fail;
use test_support::answers::read_refuses;
use test_support::other_suite::OtherSuite;

const FIRST: [Call; 1] = [Call::Looks(0, 1)];

const BACK_AND_FORTH: [Call; 2] = [Call::Looks(65_536, 2), Call::Looks(0, 2)];

const THREE: [Call; 4] = [
    Call::Looks(65_536, 2),
    Call::Looks(131_072, 3),
    Call::Looks(65_536, 3),
    Call::Looks(0, 4),
];

// A hundred times back and forth between two chunks of a payload of 655,361 bytes of plaintext, and then three.
fn goes_back_and_forth<S: Suite, R: Seek>(
    rt: &impl Abort,
    alloc: Global,
    reader: &mut StreamReader<S, R>,
) -> Result<(), Fail> {
    answers(rt, alloc, reader, &FIRST)?;
    for _pair in 0..100u8 {
        answers(rt, alloc, reader, &BACK_AND_FORTH)?;
    }
    answers(rt, alloc, reader, &THREE)
}

// The same of a reader over this one, which gives the payload.
fn keeps_two<S: Suite, R: Seek + Drop>(
    rt: &impl Abort,
    alloc: Global,
    inner: R,
) -> Result<(), Fail> {
    let mut reader = reader_of::<S, R>(alloc, inner)?;
    goes_back_and_forth(rt, alloc, &mut reader)
}

// Bare and through a buffer.
fn both_keep_two(rt: &impl Abort, alloc: Global, payload: &[u8]) -> Result<(), Fail> {
    keeps_two::<BenchSuite, _>(rt, alloc, Bytes::new(payload))?;
    keeps_two::<BenchSuite, _>(rt, alloc, buffered(alloc, payload)?)
}

#[test]
fn back_and_forth_opens_nothing_anew(rt: HostRuntime) -> Result<(), Fail> {
    let alloc = rt.alloc();
    both_keep_two(&rt, alloc, &sealed::<BenchSuite>(alloc, 655_361)?)?;
    let other = sealed::<OtherSuite>(alloc, 655_361)?;
    keeps_two::<OtherSuite, _>(&rt, alloc, Bytes::new(&other))
}

const IN_ARMOR: [Call; 4] = [
    Call::Looks(0, 1),
    Call::Looks(65_536, 2),
    Call::Looks(1, 2),
    Call::Looks(131_071, 2),
];

#[test]
fn back_and_forth_in_armor(rt: HostRuntime) -> Result<(), Fail> {
    armor_answers(&rt, rt.alloc(), 200_000, &IN_ARMOR)
}

const AFTER_THE_END: [Call; 8] = [
    Call::Goes(SeekFrom::End(0), 655_361),
    Call::Opened(1),
    Call::Goes(SeekFrom::Current(-1), 655_360),
    Call::Gives(655_360),
    Call::Opened(1),
    Call::Looks(3, 2),
    Call::Goes(SeekFrom::End(0), 655_361),
    Call::Opened(2),
];

// A seek to the end uses the last chunk.
#[test]
fn the_last_chunk_stays_after_a_seek_to_the_end(rt: HostRuntime) -> Result<(), Fail> {
    payload_answers::<BenchSuite>(&rt, rt.alloc(), 655_361, &AFTER_THE_END)
}

const BEFORE_THE_END: [Call; 6] = [
    Call::Looks(0, 1),
    Call::Looks(65_536, 2),
    Call::Goes(SeekFrom::Start(5), 5),
    Call::Looks(131_072, 3),
    Call::Looks(65_537, 3),
    Call::Looks(0, 4),
];

// A seek to another place uses nothing: the chunk that it only came to is given up before the one that was read after it.
#[test]
fn a_seek_before_the_end_uses_no_chunk(rt: HostRuntime) -> Result<(), Fail> {
    payload_answers::<BenchSuite>(&rt, rt.alloc(), 200_000, &BEFORE_THE_END)
}

const READ_ON: [Call; 7] = [
    Call::Looks(65_536, 1),
    Call::Looks(65_535, 2),
    Call::Gives(65_536),
    Call::Opened(2),
    Call::Looks(131_071, 2),
    Call::Gives(131_072),
    Call::Opened(3),
];

// A read that comes from one chunk into the other opens nothing.
#[test]
fn a_kept_chunk_is_read_on_into(rt: HostRuntime) -> Result<(), Fail> {
    payload_answers::<BenchSuite>(&rt, rt.alloc(), 200_000, &READ_ON)
}

const FULL_LAST: [Call; 5] = [
    Call::Looks(131_071, 2),
    Call::Looks(0, 3),
    Call::Looks(131_071, 3),
    Call::Goes(SeekFrom::End(0), 131_072),
    Call::Opened(3),
];

// It is tried as a middle chunk first, then as the last, and stays though its end was read.
#[test]
fn a_full_last_chunk_stays(rt: HostRuntime) -> Result<(), Fail> {
    payload_answers::<BenchSuite>(&rt, rt.alloc(), 131_072, &FULL_LAST)
}

const JUDGED: [Call; 3] = [
    Call::Goes(SeekFrom::End(0), 131_072),
    Call::Opened(1),
    Call::Looks(131_071, 3),
];

// A seek to the end opens it as the last without asking whether it is a middle chunk, so a place in it is judged by itself.
#[test]
fn a_full_last_chunk_of_a_seek_is_judged(rt: HostRuntime) -> Result<(), Fail> {
    payload_answers::<BenchSuite>(&rt, rt.alloc(), 131_072, &JUDGED)
}

const BEFORE_THE_BAD: [Call; 3] = [
    Call::Looks(0, 1),
    Call::Looks(131_072, 2),
    Call::Goes(SeekFrom::Start(65_536), 65_536),
];

const AFTER_THE_BAD: [Call; 5] = [
    Call::Opened(4),
    Call::Looks(0, 5),
    Call::Looks(131_072, 6),
    Call::Refuses(SeekFrom::Start(200_001), Error::PastEnd),
    Call::Looks(0, 6),
];

// In a payload of 200,000 bytes of plaintext whose second chunk is bad.
fn keeps_no_chunk(
    rt: &impl Abort,
    alloc: Global,
    reader: &mut StreamReader<BenchSuite, Bytes>,
) -> Result<(), Fail> {
    answers(rt, alloc, reader, &BEFORE_THE_BAD)?;
    assert!(rt; read_refuses(reader, Error::BadChunk));
    answers(rt, alloc, reader, &AFTER_THE_BAD)
}

#[test]
fn a_failed_reader_keeps_no_chunk(rt: HostRuntime) -> Result<(), Fail> {
    let alloc = rt.alloc();
    let payload = with_a_bad_chunk::<BenchSuite>(alloc, 200_000)?;
    let mut reader = reader_of::<BenchSuite, Bytes>(alloc, Bytes::new(&payload))?;
    keeps_no_chunk(&rt, alloc, &mut reader)
}
