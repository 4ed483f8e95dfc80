//! What a reader of payloads answers over both suites, read by read, and how often it opens chunks.

use crate::fixtures::{
    Call, FIRST_AS_LAST, FIRST_AS_MIDDLE, SECOND_AS_LAST, answers, full_chunk_and, reader_of,
    sealed, two_chunks, with_a_bad_chunk,
};
use age::io::{Bytes, Error, Read};
use age::stream::StreamReader;
use age::suite::Suite;
use age_bench::suite::BenchSuite;
use std::alloc::Global;
use std::process::Abort;
use std::test::Fail;
use test_support::fixtures::{KEY, part, plaintext};
use test_support::other_suite::OtherSuite;

const READ: usize = 70_000;

// Reads of this buffer answer this, one after the other, and open so many chunks in all.
fn gives<S: Suite>(
    rt: &impl Abort,
    reader: &mut StreamReader<S, Bytes>,
    room: &mut [u8],
    expected: [Result<usize, Error>; 4],
    opens: u64,
) {
    assert!(rt; reader.opens() == 0);
    for i in 0..4 {
        assert!(rt; reader.read(room) == expected[i], "at read {i}");
    }
    assert!(rt; reader.opens() == opens, "not {opens} opens");
}

// Four reads of 70,000 bytes of this payload do.
fn reads_answer<S: Suite>(
    rt: &impl Abort,
    alloc: Global,
    payload: &[u8],
    expected: [Result<usize, Error>; 4],
    opens: u64,
) -> Result<(), Fail> {
    let mut room = vec![in alloc; 0; READ]?;
    let mut reader = reader_of::<S, Bytes>(alloc, Bytes::new(payload))?;
    gives(rt, &mut reader, &mut room, expected, opens);
    Ok(())
}

// The payload of a plaintext of so many bytes over this suite is answered so.
fn ends_cleanly<S: Suite>(
    rt: &impl Abort,
    alloc: Global,
    length: usize,
    expected: [Result<usize, Error>; 4],
    opens: u64,
) -> Result<(), Fail> {
    let payload = sealed::<S>(alloc, length)?;
    reads_answer::<S>(rt, alloc, &payload, expected, opens)
}

// The length of a plaintext, what the first two reads give of it, and how many chunks are opened.
const WHOLE: [(usize, usize, usize, u64); 5] = [
    (0, 0, 0, 1),
    (1, 1, 0, 1),
    (65_536, 65_536, 0, 2),
    (65_537, 65_536, 1, 2),
    (131_072, 65_536, 65_536, 3),
];

fn all_end_cleanly<S: Suite>(rt: &impl Abort, alloc: Global) -> Result<(), Fail> {
    for (length, first, second, opens) in WHOLE {
        let expected = [Ok(first), Ok(second), Ok(0), Ok(0)];
        ends_cleanly::<S>(rt, alloc, length, expected, opens)?;
    }
    Ok(())
}

#[test]
fn whole_payloads_end_cleanly(rt: HostRuntime) -> Result<(), Fail> {
    all_end_cleanly::<BenchSuite>(&rt, rt.alloc())?;
    all_end_cleanly::<OtherSuite>(&rt, rt.alloc())
}

// A refusal in the second chunk, after which the reader stays failed.
fn refuses_the_second<S: Suite>(
    rt: &impl Abort,
    alloc: Global,
    payload: &[u8],
    error: Error,
    opens: u64,
) -> Result<(), Fail> {
    let failed = Err(Error::Failed);
    let expected = [Ok(65_536), Err(error), failed, failed];
    reads_answer::<S>(rt, alloc, payload, expected, opens)
}

// The length that is left of a payload, its refusal, and how many chunks are opened.
const CUTS: [(usize, Error, u64); 3] = [
    (65_552, Error::Truncated, 1),
    (65_553, Error::BadChunk, 2),
    (131_103, Error::BadChunk, 2),
];

// A payload that is cut in its second chunk.
fn refuses_a_cut<S: Suite>(rt: &impl Abort, alloc: Global, payload: &[u8]) -> Result<(), Fail> {
    assert!(rt; payload.len() == 131_104);
    for (length, error, opens) in CUTS {
        refuses_the_second::<S>(rt, alloc, part(payload, 0, length), error, opens)?;
    }
    Ok(())
}

// A payload that is cut in its second chunk, and one that is changed there.
fn refuses_the_second_chunk<S: Suite>(rt: &impl Abort, alloc: Global) -> Result<(), Fail> {
    refuses_a_cut::<S>(rt, alloc, &sealed::<S>(alloc, 131_072)?)?;
    let changed = with_a_bad_chunk::<S>(alloc, 131_072)?;
    refuses_the_second::<S>(rt, alloc, &changed, Error::BadChunk, 3)
}

#[test]
fn cut_and_changed_payloads_are_refused(rt: HostRuntime) -> Result<(), Fail> {
    refuses_the_second_chunk::<BenchSuite>(&rt, rt.alloc())?;
    refuses_the_second_chunk::<OtherSuite>(&rt, rt.alloc())
}

// So many bytes that are no payload are refused at the first read.
fn refuses_nonsense<S: Suite>(
    rt: &impl Abort,
    alloc: Global,
    length: usize,
    error: Error,
    opens: u64,
) -> Result<(), Fail> {
    let failed = Err(Error::Failed);
    let nonsense = plaintext(alloc, length)?;
    let expected = [Err(error), failed, failed, failed];
    reads_answer::<S>(rt, alloc, &nonsense, expected, opens)
}

// The length of nonsense, its refusal, and how often it is tried to open a chunk.
const NONSENSE: [(usize, Error, u64); 6] = [
    (0, Error::Truncated, 0),
    (1, Error::BadChunk, 1),
    (15, Error::BadChunk, 1),
    (16, Error::BadChunk, 1),
    (65_552, Error::BadChunk, 2),
    (65_553, Error::BadChunk, 2),
];

fn refuses_all_nonsense<S: Suite>(rt: &impl Abort, alloc: Global) -> Result<(), Fail> {
    for (length, error, opens) in NONSENSE {
        refuses_nonsense::<S>(rt, alloc, length, error, opens)?;
    }
    Ok(())
}

// What is no payload from its first chunk on.
#[test]
fn what_is_no_chunk_is_refused(rt: HostRuntime) -> Result<(), Fail> {
    refuses_all_nonsense::<BenchSuite>(&rt, rt.alloc())?;
    refuses_all_nonsense::<OtherSuite>(&rt, rt.alloc())
}

// An empty chunk as the last, after a full one.
fn refuses_an_empty_last_chunk<S: Suite>(rt: &impl Abort, alloc: Global) -> Result<(), Fail> {
    let payload = two_chunks::<S>(alloc, &FIRST_AS_MIDDLE, &[])?;
    assert!(rt; payload.len() == 65_568);
    refuses_the_second::<S>(rt, alloc, &payload, Error::LastChunkEmpty, 2)
}

#[test]
fn an_empty_chunk_after_others_is_refused(rt: HostRuntime) -> Result<(), Fail> {
    refuses_an_empty_last_chunk::<BenchSuite>(&rt, rt.alloc())?;
    refuses_an_empty_last_chunk::<OtherSuite>(&rt, rt.alloc())
}

// A byte after a full chunk that is the last.
fn refuses_a_byte_after_the_last<S: Suite>(rt: &impl Abort, alloc: Global) -> Result<(), Fail> {
    let payload = full_chunk_and::<S>(alloc, &FIRST_AS_LAST, &[0])?;
    assert!(rt; payload.len() == 65_553);
    refuses_the_second::<S>(rt, alloc, &payload, Error::AfterLast, 2)
}

#[test]
fn bytes_after_the_last_chunk_are_refused(rt: HostRuntime) -> Result<(), Fail> {
    refuses_a_byte_after_the_last::<BenchSuite>(&rt, rt.alloc())?;
    refuses_a_byte_after_the_last::<OtherSuite>(&rt, rt.alloc())
}

// A read of this buffer answers this, and two chunks were opened by then.
fn reads_with_two_open(
    rt: &impl Abort,
    reader: &mut StreamReader<BenchSuite, Bytes>,
    room: &mut [u8],
    answer: Result<usize, Error>,
) {
    assert!(rt; reader.read(room) == answer, "not {answer:?}");
    assert!(rt; reader.opens() == 2);
}

// What follows a full chunk that opens as the last is refused without an attempt to open it.
fn refuses_without_opening(
    rt: &impl Abort,
    reader: &mut StreamReader<BenchSuite, Bytes>,
    room: &mut [u8],
) {
    reads_with_two_open(rt, reader, room, Ok(65_536));
    reads_with_two_open(rt, reader, room, Err(Error::AfterLast));
    reads_with_two_open(rt, reader, room, Err(Error::Failed));
}

// A full chunk that opens as the last, and these bytes after it.
fn does_not_open(rt: &impl Abort, alloc: Global, after: &[u8]) -> Result<(), Fail> {
    let payload = full_chunk_and::<BenchSuite>(alloc, &FIRST_AS_LAST, after)?;
    let mut room = vec![in alloc; 0; READ]?;
    let mut reader = reader_of::<BenchSuite, Bytes>(alloc, Bytes::new(&payload))?;
    refuses_without_opening(rt, &mut reader, &mut room);
    Ok(())
}

// A second chunk of this plaintext, sealed as the last.
fn does_not_open_a_chunk(rt: &impl Abort, alloc: Global, plain: &[u8]) -> Result<(), Fail> {
    let second = BenchSuite::seal(alloc, &KEY, &SECOND_AS_LAST, plain)?;
    does_not_open(rt, alloc, &second)
}

// Whatever follows a full chunk that opened as the last is not opened: not what opens as the next chunk, nor what doesn't.
#[test]
fn bytes_after_the_last_chunk_are_not_opened(rt: HostRuntime) -> Result<(), Fail> {
    let alloc = rt.alloc();
    does_not_open_a_chunk(&rt, alloc, &plaintext(alloc, 65_536)?)?;
    does_not_open_a_chunk(&rt, alloc, &[25])?;
    for length in [65_552, 15] {
        does_not_open(&rt, alloc, &plaintext(alloc, length)?)?;
    }
    Ok(())
}

// Eight reads of 8,192 bytes give one chunk's plaintext, and open that chunk at the first of them alone.
fn opens_once(
    rt: &impl Abort,
    reader: &mut StreamReader<BenchSuite, Bytes>,
    room: &mut [u8; 8_192],
    opens: u64,
) {
    for _read in 0..8u8 {
        assert!(rt; reader.read(room) == Ok(8_192));
        assert!(rt; reader.opens() == opens);
    }
}

// The first chunk is opened once, and the second twice.
fn opens_three_times(rt: &impl Abort, reader: &mut StreamReader<BenchSuite, Bytes>) {
    let mut room = [0; 8_192];
    opens_once(rt, reader, &mut room, 1);
    opens_once(rt, reader, &mut room, 3);
    assert!(rt; reader.read(&mut room) == Ok(0));
    assert!(rt; reader.opens() == 3);
}

const NOTHING_YET: [Call; 2] = [Call::GivesNone, Call::Opened(0)];

// The second chunk is full and the last, and so it is tried as a middle chunk first.
#[test]
fn a_chunk_that_is_held_is_not_opened_again(rt: HostRuntime) -> Result<(), Fail> {
    let alloc = rt.alloc();
    let payload = sealed::<BenchSuite>(alloc, 131_072)?;
    let mut reader = reader_of::<BenchSuite, Bytes>(alloc, Bytes::new(&payload))?;
    answers(&rt, alloc, &mut reader, &NOTHING_YET)?;
    opens_three_times(&rt, &mut reader);
    Ok(())
}
