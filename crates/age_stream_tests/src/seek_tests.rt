//! Seeks in payloads, over both suites where a suite may matter, and how often they open chunks.

use crate::fixtures::{
    Call, FIRST_AS_LAST, FIRST_AS_MIDDLE, answers, armor_answers, buffered, full_chunk_and, gives,
    in_armor, payload_answers, reader_answers, reader_of, sealed, two_chunks, with_a_bad_chunk,
};
use age::io::{Answer, Bytes, Error, Op, Read, Seek, SeekFrom, run};
use age::stream::StreamReader;
use age::suite::Suite;
use age_bench::suite::BenchSuite;
use std::alloc::{AllocError, Global};
use std::process::Abort;
use std::test::Fail;
use test_support::fixtures::{KEY, armored_texts, part, plaintext};
use test_support::other_suite::OtherSuite;
use test_support::whole::seal_whole;

// Readers of a payload, bare and through a buffer, answer the calls so.
fn both_answer(rt: &impl Abort, alloc: Global, payload: &[u8], calls: &[Call]) -> Result<(), Fail> {
    reader_answers::<BenchSuite, _>(rt, alloc, Bytes::new(payload), calls)?;
    reader_answers::<BenchSuite, _>(rt, alloc, buffered(alloc, payload)?, calls)
}

// Readers of what these texts in armor carry do.
fn texts_answer(
    rt: &impl Abort,
    alloc: Global,
    texts: &[Vec<u8>],
    calls: &[Call],
) -> Result<(), Fail> {
    for text in texts {
        reader_answers::<BenchSuite, _>(rt, alloc, in_armor(alloc, text)?, calls)?;
    }
    Ok(())
}

// Readers of a payload, bare, through a buffer, and in its texts in armor, do.
fn all_answer(rt: &impl Abort, alloc: Global, payload: &[u8], calls: &[Call]) -> Result<(), Fail> {
    both_answer(rt, alloc, payload, calls)?;
    let texts = armored_texts(alloc, payload)?;
    texts_answer(rt, alloc, &texts, calls)
}

// Refused seeks in a payload of 102,400 bytes of plaintext, from its front on, and a read after each.
const STAYS: [Call; 11] = [
    Call::Refuses(SeekFrom::Start(102_401), Error::PastEnd),
    Call::Gives(0),
    Call::Goes(SeekFrom::Start(0), 0),
    Call::Refuses(SeekFrom::Current(-1), Error::BeforeStart),
    Call::Gives(0),
    Call::Goes(SeekFrom::Start(10), 10),
    Call::Refuses(SeekFrom::Current(i64::MAX), Error::PastEnd),
    Call::Gives(10),
    Call::Refuses(SeekFrom::End(-102_401), Error::BeforeStart),
    Call::Refuses(SeekFrom::Current(i64::MIN), Error::BeforeStart),
    Call::Gives(11),
];

// Seeks in it, and a read after each.
const MOVES: [Call; 10] = [
    Call::Goes(SeekFrom::End(0), 102_400),
    Call::Ends,
    Call::Goes(SeekFrom::Start(102_400), 102_400),
    Call::Ends,
    Call::Goes(SeekFrom::Start(65_536), 65_536),
    Call::GivesNone,
    Call::Gives(65_536),
    Call::Goes(SeekFrom::End(-1), 102_399),
    Call::Gives(102_399),
    Call::Ends,
];

// The reader stays where it is, and then moves.
fn is_a_cursor<S: Suite, R: Seek + Drop>(
    rt: &impl Abort,
    alloc: Global,
    inner: R,
) -> Result<(), Fail> {
    let mut reader = reader_of::<S, R>(alloc, inner)?;
    answers(rt, alloc, &mut reader, &STAYS)?;
    answers(rt, alloc, &mut reader, &MOVES)
}

// The payload over this suite, bare.
fn is_a_cursor_over<S: Suite>(rt: &impl Abort, alloc: Global) -> Result<(), Fail> {
    let payload = sealed::<S>(alloc, 102_400)?;
    assert!(rt; payload.len() == 102_432);
    is_a_cursor::<S, _>(rt, alloc, Bytes::new(&payload))
}

// The payload in each of these texts in armor.
fn texts_are_cursors(rt: &impl Abort, alloc: Global, texts: &[Vec<u8>]) -> Result<(), Fail> {
    for text in texts {
        is_a_cursor::<BenchSuite, _>(rt, alloc, in_armor(alloc, text)?)?;
    }
    Ok(())
}

// The payload through a buffer, and in its texts in armor.
fn all_are_cursors(rt: &impl Abort, alloc: Global, payload: &[u8]) -> Result<(), Fail> {
    is_a_cursor::<BenchSuite, _>(rt, alloc, buffered(alloc, payload)?)?;
    let texts = armored_texts(alloc, payload)?;
    texts_are_cursors(rt, alloc, &texts)
}

#[test]
fn seeks_move_a_cursor(rt: HostRuntime) -> Result<(), Fail> {
    let alloc = rt.alloc();
    is_a_cursor_over::<BenchSuite>(&rt, alloc)?;
    is_a_cursor_over::<OtherSuite>(&rt, alloc)?;
    all_are_cursors(&rt, alloc, &sealed::<BenchSuite>(alloc, 102_400)?)
}

const LIST: [Op; 11] = [
    Op::Read(100),
    Op::Seek(SeekFrom::Current(65_436)),
    Op::Read(70_000),
    Op::Seek(SeekFrom::End(-200_001)),
    Op::Seek(SeekFrom::End(-5)),
    Op::Read(6),
    Op::Seek(SeekFrom::Start(200_000)),
    Op::Read(1),
    Op::Seek(SeekFrom::Start(u64::MAX)),
    Op::Seek(SeekFrom::Current(-200_000)),
    Op::Read(3),
];

// The answers of the list of reads and seeks in this payload, of 200,000 bytes of plaintext.
fn listed<S: Suite>(alloc: Global, payload: &[u8]) -> Result<Vec<Answer>, Fail> {
    let mut reader = reader_of::<S, Bytes>(alloc, Bytes::new(payload))?;
    Ok(run(alloc, &mut reader, &LIST)?)
}

// Whether the answer at that place in the list is these bytes.
fn gave(answers: &[Answer], i: usize, expected: &[u8]) -> bool {
    match answers.get(i) {
        Some(Answer::Bytes(bytes)) => bytes.as_slice() == expected,
        _ => false,
    }
}

// Whether the answer at that place in the list is this place.
fn moved(answers: &[Answer], i: usize, place: u64) -> bool {
    match answers.get(i) {
        Some(Answer::At(at)) => *at == place,
        _ => false,
    }
}

// Whether the answer at that place in the list is this refusal, with no bytes before it.
fn refused(answers: &[Answer], i: usize, refusal: Error) -> bool {
    match answers.get(i) {
        Some(Answer::Fault { got, error }) => got.is_empty() && *error == refusal,
        _ => false,
    }
}

// The answers that are bytes of the plaintext, and from where to where.
const PARTS: [(usize, usize, usize); 5] = [
    (0, 0, 100),
    (2, 65_536, 135_536),
    (5, 199_995, 200_000),
    (7, 200_000, 200_000),
    (10, 0, 3),
];

fn are_parts(rt: &impl Abort, answers: &[Answer], plain: &[u8]) {
    for (i, from, to) in PARTS {
        assert!(rt; gave(answers, i, part(plain, from, to)), "answer {i}");
    }
}

// The answers that are places, and which.
const PLACES: [(usize, u64); 4] = [(1, 65_536), (4, 199_995), (6, 200_000), (9, 0)];

fn are_places(rt: &impl Abort, answers: &[Answer]) {
    for (i, place) in PLACES {
        assert!(rt; moved(answers, i, place), "answer {i}");
    }
}

// The answers that are refusals, and which.
const REFUSALS: [(usize, Error); 2] = [(3, Error::BeforeStart), (8, Error::PastEnd)];

fn are_refusals(rt: &impl Abort, answers: &[Answer]) {
    for (i, error) in REFUSALS {
        assert!(rt; refused(answers, i, error), "answer {i}");
    }
}

// The list's answers, where its reads give parts of this plaintext.
fn are_answers(rt: &impl Abort, answers: &[Answer], plain: &[u8]) {
    assert!(rt; answers.len() == 11);
    are_parts(rt, answers, plain);
    are_places(rt, answers);
    are_refusals(rt, answers);
}

fn answers_a_list<S: Suite>(rt: &impl Abort, alloc: Global, plain: &[u8]) -> Result<(), Fail> {
    let payload = seal_whole::<S>(alloc, &KEY, plain)?;
    let answers = listed::<S>(alloc, &payload)?;
    are_answers(rt, &answers, plain);
    Ok(())
}

#[test]
fn a_list_of_seeks_and_reads(rt: HostRuntime) -> Result<(), Fail> {
    let alloc = rt.alloc();
    let plain = plaintext(alloc, 200_000)?;
    answers_a_list::<BenchSuite>(&rt, alloc, &plain)?;
    answers_a_list::<OtherSuite>(&rt, alloc, &plain)
}

// A payload of 131,072 bytes of plaintext without its second chunk.
const LACKS_ITS_END: [Call; 7] = [
    Call::LeavesUntil(0, 65_536, Error::Truncated),
    Call::Failed,
    Call::Refuses(SeekFrom::End(0), Error::BadEnd),
    Call::Failed,
    Call::Goes(SeekFrom::Start(0), 0),
    Call::LeavesUntil(0, 65_536, Error::Truncated),
    Call::Failed,
];

// Its first chunk, over this suite.
fn first_chunk<S: Suite>(alloc: Global) -> Result<Vec<u8>, AllocError> {
    let payload = sealed::<S>(alloc, 131_072)?;
    Vec::from_slice(alloc, part(&payload, 0, 65_552))
}

#[test]
fn a_payload_cut_between_chunks(rt: HostRuntime) -> Result<(), Fail> {
    let alloc = rt.alloc();
    all_answer(
        &rt,
        alloc,
        &first_chunk::<BenchSuite>(alloc)?,
        &LACKS_ITS_END,
    )?;
    let other = first_chunk::<OtherSuite>(alloc)?;
    reader_answers::<OtherSuite, _>(&rt, alloc, Bytes::new(&other), &LACKS_ITS_END)
}

// A payload whose last chunk is empty though there is one before it: a seek that needs its length.
fn without_length(to: SeekFrom) -> [Call; 6] {
    [
        Call::Refuses(SeekFrom::Current(-1), Error::BeforeStart),
        Call::Gives(0),
        Call::Refuses(to, Error::BadEnd),
        Call::Failed,
        // A target below 0 is told from the place alone.
        Call::Refuses(SeekFrom::Current(-2), Error::BeforeStart),
        Call::Failed,
    ]
}

// Seeks that need a payload's length.
const NEEDS_LENGTH: [SeekFrom; 4] = [
    SeekFrom::End(0),
    SeekFrom::Start(0),
    SeekFrom::Start(u64::MAX),
    SeekFrom::End(-70_000),
];

// None of them goes anywhere in this payload, bare.
fn never_has_a_length<S: Suite>(
    rt: &impl Abort,
    alloc: Global,
    payload: &[u8],
) -> Result<(), Fail> {
    for to in NEEDS_LENGTH {
        let calls = without_length(to);
        reader_answers::<S, _>(rt, alloc, Bytes::new(payload), &calls)?;
    }
    Ok(())
}

// Nor in these texts in armor.
fn texts_never_have_a_length(
    rt: &impl Abort,
    alloc: Global,
    texts: &[Vec<u8>],
) -> Result<(), Fail> {
    for to in NEEDS_LENGTH {
        let calls = without_length(to);
        texts_answer(rt, alloc, texts, &calls)?;
    }
    Ok(())
}

const EMPTY_LAST: [Call; 2] = [
    Call::LeavesUntil(0, 65_536, Error::LastChunkEmpty),
    Call::Failed,
];

// The payload read from its front, and seeks in it, bare and in its texts in armor.
fn has_an_empty_last_chunk(rt: &impl Abort, alloc: Global, payload: &[u8]) -> Result<(), Fail> {
    assert!(rt; payload.len() == 65_568);
    all_answer(rt, alloc, payload, &EMPTY_LAST)?;
    never_has_a_length::<BenchSuite>(rt, alloc, payload)?;
    let texts = armored_texts(alloc, payload)?;
    texts_never_have_a_length(rt, alloc, &texts)
}

#[test]
fn an_empty_last_chunk_after_a_full_one(rt: HostRuntime) -> Result<(), Fail> {
    let alloc = rt.alloc();
    has_an_empty_last_chunk(
        &rt,
        alloc,
        &two_chunks::<BenchSuite>(alloc, &FIRST_AS_MIDDLE, &[])?,
    )?;
    let other = two_chunks::<OtherSuite>(alloc, &FIRST_AS_MIDDLE, &[])?;
    never_has_a_length::<OtherSuite>(&rt, alloc, &other)
}

// A full chunk sealed as the last, and a second sealed as the last after it.
const TWO_LAST: [Call; 10] = [
    Call::LeavesUntil(0, 65_536, Error::AfterLast),
    Call::Failed,
    // Reads that come through a part of it find the same.
    Call::Goes(SeekFrom::Start(65_535), 65_535),
    Call::LeavesUntil(65_535, 65_536, Error::AfterLast),
    Call::Failed,
    // Right after a seek the chunk at the place is judged by itself.
    Call::Goes(SeekFrom::Start(65_536), 65_536),
    Call::Gives(65_536),
    Call::Ends,
    Call::Goes(SeekFrom::End(0), 65_537),
    Call::Ends,
];

fn has_two_last_chunks(rt: &impl Abort, alloc: Global) -> Result<(), Fail> {
    let payload = two_chunks::<BenchSuite>(alloc, &FIRST_AS_LAST, &[25])?;
    all_answer(rt, alloc, &payload, &TWO_LAST)
}

// A full chunk sealed as the last, and a byte after it.
const BYTE_AFTER: [Call; 2] = [Call::LeavesUntil(0, 65_536, Error::AfterLast), Call::Failed];

fn has_a_byte_after(rt: &impl Abort, alloc: Global) -> Result<(), Fail> {
    let payload = full_chunk_and::<BenchSuite>(alloc, &FIRST_AS_LAST, &[0])?;
    all_answer(rt, alloc, &payload, &BYTE_AFTER)
}

#[test]
fn bytes_after_the_last_chunk(rt: HostRuntime) -> Result<(), Fail> {
    let alloc = rt.alloc();
    has_two_last_chunks(&rt, alloc)?;
    has_a_byte_after(&rt, alloc)?;
    let other = two_chunks::<OtherSuite>(alloc, &FIRST_AS_LAST, &[25])?;
    reader_answers::<OtherSuite, _>(&rt, alloc, Bytes::new(&other), &TWO_LAST)
}

// In a payload of 200,000 bytes of plaintext the bad chunk is passed over by a seek, and good chunks after it are read.
const BAD_CHUNK: [Call; 9] = [
    Call::LeavesUntil(0, 65_536, Error::BadChunk),
    Call::Failed,
    Call::Goes(SeekFrom::Start(131_072), 131_072),
    Call::Leaves(131_072, 200_000),
    Call::Goes(SeekFrom::Start(100_000), 100_000),
    Call::LeavesUntil(100_000, 100_000, Error::BadChunk),
    Call::Failed,
    Call::Goes(SeekFrom::Start(5), 5),
    Call::Gives(5),
];

fn passes_a_bad_chunk<S: Suite>(rt: &impl Abort, alloc: Global) -> Result<(), Fail> {
    let payload = with_a_bad_chunk::<S>(alloc, 200_000)?;
    reader_answers::<S, _>(rt, alloc, Bytes::new(&payload), &BAD_CHUNK)
}

#[test]
fn a_good_chunk_after_a_bad_one(rt: HostRuntime) -> Result<(), Fail> {
    passes_a_bad_chunk::<BenchSuite>(&rt, rt.alloc())?;
    passes_a_bad_chunk::<OtherSuite>(&rt, rt.alloc())
}

// Seeks in a payload of 655,361 bytes of plaintext open nothing but at its end.
const OPENS: [Call; 14] = [
    Call::Opened(0),
    Call::Goes(SeekFrom::Start(655_360), 655_360),
    Call::Opened(0),
    Call::Gives(655_360),
    Call::Opened(1),
    Call::Goes(SeekFrom::End(0), 655_361),
    Call::Opened(1),
    // The last chunk is kept until two others were read.
    Call::Goes(SeekFrom::Start(3), 3),
    Call::Goes(SeekFrom::End(0), 655_361),
    Call::Opened(1),
    Call::Looks(3, 2),
    Call::Looks(70_000, 3),
    Call::Goes(SeekFrom::End(0), 655_361),
    Call::Opened(4),
];

#[test]
fn seeks_open_nothing_but_at_the_end(rt: HostRuntime) -> Result<(), Fail> {
    let alloc = rt.alloc();
    payload_answers::<OtherSuite>(&rt, alloc, 655_361, &OPENS)?;
    let payload = sealed::<BenchSuite>(alloc, 655_361)?;
    assert!(rt; payload.len() == 655_537);
    both_answer(&rt, alloc, &payload, &OPENS)
}

#[test]
fn seeks_in_armor_open_nothing_but_at_the_end(rt: HostRuntime) -> Result<(), Fail> {
    armor_answers(&rt, rt.alloc(), 655_361, &OPENS)
}

// A full chunk is opened as a middle chunk first, then as the last.
const OPENED_TWICE: [Call; 3] = [
    Call::Gives(0),
    Call::Opened(2),
    Call::Goes(SeekFrom::Start(0), 0),
];

// The reads of a full chunk one byte at a time, after a seek to its front.
fn read_bytes<R: Read>(rt: &impl Abort, reader: &mut R, count: usize) {
    for place in 0..count {
        assert!(rt; gives(reader, place), "at {place}");
    }
}

#[test]
fn a_chunk_is_kept_while_it_is_read(rt: HostRuntime) -> Result<(), Fail> {
    let alloc = rt.alloc();
    let payload = sealed::<BenchSuite>(alloc, 65_536)?;
    let mut reader = reader_of::<BenchSuite, Bytes>(alloc, Bytes::new(&payload))?;
    answers(&rt, alloc, &mut reader, &OPENED_TWICE)?;
    read_bytes(&rt, &mut reader, 65_536);
    assert!(rt; reader.opens() <= 7);
    Ok(())
}

// Whether these bytes are those of the plaintext from that place on.
fn stands_at(bytes: &[u8], place: u64) -> bool {
    for (i, byte) in bytes.iter().enumerate() {
        if *byte != (((place as usize).wrapping_add(i) % 251) as u8) {
            return false;
        }
    }
    true
}

// Whether a seek, and then reads until the buffer is full or the end comes, give so many of the bytes there.
fn fills<S: Suite, R: Seek>(
    reader: &mut StreamReader<S, R>,
    place: u64,
    room: &mut [u8],
    count: usize,
) -> bool {
    reader.read_at(SeekFrom::Start(place), room) == Ok(count)
        && stands_at(part(room, 0, count), place)
}

// They do, and open no more than so many chunks.
fn is_read_at<S: Suite, R: Seek>(
    rt: &impl Abort,
    reader: &mut StreamReader<S, R>,
    place: u64,
    room: &mut [u8],
    count: usize,
    opens: u64,
) {
    let before = reader.opens();
    assert!(rt; fills(reader, place, room, count), "at {place}");
    assert!(rt;
        reader.opens().saturating_sub(before) <= opens,
        "at {place}"
    );
}

// Places in a payload of 200,000 bytes of plaintext, the length of a buffer, how much of it is filled there, and how many chunks may
// be opened for that.
const FILLED: [(u64, usize, usize, u64); 5] = [
    (0, 1, 1, 1),
    (65_530, 10, 10, 1),
    (60_000, 140_000, 140_000, 4),
    (199_990, 100, 10, 0),
    (200_000, 5, 0, 0),
];

fn is_read_at_places<S: Suite, R: Seek>(
    rt: &impl Abort,
    alloc: Global,
    reader: &mut StreamReader<S, R>,
) -> Result<(), Fail> {
    for (place, length, count, opens) in FILLED {
        let mut room = vec![in alloc; 0; length]?;
        is_read_at(rt, reader, place, &mut room, count, opens);
    }
    Ok(())
}

// Targets outside of it, and how reads there are refused.
const OUTSIDE: [(SeekFrom, Error); 2] = [
    (SeekFrom::Start(200_001), Error::PastEnd),
    (SeekFrom::End(-200_001), Error::BeforeStart),
];

// Reads outside of it are refused, and one of no bytes moves the cursor.
fn is_not_read_outside<S: Suite, R: Seek>(rt: &impl Abort, reader: &mut StreamReader<S, R>) {
    for (to, error) in OUTSIDE {
        assert!(rt; reader.read_at(to, &mut [0]) == Err(error), "{to:?}");
    }
    assert!(rt; reader.read_at(SeekFrom::End(-1), &mut []) == Ok(0));
    assert!(rt; gives(reader, 199_999));
}

fn is_read_at_each_place<S: Suite>(rt: &impl Abort, alloc: Global) -> Result<(), Fail> {
    let payload = sealed::<S>(alloc, 200_000)?;
    let mut reader = reader_of::<S, Bytes>(alloc, Bytes::new(&payload))?;
    is_read_at_places(rt, alloc, &mut reader)?;
    is_not_read_outside(rt, &mut reader);
    Ok(())
}

#[test]
fn reads_at_a_place(rt: HostRuntime) -> Result<(), Fail> {
    is_read_at_each_place::<BenchSuite>(&rt, rt.alloc())?;
    is_read_at_each_place::<OtherSuite>(&rt, rt.alloc())
}

// Whether ten bytes are read at a target, and are those from this place on.
fn reads_ten_at<S: Suite, R: Seek>(
    reader: &mut StreamReader<S, R>,
    to: SeekFrom,
    place: u64,
) -> bool {
    let mut room = [0; 10];
    reader.read_at(to, &mut room) == Ok(10) && stands_at(room.as_slice(), place)
}

// Targets one after the other, and the places that they are at.
const IN_A_ROW: [(SeekFrom, u64); 4] = [
    (SeekFrom::Start(65_530), 65_530),
    (SeekFrom::Current(-5), 65_535),
    (SeekFrom::End(-36_860), 65_540),
    (SeekFrom::Current(0), 65_550),
];

// What is left after the last of them.
const LEFT: [Call; 1] = [Call::Leaves(65_560, 102_400)];

fn is_read_in_a_row(
    rt: &impl Abort,
    alloc: Global,
    reader: &mut StreamReader<BenchSuite, Bytes>,
) -> Result<(), Fail> {
    for (to, place) in IN_A_ROW {
        assert!(rt; reads_ten_at(reader, to, place), "from {place}");
    }
    answers(rt, alloc, reader, &LEFT)
}

// The second starts from where the first ended, and a read from where the second ended.
#[test]
fn reads_at_two_places_in_a_row(rt: HostRuntime) -> Result<(), Fail> {
    let alloc = rt.alloc();
    let payload = sealed::<BenchSuite>(alloc, 102_400)?;
    let mut reader = reader_of::<BenchSuite, Bytes>(alloc, Bytes::new(&payload))?;
    is_read_in_a_row(&rt, alloc, &mut reader)
}
