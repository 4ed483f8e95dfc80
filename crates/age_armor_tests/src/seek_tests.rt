//! Seeks in armor.

use crate::reader_tests::{BEGIN, END, armored, counting, joined};
use age_armor::ArmoredReader;
use age_error::io::{ArmoredReadError, Error, SeekFrom};
use age_io::{Answer, BufRead, Bytes, Op, Read, Seek, run};
use std::alloc::Global;
use std::test::Fail;
use test_support::fixtures::armored_texts;

const GARBAGE: Error = Error::Armor(ArmoredReadError::TrailingGarbage);

// What is expected of an operation.
#[derive(Clone, Copy)]
enum Expected {
    // A seek comes to this place.
    Place(u64),
    // A read gives so many of the counting bytes, from this one on.
    Front(usize, usize),
    // It refuses, before a byte came.
    Refusal(Error),
}

// Whether it is these bytes of the whole.
fn is_part(bytes: &[u8], whole: &[u8], from: usize, count: usize) -> bool {
    match whole.get(from..) {
        None => false,
        Some(rest) => match rest.get(..count) {
            None => false,
            Some(part) => part == bytes,
        },
    }
}

fn is_expected(answer: &Answer, expected: Expected, whole: &[u8]) -> bool {
    match answer {
        Answer::At(place) => match expected {
            Expected::Place(wanted) => *place == wanted,
            _ => false,
        },
        Answer::Bytes(bytes) => match expected {
            Expected::Front(from, count) => is_part(bytes.as_slice(), whole, from, count),
            _ => false,
        },
        Answer::Fault { got, error } => match expected {
            Expected::Refusal(wanted) => got.is_empty() && *error == wanted,
            _ => false,
        },
    }
}

// Whether the reader answers the operations so.
fn answers<R: Seek>(
    alloc: Global,
    reader: &mut R,
    whole: &[u8],
    steps: &[(Op, Expected)],
) -> Result<bool, Error> {
    for step in steps {
        let (op, expected) = *step;
        let got = run(alloc, reader, &[op])?;
        let [answer] = got.as_slice() else {
            return Ok(false);
        };
        if !is_expected(answer, expected, whole) {
            return Ok(false);
        }
    }
    Ok(true)
}

// Whether readers of the text, over `Bytes` and over a buffer, answer the operations so.
fn both_answer(
    alloc: Global,
    text: &[u8],
    whole: &[u8],
    steps: &[(Op, Expected)],
) -> Result<bool, Error> {
    let mut bare = ArmoredReader::new_buffered(alloc, Bytes::new(text))?;
    if !answers(alloc, &mut bare, whole, steps)? {
        return Ok(false);
    }
    let mut buffered = ArmoredReader::new(alloc, Bytes::new(text))?;
    answers(alloc, &mut buffered, whole, steps)
}

// Seeks and reads in 10,000 bytes.
const SEEKS: [(Op, Expected); 9] = [
    (Op::Seek(SeekFrom::Start(5)), Expected::Place(5)),
    (Op::Read(100), Expected::Front(5, 100)),
    (Op::Seek(SeekFrom::Current(500)), Expected::Place(605)),
    (Op::Read(100), Expected::Front(605, 100)),
    (Op::Seek(SeekFrom::End(-1337)), Expected::Place(8663)),
    (Op::Read(100), Expected::Front(8663, 100)),
    (Op::Seek(SeekFrom::Start(5)), Expected::Place(5)),
    (
        Op::Seek(SeekFrom::Start(10_001)),
        Expected::Refusal(Error::PastEnd),
    ),
    (Op::Read(1), Expected::Front(5, 1)),
];

// Whether readers of the armor of bytes, of so many bytes with this line ending and this after it, answer the operations so.
fn armor_answers(
    alloc: Global,
    data: &[u8],
    (feed, after, length): (&[u8], &[u8], usize),
    steps: &[(Op, Expected)],
) -> Result<bool, Error> {
    let mut text = armored(alloc, data, feed)?;
    text.extend_from_slice(after)?;
    Ok(text.len() == length && both_answer(alloc, &text, data, steps)?)
}

#[test]
fn seeks_lead_to_their_targets(rt: HostRuntime) -> Result<(), Fail> {
    let alloc = rt.alloc();
    let data = counting(alloc, 10_000)?;
    assert!(rt; armor_answers(alloc, &data, (b"\n", b"", 13_613), &SEEKS)?);
    assert!(rt; armor_answers(alloc, &data, (b"\r\n", b"   ", 13_827), &SEEKS)?);
    assert!(rt; both_answer(alloc, &data, &data, &SEEKS)?);
    Ok(())
}

// Seeks and reads in 100,000 bytes, 2,084 lines, once they were read to their end: near the marks behind 1,024 lines and 2,048,
// and from the end, whose place is known.
const AFTER_ALL: [(Op, Expected); 19] = [
    (Op::Read(100_000), Expected::Front(0, 100_000)),
    (Op::Read(1), Expected::Front(100_000, 0)),
    (Op::Seek(SeekFrom::Start(98_303)), Expected::Place(98_303)),
    (Op::Read(1), Expected::Front(98_303, 1)),
    (Op::Seek(SeekFrom::Start(99_000)), Expected::Place(99_000)),
    (Op::Read(1), Expected::Front(99_000, 1)),
    (Op::Seek(SeekFrom::End(0)), Expected::Place(100_000)),
    (Op::Read(1), Expected::Front(100_000, 0)),
    (Op::Seek(SeekFrom::End(-50_848)), Expected::Place(49_152)),
    (Op::Read(100), Expected::Front(49_152, 100)),
    (Op::Seek(SeekFrom::Current(-101)), Expected::Place(49_151)),
    (Op::Read(2), Expected::Front(49_151, 2)),
    (
        Op::Seek(SeekFrom::Start(100_001)),
        Expected::Refusal(Error::PastEnd),
    ),
    (
        Op::Seek(SeekFrom::End(1)),
        Expected::Refusal(Error::PastEnd),
    ),
    (
        Op::Seek(SeekFrom::End(-100_001)),
        Expected::Refusal(Error::BeforeStart),
    ),
    (Op::Read(1), Expected::Front(49_153, 1)),
    (Op::Seek(SeekFrom::Start(0)), Expected::Place(0)),
    (Op::Read(49_153), Expected::Front(0, 49_153)),
    (Op::Read(1), Expected::Front(49_153, 1)),
];

// The same, where they weren't: marks are noted on the way.
const ON_THE_WAY: [(Op, Expected); 10] = [
    (Op::Seek(SeekFrom::Start(49_152)), Expected::Place(49_152)),
    (Op::Seek(SeekFrom::Start(49_152)), Expected::Place(49_152)),
    (Op::Read(1), Expected::Front(49_152, 1)),
    (Op::Seek(SeekFrom::Start(49_152)), Expected::Place(49_152)),
    (Op::Read(50), Expected::Front(49_152, 50)),
    (Op::Seek(SeekFrom::Start(5)), Expected::Place(5)),
    (Op::Seek(SeekFrom::Start(99_999)), Expected::Place(99_999)),
    (Op::Read(2), Expected::Front(99_999, 1)),
    (Op::Seek(SeekFrom::Start(98_304)), Expected::Place(98_304)),
    (Op::Read(48), Expected::Front(98_304, 48)),
];

#[test]
fn seeks_near_marks_lead_to_their_targets(rt: HostRuntime) -> Result<(), Fail> {
    let alloc = rt.alloc();
    let data = counting(alloc, 100_000)?;
    for (feed, length) in [(b"\n".as_slice(), 135_488), (b"\r\n", 137_574)] {
        assert!(rt; armor_answers(alloc, &data, (feed, b"", length), &AFTER_ALL)?);
        assert!(rt; armor_answers(alloc, &data, (feed, b"", length), &ON_THE_WAY)?);
    }
    assert!(rt; both_answer(alloc, &data, &data, &AFTER_ALL)?);
    Ok(())
}

// All bytes and the end.
const ALL: [(Op, Expected); 2] = [
    (Op::Read(100_000), Expected::Front(0, 100_000)),
    (Op::Read(1), Expected::Front(100_000, 0)),
];

// Back to where it stands, and to outside of the text.
const STILL: [(Op, Expected); 5] = [
    (Op::Seek(SeekFrom::Current(0)), Expected::Place(99_001)),
    (Op::Seek(SeekFrom::Start(99_001)), Expected::Place(99_001)),
    (
        Op::Seek(SeekFrom::Start(100_001)),
        Expected::Refusal(Error::PastEnd),
    ),
    (
        Op::Seek(SeekFrom::End(1)),
        Expected::Refusal(Error::PastEnd),
    ),
    (
        Op::Seek(SeekFrom::End(-100_001)),
        Expected::Refusal(Error::BeforeStart),
    ),
];

// To the end.
const TO_END: [(Op, Expected); 2] = [
    (Op::Seek(SeekFrom::End(0)), Expected::Place(100_000)),
    (Op::Seek(SeekFrom::Current(0)), Expected::Place(100_000)),
];

// Whether the reader answers the operations so, and takes so many lines for them.
fn takes<R: BufRead + Seek>(
    alloc: Global,
    reader: &mut ArmoredReader<R>,
    whole: &[u8],
    steps: &[(Op, Expected)],
    lines: u64,
) -> Result<bool, Error> {
    let before = reader.lines();
    Ok(answers(alloc, reader, whole, steps)? && reader.lines().checked_sub(before) == Some(lines))
}

// Whether a seek to a place and a read of the byte there take so many lines.
fn looks<R: BufRead + Seek>(
    alloc: Global,
    reader: &mut ArmoredReader<R>,
    whole: &[u8],
    place: usize,
    lines: u64,
) -> Result<bool, Error> {
    let steps = [
        (
            Op::Seek(SeekFrom::Start(place as u64)),
            Expected::Place(place as u64),
        ),
        (Op::Read(1), Expected::Front(place, 1)),
    ];
    takes(alloc, reader, whole, &steps, lines)
}

// Whether a new reader takes so many lines to the end, so many for looks at two places then, and none for the way back to where it
// stands and to outside of the text; and whether its end is where it should be.
fn takes_lines<R: BufRead + Seek>(
    alloc: Global,
    reader: &mut ArmoredReader<R>,
    whole: &[u8],
    counts: [u64; 3],
) -> Result<bool, Error> {
    let [all, first, second] = counts;
    Ok(
        reader.lines() == 0
            && takes(alloc, reader, whole, &ALL, all)?
            && looks(alloc, reader, whole, 98_303, first)?
            && looks(alloc, reader, whole, 99_000, second)?
            && takes(alloc, reader, whole, &STILL, 0)?
            && answers(alloc, reader, whole, &TO_END)?,
    )
}

fn both_take_lines(
    alloc: Global,
    text: &[u8],
    whole: &[u8],
    counts: [u64; 3],
) -> Result<bool, Error> {
    let mut bare = ArmoredReader::new_buffered(alloc, Bytes::new(text))?;
    if !takes_lines(alloc, &mut bare, whole, counts)? {
        return Ok(false);
    }
    let mut buffered = ArmoredReader::new(alloc, Bytes::new(text))?;
    takes_lines(alloc, &mut buffered, whole, counts)
}

// 100,000 bytes are 2,084 lines; with the end marker's 2,085 are taken. Lines end in LF, in CRLF, and in both in turn.
#[test]
fn seeks_take_lines_from_the_mark_before(rt: HostRuntime) -> Result<(), Fail> {
    let alloc = rt.alloc();
    let data = counting(alloc, 100_000)?;
    for text in armored_texts(alloc, &data)?.as_slice() {
        assert!(rt; both_take_lines(alloc, text, &data, [2_085, 1_024, 15])?);
    }
    assert!(rt; both_take_lines(alloc, &data, &data, [0, 0, 0])?);
    Ok(())
}

// A fault behind 1,024 full lines is met by each seek beyond them, also once the line before it is a mark.
#[test]
fn a_fault_behind_a_mark_is_met_again(rt: HostRuntime) -> Result<(), Fail> {
    let alloc = rt.alloc();
    let data = counting(alloc, 49_200)?;
    let mut text = armored(alloc, &data, b"\n")?;
    text.truncate(text.len().saturating_sub(END.len()));
    text.extend_from_slice(b"Y\rQ=\n")?;
    let fault = Error::Armor(ArmoredReadError::LineContainsCr);
    let steps = [
        (Op::Read(49_200), Expected::Front(0, 49_200)),
        (Op::Read(1), Expected::Refusal(fault)),
        (Op::Seek(SeekFrom::Start(49_201)), Expected::Refusal(fault)),
        (Op::Seek(SeekFrom::End(0)), Expected::Refusal(fault)),
        (Op::Seek(SeekFrom::Start(49_199)), Expected::Place(49_199)),
        (Op::Read(1), Expected::Front(49_199, 1)),
        (Op::Read(1), Expected::Refusal(fault)),
    ];
    assert!(rt; both_answer(alloc, &text, &data, &steps)?);
    Ok(())
}

#[test]
fn space_after_the_end_marker_is_no_part_of_the_content(rt: HostRuntime) -> Result<(), Fail> {
    let alloc = rt.alloc();
    let text = joined(alloc, &[BEGIN, b"YQ==\n", END, b"   "])?;
    let steps = [(Op::Seek(SeekFrom::End(0)), Expected::Place(1))];
    assert!(rt; both_answer(alloc, &text, b"a", &steps)?);
    Ok(())
}

#[test]
fn seeks_past_the_good_bytes_are_the_fault_behind_them(rt: HostRuntime) -> Result<(), Fail> {
    let alloc = rt.alloc();
    let text = joined(alloc, &[BEGIN, b"YQ==\n", END, b"xxx"])?;
    let steps = [
        (Op::Seek(SeekFrom::End(0)), Expected::Refusal(GARBAGE)),
        (Op::Read(1), Expected::Refusal(Error::Failed)),
        (Op::Seek(SeekFrom::Start(2)), Expected::Refusal(GARBAGE)),
        (Op::Read(1), Expected::Refusal(Error::Failed)),
        (Op::Seek(SeekFrom::Start(1)), Expected::Place(1)),
        (Op::Seek(SeekFrom::Start(0)), Expected::Place(0)),
        (Op::Read(1), Expected::Front(0, 1)),
        (Op::Read(1), Expected::Refusal(GARBAGE)),
        (
            Op::Seek(SeekFrom::Current(-2)),
            Expected::Refusal(Error::BeforeStart),
        ),
        (Op::Read(1), Expected::Refusal(Error::Failed)),
    ];
    assert!(rt; both_answer(alloc, &text, b"a", &steps)?);
    Ok(())
}

// A text that begins with the begin marker and carries nothing: its lines after that, and its fault.
const BAD_LINES: [(&[u8], ArmoredReadError); 8] = [
    (
        b"Y\xffQ=\n-----END AGE ENCRYPTED FILE-----\n",
        ArmoredReadError::InvalidUtf8,
    ),
    (
        b"Y\rQ=\n-----END AGE ENCRYPTED FILE-----\n",
        ArmoredReadError::LineContainsCr,
    ),
    (
        b"YWE=\nYQ=\n-----END AGE ENCRYPTED FILE-----\n",
        ArmoredReadError::NotWrappedAt64Chars,
    ),
    (
        b"YQ=\n-----END AGE ENCRYPTED FILE-----\n",
        ArmoredReadError::MissingPadding,
    ),
    (
        b"YR==\n-----END AGE ENCRYPTED FILE-----\n",
        ArmoredReadError::Base64,
    ),
    (
        b"YQ==\nAAAAAAAAAAAAAAAAAAAAAAAAAAAAAAAAAAAAAAAAAAAAAAAAAAAAAAAAAAAAAAAA\n-----END AGE ENCRYPTED FILE-----\n",
        ArmoredReadError::ShortLineInMiddle,
    ),
    (b"YQ==\n", ArmoredReadError::NotWrappedAt64Chars),
    (
        b"YQ==\n-----END AGE ENCRYPTED FILE-----\nx",
        ArmoredReadError::TrailingGarbage,
    ),
];

// Seeks from the end are refused with this fault, and the reader has failed; one to the front makes it good again.
fn ends_in(alloc: Global, text: &[u8], fault: Error) -> Result<bool, Error> {
    let steps = [
        (Op::Seek(SeekFrom::End(0)), Expected::Refusal(fault)),
        (Op::Read(1), Expected::Refusal(Error::Failed)),
        (Op::Seek(SeekFrom::End(-1)), Expected::Refusal(fault)),
        (Op::Seek(SeekFrom::End(1)), Expected::Refusal(fault)),
        (Op::Seek(SeekFrom::Start(0)), Expected::Place(0)),
        (Op::Seek(SeekFrom::End(0)), Expected::Refusal(fault)),
    ];
    both_answer(alloc, text, b"", &steps)
}

// A text that begins so, and has these lines then.
fn lines_end_in(
    alloc: Global,
    begin: &[u8],
    lines: &[u8],
    fault: ArmoredReadError,
) -> Result<bool, Error> {
    ends_in(alloc, &joined(alloc, &[begin, lines])?, Error::Armor(fault))
}

#[test]
fn seeks_from_the_end_of_bad_armor_are_its_fault(rt: HostRuntime) -> Result<(), Fail> {
    let alloc = rt.alloc();
    for (lines, fault) in BAD_LINES {
        assert!(rt; lines_end_in(alloc, BEGIN, lines, fault)?);
    }
    let begin = b"-----BEGIN AGE ENCRYPTED FILE-----x\n";
    assert!(rt; lines_end_in(alloc, begin, END, ArmoredReadError::InvalidBeginMarker)?);
    for few in [b"".as_slice(), b"a", BEGIN, &[7; 35]] {
        assert!(rt; ends_in(alloc, few, Error::UnexpectedEof)?);
    }
    Ok(())
}
