//! Parts of the message, and lists of reads and seeks on it.

use crate::shared::is_error;
use crate::uses::fixtures::{ARMORED, has_part, part};
use age::io::{Answer, Bytes, Error, Op, SeekFrom};
use age::streaming::answers;
use age_bench::recipient::BenchIdentity;
use age_bench::suite::BenchSuite;
use std::alloc::Global;
use std::test::Fail;
use test_support::fixtures::{MESSAGE, message_file};

// Whether a text gives these parts of the message, and none past its end.
fn gives_parts(alloc: Global, text: &[u8]) -> bool {
    has_part::<BenchSuite>(alloc, 10, 4, text, b"test")
        && has_part::<BenchSuite>(alloc, 0, 36, text, MESSAGE)
        && has_part::<BenchSuite>(alloc, 30, 100, text, b"sting.")
        && has_part::<BenchSuite>(alloc, 36, 1, text, b"")
        && is_error(alloc, part::<BenchSuite>(alloc, 37, 1, text), "Io(PastEnd)")
}

#[test]
fn parts_of_the_message_are_read(rt: HostRuntime) -> Result<(), Fail> {
    let alloc = rt.alloc();
    assert!(rt; gives_parts(alloc, &message_file(alloc, &[])?));
    assert!(rt; gives_parts(alloc, ARMORED));
    Ok(())
}

// Whether the answer at that place in the list is these bytes.
fn gave(answers: &[Answer], i: usize, expected: &[u8]) -> bool {
    match answers.get(i) {
        Some(Answer::Bytes(bytes)) => bytes.as_slice() == expected,
        _ => false,
    }
}

// Whether the answer at that place in the list is this place.
fn moved(answers: &[Answer], i: usize, expected: u64) -> bool {
    match answers.get(i) {
        Some(Answer::At(place)) => *place == expected,
        _ => false,
    }
}

// Whether the answer at that place in the list is this refusal, with no bytes before it.
fn refused(answers: &[Answer], i: usize, expected: Error) -> bool {
    match answers.get(i) {
        Some(Answer::Fault { got, error }) => got.len() == 0 && *error == expected,
        _ => false,
    }
}

const LIST: [Op; 5] = [
    Op::Seek(SeekFrom::Start(10)),
    Op::Read(4),
    Op::Seek(SeekFrom::End(-4)),
    Op::Read(10),
    Op::Seek(SeekFrom::Start(37)),
];

// Whether these are the answers of the list on the message.
fn are_of_the_message(answers: &[Answer]) -> bool {
    answers.len() == 5
        && moved(answers, 0, 10)
        && gave(answers, 1, b"test")
        && moved(answers, 2, 32)
        && gave(answers, 3, b"ing.")
        && refused(answers, 4, Error::PastEnd)
}

// Whether it is a success with those answers.
fn is_of_the_message<E: Drop>(answer: Result<Vec<Answer>, E>) -> bool {
    match answer {
        Ok(got) => are_of_the_message(&got),
        Err(_) => false,
    }
}

// Whether a text of the message answers the list.
fn answers_the_list(alloc: Global, text: &[u8]) -> bool {
    is_of_the_message(answers::<BenchSuite, BenchIdentity, Bytes>(
        alloc,
        &mut [BenchIdentity],
        &LIST,
        Bytes::new(text),
    ))
}

#[test]
fn reads_and_seeks_are_answered(rt: HostRuntime) -> Result<(), Fail> {
    let alloc = rt.alloc();
    assert!(rt; answers_the_list(alloc, &message_file(alloc, &[])?));
    assert!(rt; answers_the_list(alloc, ARMORED));
    Ok(())
}
