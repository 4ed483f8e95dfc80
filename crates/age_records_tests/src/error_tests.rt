//! What refusals print, and which of them are the same.

use age::io::{Error, ErrorKind};
use age_records::RecordError;
use std::alloc::Global;
use std::test::Fail;

const FAULT: RecordError = RecordError::Io(Error::Device(ErrorKind::NotFound));

// A refusal, its text, and what is shown of it for debugging.
const ERRORS: [(RecordError, &str, &str); 6] = [
    (RecordError::NoSuchRecord, "no such record", "NoSuchRecord"),
    (RecordError::Damaged, "damaged records", "Damaged"),
    (FAULT, "device fault", "Io(Device(NotFound))"),
    (
        RecordError::Io(Error::OutOfMemory),
        "out of memory",
        "Io(OutOfMemory)",
    ),
    (
        RecordError::Io(Error::BadChunk),
        "decryption error",
        "Io(BadChunk)",
    ),
    (
        RecordError::Io(Error::Truncated),
        "age file is truncated",
        "Io(Truncated)",
    ),
];

// Whether a refusal prints as this text.
fn prints(alloc: Global, error: RecordError, text: &str) -> bool {
    error.to_string(alloc).is_ok_and(|it| it.as_str() == text)
}

// Whether this text is what is shown of it for debugging.
fn shows(alloc: Global, error: RecordError, text: &str) -> bool {
    format!(in alloc; "{error:?}").is_ok_and(|it| it.as_str() == text)
}

#[test]
fn refusals_have_their_texts(rt: HostRuntime) {
    for (error, text, shown) in ERRORS {
        assert!(rt; prints(rt.alloc(), error, text), "not {text}");
        assert!(rt; shows(rt.alloc(), error, shown), "not {shown}");
    }
}

// How many of them are the same as this one.
fn same_as(error: RecordError) -> usize {
    ERRORS.iter().filter(|row| row.0 == error).count()
}

#[test]
fn refusals_are_the_same_as_themselves_alone(rt: HostRuntime) {
    for (error, text, _) in ERRORS {
        assert!(rt; same_as(error) == 1, "at {text}");
    }
}
