//! The texts and the kinds of all refusals.

use age_error::io::{ArmoredReadError, Error, ErrorKind, SeekFrom};
use age_error::suite::ScryptError;
use std::alloc::Global;
use std::fmt::{Debug, Display};

// Whether it prints as this text.
pub fn prints<D: Display>(alloc: Global, value: &D, text: &str) -> bool {
    value.to_string(alloc).is_ok_and(|it| it.as_str() == text)
}

// A refusal, its kind and its text.
const ERRORS: [(Error, ErrorKind, &str); 20] = [
    (
        Error::Device(ErrorKind::NotFound),
        ErrorKind::NotFound,
        "device fault",
    ),
    (
        Error::Device(ErrorKind::PermissionDenied),
        ErrorKind::PermissionDenied,
        "device fault",
    ),
    (
        Error::Device(ErrorKind::Interrupted),
        ErrorKind::Interrupted,
        "device fault",
    ),
    (
        Error::Device(ErrorKind::Other),
        ErrorKind::Other,
        "device fault",
    ),
    (
        Error::UnexpectedEof,
        ErrorKind::UnexpectedEof,
        "input ended early",
    ),
    (
        Error::WriteZero,
        ErrorKind::WriteZero,
        "nothing could be written",
    ),
    (
        Error::BeforeStart,
        ErrorKind::InvalidData,
        "cannot seek before the start",
    ),
    (
        Error::PastEnd,
        ErrorKind::InvalidData,
        "cannot seek past the end",
    ),
    (
        Error::Truncated,
        ErrorKind::UnexpectedEof,
        "age file is truncated",
    ),
    (Error::BadChunk, ErrorKind::InvalidData, "decryption error"),
    (
        Error::AfterLast,
        ErrorKind::InvalidData,
        "last chunk has been processed",
    ),
    (
        Error::LastChunkEmpty,
        ErrorKind::InvalidData,
        "last chunk is empty",
    ),
    (
        Error::BadEnd,
        ErrorKind::InvalidData,
        "Last chunk is invalid, stream might be truncated",
    ),
    (
        Error::TooLong,
        ErrorKind::InvalidInput,
        "more than the largest length",
    ),
    (
        Error::LimitExceeded,
        ErrorKind::InvalidData,
        "input is longer than its limit",
    ),
    (
        Error::Armor(ArmoredReadError::LineContainsCr),
        ErrorKind::InvalidData,
        "line contains CR",
    ),
    (
        Error::NotIdentity { line: 1 },
        ErrorKind::InvalidData,
        "identity file contains non-identity data on line 1",
    ),
    (
        Error::NotIdentity { line: 20_480 },
        ErrorKind::InvalidData,
        "identity file contains non-identity data on line 20480",
    ),
    (Error::Failed, ErrorKind::Other, "failed earlier"),
    (Error::OutOfMemory, ErrorKind::OutOfMemory, "out of memory"),
];

// Whether an error has this kind and prints as this text.
fn is_so(alloc: Global, error: Error, kind: ErrorKind, text: &str) -> bool {
    error.kind() == kind && prints(alloc, &error, text)
}

#[test]
fn errors_have_their_texts_and_kinds(rt: HostRuntime) {
    for (error, kind, text) in ERRORS {
        assert!(rt; is_so(rt.alloc(), error, kind, text), "at {text}");
    }
}

// An armor fault and its text.
const FAULTS: [(ArmoredReadError, &str); 8] = [
    (ArmoredReadError::Base64, "invalid base64 in armor"),
    (
        ArmoredReadError::InvalidBeginMarker,
        "invalid armor begin marker",
    ),
    (
        ArmoredReadError::InvalidUtf8,
        "stream did not contain valid UTF-8",
    ),
    (ArmoredReadError::LineContainsCr, "line contains CR"),
    (
        ArmoredReadError::MissingPadding,
        "invalid armor (last line is missing padding)",
    ),
    (
        ArmoredReadError::NotWrappedAt64Chars,
        "invalid armor (not wrapped at 64 characters)",
    ),
    (
        ArmoredReadError::ShortLineInMiddle,
        "invalid armor (short line in middle of encoding)",
    ),
    (
        ArmoredReadError::TrailingGarbage,
        "invalid armor (non-whitespace characters after end marker)",
    ),
];

// Whether an armor fault prints alike by itself and as a refusal.
fn prints_alike(alloc: Global, fault: ArmoredReadError, text: &str) -> bool {
    prints(alloc, &fault, text) && prints(alloc, &Error::from(fault), text)
}

#[test]
fn armor_faults_have_their_texts(rt: HostRuntime) {
    for (fault, text) in FAULTS {
        assert!(rt; prints_alike(rt.alloc(), fault, text), "at {text}");
    }
}

#[test]
fn scrypt_errors_have_their_texts(rt: HostRuntime) {
    let alloc = rt.alloc();
    assert!(rt;
        prints(alloc, &ScryptError::InvalidParams, "work factor refused")
            && prints(alloc, &ScryptError::OutOfMemory, "out of memory")
    );
}

// Whether this text is what is shown of a value for debugging.
pub fn shows<D: Debug>(alloc: Global, value: &D, text: &str) -> bool {
    format!(in alloc; "{value:?}").is_ok_and(|it| it.as_str() == text)
}

// A refusal, and what is shown of it for debugging.
const SHOWN: [(Error, &str); 4] = [
    (Error::BadChunk, "BadChunk"),
    (Error::Device(ErrorKind::NotFound), "Device(NotFound)"),
    (Error::NotIdentity { line: 3 }, "NotIdentity { line: 3 }"),
    (Error::Armor(ArmoredReadError::Base64), "Armor(Base64)"),
];

// Whether values of other types are shown so.
fn others_are_shown(alloc: Global) -> bool {
    shows(alloc, &ErrorKind::InvalidData, "InvalidData")
        && shows(alloc, &SeekFrom::Start(5), "Start(5)")
        && shows(alloc, &SeekFrom::End(-1), "End(-1)")
        && shows(alloc, &ScryptError::InvalidParams, "InvalidParams")
}

// As Rust's derive writes them.
#[test]
fn values_are_shown_for_debugging(rt: HostRuntime) {
    for (error, text) in SHOWN {
        assert!(rt; shows(rt.alloc(), &error, text), "at {text}");
    }
    assert!(rt; others_are_shown(rt.alloc()));
}
