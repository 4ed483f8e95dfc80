//! PLACE and COUNT.

use crate::sazh_words::answers::words_ask;
use sazh_command::told_place;
use std::alloc::{AllocError, Global};
use std::test::Fail;

// Whether `part -i key PLACE COUNT file` asks for this, or is wrong so.
fn part_asks(alloc: Global, place: &str, count: &str, expected: &str) -> Result<bool, AllocError> {
    let words = ["part", "-i", "key", "--", place, count, "file"];
    words_ask(alloc, &words, expected)
}

// Whether a word is taken as this PLACE.
fn is_place(alloc: Global, word: &str, number: u64) -> Result<bool, AllocError> {
    let expected = format!(in alloc;
        "Ok(Part {{ opening: Opening {{ identities: Files([\"key\"]), header_limit: 16777216 }}, place: {number}, count: 2, input: \"file\", quiet: false }})"
    )?;
    part_asks(alloc, word, "2", expected.as_str())
}

// Whether a word is taken as this COUNT.
fn is_count(alloc: Global, word: &str, number: u64) -> Result<bool, AllocError> {
    let expected = format!(in alloc;
        "Ok(Part {{ opening: Opening {{ identities: Files([\"key\"]), header_limit: 16777216 }}, place: 3, count: {number}, input: \"file\", quiet: false }})"
    )?;
    part_asks(alloc, "3", word, expected.as_str())
}

const NUMBERS: [(&str, u64); 5] = [
    ("0", 0),
    ("7", 7),
    ("10", 10),
    ("0000000000000000000000000123", 123),
    ("18446744073709551615", u64::MAX),
];

#[test]
fn decimal_numbers_are_taken(rt: HostRuntime) -> Result<(), Fail> {
    for (word, number) in NUMBERS {
        assert!(rt;
            is_place(rt.alloc(), word, number)? && is_count(rt.alloc(), word, number)?,
            "at {word}"
        );
    }
    Ok(())
}

// Whether a word is refused as PLACE.
fn is_no_place(alloc: Global, word: &str) -> Result<bool, AllocError> {
    let expected = format!(in alloc; "Err(NotANumber(Place, {word:?}))")?;
    part_asks(alloc, word, "2", expected.as_str())
}

// Whether a word is refused as COUNT.
fn is_no_count(alloc: Global, word: &str) -> Result<bool, AllocError> {
    let expected = format!(in alloc; "Err(NotANumber(Count, {word:?}))")?;
    part_asks(alloc, "3", word, expected.as_str())
}

const NO_NUMBERS: [&str; 15] = [
    "18446744073709551616",
    "18446744073709551620",
    "99999999999999999999",
    "340282366920938463463374607431768211456",
    "",
    "+1",
    "-1",
    "+",
    " 1",
    "1 ",
    "1_000",
    "0x1",
    "1a",
    "1.0",
    "\u{663}",
];

#[test]
fn other_words_are_no_numbers(rt: HostRuntime) -> Result<(), Fail> {
    for word in NO_NUMBERS {
        assert!(rt;
            is_no_place(rt.alloc(), word)? && is_no_count(rt.alloc(), word)?,
            "at {word}"
        );
    }
    Ok(())
}

// What Linux tells of a descriptor, and the place that is read there.
const TOLD: [(&str, Option<u64>); 8] = [
    ("pos:\t0\nflags:\t0100000\nmnt_id:\t28\n", Some(0)),
    ("pos:\t1073742024\n", Some(1_073_742_024)),
    ("pos:\t18446744073709551615\n", Some(u64::MAX)),
    ("pos:\t18446744073709551616\n", None),
    ("pos:\t5", None),
    ("pos: 5\n", None),
    ("flags:\t0100000\npos:\t5\n", None),
    ("", None),
];

#[test]
fn a_place_that_is_told_is_read(rt: HostRuntime) {
    for (text, place) in TOLD {
        assert!(rt; told_place(text) == place, "{text}");
    }
}
