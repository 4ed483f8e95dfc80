//! Records that are written and read, and plaintexts that aren't the text of records, or have records that are damaged.

use crate::fixtures::{Call, both_answer, in_armor, listed, opened, sealed, three_of, written};
use age::io::{Bytes, Error, Seek};
use age_records::RecordError;
use std::alloc::Global;
use std::test::Fail;
use test_support::fixtures::armored;

// Three records, of which one is empty.
const THREE: [&[u8]; 3] = [b"a", b"", b"bcd"];

// Their text: the number 3, the ends 1, 1 and 4, and their bytes.
const THREE_TEXT: [u8; 36] = [
    0, 0, 0, 0, 0, 0, 0, 3, //
    0, 0, 0, 0, 0, 0, 0, 1, //
    0, 0, 0, 0, 0, 0, 0, 1, //
    0, 0, 0, 0, 0, 0, 0, 4, //
    b'a', b'b', b'c', b'd',
];

// A payload is written of records as it is sealed of their text.
#[test]
fn records_are_written_as_their_text(rt: HostRuntime) -> Result<(), Fail> {
    let alloc = rt.alloc();
    let records = listed(alloc, &THREE)?;
    assert!(rt; written(alloc, &records)?.as_slice() == sealed(alloc, &THREE_TEXT)?.as_slice());
    Ok(())
}

#[test]
fn no_records_are_written_as_their_number(rt: HostRuntime) -> Result<(), Fail> {
    let alloc = rt.alloc();
    assert!(rt; written(alloc, &[])?.as_slice() == sealed(alloc, &[0; 8])?.as_slice());
    Ok(())
}

// Each record after each other one, and again, and refusals between them.
const THREE_CALLS: [Call<'static>; 14] = [
    Call::Counts(3),
    Call::Gives(0, b"a"),
    Call::Gives(1, b""),
    Call::Gives(2, b"bcd"),
    Call::Refuses(3, RecordError::NoSuchRecord),
    Call::Gives(2, b"bcd"),
    Call::Gives(1, b""),
    Call::Gives(0, b"a"),
    Call::Gives(2, b"bcd"),
    Call::Gives(0, b"a"),
    Call::Gives(0, b"a"),
    Call::Refuses(u64::MAX, RecordError::NoSuchRecord),
    Call::Refuses(1 << 61, RecordError::NoSuchRecord),
    Call::Counts(3),
];

#[test]
fn records_are_given_in_any_order(rt: HostRuntime) -> Result<(), Fail> {
    let payload = sealed(rt.alloc(), &THREE_TEXT)?;
    both_answer(&rt, rt.alloc(), &payload, &THREE_CALLS)
}

const NONE_CALLS: [Call<'static>; 3] = [
    Call::Counts(0),
    Call::Refuses(0, RecordError::NoSuchRecord),
    Call::Refuses(u64::MAX, RecordError::NoSuchRecord),
];

#[test]
fn of_no_records_none_is_given(rt: HostRuntime) -> Result<(), Fail> {
    let payload = sealed(rt.alloc(), &[0; 8])?;
    both_answer(&rt, rt.alloc(), &payload, &NONE_CALLS)
}

// Plaintexts that aren't the text of records.
const DAMAGED: [&[u8]; 11] = [
    // Nothing.
    &[],
    // A byte less than a number.
    &[0; 7],
    // One record, without its end.
    &[0, 0, 0, 0, 0, 0, 0, 1],
    // The same with a byte less than its end.
    &[0, 0, 0, 0, 0, 0, 0, 1, 0, 0, 0, 0, 0, 0, 0],
    // One record of 5 bytes, of which one isn't there.
    &[
        0, 0, 0, 0, 0, 0, 0, 1, 0, 0, 0, 0, 0, 0, 0, 5, b'w', b'x', b'y', b'z',
    ],
    // One of 3 bytes, and a byte after it.
    &[
        0, 0, 0, 0, 0, 0, 0, 1, 0, 0, 0, 0, 0, 0, 0, 3, b'w', b'x', b'y', b'z',
    ],
    // No records, and a byte after them.
    &[0, 0, 0, 0, 0, 0, 0, 0, 1],
    // One record of 2^64 - 1 bytes.
    &[
        0, 0, 0, 0, 0, 0, 0, 1, 255, 255, 255, 255, 255, 255, 255, 255,
    ],
    // 2^64 - 1 records.
    &[255; 8],
    // 2^61 records, whose ends have 2^64 bytes.
    &[32, 0, 0, 0, 0, 0, 0, 0],
    // 2^61 + 1 records, and an end of 0. If 8 times their number wrapped, this would be the text of records.
    &[32, 0, 0, 0, 0, 0, 0, 1, 0, 0, 0, 0, 0, 0, 0, 0],
];

// Whether records aren't opened in the payload that this gives, since it is damaged.
fn is_damaged<R: Seek + Drop>(alloc: Global, inner: R) -> bool {
    match opened(alloc, inner) {
        Ok(_) => false,
        Err(e) => e == RecordError::Damaged,
    }
}

// Whether they aren't in the payload of this plaintext, bare and in armor.
fn both_are_damaged(alloc: Global, plain: &[u8]) -> Result<bool, Fail> {
    let payload = sealed(alloc, plain)?;
    let text = armored(alloc, &payload)?;
    Ok(is_damaged(alloc, Bytes::new(&payload)) && is_damaged(alloc, in_armor(alloc, &text)?))
}

#[test]
fn damaged_texts_are_not_opened(rt: HostRuntime) -> Result<(), Fail> {
    for (i, plain) in DAMAGED.iter().enumerate() {
        assert!(rt; both_are_damaged(rt.alloc(), plain)?, "at text {i}");
    }
    Ok(())
}

// Three records, whose ends are 3, 1 and 4: the second one falls.
const FALLING: [u8; 36] = [
    0, 0, 0, 0, 0, 0, 0, 3, //
    0, 0, 0, 0, 0, 0, 0, 3, //
    0, 0, 0, 0, 0, 0, 0, 1, //
    0, 0, 0, 0, 0, 0, 0, 4, //
    b'w', b'x', b'y', b'z',
];

const FALLING_CALLS: [Call<'static>; 8] = [
    Call::Counts(3),
    Call::Gives(0, b"wxy"),
    Call::Refuses(1, RecordError::Damaged),
    Call::Gives(2, b"xyz"),
    Call::Refuses(1, RecordError::Damaged),
    Call::Gives(0, b"wxy"),
    Call::Refuses(1, RecordError::Damaged),
    Call::Refuses(3, RecordError::NoSuchRecord),
];

// Ends that fall damage their own record alone.
#[test]
fn a_record_whose_ends_fall_is_refused(rt: HostRuntime) -> Result<(), Fail> {
    let payload = sealed(rt.alloc(), &FALLING)?;
    both_answer(&rt, rt.alloc(), &payload, &FALLING_CALLS)
}

// Four records, whose ends are 5, 2^64 - 1, 1 and 4: the first one passes the last end by one byte, and the second one by as many
// as can be.
const PASSING: [u8; 44] = [
    0, 0, 0, 0, 0, 0, 0, 4, //
    0, 0, 0, 0, 0, 0, 0, 5, //
    255, 255, 255, 255, 255, 255, 255, 255, //
    0, 0, 0, 0, 0, 0, 0, 1, //
    0, 0, 0, 0, 0, 0, 0, 4, //
    b'w', b'x', b'y', b'z',
];

const PASSING_CALLS: [Call<'static>; 6] = [
    Call::Counts(4),
    Call::Refuses(0, RecordError::Damaged),
    Call::Refuses(1, RecordError::Damaged),
    Call::Refuses(2, RecordError::Damaged),
    Call::Gives(3, b"xyz"),
    Call::Refuses(4, RecordError::NoSuchRecord),
];

// Ends that pass the last one damage their own record, and the next one, whose ends fall then.
#[test]
fn a_record_whose_ends_pass_the_last_is_refused(rt: HostRuntime) -> Result<(), Fail> {
    let payload = sealed(rt.alloc(), &PASSING)?;
    both_answer(&rt, rt.alloc(), &payload, &PASSING_CALLS)
}

// The payload of these records, with another bit in its second chunk.
fn with_a_bad_chunk(alloc: Global, list: &[Vec<u8>]) -> Result<Vec<u8>, Fail> {
    let mut payload = written(alloc, list)?;
    for byte in payload.iter_mut().skip(70_000).take(1) {
        *byte ^= 1;
    }
    Ok(payload)
}

const BAD: RecordError = RecordError::Io(Error::BadChunk);

// Three records of 100,000 bytes are in five chunks. The second chunk has bytes of the first two records.
#[test]
fn a_bad_chunk_refuses_its_records_alone(rt: HostRuntime) -> Result<(), Fail> {
    let list = three_of(rt.alloc(), 100_000)?;
    let payload = with_a_bad_chunk(rt.alloc(), &list)?;
    let [_, _, third] = list.as_slice() else {
        return Err(Fail::from("not three"));
    };
    let calls = [
        Call::Counts(3),
        Call::Refuses(0, BAD),
        Call::Gives(2, third),
        Call::Refuses(1, BAD),
        Call::Gives(2, third),
        Call::Refuses(1, BAD),
    ];
    both_answer(&rt, rt.alloc(), &payload, &calls)
}
