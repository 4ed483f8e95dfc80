//! Lists of reads and seeks on a device that fails in between.

use crate::fixtures::{Wanted, answers_so, buffered, device};
use age_devices::Step;
use age_error::io::{Error, ErrorKind, SeekFrom};
use age_io::Op;
use std::test::Fail;

// What a device holds: the letters from a to j.
const LETTERS: &[u8] = b"abcdefghij";

// A device that fails in its third call.
const THIRD_FAILS: [Step; 3] = [
    Step::Move(3),
    Step::Move(2),
    Step::Fail(ErrorKind::NotFound),
];

// Reads over a fault, and then near the end.
const NEAR_THE_END: [Op; 4] = [
    Op::Read(8),
    Op::Read(2),
    Op::Seek(SeekFrom::End(-1)),
    Op::Read(5),
];

const AFTER_ITS_FAULT: [Wanted; 4] = [
    Wanted::Fault(b"abcde", Error::Device(ErrorKind::NotFound)),
    Wanted::Bytes(b"fg"),
    Wanted::Place(9),
    Wanted::Bytes(b"j"),
];

#[test]
fn what_came_before_a_fault(rt: HostRuntime) -> Result<(), Fail> {
    let mut reader = device(&THIRD_FAILS, LETTERS);
    assert!(rt;
        answers_so(
            rt.alloc(),
            &mut reader,
            LETTERS,
            &NEAR_THE_END,
            &AFTER_ITS_FAULT
        )?
    );
    Ok(())
}

// A device whose first seek fails, and a read later.
const SEEK_FAILS: [Step; 4] = [
    Step::Move(3),
    Step::Fail(ErrorKind::PermissionDenied),
    Step::Move(1),
    Step::Fail(ErrorKind::Interrupted),
];

// A seek to the start between reads.
const TO_THE_START: [Op; 4] = [
    Op::Read(3),
    Op::Seek(SeekFrom::Start(0)),
    Op::Read(2),
    Op::Read(20),
];

const WHERE_IT_STOOD: [Wanted; 4] = [
    Wanted::Bytes(b"abc"),
    Wanted::Fault(b"", Error::Device(ErrorKind::PermissionDenied)),
    Wanted::Fault(b"d", Error::Device(ErrorKind::Interrupted)),
    Wanted::Bytes(b"efghij"),
];

#[test]
fn fault_of_a_seek(rt: HostRuntime) -> Result<(), Fail> {
    let mut reader = device(&SEEK_FAILS, LETTERS);
    assert!(rt;
        answers_so(
            rt.alloc(),
            &mut reader,
            LETTERS,
            &TO_THE_START,
            &WHERE_IT_STOOD
        )?
    );
    Ok(())
}

// Reads over a fault, and then near the start.
const NEAR_THE_START: [Op; 4] = [
    Op::Read(8),
    Op::Read(2),
    Op::Seek(SeekFrom::Start(1)),
    Op::Read(3),
];

const AFTER_A_SEEK: [Wanted; 4] = [
    Wanted::Fault(b"abcde", Error::Device(ErrorKind::NotFound)),
    Wanted::Fault(b"", Error::Failed),
    Wanted::Place(1),
    Wanted::Bytes(b"bcd"),
];

#[test]
fn fault_behind_a_buffer(rt: HostRuntime) -> Result<(), Fail> {
    let mut reader = buffered(rt.alloc(), device(&THIRD_FAILS, LETTERS))?;
    assert!(rt;
        answers_so(
            rt.alloc(),
            &mut reader,
            LETTERS,
            &NEAR_THE_START,
            &AFTER_A_SEEK
        )?
    );
    Ok(())
}
