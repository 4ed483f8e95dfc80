//! What readers hand back, what is shown of them, and answers that are compared.

use crate::error_texts::shows;
use crate::fixtures::{Device, buffered, gives, leads, refuses, source};
use age_devices::Step;
use age_error::io::{Error, ErrorKind, SeekFrom};
use age_io::{Answer, BufRead, BufReader, Bytes, Op, run};
use std::alloc::Global;
use std::test::Fail;

// Whether as many bytes as it shows, but at most so many, are read then.
fn takes_some<R: BufRead>(reader: &mut R, count: usize) -> bool {
    let amount = match reader.fill_buf() {
        Ok(front) => front.len().min(count),
        Err(_) => return false,
    };
    let mut room = [0; 16];
    match room.get_mut(..amount) {
        Some(room) => gives(reader, room, amount),
        None => false,
    }
}

// Whether where a reader of six bytes stands is shown before and after a seek.
fn shows_its_place(alloc: Global, reader: &mut Bytes) -> bool {
    shows(alloc, &*reader, "Bytes { place: 0, length: 6, .. }")
        && leads(reader, SeekFrom::Start(4), 4)
        && shows(alloc, &*reader, "Bytes { place: 4, length: 6, .. }")
}

#[test]
fn a_slice_is_handed_back_whole(rt: HostRuntime) -> Result<(), Fail> {
    let mut reader = Bytes::new(b"abcdef");
    assert!(rt; shows_its_place(rt.alloc(), &mut reader));
    assert!(rt; reader.into_inner() == b"abcdef".as_slice());
    Ok(())
}

// Whether the buffer holds nothing before two bytes are taken, and the third that it read with them after that.
fn reads_ahead(alloc: Global, reader: &mut BufReader<Device<'_>>) -> bool {
    shows(alloc, &*reader, "BufReader { held: 0, failed: false, .. }")
        && takes_some(reader, 2)
        && shows(alloc, &*reader, "BufReader { held: 3, failed: false, .. }")
}

// Whether the device fails once, and then gives what the buffer hasn't read.
fn gives_the_rest(alloc: Global, inner: &mut Device<'_>) -> bool {
    let mut room = [0; 4];
    refuses(inner, &mut room, Error::Device(ErrorKind::NotFound))
        && shows(alloc, &*inner, "Std { faults: 1, .. }")
        && gives(inner, &mut room, 3)
        && room == *b"fgh\0"
}

// A device that fails in its second call.
const SECOND_FAILS: [Step; 2] = [Step::Move(5), Step::Fail(ErrorKind::NotFound)];

#[test]
fn what_was_read_ahead_is_lost(rt: HostRuntime) -> Result<(), Fail> {
    let mut reader = buffered(rt.alloc(), source(&SECOND_FAILS, 3, b"abcdefgh"))?;
    assert!(rt; reads_ahead(rt.alloc(), &mut reader));
    let mut inner = reader.into_inner();
    assert!(rt; gives_the_rest(rt.alloc(), &mut inner));
    let mut device = inner.into_inner().into_inner();
    assert!(rt; gives(&mut device, &mut [0; 4], 0));
    Ok(())
}

// A refusal to seek past the end.
fn past_end(alloc: Global) -> Answer {
    Answer::Fault {
        got: Vec::new(alloc),
        error: Error::PastEnd,
    }
}

// The answers to a read of two bytes, to a seek past the end and to a seek to place 4.
fn wanted_answers(alloc: Global) -> Result<Vec<Answer>, Fail> {
    let mut wanted = Vec::new(alloc);
    wanted.push(Answer::Bytes(Vec::from_slice(alloc, b"ab")?))?;
    wanted.push(past_end(alloc))?;
    wanted.push(Answer::At(4))?;
    Ok(wanted)
}

// A read and two seeks.
const OPS: [Op; 3] = [
    Op::Read(2),
    Op::Seek(SeekFrom::Start(9)),
    Op::Seek(SeekFrom::Start(4)),
];

// What a reader answers to them.
fn answers(alloc: Global) -> Result<Vec<Answer>, Fail> {
    Ok(run(alloc, &mut Bytes::new(b"abcdef"), &OPS)?)
}

// Whether they are those that are wanted.
fn are_wanted(alloc: Global) -> Result<bool, Fail> {
    Ok(answers(alloc)? == wanted_answers(alloc)?)
}

// Whether they are others where one more is wanted.
fn differ_from_one_more(alloc: Global) -> Result<bool, Fail> {
    let mut wanted = wanted_answers(alloc)?;
    wanted.push(Answer::At(4))?;
    Ok(answers(alloc)? != wanted)
}

// Whether two answers differ.
fn differ(left: Answer, right: Answer) -> bool {
    left != right
}

#[test]
fn answers_are_compared(rt: HostRuntime) -> Result<(), Fail> {
    assert!(rt; are_wanted(rt.alloc())?);
    assert!(rt; differ_from_one_more(rt.alloc())?);
    assert!(rt; differ(Answer::Bytes(Vec::new(rt.alloc())), Answer::At(0)));
    assert!(rt; differ(Answer::At(1), Answer::At(0)));
    Ok(())
}
