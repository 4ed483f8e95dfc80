//! Seeks of slices, buffers and devices, and lists of reads and seeks.

use crate::fixtures::{
    Wanted, answers_so, buffered, device, gives, leads, leads_nowhere, long_text, refuses,
};
use age_devices::Step;
use age_error::io::{Error, ErrorKind, SeekFrom};
use age_io::{Bytes, Op, Read, Seek, seek_retrying};
use std::alloc::Global;
use std::test::Fail;

// The reads and seeks of a test, on 20,000 bytes.
const OPS: [Op; 14] = [
    Op::Read(5),
    Op::Seek(SeekFrom::Current(-3)),
    Op::Read(4),
    Op::Seek(SeekFrom::End(-2)),
    Op::Read(10),
    Op::Seek(SeekFrom::Start(20_001)),
    Op::Seek(SeekFrom::Current(-20_001)),
    Op::Seek(SeekFrom::Start(u64::MAX)),
    Op::Seek(SeekFrom::End(i64::MIN)),
    Op::Seek(SeekFrom::Current(i64::MAX)),
    Op::Seek(SeekFrom::Start(100)),
    Op::Read(9_000),
    Op::Seek(SeekFrom::Current(-1)),
    Op::Read(2),
];

// What they answer.
const ANSWERS: [Wanted; 14] = [
    Wanted::Part(0, 5),
    Wanted::Place(2),
    Wanted::Part(2, 6),
    Wanted::Place(19_998),
    Wanted::Part(19_998, 20_000),
    Wanted::Fault(b"", Error::PastEnd),
    Wanted::Fault(b"", Error::BeforeStart),
    Wanted::Fault(b"", Error::PastEnd),
    Wanted::Fault(b"", Error::BeforeStart),
    Wanted::Fault(b"", Error::PastEnd),
    Wanted::Place(100),
    Wanted::Part(100, 9_100),
    Wanted::Place(9_099),
    Wanted::Part(9_099, 9_101),
];

// Whether a reader of this text answers to them so.
fn runs<R: Seek>(alloc: Global, reader: &mut R, text: &[u8]) -> Result<bool, Fail> {
    answers_so(alloc, reader, text, &OPS, &ANSWERS)
}

// Whether a reader with a buffer over one of this text does.
fn runs_buffered<R: Seek + Drop>(alloc: Global, inner: R, text: &[u8]) -> Result<bool, Fail> {
    runs(alloc, &mut buffered(alloc, inner)?, text)
}

#[test]
fn bytes_run(rt: HostRuntime) -> Result<(), Fail> {
    let text = long_text(rt.alloc(), 20_000)?;
    assert!(rt; runs(rt.alloc(), &mut Bytes::new(&text), &text)?);
    Ok(())
}

#[test]
fn buffered_run(rt: HostRuntime) -> Result<(), Fail> {
    let text = long_text(rt.alloc(), 20_000)?;
    assert!(rt; runs_buffered(rt.alloc(), Bytes::new(&text), &text)?);
    Ok(())
}

#[test]
fn device_run(rt: HostRuntime) -> Result<(), Fail> {
    let text = long_text(rt.alloc(), 20_000)?;
    assert!(rt; runs(rt.alloc(), &mut device(&[], &text), &text)?);
    Ok(())
}

#[test]
fn buffered_device_run(rt: HostRuntime) -> Result<(), Fail> {
    let text = long_text(rt.alloc(), 20_000)?;
    assert!(rt; runs_buffered(rt.alloc(), device(&[], &text), &text)?);
    Ok(())
}

// Whether the next four bytes are these.
fn gives_four<R: Read>(reader: &mut R, bytes: [u8; 4]) -> bool {
    let mut room = [0; 4];
    gives(reader, &mut room, 4) && room == bytes
}

// Whether a reader whose device fails once refuses until a seek succeeds.
fn refuses_until_a_seek<R: Seek>(reader: &mut R) -> bool {
    let mut room = [0; 4];
    refuses(reader, &mut room, Error::Device(ErrorKind::NotFound))
        && refuses(reader, &mut room, Error::Failed)
        && leads_nowhere(reader, SeekFrom::Start(20_001), Error::PastEnd)
        && refuses(reader, &mut room, Error::Failed)
        && leads(reader, SeekFrom::Start(20_000), 20_000)
}

// Whether it then reads at its end, and where it is sought to.
fn is_mended<R: Seek>(reader: &mut R) -> bool {
    gives(reader, &mut [0; 4], 0)
        && leads(reader, SeekFrom::Start(3), 3)
        && gives_four(reader, [21, 28, 35, 42])
}

// A device that fails in its first call.
const FIRST_FAILS: [Step; 1] = [Step::Fail(ErrorKind::NotFound)];

#[test]
fn buffered_mends(rt: HostRuntime) -> Result<(), Fail> {
    let text = long_text(rt.alloc(), 20_000)?;
    let mut reader = buffered(rt.alloc(), device(&FIRST_FAILS, &text))?;
    assert!(rt; refuses_until_a_seek(&mut reader));
    assert!(rt; is_mended(&mut reader));
    Ok(())
}

// Whether a seek that is tried again leads to this place.
fn leads_in_the_end<R: Seek>(reader: &mut R, to: SeekFrom, place: u64) -> bool {
    seek_retrying(reader, to) == Ok(place)
}

// Whether it refuses as a device of another kind of fault.
fn is_given_up<R: Seek>(reader: &mut R, to: SeekFrom) -> bool {
    seek_retrying(reader, to) == Err(Error::Device(ErrorKind::Other))
}

// Whether a seek is given up, and the next one leads to its place.
fn leads_at_the_second<R: Seek>(reader: &mut R) -> bool {
    is_given_up(reader, SeekFrom::Start(5)) && leads_in_the_end(reader, SeekFrom::Start(5), 5)
}

#[test]
fn interrupted_seek(rt: HostRuntime) -> Result<(), Fail> {
    let text = long_text(rt.alloc(), 100)?;
    let steps = [Step::Fail(ErrorKind::Interrupted); 17];
    assert!(rt; leads_at_the_second(&mut device(&steps, &text)));
    assert!(rt; leads_in_the_end(&mut device(&steps[..16], &text), SeekFrom::End(-5), 95));
    Ok(())
}

// Whether a reader whose device fails in its first seek refuses until it is sought again.
fn seeks_again<R: Seek>(reader: &mut R) -> bool {
    let denied = Error::Device(ErrorKind::PermissionDenied);
    let mut room = [0; 4];
    gives(reader, &mut room, 4)
        && leads_nowhere(reader, SeekFrom::Start(10), denied)
        && refuses(reader, &mut room, Error::Failed)
        && leads(reader, SeekFrom::Start(10), 10)
        && gives_four(reader, [70, 77, 84, 91])
}

// Whether one with a buffer over a device of these steps does.
fn device_seeks_again(alloc: Global, steps: &[Step], text: &[u8]) -> Result<bool, Fail> {
    Ok(seeks_again(&mut buffered(alloc, device(steps, text))?))
}

const GOOD: Step = Step::Move(usize::MAX);

const BAD: Step = Step::Fail(ErrorKind::PermissionDenied);

// Devices that fail in one of the calls of a seek.
const PLANS: [&[Step]; 4] = [
    &[GOOD, BAD],
    &[GOOD, GOOD, BAD],
    &[GOOD, GOOD, GOOD, BAD],
    &[GOOD, GOOD, GOOD, GOOD, GOOD, BAD],
];

#[test]
fn fault_while_looking(rt: HostRuntime) -> Result<(), Fail> {
    let text = long_text(rt.alloc(), 20_000)?;
    for steps in PLANS {
        assert!(rt; device_seeks_again(rt.alloc(), steps, &text)?);
    }
    Ok(())
}
