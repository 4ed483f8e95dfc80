//! Readers and writers in memory, and those of std.

use crate::fixtures::{fills, gives, refuses, sink, source, two_faults};
use age_devices::Step;
use age_error::io::{Error, ErrorKind};
use age_io::{Bytes, Read, Std, Write, read_exact, read_to_end, write_all};
use std::alloc::Global;
use std::io;
use std::test::Fail;

// Whether a reader ends before this room is full.
fn ends_early<R: Read>(reader: &mut R, room: &mut [u8]) -> bool {
    read_exact(reader, room) == Err(Error::UnexpectedEof)
}

// Whether a reader has so many bytes left, which are put behind these.
fn adds<R: Read>(alloc: Global, reader: &mut R, all: &mut Vec<u8>, count: usize) -> bool {
    read_to_end(alloc, reader, all) == Ok(count)
}

// Whether a write takes so many of these bytes.
fn takes<W: Write>(writer: &mut W, bytes: &[u8], count: usize) -> bool {
    writer.write(bytes) == Ok(count)
}

// Whether all of these bytes are taken.
fn takes_all<W: Write>(writer: &mut W, bytes: &[u8]) -> bool {
    write_all(writer, bytes) == Ok(())
}

// Whether a flush is taken.
fn is_flushed<W: Write>(writer: &mut W) -> bool {
    writer.flush() == Ok(())
}

// Whether the bytes `a text` are read.
fn is_read<R: Read>(reader: &mut R) -> bool {
    let mut room = [0; 4];
    gives(reader, &mut room, 4)
        && room == *b"a te"
        && ends_early(reader, &mut room)
        && room == *b"xtte"
        && gives(reader, &mut room, 0)
}

// Whether bytes are written behind others.
fn is_written(alloc: Global, out: &mut Vec<u8>) -> bool {
    takes(out, b"a ", 2)
        && takes_all(out, b"text")
        && is_flushed(out)
        && adds(alloc, &mut Bytes::new(b" after"), out, 6)
        && out.as_slice() == b"before a text after".as_slice()
}

#[test]
fn memory_is_read_and_written(rt: HostRuntime) -> Result<(), Fail> {
    assert!(rt; is_read(&mut Bytes::new(b"a text")));
    let mut out = Vec::from_slice(rt.alloc(), b"before ")?;
    assert!(rt; is_written(rt.alloc(), &mut out));
    Ok(())
}

// What readers of std are read from.
const TEXT: &[u8] = b"a text";

// Whether a reader of std is read to its end, and another behind it.
fn both_are_read(alloc: Global) -> bool {
    let mut all = Vec::new(alloc);
    adds(alloc, &mut Std::new(TEXT), &mut all, 6)
        && adds(alloc, &mut Std::new(io::Cursor::new(TEXT)), &mut all, 6)
        && all.as_slice() == b"a texta text".as_slice()
}

// Whether a reader of that text fills some room, and ends early in the same then.
fn fills_once<R: Read>(reader: &mut R) -> bool {
    let mut room = [0; 4];
    fills(reader, &mut room)
        && room == *b"a te"
        && ends_early(reader, &mut room)
        && gives(reader, &mut room, 0)
}

#[test]
fn readers_of_std_are_read(rt: HostRuntime) -> Result<(), Fail> {
    assert!(rt; both_are_read(rt.alloc()));
    assert!(rt; fills_once(&mut Std::new(TEXT)));
    assert!(rt; gives(&mut Std::new(io::empty()), &mut [0; 4], 0));
    Ok(())
}

// Whether a writer takes the bytes `a text more`, and a flush.
fn takes_more<W: Write>(writer: &mut W) -> bool {
    takes_all(writer, b"a text") && takes(writer, b" more", 5) && is_flushed(writer)
}

// Whether a writer is full before all of these bytes are taken.
fn is_full_early<W: Write>(writer: &mut W, bytes: &[u8]) -> bool {
    write_all(writer, bytes) == Err(Error::WriteZero)
}

#[test]
fn writers_of_std_are_written(rt: HostRuntime) -> Result<(), Fail> {
    let mut out: Vec<u8> = Vec::new(rt.alloc());
    assert!(rt; takes_more(&mut Std::new(&mut out)));
    assert!(rt; out.as_slice() == b"a text more".as_slice());

    let mut room = [0; 4];
    assert!(rt; is_full_early(&mut Std::new(room.as_mut_slice()), b"a text"));
    assert!(rt; room == *b"a te");
    Ok(())
}

// Whether a reader refuses so, gives a byte, refuses so again and gives two bytes.
fn faults_as_it_reads<R: Read>(reader: &mut R, fault: Error) -> bool {
    let mut room = [0; 4];
    refuses(reader, &mut room, fault)
        && gives(reader, &mut room, 1)
        && refuses(reader, &mut room, fault)
        && gives(reader, &mut room, 2)
}

// Whether a writer refuses so, takes a byte and refuses a flush so, and then takes all.
fn faults_as_it_writes<W: Write>(writer: &mut W, fault: Error) -> bool {
    writer.write(b"abc") == Err(fault)
        && takes(writer, b"abc", 1)
        && writer.flush() == Err(fault)
        && is_flushed(writer)
        && takes(writer, b"bcd", 2)
}

// Whether devices of these steps refuse so.
fn both_fault(alloc: Global, steps: &[Step], fault: Error) -> bool {
    faults_as_it_reads(&mut source(steps, 2, b"abcdef"), fault)
        && faults_as_it_writes(&mut sink(alloc, steps), fault)
}

#[test]
fn a_device_is_asked_again_after_a_fault(rt: HostRuntime) -> Result<(), Fail> {
    let kind = ErrorKind::PermissionDenied;
    assert!(rt; both_fault(rt.alloc(), &two_faults(kind), Error::Device(kind)));
    Ok(())
}

// Refuses each call with this kind of std.
#[derive(Clone, Copy, Drop)]
struct Broken(io::ErrorKind);

impl io::Read for Broken {
    fn read(&mut self, _buf: &mut [u8]) -> io::Result<usize> {
        Err(io::Error::from(self.0))
    }
}

impl io::Write for Broken {
    fn write(&mut self, _buf: &[u8]) -> io::Result<usize> {
        Err(io::Error::from(self.0))
    }

    fn flush(&mut self) -> io::Result<()> {
        Err(io::Error::from(self.0))
    }
}

// Whether a fault of the first kind is one of the second here.
fn has_kind(given: io::ErrorKind, kind: ErrorKind) -> bool {
    let mut device = Std::new(Broken(given));
    let fault = Error::Device(kind);
    refuses(&mut device, &mut [0; 4], fault)
        && device.write(b"abc") == Err(fault)
        && device.flush() == Err(fault)
}

// A kind of std, and what it is here.
const KINDS: [(io::ErrorKind, ErrorKind); 11] = [
    (io::ErrorKind::NotFound, ErrorKind::NotFound),
    (io::ErrorKind::PermissionDenied, ErrorKind::PermissionDenied),
    (io::ErrorKind::Interrupted, ErrorKind::Interrupted),
    (io::ErrorKind::UnexpectedEof, ErrorKind::UnexpectedEof),
    (io::ErrorKind::WriteZero, ErrorKind::WriteZero),
    (io::ErrorKind::InvalidData, ErrorKind::InvalidData),
    (io::ErrorKind::InvalidInput, ErrorKind::InvalidInput),
    (io::ErrorKind::OutOfMemory, ErrorKind::OutOfMemory),
    (io::ErrorKind::BrokenPipe, ErrorKind::Other),
    (io::ErrorKind::WouldBlock, ErrorKind::Other),
    (io::ErrorKind::Other, ErrorKind::Other),
];

#[test]
fn faults_of_std_have_kinds(rt: HostRuntime) -> Result<(), Fail> {
    for (given, kind) in KINDS {
        assert!(rt; has_kind(given, kind));
    }
    Ok(())
}
