//! Readers and writers of this port that std reads and writes, and a file on a disk.

use crate::fixtures::{buffered, fills, gives, leads, leads_nowhere, sink, source, two_faults};
use age_devices::Step;
use age_devices::answers::{delivers, is_refusal};
use age_error::io::{ArmoredReadError, Error, ErrorKind, SeekFrom};
use age_io::{
    BufReader, Bytes, IntoStd, Read, Seek, Std, Write, device_error, standard_error, write_all,
};
use std::alloc::Global;
use std::fs::File;
use std::path::{Path, PathBuf};
use std::test::Fail;
use std::{env, fs, io, process};

// What std was answered, where an error is its kind alone.
fn kind<T: Drop>(answer: io::Result<T>) -> Result<T, io::ErrorKind> {
    match answer {
        Ok(value) => Ok(value),
        Err(error) => Err(error.kind()),
    }
}

// What a read into this room answers.
fn read_by_std<R: io::Read>(reader: &mut R, room: &mut [u8]) -> Result<usize, io::ErrorKind> {
    kind(io::Read::read(reader, room))
}

// Whether a reader still has these bytes and a clean end after them.
fn delivers_to_std<R: io::Read>(alloc: Global, reader: &mut R, bytes: &[u8]) -> bool {
    let mut all = Vec::new(alloc);
    let count = io::Read::read_to_end(reader, &mut all);
    kind(count) == Ok(bytes.len()) && all.as_slice() == bytes
}

// Whether it ends before this room is full.
fn ends_early<R: io::Read>(reader: &mut R, room: &mut [u8]) -> bool {
    kind(io::Read::read_exact(reader, room)) == Err(io::ErrorKind::UnexpectedEof)
}

// What a seek answers.
fn sought_by_std<R: io::Seek>(reader: &mut R, to: io::SeekFrom) -> Result<u64, io::ErrorKind> {
    kind(io::Seek::seek(reader, to))
}

// Whether it leads to this place.
fn leads_std<R: io::Seek>(reader: &mut R, to: io::SeekFrom, place: u64) -> bool {
    sought_by_std(reader, to) == Ok(place)
}

// Whether a reader of the bytes `a text` is sought, and gives those behind a place.
fn is_read_and_sought<R: io::Read + io::Seek>(alloc: Global, reader: &mut R) -> bool {
    leads_std(reader, io::SeekFrom::Start(2), 2)
        && delivers_to_std(alloc, reader, b"text")
        && leads_std(reader, io::SeekFrom::End(-4), 2)
        && leads_std(reader, io::SeekFrom::Current(3), 5)
}

// Whether it then refuses to be sought past its end, and ends early for more bytes than are left.
fn has_an_end<R: io::Read + io::Seek>(reader: &mut R) -> bool {
    sought_by_std(reader, io::SeekFrom::Start(7)) == Err(io::ErrorKind::InvalidData)
        && ends_early(reader, &mut [0; 4])
}

#[test]
fn std_reads_and_seeks(rt: HostRuntime) -> Result<(), Fail> {
    let mut reader = IntoStd::new(Bytes::new(b"a text"));
    assert!(rt; is_read_and_sought(rt.alloc(), &mut reader));
    assert!(rt; has_an_end(&mut reader));
    let mut inner = reader.into_inner();
    assert!(rt; leads(&mut inner, SeekFrom::Start(4), 4) && gives(&mut inner, &mut [0; 4], 2));
    Ok(())
}

#[test]
fn std_reads_through_a_buffer(rt: HostRuntime) -> Result<(), Fail> {
    let mut reader = IntoStd::new(buffered(rt.alloc(), Bytes::new(b"a text"))?);
    assert!(rt; delivers_to_std(rt.alloc(), &mut reader, b"a text"));
    Ok(())
}

// What a write of these bytes answers.
fn written_by_std<W: io::Write>(writer: &mut W, bytes: &[u8]) -> Result<usize, io::ErrorKind> {
    kind(io::Write::write(writer, bytes))
}

// What a flush answers.
fn flushed_by_std<W: io::Write>(writer: &mut W) -> Result<(), io::ErrorKind> {
    kind(io::Write::flush(writer))
}

// Whether a writer takes the bytes `a text more`, and a flush.
fn is_written<W: io::Write>(writer: &mut W) -> bool {
    kind(io::Write::write_all(writer, b"a text")) == Ok(())
        && written_by_std(writer, b" more") == Ok(5)
        && flushed_by_std(writer) == Ok(())
}

#[test]
fn std_writes(rt: HostRuntime) -> Result<(), Fail> {
    let out: Vec<u8> = Vec::new(rt.alloc());
    let mut writer = IntoStd::new(out);
    assert!(rt; is_written(&mut writer));
    assert!(rt; writer.into_inner().as_slice() == b"a text more".as_slice());
    Ok(())
}

// Whether a read answers so.
fn reads<R: io::Read>(reader: &mut R, answer: Result<usize, io::ErrorKind>) -> bool {
    read_by_std(reader, &mut [0; 4]) == answer
}

// Whether a reader refuses so, gives a byte, refuses so again and gives two bytes.
fn faults_as_it_reads<R: io::Read>(reader: &mut R, told: io::ErrorKind) -> bool {
    reads(reader, Err(told))
        && reads(reader, Ok(1))
        && reads(reader, Err(told))
        && reads(reader, Ok(2))
}

// Whether a writer refuses so, takes a byte and refuses a flush so.
fn faults_as_it_writes<W: io::Write>(writer: &mut W, told: io::ErrorKind) -> bool {
    written_by_std(writer, b"abc") == Err(told)
        && written_by_std(writer, b"abc") == Ok(1)
        && flushed_by_std(writer) == Err(told)
}

// Whether devices of these steps refuse so.
fn both_fault(alloc: Global, steps: &[Step], told: io::ErrorKind) -> bool {
    faults_as_it_reads(&mut IntoStd::new(source(steps, 2, b"abcdef")), told)
        && faults_as_it_writes(&mut IntoStd::new(sink(alloc, steps)), told)
}

// Whether a fault of the first kind comes back as one of the second.
fn comes_back_as(alloc: Global, given: ErrorKind, told: io::ErrorKind) -> bool {
    both_fault(alloc, &two_faults(given), told)
}

// The kind of a fault here, and of std what it comes back as.
const RETURNS: [(ErrorKind, io::ErrorKind); 9] = [
    (ErrorKind::NotFound, io::ErrorKind::NotFound),
    (ErrorKind::PermissionDenied, io::ErrorKind::PermissionDenied),
    (ErrorKind::Interrupted, io::ErrorKind::Interrupted),
    (ErrorKind::UnexpectedEof, io::ErrorKind::UnexpectedEof),
    (ErrorKind::WriteZero, io::ErrorKind::WriteZero),
    (ErrorKind::InvalidData, io::ErrorKind::InvalidData),
    (ErrorKind::InvalidInput, io::ErrorKind::InvalidInput),
    (ErrorKind::OutOfMemory, io::ErrorKind::OutOfMemory),
    (ErrorKind::Other, io::ErrorKind::Other),
];

// A fault goes there and back: this port's, std's, this port's, and std's again.
#[test]
fn faults_come_back_with_their_kinds(rt: HostRuntime) -> Result<(), Fail> {
    for (given, told) in RETURNS {
        assert!(rt; comes_back_as(rt.alloc(), given, told));
    }
    Ok(())
}

// Whether an error is one of this kind and this text to std.
fn is_told(alloc: Global, error: Error, kind: io::ErrorKind, text: &str) -> bool {
    standard_error(error).kind() == kind
        && is_refusal(alloc, Err::<(), io::Error>(standard_error(error)), text)
}

// Whether a fault of this kind is this error here.
fn is_heard(kind: io::ErrorKind, error: Error) -> bool {
    device_error(&io::Error::from(kind)) == error
}

// A refusal, and its kind and its text to std.
const TOLD: [(Error, io::ErrorKind, &str); 7] = [
    (Error::Failed, io::ErrorKind::Other, "failed earlier"),
    (
        Error::TooLong,
        io::ErrorKind::InvalidInput,
        "more than the largest length",
    ),
    (
        Error::Truncated,
        io::ErrorKind::UnexpectedEof,
        "age file is truncated",
    ),
    (
        Error::OutOfMemory,
        io::ErrorKind::OutOfMemory,
        "out of memory",
    ),
    (
        Error::Device(ErrorKind::NotFound),
        io::ErrorKind::NotFound,
        "entity not found",
    ),
    (
        Error::Armor(ArmoredReadError::TrailingGarbage),
        io::ErrorKind::InvalidData,
        "invalid armor (non-whitespace characters after end marker)",
    ),
    (
        Error::NotIdentity {
            line: 18446744073709551615,
        },
        io::ErrorKind::InvalidData,
        "identity file contains non-identity data on line 18446744073709551615",
    ),
];

#[test]
fn errors_have_kinds_and_texts(rt: HostRuntime) -> Result<(), Fail> {
    for (error, kind, text) in TOLD {
        assert!(rt; is_told(rt.alloc(), error, kind, text), "{text}");
    }
    assert!(rt;
        is_heard(io::ErrorKind::BrokenPipe, Error::Device(ErrorKind::Other))
            && is_heard(io::ErrorKind::NotFound, Error::Device(ErrorKind::NotFound))
    );
    Ok(())
}

// The path of a file for this process alone.
fn own_path(rt: &HostRuntime) -> Result<PathBuf, Fail> {
    let alloc = rt.alloc();
    let name = format!(in alloc; "age-io-tests-{}", process::id(rt.process()))?;
    Ok(env::temp_dir(rt)?.join(alloc, name.as_str())?)
}

// Whether a writer takes these bytes, and a flush.
fn takes<W: Write>(writer: &mut W, bytes: &[u8]) -> bool {
    write_all(writer, bytes) == Ok(()) && writer.flush() == Ok(())
}

// Whether the next four bytes are these.
fn gives_four<R: Read>(reader: &mut R, bytes: &[u8; 4]) -> bool {
    let mut room = [0; 4];
    fills(reader, &mut room) && room == *bytes
}

// Whether a seek leads to a place where the next four bytes are these.
fn leads_to_four<R: Seek>(reader: &mut R, to: SeekFrom, place: u64, bytes: &[u8; 4]) -> bool {
    leads(reader, to, place) && gives_four(reader, bytes)
}

// What a file on a disk holds.
const ON_A_DISK: &[u8] = b"a text on a disk";

// Whether a reader of those bytes is read and sought.
fn reads_and_seeks<R: Seek>(alloc: Global, reader: &mut R) -> bool {
    delivers(alloc, reader, ON_A_DISK)
        && leads_to_four(reader, SeekFrom::Start(2), 2, b"text")
        && leads_to_four(reader, SeekFrom::End(-4), 12, b"disk")
        && leads_nowhere(reader, SeekFrom::Start(17), Error::PastEnd)
}

// Whether the file of this path takes them.
fn is_file_written(rt: &HostRuntime, path: Path) -> Result<bool, Fail> {
    let mut writer = Std::new(File::create(rt, path)?);
    Ok(takes(&mut writer, ON_A_DISK))
}

// A reader of the file of this path.
fn opened(rt: &HostRuntime, path: Path) -> Result<BufReader<Std<File>>, Fail> {
    buffered(rt.alloc(), Std::new(File::open(rt, path)?))
}

// Whether it is read and sought.
fn is_file_read(rt: &HostRuntime, path: Path) -> Result<bool, Fail> {
    Ok(reads_and_seeks(rt.alloc(), &mut opened(rt, path)?))
}

#[test]
fn a_file_is_written_read_and_sought(rt: HostRuntime) -> Result<(), Fail> {
    let path = own_path(&rt)?;
    assert!(rt; is_file_written(&rt, path.as_path())?);
    assert!(rt; is_file_read(&rt, path.as_path())?);
    fs::remove_file(&rt, path.as_path())?;
    Ok(())
}
