//! What these tests share: bytes, a device, and what a reader answered, as a `bool`.

use age_devices::bytes::part;
use age_devices::{Script, Sink, Source, Step};
use age_error::io::{Error, ErrorKind, SeekFrom};
use age_io::{Answer, BufReader, IntoStd, Op, Read, Seek, Std, read_exact, run};
use std::alloc::Global;
use std::test::Fail;

/// So many bytes of which neighbours differ.
pub fn long_text(alloc: Global, size: usize) -> Result<Vec<u8>, Fail> {
    let mut text = vec![in alloc; 0; size]?;
    let mut value = 0u8;
    for byte in &mut text {
        *byte = value;
        value = value.wrapping_add(7);
    }
    Ok(text)
}

/// A device as std's, and that as this port's.
pub type Device<'a> = Std<IntoStd<Source<'a>>>;

/// A device that gives bytes, and seeks in them, as its steps say, and behind the last of them gives at most `most` in a call.
pub fn source<'a>(steps: &'a [Step], most: usize, bytes: &'a [u8]) -> Device<'a> {
    Std::new(IntoStd::new(Source::new(Script::new(steps, most), bytes)))
}

/// One that behind the last of its steps gives all that it is asked for.
pub fn device<'a>(steps: &'a [Step], bytes: &'a [u8]) -> Device<'a> {
    source(steps, usize::MAX, bytes)
}

/// A device that takes bytes as its steps say, and behind the last of them at most two in a call.
pub fn sink<'a>(alloc: Global, steps: &'a [Step]) -> Std<IntoStd<Sink<'a>>> {
    Std::new(IntoStd::new(Sink::new(alloc, Script::new(steps, 2))))
}

/// A fault, a byte that is moved, and the fault again.
pub fn two_faults(kind: ErrorKind) -> [Step; 3] {
    [Step::Fail(kind), Step::Move(1), Step::Fail(kind)]
}

/// A reader with a buffer over this one.
pub fn buffered<R: Read + Drop>(alloc: Global, inner: R) -> Result<BufReader<R>, Fail> {
    Ok(BufReader::new(alloc, inner)?)
}

/// Whether a read into this room gives so many bytes.
pub fn gives<R: Read>(reader: &mut R, room: &mut [u8], count: usize) -> bool {
    reader.read(room) == Ok(count)
}

/// Whether a read into this room refuses so.
pub fn refuses<R: Read>(reader: &mut R, room: &mut [u8], error: Error) -> bool {
    reader.read(room) == Err(error)
}

/// Whether this room is read full.
pub fn fills<R: Read>(reader: &mut R, room: &mut [u8]) -> bool {
    read_exact(reader, room) == Ok(())
}

/// Whether a seek leads to this place.
pub fn leads<R: Seek>(reader: &mut R, to: SeekFrom, place: u64) -> bool {
    reader.seek(to) == Ok(place)
}

/// Whether a seek refuses so.
pub fn leads_nowhere<R: Seek>(reader: &mut R, to: SeekFrom, error: Error) -> bool {
    reader.seek(to) == Err(error)
}

/// What a read or a seek of a list has to answer.
#[derive(Clone, Copy)]
pub enum Wanted<'a> {
    /// A read gives these bytes.
    Bytes(&'a [u8]),
    /// A read gives the bytes of the whole from one place to another.
    Part(usize, usize),
    /// A seek leads to this place.
    Place(u64),
    /// It refuses so, and a read gives these bytes before.
    Fault(&'a [u8], Error),
}

// Whether a read gave these bytes.
fn is_read(answer: &Answer, bytes: &[u8]) -> bool {
    match answer {
        Answer::Bytes(got) => got.as_slice() == bytes,
        _ => false,
    }
}

// Whether a seek led to this place.
fn is_at(answer: &Answer, place: u64) -> bool {
    match answer {
        Answer::At(at) => *at == place,
        _ => false,
    }
}

// Whether it refused so, and a read had given these bytes before.
fn is_fault(answer: &Answer, bytes: &[u8], refusal: Error) -> bool {
    match answer {
        Answer::Fault { got, error } => got.as_slice() == bytes && *error == refusal,
        _ => false,
    }
}

// Whether an answer is the one that is wanted.
fn is_wanted(answer: &Answer, wanted: Wanted, whole: &[u8]) -> bool {
    match wanted {
        Wanted::Bytes(bytes) => is_read(answer, bytes),
        Wanted::Part(from, to) => is_read(answer, part(whole, from, to)),
        Wanted::Place(place) => is_at(answer, place),
        Wanted::Fault(bytes, refusal) => is_fault(answer, bytes, refusal),
    }
}

// Whether each answer is the one that is wanted.
fn are_wanted(answers: &[Answer], wanted: &[Wanted], whole: &[u8]) -> bool {
    for (answer, wanted) in answers.iter().zip(wanted) {
        if !is_wanted(answer, *wanted, whole) {
            return false;
        }
    }
    true
}

/// Whether a reader of the whole answers to these reads and seeks as is wanted.
pub fn answers_so<R: Seek>(
    alloc: Global,
    reader: &mut R,
    whole: &[u8],
    ops: &[Op],
    wanted: &[Wanted],
) -> Result<bool, Fail> {
    let answers = run(alloc, reader, ops)?;
    Ok(answers.len() == wanted.len() && are_wanted(answers.as_slice(), wanted, whole))
}
