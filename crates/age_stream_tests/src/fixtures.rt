//! What the tests share: payloads and readers of them, and lists of calls on readers with the answers that they must get.

use age::armor::ArmoredReader;
use age::io::{BufReader, Bytes, Error, Read, Seek, SeekFrom};
use age::stream::StreamReader;
use age::suite::Suite;
use age_bench::suite::BenchSuite;
use std::alloc::{AllocError, Global};
use std::process::Abort;
use std::test::Fail;
use test_support::answers::{delivers, delivers_until, ends, read_refuses};
use test_support::fixtures::{KEY, armored, part, plaintext, with_endings};
use test_support::whole::seal_whole;

/// The bytes that a text in armor carries.
pub type Armored<'a> = ArmoredReader<BufReader<Bytes<'a>>>;

/// The nonce of the first chunk, where others follow it.
pub const FIRST_AS_MIDDLE: [u8; 12] = [0, 0, 0, 0, 0, 0, 0, 0, 0, 0, 0, 0];

/// The nonce of the first chunk as the last.
pub const FIRST_AS_LAST: [u8; 12] = [0, 0, 0, 0, 0, 0, 0, 0, 0, 0, 0, 1];

/// The nonce of the second chunk as the last.
pub const SECOND_AS_LAST: [u8; 12] = [0, 0, 0, 0, 0, 0, 0, 0, 0, 0, 1, 1];

/// The payload of a plaintext of so many bytes.
pub fn sealed<S: Suite>(alloc: Global, length: usize) -> Result<Vec<u8>, AllocError> {
    seal_whole::<S>(alloc, &KEY, &plaintext(alloc, length)?)
}

/// The payload of a plaintext of so many bytes, whose second chunk is bad.
pub fn with_a_bad_chunk<S: Suite>(alloc: Global, length: usize) -> Result<Vec<u8>, AllocError> {
    let mut payload = sealed::<S>(alloc, length)?;
    for byte in payload.iter_mut().skip(70_000).take(1) {
        *byte ^= 1;
    }
    Ok(payload)
}

/// A full chunk sealed under this nonce, and these bytes after it.
pub fn full_chunk_and<S: Suite>(
    alloc: Global,
    nonce: &[u8; 12],
    after: &[u8],
) -> Result<Vec<u8>, AllocError> {
    let plain = plaintext(alloc, 65_536)?;
    let mut payload = S::seal(alloc, &KEY, nonce, &plain)?;
    payload.extend_from_slice(after)?;
    Ok(payload)
}

/// A full chunk sealed under this nonce, and a second chunk of this plaintext, sealed as the last.
pub fn two_chunks<S: Suite>(
    alloc: Global,
    nonce: &[u8; 12],
    second: &[u8],
) -> Result<Vec<u8>, AllocError> {
    let last = S::seal(alloc, &KEY, &SECOND_AS_LAST, second)?;
    full_chunk_and::<S>(alloc, nonce, &last)
}

/// A reader of the payload that this gives.
pub fn reader_of<S: Suite, R: Read + Drop>(
    alloc: Global,
    inner: R,
) -> Result<StreamReader<S, R>, Fail> {
    Ok(StreamReader::<S, R>::with_payload_key(alloc, KEY, inner)?)
}

/// These bytes through a buffer.
pub fn buffered(alloc: Global, bytes: &[u8]) -> Result<BufReader<Bytes<'_>>, Fail> {
    Ok(BufReader::new(alloc, Bytes::new(bytes))?)
}

/// What a text in armor carries.
pub fn in_armor(alloc: Global, text: &[u8]) -> Result<Armored<'_>, Fail> {
    Ok(ArmoredReader::new(alloc, Bytes::new(text))?)
}

/// A call on a reader of a payload, and its answer.
#[derive(Clone, Copy)]
pub enum Call {
    /// A seek goes to this place.
    Goes(SeekFrom, u64),
    /// A seek is refused so.
    Refuses(SeekFrom, Error),
    /// A read of one byte gives the one of this place.
    Gives(usize),
    /// A read of no bytes gives none.
    GivesNone,
    /// A read is answered with the clean end.
    Ends,
    /// Two reads are refused, since the reader has failed before.
    Failed,
    /// What is left gives the bytes from one place to another, and then the clean end.
    Leaves(usize, usize),
    /// What is left gives the bytes from one place to another, and is refused so then.
    LeavesUntil(usize, usize, Error),
    /// So many chunks were opened so far.
    Opened(u64),
    /// A seek to this place and a read of one byte give it, and so many chunks were opened then.
    Looks(usize, u64),
}

/// Whether a read of one byte gives the one of this place.
pub fn gives<R: Read>(reader: &mut R, place: usize) -> bool {
    let mut byte = [255];
    reader.read(&mut byte) == Ok(1) && byte == [(place % 251) as u8]
}

// Whether the reader has failed before.
fn has_failed<R: Read>(reader: &mut R) -> bool {
    read_refuses(reader, Error::Failed) && read_refuses(reader, Error::Failed)
}

// Whether what is left gives the bytes from one place to another, and then the clean end.
fn leaves<R: Read>(
    alloc: Global,
    reader: &mut R,
    from: usize,
    to: usize,
) -> Result<bool, AllocError> {
    let plain = plaintext(alloc, to)?;
    Ok(delivers(alloc, reader, part(&plain, from, to)))
}

// Whether it gives them, and is refused so then.
fn leaves_until<R: Read>(
    alloc: Global,
    reader: &mut R,
    from: usize,
    to: usize,
    error: Error,
) -> Result<bool, AllocError> {
    let plain = plaintext(alloc, to)?;
    Ok(delivers_until(alloc, reader, part(&plain, from, to), error))
}

// Whether a seek goes to this place.
fn goes<R: Seek>(reader: &mut R, to: SeekFrom, place: u64) -> bool {
    reader.seek(to) == Ok(place)
}

// Whether a seek to this place and a read of one byte give it, and so many chunks were opened then.
fn looks<S: Suite, R: Seek>(reader: &mut StreamReader<S, R>, place: usize, opens: u64) -> bool {
    goes(reader, SeekFrom::Start(place as u64), place as u64)
        && gives(reader, place)
        && reader.opens() == opens
}

// Whether the call is answered so.
fn is_answered<S: Suite, R: Seek>(
    alloc: Global,
    reader: &mut StreamReader<S, R>,
    call: Call,
) -> Result<bool, AllocError> {
    match call {
        Call::Goes(to, place) => Ok(goes(reader, to, place)),
        Call::Refuses(to, error) => Ok(reader.seek(to) == Err(error)),
        Call::Gives(place) => Ok(gives(reader, place)),
        Call::GivesNone => Ok(reader.read(&mut []) == Ok(0)),
        Call::Ends => Ok(ends(reader)),
        Call::Failed => Ok(has_failed(reader)),
        Call::Leaves(from, to) => leaves(alloc, reader, from, to),
        Call::LeavesUntil(from, to, error) => leaves_until(alloc, reader, from, to, error),
        Call::Opened(count) => Ok(reader.opens() == count),
        Call::Looks(place, opens) => Ok(looks(reader, place, opens)),
    }
}

/// The calls, one after the other, are answered so.
pub fn answers<S: Suite, R: Seek>(
    rt: &impl Abort,
    alloc: Global,
    reader: &mut StreamReader<S, R>,
    calls: &[Call],
) -> Result<(), Fail> {
    for (i, call) in calls.iter().enumerate() {
        assert!(rt; is_answered(alloc, reader, *call)?, "at call {i}");
    }
    Ok(())
}

/// A reader of the payload that this gives answers the calls so.
pub fn reader_answers<S: Suite, R: Seek + Drop>(
    rt: &impl Abort,
    alloc: Global,
    inner: R,
    calls: &[Call],
) -> Result<(), Fail> {
    let mut reader = reader_of::<S, R>(alloc, inner)?;
    answers(rt, alloc, &mut reader, calls)
}

// The armor of the payload of a plaintext of so many bytes, with both line endings, and white space after it.
fn spaced_armor(alloc: Global, length: usize) -> Result<Vec<u8>, Fail> {
    let text = armored(alloc, &sealed::<BenchSuite>(alloc, length)?)?;
    Ok(with_endings(alloc, &text, [true, false])?)
}

/// A reader of the payload of a plaintext of so many bytes, in that armor, answers the calls so.
pub fn armor_answers(
    rt: &impl Abort,
    alloc: Global,
    length: usize,
    calls: &[Call],
) -> Result<(), Fail> {
    let text = spaced_armor(alloc, length)?;
    reader_answers::<BenchSuite, _>(rt, alloc, in_armor(alloc, &text)?, calls)
}

/// A reader of the payload of a plaintext of so many bytes, over this suite, answers the calls so.
pub fn payload_answers<S: Suite>(
    rt: &impl Abort,
    alloc: Global,
    length: usize,
    calls: &[Call],
) -> Result<(), Fail> {
    let payload = sealed::<S>(alloc, length)?;
    reader_answers::<S, _>(rt, alloc, Bytes::new(&payload), calls)
}
