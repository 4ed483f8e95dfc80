//! What the tests share: payloads that hold records, readers of them, lists of calls on those with the answers that they must
//! get, and files.

use age::Recipient;
use age::armor::{ArmoredReader, Format};
use age::format::Grease;
use age::io::{BufReader, Bytes, Error, Seek};
use age::stream::{StreamReader, StreamWriter};
use age::streaming::encrypt_all;
use age::suite::Suite;
use age_bench::recipient::BenchRecipient;
use age_bench::suite::BenchSuite;
use age_records::{RecordError, Records, write_records};
use std::alloc::{AllocError, Global};
use std::process::Abort;
use std::test::Fail;
use test_support::fixtures::{KEY, armored, empty_stanza, part, plaintext, zeros};
use test_support::whole::seal_whole;

/// The bytes that a text in armor carries.
pub type Armored<'a> = ArmoredReader<BufReader<Bytes<'a>>>;

/// The payload of this plaintext, by its definition.
pub fn sealed(alloc: Global, plain: &[u8]) -> Result<Vec<u8>, AllocError> {
    seal_whole::<BenchSuite>(alloc, &KEY, plain)
}

/// Records of these bytes.
pub fn listed(alloc: Global, rows: &[&[u8]]) -> Result<Vec<Vec<u8>>, AllocError> {
    let mut records = Vec::new(alloc);
    for row in rows {
        records.push(Vec::from_slice(alloc, row)?)?;
    }
    Ok(records)
}

/// Three records of so many bytes each, no two of them alike.
pub fn three_of(alloc: Global, length: usize) -> Result<Vec<Vec<u8>>, AllocError> {
    let plain = plaintext(alloc, length.saturating_mul(3))?;
    let mut records = Vec::new(alloc);
    for one in plain.chunks(length.max(1)) {
        records.push(Vec::from_slice(alloc, one)?)?;
    }
    Ok(records)
}

/// So many records, of 0 to 6 bytes.
pub fn many(alloc: Global, count: usize) -> Result<Vec<Vec<u8>>, AllocError> {
    let plain = plaintext(alloc, count.saturating_add(7))?;
    let mut records = Vec::new(alloc);
    for i in 0..count {
        let bytes = part(&plain, i, i.saturating_add(i % 7));
        records.push(Vec::from_slice(alloc, bytes)?)?;
    }
    Ok(records)
}

/// The payload that is written of records.
pub fn written(alloc: Global, records: &[Vec<u8>]) -> Result<Vec<u8>, Error> {
    let out = Vec::new(alloc);
    let mut writer = StreamWriter::<BenchSuite, Vec<u8>>::with_payload_key(alloc, KEY, out)?;
    write_records(records, &mut writer)?;
    writer.finish()
}

/// The records in the payload that this gives.
pub fn opened<R: Seek + Drop>(
    alloc: Global,
    inner: R,
) -> Result<Records<BenchSuite, R>, RecordError> {
    match StreamReader::<BenchSuite, R>::with_payload_key(alloc, KEY, inner) {
        Ok(reader) => Records::open(alloc, reader),
        Err(e) => Err(RecordError::Io(e)),
    }
}

/// What a text in armor carries.
pub fn in_armor(alloc: Global, text: &[u8]) -> Result<Armored<'_>, Fail> {
    Ok(ArmoredReader::new(alloc, Bytes::new(text))?)
}

/// Whether this record is these bytes.
pub fn gives<R: Seek>(records: &mut Records<BenchSuite, R>, index: u64, bytes: &[u8]) -> bool {
    match records.get(index) {
        Ok(got) => got.as_slice() == bytes,
        Err(_) => false,
    }
}

// Whether this record is refused so.
fn refuses<R: Seek>(records: &mut Records<BenchSuite, R>, index: u64, error: RecordError) -> bool {
    match records.get(index) {
        Ok(_) => false,
        Err(e) => e == error,
    }
}

/// A call on records, and its answer.
#[derive(Clone, Copy)]
pub enum Call<'a> {
    /// There are so many.
    Counts(u64),
    /// This record is these bytes.
    Gives(u64, &'a [u8]),
    /// This record is refused so.
    Refuses(u64, RecordError),
}

// Whether the call is answered so.
fn is_answered<R: Seek>(records: &mut Records<BenchSuite, R>, call: Call<'_>) -> bool {
    match call {
        Call::Counts(count) => records.len() == count,
        Call::Gives(index, bytes) => gives(records, index, bytes),
        Call::Refuses(index, error) => refuses(records, index, error),
    }
}

// The records in the payload that this gives answer the calls so, one after the other.
fn answers<R: Seek + Drop>(
    rt: &impl Abort,
    alloc: Global,
    inner: R,
    calls: &[Call<'_>],
) -> Result<(), Fail> {
    let mut records = opened(alloc, inner)?;
    for (i, call) in calls.iter().enumerate() {
        assert!(rt; is_answered(&mut records, *call), "at call {i}");
    }
    Ok(())
}

/// The records in a payload, bare and in armor, do.
pub fn both_answer(
    rt: &impl Abort,
    alloc: Global,
    payload: &[u8],
    calls: &[Call<'_>],
) -> Result<(), Fail> {
    answers(rt, alloc, Bytes::new(payload), calls)?;
    let text = armored(alloc, payload)?;
    answers(rt, alloc, in_armor(alloc, &text)?, calls)
}

/// The text of an X25519 key.
pub const SECRET: &str =
    "AGE-SECRET-KEY-1GQ9778VQXMMJVE8SK7J6VT8UJ4HDQAJUVSFCWCM02D8GEWQ72PVQ2Y5J33";

/// A grease stanza with nothing but a tag in it.
pub fn grease(alloc: Global) -> Result<Grease, Fail> {
    match empty_stanza(alloc, "x-grease")?.and_then(Grease::new) {
        Some(grease) => Ok(grease),
        None => Err(Fail::from("no grease")),
    }
}

/// The file of a plaintext to these recipients in this form, where each of so many random bytes is 0.
pub fn text_to<S: Suite, T: Recipient>(
    alloc: Global,
    recipients: &[T],
    random: usize,
    format: Format,
    plain: &[u8],
) -> Result<Vec<u8>, Fail> {
    let mut draw = zeros(alloc, random)?;
    let grease = grease(alloc)?;
    let mut input = Bytes::new(plain);
    let mut text = Vec::new(alloc);
    match encrypt_all::<S, T, Bytes, Vec<u8>>(
        alloc, recipients, &mut draw, grease, format, &mut input, &mut text,
    ) {
        Ok(()) => Ok(text),
        Err(_) => Err(Fail::from("not encrypted")),
    }
}

/// The same to `bench`.
pub fn bench_text(alloc: Global, format: Format, plain: &[u8]) -> Result<Vec<u8>, Fail> {
    text_to::<BenchSuite, BenchRecipient>(alloc, &[BenchRecipient], 32, format, plain)
}
