//! Records over the primitives of the standard: a file of them to the recipient of a key, bare and in armor, and what calls on it give.

use crate::fixtures::{SECRET, grease, listed, three_of};
use age::Encryptor;
use age::armor::{ArmoredWriter, Format};
use age::draw::Draw;
use age::io::Bytes;
use age::x25519::Identity;
use age_examples::record_calls::get_each;
use age_examples::record_files::records_of;
use age_examples::records_there_and_back::file_of_records;
use age_records::{RecordError, write_records};
use age_standard::StandardSuite;
use std::alloc::Global;
use std::slice;
use std::str::FromStr;
use std::test::Fail;
use test_support::fixtures::{armored, zeros};

// How many random bytes a file to one recipient takes.
const RANDOM_BYTES: usize = 64;

type Key = Identity<StandardSuite>;

type Answer = Result<Vec<u8>, RecordError>;

fn key() -> Result<Key, Fail> {
    Ok(Key::from_str(SECRET)?)
}

// The file of records to the recipient of the key.
fn file_of(alloc: Global, records: &[Vec<u8>]) -> Result<Vec<u8>, Fail> {
    let recipients = [key()?.to_public()];
    let mut draw = zeros(alloc, RANDOM_BYTES)?;
    let grease = grease(alloc)?;
    Ok(file_of_records::<StandardSuite, _>(alloc, &recipients, &mut draw, grease, records)?)
}

// The same in armor, as it is written.
fn text_of(alloc: Global, records: &[Vec<u8>]) -> Result<Vec<u8>, Fail> {
    let recipients = [key()?.to_public()];
    let mut draw: Draw = zeros(alloc, RANDOM_BYTES)?;
    let encryptor = Encryptor::<StandardSuite>::with_recipients(
        alloc,
        &recipients,
        &mut draw,
        grease(alloc)?,
    )?;
    let text = ArmoredWriter::wrap_output(alloc, Vec::new(alloc), Format::AsciiArmor)?;
    let mut writer = encryptor.wrap_output(alloc, text)?;
    write_records(records, &mut writer)?;
    Ok(writer.finish()?.finish()?)
}

// What calls for these records are answered, on the file that a text is or carries.
fn answers(alloc: Global, text: &[u8], calls: &[u64]) -> Result<Vec<Answer>, Fail> {
    let mut key = key()?;
    let mut records = records_of::<StandardSuite, Key, Bytes>(
        alloc,
        slice::from_mut(&mut key),
        Bytes::new(text),
    )?;
    Ok(get_each(alloc, &mut records, calls)?)
}

// Whether an answer is this record, or that there is none.
fn is_right(answer: &Answer, record: Option<&Vec<u8>>) -> bool {
    match (answer, record) {
        (Ok(bytes), Some(record)) => bytes.as_slice() == record.as_slice(),
        (Err(error), None) => *error == RecordError::NoSuchRecord,
        _ => false,
    }
}

// Each record after each other one, and two that aren't there.
const CALLS: [u64; 9] = [2, 0, 1, 3, 1, 2, u64::MAX, 0, 2];

// Whether the calls on the file that a text is or carries are answered by three records.
fn are_given(alloc: Global, text: &[u8], records: &[Vec<u8>]) -> Result<bool, Fail> {
    let answers = answers(alloc, text, &CALLS)?;
    let mut right = answers.len() == CALLS.len();
    for (answer, call) in answers.iter().zip(CALLS.iter()) {
        right &= is_right(answer, records.get(*call as usize));
    }
    Ok(right)
}

#[test]
fn short_records_are_given_back(rt: HostRuntime) -> Result<(), Fail> {
    let alloc = rt.alloc();
    let records = listed(alloc, &[b"a", b"", b"bcd"])?;
    let file = file_of(alloc, &records)?;
    assert!(rt; are_given(alloc, &file, &records)?);
    assert!(rt; are_given(alloc, &armored(alloc, &file)?, &records)?);
    Ok(())
}

// In five chunks.
#[test]
fn long_records_are_given_back(rt: HostRuntime) -> Result<(), Fail> {
    let alloc = rt.alloc();
    let records = three_of(alloc, 100_000)?;
    let file = file_of(alloc, &records)?;
    assert!(rt; are_given(alloc, &file, &records)?);
    assert!(rt; are_given(alloc, &armored(alloc, &file)?, &records)?);
    Ok(())
}

// What is written in armor is the armor of the file.
#[test]
fn records_are_written_in_armor(rt: HostRuntime) -> Result<(), Fail> {
    let alloc = rt.alloc();
    let records = three_of(alloc, 1_000)?;
    let text = text_of(alloc, &records)?;
    assert!(rt; text.as_slice() == armored(alloc, &file_of(alloc, &records)?)?.as_slice());
    assert!(rt; are_given(alloc, &text, &records)?);
    Ok(())
}
