//! Records written as a payload, or as a file, and one of them read back.
ghost use Rattle.std.specs.Prelude.{◌≡◌, ◌∷◌, [], map, vec_items, slice_get, Some, Ok, Err, IfOk, IfErr, MatchResult};
ghost use Rattle.age.specs.Encrypting.{Prepared, Prepares};
ghost use Rattle.age.specs.FileLaws.{PreparesApart};
ghost use Rattle.age.specs.Payload.{LastIsNoMiddle};
ghost use Rattle.age.specs.Several.{BelongsToOne};
ghost use Rattle.age_records.specs.Text.{records_text};
ghost use Rattle.age_examples.specs.Keys.{IsWhole};
ghost use Rattle.age_examples.specs.RecordsBack.{IsPayloadOf, RefusesRecordBack, RefusesRecordFile, RefusesThrough, RefusesRecordsText};

use crate::record_files::{RecordFileError, records_of};
use age::draw::Draw;
use age::format::Grease;
use age::io::{Bytes, Error};
use age::laws::{files_carry_themselves, several_recipients};
use age::stream::laws::delivery_laws;
use age::stream::{StreamReader, StreamWriter};
use age::streaming::FileError;
use age::suite::Suite;
use age::suite::laws::known_array;
use age::{Encryptor, Identity, Recipient};
use age_records::{RecordError, Records, write_records};
use std::alloc::Global;

/// The payload of records under a key, in memory.
///
/// It is `TooLong` where the text of the records has more than 2^60 bytes, and else refused for want of memory alone.
pub fn payload_of_records<S: Suite>(
    alloc: Global,
    key: [u8; 32],
    records: &[Vec<u8>],
) -> Result<Vec<u8>, Error>
    ensures made { IfOk result (λ sealed. IsPayloadOf S.seal_of key (map vec_items records.now) sealed.items) }
    ensures refused { IfErr result (RefusesRecordsText (map vec_items records.now)) }
{
    let mut payload = match StreamWriter::<S, Vec<u8>>::with_payload_key(
        alloc,
        key,
        Vec::new(alloc),
    ) {
        Err(error) => return Err(error),
        Ok(payload) => payload,
    };
    match write_records(records, &mut payload) {
        Err(error) => return Err(error),
        Ok(()) => {}
    }
    payload.finish()
}

/// One of these records, once they were written as a payload and that was opened.
///
/// Where a full last chunk of the payload doesn't open as one in the middle too, a success is the record, and it is `NoSuchRecord` where
/// there are no more than `index` of them, `Io(TooLong)` where their text has more than 2^60 bytes, and else refused for want of
/// memory alone.
pub fn record_through_payload<S: Suite>(
    alloc: Global,
    key: [u8; 32],
    records: &[Vec<u8>],
    index: u64,
) -> Result<Vec<u8>, RecordError>
    ensures { LastIsNoMiddle S.seal_of key (records_text (map vec_items records.now)) → MatchResult result
        (λ bytes. slice_get (map vec_items records.now) index ≡ Some bytes.items) (RefusesRecordBack (map vec_items records.now) index) }
{
    // Facts for the proof alone.
    delivery_laws::<S>();
    // For the proof alone: these are bytes, each below 256.
    known_array(&key);
    let sealed = match payload_of_records::<S>(alloc, key, records) {
        Err(error) => return Err(RecordError::Io(error)),
        Ok(sealed) => sealed,
    };
    let reader = match StreamReader::<S, Bytes>::with_payload_key(alloc, key, Bytes::new(&sealed)) {
        Err(error) => return Err(RecordError::Io(error)),
        Ok(reader) => reader,
    };
    let mut back = match Records::open(alloc, reader) {
        Err(error) => return Err(error),
        Ok(back) => back,
    };
    back.get(index)
}

/// The file of records to the recipients, in memory.
///
/// It refuses as `Encryptor::with_recipients` does, then with `Io(TooLong)` where the text of the records has more than 2^60 bytes,
/// and else for want of memory alone. After a refusal `draw` has lost what was taken before it.
pub fn file_of_records<S: Suite, T: Recipient>(
    alloc: Global,
    recipients: &[T],
    draw: &mut Draw,
    grease: Grease,
    records: &[Vec<u8>],
) -> Result<Vec<u8>, FileError>
    ensures made { IfOk result (λ file.
        (prepared : Prepared) × Prepares T.wraps recipients.now (Some grease) draw.old (Ok prepared) draw.new
        × IsWhole S.seal_of prepared (records_text (map vec_items records.now)) file.items) }
    ensures refused { IfErr result (RefusesRecordFile
        (λ e. Prepares T.wraps recipients.now (Some grease) draw.old (Err e) draw.new) (map vec_items records.now)) }
{
    // A fact for the proof alone.
    files_carry_themselves::<S>();
    let encryptor = match Encryptor::<S>::with_recipients(alloc, recipients, draw, grease) {
        Err(error) => return Err(FileError::Encrypt(error)),
        Ok(encryptor) => encryptor,
    };
    let mut writer = match encryptor.wrap_output(alloc, Vec::new(alloc)) {
        Err(error) => return Err(FileError::Io(error)),
        Ok(writer) => writer,
    };
    match write_records(records, &mut writer) {
        Err(error) => return Err(FileError::Io(error)),
        Ok(()) => {}
    }
    match writer.finish() {
        Err(error) => Err(FileError::Io(error)),
        Ok(file) => Ok(file),
    }
}

/// One of these records, once they were written as a file to the recipients and that was opened with the identities.
///
/// Where a full last chunk of the file doesn't open as one in the middle too, and there is one identity, which belongs to one of
/// the recipients, a success is the record, and it refuses as `file_of_records` does, with `Record(NoSuchRecord)` where there are
/// no more than `index` records, and else for want of memory alone. After a refusal `draw` is as `file_of_records` leaves it.
pub fn record_through_file<S: Suite, T: Recipient, I: Identity>(
    alloc: Global,
    recipients: &[T],
    identities: &mut [I],
    draw: &mut Draw,
    grease: Grease,
    records: &[Vec<u8>],
    index: u64,
) -> Result<Vec<u8>, RecordFileError>
    ensures { (identity : I) → identities.old ≡ identity ∷ [] → BelongsToOne T.wraps I.unwraps recipients.now identity →
        PreparesApart T.wraps recipients.now (Some grease) draw.old draw.new S.seal_of (records_text (map vec_items records.now)) →
        MatchResult result
        (λ bytes. slice_get (map vec_items records.now) index ≡ Some bytes.items)
        (RefusesThrough (λ e. Prepares T.wraps recipients.now (Some grease) draw.old (Err e) draw.new)
        (map vec_items records.now) index) }
{
    // A fact for the proof alone.
    several_recipients::<S, T, I>();
    let file = match file_of_records::<S, T>(alloc, recipients, draw, grease, records) {
        Err(error) => return Err(RecordFileError::File(error)),
        Ok(file) => file,
    };
    let mut opened = match records_of::<S, I, Bytes>(alloc, identities, Bytes::new(&file)) {
        Err(error) => return Err(error),
        Ok(opened) => opened,
    };
    match opened.get(index) {
        Err(error) => Err(RecordFileError::Record(error)),
        Ok(record) => Ok(record),
    }
}
