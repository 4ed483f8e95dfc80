//! Reading records.
ghost use Rattle.std.specs.Prelude.{◌≡◌, ◌+◌, ◌*◌, ◌/◌, ◌^◌, ◌<◌, ◌≤◌, suc, ◌-◌, IsTrue, length, take, drop, IfOk, IfErr, OnOk, vec_len, Ok};
ghost use Rattle.age_stream.specs.Reader.{tells_of, content_of, opens_of};
ghost use Rattle.age_records.specs.Text.{end_before, record_at};
ghost use Rattle.age_records.specs.Standing.{HasEnds, IsRecordAt};
ghost use Rattle.age_records.specs.Payloads.{AddsNone, IfReaderRefuses, IsCounted, MayRefuse, RefusesRange, RefusesRecord, SamePayload, Stands};

use crate::counting::count_in;
use crate::error::RecordError;
use crate::parts::{number_in, numbers_in, read_part};
use age_io::{Read, Seek, room_for};
use age_stream::reader::StreamReader;
use age_suite::suite::Suite;
use std::alloc::Global;
use std::fmt;

/// Records in the plaintext of a payload, which are read one at a time. Only the chunks that hold a record and its ends are opened for it.
///
/// The plaintext is the number of records in 8 bytes, highest first, then for each the number of bytes up to and with it, so too, and then
/// their bytes.
pub struct Records<S: Suite, R: Read> {
    alloc: Global,
    reader: StreamReader<S, R>,
    count: u64,
    total: u64,
    ghost counted: { IsCounted count total reader },
}

// What is known of any reader, a fact for proofs alone.
fn known_short<R: Read>(reader: &R)
    ensures { IsTrue (R.tells reader.now) → length (R.content reader.now).bytes < 2 ^ 63 }
{
    let _reader = reader;
}

// The end of the record before this one, and its own.
fn ends_of<S: Suite, R: Seek>(
    reader: &mut StreamReader<S, R>,
    index: u64,
) -> Result<(u64, u64), RecordError>
    requires { 8 * index + 16 < 2 ^ 64 }
    ensures same { SamePayload reader.old reader.new }
    ensures ends { IsTrue (tells_of reader.old) → IfOk result (λ found. HasEnds (Stands reader.old) index found.0 found.1) }
    ensures value { IsTrue (tells_of reader.old) → IsTrue (content_of reader.old).ends_well → IfOk result (λ found.
        (found.0 ≡ end_before (content_of reader.old).bytes index) × (found.1 ≡ end_before (content_of reader.old).bytes (suc index))) }
    ensures why { IfErr result (IfReaderRefuses (MayRefuse R.seek_refuses reader.old)) }
    ensures narrows { OnOk result (AddsNone reader.old reader.new) }
    ensures refused { IfErr result (RefusesRange (8 * index + 16) reader.old reader.new) }
    ensures opens { opens_of reader.new ≤ opens_of reader.old + 4 }
{
    if index == 0 {
        return match number_in(reader, 8) {
            Err(e) => Err(e),
            Ok(end) => Ok((0, end)),
        };
    }
    numbers_in(reader, 8 * index)
}

// The bytes between two ends.
fn bytes_between<S: Suite, R: Seek>(
    alloc: Global,
    reader: &mut StreamReader<S, R>,
    front: u64,
    start: u64,
    end: u64,
) -> Result<Vec<u8>, RecordError>
    requires order { start ≤ end }
    requires fits { front + end < 2 ^ 64 }
    ensures same { SamePayload reader.old reader.new }
    ensures size { IfOk result (λ bytes. start + vec_len bytes ≡ end) }
    ensures stands { IsTrue (tells_of reader.old) → IfOk result (λ bytes. Stands reader.old (front + start) bytes.items) }
    ensures value { IsTrue (tells_of reader.old) → IsTrue (content_of reader.old).ends_well →
        IfOk result (λ bytes. bytes.items ≡ take (end - start) (drop (front + start) (content_of reader.old).bytes)) }
    ensures why { IfErr result (IfReaderRefuses (MayRefuse R.seek_refuses reader.old)) }
    ensures narrows { OnOk result (AddsNone reader.old reader.new) }
    ensures refused { IfErr result (RefusesRange (front + end) reader.old reader.new) }
    ensures opens { opens_of reader.new ≤ opens_of reader.old + (end - start) / 65536 + 4 }
{
    let mut bytes = match room_for(alloc, (end - start) as usize) {
        Err(e) => return Err(RecordError::Io(e)),
        Ok(bytes) => bytes,
    };
    match read_part(reader, front + start, &mut bytes) {
        Err(e) => Err(e),
        Ok(()) => Ok(bytes),
    }
}

// A record of so many, which have so many bytes in all.
fn record_in<S: Suite, R: Seek>(
    alloc: Global,
    reader: &mut StreamReader<S, R>,
    count: u64,
    total: u64,
    index: u64,
) -> Result<Vec<u8>, RecordError>
    requires counted { IsCounted count total reader.old }
    requires inside { index < count }
    ensures same { SamePayload reader.old reader.new }
    ensures named { IsTrue (tells_of reader.old) → IfOk result (λ bytes. IsRecordAt (Stands reader.old) count index bytes.items) }
    ensures value { IsTrue (tells_of reader.old) → IsTrue (content_of reader.old).ends_well →
        IfOk result (λ bytes. record_at (content_of reader.old).bytes index ≡ Ok bytes.items) }
    ensures why { IfErr result (IfReaderRefuses (MayRefuse R.seek_refuses reader.old)) }
    ensures narrows { OnOk result (AddsNone reader.old reader.new) }
    ensures refused { IfErr result (RefusesRecord count total index reader.old reader.new) }
    ensures opens { opens_of reader.new ≤ opens_of reader.old + total / 65536 + 8 }
    ensures opens_few { IfOk result (λ bytes. opens_of reader.new ≤ opens_of reader.old + vec_len bytes / 65536 + 8) }
{
    let (start, end) = match ends_of(reader, index) {
        Err(e) => return Err(e),
        Ok(ends) => ends,
    };
    if start > end {
        return Err(RecordError::Damaged);
    }
    if end > total {
        return Err(RecordError::Damaged);
    }
    bytes_between(alloc, reader, 8 + 8 * count, start, end)
}

impl<S: Suite, R: Seek> Records<S, R> {
    ghost use Rattle.age_records.specs.Records.{OpensRecords, GivesRecord, len_of, reader_of};

    /// Opens the records in a payload's plaintext. It seeks to the end, and then reads their number and the last end.
    ///
    /// `Damaged` says that the plaintext isn't the text of records: it has fewer bytes than that number and so many ends have, or not as
    /// many more as the last end says. Any other refusal is that of the reader, as it is. The reader is gone after a refusal. It opens at
    /// most 9 chunks.
    pub fn open(alloc: Global, mut reader: StreamReader<S, R>) -> Result<Records<S, R>, RecordError>
    where
        R: Drop,
        ensures { OpensRecords R.seek_refuses reader result }
    {
        // For the proof alone: what the type keeps of it.
        known_short(&reader);
        match count_in(&mut reader) {
            Err(e) => Err(e),
            Ok((count, total)) => Ok(Records {
                alloc,
                reader,
                count,
                total,
            }),
        }
    }

    /// How many records there are.
    pub fn len(&self) -> u64
        ensures { result ≡ len_of self.now }
    {
        self.count
    }

    /// How often the payload's reader opened a chunk, since it was made. It stays at 2^64 - 1.
    pub fn opens(&self) -> u64
        ensures { result ≡ opens_of (reader_of self.now) }
    {
        self.reader.opens()
    }

    /// Record `index`, counted from 0. It reads the record's ends at once and then its bytes, each by a seek and reads, so it may be
    /// called again after any refusal.
    ///
    /// - `NoSuchRecord`: there are no more than `index` records. Nothing is read.
    /// - `Damaged`: its two ends fall or pass the last end.
    /// - `Io(OutOfMemory)`: memory for its bytes was refused; nothing of them was read.
    /// - `Io(e)`: the reader's `read_at` refused so.
    ///
    /// For a record of n bytes it opens at most n / 65,536 + 8 chunks.
    pub fn get(&mut self, index: u64) -> Result<Vec<u8>, RecordError>
        ensures { GivesRecord R.seek_refuses self.old index self.new result }
    {
        if index >= self.count {
            return Err(RecordError::NoSuchRecord);
        }
        record_in(self.alloc, &mut self.reader, self.count, self.total, index)
    }
}

/// Prints how many records there are and nothing else, as `Records { len: 3, .. }`.
impl<S: Suite, R: Read> fmt::Debug for Records<S, R> {
    ghost use Rattle.std.specs.Prelude.{Some};
    ghost use Rattle.age_records.specs.Records.{debug_records};

    ghost debug_output = { λ records. Some (debug_records records) };

    fn fmt<W: fmt::Write>(&self, f: &mut fmt::Formatter<W>) -> fmt::Result {
        write!(f, "Records {{ len: {}, .. }}", self.count)
    }
}

impl<S: Suite, R: Read + Drop> Drop for Records<S, R> {
    fn drop(self) {
        let Records {
            alloc: _,
            reader: _,
            count: _,
            total: _,
        } = self;
    }
}
