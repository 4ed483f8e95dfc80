//! Writing records.
ghost use Rattle.std.specs.Prelude.{◌≡◌, ◌+◌, ◌^◌, ◌<◌, ◌≤◌, IsTrue, length, map, vec_items, false};
ghost use Rattle.age_error.specs.Bytes.{AreBytes};
ghost use Rattle.age_stream.specs.Writing.{IsGood, taken_len};
ghost use Rattle.age_records.specs.Putting.{Puts, WritesRecords};
ghost use Rattle.age_records.specs.Text.{ends, joined_records, number_text, records_text};

use age_error::bytes::known_bytes;
use age_error::io::Error;
use age_io::Write;
use age_stream::laws::sent_law;
use age_stream::sizes::LONGEST_PLAINTEXT;
use age_stream::writer::StreamWriter;
use age_suite::suite::Suite;

// How many bytes a number has.
const NUMBER: u64 = 8;

// Whether the text of the records is no longer than a plaintext may be.
fn is_plaintext(records: &[Vec<u8>]) -> bool
    ensures yes { IsTrue result → length (records_text (map vec_items records.now)) ≤ 2 ^ 60 }
    ensures no { result ≡ false → 2 ^ 60 < length (records_text (map vec_items records.now)) }
    ensures bytes { IsTrue result → AreBytes (records_text (map vec_items records.now)) }
{
    let mut left = LONGEST_PLAINTEXT - NUMBER;
    for one in records {
        // For the proof of `bytes` alone.
        known_bytes(one);
        if left < NUMBER {
            return false;
        }
        left -= NUMBER;
        if left < one.len() as u64 {
            return false;
        }
        left -= one.len() as u64;
    }
    true
}

// Writes bytes, all of which the writer takes or refuses.
fn put<S: Suite, W: Write>(writer: &mut StreamWriter<S, W>, bytes: &[u8]) -> Result<(), Error>
    ensures { Puts S.seal_of ⟦<W as Write>⟧ writer.old writer.new bytes.now result }
{
    match writer.write(bytes) {
        Err(e) => Err(e),
        Ok(_all) => Ok(()),
    }
}

// Writes a number in 8 bytes, the highest first.
#[tactic(auto, unfolding(crate::specs::Text::number_text))]
fn put_number<S: Suite, W: Write>(writer: &mut StreamWriter<S, W>, n: u64) -> Result<(), Error>
    ensures { Puts S.seal_of ⟦<W as Write>⟧ writer.old writer.new (number_text n) result }
{
    put(writer, &n.to_be_bytes())
}

// Writes the end of each record.
fn put_ends<S: Suite, W: Write>(
    writer: &mut StreamWriter<S, W>,
    records: &[Vec<u8>],
) -> Result<(), Error>
    requires good { IsGood writer.old }
    requires short { length (joined_records (map vec_items records.now)) < 2 ^ 64 }
    ensures { Puts S.seal_of ⟦<W as Write>⟧ writer.old writer.new (ends 0 (map vec_items records.now)) result }
{
    let mut end = 0;
    for one in records {
        end += one.len() as u64;
        match put_number(writer, end) {
            Err(e) => return Err(e),
            Ok(()) => {}
        }
    }
    Ok(())
}

// Writes the bytes of each record.
fn put_bytes<S: Suite, W: Write>(
    writer: &mut StreamWriter<S, W>,
    records: &[Vec<u8>],
) -> Result<(), Error>
    requires { IsGood writer.old }
    ensures { Puts S.seal_of ⟦<W as Write>⟧ writer.old writer.new (joined_records (map vec_items records.now)) result }
{
    for one in records {
        match put(writer, one) {
            Err(e) => return Err(e),
            Ok(()) => {}
        }
    }
    Ok(())
}

// Writes the text of records.
fn put_text<S: Suite, W: Write>(
    writer: &mut StreamWriter<S, W>,
    records: &[Vec<u8>],
) -> Result<(), Error>
    requires { length (joined_records (map vec_items records.now)) < 2 ^ 64 }
    ensures { Puts S.seal_of ⟦<W as Write>⟧ writer.old writer.new (records_text (map vec_items records.now)) result }
{
    match put_number(writer, records.len() as u64) {
        Err(e) => return Err(e),
        Ok(()) => {}
    }
    match put_ends(writer, records) {
        Err(e) => return Err(e),
        Ok(()) => {}
    }
    put_bytes(writer, records)
}

/// Writes records as the plaintext of a payload: their number in 8 bytes, highest first, then for each the number of bytes up to and with it,
/// so too, and then their bytes. They are whole only after the writer's `finish`, which is the caller's.
///
/// Nothing may have been written to the writer before. Where that text has more than 2^60 bytes it is `TooLong`, and nothing is written. Any
/// other refusal is that of `StreamWriter::write`; the writer has failed then. Whatever the answer, the inner writer was given a beginning of
/// the payload of that text, and nothing else (`sent`).
pub fn write_records<S: Suite, W: Write>(
    records: &[Vec<u8>],
    writer: &mut StreamWriter<S, W>,
) -> Result<(), Error>
    requires { taken_len writer.old ≡ 0 }
    ensures { WritesRecords S.seal_of ⟦<W as Write>⟧ writer.old writer.new (map vec_items records.now) result }
{
    if !is_plaintext(records) {
        return Err(Error::TooLong);
    }
    // A fact for the proof alone.
    sent_law::<S, W>();
    put_text(writer, records)
}
