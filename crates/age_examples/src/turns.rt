//! Two places of one plaintext in turn.
ghost use Rattle.std.specs.Prelude.{◌≡◌, ◌≢◌, ◌+◌, ◌/◌, ◌≤◌, ◌⊎◌, ℕ, IsTrue, Some, None, slice_get, IfOk, IfErr, OnOk};
ghost use Rattle.age.specs.Cursor.{IsSeekRefusal, OrTooLong};
ghost use Rattle.age.specs.ErrorVariants.{OutOfMemory, UnexpectedEof};
ghost use Rattle.age.specs.Reading.{AddsNoReason, IsQuiet};
ghost use Rattle.age.specs.StreamReader.{payload_of, opens_of, last_used_of, HasChunk};
ghost use Rattle.age_examples.specs.Turns.{HasPlace};

use age::io::{Error, Read, Seek, SeekFrom};
use age::stream::StreamReader;
use age::suite::Suite;

// The byte at this place.
fn byte_at<S: Suite, R: Seek>(reader: &mut StreamReader<S, R>, place: u64) -> Result<u8, Error>
    ensures tells { ⟦<StreamReader<S, R> as Read>⟧.tells reader.new ≡ ⟦<StreamReader<S, R> as Read>⟧.tells reader.old }
    ensures payload { IsTrue (⟦<StreamReader<S, R> as Read>⟧.tells reader.old) → payload_of reader.new ≡ payload_of reader.old }
    ensures uses { IsTrue (⟦<StreamReader<S, R> as Read>⟧.tells reader.old) → OnOk result (last_used_of reader.new ≡ Some (place / 65536)) }
    ensures keeps_last { IsTrue (⟦<StreamReader<S, R> as Read>⟧.tells reader.old) → HasPlace (payload_of reader.old) place →
        OnOk result ((b : ℕ) → last_used_of reader.old ≡ Some b → HasChunk reader.new b) }
    ensures opens { IsTrue (⟦<StreamReader<S, R> as Read>⟧.tells reader.old) → HasPlace (payload_of reader.old) place →
        OnOk result (opens_of reader.new ≤ opens_of reader.old + 2) }
    ensures found { IsTrue (⟦<StreamReader<S, R> as Read>⟧.tells reader.old) → HasPlace (payload_of reader.old) place →
        HasChunk reader.old (place / 65536) → OnOk result (opens_of reader.new ≡ opens_of reader.old) }
    ensures steady { ⟦<StreamReader<S, R> as Read>⟧.steady reader.new ≡ ⟦<StreamReader<S, R> as Read>⟧.steady reader.old }
    ensures faults { ⟦<StreamReader<S, R> as Read>⟧.faults reader.old ≤ ⟦<StreamReader<S, R> as Read>⟧.faults reader.new }
    ensures content { let read = ⟦<StreamReader<S, R> as Read>⟧ in
        IsTrue (read.tells reader.old) → read.content reader.new ≡ read.content reader.old }
    ensures byte { let read = ⟦<StreamReader<S, R> as Read>⟧ in IsTrue (read.tells reader.old) → IsTrue (read.steady reader.old) →
        IfOk result (λ byte. slice_get (read.content reader.old).bytes place ≡ Some byte) }
    ensures why { let read = ⟦<StreamReader<S, R> as Read>⟧ in
        IfErr result (λ e. IsSeekRefusal (OrTooLong R.seek_refuses) e ⊎ read.refuses reader.old e ⊎ ((e ≡ UnexpectedEof)
        × (IsTrue (read.tells reader.old) → IsTrue (read.steady reader.old) → slice_get (read.content reader.old).bytes place ≡ None))) }
    ensures narrows { OnOk result (AddsNoReason ⟦<StreamReader<S, R> as Read>⟧.refuses reader.old reader.new) }
    ensures cause { let read = ⟦<StreamReader<S, R> as Read>⟧ in IsTrue (read.tells reader.old) → IsTrue (read.steady reader.old) →
        IsTrue (read.content reader.old).ends_well → IfErr result (λ e. e ≢ OutOfMemory → IsQuiet (read.faults reader.old) (read.faults reader.new) →
        slice_get (read.content reader.old).bytes place ≡ None) }
{
    match reader.seek(SeekFrom::Start(place)) {
        Err(error) => Err(error),
        Ok(_) => {
            let mut byte = [0];
            match reader.read(&mut byte) {
                Err(error) => Err(error),
                Ok(count) => {
                    if count == 0 {
                        return Err(Error::UnexpectedEof);
                    }
                    let [byte] = byte;
                    Ok(byte)
                }
            }
        }
    }
}

/// The bytes of the plaintext at two places, read in turn so many times and once before. However often, at most four chunks are opened for it,
/// and none after the first turn, since the two that hold the places are kept.
///
/// It refuses as `StreamReader::seek` and `read` do, with `PastEnd` where a place is past the end of the plaintext, and with
/// `UnexpectedEof` where it is the end. Where the payload and its reader are sound and both places have a byte, it may refuse with
/// `OutOfMemory` alone. After a refusal the reader is as the call that refused leaves it.
pub fn in_turns<S: Suite, R: Seek>(
    reader: &mut StreamReader<S, R>,
    first: u64,
    second: u64,
    times: u64,
) -> Result<(u8, u8), Error>
    ensures bytes { let read = ⟦<StreamReader<S, R> as Read>⟧ in IsTrue (read.tells reader.old) → IsTrue (read.steady reader.old) →
        IfOk result (λ found. (slice_get (read.content reader.old).bytes first ≡ Some found.0)
        × (slice_get (read.content reader.old).bytes second ≡ Some found.1)) }
    ensures why { let read = ⟦<StreamReader<S, R> as Read>⟧ in
        IfErr result (λ e. IsSeekRefusal (OrTooLong R.seek_refuses) e ⊎ read.refuses reader.old e ⊎ ((e ≡ UnexpectedEof)
        × (IsTrue (read.tells reader.old) → IsTrue (read.steady reader.old) →
        (slice_get (read.content reader.old).bytes first ≡ None) ⊎ (slice_get (read.content reader.old).bytes second ≡ None)))) }
    ensures opens { IsTrue (⟦<StreamReader<S, R> as Read>⟧.tells reader.old) → HasPlace (payload_of reader.old) first →
        HasPlace (payload_of reader.old) second → OnOk result (opens_of reader.new ≤ opens_of reader.old + 4) }
    ensures cause { let read = ⟦<StreamReader<S, R> as Read>⟧ in IsTrue (read.tells reader.old) → IsTrue (read.steady reader.old) →
        IsTrue (read.content reader.old).ends_well → IfErr result (λ e. e ≢ OutOfMemory → IsQuiet (read.faults reader.old) (read.faults reader.new) →
        (slice_get (read.content reader.old).bytes first ≡ None) ⊎ (slice_get (read.content reader.old).bytes second ≡ None)) }
{
    let mut one = byte_at(reader, first)?;
    let mut other = byte_at(reader, second)?;
    let mut left = times;
    'turns: while left > 0 {
        one = byte_at(reader, first)?;
        other = byte_at(reader, second)?;
        left -= 1;
    }
    Ok((one, other))
}
