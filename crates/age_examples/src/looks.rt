//! Looks at places of an armored text that was read before.
ghost use Rattle.std.specs.Prelude.{◌≡◌, ◌≢◌, ◌+◌, ◌*◌, ◌≤◌, ◌⊎◌, IsTrue, length, map, Some, slice_get, None, IfOk, IfErr, OnOk};
ghost use Rattle.age.specs.ArmorMarks.{LearnsMore};
ghost use Rattle.age.specs.ArmorSeeking.{OrAstray};
ghost use Rattle.age.specs.ArmorReader.{inner_of, armored_content, lines_of, furthest_of, notes_all, marks_of};
ghost use Rattle.age.specs.Cursor.{IsSeekRefusal};
ghost use Rattle.age.specs.ErrorVariants.{OutOfMemory, UnexpectedEof};
ghost use Rattle.age.specs.Reading.{AddsNoReason, IsQuiet};
ghost use Rattle.age_examples.specs.Looks.{AreWithin, IsLook, IsOneOutside};

use age::armor::ArmoredReader;
use age::io::{BufRead, Error, Read, Seek, SeekFrom};
use std::alloc::Global;

// Reads the byte at this place, if there is one.
fn look<R: BufRead + Seek>(
    reader: &mut ArmoredReader<R>,
    place: u64,
    byte: &mut [u8; 1],
) -> Result<usize, Error>
    ensures tells { R.Read.tells (inner_of reader.new) ≡ R.Read.tells (inner_of reader.old) }
    ensures steady { R.Read.steady (inner_of reader.new) ≡ R.Read.steady (inner_of reader.old) }
    ensures faults { R.Read.faults (inner_of reader.old) ≤ R.Read.faults (inner_of reader.new) }
    ensures learns { LearnsMore (marks_of reader.old) (marks_of reader.new) }
    ensures lines { IsTrue (R.Read.tells (inner_of reader.old)) → IsTrue (R.Read.steady (inner_of reader.old)) → IsTrue (notes_all reader.old) →
        place ≤ furthest_of reader.old → OnOk result (lines_of reader.new ≤ lines_of reader.old + 1025) }
    ensures content { IsTrue (R.Read.tells (inner_of reader.old)) → armored_content reader.new ≡ armored_content reader.old }
    ensures byte { IsTrue (R.Read.tells (inner_of reader.old)) → IsTrue (R.Read.steady (inner_of reader.old)) →
        IfOk result (λ n. IsLook (armored_content reader.old).bytes place n byte.new) }
    ensures why { IfErr result (λ e. IsSeekRefusal (OrAstray R.Seek.seek_refuses) e ⊎ ⟦<ArmoredReader<R> as Read>⟧.refuses reader.old e) }
    ensures narrows { OnOk result (AddsNoReason ⟦<ArmoredReader<R> as Read>⟧.refuses reader.old reader.new) }
    ensures cause { IsTrue (R.Read.tells (inner_of reader.old)) → IsTrue (R.Read.steady (inner_of reader.old))
        → IsTrue (armored_content reader.old).ends_well →
        IfErr result (λ e. e ≢ OutOfMemory → IsQuiet (R.Read.faults (inner_of reader.old)) (R.Read.faults (inner_of reader.new)) →
        slice_get (armored_content reader.old).bytes place ≡ None) }
{
    match reader.seek(SeekFrom::Start(place)) {
        Err(error) => Err(error),
        Ok(_) => reader.read(byte),
    }
}

/// The bytes of what an armored text carries at these places, in their order. Where the text was read before up to each of them, each look
/// takes at most 1,025 lines of it, wherever they are, as long as no memory for a mark is refused.
///
/// It refuses as `ArmoredReader::seek` and `read` do, with `PastEnd` where a place is past the end of what the text carries, with
/// `UnexpectedEof` where it is the end, and with `OutOfMemory`, which alone it may refuse with where the text and its reader are sound
/// and there is a byte at each place. After a refusal the reader is as the call that refused leaves it.
pub fn bytes_at<R: BufRead + Seek>(
    alloc: Global,
    reader: &mut ArmoredReader<R>,
    places: &[u64],
) -> Result<Vec<u8>, Error>
    ensures bytes { IsTrue (R.Read.tells (inner_of reader.old)) → IsTrue (R.Read.steady (inner_of reader.old)) →
        IfOk result (λ bytes. map (slice_get (armored_content reader.old).bytes) places.now ≡ map Some bytes.items) }
    ensures why { IfErr result (λ e. (e ≡ OutOfMemory) ⊎ IsSeekRefusal (OrAstray R.Seek.seek_refuses) e
        ⊎ ⟦<ArmoredReader<R> as Read>⟧.refuses reader.old e ⊎ ((e ≡ UnexpectedEof)
        × (IsTrue (R.Read.tells (inner_of reader.old)) → IsTrue (R.Read.steady (inner_of reader.old))
        → IsOneOutside (armored_content reader.old).bytes places.now))) }
    ensures lines { IsTrue (R.Read.tells (inner_of reader.old)) → IsTrue (R.Read.steady (inner_of reader.old)) → IsTrue (notes_all reader.new) →
        AreWithin (furthest_of reader.old) places.now → OnOk result (lines_of reader.new ≤ lines_of reader.old + 1025 * length places.now) }
    ensures cause { IsTrue (R.Read.tells (inner_of reader.old)) → IsTrue (R.Read.steady (inner_of reader.old))
        → IsTrue (armored_content reader.old).ends_well →
        IfErr result (λ e. e ≢ OutOfMemory → IsQuiet (R.Read.faults (inner_of reader.old)) (R.Read.faults (inner_of reader.new)) →
        IsOneOutside (armored_content reader.old).bytes places.now) }
{
    let mut bytes = Vec::new(alloc);
    let mut rest = places;
    'looks: while let Some((place, tail)) = rest.split_first() {
        let mut byte = [0];
        match look(reader, *place, &mut byte) {
            Err(error) => return Err(error),
            Ok(count) => {
                if count == 0 {
                    return Err(Error::UnexpectedEof);
                }
            }
        }
        bytes.extend_from_slice(&byte)?;
        rest = tail;
    }
    Ok(bytes)
}
