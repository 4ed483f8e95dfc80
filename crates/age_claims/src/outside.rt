//! A place that a payload hasn't.
ghost use Rattle.std.specs.Prelude.{◌≡◌, IsTrue, IfOk, IfErr};
ghost use Rattle.age.specs.ErrorVariants.{PastEnd};
ghost use Rattle.age.specs.Parts.{EndsBefore};
ghost use Rattle.age.specs.Reading.{TriedAgain};
ghost use Rattle.age.specs.StreamReader.{inner_of, payload_of, tells_of};
ghost use Rattle.age_claims.specs.Claims.{ReachesPlace};

use age::io::{Error, Seek, SeekFrom};
use age::stream::StreamReader;
use age::suite::Suite;

/// Reads what stands from a place of a payload's plaintext on, however bad the payload is.
///
/// - `inside`: a success is at a place that the plaintext has, by the payload's length, or at its end.
/// - `outside`: `PastEnd` says that by its length the plaintext ends before the place, over a reader whose own reads never say `PastEnd`.
pub fn read_inside<S: Suite, R: Seek>(
    reader: &mut StreamReader<S, R>,
    place: u64,
    buf: &mut [u8],
) -> Result<usize, Error>
    ensures inside { IsTrue (tells_of reader.old) → IfOk result (λ count. ReachesPlace place (payload_of reader.old)) }
    ensures outside { IsTrue (tells_of reader.old) → (TriedAgain R.refuses (inner_of reader.old) PastEnd → ⊥) →
        IfErr result (λ e. e ≡ PastEnd → EndsBefore place (payload_of reader.old)) }
{
    reader.read_at(SeekFrom::Start(place), buf)
}
