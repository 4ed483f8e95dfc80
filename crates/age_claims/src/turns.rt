//! Reads at two places in turn.
ghost use Rattle.std.specs.Prelude.{◌≡◌, ◌+◌, ◌≤◌, ℕ, IsTrue, length, OnOk};
ghost use Rattle.age.specs.StreamReader.{opens_of, payload_of, tells_of, HasChunk};
ghost use Rattle.age_claims.specs.Claims.{IsInOne};

use age::io::{Error, Seek, SeekFrom};
use age::stream::StreamReader;
use age::suite::Suite;

// One turn.
fn both<S: Suite, R: Seek>(
    reader: &mut StreamReader<S, R>,
    one: u64,
    first: &mut [u8],
    other: u64,
    second: &mut [u8],
) -> Result<(), Error>
    ensures tells { tells_of reader.new ≡ tells_of reader.old }
    ensures payload { IsTrue (tells_of reader.old) → payload_of reader.new ≡ payload_of reader.old }
    ensures opens { IsTrue (tells_of reader.old) → (a b : ℕ) → IsInOne (length (payload_of reader.old).bytes) one (length first.new) a →
        IsInOne (length (payload_of reader.old).bytes) other (length second.new) b → OnOk result
        ((opens_of reader.new ≤ opens_of reader.old + 4) × HasChunk reader.new a × HasChunk reader.new b) }
    ensures none { IsTrue (tells_of reader.old) → (a b : ℕ) → IsInOne (length (payload_of reader.old).bytes) one (length first.new) a →
        IsInOne (length (payload_of reader.old).bytes) other (length second.new) b → HasChunk reader.old a → HasChunk reader.old b →
        opens_of reader.new ≡ opens_of reader.old }
{
    match reader.read_at(SeekFrom::Start(one), first) {
        Err(e) => Err(e),
        Ok(_) => match reader.read_at(SeekFrom::Start(other), second) {
            Err(e) => Err(e),
            Ok(_) => Ok(()),
        },
    }
}

/// Reads at two places of a payload's plaintext in turn, `times` times and once before, each into room that ends in the chunk in which it begins
/// (`IsInOne`). However often that is, each of the two chunks is opened once, by at most two calls of the suite, as one in the middle and as the
/// last: so a success came of at most four such calls, and the reader has both chunks then. It stops at the first refusal, which is that of
/// `StreamReader::read_at`.
pub fn read_in_turn<S: Suite, R: Seek>(
    reader: &mut StreamReader<S, R>,
    one: u64,
    first: &mut [u8],
    other: u64,
    second: &mut [u8],
    times: u64,
) -> Result<(), Error>
    ensures { IsTrue (tells_of reader.old) → (a b : ℕ) → IsInOne (length (payload_of reader.old).bytes) one (length first.new) a →
        IsInOne (length (payload_of reader.old).bytes) other (length second.new) b → OnOk result
        ((opens_of reader.new ≤ opens_of reader.old + 4) × HasChunk reader.new a × HasChunk reader.new b) }
{
    match both(reader, one, first, other, second) {
        Err(e) => return Err(e),
        Ok(()) => {}
    }
    let mut left = times;
    'turns: while left > 0 {
        match both(reader, one, first, other, second) {
            Err(e) => return Err(e),
            Ok(()) => {}
        }
        left -= 1;
    }
    Ok(())
}
