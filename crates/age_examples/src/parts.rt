//! The bytes from any place of a file's plaintext.
ghost use Rattle.std.specs.Prelude.{◌≡◌, ◌&&◌, ◌⊎◌, ℕ, ◌<◌, IsTrue, List, length, take, drop, MatchResult};
ghost use Rattle.age.specs.Armor.{Carries};
ghost use Rattle.age.specs.ErrorVariants.{PastEnd};
ghost use Rattle.age.specs.FileErrorVariants.{Io};
ghost use Rattle.age.specs.FileErrors.{IsWant};
ghost use Rattle.age.specs.Identities.{FirstAnswer, IsFileFor};

use age::Identity;
use age::io::{Seek, SeekFrom, room_for};
use age::streaming::{FileError, open_text};
use age::suite::Suite;
use std::alloc::Global;

/// The bytes of the plaintext from `place` on, `count` of them or fewer at its end. Only the chunks that hold them are opened.
///
/// Where what the reader still has ends well and carries a file for the identities, and its device never fails, a success is these
/// bytes, and a refusal is want of memory, or `Io(PastEnd)` for a place after the end of the plaintext. It refuses as `open_text` and
/// `StreamReader::read_at` do, and takes memory for the bytes before it reads any.
pub fn part_of<S: Suite, I: Identity, R: Seek + Drop>(
    alloc: Global,
    identities: &mut [I],
    place: u64,
    count: usize,
    reader: R,
) -> Result<Vec<u8>, FileError>
    ensures { IsTrue (R.tells reader && R.steady reader) → IsTrue (R.rest reader).ends_well → ((r : R) → R.faults r ≡ 0) →
        (file plain : List ℕ) → Carries (R.rest reader).bytes file → IsFileFor S.seal_of (FirstAnswer I.unwraps identities.old) plain file →
        MatchResult result (λ part. part.items ≡ take count (drop place plain))
        (λ e. IsWant e ⊎ ((e ≡ Io PastEnd) × (length plain < place))) }
{
    let mut stream = match open_text::<S, I, R>(alloc, identities, reader) {
        Err(error) => return Err(error),
        Ok(stream) => stream,
    };
    let mut part = match room_for(alloc, count) {
        Err(error) => return Err(FileError::Io(error)),
        Ok(part) => part,
    };
    match stream.read_at(SeekFrom::Start(place), &mut part) {
        Err(error) => Err(FileError::Io(error)),
        Ok(got) => {
            part.truncate(got);
            Ok(part)
        }
    }
}
