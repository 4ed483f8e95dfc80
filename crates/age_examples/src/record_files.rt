//! Records in a file, bare or in armor.
ghost use Rattle.std.specs.Prelude.{◌≡◌, ◌&&◌, ℕ, List, IsTrue, MatchResult};
ghost use Rattle.age.specs.Armor.{Carries};
ghost use Rattle.age.specs.Identities.{FirstAnswer, IsFileFor};
ghost use Rattle.age_records.specs.Text.{records_text};
ghost use Rattle.age_examples.specs.RecordFiles.{AreThese, IsOpenWant};

use age::Identity;
use age::armor::ArmoredReader;
use age::io::{BufReader, Seek};
use age::streaming::{FileError, open_text};
use age::suite::Suite;
use age_records::{RecordError, Records};
use std::alloc::Global;

/// Why records of a file aren't given.
#[derive(Debug, Drop)]
pub enum RecordFileError {
    /// The file isn't written or opened.
    File(FileError),
    /// The records in its plaintext aren't opened, or the one that is asked for isn't given.
    Record(RecordError),
}

/// Opens the records in the file that `reader` gives from where it stands, bare or in armor, which one of the identities decrypts.
///
/// Where what the reader still has ends well and carries such a file of the text of records, and its device never fails, these are
/// they, and it is refused for want of memory alone. It refuses with `File` as `open_text` does, and with `Record` as
/// `Records::open`; the reader is gone then.
pub fn records_of<S: Suite, I: Identity, R: Seek + Drop>(
    alloc: Global,
    identities: &mut [I],
    reader: R,
) -> Result<Records<S, ArmoredReader<BufReader<R>>>, RecordFileError>
    ensures { IsTrue (R.tells reader && R.steady reader) → IsTrue (R.rest reader).ends_well → ((r : R) → R.faults r ≡ 0) →
        (file : List ℕ) (records : List (List ℕ)) → Carries (R.rest reader).bytes file →
        IsFileFor S.seal_of (FirstAnswer I.unwraps identities.old) (records_text records) file →
        MatchResult result (AreThese records) IsOpenWant }
{
    let stream = match open_text::<S, I, R>(alloc, identities, reader) {
        Err(error) => return Err(RecordFileError::File(error)),
        Ok(stream) => stream,
    };
    match Records::open(alloc, stream) {
        Err(error) => Err(RecordFileError::Record(error)),
        Ok(records) => Ok(records),
    }
}
