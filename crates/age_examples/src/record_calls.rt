//! Lists of calls for records.
ghost use Rattle.std.specs.Prelude.{◌≡◌, ℕ, List, IsTrue, IfOk};
ghost use Rattle.age.specs.Reading.{IsQuiet};
ghost use Rattle.age.specs.Stretch.{whole};
ghost use Rattle.age.specs.StreamReader.{content_of, faults_of, tells_of};
ghost use Rattle.age_records.specs.Records.{SameRecords, reader_of};
ghost use Rattle.age_records.specs.Text.{records_text};
ghost use Rattle.age_examples.specs.RecordAnswers.{Answered};

use age::io::Seek;
use age::suite::Suite;
use age_records::{RecordError, Records};
use std::alloc::{AllocError, Global};

/// Asks for each of these records in turn, also after one was refused, and answers what came of each. The records stay as they are,
/// wherever their payload's reader stands then, also where the call refuses.
///
/// Where the plaintext is the text of records and the device doesn't fail, each answer is the record that is asked for, or that
/// there is none, or want of memory. The call itself refuses only where the list of answers couldn't grow.
pub fn get_each<S: Suite, R: Seek>(
    alloc: Global,
    records: &mut Records<S, R>,
    calls: &[u64],
) -> Result<Vec<Result<Vec<u8>, RecordError>>, AllocError>
    ensures same { SameRecords records.old records.new }
    ensures answers { (written : List (List ℕ)) → IsTrue (tells_of (reader_of records.old)) →
        content_of (reader_of records.old) ≡ whole (records_text written) →
        IsQuiet (faults_of (reader_of records.old)) (faults_of (reader_of records.new)) →
        IfOk result (λ answers. Answered written calls.now answers.items) }
{
    let mut answers = Vec::new(alloc);
    for index in calls {
        answers.push(records.get(*index))?;
    }
    Ok(answers)
}
