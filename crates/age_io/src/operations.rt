//! Lists of reads and seeks.
ghost use Rattle.std.specs.Prelude.{◌≡◌, ◌-◌, ◌<◌, IsTrue, length, map, All, IfOk};
ghost use Rattle.age_io.specs.Stretch.{from_place};
ghost use Rattle.age_io.specs.Reading.{IsQuiet};
ghost use Rattle.age_io.specs.Keeping.{SameReader};
ghost use Rattle.age_io.specs.Replies.{seen, replies, Replied, place_after_all, IsNoWant, IsDeviceFault};
ghost use Rattle.age_io.specs.Calls.{AnswersBy, RunsBy};

use crate::seeking::Seek;
use crate::traits::Read;
use age_error::io::{Error, SeekFrom};
use std::alloc::{AllocError, Global};

/// A read or a seek.
#[derive(Clone, Copy, Debug, PartialEq, Eq)]
pub enum Op {
    /// Reads until so many bytes came, or the end.
    Read(usize),
    /// Seeks to this target.
    Seek(SeekFrom),
}

/// What came of an `Op`.
#[derive(Debug, Drop, PartialEq)]
pub enum Answer {
    /// A read gave these bytes. Where they are fewer than it asked for, a clean end follows them.
    Bytes(Vec<u8>),
    /// A seek moved to this place, in bytes from the front.
    At(u64),
    /// The reader refused. A read had got these bytes before; a seek gets none.
    Fault {
        /// What a read got before.
        got: Vec<u8>,
        /// The refusal.
        error: Error,
    },
}

/// Does each read and seek in turn, also after one was refused, and answers what came of each.
///
/// An answer says what the reader's own calls did, in the state in which the operation before it left the reader: a read's
/// bytes are those that it gave, also before a refusal, and they are fewer than it asked for at a clean end alone, which a
/// call that answered 0 into room that isn't empty found; a refusal is that of the next call.
///
/// On a content that ends well, of which no byte is lost yet, the answers are those of a cursor on it, as long as no
/// device fails and no answer is `OutOfMemory`; the reader then stands where the cursor does. Nothing is tried again.
/// `AllocError` says that the list of answers or the bytes in it couldn't grow; the reader then stands after some of the
/// operations.
pub fn run<R: Seek>(alloc: Global, reader: &mut R, ops: &[Op]) -> Result<Vec<Answer>, AllocError>
    ensures keeps { SameReader ⟦<R as Read>⟧ reader.old reader.new }
    ensures count { IfOk result (λ answers. length answers.items ≡ length ops.now) }
    ensures each { IfOk result (λ answers. RunsBy ⟦<R as Read>⟧ R.seek_refuses R.seek_besides ops.now answers.items reader.old reader.new) }
    ensures device { R.faults reader.new ≡ R.faults reader.old →
        IfOk result (λ answers. All (λ a. IsDeviceFault a → ⊥) answers.items) }
    ensures cursor { IsTrue (R.tells reader.old) → IsTrue (R.content reader.old).ends_well →
        R.rest reader.old ≡ from_place (R.place reader.old) (R.content reader.old) →
        IsQuiet (R.faults reader.old) (R.faults reader.new) →
        IfOk result (λ answers. All IsNoWant answers.items →
        map seen answers.items ≡ replies ops.now (R.content reader.old).bytes (R.place reader.old)) }
    ensures stands { IsTrue (R.tells reader.old) → IsTrue (R.content reader.old).ends_well →
        R.rest reader.old ≡ from_place (R.place reader.old) (R.content reader.old) →
        IsQuiet (R.faults reader.old) (R.faults reader.new) →
        IfOk result (λ answers. All IsNoWant answers.items →
        (R.place reader.new ≡ place_after_all ops.now (R.content reader.old).bytes (R.place reader.old))
        × (R.rest reader.new ≡ from_place (R.place reader.new) (R.content reader.old))) }
{
    let mut answers = Vec::new(alloc);
    for op in ops {
        answers.push(answer_of(alloc, reader, *op)?)?;
    }
    Ok(answers)
}

// Does one.
fn answer_of<R: Seek>(alloc: Global, reader: &mut R, op: Op) -> Result<Answer, AllocError>
    ensures keeps { SameReader ⟦<R as Read>⟧ reader.old reader.new }
    ensures device { R.faults reader.new ≡ R.faults reader.old → IfOk result (λ a. IsDeviceFault a → ⊥) }
    ensures came { IfOk result (λ a. AnswersBy ⟦<R as Read>⟧ R.seek_refuses R.seek_besides op a reader.old reader.new) }
    ensures reply { IsTrue (R.tells reader.old) → IsTrue (R.content reader.old).ends_well →
        R.rest reader.old ≡ from_place (R.place reader.old) (R.content reader.old) →
        IsQuiet (R.faults reader.old) (R.faults reader.new) →
        IfOk result (λ a. IsNoWant a →
        Replied op (R.content reader.old) (R.place reader.old) (R.place reader.new) (R.rest reader.new) a) }
{
    match op {
        Op::Read(count) => read_up_to(alloc, reader, count),
        Op::Seek(to) => Ok(match reader.seek(to) {
            Ok(place) => Answer::At(place),
            Err(error) => Answer::Fault {
                got: Vec::new(alloc),
                error,
            },
        }),
    }
}

// Reads until so many bytes came, or the end.
fn read_up_to<R: Seek>(alloc: Global, reader: &mut R, count: usize) -> Result<Answer, AllocError>
    ensures keeps { SameReader ⟦<R as Read>⟧ reader.old reader.new }
    ensures device { R.faults reader.new ≡ R.faults reader.old → IfOk result (λ a. IsDeviceFault a → ⊥) }
    ensures came { IfOk result (λ a. AnswersBy ⟦<R as Read>⟧ R.seek_refuses R.seek_besides (Op.Read count) a reader.old reader.new) }
    ensures reply { IsTrue (R.tells reader.old) → IsTrue (R.content reader.old).ends_well →
        R.rest reader.old ≡ from_place (R.place reader.old) (R.content reader.old) →
        IsQuiet (R.faults reader.old) (R.faults reader.new) →
        IfOk result (λ a. IsNoWant a →
        Replied (Op.Read count) (R.content reader.old) (R.place reader.old) (R.place reader.new) (R.rest reader.new) a) }
{
    let mut got = Vec::new(alloc);
    let mut room = [0; 1024];
    'reads: while got.len() < count {
        let wanted = (count - got.len()).min(room.len());
        let part = &mut room[..wanted];
        match reader.read(part) {
            Ok(0) => break,
            Ok(more) => got.extend_from_slice(&part[..more])?,
            Err(error) => return Ok(Answer::Fault { got, error }),
        }
    }
    Ok(Answer::Bytes(got))
}
