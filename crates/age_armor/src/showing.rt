//! What is done with the bytes that a reader shows. Each call is tried again after an interruption, up to 16 times.
ghost use Rattle.std.specs.Prelude.{◌≡◌, ◌+◌, ◌<◌, true, false, IsTrue, length, vec_len, MatchOption, IfOk, IfErr, OnOk, OnErr};
ghost use Rattle.age_error.specs.Refusals.{IsInterruption};
ghost use Rattle.age_io.specs.Stretch.{IsCleanEnd};
ghost use Rattle.age_io.specs.Reading.{TriedAgain};
ghost use Rattle.age_base64.specs.Lines.{Lacks};
ghost use Rattle.age_armor.specs.Showing.{IsAhead};
ghost use Rattle.age_armor.specs.PrivateShowing.{AsksReader, TakesNothing, Lengthens, TakesRun, IsLineEnd};

use crate::decoding::Decoder;
use crate::gathering::decode_ahead;
use age_error::io::{Error, ErrorKind};
use age_io::{BufRead, Read, retried};

/// What was taken of a line.
#[derive(Clone, Copy)]
pub(crate) enum Run {
    /// Nothing, since the text ends there.
    Nothing,
    /// A part of it, without its LF.
    Open,
    /// All of it up to its LF.
    Ended,
}

fn look_once<B: BufRead>(reader: &mut B) -> Result<bool, Error>
    ensures asks { AsksReader ⟦<B as Read>⟧ B.Read.refuses reader.old reader.new result }
    ensures nothing { TakesNothing ⟦<B as Read>⟧ reader.old reader.new result }
    ensures some { IsTrue (B.Read.tells reader.old) → IfOk result (λ is. is ≡ false → 0 < length (B.Read.rest reader.old).bytes) }
    ensures end { IsTrue (B.Read.tells reader.old) → IfOk result (λ is. IsTrue is → IsCleanEnd (B.Read.rest reader.old)) }
{
    let front = reader.fill_buf()?;
    Ok(front.is_empty())
}

/// Whether nothing is left but a clean end.
pub(crate) fn look<B: BufRead>(reader: &mut B) -> Result<bool, Error>
    ensures asks { AsksReader ⟦<B as Read>⟧ (TriedAgain B.Read.refuses) reader.old reader.new result }
    ensures patient { IfErr result (λ e. IsInterruption e → ⊥) }
    ensures nothing { TakesNothing ⟦<B as Read>⟧ reader.old reader.new result }
    ensures some { IsTrue (B.Read.tells reader.old) → IfOk result (λ is. is ≡ false → 0 < length (B.Read.rest reader.old).bytes) }
    ensures end { IsTrue (B.Read.tells reader.old) → IfOk result (λ is. IsTrue is → IsCleanEnd (B.Read.rest reader.old)) }
{
    retried!(_try, look_once(reader))
}

fn show_once<B: BufRead>(
    reader: &mut B,
    decoder: &Decoder,
    ahead: &mut [u8; 768],
) -> Result<usize, Error>
    ensures asks { AsksReader ⟦<B as Read>⟧ B.Read.refuses reader.old reader.new result }
    ensures nothing { TakesNothing ⟦<B as Read>⟧ reader.old reader.new result }
    ensures ahead { IfOk result (λ n. IsAhead ahead.new 0 n (B.shown reader.new)) }
    ensures size { length ahead.new ≡ 768 }
{
    let front = reader.fill_buf()?;
    Ok(decode_ahead(front, decoder, ahead))
}

/// Decodes the first lines that are shown into `ahead`, and answers how many they are. It takes nothing.
pub(crate) fn show_lines<B: BufRead>(
    reader: &mut B,
    decoder: &Decoder,
    ahead: &mut [u8; 768],
) -> Result<usize, Error>
    ensures asks { AsksReader ⟦<B as Read>⟧ (TriedAgain B.Read.refuses) reader.old reader.new result }
    ensures patient { IfErr result (λ e. IsInterruption e → ⊥) }
    ensures nothing { TakesNothing ⟦<B as Read>⟧ reader.old reader.new result }
    ensures ahead { IfOk result (λ n. IsAhead ahead.new 0 n (B.shown reader.new)) }
    ensures size { length ahead.new ≡ 768 }
{
    retried!(_try, show_once(reader, decoder, ahead))
}

// Where the first LF stands.
fn line_end(bytes: &[u8]) -> Option<usize>
    ensures { MatchOption result (Lacks 10 bytes.now) (λ at. IsLineEnd at bytes.now) }
{
    for at in 0..bytes.len() {
        if bytes[at] == b'\n' {
            return Some(at);
        }
    }
    None
}

fn run_once<B: BufRead>(reader: &mut B, line: &mut Vec<u8>) -> Result<Run, Error>
    ensures asks { AsksReader ⟦<B as Read>⟧ B.Read.refuses reader.old reader.new result }
    ensures grows { Lengthens (vec_len line.old) (vec_len line.new) result }
    ensures kept { OnErr result (line.new.items ≡ line.old.items) }
    ensures run { IsTrue (B.Read.tells reader.old) → IfOk result (λ run.
        TakesRun run line.old.items line.new.items (B.Read.rest reader.old) (B.Read.rest reader.new)) }
    ensures moves { IsTrue (B.Read.tells reader.old) → OnOk result
        (B.Read.place reader.new + length line.old.items ≡ B.Read.place reader.old + length line.new.items) }
{
    let front = reader.fill_buf()?;
    if front.is_empty() {
        return Ok(Run::Nothing);
    }
    match line_end(front) {
        Some(at) => {
            line.extend_from_slice(&front[..at + 1])?;
            reader.consume(at + 1);
            Ok(Run::Ended)
        }
        None => {
            let count = front.len();
            line.extend_from_slice(front)?;
            reader.consume(count);
            Ok(Run::Open)
        }
    }
}

/// Appends what is shown of a line, up to its LF.
pub(crate) fn take_run<B: BufRead>(reader: &mut B, line: &mut Vec<u8>) -> Result<Run, Error>
    ensures asks { AsksReader ⟦<B as Read>⟧ (TriedAgain B.Read.refuses) reader.old reader.new result }
    ensures patient { IfErr result (λ e. IsInterruption e → ⊥) }
    ensures grows { Lengthens (vec_len line.old) (vec_len line.new) result }
    ensures kept { OnErr result (line.new.items ≡ line.old.items) }
    ensures run { IsTrue (B.Read.tells reader.old) → IfOk result (λ run.
        TakesRun run line.old.items line.new.items (B.Read.rest reader.old) (B.Read.rest reader.new)) }
    ensures moves { IsTrue (B.Read.tells reader.old) → OnOk result
        (B.Read.place reader.new + length line.old.items ≡ B.Read.place reader.old + length line.new.items) }
{
    retried!(_try, run_once(reader, line))
}
