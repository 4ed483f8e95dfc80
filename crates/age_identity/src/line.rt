//! The line that is being read.
ghost use Rattle.std.specs.Prelude.{◌≡◌, ◌++◌, [], ◌∷◌, ℕ, List, true, false, IfOk};
ghost use Rattle.std.specs.Str.Lines.{strip_carriage_return};

use crate::comment::Utf8Check;
use crate::judging::{Judged, judge};
use std::alloc::{AllocError, Global};

/// A line so far.
#[derive(Drop)]
pub(crate) enum Line {
    /// Its bytes.
    Kept(Vec<u8>),
    /// A comment, of which no byte is kept.
    Comment(Utf8Check),
}

// A line without the carriage return at its end, if it has one.
fn without_cr(line: &[u8]) -> &[u8]
    ensures { result.now ≡ strip_carriage_return line.now }
{
    let Some((last, before)) = line.split_last() else {
        return line;
    };
    if *last == b'\r' { before } else { line }
}

impl Line {
    ghost use Rattle.age_identity.specs.Judging.{IsJudged};
    ghost use Rattle.age_identity.specs.Progress.{IsLine, without_end};

    /// A line of which nothing was read.
    pub(crate) fn new(alloc: Global) -> Line
        ensures { IsLine result [] }
    {
        Line::Kept(Vec::new(alloc))
    }

    /// The line with one more byte. `AllocError` where memory for it is refused.
    pub(crate) fn push(self, byte: u8) -> Result<Line, AllocError>
        ensures { (last : List ℕ) → IsLine self last → IfOk result (λ line. IsLine line (last ++ byte ∷ [])) }
    {
        match self {
            Line::Kept(bytes) => {
                if bytes.is_empty() && byte == b'#' {
                    return Ok(Line::Comment(Utf8Check::new().push(byte)));
                }
                let mut bytes = bytes;
                bytes.push(byte)?;
                Ok(Line::Kept(bytes))
            }
            Line::Comment(check) => Ok(Line::Comment(check.push(byte))),
        }
    }

    /// Whether nothing of it was read.
    pub(crate) fn is_empty(&self) -> bool
        ensures { (last : List ℕ) → IsLine self.now last → (result ≡ true → last ≡ []) × (result ≡ false → last ≡ [] → ⊥) }
    {
        match self {
            Line::Kept(bytes) => bytes.is_empty(),
            Line::Comment(_) => false,
        }
    }

    /// What the line is. Where a line feed ends it, a carriage return before that is no part of it.
    pub(crate) fn judge<S>(self, alloc: Global, ended: bool) -> Result<Judged<S>, AllocError>
        ensures { (last : List ℕ) → IsLine self last → IfOk result (λ judged. IsJudged judged (without_end ended last)) }
    {
        match self {
            Line::Kept(bytes) => {
                let line = bytes.as_slice();
                if ended {
                    judge(alloc, without_cr(line))
                } else {
                    judge(alloc, line)
                }
            }
            Line::Comment(check) => {
                if check.is_utf8() {
                    Ok(Judged::Passed)
                } else {
                    Ok(Judged::Bad)
                }
            }
        }
    }
}
