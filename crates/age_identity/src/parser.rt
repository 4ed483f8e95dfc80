//! A reader of identity files that is given one byte after another.
ghost use Rattle.std.specs.Prelude.{◌≡◌, ◌⊎◌, ◌+◌, ◌<◌, ◌^◌, ◌++◌, [], ◌∷◌, ℕ, List, length, map, MatchResult};
ghost use Rattle.std.specs.Str.Lines.{lines};
ghost use Rattle.age_error.specs.declared.io.Error.TheVariants.{OutOfMemory, NotIdentity};
ghost use Rattle.age_identity.specs.Entries.{AreEntries, IsBadLine, entry_of};
ghost use Rattle.age_identity.specs.Judging.{IsJudged};

use crate::entry::IdentityFileEntry;
use crate::judging::Judged;
use crate::line::Line;
use age_error::io::Error;
use std::alloc::Global;

/// The entries of the lines so far, how many lines those are, and the line after them. It takes the memory of one line and of the
/// entries.
#[derive(Drop)]
pub(crate) struct Parser<S> {
    entries: Vec<IdentityFileEntry<S>>,
    finished: usize,
    line: Line,
}

impl<S> Parser<S> {
    ghost use Rattle.age_identity.specs.Progress.{IsAt, RefusesLine, RefusesLastLine};

    /// A parser that read nothing.
    pub(crate) fn new(alloc: Global) -> Parser<S>
        ensures { IsAt result [] }
    {
        Parser {
            entries: Vec::new(alloc),
            finished: 0,
            line: Line::new(alloc),
        }
    }

    /// Takes one more byte. It refuses with `NotIdentity` at the line feed of a line that is bad, and for want of memory.
    pub(crate) fn push(self, alloc: Global, byte: u8) -> Result<Parser<S>, Error>
        ensures { (text : List ℕ) → length text < 2 ^ 63 → IsAt self text →
            MatchResult result (λ p. IsAt p (text ++ byte ∷ [])) (λ e. RefusesLine e (text ++ byte ∷ [])) }
    {
        if byte == b'\n' {
            return self.end_line(alloc);
        }
        let Parser {
            entries,
            finished,
            line,
        } = self;
        match line.push(byte) {
            Err(_) => Err(Error::OutOfMemory),
            Ok(line) => Ok(Parser {
                entries,
                finished,
                line,
            }),
        }
    }

    // Takes a line feed.
    fn end_line(self, alloc: Global) -> Result<Parser<S>, Error>
        ensures { (text : List ℕ) → length text < 2 ^ 63 → IsAt self text →
            MatchResult result (λ p. IsAt p (text ++ 10 ∷ [])) (λ e. RefusesLine e (text ++ 10 ∷ [])) }
    {
        let Parser {
            entries,
            finished,
            line,
        } = self;
        // It is exact: the contract speaks of texts of fewer than 2^63 bytes.
        let number = finished.saturating_add(1);
        let Ok(judged) = line.judge(alloc, true) else {
            return Err(Error::OutOfMemory);
        };
        match add(entries, number, judged) {
            Err(e) => Err(e),
            Ok(entries) => Ok(Parser {
                entries,
                finished: number,
                line: Line::new(alloc),
            }),
        }
    }

    /// Takes more bytes, one after the other.
    pub(crate) fn push_all(self, alloc: Global, bytes: &[u8]) -> Result<Parser<S>, Error>
        ensures { (text : List ℕ) → length text + length bytes.now < 2 ^ 63 → IsAt self text →
            MatchResult result (λ p. IsAt p (text ++ bytes.now))
            (λ e. (front : List ℕ) × (more : List ℕ) × (bytes.now ≡ front ++ more) × RefusesLine e (text ++ front)) }
    {
        let mut parser = self;
        for byte in bytes {
            match parser.push(alloc, *byte) {
                Err(e) => return Err(e),
                Ok(next) => parser = next,
            }
        }
        Ok(parser)
    }

    /// The entries of the whole text, whose end ends its last line. It refuses with `NotIdentity` where that is bad, and for want of
    /// memory.
    pub(crate) fn finish(self, alloc: Global) -> Result<Vec<IdentityFileEntry<S>>, Error>
        ensures { (text : List ℕ) → length text < 2 ^ 63 → IsAt self text →
            MatchResult result (λ entries. AreEntries (lines text) (map (λ e. entry_of e) entries.items)) (λ e. RefusesLastLine e text) }
    {
        let Parser {
            entries,
            finished,
            line,
        } = self;
        if line.is_empty() {
            return Ok(entries);
        }
        // It is exact: the contract speaks of texts of fewer than 2^63 bytes.
        let number = finished.saturating_add(1);
        match line.judge(alloc, false) {
            Err(_) => Err(Error::OutOfMemory),
            Ok(judged) => add(entries, number, judged),
        }
    }
}

// Adds what was found of a line of this number.
fn add<S>(
    entries: Vec<IdentityFileEntry<S>>,
    number: usize,
    judged: Judged<S>,
) -> Result<Vec<IdentityFileEntry<S>>, Error>
    ensures { (before : List (List ℕ)) (line : List ℕ) → AreEntries before (map (λ e. entry_of e) entries.items) → IsJudged judged line →
        MatchResult result (λ more. AreEntries (before ++ line ∷ []) (map (λ e. entry_of e) more.items))
        (λ e. (e ≡ OutOfMemory) ⊎ ((e ≡ NotIdentity number) × IsBadLine line)) }
{
    match judged {
        Judged::Passed => Ok(entries),
        Judged::Bad => Err(Error::NotIdentity { line: number }),
        Judged::Found(entry) => {
            let mut entries = entries;
            entries.push(entry)?;
            Ok(entries)
        }
    }
}
