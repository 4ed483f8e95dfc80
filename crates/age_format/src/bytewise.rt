//! A reader of headers that is given one byte after another, and so never takes one too many.

ghost use Rattle.std.specs.Prelude.{◌≡◌, ◌++◌, ◌∷◌, [], IsTrue, IfOk, OnOk};
ghost use Rattle.age_v1.specs.HeaderVerdict.{IsUndecided};
ghost use Rattle.age_format.specs.Progress.{CanGoOn};
ghost use Rattle.age_format.specs.PrivateSteps.{IsStep};

use crate::stanza::Stanza;
use crate::state::{Judged, State, judge};
use std::alloc::{AllocError, Global};
use std::marker::Model;

/// The beginning of each header.
const MAGIC: [u8; 19] = *b"age-encryption.org/";

/// The text of a header so far, which decides nothing yet. It means that text, and whether the legacy form is allowed.
#[derive(Drop)]
pub(crate) struct HeaderReader {
    legacy: bool,
    text: Vec<u8>,
    start: usize,
    state: State,
}

impl Model for HeaderReader {
    ghost use Rattle.age_format.specs.Progress.{IsInProgress, ReaderValue};

    ghost Value = { ReaderValue };

    ghost view = { λ r. record { legacy = r.legacy; text = r.text.items } };

    ghost invariant = { λ r. IsInProgress r.legacy r.state r.start r.text.items };
}

/// What one more byte says.
#[derive(Drop)]
pub(crate) enum Step {
    /// The text decides nothing so far: the reader goes on.
    More(HeaderReader),
    /// The stanzas, the MAC, and the whole text.
    Header(Vec<Stanza>, [u8; 32], Vec<u8>),
    /// The version's line tells another version than v1.
    UnknownVersion,
    /// No header and no unknown version's line goes on from the text.
    Bad,
}

impl HeaderReader {
    /// A reader that read nothing. With `legacy` a stanza's body may lack its final line where that would be empty.
    pub(crate) fn new(alloc: Global, legacy: bool) -> HeaderReader
        ensures { result ≡ record { legacy = legacy; text = [] } }
    {
        HeaderReader {
            legacy,
            text: Vec::new(alloc),
            start: 0,
            state: State::Version,
        }
    }

    /// The text so far, no front of which decides.
    pub(crate) fn text(&self) -> &[u8]
        ensures text { result.now ≡ self.now.text }
        ensures undecided { IsUndecided self.now.legacy self.now.text }
    {
        self.text.as_slice()
    }

    /// Whether a byte goes on a line behind the beginning of each header, so that the text decides nothing with it.
    pub(crate) fn goes_on(&self, byte: u8) -> bool
        ensures { IsTrue result → CanGoOn self.now.text byte }
    {
        if self.text.len() < MAGIC.len() {
            return false;
        }
        32 <= byte && byte <= 126
    }

    /// Takes a byte that goes on a line, where the reader stands: `push` moves it, which takes longer than to read the byte. `AllocError`
    /// comes only for want of memory.
    pub(crate) fn extend(&mut self, byte: u8) -> Result<(), AllocError>
        requires { CanGoOn self.old.text byte }
        ensures { OnOk result (self.new ≡ record { legacy = self.old.legacy; text = self.old.text ++ byte ∷ [] }) }
    {
        self.text.push(byte)?;
        Ok(())
    }

    /// Takes one more byte, and says what the text says with it. `AllocError` comes only for want of memory, and the
    /// reader is gone then.
    pub(crate) fn push(mut self, alloc: Global, byte: u8) -> Result<Step, AllocError>
        ensures { IfOk result (λ step. IsStep self.legacy step (self.text ++ byte ∷ [])) }
    {
        let place = self.text.len();
        if place < MAGIC.len() {
            if byte != MAGIC[place] {
                return Ok(Step::Bad);
            }
        } else if byte == b'\n' {
            return self.end_line(alloc);
        } else if byte < 32 || byte > 126 {
            return Ok(Step::Bad);
        }
        self.text.push(byte)?;
        Ok(Step::More(self))
    }

    /// Takes the line feed that ends a line.
    fn end_line(self, alloc: Global) -> Result<Step, AllocError>
        ensures { IfOk result (λ step. IsStep self.legacy step (self.text ++ 10 ∷ [])) }
    {
        let legacy = self.legacy;
        let mut text = self.text;
        let judged = judge(alloc, legacy, self.state, &text[self.start..])?;
        text.push(b'\n')?;
        match judged {
            Judged::Allowed(state) => {
                let start = text.len();
                Ok(Step::More(HeaderReader {
                    legacy,
                    text,
                    start,
                    state,
                }))
            }
            Judged::Bad => Ok(Step::Bad),
            Judged::UnknownVersion => Ok(Step::UnknownVersion),
            Judged::Header(stanzas, mac) => Ok(Step::Header(stanzas, mac, text)),
        }
    }
}
