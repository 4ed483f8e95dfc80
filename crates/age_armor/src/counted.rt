//! A reader whose taken bytes are counted.
ghost use Rattle.std.specs.Prelude.{◌≡◌, ◌≢◌, ◌+◌, ◌≤◌, ◌<◌, true, false, IsTrue, if◌then◌else◌, length, take, IfOk, IfErr, OnOk, OnErr, Ok};
ghost use Rattle.age_error.specs.declared.io.Error.TheVariants.{OutOfMemory};
ghost use Rattle.age_io.specs.Stretch.{IsCleanEnd, IsFault};
ghost use Rattle.age_io.specs.Reading.{Delivers, IsQuiet, TriedAgain, most_faults};
ghost use Rattle.std.specs.List.{list_all};
ghost use Rattle.age_v1.specs.DeliveredArmor.{is_space as is_white};
ghost use Rattle.age_armor.specs.Showing.{IsAhead};

use crate::decoding::Decoder;
use crate::encoding::{LINE, LINE_TEXT};
use crate::showing::{Run, look, show_lines, take_run};
use age_error::bytes::known_bytes;
use age_error::io::{ArmoredReadError, Error};
use age_io::{BufRead, Read, fill, read_retrying};

/// A reader of a text, and how many bytes and lines were taken from it.
#[derive(Drop)]
pub(crate) struct Counted<R: BufRead> {
    pub(crate) inner: R,
    // How many bytes were taken: exactly so of a reader that tells its bytes, which has fewer than 2^63. Any other may
    // have more, and the count stays at 2^64 - 1.
    pub(crate) taken: u64,
    // How many lines were taken, as far as the number goes.
    pub(crate) lines: u64,
    // The bytes of lines that the inner reader shows first and that aren't taken yet: `left` lines, from `next` on. (Both numbers
    // change with each line. Side by side they would be read as one, which waits until both are written.)
    pub(crate) next: usize,
    pub(crate) ahead: [u8; 768],
    pub(crate) left: usize,
    ghost behind: { IsTrue (R.Read.tells inner) → taken ≤ R.Read.place inner },
    ghost size: { length ahead ≡ 768 },
    ghost shows: { IsAhead ahead next left (R.shown inner) },
    ghost unspent: { 0 < left → R.Read.faults inner < most_faults },
}

// Space, tab, LF, FF or CR.
fn is_space(byte: u8) -> bool
    ensures { result ≡ is_white byte }
{
    matches!(byte, b' ' | b'\t' | b'\n' | 12 | b'\r')
}

fn are_spaces(bytes: &[u8]) -> bool
    ensures { result ≡ list_all is_white bytes.now }
{
    let mut rest = bytes;
    while let Some((byte, tail)) = rest.split_first() {
        if !is_space(*byte) {
            return false;
        }
        rest = tail;
    }
    true
}

impl<R: BufRead> Counted<R> {
    ghost use Rattle.age_armor.specs.PrivateCounting.{Kept, TakesNone, TakesLine, IsCutShort, IsFew, CountsOne, one_line_more};
    ghost use Rattle.age_armor.specs.PrivateShowing.{TakesFull};
    ghost use Rattle.age_armor.specs.Stages.{NamesEnding};
    ghost use Rattle.age_armor.specs.Refusing.{OrEnd};
    ghost use Rattle.age_v1.specs.DeliveredArmor.{trailing, ends_in, Clean};

    /// Whether nothing is left but a clean end.
    #[tactic(auto, using(crate::proofs::AheadLines::ahead_none))]
    pub(crate) fn is_at_end(&mut self) -> Result<bool, Error>
        ensures kept { Kept ⟦<R as Read>⟧ self.old.inner self.old.taken self.new.inner self.new.taken result }
        ensures none { TakesNone self.old self.new result }
        ensures some { IsTrue (R.Read.tells self.old.inner) → IfOk result (λ is. is ≡ false → 0 < length (R.Read.rest self.old.inner).bytes) }
        ensures end { IsTrue (R.Read.tells self.old.inner) → IfOk result (λ is. IsTrue is → IsCleanEnd (R.Read.rest self.old.inner)) }
        ensures why { IfErr result (λ e. e ≢ OutOfMemory → TriedAgain R.Read.refuses self.old.inner e) }
        ensures cause { IsTrue (R.Read.tells self.old.inner)
            → IfErr result (λ e. e ≢ OutOfMemory → IsQuiet (R.Read.faults self.old.inner) (R.Read.faults self.new.inner) →
            IsFault (R.Read.rest self.old.inner)) }
    {
        self.left = 0;
        look(&mut self.inner)
    }

    /// Reads as the inner reader does.
    #[tactic(auto, using(crate::proofs::AheadLines::ahead_none))]
    pub(crate) fn read(&mut self, buf: &mut [u8]) -> Result<usize, Error>
        requires { 0 < length buf.old }
        ensures kept { Kept ⟦<R as Read>⟧ self.old.inner self.old.taken self.new.inner self.new.taken result }
        ensures lines { self.new.lines ≡ self.old.lines }
        ensures count { IfOk result (λ n. n ≤ length buf.new) }
        ensures taken { IsTrue (R.Read.tells self.old.inner) → IfOk result (λ n. self.new.taken ≡ self.old.taken + n) }
        ensures bytes { IsTrue (R.Read.tells self.old.inner)
            → IfOk result (λ n. Delivers (take n buf.new) (R.Read.rest self.old.inner) (R.Read.rest self.new.inner)) }
        ensures end { IsTrue (R.Read.tells self.old.inner) → IfOk result (λ n. n ≡ 0 → IsCleanEnd (R.Read.rest self.old.inner)) }
        ensures why { IfErr result (λ e. e ≢ OutOfMemory → TriedAgain R.Read.refuses self.old.inner e) }
        ensures cause { IsTrue (R.Read.tells self.old.inner)
            → IfErr result (λ e. e ≢ OutOfMemory → IsQuiet (R.Read.faults self.old.inner) (R.Read.faults self.new.inner) →
            IsFault (R.Read.rest self.old.inner)) }
    {
        self.left = 0;
        match read_retrying(&mut self.inner, buf) {
            Err(e) => Err(e),
            Ok(count) => {
                self.taken = self.taken.saturating_add(count as u64);
                Ok(count)
            }
        }
    }

    /// Fills `front`, or answers that there are fewer bytes.
    #[tactic(auto, using(crate::proofs::AheadLines::ahead_none))]
    pub(crate) fn take_front(&mut self, front: &mut [u8]) -> Result<bool, Error>
        requires { 0 < length front.old }
        ensures kept { Kept ⟦<R as Read>⟧ self.old.inner self.old.taken self.new.inner self.new.taken result }
        ensures lines { self.new.lines ≡ self.old.lines }
        ensures taken { IsTrue (R.Read.tells self.old.inner)
            → IfOk result (λ whole. IsTrue whole → self.new.taken ≡ self.old.taken + length front.new) }
        ensures bytes { IsTrue (R.Read.tells self.old.inner)
            → IfOk result (λ whole. IsTrue whole → Delivers front.new (R.Read.rest self.old.inner) (R.Read.rest self.new.inner)) }
        ensures few { IsTrue (R.Read.tells self.old.inner)
            → IfOk result (λ whole. whole ≡ false → IsFew (length front.new) true (R.Read.rest self.old.inner)) }
        ensures why { IfErr result (λ e. e ≢ OutOfMemory → TriedAgain R.Read.refuses self.old.inner e) }
        ensures cause { IsTrue (R.Read.tells self.old.inner)
            → IfErr result (λ e. e ≢ OutOfMemory → IsQuiet (R.Read.faults self.old.inner) (R.Read.faults self.new.inner) →
            IsFew (length front.new) false (R.Read.rest self.old.inner)) }
    {
        self.left = 0;
        let mut count = 0;
        let answer = fill(&mut self.inner, front, &mut count);
        self.taken = self.taken.saturating_add(count as u64);
        match answer {
            Err(e) => Err(e),
            Ok(()) => Ok(count == front.len()),
        }
    }

    // Decodes the lines that are shown, where none is left. It takes nothing.
    #[tactic(auto, using(crate::proofs::AheadLines::ahead_none))]
    fn look_ahead(&mut self, decoder: &Decoder) -> Result<(), Error>
        ensures kept { Kept ⟦<R as Read>⟧ self.old.inner self.old.taken self.new.inner self.new.taken result }
        ensures none { TakesNone self.old self.new result }
        ensures why { IfErr result (λ e. e ≢ OutOfMemory → TriedAgain R.Read.refuses self.old.inner e) }
        ensures cause { IsTrue (R.Read.tells self.old.inner)
            → IfErr result (λ e. e ≢ OutOfMemory → IsQuiet (R.Read.faults self.old.inner) (R.Read.faults self.new.inner) →
            IsFault (R.Read.rest self.old.inner)) }
    {
        if self.left > 0 {
            return Ok(());
        }
        self.left = 0;
        match show_lines(&mut self.inner, decoder, &mut self.ahead) {
            Err(e) => Err(e),
            Ok(count) => {
                self.next = 0;
                self.left = count;
                Ok(())
            }
        }
    }

    // Takes the first of the lines that are left, and puts its bytes in `bytes`.
    fn take_ahead(&mut self, bytes: &mut [u8; 48]) -> Result<bool, Error>
        requires { 0 < self.old.left }
        ensures ok { result ≡ Ok true }
        ensures kept { Kept ⟦<R as Read>⟧ self.old.inner self.old.taken self.new.inner self.new.taken result }
        ensures full { IsTrue (R.Read.tells self.old.inner) → TakesFull bytes.new (R.Read.rest self.old.inner) (R.Read.rest self.new.inner) }
        ensures taken { IsTrue (R.Read.tells self.old.inner) → self.new.taken ≡ self.old.taken + 65 }
        ensures lines { self.new.lines ≡ one_line_more self.old.lines }
        ensures counts { self.old.lines ≤ self.new.lines }
    {
        bytes.copy_from_slice(&self.ahead[self.next..self.next + LINE]);
        // For the proof alone: these are bytes, each below 256.
        known_bytes(bytes);
        self.inner.consume(LINE_TEXT);
        self.taken = self.taken.saturating_add(65);
        self.lines = self.lines.saturating_add(1);
        self.next += LINE;
        self.left -= 1;
        Ok(true)
    }

    /// Takes a line that is shown whole, where it is 64 symbols and LF, and puts the 48 bytes that it stands for in
    /// `bytes`. Else it takes nothing and answers false.
    pub(crate) fn take_full(
        &mut self,
        decoder: &Decoder,
        bytes: &mut [u8; 48],
    ) -> Result<bool, Error>
        ensures kept { Kept ⟦<R as Read>⟧ self.old.inner self.old.taken self.new.inner self.new.taken result }
        ensures none { IsTrue (R.Read.tells self.old.inner)
            → IfOk result (λ is. is ≡ false → R.Read.rest self.new.inner ≡ R.Read.rest self.old.inner) }
        ensures full { IsTrue (R.Read.tells self.old.inner)
            → IfOk result (λ is. IsTrue is → TakesFull bytes.new (R.Read.rest self.old.inner) (R.Read.rest self.new.inner)) }
        ensures taken { IsTrue (R.Read.tells self.old.inner) → IfOk result (λ is. IsTrue is → self.new.taken ≡ self.old.taken + 65) }
        ensures lines { IfOk result (λ is. self.new.lines ≡ (if is then one_line_more self.old.lines else self.old.lines)) }
        ensures none_taken { OnErr result (self.new.lines ≡ self.old.lines) }
        ensures counts { self.old.lines ≤ self.new.lines }
        ensures why { IfErr result (λ e. e ≢ OutOfMemory → TriedAgain R.Read.refuses self.old.inner e) }
        ensures cause { IsTrue (R.Read.tells self.old.inner)
            → IfErr result (λ e. e ≢ OutOfMemory → IsQuiet (R.Read.faults self.old.inner) (R.Read.faults self.new.inner) →
            IsFault (R.Read.rest self.old.inner)) }
    {
        match self.look_ahead(decoder) {
            Err(e) => return Err(e),
            Ok(()) => {}
        }
        if self.left == 0 {
            return Ok(false);
        }
        self.take_ahead(bytes)
    }

    /// Takes a line up to its LF, or to the end, and puts it in `line`. It is empty at a clean end alone.
    pub(crate) fn take_line(&mut self, line: &mut Vec<u8>) -> Result<(), Error>
        ensures kept { Kept ⟦<R as Read>⟧ self.old.inner self.old.taken self.new.inner self.new.taken result }
        ensures counts { CountsOne (length line.new.items) self.old.lines self.new.lines result }
        ensures taken { IsTrue (R.Read.tells self.old.inner) → OnOk result (self.new.taken ≡ self.old.taken + length line.new.items) }
        ensures line { IsTrue (R.Read.tells self.old.inner)
            → OnOk result (TakesLine line.new.items (R.Read.rest self.old.inner) (R.Read.rest self.new.inner)) }
        ensures why { IfErr result (λ e. e ≢ OutOfMemory → TriedAgain R.Read.refuses self.old.inner e) }
        ensures cause { IsTrue (R.Read.tells self.old.inner)
            → IfErr result (λ e. e ≢ OutOfMemory → IsQuiet (R.Read.faults self.old.inner) (R.Read.faults self.new.inner) →
            IsCutShort (R.Read.rest self.old.inner)) }
    {
        self.left = 0;
        line.clear();
        'runs: loop {
            let before = line.len();
            let answer = take_run(&mut self.inner, line);
            self.taken = self.taken.saturating_add((line.len() - before) as u64);
            match answer {
                Err(e) => return Err(e),
                Ok(run) => match run {
                    Run::Open => {}
                    Run::Nothing => {
                        if line.is_empty() {
                            return Ok(());
                        }
                        self.lines = self.lines.saturating_add(1);
                        return Ok(());
                    }
                    Run::Ended => {
                        self.lines = self.lines.saturating_add(1);
                        return Ok(());
                    }
                },
            }
        }
    }

    /// Takes what follows the end marker's line: white space and then a clean end. `room` is room to read into.
    pub(crate) fn take_trailing(&mut self, room: &mut [u8; 48]) -> Result<(), Error>
        ensures kept { Kept ⟦<R as Read>⟧ self.old.inner self.old.taken self.new.inner self.new.taken result }
        ensures lines { self.new.lines ≡ self.old.lines }
        ensures clean { IsTrue (R.Read.tells self.old.inner)
            → OnOk result (trailing (R.Read.rest self.old.inner).bytes (R.Read.rest self.old.inner).ends_well ≡ Clean) }
        ensures why { IsTrue (R.Read.tells self.old.inner) → IfErr result (OrEnd ⟦<R as Read>⟧ self.old.inner
            (ends_in (trailing (R.Read.rest self.old.inner).bytes (R.Read.rest self.old.inner).ends_well))) }
        ensures cause { IsTrue (R.Read.tells self.old.inner)
            → IfErr result (λ e. e ≢ OutOfMemory → IsQuiet (R.Read.faults self.old.inner) (R.Read.faults self.new.inner) →
            NamesEnding (trailing (R.Read.rest self.old.inner).bytes (R.Read.rest self.old.inner).ends_well) e) }
    {
        for _count in 0..u64::MAX {
            match self.read(room) {
                Err(e) => return Err(e),
                Ok(0) => return Ok(()),
                Ok(count) => {
                    if !are_spaces(&room[..count]) {
                        return Err(Error::Armor(ArmoredReadError::TrailingGarbage));
                    }
                }
            }
        }
        Err(Error::TooLong)
    }
}
