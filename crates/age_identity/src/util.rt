//! A reader with a limit.
ghost use Rattle.std.specs.Prelude.{◌≡◌, ℕ, ◌<◌, ◌≢◌, true, false, IsTrue, List, [], length, Ok, Err, IfErr, OnOk};
ghost use Rattle.age_error.specs.declared.io.Error.TheVariants.{LimitExceeded, OutOfMemory};
ghost use Rattle.age_io.specs.Reading.{IsQuiet};
ghost use Rattle.age_io.specs.Filling.{Fills};
ghost use Rattle.age_io.specs.Calls.{ReadsBy};
ghost use Rattle.age_identity.specs.Limiting.{limited, shown_within};
ghost use Rattle.age_identity.specs.LimitLemmas.{spent_within, well_within, stands_within, bytes_within, short_within, place_fits_within};

use age_error::io::Error;
use age_io::{BufRead, Read};
use std::fmt;

/// Gives the first bytes of what an inner reader has left, up to a limit, and refuses where more are there.
///
/// At its limit it asks the inner reader for one byte more. Where none is there it ends cleanly. Where one is, it has come
/// past its limit, and every read answers `LimitExceeded`; the inner reader then stands behind that byte. What the inner
/// reader refuses with it passes on, and may be read again as far as that may.
#[derive(Drop)]
pub struct LimitedReader<R> {
    inner: R,
    left: usize,
    past: bool,
}

impl<R: Read> LimitedReader<R> {
    ghost use Rattle.age_identity.specs.Limited.{inner_of, left_of, is_past, place_of, rest_of, Limits, ReadsWithin, Meets};

    /// A reader of the next `limit` bytes of the inner reader. It reads nothing yet, and takes no memory.
    pub fn new(inner: R, limit: usize) -> LimitedReader<R>
        ensures inner { inner_of result ≡ inner }
        ensures left { left_of result ≡ limit }
        ensures within { is_past result ≡ false }
        ensures place { ⟦<LimitedReader<R> as Read>⟧.place result ≡ R.place inner }
        ensures rest { ⟦<LimitedReader<R> as Read>⟧.rest result ≡ limited limit (R.rest inner) }
    {
        LimitedReader {
            inner,
            left: limit,
            past: false,
        }
    }

    // A read at the limit: a byte more is one too many.
    fn read_past(&mut self) -> Result<usize, Error>
        requires within { self.old.past ≡ false }
        requires limit { self.old.left ≡ 0 }
        ensures reads { (buf : List ℕ) → ReadsBy ⟦<LimitedReader<R> as Read>⟧ self.old self.new buf result }
        ensures limits { Limits R.refuses (λ n. n) self.old self.new result }
        ensures exact { IsTrue (R.tells (inner_of self.old)) → 0 < length (R.rest (inner_of self.old)).bytes → IfErr result (λ e. e ≢ OutOfMemory →
            IsQuiet (R.faults (inner_of self.old)) (R.faults (inner_of self.new)) → e ≡ LimitExceeded) }
        ensures inner { (buf : List ℕ) → is_past self.new ≡ false
            → ReadsWithin ⟦<R as Read>⟧ R.refuses (inner_of self.old) (inner_of self.new) buf result }
        ensures meets { is_past self.new ≡ true → Meets ⟦<R as Read>⟧ self.old self.new result }
    {
        let mut probe = [0u8; 1];
        match self.inner.read(&mut probe) {
            Err(e) => Err(e),
            Ok(0) => Ok(0),
            Ok(_) => {
                self.past = true;
                Err(Error::LimitExceeded)
            }
        }
    }
}

impl<R: Read> Read for LimitedReader<R> {
    ghost use Rattle.age_identity.specs.Limited.{inner_of, left_of, is_past, place_of, content_of, rest_of, refuses_of, Limits, ReadsWithin, Meets};

    ghost tells = { λ r. R.tells (inner_of r) };

    ghost steady = { λ r. R.steady (inner_of r) };

    ghost content = { λ r. content_of ⟦<R as Read>⟧ r };

    ghost place = { λ r. place_of ⟦<R as Read>⟧ r };

    ghost rest = { λ r. rest_of ⟦<R as Read>⟧ r };

    ghost faults = { λ r. R.faults (inner_of r) };

    ghost refuses = { λ r. refuses_of ⟦<R as Read>⟧ r };

    ghost faults_fit = { λ r. R.faults_fit r.inner };

    ghost spent = { λ r told is. spent_within (R.rest r.inner) r.left r.past (R.spent r.inner told is) };

    ghost well = { λ r told well. R.well r.inner told (well_within _ (R.content r.inner) well) };

    ghost stands = { λ r told steady. stands_within (R.content r.inner) (R.rest r.inner) (R.place r.inner) r.left r.past
        (R.stands r.inner told steady) };

    ghost are_bytes = { λ r told. bytes_within _ (R.content r.inner) (R.are_bytes r.inner told) };

    ghost short = { λ r told. short_within _ (R.content r.inner) (R.short r.inner told) };

    ghost place_fits = { λ r told. place_fits_within r.past (R.place r.inner) (R.place_fits r.inner told) };

    /// Gives at most as many bytes as its limit leaves, by one read of the inner reader.
    ///
    /// A byte past the limit is `LimitExceeded`, also for every later read and into an empty buffer. Any other refusal is
    /// that of the inner reader. An empty buffer changes nothing.
    fn read(&mut self, buf: &mut [u8]) -> Result<usize, Error>
        ensures reads { ReadsBy ⟦<LimitedReader<R> as Read>⟧ self.old self.new buf.new result }
        ensures limits { Limits R.refuses (λ n. n) self.old self.new result }
        ensures empty { is_past self.old ≡ false → length buf.old ≡ 0 → (result ≡ Ok 0) × (self.new ≡ self.old) }
        ensures exact { IsTrue (R.tells (inner_of self.old)) → 0 < length (R.rest (inner_of self.old)).bytes → IfErr result (λ e. e ≢ OutOfMemory →
            IsQuiet (R.faults (inner_of self.old)) (R.faults (inner_of self.new)) → e ≡ LimitExceeded) }
        ensures inner { is_past self.new ≡ false → 0 < length buf.old →
            ReadsWithin ⟦<R as Read>⟧ R.refuses (inner_of self.old) (inner_of self.new) buf.new result }
        ensures meets { is_past self.new ≡ true → is_past self.old ≡ false → Meets ⟦<R as Read>⟧ self.old self.new result }
    {
        if self.past {
            return Err(Error::LimitExceeded);
        }
        if buf.is_empty() {
            return Ok(0);
        }
        if self.left == 0 {
            return self.read_past();
        }
        let most = buf.len().min(self.left);
        let part = &mut buf[..most];
        match self.inner.read(part) {
            Err(e) => Err(e),
            Ok(count) => {
                self.left -= count;
                Ok(count)
            }
        }
    }
}

impl<R: BufRead> LimitedReader<R> {
    ghost use denote.Ref.{Bor};
    ghost use Rattle.age_io.specs.Stretch.{IsCleanEnd};
    ghost use Rattle.age_identity.specs.Limited.{inner_of, left_of, is_past, Limits};

    // Looks for a byte at the limit, which is one too many. Where none is there nothing is shown.
    fn look_past(&mut self) -> Result<(), Error>
        requires within { self.old.past ≡ false }
        requires limit { self.old.left ≡ 0 }
        ensures refused { IfErr result (λ e. let reader = ⟦<LimitedReader<R> as Read>⟧ in
            Fills reader.tells reader.steady reader.content reader.place reader.rest reader.faults reader.refuses
            (λ r. shown_within (is_past r) (left_of r) (R.shown (inner_of r))) (Limits R.Read.refuses (λ _. 0)) self.old self.new (Err e)) }
        ensures ended { OnOk result ((none : Bor (List ℕ)) → none.now ≡ [] → let reader = ⟦<LimitedReader<R> as Read>⟧ in
            Fills reader.tells reader.steady reader.content reader.place reader.rest reader.faults reader.refuses
            (λ r. shown_within (is_past r) (left_of r) (R.shown (inner_of r))) (Limits R.Read.refuses (λ _. 0)) self.old self.new (Ok none)) }
        ensures end { IsTrue (R.Read.tells self.old.inner) → OnOk result (IsCleanEnd (⟦<LimitedReader<R> as Read>⟧.rest self.old)) }
    {
        let ended = match self.inner.fill_buf() {
            Err(e) => return Err(e),
            Ok(front) => front.is_empty(),
        };
        if ended {
            return Ok(());
        }
        self.inner.consume(1);
        self.past = true;
        Err(Error::LimitExceeded)
    }
}

impl<R: BufRead> BufRead for LimitedReader<R> {
    ghost use Rattle.age_identity.specs.Limited.{inner_of, left_of, is_past, Limits};

    ghost shown = { λ r. shown_within (is_past r) (left_of r) (R.shown (inner_of r)) };

    ghost besides = { λ old new result. Limits R.Read.refuses (λ _. 0) old new result };

    /// Shows what the inner reader shows, as far as the limit leaves it.
    ///
    /// At the limit it looks for one byte more, which is `LimitExceeded` then and for every later call. Any other refusal is
    /// that of the inner reader.
    fn fill_buf(&mut self) -> Result<&[u8], Error> {
        if self.past {
            return Err(Error::LimitExceeded);
        }
        if self.left == 0 {
            return match self.look_past() {
                Err(e) => Err(e),
                Ok(()) => Ok(&[]),
            };
        }
        let left = self.left;
        match self.inner.fill_buf() {
            Err(e) => Err(e),
            Ok(front) => Ok(&front[..front.len().min(left)]),
        }
    }

    /// Takes the first `amount` bytes of what was shown, which count to its limit.
    fn consume(&mut self, amount: usize) {
        self.left -= amount;
        self.inner.consume(amount);
    }
}

/// How many bytes it may give yet and whether it is past its limit, and no content.
impl<R> fmt::Debug for LimitedReader<R> {
    fn fmt<W: fmt::Write>(&self, f: &mut fmt::Formatter<W>) -> fmt::Result {
        f.debug_struct("LimitedReader")
            .field("left", &self.left)
            .field("past", &self.past)
            .finish_non_exhaustive()
    }
}
