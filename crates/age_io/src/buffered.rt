//! A reader with a buffer.
ghost use Rattle.std.specs.Prelude.{◌≡◌, ◌+◌, ◌-◌, ◌≤◌, ◌<◌, ◌&&◌, true, false, IsTrue, length, take, min, Ok, Err, IfOk, IfErr, OnOk, OnErr, ◌≢◌};
ghost use denote.Follow.{follows};
ghost use Rattle.std.proofs.Common.{arith};
ghost use Rattle.age_error.specs.Refusals.{IsInterruption};
ghost use Rattle.age_error.specs.declared.io.Error.{Error as Failure};
ghost use Rattle.age_error.specs.declared.io.Error.TheVariants.{OutOfMemory};
ghost use Rattle.age_io.specs.Stretch.{IsCleanEnd, IsFault, from_place};
ghost use Rattle.age_io.specs.Reading.{IsQuiet, Delivers, TriedAgain, most_faults};
ghost use Rattle.age_io.specs.Keeping.{KeepsReader, OrSeek};
ghost use Rattle.age_io.specs.Failing.{FailsForGood};
ghost use Rattle.age_io.specs.Cursor.{IsOutside, OrFailed};
ghost use Rattle.age_io.specs.CursorLemmas.{or_failed_no_device};
ghost use Rattle.age_io.specs.Buffering.{held, rest_behind};
ghost use Rattle.age_io.specs.BehindLemmas.{stands_behind, spent_behind};
ghost use Rattle.age_io.specs.Calls.{ConsumesBy, ReadsBy, SeeksBy};

use crate::bufread::BufRead;
use crate::retry::{read_retrying, seek_retrying};
use crate::seeking::Seek;
use crate::targets::{distance_back, is_outside, unrefused};
use crate::traits::Read;
use crate::whole::room_for;
use age_error::io::{Error, SeekFrom};
use std::alloc::Global;
use std::fmt;

// How many bytes it reads ahead at most.
const ROOM: usize = 8_192;

/// Reads ahead from an inner reader, and shows what it holds.
///
/// Its content is that of the inner reader, and it begins where the inner reader stood when it was made. Once a read
/// of the inner reader has refused, this reader has failed and answers `Failed` to every read, until a seek succeeds.
#[derive(Drop)]
pub struct BufReader<R: Read> {
    inner: R,
    // The bytes from `given` to `filled` were read and not given yet.
    buffer: Vec<u8>,
    given: usize,
    filled: usize,
    failed: bool,
    ghost order: { given ≤ filled },
    ghost within: { filled ≤ length buffer.items },
    ghost room: { 0 < length buffer.items },
    ghost unspent: { failed ≡ false → given < filled → R.faults inner < most_faults },
    ghost fits: { IsTrue (R.tells inner) → filled - given ≤ R.place inner },
    ghost follows: { IsTrue (R.tells inner) → IsTrue (R.steady inner) → failed ≡ false → given < filled →
        rest_behind false (held buffer.items given filled) (R.rest inner)
        ≡ from_place (R.place inner - (filled - given)) (R.content inner) },
}

impl<R: Read> Read for BufReader<R> {
    ghost use Rattle.age_io.specs.Buffered.{inner_of, has_failed, place_of, rest_of, refuses_of};

    ghost tells = { λ r. R.tells (inner_of r) };

    ghost steady = { λ r. R.steady (inner_of r) };

    ghost content = { λ r. R.content (inner_of r) };

    ghost place = { λ r. place_of r };

    ghost rest = { λ r. rest_of r };

    ghost faults = { λ r. R.faults (inner_of r) };

    ghost refuses = { λ r. refuses_of r };

    ghost faults_fit = { λ r. R.faults_fit r.inner };

    ghost spent = { λ r told is. spent_behind (R.rest r.inner) (R.faults r.inner) r.buffer.items r.given r.filled r.failed
        r.within r.unspent is (R.spent r.inner told is) };

    ghost well = { λ r. R.well r.inner };

    ghost stands = { λ r told steady. stands_behind (R.content r.inner) (R.rest r.inner) (R.place r.inner)
        r.buffer.items r.given r.filled r.failed r.within r.order (R.stands r.inner told steady) (r.follows told steady) };

    ghost are_bytes = { λ r. R.are_bytes r.inner };

    ghost short = { λ r. R.short r.inner };

    ghost place_fits = { λ r told. Prim.omega (arith, R.place_fits r.inner told) };

    /// Gives what is held, as far as `buf` takes it. Where nothing is held it first reads ahead, once, or, where `buf`
    /// has more room than its own buffer, straight into `buf`.
    ///
    /// An empty buffer changes nothing. An interruption of the inner reader is tried again up to 16 times in a row; after
    /// that the answer is `Device(Other)`. A refusal is that of the inner reader, and leaves this one failed; what `buf`
    /// holds then isn't said. A failed reader answers `Failed`, also into an empty buffer.
    fn read(&mut self, buf: &mut [u8]) -> Result<usize, Error>
        ensures reads { ReadsBy ⟦<BufReader<R> as Read>⟧ self.old self.new buf.new result }
        ensures own { FailsForGood (has_failed self.old) (has_failed self.new) result }
        ensures still { IsTrue (has_failed self.old) → self.new ≡ self.old }
        ensures empty { has_failed self.old ≡ false → length buf.old ≡ 0 → (result ≡ Ok 0) × (self.new ≡ self.old) }
    {
        if self.failed {
            return Err(Error::Failed);
        }
        if buf.is_empty() {
            return Ok(0);
        }
        if self.given == self.filled && buf.len() >= self.buffer.len() {
            return self.read_past(buf);
        }
        self.hold()?;
        Ok(self.give(buf))
    }
}

impl<R: Read> BufReader<R> {
    ghost use Rattle.age_io.specs.Buffered.{inner_of, has_failed, place_of, rest_of, shown_of};

    /// A reader of what the inner reader reads, from where that stands.
    ///
    /// It reads nothing yet. It takes memory for its buffer alone, and answers `OutOfMemory` where it is refused that.
    pub fn new(alloc: Global, inner: R) -> Result<BufReader<R>, Error>
    where
        R: Drop,
        ensures inner { IfOk result (λ r. inner_of r ≡ inner) }
        ensures place { IfOk result (λ r. place_of r ≡ R.place inner) }
        ensures rest { IfOk result (λ r. rest_of r ≡ R.rest inner) }
        ensures good { IfOk result (λ r. has_failed r ≡ false) }
        ensures named { IfOk result (λ r. (e : Failure) → ⟦<BufReader<R> as Read>⟧.refuses r e → TriedAgain R.refuses inner e) }
        ensures memory { IfErr result (λ e. e ≡ OutOfMemory) }
    {
        let buffer = room_for(alloc, ROOM)?;
        Ok(BufReader {
            inner,
            buffer,
            given: 0,
            filled: 0,
            failed: false,
        })
    }

    /// The inner reader. It stands after all that was read ahead, so the bytes that are held are lost: those that
    /// `fill_buf` would show now.
    pub fn into_inner(self) -> R
        ensures inner { result ≡ inner_of self }
        ensures lost { has_failed self ≡ false → Delivers (shown_of self) (rest_of self) (R.rest result) }
        ensures moved { IsTrue (R.tells result) → has_failed self ≡ false → R.place result ≡ place_of self + length (shown_of self) }
    {
        let BufReader {
            inner,
            buffer: _,
            given: _,
            filled: _,
            failed: _,
        } = self;
        inner
    }

    // One read of the inner reader past the buffer, which holds nothing.
    fn read_past(&mut self, buf: &mut [u8]) -> Result<usize, Error>
        requires good { self.old.failed ≡ false }
        requires empty { self.old.given ≡ self.old.filled }
        requires some { 0 < length buf.old }
        ensures reads { ReadsBy ⟦<BufReader<R> as Read>⟧ self.old self.new buf.new result }
        ensures own { FailsForGood (has_failed self.old) (has_failed self.new) result }
    {
        self.failed = true;
        let count = read_retrying(&mut self.inner, buf)?;
        self.failed = false;
        Ok(count)
    }

    // Reads ahead where nothing is held. After a success nothing is held at a clean end alone.
    fn hold(&mut self) -> Result<(), Error>
        requires { self.old.failed ≡ false }
        ensures keeps { KeepsReader ⟦<R as Read>⟧ (TriedAgain R.refuses) self.old.inner self.new.inner result }
        ensures unspent { OnOk result (R.faults self.new.inner < most_faults) }
        ensures good { OnOk result (self.new.failed ≡ false) }
        ensures fails { OnErr result (self.new.failed ≡ true) }
        ensures place { IsTrue (R.tells self.old.inner) → place_of self.new ≡ place_of self.old }
        ensures rest { IsTrue (R.tells self.old.inner) → OnOk result (rest_of self.new ≡ rest_of self.old) }
        ensures end { IsTrue (R.tells self.old.inner) → OnOk result
            (self.new.given ≡ self.new.filled → IsCleanEnd (rest_of self.old)) }
        ensures cause { IsTrue (R.tells self.old.inner) → IfErr result (λ e. e ≢ OutOfMemory →
            IsQuiet (R.faults self.old.inner) (R.faults self.new.inner) → IsFault (rest_of self.old)) }
    {
        if self.given < self.filled {
            return Ok(());
        }
        self.given = 0;
        self.filled = 0;
        match read_retrying(&mut self.inner, &mut self.buffer) {
            Ok(count) => {
                self.filled = count;
                Ok(())
            }
            Err(e) => {
                self.failed = true;
                Err(e)
            }
        }
    }

    // What is held.
    fn as_held(&self) -> &[u8]
        ensures { result.now ≡ held self.now.buffer.items self.now.given self.now.filled }
    {
        &self.buffer[self.given..self.filled]
    }

    // Gives what is held, as far as `buf` takes it.
    fn give(&mut self, buf: &mut [u8]) -> usize
        requires { self.old.failed ≡ false }
        ensures count { result ≡ min (length buf.old) (self.old.filled - self.old.given) }
        ensures inner { self.new.inner ≡ self.old.inner }
        ensures good { self.new.failed ≡ false }
        ensures bytes { Delivers (take result buf.new) (rest_of self.old) (rest_of self.new) }
        ensures moves { IsTrue (R.tells self.old.inner) → place_of self.new ≡ place_of self.old + result }
    {
        let count = buf.len().min(self.filled - self.given);
        buf[..count].copy_from_slice(&self.buffer[self.given..self.given + count]);
        self.given += count;
        count
    }
}

/// How many bytes are held and whether it has failed, and no content.
impl<R: Read> fmt::Debug for BufReader<R> {
    fn fmt<W: fmt::Write>(&self, f: &mut fmt::Formatter<W>) -> fmt::Result {
        f.debug_struct("BufReader")
            .field("held", &(self.filled - self.given))
            .field("failed", &self.failed)
            .finish_non_exhaustive()
    }
}

impl<R: Read> BufRead for BufReader<R> {
    ghost use Rattle.age_io.specs.Buffered.{has_failed, shown_of};

    ghost shown = { λ r. shown_of r };

    ghost besides = { λ old new result. FailsForGood (has_failed old) (has_failed new) result };

    /// Shows what is held. Where nothing is held it first reads ahead, once, and refuses as `read` does.
    fn fill_buf(&mut self) -> Result<&[u8], Error> {
        if self.failed {
            return Err(Error::Failed);
        }
        self.hold()?;
        Ok(self.as_held())
    }

    /// Drops the first `amount` bytes of what is held. It neither fails nor makes good again.
    fn consume(&mut self, amount: usize)
        requires { amount ≤ length (shown_of self.old) }
        ensures consumes { ConsumesBy ⟦<BufReader<R> as Read>⟧ (λ r. shown_of r) self.old self.new amount }
        ensures failed { has_failed self.new ≡ has_failed self.old }
    {
        self.given += amount;
    }
}

impl<R: Seek> BufReader<R> {
    ghost use Rattle.age_io.specs.Buffered.{place_of, rest_of};

    // Lets go of what is held, so that the inner reader stands where this one does.
    fn put_back(&mut self) -> Result<(), Error>
        ensures keeps { KeepsReader ⟦<R as Read>⟧ (OrSeek (OrFailed R.seek_refuses) (TriedAgain R.refuses)) self.old.inner self.new.inner result }
        ensures empty { OnOk result (self.new.given ≡ self.new.filled) }
        ensures same { OnOk result (self.new.failed ≡ self.old.failed) }
        ensures fails { OnErr result (self.new.failed ≡ true) }
        ensures other { IfErr result (λ e. IsOutside e → ⊥) }
        ensures place { IsTrue (R.tells self.old.inner) → place_of self.new ≡ place_of self.old }
        ensures sound { IsTrue (R.tells self.old.inner) → IsTrue (R.steady self.old.inner) → OnOk result
            (self.old.failed ≡ false → rest_of self.old ≡ from_place (place_of self.old) (R.content self.old.inner) →
            R.rest self.new.inner ≡ from_place (R.place self.new.inner) (R.content self.new.inner)) }
        ensures cause { IsTrue (R.tells self.old.inner) → IsTrue (R.content self.old.inner).ends_well →
            IfErr result (λ e. e ≢ OutOfMemory → IsQuiet (R.faults self.old.inner) (R.faults self.new.inner) → ⊥) }
    {
        if self.given == self.filled {
            return Ok(());
        }
        let back = distance_back((self.filled - self.given) as u64);
        match seek_retrying(&mut self.inner, SeekFrom::Current(back)) {
            Ok(_place) => {
                self.given = 0;
                self.filled = 0;
                Ok(())
            }
            Err(e) => {
                self.failed = true;
                Err(unrefused(e))
            }
        }
    }
}

impl<R: Seek> Seek for BufReader<R> {
    ghost use Rattle.age_io.specs.Buffered.{has_failed};

    ghost seek_refuses = { OrFailed R.seek_refuses };

    ghost no_device = { or_failed_no_device R.no_device };

    /// Moves the inner reader, after it has let go of what is held. An interruption of the inner reader is tried again up
    /// to 16 times in a row; after that the answer is `Device(Other)`.
    ///
    /// A success makes a failed reader good again. A refusal with `BeforeStart` or `PastEnd` leaves it failed or good, as
    /// it was; any other leaves it failed.
    fn seek(&mut self, to: SeekFrom) -> Result<u64, Error>
        ensures seeks { SeeksBy ⟦<BufReader<R> as Read>⟧ (OrFailed R.seek_refuses) self.old self.new to result }
        ensures patient { IfErr result (λ e. IsInterruption e → ⊥) }
        ensures good { OnOk result (has_failed self.new ≡ false) }
        ensures unmoved { IfErr result (λ e. IsOutside e → has_failed self.new ≡ has_failed self.old) }
        ensures fails { IfErr result (λ e. (IsOutside e → ⊥) → IsTrue (has_failed self.new)) }
    {
        match self.put_back() {
            Err(e) => return Err(e),
            Ok(()) => {}
        }
        match seek_retrying(&mut self.inner, to) {
            Ok(place) => {
                self.failed = false;
                Ok(place)
            }
            Err(e) => {
                self.failed = self.failed || !is_outside(e);
                Err(e)
            }
        }
    }
}
