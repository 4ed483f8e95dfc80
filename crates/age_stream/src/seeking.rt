//! Seeking in a payload.
ghost use Rattle.std.specs.Prelude.{◌≡◌, ◌+◌, ◌-◌, ◌*◌, ◌/◌, ◌%◌, ◌^◌, ◌<◌, ◌≤◌, ◌&&◌, Option, Some, None, true, false, IsTrue, length, IfOk, IfErr, OnOk, Ok, Err};
ghost use Rattle.age_error.specs.declared.io.Error.TheVariants.{OutOfMemory, BadEnd, BeforeStart};
ghost use Rattle.age_io.specs.Stretch.{from_place};
ghost use Rattle.age_io.specs.Cursor.{OrTooLong};
ghost use Rattle.age_io.specs.CursorLemmas.{or_too_long_no_device};
ghost use Rattle.age_io.specs.Calls.{SeeksBy};
ghost use Rattle.age_v1.specs.Payload as Payload;
ghost use Rattle.age_v1.specs.Payload.{final_chunk};
ghost use Rattle.age_stream.specs.PrivateKeeping.{IsLost, IsPayloadSeekRefusal, KeepsPayload};
ghost use Rattle.age_v1.specs.DeliveredPayload.{IsLastChunk};
ghost use Rattle.age_stream.specs.Reading.{tells_from};
ghost use Rattle.age_stream.specs.Seeking.{FindsTarget, RefusesTarget};
ghost use Rattle.age_v1.specs.PayloadTargets.{below_start};

use crate::place::Place;
use crate::reader::{StreamReader, open_as};
use crate::sizes::{CHUNK, LONGEST_PLAINTEXT, PIECE};
use age_error::io::{Error, SeekFrom};
use age_io::{Read, Seek, is_outside, place_at, sought};
use age_suite::suite::Suite;

// The length of the plaintext of a payload of so many bytes, if there is one.
#[tactic(auto, unfolding(age_v1::specs::Payload::plain_len))]
fn plain_len(size: u64) -> Option<u64>
    ensures { result ≡ Payload.plain_len size }
{
    let last = size.saturating_sub(1) / CHUNK as u64;
    let rest = size - CHUNK as u64 * last;
    if rest >= 16 && (last == 0 || rest > 16) {
        Some(size - 16 * (last + 1))
    } else {
        None
    }
}

// Whether the target is reckoned from the place, and below 0.
fn is_below_start(to: SeekFrom, place: u64) -> bool
    requires { place < 2 ^ 63 }
    ensures { result ≡ below_start to place }
{
    match to {
        SeekFrom::Current(distance) => place_at(place, distance).is_none(),
        SeekFrom::Start(_) | SeekFrom::End(_) => false,
    }
}

// The target in a payload of so many bytes, and the length of its plaintext.
#[tactic(auto, using(age_v1::proofs::PayloadLengths::plain_len_says))]
fn find(to: SeekFrom, place: u64, size: u64) -> Result<(u64, u64), Error>
    requires { place < 2 ^ 63 }
    ensures found { IfOk result (λ found. FindsTarget to place size found.0 found.1) }
    ensures refused { IfErr result (RefusesTarget to place size) }
{
    match plain_len(size) {
        None => Err(Error::BadEnd),
        Some(len) => {
            if len > LONGEST_PLAINTEXT {
                return Err(Error::TooLong);
            }
            let target = sought(to, place, len)?;
            Ok((target, len))
        }
    }
}

// The refusal where the inner reader refuses a target inside its own content, or a read refuses as a seek does: the end
// isn't where it was found.
pub(crate) fn lost(error: Error) -> Error
    ensures { IsLost error result }
{
    match error {
        Error::BeforeStart | Error::PastEnd => Error::BadEnd,
        other => other,
    }
}

impl<S: Suite, R: Seek> StreamReader<S, R> {
    ghost use Rattle.age_stream.specs.Reader.{payload_of, place_of, HasEnd};
    ghost use Rattle.age_stream.specs.Seeking.{SeeksPayload};
    ghost use Rattle.age_stream.specs.Naming.{RefusedOnTheWay};
    ghost use Rattle.age_stream.specs.PrivateSteps.{Enters, EntersEnd, IsNoLast, KeepsAtEnd, KeepsBesideLast, RefusesStep, SaysWhyEnd};

    // Goes to a place before the end. The chunk there is held then if it is opened by the verdict on it.
    fn enter(&mut self, start: u64, size: u64, place: u64, was_failed: bool) -> Result<(), Error>
        requires failed { self.old.place.failed ≡ true }
        requires sought { self.old.place.sought ≡ true }
        requires limit { place < 2 ^ 60 }
        requires start { IsTrue (tells_from self.old.source) → start ≡ R.place self.old.source.inner - self.old.source.taken }
        requires size { IsTrue (tells_from self.old.source) → size ≡ length (payload_of self.old).bytes }
        requires before { place + 16 * (place / 65536) + 16 < size }
        ensures keeps { KeepsPayload (IsPayloadSeekRefusal R.seek_refuses) self.old.source self.new.source result }
        ensures same { (self.new.key ≡ self.old.key) × (self.new.place.sought ≡ true) × (self.new.opens ≡ self.old.opens) }
        ensures enters { OnOk result (Enters self.old self.new size place was_failed) }
        ensures refused { IfErr result (RefusesStep self.old self.new (λ _. ⊥)) }
        ensures says { IfErr result (RefusedOnTheWay ⟦<R as Read>⟧ R.seek_refuses self.new.source.inner) }
    {
        let number = place / PIECE as u64;
        let at = (place % PIECE as u64) as usize;
        self.place.held = false;
        self.cache.keep_if(self.alloc, !was_failed);
        if self.cache.find(self.alloc, number, at) {
            let past = (CHUNK as u64 * number + CHUNK as u64).min(size);
            self.source.stand(start, past)?;
            self.place = Place::reached(number, at, true);
            return Ok(());
        }
        self.source.stand(start, CHUNK as u64 * number)?;
        self.place = Place::reached(number, at, false);
        Ok(())
    }

    // Reads and opens the chunk before which the inner reader stands, as the last.
    fn open_last(&mut self, number: u64) -> Result<(), Error>
        requires failed { self.old.place.failed ≡ true }
        requires unheld { self.old.place.held ≡ false }
        requires sought { self.old.place.sought ≡ true }
        requires limit { number < 2 ^ 44 }
        requires stands { IsTrue (tells_from self.old.source) → (self.old.source.taken ≡ 65552 * number)
            × (R.rest self.old.source.inner ≡ from_place (65552 * number) (payload_of self.old)) }
        requires last { IsTrue (tells_from self.old.source) → IsLastChunk (length (payload_of self.old).bytes) number }
        ensures keeps { KeepsPayload (IsPayloadSeekRefusal R.seek_refuses) self.old.source self.new.source result }
        ensures same { (self.new.key ≡ self.old.key) × (self.new.place.sought ≡ true) }
        ensures enters { OnOk result (EntersEnd self.old self.new number (length (payload_of self.old).bytes - 16 * (number + 1))) }
        ensures refused { IfErr result (RefusesStep self.old self.new (IsNoLast self.old number)) }
        ensures says { IfErr result (SaysWhyEnd R.seek_refuses self.old self.new number) }
        ensures opens { (self.old.opens ≤ self.new.opens) × (self.new.opens ≤ self.old.opens + 1) }
        ensures chunks { OnOk result (KeepsBesideLast self.old self.new number) }
    {
        let count = match self.source.take(CHUNK) {
            Err(e) => return Err(lost(e)),
            Ok(count) => count,
        };
        self.cache.make_room(self.alloc);
        match open_as::<S>(
            self.alloc,
            &mut self.opens,
            &self.key,
            number,
            true,
            &self.source.room[..count],
        ) {
            Err(_) => Err(Error::OutOfMemory),
            Ok(None) => Err(Error::BadEnd),
            Ok(Some(piece)) => {
                let len = piece.len();
                self.cache.put(self.alloc, number, piece, true, len < PIECE);
                self.place = Place::reached(number, len, true);
                Ok(())
            }
        }
    }

    // Whether a reader that hadn't failed holds the chunk of this number as the last.
    fn holds_last(&self, number: u64, was_failed: bool) -> bool
        ensures yes { IsTrue result → (was_failed ≡ false) × (self.now.place.held ≡ true) × (self.now.cache.first.last ≡ true)
            × (self.now.place.number ≡ number) }
        ensures no { result ≡ false → was_failed ≡ false → (self.now.place.held ≡ true) × (self.now.cache.first.last ≡ true)
            × (self.now.place.number ≡ number) → ⊥ }
    {
        !was_failed && self.place.held && self.cache.first.last && self.place.number == number
    }

    // Goes to the end. The last chunk is opened as the last, unless it is held so.
    fn enter_end(&mut self, start: u64, size: u64, len: u64, was_failed: bool) -> Result<(), Error>
        requires failed { self.old.place.failed ≡ true }
        requires sought { self.old.place.sought ≡ true }
        requires start { IsTrue (tells_from self.old.source) → start ≡ R.place self.old.source.inner - self.old.source.taken }
        requires size { IsTrue (tells_from self.old.source) → size ≡ length (payload_of self.old).bytes }
        requires last { IsLastChunk size (final_chunk size) }
        requires len { len + 16 * (final_chunk size + 1) ≡ size }
        requires limit { len ≤ 2 ^ 60 }
        ensures keeps { KeepsPayload (IsPayloadSeekRefusal R.seek_refuses) self.old.source self.new.source result }
        ensures same { (self.new.key ≡ self.old.key) × (self.new.place.sought ≡ true) }
        ensures enters { OnOk result (EntersEnd self.old self.new (final_chunk size) len) }
        ensures refused { IfErr result (RefusesStep self.old self.new (IsNoLast self.old (final_chunk size))) }
        ensures says { IfErr result (SaysWhyEnd R.seek_refuses self.old self.new (final_chunk size)) }
        ensures opens { (self.old.opens ≤ self.new.opens) × (self.new.opens ≤ self.old.opens + 1) }
        ensures none { was_failed ≡ false → HasEnd self.old (final_chunk size) → self.new.opens ≡ self.old.opens }
        ensures chunks { OnOk result (KeepsAtEnd self.old self.new (final_chunk size) was_failed) }
    {
        let number = (size - 1) / CHUNK as u64;
        if self.holds_last(number, was_failed) {
            self.source.stand(start, size)?;
            self.cache.used = true;
            self.place = Place::reached(number, self.cache.first.piece.len(), true);
            return Ok(());
        }
        self.place.held = false;
        self.cache.keep_if(self.alloc, !was_failed);
        if self.cache.find_last(self.alloc, number) {
            self.source.stand(start, size)?;
            self.cache.used = true;
            self.place = Place::reached(number, self.cache.first.piece.len(), true);
            return Ok(());
        }
        self.source.stand(start, CHUNK as u64 * number)?;
        self.open_last(number)
    }

    // A seek whose target isn't below the start by the place alone.
    fn seek_on(&mut self, to: SeekFrom) -> Result<u64, Error>
        requires { below_start to (place_of self.old) ≡ false }
        ensures { SeeksPayload R.seek_refuses self.old self.new to result }
    {
        let place = self.place.before();
        let was_failed = self.place.failed;
        let taken = self.source.taken;
        // It stays so on each way out but a success and a refusal.
        self.place.failed = true;
        self.place.sought = true;
        let (start, size) = self.source.look()?;
        match find(to, place, size) {
            Err(e) => {
                if !is_outside(e) {
                    return Err(e);
                }
                self.source.stand(start, taken)?;
                self.place.failed = was_failed;
                Err(e)
            }
            Ok((target, len)) => {
                if target == len {
                    self.enter_end(start, size, len, was_failed)?;
                    return Ok(target);
                }
                self.enter(start, size, target, was_failed)?;
                Ok(target)
            }
        }
    }
}

impl<S: Suite, R: Seek> Seek for StreamReader<S, R> {
    ghost use Rattle.age_stream.specs.Seeking.{SeeksPayload, LeadsInPayload, LeavesSought, OpensOnceAtMost, KeepsSought};

    ghost seek_refuses = { OrTooLong R.seek_refuses };

    ghost no_device = { or_too_long_no_device R.no_device };

    ghost seek_besides = { SeeksPayload R.seek_refuses };

    /// Moves to a target from 0 to the plaintext's length, counted in bytes of the plaintext, and answers the new place. A
    /// success makes a failed reader good again.
    ///
    /// The plaintext's length is what the payload's own length gives, whatever its chunks are. A target before the end opens
    /// nothing: the chunk there is opened, and judged by itself, when it is read, unless it is one of the two that are kept. A
    /// target at the end opens the last chunk as the last, unless it is held or kept as such. The tests come in this order:
    ///
    /// - `BeforeStart`: the target is reckoned from the place, and below 0.
    /// - `BadEnd`: the payload's length is that of no plaintext.
    /// - `TooLong`: it is that of a plaintext of more than 2^60 bytes.
    /// - `BeforeStart`: the target is reckoned from the end, and below 0. `PastEnd`: it is after the end.
    /// - `BadEnd`: the target is the end, and the last chunk doesn't open as the last.
    ///
    /// Before and between them a refusal of the inner reader is answered as it is, but for one that says that a target inside
    /// its own content is outside of it, which is `BadEnd`. There is no other `BadEnd` or `TooLong`, also where the device failed
    /// (`target`). Its interruptions are retried as by `seek_retrying` and `fill`. `OutOfMemory` where the suite was refused memory
    /// for the last chunk's plaintext.
    ///
    /// After `BeforeStart` and `PastEnd` the place is as it was, and so is a failure, and the inner reader stands where it
    /// stood. After any other refusal the reader has failed, at the same place (`leaves`). The payload's front is reckoned from where
    /// the inner reader stands, so a later seek is exact only over an inner reader whose refusals leave it where it was.
    ///
    /// It opens at most one chunk, the last, and only for a target at the end (`opens`). The two that are kept stay; where the last
    /// has to be opened, the one that was used last stays beside it (`chunks`).
    fn seek(&mut self, to: SeekFrom) -> Result<u64, Error>
        ensures seeks { SeeksBy ⟦<StreamReader<S, R> as Read>⟧ (OrTooLong R.seek_refuses) self.old self.new to result }
        ensures target { LeadsInPayload R.seek_refuses self.old self.new to result }
        ensures leaves { LeavesSought self.old self.new to result }
        ensures opens { OpensOnceAtMost self.old self.new to result }
        ensures chunks { KeepsSought self.old self.new to result }
    {
        let place = self.place.before();
        if is_below_start(to, place) {
            return Err(Error::BeforeStart);
        }
        self.seek_on(to)
    }
}
