//! Where the payload of a `StreamReader` comes from, and what is asked of it. Nothing else asks it.
ghost use Rattle.std.specs.Prelude.{◌≡◌, ◌≢◌, ◌+◌, ◌-◌, ◌<◌, ◌≤◌, ◌&&◌, true, IsTrue, length, take, IfOk, IfErr, OnOk, Ok, Err};
ghost use Rattle.age_error.specs.declared.io.Error.TheVariants.{OutOfMemory};
ghost use Rattle.age_io.specs.Reading.{IsQuiet, EndsEarly, TriedAgain, most_faults};
ghost use Rattle.age_io.specs.Keeping.{KeepsReader};
ghost use Rattle.age_io.specs.Turns.{GivesTried, RefusesTried};

use crate::seeking::lost;
use crate::sizes::CHUNK;
use age_error::io::{Error, SeekFrom};
use age_io::{Read, Seek, fill, room_for, seek_retrying};
use std::alloc::Global;

/// The reader that a payload comes from, and how much of it was taken.
pub(crate) struct Source<R: Read> {
    pub(crate) inner: R,
    // Room for one sealed chunk.
    pub(crate) room: Vec<u8>,
    // How many bytes of the payload stand before the place of the inner reader: exactly so of one that tells its bytes, which has fewer
    // than 2^63. Any other may have given more, and the count stays at 2^64 - 1.
    pub(crate) taken: u64,
    ghost size: { length room.items ≡ 65552 },
    ghost fits: { IsTrue (R.tells inner && R.steady inner) → taken ≤ R.place inner },
}

impl<R: Read> Source<R> {
    ghost use Rattle.age_stream.specs.Naming.{RefusedBelow};
    ghost use Rattle.age_stream.specs.PrivateKeeping.{KeepsPayload};
    ghost use Rattle.age_stream.specs.PrivateSource.{TakesBytes};
    ghost use Rattle.age_stream.specs.Reading.{TookFromInner};

    // The payload begins where the inner reader stands.
    pub(crate) fn new(alloc: Global, inner: R) -> Result<Source<R>, Error>
    where
        R: Drop,
        ensures made { IfOk result (λ source. (source.inner ≡ inner) × (source.taken ≡ 0)) }
        ensures memory { IfErr result (λ e. e ≡ OutOfMemory) }
    {
        let room = room_for(alloc, CHUNK)?;
        Ok(Source {
            inner,
            room,
            taken: 0,
        })
    }

    // Hands back the inner reader as it stands.
    pub(crate) fn into_inner(self) -> R
        ensures { result ≡ self.inner }
    {
        let Source {
            inner,
            room: _,
            taken: _,
        } = self;
        inner
    }

    // Reads so many bytes into the front of the room, or all that are left. `filled` says how many came, also after a refusal.
    #[tactic(auto, using(crate::proofs::Holding::took_text))]
    fn fill_front(
        reader: &mut R,
        room: &mut [u8],
        asked: usize,
        filled: &mut usize,
    ) -> Result<(), Error>
        requires some { 0 < asked }
        requires room { asked ≤ length room.old }
        ensures keeps { KeepsReader ⟦<R as Read>⟧ (TriedAgain R.refuses) reader.old reader.new result }
        ensures most { OnOk result (R.faults reader.new < most_faults) × (filled.new ≤ asked) }
        ensures moves { IsTrue (R.tells reader.old) → R.place reader.new ≡ R.place reader.old + filled.new }
        ensures took { IsTrue (R.tells reader.old)
            → OnOk result (TookFromInner asked (R.rest reader.old) (R.rest reader.new) (take filled.new room.new)) }
        ensures cause { IsTrue (R.tells reader.old) → IfErr result (λ e. e ≢ OutOfMemory →
            IsQuiet (R.faults reader.old) (R.faults reader.new) → EndsEarly asked (R.rest reader.old)) }
        ensures turns { OnOk result (GivesTried ⟦<R as Read>⟧ asked (take filled.new room.new) reader.old reader.new) }
        ensures refused { IfErr result (λ e. RefusesTried ⟦<R as Read>⟧ asked (take filled.new room.new) e reader.old reader.new) }
    {
        fill(reader, &mut room[..asked], filled)
    }

    // Takes so many bytes of the inner reader into the front of the room, or all that are left, and answers how many they are.
    pub(crate) fn take(&mut self, asked: usize) -> Result<usize, Error>
        requires some { 0 < asked }
        requires room { asked ≤ 65552 }
        ensures keeps { KeepsPayload (λ _. ⊥) self.old self.new result }
        ensures takes { IfOk result (TakesBytes asked self.old self.new) }
        ensures cause { IsTrue (R.tells self.old.inner) → IfErr result (λ e. e ≢ OutOfMemory →
            IsQuiet (R.faults self.old.inner) (R.faults self.new.inner) → EndsEarly asked (R.rest self.old.inner)) }
        ensures refused { IfErr result (RefusedBelow ⟦<R as Read>⟧ asked self.old.inner self.new.inner) }
    {
        let mut count = 0;
        let answer = Source::fill_front(&mut self.inner, &mut self.room, asked, &mut count);
        self.taken = self.taken.saturating_add(count as u64);
        answer?;
        Ok(count)
    }
}

impl<R: Seek> Source<R> {
    ghost use Rattle.age_stream.specs.Naming.{RefusedOnTheWay};
    ghost use Rattle.age_stream.specs.PrivateKeeping.{IsPayloadSeekRefusal, KeepsPayload};
    ghost use Rattle.age_stream.specs.PrivateSource.{IsPlaced, RefusesPlace};
    ghost use Rattle.age_stream.specs.Reading.{payload_from, tells_from};

    // Where the payload starts in the inner content, and how long it is. The inner reader goes to the end.
    pub(crate) fn look(&mut self) -> Result<(u64, u64), Error>
        ensures keeps { KeepsPayload (IsPayloadSeekRefusal R.seek_refuses) self.old self.new result }
        ensures found { IsTrue (tells_from self.old) → IfOk result (λ found.
            (found.0 ≡ R.place self.old.inner - self.old.taken) × (found.0 ≡ R.place self.new.inner - self.new.taken)
            × (found.1 ≡ length (payload_from self.old).bytes)) }
        ensures refused { IfErr result (RefusesPlace self.old self.new) }
        ensures says { IfErr result (RefusedOnTheWay ⟦<R as Read>⟧ R.seek_refuses self.new.inner) }
    {
        match seek_retrying(&mut self.inner, SeekFrom::Current(0)) {
            Err(e) => Err(lost(e)),
            Ok(place) => {
                let start = place.saturating_sub(self.taken);
                match seek_retrying(&mut self.inner, SeekFrom::End(0)) {
                    Err(e) => Err(lost(e)),
                    Ok(end) => {
                        let size = end.saturating_sub(start);
                        self.taken = size;
                        Ok((start, size))
                    }
                }
            }
        }
    }

    // Puts the inner reader at a place of the payload.
    pub(crate) fn stand(&mut self, start: u64, place: u64) -> Result<(), Error>
        requires start { IsTrue (tells_from self.old) → start ≡ R.place self.old.inner - self.old.taken }
        requires within { IsTrue (tells_from self.old) → place ≤ length (payload_from self.old).bytes }
        ensures keeps { KeepsPayload (IsPayloadSeekRefusal R.seek_refuses) self.old self.new result }
        ensures stands { OnOk result (IsPlaced self.old self.new place) }
        ensures start { IsTrue (tells_from self.old) → start ≡ R.place self.new.inner - self.new.taken }
        ensures refused { IfErr result (RefusesPlace self.old self.new) }
        ensures says { IfErr result (RefusedOnTheWay ⟦<R as Read>⟧ R.seek_refuses self.new.inner) }
    {
        match seek_retrying(
            &mut self.inner,
            SeekFrom::Start(start.saturating_add(place)),
        ) {
            Err(e) => Err(lost(e)),
            Ok(_) => {
                self.taken = place;
                Ok(())
            }
        }
    }
}

impl<R: Read + Drop> Drop for Source<R> {
    fn drop(self) {
        let Source {
            inner: _,
            room: _,
            taken: _,
        } = self;
    }
}
