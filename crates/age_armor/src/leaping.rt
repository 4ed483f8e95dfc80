//! Where a counted reader is taken to.
ghost use Rattle.std.specs.Prelude.{◌≡◌, ◌≢◌, ℕ, ◌+◌, ◌-◌, ◌^◌, ◌≤◌, ◌<◌, false, IsTrue, length, IfOk, IfErr, OnOk, OnErr, Some};
ghost use Rattle.age_error.specs.declared.io.Error.TheVariants.{OutOfMemory, PastEnd};
ghost use Rattle.age_io.specs.Stretch.{IsCleanEnd, from_place};
ghost use Rattle.age_io.specs.Reading.{IsQuiet, TriedAgain, most_faults};
ghost use Rattle.age_io.specs.Keeping.{KeepsReader, OrSeek};
ghost use Rattle.age_io.specs.Cursor.{IsOutside, place_at as place_by};
ghost use Rattle.age_armor.specs.Seeking.{OrAstray};
ghost use Rattle.age_armor.specs.PrivateSeeking.{Goes};
ghost use Rattle.age_armor.specs.Refusing.{OrWant};

use crate::counted::Counted;
use crate::showing::look;
use age_error::io::{Error, SeekFrom};
use age_io::{BufRead, Read, Seek, distance_back, seek_retrying, unrefused};

// The distance from one place to another.
fn distance(from: u64, to: u64) -> i64
    requires from { from < 2 ^ 63 }
    requires to { to < 2 ^ 63 }
    ensures { (place : ℕ) → from ≤ place → place_by place result ≡ Some (place - from + to) }
{
    if from <= to {
        (to - from) as i64
    } else {
        distance_back(from - to)
    }
}

fn is_past_end(error: Error) -> bool
    ensures yes { IsTrue result → error ≡ PastEnd }
    ensures no { result ≡ false → error ≢ PastEnd }
{
    matches!(error, Error::PastEnd)
}

impl<R: BufRead + Seek> Counted<R> {
    /// Goes to where so many bytes had been taken. Where the inner reader says that this is past its end it answers false, and has
    /// not moved.
    #[tactic(auto, using(crate::proofs::AheadLines::ahead_none))]
    pub(crate) fn leap(&mut self, taken: u64) -> Result<bool, Error>
        ensures keeps { KeepsReader ⟦<R as Read>⟧
            (OrSeek (OrAstray R.Seek.seek_refuses) (TriedAgain R.Read.refuses)) self.old.inner self.new.inner result }
        ensures unspent { IfOk result (λ there. IsTrue there → R.Read.faults self.new.inner < most_faults) }
        ensures lines { self.new.lines ≡ self.old.lines }
        ensures origin { IsTrue (R.Read.tells self.old.inner) →
            R.Read.place self.new.inner - self.new.taken ≡ R.Read.place self.old.inner - self.old.taken }
        ensures there { IfOk result (λ there. IsTrue there → (self.new.taken ≡ taken) × (taken < 2 ^ 63)) }
        ensures stays { IfOk result (λ there. there ≡ false → self.new.taken ≡ self.old.taken) }
        ensures refused { OnErr result (self.new.taken ≡ self.old.taken) }
        ensures within { IsTrue (R.Read.tells self.old.inner) → IsTrue (R.Read.steady self.old.inner) → IfOk result (λ there. IsTrue there →
            R.Read.place self.old.inner - self.old.taken + taken ≤ length (R.Read.content self.old.inner).bytes) }
        ensures rest { IsTrue (R.Read.tells self.old.inner) → IsTrue (R.Read.steady self.old.inner) → IfOk result (λ there. IsTrue there →
            R.Read.rest self.new.inner ≡ from_place (R.Read.place self.old.inner - self.old.taken + taken) (R.Read.content self.old.inner)) }
        ensures past { IsTrue (R.Read.tells self.old.inner) → IsTrue (R.Read.content self.old.inner).ends_well → IfOk result (λ there. there ≡ false →
            length (R.Read.content self.old.inner).bytes < R.Read.place self.old.inner - self.old.taken + taken) }
        ensures other { IfErr result (λ e. IsOutside e → ⊥) }
        ensures cause { IsTrue (R.Read.tells self.old.inner) → IsTrue (R.Read.content self.old.inner).ends_well →
            IfErr result (λ e. e ≢ OutOfMemory → IsQuiet (R.Read.faults self.old.inner) (R.Read.faults self.new.inner) → ⊥) }
    {
        self.left = 0;
        // No content has so many bytes.
        if taken > i64::MAX as u64 {
            return Ok(false);
        }
        if self.taken > i64::MAX as u64 {
            return Err(Error::TooLong);
        }
        match seek_retrying(
            &mut self.inner,
            SeekFrom::Current(distance(self.taken, taken)),
        ) {
            Ok(_place) => {
                self.taken = taken;
                Ok(true)
            }
            Err(e) => {
                if is_past_end(e) {
                    return Ok(false);
                }
                Err(unrefused(e))
            }
        }
    }

    /// Goes to where so many bytes had been taken.
    pub(crate) fn go(&mut self, taken: u64) -> Result<(), Error>
        ensures goes { Goes ⟦<R as Read>⟧ (OrSeek (OrAstray R.Seek.seek_refuses) (TriedAgain R.Read.refuses)) self.old.inner self.new.inner result }
        ensures taken { OnOk result ((self.new.taken ≡ taken) × (taken < 2 ^ 63)) }
        ensures stays { OnErr result (self.new.taken ≡ self.old.taken) }
        ensures lines { self.new.lines ≡ self.old.lines }
        ensures origin { IsTrue (R.Read.tells self.old.inner) →
            R.Read.place self.new.inner - self.new.taken ≡ R.Read.place self.old.inner - self.old.taken }
        ensures rest { IsTrue (R.Read.tells self.old.inner) → IsTrue (R.Read.steady self.old.inner) → OnOk result
            (R.Read.rest self.new.inner ≡ from_place (R.Read.place self.old.inner - self.old.taken + taken) (R.Read.content self.old.inner)) }
        ensures other { IfErr result (λ e. IsOutside e → ⊥) }
        ensures cause { IsTrue (R.Read.tells self.old.inner) → IsTrue (R.Read.content self.old.inner).ends_well →
            R.Read.place self.old.inner - self.old.taken + taken ≤ length (R.Read.content self.old.inner).bytes →
            IfErr result (λ e. e ≢ OutOfMemory → IsQuiet (R.Read.faults self.old.inner) (R.Read.faults self.new.inner) → ⊥) }
    {
        match self.leap(taken) {
            Err(e) => Err(e),
            Ok(there) => { if there { Ok(()) } else { Err(Error::Failed) } }
        }
    }

    // Counts from now on all that stands before the inner reader, which is asked for its place, and answers how many bytes these
    // are more than were counted.
    #[tactic(auto, using(crate::proofs::AheadLines::ahead_none))]
    fn count_all(&mut self) -> Result<u64, Error>
        ensures goes { Goes ⟦<R as Read>⟧ (OrSeek (OrAstray R.Seek.seek_refuses) (TriedAgain R.Read.refuses)) self.old.inner self.new.inner result }
        ensures lines { self.new.lines ≡ self.old.lines }
        ensures place { IsTrue (R.Read.tells self.old.inner) → R.Read.place self.new.inner ≡ R.Read.place self.old.inner }
        ensures all { IsTrue (R.Read.tells self.old.inner) → OnOk result (self.new.taken ≡ R.Read.place self.new.inner) }
        ensures more { IsTrue (R.Read.tells self.old.inner) → IfOk result (λ n. n ≡ R.Read.place self.old.inner - self.old.taken) }
        ensures stays { OnErr result (self.new.taken ≡ self.old.taken) }
        ensures other { IfErr result (λ e. IsOutside e → ⊥) }
        ensures cause { IsTrue (R.Read.tells self.old.inner) → IsTrue (R.Read.content self.old.inner).ends_well →
            IfErr result (λ e. e ≢ OutOfMemory → IsQuiet (R.Read.faults self.old.inner) (R.Read.faults self.new.inner) → ⊥) }
    {
        self.left = 0;
        match seek_retrying(&mut self.inner, SeekFrom::Current(0)) {
            Err(e) => Err(unrefused(e)),
            Ok(place) => {
                let more = place.saturating_sub(self.taken);
                self.taken = place;
                Ok(more)
            }
        }
    }

    // Goes to the end of the inner reader, all before which is counted.
    #[tactic(auto, using(crate::proofs::AheadLines::ahead_none))]
    fn leap_to_end(&mut self) -> Result<(), Error>
        requires all { IsTrue (R.Read.tells self.old.inner) → self.old.taken ≡ R.Read.place self.old.inner }
        ensures goes { Goes ⟦<R as Read>⟧ (OrSeek (OrAstray R.Seek.seek_refuses) (TriedAgain R.Read.refuses)) self.old.inner self.new.inner result }
        ensures lines { self.new.lines ≡ self.old.lines }
        ensures all { IsTrue (R.Read.tells self.old.inner) → self.new.taken ≡ R.Read.place self.new.inner }
        ensures onward { IsTrue (R.Read.tells self.old.inner) → IsTrue (R.Read.steady self.old.inner) →
            R.Read.place self.old.inner ≤ R.Read.place self.new.inner }
        ensures rest { IsTrue (R.Read.tells self.old.inner) → IsTrue (R.Read.steady self.old.inner) → OnOk result
            ((R.Read.rest self.new.inner ≡ from_place (R.Read.place self.new.inner) (R.Read.content self.old.inner))
            × (R.Read.place self.new.inner ≡ length (R.Read.content self.old.inner).bytes)) }
        ensures other { IfErr result (λ e. IsOutside e → ⊥) }
        ensures cause { IsTrue (R.Read.tells self.old.inner) → IsTrue (R.Read.content self.old.inner).ends_well →
            IfErr result (λ e. e ≢ OutOfMemory → IsQuiet (R.Read.faults self.old.inner) (R.Read.faults self.new.inner) → ⊥) }
    {
        self.left = 0;
        match seek_retrying(&mut self.inner, SeekFrom::End(0)) {
            Err(e) => Err(unrefused(e)),
            Ok(place) => {
                self.taken = place;
                Ok(())
            }
        }
    }

    // Goes to the end of the inner reader, all before which is counted, and sees that it is a clean one.
    fn see_end(&mut self) -> Result<(), Error>
        requires all { IsTrue (R.Read.tells self.old.inner) → self.old.taken ≡ R.Read.place self.old.inner }
        ensures goes { Goes ⟦<R as Read>⟧ (OrSeek (OrAstray R.Seek.seek_refuses) (OrWant ⟦<R as Read>⟧)) self.old.inner self.new.inner result }
        ensures lines { self.new.lines ≡ self.old.lines }
        ensures all { IsTrue (R.Read.tells self.old.inner) → self.new.taken ≡ R.Read.place self.new.inner }
        ensures onward { IsTrue (R.Read.tells self.old.inner) → IsTrue (R.Read.steady self.old.inner) →
            R.Read.place self.old.inner ≤ R.Read.place self.new.inner }
        ensures rest { IsTrue (R.Read.tells self.old.inner) → IsTrue (R.Read.steady self.old.inner) → OnOk result
            ((R.Read.rest self.new.inner ≡ from_place (R.Read.place self.new.inner) (R.Read.content self.old.inner))
            × (R.Read.place self.new.inner ≡ length (R.Read.content self.old.inner).bytes)) }
        ensures end { IsTrue (R.Read.tells self.old.inner) → OnOk result (IsCleanEnd (R.Read.rest self.new.inner)) }
        ensures other { IfErr result (λ e. IsOutside e → ⊥) }
        ensures cause { IsTrue (R.Read.tells self.old.inner) → IsTrue (R.Read.content self.old.inner).ends_well →
            IfErr result (λ e. e ≢ OutOfMemory → IsQuiet (R.Read.faults self.old.inner) (R.Read.faults self.new.inner) → ⊥) }
    {
        match self.leap_to_end() {
            Err(e) => return Err(e),
            Ok(()) => {}
        }
        match self.is_at_end() {
            Err(e) => Err(unrefused(e)),
            Ok(end) => { if end { Ok(()) } else { Err(Error::Failed) } }
        }
    }

    /// Goes to the end of the inner reader, and sees that it is a clean one. From then on all that stands before the inner reader is
    /// counted, and `preceding` is raised by as much as the count: so many of the counted bytes precede the text.
    pub(crate) fn go_to_end(&mut self, preceding: &mut u64) -> Result<(), Error>
        requires begins { IsTrue (R.Read.tells self.old.inner) → R.Read.place self.old.inner - self.old.taken + preceding.old < 2 ^ 63 }
        ensures goes { Goes ⟦<R as Read>⟧ (OrSeek (OrAstray R.Seek.seek_refuses) (OrWant ⟦<R as Read>⟧)) self.old.inner self.new.inner result }
        ensures lines { self.new.lines ≡ self.old.lines }
        ensures origin { IsTrue (R.Read.tells self.old.inner) →
            R.Read.place self.new.inner - self.new.taken + preceding.new ≡ R.Read.place self.old.inner - self.old.taken + preceding.old }
        ensures behind { IsTrue (R.Read.tells self.old.inner) → IsTrue (R.Read.steady self.old.inner) →
            preceding.old ≤ self.old.taken → preceding.new ≤ self.new.taken }
        ensures all { IsTrue (R.Read.tells self.old.inner) → OnOk result
            ((self.new.taken ≡ R.Read.place self.new.inner) × (preceding.new ≡ R.Read.place self.old.inner - self.old.taken + preceding.old)) }
        ensures rest { IsTrue (R.Read.tells self.old.inner) → IsTrue (R.Read.steady self.old.inner) → OnOk result
            ((R.Read.rest self.new.inner ≡ from_place (R.Read.place self.new.inner) (R.Read.content self.old.inner))
            × (R.Read.place self.new.inner ≡ length (R.Read.content self.old.inner).bytes)) }
        ensures end { IsTrue (R.Read.tells self.old.inner) → OnOk result (IsCleanEnd (R.Read.rest self.new.inner)) }
        ensures other { IfErr result (λ e. IsOutside e → ⊥) }
        ensures cause { IsTrue (R.Read.tells self.old.inner) → IsTrue (R.Read.content self.old.inner).ends_well →
            IfErr result (λ e. e ≢ OutOfMemory → IsQuiet (R.Read.faults self.old.inner) (R.Read.faults self.new.inner) → ⊥) }
    {
        match self.count_all() {
            Err(e) => return Err(e),
            Ok(more) => *preceding = preceding.saturating_add(more),
        }
        self.see_end()
    }
}
