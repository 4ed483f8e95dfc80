//! Seeks in armor.
ghost use Rattle.std.specs.Prelude.{◌≡◌, ◌≢◌, ℕ, ◌+◌, ◌^◌, ◌≤◌, ◌<◌, ◌⊎◌, true, false, IsTrue, [], length, Result, IfOk, IfErr, OnOk, Ok, Err, Some, None};
ghost use Rattle.age_error.specs.Refusals.{IsDevice};
ghost use Rattle.age_error.specs.declared.io.Error.TheVariants.{OutOfMemory, BeforeStart, PastEnd, TooLong};
ghost use Rattle.age_error.specs.declared.io.SeekFrom.TheVariants.{Start, End, Current};
ghost use Rattle.age_io.specs.Stretch.{nothing, IsCleanEnd};
ghost use Rattle.age_io.specs.Reading.{IsQuiet, most_faults};
ghost use Rattle.age_io.specs.Keeping.{KeepsReader, OrSeek};
ghost use Rattle.age_io.specs.Failing.{FailsForGood};
ghost use Rattle.age_io.specs.Cursor.{IsOutside, IsSeekRefusal, place_at as place_by, sought as sought_by};
ghost use Rattle.age_io.specs.CursorLemmas.{or_too_long_no_device, or_failed_no_device};
ghost use Rattle.age_v1.specs.DeliveredArmor.{begins_armor};
ghost use Rattle.age_armor.specs.Seeking.{OrAstray, AsksPast, IsEarly};
ghost use Rattle.age_armor.specs.PrivateSeeking.{Goes, SeeksText, ComesBack};
ghost use Rattle.age_armor.specs.Stages.{is_start};
ghost use Rattle.age_armor.specs.Refusing.{OrWant};
ghost use Rattle.age_armor.specs.declared.stages.Stage.TheVariants.{Binary};

use crate::reader::ArmoredReader;
use crate::stages::Stage;
use age_error::io::{Error, SeekFrom};
use age_io::{BufRead, Read, Seek, is_outside, place_at, unrefused};

// The target at this distance from the end. A length of 2^63 or more is `TooLong`.
fn from_end(len: u64, distance: i64) -> Result<u64, Error>
    ensures exact { len < 2 ^ 63 → (place : ℕ) → result ≡ sought_by (End distance) place len }
    ensures other { IfErr result (λ e. IsDevice e → ⊥) }
    ensures why { IfErr result (IsSeekRefusal (λ e. e ≡ TooLong)) }
{
    if len > i64::MAX as u64 {
        return Err(Error::TooLong);
    }
    match place_at(len, distance) {
        None => Err(Error::BeforeStart),
        Some(target) => {
            if target > len {
                return Err(Error::PastEnd);
            }
            Ok(target)
        }
    }
}

// Whether a text is known to be binary.
fn is_binary(stage: Stage) -> bool
    ensures yes { IsTrue result → stage ≡ Binary }
    ensures no { result ≡ false → stage ≡ Binary → ⊥ }
{
    matches!(stage, Stage::Binary)
}

// Whether anything was read.
fn has_begun(stage: Stage) -> bool
    ensures yes { IsTrue result → is_start stage ≡ false }
    ensures no { result ≡ false → is_start stage ≡ true }
{
    !matches!(stage, Stage::Start)
}

impl<R: BufRead + Seek> ArmoredReader<R> {
    ghost use Rattle.age_armor.specs.Reader.{inner_of, taken_of, source_of, furthest_of, notes_all, shown_of};
    ghost use Rattle.age_armor.specs.Steps.{WhereSteady};
    ghost use Rattle.age_armor.specs.PrivateSteps.{KeepsText, StandsInText, FailsThere};

    // Goes to the last mark that isn't after a place, or to the front of the text. A binary text has no marks.
    fn approach(&mut self, target: u64) -> Result<(), Error>
        requires { self.old.stage ≡ Binary → ⊥ }
        ensures goes { let reader = ⟦<ArmoredReader<R> as Read>⟧ in
            Goes reader (OrSeek (OrAstray R.Seek.seek_refuses) reader.refuses) self.old self.new result }
        ensures text { KeepsText self.old self.new }
        ensures stands { StandsInText self.old self.new result }
        ensures before { OnOk result (self.new.place ≤ target) }
        ensures near { WhereSteady self.old (IsTrue (notes_all self.old) → IsTrue (begins_armor (source_of self.old).bytes)
            → target ≤ furthest_of self.old →
            OnOk result (target ≤ self.new.place + 49152)) }
        ensures unread { (self.new.source.lines ≡ self.old.source.lines) × (self.new.marks ≡ self.old.marks) }
        ensures front { target ≡ 0 → OnOk result ((taken_of self.new ≡ 0) × (shown_of self.new ≡ [])) }
        ensures fails { FailsThere self.old self.new result }
        ensures cause { IsTrue (R.Read.tells (inner_of self.old)) → IsTrue (R.Read.content (inner_of self.old)).ends_well →
            IfErr result (λ e. e ≢ OutOfMemory → IsQuiet (R.Read.faults (inner_of self.old)) (R.Read.faults (inner_of self.new)) → ⊥) }
    {
        let mark = self.marks.last(target);
        match self.source.go(self.preceding.saturating_add(mark.taken)) {
            Err(e) => {
                self.failed = true;
                Err(e)
            }
            Ok(()) => {
                self.stage = mark.stage;
                self.window.clear();
                self.place = mark.place;
                self.failed = false;
                Ok(())
            }
        }
    }
}

impl<R: BufRead> ArmoredReader<R> {
    ghost use Rattle.age_armor.specs.Reader.{inner_of, has_failed};
    ghost use Rattle.age_armor.specs.PrivateSteps.{WhereTold, KeepsText, EndsAsBefore, ComesTo, WalksAlong, CountsLines};

    // Reads on to a place, or to a clean end before it, and tells whether it came to the place.
    fn walk(&mut self, target: u64) -> Result<bool, Error>
        requires good { self.old.failed ≡ false }
        requires before { self.old.place ≤ target }
        requires unspent { R.Read.faults (inner_of self.old) < most_faults }
        ensures goes { let reader = ⟦<ArmoredReader<R> as Read>⟧ in Goes reader reader.refuses self.old self.new result }
        ensures text { KeepsText self.old self.new }
        ensures good { FailsForGood (has_failed self.old) (has_failed self.new) result }
        ensures ending { EndsAsBefore self.old self.new result }
        ensures comes { ComesTo self.old self.new target result }
        ensures along { WalksAlong self.old self.new target result }
        ensures takes { CountsLines self.old self.new target result }
        ensures begun { WhereTold self.old (self.old.place < target → OnOk result (is_start self.new.stage ≡ false)) }
        ensures still { self.old.place ≡ target → (result ≡ Ok true) × (self.new ≡ self.old) }
    {
        let mut room = [0; 1024];
        let mut left = target - self.place;
        'reads: while left > 0 {
            let most = left.min(room.len() as u64) as usize;
            match self.read_on(&mut room[..most]) {
                Err(e) => return Err(e),
                Ok(0) => return Ok(false),
                Ok(count) => left -= count as u64,
            }
        }
        Ok(true)
    }
}

impl<R: BufRead + Seek> ArmoredReader<R> {
    ghost use Rattle.age_armor.specs.Reader.{inner_of, origin_of, place_of, furthest_of, notes_all, knows_end, armored_content, armored_rest};
    ghost use Rattle.age_armor.specs.Steps.{WhereSteady, WherePlain, LandsBelow, StandsBelow};
    ghost use Rattle.age_armor.specs.PrivateSteps.{WhereTold, KeepsText, IsNew, StandsInText, FailsThere, GoesTo, ReachesEnd, Reaches, Misses, FindsEnd, SparesReading, StaysThere};

    // Whether a reader that has begun, and hasn't failed, stands at a place.
    fn is_at(&self, place: u64) -> bool
        ensures yes { IsTrue result → (self.now.failed ≡ false) × (is_start self.now.stage ≡ false) × (self.now.place ≡ place) }
        ensures no { result ≡ false → self.now.failed ≡ false → is_start self.now.stage ≡ false → self.now.place ≡ place → ⊥ }
    {
        if self.failed || self.place != place {
            return false;
        }
        has_begun(self.stage)
    }

    // Whether nothing was read, so that the form of the text isn't known.
    fn is_new(&self) -> bool
        ensures yes { IsTrue result → IsNew self.now }
        ensures no { result ≡ false → IsNew self.now → ⊥ }
    {
        if has_begun(self.stage) {
            return false;
        }
        self.marks.knows_none()
    }

    // Finds out which form the text has, where nothing was read and the target is behind the front: it reads a byte for that.
    fn find_form(&mut self, target: u64) -> Result<(), Error>
        ensures keeps { let reader = ⟦<ArmoredReader<R> as Read>⟧ in
            KeepsReader reader (OrSeek (OrAstray R.Seek.seek_refuses) reader.refuses) self.old self.new result }
        ensures text { KeepsText self.old self.new }
        ensures finds { OnOk result ((self.new ≡ self.old) ⊎ (IsNew self.old × (0 < target))) }
        ensures known { WherePlain self.old (0 < target → OnOk result (is_start self.new.stage ≡ false)) }
        ensures other { IfErr result (λ e. IsOutside e → ⊥) }
        ensures misses { IfErr result (λ e. (to : SeekFrom) → ((len : ℕ) → len < target → AsksPast to (place_of self.old) len)
            → Misses self.old self.new to (Err e)) }
    {
        if target == 0 || !self.is_new() {
            return Ok(());
        }
        match self.approach(0) {
            Err(e) => return Err(e),
            Ok(()) => {}
        }
        match self.walk(1) {
            Err(e) => Err(unrefused(e)),
            Ok(_there) => Ok(()),
        }
    }

    // Goes to the end of a binary text, for which the inner reader is asked.
    fn jump_to_end(&mut self) -> Result<(), Error>
        requires { self.old.stage ≡ Binary }
        ensures below { KeepsReader ⟦<R as Read>⟧ (OrSeek (OrAstray R.Seek.seek_refuses) (OrWant ⟦<R as Read>⟧)) (inner_of self.old)
            (inner_of self.new) result }
        ensures unspent { OnOk result (R.Read.faults (inner_of self.new) < most_faults) }
        ensures origin { WhereTold self.old (origin_of self.new ≡ origin_of self.old) }
        ensures text { KeepsText self.old self.new }
        ensures stands { StandsInText self.old self.new result }
        ensures end { WhereTold self.old (OnOk result (IsCleanEnd (armored_rest self.new))) }
        ensures knows { OnOk result (IsTrue (knows_end self.new)) }
        ensures lands { OnOk result (LandsBelow self.new self.new.place) }
        ensures lines { self.new.source.lines ≡ self.old.source.lines }
        ensures fails { FailsThere self.old self.new result }
        ensures cause { IsTrue (R.Read.tells (inner_of self.old)) → IsTrue (R.Read.content (inner_of self.old)).ends_well →
            IfErr result (λ e. e ≢ OutOfMemory → IsQuiet (R.Read.faults (inner_of self.old)) (R.Read.faults (inner_of self.new)) → ⊥) }
    {
        self.failed = true;
        match self.source.go_to_end(&mut self.preceding) {
            Err(e) => return Err(e),
            Ok(()) => {}
        }
        if self.source.taken < self.preceding {
            return Err(Error::Failed);
        }
        let len = self.source.taken - self.preceding;
        self.marks.reach(len);
        self.marks.learn(Stage::Binary, len, len, 0);
        self.window.clear();
        self.place = len;
        self.failed = false;
        Ok(())
    }

    // Goes to a place of a binary text, for which the inner reader is asked. A target past the end is refused once it is seen that
    // this is a clean one.
    fn jump(&mut self, target: u64) -> Result<u64, Error>
        requires { self.old.stage ≡ Binary }
        ensures goes { GoesTo R.Seek.seek_refuses self.old self.new (Start target) result }
        ensures lands { IfOk result (λ n. LandsBelow self.new n) }
        ensures lines { self.new.source.lines ≡ self.old.source.lines }
    {
        self.failed = true;
        match self.source.leap(self.preceding.saturating_add(target)) {
            Err(e) => return Err(e),
            Ok(there) => {
                if !there {
                    return match self.jump_to_end() {
                        Err(e) => Err(e),
                        Ok(()) => Err(Error::PastEnd),
                    };
                }
            }
        }
        self.marks.reach(target);
        self.window.clear();
        self.place = target;
        self.failed = false;
        Ok(target)
    }

    // Goes to a place through what stands before it, from the last mark on.
    fn go_along(&mut self, target: u64) -> Result<u64, Error>
        requires { self.old.stage ≡ Binary → ⊥ }
        ensures goes { GoesTo R.Seek.seek_refuses self.old self.new (Start target) result }
        ensures lines { WhereSteady self.old (IsTrue (notes_all self.old) → target ≤ furthest_of self.old
            → OnOk result (self.new.source.lines ≤ self.old.source.lines + 1024)) }
        ensures front { target ≡ 0 → IfOk result (λ n. (self.new.source.lines ≡ self.old.source.lines) × LandsBelow self.new n) }
    {
        match self.approach(target) {
            Err(e) => return Err(e),
            Ok(()) => {}
        }
        match self.walk(target) {
            Err(e) => Err(unrefused(e)),
            Ok(there) => {
                if there {
                    Ok(target)
                } else {
                    Err(Error::PastEnd)
                }
            }
        }
    }

    // Goes to a place as the form of the text allows, where that is known or the place is the front.
    fn go_by_form(&mut self, target: u64) -> Result<u64, Error>
        ensures goes { GoesTo R.Seek.seek_refuses self.old self.new (Start target) result }
        ensures lines { WhereSteady self.old (IsTrue (notes_all self.old) → target ≤ furthest_of self.old
            → OnOk result (self.new.source.lines ≤ self.old.source.lines + 1024)) }
        ensures unread { target ≡ 0 → OnOk result (self.new.source.lines ≡ self.old.source.lines) }
        ensures lands { WherePlain self.old ((is_start self.old.stage ≡ true → target ≡ 0) → IfOk result (λ n. LandsBelow self.new n)) }
    {
        if is_binary(self.stage) {
            self.jump(target)
        } else {
            self.go_along(target)
        }
    }

    // Goes to a place. Nothing is asked where it stands there, or where the text is known to end before it.
    fn go_to(&mut self, target: u64) -> Result<u64, Error>
        ensures goes { let reader = ⟦<ArmoredReader<R> as Read>⟧ in
            Goes reader (OrSeek (OrAstray R.Seek.seek_refuses) reader.refuses) self.old self.new result }
        ensures text { KeepsText self.old self.new }
        ensures reaches { Reaches self.old self.new (Start target) result }
        ensures misses { Misses self.old self.new (Start target) result }
        ensures spares { SparesReading self.old self.new (Start target) result }
        ensures stays { StaysThere self.old self.new target result }
        ensures below { StandsBelow self.old self.new result }
    {
        if self.is_at(target) {
            return Ok(target);
        }
        if self.marks.ends_before(target) {
            return Err(Error::PastEnd);
        }
        match self.find_form(target) {
            Err(e) => return Err(e),
            Ok(()) => {}
        }
        self.go_by_form(target)
    }

    // Goes to the end of a text that isn't binary: it is read from the last mark on.
    fn walk_to_end(&mut self) -> Result<(), Error>
        requires { self.old.stage ≡ Binary → ⊥ }
        ensures { ReachesEnd R.Seek.seek_refuses self.old self.new result }
    {
        match self.approach(u64::MAX) {
            Err(e) => return Err(e),
            Ok(()) => {}
        }
        match self.walk(u64::MAX) {
            Err(e) => Err(unrefused(e)),
            Ok(there) => { if there { Err(Error::TooLong) } else { Ok(()) } }
        }
    }

    // Goes to the end of a text as its form allows, where that is known.
    fn end_by_form(&mut self) -> Result<(), Error>
        ensures end { ReachesEnd R.Seek.seek_refuses self.old self.new result }
        ensures lands { WherePlain self.old (is_start self.old.stage ≡ false → OnOk result (LandsBelow self.new self.new.place)) }
    {
        if is_binary(self.stage) {
            self.jump_to_end()
        } else {
            self.walk_to_end()
        }
    }

    // Goes to the end of a text, which it knows from then on.
    fn reach_end(&mut self) -> Result<(), Error>
        ensures end { ReachesEnd R.Seek.seek_refuses self.old self.new result }
        ensures lands { WherePlain self.old (OnOk result (LandsBelow self.new self.new.place)) }
    {
        match self.find_form(u64::MAX) {
            Err(e) => return Err(e),
            Ok(()) => {}
        }
        self.end_by_form()
    }

    // Goes to a place counted from the end, which isn't known yet. At the end itself it stands then already.
    fn look_from_end(&mut self, distance: i64) -> Result<u64, Error>
        ensures goes { let reader = ⟦<ArmoredReader<R> as Read>⟧ in
            Goes reader (OrSeek (OrAstray R.Seek.seek_refuses) reader.refuses) self.old self.new result }
        ensures text { KeepsText self.old self.new }
        ensures reaches { Reaches self.old self.new (End distance) result }
        ensures misses { Misses self.old self.new (End distance) result }
        ensures finds { FindsEnd self.old self.new result }
        ensures below { StandsBelow self.old self.new result }
    {
        match self.reach_end() {
            Err(e) => return Err(e),
            Ok(()) => {}
        }
        let len = self.place;
        match from_end(len, distance) {
            Err(e) => Err(e),
            Ok(target) => {
                if target == len {
                    return Ok(target);
                }
                self.go_to(target)
            }
        }
    }

    // The target at a distance from the end, which is known.
    fn target_from_end(&self, len: u64, distance: i64) -> Result<u64, Error>
        requires { self.now.marks.length ≡ Some len }
        ensures well { WhereSteady self.now (IsTrue (armored_content self.now).ends_well) }
        ensures exact { WhereSteady self.now ((place : ℕ) → result ≡ sought_by (End distance) place (length (armored_content self.now).bytes)) }
        ensures within { WhereSteady self.now (IfOk result (λ n. (n ≤ length (armored_content self.now).bytes) × (n ≤ furthest_of self.now))) }
        ensures outside { WhereSteady self.now (IfErr result IsOutside) }
        ensures other { IfErr result (λ e. IsDevice e → ⊥) }
        ensures why { IfErr result (IsSeekRefusal (λ e. e ≡ TooLong)) }
    {
        from_end(len, distance)
    }

    // Goes to a place counted from the end.
    fn go_from_end(&mut self, distance: i64) -> Result<u64, Error>
        ensures goes { let reader = ⟦<ArmoredReader<R> as Read>⟧ in
            Goes reader (OrSeek (OrAstray R.Seek.seek_refuses) reader.refuses) self.old self.new result }
        ensures text { KeepsText self.old self.new }
        ensures reaches { Reaches self.old self.new (End distance) result }
        ensures misses { Misses self.old self.new (End distance) result }
        ensures finds { FindsEnd self.old self.new result }
        ensures spares { SparesReading self.old self.new (End distance) result }
        ensures below { StandsBelow self.old self.new result }
    {
        match self.marks.length() {
            None => self.look_from_end(distance),
            Some(len) => match self.target_from_end(len, distance) {
                Err(e) => Err(e),
                Ok(target) => self.go_to(target),
            },
        }
    }
}

impl<R: BufRead> ArmoredReader<R> {
    ghost use Rattle.age_armor.specs.Reader.{inner_of, armored_content, armored_rest};

    // A reader that has failed, at this place of the content.
    #[tactic(auto, using(crate::proofs::Ahead::rest_failed))]
    fn fail_at(&mut self, place: u64)
        requires fits { IsTrue (R.Read.tells (inner_of self.old)) → place < 2 ^ 63 }
        requires inside { IsTrue (R.Read.tells (inner_of self.old)) → IsTrue (R.Read.steady (inner_of self.old))
            → place ≤ length (armored_content self.old).bytes }
        ensures source { self.new.source ≡ self.old.source }
        ensures preceding { self.new.preceding ≡ self.old.preceding }
        ensures marks { self.new.marks ≡ self.old.marks }
        ensures failed { self.new.failed ≡ true }
        ensures place { self.new.place ≡ place }
        ensures rest { armored_rest self.new ≡ nothing }
    {
        self.place = place;
        self.failed = true;
    }
}

impl<R: BufRead + Seek> ArmoredReader<R> {
    ghost use Rattle.age_armor.specs.Reader.{inner_of, has_failed, text_outcome_of, armored_content, place_of};
    ghost use Rattle.age_armor.specs.Steps.{WhereSteady, StandsBelow};
    ghost use Rattle.age_armor.specs.PrivateSteps.{KeepsText, EndsAsText, FindsEnd, TakesFew};

    // Back to where it stood, once a seek was refused. After any other error it has failed there, and so has one that had
    // failed before.
    fn come_back(&mut self, place: u64, failed: bool, error: Error) -> Error
        requires fits { IsTrue (R.Read.tells (inner_of self.old)) → place < 2 ^ 63 }
        requires inside { IsTrue (R.Read.tells (inner_of self.old)) → IsTrue (R.Read.steady (inner_of self.old))
            → place ≤ length (armored_content self.old).bytes }
        ensures back { ComesBack ⟦<ArmoredReader<R> as Read>⟧ (λ r. has_failed r)
            (OrAstray R.Seek.seek_refuses) self.old self.new place failed error result }
        ensures text { KeepsText self.old self.new }
        ensures lines { WhereSteady self.old (self.old.failed ≡ failed → self.old.place ≡ place → IsOutside result
            → self.new.source.lines ≤ self.old.source.lines) }
        ensures ending { EndsAsText self.old self.new }
    {
        if failed {
            self.fail_at(place);
            return error;
        }
        if !is_outside(error) {
            self.fail_at(place);
            return error;
        }
        match self.go_to(place) {
            Ok(_there) => error,
            Err(e) => {
                self.fail_at(place);
                unrefused(e)
            }
        }
    }

    // A seek to a place.
    fn seek_to(&mut self, target: u64) -> Result<u64, Error>
        ensures seeks { SeeksText ⟦<ArmoredReader<R> as Read>⟧ (λ r. has_failed r) (OrAstray R.Seek.seek_refuses) self.old self.new (Start target)
            (R.Read.content (inner_of self.old)).ends_well (text_outcome_of self.old).ending result }
        ensures text { KeepsText self.old self.new }
        ensures takes { TakesFew self.old self.new (Start target) result }
        ensures below { StandsBelow self.old self.new result }
        ensures still { self.old.failed ≡ false → is_start self.old.stage ≡ false → self.old.place ≡ target →
            (result ≡ Ok target) × (self.new ≡ self.old) }
        ensures ending { EndsAsText self.old self.new }
    {
        let place = self.place;
        let failed = self.failed;
        match self.go_to(target) {
            Ok(there) => Ok(there),
            Err(e) => Err(self.come_back(place, failed, e)),
        }
    }

    // A seek from the end.
    fn seek_from_end(&mut self, distance: i64) -> Result<u64, Error>
        ensures seeks { SeeksText ⟦<ArmoredReader<R> as Read>⟧ (λ r. has_failed r) (OrAstray R.Seek.seek_refuses) self.old self.new (End distance)
            (R.Read.content (inner_of self.old)).ends_well (text_outcome_of self.old).ending result }
        ensures text { KeepsText self.old self.new }
        ensures finds { FindsEnd self.old self.new result }
        ensures takes { TakesFew self.old self.new (End distance) result }
        ensures below { StandsBelow self.old self.new result }
        ensures ending { EndsAsText self.old self.new }
    {
        let place = self.place;
        let failed = self.failed;
        match self.go_from_end(distance) {
            Ok(there) => Ok(there),
            Err(e) => Err(self.come_back(place, failed, e)),
        }
    }

    // A seek from the present place.
    fn seek_by(&mut self, distance: i64) -> Result<u64, Error>
        ensures seeks { SeeksText ⟦<ArmoredReader<R> as Read>⟧ (λ r. has_failed r) (OrAstray R.Seek.seek_refuses) self.old self.new (Current distance)
            (R.Read.content (inner_of self.old)).ends_well (text_outcome_of self.old).ending result }
        ensures text { KeepsText self.old self.new }
        ensures takes { TakesFew self.old self.new (Current distance) result }
        ensures below { StandsBelow self.old self.new result }
        ensures still { IsTrue (R.Read.tells (inner_of self.old)) → self.old.failed ≡ false → is_start self.old.stage ≡ false →
            place_by self.old.place distance ≡ Some self.old.place → (result ≡ Ok self.old.place) × (self.new ≡ self.old) }
        ensures ending { (IsEarly (Current distance) (place_of self.old) → ⊥) → EndsAsText self.old self.new }
        ensures at_once { IsTrue (R.Read.tells (inner_of self.old)) → IsEarly (Current distance) (place_of self.old) →
            (result ≡ Err BeforeStart) × (self.new ≡ self.old) }
    {
        if self.place > i64::MAX as u64 {
            self.fail_at(self.place);
            return Err(Error::TooLong);
        }
        match place_at(self.place, distance) {
            None => Err(Error::BeforeStart),
            Some(target) => self.seek_to(target),
        }
    }
}

impl<R: BufRead + Seek> Seek for ArmoredReader<R> {
    ghost use Rattle.age_armor.specs.Seeks.{SeeksArmor};

    ghost seek_refuses = { OrAstray R.Seek.seek_refuses };

    ghost no_device = { or_too_long_no_device (or_failed_no_device R.Seek.no_device) };

    ghost seek_besides = { SeeksArmor };

    /// Moves within what the text carries, and answers the new place in bytes from its front.
    ///
    /// A seek in a binary text is one of the inner reader, counted from where the text begins: no byte of the text is
    /// read but the 36 that tell its form, and for its end, once, the inner reader is asked for bytes behind it. Armor is
    /// read on from the last mark that isn't after the target, or else from its front, as far as the target asks, and for
    /// `SeekFrom::End` once to its end. So a target that stands before the first fault of the text is moved to, and makes
    /// a failed reader good again. A target not beyond the furthest place that was come to takes at most 1,024 lines, as
    /// `lines` counts them. Nothing is read for the place at which a reader stands that has begun, nor, once the end was read,
    /// for a target outside of what the text carries. A refusal is
    ///
    /// - `BeforeStart`: the target is below 0. For `SeekFrom::Current` nothing is read to find that out.
    /// - `PastEnd`: the text carries bytes, and their count is below the target.
    /// - the text's first fault, as `read` answers it, where it stands before the target, or where the target is counted
    ///   from the end.
    /// - that of the inner reader, where it refuses a read or a seek. Its interruptions are tried again up to 16 times in
    ///   a row; after that the answer is `Device(Other)`.
    /// - `OutOfMemory`: memory for a line's text was refused.
    /// - `TooLong` and `Failed`: the inner reader doesn't tell its bytes, or its content ends badly, and it has more than a
    ///   content may have, refuses to go to what it has, or has more behind the end that it went to.
    ///
    /// Every refusal leaves the place. After `BeforeStart` and `PastEnd` the reader stands there as before; one that had
    /// failed stays so. After any other it has failed.
    ///
    /// Marks and the length are kept from the first reading on: of a file that changes meanwhile nothing is said.
    ///
    /// Its contract is that of each reader that seeks, with `SeeksArmor` in the clause `besides`:
    ///
    /// - `fails`: a success makes it good, a refused target leaves a failure as it was, and any other refusal fails it.
    /// - `refuses`: why it refuses. A refusal that neither the target, the device nor memory made is the text's end, and a bad text
    ///   has no length. Over an inner reader that tells its bytes and is steady `Armor(..)` and `UnexpectedEof` are how the text ends,
    ///   or refusals that the inner reader might make, whether or not the device failed: `why` of its `seeks`.
    /// - `text`: the text stays, what it delivers in all, and how it ends.
    /// - `counts`: how many lines it takes, none of a binary text.
    /// - `learns`: what is known of the text only grows, and its end is known after a target that is counted from it.
    /// - `lands`: where it stands already nothing changes, and in a binary text the inner reader stands at the place itself.
    fn seek(&mut self, to: SeekFrom) -> Result<u64, Error> {
        match to {
            SeekFrom::Start(target) => self.seek_to(target),
            SeekFrom::End(distance) => self.seek_from_end(distance),
            SeekFrom::Current(distance) => self.seek_by(distance),
        }
    }
}
