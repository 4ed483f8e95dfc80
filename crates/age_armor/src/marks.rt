//! What is known of a text that was read before.
ghost use Rattle.std.specs.Prelude.{◌≡◌, ℕ, ◌+◌, ◌%◌, ◌^◌, ◌≤◌, ◌<◌, ◌⊎◌, Bool, true, false, IsTrue, length, Some, None};
ghost use Rattle.age_io.specs.Stretch.{Stretch};
ghost use Rattle.age_armor.specs.declared.stages.Stage.TheVariants.{Lines};
ghost use Rattle.age_armor.specs.Stages.{is_start};
ghost use Rattle.age_armor.specs.PrivateStages.{is_ended};
ghost use Rattle.age_v1.specs.DeliveredArmor.{begins_armor};
ghost use Rattle.age_armor.specs.Marks.{LearnsMore};
ghost use Rattle.age_armor.specs.PrivateMarks.{carried, CanResume, IsLength, Knows, KnowsEndBefore, reach};

use crate::stages::Stage;
use std::alloc::Global;

// How many bytes 1,024 full lines stand for.
const SPAN: u64 = 49_152;

/// Where a text can be read from: the stage of a reader there, the place in what the text carries, and how many bytes of the text stand before it.
#[derive(Clone, Copy)]
pub(crate) struct Mark {
    pub(crate) stage: Stage,
    pub(crate) place: u64,
    pub(crate) taken: u64,
}

/// Where the lines 1,024, 2,048 and so on of a text begin, counted from the first after the begin marker's, and how many bytes the text carries.
#[derive(Drop)]
pub(crate) struct Marks {
    // How many bytes of the text stand before each of these lines.
    taken: Vec<u64>,
    // Whether memory for a mark was never refused. Once it was, no further one is noted.
    noting: bool,
    length: Option<u64>,
    // Up to where the text was read, as a place in what it carries.
    furthest: u64,
}

// Whether a line comes next that follows on full ones alone.
fn is_after_full(stage: Stage) -> bool
    ensures yes { IsTrue result → stage ≡ Lines false }
    ensures no { result ≡ false → stage ≡ Lines false → ⊥ }
{
    matches!(stage, Stage::Lines(false))
}

impl Marks {
    /// Of a text of which nothing was read. It takes no memory.
    pub(crate) fn new(alloc: Global) -> Marks
        ensures knows { (steady : Bool) (text : Stretch) → Knows steady text result }
        ensures none { (result.furthest ≡ 0) × (result.noting ≡ true) × (result.length ≡ None) }
    {
        Marks {
            taken: Vec::new(alloc),
            noting: true,
            length: None,
            furthest: 0,
        }
    }

    /// Takes note that so many bytes were read at this stage, place and number of bytes of the text. None are read at the text's end alone.
    pub(crate) fn learn(&mut self, stage: Stage, place: u64, taken: u64, count: usize)
        ensures knows { (steady : Bool) (text : Stretch) → Knows steady text self.old → place ≤ self.old.furthest →
            (count ≡ 0 → IsTrue steady → IsLength text place) →
            (0 < count → stage ≡ Lines false → CanResume steady text (Lines false) place taken) →
            (IsTrue steady → place + count ≤ length (carried text).bytes) →
            (IsTrue steady → IsTrue (begins_armor text.bytes) → 0 < count → (place % 48 ≡ 0) × (count ≤ 48) × ((stage ≡ Lines false) ⊎ (place ≡ 0))) →
            Knows steady text self.new }
        ensures reaches { place + count < 2 ^ 64 → place ≤ self.old.furthest → place + count ≤ self.new.furthest }
        ensures within { (most : ℕ) → self.old.furthest ≤ most → place + count ≤ most → self.new.furthest ≤ most }
        ensures more { LearnsMore self.old self.new }
        ensures ends { count ≡ 0 → self.new.length ≡ Some place }
    {
        if count == 0 {
            self.length = Some(place);
            return;
        }
        self.note(stage, place, taken);
        self.furthest = self.furthest.max(place.saturating_add(count as u64));
    }

    // Notes the place, where it is the next of those that are noted.
    fn note(&mut self, stage: Stage, place: u64, taken: u64)
        ensures knows { (steady : Bool) (text : Stretch) → Knows steady text self.old → place ≤ self.old.furthest →
            (stage ≡ Lines false → CanResume steady text (Lines false) place taken) → Knows steady text self.new }
        ensures next { IsTrue self.new.noting → stage ≡ Lines false → place % 48 ≡ 0 → place ≤ reach (length self.old.taken.items) →
            place + 48 ≤ reach (length self.new.taken.items) }
        ensures furthest { self.new.furthest ≡ self.old.furthest }
        ensures length { self.new.length ≡ self.old.length }
        ensures stops { IsTrue self.new.noting → IsTrue self.old.noting }
    {
        if !is_after_full(stage) {
            return;
        }
        if !self.noting || place % SPAN != 0 || place / SPAN != self.taken.len() as u64 + 1 {
            return;
        }
        match self.taken.push(taken) {
            Ok(()) => {}
            Err(_) => self.noting = false,
        }
    }

    /// Takes note that a place of a binary text was come to, which has no marks.
    pub(crate) fn reach(&mut self, place: u64)
        ensures knows { (steady : Bool) (text : Stretch) → Knows steady text self.old → (IsTrue steady → place ≤ length (carried text).bytes) →
            (IsTrue steady → begins_armor text.bytes ≡ false) → Knows steady text self.new }
        ensures reaches { place ≤ self.new.furthest }
        ensures more { LearnsMore self.old self.new }
    {
        self.furthest = self.furthest.max(place);
    }

    /// Whether nothing was read that a text carries.
    pub(crate) fn knows_none(&self) -> bool
        ensures yes { IsTrue result → self.now.furthest ≡ 0 }
        ensures no { result ≡ false → self.now.furthest ≡ 0 → ⊥ }
    {
        self.furthest == 0
    }

    /// The last mark that isn't after a place, or the front of the text.
    pub(crate) fn last(&self, place: u64) -> Mark
        ensures each { (steady : Bool) (text : Stretch) → Knows steady text self.now →
            CanResume steady text result.stage result.place result.taken × (result.place ≤ self.now.furthest) }
        ensures before { result.place ≤ place }
        ensures near { place ≤ reach (length self.now.taken.items) → place ≤ result.place + 49152 }
        ensures front { is_start result.stage ≡ true → (result.taken ≡ 0) × (result.place ≡ 0) }
        ensures going { is_ended result.stage ≡ false }
        ensures whole { result.place % 48 ≡ 0 }
        ensures zero { result.place ≡ 0 → is_start result.stage ≡ true }
    {
        let front = Mark {
            stage: Stage::Start,
            place: 0,
            taken: 0,
        };
        let count = (place / SPAN).min(self.taken.len() as u64);
        if count == 0 {
            return front;
        }
        match self.taken.get(count as usize - 1) {
            None => front,
            Some(taken) => Mark {
                stage: Stage::Lines(false),
                place: SPAN * count,
                taken: *taken,
            },
        }
    }

    /// Whether the text's end was read, and stands before a place.
    pub(crate) fn ends_before(&self, place: u64) -> bool
        ensures yes { IsTrue result → KnowsEndBefore self.now.length place }
        ensures no { result ≡ false → (n : ℕ) → self.now.length ≡ Some n → place ≤ n }
    {
        match self.length {
            None => false,
            Some(length) => length < place,
        }
    }

    /// How many bytes the text carries, once its end was read.
    pub(crate) fn length(&self) -> Option<u64>
        ensures { result ≡ self.now.length }
    {
        self.length
    }
}
