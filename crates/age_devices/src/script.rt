//! What a device does at its calls.
ghost use Rattle.std.specs.Prelude.{◌≡◌, ◌≢◌, ℕ, ◌+◌, ◌-◌, ◌<◌};
ghost use Rattle.age_error.specs.declared.io.ErrorKind.TheVariants.{Interrupted, Other};
ghost use Rattle.age_devices.specs.Devices.{step_among, most_of_call};
ghost use Rattle.age_devices.specs.declared.script.Step.TheVariants.{Move, Fail};

use age_error::io::ErrorKind;

/// What a device does at a call.
#[derive(Clone, Copy, Debug, PartialEq, Eq)]
pub enum Step {
    /// It moves at most so many bytes. A seek, or a flush, is done.
    Move(usize),
    /// It does nothing and fails: the answer is `Device(kind)`.
    Fail(ErrorKind),
}

/// What a device does at its calls, of whatever kind, one after the other.
#[derive(Clone, Copy, Drop)]
pub struct Script<'a> {
    // So many interruptions come before each call, and so many are left before the next.
    times: u32,
    left: u32,
    // So many calls move all that they are asked for, before the steps.
    good: u64,
    steps: &'a [Step],
    // A call after the steps moves at most so many bytes.
    most: usize,
}

// One fault.
const FAULT: &[Step] = &[Step::Fail(ErrorKind::Other)];

impl<'a> Script<'a> {
    ghost use Rattle.age_devices.specs.AtCalls.{at_call, IsInterrupted};

    /// These steps, and then calls that move at most `most` bytes each.
    pub fn new(steps: &'a [Step], most: usize) -> Script<'a>
        ensures { (i : ℕ) → at_call result i ≡ step_among steps.now most i }
    {
        Script {
            times: 0,
            left: 0,
            good: 0,
            steps,
            most,
        }
    }

    /// Each call moves one byte at most.
    pub fn by_bytes() -> Script<'a>
        ensures { (i : ℕ) → at_call result i ≡ Move 1 }
    {
        Script::new(&[], 1)
    }

    /// The call of this number, counted from 1, fails with `Device(Other)`; at 0 none does. The others move all that they are asked for.
    pub fn failing_at(call: u64) -> Script<'a>
        ensures fails { (i : ℕ) → i + 1 ≡ call → at_call result i ≡ Fail Other }
        ensures others { (i : ℕ) → i + 1 ≢ call → at_call result i ≡ Move most_of_call }
    {
        if call == 0 {
            return Script::new(&[], usize::MAX);
        }
        Script {
            times: 0,
            left: 0,
            good: call - 1,
            steps: FAULT,
            most: usize::MAX,
        }
    }

    /// Before each call come so many interruptions in a row, `Device(Interrupted)`. The call itself moves at most `most` bytes.
    pub fn interrupted(times: u32, most: usize) -> Script<'a>
        ensures { IsInterrupted times most result }
    {
        Script {
            times,
            left: times,
            good: 0,
            steps: &[],
            most,
        }
    }

    // What it does at the next call.
    pub(crate) fn next(&mut self) -> Step
        ensures now { result ≡ at_call self.old 0 }
        ensures later { (i : ℕ) → at_call self.new i ≡ at_call self.old (i + 1) }
    {
        if self.left > 0 {
            self.left -= 1;
            return Step::Fail(ErrorKind::Interrupted);
        }
        self.left = self.times;
        if self.good > 0 {
            self.good -= 1;
            return Step::Move(usize::MAX);
        }
        let Some((step, later)) = self.steps.split_first() else {
            return Step::Move(self.most);
        };
        self.steps = later;
        *step
    }
}
