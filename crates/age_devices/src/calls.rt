//! The calls on a device, and how often they failed.
ghost use Rattle.std.specs.Prelude.{◌≡◌, ℕ, ◌+◌, ◌-◌, ◌<◌, ◌≤◌, ◌^◌, Ok, IsOk, IfOk, IfErr};
ghost use Rattle.age_error.specs.Refusals.{IsDevice};
ghost use Rattle.age_devices.specs.Devices.{by_step, TakesStep, most_failures};

use crate::script::{Script, Step};
use age_error::io::Error;

/// What a device still does, and how often it has failed.
#[derive(Drop)]
pub(crate) struct Calls<'a> {
    script: Script<'a>,
    faults: u64,
    ghost fits: { faults ≤ 2 ^ 64 - 2 },
}

impl<'a> Calls<'a> {
    ghost use Rattle.age_devices.specs.AtCalls.{at_call, call_of, faults_in};

    /// Those of a device that does as the script says, and has not failed yet.
    pub(crate) fn new(script: Script<'a>) -> Calls<'a>
        ensures script { (i : ℕ) → call_of result i ≡ at_call script.entry i }
        ensures faults { faults_in result ≡ 0 }
    {
        Calls { script, faults: 0 }
    }

    /// How often the device has failed.
    pub(crate) fn faults(&self) -> u64
        ensures { result ≡ faults_in self.now }
    {
        self.faults
    }

    /// How many bytes the next call may move, or its fault, which is counted. After 2^64 - 2 faults none comes any more.
    pub(crate) fn next(&mut self) -> Result<usize, Error>
        ensures told { faults_in self.old < most_failures → result ≡ by_step (call_of self.old 0) Ok }
        ensures step { faults_in self.old < most_failures
            → TakesStep (call_of self.old) (call_of self.new) (faults_in self.old) (faults_in self.new) }
        ensures last { most_failures ≤ faults_in self.old → IsOk result }
        ensures fine { IfOk result (λ _. faults_in self.new ≡ faults_in self.old) }
        ensures fault { IfErr result (λ e. IsDevice e × (faults_in self.new ≡ faults_in self.old + 1)) }
    {
        match self.script.next() {
            Step::Fail(kind) if self.faults < u64::MAX - 1 => {
                self.faults += 1;
                Err(Error::Device(kind))
            }
            Step::Fail(_) => Ok(usize::MAX),
            Step::Move(most) => Ok(most),
        }
    }
}
