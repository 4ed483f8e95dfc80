//! A device that is written.
ghost use Rattle.std.specs.Prelude.{◌≡◌, ℕ, ◌+◌, ◌≤◌, ◌<◌, ◌⊎◌, true, [], ◌++◌, length, min, Ok, Err, IfErr, OnErr};
ghost use Rattle.std.proofs.Common.{arith};
ghost use Rattle.std.proofs.lemmas.Grind.{common_steps};
ghost use Rattle.age_error.specs.Refusals.{IsDevice};
ghost use Rattle.age_error.specs.declared.io.Error.TheVariants.{OutOfMemory, WriteZero};
ghost use Rattle.age_io.specs.Writing.{Flushes};
ghost use Rattle.age_io.specs.Calls.{WritesBy};
ghost use Rattle.age_devices.specs.Devices.{by_step, TakesStep, most_failures};

use crate::calls::Calls;
use crate::script::Script;
use age_error::io::Error;
use age_io::Write;
use std::alloc::Global;

/// Keeps the bytes that are written to it, which it takes as its script says.
#[derive(Drop)]
pub struct Sink<'a> {
    calls: Calls<'a>,
    bytes: Vec<u8>,
}

impl<'a> Sink<'a> {
    ghost use Rattle.age_devices.specs.AtCalls.{at_call};
    ghost use Rattle.age_devices.specs.Sinks.{call, kept_in};

    /// A writer to which nothing was written.
    pub fn new(alloc: Global, script: Script<'a>) -> Sink<'a>
        ensures bytes { kept_in result ≡ [] }
        ensures faults { ⟦<Sink<'a> as Write>⟧.faults result ≡ 0 }
        ensures script { (i : ℕ) → call result i ≡ at_call script.entry i }
    {
        Sink {
            calls: Calls::new(script),
            bytes: Vec::new(alloc),
        }
    }

    /// How often it has failed.
    pub fn faults(&self) -> u64
        ensures { result ≡ ⟦<Sink<'a> as Write>⟧.faults self.now }
    {
        self.calls.faults()
    }

    /// The bytes that were written to it.
    pub fn bytes(&self) -> &[u8]
        ensures { result.now ≡ kept_in self.now }
    {
        &self.bytes
    }
}

impl<'a> Write for Sink<'a> {
    ghost use Rattle.age_devices.specs.Sinks.{call, kept_in, faults_of};

    ghost tells = { λ _. true };

    ghost faults = { λ w. faults_of w };

    // Whatever it is given.
    ghost refuses = { λ _ _ e. IsDevice e ⊎ (e ≡ OutOfMemory) ⊎ (e ≡ WriteZero) };

    ghost appended = { λ a x b. kept_in b ≡ kept_in a ++ x };

    ghost write_besides = { λ old new _ result. OnErr result (kept_in new ≡ kept_in old) };

    ghost faults_fit = { λ w. Prim.omega (arith, w.calls.fits) };

    ghost refuses_more = { λ _ _ _ _ _ h. h };

    ghost appends_nothing = { λ w. Prim.grind (arith, common_steps) };

    ghost joins = { λ a b c x y p q. Prim.grind (arith, common_steps) };

    /// Takes the first bytes, as many as its script says of this call, or all. Or it fails as the script
    /// says: `Device(kind)`, one fault more, and has taken none. After 2^64 - 2 faults it fails no more.
    /// Where the list of what it keeps can't grow it answers `OutOfMemory`, and has taken none.
    fn write(&mut self, bytes: &[u8]) -> Result<usize, Error>
        ensures writes { WritesBy ⟦<Sink<'a> as Write>⟧ self.old self.new bytes.now result }
        ensures step { faults_of self.old < most_failures → TakesStep (call self.old) (call self.new) (faults_of self.old) (faults_of self.new) }
        ensures answer { faults_of self.old < most_failures →
            (result ≡ by_step (call self.old 0) (λ most. Ok (min (length bytes.now) most))) ⊎ (result ≡ Err OutOfMemory) }
        ensures last { most_failures ≤ faults_of self.old → IfErr result (λ e. e ≡ OutOfMemory) }
        ensures none { OnErr result (kept_in self.new ≡ kept_in self.old) }
    {
        let most = match self.calls.next() {
            Err(e) => return Err(e),
            Ok(most) => most,
        };
        let count = bytes.len().min(most);
        self.bytes.extend_from_slice(&bytes[..count])?;
        Ok(count)
    }

    /// Does nothing, since nothing is held back, or fails as its script says: `Device(kind)`, one fault more. After 2^64 - 2 faults it fails no more.
    fn flush(&mut self) -> Result<(), Error>
        ensures flushes { let writer = ⟦<Sink<'a> as Write>⟧ in
            Flushes writer.tells writer.faults writer.refuses writer.appended self.old self.new result }
        ensures step { faults_of self.old < most_failures → TakesStep (call self.old) (call self.new) (faults_of self.old) (faults_of self.new) }
        ensures answer { faults_of self.old < most_failures → result ≡ by_step (call self.old 0) (λ _. Ok tt) }
        ensures last { most_failures ≤ faults_of self.old → result ≡ Ok tt }
    {
        match self.calls.next() {
            Err(e) => Err(e),
            Ok(_) => Ok(()),
        }
    }
}
