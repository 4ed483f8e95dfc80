//! A device that is read.
ghost use Rattle.std.specs.Prelude.{◌≡◌, ℕ, ◌+◌, ◌-◌, ◌^◌, ◌≤◌, ◌<◌, true, length, drop, min, max, Ok, IsOk, IfOk, refl};
ghost use Rattle.std.proofs.Common.{inl, arith};
ghost use Rattle.age_error.specs.Bytes.{AreBytes};
ghost use Rattle.age_error.specs.Refusals.{IsDevice};
ghost use Rattle.age_io.specs.Stretch.{whole, from_place};
ghost use Rattle.age_io.specs.Cursor;
ghost use Rattle.age_io.specs.Calls.{ConsumesBy, ReadsBy, SeeksBy};
ghost use Rattle.age_devices.specs.Devices.{by_step, TakesStep, most_failures};

use crate::calls::Calls;
use crate::script::Script;
use age_error::io::{Error, SeekFrom};
use age_io::{BufRead, Read, Seek, sought};

/// Reads a slice of fewer than 2^63 bytes, and seeks in it, as its script says.
#[derive(Drop)]
pub struct Source<'a> {
    calls: Calls<'a>,
    bytes: &'a [u8],
    place: usize,
    // The bytes from the place to here were shown and not taken.
    end: usize,
    ghost order: { place ≤ end },
    ghost within: { end ≤ length bytes.now },
    ghost short: { length bytes.now < 2 ^ 63 },
    ghost are_bytes: { AreBytes bytes.now },
}

impl<'a> Source<'a> {
    ghost use Rattle.age_devices.specs.AtCalls.{at_call};
    ghost use Rattle.age_devices.specs.Sources.{call, bytes_of, place_of};

    /// A reader whose content is these bytes, at the first of them.
    pub fn new(script: Script<'a>, bytes: &'a [u8]) -> Source<'a>
        ensures content { ⟦<Source<'a> as Read>⟧.content result ≡ whole bytes.now }
        ensures rest { ⟦<Source<'a> as Read>⟧.rest result ≡ whole bytes.now }
        ensures place { ⟦<Source<'a> as Read>⟧.place result ≡ 0 }
        ensures faults { ⟦<Source<'a> as Read>⟧.faults result ≡ 0 }
        ensures script { (i : ℕ) → call result i ≡ at_call script.entry i }
    {
        Source {
            calls: Calls::new(script),
            bytes,
            place: 0,
            end: 0,
        }
    }

    /// How often it has failed.
    pub fn faults(&self) -> u64
        ensures { result ≡ ⟦<Source<'a> as Read>⟧.faults self.now }
    {
        self.calls.faults()
    }

    // How many bytes a call gives that is asked for so many and may move at most this many: one at least where one is left.
    fn count(&self, most: usize, asked: usize) -> usize
        ensures is { result ≡ min (min asked (max most 1)) (length (bytes_of self.now) - place_of self.now) }
        ensures asked { result ≤ asked }
        ensures there { place_of self.now + result ≤ length (bytes_of self.now) }
        ensures none { result ≡ 0 → 0 < asked → place_of self.now ≡ length (bytes_of self.now) }
    {
        asked.min(most.max(1)).min(self.bytes.len() - self.place)
    }
}

impl<'a> Read for Source<'a> {
    ghost use Rattle.age_devices.specs.Sources.{call, bytes_of, place_of, faults_of};

    ghost tells = { λ _. true };

    ghost steady = { λ _. true };

    ghost content = { λ r. whole (bytes_of r) };

    ghost place = { λ r. place_of r };

    ghost rest = { λ r. from_place (place_of r) (whole (bytes_of r)) };

    ghost faults = { λ r. faults_of r };

    ghost refuses = { λ _. IsDevice };

    ghost faults_fit = { λ r. Prim.omega (arith, r.calls.fits) };

    ghost spent = { λ r _ is. absurd (Prim.omega (arith, r.calls.fits, is)) };

    ghost well = { λ _ _ _. refl };

    ghost stands = { λ r _ _. record { within = Prim.omega (arith, r.order, r.within); reaches = inl refl } };

    ghost are_bytes = { λ r _. r.are_bytes };

    ghost short = { λ r _. r.short };

    ghost place_fits = { λ r _. Prim.omega (arith, r.order, r.within, r.short) };

    /// Gives the next bytes, at most as many as its script says of this call, but one at least where one is left, and leaves the buffer behind them
    /// as it was. Or it fails as the script says: `Device(kind)`, one fault more, and its place stays. After 2^64 - 2 faults it fails no more.
    fn read(&mut self, buf: &mut [u8]) -> Result<usize, Error>
        ensures reads { ReadsBy ⟦<Source<'a> as Read>⟧ self.old self.new buf.new result }
        ensures step { faults_of self.old < most_failures → TakesStep (call self.old) (call self.new) (faults_of self.old) (faults_of self.new) }
        ensures answer { faults_of self.old < most_failures → result ≡ by_step (call self.old 0) (λ most.
            Ok (min (min (length buf.old) (max most 1)) (length (bytes_of self.old) - place_of self.old))) }
        ensures last { most_failures ≤ faults_of self.old → IsOk result }
        ensures behind { IfOk result (λ n. drop n buf.new ≡ drop n buf.old) }
    {
        let most = match self.calls.next() {
            Err(e) => return Err(e),
            Ok(most) => most,
        };
        let count = self.count(most, buf.len());
        buf[..count].copy_from_slice(&self.bytes[self.place..self.place + count]);
        self.place += count;
        self.end = self.place;
        Ok(count)
    }
}

impl<'a> BufRead for Source<'a> {
    ghost use Rattle.age_devices.specs.Sources.{call, shown_of, ShowsAsScripted};

    ghost shown = { λ r. shown_of r };

    // What it shows is exact.
    ghost besides = { ShowsAsScripted };

    /// Shows the next bytes, at most as many as its script says of this call, but one at least where one is left. Each time it is
    /// called it is a call of the device.
    fn fill_buf(&mut self) -> Result<&[u8], Error> {
        self.end = self.place;
        let most = match self.calls.next() {
            Err(e) => return Err(e),
            Ok(most) => most,
        };
        self.end = self.place + self.count(most, usize::MAX);
        Ok(&self.bytes[self.place..self.end])
    }

    /// Takes the first `amount` bytes of what was shown. It is no call of the device.
    fn consume(&mut self, amount: usize)
        requires { amount ≤ length (shown_of self.old) }
        ensures consumes { ConsumesBy ⟦<Source<'a> as Read>⟧ (λ r. shown_of r) self.old self.new amount }
        ensures script { (i : ℕ) → call self.new i ≡ call self.old i }
    {
        self.place += amount;
    }
}

impl<'a> Seek for Source<'a> {
    ghost use Rattle.age_devices.specs.Sources.{call, bytes_of, place_of, faults_of};

    ghost seek_refuses = { λ _. ⊥ };

    ghost no_device = { λ _ none _. none };

    /// Moves to a target from 0 to the slice's length, however few bytes its script says, or fails as the script says: `Device(kind)`, one
    /// fault more. It stays where it was then, and where it refuses with `BeforeStart` or `PastEnd`. After 2^64 - 2 faults it fails no more.
    fn seek(&mut self, to: SeekFrom) -> Result<u64, Error>
        ensures seeks { SeeksBy ⟦<Source<'a> as Read>⟧ (λ _. ⊥) self.old self.new to result }
        ensures step { faults_of self.old < most_failures → TakesStep (call self.old) (call self.new) (faults_of self.old) (faults_of self.new) }
        ensures answer { faults_of self.old < most_failures → result ≡ by_step (call self.old 0) (λ _.
            Cursor.sought to (place_of self.old) (length (bytes_of self.old))) }
        ensures last { most_failures ≤ faults_of self.old → result ≡ Cursor.sought to (place_of self.old) (length (bytes_of self.old)) }
    {
        match self.calls.next() {
            Err(e) => return Err(e),
            Ok(_) => {}
        }
        let place = sought(to, self.place as u64, self.bytes.len() as u64)?;
        self.place = place as usize;
        self.end = self.place;
        Ok(place)
    }
}
