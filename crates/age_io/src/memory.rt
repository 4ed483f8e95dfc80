//! Readers and writers in memory.
ghost use Rattle.std.specs.Prelude.{◌≡◌, ◌+◌, ◌^◌, ◌≤◌, ◌<◌, true, ◌++◌, length, drop, min, Ok, IfOk, IfErr, IsOk, OnErr, refl};
ghost use Rattle.std.proofs.Common.{inl, arith};
ghost use Rattle.std.proofs.lemmas.Grind.{common_steps};
ghost use Rattle.age_error.specs.Bytes.{AreBytes};
ghost use Rattle.age_error.specs.declared.io.Error.TheVariants.{OutOfMemory};
ghost use Rattle.age_io.specs.Stretch.{whole, from_place};
ghost use Rattle.age_io.specs.Cursor;
ghost use Rattle.age_io.specs.Writing.{Flushes};
ghost use Rattle.age_io.specs.Calls.{ReadsBy, SeeksBy, WritesBy};

use crate::bufread::BufRead;
use crate::seeking::Seek;
use crate::targets::sought;
use crate::traits::{Read, Write};
use age_error::io::{Error, SeekFrom};
use std::fmt;

/// Reads a slice of fewer than 2^63 bytes. It never refuses and takes no memory.
#[derive(Drop)]
pub struct Bytes<'a> {
    bytes: &'a [u8],
    place: usize,
    ghost within: { place ≤ length bytes.now },
    ghost short: { length bytes.now < 2 ^ 63 },
    ghost are_bytes: { AreBytes bytes.now },
}

impl<'a> Bytes<'a> {
    /// A reader whose content is these bytes, at the first of them.
    pub fn new(bytes: &'a [u8]) -> Bytes<'a>
        ensures content { ⟦<Bytes<'a> as Read>⟧.content result ≡ whole bytes.now }
        ensures rest { ⟦<Bytes<'a> as Read>⟧.rest result ≡ whole bytes.now }
        ensures place { ⟦<Bytes<'a> as Read>⟧.place result ≡ 0 }
    {
        Bytes { bytes, place: 0 }
    }

    /// All bytes of the slice, also those that were read.
    pub fn into_inner(self) -> &'a [u8]
        ensures { ⟦<Bytes<'a> as Read>⟧.content self.entry ≡ whole result.now }
    {
        self.bytes
    }
}

/// The place and the length, and no content.
impl<'a> fmt::Debug for Bytes<'a> {
    fn fmt<W: fmt::Write>(&self, f: &mut fmt::Formatter<W>) -> fmt::Result {
        f.debug_struct("Bytes")
            .field("place", &self.place)
            .field("length", &self.bytes.len())
            .finish_non_exhaustive()
    }
}

impl<'a> Read for Bytes<'a> {
    ghost use Rattle.age_io.specs.Slices.{bytes_of, place_of};

    ghost tells = { λ _. true };

    ghost steady = { λ _. true };

    ghost content = { λ r. whole (bytes_of r) };

    ghost place = { λ r. place_of r };

    ghost rest = { λ r. from_place (place_of r) (whole (bytes_of r)) };

    ghost faults = { λ _. 0 };

    ghost refuses = { λ _ _. ⊥ };

    ghost faults_fit = { λ _. Prim.omega arith };

    ghost spent = { λ _ _ is. absurd (Prim.omega arith) };

    ghost well = { λ _ _ _. refl };

    ghost stands = { λ r _ _. record { within = r.within; reaches = inl refl } };

    ghost are_bytes = { λ r _. r.are_bytes };

    ghost short = { λ r _. r.short };

    ghost place_fits = { λ r _. Prim.omega (arith, r.within, r.short) };

    /// Gives as many bytes as the buffer takes and the rest has, and answers how many. It never refuses, and leaves
    /// the buffer behind them as it was.
    fn read(&mut self, buf: &mut [u8]) -> Result<usize, Error>
        ensures reads { ReadsBy ⟦<Bytes<'a> as Read>⟧ self.old self.new buf.new result }
        ensures all { result ≡ Ok (min (length buf.old) (length (⟦<Bytes<'a> as Read>⟧.rest self.old).bytes)) }
        ensures behind { IfOk result (λ n. drop n buf.new ≡ drop n buf.old) }
    {
        let count = buf.len().min(self.bytes.len() - self.place);
        buf[..count].copy_from_slice(&self.bytes[self.place..self.place + count]);
        self.place += count;
        Ok(count)
    }
}

impl<'a> BufRead for Bytes<'a> {
    ghost use Rattle.age_io.specs.Slices.{bytes_of, place_of};

    ghost shown = { λ r. drop (place_of r) (bytes_of r) };

    ghost besides = { λ _ _ result. IsOk result };

    /// Shows the whole rest. It never refuses.
    fn fill_buf(&mut self) -> Result<&[u8], Error> {
        Ok(&self.bytes[self.place..])
    }

    fn consume(&mut self, amount: usize) {
        self.place += amount;
    }
}

impl<'a> Seek for Bytes<'a> {
    ghost use Rattle.age_io.specs.Slices.{bytes_of, place_of};

    ghost seek_refuses = { λ _. ⊥ };

    ghost no_device = { λ _ none _. none };

    /// Moves to a target from 0 to the slice's length. It refuses with `BeforeStart` and `PastEnd` alone, and changes
    /// nothing then.
    fn seek(&mut self, to: SeekFrom) -> Result<u64, Error>
        ensures seeks { SeeksBy ⟦<Bytes<'a> as Read>⟧ (λ _. ⊥) self.old self.new to result }
        ensures all { result ≡ Cursor.sought to (place_of self.old) (length (bytes_of self.old)) }
        ensures refuses { OnErr result (self.new ≡ self.old) }
    {
        let place = sought(to, self.place as u64, self.bytes.len() as u64)?;
        self.place = place as usize;
        Ok(place)
    }
}

/// Appends to the list.
impl Write for Vec<u8> {
    ghost tells = { λ _. true };

    ghost faults = { λ _. 0 };

    // Whatever it is given.
    ghost refuses = { λ _ _ e. e ≡ OutOfMemory };

    ghost appended = { λ a x b. b.items ≡ a.items ++ x };

    ghost write_besides = { λ old new _ result. OnErr result (new.items ≡ old.items) };

    ghost faults_fit = { λ _. Prim.omega arith };

    ghost refuses_more = { λ _ _ _ _ _ memory. memory };

    ghost appends_nothing = { λ w. Prim.grind (arith, common_steps) };

    ghost joins = { λ a b c x y p q. Prim.grind (arith, common_steps) };

    /// Appends all bytes and answers their count. Where the list can't grow it answers `OutOfMemory` and has appended
    /// nothing; it refuses with nothing else, and may be called again.
    fn write(&mut self, bytes: &[u8]) -> Result<usize, Error>
        ensures writes { WritesBy ⟦<Vec<u8> as Write>⟧ self.old self.new bytes.now result }
        ensures all { IfOk result (λ n. n ≡ length bytes.now) }
        ensures memory { IfErr result (λ e. e ≡ OutOfMemory) }
        ensures nothing { OnErr result (self.new.items ≡ self.old.items) }
    {
        self.extend_from_slice(bytes)?;
        Ok(bytes.len())
    }

    /// Does nothing, since nothing is held back, and never refuses.
    fn flush(&mut self) -> Result<(), Error>
        ensures flushes { let writer = ⟦<Vec<u8> as Write>⟧ in
            Flushes writer.tells writer.faults writer.refuses writer.appended self.old self.new result }
        ensures done { result ≡ Ok tt }
        ensures same { self.new ≡ self.old }
    {
        Ok(())
    }
}
