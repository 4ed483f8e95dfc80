//! Readers and writers of std as those of this port.
ghost use Rattle.std.specs.Prelude.{◌≡◌, ℕ, ◌+◌, ◌^◌, ◌<◌, ◌≤◌, false, List, length, Some, Ok, Err, OnOk, IfErr};
ghost use Rattle.std.specs.IoError.{error_kind};
ghost use Rattle.std.specs.Io.Seek.{SeekMoves};
ghost use Rattle.std.specs.Io.KnownBytes.{ReadConsumes, WriteAppends, Keeps};
ghost use Rattle.std.proofs.Common.{arith, le_refl, refl};
ghost use Rattle.age_error.specs.declared.io.Error.TheVariants.{Failed, Device, TooLong};
ghost use Rattle.age_io.specs.Stretch.{nothing};
ghost use Rattle.age_io.specs.Reading.{most_faults};
ghost use Rattle.age_io.specs.CursorLemmas.{too_long_no_device};
ghost use Rattle.age_io.specs.Writing.{Flushes};
ghost use Rattle.age_io.specs.Standard.{CountsFaults, CountsOwnFaults, IsNoDevice, IsReadRefusal, IsWriteRefusal, StandsAfter, sought_below, kind_from};
ghost use Rattle.age_io.specs.Calls.{ReadsBy, SeeksBy, WritesBy};

use crate::seeking::Seek;
use crate::targets::sought;
use crate::traits::{Read, Write};
use age_error::io::{Error, ErrorKind, SeekFrom};
use std::{fmt, io};

/// A reader or a writer of std. It doesn't tell its bytes, since nobody can know what a device gives.
///
/// Each error of the device counts as one fault and is answered as `Device(kind)`, where a kind that this port doesn't
/// name is `Other`; the next call asks the device again. After 2^64 - 1 faults it answers `Failed` and asks its device
/// no more. It refuses with nothing else.
#[derive(Drop)]
pub struct Std<T> {
    inner: T,
    faults: u64,
    ghost fits: { faults < 2 ^ 64 },
}

impl<T> Std<T> {
    ghost use Rattle.age_io.specs.StandardFaults.{faults_of, inner_of};

    /// This reader or writer, which has not failed yet.
    pub fn new(inner: T) -> Std<T>
        ensures inner { inner_of result ≡ inner }
        ensures faults { faults_of result ≡ 0 }
    {
        Std { inner, faults: 0 }
    }

    /// The reader or writer of std.
    pub fn into_inner(self) -> T
        ensures { result ≡ inner_of self }
    {
        self.inner
    }

    // Refuses where the count of faults is used up.
    fn unspent(&self) -> Result<(), Error>
        ensures unspent { OnOk result (self.now.faults < most_faults) }
        ensures spent { IfErr result (λ e. (e ≡ Failed) × (self.now.faults ≡ most_faults)) }
    {
        if self.faults == u64::MAX {
            return Err(Error::Failed);
        }
        Ok(())
    }

    // One more fault, of this kind.
    fn fault(&mut self, error: &io::Error) -> Error
        requires { self.old.faults < most_faults }
        ensures inner { self.new.inner ≡ self.old.inner }
        ensures faults { self.new.faults ≡ self.old.faults + 1 }
        ensures kind { result ≡ Device (kind_from (error_kind error.now)) }
    {
        self.faults += 1;
        device_error(error)
    }
}

/// How often the device has failed, and nothing of the device.
impl<T> fmt::Debug for Std<T> {
    fn fmt<W: fmt::Write>(&self, f: &mut fmt::Formatter<W>) -> fmt::Result {
        f.debug_struct("Std")
            .field("faults", &self.faults)
            .finish_non_exhaustive()
    }
}

/// This error of std as a fault of a device, `Device(kind)`: the kind of the same name, or `Other`. The text of the error is let go.
pub fn device_error(error: &io::Error) -> Error
    ensures { result ≡ Device (kind_from (error_kind error.now)) }
{
    Error::Device(kind_of(error.kind()))
}

// The kind of the same name, or `Other`.
fn kind_of(kind: io::ErrorKind) -> ErrorKind
    ensures { result ≡ kind_from kind }
{
    match kind {
        io::ErrorKind::NotFound => ErrorKind::NotFound,
        io::ErrorKind::PermissionDenied => ErrorKind::PermissionDenied,
        io::ErrorKind::Interrupted => ErrorKind::Interrupted,
        io::ErrorKind::UnexpectedEof => ErrorKind::UnexpectedEof,
        io::ErrorKind::WriteZero => ErrorKind::WriteZero,
        io::ErrorKind::InvalidData => ErrorKind::InvalidData,
        io::ErrorKind::InvalidInput => ErrorKind::InvalidInput,
        io::ErrorKind::OutOfMemory => ErrorKind::OutOfMemory,
        _ => ErrorKind::Other,
    }
}

impl<T: io::Read> Read for Std<T> {
    ghost use Rattle.age_io.specs.StandardFaults.{faults_of, inner_of};

    ghost tells = { λ _. false };

    ghost steady = { λ _. false };

    ghost content = { λ _. nothing };

    ghost place = { λ _. 0 };

    ghost rest = { λ _. nothing };

    ghost faults = { λ r. faults_of r };

    ghost refuses = { λ _. IsReadRefusal };

    ghost faults_fit = { λ r. r.fits };

    ghost spent = { λ _ _ _. refl };

    ghost well = { λ _ told. Prim.cc };

    ghost stands = { λ _ told. Prim.cc };

    ghost are_bytes = { λ _ told. Prim.cc };

    ghost short = { λ _ told. Prim.cc };

    ghost place_fits = { λ _ told. Prim.cc };

    /// One read of the device. What std knows of its bytes holds of this read too.
    ///
    /// A refusal is `Device(kind)`, or `Failed` once the faults are used up.
    fn read(&mut self, buf: &mut [u8]) -> Result<usize, Error>
        ensures reads { ReadsBy ⟦<Std<T> as Read>⟧ self.old self.new buf.new result }
        ensures bytes { ReadConsumes (T.remaining (inner_of self.old)) (T.remaining (inner_of self.new)) result buf.new }
        ensures asked { faults_of self.old < most_faults → CountsFaults (faults_of self.old) (faults_of self.new) result }
        ensures spent { ⟦<Std<T> as Read>⟧.faults self.old ≡ most_faults → (result ≡ Err Failed) × (self.new ≡ self.old) }
    {
        self.unspent()?;
        match self.inner.read(buf) {
            Ok(count) => Ok(count),
            Err(error) => Err(self.fault(&error)),
        }
    }
}

impl<T: io::Seek> Std<T> {
    // One seek of the device.
    fn ask_seek(&mut self, to: io::SeekFrom) -> Result<u64, Error>
        requires { self.old.faults < most_faults }
        ensures counts { CountsFaults self.old.faults self.new.faults result }
        ensures moves { SeekMoves (T.stream_position self.old.inner) (T.stream_position self.new.inner) (T.stream_bytes self.old.inner) to result }
        ensures bytes { Keeps (T.stream_bytes self.old.inner) (T.stream_bytes self.new.inner) }
    {
        match self.inner.seek(to) {
            Ok(place) => Ok(place),
            Err(error) => Err(self.fault(&error)),
        }
    }
}

// Where a seek leads from a place in a content of this length. A place or a length of 2^63 or more is `TooLong`.
fn target_of(to: SeekFrom, place: u64, len: u64) -> Result<u64, Error>
    ensures sought { result ≡ sought_below to place len }
    ensures refused { IfErr result IsNoDevice }
{
    const MOST: u64 = 0x7fff_ffff_ffff_ffff;
    if place > MOST || len > MOST {
        return Err(Error::TooLong);
    }
    sought(to, place, len)
}

impl<T: io::Read + io::Seek> Seek for Std<T> {
    ghost use Rattle.age_io.specs.StandardFaults.{faults_of, inner_of};

    ghost seek_refuses = { λ e. e ≡ TooLong };

    ghost no_device = { too_long_no_device };

    /// Asks the device for its place and its length, and moves it to a target from 0 to the length.
    ///
    /// A target below 0 is `BeforeStart`, one above the length `PastEnd`, and a place or a length of 2^63 or more
    /// `TooLong`; the device then stands where it stood. Any other refusal is `Device(kind)`, after which the device may
    /// stand elsewhere, or `Failed` once the faults are used up.
    fn seek(&mut self, to: SeekFrom) -> Result<u64, Error>
        ensures seeks { SeeksBy ⟦<Std<T> as Read>⟧ (λ e. e ≡ TooLong) self.old self.new to result }
        ensures moves { faults_of self.old < most_faults → (place : ℕ) (bytes : List ℕ) →
            T.stream_position (inner_of self.old) ≡ Some place → T.stream_bytes (inner_of self.old) ≡ Some bytes →
            StandsAfter (sought_below to place (length bytes)) place (T.stream_position (inner_of self.new)) result }
        ensures bytes { Keeps (T.stream_bytes (inner_of self.old)) (T.stream_bytes (inner_of self.new)) }
        ensures asked { faults_of self.old < most_faults → CountsOwnFaults (faults_of self.old) (faults_of self.new) result }
        ensures spent { faults_of self.old ≡ most_faults → (result ≡ Err Failed) × (self.new ≡ self.old) }
    {
        self.unspent()?;
        let place = self.ask_seek(io::SeekFrom::Current(0))?;
        let len = self.ask_seek(io::SeekFrom::End(0))?;
        match target_of(to, place, len) {
            Ok(target) => self.ask_seek(io::SeekFrom::Start(target)),
            Err(error) => {
                self.ask_seek(io::SeekFrom::Start(place))?;
                Err(error)
            }
        }
    }
}

impl<T: io::Write> Write for Std<T> {
    ghost use Rattle.age_io.specs.StandardFaults.{faults_of, inner_of};

    ghost tells = { λ _. false };

    ghost faults = { λ w. faults_of w };

    ghost refuses = { λ _ _. IsWriteRefusal };

    // Of what went out nothing is known.
    ghost appended = { λ a x b. faults_of a ≤ faults_of b };

    ghost faults_fit = { λ w. w.fits };

    ghost refuses_more = { λ _ _ _ _ _ h. h };

    ghost appends_nothing = { λ w. le_refl w.faults };

    ghost joins = { λ a b c x y p q. Prim.omega (arith, p, q) };

    /// One write to the device. What std knows of its bytes holds of this write too.
    ///
    /// A refusal is `Device(kind)`, or `Failed` once the faults are used up.
    fn write(&mut self, bytes: &[u8]) -> Result<usize, Error>
        ensures writes { WritesBy ⟦<Std<T> as Write>⟧ self.old self.new bytes.now result }
        ensures bytes { WriteAppends (T.contents (inner_of self.old)) (T.contents (inner_of self.new)) result bytes.now }
        ensures asked { faults_of self.old < most_faults → CountsFaults (faults_of self.old) (faults_of self.new) result }
        ensures spent { ⟦<Std<T> as Write>⟧.faults self.old ≡ most_faults → (result ≡ Err Failed) × (self.new ≡ self.old) }
    {
        self.unspent()?;
        match self.inner.write(bytes) {
            Ok(count) => Ok(count),
            Err(error) => Err(self.fault(&error)),
        }
    }

    /// One flush of the device.
    ///
    /// A refusal is `Device(kind)`, or `Failed` once the faults are used up.
    fn flush(&mut self) -> Result<(), Error>
        ensures flushes { let writer = ⟦<Std<T> as Write>⟧ in
            Flushes writer.tells writer.faults writer.refuses writer.appended self.old self.new result }
        ensures bytes { Keeps (T.contents (inner_of self.old)) (T.contents (inner_of self.new)) }
        ensures asked { faults_of self.old < most_faults → CountsFaults (faults_of self.old) (faults_of self.new) result }
        ensures spent { ⟦<Std<T> as Write>⟧.faults self.old ≡ most_faults → (result ≡ Err Failed) × (self.new ≡ self.old) }
    {
        self.unspent()?;
        match self.inner.flush() {
            Ok(()) => Ok(()),
            Err(error) => Err(self.fault(&error)),
        }
    }
}
