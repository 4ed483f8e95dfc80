//! Readers and writers of this port as those of std.
ghost use Rattle.std.specs.Prelude.{◌≡◌, None};
ghost use Rattle.std.specs.IoError.{error_kind};
ghost use Rattle.std.specs.Io.{ReadsAtMost, WritesAtMost};
ghost use Rattle.std.specs.Io.Seek.{SeekMoves};
ghost use Rattle.std.specs.Io.KnownBytes.{ReadConsumes, WriteAppends, Keeps};
ghost use Rattle.age_error.specs.Refusals.{kind_of};
ghost use Rattle.age_io.specs.Calls.{ReadsBy, SeeksBy, WritesBy};
ghost use Rattle.age_io.specs.Writing.{Flushes};
ghost use Rattle.age_io.specs.Standard.{Tells, kind_into, place_into};

use crate::seeking::Seek;
use crate::traits::{Read, Write};
use age_error::io::{Error, ErrorKind, SeekFrom};
use std::{fmt, io};

/// A reader or a writer of this port, for what reads and writes by the traits of std.
///
/// Each call is one call of what is inside, with the same bytes. Its answer is handed on: a success as it is, a refusal as
/// `standard_error` says. What is inside is then as its own call left it: a `BufReader` or a `StreamReader` that refused
/// has failed, and answers `Failed`, whose kind is `Other`, until a seek succeeds. No bytes are known to std (`remaining`
/// and `contents` are `None`), since a reader that failed has none left; the clauses here say what the inner call did.
#[derive(Drop)]
pub struct IntoStd<T> {
    inner: T,
}

impl<T> IntoStd<T> {
    ghost use Rattle.age_io.specs.StandardFaults.{wrapped_of};

    /// This reader or writer, for std.
    pub fn new(inner: T) -> IntoStd<T>
        ensures { wrapped_of result ≡ inner }
    {
        IntoStd { inner }
    }

    /// The reader or writer of this port.
    pub fn into_inner(self) -> T
        ensures { result ≡ wrapped_of self }
    {
        self.inner
    }
}

/// That it is one, and nothing of what is inside.
impl<T> fmt::Debug for IntoStd<T> {
    fn fmt<W: fmt::Write>(&self, f: &mut fmt::Formatter<W>) -> fmt::Result {
        f.debug_struct("IntoStd").finish_non_exhaustive()
    }
}

// The kind of std with the same name.
fn standard_kind(kind: ErrorKind) -> io::ErrorKind
    ensures { result ≡ kind_into kind }
{
    match kind {
        ErrorKind::NotFound => io::ErrorKind::NotFound,
        ErrorKind::PermissionDenied => io::ErrorKind::PermissionDenied,
        ErrorKind::Interrupted => io::ErrorKind::Interrupted,
        ErrorKind::UnexpectedEof => io::ErrorKind::UnexpectedEof,
        ErrorKind::WriteZero => io::ErrorKind::WriteZero,
        ErrorKind::InvalidData => io::ErrorKind::InvalidData,
        ErrorKind::InvalidInput => io::ErrorKind::InvalidInput,
        ErrorKind::OutOfMemory => io::ErrorKind::OutOfMemory,
        ErrorKind::Other => io::ErrorKind::Other,
    }
}

/// This refusal as an error of std: its kind is that of the same name as `error.kind()`. It takes no memory.
///
/// Its text is that of the refusal; of a fault of a device it is std's for the kind.
pub fn standard_error(error: Error) -> io::Error
    ensures { error_kind result ≡ kind_into (kind_of error) }
{
    let kind = standard_kind(error.kind());
    if let Error::Device(_) = error {
        return io::Error::from(kind);
    }
    let mut room = [0; 80];
    let free = written(error, room.as_mut_slice());
    let end = 80usize.saturating_sub(free);
    match std::str::from_utf8(&room[..end]) {
        Ok(text) => io::Error::new(kind, text),
        Err(_) => io::Error::from(kind),
    }
}

// Writes the text of a refusal in front of the room, and answers how much of it is left. No text is longer than it.
fn written(error: Error, mut room: &mut [u8]) -> usize {
    let _fits = io::Write::write_fmt(&mut room, error);
    room.len()
}

// The same place in the words of this port.
fn place_of(to: io::SeekFrom) -> SeekFrom
    ensures { result ≡ place_into to }
{
    match to {
        io::SeekFrom::Start(count) => SeekFrom::Start(count),
        io::SeekFrom::End(distance) => SeekFrom::End(distance),
        io::SeekFrom::Current(distance) => SeekFrom::Current(distance),
    }
}

impl<T: Read> io::Read for IntoStd<T> {
    ghost use Rattle.age_io.specs.StandardFaults.{wrapped_of};

    /// One read of what is inside: Ok of its count, or its refusal by `standard_error`.
    fn read(&mut self, buf: &mut [u8]) -> io::Result<usize>
        ensures bound { ReadsAtMost result buf.new }
        ensures bytes { ReadConsumes None None result buf.new }
        ensures reads { Tells (ReadsBy ⟦<T as Read>⟧ (wrapped_of self.old) (wrapped_of self.new) buf.new) result }
    {
        match self.inner.read(buf) {
            Ok(count) => Ok(count),
            Err(error) => Err(standard_error(error)),
        }
    }
}

impl<T: Seek> io::Seek for IntoStd<T> {
    ghost use Rattle.age_io.specs.StandardFaults.{wrapped_of};

    /// One seek of what is inside, which goes from 0 to the content's length alone: a target outside of that is
    /// `InvalidData`, where a file of std would go past its end.
    fn seek(&mut self, to: io::SeekFrom) -> io::Result<u64>
        ensures moves { SeekMoves None None None to result }
        ensures bytes { Keeps None None }
        ensures seeks { Tells (SeeksBy ⟦<T as Read>⟧ T.seek_refuses (wrapped_of self.old) (wrapped_of self.new) (place_into to)) result }
    {
        match self.inner.seek(place_of(to)) {
            Ok(place) => Ok(place),
            Err(error) => Err(standard_error(error)),
        }
    }
}

impl<T: Write> io::Write for IntoStd<T> {
    ghost use Rattle.age_io.specs.StandardFaults.{wrapped_of};

    /// One write to what is inside: Ok of its count, or its refusal by `standard_error`.
    fn write(&mut self, buf: &[u8]) -> io::Result<usize>
        ensures bound { WritesAtMost result buf.now }
        ensures bytes { WriteAppends None None result buf.now }
        ensures writes { Tells (λ answer. WritesBy ⟦<T as Write>⟧ (wrapped_of self.old) (wrapped_of self.new) buf.now answer
            × T.write_besides (wrapped_of self.old) (wrapped_of self.new) buf.now answer) result }
    {
        match self.inner.write(buf) {
            Ok(count) => Ok(count),
            Err(error) => Err(standard_error(error)),
        }
    }

    /// One flush of what is inside. It writes no end: a `StreamWriter` is finished by its own call, after `into_inner`.
    fn flush(&mut self) -> io::Result<()>
        ensures bytes { Keeps None None }
        ensures flushes { Tells (λ answer. Flushes T.tells T.faults T.refuses T.appended (wrapped_of self.old) (wrapped_of self.new) answer
            × T.flush_besides (wrapped_of self.old) (wrapped_of self.new) answer) result }
    {
        match self.inner.flush() {
            Ok(()) => Ok(()),
            Err(error) => Err(standard_error(error)),
        }
    }
}
