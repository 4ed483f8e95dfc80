//! What `{:?}` prints of a reader and a writer of a payload: how far they are, and no key, no plaintext and no sealed byte.
ghost use Rattle.std.specs.Prelude.{Some};

use crate::reader::StreamReader;
use crate::sizes::PIECE;
use crate::writer::StreamWriter;
use age_io::Read;
use age_suite::suite::Suite;
use std::fmt;

/// Prints the place in the plaintext and nothing else, as `StreamReader { place: 65537, .. }`.
impl<S: Suite, R: Read> fmt::Debug for StreamReader<S, R> {
    ghost use Rattle.age_stream.specs.Reader.{debug_reader};

    ghost debug_output = { λ reader. Some (debug_reader reader) };

    fn fmt<W: fmt::Write>(&self, f: &mut fmt::Formatter<W>) -> fmt::Result {
        let place = self.place.before();
        write!(f, "StreamReader {{ place: {place}, .. }}")
    }
}

/// Prints how many bytes of plaintext it has taken and nothing else, as `StreamWriter { taken: 65537, .. }`.
impl<S, W> fmt::Debug for StreamWriter<S, W> {
    ghost use Rattle.age_stream.specs.Writing.{debug_writer};

    ghost debug_output = { λ writer. Some (debug_writer writer) };

    fn fmt<O: fmt::Write>(&self, f: &mut fmt::Formatter<O>) -> fmt::Result {
        let taken = PIECE as u64 * self.sealed + self.held.len() as u64;
        write!(f, "StreamWriter {{ taken: {taken}, .. }}")
    }
}
