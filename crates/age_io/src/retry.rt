//! Calls that are made again after an interruption.
ghost use Rattle.std.specs.Prelude.{◌≡◌, ◌<◌, IsTrue, length, false, IfErr, IsErrAnd};
ghost use Rattle.age_error.specs.Refusals.{IsInterruption};
ghost use Rattle.age_io.specs.Writing.{Retried, Flushes};
ghost use Rattle.age_io.specs.Calls.{ReadsRetried, SeeksRetried, WritesRetried};

use crate::seeking::Seek;
use crate::traits::{Read, Write};
use age_error::io::{Error, ErrorKind, SeekFrom};

/// Whether the device was interrupted, so that the call may be made again.
pub fn is_interruption<T>(answer: &Result<T, Error>) -> bool
    ensures yes { IsTrue result → IsErrAnd answer.now IsInterruption }
    ensures no { result ≡ false → IfErr answer.now (λ e. IsInterruption e → ⊥) }
{
    match answer {
        Err(Error::Device(ErrorKind::Interrupted)) => true,
        _ => false,
    }
}

/// Makes a call again after an interruption, up to 16 times in a row; after that its value is `Err(Device(Other))`. Any other
/// answer of the call is returned from the function that it stands in. The name is that of the number of the try, for proofs.
#[macro_export]
macro_rules! retried {
    ($number:ident, $call:expr) => {{
        for $number in 0..17u8 {
            let answer = $call;
            if !$crate::is_interruption(&answer) {
                return answer;
            }
        }
        Err(Error::Device(ErrorKind::Other))
    }};
}

/// A read that is tried again after an interruption, up to 16 times in a row; after that it answers `Device(Other)`. How
/// often it is tried stands in no clause.
///
/// All tries together do what one read may (`reads`): at `Ok(n)` the next n bytes stand in front of `buf`, and 0 is the
/// clean end; after a refusal the reader stands where it stood and gives the same from there, or has failed. It is never
/// `Device(Interrupted)` (`patient`).
pub fn read_retrying<R: Read>(reader: &mut R, buf: &mut [u8]) -> Result<usize, Error>
    requires { 0 < length buf.old }
    ensures reads { ReadsRetried ⟦<R as Read>⟧ reader.old reader.new buf.new result }
    ensures patient { IfErr result (λ e. IsInterruption e → ⊥) }
{
    retried!(_try, reader.read(buf))
}

/// A seek that is tried again after an interruption, up to 16 times in a row; after that it answers `Device(Other)`. How
/// often it is tried stands in no clause.
///
/// All tries together do what one seek may (`seeks`): at `Ok(n)` the reader stands at n, and after a refusal where it
/// stood. It is never `Device(Interrupted)` (`patient`).
pub fn seek_retrying<R: Seek>(reader: &mut R, to: SeekFrom) -> Result<u64, Error>
    ensures seeks { SeeksRetried ⟦<R as Read>⟧ R.seek_refuses reader.old reader.new to result }
    ensures patient { IfErr result (λ e. IsInterruption e → ⊥) }
{
    retried!(_try, reader.seek(to))
}

/// A write that is tried again after an interruption, up to 16 times in a row; after that it answers `Device(Other)`. How
/// often it is tried stands in no clause.
///
/// All tries together do what one write may (`writes`): at `Ok(n)` the first n bytes were appended, and after a refusal
/// some of the first, or none. A refusal is one of the writer's, but never `Device(Interrupted)` (`patient`): `Device(Other)`
/// stands for it, and else comes only from the writer.
pub fn write_retrying<W: Write>(writer: &mut W, bytes: &[u8]) -> Result<usize, Error>
    ensures writes { WritesRetried ⟦<W as Write>⟧ writer.old writer.new bytes.now result }
    ensures patient { IfErr result (λ e. IsInterruption e → ⊥) }
{
    retried!(_try, writer.write(bytes))
}

/// A flush that is tried again after an interruption, up to 16 times in a row; after that it answers `Device(Other)`. How
/// often it is tried stands in no clause.
///
/// All tries together do what one flush may (`flushes`): they append nothing. A refusal is one of the writer's, but never
/// `Device(Interrupted)` (`patient`): `Device(Other)` stands for it, and else comes only from the writer.
pub fn flush_retrying<W: Write>(writer: &mut W) -> Result<(), Error>
    ensures flushes { Flushes W.tells W.faults (Retried W.refuses) W.appended writer.old writer.new result }
    ensures patient { IfErr result (λ e. IsInterruption e → ⊥) }
{
    retried!(_try, writer.flush())
}
