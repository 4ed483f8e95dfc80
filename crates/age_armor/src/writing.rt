//! `Write` for the writer of armor.

use crate::writer::ArmoredWriter;
use age_error::io::Error;
use age_io::{Write, flush_retrying};

/// What was appended are the bytes that were taken. Only `close` and `finish` make the text that carries them whole.
///
/// Of a writer that failed they are the bytes that it was given, those of the failing write among them, and it has sent a beginning of what
/// carries them. A failed writer takes nothing and stays as it is. So generic calls, such as `write_all`, say by `sent_law` what the inner
/// writer was given, also where they refuse.
impl<W: Write> Write for ArmoredWriter<W> {
    ghost use Rattle.age_armor.specs.Writing.{Appended, Refused, inner_of};
    ghost use Rattle.age_armor.specs.WriterCalls.{FlushesArmor, WritesArmor};
    ghost use Rattle.age_armor.specs.WritingLemmas.{Appended-nothing, Appended-both, Refused-more};

    ghost tells = { λ w. W.tells (inner_of w) };

    ghost faults = { λ w. W.faults (inner_of w) };

    ghost refuses = { Refused W.refuses };

    ghost appended = { Appended W.appended };

    ghost write_besides = { WritesArmor ⟦<W as Write>⟧ };

    ghost flush_besides = { FlushesArmor ⟦<W as Write>⟧ };

    ghost faults_fit = { λ w. W.faults_fit w.inner };

    ghost refuses_more = { Refused-more W.refuses W.refuses_more };

    ghost appends_nothing = { Appended-nothing W.appended W.appends_nothing };

    ghost joins = { Appended-both W.appended W.joins };

    /// In armor it takes all bytes, and answers how many they are. All lines that they fill are written in this call.
    ///
    /// A refusal in armor leaves the writer failed: it is that of the inner writer, whatever it is, or `WriteZero` where
    /// that took no byte. A failed writer answers `Failed` and stays as it is. Interruptions of the inner writer are
    /// retried as by `write_all`. It takes no memory of its own. In binary it is the inner writer's `write`.
    ///
    /// Whatever it answers, the inner writer was given a beginning of all full lines of what was held and these bytes, and in binary
    /// of the bytes (`sent`): so after a refusal too it has a beginning of a text, and nothing else.
    ///
    /// Its contract is that of each writer, with `WritesArmor` in the clause `besides`: how much it takes and sends (`all`, `sent`,
    /// `finds_room`), that in binary it is the inner writer's (`binary`), and when it fails (`state`).
    fn write(&mut self, bytes: &[u8]) -> Result<usize, Error> {
        if self.failed {
            return Err(Error::Failed);
        }
        if !self.armored {
            return self.inner.write(bytes);
        }
        match self.take_all(bytes) {
            Ok(()) => Ok(bytes.len()),
            Err(error) => {
                self.failed = true;
                Err(error)
            }
        }
    }

    /// In armor it flushes the inner writer alone: what is held stays so, since it may be the last line. Whatever it answers, the
    /// inner writer was given nothing, and a refusal is one of its flush (`inner`).
    ///
    /// A refusal in armor leaves the writer failed. A failed writer answers `Failed` and stays as it is. Interruptions
    /// of the inner writer are retried as by `flush_retrying`. In binary it is the inner writer's `flush`.
    ///
    /// Its contract is that of each writer, with `FlushesArmor` in the clause `besides`: that it is the inner writer's (`inner`,
    /// `binary`), that what is held stays (`held`), and when it fails (`state`).
    fn flush(&mut self) -> Result<(), Error> {
        if self.failed {
            return Err(Error::Failed);
        }
        if !self.armored {
            return self.inner.flush();
        }
        match flush_retrying(&mut self.inner) {
            Ok(()) => Ok(()),
            Err(e) => {
                self.failed = true;
                Err(e)
            }
        }
    }
}
