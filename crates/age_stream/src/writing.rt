//! `Write` for the writer of a payload.
ghost use Rattle.std.specs.Prelude.{◌≡◌, ◌≢◌, ◌+◌, ◌<◌, true, false, IsTrue, length, IfErr, OnOk, OnErr, Ok, Err};
ghost use Rattle.age_error.specs.declared.io.Error.TheVariants.{Failed, TooLong};
ghost use Rattle.age_error.specs.Refusals.{IsInterruption};
ghost use Rattle.age_io.specs.Writing.{Retried, WritesAll, Flushes};
ghost use Rattle.age_io.specs.Calls.{WritesBy};

use crate::sizes::{LONGEST_PLAINTEXT, PIECE};
use crate::writer::StreamWriter;
use age_error::io::Error;
use age_io::{Write, flush_retrying};
use age_suite::suite::Suite;

/// What was appended is plaintext that was taken. Where a write failed the writer, it ends with what that write was given, or a beginning of it.
/// Only `finish` and `close` make its payload whole. A failed writer takes nothing more, and what it sent is a beginning of the payload of what it
/// was given.
impl<S: Suite, W: Write> Write for StreamWriter<S, W> {
    ghost use Rattle.age_stream.specs.Writing.{Appended, Refused, FailsWriting, HasFailed, IsGood, inner_of, taken_len, SendsFront, TakesAll, TakesPiece};
    ghost use Rattle.age_stream.specs.WritingLemmas.{Appended-nothing, Appended-both, Refused-more};

    ghost tells = { λ w. W.tells (inner_of w) };

    ghost faults = { λ w. W.faults (inner_of w) };

    ghost refuses = { Refused W.refuses };

    ghost appended = { Appended S.seal_of W.appended };

    ghost faults_fit = { λ w. W.faults_fit w.inner };

    ghost refuses_more = { Refused-more W.refuses };

    ghost appends_nothing = { Appended-nothing S.seal_of W.appended W.appends_nothing };

    ghost joins = { Appended-both S.seal_of W.appended W.joins };

    /// Takes all bytes, and answers how many they are (`takes`).
    ///
    /// A write past 2^60 bytes of plaintext in all is `TooLong`, and changes nothing. Any other refusal leaves the
    /// writer failed: that of the inner writer, whatever it is, `WriteZero` where the inner writer took no byte,
    /// and `OutOfMemory` where the suite was refused memory for a seal. A failed writer answers `Failed` and stays
    /// as it is (`fails`). Interruptions of the inner writer are retried as by `write_all`.
    ///
    /// Whatever it answers, the inner writer was given a beginning of the seals of the pieces that a byte follows, of what
    /// was held and these bytes (`sent`): so after a refusal too it has a beginning of a payload, and nothing else.
    fn write(&mut self, bytes: &[u8]) -> Result<usize, Error>
        ensures writes { WritesBy ⟦<StreamWriter<S, W> as Write>⟧ self.old self.new bytes.now result }
        ensures takes { TakesAll self.old self.new bytes.now result }
        // Whatever it answers, what went out is a beginning of a payload.
        ensures sent { IsTrue (W.tells (inner_of self.old)) → SendsFront S.seal_of W.appended self.old bytes.now (inner_of self.new) }
        ensures fails { FailsWriting self.old self.new bytes.now result }
    {
        if self.failed {
            return Err(Error::Failed);
        }
        let taken = self.sealed * PIECE as u64 + self.held.len() as u64;
        if bytes.len() as u64 > LONGEST_PLAINTEXT - taken {
            return Err(Error::TooLong);
        }
        match self.take_all(bytes) {
            Ok(()) => Ok(bytes.len()),
            Err(error) => {
                self.failed = true;
                Err(error)
            }
        }
    }

    /// Flushes the inner writer alone: what is held stays so, since it may be the last piece. Whatever it answers, the inner
    /// writer was given nothing, and a refusal is one of its flush (`inner`).
    ///
    /// A refusal of the inner writer leaves the writer failed. A failed writer answers `Failed` and stays as it is.
    /// Interruptions of the inner writer are retried as by `flush_retrying`.
    fn flush(&mut self) -> Result<(), Error>
        ensures flushes { let writer = ⟦<StreamWriter<S, W> as Write>⟧ in
            Flushes writer.tells writer.faults writer.refuses writer.appended self.old self.new result }
        ensures inner { IsGood self.old → Flushes W.tells W.faults (Retried W.refuses) W.appended (inner_of self.old) (inner_of self.new) result }
        ensures counts { taken_len self.new ≡ taken_len self.old }
        ensures good { OnOk result (IsGood self.old × IsGood self.new) }
        ensures fails { OnErr result (HasFailed self.new) }
        ensures failed { HasFailed self.old → (result ≡ Err Failed) × (self.new ≡ self.old) }
    {
        if self.failed {
            return Err(Error::Failed);
        }
        match flush_retrying(&mut self.inner) {
            Ok(()) => Ok(()),
            Err(e) => {
                self.failed = true;
                Err(e)
            }
        }
    }

    /// Takes a whole piece, 65,536 bytes, where it holds one already and both are within 2^60 bytes of plaintext: seals and
    /// sends that one, holds the new one in its place, without a copy, and answers true. Else it answers false and
    /// changes nothing, also where it is failed (`piece`).
    ///
    /// A refusal leaves the writer failed. It is that of the inner writer, `WriteZero` where the inner writer took no byte, or
    /// `OutOfMemory` where the suite was refused memory for the seal. `piece` is as long as before then, and what it holds means
    /// nothing. Interruptions of the inner writer are retried as by `write_all`.
    ///
    /// Whatever it answers, the inner writer was given a beginning of the seal of the piece that was held, and nothing else
    /// (`sent`).
    fn exchange(&mut self, piece: &mut Vec<u8>) -> Result<bool, Error>
        ensures takes { let writer = ⟦<StreamWriter<S, W> as Write>⟧ in result ≢ Ok false →
            WritesAll writer.tells writer.faults (Retried writer.refuses) writer.appended self.old self.new piece.old.items result }
        ensures none { result ≡ Ok false → (self.new ≡ self.old) × (piece.new.items ≡ piece.old.items) }
        ensures size { length piece.new.items ≡ length piece.old.items }
        ensures patient { IfErr result (λ e. IsInterruption e → ⊥) }
        ensures piece { TakesPiece self.old self.new piece.old.items result }
        ensures sent { IsTrue (W.tells (inner_of self.old)) → SendsFront S.seal_of W.appended self.old piece.old.items (inner_of self.new) }
    {
        if !self.can_exchange(piece) {
            return Ok(false);
        }
        match self.exchange_held(piece) {
            Ok(()) => Ok(true),
            Err(refused) => {
                self.failed = true;
                Err(refused)
            }
        }
    }
}
