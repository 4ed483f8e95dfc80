//! Readers that show what they hold.
ghost use Rattle.std.specs.Prelude.{◌≡◌, ℕ, ◌≤◌, IsTrue, List, length, Result, IfOk, ⊤};
ghost use Rattle.std.specs.Io.BufRead.{Rests};
ghost use types.Logic.{sem};
ghost use denote.Ref.{Bor};
ghost use Rattle.age_error.specs.declared.io.Error.{Error as Failure};
ghost use Rattle.age_io.specs.Stretch.{IsCleanEnd};
ghost use Rattle.age_io.specs.Filling.{IsFront, Fills, Consumes};

use crate::traits::Read;
use age_error::io::Error;

/// Shows a beginning of the rest before it is taken.
pub trait BufRead: Read {
    /// What `consume` may take: what the last `fill_buf` showed, less what was consumed since.
    ghost shown: { Self → List ℕ };

    /// What an implementation says of `fill_buf` besides: of the states before and after it, and of its answer.
    ghost besides: { Self → Self → Result (Bor (List ℕ)) Failure → Type 0 } = { λ _ _ _. ⊤ };

    /// Shows a beginning of the rest, empty only at a clean end. The place stays where it is.
    ///
    /// It refuses where a read would: only where the device failed in this call or has failed 2^64 - 1 times, where
    /// memory was refused, or where nothing but a fault is left, and as `refuses` says. `Device(kind)` says that the
    /// device failed in this call. After `Device(Interrupted)` the call may be made again.
    fn fill_buf(&mut self) -> Result<&[u8], Error>
        ensures front { IsTrue (Self.tells self.old) → IfOk result (λ front. IsFront front.now (Self.rest self.old)) }
        ensures end { IsTrue (Self.tells self.old) → IfOk result (λ front. length front.now ≡ 0 →
            IsCleanEnd (Self.rest self.old)) }
        // Once what was shown is let go:
        ensures* after { sem 𝓛 (Rests Self.row self.entry (λ new.
            Fills Self.tells Self.steady Self.content Self.place Self.rest Self.faults Self.refuses shown besides self.old new result)) };

    /// Takes the first `amount` bytes of what was shown: the place moves behind them. It asks no device and takes no
    /// memory.
    ///
    /// `amount` is at most the count of the bytes that the last `fill_buf` showed, less those consumed since.
    fn consume(&mut self, amount: usize)
        requires { amount ≤ length (shown self.old) }
        ensures { Consumes Self.tells Self.steady Self.content Self.place Self.rest Self.faults Self.refuses shown self.old self.new amount };
}

impl<R: BufRead> BufRead for &mut R {
    ghost shown = { λ r. R.shown r.now };

    ghost besides = { λ old new result. R.besides old.now new.now result };

    fn fill_buf(&mut self) -> Result<&[u8], Error> {
        BufRead::fill_buf(&mut **self)
    }

    fn consume(&mut self, amount: usize) {
        BufRead::consume(&mut **self, amount)
    }
}
