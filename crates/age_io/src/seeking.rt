//! Readers that seek.
ghost use Rattle.std.specs.Prelude.{ℕ, Result, ⊤};
ghost use Rattle.age_error.specs.declared.io.Error.{Error as Failure};
ghost use Rattle.age_error.specs.declared.io.SeekFrom.{SeekFrom as Target};

use crate::traits::Read;
use age_error::io::{Error, SeekFrom};

/// Moves within the content.
pub trait Seek: Read {
    ghost use Rattle.age_io.specs.Cursor.{Seeks, NoDevice};

    /// Which errors only its seeks answer, besides `BeforeStart` and `PastEnd`.
    ghost seek_refuses: { Failure → Type 0 };

    /// None of them says that the device failed.
    ghost no_device: { NoDevice seek_refuses };

    /// What an implementation says of `seek` besides: of the states before and after it, of the target, and of its answer.
    ghost seek_besides: { Self → Self → Target → Result ℕ Failure → Type 0 } = { λ _ _ _ _. ⊤ };

    /// Moves to a target from 0 to the content's length and answers the new place. A reader that failed reads again
    /// from there.
    ///
    /// A refusal leaves the place. `BeforeStart` says that the target is below 0, and `PastEnd` that it is above the
    /// length; then the rest stays too. On a content that ends well any other refusal comes only where the device
    /// failed in this call or has failed 2^64 - 1 times, or where memory was refused. On any content it is one that
    /// `seek_refuses` or `refuses` names. `Device(kind)` says that the device
    /// failed in this call. After `Device(Interrupted)` the call may be made again.
    fn seek(&mut self, to: SeekFrom) -> Result<u64, Error>
        ensures seeks { Seeks Self.tells Self.steady Self.content Self.place Self.rest Self.faults Self.refuses Self.seek_refuses
            self.old self.new to result }
        ensures besides { seek_besides self.old self.new to result };
}

impl<R: Seek> Seek for &mut R {
    ghost seek_refuses = { R.seek_refuses };

    ghost no_device = { R.no_device };

    ghost seek_besides = { λ old new to result. R.seek_besides old.now new.now to result };

    fn seek(&mut self, to: SeekFrom) -> Result<u64, Error> {
        Seek::seek(&mut **self, to)
    }
}
