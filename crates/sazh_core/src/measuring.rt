//! The length and the digest of a text.
ghost use Rattle.std.specs.Prelude.{◌≡◌, ℕ, List, []};
ghost use Rattle.sazh_core.specs.Measuring.{IsMeasured, WasGiven};

use age::io::{Error, Write};
use sha2::{Digest, Sha256};

/// The length of a text in bytes, and its digest by SHA-256 (FIPS 180-4, section 6.2).
#[derive(Clone, Copy, Debug, PartialEq, Eq)]
pub struct Measured {
    pub length: u64,
    pub sha256: [u8; 32],
}

/// A writer that keeps no byte: it counts and hashes what it is given.
#[derive(Drop)]
pub struct Measuring {
    count: u64,
    digest: Sha256,
}

impl Measuring {
    /// One that was given nothing yet.
    pub fn new() -> Measuring
        ensures { WasGiven result [] }
    {
        Measuring {
            count: 0,
            digest: Sha256::new(),
        }
    }

    /// The length and the digest of all that it was given.
    pub fn finish(self) -> Measured
        ensures { (text : List ℕ) → WasGiven self text → IsMeasured result text }
    {
        Measured {
            length: self.count,
            sha256: self.digest.finalize(),
        }
    }
}

impl Write for Measuring {
    ghost use Rattle.std.specs.Prelude.{true, OnErr};
    ghost use Rattle.std.proofs.Common.{arith};
    ghost use Rattle.sazh_core.specs.Measuring.{RefusesMeasured, TookBytes};
    ghost use Rattle.sazh_core.specs.MeasuringLemmas.{refuses_more_measured, took_joined, took_nothing};

    ghost tells = { λ _. true };

    ghost faults = { λ _. 0 };

    ghost refuses = { RefusesMeasured };

    ghost appended = { TookBytes };

    ghost write_besides = { λ old new _ result. OnErr result (new ≡ old) };

    ghost faults_fit = { λ _. Prim.omega arith };

    ghost refuses_more = { refuses_more_measured };

    ghost appends_nothing = { took_nothing };

    ghost joins = { took_joined };

    /// Takes all bytes. `TooLong` where they were 2^64 and more in all, and then it takes none.
    fn write(&mut self, bytes: &[u8]) -> Result<usize, Error> {
        let Some(count) = self.count.checked_add(bytes.len() as u64) else {
            return Err(Error::TooLong);
        };
        self.digest.update(bytes);
        self.count = count;
        Ok(bytes.len())
    }

    /// Does nothing, since nothing is held back, and never refuses.
    fn flush(&mut self) -> Result<(), Error> {
        Ok(())
    }
}
