//! How many bytes went by.
ghost use Rattle.std.specs.Prelude.{◌≡◌, IsTrue};

use age::io::{Error, Read, Write};

// A writer that keeps no byte: it counts them.
#[derive(Drop)]
pub(crate) struct Counting {
    count: u64,
}

impl Counting {
    // One that was given nothing yet.
    pub(crate) fn new() -> Counting
        ensures { result.count ≡ 0 }
    {
        Counting { count: 0 }
    }

    // How many bytes it was given.
    pub(crate) fn count(&self) -> u64
        ensures { result ≡ self.now.count }
    {
        self.count
    }
}

impl Write for Counting {
    ghost use Rattle.std.specs.Prelude.{true, OnErr};
    ghost use Rattle.std.proofs.Common.{arith};
    ghost use Rattle.sazh_core.specs.Counting.{CountedBytes, CountsTooMany, counted_joined, counted_nothing, refuses_more_of_them};

    ghost tells = { λ _. true };

    ghost faults = { λ _. 0 };

    ghost refuses = { CountsTooMany };

    ghost appended = { CountedBytes };

    ghost write_besides = { λ old new _ result. OnErr result (new ≡ old) };

    ghost faults_fit = { λ _. Prim.omega arith };

    ghost refuses_more = { refuses_more_of_them };

    ghost appends_nothing = { counted_nothing };

    ghost joins = { counted_joined };

    // Takes all bytes. `TooLong` where they were 2^64 and more in all, and then it takes none.
    fn write(&mut self, bytes: &[u8]) -> Result<usize, Error> {
        let Some(count) = self.count.checked_add(bytes.len() as u64) else {
            return Err(Error::TooLong);
        };
        self.count = count;
        Ok(bytes.len())
    }

    // Does nothing, since nothing is held back.
    fn flush(&mut self) -> Result<(), Error> {
        Ok(())
    }
}

// A reader that counts what it hands on of another, of which nothing was read before.
#[derive(Drop)]
pub(crate) struct Placed<R: Read> {
    inner: R,
    count: u64,
    ghost counted: { IsTrue (R.tells inner) → count ≡ R.place inner },
}

impl<R: Read> Placed<R> {
    ghost use Rattle.sazh_core.specs.Placing.{inner_of};

    // One that hands on what this one reads, of which nothing was read yet.
    pub(crate) fn new(inner: R) -> Placed<R>
        requires { IsTrue (R.tells inner) → R.place inner ≡ 0 }
        ensures { inner_of result ≡ inner }
    {
        Placed { inner, count: 0 }
    }

    // How many bytes it handed on.
    pub(crate) fn count(&self) -> u64
        ensures { IsTrue (R.tells (inner_of self.now)) → result ≡ R.place (inner_of self.now) }
    {
        self.count
    }
}

impl<R: Read> Read for Placed<R> {
    ghost use Rattle.sazh_core.specs.Placing.{inner_of};

    ghost tells = { λ r. R.tells (inner_of r) };

    ghost steady = { λ r. R.steady (inner_of r) };

    ghost content = { λ r. R.content (inner_of r) };

    ghost place = { λ r. R.place (inner_of r) };

    ghost rest = { λ r. R.rest (inner_of r) };

    ghost faults = { λ r. R.faults (inner_of r) };

    ghost refuses = { λ r. R.refuses (inner_of r) };

    ghost faults_fit = { λ r. R.faults_fit r.inner };

    ghost spent = { λ r. R.spent r.inner };

    ghost well = { λ r. R.well r.inner };

    ghost stands = { λ r. R.stands r.inner };

    ghost are_bytes = { λ r. R.are_bytes r.inner };

    ghost short = { λ r. R.short r.inner };

    ghost place_fits = { λ r. R.place_fits r.inner };

    // Reads as the other does.
    fn read(&mut self, buf: &mut [u8]) -> Result<usize, Error> {
        match self.inner.read(buf) {
            Err(error) => Err(error),
            Ok(count) => {
                // Where the reader tells its content, this is exact: that has fewer than 2^63 bytes.
                self.count = self.count.saturating_add(count as u64);
                Ok(count)
            }
        }
    }
}
