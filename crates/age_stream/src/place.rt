//! Where a reader of a payload stands in the plaintext.
ghost use Rattle.std.specs.Prelude.{◌≡◌, ◌+◌, ◌*◌, ◌^◌, ◌≤◌, false, true};

use crate::sizes::PIECE;

/// Where a reader stands, and what it is ready for there.
#[derive(Drop)]
pub(crate) struct Place {
    // It is `at` in this chunk of the plaintext.
    pub(crate) number: u64,
    pub(crate) at: usize,
    // Whether that chunk is held: it is the first of those that were opened.
    pub(crate) held: bool,
    pub(crate) failed: bool,
    // Whether a seek was made.
    pub(crate) sought: bool,
    ghost offset: { at ≤ 65536 },
    ghost limit: { number ≤ 2 ^ 44 },
}

impl Place {
    // Where a seek leads: into this chunk, which is held or isn't. The reader is good again.
    pub(crate) fn reached(number: u64, at: usize, held: bool) -> Place
        requires offset { at ≤ 65536 }
        requires limit { number ≤ 2 ^ 44 }
        ensures place { (result.number ≡ number) × (result.at ≡ at) × (result.held ≡ held) }
        ensures good { (result.failed ≡ false) × (result.sought ≡ true) }
    {
        Place {
            number,
            at,
            held,
            failed: false,
            sought: true,
        }
    }

    // How many bytes of the plaintext stand before it.
    pub(crate) fn before(&self) -> u64
        ensures { result ≡ 65536 * self.now.number + self.now.at }
    {
        PIECE as u64 * self.number + self.at as u64
    }
}
