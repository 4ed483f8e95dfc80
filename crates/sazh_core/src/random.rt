//! Random bytes.
ghost use Rattle.std.specs.Prelude.{◌≡◌, ℕ, List, Option, Some, None, MatchResult, length};
ghost use Rattle.sazh_core.specs.Random.{Draws};
ghost use Rattle.sazh_core.specs.declared.error.RandomError.TheVariants.{NoRandom};

use crate::error::RandomError;
use age::draw::Draw;
use std::alloc::Global;
use std::marker::Model;

/// A source of random bytes.
///
/// What a source means is a relation: it says which bytes it may give, and how it changes. Of a system's source no more can be said than how
/// many they are.
pub trait RandomBytes {
    // The source before, how many bytes it was asked for, those that it gave, or `None` where it refused, and the source after.
    ghost gives: { Self → ℕ → Option (List ℕ) → Self → Type 0 };

    /// Fills all of `room` with the next bytes, in their order.
    ///
    /// `NoRandom` where it has fewer. What stands in `room` after that isn't said.
    fn fill(&mut self, room: &mut [u8]) -> Result<(), RandomError>
        ensures { MatchResult result (λ _. gives self.old (length room.old) (Some room.new) self.new)
            (λ e. (e ≡ NoRandom) × gives self.old (length room.old) None self.new) };
}

/// Bytes that are handed in, given in their order and each once. In contracts it is the list of those that are left.
#[derive(Drop)]
pub struct GivenBytes {
    bytes: Vec<u8>,
    used: usize,
}

impl Model for GivenBytes {
    ghost use Rattle.std.specs.Prelude.{List, ℕ, ◌≤◌, drop, length};

    ghost Value = { List ℕ };

    ghost view = { λ given. drop given.used given.bytes.items };

    ghost invariant = { λ given. given.used ≤ length given.bytes.items };
}

impl GivenBytes {
    /// A source that gives these bytes.
    pub fn new(bytes: Vec<u8>) -> GivenBytes
        ensures { result ≡ bytes.items }
    {
        GivenBytes { bytes, used: 0 }
    }

    /// How many bytes are left.
    pub fn left(&self) -> usize
        ensures { result ≡ length self.now }
    {
        self.bytes.len() - self.used
    }
}

impl RandomBytes for GivenBytes {
    ghost use Rattle.age.specs.Draw.{taken, left_after};

    ghost gives = { λ before count given after. (given ≡ taken count before) × (after ≡ left_after count before) };

    /// Fills all of `room` with the next bytes. `NoRandom` where fewer are left, and then none is taken.
    fn fill(&mut self, room: &mut [u8]) -> Result<(), RandomError> {
        let count = room.len();
        if self.bytes.len() - self.used < count {
            return Err(RandomError::NoRandom);
        }
        room.copy_from_slice(&self.bytes[self.used..self.used + count]);
        self.used += count;
        Ok(())
    }
}

/// So many bytes of a source, to be drawn in the order in which it gave them.
///
/// `OutOfMemory` where memory for the bytes is refused, and then the source wasn't asked. `NoRandom` where the source has fewer.
pub fn drawn<B: RandomBytes>(
    alloc: Global,
    source: &mut B,
    count: usize,
) -> Result<Draw, RandomError>
    ensures { Draws B.gives source.old count source.new result }
{
    let mut given = Vec::new(alloc);
    let Ok(()) = given.resize(count, 0) else {
        return Err(RandomError::OutOfMemory);
    };
    match source.fill(&mut given) {
        Ok(()) => Ok(Draw::new(given)),
        Err(error) => Err(error),
    }
}
