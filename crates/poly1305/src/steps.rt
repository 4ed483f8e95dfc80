//! A group of thirty-two blocks, taken as `groups` takes one of sixty-four, but in eight steps, between which the caller does other work.
//! Neither waits for the other, so the processor can do both at once.
ghost use Rattle.std.specs.Prelude.{◌≡◌, ℕ, ◌+◌, ◌*◌, ◌^◌, ◌<◌, List, [], Some, length, take, slice_get};
ghost use Rattle.poly1305.specs.Groups.{AreBelow, AreMultipliers};

use crate::authenticator::Poly1305;
use crate::groups::{
    Multiplier, ShortColumns, columns_beyond, power_at, powers_of, with_block, with_product,
};

/// The powers of r that a group of 512 bytes is multiplied by in steps, and what the bits beyond its blocks' bytes make.
#[derive(Drop)]
pub struct Powers {
    powers: [Multiplier; 64],
    beyond: ShortColumns,
    ghost multipliers: { AreMultipliers powers },
    ghost bounds: { AreBelow (33 * 2 ^ 112) beyond },
}

impl Powers {
    ghost use Rattle.poly1305.specs.Given.{WasGiven};
    ghost use Rattle.poly1305.specs.Steps.{ArePowersFor};

    /// Those for the key of a state. They are made once for all groups.
    pub fn new(state: &Poly1305) -> Powers
        ensures { (key text : List ℕ) → WasGiven state.now key text → ArePowersFor key result }
    {
        let powers = powers_of(state.r);
        let beyond = columns_beyond(&powers, 32);
        Powers { powers, beyond }
    }

    /// The power of r that the accumulator is multiplied by, the thirty-second.
    #[inline(always)]
    fn highest(&self) -> Multiplier
        ensures { slice_get self.now.powers 32 ≡ Some result }
    {
        power_at(&self.powers, 32)
    }
}

/// A group of 512 bytes on its way into a state: it is taken in eight steps of 64 bytes each, for a caller with other work to do
/// between them.
#[derive(Drop)]
pub struct Steps {
    // Of the accumulator and the blocks so far, before their carries.
    pub(crate) columns: ShortColumns,
}

impl Steps {
    ghost use Rattle.poly1305.specs.Given.{WasGiven};
    ghost use Rattle.poly1305.specs.Steps.{ArePowersFor, AreBelowAfter, HasTaken, IsUnbegun};

    /// Before the first step of a group.
    #[inline(always)]
    pub fn new(state: &Poly1305, powers: &Powers) -> Steps
        requires { IsUnbegun state.now }
        ensures below { AreBelowAfter 0 result }
        ensures taken { (key text : List ℕ) → ArePowersFor key powers.now → WasGiven state.now key text → HasTaken key text [] result }
    {
        Steps {
            columns: with_product(powers.beyond, state.accumulator, powers.highest()),
        }
    }

    /// Step `i` of eight: the 64 bytes of the group from byte 64 * i on.
    #[inline(always)]
    pub fn step(&mut self, powers: &Powers, group: &[u8], i: usize)
        requires within { i < 8 }
        requires group { length group.now ≡ 512 }
        requires below { AreBelowAfter i self.old }
        ensures below { AreBelowAfter (i + 1) self.new }
        ensures taken { (key text : List ℕ) → ArePowersFor key powers.now → HasTaken key text (take (64 * i) group.now) self.old
            → HasTaken key text (take (64 * (i + 1)) group.now) self.new }
    {
        let first = with_block(self.columns, &powers.powers, group, 32, 4 * i);
        let second = with_block(first, &powers.powers, group, 32, 4 * i + 1);
        let third = with_block(second, &powers.powers, group, 32, 4 * i + 2);
        self.columns = with_block(third, &powers.powers, group, 32, 4 * i + 3);
    }
}
