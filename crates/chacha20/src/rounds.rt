//! The rounds (RFC 8439, 2.1 to 2.3), on eight states side by side.
ghost use Rattle.std.specs.Prelude.{◌≡◌, ◌<◌, ℕ, slice_index};
ghost use Rattle.chacha20.specs.Rounds.{column_round, diagonal_round, double_round, quarter_round, quarter_round_on, word_sum, xor_rotate};
ghost use Rattle.chacha20.specs.Lanes.{lane};

use std::simd::u32x8;

/// The sums of words.
#[inline(always)]
pub fn sum(a: u32x8, b: u32x8) -> u32x8
    ensures { (j : ℕ) → j < 8 → slice_index result j ≡ word_sum (slice_index a j) (slice_index b j) }
{
    a + b
}

/// Exclusive or, and then a rotation to the left by `n` bits.
#[inline(always)]
fn xor_rotate(d: u32x8, a: u32x8, n: u32) -> u32x8
    requires { (0 < n) × (n < 32) }
    ensures { (j : ℕ) → j < 8 → slice_index result j ≡ xor_rotate (slice_index d j) (slice_index a j) n }
{
    let word = d ^ a;
    word << u32x8::splat(n) | word >> u32x8::splat(32 - n)
}

/// Exclusive or, and then a rotation to the left by 8 bits: the bytes of each word change places.
// (two shifts are compiled to such a shuffle too, but where the word before was rotated by one the compiler shuffles both operands of the
// exclusive or in place of its result)
#[inline(always)]
fn xor_rotate_by_a_byte(d: u32x8, a: u32x8) -> u32x8
    ensures { (j : ℕ) → j < 8 → slice_index result j ≡ xor_rotate (slice_index d j) (slice_index a j) 8 }
{
    let bytes = (d ^ a).to_le_bytes();
    u32x8::from_le_bytes(bytes.swizzle([
        3, 0, 1, 2, 7, 4, 5, 6, 11, 8, 9, 10, 15, 12, 13, 14, 19, 16, 17, 18, 23, 20, 21, 22, 27,
        24, 25, 26, 31, 28, 29, 30,
    ]))
}

/// The quarter round on four words of each state.
#[inline(always)]
#[tactic(auto, unfolding(crate::specs::Rounds::quarter_round))]
fn quarter_round(a0: u32x8, b0: u32x8, c0: u32x8, d0: u32x8) -> (u32x8, u32x8, u32x8, u32x8)
    ensures { (j : ℕ) → j < 8 →
        (slice_index result.0 j, slice_index result.1 j, slice_index result.2 j, slice_index result.3 j)
        ≡ quarter_round (slice_index a0 j) (slice_index b0 j) (slice_index c0 j) (slice_index d0 j) }
{
    let a1 = sum(a0, b0);
    let d1 = xor_rotate(d0, a1, 16);
    let c1 = sum(c0, d1);
    let b1 = xor_rotate(b0, c1, 12);
    let a2 = sum(a1, b1);
    let d2 = xor_rotate_by_a_byte(d1, a2);
    let c2 = sum(c1, d2);
    let b2 = xor_rotate(b1, c2, 7);
    (a2, b2, c2, d2)
}

/// The quarter round on the words of each state at four places.
#[inline(always)]
fn quarter_round_on(states: &mut [u32x8; 16], x: usize, y: usize, z: usize, w: usize)
    requires { (x < 16) × (y < 16) × (z < 16) × (w < 16) }
    ensures { (j : ℕ) → j < 8 → lane j states.new ≡ quarter_round_on (lane j states.old) x y z w }
{
    let (a, b, c, d) = quarter_round(states[x], states[y], states[z], states[w]);
    states[x] = a;
    states[y] = b;
    states[z] = c;
    states[w] = d;
}

/// The quarter round on each column.
#[inline(always)]
fn column_round(states: &mut [u32x8; 16])
    ensures { (j : ℕ) → j < 8 → lane j states.new ≡ column_round (lane j states.old) }
{
    quarter_round_on(states, 0, 4, 8, 12);
    quarter_round_on(states, 1, 5, 9, 13);
    quarter_round_on(states, 2, 6, 10, 14);
    quarter_round_on(states, 3, 7, 11, 15);
}

/// The quarter round on each diagonal.
#[inline(always)]
fn diagonal_round(states: &mut [u32x8; 16])
    ensures { (j : ℕ) → j < 8 → lane j states.new ≡ diagonal_round (lane j states.old) }
{
    quarter_round_on(states, 0, 5, 10, 15);
    quarter_round_on(states, 1, 6, 11, 12);
    quarter_round_on(states, 2, 7, 8, 13);
    quarter_round_on(states, 3, 4, 9, 14);
}

/// A double round, `inner_block` (2.3.1): the columns and then the diagonals.
#[inline(always)]
pub fn double_round(states: &mut [u32x8; 16])
    ensures { (j : ℕ) → j < 8 → lane j states.new ≡ double_round (lane j states.old) }
{
    column_round(states);
    diagonal_round(states);
}
