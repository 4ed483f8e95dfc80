//! Sixty-four blocks in one step. Block by block the accumulator h becomes (..((h + a) r + b) r + ..) r (RFC 8439, 2.5), where each
//! product waits for the one before. This is h r^64 + a r^64 + b r^63 + .., whose products wait for nothing, and are summed before their
//! carries are taken once. The bits beyond the blocks' bytes make the same sum in each group, so it is made once.
//!
//! What is multiplied has limbs of 64 bits, as the accumulator and blocks have them. The powers of r have short limbs, of 44 bits, so that
//! the sums stay below 2^128. `/` and `%` by powers of two are compiled to shifts and masks: 0x400_0000_0000 is 2^42,
//! 0x1000_0000_0000 is 2^44, 0x1_0000_0000_0000_0000 is 2^64.
ghost use Rattle.std.specs.Prelude.{◌≡◌, ℕ, ◌+◌, ◌-◌, ◌*◌, ◌%◌, ◌^◌, ◌<◌, ◌≤◌, List, ◌++◌, Some, length, take, slice_get};
ghost use Rattle.poly1305.specs.Mac.{prime};
ghost use Rattle.poly1305.specs.Limbs.{factor_number, number_of, IsFactor};
ghost use Rattle.poly1305.specs.Groups.{bits_beyond, multiplier_number, short_column_number, short_number, AreBelow, AreMultipliers, ArePowers, AreShort, IsAccumulator, IsMultiplier, IsScaled};

use crate::blocks::whole_bytes;
use crate::limbs::{Factor, Limbs, product, shifted, small_product};

/// How many bytes the blocks of a group have.
pub const GROUP: usize = 1024;

/// A number in short limbs: their sum, of which the second counts 2^44 and the third 2^88.
#[derive(Clone, Copy)]
struct ShortLimbs {
    low: u64,
    middle: u64,
    high: u64,
}

/// The sums of products of a limb and a short limb, before their carries: as with short limbs, the second counts 2^44 and the third
/// 2^88.
#[derive(Clone, Copy)]
pub struct ShortColumns {
    low: u128,
    middle: u128,
    high: u128,
}

/// What a number is multiplied by: its low limb by the first part, its second limb by the second part, which is 2^64 times as much
/// modulo the prime.
#[derive(Clone, Copy)]
pub struct Multiplier {
    low: ShortLimbs,
    middle: ShortLimbs,
}

/// The short limbs of a number.
fn short_limbs_of(number: Limbs) -> ShortLimbs
    requires { number.high ≤ 4 }
    ensures value { short_number result ≡ number_of number }
    ensures short { AreShort result }
{
    ShortLimbs {
        low: number.low % 0x1000_0000_0000,
        middle: number.low / 0x1000_0000_0000 + number.middle % 0x100_0000 * 0x10_0000,
        high: number.middle / 0x100_0000 + number.high * 0x100_0000_0000,
    }
}

/// Makes a number one that others are multiplied by.
fn multiplier_of(number: Limbs) -> Multiplier
    requires { number.high ≤ 4 }
    ensures value { multiplier_number result ≡ number_of number }
    ensures multiplier { IsMultiplier result }
{
    Multiplier {
        low: short_limbs_of(number),
        middle: short_limbs_of(shifted(number)),
    }
}

/// Columns and what the products of a limb and short limbs add to them.
// (one limb by all three, and then the next: so it is put into the multiplier's register once)
#[inline(always)]
fn with_limb(columns: ShortColumns, limb: u64, by: ShortLimbs) -> ShortColumns
    requires columns { AreBelow (2 ^ 121) columns }
    requires by { AreShort by }
    ensures low { (result.low ≡ columns.low + limb * by.low) × (result.low ≤ columns.low + 2 ^ 108) }
    ensures middle { (result.middle ≡ columns.middle + limb * by.middle) × (result.middle ≤ columns.middle + 2 ^ 108) }
    ensures high { (result.high ≡ columns.high + limb * by.high) × (result.high ≤ columns.high + 2 ^ 108) }
{
    ShortColumns {
        low: columns.low + product(limb, by.low),
        middle: columns.middle + product(limb, by.middle),
        high: columns.high + product(limb, by.high),
    }
}

/// A column and what the product of a third limb and a short limb adds to it, which counts 2^64 times as much.
#[inline(always)]
fn with_third(column: u128, third: u64, short: u64) -> u128
    requires column { column < 2 ^ 122 }
    requires third { third < 8 }
    requires short { short < 2 ^ 44 }
    ensures value { result ≡ column + 2 ^ 64 * (third * short) }
    ensures bound { result ≤ column + 2 ^ 111 }
{
    column + u128::from(small_product(third, short)) * 0x1_0000_0000_0000_0000
}

/// Columns and what the product of two numbers modulo the prime adds to them.
#[inline(always)]
pub fn with_product(columns: ShortColumns, number: Limbs, by: Multiplier) -> ShortColumns
    requires columns { AreBelow (2 ^ 120) columns }
    requires number { number.high < 8 }
    requires by { IsMultiplier by }
    ensures value { short_column_number result % prime ≡ (short_column_number columns + number_of number * multiplier_number by) % prime }
    ensures low { result.low < columns.low + 2 ^ 112 }
    ensures middle { result.middle < columns.middle + 2 ^ 112 }
    ensures high { result.high < columns.high + 2 ^ 112 }
{
    let first = with_limb(columns, number.low, by.low);
    let second = with_limb(first, number.middle, by.middle);
    ShortColumns {
        low: with_third(second.low, number.high, by.middle.low),
        middle: with_third(second.middle, number.high, by.middle.middle),
        high: with_third(second.high, number.high, by.middle.high),
    }
}

/// The product of two numbers modulo the prime, before its carries.
#[inline(always)]
fn columns_of(number: Limbs, by: Multiplier) -> ShortColumns
    requires number { number.high < 8 }
    requires by { IsMultiplier by }
    ensures value { short_column_number result % prime ≡ (number_of number * multiplier_number by) % prime }
    ensures bounds { AreBelow (2 ^ 112) result }
{
    let none = ShortColumns {
        low: 0,
        middle: 0,
        high: 0,
    };
    with_product(none, number, by)
}

/// A number modulo the prime, by the carries from each column to the next, and from bit 130 to the first, which counts 5 there.
#[inline(always)]
pub fn carried(columns: ShortColumns) -> Limbs
    requires { AreBelow (2 ^ 120) columns }
    ensures value { number_of result % prime ≡ short_column_number columns % prime }
    ensures high { result.high ≤ 4 }
{
    let middle = columns.middle + columns.low / 0x1000_0000_0000;
    let high = columns.high + middle / 0x1000_0000_0000;
    let low = columns.low % 0x1000_0000_0000
        + middle % 0x1000_0000_0000 * 0x1000_0000_0000
        + high / 0x400_0000_0000 * 5;
    let next = low / 0x1_0000_0000_0000_0000 + high % 0x400_0000_0000 * 0x100_0000;
    Limbs {
        low: (low % 0x1_0000_0000_0000_0000) as u64,
        middle: (next % 0x1_0000_0000_0000_0000) as u64,
        high: (next / 0x1_0000_0000_0000_0000) as u64,
    }
}

/// The product of two numbers modulo the prime.
fn multiplied(number: Limbs, by: Multiplier) -> Limbs
    requires number { number.high ≤ 4 }
    requires by { IsMultiplier by }
    ensures value { number_of result % prime ≡ (number_of number * multiplier_number by) % prime }
    ensures high { result.high ≤ 4 }
{
    carried(columns_of(number, by))
}

/// The powers of a factor, from its sixty-fourth down to its first.
pub fn powers_of(r: Factor) -> [Multiplier; 64]
    requires { IsFactor r }
    ensures multipliers { AreMultipliers result }
    ensures powers { ArePowers (factor_number r) result }
{
    let mut power = Limbs {
        low: r.low,
        middle: r.high,
        high: 0,
    };
    let first = multiplier_of(power);
    let mut powers = [first; 64];
    'each: for i in 1..64usize {
        power = multiplied(power, first);
        powers[63 - i] = multiplier_of(power);
    }
    powers
}

/// Power `i` of r, counted from its sixty-fourth down.
#[inline(always)]
pub fn power_at(powers: &[Multiplier; 64], i: usize) -> Multiplier
    requires { i < 64 }
    ensures { slice_get powers.now i ≡ Some result }
{
    powers[i]
}

/// What the bits beyond the bytes of a group of so many blocks make before its carries: 2^128 times each of the last powers.
#[inline(always)]
pub fn columns_beyond(powers: &[Multiplier; 64], blocks: usize) -> ShortColumns
    requires multipliers { AreMultipliers powers.now }
    requires few { blocks ≤ 64 }
    ensures value { (r : ℕ) → ArePowers r powers.now → short_column_number result % prime ≡ bits_beyond r blocks % prime }
    ensures bounds { AreBelow ((blocks + 1) * 2 ^ 112) result }
{
    let bit = Limbs {
        low: 0,
        middle: 0,
        high: 1,
    };
    let mut columns = ShortColumns {
        low: 0,
        middle: 0,
        high: 0,
    };
    'each: for i in 0..blocks {
        columns = with_product(columns, bit, power_at(powers, 64 - blocks + i));
    }
    columns
}

/// Columns and what block `i` of a group of so many blocks adds to them: the last block is multiplied by the first power of r.
#[inline(always)]
pub fn with_block(
    columns: ShortColumns,
    powers: &[Multiplier; 64],
    group: &[u8],
    blocks: usize,
    i: usize,
) -> ShortColumns
    requires few { blocks ≤ 64 }
    requires within { i < blocks }
    requires multipliers { AreMultipliers powers.now }
    requires group { length group.now ≡ 16 * blocks }
    requires columns { AreBelow ((i + 66) * 2 ^ 112) columns }
    ensures value { (r : ℕ) (text : List ℕ) → ArePowers r powers.now
        → IsScaled r (blocks - i) (short_column_number columns) (text ++ take (16 * i) group.now)
        → IsScaled r (blocks - (i + 1)) (short_column_number result) (text ++ take (16 * (i + 1)) group.now) }
    ensures bounds { AreBelow ((i + 67) * 2 ^ 112) result }
{
    let block = whole_bytes(&group[16 * i..16 * i + 16]);
    with_product(columns, block, power_at(powers, 64 - blocks + i))
}

/// The accumulator after one more group of a text. The powers are those of r, and `beyond` is what the bits beyond the blocks' bytes
/// make.
// (compiled on its own, so that its loop has all registers; four blocks a turn, since a turn costs as much as a third of a block)
#[inline(never)]
fn group_absorbed(
    accumulator: Limbs,
    powers: &[Multiplier; 64],
    beyond: &ShortColumns,
    group: &[u8],
) -> Limbs
    requires accumulator { accumulator.high ≤ 4 }
    requires multipliers { AreMultipliers powers.now }
    requires beyond { AreBelow (65 * 2 ^ 112) beyond.now }
    requires group { length group.now ≡ GROUP }
    ensures value { (r : ℕ) (text : List ℕ) → ArePowers r powers.now → short_column_number beyond.now % prime ≡ bits_beyond r 64 % prime
        → IsAccumulator r (number_of accumulator % prime) text
        → IsAccumulator r (number_of result % prime) (text ++ group.now) }
    ensures high { result.high ≤ 4 }
{
    let mut columns = with_product(*beyond, accumulator, power_at(powers, 0));
    'each: for i in 0..16usize {
        columns = with_block(columns, powers, group, 64, 4 * i);
        columns = with_block(columns, powers, group, 64, 4 * i + 1);
        columns = with_block(columns, powers, group, 64, 4 * i + 2);
        columns = with_block(columns, powers, group, 64, 4 * i + 3);
    }
    carried(columns)
}

/// The accumulator after more groups of a text (RFC 8439, 2.5).
pub fn groups_absorbed(accumulator: Limbs, r: Factor, groups: &[u8]) -> Limbs
    requires accumulator { accumulator.high ≤ 4 }
    requires factor { IsFactor r }
    requires groups { length groups.now % GROUP ≡ 0 }
    ensures value { (text : List ℕ) → IsAccumulator (factor_number r) (number_of accumulator % prime) text
        → IsAccumulator (factor_number r) (number_of result % prime) (text ++ groups.now) }
    ensures high { result.high ≤ 4 }
{
    let powers = powers_of(r);
    let beyond = columns_beyond(&powers, 64);
    let mut next = accumulator;
    'each: for i in 0..groups.len() / GROUP {
        next = group_absorbed(
            next,
            &powers,
            &beyond,
            &groups[GROUP * i..GROUP * i + GROUP],
        );
    }
    next
}
