//! Numbers modulo 2^130 - 5 in three limbs of 64 bits, of which the third is small.
//!
//! `/` and `%` by powers of two are compiled to shifts and masks: 0x1_0000_0000_0000_0000 is 2^64.
ghost use Rattle.std.specs.Prelude.{◌≡◌, ◌+◌, ◌-◌, ◌*◌, ◌%◌, ◌^◌, ◌<◌, ◌≤◌};
ghost use Rattle.poly1305.specs.Mac.{prime};
ghost use Rattle.poly1305.specs.Limbs.{column_number, factor_number, number_of, AreBounded, IsFactor};

/// A number: the sum of the limbs, of which the second counts 2^64 and the third 2^128.
#[derive(Clone, Copy)]
pub struct Limbs {
    pub low: u64,
    pub middle: u64,
    pub high: u64,
}

/// The factor of a key, `r`: the sum of its halves, of which the second counts 2^64. Clamped, each has 60 bits, and the second is four
/// times a number.
#[derive(Clone, Copy)]
pub struct Factor {
    pub low: u64,
    pub high: u64,
}

/// The sums of products of limbs that count the same power of 2, before their carries: as with limbs, the second counts 2^64 and the
/// third 2^128.
#[derive(Clone, Copy)]
struct Columns {
    low: u128,
    middle: u128,
    high: u64,
}

/// The product of two limbs. It says the one bound that isn't linear, so that all others follow.
#[inline(always)]
pub fn product(a: u64, b: u64) -> u128
    ensures value { result ≡ a * b }
    ensures bound { result ≤ (2 ^ 64 - 1) * b }
{
    u128::from(a) * u128::from(b)
}

/// The product of a third limb and a limb of a factor.
#[inline(always)]
pub fn small_product(a: u64, b: u64) -> u64
    requires left { a < 8 }
    requires right { b < 2 ^ 61 }
    ensures value { result ≡ a * b }
    ensures bound { result ≤ 7 * b }
{
    a * b
}

/// The product of a number and a factor modulo the prime, before its carries. 2^130 is 5 modulo the prime, so 2^128 times the factor's
/// second half, which is four times a number, is 5 times that number.
#[inline(always)]
fn columns_of(a: Limbs, r: Factor) -> Columns
    requires number { a.high < 8 }
    requires factor { IsFactor r }
    ensures value { column_number result % prime ≡ (number_of a * factor_number r) % prime }
    ensures bounds { AreBounded result }
{
    let folded = r.high / 4 * 5;
    Columns {
        low: product(a.low, r.low) + product(a.middle, folded),
        middle: product(a.low, r.high)
            + product(a.middle, r.low)
            + u128::from(small_product(a.high, folded)),
        high: small_product(a.high, r.low),
    }
}

/// A number modulo the prime, by the carries from each column to the next, and from bit 130 to the first.
#[inline(always)]
fn carried(columns: Columns) -> Limbs
    requires { AreBounded columns }
    ensures value { number_of result % prime ≡ column_number columns % prime }
    ensures high { result.high ≤ 4 }
{
    let middle = columns.middle + columns.low / 0x1_0000_0000_0000_0000;
    let high = columns.high + (middle / 0x1_0000_0000_0000_0000) as u64;
    let low = columns.low % 0x1_0000_0000_0000_0000 + u128::from(high / 4 * 5);
    let next = middle % 0x1_0000_0000_0000_0000 + low / 0x1_0000_0000_0000_0000;
    Limbs {
        low: (low % 0x1_0000_0000_0000_0000) as u64,
        middle: (next % 0x1_0000_0000_0000_0000) as u64,
        high: high % 4 + (next / 0x1_0000_0000_0000_0000) as u64,
    }
}

/// The sum of two numbers.
#[inline(always)]
pub fn sum(a: Limbs, b: Limbs) -> Limbs
    requires left { a.high ≤ 4 }
    requires right { b.high ≤ 1 }
    ensures value { number_of result ≡ number_of a + number_of b }
    ensures high { result.high < 8 }
{
    let low = u128::from(a.low) + u128::from(b.low);
    let middle = u128::from(a.middle) + u128::from(b.middle) + low / 0x1_0000_0000_0000_0000;
    Limbs {
        low: (low % 0x1_0000_0000_0000_0000) as u64,
        middle: (middle % 0x1_0000_0000_0000_0000) as u64,
        high: a.high + b.high + (middle / 0x1_0000_0000_0000_0000) as u64,
    }
}

/// The accumulator after one more block: the block is added, and the sum multiplied by `r`, modulo the prime (RFC 8439, 2.5).
#[inline(always)]
pub fn absorbed(accumulator: Limbs, r: Factor, block: Limbs) -> Limbs
    requires accumulator { accumulator.high ≤ 4 }
    requires factor { IsFactor r }
    requires block { block.high ≤ 1 }
    ensures value { number_of result % prime ≡ ((number_of accumulator % prime + number_of block) * factor_number r) % prime }
    ensures high { result.high ≤ 4 }
{
    carried(columns_of(sum(accumulator, block), r))
}

/// A number times 2^64, modulo the prime. 2^130 is 5 there, so what the second limb has above its lowest two bits counts 5 in the first,
/// and what the third has counts 5 * 2^62.
pub fn shifted(number: Limbs) -> Limbs
    requires { number.high ≤ 4 }
    ensures value { number_of result % prime ≡ (2 ^ 64 * number_of number) % prime }
    ensures high { result.high ≤ 4 }
{
    carried(Columns {
        low: u128::from(number.middle / 4) * 5 + u128::from(number.high) * 0x1_4000_0000_0000_0000,
        middle: u128::from(number.low),
        high: number.middle % 4,
    })
}

/// The limbs of a number.
#[inline(always)]
pub fn limbs_of(number: u128) -> Limbs
    ensures value { number_of result ≡ number }
    ensures high { result.high ≡ 0 }
{
    Limbs {
        low: (number % 0x1_0000_0000_0000_0000) as u64,
        middle: (number / 0x1_0000_0000_0000_0000) as u64,
        high: 0,
    }
}

/// The lowest 128 bits of the number modulo the prime. The number is below twice the prime, and it is the prime or more exactly where
/// 5 more carry out of 130 bits. Then these 5 are added and the carry is left out, which takes the prime off: so there is no branch.
pub fn reduced(number: Limbs) -> u128
    requires { number.high ≤ 4 }
    ensures { result ≡ number_of number % prime % 2 ^ 128 }
{
    let low = u128::from(number.low) + 5;
    let middle = u128::from(number.middle) + low / 0x1_0000_0000_0000_0000;
    let carry = (u128::from(number.high) + middle / 0x1_0000_0000_0000_0000) / 4;
    let front = u128::from(number.low) + u128::from(number.middle) * 0x1_0000_0000_0000_0000;
    front.wrapping_add(carry * 5)
}
