//! Bytes as numbers: the first half of a key, and blocks (RFC 8439, 2.5).
ghost use Rattle.std.specs.Prelude.{◌≡◌, ◌+◌, ◌^◌, ◌<◌, ◌≤◌, ◌++◌, length, take};
ghost use Rattle.std.specs.Int.{w128, from_le_bytes};
ghost use Rattle.poly1305.specs.Mac.{block_number, clamped};
ghost use Rattle.poly1305.specs.Limbs.{factor_number, number_of, IsFactor};

use crate::limbs::{Factor, Limbs, limbs_of};

/// 16 bytes as a number, the low byte first.
#[inline(always)]
pub fn number(bytes: &[u8]) -> u128
    requires { length bytes.now ≡ 16 }
    ensures { result ≡ from_le_bytes w128 bytes.now }
{
    match bytes.first_chunk::<16>() {
        Some(array) => u128::from_le_bytes(*array),
        None => 0,
    }
}

/// The first half of a key, clamped (RFC 8439, 2.5.1).
#[inline(always)]
pub fn clamped(half: &[u8]) -> Factor
    requires { length half.now ≡ 16 }
    ensures value { factor_number result ≡ clamped half.now }
    ensures bits { IsFactor result }
{
    let bits = number(half) & 0x0fff_fffc_0fff_fffc_0fff_fffc_0fff_ffff;
    Factor {
        low: (bits % 0x1_0000_0000_0000_0000) as u64,
        high: (bits / 0x1_0000_0000_0000_0000) as u64,
    }
}

/// The number of a whole block, without the bit beyond its bytes.
#[inline(always)]
pub fn whole_bytes(block: &[u8]) -> Limbs
    requires { length block.now ≡ 16 }
    ensures value { number_of result + 2 ^ 128 ≡ block_number block.now }
    ensures high { result.high ≡ 0 }
{
    limbs_of(number(block))
}

/// The number of a whole block, with the bit beyond its bytes.
#[inline(always)]
pub fn whole_block(block: &[u8]) -> Limbs
    requires { length block.now ≡ 16 }
    ensures value { number_of result ≡ block_number block.now }
    ensures high { result.high ≤ 1 }
{
    let limbs = limbs_of(number(block));
    Limbs {
        low: limbs.low,
        middle: limbs.middle,
        high: 1,
    }
}

/// A block that is begun, and the bytes that fill it.
pub fn completed(begun: &[u8; 16], filled: usize, bytes: &[u8]) -> [u8; 16]
    requires { filled + length bytes.now ≡ 16 }
    ensures { result ≡ take filled begun.now ++ bytes.now }
{
    let mut block = *begun;
    block[filled..].copy_from_slice(bytes);
    block
}

/// A block of fewer than 16 bytes, a one, and zeros.
fn padded(block: &[u8]) -> [u8; 16]
    requires { length block.now < 16 }
    ensures { from_le_bytes w128 result ≡ block_number block.now }
{
    let mut padded = [0; 16];
    padded[..block.len()].copy_from_slice(block);
    padded[block.len()] = 1;
    padded
}

/// The number of a block that isn't whole, with the bit beyond its bytes.
pub fn short_block(block: &[u8]) -> Limbs
    requires { length block.now < 16 }
    ensures value { number_of result ≡ block_number block.now }
    ensures high { result.high ≤ 1 }
{
    limbs_of(u128::from_le_bytes(padded(block)))
}
