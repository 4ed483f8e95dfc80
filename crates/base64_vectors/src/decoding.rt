//! Columns to bytes.
ghost use Rattle.std.specs.Prelude.{◌≡◌, ◌<◌, ◌+◌, ◌*◌, ◌/◌, ◌%◌, ◌^◌, ℕ, List, IsTrue, ◌++◌, length, map, slice_index, take};
ghost use Rattle.std.specs.Simd.Lanes.{Each1};
ghost use Rattle.base64.specs.GeneralPurpose.{IsBytes};
ghost use Rattle.age_base64.specs.Base64.{padded_columns};
ghost use Rattle.base64_vectors.specs.Vectors.{IsFaultless, fault_of, index_of, indices};

use crate::lookup::looked_up;
use std::simd::prelude::*;

/// What is wrong with each column, or 0 where it is a symbol. One table says what can't stand with its low four bits, the other what
/// can't stand with its high ones.
#[inline(always)]
fn faults_of(columns: u8x16) -> u8x16
    ensures { result ≡ map fault_of columns }
{
    let of_low = u8x16::from_array([
        0x15, 0x11, 0x11, 0x11, 0x11, 0x11, 0x11, 0x11, 0x11, 0x11, 0x13, 0x1a, 0x1b, 0x1b, 0x1b,
        0x1a,
    ]);
    let of_high = u8x16::from_array([
        0x10, 0x10, 0x01, 0x02, 0x04, 0x08, 0x04, 0x08, 0x10, 0x10, 0x10, 0x10, 0x10, 0x10, 0x10,
        0x10,
    ]);
    looked_up(of_low, columns & u8x16::splat(15)) & looked_up(of_high, columns >> u8x16::splat(4))
}

/// Whether all columns of four vectors are symbols.
#[inline(always)]
fn are_symbols(a: u8x16, b: u8x16, c: u8x16, d: u8x16) -> bool
    ensures right { IsTrue result → IsFaultless a × IsFaultless b × IsFaultless c × IsFaultless d }
    ensures taken { IsFaultless a → IsFaultless b → IsFaultless c → IsFaultless d → IsTrue result }
{
    let faults = faults_of(a) | faults_of(b) | faults_of(c) | faults_of(d);
    faults.simd_ne(u8x16::splat(0)).to_bitmask() == 0
}

/// The index of each symbol: the symbol and a number that depends on its high four bits, and on whether it is a slash.
#[inline(always)]
fn indices_at(columns: u8x16) -> u8x16
    ensures { result ≡ map index_of columns }
{
    let slashes = columns
        .simd_eq(u8x16::splat(b'/'))
        .select(u8x16::splat(255), u8x16::splat(0));
    let distances = u8x16::from_array([0, 16, 19, 4, 191, 191, 185, 185, 0, 0, 0, 0, 0, 0, 0, 0]);
    columns + looked_up(distances, (columns >> u8x16::splat(4)) + slashes)
}

/// Two indices each, joined.
#[inline(always)]
fn pairs_of(indices: u8x16) -> u16x8
    ensures { Each1 (λ index. index < 64) indices → (j : ℕ) → j < 8
        → slice_index result j ≡ 64 * slice_index indices (2 * j) + slice_index indices (2 * j + 1) }
{
    let words = u16x8::from_le_bytes(indices);
    ((words & u16x8::splat(0xff)) << u16x8::splat(6)) + (words >> u16x8::splat(8))
}

/// Two pairs each, joined.
#[inline(always)]
fn groups_of(pairs: u16x8) -> u32x4
    ensures { ((j : ℕ) → j < 8 → slice_index pairs j < 4096) → (k : ℕ) → k < 4
        → slice_index result k ≡ 4096 * slice_index pairs (2 * k) + slice_index pairs (2 * k + 1) }
{
    let words = u32x4::from_le_bytes(pairs.to_le_bytes());
    ((words & u32x4::splat(0xffff)) << u32x4::splat(12)) + (words >> u32x4::splat(16))
}

/// The three bytes of each group, in front.
#[inline(always)]
fn bytes_of(groups: u32x4) -> u8x16
    ensures length { length result ≡ 16 }
    ensures bytes { (k : ℕ) → k < 4 → (slice_index result (3 * k) ≡ slice_index groups k / 2 ^ 16 % 2 ^ 8)
        × (slice_index result (3 * k + 1) ≡ slice_index groups k / 2 ^ 8 % 2 ^ 8)
        × (slice_index result (3 * k + 2) ≡ slice_index groups k % 2 ^ 8) }
{
    groups
        .to_le_bytes()
        .swizzle([2, 1, 0, 6, 5, 4, 10, 9, 8, 14, 13, 12, 3, 3, 3, 3])
}

/// The 12 bytes that 16 symbols stand for, in front.
#[inline(always)]
fn decode_group(columns: u8x16) -> u8x16
    ensures length { length result ≡ 16 }
    ensures decoded { IsFaultless columns → padded_columns (take 12 result) ≡ columns }
{
    bytes_of(groups_of(pairs_of(indices_at(columns))))
}

/// Writes the 12 bytes in front of each of four vectors.
#[inline(always)]
fn write_line(a: u8x16, b: u8x16, c: u8x16, d: u8x16, bytes: &mut [u8])
    requires { length bytes.old ≡ 48 }
    ensures { bytes.new ≡ ((take 12 a ++ take 12 b) ++ take 12 c) ++ take 12 d }
{
    a.shuffle(b, [0, 1, 2, 3, 4, 5, 6, 7, 8, 9, 10, 11, 16, 17, 18, 19])
        .copy_to_slice(&mut bytes[0..16]);
    b.shuffle(
        c,
        [4, 5, 6, 7, 8, 9, 10, 11, 16, 17, 18, 19, 20, 21, 22, 23],
    )
    .copy_to_slice(&mut bytes[16..32]);
    c.shuffle(
        d,
        [8, 9, 10, 11, 16, 17, 18, 19, 20, 21, 22, 23, 24, 25, 26, 27],
    )
    .copy_to_slice(&mut bytes[32..48]);
}

/// Writes the 48 bytes that the columns of a line stand for, or any bytes and answers `false`.
#[inline(always)]
fn decode_line(columns: &[u8], bytes: &mut [u8]) -> bool
    requires { (length columns.now ≡ 64) × (length bytes.old ≡ 48) }
    ensures length { length bytes.new ≡ 48 }
    ensures decoded { IsTrue result → padded_columns bytes.new ≡ columns.now }
    ensures taken { (content : List ℕ) → IsBytes content → length content ≡ 48 → padded_columns content ≡ columns.now → IsTrue result }
{
    let a = u8x16::from_slice(&columns[0..16]);
    let b = u8x16::from_slice(&columns[16..32]);
    let c = u8x16::from_slice(&columns[32..48]);
    let d = u8x16::from_slice(&columns[48..64]);
    write_line(
        decode_group(a),
        decode_group(b),
        decode_group(c),
        decode_group(d),
        bytes,
    );
    are_symbols(a, b, c, d)
}

/// Whether `columns` are the base64 of as many bytes as fill `bytes`, which are then there: whole lines of 64 columns as 48 bytes.
/// `true` wherever they are, so canonical base64 without padding is never refused.
pub fn decode_full(columns: &[u8], bytes: &mut [u8]) -> bool
    requires whole { length columns.now % 64 ≡ 0 }
    requires room { length columns.now * 3 ≡ length bytes.old * 4 }
    ensures length { length bytes.new ≡ length bytes.old }
    ensures decoded { IsTrue result → padded_columns bytes.new ≡ columns.now }
    ensures taken { (content : List ℕ) → IsBytes content → length content ≡ length bytes.old → padded_columns content ≡ columns.now → IsTrue result }
{
    'lines: for line in 0..columns.len() / 64 {
        if !decode_line(
            &columns[64 * line..64 * line + 64],
            &mut bytes[48 * line..48 * line + 48],
        ) {
            return false;
        }
    }
    true
}
