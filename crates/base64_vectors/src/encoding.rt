//! Bytes to columns.
ghost use Rattle.std.specs.Prelude.{◌≡◌, ◌<◌, ◌+◌, ◌*◌, ◌/◌, ◌%◌, length, take};
ghost use Rattle.std.specs.Simd.Lanes.{Each1};
ghost use Rattle.age_base64.specs.Base64.{padded_columns, symbols};
ghost use Rattle.base64_vectors.specs.Vectors.{indices, looked_up};

use crate::lookup::looked_up;
use std::simd::prelude::*;

/// The indices that the first 12 bytes come to.
#[inline(always)]
fn indices_of(bytes: u8x16) -> u8x16
    ensures { result ≡ indices (take 12 bytes) }
{
    let words = u16x8::from_le_bytes(bytes.swizzle([
        1, 0, 2, 1, 4, 3, 5, 4, 7, 6, 8, 7, 10, 9, 11, 10,
    ]));
    let low = words >> u16x8::from_array([10, 6, 10, 6, 10, 6, 10, 6]);
    let high = words << u16x8::from_array([4, 8, 4, 8, 4, 8, 4, 8]);
    low.to_le_bytes().shuffle(
        high.to_le_bytes(),
        [0, 17, 2, 19, 4, 21, 6, 23, 8, 25, 10, 27, 12, 29, 14, 31],
    ) & u8x16::splat(63)
}

/// The symbols at these indices: each is its index and a number that depends on which of the alphabet's five ranges it is in.
#[inline(always)]
fn symbols_at(indices: u8x16) -> u8x16
    requires { Each1 (λ index. index < 64) indices }
    ensures { result ≡ looked_up symbols indices }
{
    let ranges = indices
        .simd_lt(u8x16::splat(26))
        .select(u8x16::splat(13), indices.saturating_sub(u8x16::splat(51)));
    let offsets = u8x16::from_array([
        71, 252, 252, 252, 252, 252, 252, 252, 252, 252, 252, 237, 240, 65, 0, 0,
    ]);
    indices + looked_up(offsets, ranges)
}

/// Writes the 16 columns of the first 12 bytes.
#[inline(always)]
fn encode_group(bytes: u8x16, columns: &mut [u8])
    requires { length columns.old ≡ 16 }
    ensures { columns.new ≡ padded_columns (take 12 bytes) }
{
    symbols_at(indices_of(bytes)).copy_to_slice(columns);
}

/// Writes the 64 columns of the 48 bytes of a line.
#[inline(always)]
fn encode_line(bytes: &[u8], columns: &mut [u8])
    requires { (length bytes.now ≡ 48) × (length columns.old ≡ 64) }
    ensures { columns.new ≡ padded_columns bytes.now }
{
    let last = u8x16::from_slice(&bytes[32..48]).swizzle([
        4, 5, 6, 7, 8, 9, 10, 11, 12, 13, 14, 15, 0, 0, 0, 0,
    ]);
    encode_group(u8x16::from_slice(&bytes[0..16]), &mut columns[0..16]);
    encode_group(u8x16::from_slice(&bytes[12..28]), &mut columns[16..32]);
    encode_group(u8x16::from_slice(&bytes[24..40]), &mut columns[32..48]);
    encode_group(last, &mut columns[48..64]);
}

/// Writes the base64 of `bytes` to `columns`, which it fills: whole lines of 48 bytes as 64 columns.
pub fn encode_full(bytes: &[u8], columns: &mut [u8])
    requires whole { length bytes.now % 48 ≡ 0 }
    requires room { length columns.old * 3 ≡ length bytes.now * 4 }
    ensures { columns.new ≡ padded_columns bytes.now }
{
    'lines: for line in 0..bytes.len() / 48 {
        encode_line(
            &bytes[48 * line..48 * line + 48],
            &mut columns[64 * line..64 * line + 64],
        );
    }
}
