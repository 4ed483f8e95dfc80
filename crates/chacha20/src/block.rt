//! The block function (RFC 8439, 2.3), on eight blocks side by side.
ghost use Rattle.std.specs.Prelude.{◌≡◌, ◌+◌, ◌*◌, ◌/◌, ◌%◌, ◌^◌, ◌<◌, ◌≤◌, ℕ, List, length, slice_index};
ghost use Rattle.std.specs.Int.{w32, to_le_bytes};
ghost use Rattle.chacha20.specs.Block.{initial_state, word};
ghost use Rattle.chacha20.specs.Rounds.{double_rounds, word_sum};
ghost use Rattle.chacha20.specs.Lanes.{lane};
ghost use Rattle.chacha20.specs.Blocks.{HasDone, IsBlocks};

use crate::rounds::{double_round, sum};
use crate::transposed::transposed;
use std::simd::u32x8;

/// Word `i` of these bytes, the low byte first, in each lane.
#[inline(always)]
fn word(bytes: &[u8], i: usize) -> u32x8
    requires { 4 * i + 4 ≤ length bytes.now }
    ensures { (j : ℕ) → j < 8 → slice_index result j ≡ word bytes.now i }
{
    u32x8::splat(u32::from_le_bytes([
        bytes[4 * i],
        bytes[4 * i + 1],
        bytes[4 * i + 2],
        bytes[4 * i + 3],
    ]))
}

/// The counters of eight blocks, which begin again at 0 after 2^32 - 1.
#[inline(always)]
fn counters(counter: u32) -> u32x8
    ensures { (j : ℕ) → j < 8 → slice_index result j ≡ (counter + j) % 2 ^ 32 }
{
    u32x8::splat(counter) + u32x8::from_array([0, 1, 2, 3, 4, 5, 6, 7])
}

/// The states of the eight blocks from this counter on, before the rounds (RFC 8439, 2.3), under a key of 32 bytes and a nonce of 12:
/// word `i` of all of them in vector `i`, block `j` in lane `j`. After block 2^32 - 1 comes block 0.
#[inline(always)]
pub fn initial_states(key: &[u8; 32], counter: u32, nonce: &[u8; 12]) -> [u32x8; 16]
    ensures { (j : ℕ) → j < 8 → lane j result ≡ initial_state key.now ((counter + j) % 2 ^ 32) nonce.now }
{
    [
        u32x8::splat(0x6170_7865),
        u32x8::splat(0x3320_646e),
        u32x8::splat(0x7962_2d32),
        u32x8::splat(0x6b20_6574),
        word(key, 0),
        word(key, 1),
        word(key, 2),
        word(key, 3),
        word(key, 4),
        word(key, 5),
        word(key, 6),
        word(key, 7),
        counters(counter),
        word(nonce, 0),
        word(nonce, 1),
        word(nonce, 2),
    ]
}

/// Eight words of each of eight states, from place `from` on, with those of the states before added.
#[inline(always)]
fn sums(states: &[u32x8; 16], before: &[u32x8; 16], from: usize) -> [u32x8; 8]
    requires { from ≤ 8 }
    ensures { (j k : ℕ) → j < 8 → k < 8 → slice_index (lane j result) k
        ≡ word_sum (slice_index (lane j states.now) (from + k)) (slice_index (lane j before.now) (from + k)) }
{
    [
        sum(states[from], before[from]),
        sum(states[from + 1], before[from + 1]),
        sum(states[from + 2], before[from + 2]),
        sum(states[from + 3], before[from + 3]),
        sum(states[from + 4], before[from + 4]),
        sum(states[from + 5], before[from + 5]),
        sum(states[from + 6], before[from + 6]),
        sum(states[from + 7], before[from + 7]),
    ]
}

/// The states after the ten double rounds.
// (the first stands outside the loop: three of its column's quarter rounds don't have the counter, and are made once for a text)
#[inline(always)]
pub fn ten_double_rounds(before: &[u32x8; 16]) -> [u32x8; 16]
    ensures { (j : ℕ) → j < 8 → lane j result ≡ double_rounds 10 (lane j before.now) }
{
    let mut states = *before;
    double_round(&mut states);
    'rounds: for _round in 1..10u32 {
        double_round(&mut states);
    }
    states
}

/// The words of eight blocks, of their states before the ten double rounds and after them: of block `j` the first eight in the lanes
/// of vector `j`, the others in those of vector `8 + j`.
#[inline(always)]
pub fn words_of(before: &[u32x8; 16], states: &[u32x8; 16]) -> [u32x8; 16]
    ensures { (key : List ℕ) (counter : ℕ) (nonce : List ℕ) → HasDone key counter nonce 10 before.now states.now → IsBlocks key counter nonce result }
{
    let fronts = transposed(&sums(states, before, 0));
    let backs = transposed(&sums(states, before, 8));
    [
        fronts[0], fronts[1], fronts[2], fronts[3], fronts[4], fronts[5], fronts[6], fronts[7],
        backs[0], backs[1], backs[2], backs[3], backs[4], backs[5], backs[6], backs[7],
    ]
}

/// The bytes of eight words, each with its low byte first.
#[inline(always)]
pub fn bytes_of(words: u32x8) -> [u8; 32]
    ensures { (i : ℕ) → i < 32 → slice_index result i ≡ slice_index (to_le_bytes w32 (slice_index words (i / 4))) (i % 4) }
{
    words.to_le_bytes().to_array()
}
