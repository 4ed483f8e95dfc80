//! The key stream over bytes (RFC 8439, 2.4).
ghost use Rattle.std.specs.Prelude.{◌≡◌, ◌+◌, ◌*◌, ◌%◌, ◌<◌, ◌≤◌, ◌^◌, ℕ, List, length};
ghost use Rattle.chacha20.specs.Block.{chacha20_block};
ghost use Rattle.chacha20.specs.Encryption.{chacha20_encrypt, encrypted_from};
ghost use Rattle.chacha20.specs.Blocks.{HasDone, IsBlocks, IsEncryptedTo, IsStreamFrom};

use crate::block::{bytes_of, initial_states, ten_double_rounds, words_of};
use std::simd::u32x8;

/// How many bytes the blocks have that are made side by side.
const BLOCKS: usize = 512;

/// Combines 32 bytes from a place on, or as many as there are, with the bytes of eight words. The length is handed in: where it is a
/// constant no place is compared with it.
#[inline(always)]
fn combine(bytes: &mut [u8], len: usize, at: usize, words: u32x8)
    requires end { at + 32 < 2 ^ 64 }
    requires len { len ≡ length bytes.old }
    ensures length { length bytes.new ≡ length bytes.old }
    ensures encrypts { (key : List ℕ) (counter : ℕ) (nonce : List ℕ) (from : ℕ) (text : List ℕ) → IsStreamFrom key counter nonce (from + at) words
        → IsEncryptedTo key counter nonce from text at bytes.old → IsEncryptedTo key counter nonce from text (at + 32) bytes.new }
{
    let stream = bytes_of(words);
    if at + 32 <= len {
        'whole: for k in 0..32 {
            bytes[at + k] ^= stream[k];
        }
    } else if at < len {
        'part: for k in 0..len - at {
            bytes[at + k] ^= stream[k];
        }
    }
}

/// Combines the bytes of eight blocks of a text, or as many as there are, with these words of the key stream.
#[inline(always)]
fn combine_words(bytes: &mut [u8], len: usize, blocks: &[u32x8; 16])
    requires len { len ≡ length bytes.old }
    requires fits { length bytes.old ≤ BLOCKS }
    ensures length { length bytes.new ≡ length bytes.old }
    ensures encrypts { (key : List ℕ) (counter : ℕ) (nonce : List ℕ) (n : ℕ) → IsBlocks key ((counter + 8 * n % 2 ^ 32) % 2 ^ 32) nonce blocks.now
        → bytes.new ≡ encrypted_from key counter nonce (512 * n) bytes.old }
{
    'places: for j in 0..8 {
        combine(bytes, len, 64 * j, blocks[j]);
        combine(bytes, len, 64 * j + 32, blocks[8 + j]);
    }
}

/// Combines each byte of a text of at most 512 bytes, by exclusive or, with its byte of eight blocks of the key stream, in place: of
/// their states before the ten double rounds and after them. Where the text is a part of a longer one that begins at byte
/// 512 * n of it, these are its blocks from 8 * n on.
#[inline(always)]
pub fn apply_blocks(before: &[u32x8; 16], states: &[u32x8; 16], bytes: &mut [u8])
    requires { length bytes.old ≤ BLOCKS }
    ensures length { length bytes.new ≡ length bytes.old }
    ensures encrypts { (key : List ℕ) (counter : ℕ) (nonce : List ℕ) (n : ℕ)
        → HasDone key ((counter + 8 * n % 2 ^ 32) % 2 ^ 32) nonce 10 before.now states.now
        → bytes.new ≡ encrypted_from key counter nonce (512 * n) bytes.old }
{
    let blocks = words_of(before, states);
    let len = bytes.len();
    if len == BLOCKS {
        combine_words(bytes, BLOCKS, &blocks);
    } else {
        combine_words(bytes, len, &blocks);
    }
}

/// Combines the bytes of eight blocks of a text, or as many as there are, with the key stream from block `8 * n` on.
#[inline(always)]
fn combine_blocks(key: &[u8; 32], counter: u32, nonce: &[u8; 12], n: usize, bytes: &mut [u8])
    requires { (length bytes.old ≤ BLOCKS) × (BLOCKS * n < 2 ^ 64) }
    ensures { bytes.new ≡ encrypted_from key.now counter nonce.now (512 * n) bytes.old }
{
    let from = counter.wrapping_add((8 * n % 0x1_0000_0000) as u32);
    let before = initial_states(key, from, nonce);
    let states = ten_double_rounds(&before);
    apply_blocks(&before, &states, bytes);
}

/// How many groups of eight blocks a text of so many bytes has, with one that isn't whole.
#[inline(always)]
fn groups_of(len: usize) -> usize
    ensures reach { len ≤ BLOCKS * result }
    ensures begun { BLOCKS * result < len + BLOCKS }
{
    let whole = len / BLOCKS;
    if BLOCKS * whole < len {
        return whole + 1;
    }
    whole
}

/// Combines each byte by exclusive or with its byte of the key stream, in place: this encrypts, and done once more it decrypts
/// (RFC 8439, 2.4). The key has 32 bytes, the nonce 12; the stream begins with the block of this counter. The bytes may be of any
/// length, which stays. It takes no memory and never refuses.
///
/// After block 2^32 - 1 the counter begins again at 0, and with it a stream that was used before: the RFC forbids such texts.
pub fn apply_keystream(key: &[u8; 32], counter: u32, nonce: &[u8; 12], bytes: &mut [u8])
    ensures { bytes.new ≡ chacha20_encrypt key.now counter nonce.now bytes.old }
{
    // (copies, which no write to the bytes can change: so what is made of them is made once)
    let key = *key;
    let nonce = *nonce;
    'each: for n in 0..groups_of(bytes.len()) {
        let end = bytes.len().min(BLOCKS * n + BLOCKS);
        combine_blocks(&key, counter, &nonce, n, &mut bytes[BLOCKS * n..end]);
    }
}

/// The 64 bytes of the key stream that a key of 32 bytes, a block counter and a nonce of 12 bytes give (RFC 8439, 2.3). It takes
/// no memory and never refuses. It makes eight blocks, and hands out the first.
pub fn chacha20_block(key: &[u8; 32], counter: u32, nonce: &[u8; 12]) -> [u8; 64]
    ensures { result ≡ chacha20_block key.now counter nonce.now }
{
    let mut block = [0; 64];
    apply_keystream(key, counter, nonce, &mut block);
    block
}
