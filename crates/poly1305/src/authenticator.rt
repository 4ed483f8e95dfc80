//! The tag of a text that is given piece by piece (RFC 8439, 2.5).
ghost use Rattle.std.specs.Prelude.{◌≡◌, ℕ, ◌+◌, ◌/◌, ◌%◌, ◌<◌, ◌≤◌, ◌↔◌, IsTrue, List, [], ◌++◌, length, take, Some, codes};
ghost use Rattle.poly1305.specs.Mac.{accumulated, block_count, clamped, poly1305_mac, prime};
ghost use Rattle.poly1305.specs.Limbs.{number_of, IsFactor};

use crate::blocks::{clamped, completed, number, short_block, whole_block};
use crate::groups::{GROUP, carried, groups_absorbed};
use crate::limbs::{Factor, Limbs, absorbed, reduced};
use crate::steps::Steps;
use std::fmt;

// From so many bytes on blocks are taken in groups: fewer don't make up for the powers of r that are made first.
const LONG: usize = 4096;

/// The state of a tag: the key, and what was made of the text that was given so far. A key is for one text alone (RFC 8439, 2.5).
#[derive(Drop)]
pub struct Poly1305 {
    // Of the whole blocks.
    pub(crate) accumulator: Limbs,
    pub(crate) r: Factor,
    s: u128,
    // The block that is begun, and how many bytes of it were given.
    block: [u8; 16],
    filled: usize,
    ghost carried: { accumulator.high ≤ 4 },
    ghost is_factor: { IsFactor r },
    ghost begun: { filled < 16 },
}

impl Poly1305 {
    ghost use Rattle.poly1305.specs.Given.{WasGiven};
    ghost use Rattle.poly1305.specs.Steps.{AreBelowAfter, HasTaken, IsUnbegun};

    /// The state under a key of 32 bytes, with no text given yet.
    pub fn new(key: &[u8; 32]) -> Poly1305
        ensures { WasGiven result key.now [] }
    {
        Poly1305 {
            accumulator: Limbs {
                low: 0,
                middle: 0,
                high: 0,
            },
            r: clamped(&key[..16]),
            s: number(&key[16..]),
            block: [0; 16],
            filled: 0,
        }
    }

    /// Takes one block, where none is begun.
    #[inline(always)]
    fn take_block(&mut self, block: &[u8])
        requires unbegun { self.old.filled ≡ 0 }
        requires whole { length block.now ≡ 16 }
        ensures given { (key text : List ℕ) → WasGiven self.old key text → WasGiven self.new key (text ++ block.now) }
        ensures unbegun { self.new.filled ≡ 0 }
    {
        self.accumulator = absorbed(self.accumulator, self.r, whole_block(block));
    }

    /// Takes whole blocks one by one, where none is begun.
    fn take_each(&mut self, blocks: &[u8])
        requires unbegun { self.old.filled ≡ 0 }
        requires whole { length blocks.now % 16 ≡ 0 }
        ensures given { (key text : List ℕ) → WasGiven self.old key text → WasGiven self.new key (text ++ blocks.now) }
        ensures unbegun { self.new.filled ≡ 0 }
    {
        'each: for i in 0..blocks.len() / 16 {
            self.take_block(&blocks[16 * i..16 * i + 16]);
        }
    }

    /// Takes groups of whole blocks, where none is begun.
    fn take_groups(&mut self, groups: &[u8])
        requires unbegun { self.old.filled ≡ 0 }
        requires whole { length groups.now % GROUP ≡ 0 }
        ensures given { (key text : List ℕ) → WasGiven self.old key text → WasGiven self.new key (text ++ groups.now) }
        ensures unbegun { self.new.filled ≡ 0 }
    {
        self.accumulator = groups_absorbed(self.accumulator, self.r, groups);
    }

    /// Takes a group of 512 bytes whose eight steps are done, where no block is begun.
    #[inline(always)]
    pub fn take_group(&mut self, steps: Steps)
        requires unbegun { IsUnbegun self.old }
        requires below { AreBelowAfter 8 steps }
        ensures given { (key text group : List ℕ) → length group ≡ 512 → WasGiven self.old key text → HasTaken key text group steps
            → WasGiven self.new key (text ++ group) }
        ensures unbegun { IsUnbegun self.new }
    {
        self.accumulator = carried(steps.columns);
    }

    /// Takes whole blocks, where none is begun.
    fn take_blocks(&mut self, blocks: &[u8])
        requires unbegun { self.old.filled ≡ 0 }
        requires whole { length blocks.now % 16 ≡ 0 }
        ensures given { (key text : List ℕ) → WasGiven self.old key text → WasGiven self.new key (text ++ blocks.now) }
        ensures unbegun { self.new.filled ≡ 0 }
    {
        if blocks.len() < LONG {
            self.take_each(blocks);
        } else {
            let (groups, last) = blocks.split_at(blocks.len() - blocks.len() % GROUP);
            self.take_groups(groups);
            self.take_each(last);
        }
    }

    /// Takes bytes that don't fill the block that is begun.
    fn hold(&mut self, bytes: &[u8])
        requires { self.old.filled + length bytes.now < 16 }
        ensures { (key text : List ℕ) → WasGiven self.old key text → WasGiven self.new key (text ++ bytes.now) }
    {
        let end = self.filled + bytes.len();
        self.block[self.filled..end].copy_from_slice(bytes);
        self.filled = end;
    }

    /// Takes the bytes that fill the block that is begun.
    fn complete(&mut self, bytes: &[u8])
        requires { self.old.filled + length bytes.now ≡ 16 }
        ensures given { (key text : List ℕ) → WasGiven self.old key text → WasGiven self.new key (text ++ bytes.now) }
        ensures unbegun { self.new.filled ≡ 0 }
    {
        let block = completed(&self.block, self.filled, bytes);
        self.accumulator = absorbed(self.accumulator, self.r, whole_block(&block));
        self.filled = 0;
    }

    /// Takes bytes, where no block is begun.
    fn take_unbegun(&mut self, bytes: &[u8])
        requires { self.old.filled ≡ 0 }
        ensures { (key text : List ℕ) → WasGiven self.old key text → WasGiven self.new key (text ++ bytes.now) }
    {
        let (blocks, last) = bytes.split_at(bytes.len() - bytes.len() % 16);
        self.take_blocks(blocks);
        self.hold(last);
    }

    /// Gives the next bytes of the text, which may be none: they follow those given before. The tag depends on the pieces joined, and
    /// not on how the text was cut into them.
    // (where no block is begun all whole blocks are taken together)
    pub fn update(&mut self, bytes: &[u8])
        ensures { (key text : List ℕ) → WasGiven self.old key text → WasGiven self.new key (text ++ bytes.now) }
    {
        let free = 16 - self.filled;
        if self.filled == 0 {
            self.take_unbegun(bytes);
        } else if bytes.len() < free {
            self.hold(bytes);
        } else {
            let (front, rest) = bytes.split_at(free);
            self.complete(front);
            self.take_unbegun(rest);
        }
    }

    /// The accumulator of the whole text: of the block that is begun too.
    fn last_accumulator(&self) -> Limbs
        ensures value { (key text : List ℕ) → WasGiven self.now key text →
            number_of result % prime ≡ accumulated (clamped (take 16 key)) text (block_count text) }
        ensures high { result.high ≤ 4 }
    {
        if self.filled == 0 {
            self.accumulator
        } else {
            absorbed(
                self.accumulator,
                self.r,
                short_block(&self.block[..self.filled]),
            )
        }
    }

    /// The tag of all the text that was given, 16 bytes (RFC 8439, 2.5).
    pub fn finalize(self) -> [u8; 16]
        ensures { (key text : List ℕ) → WasGiven self key text → result ≡ poly1305_mac key text }
    {
        reduced(self.last_accumulator())
            .wrapping_add(self.s)
            .to_le_bytes()
    }

    /// Whether these bytes are the tag of all the text that was given. They may be of any number: if they aren't 16, they are the tag
    /// of no text. A difference doesn't end the comparison.
    pub fn verify(self, tag: &[u8]) -> bool
        ensures { (key text : List ℕ) → WasGiven self key text → IsTrue result ↔ (tag.now ≡ poly1305_mac key text) }
    {
        are_same(tag, &self.finalize())
    }
}

/// Whether two slices hold the same bytes. A difference doesn't end the comparison.
fn are_same(left: &[u8], right: &[u8]) -> bool
    ensures { IsTrue result ↔ (left.now ≡ right.now) }
{
    let mut same = left.len() == right.len();
    for (x, y) in left.iter().zip(right) {
        same &= x == y;
    }
    same
}

impl fmt::Debug for Poly1305 {
    // No byte of the key and of the text.
    ghost debug_output = { λ _. Some (codes "Poly1305 { .. }") };

    fn fmt<W: fmt::Write>(&self, f: &mut fmt::Formatter<W>) -> fmt::Result {
        f.write_str("Poly1305 { .. }")
    }
}

/// The tag of a text under a key of 32 bytes, `poly1305_mac` of RFC 8439, 2.5.1: 16 bytes. The text may be of any length.
pub fn poly1305_mac(key: &[u8; 32], text: &[u8]) -> [u8; 16]
    ensures { result ≡ poly1305_mac key.now text.now }
{
    let mut state = Poly1305::new(key);
    state.update(text);
    state.finalize()
}
