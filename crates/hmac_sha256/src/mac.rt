//! HMAC with SHA-256 (RFC 2104, section 2).

ghost use Rattle.std.specs.Prelude.{◌≡◌, ◌↔◌, IsTrue, List, ℕ, [], ◌++◌, Some, codes};
ghost use Rattle.hmac_sha256.specs.Hmac.{hmac_of, key_block, padded_with, WasGiven};

use sha2::{Digest, Sha256};
use std::fmt;

const BLOCK: usize = 64;

// The key's block: the key, or its digest where it is longer than a block, filled up with zeros.
fn block_of(key: &[u8]) -> [u8; BLOCK]
    ensures { result ≡ key_block key.now }
{
    let mut block = [0u8; BLOCK];
    if key.len() <= BLOCK {
        block[..key.len()].copy_from_slice(key);
    } else {
        let digest: [u8; 32] = Sha256::digest(key);
        block[..32].copy_from_slice(&digest);
    }
    block
}

// Each byte of a block combined with one byte by exclusive or.
fn padded(block: &[u8; BLOCK], pad: u8) -> [u8; BLOCK]
    ensures { result ≡ padded_with pad block.now }
{
    let mut out = *block;
    for x in out.iter_mut() {
        *x ^= pad;
    }
    out
}

// Whether two slices hold the same bytes. A difference doesn't end the comparison.
fn are_same(left: &[u8], right: &[u8]) -> bool
    ensures { IsTrue result ↔ (left.now ≡ right.now) }
{
    let mut same = left.len() == right.len();
    for (x, y) in left.iter().zip(right) {
        same &= x == y;
    }
    same
}

/// The HMAC-SHA-256 of a text that is given piece by piece (RFC 2104, section 2). It depends on
/// the pieces joined, and not on how the text was cut into them.
#[derive(Drop)]
pub struct HmacWriter {
    inner: Sha256,
    outer: Sha256,
}

impl HmacWriter {
    /// A writer under a key of any number of bytes, with no text given yet. A key of more than 64
    /// bytes stands for its SHA-256 digest.
    pub fn new(key: &[u8]) -> HmacWriter
        ensures { WasGiven result key.now [] }
    {
        let block = block_of(key);
        let mut inner = Sha256::new();
        inner.update(padded(&block, 0x36).as_slice());
        let mut outer = Sha256::new();
        outer.update(padded(&block, 0x5c).as_slice());
        HmacWriter { inner, outer }
    }

    /// Gives the next bytes of the text, which may be none: they follow those given before.
    pub fn update(&mut self, bytes: &[u8])
        ensures { (key text : List ℕ) → WasGiven self.old key text → WasGiven self.new key (text ++ bytes.now) }
    {
        self.inner.update(bytes);
    }

    /// The 32 bytes of the HMAC of all the text that was given, under the writer's key.
    pub fn finalize(self) -> [u8; 32]
        ensures { (key text : List ℕ) → WasGiven self key text → result ≡ hmac_of key text }
    {
        let inner: [u8; 32] = self.inner.finalize();
        let mut outer = self.outer;
        outer.update(inner.as_slice());
        outer.finalize()
    }

    /// Whether a MAC is the HMAC of all the text that was given, under the writer's key. It may
    /// have any number of bytes: one that hasn't 32 is the HMAC of no text.
    pub fn verify(self, mac: &[u8]) -> bool
        ensures { (key text : List ℕ) → WasGiven self key text → IsTrue result ↔ (mac.now ≡ hmac_of key text) }
    {
        are_same(mac, &self.finalize())
    }
}

impl fmt::Debug for HmacWriter {
    // No byte of the key and of the text.
    ghost debug_output = { λ _. Some (codes "HmacWriter { .. }") };

    fn fmt<W: fmt::Write>(&self, f: &mut fmt::Formatter<W>) -> fmt::Result {
        f.write_str("HmacWriter { .. }")
    }
}

/// The 32 bytes of the HMAC-SHA-256 of a text under a key of any number of bytes (RFC 2104).
pub fn hmac(key: &[u8], text: &[u8]) -> [u8; 32]
    ensures { result ≡ hmac_of key.now text.now }
{
    let mut writer = HmacWriter::new(key);
    writer.update(text);
    writer.finalize()
}
