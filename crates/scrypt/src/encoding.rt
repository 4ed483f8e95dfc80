//! Blocks of words as bytes, and bytes as blocks: each word has its low byte first (RFC 7914, 3).
ghost use Rattle.std.specs.Prelude.{◌≡◌, ◌+◌, ◌*◌, ◌≤◌, length};
ghost use Rattle.scrypt.specs.Encoding.{block_bytes, blocks, blocks_bytes, word, words};

use crate::salsa::Block;

/// Word `i` of these bytes.
fn word(bytes: &[u8], i: usize) -> u32
    requires { 4 * i + 4 ≤ length bytes.now }
    ensures { result ≡ word bytes.now i }
{
    u32::from_le_bytes([
        bytes[4 * i],
        bytes[4 * i + 1],
        bytes[4 * i + 2],
        bytes[4 * i + 3],
    ])
}

/// The block of these 64 bytes.
fn block(bytes: &[u8]) -> Block
    requires { length bytes.now ≡ 64 }
    ensures { result ≡ words bytes.now 16 }
{
    let mut x = [0; 16];
    'places: for i in 0..16 {
        x[i] = word(bytes, i);
    }
    x
}

/// The blocks of these bytes.
pub fn blocks(bytes: &[u8; 1024]) -> [Block; 16]
    ensures { result ≡ blocks bytes.now 16 }
{
    let mut b = [[0; 16]; 16];
    'places: for i in 0..16 {
        b[i] = block(&bytes[64 * i..64 * i + 64]);
    }
    b
}

/// The bytes of a block.
fn block_bytes(x: &Block) -> [u8; 64]
    ensures { result ≡ block_bytes x.now }
{
    let mut bytes = [0; 64];
    'places: for i in 0..16 {
        bytes[4 * i..4 * i + 4].copy_from_slice(&x[i].to_le_bytes());
    }
    bytes
}

/// The bytes of blocks, one after another.
pub fn blocks_bytes(b: &[Block; 16]) -> [u8; 1024]
    ensures { result ≡ blocks_bytes b.now }
{
    let mut bytes = [0; 1024];
    'places: for i in 0..16 {
        bytes[64 * i..64 * i + 64].copy_from_slice(&block_bytes(&b[i]));
    }
    bytes
}
