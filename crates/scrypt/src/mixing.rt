//! The mixing of blocks (RFC 7914, 4), and with a table of all that was mixed on the way (RFC 7914, 5).
ghost use Rattle.std.specs.Prelude.{◌≡◌, ◌%◌, ◌^◌, ◌<◌, IfOk};
ghost use Rattle.scrypt.specs.BlockMix.{block_mix, block_xor};
ghost use Rattle.scrypt.specs.RomMix.{blocks_xor, number, rom_mix};
ghost use Rattle.scrypt.specs.Salsa.{salsa20_8};

use crate::salsa::{Block, salsa20_8, xor_block};
use std::alloc::{AllocError, Global};

/// The hash of two blocks combined.
#[inline(always)]
fn hash(x: &Block, block: &Block) -> Block
    ensures { result ≡ salsa20_8 (block_xor x.now block.now) }
{
    let mut combined = *x;
    xor_block(&mut combined, block);
    salsa20_8(&combined)
}

/// The mixing of 16 blocks: each is hashed with what came of those before it, and those with an even number come first.
fn block_mix(b: &[Block; 16]) -> [Block; 16]
    ensures { result ≡ block_mix b.now }
{
    let mut x = b[15];
    let mut mixed = [[0; 16]; 16];
    'pairs: for i in 0..8 {
        x = hash(&x, &b[2 * i]);
        mixed[i] = x;
        x = hash(&x, &b[2 * i + 1]);
        mixed[8 + i] = x;
    }
    mixed
}

/// Combines blocks by exclusive or with others.
#[inline(always)]
fn xor_blocks(x: &mut [Block; 16], blocks: &[Block; 16])
    ensures { x.new ≡ blocks_xor x.old blocks.now }
{
    'places: for i in 0..16 {
        xor_block(&mut x[i], &blocks[i]);
    }
}

/// The number of a block modulo 2^`log_n`, which the two low words tell.
#[inline(always)]
fn number_modulo(block: &Block, log_n: u8) -> usize
    requires { log_n < 64 }
    ensures { result ≡ number block.now % 2 ^ log_n }
{
    let low = block[0] as usize;
    let high = block[1] as usize;
    (low + 0x1_0000_0000 * high) % (1 << log_n)
}

/// The mixing of 16 blocks over a table of 2^`log_n` entries, each of 1024 bytes.
pub fn rom_mix(alloc: Global, b: [Block; 16], log_n: u8) -> Result<[Block; 16], AllocError>
    requires { log_n < 64 }
    ensures { IfOk result (λ mixed. mixed ≡ rom_mix b (2 ^ log_n)) }
{
    let count = 1usize << log_n;
    let mut table = Vec::with_capacity(alloc, count)?;
    let mut x = b;
    'fill: for _i in 0..count {
        table.push(x)?;
        x = block_mix(&x);
    }
    'walk: for _i in 0..count {
        let j = number_modulo(&x[15], log_n);
        xor_blocks(&mut x, &table[j]);
        x = block_mix(&x);
    }
    Ok(x)
}
