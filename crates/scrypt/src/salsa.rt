//! The Salsa20/8 Core (RFC 7914, 3).
ghost use Rattle.std.specs.Prelude.{◌≡◌, ◌<◌};
ghost use Rattle.scrypt.specs.BlockMix.{block_xor};
ghost use Rattle.scrypt.specs.Salsa.{column_round, double_rounds, quarter_round, quarter_round_on, row_round, salsa20_8, xor_rotated_sum, word_sum};
ghost use Rattle.std.specs.Simd.Lanes.{zip2};

/// Sixteen words, the 64 bytes of the RFC's blocks.
pub type Block = [u32; 16];

/// `x ^ R (a + b, n)`.
#[inline(always)]
fn xor_rotated_sum(x: u32, a: u32, b: u32, n: u32) -> u32
    requires { n < 32 }
    ensures { result ≡ xor_rotated_sum x a b n }
{
    x ^ a.wrapping_add(b).rotate_left(n)
}

/// Four steps on four words: each is changed by the sum of the two before it, in a circle.
#[inline(always)]
#[tactic(auto, unfolding(crate::specs::Salsa::quarter_round))]
fn quarter_round(a: u32, b: u32, c: u32, d: u32) -> (u32, u32, u32, u32)
    ensures { result ≡ quarter_round a b c d }
{
    let b1 = xor_rotated_sum(b, a, d, 7);
    let c1 = xor_rotated_sum(c, b1, a, 9);
    let d1 = xor_rotated_sum(d, c1, b1, 13);
    let a1 = xor_rotated_sum(a, d1, c1, 18);
    (a1, b1, c1, d1)
}

/// The same on the words of a block at four places.
#[inline(always)]
fn quarter_round_on(x: &mut Block, i: usize, j: usize, k: usize, l: usize)
    requires { (i < 16) × (j < 16) × (k < 16) × (l < 16) }
    ensures { x.new ≡ quarter_round_on x.old i j k l }
{
    let (a, b, c, d) = quarter_round(x[i], x[j], x[k], x[l]);
    x[i] = a;
    x[j] = b;
    x[k] = c;
    x[l] = d;
}

/// Four steps on each column.
#[inline(always)]
fn column_round(x: &mut Block)
    ensures { x.new ≡ column_round x.old }
{
    quarter_round_on(x, 0, 4, 8, 12);
    quarter_round_on(x, 5, 9, 13, 1);
    quarter_round_on(x, 10, 14, 2, 6);
    quarter_round_on(x, 15, 3, 7, 11);
}

/// Four steps on each row.
#[inline(always)]
fn row_round(x: &mut Block)
    ensures { x.new ≡ row_round x.old }
{
    quarter_round_on(x, 0, 1, 2, 3);
    quarter_round_on(x, 5, 6, 7, 4);
    quarter_round_on(x, 10, 11, 8, 9);
    quarter_round_on(x, 15, 12, 13, 14);
}

/// The eight rounds, two at a time.
#[inline(always)]
fn four_double_rounds(x: &mut Block)
    ensures { x.new ≡ double_rounds 4 x.old }
{
    'rounds: for _round in 0..4u32 {
        column_round(x);
        row_round(x);
    }
}

/// Adds the words of a block to those of another.
#[inline(always)]
fn add_block(x: &mut Block, block: &Block)
    ensures { x.new ≡ zip2 word_sum x.old block.now }
{
    'words: for i in 0..16 {
        x[i] = x[i].wrapping_add(block[i]);
    }
}

/// Combines the words of a block by exclusive or with those of another.
#[inline(always)]
pub fn xor_block(x: &mut Block, block: &Block)
    ensures { x.new ≡ block_xor x.old block.now }
{
    'words: for i in 0..16 {
        x[i] ^= block[i];
    }
}

/// The hash of a block.
#[inline(always)]
#[tactic(auto, unfolding(crate::specs::Salsa::salsa20_8))]
pub fn salsa20_8(block: &Block) -> Block
    ensures { result ≡ salsa20_8 block.now }
{
    let mut x = *block;
    four_double_rounds(&mut x);
    add_block(&mut x, block);
    x
}
