//! Scalars and u-coordinates as 32 bytes (RFC 7748, 5).
ghost use Rattle.std.specs.Prelude.{◌≡◌, ◌%◌, ◌/◌, ◌^◌, ◌<◌, All};
ghost use Rattle.std.specs.Int.{bit_at};
ghost use Rattle.curve25519.specs.Field.{prime};
ghost use Rattle.curve25519.specs.Encoding.{decode_little_endian, clamped, decode_u_coordinate, encode_u_coordinate};
ghost use Rattle.x25519.specs.Elements.{value};

use crate::arithmetic::{canonical, small, small_product, sum};
use crate::element::Element;

/// That bytes are numbers below 2^8: for proofs alone.
fn are_bytes(bytes: &[u8])
    ensures { All (λ byte. byte < 2 ^ 8) bytes.now }
{}

/// The bytes of the scalar that a secret is decoded to: bits 0, 1, 2 and 255 are cleared, and bit 254 is set.
#[tactic(auto, unfolding(curve25519::specs::Encoding::clamped))]
pub fn clamped(secret: &[u8; 32]) -> [u8; 32]
    ensures { result ≡ clamped secret.now }
{
    let mut scalar = *secret;
    scalar[0] &= 248;
    scalar[31] &= 127;
    scalar[31] |= 64;
    scalar
}

/// Bit t of a scalar.
pub fn scalar_bit(scalar: &[u8; 32], t: usize) -> u64
    requires { t < 256 }
    ensures { result ≡ bit_at (decode_little_endian scalar.now) t }
{
    are_bytes(scalar);
    u64::from((scalar[t / 8] >> (t % 8)) % 2)
}

/// The number of 32 bytes.
fn decode_little_endian(bytes: &[u8; 32]) -> Element
    ensures { value result % prime ≡ decode_little_endian bytes.now % prime }
{
    let mut number = small(0);
    'bytes: for i in 0..32usize {
        let byte = small(u64::from(bytes[31 - i]));
        let moved = small_product(256, number);
        number = sum(moved, byte);
    }
    number
}

/// The number of a u-coordinate, without its highest bit.
#[tactic(auto, unfolding(curve25519::specs::Encoding::decode_u_coordinate))]
pub fn decode_u_coordinate(u: &[u8; 32]) -> Element
    ensures { value result % prime ≡ decode_u_coordinate u.now % prime }
{
    let mut bytes = *u;
    bytes[31] &= 127;
    decode_little_endian(&bytes)
}

/// The element divided by 256, without its remainder.
#[inline(always)]
fn without_low_byte(e: Element) -> Element
    ensures { value result ≡ value e / 256 }
{
    Element {
        limb0: e.limb0 / 256 + e.limb1 % 256 * 0x800_0000_0000,
        limb1: e.limb1 / 256 + e.limb2 % 256 * 0x800_0000_0000,
        limb2: e.limb2 / 256 + e.limb3 % 256 * 0x800_0000_0000,
        limb3: e.limb3 / 256 + e.limb4 % 256 * 0x800_0000_0000,
        limb4: e.limb4 / 256,
    }
}

/// The 32 bytes of a u-coordinate, below p.
pub fn encode_u_coordinate(u: Element) -> [u8; 32]
    ensures { result ≡ encode_u_coordinate (value u) }
{
    let mut bytes = [0; 32];
    let mut rest = canonical(u);
    'bytes: for i in 0..32usize {
        bytes[i] = (rest.limb0 % 256) as u8;
        rest = without_low_byte(rest);
    }
    bytes
}
