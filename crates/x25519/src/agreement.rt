//! The calls (RFC 7748, 5 and 6.1).
ghost use Rattle.std.specs.Prelude.{◌≡◌};
ghost use Rattle.curve25519.specs.X25519.{public_key, x25519};

use crate::encoding::{clamped, decode_u_coordinate, encode_u_coordinate};
use crate::ladder::scalar_multiplication;

/// X25519 (RFC 7748, 5): the 32 bytes of the shared secret that a secret of 32 bytes and another side's public key of 32 bytes have. It
/// takes no memory and never refuses: any bytes are a secret, of which five bits don't count, and any bytes are a public key, of
/// which the highest bit doesn't count; numbers of p and more are taken modulo p.
///
/// Of the few public keys of low order it makes 32 zero bytes, whatever the secret is. Looking for that is left to the caller, who
/// has to where the other side could gain by such a key (RFC 7748, 6.1).
pub fn x25519(secret: &[u8; 32], public: &[u8; 32]) -> [u8; 32]
    ensures { result ≡ x25519 secret.now public.now }
{
    let scalar = clamped(secret);
    let u = decode_u_coordinate(public);
    let product = scalar_multiplication(&scalar, u);
    encode_u_coordinate(product)
}

/// The 32 bytes of the public key of a secret of 32 bytes: X25519 of the secret and the base point, whose u-coordinate is 9 (RFC 7748,
/// 6.1). It takes no memory and never refuses.
#[tactic(auto, unfolding(curve25519::specs::X25519::public_key))]
pub fn public_key(secret: &[u8; 32]) -> [u8; 32]
    ensures { result ≡ public_key secret.now }
{
    x25519(
        secret,
        &[
            9, 0, 0, 0, 0, 0, 0, 0, 0, 0, 0, 0, 0, 0, 0, 0, 0, 0, 0, 0, 0, 0, 0, 0, 0, 0, 0, 0, 0,
            0, 0, 0,
        ],
    )
}
