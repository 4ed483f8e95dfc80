//! The suite of the standard.

ghost use Rattle.chacha20poly1305.specs.Aead.{opened, seal_of};
ghost use Rattle.curve25519.specs.X25519.{public_key, x25519};
ghost use Rattle.scrypt.specs.Scrypt.{accepts, scrypt_of};
ghost use Rattle.age_standard.specs.Laws.{standard_agreement, standard_cipher, standard_stretching};

use age_error::suite::ScryptError;
use age_suite::suite::{Opens, Suite};
use std::alloc::{AllocError, Global};

/// The primitives that age-encryption.org/v1 names. It has no `Debug`, and holds nothing.
#[derive(Drop)]
pub struct StandardSuite;

impl Suite for StandardSuite {
    ghost seal_of = { seal_of };

    ghost opened = { opened };

    ghost shared_of = { x25519 };

    ghost public_of = { public_key };

    ghost stretch_of = { scrypt_of };

    ghost accepts = { accepts };

    /// ChaCha20-Poly1305 (RFC 8439, 2.8). Takes memory once, for the seal.
    fn seal(
        alloc: Global,
        key: &[u8; 32],
        nonce: &[u8; 12],
        plain: &[u8],
    ) -> Result<Vec<u8>, AllocError> {
        chacha20poly1305::seal(alloc, key, nonce, plain)
    }

    /// ChaCha20-Poly1305 (RFC 8439, 2.8). Takes memory once where the text opens, and none where it doesn't.
    fn open(
        alloc: Global,
        opens: &mut Opens,
        key: &[u8; 32],
        nonce: &[u8; 12],
        sealed: &[u8],
    ) -> Result<Option<Vec<u8>>, AllocError> {
        opens.tick();
        chacha20poly1305::open(alloc, key, nonce, sealed)
    }

    /// X25519 (RFC 7748, 5). A public value of low order gives 32 zero bytes.
    fn x25519(secret: &[u8; 32], public: &[u8; 32]) -> [u8; 32] {
        x25519::x25519(secret, public)
    }

    /// X25519 of the base point 9 (RFC 7748, 6.1).
    fn public(secret: &[u8; 32]) -> [u8; 32] {
        x25519::public_key(secret)
    }

    /// scrypt with N = 2^`log_n`, r = 8 and p = 1 (RFC 7914, 6). Work factors from 1 to 63 are accepted; each takes 1,024 bytes times N, and
    /// where there is no such memory the answer is `OutOfMemory`.
    fn scrypt(
        alloc: Global,
        passphrase: &[u8],
        salt: &[u8],
        log_n: u8,
    ) -> Result<[u8; 32], ScryptError> {
        match scrypt::scrypt(alloc, passphrase, salt, log_n) {
            Ok(key) => Ok(key),
            Err(scrypt::ScryptError::InvalidParams) => Err(ScryptError::InvalidParams),
            Err(scrypt::ScryptError::OutOfMemory) => Err(ScryptError::OutOfMemory),
        }
    }

    ghost cipher = { standard_cipher };

    ghost agreement = { standard_agreement };

    ghost stretching = { standard_stretching };
}
