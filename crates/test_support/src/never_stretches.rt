//! A suite for tests that shows where passphrases are stretched.

ghost use Rattle.test_support.specs.Other.{other_seal, other_opened, other_shared, other_public};
ghost use Rattle.test_support.specs.Laws.{other_cipher, other_agreement, stretched_zeros, zeros_stretching};

use crate::other_suite::OtherSuite;
use age_error::suite::ScryptError;
use age_suite::suite::{Opens, Suite};
use std::alloc::{AllocError, Global};

/// The other suite, but that it stretches no passphrase: it accepts each work factor and then answers `OutOfMemory`. So whoever answers
/// anything else has had no passphrase stretched.
#[derive(Drop)]
pub struct NeverStretches;

impl Suite for NeverStretches {
    ghost use Rattle.std.specs.Prelude.{true};

    ghost seal_of = { other_seal };

    ghost opened = { other_opened };

    ghost shared_of = { other_shared };

    ghost public_of = { other_public };

    ghost stretch_of = { stretched_zeros };

    ghost accepts = { λ _. true };

    fn seal(
        alloc: Global,
        key: &[u8; 32],
        nonce: &[u8; 12],
        plain: &[u8],
    ) -> Result<Vec<u8>, AllocError> {
        OtherSuite::seal(alloc, key, nonce, plain)
    }

    fn open(
        alloc: Global,
        opens: &mut Opens,
        key: &[u8; 32],
        nonce: &[u8; 12],
        sealed: &[u8],
    ) -> Result<Option<Vec<u8>>, AllocError> {
        OtherSuite::open(alloc, opens, key, nonce, sealed)
    }

    fn x25519(secret: &[u8; 32], public: &[u8; 32]) -> [u8; 32] {
        OtherSuite::x25519(secret, public)
    }

    fn public(secret: &[u8; 32]) -> [u8; 32] {
        OtherSuite::public(secret)
    }

    /// Refused for want of memory, always.
    fn scrypt(
        _alloc: Global,
        _passphrase: &[u8],
        _salt: &[u8],
        _log_n: u8,
    ) -> Result<[u8; 32], ScryptError> {
        Err(ScryptError::OutOfMemory)
    }

    ghost cipher = { other_cipher };

    ghost agreement = { other_agreement };

    ghost stretching = { zeros_stretching };
}
