//! What a suite answers besides: work factors that it refuses, and a public value of low order.

use age::suite::{ScryptError, Suite};
use age_standard::StandardSuite;
use std::process::Abort;

#[test]
fn factors_that_are_refused(rt: HostRuntime) {
    for factor in [0, 64, 255] {
        let answer = StandardSuite::scrypt(rt.alloc(), b"p", b"s", factor);
        assert!(rt; matches!(answer, Err(ScryptError::InvalidParams)));
    }
}

#[test]
fn the_largest_factor_wants_memory(rt: HostRuntime) {
    let answer = StandardSuite::scrypt(rt.alloc(), b"p", b"s", 63);
    assert!(rt; matches!(answer, Err(ScryptError::OutOfMemory)));
}

#[test]
fn a_public_value_of_zero_gives_zeros(rt: HostRuntime) {
    assert!(rt; StandardSuite::x25519(&[7; 32], &[0; 32]) == [0; 32]);
}
