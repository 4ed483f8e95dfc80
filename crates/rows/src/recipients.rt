//! Several recipients and few random bytes: which encryptions are refused, and what is left of the random bytes.

use crate::files::{key, passphrase, prepared, zeros};
use crate::lines::{done, is_done, ready, say};
use age::draw::Draw;
use age::secrecy::FileKey;
use age::{Recipient, scrypt, x25519};
use age_bench::names::To;
use age_bench::suite::BenchSuite;

// An encryption to recipients with so many random bytes.
fn prepare(rt: &HostRuntime, of: &str, to: &[To], random: usize) {
    let Some(mut draw) = zeros(rt, of, random) else {
        return;
    };
    if prepared(rt, of, to, &mut draw).is_some() {
        say(rt, of, "encryptor", &"done");
    }
    say(rt, of, "left", &draw.left());
}

// The recipient of the key.
fn public(rt: &HostRuntime) -> Option<x25519::Recipient<BenchSuite>> {
    Some(key(rt)?.to_public())
}

// An encryption to the key alone.
fn prepare_for_key(rt: &HostRuntime, of: &str, random: usize) {
    if let Some(recipient) = public(rt) {
        prepare(rt, of, &[To::Key(recipient)], random);
    }
}

// One to the key and under a passphrase.
fn prepare_mixed(rt: &HostRuntime) {
    let Some(recipient) = public(rt) else {
        return;
    };
    if let Some(passphrase) = done(rt, "mixed", "passphrase", passphrase(rt.alloc())) {
        let other = scrypt::Recipient::new(passphrase, 10);
        prepare(
            rt,
            "mixed",
            &[To::Key(recipient), To::Passphrase(other)],
            104,
        );
    }
}

// The identity of a secret of zeros.
fn of_zeros(rt: &HostRuntime) -> Option<x25519::Identity<BenchSuite>> {
    x25519::Identity::generate(&mut zeros(rt, "secret", 32)?)
}

// Wraps a file key.
fn wrap(rt: &HostRuntime, to: &x25519::Recipient<BenchSuite>, draw: &mut Draw) {
    let wrapped = to.wrap_file_key(rt.alloc(), &FileKey::new([0; 16]), draw);
    is_done(rt, "zero", "wrapped", wrapped);
    say(rt, "zero", "left", &draw.left());
}

// Wraps a file key for the recipient whose secret the random bytes are.
fn wrap_for_zeros(rt: &HostRuntime) {
    let Some(identity) = of_zeros(rt) else {
        return;
    };
    if let Some(mut draw) = zeros(rt, "zero", 32) {
        wrap(rt, &identity.to_public(), &mut draw);
    }
}

/// Makes the calls.
pub fn row(rt: &HostRuntime) {
    ready(rt);
    prepare(rt, "none", &[], 16);
    prepare_mixed(rt);
    prepare_for_key(rt, "short", 63);
    prepare_for_key(rt, "enough", 64);
    wrap_for_zeros(rt);
}
