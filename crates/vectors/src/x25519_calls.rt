//! Calls of `x25519`: `x25519 SECRET PUBLIC`, `public_key SECRET`, and `rounds COUNT`, the iteration of RFC 7748, 5.2.

use crate::words::{Fault, array, number, shown};
use std::alloc::Global;
use x25519::{public_key, x25519};

fn shared(alloc: Global, args: &[Vec<u8>]) -> Result<String, Fault> {
    let [secret, public] = args else {
        return Err(Fault::Count);
    };
    let secret = array::<32>(secret)?;
    let public = array::<32>(public)?;
    shown(alloc, &x25519(&secret, &public))
}

fn public(alloc: Global, args: &[Vec<u8>]) -> Result<String, Fault> {
    let [secret] = args else {
        return Err(Fault::Count);
    };
    shown(alloc, &public_key(&array::<32>(secret)?))
}

// In each round k becomes the output, and u the old k.
fn iterated(count: u64) -> [u8; 32] {
    let mut k = [0; 32];
    k[0] = 9;
    let mut u = k;
    for _ in 0..count {
        let output = x25519(&k, &u);
        u = k;
        k = output;
    }
    k
}

fn rounds(alloc: Global, args: &[Vec<u8>]) -> Result<String, Fault> {
    let [count] = args else {
        return Err(Fault::Count);
    };
    shown(alloc, &iterated(number(count)?))
}

/// What a call answers.
pub fn answer(alloc: Global, name: &str, args: &[Vec<u8>]) -> Result<String, Fault> {
    match name {
        "x25519" => shared(alloc, args),
        "public_key" => public(alloc, args),
        "rounds" => rounds(alloc, args),
        _ => Err(Fault::Call),
    }
}
