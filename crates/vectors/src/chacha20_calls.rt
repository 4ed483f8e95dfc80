//! Calls of `chacha20`: `chacha20_block KEY COUNTER NONCE` and `apply_keystream KEY COUNTER NONCE TEXT`.

use crate::words::{Fault, array, number, shown};
use chacha20::{apply_keystream, chacha20_block};
use std::alloc::Global;

fn counter(bytes: &[u8]) -> Result<u32, Fault> {
    u32::try_from(number(bytes)?).map_err(|_| Fault::Word)
}

fn block(alloc: Global, args: &[Vec<u8>]) -> Result<String, Fault> {
    let [key, at, nonce] = args else {
        return Err(Fault::Count);
    };
    let key = array::<32>(key)?;
    let nonce = array::<12>(nonce)?;
    shown(alloc, &chacha20_block(&key, counter(at)?, &nonce))
}

fn keystream(alloc: Global, args: &[Vec<u8>]) -> Result<String, Fault> {
    let [key, at, nonce, text] = args else {
        return Err(Fault::Count);
    };
    let key = array::<32>(key)?;
    let nonce = array::<12>(nonce)?;
    let at = counter(at)?;
    let mut text = text.clone()?;
    apply_keystream(&key, at, &nonce, &mut text);
    shown(alloc, &text)
}

/// What a call answers.
pub fn answer(alloc: Global, name: &str, args: &[Vec<u8>]) -> Result<String, Fault> {
    match name {
        "chacha20_block" => block(alloc, args),
        "apply_keystream" => keystream(alloc, args),
        _ => Err(Fault::Call),
    }
}
