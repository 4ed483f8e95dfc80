//! Calls of `poly1305`: `poly1305_mac KEY TEXT`; `verify KEY TEXT TAG`, of a text that is given whole; `verify_in_two KEY FRONT BACK TAG`, of
//! one that is given in two pieces; `verify_cut KEY TEXT TAG`, whether that is so wherever the text is cut in two; and `debug KEY`.

use crate::words::{Fault, array, debugged, shown, told};
use poly1305::{Poly1305, poly1305_mac};
use std::alloc::Global;

fn mac(alloc: Global, args: &[Vec<u8>]) -> Result<String, Fault> {
    let [key, text] = args else {
        return Err(Fault::Count);
    };
    let key = array::<32>(key)?;
    shown(alloc, &poly1305_mac(&key, text))
}

fn verify(alloc: Global, args: &[Vec<u8>]) -> Result<String, Fault> {
    let [key, text, tag] = args else {
        return Err(Fault::Count);
    };
    let mut state = Poly1305::new(&array::<32>(key)?);
    state.update(text);
    told(alloc, state.verify(tag))
}

fn is_tag_in_two(key: &[u8; 32], front: &[u8], back: &[u8], tag: &[u8]) -> bool {
    let mut state = Poly1305::new(key);
    state.update(front);
    state.update(back);
    state.verify(tag)
}

fn verify_in_two(alloc: Global, args: &[Vec<u8>]) -> Result<String, Fault> {
    let [key, front, back, tag] = args else {
        return Err(Fault::Count);
    };
    let key = array::<32>(key)?;
    told(alloc, is_tag_in_two(&key, front, back, tag))
}

fn is_tag_wherever_cut(key: &[u8; 32], text: &[u8], tag: &[u8]) -> bool {
    let mut same = is_tag_in_two(key, text, &[], tag);
    for at in 0..text.len() {
        let (front, back) = text.split_at(at);
        same &= is_tag_in_two(key, front, back, tag);
    }
    same
}

fn verify_cut(alloc: Global, args: &[Vec<u8>]) -> Result<String, Fault> {
    let [key, text, tag] = args else {
        return Err(Fault::Count);
    };
    let key = array::<32>(key)?;
    told(alloc, is_tag_wherever_cut(&key, text, tag))
}

fn debug(alloc: Global, args: &[Vec<u8>]) -> Result<String, Fault> {
    let [key] = args else {
        return Err(Fault::Count);
    };
    debugged(alloc, &Poly1305::new(&array::<32>(key)?))
}

/// What a call answers.
pub fn answer(alloc: Global, name: &str, args: &[Vec<u8>]) -> Result<String, Fault> {
    match name {
        "poly1305_mac" => mac(alloc, args),
        "verify" => verify(alloc, args),
        "verify_in_two" => verify_in_two(alloc, args),
        "verify_cut" => verify_cut(alloc, args),
        "debug" => debug(alloc, args),
        _ => Err(Fault::Call),
    }
}
