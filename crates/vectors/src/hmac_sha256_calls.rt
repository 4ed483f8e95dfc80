//! Calls of `hmac_sha256`: `hmac KEY TEXT`; `finalize KEY PIECE ..`, of a writer that is given the pieces; `verify KEY TEXT MAC`;
//! `hkdf SALT INFO INPUT`; and `debug KEY TEXT`, of a writer before it is given the text and after it.

use crate::words::{Fault, both, debugged, shown, told};
use hmac_sha256::{HmacWriter, hkdf, hmac};
use std::alloc::Global;

fn mac(alloc: Global, args: &[Vec<u8>]) -> Result<String, Fault> {
    let [key, text] = args else {
        return Err(Fault::Count);
    };
    shown(alloc, &hmac(key, text))
}

fn finalize(alloc: Global, args: &[Vec<u8>]) -> Result<String, Fault> {
    let Some((key, pieces)) = args.split_first() else {
        return Err(Fault::Count);
    };
    let mut writer = HmacWriter::new(key);
    for piece in pieces {
        writer.update(piece);
    }
    shown(alloc, &writer.finalize())
}

fn verify(alloc: Global, args: &[Vec<u8>]) -> Result<String, Fault> {
    let [key, text, mac] = args else {
        return Err(Fault::Count);
    };
    let mut writer = HmacWriter::new(key);
    writer.update(text);
    told(alloc, writer.verify(mac))
}

fn derive(alloc: Global, args: &[Vec<u8>]) -> Result<String, Fault> {
    let [salt, info, input] = args else {
        return Err(Fault::Count);
    };
    shown(alloc, &hkdf(salt, info, input))
}

fn debug(alloc: Global, args: &[Vec<u8>]) -> Result<String, Fault> {
    let [key, text] = args else {
        return Err(Fault::Count);
    };
    let mut writer = HmacWriter::new(key);
    let before = debugged(alloc, &writer)?;
    writer.update(text);
    both(alloc, &before, &debugged(alloc, &writer)?)
}

/// What a call answers.
pub fn answer(alloc: Global, name: &str, args: &[Vec<u8>]) -> Result<String, Fault> {
    match name {
        "hmac" => mac(alloc, args),
        "finalize" => finalize(alloc, args),
        "verify" => verify(alloc, args),
        "hkdf" => derive(alloc, args),
        "debug" => debug(alloc, args),
        _ => Err(Fault::Call),
    }
}
