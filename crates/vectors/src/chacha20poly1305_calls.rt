//! Calls of `chacha20poly1305`, each with a key and a nonce before what is named here: `one_time_key`; `seal PLAINTEXT`; `open SEAL`, which
//! answers `none` where it is refused; `end PLAINTEXT`, the seal's length and its last 16 bytes; `seal_and_open PLAINTEXT`, whether the seal
//! opens to the plaintext; `open_changed SEAL` and `open_cut SEAL`, the first place where a bit may be changed, and the first length that the
//! seal may be cut to, with no refusal; `open_changed_at PLAINTEXT PLACE` and `open_cut_to PLAINTEXT COUNT`, what the seal of a plaintext opens
//! to that is changed or cut so.

use crate::words::{Fault, array, both, number, said, shown, told};
use chacha20poly1305::{one_time_key, open, seal};
use std::alloc::{AllocError, Global};

/// A key and a nonce.
#[derive(Clone, Copy)]
struct Keys {
    key: [u8; 32],
    nonce: [u8; 12],
}

impl Keys {
    fn read(key: &[u8], nonce: &[u8]) -> Result<Keys, Fault> {
        Ok(Keys {
            key: array::<32>(key)?,
            nonce: array::<12>(nonce)?,
        })
    }

    fn seal(&self, alloc: Global, plain: &[u8]) -> Result<Vec<u8>, AllocError> {
        seal(alloc, &self.key, &self.nonce, plain)
    }

    fn open(&self, alloc: Global, sealed: &[u8]) -> Result<Option<Vec<u8>>, AllocError> {
        open(alloc, &self.key, &self.nonce, sealed)
    }

    fn refuses(&self, alloc: Global, sealed: &[u8]) -> Result<bool, AllocError> {
        Ok(self.open(alloc, sealed)?.is_none())
    }
}

fn flip(bytes: &mut [u8], place: usize) {
    if let Some(byte) = bytes.get_mut(place) {
        *byte ^= 0x40;
    }
}

fn front(bytes: &[u8], count: usize) -> &[u8] {
    let (front, _) = bytes.split_at(count.min(bytes.len()));
    front
}

fn opened(alloc: Global, keys: &Keys, sealed: &[u8]) -> Result<String, Fault> {
    match keys.open(alloc, sealed)? {
        Some(plain) => shown(alloc, &plain),
        None => said(alloc, "none"),
    }
}

fn sealed(alloc: Global, keys: &Keys, plain: &[u8]) -> Result<String, Fault> {
    shown(alloc, &keys.seal(alloc, plain)?)
}

// The length of a seal and its last 16 bytes.
fn end(alloc: Global, keys: &Keys, plain: &[u8]) -> Result<String, Fault> {
    let sealed = keys.seal(alloc, plain)?;
    let (_, tag) = sealed.split_at(sealed.len().saturating_sub(16));
    let tag = shown(alloc, tag)?;
    let len = sealed.len();
    Ok(format!(in alloc; "{len} {tag}")?)
}

fn comes_back(alloc: Global, keys: &Keys, plain: &[u8]) -> Result<bool, AllocError> {
    let sealed = keys.seal(alloc, plain)?;
    Ok(
        keys.open(alloc, &sealed)?
            .is_some_and(|opened| opened.as_slice() == plain),
    )
}

// The first place at which a changed bit isn't refused.
fn first_change(alloc: Global, keys: &Keys, sealed: &[u8]) -> Result<Option<usize>, AllocError> {
    let mut changed = sealed.to_vec(alloc)?;
    for place in 0..sealed.len() {
        flip(&mut changed, place);
        if !keys.refuses(alloc, &changed)? {
            return Ok(Some(place));
        }
        flip(&mut changed, place);
    }
    Ok(None)
}

// The least length of a beginning that isn't refused.
fn first_cut(alloc: Global, keys: &Keys, sealed: &[u8]) -> Result<Option<usize>, AllocError> {
    for count in 0..sealed.len() {
        if !keys.refuses(alloc, front(sealed, count))? {
            return Ok(Some(count));
        }
    }
    Ok(None)
}

fn place(alloc: Global, place: Option<usize>) -> Result<String, Fault> {
    match place {
        Some(place) => Ok(format!(in alloc; "{place}")?),
        None => said(alloc, "none"),
    }
}

// A call on bytes.
fn of_bytes(alloc: Global, name: &str, keys: &Keys, bytes: &[u8]) -> Result<String, Fault> {
    match name {
        "seal" => sealed(alloc, keys, bytes),
        "open" => opened(alloc, keys, bytes),
        "end" => end(alloc, keys, bytes),
        "seal_and_open" => told(alloc, comes_back(alloc, keys, bytes)?),
        "open_changed" => place(alloc, first_change(alloc, keys, bytes)?),
        "open_cut" => place(alloc, first_cut(alloc, keys, bytes)?),
        _ => Err(Fault::Call),
    }
}

// A call on a plaintext and a number.
fn of_place(
    alloc: Global,
    name: &str,
    keys: &Keys,
    plain: &[u8],
    at: usize,
) -> Result<String, Fault> {
    let mut sealed = keys.seal(alloc, plain)?;
    match name {
        "open_changed_at" => {
            flip(&mut sealed, at);
            opened(alloc, keys, &sealed)
        }
        "open_cut_to" => opened(alloc, keys, front(&sealed, at)),
        _ => Err(Fault::Call),
    }
}

/// What a call answers.
pub fn answer(alloc: Global, name: &str, args: &[Vec<u8>]) -> Result<String, Fault> {
    let [key, nonce, args @ ..] = args else {
        return Err(Fault::Count);
    };
    let keys = Keys::read(key, nonce)?;
    match args {
        [] if name == "one_time_key" => shown(alloc, &one_time_key(&keys.key, &keys.nonce)),
        [text] => of_bytes(alloc, name, &keys, text),
        [text, at] => of_place(alloc, name, &keys, text, number(at)? as usize),
        _ => Err(Fault::Count),
    }
}
