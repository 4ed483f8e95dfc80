//! The call of `scrypt`: `scrypt PASSPHRASE SALT FACTOR`.

use crate::words::{Fault, number, refused, shown};
use scrypt::scrypt;
use std::alloc::Global;

fn factor(bytes: &[u8]) -> Result<u8, Fault> {
    u8::try_from(number(bytes)?).map_err(|_| Fault::Word)
}

fn key(alloc: Global, args: &[Vec<u8>]) -> Result<String, Fault> {
    let [passphrase, salt, log_n] = args else {
        return Err(Fault::Count);
    };
    match scrypt(alloc, passphrase, salt, factor(log_n)?) {
        Ok(key) => shown(alloc, &key),
        Err(error) => refused(alloc, &error),
    }
}

/// What a call answers.
pub fn answer(alloc: Global, name: &str, args: &[Vec<u8>]) -> Result<String, Fault> {
    match name {
        "scrypt" => key(alloc, args),
        _ => Err(Fault::Call),
    }
}
