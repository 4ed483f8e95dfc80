//! Calls of `age_bech32`: `decode TEXT` and `decode_array SIZE TEXT`, which answer a prefix and bytes, and for an array of another size the prefix
//! and `none`; `encode PREFIX BYTES` and `encode_array SIZE PREFIX BYTES`, which answer a text. A refusal is the error's text, and `none` where the
//! answer is an array. `out_of_memory` answers the text of that error. A size is one of those that rows name.

ghost use Rattle.std.specs.Prelude.{◌<◌, ◌^◌};

use crate::words::{Fault, both, number, refused, said, shown, text};
use age_bech32::{Bech32Error, decode, decode_array, encode, encode_array};
use std::alloc::Global;

fn parts(alloc: Global, prefix: &str, data: &[u8]) -> Result<String, Fault> {
    both(alloc, prefix, &shown(alloc, data)?)
}

fn decoded(alloc: Global, args: &[Vec<u8>]) -> Result<String, Fault> {
    let [word] = args else {
        return Err(Fault::Count);
    };
    match decode(alloc, text(word)?) {
        Ok((prefix, data)) => parts(alloc, &prefix, &data),
        Err(error) => refused(alloc, &error),
    }
}

fn encoded(alloc: Global, args: &[Vec<u8>]) -> Result<String, Fault> {
    let [prefix, data] = args else {
        return Err(Fault::Count);
    };
    match encode(alloc, text(prefix)?, data) {
        Ok(text) => Ok(text),
        Err(error) => refused(alloc, &error),
    }
}

fn read<const N: usize>(alloc: Global, text: &str) -> Result<String, Fault>
    requires { N < 2 ^ 63 }
{
    match decode_array::<N>(text) {
        Some((prefix, Some(data))) => parts(alloc, prefix, &data),
        Some((prefix, None)) => both(alloc, prefix, "none"),
        None => said(alloc, "none"),
    }
}

fn read_sized(alloc: Global, size: u64, text: &str) -> Result<String, Fault> {
    match size {
        0 => read::<0>(alloc, text),
        20 => read::<20>(alloc, text),
        30 => read::<30>(alloc, text),
        31 => read::<31>(alloc, text),
        32 => read::<32>(alloc, text),
        33 => read::<33>(alloc, text),
        51 => read::<51>(alloc, text),
        64 => read::<64>(alloc, text),
        65 => read::<65>(alloc, text),
        _ => Err(Fault::Word),
    }
}

fn decoded_array(alloc: Global, args: &[Vec<u8>]) -> Result<String, Fault> {
    let [size, word] = args else {
        return Err(Fault::Count);
    };
    read_sized(alloc, number(size)?, text(word)?)
}

fn write<const N: usize>(alloc: Global, prefix: &str, data: &[u8]) -> Result<String, Fault>
    requires { N < 2 ^ 63 }
{
    let Some(text) = encode_array::<N>(prefix, data) else {
        return said(alloc, "none");
    };
    match str::from_utf8(&text) {
        Ok(text) => said(alloc, text),
        Err(_) => shown(alloc, &text),
    }
}

fn write_sized(alloc: Global, size: u64, prefix: &str, data: &[u8]) -> Result<String, Fault> {
    match size {
        0 => write::<0>(alloc, prefix, data),
        8 => write::<8>(alloc, prefix, data),
        12 => write::<12>(alloc, prefix, data),
        14 => write::<14>(alloc, prefix, data),
        15 => write::<15>(alloc, prefix, data),
        18 => write::<18>(alloc, prefix, data),
        25 => write::<25>(alloc, prefix, data),
        45 => write::<45>(alloc, prefix, data),
        60 => write::<60>(alloc, prefix, data),
        61 => write::<61>(alloc, prefix, data),
        62 => write::<62>(alloc, prefix, data),
        63 => write::<63>(alloc, prefix, data),
        90 => write::<90>(alloc, prefix, data),
        96 => write::<96>(alloc, prefix, data),
        125 => write::<125>(alloc, prefix, data),
        _ => Err(Fault::Word),
    }
}

fn encoded_array(alloc: Global, args: &[Vec<u8>]) -> Result<String, Fault> {
    let [size, prefix, data] = args else {
        return Err(Fault::Count);
    };
    write_sized(alloc, number(size)?, text(prefix)?, data)
}

/// What a call answers.
pub fn answer(alloc: Global, name: &str, args: &[Vec<u8>]) -> Result<String, Fault> {
    match name {
        "decode" => decoded(alloc, args),
        "decode_array" => decoded_array(alloc, args),
        "encode" => encoded(alloc, args),
        "encode_array" => encoded_array(alloc, args),
        "out_of_memory" => refused(alloc, &Bech32Error::OutOfMemory),
        _ => Err(Fault::Call),
    }
}
