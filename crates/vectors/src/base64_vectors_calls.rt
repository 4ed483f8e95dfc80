//! Calls of `base64_vectors`: `encode_full BYTES` of 48 bytes, and `decode_full COLUMNS` of 64 columns, which answers `none` where they are refused.
//! Beside the kit's base64: `drawn COUNT`, whether both write and read so many times two lines of bytes that a generator draws alike; and
//! `each_byte SEED`, whether both take the same columns where one of two lines is any byte, at each place.

use crate::words;
use crate::words::{Fault, array, said, shown, told};
use base64::engine::general_purpose::{GeneralPurpose, STANDARD};
use base64_vectors::{decode_full, encode_full};
use std::alloc::Global;

const ENGINE: GeneralPurpose = STANDARD;

fn encode(alloc: Global, args: &[Vec<u8>]) -> Result<String, Fault> {
    let [bytes] = args else {
        return Err(Fault::Count);
    };
    let bytes = array::<48>(bytes)?;
    let mut columns = [0; 64];
    encode_full(&bytes, &mut columns);
    match str::from_utf8(&columns) {
        Ok(text) => said(alloc, text),
        Err(_) => shown(alloc, &columns),
    }
}

fn decode(alloc: Global, args: &[Vec<u8>]) -> Result<String, Fault> {
    let [columns] = args else {
        return Err(Fault::Count);
    };
    let columns = array::<64>(columns)?;
    let mut bytes = [0; 48];
    if !decode_full(&columns, &mut bytes) {
        return said(alloc, "none");
    }
    shown(alloc, &bytes)
}

// The next number of a linear congruential generator.
fn next(state: u64) -> u64 {
    state
        .wrapping_mul(6_364_136_223_846_793_005)
        .wrapping_add(1_442_695_040_888_963_407)
}

fn drawn(seed: u64) -> [u8; 96] {
    let mut bytes = [0; 96];
    let mut state = seed;
    for byte in bytes.iter_mut() {
        state = next(state);
        *byte = (state >> 33 & 0xff) as u8;
    }
    bytes
}

fn columns_of(bytes: &[u8; 96]) -> [u8; 128] {
    let mut columns = [0; 128];
    encode_full(bytes, &mut columns);
    columns
}

// Whether the kit writes the same columns.
fn are_written(bytes: &[u8; 96], columns: &[u8; 128]) -> bool {
    let mut written = [0; 128];
    match ENGINE.encode_slice(bytes, &mut written) {
        Ok(count) => count == 128 && written == *columns,
        Err(_) => false,
    }
}

// Whether both take these columns, and give the same bytes, or neither does.
fn agree_on(columns: &[u8; 128]) -> bool {
    let mut bytes = [0; 96];
    let mut wanted = [0; 96];
    let is_taken = decode_full(columns, &mut bytes);
    match ENGINE.decode_slice_unchecked(columns, &mut wanted) {
        Ok(count) if count == 96 => is_taken && bytes == wanted,
        _ => !is_taken,
    }
}

// Whether they agree on columns of which one is any byte.
fn agree_at(columns: &[u8; 128], place: usize) -> bool {
    let mut same = true;
    for byte in 0..=255u8 {
        let mut bent = *columns;
        if let Some(column) = bent.get_mut(place) {
            *column = byte;
        }
        same &= agree_on(&bent);
    }
    same
}

fn agree_at_each_place(columns: &[u8; 128]) -> bool {
    let mut same = true;
    for place in 0..128 {
        same &= agree_at(columns, place);
    }
    same
}

fn come_back(seed: u64) -> bool {
    let bytes = drawn(seed);
    let columns = columns_of(&bytes);
    let mut again = [0; 96];
    are_written(&bytes, &columns) && decode_full(&columns, &mut again) && again == bytes
}

fn all_come_back(count: u64) -> bool {
    let mut same = true;
    for seed in 0..count {
        same &= come_back(seed);
    }
    same
}

// A call that takes a number.
fn of_number(alloc: Global, name: &str, args: &[Vec<u8>]) -> Result<String, Fault> {
    let [number] = args else {
        return Err(Fault::Count);
    };
    let number = words::number(number)?;
    match name {
        "drawn" => told(alloc, all_come_back(number)),
        "each_byte" => told(alloc, agree_at_each_place(&columns_of(&drawn(number)))),
        _ => Err(Fault::Call),
    }
}

/// What a call answers.
pub fn answer(alloc: Global, name: &str, args: &[Vec<u8>]) -> Result<String, Fault> {
    match name {
        "encode_full" => encode(alloc, args),
        "decode_full" => decode(alloc, args),
        _ => of_number(alloc, name, args),
    }
}
