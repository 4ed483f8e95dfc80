//! Public vectors and values of other programs, in rows: `vectors` reads standard input line by line, makes the call that each row names, and
//! compares.
//!
//! A row is `CRATE::CALL WORD WORD .. => ANSWER`; an empty line or one that begins with `#` is passed over. Each row whose answer is another, and
//! each that can't be read, is printed with its line. The last line says how many rows there were and how many differ. The status is 1 where one
//! does, and where there is no row.
#![tactic(auto)]

mod age_bech32_calls;
mod age_suite_calls;
mod base64_vectors_calls;
mod chacha20_calls;
mod chacha20poly1305_calls;
mod hmac_sha256_calls;
mod poly1305_calls;
mod scrypt_calls;
mod words;
mod x25519_calls;

use crate::words::{Fault, bytes};
use std::alloc::Global;
use std::io;
use std::io::{BufRead, BufReader};
use std::process::ExitCode;

/// How many rows were read, and how many of them differ.
#[derive(Clone, Copy)]
struct Tally {
    rows: u64,
    differ: u64,
}

// What a call of a crate answers.
fn answer_of(alloc: Global, library: &str, name: &str, args: &[Vec<u8>]) -> Result<String, Fault> {
    match library {
        "age_bech32" => age_bech32_calls::answer(alloc, name, args),
        "age_suite" => age_suite_calls::answer(alloc, name, args),
        "base64_vectors" => base64_vectors_calls::answer(alloc, name, args),
        "chacha20" => chacha20_calls::answer(alloc, name, args),
        "chacha20poly1305" => chacha20poly1305_calls::answer(alloc, name, args),
        "hmac_sha256" => hmac_sha256_calls::answer(alloc, name, args),
        "poly1305" => poly1305_calls::answer(alloc, name, args),
        "scrypt" => scrypt_calls::answer(alloc, name, args),
        "x25519" => x25519_calls::answer(alloc, name, args),
        _ => Err(Fault::Call),
    }
}

// What the call that a row begins with answers.
fn answer(alloc: Global, call: &str) -> Result<String, Fault> {
    let Some((library, call)) = call.split_once("::") else {
        return Err(Fault::Call);
    };
    let mut words = call.split_whitespace();
    let Some(name) = words.next() else {
        return Err(Fault::Call);
    };
    let mut args = Vec::new(alloc);
    for word in words {
        args.push(bytes(alloc, word)?)?;
    }
    answer_of(alloc, library, name, &args)
}

// Whether a row's call answers what it says. If not, it is printed.
fn holds(rt: &HostRuntime, line: u64, row: &str) -> bool {
    let Some((call, want)) = row.split_once(" => ") else {
        let _ = println!(rt; "line {line}: {row}: no answer is wanted");
        return false;
    };
    match answer(rt.alloc(), call) {
        Ok(got) if got.as_str() == want => true,
        Ok(got) => {
            let _ = println!(rt; "line {line}: {call} => got {got}, want {want}");
            false
        }
        Err(fault) => {
            let _ = println!(rt; "line {line}: {row}: {fault}");
            false
        }
    }
}

// The tally with one line more.
fn counted(rt: &HostRuntime, tally: Tally, line: u64, text: &str) -> Tally {
    let row = text.trim();
    if row.is_empty() || row.starts_with('#') {
        return tally;
    }
    let differs = u64::from(!holds(rt, line, row));
    Tally {
        rows: tally.rows.saturating_add(1),
        differ: tally.differ.saturating_add(differs),
    }
}

// What all lines come to.
fn tallied(rt: &HostRuntime) -> io::Result<Tally> {
    let mut tally = Tally { rows: 0, differ: 0 };
    let mut line = 0u64;
    for text in BufReader::new(rt.alloc(), rt.reader())?.lines(rt.alloc()) {
        line = line.saturating_add(1);
        tally = counted(rt, tally, line, text?.as_str());
    }
    Ok(tally)
}

fn main(rt: HostRuntime) -> ExitCode {
    let Ok(Tally { rows, differ }) = tallied(&rt) else {
        let _ = eprintln!(rt; "vectors: standard input can't be read");
        return ExitCode::FAILURE;
    };
    let _ = println!(rt; "{rows} rows, {differ} differ");
    if rows == 0 || differ > 0 {
        return ExitCode::FAILURE;
    }
    ExitCode::SUCCESS
}
