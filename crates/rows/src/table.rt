//! A table of calls and their answers, which standard input gives. A row is `MODULE::CALL WORD WORD .. => ANSWER`; an empty line, or one that
//! begins with `#`, is passed over. Each row whose answer is another, or isn't known, is printed with its line, and at last how many rows there
//! were and how many differ.

use crate::words::Fault;
use crate::{Outcome, armor_calls, header_calls, identity_calls, key_text_calls, stanza_calls};
use age::io::{Error, Std, read_to_end};
use std::alloc::Global;
use std::str;

/// How many rows there were, and how many of them differ.
#[derive(Clone, Copy)]
struct Tally {
    rows: u64,
    differ: u64,
}

// What a call of a module answers.
fn answer_of(alloc: Global, module: &str, name: &str, words: &[&str]) -> Result<String, Fault> {
    match module {
        "key_text" => key_text_calls::answer(alloc, name, words),
        "header" => header_calls::answer(alloc, name, words),
        "stanza" => stanza_calls::answer(alloc, name, words),
        "armor" => armor_calls::answer(alloc, name, words),
        "identity" => identity_calls::answer(alloc, name, words),
        _ => Err(Fault::Call),
    }
}

// What the call that a row begins with answers.
fn answer(alloc: Global, call: &str) -> Result<String, Fault> {
    let Some((module, call)) = call.split_once("::") else {
        return Err(Fault::Call);
    };
    let words: Vec<&str> = call.split_whitespace().collect(alloc)?;
    match words.split_first() {
        Some((name, words)) => answer_of(alloc, module, name, words),
        None => Err(Fault::Call),
    }
}

// Whether a row's call answers what it says. If not, it is printed.
fn holds(rt: &HostRuntime, line: u64, row: &str) -> bool {
    let Some((call, want)) = row.split_once(" => ") else {
        let _ = println!(rt; "line {line}: {row}: no answer is wanted");
        return false;
    };
    match answer(rt.alloc(), call) {
        Ok(got) if got.as_str() == want => true,
        Ok(got) => {
            let _ = println!(rt; "line {line}: {call} => got {got}, want {want}");
            false
        }
        Err(fault) => {
            let _ = println!(rt; "line {line}: {call}: {fault}");
            false
        }
    }
}

// The tally with one line more.
fn counted(rt: &HostRuntime, tally: Tally, line: u64, row: &str) -> Tally {
    if row.is_empty() || row.starts_with('#') {
        return tally;
    }
    let differs = u64::from(!holds(rt, line, row));
    Tally {
        rows: tally.rows.saturating_add(1),
        differ: tally.differ.saturating_add(differs),
    }
}

// What all lines come to.
fn tallied(rt: &HostRuntime, text: &str) -> Tally {
    let mut tally = Tally { rows: 0, differ: 0 };
    let mut line = 0u64;
    for row in text.lines() {
        line = line.saturating_add(1);
        tally = counted(rt, tally, line, row);
    }
    tally
}

// What standard input gives.
fn input(rt: &HostRuntime) -> Result<Vec<u8>, Error> {
    let mut text = Vec::new(rt.alloc());
    read_to_end(rt.alloc(), &mut Std::new(rt.reader()), &mut text)?;
    Ok(text)
}

// What the rows of a text come to. It is refused where one differs, and where there is none.
fn judged(rt: &HostRuntime, text: &str) -> Outcome {
    let Tally { rows, differ } = tallied(rt, text);
    let _ = println!(rt; "{rows} rows, {differ} differ");
    if rows == 0 || differ > 0 {
        Outcome::Refused
    } else {
        Outcome::Done
    }
}

/// Makes the calls of the table and compares.
pub fn print(rt: &HostRuntime) -> Outcome {
    match input(rt) {
        Ok(bytes) => match str::from_utf8(&bytes) {
            Ok(text) => judged(rt, text),
            Err(_) => Outcome::Usage,
        },
        Err(error) => {
            let _ = eprintln!(rt; "rows: {error}");
            Outcome::Refused
        }
    }
}
