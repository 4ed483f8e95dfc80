//! Calls of the library whose answers are printed: for runs in which memory, reads and writes fail (`tests/faults/run.py`), for a bench
//! (`bench/seeks.sh`), and as a table whose answers are compared.
//!
//! `rows NAME` makes the calls of one row, some of them on what standard input gives, and prints what each answers on a line of its own. Before them
//! it prints `ready`: a run that refuses requests for memory counts them from there. Where a call is refused memory, further calls show what state
//! it left behind. Printing takes no memory.
//!
//! `rows seeks` reads one byte of a plaintext at each of many places, `rows gets` gets sealed records by their numbers, and
//! `rows protected_recipients` prints the recipients of a protected identity file twice.
#![tactic(auto)]

mod armor_calls;
mod armor_seeks;
mod callbacks;
mod calls;
mod cut_payload;
mod far_seek;
mod files;
mod gets;
mod header_calls;
mod identity_calls;
mod identity_file;
mod key_calls;
mod key_text_calls;
mod key_texts;
mod lines;
mod protected_file;
mod protected_recipients;
mod readers;
mod recipients;
mod records;
mod seeks;
mod stanza_calls;
mod table;
mod words;
mod writers;

use age::io::{Std, read_to_end};
use std::process::ExitCode;
use std::{env, io};

const USAGE: &str =
    "usage: rows files|key_texts|recipients|calls; rows cut_payload|armor_seeks|far_seek|protected_file|identity_file|long_writes|records|write_records, with bytes on standard input; rows seeks|gets [file] FILE, with a place or number a line there; rows protected_recipients [PASSPHRASE], with the file there; or rows table, with calls and answers there";

/// What a command line came to.
enum Outcome {
    /// It is done, and what it came to is printed.
    Done,
    /// It was refused, which is told.
    Refused,
    /// The words are no command line.
    Usage,
}

// That memory was refused.
fn no_memory(rt: &HostRuntime) -> Outcome {
    let _ = eprintln!(rt; "rows: out of memory");
    Outcome::Refused
}

// The words after the program's name, or what it comes to that there are none.
fn command_line(rt: &HostRuntime) -> Result<Vec<String>, Outcome> {
    let all = match env::args(rt) {
        Ok(all) => all,
        Err(error) if error.kind() == io::ErrorKind::OutOfMemory => return Err(no_memory(rt)),
        Err(_) => return Err(Outcome::Usage),
    };
    let mut words = Vec::new(rt.alloc());
    for word in all.skip(1) {
        let Ok(()) = words.push(word) else {
            return Err(no_memory(rt));
        };
    }
    Ok(words)
}

// Makes the calls of a row that takes no input. Whether there is one of this name.
fn is_done_alone(rt: &HostRuntime, name: &str) -> bool {
    match name {
        "files" => files::row(rt),
        "key_texts" => key_texts::row(rt),
        "recipients" => recipients::row(rt),
        "calls" => calls::row(rt),
        _ => return false,
    }
    true
}

// Makes the calls of a row on an input. Whether there is one of this name.
fn is_done(rt: &HostRuntime, name: &str, text: &[u8]) -> bool {
    match name {
        "cut_payload" => cut_payload::row(rt, text),
        "armor_seeks" => armor_seeks::row(rt, text),
        "far_seek" => far_seek::row(rt, text),
        "protected_file" => protected_file::row(rt, text),
        "identity_file" => identity_file::row(rt, text),
        "long_writes" => writers::row(rt, text),
        "records" => records::row(rt, text),
        "write_records" => records::write_row(rt, text),
        _ => return false,
    }
    true
}

// Makes the calls of the row of this name on what standard input gives.
fn row_on_input(rt: &HostRuntime, name: &str) -> Outcome {
    let mut text = Vec::new(rt.alloc());
    match read_to_end(rt.alloc(), &mut Std::new(rt.reader()), &mut text) {
        Ok(_) if is_done(rt, name, text.as_slice()) => Outcome::Done,
        Ok(_) => Outcome::Usage,
        Err(error) => {
            let _ = eprintln!(rt; "rows: {error}");
            Outcome::Refused
        }
    }
}

// Makes the calls of the row of this name.
fn row(rt: &HostRuntime, name: &str) -> Outcome {
    if is_done_alone(rt, name) {
        Outcome::Done
    } else {
        row_on_input(rt, name)
    }
}

// Does what the words ask for.
fn act(rt: &HostRuntime, words: &[String]) -> Outcome {
    let Some((first, rest)) = words.split_first() else {
        return Outcome::Usage;
    };
    match first.as_str() {
        "seeks" => seeks::print(rt, rest),
        "gets" => gets::print(rt, rest),
        "protected_recipients" => protected_recipients::print(rt, rest),
        "table" if rest.is_empty() => table::print(rt),
        name if rest.is_empty() => row(rt, name),
        _ => Outcome::Usage,
    }
}

fn main(rt: HostRuntime) -> ExitCode {
    let outcome = match command_line(&rt) {
        Ok(words) => act(&rt, &words),
        Err(outcome) => outcome,
    };
    match outcome {
        Outcome::Done => ExitCode::SUCCESS,
        Outcome::Refused => ExitCode::FAILURE,
        Outcome::Usage => {
            let _ = eprintln!(rt; "{USAGE}");
            ExitCode::from(2)
        }
    }
}
