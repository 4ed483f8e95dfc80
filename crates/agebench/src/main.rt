//! The program `agebench`: the library over the bench suite, on standard input and output.
#![tactic(auto)]

use age::draw::Draw;
use age::io::{Error, Std};
use age::streaming::{FileError, open_all, seal_all};
use age_bench::command::{Command, parse};
use age_bench::file::{decrypt_with, encrypt_to};
use age_bench::keygen::keygen;
use age_bench::part::at_with;
use age_bench::suite::BenchSuite;
use std::process::ExitCode;
use std::{env, io};

const USAGE: &str =
    "usage: agebench seal|open KEY, encrypt TO DRAW [armor], decrypt WITH, at WITH PLACE COUNT, keygen DRAW";

// The words after the program's name, or `None` where one is no text.
fn arguments(rt: &HostRuntime) -> Result<Option<Vec<String>>, FileError> {
    let all = match env::args(rt) {
        Ok(all) => all,
        Err(error) if error.kind() == io::ErrorKind::OutOfMemory => {
            return Err(FileError::Io(Error::OutOfMemory));
        }
        Err(_) => return Ok(None),
    };
    let mut words = Vec::new(rt.alloc());
    for word in all.skip(1) {
        words
            .push(word)
            .map_err(|_| FileError::Io(Error::OutOfMemory))?;
    }
    Ok(Some(words))
}

// What the words ask for, or `None` where they are no command line.
fn asked(rt: &HostRuntime) -> Result<Option<Command>, FileError> {
    match arguments(rt)? {
        Some(words) => { parse(rt.alloc(), &words).map_err(|_| FileError::Io(Error::OutOfMemory)) }
        None => Ok(None),
    }
}

// Runs a command from standard input to standard output.
fn run(rt: &HostRuntime, command: Command) -> Result<(), FileError> {
    let mut input = Std::new(rt.reader());
    let mut output = Std::new(io::writer(rt));
    match command {
        Command::Seal { key } => {
            seal_all::<BenchSuite, _, _>(rt.alloc(), key, &mut input, &mut output).map_err(
                FileError::Io,
            )
        }
        Command::Open { key } => {
            open_all::<BenchSuite, _, _>(rt.alloc(), key, &mut input, &mut output).map_err(
                FileError::Io,
            )
        }
        Command::Encrypt { to, draw, format } => {
            let draw = Draw::new(draw);
            encrypt_to(rt.alloc(), to, draw, format, &mut input, &mut output)
        }
        Command::Decrypt { with } => decrypt_with(rt.alloc(), with, &mut input, &mut output),
        Command::At { with, place, count } => {
            at_with(rt.alloc(), with, place, count, &mut input, &mut output)
        }
        Command::Keygen { draw } => keygen(rt.alloc(), Draw::new(draw), &mut output),
    }
}

fn main(rt: HostRuntime) -> ExitCode {
    let done = match asked(&rt) {
        Ok(Some(command)) => run(&rt, command),
        Ok(None) => {
            let _ = eprintln!(rt; "{USAGE}");
            return ExitCode::from(2);
        }
        Err(error) => Err(error),
    };
    match done {
        Ok(()) => ExitCode::SUCCESS,
        Err(error) => {
            let _ = eprintln!(rt; "agebench: {error}");
            ExitCode::FAILURE
        }
    }
}
