//! The program `sazh`: encrypts and decrypts files of age-encryption.org/v1.
#![tactic(auto)]

mod checks;
mod commands;
mod early;
mod explain;
mod failure;
mod files;
mod front;
mod inspection;
mod jobs;
mod keys;
mod lines;
mod new_key;
mod output;
mod progress;
mod random;
mod watch;

use crate::checks::{Clash, clash_of, looked};
use crate::commands::run;
use crate::failure::{Failure, tell};
use sazh_command::{Command, USAGE, UsageError, parse};
use std::process::ExitCode;
use std::{env, io};

// The status where nobody reads standard output any more: what a shell tells of a program that such a write ended.
const CLOSED_PIPE: u8 = 141;

// What is wrong with a command line.
#[derive(Drop)]
enum Wrong {
    // A word is no text.
    NotText,
    // What the words ask for isn't told.
    Usage(UsageError),
    // Two words name one stream.
    Clash(Clash),
}

// The words after the program's name, or `None` where one is no text.
fn arguments(rt: &HostRuntime) -> Result<Option<Vec<String>>, Failure> {
    let all = match env::args(rt) {
        Ok(all) => all,
        Err(error) if error.kind() == io::ErrorKind::OutOfMemory => return Err(
            Failure::OutOfMemory,
        ),
        Err(_) => return Ok(None),
    };
    let mut words = Vec::new(rt.alloc());
    for word in all.skip(1) {
        words.push(word)?;
    }
    Ok(Some(words))
}

// What the words ask for.
fn asked(rt: &HostRuntime) -> Result<Result<Command, Wrong>, Failure> {
    let Some(words) = arguments(rt)? else {
        return Ok(Err(Wrong::NotText));
    };
    match parse(rt.alloc(), &words)? {
        Ok(command) => match clash_of(rt, &command)? {
            None => Ok(Ok(command)),
            Some(clash) => Ok(Err(Wrong::Clash(clash))),
        },
        Err(error) => Ok(Err(Wrong::Usage(error))),
    }
}

// Does what a command asks for.
fn done(rt: &HostRuntime, command: &Command) -> Result<(), Failure> {
    looked(rt, command)?;
    run(rt, command)
}

// Says what is wrong with a command line.
fn say(rt: &HostRuntime, wrong: &Wrong) {
    let _ = match wrong {
        Wrong::NotText => eprintln!(rt; "sazh: a word isn't UTF-8\n\n{USAGE}"),
        // (its text ends with the usage of the command)
        Wrong::Usage(UsageError::Words(text)) => eprintln!(rt; "sazh: {text}"),
        Wrong::Usage(error) => eprintln!(rt; "sazh: {error}\n\n{USAGE}"),
        Wrong::Clash(clash) => {
            let (first, second) = (clash.first, clash.second);
            eprintln!(rt;
                "sazh: {first} and {second} name the same stream, which can be read once\n\n{USAGE}"
            )
        }
    };
}

fn main(rt: HostRuntime) -> ExitCode {
    let done = match asked(&rt) {
        Ok(Ok(command)) => done(&rt, &command),
        Ok(Err(wrong)) => {
            say(&rt, &wrong);
            return ExitCode::from(2);
        }
        Err(failure) => Err(failure),
    };
    match done {
        Ok(()) => ExitCode::SUCCESS,
        Err(Failure::ClosedPipe) => ExitCode::from(CLOSED_PIPE),
        Err(failure) => {
            tell(&rt, &failure);
            ExitCode::FAILURE
        }
    }
}
