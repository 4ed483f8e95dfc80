//! The words of a command line as a whole.
ghost use Rattle.std.specs.Prelude.{◌≡◌, IfOk, Result, map, string_bytes};
ghost use Rattle.clap.specs.Words.{found_of, rows_of, subcommand_rows_of, HasKind, Kinds};
ghost use Rattle.sazh_command.specs.Asked.{IsAnswer, CommandValue, UsageErrorValue, answer_value, command_value};
ghost use Rattle.sazh_command.specs.Names.{command_named};
ghost use Rattle.sazh_command.specs.Synopsis.{asked_by, asked_named};
ghost use Rattle.sazh_command.specs.Answers.{IsRead, IsTold, IsRefusal};

use crate::app::sazh;
use crate::command::Command;
use crate::found::{given_of, is_given};
use crate::meaning::{asked, asked_alone};
use crate::mistakes::{Stop, UsageError};
use crate::names::command_named;
use crate::secrets::{any_holds_secret, names_secret};
use crate::shown::{Shown, any_holds_line_end};
use clap::ArgMatches;
use clap::error::ErrorKind;
use std::alloc::{AllocError, Global};

// What the matches of the command of this name ask for.
fn asked_named(alloc: Global, name: &str, matches: &ArgMatches<'_>) -> Result<Command, Stop>
    ensures { IsAnswer command_value result (asked_named name.now (command_named name.now) (rows_of (found_of matches.now))) }
{
    let Some(command) = command_named(name) else {
        let name = String::from_str(alloc, name)?;
        return Err(Stop::Usage(UsageError::UnknownCommand(name)));
    };
    let mut given = given_of(alloc, matches)?;
    asked(alloc, command, &mut given)
}

// What the matches of all words ask for.
fn asked_by(alloc: Global, matches: &ArgMatches<'_>) -> Result<Command, Stop>
    ensures { IsAnswer command_value result (asked_by (rows_of (found_of matches.now)) (subcommand_rows_of matches.now)) }
{
    match matches.subcommand() {
        Some((name, inner)) => {
            if matches.args_present() {
                return Err(Stop::Usage(UsageError::WordBeforeCommand));
            }
            asked_named(alloc, name, inner)
        }
        None => {
            let mut given = given_of(alloc, matches)?;
            asked_alone(
                alloc,
                is_given(matches, "encrypt"),
                is_given(matches, "decrypt"),
                &mut given,
            )
        }
    }
}

// The same, where a mistake is an answer.
fn answer_of(command: Result<Command, Stop>) -> Result<Result<Command, UsageError>, AllocError>
    ensures { IfOk result (λ answer. (due : Result CommandValue UsageErrorValue) → IsAnswer command_value command due
        → answer_value command_value answer ≡ due) }
{
    match command {
        Ok(command) => Ok(Ok(command)),
        Err(stop) => match stop {
            Stop::Usage(error) => Ok(Err(error)),
            Stop::Memory => Err(AllocError),
        },
    }
}

// What is told where `clap` gives no matches for these words. It quotes them as they are, so control characters are escaped, and where a
// word holds a line end all line ends are.
fn refusal_of(
    alloc: Global,
    words: &[String],
    error: &clap::Error,
) -> Result<Result<Command, UsageError>, AllocError>
    ensures { IfOk result (λ answer. (kinds : Kinds) → HasKind kinds error.now → IsRefusal kinds answer) }
{
    let text = format!(in alloc; "{error}")?;
    match error.kind() {
        ErrorKind::OutOfMemory => Err(AllocError),
        ErrorKind::DisplayHelp => Ok(Ok(Command::Help(text))),
        ErrorKind::DisplayVersion => Ok(Ok(Command::Version(text))),
        ErrorKind::InvalidValue if text.as_str().contains("'--passphrase-file <FILE>'") => Ok(Err(
            UsageError::NoPassphraseFile,
        )),
        _ => {
            let told = text.as_str();
            let told = Shown {
                text: told.strip_prefix("error: ").unwrap_or(told).trim_end(),
                keeps_lines: !any_holds_line_end(words),
            };
            Ok(Err(UsageError::Words(format!(in alloc; "{told}")?)))
        }
    }
}

// What the words ask for, or what is wrong with them.
fn read(alloc: Global, words: &[String]) -> Result<Result<Command, UsageError>, AllocError>
    ensures { IfOk result (λ answer. IsRead (map string_bytes words.now) answer) }
{
    if words.is_empty() {
        return Ok(Err(UsageError::NoCommand));
    }
    match sazh(alloc)?.try_get_matches_from(words) {
        Ok(matches) => answer_of(asked_by(alloc, &matches)),
        Err(error) => refusal_of(alloc, words, &error),
    }
}

/// What the words after the program's name ask for, or what is wrong with them. `USAGE` has what a command line may be.
///
/// `clap` reads the words: long options and short ones, several behind one `-`, values behind `=` or as the next word, `--`, commands, and
/// the options and operands of each. Where no command is named, the words are the options of `age`, which encrypt, or decrypt by `-d`. Where
/// IN or OUT is not given, it is `-`.
///
/// Where something is wrong and one of the words holds the beginning of a secret key, no word is repeated. Nor is a command taken that names
/// such a word in the place of a file.
///
/// `AllocError` where memory for the texts and lists of the answer is refused.
pub fn parse(alloc: Global, words: &[String]) -> Result<Result<Command, UsageError>, AllocError>
    ensures { IfOk result (λ answer. IsTold (map string_bytes words.now) answer) }
{
    match read(alloc, words)? {
        Ok(command) => {
            if names_secret(&command) {
                return Ok(Err(UsageError::HoldsSecret));
            }
            Ok(Ok(command))
        }
        Err(error) => {
            if any_holds_secret(words) {
                return Ok(Err(UsageError::HoldsSecret));
            }
            Ok(Err(error))
        }
    }
}
