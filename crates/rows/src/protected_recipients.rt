//! Prints the recipients of the identities in a protected identity file, bare or in armor, that standard input gives, under the passphrase
//! that the one word is, and does so twice: what the first use and a later one answer, also where memory and reads fail.

use crate::Outcome;
use crate::callbacks::Knows;
use age::EncryptError;
use age::armor::ArmoredReader;
use age::encrypted::Identity;
use age::io::{Error, Std, write_all};
use age::secrecy::SecretString;
use age::streaming::FileError;
use age::x25519::Recipient;
use age_bench::suite::BenchSuite;
use std::alloc::Global;
use std::cell::Cell;
use std::fmt::Write as _;
use std::io;

// The texts of recipients, each with LF.
fn lines_of(alloc: Global, recipients: &[Recipient<BenchSuite>]) -> Result<String, Error> {
    let mut text = String::new(alloc);
    for recipient in recipients {
        writeln!(text, "{recipient}")?;
    }
    Ok(text)
}

// Prints what a use answered. A refusal is shown, and is no success.
fn show(
    rt: &HostRuntime,
    answer: Result<Vec<Recipient<BenchSuite>>, EncryptError>,
) -> Result<bool, FileError> {
    match answer {
        Ok(recipients) => {
            let text = lines_of(rt.alloc(), recipients.as_slice())?;
            write_all(&mut Std::new(io::writer(rt)), text.as_bytes())?;
            Ok(true)
        }
        Err(error) => {
            let _ = eprintln!(rt; "rows: {error}");
            Ok(false)
        }
    }
}

// The passphrase that a word is, if there is one.
fn passphrase(alloc: Global, word: Option<&str>) -> Result<Option<SecretString>, Error> {
    match word {
        None => Ok(None),
        Some(word) => Ok(Some(SecretString::from(String::from_str(alloc, word)?))),
    }
}

// Whether both uses succeeded.
fn print_twice(rt: &HostRuntime, word: Option<&str>) -> Result<bool, FileError> {
    let alloc = rt.alloc();
    let asked = Cell::new(0);
    let callbacks = Knows {
        passphrase: passphrase(alloc, word)?,
        asked: &asked,
    };
    let text = ArmoredReader::new(alloc, Std::new(rt.reader()))?;
    let made: Option<Identity<BenchSuite, _, Knows>> = Identity::from_buffer(
        alloc, text, None, callbacks, 18, None,
    )?;
    let Some(identity) = made else {
        let _ = eprintln!(rt; "rows: not a file of a passphrase");
        return Ok(false);
    };
    let mut identity = identity;
    let first = show(rt, identity.recipients(alloc))?;
    let second = show(rt, identity.recipients(alloc))?;
    Ok(first && second)
}

/// Does what the words ask for.
pub fn print(rt: &HostRuntime, words: &[String]) -> Outcome {
    let printed = match words {
        [] => print_twice(rt, None),
        [word] => print_twice(rt, Some(word)),
        _ => return Outcome::Usage,
    };
    match printed {
        Ok(true) => Outcome::Done,
        Ok(false) => Outcome::Refused,
        Err(error) => {
            let _ = eprintln!(rt; "rows: {error}");
            Outcome::Refused
        }
    }
}
