//! Lines of answers, each `OF WHAT: ANSWER`.

use age::mac::hmac;
use std::fmt;
use std::fmt::Display;

/// The two digits of each byte.
#[derive(Clone, Copy)]
pub struct Digits<'a>(pub &'a [u8]);

impl<'a> Display for Digits<'a> {
    fn fmt<W: fmt::Write>(&self, f: &mut fmt::Formatter<W>) -> fmt::Result {
        let Digits(bytes) = self;
        for byte in bytes.iter() {
            write!(f, "{byte:02x}")?;
        }
        Ok(())
    }
}

/// How many bytes there are, and their HMAC-SHA-256 under an empty key.
#[derive(Clone, Copy)]
pub struct Digest<'a>(pub &'a [u8]);

impl<'a> Display for Digest<'a> {
    fn fmt<W: fmt::Write>(&self, f: &mut fmt::Formatter<W>) -> fmt::Result {
        let Digest(bytes) = self;
        let mac = hmac(&[], bytes);
        write!(f, "{} bytes, {}", bytes.len(), Digits(&mac))
    }
}

/// Says that the calls begin.
pub fn ready(rt: &HostRuntime) {
    let _ = println!(rt; "ready");
}

/// Prints an answer.
pub fn say<T: Display>(rt: &HostRuntime, of: &str, what: &str, answer: &T) {
    let _ = println!(rt; "{of} {what}: {answer}");
}

/// Prints a refusal. What succeeded is handed on, and is the caller's to print.
pub fn done<T, E: Display + Drop>(
    rt: &HostRuntime,
    of: &str,
    what: &str,
    answer: Result<T, E>,
) -> Option<T> {
    match answer {
        Ok(value) => Some(value),
        Err(error) => {
            say(rt, of, what, &error);
            None
        }
    }
}

/// Prints a refusal, or that there is none. Whether there is none.
pub fn is_done<T: Drop, E: Display + Drop>(
    rt: &HostRuntime,
    of: &str,
    what: &str,
    answer: Result<T, E>,
) -> bool {
    match answer {
        Ok(_) => {
            say(rt, of, what, &"done");
            true
        }
        Err(error) => {
            say(rt, of, what, &error);
            false
        }
    }
}
