//! The words of a row, and how answers are spelled.
//!
//! A word is bytes: `-` for none, hexadecimal digits, `00..1f` for all from the first to the last, or a text behind a `'`, as each number is. A count
//! behind a `*` says how many bytes there are: those before the star, again and again.

ghost use Rattle.std.specs.Prelude.{◌<◌, ◌^◌};

use hex::FromHexError;
use std::alloc::{AllocError, AllocFailed, Global};
use std::fmt;
use std::fmt::{Debug, Display};

/// Why the answer of a row isn't known.
#[derive(Clone, Copy, Debug)]
pub enum Fault {
    /// No call has this name.
    Call,
    /// The call takes another number of words.
    Count,
    /// A word is none that the call takes.
    Word,
    /// Memory for the words or the answer was refused.
    Memory,
}

impl fmt::Display for Fault {
    fn fmt<W: fmt::Write>(&self, f: &mut fmt::Formatter<W>) -> fmt::Result {
        f.write_str(match self {
            Fault::Call => "no such call",
            Fault::Count => "another number of words is wanted",
            Fault::Word => "a word can't be read",
            Fault::Memory => "no memory for the row",
        })
    }
}

impl From<AllocError> for Fault {
    fn from(_: AllocError) -> Fault {
        Fault::Memory
    }
}

impl<T: Drop> From<AllocFailed<T>> for Fault {
    fn from(_: AllocFailed<T>) -> Fault {
        Fault::Memory
    }
}

// A count.
fn count(word: &str) -> Result<usize, Fault> {
    word.parse::<usize>().map_err(|_| Fault::Word)
}

// The bytes of hexadecimal digits.
fn digits(alloc: Global, word: &str) -> Result<Vec<u8>, Fault> {
    match hex::decode(alloc, word) {
        Ok(bytes) => Ok(bytes),
        Err(FromHexError::OutOfMemory) => Err(Fault::Memory),
        Err(_) => Err(Fault::Word),
    }
}

// The byte of two digits.
fn byte(word: &str) -> Result<u8, Fault> {
    let mut byte = [0];
    match hex::decode_to_slice(word, &mut byte) {
        Ok(()) => Ok(byte[0]),
        Err(_) => Err(Fault::Word),
    }
}

// The bytes from one to another that isn't below it.
fn range(alloc: Global, first: u8, last: u8) -> Result<Vec<u8>, Fault> {
    if last < first {
        return Err(Fault::Word);
    }
    let mut bytes = Vec::new(alloc);
    for byte in first..=last {
        bytes.push(byte)?;
    }
    Ok(bytes)
}

// The bytes of digits, or of the first and the last.
fn pattern(alloc: Global, word: &str) -> Result<Vec<u8>, Fault> {
    match word.split_once("..") {
        Some((first, last)) => range(alloc, byte(first)?, byte(last)?),
        None => digits(alloc, word),
    }
}

// So many bytes: those of a pattern again and again.
fn repeated(alloc: Global, pattern: &[u8], count: usize) -> Result<Vec<u8>, Fault> {
    if pattern.is_empty() {
        return Err(Fault::Word);
    }
    let mut bytes = Vec::with_capacity(alloc, count)?;
    for i in 0..count {
        bytes.push(pattern[i % pattern.len()])?;
    }
    Ok(bytes)
}

/// The bytes of a word.
pub fn bytes(alloc: Global, word: &str) -> Result<Vec<u8>, Fault> {
    if word == "-" {
        return Ok(Vec::new(alloc));
    }
    if let Some(text) = word.strip_prefix('\'') {
        return Ok(text.as_bytes().to_vec(alloc)?);
    }
    match word.split_once('*') {
        Some((front, times)) => repeated(alloc, &pattern(alloc, front)?, count(times)?),
        None => pattern(alloc, word),
    }
}

/// So many bytes.
pub fn array<const N: usize>(bytes: &[u8]) -> Result<[u8; N], Fault>
    requires { N < 2 ^ 63 }
{
    match bytes.first_chunk::<N>() {
        Some(array) if bytes.len() == N => Ok(*array),
        _ => Err(Fault::Word),
    }
}

/// A text.
pub fn text(bytes: &[u8]) -> Result<&str, Fault> {
    match str::from_utf8(bytes) {
        Ok(text) => Ok(text),
        Err(_) => Err(Fault::Word),
    }
}

/// A number.
pub fn number(bytes: &[u8]) -> Result<u64, Fault> {
    match text(bytes)?.parse::<u64>() {
        Ok(number) => Ok(number),
        Err(_) => Err(Fault::Word),
    }
}

/// The answer that is these bytes.
pub fn shown(alloc: Global, bytes: &[u8]) -> Result<String, Fault> {
    if bytes.is_empty() {
        return said(alloc, "-");
    }
    Ok(hex::encode(alloc, bytes)?)
}

/// The answer that is this text.
pub fn said(alloc: Global, text: &str) -> Result<String, Fault> {
    Ok(String::from_str(alloc, text)?)
}

/// The answer to a question.
pub fn told(alloc: Global, is_so: bool) -> Result<String, Fault> {
    said(alloc, if is_so { "yes" } else { "no" })
}

/// The answer that is the text of a refusal.
pub fn refused<E: Display>(alloc: Global, error: &E) -> Result<String, Fault> {
    Ok(format!(in alloc; "{error}")?)
}

/// The answer that is what is shown of a value for debugging.
pub fn debugged<D: Debug>(alloc: Global, value: &D) -> Result<String, Fault> {
    Ok(format!(in alloc; "{value:?}")?)
}

/// Two answers as one.
pub fn both(alloc: Global, first: &str, second: &str) -> Result<String, Fault> {
    Ok(format!(in alloc; "{first} {second}")?)
}
