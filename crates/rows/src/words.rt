//! The words of a row of the table, and how answers are spelled.
//!
//! Bytes are `-` for none, hexadecimal digits, `00..1f` for all from the first to the last, or a text behind a `'`, in which `\n`, `\r`, `\t`,
//! `\f` and `\s` are LF, CR, a tab, a form feed and a space, `\\` is a backslash, and any other byte stands as two digits behind `\x`. A count
//! behind a `*` says how many bytes there are: those of the digits before it, again and again. Parts are joined by `|`.

ghost use Rattle.std.specs.Prelude.{◌<◌, ◌^◌};

use crate::lines::Digits;
use age::io::Error;
use hex::FromHexError;
use std::alloc::{AllocError, AllocFailed, Global};
use std::fmt;
use std::fmt::Display;

/// Why the answer of a row isn't known.
#[derive(Clone, Copy)]
pub enum Fault {
    /// No call has this name and so many words.
    Call,
    /// A word is none that the call takes.
    Word,
    /// Memory for the words or the answer was refused.
    Memory,
}

impl Display for Fault {
    fn fmt<W: fmt::Write>(&self, f: &mut fmt::Formatter<W>) -> fmt::Result {
        f.write_str(match self {
            Fault::Call => "no such call",
            Fault::Word => "a word can't be read",
            Fault::Memory => "no memory for the row",
        })
    }
}

impl From<AllocError> for Fault {
    fn from(_: AllocError) -> Fault {
        Fault::Memory
    }
}

impl<T: Drop> From<AllocFailed<T>> for Fault {
    fn from(_: AllocFailed<T>) -> Fault {
        Fault::Memory
    }
}

// A reader of bytes, and a writer of a list, refuse nothing else.
impl From<Error> for Fault {
    fn from(_: Error) -> Fault {
        Fault::Memory
    }
}

/// A number.
pub fn number(word: &str) -> Result<usize, Fault> {
    word.parse::<usize>().map_err(|_| Fault::Word)
}

// The bytes of hexadecimal digits.
fn digits(alloc: Global, word: &str) -> Result<Vec<u8>, Fault> {
    match hex::decode(alloc, word) {
        Ok(bytes) => Ok(bytes),
        Err(FromHexError::OutOfMemory) => Err(Fault::Memory),
        Err(_) => Err(Fault::Word),
    }
}

// The byte of two digits.
fn byte(word: &str) -> Result<u8, Fault> {
    let mut byte = [0];
    match hex::decode_to_slice(word, &mut byte) {
        Ok(()) => Ok(byte[0]),
        Err(_) => Err(Fault::Word),
    }
}

// The bytes from one to another.
fn range(alloc: Global, first: u8, last: u8) -> Result<Vec<u8>, Fault> {
    let mut bytes = Vec::new(alloc);
    for byte in first..=last {
        bytes.push(byte)?;
    }
    Ok(bytes)
}

// The bytes of digits, or of the first and the last.
fn pattern(alloc: Global, word: &str) -> Result<Vec<u8>, Fault> {
    match word.split_once("..") {
        Some((first, last)) => range(alloc, byte(first)?, byte(last)?),
        None => digits(alloc, word),
    }
}

// So many bytes: those of a pattern again and again.
fn repeated(alloc: Global, pattern: &[u8], count: usize) -> Result<Vec<u8>, Fault> {
    if pattern.is_empty() {
        return Err(Fault::Word);
    }
    let mut bytes = Vec::new(alloc);
    for i in 0..count {
        bytes.push(pattern[i % pattern.len()])?;
    }
    Ok(bytes)
}

// The byte that a letter behind a backslash stands for.
fn escaped(letter: u8) -> Result<u8, Fault> {
    match letter {
        b'n' => Ok(b'\n'),
        b'r' => Ok(b'\r'),
        b't' => Ok(b'\t'),
        b'f' => Ok(b'\x0c'),
        b's' => Ok(b' '),
        b'\\' => Ok(b'\\'),
        _ => Err(Fault::Word),
    }
}

// The byte of two digits at the front, and what follows them.
fn coded(text: &[u8]) -> Result<(u8, &[u8]), Fault> {
    let Some((digits, rest)) = text.split_at_checked(2) else {
        return Err(Fault::Word);
    };
    let mut byte = [0];
    match hex::decode_to_slice(digits, &mut byte) {
        Ok(()) => Ok((byte[0], rest)),
        Err(_) => Err(Fault::Word),
    }
}

// The first byte of a text with escapes, and what follows it.
fn first(text: &[u8]) -> Result<(u8, &[u8]), Fault> {
    match text {
        [b'\\', b'x', rest @ ..] => coded(rest),
        [b'\\', letter, rest @ ..] => Ok((escaped(*letter)?, rest)),
        [byte, rest @ ..] => Ok((*byte, rest)),
        [] => Err(Fault::Word),
    }
}

// The bytes of a text with escapes.
fn unescaped(alloc: Global, text: &str) -> Result<Vec<u8>, Fault> {
    let mut bytes = Vec::new(alloc);
    let mut rest = text.as_bytes();
    for _ in 0..text.len() {
        if !rest.is_empty() {
            let (byte, others) = first(rest)?;
            bytes.push(byte)?;
            rest = others;
        }
    }
    Ok(bytes)
}

// The bytes of a part.
fn part(alloc: Global, word: &str) -> Result<Vec<u8>, Fault> {
    if let Some(text) = word.strip_prefix('\'') {
        return unescaped(alloc, text);
    }
    match word.split_once('*') {
        Some((front, count)) => repeated(alloc, &pattern(alloc, front)?, number(count)?),
        None => pattern(alloc, word),
    }
}

/// Bytes.
pub fn bytes(alloc: Global, word: &str) -> Result<Vec<u8>, Fault> {
    let mut bytes = Vec::new(alloc);
    if word == "-" {
        return Ok(bytes);
    }
    for it in word.split('|') {
        bytes.extend_from_slice(&part(alloc, it)?)?;
    }
    Ok(bytes)
}

/// So many bytes.
pub fn array<const N: usize>(alloc: Global, word: &str) -> Result<[u8; N], Fault>
    requires { N < 2 ^ 63 }
{
    let bytes = bytes(alloc, word)?;
    match bytes.first_chunk::<N>() {
        Some(array) if bytes.len() == N => Ok(*array),
        _ => Err(Fault::Word),
    }
}

/// Bytes that are UTF-8.
pub fn text(alloc: Global, word: &str) -> Result<String, Fault> {
    match String::from_utf8(bytes(alloc, word)?) {
        Ok(text) => Ok(text),
        Err(_) => Err(Fault::Word),
    }
}

/// Texts.
pub fn texts(alloc: Global, words: &[&str]) -> Result<Vec<String>, Fault> {
    let mut all = Vec::new(alloc);
    for word in words {
        all.push(text(alloc, word)?)?;
    }
    Ok(all)
}

/// The digits of bytes, or `-` for none.
#[derive(Clone, Copy)]
pub struct Hex<'a>(pub &'a [u8]);

impl<'a> Display for Hex<'a> {
    fn fmt<W: fmt::Write>(&self, f: &mut fmt::Formatter<W>) -> fmt::Result {
        let Hex(bytes) = self;
        if bytes.is_empty() {
            f.write_str("-")
        } else {
            write!(f, "{}", Digits(bytes))
        }
    }
}

/// A text of any bytes as a word: behind a `'`, with escapes.
#[derive(Clone, Copy)]
pub struct Word<'a>(pub &'a [u8]);

impl<'a> Display for Word<'a> {
    fn fmt<W: fmt::Write>(&self, f: &mut fmt::Formatter<W>) -> fmt::Result {
        let Word(bytes) = self;
        f.write_str("'")?;
        for byte in bytes.iter() {
            match byte {
                b'\n' => f.write_str("\\n")?,
                b' ' => f.write_str("\\s")?,
                0x21..=0x5b | 0x5d..=0x7e => write!(f, "{}", *byte as char)?,
                _ => write!(f, "\\x{byte:02x}")?,
            }
        }
        Ok(())
    }
}

/// The answer that is this text.
pub fn said(alloc: Global, text: &str) -> Result<String, Fault> {
    Ok(String::from_str(alloc, text)?)
}

/// The answer to a question.
pub fn told(alloc: Global, is_so: bool) -> Result<String, Fault> {
    said(alloc, if is_so { "yes" } else { "no" })
}

/// The answer that a value, or a refusal, prints.
pub fn printed<T: Display>(alloc: Global, value: &T) -> Result<String, Fault> {
    Ok(format!(in alloc; "{value}")?)
}
