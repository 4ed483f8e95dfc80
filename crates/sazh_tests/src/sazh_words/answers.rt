//! What command lines ask for, as texts.

use crate::words::owned;
use sazh_command::parse;
use std::alloc::{AllocError, Global};
use std::process::Abort;
use std::test::Fail;

/// The words of a line, split at its spaces.
pub fn words_of(alloc: Global, line: &str) -> Result<Vec<String>, AllocError> {
    let mut words = Vec::new(alloc);
    for word in line.split_whitespace() {
        words.push(String::from_str(alloc, word)?)?;
    }
    Ok(words)
}

// What these words ask for, or what is wrong, as `Debug` writes it.
fn answer_of(alloc: Global, words: &[String]) -> Result<String, AllocError> {
    let answer = parse(alloc, words)?;
    format!(in alloc; "{answer:?}")
}

/// Whether these words ask for this, or are wrong so.
pub fn words_ask(alloc: Global, words: &[&str], expected: &str) -> Result<bool, AllocError> {
    let words = owned(alloc, words)?;
    Ok(answer_of(alloc, &words)?.as_str() == expected)
}

// Whether the words of a line ask for this, or are wrong so.
fn line_asks(alloc: Global, line: &str, expected: &str) -> Result<bool, AllocError> {
    let words = words_of(alloc, line)?;
    Ok(answer_of(alloc, &words)?.as_str() == expected)
}

/// The words of each line ask for what stands behind it, or are wrong so. A row is `LINE => ANSWER`, or empty.
pub fn all_ask(rt: &impl Abort, alloc: Global, rows: &str) -> Result<(), Fail> {
    for row in rows.lines() {
        match row.split_once(" => ") {
            Some((line, expected)) => assert!(rt; line_asks(alloc, line, expected)?, "at {line}"),
            None => assert!(rt; row.is_empty(), "{row}"),
        }
    }
    Ok(())
}
