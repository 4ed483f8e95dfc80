//! What the words of a command line ask for.

use age_bench::command::{Command, parse};
use std::alloc::{AllocError, Global};

/// These words as texts of their own.
pub fn owned(alloc: Global, words: &[&str]) -> Result<Vec<String>, AllocError> {
    let mut texts = Vec::new(alloc);
    for word in words {
        texts.push(String::from_str(alloc, word)?)?;
    }
    Ok(texts)
}

/// What these words ask for, or nothing.
pub fn asked(alloc: Global, words: &[&str]) -> Result<Option<Command>, AllocError> {
    parse(alloc, &owned(alloc, words)?)
}

/// Whether these words are no command.
pub fn is_no_command(alloc: Global, words: &[&str]) -> bool {
    matches!(asked(alloc, words), Ok(None))
}

/// Whether a word is neither TO nor WITH, for a whole file and for a part.
pub fn names_nobody(alloc: Global, word: &str) -> bool {
    is_no_command(alloc, &["encrypt", word, "00"])
        && is_no_command(alloc, &["decrypt", word])
        && is_no_command(alloc, &["at", word, "0", "1"])
}
