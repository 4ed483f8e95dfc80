//! What is wrong with a line of a file of keys, and with a word that is to be a recipient. None of them is printed: it may be a secret.

use crate::failure::{Failure, Shown, named, told};

// What a line was to be.
#[derive(Clone, Copy, PartialEq, Eq)]
pub enum Wanted {
    Recipient,
    Identity,
}

const PLUGIN_IDENTITY: &str = "AGE-PLUGIN-";

// Whether each byte is one that a key has (BIP 173, "Bech32").
fn has_symbols_alone(text: &str) -> bool {
    text.bytes().all(|byte| b"qpzry9x8gf2tvdw0s3jn54khce6mua7l".contains(
        &byte.to_ascii_lowercase(),
    ))
}

// What is wrong with the symbols of a key, of which there are to be so many.
fn of_symbols(symbols: &str, count: usize) -> &'static str {
    if !has_symbols_alone(symbols) {
        return "a character in it that no key has";
    }
    if symbols.len() != count {
        return "too short or too long for a key";
    }
    "a bad checksum: it is mistyped"
}

// What is wrong with a recipient, without `age1`.
fn of_recipient(rest: &str) -> &'static str {
    if rest.starts_with("pq1") {
        return "a post-quantum recipient, which isn't supported";
    }
    if rest.contains('1') {
        return "a plugin's recipient, which isn't supported";
    }
    of_symbols(rest, 58)
}

// Whether it is a key of SSH.
fn is_of_ssh(line: &str) -> bool {
    line.starts_with("ssh-")
        || line.starts_with("ecdsa-sha2-")
        || line.starts_with("sk-ssh-")
        || line.starts_with("-----BEGIN OPENSSH ")
}

// What a text is that was to be something else, where it is known.
fn known(line: &str) -> Option<&'static str> {
    if line.ends_with(' ') || line.ends_with('\t') {
        return Some("a space at its end");
    }
    if line.starts_with(' ') || line.starts_with('\t') {
        return Some("a space at its front");
    }
    if is_of_ssh(line) {
        return Some("an SSH key, which isn't supported");
    }
    if line.starts_with(PLUGIN_IDENTITY) {
        return Some("a plugin's identity, which isn't supported");
    }
    if line.starts_with("AGE-SECRET-KEY-PQ-1") {
        return Some("a post-quantum identity, which isn't supported");
    }
    None
}

// What is wrong with a text that is no recipient.
fn no_recipient(line: &str) -> &'static str {
    if let Some(what) = known(line) {
        return what;
    }
    if line.starts_with("AGE-SECRET-KEY-1") {
        return "a secret key, where a recipient is wanted";
    }
    match line.strip_prefix("age1") {
        Some(rest) => of_recipient(rest),
        None => "no recipient",
    }
}

// What is wrong with a text that is no identity.
fn no_identity(line: &str) -> &'static str {
    if let Some(what) = known(line) {
        return what;
    }
    if line.starts_with("age1") {
        return "a recipient, where an identity is wanted";
    }
    match line.strip_prefix("AGE-SECRET-KEY-1") {
        Some(rest) => of_symbols(rest, 58),
        None => "no identity",
    }
}

// What is wrong with a text.
fn wrong(line: &str, wanted: Wanted) -> &'static str {
    match wanted {
        Wanted::Recipient => no_recipient(line),
        Wanted::Identity => no_identity(line),
    }
}

/// That a word of the command line is no recipient.
pub fn bad_word(rt: &HostRuntime, word: &str) -> Failure {
    named(rt, "-r", &no_recipient(word))
}

// What is wrong with a line of a text, counted from 1.
fn wrong_line(text: &[u8], line: usize, wanted: Wanted) -> &'static str {
    let Ok(text) = str::from_utf8(text) else {
        return "no UTF-8";
    };
    match text.lines().nth(line.saturating_sub(1)) {
        Some(found) => wrong(found, wanted),
        None => wrong("", wanted),
    }
}

/// That a line of the text of the file of this name, counted from 1, is no key of the kind that is wanted.
pub fn bad_line(rt: &HostRuntime, name: &str, text: &[u8], line: usize, wanted: Wanted) -> Failure {
    let what = wrong_line(text, line, wanted);
    let name = Shown(name);
    told(format!(in rt.alloc(); "{name}: line {line}: {what}"))
}

// The first line of a text that is a plugin's identity, counted from 1.
fn plugin_line(text: &[u8]) -> Option<usize> {
    let text = str::from_utf8(text).ok()?;
    Some(
        text.lines()
            .position(|line| line.starts_with(PLUGIN_IDENTITY))?
            .saturating_add(1),
    )
}

/// That an identity in the file of this name, which has these bytes, is a plugin's, on a line that is looked for.
pub fn bad_plugin(rt: &HostRuntime, name: &str, text: &[u8]) -> Failure {
    match plugin_line(text) {
        Some(line) => bad_line(rt, name, text, line, Wanted::Identity),
        None => named(rt, name, &"a plugin's identity, which isn't supported"),
    }
}
