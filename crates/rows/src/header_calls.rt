//! Calls on headers, as `header::read TEXT`. `read` answers how many stanzas there are, or the refusal, and how many bytes were taken of a
//! reader that has the others still; `stanzas` each stanza's tag, arguments and body; `write` and `text` what is written for the header and its
//! text; `mac` its MAC; and `verify_mac KEY TEXT` whether that is the one of a file key. `old_read`, `old_stanzas`, `old_into_stanzas` and
//! `old_verify_mac` read the legacy form too. `new KEY TAG ARGUMENT .. BODY` answers what is written for a header of one stanza that is made
//! under a file key, and `new_verify_mac KEY OTHER TAG ARGUMENT .. BODY` whether its MAC is the one of another file key.

use crate::stanza_calls::{Shown, stanza};
use crate::words::{Fault, Hex, Word, array, bytes, printed, said, told};
use age::format::{HeaderV1, OldHeader, Stanza};
use age::io::{Bytes, read_to_end};
use age::secrecy::FileKey;
use std::alloc::Global;
use std::fmt::{Display, Write as _};

// What a read came to, and how many bytes of its text were taken.
fn taken<T: Display>(
    alloc: Global,
    came: &T,
    text: &[u8],
    input: &mut Bytes,
) -> Result<String, Fault> {
    let mut rest = Vec::new(alloc);
    read_to_end(alloc, input, &mut rest)?;
    if !text.ends_with(&rest) {
        return said(alloc, "other bytes are left");
    }
    let count = text.len().saturating_sub(rest.len());
    Ok(format!(in alloc; "{came}, {count} taken")?)
}

// So many stanzas.
fn stanzas_of(alloc: Global, stanzas: &[Stanza]) -> Result<String, Fault> {
    Ok(format!(in alloc; "{} stanzas", stanzas.len())?)
}

fn read(alloc: Global, text: &[u8]) -> Result<String, Fault> {
    let mut input = Bytes::new(text);
    match HeaderV1::read(alloc, &mut input) {
        Ok(header) => taken(
            alloc,
            &stanzas_of(alloc, header.stanzas())?,
            text,
            &mut input,
        ),
        Err(refusal) => taken(alloc, &refusal, text, &mut input),
    }
}

fn old_read(alloc: Global, text: &[u8]) -> Result<String, Fault> {
    let mut input = Bytes::new(text);
    match OldHeader::read(alloc, &mut input) {
        Ok(header) => taken(
            alloc,
            &stanzas_of(alloc, header.stanzas())?,
            text,
            &mut input,
        ),
        Err(refusal) => taken(alloc, &refusal, text, &mut input),
    }
}

// Stanzas, each with a semicolon after it.
fn listed(alloc: Global, stanzas: &[Stanza]) -> Result<String, Fault> {
    let mut text = String::new(alloc);
    for stanza in stanzas {
        let Ok(()) = write!(text, "{};", Shown(stanza)) else {
            return Err(Fault::Memory);
        };
    }
    Ok(text)
}

fn old_stanzas(alloc: Global, text: &[u8]) -> Result<String, Fault> {
    match OldHeader::read(alloc, &mut Bytes::new(text)) {
        Ok(header) => listed(alloc, header.stanzas()),
        Err(refusal) => printed(alloc, &refusal),
    }
}

fn old_into_stanzas(alloc: Global, text: &[u8]) -> Result<String, Fault> {
    match OldHeader::read(alloc, &mut Bytes::new(text)) {
        Ok(header) => listed(alloc, &header.into_stanzas()),
        Err(refusal) => printed(alloc, &refusal),
    }
}

fn written(alloc: Global, header: &HeaderV1) -> Result<String, Fault> {
    let mut text = Vec::new(alloc);
    header.write(alloc, &mut text)?;
    printed(alloc, &Word(&text))
}

// What a call on a header answers.
fn answer_of(alloc: Global, name: &str, header: &HeaderV1) -> Result<String, Fault> {
    match name {
        "stanzas" => listed(alloc, header.stanzas()),
        "write" => written(alloc, header),
        "text" => printed(alloc, &Word(&header.text(alloc)?)),
        "mac" => printed(alloc, &Hex(header.mac())),
        _ => Err(Fault::Call),
    }
}

fn answer_of_read(alloc: Global, name: &str, text: &[u8]) -> Result<String, Fault> {
    match HeaderV1::read(alloc, &mut Bytes::new(text)) {
        Ok(header) => answer_of(alloc, name, &header),
        Err(refusal) => printed(alloc, &refusal),
    }
}

// What a call on a text answers.
fn answer_to(alloc: Global, name: &str, text: &[u8]) -> Result<String, Fault> {
    match name {
        "read" => read(alloc, text),
        "old_read" => old_read(alloc, text),
        "old_stanzas" => old_stanzas(alloc, text),
        "old_into_stanzas" => old_into_stanzas(alloc, text),
        _ => answer_of_read(alloc, name, text),
    }
}

fn verify_mac(alloc: Global, key: &FileKey, text: &[u8]) -> Result<String, Fault> {
    match HeaderV1::read(alloc, &mut Bytes::new(text)) {
        Ok(header) => told(alloc, header.verify_mac(key)),
        Err(refusal) => printed(alloc, &refusal),
    }
}

fn old_verify_mac(alloc: Global, key: &FileKey, text: &[u8]) -> Result<String, Fault> {
    match OldHeader::read(alloc, &mut Bytes::new(text)) {
        Ok(header) => told(alloc, header.verify_mac(key)),
        Err(refusal) => printed(alloc, &refusal),
    }
}

// The header of one stanza under a file key.
fn made(alloc: Global, key: &FileKey, words: &[&str]) -> Result<HeaderV1, Fault> {
    let Some(stanza) = stanza(alloc, words)? else {
        return Err(Fault::Word);
    };
    let mut stanzas = Vec::new(alloc);
    stanzas.push(stanza)?;
    Ok(HeaderV1::new(alloc, stanzas, key)?)
}

fn new(alloc: Global, key: &FileKey, words: &[&str]) -> Result<String, Fault> {
    written(alloc, &made(alloc, key, words)?)
}

fn new_verify_mac(
    alloc: Global,
    key: &FileKey,
    other: &str,
    words: &[&str],
) -> Result<String, Fault> {
    let header = made(alloc, key, words)?;
    told(
        alloc,
        header.verify_mac(&FileKey::new(array::<16>(alloc, other)?)),
    )
}

// What a call with a file key answers.
fn answer_under(alloc: Global, name: &str, key: &FileKey, words: &[&str]) -> Result<String, Fault> {
    match (name, words) {
        ("verify_mac", [text]) => verify_mac(alloc, key, &bytes(alloc, text)?),
        ("old_verify_mac", [text]) => old_verify_mac(alloc, key, &bytes(alloc, text)?),
        ("new", words) => new(alloc, key, words),
        ("new_verify_mac", [other, words @ ..]) => new_verify_mac(alloc, key, other, words),
        _ => Err(Fault::Call),
    }
}

/// What a call answers.
pub fn answer(alloc: Global, name: &str, words: &[&str]) -> Result<String, Fault> {
    match words {
        [text] => answer_to(alloc, name, &bytes(alloc, text)?),
        [key, rest @ ..] => {
            let key = FileKey::new(array::<16>(alloc, key)?);
            answer_under(alloc, name, &key, rest)
        }
        [] => Err(Fault::Call),
    }
}
