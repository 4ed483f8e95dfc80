//! A protected file of identities in armor: its header, an identity that takes less work, and one whose callbacks know no passphrase.

use crate::callbacks::Knows;
use crate::lines::{done, is_done, ready, say};
use crate::readers::seek;
use age::armor::ArmoredReader;
use age::format::{HeaderV1, Stanza};
use age::io::{BufReader, Bytes, Error, Read, SeekFrom};
use age::secrecy::{FileKey, SecretString};
use age::{DecryptError, Identity, encrypted, scrypt};
use age_bench::suite::BenchSuite;
use std::alloc::{AllocError, Global};
use std::cell::Cell;

const OF: &str = "protected";

type Armored<'a> = ArmoredReader<BufReader<Bytes<'a>>>;

fn show(rt: &HostRuntime, stanza: &Stanza) {
    say(rt, "stanza", "tag", &stanza.tag());
    for argument in stanza.args() {
        say(rt, "stanza", "argument", argument);
    }
    say(rt, "stanza", "body", &stanza.body().len());
}

// The header that a text in armor carries. Where it is refused, what the next read answers, and once more from the front.
fn read_header(rt: &HostRuntime, reader: &mut Armored) -> Option<HeaderV1> {
    let read = HeaderV1::read(rt.alloc(), reader);
    if let Some(header) = done(rt, OF, "header", read) {
        return Some(header);
    }
    let failed = reader.read(&mut [0]) == Err(Error::Failed);
    say(rt, OF, "failed", &failed);
    seek(rt, OF, reader, SeekFrom::Start(0));
    done(rt, OF, "header", HeaderV1::read(rt.alloc(), reader))
}

// The header of the file.
fn header(rt: &HostRuntime, text: &[u8]) -> Option<HeaderV1> {
    let reader = ArmoredReader::new(rt.alloc(), Bytes::new(text));
    let mut reader = done(rt, OF, "reader", reader)?;
    read_header(rt, &mut reader)
}

// An identity of a passphrase for a work factor of 5.
fn weak(alloc: Global) -> Result<scrypt::Identity<BenchSuite>, AllocError> {
    let passphrase = SecretString::from(String::from_str(alloc, "p")?);
    Ok(scrypt::Identity::new(passphrase, 5))
}

// Prints what an identity answers to stanzas.
fn say_answer(rt: &HostRuntime, what: &str, answer: Option<Result<FileKey, DecryptError>>) {
    match answer {
        None => say(rt, OF, what, &"none"),
        Some(answer) => {
            is_done(rt, OF, what, answer);
        }
    }
}

// What that identity answers to a stanza, asked twice.
fn ask(rt: &HostRuntime, stanza: &Stanza) {
    if let Some(mut identity) = done(rt, OF, "identity", weak(rt.alloc())) {
        for _ in 0..2 {
            say_answer(rt, "work", identity.unwrap_stanza(rt.alloc(), stanza));
        }
    }
}

// The stanzas of the file, and what that identity answers to them.
fn print_header(rt: &HostRuntime, text: &[u8]) {
    if let Some(header) = header(rt, text) {
        for stanza in header.stanzas() {
            show(rt, stanza);
            ask(rt, stanza);
        }
    }
}

type Protected<'a> = encrypted::Identity<BenchSuite, Armored<'a>, Knows<'a>>;

// The identity that the file protects.
fn protected<'a>(rt: &HostRuntime, text: &'a [u8], asked: &'a Cell<u64>) -> Option<Protected<'a>> {
    let reader = ArmoredReader::new(rt.alloc(), Bytes::new(text));
    let reader = done(rt, OF, "reader", reader)?;
    let made = encrypted::Identity::from_buffer(
        rt.alloc(),
        reader,
        None,
        Knows {
            passphrase: None,
            asked,
        },
        18,
        None,
    );
    match done(rt, OF, "file", made)? {
        Some(identity) => Some(identity),
        None => {
            say(rt, OF, "file", &"none");
            None
        }
    }
}

// Its recipients, and how often a passphrase was asked for then.
fn print_recipients(rt: &HostRuntime, identity: &mut Protected, asked: &Cell<u64>) {
    is_done(rt, OF, "recipients", identity.recipients(rt.alloc()));
    say(rt, OF, "asked", &asked.get());
}

// What it answers to no stanzas, and how often a passphrase was asked for then.
fn print_unwrapped(rt: &HostRuntime, identity: &mut Protected, asked: &Cell<u64>) {
    say_answer(rt, "unwrapped", identity.unwrap_stanzas(rt.alloc(), &[]));
    say(rt, OF, "asked", &asked.get());
}

// Its recipients, twice, and its answer to stanzas.
fn print_protected(rt: &HostRuntime, text: &[u8]) {
    let asked = Cell::new(0);
    if let Some(mut identity) = protected(rt, text, &asked) {
        print_recipients(rt, &mut identity, &asked);
        print_recipients(rt, &mut identity, &asked);
        print_unwrapped(rt, &mut identity, &asked);
    }
}

/// Makes the calls on this text.
pub fn row(rt: &HostRuntime, text: &[u8]) {
    ready(rt);
    print_header(rt, text);
    print_protected(rt, text);
}
