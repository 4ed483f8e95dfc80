//! Calls on stanzas, each of which is `TAG ARGUMENT .. BODY`. `new` and `grease` answer it, or `none` where it is no stanza or no grease.
//! `x25519_unwrap SECRET ..` and `scrypt_unwrap PASSPHRASE TARGET ..` ask the identity of a secret, or of a passphrase and a work factor: they
//! answer the file key, `none` where the stanza is passed over, or the refusal. `x25519_wrap SECRET RANDOM` and `scrypt_wrap PASSPHRASE FACTOR
//! RANDOM` wrap a file key of zeros: they answer each stanza, each label, and how many of the random bytes are left. So does
//! `scrypt_set_and_wrap`, whose recipient was made for another work factor.

ghost use Rattle.std.specs.Prelude.{◌≤◌, IfOk};

use crate::words::{Fault, Hex, bytes, number, printed, said, text, texts};
use age::draw::Draw;
use age::format::{Grease, Stanza};
use age::secrecy::{FileKey, SecretString};
use age::{DecryptError, Identity, Recipient, scrypt, x25519};
use age_bench::suite::BenchSuite;
use std::alloc::Global;
use std::collections::BTreeSet;
use std::fmt;
use std::fmt::{Display, Write as _};

/// A stanza's tag, arguments and body.
#[derive(Clone, Copy)]
pub struct Shown<'a>(pub &'a Stanza);

impl<'a> Display for Shown<'a> {
    fn fmt<W: fmt::Write>(&self, f: &mut fmt::Formatter<W>) -> fmt::Result {
        let Shown(stanza) = self;
        f.write_str(stanza.tag())?;
        for argument in stanza.args() {
            write!(f, " {argument}")?;
        }
        write!(f, " {}", Hex(stanza.body()))
    }
}

// The stanza of a tag, arguments and a body.
fn stanza_of(
    alloc: Global,
    tag: &str,
    arguments: &[&str],
    body: &str,
) -> Result<Option<Stanza>, Fault> {
    let tag = text(alloc, tag)?;
    let arguments = texts(alloc, arguments)?;
    Ok(Stanza::new(tag, arguments, bytes(alloc, body)?))
}

/// The stanza of these words.
pub fn stanza(alloc: Global, words: &[&str]) -> Result<Option<Stanza>, Fault> {
    match words {
        [tag, arguments @ .., body] => stanza_of(alloc, tag, arguments, body),
        _ => Err(Fault::Call),
    }
}

fn new(alloc: Global, words: &[&str]) -> Result<String, Fault> {
    match stanza(alloc, words)? {
        Some(stanza) => printed(alloc, &Shown(&stanza)),
        None => said(alloc, "none"),
    }
}

fn grease(alloc: Global, words: &[&str]) -> Result<String, Fault> {
    match stanza(alloc, words)?.and_then(Grease::new) {
        Some(grease) => printed(alloc, &Shown(&grease.into_stanza())),
        None => said(alloc, "none"),
    }
}

// What an identity answers.
fn key_of(alloc: Global, answer: Option<Result<FileKey, DecryptError>>) -> Result<String, Fault> {
    match answer {
        Some(Ok(key)) => printed(alloc, &Hex(key.expose_secret())),
        Some(Err(refusal)) => printed(alloc, &refusal),
        None => said(alloc, "none"),
    }
}

// What an identity answers to the stanza of these words.
fn unwrapped<I: Identity>(
    alloc: Global,
    identity: &mut I,
    words: &[&str],
) -> Result<String, Fault> {
    match stanza(alloc, words)? {
        Some(stanza) => key_of(alloc, identity.unwrap_stanza(alloc, &stanza)),
        None => Err(Fault::Word),
    }
}

// The X25519 identity of a secret.
fn identity_of(alloc: Global, secret: &str) -> Result<x25519::Identity<BenchSuite>, Fault> {
    let mut draw = Draw::new(bytes(alloc, secret)?);
    match x25519::Identity::generate(&mut draw) {
        Some(identity) => Ok(identity),
        None => Err(Fault::Word),
    }
}

// A work factor.
fn factor(word: &str) -> Result<u8, Fault>
    ensures some { IfOk result (λ it. 1 ≤ it) }
    ensures most { IfOk result (λ it. it ≤ 63) }
{
    match word.parse::<u8>() {
        Ok(factor) if factor >= 1 && factor <= 63 => Ok(factor),
        _ => Err(Fault::Word),
    }
}

// A passphrase.
fn passphrase(alloc: Global, word: &str) -> Result<SecretString, Fault> {
    Ok(SecretString::from(text(alloc, word)?))
}

// The identity of a passphrase for a work factor.
fn of_passphrase(
    alloc: Global,
    word: &str,
    target: &str,
) -> Result<scrypt::Identity<BenchSuite>, Fault> {
    let target = factor(target)?;
    Ok(scrypt::Identity::new(passphrase(alloc, word)?, target))
}

fn write_all(out: &mut String, stanzas: &[Stanza], labels: &BTreeSet<String>) -> fmt::Result {
    for stanza in stanzas {
        write!(out, "{};", Shown(stanza))?;
    }
    for label in labels.iter() {
        write!(out, " {label};")?;
    }
    Ok(())
}

// Stanzas and labels, each with a semicolon after it.
fn listed(alloc: Global, stanzas: &[Stanza], labels: &BTreeSet<String>) -> Result<String, Fault> {
    let mut out = String::new(alloc);
    match write_all(&mut out, stanzas, labels) {
        Ok(()) => Ok(out),
        Err(_) => Err(Fault::Memory),
    }
}

// What a recipient wraps a file key of zeros in.
fn wrapped<R: Recipient>(alloc: Global, recipient: &R, draw: &mut Draw) -> Result<String, Fault> {
    match recipient.wrap_file_key(alloc, &FileKey::new([0; 16]), draw) {
        Ok((stanzas, labels)) => listed(alloc, &stanzas, &labels),
        Err(refusal) => printed(alloc, &refusal),
    }
}

// The same with these random bytes, and how many of them are left.
fn wrap<R: Recipient>(alloc: Global, recipient: &R, random: &str) -> Result<String, Fault> {
    let mut draw = Draw::new(bytes(alloc, random)?);
    let answer = wrapped(alloc, recipient, &mut draw)?;
    Ok(format!(in alloc; "{answer} {} left", draw.left())?)
}

fn x25519_wrap(alloc: Global, secret: &str, random: &str) -> Result<String, Fault> {
    wrap(alloc, &identity_of(alloc, secret)?.to_public(), random)
}

fn scrypt_wrap(alloc: Global, word: &str, work: &str, random: &str) -> Result<String, Fault> {
    let work = factor(work)?;
    let recipient = scrypt::Recipient::<BenchSuite>::new(passphrase(alloc, word)?, work);
    wrap(alloc, &recipient, random)
}

// The same by a recipient that was made with the work factor 10, and is told another one.
fn scrypt_set_and_wrap(
    alloc: Global,
    word: &str,
    work: &str,
    random: &str,
) -> Result<String, Fault> {
    let work = factor(work)?;
    let mut recipient = scrypt::Recipient::<BenchSuite>::new(passphrase(alloc, word)?, 10);
    recipient.set_work_factor(work);
    wrap(alloc, &recipient, random)
}

/// What a call answers.
pub fn answer(alloc: Global, name: &str, words: &[&str]) -> Result<String, Fault> {
    match (name, words) {
        ("new", words) => new(alloc, words),
        ("grease", words) => grease(alloc, words),
        ("x25519_unwrap", [secret, words @ ..]) => {
            unwrapped(alloc, &mut identity_of(alloc, secret)?, words)
        }
        ("scrypt_unwrap", [word, target, words @ ..]) => {
            unwrapped(alloc, &mut of_passphrase(alloc, word, target)?, words)
        }
        ("x25519_wrap", [secret, random]) => x25519_wrap(alloc, secret, random),
        ("scrypt_wrap", [word, work, random]) => scrypt_wrap(alloc, word, work, random),
        ("scrypt_set_and_wrap", [word, work, random]) => {
            scrypt_set_and_wrap(alloc, word, work, random)
        }
        _ => Err(Fault::Call),
    }
}
