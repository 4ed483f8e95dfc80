//! The file of a message, of 36 bytes, to each kind of recipient, where each random byte is 0 and the grease stanza is `x-grease`: written by an
//! encryptor, and in armor by one call. Both are decrypted then. What is refused memory, and can be asked again, is asked once more.

use crate::lines::{Digest, done, ready, say};
use crate::writers::write;
use age::draw::Draw;
use age::format::{Grease, Stanza};
use age::io::Write;
use age::secrecy::SecretString;
use age::stream::StreamWriter;
use age::{EncryptError, Encryptor, decrypt, encrypt_and_armor, scrypt, x25519};
use age_bench::names::{To, With};
use age_bench::suite::BenchSuite;
use std::alloc::{AllocError, Global};

const MESSAGE: &[u8] = b"This is a test message. For testing.";

const FACTOR: u8 = 10;

const IDENTITY: &str = "AGE-SECRET-KEY-1GQ9778VQXMMJVE8SK7J6VT8UJ4HDQAJUVSFCWCM02D8GEWQ72PVQ2Y5J33";

/// The kinds of recipients and identities.
#[derive(Clone, Copy)]
enum Kind {
    Bench,
    Key,
    Passphrase,
}

// What the lines of a kind begin with.
fn name_of(kind: Kind) -> &'static str {
    match kind {
        Kind::Bench => "bench",
        Kind::Key => "key",
        Kind::Passphrase => "passphrase",
    }
}

// How many random bytes an encryption takes.
fn random_of(kind: Kind) -> usize {
    match kind {
        Kind::Bench => 32,
        Kind::Key => 64,
        Kind::Passphrase => 72,
    }
}

/// A passphrase.
pub fn passphrase(alloc: Global) -> Result<SecretString, AllocError> {
    Ok(SecretString::from(String::from_str(alloc, "correct horse")?))
}

/// The identity of a key, whose text is known.
pub fn key(rt: &HostRuntime) -> Option<x25519::Identity<BenchSuite>> {
    done(
        rt,
        "key",
        "text",
        IDENTITY.parse::<x25519::Identity<BenchSuite>>(),
    )
}

fn recipient(rt: &HostRuntime, kind: Kind) -> Option<To> {
    match kind {
        Kind::Bench => Some(To::Bench),
        Kind::Key => Some(To::Key(key(rt)?.to_public())),
        Kind::Passphrase => {
            let passphrase = done(rt, name_of(kind), "recipient", passphrase(rt.alloc()))?;
            Some(To::Passphrase(scrypt::Recipient::new(passphrase, FACTOR)))
        }
    }
}

fn identity(rt: &HostRuntime, kind: Kind) -> Option<With> {
    match kind {
        Kind::Bench => Some(With::Bench),
        Kind::Key => Some(With::Key(key(rt)?)),
        Kind::Passphrase => {
            let passphrase = done(rt, name_of(kind), "identity", passphrase(rt.alloc()))?;
            Some(With::Passphrase(scrypt::Identity::new(passphrase, FACTOR)))
        }
    }
}

/// The stanza `x-grease`.
pub fn grease(alloc: Global) -> Result<Grease, EncryptError> {
    let tag = String::from_str(alloc, "x-grease")?;
    let stanza = Stanza::new(tag, Vec::new(alloc), Vec::new(alloc));
    match stanza.and_then(Grease::new) {
        Some(grease) => Ok(grease),
        None => Err(EncryptError::MissingRecipients),
    }
}

/// So many random bytes, each of them 0.
pub fn zeros(rt: &HostRuntime, of: &str, count: usize) -> Option<Draw> {
    let mut bytes = Vec::new(rt.alloc());
    done(rt, of, "random bytes", bytes.resize(count, 0))?;
    Some(Draw::new(bytes))
}

/// An encryption to recipients. A refusal is printed.
pub fn prepared(
    rt: &HostRuntime,
    of: &str,
    to: &[To],
    draw: &mut Draw,
) -> Option<Encryptor<BenchSuite>> {
    let grease = done(rt, of, "grease", grease(rt.alloc()))?;
    let made = Encryptor::<BenchSuite>::with_recipients(rt.alloc(), to, draw, grease);
    done(rt, of, "encryptor", made)
}

// One under a passphrase.
fn prepared_under(rt: &HostRuntime, of: &str, draw: &mut Draw) -> Option<Encryptor<BenchSuite>> {
    let passphrase = done(rt, of, "word", passphrase(rt.alloc()))?;
    let made = Encryptor::<BenchSuite>::with_user_passphrase(rt.alloc(), passphrase, FACTOR, draw);
    done(rt, of, "encryptor", made)
}

// An encryption for this kind. What is left of the random bytes is printed.
fn encryptor(
    rt: &HostRuntime,
    kind: Kind,
    to: &[To],
    draw: &mut Draw,
) -> Option<Encryptor<BenchSuite>> {
    let of = name_of(kind);
    let made = match kind {
        Kind::Passphrase => prepared_under(rt, of, draw),
        _ => prepared(rt, of, to, draw),
    };
    say(rt, of, "left", &draw.left());
    made
}

// Whether a payload is written and finished.
fn is_finished<W: Write + Drop>(
    rt: &HostRuntime,
    of: &str,
    mut writer: StreamWriter<BenchSuite, W>,
) -> bool {
    write(rt, of, &mut writer, MESSAGE);
    done(rt, of, "finish", writer.finish()).is_some()
}

// Whether the message's file is written.
fn is_written<W: Write + Drop>(
    rt: &HostRuntime,
    of: &str,
    encryptor: Encryptor<BenchSuite>,
    out: W,
) -> bool {
    match done(
        rt,
        of,
        "wrap_output",
        encryptor.wrap_output(rt.alloc(), out),
    ) {
        Some(writer) => is_finished(rt, of, writer),
        None => false,
    }
}

// The message's file. It has room from the start, so that it asks for no memory; what was written is printed, also of a refusal.
fn file(rt: &HostRuntime, of: &str, encryptor: Encryptor<BenchSuite>) -> Option<Vec<u8>> {
    let mut out = done(rt, of, "room", Vec::with_capacity(rt.alloc(), 1024))?;
    let is_written = is_written(rt, of, encryptor, &mut out);
    say(rt, of, "file", &Digest(out.as_slice()));
    if is_written { Some(out) } else { None }
}

// The armor of the message's file, by one call. What is left of the random bytes is printed.
fn armored(rt: &HostRuntime, of: &str, to: &To, draw: &mut Draw) -> Option<String> {
    let grease = done(rt, of, "grease", grease(rt.alloc()))?;
    let made = encrypt_and_armor::<BenchSuite, To>(rt.alloc(), to, MESSAGE, draw, grease);
    let text = done(rt, of, "text", made);
    say(rt, of, "left", &draw.left());
    let text = text?;
    say(rt, of, "text", &Digest(text.as_bytes()));
    Some(text)
}

// Whether the plaintext of a file, bare or in armor, is printed.
fn is_decrypted(rt: &HostRuntime, of: &str, identity: &mut With, file: &[u8]) -> bool {
    match done(
        rt,
        of,
        "plain",
        decrypt::<BenchSuite, With>(rt.alloc(), identity, file),
    ) {
        Some(plain) => {
            say(rt, of, "plain", &Digest(plain.as_slice()));
            true
        }
        None => false,
    }
}

// Decrypts a file.
fn print_plain(rt: &HostRuntime, kind: Kind, file: &[u8]) {
    let of = name_of(kind);
    if let Some(mut identity) = identity(rt, kind) {
        let _ = is_decrypted(rt, of, &mut identity, file)
            || is_decrypted(rt, of, &mut identity, file);
    }
}

// The file by an encryptor.
fn bare_file(rt: &HostRuntime, kind: Kind) -> Option<Vec<u8>> {
    let of = name_of(kind);
    let to = [recipient(rt, kind)?];
    let mut draw = zeros(rt, of, random_of(kind))?;
    file(rt, of, encryptor(rt, kind, &to, &mut draw)?)
}

// The file in armor.
fn text(rt: &HostRuntime, kind: Kind) -> Option<String> {
    let of = name_of(kind);
    let to = recipient(rt, kind)?;
    let mut draw = zeros(rt, of, random_of(kind))?;
    armored(rt, of, &to, &mut draw)
}

/// Makes the calls.
pub fn row(rt: &HostRuntime) {
    ready(rt);
    for kind in [Kind::Bench, Kind::Key, Kind::Passphrase] {
        if let Some(file) = bare_file(rt, kind) {
            print_plain(rt, kind, file.as_slice());
        }
        if let Some(text) = text(rt, kind) {
            print_plain(rt, kind, text.as_bytes());
        }
    }
}
