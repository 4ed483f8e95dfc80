//! What the tests share.
ghost use Rattle.std.specs.Prelude.{◌≤◌};

use age::draw::Draw;
use age::format::{Grease, Stanza};
use age::secrecy::{FileKey, SecretString};
use age::suite::Suite;
use age::{DecryptError, Identity, Recipient, decrypt, encrypt, encrypt_and_armor, scrypt, x25519};
use age_bench::suite::BenchSuite;
use std::alloc::{AllocError, Global};
use std::fmt::{Debug, Display};
use std::test::Fail;
use test_support::answers::{gives, is_refusal};
use test_support::fixtures::{MESSAGE, empty_stanza};

/// A passphrase.
pub fn passphrase(alloc: Global, text: &str) -> Result<SecretString, AllocError> {
    Ok(SecretString::from(String::from_str(alloc, text)?))
}

/// The identity of `correct horse` for a work factor.
pub fn horse(alloc: Global, target: u8) -> Result<scrypt::Identity<BenchSuite>, AllocError>
    requires { target ≤ 63 }
{
    Ok(scrypt::Identity::new(passphrase(alloc, "correct horse")?, target))
}

/// The X25519 identity of a secret.
pub fn identity_of(alloc: Global, secret: &[u8]) -> Result<x25519::Identity<BenchSuite>, Fail> {
    let mut draw = Draw::new(Vec::from_slice(alloc, secret)?);
    match x25519::Identity::generate(&mut draw) {
        Some(identity) => Ok(identity),
        None => Err(Fail::from("too few random bytes")),
    }
}

/// The X25519 recipient of a secret.
pub fn recipient_of(alloc: Global, secret: &[u8]) -> Result<x25519::Recipient<BenchSuite>, Fail> {
    Ok(identity_of(alloc, secret)?.to_public())
}

/// A grease stanza.
pub fn grease(alloc: Global) -> Result<Grease, Fail> {
    match empty_stanza(alloc, "x-grease")?.and_then(Grease::new) {
        Some(grease) => Ok(grease),
        None => Err(Fail::from("no grease")),
    }
}

/// Texts of their own.
pub fn owned(alloc: Global, texts: &[&str]) -> Result<Vec<String>, AllocError> {
    let mut all = Vec::new(alloc);
    for text in texts {
        all.push(String::from_str(alloc, text)?)?;
    }
    Ok(all)
}

/// A stanza of a tag, with these arguments and this body.
pub fn stanza(alloc: Global, tag: &str, arguments: &[&str], body: &[u8]) -> Result<Stanza, Fail> {
    let args = owned(alloc, arguments)?;
    let body = Vec::from_slice(alloc, body)?;
    match Stanza::new(String::from_str(alloc, tag)?, args, body) {
        Some(stanza) => Ok(stanza),
        None => Err(Fail::from("no stanza")),
    }
}

/// What an identity answers to a stanza.
pub type Answer = Option<Result<FileKey, DecryptError>>;

// Whether an answer is a key of zeros.
fn is_zeros(answer: &Answer) -> bool {
    match answer {
        Some(Ok(key)) => *key.expose_secret() == [0; 16],
        _ => false,
    }
}

/// Whether an identity answers a key of zeros to a stanza.
pub fn gives_zeros<I: Identity>(alloc: Global, identity: &mut I, stanza: &Stanza) -> bool {
    is_zeros(&identity.unwrap_stanza(alloc, stanza))
}

// Whether an answer is a refusal with this text.
fn is_refused<T: Drop, E: Display + Drop>(
    alloc: Global,
    answer: Option<Result<T, E>>,
    refusal: &str,
) -> bool {
    match answer {
        Some(answer) => is_refusal(alloc, answer, refusal),
        None => false,
    }
}

/// Whether an identity refuses a stanza with this text.
pub fn refuses<I: Identity>(
    alloc: Global,
    identity: &mut I,
    stanza: &Stanza,
    refusal: &str,
) -> bool {
    is_refused(alloc, identity.unwrap_stanza(alloc, stanza), refusal)
}

/// The message's file for a recipient, with these random bytes.
pub fn encrypted_for<R: Recipient>(
    alloc: Global,
    recipient: &R,
    mut draw: Draw,
) -> Result<Vec<u8>, Fail> {
    let grease = grease(alloc)?;
    Ok(encrypt::<BenchSuite, R>(alloc, recipient, MESSAGE, &mut draw, grease)?)
}

/// The armor of such a file.
pub fn armored_for<R: Recipient>(
    alloc: Global,
    recipient: &R,
    mut draw: Draw,
) -> Result<String, Fail> {
    let grease = grease(alloc)?;
    Ok(encrypt_and_armor::<BenchSuite, R>(alloc, recipient, MESSAGE, &mut draw, grease)?)
}

/// Whether an identity decrypts a file, or its armor, to the message.
pub fn opens<I: Identity>(alloc: Global, identity: &mut I, file: &[u8]) -> bool {
    gives(decrypt::<BenchSuite, I>(alloc, identity, file), MESSAGE)
}

/// Whether an identity refuses a file, or its armor, with this text.
pub fn refuses_file<S: Suite, I: Identity>(
    alloc: Global,
    identity: &mut I,
    file: &[u8],
    refusal: &str,
) -> bool {
    is_refusal(alloc, decrypt::<S, I>(alloc, identity, file), refusal)
}

/// Whether a recipient refuses to wrap it with this text, and leaves so many random bytes.
pub fn refuses_to_wrap<R: Recipient>(
    alloc: Global,
    recipient: &R,
    mut draw: Draw,
    refusal: &str,
    left: usize,
) -> bool {
    let answer = recipient.wrap_file_key(alloc, &FileKey::new([0; 16]), &mut draw);
    is_refusal(alloc, answer, refusal) && draw.left() == left
}

/// Whether a value has this text for whoever looks for faults.
pub fn shows<T: Debug>(alloc: Global, value: &T, text: &str) -> Result<bool, Fail> {
    Ok(format!(in alloc; "{value:?}")?.as_str() == text)
}
