//! What the tests of this crate share: files, and what came of a call as a `bool`, so that no test holds an error, whose parts are
//! many, beside its own values.

use age::armor::Format;
use age::draw::Draw;
use age::format::Grease;
use age::io::{Answer, BufRead, Bytes, Error, Read, write_all};
use age::secrecy::SecretString;
use age::stream::StreamReader;
use age::suite::Suite;
use age::{DecryptError, Decryptor, Encryptor, Identity, Recipient, decrypt};
use age_bench::file::{decrypt_with, encrypt_to};
use age_bench::names::{To, With};
use age_bench::recipient::{BenchIdentity, BenchRecipient};
use age_bench::suite::BenchSuite;
use age_examples::own::{OwnIdentity, OwnRecipient};
use std::alloc::{AllocError, Global};
use std::fmt::{Debug, Display};
use std::test::Fail;
use test_support::answers::{delivers, delivers_until, ends, gives, is_refusal, read_refuses};
use test_support::fixtures::{MESSAGE, SEALED, empty_stanza, zeros};

/// An answer, where it isn't refused.
pub fn done<T, E: Drop>(answer: Result<T, E>) -> Result<T, Fail> {
    match answer {
        Ok(value) => Ok(value),
        Err(_) => Err(Fail::from("refused")),
    }
}

/// So many random bytes, all of them 7.
pub fn sevens(alloc: Global, count: usize) -> Result<Draw, AllocError> {
    Ok(Draw::new(vec![in alloc; 7; count]?))
}

/// A passphrase.
pub fn passphrase(alloc: Global, text: &str) -> Result<SecretString, AllocError> {
    Ok(SecretString::from(String::from_str(alloc, text)?))
}

/// The kinds of recipients and identities.
#[derive(Clone, Copy)]
pub enum Kind {
    Bench,
    Own,
}

// A recipient of this kind.
fn recipient(alloc: Global, kind: Kind) -> Result<Box<dyn Recipient>, AllocError> {
    match kind {
        Kind::Bench => Ok(Box::new(alloc, BenchRecipient)?),
        Kind::Own => Ok(Box::new(alloc, OwnRecipient)?),
    }
}

/// Recipients of these kinds.
pub fn recipients(alloc: Global, kinds: &[Kind]) -> Result<Vec<Box<dyn Recipient>>, AllocError> {
    let mut recipients: Vec<Box<dyn Recipient>> = Vec::new(alloc);
    for kind in kinds {
        recipients.push(recipient(alloc, *kind)?)?;
    }
    Ok(recipients)
}

// An identity of this kind.
fn identity(alloc: Global, kind: Kind) -> Result<Box<dyn Identity>, AllocError> {
    match kind {
        Kind::Bench => Ok(Box::new(alloc, BenchIdentity)?),
        Kind::Own => Ok(Box::new(alloc, OwnIdentity)?),
    }
}

/// Identities of these kinds.
pub fn identities(alloc: Global, kinds: &[Kind]) -> Result<Vec<Box<dyn Identity>>, AllocError> {
    let mut identities: Vec<Box<dyn Identity>> = Vec::new(alloc);
    for kind in kinds {
        identities.push(identity(alloc, *kind)?)?;
    }
    Ok(identities)
}

/// A grease stanza of this tag, with nothing else in it.
pub fn grease(alloc: Global, tag: &str) -> Result<Grease, Fail> {
    match empty_stanza(alloc, tag)?.and_then(Grease::new) {
        Some(grease) => Ok(grease),
        None => Err(Fail::from("no grease")),
    }
}

/// The file that the command writes of a plaintext in this form, where each random byte is 0.
pub fn commands_file(alloc: Global, plain: &[u8], format: Format) -> Result<Vec<u8>, Fail> {
    let draw = zeros(alloc, 32)?;
    let mut file = Vec::new(alloc);
    done(encrypt_to(
        alloc,
        To::Bench,
        draw,
        format,
        &mut Bytes::new(plain),
        &mut file,
    ))?;
    Ok(file)
}

/// An encryptor to these recipients whose grease stanza is `x-grease`.
pub fn prepared<S: Suite, T: Recipient>(
    alloc: Global,
    recipients: &[T],
    draw: &mut Draw,
) -> Result<Encryptor<S>, Fail> {
    let grease = grease(alloc, "x-grease")?;
    done(Encryptor::<S>::with_recipients(alloc, recipients, draw, grease))
}

/// The file of a plaintext, written in one piece.
pub fn written<S: Suite>(
    alloc: Global,
    encryptor: Encryptor<S>,
    plain: &[u8],
) -> Result<Vec<u8>, Fail> {
    let mut stream = encryptor.wrap_output(alloc, Vec::new(alloc))?;
    write_all(&mut stream, plain)?;
    Ok(stream.finish()?)
}

/// A header, a nonce of zeros, and the payload of the message.
pub fn file_of(alloc: Global, header: &[u8]) -> Result<Vec<u8>, AllocError> {
    let mut file = Vec::from_slice(alloc, header)?;
    file.extend_from_slice(&[0; 16])?;
    file.extend_from_slice(&SEALED)?;
    Ok(file)
}

/// Some bytes, with these bits of the one at a place changed.
pub fn changed(alloc: Global, bytes: &[u8], place: usize, bits: u8) -> Result<Vec<u8>, Fail> {
    let mut copy = Vec::from_slice(alloc, bytes)?;
    match copy.get_mut(place) {
        Some(byte) => *byte ^= bits,
        None => return Err(Fail::from("no such place")),
    }
    Ok(copy)
}

/// Puts a byte in the place of another. Whether that one stood there.
pub fn replace(bytes: &mut [u8], place: usize, from: u8, to: u8) -> bool {
    let Some(byte) = bytes.get_mut(place) else {
        return false;
    };
    if *byte != from {
        return false;
    }
    *byte = to;
    true
}

/// Whether it is a success, or, where a text is given, a refusal with this text.
pub fn is_answered<T: Drop, E: Display + Drop>(
    alloc: Global,
    answer: Result<T, E>,
    refusal: Option<&str>,
) -> bool {
    match refusal {
        Some(text) => is_refusal(alloc, answer, text),
        None => answer.is_ok(),
    }
}

/// Whether it is a refusal with the error that `Debug` writes so.
pub fn is_error<T: Drop, E: Debug + Drop>(
    alloc: Global,
    answer: Result<T, E>,
    error: &str,
) -> bool {
    match answer {
        Ok(_) => false,
        Err(it) => format!(in alloc; "{it:?}").is_ok_and(|text| text.as_str() == error),
    }
}

// Whether two lists of answers say the same.
fn are_same(answers: &[Answer], expected: &[Answer]) -> bool {
    for (answer, other) in answers.iter().zip(expected.iter()) {
        if answer != other {
            return false;
        }
    }
    answers.len() == expected.len()
}

/// Whether it is a success with these answers.
pub fn answers<E: Drop>(answer: Result<Vec<Answer>, E>, expected: &[Answer]) -> bool {
    match answer {
        Ok(got) => are_same(&got, expected),
        Err(_) => false,
    }
}

/// What one identity alone opens a file to.
pub fn opened_by<'a, S: Suite, I: Identity>(
    alloc: Global,
    identity: &mut I,
    file: &'a [u8],
) -> Result<StreamReader<S, Bytes<'a>>, DecryptError> {
    Decryptor::<S, Bytes>::new(alloc, Bytes::new(file))?.decrypt_one(alloc, identity)
}

/// Whether it is a success with a reader of these bytes, which stands at a clean end after them.
pub fn opens_to<R: Read + Drop, E: Drop>(
    alloc: Global,
    opened: Result<R, E>,
    plain: &[u8],
) -> bool {
    match opened {
        Ok(mut reader) => delivers(alloc, &mut reader, plain) && ends(&mut reader),
        Err(_) => false,
    }
}

/// Whether it is a success with a reader of these bytes and then a bad chunk, which has failed after it.
pub fn is_bad_after<R: Read + Drop, E: Drop>(
    alloc: Global,
    opened: Result<R, E>,
    front: &[u8],
) -> bool {
    match opened {
        Ok(mut reader) => {
            delivers_until(alloc, &mut reader, front, Error::BadChunk)
                && read_refuses(&mut reader, Error::Failed)
        }
        Err(_) => false,
    }
}

/// Whether a reader still has the payload of the message's file and these bytes.
pub fn gives_payload<R: Read>(
    alloc: Global,
    reader: &mut R,
    more: &[u8],
) -> Result<bool, AllocError> {
    let mut payload = Vec::from_slice(alloc, &SEALED)?;
    payload.extend_from_slice(more)?;
    Ok(delivers(alloc, reader, &payload))
}

/// Appends what the command decrypts of a file. Whether it succeeds, or, where a text is given, is refused with this text.
pub fn command_decrypts(
    alloc: Global,
    file: &[u8],
    plain: &mut Vec<u8>,
    refusal: Option<&str>,
) -> bool {
    is_answered(
        alloc,
        decrypt_with(alloc, With::Bench, &mut Bytes::new(file), plain),
        refusal,
    )
}

/// Whether the command decrypts a file to the message.
pub fn command_gives_message(alloc: Global, file: &[u8]) -> bool {
    let mut plain = Vec::new(alloc);
    command_decrypts(alloc, file, &mut plain, None) && plain.as_slice() == MESSAGE
}

/// Whether one call decrypts a file to the message.
pub fn call_gives_message(alloc: Global, file: &[u8]) -> bool {
    gives(
        decrypt::<BenchSuite, BenchIdentity>(alloc, &mut BenchIdentity, file),
        MESSAGE,
    )
}

/// Whether what an input holds is a file of a passphrase.
pub fn is_scrypt<R: BufRead + Drop>(alloc: Global, input: R) -> Result<bool, DecryptError> {
    Ok(Decryptor::<BenchSuite, R>::new_buffered(alloc, input)?.is_scrypt())
}
