//! The commands with X25519 keys: the key that random bytes make, and files for it.

use crate::done::is_done;
use age::armor::Format;
use age::draw::Draw;
use age::io::Bytes;
use age::streaming::FileError;
use age::x25519::{Identity, Recipient};
use age_bench::file::{decrypt_with, encrypt_to};
use age_bench::keygen::keygen;
use age_bench::names::{To, With};
use age_bench::part::at_with;
use age_bench::suite::BenchSuite;
use std::alloc::Global;
use std::process::Abort;
use std::str::FromStr;
use std::test::Fail;
use test_support::answers::is_refusal;

const MESSAGE: &[u8] = b"This is a test message. For testing.";

// A secret, and the text of its identity: age's own test key.
const SECRET: [u8; 32] = [
    0x40, 0x0b, 0xef, 0x1d, 0x80, 0x36, 0xf7, 0x26, 0x64, 0xf0, 0xb7, 0xa5, 0xa6, 0x2c, 0xfc, 0x95,
    0x6e, 0xd0, 0x76, 0x5c, 0x64, 0x13, 0x87, 0x63, 0x6f, 0x53, 0x4e, 0x8c, 0xb8, 0x1e, 0x50, 0x58,
];

const IDENTITY: &str = "AGE-SECRET-KEY-1GQ9778VQXMMJVE8SK7J6VT8UJ4HDQAJUVSFCWCM02D8GEWQ72PVQ2Y5J33";

// The text of its recipient under the bench suite, by BIP 173's encoder in Python: each byte of the secret with 5a.
const RECIPIENT: &str = "age1rfgm2376djkhc042ahllca4xeu6g5tqx8eya6wf4py2ddcjypgpquw0u5y";

// The identity of 32 zero bytes.
const OTHER: &str = "AGE-SECRET-KEY-1QQQQQQQQQQQQQQQQQQQQQQQQQQQQQQQQQQQQQQQQQQQQQQQQQQQQ8H00W3";

// So many random bytes: those of the secret from a place on, and ones elsewhere.
fn random(alloc: Global, count: usize, place: usize) -> Result<Vec<u8>, Fail> {
    let mut bytes = Vec::new(alloc);
    for i in 0..count {
        let byte = match i.checked_sub(place) {
            Some(at) if at < 32 => SECRET[at],
            _ => 1,
        };
        bytes.push(byte)?;
    }
    Ok(bytes)
}

// So many random bytes to draw, in which the secret stands at a place.
fn draw(alloc: Global, count: usize, place: usize) -> Result<Draw, Fail> {
    Ok(Draw::new(random(alloc, count, place)?))
}

// Whether so many random bytes make the line of the identity.
fn makes_key(alloc: Global, count: usize) -> Result<bool, Fail> {
    let draw = draw(alloc, count, 0)?;
    let mut line = Vec::new(alloc);
    let is_made = is_done(keygen(alloc, draw, &mut line));
    Ok(is_made && line.len() == 75 && line.strip_suffix(b"\n") == Some(IDENTITY.as_bytes()))
}

// Whether so many are too few, and nothing is written.
fn makes_none(alloc: Global, count: usize) -> Result<bool, Fail> {
    let draw = draw(alloc, count, 0)?;
    let mut line = Vec::new(alloc);
    let is_refused = is_refusal(
        alloc,
        keygen(alloc, draw, &mut line),
        "random bytes ran out",
    );
    Ok(is_refused && line.is_empty())
}

#[test]
fn keys_are_made(rt: HostRuntime) -> Result<(), Fail> {
    let alloc = rt.alloc();
    for count in [32, 33, 64] {
        assert!(rt; makes_key(alloc, count)?, "of {count} bytes");
    }
    assert!(rt; makes_none(alloc, 0)? && makes_none(alloc, 31)?);
    Ok(())
}

// The recipient of the secret, by its text.
fn recipient() -> Result<To, Fail> {
    Ok(To::Key(Recipient::<BenchSuite>::from_str(RECIPIENT)?))
}

// The identity of a text.
fn identity(text: &str) -> Result<With, Fail> {
    Ok(With::Key(Identity::<BenchSuite>::from_str(text)?))
}

// What comes of encrypting the message in this form.
fn encrypted(
    alloc: Global,
    to: To,
    draw: Draw,
    format: Format,
    file: &mut Vec<u8>,
) -> Result<(), FileError> {
    encrypt_to(alloc, to, draw, format, &mut Bytes::new(MESSAGE), file)
}

// The message encrypted to that recipient in this form.
fn file_in(alloc: Global, format: Format) -> Result<Vec<u8>, Fail> {
    let draw = draw(alloc, 64, 64)?;
    let to = recipient()?;
    let mut file = Vec::new(alloc);
    if is_done(encrypted(alloc, to, draw, format, &mut file)) {
        Ok(file)
    } else {
        Err(Fail::from("it wasn't encrypted"))
    }
}

// Whether the identity gives the message back.
fn comes_back(alloc: Global, file: &[u8]) -> Result<bool, Fail> {
    let with = identity(IDENTITY)?;
    let mut plain = Vec::new(alloc);
    let is_opened = is_done(decrypt_with(alloc, with, &mut Bytes::new(file), &mut plain));
    Ok(is_opened && plain.as_slice() == MESSAGE)
}

// Whether it gives a part of it.
fn part_comes_back(alloc: Global, file: &[u8]) -> Result<bool, Fail> {
    let with = identity(IDENTITY)?;
    let mut part = Vec::new(alloc);
    let is_opened = is_done(at_with(alloc, with, 5, 3, &mut Bytes::new(file), &mut part));
    Ok(is_opened && part.as_slice() == b"is ".as_slice())
}

// Whether another has no key, and gives nothing.
fn has_no_key(alloc: Global, other: With, file: &[u8]) -> bool {
    let mut nothing = Vec::new(alloc);
    let is_refused = is_refusal(
        alloc,
        decrypt_with(alloc, other, &mut Bytes::new(file), &mut nothing),
        "no matching keys",
    );
    is_refused && nothing.is_empty()
}

// Whether neither another identity nor `bench` has the key.
fn others_have_no_key(alloc: Global, file: &[u8]) -> Result<bool, Fail> {
    Ok(has_no_key(alloc, identity(OTHER)?, file) && has_no_key(alloc, With::Bench, file))
}

// Whether a file of this length is decrypted with the identity, and with no other.
fn is_decrypted(alloc: Global, file: &[u8], length: usize) -> Result<bool, Fail> {
    Ok(
        file.len() == length
            && comes_back(alloc, file)?
            && part_comes_back(alloc, file)?
            && others_have_no_key(alloc, file)?,
    )
}

#[test]
fn files_for_a_key_are_decrypted_with_it(rt: HostRuntime) -> Result<(), Fail> {
    let alloc = rt.alloc();
    assert!(rt; is_decrypted(alloc, &file_in(alloc, Format::Binary)?, 256)?);
    assert!(rt; is_decrypted(alloc, &file_in(alloc, Format::AsciiArmor)?, 418)?);
    Ok(())
}

// Whether encrypting with these random bytes in this form is refused with this text, and nothing is written.
fn is_refused(alloc: Global, draw: Draw, format: Format, text: &str) -> Result<bool, Fail> {
    let to = recipient()?;
    let mut file = Vec::new(alloc);
    let is_refused = is_refusal(alloc, encrypted(alloc, to, draw, format, &mut file), text);
    Ok(is_refused && file.is_empty())
}

// Whether so many random bytes are too few.
fn are_too_few(alloc: Global, count: usize) -> Result<bool, Fail> {
    let draw = draw(alloc, count, 64)?;
    is_refused(alloc, draw, Format::Binary, "random bytes ran out")
}

// An X25519 recipient wants 64 random bytes in all, of which 32 are its ephemeral secret.
#[test]
fn too_few_random_bytes_make_no_file(rt: HostRuntime) -> Result<(), Fail> {
    for count in [0, 15, 16, 47, 48, 63] {
        assert!(rt; are_too_few(rt.alloc(), count)?, "of {count} bytes");
    }
    Ok(())
}

// Whether so many random bytes, with the secret in them, share it with everybody.
fn are_shared(alloc: Global, count: usize) -> Result<bool, Fail> {
    let draw = draw(alloc, count, 16)?;
    is_refused(alloc, draw, Format::AsciiArmor, "shared secret is zero")
}

// The bench suite's shared secret is zero where both secrets are the same.
#[test]
fn a_secret_that_everybody_shares_makes_no_file(rt: HostRuntime) -> Result<(), Fail> {
    assert!(rt; are_shared(rt.alloc(), 48)? && are_shared(rt.alloc(), 64)?);
    Ok(())
}
