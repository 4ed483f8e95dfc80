//! What the words of a command line ask for.

ghost use Rattle.std.specs.Prelude.{◌≡◌, ◌≢◌, ◌<◌, ℕ, List, [], ◌∷◌, length, MatchOption, map, string_bytes, vec_items, bytes_eq, codes, if◌then◌else◌, Option, Some, None, IfOk, IfSome, option_map};
ghost use Rattle.age_bench.specs.declared.names.To.{To};
ghost use Rattle.age_bench.specs.Command.{Seal, Open, CommandValue, hex_bytes, byte_of, command_value, digit_of, key_word, AsksFor, AsksToEncrypt, InFormat, NamesTo, NamesWith, passphrase_word};

use crate::names::{To, With};
use crate::number::parse_number;
use age::armor::Format;
use age::scrypt;
use age::secrecy::SecretString;
use age::x25519::{Identity, Recipient};
use std::alloc::{AllocError, Global};
use std::str::FromStr;

/// What the program is to do with its standard input.
#[derive(Drop)]
pub enum Command {
    /// Write the payload of the input under the key.
    Seal {
        key: [u8; 32],
    },
    /// Write the plaintext of the payload that the input is under the key.
    Open {
        key: [u8; 32],
    },
    /// Write the input encrypted to a recipient, with these random bytes, in this form.
    Encrypt {
        to: To,
        draw: Vec<u8>,
        format: Format,
    },
    /// Write the plaintext of the file that the input is or carries, decrypted with an identity.
    Decrypt {
        with: With,
    },
    /// Write so many bytes of that plaintext from a place on, or fewer at its end.
    At {
        with: With,
        place: u64,
        count: u64,
    },
    /// Write the text of a new identity, whose secret these random bytes begin with.
    Keygen {
        draw: Vec<u8>,
    },
}

// The value of a hexadecimal digit of either case.
fn digit_value(digit: u8) -> Option<u8>
    ensures value { result ≡ digit_of digit }
    ensures small { IfSome result (λ value. value < 16) }
{
    match digit {
        b'0'..=b'9' => Some(digit - b'0'),
        b'a'..=b'f' => Some(digit - b'a' + 10),
        b'A'..=b'F' => Some(digit - b'A' + 10),
        _ => None,
    }
}

// The byte that two hexadecimal digits write.
fn byte_value(high: u8, low: u8) -> Option<u8>
    ensures { result ≡ byte_of high low }
{
    Some(16 * digit_value(high)? + digit_value(low)?)
}

// The bytes that a text of hexadecimal digits writes, two digits a byte.
fn parse_bytes(alloc: Global, text: &[u8]) -> Result<Option<Vec<u8>>, AllocError>
    ensures { IfOk result (λ found. option_map vec_items found ≡ hex_bytes text.now) }
{
    if text.len() % 2 != 0 {
        return Ok(None);
    }
    let mut bytes = Vec::with_capacity(alloc, text.len() / 2)?;
    for i in 0..text.len() / 2 {
        let Some(byte) = byte_value(text[2 * i], text[2 * i + 1]) else {
            return Ok(None);
        };
        bytes.push(byte)?;
    }
    Ok(Some(bytes))
}

// The key that 64 hexadecimal digits write.
#[tactic(auto, using(crate::proofs::Hex::key_found, crate::proofs::Hex::no_key))]
fn parse_key(alloc: Global, text: &str) -> Result<Option<[u8; 32]>, AllocError>
    ensures { IfOk result (λ found. found ≡ key_word text.now) }
{
    if text.len() != 64 {
        return Ok(None);
    }
    let Some(bytes) = parse_bytes(alloc, text.as_bytes())? else {
        return Ok(None);
    };
    match <[u8; 32]>::try_from(bytes.as_slice()) {
        Ok(key) => Ok(Some(key)),
        Err(_) => Ok(None),
    }
}

// The passphrase that a word names.
fn passphrase_of(word: &str) -> Option<&str>
    ensures { MatchOption result ((passphrase : List ℕ) → word.now ≢ passphrase_word passphrase)
        (λ passphrase. word.now ≡ passphrase_word passphrase.now) }
{
    word.strip_prefix("pass=")
}

// A text that is kept secret.
fn secret(alloc: Global, text: &str) -> Result<SecretString, AllocError>
    ensures { IfOk result (λ secret. secret ≡ text.now) }
{
    Ok(SecretString::from(String::from_str(alloc, text)?))
}

// The recipient that a word names.
fn parse_to(alloc: Global, word: &str) -> Result<Option<To>, AllocError>
    ensures { IfOk result (λ found. NamesTo word.now found) }
{
    if word == "bench" {
        return Ok(Some(To::Bench));
    }
    if let Some(passphrase) = passphrase_of(word) {
        let recipient = scrypt::Recipient::new(secret(alloc, passphrase)?, 10);
        return Ok(Some(To::Passphrase(recipient)));
    }
    match Recipient::from_str(word) {
        Ok(recipient) => Ok(Some(To::Key(recipient))),
        Err(_) => Ok(None),
    }
}

// The identity that a word names.
fn parse_with(alloc: Global, word: &str) -> Result<Option<With>, AllocError>
    ensures { IfOk result (λ found. NamesWith word.now found) }
{
    if word == "bench" {
        return Ok(Some(With::Bench));
    }
    if let Some(passphrase) = passphrase_of(word) {
        let identity = scrypt::Identity::new(secret(alloc, passphrase)?, 18);
        return Ok(Some(With::Passphrase(identity)));
    }
    match Identity::from_str(word) {
        Ok(identity) => Ok(Some(With::Key(identity))),
        Err(_) => Ok(None),
    }
}

// The command of this name with this key.
fn named(name: &str, key: [u8; 32]) -> Option<Command>
    ensures { option_map command_value result ≡ (if bytes_eq name.now (codes "seal") then Some (Seal key)
        else if bytes_eq name.now (codes "open") then Some (Open key) else None) }
{
    match name {
        "seal" => Some(Command::Seal { key }),
        "open" => Some(Command::Open { key }),
        _ => None,
    }
}

// `decrypt WITH`, `keygen DRAW`, `seal KEY` and `open KEY`.
fn parse_two(alloc: Global, name: &str, word: &str) -> Result<Option<Command>, AllocError>
    ensures { IfOk result (λ found. AsksFor (name.now ∷ word.now ∷ []) (option_map command_value found)) }
{
    if name == "decrypt" {
        let with = parse_with(alloc, word)?;
        return Ok(with.map(|with| Command::Decrypt { with }));
    }
    if name == "keygen" {
        let draw = parse_bytes(alloc, word.as_bytes())?;
        return Ok(draw.map(|draw| Command::Keygen { draw }));
    }
    match parse_key(alloc, word)? {
        Some(key) => Ok(named(name, key)),
        None => Ok(None),
    }
}

// The form that the words after `encrypt TO DRAW` ask for: none of them for the bytes themselves, `armor` for armor.
fn parse_format(words: &[String]) -> Option<Format>
    ensures { (to draw : List ℕ) (asked : Option CommandValue) → InFormat to draw result asked
        → AsksFor (codes "encrypt" ∷ to ∷ draw ∷ map string_bytes words.now) asked }
{
    let Some((word, more)) = words.split_first() else {
        return Some(Format::Binary);
    };
    if more.is_empty() && word.as_str() == "armor" {
        Some(Format::AsciiArmor)
    } else {
        None
    }
}

// `encrypt TO DRAW` and `encrypt TO DRAW armor`.
fn parse_encrypt(
    alloc: Global,
    to: &str,
    draw: &str,
    format: Format,
) -> Result<Option<Command>, AllocError>
    ensures { IfOk result (λ found. AsksToEncrypt to.now draw.now format (option_map command_value found)) }
{
    let Some(to) = parse_to(alloc, to)? else {
        return Ok(None);
    };
    match parse_bytes(alloc, draw.as_bytes())? {
        Some(draw) => Ok(Some(Command::Encrypt { to, draw, format })),
        None => Ok(None),
    }
}

// `at WITH PLACE COUNT`.
fn parse_at(
    alloc: Global,
    with: &str,
    place: &str,
    more: &[String],
) -> Result<Option<Command>, AllocError>
    ensures { IfOk result (λ found. AsksFor (codes "at" ∷ with.now ∷ place.now ∷ map string_bytes more.now) (option_map command_value found)) }
{
    let Some((count, rest)) = more.split_first() else {
        return Ok(None);
    };
    if !rest.is_empty() {
        return Ok(None);
    }
    let Some(with) = parse_with(alloc, with)? else {
        return Ok(None);
    };
    let Some(place) = parse_number(place.as_bytes()) else {
        return Ok(None);
    };
    let Some(count) = parse_number(count.as_str().as_bytes()) else {
        return Ok(None);
    };
    Ok(Some(Command::At { with, place, count }))
}

// A command that hasn't two words.
#[tactic(auto, using(crate::proofs::Words::few))]
fn parse_many(alloc: Global, words: &[String]) -> Result<Option<Command>, AllocError>
    ensures { length words.now ≢ 2 → IfOk result (λ found. AsksFor (map string_bytes words.now) (option_map command_value found)) }
{
    let [name, second, third, more @ ..] = words else {
        return Ok(None);
    };
    if name.as_str() == "at" {
        return parse_at(alloc, second.as_str(), third.as_str(), more);
    }
    if name.as_str() != "encrypt" {
        return Ok(None);
    }
    let Some(format) = parse_format(more) else {
        return Ok(None);
    };
    parse_encrypt(alloc, second.as_str(), third.as_str(), format)
}

/// What the words after the program's name ask for: `seal KEY`, `open KEY`, `encrypt TO DRAW`, `encrypt TO DRAW armor`,
/// `decrypt WITH`, `at WITH PLACE COUNT` or `keygen DRAW`.
///
/// KEY is 64 hexadecimal digits of either case, two a byte, the high digit first, and DRAW so any number of bytes. TO is `bench`, the
/// text of an X25519 recipient, or `pass=` and a passphrase, for which the work factor is 10. WITH is `bench`, the text of an X25519
/// identity, or `pass=` and a passphrase, with the target 18, so that work factors up to 22 are taken. The texts of keys are taken in
/// either case. What follows `pass=` in the word is the passphrase, byte by byte, and with nothing after it that is empty. PLACE and
/// COUNT are one or more decimal digits, leading zeros among them, of at most 2^64 - 1. `Ok(None)` says that they are no command line
/// of this program. `AllocError` where memory for the bytes of KEY, of DRAW or of a passphrase is refused.
pub fn parse(alloc: Global, words: &[String]) -> Result<Option<Command>, AllocError>
    ensures { IfOk result (λ found. AsksFor (map string_bytes words.now) (option_map command_value found)) }
{
    let [name, word] = words else {
        return parse_many(alloc, words);
    };
    parse_two(alloc, name.as_str(), word.as_str())
}
