//! What command lines ask for.

use crate::words::{asked, is_no_command, names_nobody};
use age::armor::Format;
use age_bench::command::Command;
use age_bench::names::{To, With};
use std::alloc::{AllocError, Global};
use std::process::Abort;
use std::test::Fail;

// The bytes 0, 1, .., 31.
const KEY: [u8; 32] = [
    0, 1, 2, 3, 4, 5, 6, 7, 8, 9, 10, 11, 12, 13, 14, 15, 16, 17, 18, 19, 20, 21, 22, 23, 24, 25,
    26, 27, 28, 29, 30, 31,
];

// Whether a command line, split at its spaces, is no command.
fn is_no_command_line(alloc: Global, line: &str) -> Result<bool, AllocError> {
    let mut words = Vec::new(alloc);
    for word in line.split_whitespace() {
        words.push(word)?;
    }
    Ok(is_no_command(alloc, &words))
}

// Each line of a text is no command line.
fn none_is_command(rt: &impl Abort, alloc: Global, lines: &str) -> Result<(), Fail> {
    for line in lines.lines() {
        assert!(rt; is_no_command_line(alloc, line)?, "at {line}");
    }
    Ok(())
}

// Whether a format is armor.
fn is_armor(format: &Format) -> bool {
    match format {
        Format::Binary => false,
        Format::AsciiArmor => true,
    }
}

// Whether the command of these words encrypts to `bench` with these random bytes, in armor or not.
fn encrypts(alloc: Global, words: &[&str], random: &[u8], in_armor: bool) -> bool {
    match &asked(alloc, words) {
        Ok(
            Some(
                Command::Encrypt {
                    to: To::Bench,
                    draw,
                    format,
                },
            ),
        ) => draw.as_slice() == random && is_armor(format) == in_armor,
        _ => false,
    }
}

// Whether these digits are these random bytes, without armor and in it.
fn are_random(alloc: Global, digits: &str, random: &[u8]) -> bool {
    encrypts(alloc, &["encrypt", "bench", digits], random, false)
        && encrypts(alloc, &["encrypt", "bench", digits, "armor"], random, true)
}

// An empty word is no random bytes at all.
#[test]
fn no_random_bytes_are_parsed(rt: HostRuntime) -> Result<(), Fail> {
    assert!(rt; are_random(rt.alloc(), "", &[]));
    Ok(())
}

// Whether the command of these words seals, or opens, with the key.
fn has_key(alloc: Global, words: &[&str], to_seal: bool) -> bool {
    match &asked(alloc, words) {
        Ok(Some(Command::Seal { key })) => to_seal && *key == KEY,
        Ok(Some(Command::Open { key })) => !to_seal && *key == KEY,
        _ => false,
    }
}

// Whether the command of these words decrypts with `bench`.
fn decrypts(alloc: Global, words: &[&str]) -> bool {
    matches!(
        &asked(alloc, words),
        Ok(Some(Command::Decrypt { with: With::Bench }))
    )
}

// Whether these digits are the key, to seal and to open with.
fn are_key(alloc: Global, digits: &str) -> bool {
    has_key(alloc, &["seal", digits], true) && has_key(alloc, &["open", digits], false)
}

const DIGITS: &str = "000102030405060708090a0b0c0d0e0f101112131415161718191a1b1c1d1e1f";

const DIGITS_UPPER: &str = "000102030405060708090A0B0C0D0E0F101112131415161718191A1B1C1D1E1F";

#[test]
fn commands_are_parsed(rt: HostRuntime) -> Result<(), Fail> {
    let alloc = rt.alloc();
    assert!(rt; are_key(alloc, DIGITS) && are_key(alloc, DIGITS_UPPER));
    assert!(rt; are_random(alloc, "0AbC", &[0x0a, 0xbc]));
    assert!(rt; decrypts(alloc, &["decrypt", "bench"]));
    Ok(())
}

// The recipient of a public value, its text and that text in the other case.
const RECIPIENT: &str = "age1t7rxyev2z3rw82stdlrrepyc39nvn86l5078zqkf5uasdy86jp6svpy7pa";

const RECIPIENT_UPPER: &str = "AGE1T7RXYEV2Z3RW82STDLRREPYC39NVN86L5078ZQKF5UASDY86JP6SVPY7PA";

// The same of an identity.
const IDENTITY: &str = "AGE-SECRET-KEY-1GQ9778VQXMMJVE8SK7J6VT8UJ4HDQAJUVSFCWCM02D8GEWQ72PVQ2Y5J33";

const IDENTITY_LOWER: &str =
    "age-secret-key-1gq9778vqxmmjve8sk7j6vt8uj4hdqajuvsfcwcm02d8gewq72pvq2y5j33";

// Whether TO is the recipient.
fn is_recipient(alloc: Global, to: &To) -> Result<bool, AllocError> {
    match to {
        To::Key(recipient) => Ok(recipient.to_string(alloc)?.as_str() == RECIPIENT),
        To::Bench | To::Passphrase(_) => Ok(false),
    }
}

// Whether the command of these words encrypts to the recipient.
fn encrypts_to_recipient(alloc: Global, words: &[&str]) -> Result<bool, AllocError> {
    match &asked(alloc, words)? {
        Some(Command::Encrypt { to, .. }) => is_recipient(alloc, to),
        _ => Ok(false),
    }
}

// Whether a text names the recipient, without armor and in it.
fn names_recipient(alloc: Global, text: &str) -> Result<bool, AllocError> {
    Ok(
        encrypts_to_recipient(alloc, &["encrypt", text, "00"])?
            && encrypts_to_recipient(alloc, &["encrypt", text, "00", "armor"])?,
    )
}

// Whether WITH is the identity.
fn is_identity(alloc: Global, with: &With) -> Result<bool, AllocError> {
    match with {
        With::Key(identity) => Ok(identity.to_string(alloc)?.expose_secret() == IDENTITY),
        With::Bench | With::Passphrase(_) => Ok(false),
    }
}

// Whether the command of these words decrypts with the identity.
fn decrypts_with_identity(alloc: Global, words: &[&str]) -> Result<bool, AllocError> {
    match &asked(alloc, words)? {
        Some(Command::Decrypt { with }) => is_identity(alloc, with),
        Some(Command::At { with, .. }) => is_identity(alloc, with),
        _ => Ok(false),
    }
}

// Whether a text names the identity, for a whole file and for a part.
fn names_identity(alloc: Global, text: &str) -> Result<bool, AllocError> {
    Ok(
        decrypts_with_identity(alloc, &["decrypt", text])?
            && decrypts_with_identity(alloc, &["at", text, "1", "2"])?,
    )
}

#[test]
fn keys_are_named_by_their_texts(rt: HostRuntime) -> Result<(), Fail> {
    let alloc = rt.alloc();
    assert!(rt; names_recipient(alloc, RECIPIENT)? && names_recipient(alloc, RECIPIENT_UPPER)?);
    assert!(rt; names_identity(alloc, IDENTITY)? && names_identity(alloc, IDENTITY_LOWER)?);
    Ok(())
}

// Words that begin as a key but are none, a key of another length, and keys of plugins.
const NOBODY: &str = "Bench
age1
age1t7rxyev2z3rw82stdlrrepyc39nvn86l5078zqkf5uasdy86jp6svpy7pb
age1t7rxyev2z3rw82stdlrrepyc39nvn86l5078zqkf5uasdy86jp6svpy7p
Age1t7rxyev2z3rw82stdlrrepyc39nvn86l5078zqkf5uasdy86jp6svpy7pa
A12UEL5L
age1foobar1qqqsyqcyq5rqwzfl7kp
AGE-SECRET-KEY-1GQ9778VQXMMJVE8SK7J6VT8UJ4HDQAJUVSFCWCM02D8GEWQ72PVQ2Y5J34
AGE-PLUGIN-FOOBAR-1QVHULF";

// Also a key in the place of the other.
#[test]
fn other_words_name_nobody(rt: HostRuntime) -> Result<(), Fail> {
    let alloc = rt.alloc();
    for word in NOBODY.lines() {
        assert!(rt; names_nobody(alloc, word), "at {word}");
    }
    assert!(rt;
        is_no_command(alloc, &["encrypt", IDENTITY, "00"])
            && is_no_command(alloc, &["decrypt", RECIPIENT])
    );
    Ok(())
}

// Whether the command of these words makes a key with these random bytes.
fn makes_key(alloc: Global, words: &[&str], random: &[u8]) -> bool {
    match &asked(alloc, words) {
        Ok(Some(Command::Keygen { draw })) => draw.as_slice() == random,
        _ => false,
    }
}

#[test]
fn keys_are_asked_for(rt: HostRuntime) -> Result<(), Fail> {
    assert!(rt; makes_key(rt.alloc(), &["keygen", "0AbC"], &[0x0a, 0xbc]));
    none_is_command(
        &rt,
        rt.alloc(),
        "keygen
keygen 0
keygen 0g
keygen 00 00
Keygen 00",
    )
}

// The first line is empty.
#[test]
fn wrong_command_lines_are_refused(rt: HostRuntime) -> Result<(), Fail> {
    none_is_command(
        &rt,
        rt.alloc(),
        "
seal
open
seal 000102030405060708090a0b0c0d0e0f101112131415161718191a1b1c1d1e1
seal 000102030405060708090a0b0c0d0e0f101112131415161718191a1b1c1d1e1f0
seal 000102030405060708090a0b0c0d0e0f101112131415161718191a1b1c1d1e1g
open 000102030405060708090a0b0c0d0e0f101112131415161718191a1b1c1d1e/f
open 000102030405060708090a0b0c0d0e0f101112131415161718191a1b1c1d1e\u{e9}
seal 000102030405060708090a0b0c0d0e0f101112131415161718191a1b1c1d1e1f 0
Seal 000102030405060708090a0b0c0d0e0f101112131415161718191a1b1c1d1e1f
mend 000102030405060708090a0b0c0d0e0f101112131415161718191a1b1c1d1e1f
000102030405060708090a0b0c0d0e0f101112131415161718191a1b1c1d1e1f seal
encrypt bench
encrypt bench 0
encrypt bench 0g
encrypt other 00
encrypt bench armor
encrypt bench 0 armor
encrypt other 00 armor
encrypt bench 00 Armor
encrypt bench 00 binary
encrypt bench 00 armor armor
decrypt
decrypt other
decrypt bench 00
decrypt bench armor
at bench",
    )
}

// Whether `at bench` and these two words ask for a part from this place on, of so many bytes.
fn asks_for_part(alloc: Global, words: (&str, &str), part: (u64, u64)) -> bool {
    match &asked(alloc, &["at", "bench", words.0, words.1]) {
        Ok(
            Some(
                Command::At {
                    with: With::Bench,
                    place,
                    count,
                },
            ),
        ) => (*place, *count) == part,
        _ => false,
    }
}

// Whether a word is this number, as a place and as a count.
fn is_number(alloc: Global, word: &str, number: u64) -> bool {
    asks_for_part(alloc, (word, "2"), (number, 2)) && asks_for_part(alloc, ("3", word), (3, number))
}

// Whether a word is no number, as a place and as a count.
fn is_no_number(alloc: Global, word: &str) -> bool {
    is_no_command(alloc, &["at", "bench", word, "2"])
        && is_no_command(alloc, &["at", "bench", "3", word])
}

const NUMBERS: [(&str, u64); 5] = [
    ("0", 0),
    ("7", 7),
    ("10", 10),
    ("0000000000000000000000000123", 123),
    ("18446744073709551615", u64::MAX),
];

const NO_NUMBERS: [&str; 13] = [
    "18446744073709551616",
    "18446744073709551620",
    "99999999999999999999",
    "340282366920938463463374607431768211456",
    "",
    "+1",
    "-1",
    " 1",
    "1 ",
    "1_000",
    "0x1",
    "1a",
    "\u{663}",
];

#[test]
fn places_and_counts_are_decimal(rt: HostRuntime) -> Result<(), Fail> {
    for (word, number) in NUMBERS {
        assert!(rt; is_number(rt.alloc(), word, number), "at {word}");
    }
    for word in NO_NUMBERS {
        assert!(rt; is_no_number(rt.alloc(), word), "at {word}");
    }
    Ok(())
}
