//! The commands with a passphrase, by the words of a command line. The expected bytes are those of Python, from the format's own words.

use crate::done::{found, is_done};
use crate::words::{asked, names_nobody};
use age::armor::Format;
use age::draw::Draw;
use age::io::{Bytes, Error};
use age::scrypt::Recipient;
use age::secrecy::SecretString;
use age::streaming::FileError;
use age_bench::command::Command;
use age_bench::file::{decrypt_with, encrypt_to};
use age_bench::names::To;
use age_bench::part::at_with;
use std::alloc::Global;
use std::process::Abort;
use std::test::Fail;
use test_support::answers::is_refusal;
use test_support::fixtures::{MESSAGE, digest, zeros};

const WORD: &str = "pass=correct horse";

const IDENTITY: &str = "AGE-SECRET-KEY-1GQ9778VQXMMJVE8SK7J6VT8UJ4HDQAJUVSFCWCM02D8GEWQ72PVQ2Y5J33";

// The header of the message's file for that word, where each random byte is 0.
const HEADER: &[u8] =
    b"age-encryption.org/v1\n-> scrypt AAAAAAAAAAAAAAAAAAAAAA 10\nXMo9UYTFFgkpCpmsdHlIM5/W0hYXn1BbZnv0Q3kl82o\n--- OYcv5rOrwoJ2JGRsY7wui/ipHM33H1JfEIQQIqZefyE\n";

// What a command for a file does. Any other is refused.
fn ran(
    alloc: Global,
    command: Command,
    input: &[u8],
    output: &mut Vec<u8>,
) -> Result<(), FileError> {
    let mut input = Bytes::new(input);
    match command {
        Command::Encrypt { to, draw, format } => {
            encrypt_to(alloc, to, Draw::new(draw), format, &mut input, output)
        }
        Command::Decrypt { with } => decrypt_with(alloc, with, &mut input, output),
        Command::At { with, place, count } => {
            at_with(alloc, with, place, count, &mut input, output)
        }
        _other => Err(FileError::Io(Error::Failed)),
    }
}

// What these words ask for.
fn command(alloc: Global, words: &[&str]) -> Result<Command, Fail> {
    found(asked(alloc, words)?, "a wrong command line")
}

// What the command of these words writes.
fn written(alloc: Global, words: &[&str], input: &[u8]) -> Result<Vec<u8>, Fail> {
    let mut output = Vec::new(alloc);
    if is_done(ran(alloc, command(alloc, words)?, input, &mut output)) {
        Ok(output)
    } else {
        Err(Fail::from("a refusal"))
    }
}

// Whether the command of these words writes this.
fn writes(alloc: Global, words: &[&str], input: &[u8], output: &[u8]) -> Result<bool, Fail> {
    Ok(written(alloc, words, input)?.as_slice() == output)
}

// Whether the command of these words refuses with this text, and writes nothing.
fn refuses(alloc: Global, words: &[&str], input: &[u8], text: &str) -> Result<bool, Fail> {
    let mut output = Vec::new(alloc);
    let answer = ran(alloc, command(alloc, words)?, input, &mut output);
    let is_refused = is_refusal(alloc, answer, text);
    Ok(is_refused && output.is_empty())
}

// So many random bytes that are zero, in hexadecimal.
fn zero_digits(alloc: Global, count: usize) -> Result<String, Fail> {
    let mut digits = String::new(alloc);
    for _ in 0..count {
        digits.push_str("00")?;
    }
    Ok(digits)
}

// The message encrypted to a word.
fn encrypted(alloc: Global, word: &str) -> Result<Vec<u8>, Fail> {
    let draw = zero_digits(alloc, 72)?;
    written(alloc, &["encrypt", word, draw.as_str()], MESSAGE)
}

// The same in armor.
fn armored(alloc: Global, word: &str) -> Result<Vec<u8>, Fail> {
    let draw = zero_digits(alloc, 72)?;
    written(alloc, &["encrypt", word, draw.as_str(), "armor"], MESSAGE)
}

#[test]
fn a_message_has_its_file(rt: HostRuntime) -> Result<(), Fail> {
    let file = encrypted(rt.alloc(), WORD)?;
    assert!(rt; file.len() == 218 && file.starts_with(HEADER));
    Ok(())
}

// Whether a file has this length and these bytes, and gives the message back to the same word.
fn comes_back(
    alloc: Global,
    word: &str,
    file: &[u8],
    length: usize,
    digest_of: u64,
) -> Result<bool, Fail> {
    Ok(
        file.len() == length
            && digest(file) == digest_of
            && writes(alloc, &["decrypt", word], file, MESSAGE)?
            && writes(alloc, &["at", word, "5", "3"], file, b"is ")?,
    )
}

// Whether the files for a word, without armor and in it, have these bytes, and give the message back.
fn both_come_back(alloc: Global, word: &str, binary: u64, ascii: u64) -> Result<bool, Fail> {
    Ok(
        comes_back(alloc, word, &encrypted(alloc, word)?, 218, binary)?
            && comes_back(alloc, word, &armored(alloc, word)?, 365, ascii)?,
    )
}

// A word, and the digests of the files for it.
const FILES: [(&str, u64, u64); 5] = [
    (
        "pass=correct horse",
        0xe270_b706_a362_7511,
        0x5285_acb2_2040_d858,
    ),
    ("pass=", 0xd5be_a7f4_7d15_4092, 0xd912_95e6_9d55_829d),
    ("pass=pass=x", 0x0fe3_02ab_941f_77a4, 0x2958_4a6d_6f95_06cf),
    ("pass=x y\tz ", 0x160f_a49c_33ed_f910, 0x6953_6771_6a2b_e8fa),
    (
        "pass=\u{5bc6}\u{7801} \u{e9}",
        0x6e3b_66b8_6424_b301,
        0xa401_1371_c027_9b05,
    ),
];

// What follows the first `pass=` is the passphrase, also nothing, spaces, and letters of several bytes.
#[test]
fn files_for_a_passphrase_are_decrypted_with_it(rt: HostRuntime) -> Result<(), Fail> {
    for (word, binary, ascii) in FILES {
        assert!(rt;
            both_come_back(rt.alloc(), word, binary, ascii)?,
            "at {word}"
        );
    }
    Ok(())
}

// Whether a file isn't decrypted with this word, nor a part of it.
fn fails_with(alloc: Global, word: &str, file: &[u8]) -> Result<bool, Fail> {
    Ok(
        refuses(alloc, &["decrypt", word], file, "decryption failed")?
            && refuses(alloc, &["at", word, "5", "3"], file, "decryption failed")?,
    )
}

const OTHER_WORDS: [&str; 4] = [
    "pass=correct horse ",
    "pass=Correct horse",
    "pass=correct hors",
    "pass=",
];

#[test]
fn another_passphrase_fails(rt: HostRuntime) -> Result<(), Fail> {
    let file = encrypted(rt.alloc(), WORD)?;
    for other in OTHER_WORDS {
        assert!(rt; fails_with(rt.alloc(), other, &file)?, "at {other}");
    }
    Ok(())
}

// Whether decrypting a file for one word with another finds no key, and writes nothing.
fn finds_no_key(alloc: Global, to: &str, with: &str) -> Result<bool, Fail> {
    let file = encrypted(alloc, to)?;
    refuses(alloc, &["decrypt", with], &file, "no matching keys")
}

// A file of another kind has no stanza for a passphrase, and one for a passphrase none for others.
#[test]
fn other_kinds_of_files_dont_match(rt: HostRuntime) -> Result<(), Fail> {
    let alloc = rt.alloc();
    assert!(rt; finds_no_key(alloc, "bench", WORD)?);
    assert!(rt; finds_no_key(alloc, WORD, "bench")? && finds_no_key(alloc, WORD, IDENTITY)?);
    Ok(())
}

// Whether so many random bytes are too few.
fn are_too_few(alloc: Global, count: usize) -> Result<bool, Fail> {
    let draw = zero_digits(alloc, count)?;
    let words = ["encrypt", WORD, draw.as_str()];
    refuses(alloc, &words, MESSAGE, "random bytes ran out")
}

// 16 random bytes for the file key, 16 for the salt, 24 for the label, 16 for the nonce.
#[test]
fn too_few_random_bytes_make_no_file(rt: HostRuntime) -> Result<(), Fail> {
    for count in [0, 15, 16, 31, 32, 55, 56, 71] {
        assert!(rt; are_too_few(rt.alloc(), count)?, "of {count} bytes");
    }
    Ok(())
}

const NO_PASSPHRASES: [&str; 8] = [
    "pass", "Pass=x", "PASS=x", " pass=x", "pass =x", "pass:x", "=x", "",
];

#[test]
fn other_words_name_no_passphrase(rt: HostRuntime) -> Result<(), Fail> {
    for word in NO_PASSPHRASES {
        assert!(rt; names_nobody(rt.alloc(), word), "at {word}");
    }
    Ok(())
}

// Whom the passphrase names with this work factor.
fn to_passphrase(alloc: Global, factor: u8) -> Result<To, Fail> {
    if factor < 1 || factor > 63 {
        return Err(Fail::from("no work factor"));
    }
    let passphrase = SecretString::from(String::from_str(alloc, "correct horse")?);
    Ok(To::Passphrase(Recipient::new(passphrase, factor)))
}

// What comes of encrypting the message, with these random bytes.
fn encrypted_to(alloc: Global, to: To, draw: Draw, file: &mut Vec<u8>) -> Result<(), FileError> {
    let mut input = Bytes::new(MESSAGE);
    encrypt_to(alloc, to, draw, Format::Binary, &mut input, file)
}

// Whether a file with this work factor has these bytes, and gives the message back.
fn is_accepted(alloc: Global, factor: u8, digest_of: u64) -> Result<bool, Fail> {
    let to = to_passphrase(alloc, factor)?;
    let draw = zeros(alloc, 72)?;
    let mut file = Vec::new(alloc);
    let is_made = is_done(encrypted_to(alloc, to, draw, &mut file));
    Ok(is_made && digest(&file) == digest_of && writes(alloc, &["decrypt", WORD], &file, MESSAGE)?)
}

// Whether this work factor is refused, and nothing is written.
fn is_too_much(alloc: Global, factor: u8) -> Result<bool, Fail> {
    let to = to_passphrase(alloc, factor)?;
    let draw = zeros(alloc, 72)?;
    let mut file = Vec::new(alloc);
    let is_refused = is_refusal(
        alloc,
        encrypted_to(alloc, to, draw, &mut file),
        "work factor refused",
    );
    Ok(is_refused && file.is_empty())
}

// The bench suite accepts work factors up to 20.
#[test]
fn a_work_factor_may_be_refused(rt: HostRuntime) -> Result<(), Fail> {
    assert!(rt; is_accepted(rt.alloc(), 20, 0xfccf_a006_8768_548a)?);
    assert!(rt; is_too_much(rt.alloc(), 21)?);
    Ok(())
}
