//! Whole files to `bench`. The expected bytes are those of Python, from the format's own words.

use crate::shared::{
    Kind, command_gives_message, commands_file, gives_payload, grease, identities, is_answered,
    opens_to, prepared, recipients, replace, written,
};
use age::armor::Format;
use age::draw::Draw;
use age::format::Grease;
use age::io::Bytes;
use age::stream::StreamReader;
use age::streaming::{FileError, decrypt_all, encrypt_all};
use age::{DecryptError, Decryptor, Identity, Recipient};
use age_bench::suite::BenchSuite;
use std::alloc::{AllocError, Global};
use std::test::Fail;
use test_support::answers::{gives, is_refusal};
use test_support::fixtures::{MESSAGE, message_file, part, zeros};

// The file of the message by these random bytes, written in one piece.
fn message_written(alloc: Global, draw: &mut Draw) -> Result<Vec<u8>, Fail> {
    let recipients = recipients(alloc, &[Kind::Bench])?;
    let encryptor = prepared::<BenchSuite, Box<dyn Recipient>>(alloc, &recipients, draw)?;
    written(alloc, encryptor, MESSAGE)
}

// Whether that is the file that is expected.
fn has_its_file(alloc: Global, draw: &mut Draw) -> Result<bool, Fail> {
    let file = message_written(alloc, draw)?;
    Ok(gives(message_file(alloc, &[]), &file))
}

#[test]
fn a_message_has_its_file(rt: HostRuntime) -> Result<(), Fail> {
    let alloc = rt.alloc();
    let mut draw = zeros(alloc, 33)?;
    assert!(rt; has_its_file(alloc, &mut draw)? && draw.left() == 1);
    Ok(())
}

/// The reader of a file's plaintext.
pub fn opened<'a>(
    alloc: Global,
    file: &'a [u8],
    identities: &mut [Box<dyn Identity>],
) -> Result<StreamReader<BenchSuite, Bytes<'a>>, DecryptError> {
    let decryptor = Decryptor::<BenchSuite, Bytes>::new(alloc, Bytes::new(file))?;
    decryptor.decrypt(alloc, identities)
}

// Whether the identity of `bench` opens a file to the message.
fn is_opened(alloc: Global, file: &[u8]) -> Result<bool, AllocError> {
    let mut identities = identities(alloc, &[Kind::Bench])?;
    Ok(opens_to(alloc, opened(alloc, file, &mut identities), MESSAGE))
}

#[test]
fn a_file_has_its_message(rt: HostRuntime) -> Result<(), Fail> {
    let alloc = rt.alloc();
    assert!(rt; MESSAGE.len() == 36 && is_opened(alloc, &message_file(alloc, &[])?)?);
    Ok(())
}

// Encrypts, and says what that answers.
fn encrypted(
    alloc: Global,
    recipients: &[Box<dyn Recipient>],
    draw: &mut Draw,
    grease: Grease,
    plain: &[u8],
    file: &mut Vec<u8>,
) -> Result<(), FileError> {
    encrypt_all::<BenchSuite, Box<dyn Recipient>, Bytes, Vec<u8>>(
        alloc,
        recipients,
        draw,
        grease,
        Format::Binary,
        &mut Bytes::new(plain),
        file,
    )
}

// Appends the file of a plaintext by so many random bytes. Whether it succeeds, or, where a text is given, is refused with this text.
fn appends(
    alloc: Global,
    plain: &[u8],
    random: usize,
    file: &mut Vec<u8>,
    refusal: Option<&str>,
) -> Result<bool, Fail> {
    let recipients = recipients(alloc, &[Kind::Bench])?;
    let mut draw = zeros(alloc, random)?;
    let grease = grease(alloc, "agebench-grease")?;
    let answer = encrypted(alloc, &recipients, &mut draw, grease, plain, file);
    Ok(is_answered(alloc, answer, refusal))
}

// Whether encrypting with so many random bytes gives so many bytes of file, or this text and nothing.
fn encrypts(
    alloc: Global,
    plain: &[u8],
    random: usize,
    expected: Result<usize, &str>,
) -> Result<bool, Fail> {
    let mut file = Vec::new(alloc);
    let answered = appends(alloc, plain, random, &mut file, expected.err())?;
    Ok(answered && file.len() == expected.unwrap_or(0))
}

const RAN_OUT: Result<usize, &str> = Err("random bytes ran out");

// A plaintext, how many random bytes there are for its file, and how long that is, or why there is none.
const LENGTHS: [(&[u8], usize, Result<usize, &str>); 7] = [
    (MESSAGE, 32, Ok(190)),
    (b"", 32, Ok(154)),
    (MESSAGE, 33, Ok(190)),
    (MESSAGE, 31, RAN_OUT),
    (MESSAGE, 16, RAN_OUT),
    (MESSAGE, 15, RAN_OUT),
    (MESSAGE, 0, RAN_OUT),
];

#[test]
fn files_have_their_lengths(rt: HostRuntime) -> Result<(), Fail> {
    for (plain, random, expected) in LENGTHS {
        assert!(rt; encrypts(rt.alloc(), plain, random, expected)?);
    }
    Ok(())
}

// Whether the command writes a file of the message, and decrypts it again.
fn command_turns_back(alloc: Global) -> Result<bool, Fail> {
    let file = commands_file(alloc, MESSAGE, Format::Binary)?;
    Ok(file.len() == 190 && command_gives_message(alloc, &file))
}

#[test]
fn the_commands_turn_each_other_back(rt: HostRuntime) -> Result<(), Fail> {
    assert!(rt; command_turns_back(rt.alloc())?);
    Ok(())
}

// Decrypts, and says what that answers.
fn decrypted(
    alloc: Global,
    identities: &mut [Box<dyn Identity>],
    file: &[u8],
    plain: &mut Vec<u8>,
) -> Result<(), FileError> {
    decrypt_all::<BenchSuite, Box<dyn Identity>, Bytes, Vec<u8>>(
        alloc,
        identities,
        &mut Bytes::new(file),
        plain,
    )
}

// Whether decrypting is refused with this text, before anything is written.
fn is_refused(alloc: Global, file: &[u8], expected: &str) -> Result<bool, AllocError> {
    let mut identities = identities(alloc, &[Kind::Bench])?;
    let mut plain = Vec::new(alloc);
    let answer = decrypted(alloc, &mut identities, file, &mut plain);
    Ok(is_refusal(alloc, answer, expected) && plain.is_empty())
}

// One bit of the MAC, in a column that has no unused bits.
#[test]
fn a_changed_mac_is_refused(rt: HostRuntime) -> Result<(), Fail> {
    let alloc = rt.alloc();
    let mut file = message_file(alloc, &[])?;
    assert!(rt; replace(&mut file, 71, b'V', b'U'));
    assert!(rt; is_refused(alloc, &file, "invalid header MAC")?);
    Ok(())
}

// How much of a file is left, and why it is refused.
const CUT: [(usize, &str); 10] = [
    (0, "input ended early"),
    (1, "input ended early"),
    (21, "input ended early"),
    (22, "input ended early"),
    (70, "input ended early"),
    (114, "input ended early"),
    (115, "input ended early"),
    (116, "input ended early"),
    (130, "input ended early"),
    (131, "age file is truncated"),
];

#[test]
fn files_cut_in_their_front_end_early(rt: HostRuntime) -> Result<(), Fail> {
    let alloc = rt.alloc();
    let file = message_file(alloc, &[])?;
    for (length, expected) in CUT {
        assert!(rt; is_refused(alloc, part(&file, 0, length), expected)?);
    }
    Ok(())
}

// Whether a file is refused with this text that has a stanza of a passphrase beside another, a MAC that is nobody's, and so many bytes
// after the header, at most 16.
fn is_refused_beside_passphrase(
    alloc: Global,
    after: usize,
    expected: &str,
) -> Result<bool, AllocError> {
    let mut file = Vec::from_slice(
        alloc,
        b"age-encryption.org/v1\n-> scrypt AAAA 10\nAAAA\n-> bench\nAAAAAAAAAAAAAAAAAAAAAA\n--- AAAAAAAAAAAAAAAAAAAAAAAAAAAAAAAAAAAAAAAAAAA\n",
    )?;
    file.extend_from_slice(part(&[0; 16], 0, after))?;
    is_refused(alloc, &file, expected)
}

// The nonce is read before the stanzas are looked at.
#[test]
fn a_passphrase_beside_others_is_refused_after_the_nonce(rt: HostRuntime) -> Result<(), Fail> {
    let alloc = rt.alloc();
    assert!(rt; is_refused_beside_passphrase(alloc, 15, "input ended early")?);
    assert!(rt; is_refused_beside_passphrase(alloc, 16, "invalid header")?);
    Ok(())
}

// Whether the front of a file is read.
fn reads_front(alloc: Global, input: &mut Bytes<'_>) -> bool {
    let decryptor = Decryptor::<BenchSuite, &mut Bytes>::new(alloc, input);
    is_answered(alloc, decryptor, None)
}

// Whether the front of a file is read, and its payload and five bytes more are left then.
fn reads_front_alone(alloc: Global, file: &[u8]) -> Result<bool, AllocError> {
    let mut input = Bytes::new(file);
    Ok(reads_front(alloc, &mut input) && gives_payload(alloc, &mut input, b"after")?)
}

// Header and nonce, and no byte after them.
#[test]
fn a_decryptor_reads_no_byte_of_the_payload(rt: HostRuntime) -> Result<(), Fail> {
    let alloc = rt.alloc();
    assert!(rt; reads_front_alone(alloc, &message_file(alloc, b"after")?)?);
    Ok(())
}

// Whether the front of a file is refused with this text.
fn front_is_refused(alloc: Global, text: &[u8], expected: &str) -> bool {
    let decryptor = Decryptor::<BenchSuite, Bytes>::new(alloc, Bytes::new(text));
    is_refusal(alloc, decryptor, expected)
}

const SHORT: [(&[u8], &str); 5] = [
    (b"", "input ended early"),
    (b"age-encryption.org/v1", "input ended early"),
    (b"hello", "invalid header"),
    (b"age-encryption.org/v2\n", "unknown format"),
    (b"age-encryption.org/v1\n--- \n", "invalid header"),
];

#[test]
fn short_inputs_are_refused_by_name(rt: HostRuntime) -> Result<(), Fail> {
    for (text, expected) in SHORT {
        assert!(rt; front_is_refused(rt.alloc(), text, expected));
    }
    Ok(())
}
