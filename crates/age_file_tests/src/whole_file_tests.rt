//! Whole files to `bench` in one call, bare and armored. The expected texts are those of Python, from the format's own words.

use crate::shared::{
    call_gives_message, command_decrypts, command_gives_message, commands_file, done, grease,
    is_error, opened_by, opens_to,
};
use age::armor::Format;
use age::draw::Draw;
use age::io::Bytes;
use age::streaming::FileError;
use age::{decrypt, encrypt, encrypt_and_armor};
use age_bench::file::decrypt_with;
use age_bench::names::With;
use age_bench::recipient::{BenchIdentity, BenchRecipient};
use age_bench::suite::BenchSuite;
use std::alloc::{AllocError, Global};
use std::test::Fail;
use test_support::answers::{gives, is_refusal};
use test_support::fixtures::{MESSAGE, message_file, part, zeros};

// The armor of the message's file, whose grease stanza is `x-grease`.
const ARMORED: &str =
    "-----BEGIN AGE ENCRYPTED FILE-----\nYWdlLWVuY3J5cHRpb24ub3JnL3YxCi0+IGJlbmNoCkFBQUFBQUFBQUFBQUFBQUFB\nQUFBQUEKLT4geC1ncmVhc2UKCi0tLSBWN3NlYURkQzc1QkFzU3h2YmN4d1h0U1c4\neTVEdDdUL0dQK2ZvcURQdDM0CgAAAAAAAAAAAAAAAAAAAAB+YMT23Gu3CnDs2Rvt\nGcA+xEP9hVGksRSR8Qi6km5cGkNmyqtoPSXz7e1CosMvT+zRbNES\n-----END AGE ENCRYPTED FILE-----\n";

// The same with the program's grease stanza.
const PROGRAM_ARMORED: &[u8] =
    b"-----BEGIN AGE ENCRYPTED FILE-----\nYWdlLWVuY3J5cHRpb24ub3JnL3YxCi0+IGJlbmNoCkFBQUFBQUFBQUFBQUFBQUFB\nQUFBQUEKLT4gYWdlYmVuY2gtZ3JlYXNlCgotLS0gcVpoZjcxY2dRZmlYV01uejM2\nOFlOQTNvQkwxK0cvQUd3SVd5MUEyN2pmawoAAAAAAAAAAAAAAAAAAAAAfmDE9txr\ntwpw7Nkb7RnAPsRD/YVRpLEUkfEIupJuXBpDZsqraD0l8+3tQqLDL0/s0WzREg==\n-----END AGE ENCRYPTED FILE-----\n";

// The file of the message by these random bytes.
fn encrypted(alloc: Global, draw: &mut Draw) -> Result<Vec<u8>, Fail> {
    let grease = grease(alloc, "x-grease")?;
    done(encrypt::<BenchSuite, BenchRecipient>(alloc, &BenchRecipient, MESSAGE, draw, grease))
}

// Whether that is the file that is expected.
fn has_its_file(alloc: Global, draw: &mut Draw) -> Result<bool, Fail> {
    let file = encrypted(alloc, draw)?;
    Ok(file.len() == 183 && gives(message_file(alloc, &[]), &file))
}

#[test]
fn a_message_is_encrypted_in_one_call(rt: HostRuntime) -> Result<(), Fail> {
    let alloc = rt.alloc();
    let mut draw = zeros(alloc, 33)?;
    assert!(rt; has_its_file(alloc, &mut draw)? && draw.left() == 1);
    Ok(())
}

// The armor of the file of the message by these random bytes.
fn encrypted_and_armored(alloc: Global, draw: &mut Draw) -> Result<String, Fail> {
    let grease = grease(alloc, "x-grease")?;
    done(encrypt_and_armor::<BenchSuite, BenchRecipient>(
        alloc,
        &BenchRecipient,
        MESSAGE,
        draw,
        grease,
    ))
}

// Whether that is the armor that is expected.
fn has_its_armor(alloc: Global, draw: &mut Draw) -> Result<bool, Fail> {
    let text = encrypted_and_armored(alloc, draw)?;
    Ok(text.len() == 316 && text.as_str() == ARMORED)
}

#[test]
fn a_message_is_encrypted_and_armored_in_one_call(rt: HostRuntime) -> Result<(), Fail> {
    let alloc = rt.alloc();
    let mut draw = zeros(alloc, 33)?;
    assert!(rt; has_its_armor(alloc, &mut draw)? && draw.left() == 1);
    Ok(())
}

#[test]
fn a_file_is_decrypted_in_one_call(rt: HostRuntime) -> Result<(), Fail> {
    let alloc = rt.alloc();
    assert!(rt; call_gives_message(alloc, &message_file(alloc, &[])?));
    assert!(rt; call_gives_message(alloc, ARMORED.as_bytes()));
    assert!(rt; call_gives_message(alloc, PROGRAM_ARMORED));
    Ok(())
}

// Whether the identity opens a file to the message.
fn is_opened(alloc: Global, file: &[u8]) -> bool {
    let opened = opened_by::<BenchSuite, BenchIdentity>(alloc, &mut BenchIdentity, file);
    opens_to(alloc, opened, MESSAGE)
}

#[test]
fn one_identity_decrypts(rt: HostRuntime) -> Result<(), Fail> {
    let alloc = rt.alloc();
    assert!(rt; MESSAGE.len() == 36 && is_opened(alloc, &message_file(alloc, &[])?));
    Ok(())
}

// Whether the program writes the armor that is expected, and decrypts it again.
fn program_has_its_armor(alloc: Global) -> Result<bool, Fail> {
    let text = commands_file(alloc, MESSAGE, Format::AsciiArmor)?;
    Ok(
        text.len() == 328
            && text.as_slice() == PROGRAM_ARMORED
            && command_gives_message(alloc, &text),
    )
}

#[test]
fn the_program_writes_armor(rt: HostRuntime) -> Result<(), Fail> {
    assert!(rt; program_has_its_armor(rt.alloc())?);
    Ok(())
}

// Whether decrypting these bytes is refused with this text by the command, which writes nothing.
fn command_refuses(alloc: Global, file: &[u8], expected: &str) -> bool {
    let mut plain = Vec::new(alloc);
    command_decrypts(alloc, file, &mut plain, Some(expected)) && plain.is_empty()
}

// Whether decrypting these bytes is refused with this text by the one call.
fn call_refuses(alloc: Global, file: &[u8], expected: &str) -> bool {
    let answer = decrypt::<BenchSuite, BenchIdentity>(alloc, &mut BenchIdentity, file);
    is_refusal(alloc, answer, expected)
}

// Whether decrypting these bytes is refused with this text by the command, which writes nothing, and by the one call.
fn is_refused(alloc: Global, file: &[u8], expected: &str) -> bool {
    command_refuses(alloc, file, expected) && call_refuses(alloc, file, expected)
}

// What the command answers to these bytes.
fn commanded(alloc: Global, file: &[u8]) -> Result<(), FileError> {
    let mut plain = Vec::new(alloc);
    decrypt_with(alloc, With::Bench, &mut Bytes::new(file), &mut plain)
}

// Whether the command refuses these bytes since they end early.
fn ends_early(alloc: Global, file: &[u8]) -> bool {
    is_error(alloc, commanded(alloc, file), "Decrypt(Io(UnexpectedEof))")
}

const EARLY: [&[u8]; 5] = [
    b"",
    b"hello",
    b"age-encryption.org/v2\n",
    b"-----BEGIN AGE ENCRYPTED FILE-----\n",
    &[0; 35],
];

#[test]
fn fewer_than_36_bytes_end_early(rt: HostRuntime) {
    for file in EARLY {
        assert!(rt; is_refused(rt.alloc(), file, "input ended early"));
        assert!(rt; ends_early(rt.alloc(), file));
    }
    assert!(rt; is_refused(rt.alloc(), &[0; 36], "invalid header"));
}

const TRAILING: &str = "invalid armor (non-whitespace characters after end marker)";

const PADDING: &str = "invalid armor (last line is missing padding)";

const UNWRAPPED: &str = "invalid armor (not wrapped at 64 characters)";

// Whether the armor with a byte after it is refused.
fn more_is_refused(alloc: Global) -> Result<bool, AllocError> {
    let mut text = String::from_str(alloc, ARMORED)?;
    text.push('x')?;
    Ok(is_refused(alloc, text.as_bytes(), TRAILING))
}

// How much of the armor is left, and why it is refused.
const CUT: [(usize, &str); 4] = [
    (36, PADDING),
    (100, UNWRAPPED),
    (165, UNWRAPPED),
    (230, UNWRAPPED),
];

// A fault of the armor behind the payload, before the payload's end, and in the header.
#[test]
fn damaged_armor_is_refused(rt: HostRuntime) -> Result<(), Fail> {
    let alloc = rt.alloc();
    assert!(rt; more_is_refused(alloc)?);
    for (length, expected) in CUT {
        assert!(rt; is_refused(alloc, part(ARMORED.as_bytes(), 0, length), expected));
    }
    Ok(())
}
