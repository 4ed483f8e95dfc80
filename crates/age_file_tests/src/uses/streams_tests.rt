//! The message encrypted and decrypted as a stream.

use crate::shared::{grease, is_answered, sevens};
use crate::uses::fixtures::{ARMORED, encrypted, has_part, is_decrypted};
use age::armor::Format;
use age::draw::Draw;
use age::io::Bytes;
use age_bench::recipient::{BenchIdentity, BenchRecipient};
use age_bench::suite::BenchSuite;
use age_examples::streams::streamed_there_and_back;
use std::alloc::Global;
use std::test::Fail;
use test_support::fixtures::{MESSAGE, message_file};
use test_support::other_suite::OtherSuite;

// Whether the message's file in one of the forms is this one.
fn is_encrypted(alloc: Global, format: Format, expected: &[u8]) -> Result<bool, Fail> {
    let file = encrypted::<BenchSuite, BenchRecipient>(alloc, &[BenchRecipient], format)?;
    Ok(file.as_slice() == expected)
}

#[test]
fn the_message_is_encrypted(rt: HostRuntime) -> Result<(), Fail> {
    let alloc = rt.alloc();
    assert!(rt; is_encrypted(alloc, Format::Binary, &message_file(alloc, &[])?)?);
    assert!(rt; is_encrypted(alloc, Format::AsciiArmor, ARMORED)?);
    Ok(())
}

// Whether a file is decrypted to the message.
fn bench_decrypts(alloc: Global, file: &[u8]) -> bool {
    is_decrypted::<BenchSuite, BenchIdentity>(alloc, &mut [BenchIdentity], file)
}

#[test]
fn the_message_is_decrypted(rt: HostRuntime) -> Result<(), Fail> {
    let alloc = rt.alloc();
    assert!(rt; bench_decrypts(alloc, &message_file(alloc, &[])?));
    assert!(rt; bench_decrypts(alloc, ARMORED));
    Ok(())
}

// Whether the message comes back in that form over the other suite, as a whole and a part of it.
fn comes_back_over_other(alloc: Global, format: Format) -> Result<bool, Fail> {
    let text = encrypted::<OtherSuite, BenchRecipient>(alloc, &[BenchRecipient], format)?;
    Ok(
        is_decrypted::<OtherSuite, BenchIdentity>(alloc, &mut [BenchIdentity], &text)
            && has_part::<OtherSuite>(alloc, 10, 4, &text, b"test"),
    )
}

#[test]
fn the_message_comes_back_over_the_other_suite(rt: HostRuntime) -> Result<(), Fail> {
    assert!(rt; comes_back_over_other(rt.alloc(), Format::Binary)?);
    assert!(rt; comes_back_over_other(rt.alloc(), Format::AsciiArmor)?);
    Ok(())
}

// Appends what comes back in that form. Whether that succeeds.
fn appends(
    alloc: Global,
    draw: &mut Draw,
    format: Format,
    plain: &mut Vec<u8>,
) -> Result<bool, Fail> {
    let grease = grease(alloc, "x-grease")?;
    let answer = streamed_there_and_back::<
        OtherSuite,
        BenchRecipient,
        BenchIdentity,
        Bytes,
        Vec<u8>,
    >(
        alloc,
        &[BenchRecipient],
        &mut [BenchIdentity],
        draw,
        grease,
        format,
        &mut Bytes::new(MESSAGE),
        plain,
    );
    Ok(is_answered(alloc, answer, None))
}

// Whether the message comes back in that form, and leaves one of 33 random bytes.
fn comes_back(alloc: Global, format: Format) -> Result<bool, Fail> {
    let mut draw = sevens(alloc, 33)?;
    let mut plain = Vec::new(alloc);
    Ok(
        appends(alloc, &mut draw, format, &mut plain)?
            && plain.as_slice() == MESSAGE
            && draw.left() == 1,
    )
}

#[test]
fn the_message_comes_back_in_one_call(rt: HostRuntime) -> Result<(), Fail> {
    assert!(rt; comes_back(rt.alloc(), Format::Binary)?);
    assert!(rt; comes_back(rt.alloc(), Format::AsciiArmor)?);
    Ok(())
}
