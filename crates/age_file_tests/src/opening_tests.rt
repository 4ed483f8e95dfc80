//! Reads and seeks on the plaintext of files, bare and in armor.

use crate::shared::{answers, commands_file, is_error};
use age::armor::Format;
use age::io::{Answer, Bytes, Op, SeekFrom, run};
use age::streaming::FileError;
use age_bench::names::With;
use age_bench::opening::answers_with;
use std::alloc::{AllocError, Global};
use std::test::Fail;
use test_support::fixtures::{armored_texts, message_file, part, plaintext};

const OPS: [Op; 12] = [
    Op::Read(100),
    Op::Seek(SeekFrom::Current(65_436)),
    Op::Read(30_000),
    Op::Seek(SeekFrom::End(-102_401)),
    Op::Read(1),
    Op::Seek(SeekFrom::End(-5)),
    Op::Read(6),
    Op::Seek(SeekFrom::Start(102_401)),
    Op::Seek(SeekFrom::Start(102_400)),
    Op::Read(1),
    Op::Seek(SeekFrom::Current(-102_400)),
    Op::Read(65_537),
];

// The answers of the reader of a plaintext.
fn plain_answers(alloc: Global, plain: &[u8]) -> Result<Vec<Answer>, AllocError> {
    run(alloc, &mut Bytes::new(plain), &OPS)
}

// The answers on a file.
fn file_answers(alloc: Global, text: &[u8]) -> Result<Vec<Answer>, FileError> {
    answers_with(alloc, With::Bench, &OPS, Bytes::new(text))
}

// The file of a plaintext, in armor and bare.
fn texts_of(alloc: Global, plain: &[u8]) -> Result<Vec<Vec<u8>>, Fail> {
    let file = commands_file(alloc, plain, Format::Binary)?;
    let mut texts = armored_texts(alloc, &file)?;
    texts.push(file)?;
    Ok(texts)
}

// Whether the answers on all of these texts are these.
fn all_answer(alloc: Global, texts: &[Vec<u8>], expected: &[Answer]) -> bool {
    for text in texts {
        if !answers(file_answers(alloc, text), expected) {
            return false;
        }
    }
    true
}

// Whether the answers on the file of a plaintext are those of the plaintext's reader.
fn file_answers_as(alloc: Global, plain: &[u8]) -> Result<bool, Fail> {
    let expected = plain_answers(alloc, plain)?;
    Ok(expected.len() == 12 && all_answer(alloc, &texts_of(alloc, plain)?, &expected))
}

#[test]
fn a_file_answers_as_its_plaintext(rt: HostRuntime) -> Result<(), Fail> {
    let alloc = rt.alloc();
    assert!(rt; file_answers_as(alloc, &plaintext(alloc, 102_400)?)?);
    Ok(())
}

// Whether a file isn't opened, with the error that `Debug` writes so.
fn is_refused(alloc: Global, text: &[u8], error: &str) -> bool {
    is_error(alloc, file_answers(alloc, text), error)
}

// The message's file to a tag `Bench` in the place of `bench`.
fn other_file(alloc: Global) -> Result<Vec<u8>, AllocError> {
    let mut other = Vec::new(alloc);
    for byte in &message_file(alloc, b"")? {
        other.push(if *byte == b'b' { b'B' } else { *byte })?;
    }
    Ok(other)
}

// Whether the first 20 bytes of a file aren't opened.
fn front_is_refused(alloc: Global, file: &[u8]) -> bool {
    is_refused(alloc, part(file, 0, 20), "Decrypt(Io(UnexpectedEof))")
}

#[test]
fn what_is_no_file_for_the_identity_is_refused(rt: HostRuntime) -> Result<(), Fail> {
    let alloc = rt.alloc();
    assert!(rt; front_is_refused(alloc, &message_file(alloc, b"")?));
    assert!(rt; is_refused(alloc, &other_file(alloc)?, "Decrypt(NoMatchingKeys)"));
    Ok(())
}
