//! Decryptors of readers with a buffer, and what they say of a file of a passphrase.

use crate::shared::{gives_payload, is_answered, is_scrypt, opens_to};
use age::io::{BufRead, BufReader, Bytes};
use age::stream::StreamReader;
use age::{DecryptError, Decryptor};
use age_bench::recipient::BenchIdentity;
use age_bench::suite::BenchSuite;
use std::alloc::{AllocError, Global};
use std::fmt::Display;
use std::test::Fail;
use test_support::answers::is_refusal;
use test_support::fixtures::{MESSAGE, message_file};

// Whether the front of a file is read.
fn reads_front<R: BufRead + Drop>(alloc: Global, input: R) -> bool {
    let decryptor = Decryptor::<BenchSuite, R>::new_buffered(alloc, input);
    is_answered(alloc, decryptor, None)
}

// Whether the front of a file is read, and its payload and five bytes more are left then.
fn reads_front_alone(alloc: Global, file: &[u8]) -> Result<bool, Fail> {
    let mut input = BufReader::new(alloc, Bytes::new(file))?;
    Ok(reads_front(alloc, &mut input) && gives_payload(alloc, &mut input, b"after")?)
}

// The buffer holds the whole file by then, and gives what follows the nonce.
#[test]
fn a_buffered_decryptor_stands_after_the_nonce(rt: HostRuntime) -> Result<(), Fail> {
    let alloc = rt.alloc();
    assert!(rt; reads_front_alone(alloc, &message_file(alloc, b"after")?)?);
    Ok(())
}

// The reader of a file's plaintext.
fn opened<R: BufRead + Drop>(
    alloc: Global,
    input: R,
) -> Result<StreamReader<BenchSuite, R>, DecryptError> {
    let decryptor = Decryptor::<BenchSuite, R>::new_buffered(alloc, input)?;
    decryptor.decrypt_one(alloc, &mut BenchIdentity)
}

// Whether a file is opened to the message.
fn is_opened(alloc: Global, file: &[u8]) -> Result<bool, Fail> {
    let input = BufReader::new(alloc, Bytes::new(file))?;
    Ok(opens_to(alloc, opened(alloc, input), MESSAGE))
}

#[test]
fn a_buffered_decryptor_gives_the_message(rt: HostRuntime) -> Result<(), Fail> {
    let alloc = rt.alloc();
    assert!(rt; is_opened(alloc, &message_file(alloc, &[])?)?);
    Ok(())
}

const PASSPHRASE: &[u8] = b"-> scrypt AAAA 10\nAAAA\n";

const OTHER: &[u8] = b"-> bench\nAAAAAAAAAAAAAAAAAAAAAA\n";

// The header of two texts of stanzas, of which one may be empty, whose MAC is nobody's, and a nonce.
fn front_of(alloc: Global, first: &[u8], second: &[u8]) -> Result<Vec<u8>, AllocError> {
    let mut file = Vec::from_slice(alloc, b"age-encryption.org/v1\n")?;
    file.extend_from_slice(first)?;
    file.extend_from_slice(second)?;
    file.extend_from_slice(b"--- AAAAAAAAAAAAAAAAAAAAAAAAAAAAAAAAAAAAAAAAAAA\n")?;
    file.extend_from_slice(&[0; 16])?;
    Ok(file)
}

// Whether an answer is this one, or a refusal with this text.
fn is_so<E: Display + Drop>(
    alloc: Global,
    answer: Result<bool, E>,
    expected: Result<bool, &str>,
) -> bool {
    match expected {
        Ok(is_one) => answer.ok() == Some(is_one),
        Err(text) => is_refusal(alloc, answer, text),
    }
}

// Whether the file of these two texts is one of a passphrase, or its refusal, is as expected.
fn says(
    alloc: Global,
    first: &[u8],
    second: &[u8],
    expected: Result<bool, &str>,
) -> Result<bool, Fail> {
    let file = front_of(alloc, first, second)?;
    let input = BufReader::new(alloc, Bytes::new(&file))?;
    Ok(is_so(alloc, is_scrypt(alloc, input), expected))
}

// Two texts of stanzas, and whether their file is one of a passphrase, or why it is refused.
const STANZAS: [(&[u8], &[u8], Result<bool, &str>); 5] = [
    (PASSPHRASE, b"", Ok(true)),
    (OTHER, b"", Ok(false)),
    (OTHER, OTHER, Ok(false)),
    (PASSPHRASE, OTHER, Err("invalid header")),
    (OTHER, PASSPHRASE, Err("invalid header")),
];

#[test]
fn a_lone_scrypt_stanza_is_one_of_a_passphrase(rt: HostRuntime) -> Result<(), Fail> {
    for (first, second, expected) in STANZAS {
        assert!(rt; says(rt.alloc(), first, second, expected)?);
    }
    Ok(())
}

#[test]
fn a_file_to_bench_is_none_of_a_passphrase(rt: HostRuntime) -> Result<(), Fail> {
    let alloc = rt.alloc();
    let file = message_file(alloc, &[])?;
    assert!(rt; is_so(alloc, is_scrypt(alloc, Bytes::new(&file)), Ok(false)));
    Ok(())
}
