//! The message for a recipient and an identity of one's own.

use crate::shared::{file_of, is_error};
use crate::uses::fixtures::{decrypted, encrypted, is_decrypted};
use age::armor::Format;
use age_bench::suite::BenchSuite;
use age_examples::own::{OwnIdentity, OwnRecipient};
use std::alloc::Global;
use std::test::Fail;
use test_support::fixtures::message_file;

// The header of the message's file to `own`, where each random byte is 0 and the grease stanza is `x-grease`.
const HEADER: &[u8] =
    b"age-encryption.org/v1\n-> own\nAAAAAAAAAAAAAAAAAAAAAA\n-> x-grease\n\n--- KGr7DgWQA8jrF+ZFduiewGyJHtwJkfURH3PG45efx2U\n";

// Whether a file is that of the message.
fn is_encrypted(alloc: Global, expected: &[u8]) -> Result<bool, Fail> {
    let file = encrypted::<BenchSuite, OwnRecipient>(alloc, &[OwnRecipient], Format::Binary)?;
    Ok(file.as_slice() == expected)
}

#[test]
fn the_message_is_encrypted_to_own(rt: HostRuntime) -> Result<(), Fail> {
    let alloc = rt.alloc();
    assert!(rt; is_encrypted(alloc, &file_of(alloc, HEADER)?)?);
    Ok(())
}

// Whether the identity decrypts a file to the message.
fn own_decrypts(alloc: Global, file: &[u8]) -> bool {
    is_decrypted::<BenchSuite, OwnIdentity>(alloc, &mut [OwnIdentity], file)
}

// Whether the identity has no key of a file, and nothing is handed out.
fn own_has_no_key(alloc: Global, file: &[u8]) -> bool {
    let mut none = Vec::new(alloc);
    let answer = decrypted::<BenchSuite, OwnIdentity>(alloc, &mut [OwnIdentity], file, &mut none);
    is_error(alloc, answer, "Decrypt(NoMatchingKeys)") && none.is_empty()
}

#[test]
fn the_message_is_decrypted_by_own_alone(rt: HostRuntime) -> Result<(), Fail> {
    let alloc = rt.alloc();
    assert!(rt; own_decrypts(alloc, &file_of(alloc, HEADER)?));
    assert!(rt; own_has_no_key(alloc, &message_file(alloc, &[])?));
    Ok(())
}
