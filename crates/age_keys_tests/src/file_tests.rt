//! Files for several recipients, two of them X25519 ones with a bench recipient between them.

use crate::fixtures::{grease, identity_of, opens, recipient_of, refuses_file};
use age::armor::Format;
use age::draw::Draw;
use age::io::Bytes;
use age::streaming::{decrypt_all, encrypt_all};
use age::{Identity, Recipient};
use age_bench::recipient::{BenchIdentity, BenchRecipient};
use age_bench::suite::BenchSuite;
use std::alloc::Global;
use std::test::Fail;
use test_support::fixtures::{MESSAGE, plaintext};

// The recipient of a secret.
fn recipient(alloc: Global, secret: &[u8]) -> Result<Box<dyn Recipient>, Fail> {
    Ok(Box::new(alloc, recipient_of(alloc, secret)?)?)
}

// The recipients of the secrets of ones and of twos, and the bench recipient between them.
fn recipients(alloc: Global) -> Result<Vec<Box<dyn Recipient>>, Fail> {
    let mut recipients = Vec::new(alloc);
    recipients.push(recipient(alloc, &[1; 32])?)?;
    recipients.push(Box::new(alloc, BenchRecipient)?)?;
    recipients.push(recipient(alloc, &[2; 32])?)?;
    Ok(recipients)
}

// The message's file for recipients.
fn encrypted(
    alloc: Global,
    recipients: &[Box<dyn Recipient>],
    draw: &mut Draw,
) -> Result<Vec<u8>, Fail> {
    let mut file = Vec::new(alloc);
    encrypt_all::<BenchSuite, Box<dyn Recipient>, Bytes, Vec<u8>>(
        alloc,
        recipients,
        draw,
        grease(alloc)?,
        Format::Binary,
        &mut Bytes::new(MESSAGE),
        &mut file,
    )?;
    Ok(file)
}

// The message's file for the three. The file key and the nonce take 16 random bytes each, an X25519 recipient 32.
fn file_for_three(alloc: Global) -> Result<Vec<u8>, Fail> {
    let mut draw = Draw::new(plaintext(alloc, 96)?);
    let file = encrypted(alloc, recipients(alloc)?.as_slice(), &mut draw)?;
    if draw.left() == 0 {
        Ok(file)
    } else {
        Err(Fail::from("random bytes are left"))
    }
}

// Whether the identity of a secret decrypts a file to the message.
fn decrypts(alloc: Global, secret: &[u8], file: &[u8]) -> Result<bool, Fail> {
    Ok(opens(alloc, &mut identity_of(alloc, secret)?, file))
}

#[test]
fn each_of_three_decrypts(rt: HostRuntime) -> Result<(), Fail> {
    let alloc = rt.alloc();
    let file = file_for_three(alloc)?;
    assert!(rt; decrypts(alloc, &[1; 32], &file)? && decrypts(alloc, &[2; 32], &file)?);
    assert!(rt; opens(alloc, &mut BenchIdentity, &file));
    Ok(())
}

// Whether the identity of a secret is none of a file.
fn is_another(alloc: Global, secret: &[u8], file: &[u8]) -> Result<bool, Fail> {
    let mut identity = identity_of(alloc, secret)?;
    Ok(refuses_file::<BenchSuite, _>(alloc, &mut identity, file, "no matching keys"))
}

#[test]
fn another_secret_has_no_matching_key(rt: HostRuntime) -> Result<(), Fail> {
    let alloc = rt.alloc();
    assert!(rt; is_another(alloc, &[3; 32], &file_for_three(alloc)?)?);
    Ok(())
}

// The identity of a secret.
fn identity(alloc: Global, secret: &[u8]) -> Result<Box<dyn Identity>, Fail> {
    Ok(Box::new(alloc, identity_of(alloc, secret)?)?)
}

// What the identities of the secrets of threes and of twos decrypt a file to.
fn decrypted(alloc: Global, file: &[u8]) -> Result<Vec<u8>, Fail> {
    let mut identities = Vec::new(alloc);
    identities.push(identity(alloc, &[3; 32])?)?;
    identities.push(identity(alloc, &[2; 32])?)?;
    decrypted_by(alloc, identities.as_mut_slice(), file)
}

// What identities decrypt a file to.
fn decrypted_by(
    alloc: Global,
    identities: &mut [Box<dyn Identity>],
    file: &[u8],
) -> Result<Vec<u8>, Fail> {
    let mut plain = Vec::new(alloc);
    decrypt_all::<BenchSuite, Box<dyn Identity>, Bytes, Vec<u8>>(
        alloc,
        identities,
        &mut Bytes::new(file),
        &mut plain,
    )?;
    Ok(plain)
}

// The first identity passes over all stanzas, so the second one decides.
#[test]
fn the_identity_that_matches_decides(rt: HostRuntime) -> Result<(), Fail> {
    let alloc = rt.alloc();
    assert!(rt; decrypted(alloc, &file_for_three(alloc)?)?.as_slice() == MESSAGE);
    Ok(())
}
