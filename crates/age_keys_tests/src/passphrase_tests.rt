//! Files for a passphrase, and passphrases beside other recipients. The expected bytes are those of Python, from the format's own words.

use crate::fixtures::{
    armored_for, encrypted_for, grease, horse, opens, passphrase, recipient_of, refuses,
    refuses_file,
};
use age::armor::ArmoredReader;
use age::draw::Draw;
use age::format::{HeaderV1, Stanza};
use age::io::Bytes;
use age::scrypt::{Identity, Recipient};
use age::{DecryptError, Encryptor, Recipient as AnyRecipient, decrypt};
use age_bench::suite::BenchSuite;
use std::alloc::{AllocError, Global};
use std::collections::BTreeSet;
use std::test::Fail;
use test_support::answers::is_refusal;
use test_support::fixtures::zeros;
use test_support::never_stretches::NeverStretches;
use test_support::scripted::ScriptedRecipient;

// The header of the message's file for `correct horse` with the work factor 10 and random bytes that are zero.
const HEADER: &[u8] =
    b"age-encryption.org/v1\n-> scrypt AAAAAAAAAAAAAAAAAAAAAA 10\nXMo9UYTFFgkpCpmsdHlIM5/W0hYXn1BbZnv0Q3kl82o\n--- OYcv5rOrwoJ2JGRsY7wui/ipHM33H1JfEIQQIqZefyE\n";

fn recipient(alloc: Global) -> Result<Recipient<BenchSuite>, AllocError> {
    Ok(Recipient::new(passphrase(alloc, "correct horse")?, 10))
}

// The message's file.
fn encrypted(alloc: Global) -> Result<Vec<u8>, Fail> {
    encrypted_for(alloc, &recipient(alloc)?, zeros(alloc, 72)?)
}

// Whether the identity of the passphrase decrypts a file, or its armor, to the message.
fn comes_back(alloc: Global, file: &[u8]) -> Result<bool, AllocError> {
    Ok(opens(alloc, &mut horse(alloc, 18)?, file))
}

// The file has no grease, since the stanza of a passphrase stands alone.
#[test]
fn a_message_has_its_file(rt: HostRuntime) -> Result<(), Fail> {
    let alloc = rt.alloc();
    let file = encrypted(alloc)?;
    assert!(rt; file.len() == 218 && file.starts_with(HEADER));
    assert!(rt; comes_back(alloc, &file)?);
    Ok(())
}

// The armor of the message's file.
fn armored(alloc: Global) -> Result<String, Fail> {
    armored_for(alloc, &recipient(alloc)?, zeros(alloc, 72)?)
}

// Whether the passphrase with a space after it fails.
fn another_fails(alloc: Global, file: &[u8]) -> Result<bool, AllocError> {
    let mut other = Identity::<BenchSuite>::new(passphrase(alloc, "correct horse ")?, 18);
    Ok(refuses_file::<BenchSuite, _>(alloc, &mut other, file, "decryption failed"))
}

#[test]
fn another_passphrase_fails(rt: HostRuntime) -> Result<(), Fail> {
    let alloc = rt.alloc();
    let text = armored(alloc)?;
    assert!(rt; text.len() == 365 && comes_back(alloc, text.as_bytes())?);
    assert!(rt; another_fails(alloc, text.as_bytes())?);
    Ok(())
}

// Two recipients.
fn pair(
    alloc: Global,
    first: Box<dyn AnyRecipient>,
    second: Box<dyn AnyRecipient>,
) -> Result<Vec<Box<dyn AnyRecipient>>, Fail> {
    let mut recipients = Vec::new(alloc);
    recipients.push(first)?;
    recipients.push(second)?;
    Ok(recipients)
}

// The X25519 recipient of a secret of ones.
fn key(alloc: Global) -> Result<Box<dyn AnyRecipient>, Fail> {
    Ok(Box::new(alloc, recipient_of(alloc, &[1; 32])?)?)
}

// The recipient of the passphrase.
fn of_passphrase(alloc: Global) -> Result<Box<dyn AnyRecipient>, Fail> {
    Ok(Box::new(alloc, recipient(alloc)?)?)
}

// A recipient without labels whose one stanza has the tag `scrypt`.
fn unlabelled(alloc: Global) -> Result<Box<dyn AnyRecipient>, Fail> {
    let recipient = ScriptedRecipient {
        tag: Some(String::from_str(alloc, "scrypt")?),
        draws: false,
        labels: BTreeSet::new(alloc),
    };
    Ok(Box::new(alloc, recipient)?)
}

// Whether recipients are refused with these random bytes since a passphrase is among them and others are.
fn are_mixed(
    alloc: Global,
    recipients: &[Box<dyn AnyRecipient>],
    draw: &mut Draw,
) -> Result<bool, Fail> {
    let grease = grease(alloc)?;
    let answer = Encryptor::<BenchSuite>::with_recipients(alloc, recipients, draw, grease);
    Ok(is_refusal(
        alloc,
        answer,
        "a passphrase can't be used with other recipients",
    ))
}

// Whether two are refused so, and so many of 104 random bytes are left.
fn mixed(
    alloc: Global,
    first: Box<dyn AnyRecipient>,
    second: Box<dyn AnyRecipient>,
    left: usize,
) -> Result<bool, Fail> {
    let recipients = pair(alloc, first, second)?;
    let mut draw = zeros(alloc, 104)?;
    Ok(are_mixed(alloc, recipients.as_slice(), &mut draw)? && draw.left() == left)
}

// 16 bytes go to the file key, 32 to an X25519 recipient, 40 to a passphrase.
#[test]
fn a_passphrase_stands_alone(rt: HostRuntime) -> Result<(), Fail> {
    let alloc = rt.alloc();
    assert!(rt; mixed(alloc, key(alloc)?, of_passphrase(alloc)?, 16)?);
    assert!(rt; mixed(alloc, of_passphrase(alloc)?, key(alloc)?, 16)?);
    Ok(())
}

// (Random bytes that are all zero give both passphrases the same label.)
#[test]
fn two_passphrases_are_mixed(rt: HostRuntime) -> Result<(), Fail> {
    let alloc = rt.alloc();
    assert!(rt; mixed(alloc, of_passphrase(alloc)?, of_passphrase(alloc)?, 8)?);
    assert!(rt; mixed(alloc, key(alloc)?, unlabelled(alloc)?, 56)?);
    Ok(())
}

// The armor of a header whose one stanza has the type scrypt and the work factor 10, with a MAC that is nobody's, and 32 zeros after it.
const ARMORED: &[u8] =
    b"-----BEGIN AGE ENCRYPTED FILE-----\nYWdlLWVuY3J5cHRpb24ub3JnL3YxCi0+IHNjcnlwdCBza2I4R0t6L2NLT2s4cGlI\nTTRGRjFRIDEwCkFBQUFBQUFBQUFBQUFBQUFBQUFBQUFBQUFBQUFBQUFBQUFBQUFB\nQUFBQUEKLS0tIEFBQUFBQUFBQUFBQUFBQUFBQUFBQUFBQUFBQUFBQUFBQUFBQUFB\nQUFBQUEKAAAAAAAAAAAAAAAAAAAAAAAAAAAAAAAAAAAAAAAAAAA=\n-----END AGE ENCRYPTED FILE-----\n";

// A file with that stanza twice.
const TWICE: &[u8] =
    b"age-encryption.org/v1\n-> scrypt skb8GKz/cKOk8piHM4FF1Q 10\nAAAAAAAAAAAAAAAAAAAAAAAAAAAAAAAAAAAAAAAAAAA\n-> scrypt skb8GKz/cKOk8piHM4FF1Q 10\nAAAAAAAAAAAAAAAAAAAAAAAAAAAAAAAAAAAAAAAAAAA\n--- AAAAAAAAAAAAAAAAAAAAAAAAAAAAAAAAAAAAAAAAAAA\n\0\0\0\0\0\0\0\0\0\0\0\0\0\0\0\0\0\0\0\0\0\0\0\0\0\0\0\0\0\0\0\0";

// The header that the armor carries.
fn header(alloc: Global) -> Result<HeaderV1, Fail> {
    let mut reader = ArmoredReader::new_buffered(alloc, Bytes::new(ARMORED))?;
    Ok(HeaderV1::read(alloc, &mut reader)?)
}

// Whether a stanza has these two arguments.
fn has_arguments(stanza: &Stanza, first: &str, second: &str) -> bool {
    match stanza.args() {
        [salt, factor] => salt.as_str() == first && factor.as_str() == second,
        _ => false,
    }
}

// Whether an identity for a work factor of 5 finds that of a stanza too large.
fn is_excessive(alloc: Global, stanza: &Stanza) -> Result<bool, AllocError> {
    let mut identity = Identity::<BenchSuite>::new(passphrase(alloc, "p")?, 5);
    Ok(refuses(
        alloc,
        &mut identity,
        stanza,
        "excessive work factor 10, target 5",
    ))
}

// Whether stanzas are the one of the armor, and its work factor is too large for that identity.
fn is_the_one(alloc: Global, stanzas: &[Stanza]) -> Result<bool, AllocError> {
    match stanzas {
        [stanza] => Ok(
            stanza.tag() == "scrypt"
                && has_arguments(stanza, "skb8GKz/cKOk8piHM4FF1Q", "10")
                && is_excessive(alloc, stanza)?,
        ),
        _ => Ok(false),
    }
}

#[test]
fn a_stanza_is_read_through_armor(rt: HostRuntime) -> Result<(), Fail> {
    let alloc = rt.alloc();
    assert!(rt; is_the_one(alloc, header(alloc)?.stanzas())?);
    Ok(())
}

// Whether memory is refused.
fn is_out_of_memory(answer: &Result<Vec<u8>, DecryptError>) -> bool {
    matches!(answer, Err(DecryptError::OutOfMemory))
}

// Whether an identity would stretch its passphrase for a file.
fn would_stretch(alloc: Global, identity: &mut Identity<NeverStretches>, file: &[u8]) -> bool {
    is_out_of_memory(&decrypt::<NeverStretches, Identity<NeverStretches>>(alloc, identity, file))
}

// Two stanzas of passphrases break the rule, and no passphrase is stretched: the suite would have no memory for it, as it hasn't for one.
#[test]
fn no_work_is_done_where_the_rule_is_broken(rt: HostRuntime) -> Result<(), Fail> {
    let alloc = rt.alloc();
    let mut identity = Identity::<NeverStretches>::new(passphrase(alloc, "correct horse")?, 18);
    assert!(rt; would_stretch(alloc, &mut identity, ARMORED));
    assert!(rt; refuses_file::<NeverStretches, _>(alloc, &mut identity, TWICE, "invalid header"));
    Ok(())
}
