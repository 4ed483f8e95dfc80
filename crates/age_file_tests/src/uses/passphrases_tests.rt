//! Files under a passphrase come back over both suites, and to no other passphrase.

use crate::shared::{is_error, passphrase, sevens};
use age::draw::Draw;
use age::scrypt::Identity;
use age::streaming::FileError;
use age::suite::Suite;
use age_bench::suite::BenchSuite;
use age_examples::passphrases::kept_under_a_passphrase;
use std::alloc::{AllocError, Global};
use std::test::Fail;
use test_support::answers::gives;
use test_support::fixtures::MESSAGE;
use test_support::other_suite::OtherSuite;

// An identity of this text that takes work factors up to this one.
fn identity<S: Suite>(alloc: Global, text: &str, most: u8) -> Result<Identity<S>, AllocError> {
    let mut identity = Identity::<S>::new(passphrase(alloc, text)?, 10);
    identity.set_max_work_factor(most);
    Ok(identity)
}

// The message under `correct horse` with the work factor 10, by an identity of this text that takes factors up to this one.
fn kept<S: Suite>(
    alloc: Global,
    text: &str,
    most: u8,
    draw: &mut Draw,
) -> Result<Result<Vec<u8>, FileError>, AllocError> {
    let typed = passphrase(alloc, "correct horse")?;
    let mut identity = identity::<S>(alloc, text, most)?;
    Ok(kept_under_a_passphrase::<S>(alloc, typed, 10, &mut identity, draw, MESSAGE))
}

// Whether the message comes back to its passphrase, with all of 72 random bytes.
fn comes_back<S: Suite>(alloc: Global) -> Result<bool, AllocError> {
    let mut draw = sevens(alloc, 72)?;
    let answer = kept::<S>(alloc, "correct horse", 10, &mut draw)?;
    Ok(gives(answer, MESSAGE) && draw.left() == 0)
}

#[test]
fn the_message_comes_back_to_its_passphrase(rt: HostRuntime) -> Result<(), Fail> {
    assert!(rt; comes_back::<BenchSuite>(rt.alloc())?);
    assert!(rt; comes_back::<OtherSuite>(rt.alloc())?);
    Ok(())
}

// Whether the message doesn't come back, and the refusal is shown so.
fn is_lost(
    alloc: Global,
    text: &str,
    most: u8,
    draw: &mut Draw,
    refusal: &str,
) -> Result<bool, AllocError> {
    Ok(is_error(alloc, kept::<BenchSuite>(alloc, text, most, draw)?, refusal))
}

const FAILED: &str = "Decrypt(DecryptionFailed)";

const LAZY: &str = "Decrypt(ExcessiveWork { required: 10, target: 10 })";

#[test]
fn another_passphrase_and_less_work_are_refused(rt: HostRuntime) -> Result<(), Fail> {
    let alloc = rt.alloc();
    let mut draw = sevens(alloc, 144)?;
    assert!(rt; is_lost(alloc, "correct horse ", 10, &mut draw, FAILED)?);
    assert!(rt; is_lost(alloc, "correct horse", 9, &mut draw, LAZY)?);
    Ok(())
}
