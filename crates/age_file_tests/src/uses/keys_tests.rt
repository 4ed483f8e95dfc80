//! Files to one's own X25519 key come back, in both forms and over both suites.

use crate::shared::{grease, sevens};
use age::armor::Format;
use age::draw::Draw;
use age::suite::Suite;
use age::x25519::Identity;
use age_bench::suite::BenchSuite;
use age_examples::keys::kept_for_oneself;
use std::alloc::Global;
use std::test::Fail;
use test_support::answers::gives;
use test_support::fixtures::MESSAGE;
use test_support::other_suite::OtherSuite;

// The key of 32 random bytes.
fn identity<S: Suite>(alloc: Global) -> Result<Identity<S>, Fail> {
    let mut draw = Draw::new(vec![in alloc; 3; 32]?);
    match Identity::<S>::generate(&mut draw) {
        Some(identity) => Ok(identity),
        None => Err(Fail::from("too few random bytes")),
    }
}

// Whether the message comes back to that key.
fn is_kept<S: Suite>(alloc: Global, draw: &mut Draw, format: Format) -> Result<bool, Fail> {
    let grease = grease(alloc, "x-grease")?;
    let mut identity = identity::<S>(alloc)?;
    let answer = kept_for_oneself::<S>(alloc, &mut identity, draw, grease, format, MESSAGE);
    Ok(gives(answer, MESSAGE))
}

// The message to the key of 32 random bytes, with all of 64 other random bytes, and back.
fn comes_back<S: Suite>(alloc: Global, format: Format) -> Result<bool, Fail> {
    let mut draw = sevens(alloc, 64)?;
    Ok(is_kept::<S>(alloc, &mut draw, format)? && draw.left() == 0)
}

// In either form.
#[test]
fn the_message_comes_back_to_its_own_key(rt: HostRuntime) -> Result<(), Fail> {
    assert!(rt; comes_back::<BenchSuite>(rt.alloc(), Format::Binary)?);
    assert!(rt; comes_back::<BenchSuite>(rt.alloc(), Format::AsciiArmor)?);
    assert!(rt; comes_back::<OtherSuite>(rt.alloc(), Format::Binary)?);
    assert!(rt; comes_back::<OtherSuite>(rt.alloc(), Format::AsciiArmor)?);
    Ok(())
}
