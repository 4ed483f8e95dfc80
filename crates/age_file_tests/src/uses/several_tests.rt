//! Files to recipients of two kinds, which each kind of identity decrypts alone, over both suites.

use crate::shared::{
    Kind, grease, is_error, opened_by, opens_to, prepared, recipients, sevens, written,
};
use crate::uses::fixtures::comes_back;
use age::armor::Format;
use age::suite::Suite;
use age::{Identity, Recipient};
use age_bench::recipient::BenchIdentity;
use age_bench::suite::BenchSuite;
use age_examples::own::OwnIdentity;
use age_examples::several::opened_by_one;
use std::alloc::Global;
use std::test::Fail;
use test_support::answers::gives;
use test_support::fixtures::MESSAGE;
use test_support::other_suite::OtherSuite;

// The message's file to recipients of these kinds.
fn file_to<S: Suite>(alloc: Global, kinds: &[Kind]) -> Result<Vec<u8>, Fail> {
    let recipients = recipients(alloc, kinds)?;
    let mut draw = sevens(alloc, 32)?;
    let encryptor = prepared::<S, Box<dyn Recipient>>(alloc, &recipients, &mut draw)?;
    written(alloc, encryptor, MESSAGE)
}

// Whether the identity opens a file to the message, or is refused where it should have no key of it.
fn answers<S: Suite, I: Identity>(
    alloc: Global,
    identity: &mut I,
    file: &[u8],
    has_key: bool,
) -> bool {
    if has_key {
        opens_to(alloc, opened_by::<S, I>(alloc, identity, file), MESSAGE)
    } else {
        is_error(
            alloc,
            opened_by::<S, I>(alloc, identity, file),
            "NoMatchingKeys",
        )
    }
}

// Whether the file to recipients of these kinds is decrypted by an identity of each kind, or not.
fn is_decrypted<S: Suite>(
    alloc: Global,
    kinds: &[Kind],
    by_bench: bool,
    by_own: bool,
) -> Result<bool, Fail> {
    let file = file_to::<S>(alloc, kinds)?;
    Ok(
        answers::<S, BenchIdentity>(alloc, &mut BenchIdentity, &file, by_bench)
            && answers::<S, OwnIdentity>(alloc, &mut OwnIdentity, &file, by_own),
    )
}

// Files to one kind, to the other, and to both in either order.
fn each_kind_decrypts_its_files<S: Suite>(alloc: Global) -> Result<bool, Fail> {
    Ok(
        is_decrypted::<S>(alloc, &[Kind::Bench], true, false)?
            && is_decrypted::<S>(alloc, &[Kind::Bench, Kind::Own], true, true)?
            && is_decrypted::<S>(alloc, &[Kind::Own], false, true)?
            && is_decrypted::<S>(alloc, &[Kind::Own, Kind::Bench], true, true)?,
    )
}

#[test]
fn each_kind_of_identity_decrypts_alone(rt: HostRuntime) -> Result<(), Fail> {
    assert!(rt; each_kind_decrypts_its_files::<BenchSuite>(rt.alloc())?);
    assert!(rt; each_kind_decrypts_its_files::<OtherSuite>(rt.alloc())?);
    Ok(())
}

// Whether the message comes back from both kinds by a list of identities of these kinds.
fn comes_back_by<S: Suite>(alloc: Global, kinds: &[Kind]) -> Result<bool, Fail> {
    let mut draw = sevens(alloc, 32)?;
    comes_back::<S>(alloc, &[Kind::Own, Kind::Bench], kinds, &mut draw)
}

// To both kinds, and back by a list of identities of both, in either order.
fn comes_back_by_both<S: Suite>(alloc: Global) -> Result<bool, Fail> {
    Ok(
        comes_back_by::<S>(alloc, &[Kind::Own, Kind::Bench])?
            && comes_back_by::<S>(alloc, &[Kind::Bench, Kind::Own])?,
    )
}

#[test]
fn the_message_comes_back_from_both_kinds(rt: HostRuntime) -> Result<(), Fail> {
    assert!(rt; comes_back_by_both::<BenchSuite>(rt.alloc())?);
    assert!(rt; comes_back_by_both::<OtherSuite>(rt.alloc())?);
    Ok(())
}

// Whether the message comes back from recipients of both kinds in that form by one identity.
fn opens<S: Suite, I: Identity>(
    alloc: Global,
    identity: &mut I,
    format: Format,
) -> Result<bool, Fail> {
    let recipients = recipients(alloc, &[Kind::Own, Kind::Bench, Kind::Own])?;
    let grease = grease(alloc, "x-grease")?;
    let mut draw = sevens(alloc, 32)?;
    let answer = opened_by_one::<S, Box<dyn Recipient>, I>(
        alloc,
        &recipients,
        identity,
        &mut draw,
        grease,
        format,
        MESSAGE,
    );
    Ok(gives(answer, MESSAGE))
}

// In either form.
fn one_opens<S: Suite, I: Identity>(alloc: Global, identity: &mut I) -> Result<bool, Fail> {
    Ok(
        opens::<S, I>(alloc, identity, Format::Binary)?
            && opens::<S, I>(alloc, identity, Format::AsciiArmor)?,
    )
}

// An identity of each kind.
#[test]
fn one_identity_opens_what_is_for_both_kinds(rt: HostRuntime) -> Result<(), Fail> {
    assert!(rt; one_opens::<BenchSuite, BenchIdentity>(rt.alloc(), &mut BenchIdentity)?);
    assert!(rt; one_opens::<BenchSuite, OwnIdentity>(rt.alloc(), &mut OwnIdentity)?);
    assert!(rt; one_opens::<OtherSuite, BenchIdentity>(rt.alloc(), &mut BenchIdentity)?);
    assert!(rt; one_opens::<OtherSuite, OwnIdentity>(rt.alloc(), &mut OwnIdentity)?);
    Ok(())
}
