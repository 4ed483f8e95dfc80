//! Several recipients and several identities: which refuses, who decides, and how many random bytes are left.

use crate::file_tests::opened;
use crate::shared::{Kind, grease, is_answered, prepared, recipients, sevens, written};
use age::format::Stanza;
use age::{Encryptor, Identity, Recipient};
use age_bench::suite::BenchSuite;
use std::alloc::{AllocError, Global};
use std::collections::BTreeSet;
use std::test::Fail;
use test_support::answers::is_refusal;
use test_support::fixtures::empty_stanza;
use test_support::scripted::{Script, ScriptedIdentity, ScriptedRecipient};

// These labels.
fn labels_of(alloc: Global, texts: &[&str]) -> Result<BTreeSet<String>, AllocError> {
    let mut labels = BTreeSet::new(alloc);
    for text in texts {
        labels.insert(String::from_str(alloc, text)?)?;
    }
    Ok(labels)
}

// This tag, or none where it is empty.
fn tag_of(alloc: Global, tag: &str) -> Result<Option<String>, AllocError> {
    if tag.is_empty() {
        return Ok(None);
    }
    Ok(Some(String::from_str(alloc, tag)?))
}

// Adds a recipient of a tag, or without a stanza where the tag is empty, with these labels.
fn add(
    alloc: Global,
    recipients: &mut Vec<Box<dyn Recipient>>,
    tag: &str,
    draws: bool,
    texts: &[&str],
) -> Result<(), AllocError> {
    let tag = tag_of(alloc, tag)?;
    let labels = labels_of(alloc, texts)?;
    recipients.push(Box::new(alloc, ScriptedRecipient { tag, draws, labels })?)?;
    Ok(())
}

// Whether an encryption with so many random bytes succeeds, or, where a text is given, is refused with this text, and so many are left.
fn prepares(
    alloc: Global,
    recipients: &[Box<dyn Recipient>],
    random: usize,
    refusal: Option<&str>,
    left: usize,
) -> Result<bool, Fail> {
    let mut draw = sevens(alloc, random)?;
    let grease = grease(alloc, "x-grease")?;
    let encryptor = Encryptor::<BenchSuite>::with_recipients(alloc, recipients, &mut draw, grease);
    Ok(is_answered(alloc, encryptor, refusal) && draw.left() == left)
}

const RAN_OUT: Option<&str> = Some("random bytes ran out");

// Whether to no recipient nothing is encrypted.
fn none_is_refused(alloc: Global) -> Result<bool, Fail> {
    Ok(
        prepares(alloc, &[], 16, Some("no recipients"), 0)?
            && prepares(alloc, &[], 15, RAN_OUT, 15)?,
    )
}

// How many random bytes there are, why they don't do for one recipient, and how many are left.
const FOR_ONE: [(usize, Option<&str>, usize); 5] = [
    (15, RAN_OUT, 15),
    (16, RAN_OUT, 0),
    (31, RAN_OUT, 15),
    (32, None, 0),
    (40, None, 8),
];

#[test]
fn one_recipient_or_none(rt: HostRuntime) -> Result<(), Fail> {
    let alloc = rt.alloc();
    assert!(rt; none_is_refused(alloc)?);
    for (random, refusal, left) in FOR_ONE {
        assert!(rt;
            prepares(
                alloc,
                &recipients(alloc, &[Kind::Bench])?,
                random,
                refusal,
                left
            )?
        );
    }
    Ok(())
}

// The recipient of `bench`, and one that draws 32 bytes.
fn with_a_drawing_one(alloc: Global) -> Result<Vec<Box<dyn Recipient>>, AllocError> {
    let mut recipients = recipients(alloc, &[Kind::Bench])?;
    add(alloc, &mut recipients, "drawing", true, &[])?;
    Ok(recipients)
}

// The same for the two: how many random bytes there are, why they don't do, and how many are left.
const FOR_TWO: [(usize, Option<&str>, usize); 3] = [
    (47, RAN_OUT, 31),
    (63, RAN_OUT, 15),
    (64, None, 0),
];

#[test]
fn recipients_draw_in_turn(rt: HostRuntime) -> Result<(), Fail> {
    let alloc = rt.alloc();
    for (random, refusal, left) in FOR_TWO {
        assert!(rt; prepares(alloc, &with_a_drawing_one(alloc)?, random, refusal, left)?);
    }
    Ok(())
}

// A tag and labels of a recipient, and of another beside it, and why the two are refused, if they are.
type Pair = (
    &'static str,
    &'static [&'static str],
    &'static str,
    &'static [&'static str],
    Option<&'static str>,
);

const MIXED: Option<&str> = Some("a passphrase can't be used with other recipients");

const PAIRS: [Pair; 9] = [
    ("a", &["x", "y"], "b", &["y", "x"], None),
    (
        "a",
        &["x", "y"],
        "b",
        &["z", "x"],
        Some("recipients have different labels: x, y / x, z"),
    ),
    (
        "a",
        &[],
        "b",
        &["x y"],
        Some("recipients have different labels:  / x y"),
    ),
    (
        "a",
        &["x y"],
        "b",
        &[],
        Some("invalid recipient labels: x y"),
    ),
    ("a", &[], "scrypt", &["x"], MIXED),
    ("scrypt", &["x"], "a", &[], MIXED),
    ("scrypt", &["x"], "scrypt", &["y"], MIXED),
    ("a", &[], "scrypt", &[], MIXED),
    ("", &[], "", &[], None),
];

// The two recipients.
fn two_of(alloc: Global, pair: Pair) -> Result<Vec<Box<dyn Recipient>>, AllocError> {
    let (one, first, two, second, _) = pair;
    let mut recipients: Vec<Box<dyn Recipient>> = Vec::new(alloc);
    add(alloc, &mut recipients, one, false, first)?;
    add(alloc, &mut recipients, two, false, second)?;
    Ok(recipients)
}

// Whether the two are accepted, or refused with this text.
fn is_so(alloc: Global, pair: Pair) -> Result<bool, Fail> {
    let (_, _, _, _, refusal) = pair;
    let left = if refusal.is_none() { 0 } else { 16 };
    prepares(alloc, &two_of(alloc, pair)?, 32, refusal, left)
}

#[test]
fn labels_must_agree(rt: HostRuntime) -> Result<(), Fail> {
    let alloc = rt.alloc();
    for pair in PAIRS {
        assert!(rt; is_so(alloc, pair)?);
    }
    Ok(())
}

// A recipient that answers one stanza of this tag, or none.
fn one_of(alloc: Global, tag: &str) -> Result<Vec<Box<dyn Recipient>>, AllocError> {
    let mut recipients: Vec<Box<dyn Recipient>> = Vec::new(alloc);
    add(alloc, &mut recipients, tag, false, &[])?;
    Ok(recipients)
}

// The file of nothing to that recipient.
fn file_of(alloc: Global, tag: &str) -> Result<Vec<u8>, Fail> {
    let recipients = one_of(alloc, tag)?;
    let mut draw = sevens(alloc, 32)?;
    let encryptor = prepared::<BenchSuite, Box<dyn Recipient>>(alloc, &recipients, &mut draw)?;
    written(alloc, encryptor, b"")
}

// Identities of these scripts that weren't asked yet.
fn identities_of(alloc: Global, scripts: &[Script]) -> Result<Vec<Box<dyn Identity>>, AllocError> {
    let mut identities: Vec<Box<dyn Identity>> = Vec::new(alloc);
    for script in scripts {
        let identity = ScriptedIdentity {
            script: *script,
            asked: 0,
        };
        identities.push(Box::new(alloc, identity)?)?;
    }
    Ok(identities)
}

// Whether decrypting with these is refused with this text.
fn is_refused(
    alloc: Global,
    file: &[u8],
    identities: &mut [Box<dyn Identity>],
    expected: &str,
) -> bool {
    is_refusal(alloc, opened(alloc, file, identities), expected)
}

// Whether an identity answers this stanza as one that is asked for the first time.
fn answers_first(
    alloc: Global,
    identity: &mut Box<dyn Identity>,
    stanza: &Stanza,
) -> Result<bool, Fail> {
    let Some(answer) = identity.unwrap_stanza(alloc, stanza) else {
        return Ok(false);
    };
    Ok(*answer?.expose_secret() == [1; 16])
}

// Whether the last of them wasn't asked before.
fn last_wasnt_asked(alloc: Global, identities: &mut [Box<dyn Identity>]) -> Result<bool, Fail> {
    let Some(stanza) = empty_stanza(alloc, "tag")? else {
        return Err(Fail::from("no stanza"));
    };
    match identities.last_mut() {
        Some(last) => answers_first(alloc, last, &stanza),
        None => Ok(false),
    }
}

// One that answers nothing, one that refuses, and one that answers how often it was asked.
const THREE: [Script; 3] = [Script::Nothing, Script::Refusal, Script::TimesAsked];

// Whether the second of the three refuses a file, and the last isn't asked.
fn the_second_decides(alloc: Global, file: &[u8]) -> Result<bool, Fail> {
    let mut identities = identities_of(alloc, &THREE)?;
    Ok(
        is_refused(alloc, file, &mut identities, "decryption failed")
            && last_wasnt_asked(alloc, &mut identities)?,
    )
}

#[test]
fn the_first_identity_that_answers_decides(rt: HostRuntime) -> Result<(), Fail> {
    let alloc = rt.alloc();
    assert!(rt; the_second_decides(alloc, &file_of(alloc, "tag")?)?);
    Ok(())
}

// Whether decrypting with one of this script is refused with this text.
fn one_is_refused(
    alloc: Global,
    file: &[u8],
    script: Script,
    expected: &str,
) -> Result<bool, AllocError> {
    let mut identities = identities_of(alloc, &[script])?;
    Ok(is_refused(alloc, file, &mut identities, expected))
}

#[test]
fn no_identity_and_another_key(rt: HostRuntime) -> Result<(), Fail> {
    let alloc = rt.alloc();
    let file = file_of(alloc, "")?;
    assert!(rt;
        one_is_refused(alloc, &file, Script::Nothing, "no matching keys")?
            && one_is_refused(alloc, &file, Script::TimesAsked, "invalid header MAC")?
    );
    Ok(())
}
