//! A header of 10,000 stanzas, and copies of stanzas. What is read, refused and written is the table of `rows`.

use crate::fixtures::{shows, stanza};
use age::format::{HeaderV1, Stanza};
use age::io::{Bytes, Error, Read};
use age::secrecy::FileKey;
use std::alloc::{AllocError, Global};
use std::test::Fail;
use test_support::answers::delivers;

const NO_KEY: [u8; 16] = [0; 16];

// Whether a reader of a text has given so many bytes of it, and has the others.
fn stands_after<R: Read>(alloc: Global, input: &mut R, text: &[u8], taken: usize) -> bool {
    match text.split_at_checked(taken) {
        Some((_, rest)) => delivers(alloc, input, rest),
        None => false,
    }
}

// The header at the front of a text, where it has so many bytes.
fn header_of(alloc: Global, text: &[u8], size: usize) -> Result<HeaderV1, Fail> {
    let mut input = Bytes::new(text);
    let header = HeaderV1::read(alloc, &mut input)?;
    if stands_after(alloc, &mut input, text, size) {
        Ok(header)
    } else {
        Err(Fail::from("another size"))
    }
}

// What is written for a header.
fn written(alloc: Global, header: &HeaderV1) -> Result<Vec<u8>, Error> {
    let mut text = Vec::new(alloc);
    header.write(alloc, &mut text)?;
    Ok(text)
}

// Whether a header has so many stanzas, and this is its text and is written for it.
fn is_written_as(
    alloc: Global,
    header: &HeaderV1,
    stanzas: usize,
    text: &[u8],
) -> Result<bool, Error> {
    Ok(
        header.stanzas().len() == stanzas
            && written(alloc, header)?.as_slice() == text
            && header.text(alloc)?.as_slice() == text,
    )
}

// Whether the MAC of a header is that of a file key.
fn verifies(header: &HeaderV1, key: [u8; 16]) -> bool {
    header.verify_mac(&FileKey::new(key))
}

// Whether two headers have the same stanzas and the same MAC.
fn are_the_same(header: &HeaderV1, other: &HeaderV1) -> bool {
    header.stanzas() == other.stanzas() && header.mac() == other.mac()
}

// Whether so many bytes are written for a header, and one of so many stanzas is read from them that says the same, under the key
// too.
fn is_read_back(
    alloc: Global,
    header: &HeaderV1,
    key: [u8; 16],
    size: usize,
    stanzas: usize,
) -> Result<bool, Fail> {
    let text = written(alloc, header)?;
    let again = header_of(alloc, &text, size)?;
    Ok(
        text.len() == size
            && is_written_as(alloc, &again, stanzas, &text)?
            && are_the_same(&again, header)
            && verifies(&again, key),
    )
}

// The header of 10,000 stanzas, the last of which has another tag.
fn long(alloc: Global) -> Result<HeaderV1, Fail> {
    let mut stanzas = Vec::new(alloc);
    for _ in 0..9_999 {
        stanzas.push(stanza(alloc, "x", &[], &[])?)?;
    }
    stanzas.push(stanza(alloc, "y", &[], &[])?)?;
    Ok(HeaderV1::new(alloc, stanzas, &FileKey::new(NO_KEY))?)
}

#[test]
fn a_header_of_10_000_stanzas_is_read(rt: HostRuntime) -> Result<(), Fail> {
    let alloc = rt.alloc();
    assert!(rt; is_read_back(alloc, &long(alloc)?, NO_KEY, 60_070, 10_000)?);
    Ok(())
}

// Whether a stanza has this one argument.
fn has_argument(stanza: &Stanza, argument: &str) -> bool {
    match stanza.args() {
        [only] => only.as_str() == argument,
        _ => false,
    }
}

// Whether the copy of a stanza is the same, and has these parts.
fn is_cloned(stanza: &Stanza, tag: &str, argument: &str, body: &[u8]) -> Result<bool, AllocError> {
    let copy = stanza.clone()?;
    Ok(copy == *stanza && copy.tag() == tag && has_argument(&copy, argument) && copy.body() == body)
}

// Whether a stanza isn't the one of these parts.
fn differs(
    alloc: Global,
    one: &Stanza,
    tag: &str,
    arguments: &[&str],
    body: &[u8],
) -> Result<bool, Fail> {
    Ok(*one != stanza(alloc, tag, arguments, body)?)
}

#[test]
fn stanzas_are_cloned_and_compared(rt: HostRuntime) -> Result<(), Fail> {
    let alloc = rt.alloc();
    let one = stanza(alloc, "tag", &["argument"], b"body")?;
    assert!(rt; is_cloned(&one, "tag", "argument", b"body")?);
    assert!(rt;
        differs(alloc, &one, "tog", &["argument"], b"body")?
            && differs(alloc, &one, "tag", &[], b"body")?
            && differs(alloc, &one, "tag", &["argument"], b"bod")?
    );
    let text = "Stanza { tag: \"tag\", args: [\"argument\"], body: [98, 111, 100, 121] }";
    assert!(rt; shows(alloc, &one, text)?);
    Ok(())
}
