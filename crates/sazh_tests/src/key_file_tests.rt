//! Files of a passphrase, the file of a new key, and grease.

use age::draw::Draw;
use age::format::Stanza;
use age_bench::suite::BenchSuite;
use sazh_core::error::PassphraseError;
use sazh_core::grease::grease;
use sazh_core::keygen::new_key_file;
use sazh_core::passphrase::passphrase_of;
use std::alloc::Global;
use std::process::Abort;
use std::test::Fail;

// The file of the key whose secret is the bytes 0 to 31, under the bench suite; the texts by another implementation of Bech32.
const KEY_FILE: &[u8] =
    b"# public key: age1tfd4sk27taw965jn2pg4v465249ykjzffe85cn2zgdqyz3j8g3zscflrta
AGE-SECRET-KEY-1QQQSYQCYQ5RQWZQFPG9SCRGWPUGPZYSNZS23V9CCRYDPK8QARC0SWRYDWG
";

// Whether a file's text gives this passphrase.
fn gives(alloc: Global, text: &[u8], wanted: &str) -> bool {
    match passphrase_of(alloc, text) {
        Ok(secret) => secret.expose_secret() == wanted,
        Err(_) => false,
    }
}

// Whether a text is refused so.
fn is_refused(alloc: Global, text: &[u8], wanted: PassphraseError) -> bool {
    match passphrase_of(alloc, text) {
        Ok(_) => false,
        Err(error) => error == wanted,
    }
}

#[test]
fn passphrase_is_the_first_line(rt: HostRuntime) -> Result<(), Fail> {
    let alloc = rt.alloc();
    assert!(rt;
        gives(alloc, b"a pass phrase", "a pass phrase") && gives(alloc, b" a\t\nb\n", " a\t")
    );
    assert!(rt; gives(alloc, b"a\r\r\n", "a\r") && gives(alloc, b"a\r\n\xff", "a"));
    Ok(())
}

// The texts of an empty passphrase.
const EMPTY: [&[u8]; 3] = [b"", b"\nsecond", b"\r\n"];

#[test]
fn passphrase_is_a_text_that_is_not_empty(rt: HostRuntime) {
    for text in EMPTY {
        assert!(rt; is_refused(rt.alloc(), text, PassphraseError::Empty));
    }
    assert!(rt; is_refused(rt.alloc(), b"p\xe4sse", PassphraseError::NotText));
}

// What a key is made of here: the bytes 0 to 39.
fn draw(alloc: Global) -> Result<Draw, Fail> {
    let mut bytes = Vec::new(alloc);
    for byte in 0u8..40 {
        bytes.push(byte)?;
    }
    Ok(Draw::new(bytes))
}

#[test]
fn key_has_its_recipient_and_its_secret(rt: HostRuntime) -> Result<(), Fail> {
    let alloc = rt.alloc();
    let mut draw = draw(alloc)?;
    let text = new_key_file::<BenchSuite>(alloc, &mut draw)?;
    assert!(rt; text.as_slice() == KEY_FILE && draw.left() == 8);
    Ok(())
}

// Whether a stanza is this tag alone.
fn is_tag(stanza: &Stanza, tag: &str) -> bool {
    stanza.tag() == tag && stanza.args().is_empty() && stanza.body().is_empty()
}

#[test]
fn grease_is_a_tag_alone(rt: HostRuntime) -> Result<(), Fail> {
    let stanza = grease(rt.alloc())?.into_stanza();
    assert!(rt; is_tag(&stanza, "sazh-grease"));
    Ok(())
}
