//! What the identities of a file answer to stanzas.

use crate::fixtures::{File, K, is_key, is_missing_plugin, other_stanzas, own_stanzas};
use age::format::Stanza;
use age::io::Bytes;
use age_identity::identity::answer_of;
use std::alloc::Global;
use std::test::Fail;

const PLUGIN: &str = "AGE-PLUGIN-FOOBAR-1QVHULF";

// A file of these lines.
fn file_of(alloc: Global, first: &str, second: &str) -> Result<File, Fail> {
    let mut text = Vec::from_slice(alloc, first.as_bytes())?;
    text.push(b'\n')?;
    text.extend_from_slice(second.as_bytes())?;
    Ok(File::from_buffer(alloc, Bytes::new(text.as_slice()))?)
}

// Whether a file answers the file key of sevens.
fn gives_key(alloc: Global, file: &File, stanzas: &[Stanza]) -> bool {
    is_key(&answer_of(alloc, file, stanzas))
}

// Whether a file answers that a plugin's program is missing.
fn misses_plugin(alloc: Global, file: &File, stanzas: &[Stanza]) -> bool {
    is_missing_plugin(&answer_of(alloc, file, stanzas))
}

// Whether a file answers nothing.
fn passes(alloc: Global, file: &File, stanzas: &[Stanza]) -> bool {
    answer_of(alloc, file, stanzas).is_none()
}

// Whether a file of these lines answers the file key of sevens to its own stanzas.
fn lines_give_key(alloc: Global, first: &str, second: &str) -> Result<bool, Fail> {
    let stanzas = own_stanzas(alloc)?;
    Ok(gives_key(alloc, &file_of(alloc, first, second)?, stanzas.as_slice()))
}

#[test]
fn the_identity_of_a_stanza_answers(rt: HostRuntime) -> Result<(), Fail> {
    assert!(rt; lines_give_key(rt.alloc(), "# a comment", K)?);
    Ok(())
}

#[test]
fn others_answer_nothing(rt: HostRuntime) -> Result<(), Fail> {
    let stanzas = other_stanzas(rt.alloc())?;
    let file = file_of(rt.alloc(), K, "")?;
    assert!(rt; passes(rt.alloc(), &file, stanzas.as_slice()) && passes(rt.alloc(), &file, &[]));
    Ok(())
}

// Whether a file of these lines answers that a plugin's program is missing.
fn lines_miss_plugin(alloc: Global, first: &str, second: &str) -> Result<bool, Fail> {
    let stanzas = own_stanzas(alloc)?;
    Ok(misses_plugin(alloc, &file_of(alloc, first, second)?, stanzas.as_slice()))
}

#[test]
fn the_first_that_answers_decides(rt: HostRuntime) -> Result<(), Fail> {
    assert!(rt; lines_give_key(rt.alloc(), K, PLUGIN)?);
    assert!(rt; lines_miss_plugin(rt.alloc(), PLUGIN, K)?);
    Ok(())
}
