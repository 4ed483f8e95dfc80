//! Calls on texts of keys, as `key_text::recipient TEXT`. `recipient`, `shown_recipient` (as whoever looks for faults sees it), `identity` and
//! `copied_identity` answer the text of the key, `generate BYTES` that of the identity or `none`, and how many of the random bytes are left.
//! `plugin_recipient TEXT`, `plugin_identity TEXT` and `plugin_default NAME` answer the plugin's name and the text of the key, which the first
//! two take from a copy. A refusal is its text.

use crate::words::{Fault, bytes, printed, said, text};
use age::draw::Draw;
use age::plugin;
use age::x25519::{Identity, Recipient};
use age_bench::suite::BenchSuite;
use std::alloc::Global;

fn recipient(alloc: Global, text: &str) -> Result<String, Fault> {
    match text.parse::<Recipient<BenchSuite>>() {
        Ok(recipient) => printed(alloc, &recipient),
        Err(refusal) => said(alloc, refusal),
    }
}

fn shown_recipient(alloc: Global, text: &str) -> Result<String, Fault> {
    match text.parse::<Recipient<BenchSuite>>() {
        Ok(recipient) => Ok(format!(in alloc; "{recipient:?}")?),
        Err(refusal) => said(alloc, refusal),
    }
}

// The text of an identity.
fn secret(alloc: Global, identity: &Identity<BenchSuite>) -> Result<String, Fault> {
    said(alloc, identity.to_string(alloc)?.expose_secret())
}

fn identity(alloc: Global, text: &str) -> Result<String, Fault> {
    match text.parse::<Identity<BenchSuite>>() {
        Ok(identity) => secret(alloc, &identity),
        Err(refusal) => said(alloc, refusal),
    }
}

fn copied_identity(alloc: Global, text: &str) -> Result<String, Fault> {
    match text.parse::<Identity<BenchSuite>>() {
        Ok(identity) => secret(alloc, &identity.clone()?),
        Err(refusal) => said(alloc, refusal),
    }
}

// The text of the identity that random bytes give, if they suffice.
fn generated(alloc: Global, draw: &mut Draw) -> Result<String, Fault> {
    match Identity::<BenchSuite>::generate(draw) {
        Some(identity) => secret(alloc, &identity),
        None => said(alloc, "none"),
    }
}

fn generate(alloc: Global, word: &str) -> Result<String, Fault> {
    let mut draw = Draw::new(bytes(alloc, word)?);
    let text = generated(alloc, &mut draw)?;
    Ok(format!(in alloc; "{text}, {} left", draw.left())?)
}

fn plugin_recipient(alloc: Global, text: &str) -> Result<String, Fault> {
    match plugin::Recipient::from_str(alloc, text) {
        Ok(key) => Ok(format!(in alloc; "{} {}", key.plugin(), key.clone()?)?),
        Err(refusal) => said(alloc, refusal),
    }
}

fn plugin_identity(alloc: Global, text: &str) -> Result<String, Fault> {
    match plugin::Identity::from_str(alloc, text) {
        Ok(key) => Ok(format!(in alloc; "{} {}", key.plugin(), key.clone()?)?),
        Err(refusal) => said(alloc, refusal),
    }
}

fn plugin_default(alloc: Global, name: &str) -> Result<String, Fault> {
    match plugin::Identity::default_for_plugin(alloc, name) {
        Ok(key) => Ok(format!(in alloc; "{} {key}", key.plugin())?),
        Err(refusal) => printed(alloc, &refusal),
    }
}

// What a call on a text answers.
fn answer_to(alloc: Global, name: &str, text: &str) -> Result<String, Fault> {
    match name {
        "recipient" => recipient(alloc, text),
        "shown_recipient" => shown_recipient(alloc, text),
        "identity" => identity(alloc, text),
        "copied_identity" => copied_identity(alloc, text),
        "plugin_recipient" => plugin_recipient(alloc, text),
        "plugin_identity" => plugin_identity(alloc, text),
        "plugin_default" => plugin_default(alloc, text),
        _ => Err(Fault::Call),
    }
}

/// What a call answers.
pub fn answer(alloc: Global, name: &str, words: &[&str]) -> Result<String, Fault> {
    match words {
        [word] if name == "generate" => generate(alloc, word),
        [word] => answer_to(alloc, name, &text(alloc, word)?),
        _ => Err(Fault::Call),
    }
}
