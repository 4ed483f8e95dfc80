//! Calls on files of identities: `identity::read TEXT` answers how many identities a file has and the text of each, or the refusal.

use crate::words::{Fault, bytes, printed};
use age::io::Bytes;
use age::x25519::Identity;
use age::{IdentityFile, NoCallbacks};
use age_bench::suite::BenchSuite;
use std::alloc::Global;

type File = IdentityFile<BenchSuite, NoCallbacks>;

fn listed(alloc: Global, identities: &[Identity<BenchSuite>]) -> Result<String, Fault> {
    let mut text = format!(in alloc; "{}", identities.len())?;
    for identity in identities {
        text.push(' ')?;
        text.push_str(identity.to_string(alloc)?.expose_secret())?;
    }
    Ok(text)
}

fn identities(alloc: Global, file: File) -> Result<String, Fault> {
    match file.into_identities(alloc) {
        Ok(identities) => listed(alloc, &identities),
        Err(refusal) => printed(alloc, &refusal),
    }
}

fn read(alloc: Global, text: &[u8]) -> Result<String, Fault> {
    match File::from_buffer(alloc, Bytes::new(text)) {
        Ok(file) => identities(alloc, file),
        Err(refusal) => printed(alloc, &refusal),
    }
}

/// What a call answers.
pub fn answer(alloc: Global, name: &str, words: &[&str]) -> Result<String, Fault> {
    match (name, words) {
        ("read", [word]) => read(alloc, &bytes(alloc, word)?),
        _ => Err(Fault::Call),
    }
}
