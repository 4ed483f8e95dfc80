//! A recipient and an identity that hide nothing: the file key stands in the header as it is.

ghost use Rattle.std.specs.Prelude.{Ok};
ghost use Rattle.std.specs.Result.{result_map_both};
ghost use Rattle.age.specs.EncryptErrors.{encrypt_refusal};
ghost use Rattle.age.specs.Identities.{FirstOf, Steady};
ghost use Rattle.age.specs.Encrypting.{IsOrNoMemory};
ghost use Rattle.age_bench.specs.Recipient.{BenchAsks, BenchWraps, bench_stanza};

use age::draw::Draw;
use age::format::Stanza;
use age::secrecy::FileKey;
use age::{DecryptError, EncryptError, Identity, Recipient};
use std::alloc::Global;
use std::collections::BTreeSet;

/// Wraps a file key as the body of one stanza with the tag `bench` and no arguments. It has no labels and draws nothing.
#[derive(Drop)]
pub struct BenchRecipient;

// The stanza whose body is the file key.
fn stanza_of(alloc: Global, file_key: &FileKey) -> Result<Stanza, EncryptError>
    ensures { IsOrNoMemory (Ok (bench_stanza file_key.now)) (result_map_both (λ s. s) (λ e. encrypt_refusal e) result) }
{
    let tag = String::from_str(alloc, "bench")?;
    let body = Vec::from_slice(alloc, file_key.expose_secret())?;
    match Stanza::new(tag, Vec::new(alloc), body) {
        Some(stanza) => Ok(stanza),
        None => unreachable!(),
    }
}

impl Recipient for BenchRecipient {
    ghost wraps = { λ _. BenchWraps };

    fn wrap_file_key(
        &self,
        alloc: Global,
        file_key: &FileKey,
        _draw: &mut Draw,
    ) -> Result<(Vec<Stanza>, BTreeSet<String>), EncryptError> {
        let mut stanzas = Vec::new(alloc);
        stanzas.push(stanza_of(alloc, file_key)?)?;
        Ok((stanzas, BTreeSet::new(alloc)))
    }
}

/// Unwraps what a `BenchRecipient` wrapped: of a stanza with the tag `bench` the body.
///
/// A stanza with another tag is passed over. An argument, or a body of other than 16 bytes, is `InvalidHeader`.
#[derive(Drop)]
pub struct BenchIdentity;

impl Identity for BenchIdentity {
    ghost unwraps = { FirstOf (Steady (λ _. BenchAsks)) };

    fn unwrap_stanza(
        &mut self,
        _alloc: Global,
        stanza: &Stanza,
    ) -> Option<Result<FileKey, DecryptError>> {
        if stanza.tag() != "bench" {
            return None;
        }
        if !stanza.args().is_empty() {
            return Some(Err(DecryptError::InvalidHeader));
        }
        match <[u8; 16]>::try_from(stanza.body()) {
            Ok(bytes) => Some(Ok(FileKey::new(bytes))),
            Err(_) => Some(Err(DecryptError::InvalidHeader)),
        }
    }
}
