//! A recipient and an identity of one's own. They hide nothing: the file key stands in the header as it is.
ghost use Rattle.std.specs.Prelude.{Ok};
ghost use Rattle.std.specs.Result.{result_map_both};
ghost use Rattle.age.specs.EncryptErrors.{encrypt_refusal};
ghost use Rattle.age.specs.Identities.{FirstOf, Steady};
ghost use Rattle.age.specs.Encrypting.{IsOrNoMemory};
ghost use Rattle.age.specs.Belonging.{BelongsTo};
ghost use Rattle.age_examples.specs.Own.{OwnWraps, OwnAsks, own_stanza, has_other_tag};

use age::draw::Draw;
use age::format::Stanza;
use age::secrecy::FileKey;
use age::{DecryptError, EncryptError, Identity, Recipient};
use std::alloc::Global;
use std::collections::BTreeSet;

/// Wraps a file key as the body of one stanza with the tag `own` and no arguments. It has no labels and draws nothing.
#[derive(Drop)]
pub struct OwnRecipient;

// The stanza whose body is the file key.
fn stanza_of(alloc: Global, file_key: &FileKey) -> Result<Stanza, EncryptError>
    ensures { IsOrNoMemory (Ok (own_stanza file_key.now)) (result_map_both (λ s. s) (λ e. encrypt_refusal e) result) }
{
    let tag = String::from_str(alloc, "own")?;
    let body = Vec::from_slice(alloc, file_key.expose_secret())?;
    match Stanza::new(tag, Vec::new(alloc), body) {
        Some(stanza) => Ok(stanza),
        // The tag is a string of the format.
        None => unreachable!(),
    }
}

impl Recipient for OwnRecipient {
    ghost wraps = { λ _. OwnWraps };

    fn wrap_file_key(
        &self,
        alloc: Global,
        file_key: &FileKey,
        _draw: &mut Draw,
    ) -> Result<(Vec<Stanza>, BTreeSet<String>), EncryptError> {
        let mut stanzas = Vec::new(alloc);
        stanzas.push(stanza_of(alloc, file_key)?)?;
        Ok((stanzas, BTreeSet::new(alloc)))
    }
}

/// Unwraps what an `OwnRecipient` wrapped: of a stanza with the tag `own` the body.
///
/// A stanza with another tag is passed over. An argument, or a body of other than 16 bytes, is `InvalidHeader`.
#[derive(Drop)]
pub struct OwnIdentity;

impl Identity for OwnIdentity {
    ghost unwraps = { FirstOf (Steady (λ _. OwnAsks)) };

    fn unwrap_stanza(
        &mut self,
        _alloc: Global,
        stanza: &Stanza,
    ) -> Option<Result<FileKey, DecryptError>> {
        if stanza.tag() != "own" {
            return None;
        }
        if !stanza.args().is_empty() {
            return Some(Err(DecryptError::InvalidHeader));
        }
        match <[u8; 16]>::try_from(stanza.body()) {
            Ok(bytes) => Some(Ok(FileKey::new(bytes))),
            Err(_) => Some(Err(DecryptError::InvalidHeader)),
        }
    }
}

/// The identity belongs to the recipient: it answers the file key that the recipient wrapped, whatever stands after the recipient's
/// stanza, and whatever stanzas with another tag stand before it. For proofs alone: it does nothing.
pub fn own_pair(recipient: &OwnRecipient, identity: &OwnIdentity)
    ensures { BelongsTo ⟦<OwnRecipient as Recipient>⟧.wraps ⟦<OwnIdentity as Identity>⟧.unwraps has_other_tag recipient.now identity.now }
{
    let _recipient = recipient;
    let _identity = identity;
}
