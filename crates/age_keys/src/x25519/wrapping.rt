//! Stanzas of the X25519 recipient type.
ghost use Rattle.std.specs.Prelude.{◌≡◌, ℕ, List, [], ◌∷◌, Ok, IfOk, MatchOption};
ghost use Rattle.std.specs.Result.{result_map_both};
ghost use Rattle.age_error.specs.EncryptErrors.{encrypt_refusal};
ghost use Rattle.age_v1.specs.Encrypting.{IsOrNoMemory};
ghost use Rattle.age_v1.specs.RecipientType.{no_nonce};
ghost use Rattle.age_v1.specs.X25519.{wrap_key, x25519_stanza, HasShare};

use crate::stanzas::{decode_argument, seal_stanza};
use age_base64::encode_columns;
use age_error::EncryptError;
use age_error::bytes::known_array;
use age_format::Stanza;
use age_suite::mac::hkdf;
use age_suite::secrecy::FileKey;
use age_suite::suite::Suite;
use std::alloc::{AllocError, Global};

/// The tag of the type.
pub(crate) const TAG: &str = "X25519";

/// The secret that both sides abort at.
pub(crate) const NO_SECRET: [u8; 32] = [0; 32];

/// The key that a file key is sealed with, of a share, a recipient and the secret that they share.
pub(crate) fn wrap_key(share: &[u8; 32], recipient: &[u8; 32], shared: &[u8; 32]) -> [u8; 32]
    ensures { result ≡ wrap_key share.now recipient.now shared.now }
{
    let mut salt = [0; 64];
    let (front, back) = salt.split_at_mut(32);
    front.copy_from_slice(share);
    back.copy_from_slice(recipient);
    hkdf(&salt, b"age-encryption.org/v1/X25519", shared)
}

/// The stanza of a share and of the file key sealed under a wrap key.
pub(crate) fn stanza_of<S: Suite>(
    alloc: Global,
    share: &[u8; 32],
    wrap_key: &[u8; 32],
    file_key: &FileKey,
) -> Result<Stanza, EncryptError>
    ensures { IsOrNoMemory (Ok (x25519_stanza share.now (S.seal_of wrap_key.now no_nonce file_key.now)))
        (result_map_both (λ s. s) (λ e. encrypt_refusal e) result) }
{
    // For the proof alone: these are bytes, each below 256.
    known_array(share);
    let mut args = Vec::new(alloc);
    args.push(encode_columns(alloc, share)?)?;
    seal_stanza::<S>(alloc, TAG, args, wrap_key, file_key)
}

// The argument of a stanza that has one.
fn one_argument(stanza: &Stanza) -> Option<&str>
    ensures { MatchOption result ((argument : List ℕ) → stanza.now.args ≡ argument ∷ [] → ⊥) (λ argument. stanza.now.args ≡ argument.now ∷ []) }
{
    let (argument, more) = stanza.args().split_first()?;
    if more.is_empty() {
        Some(argument.as_str())
    } else {
        None
    }
}

/// The share of a stanza, or `None` where it lacks what this type asks: one argument, the base64 of 32 bytes, and a body of 32
/// bytes.
pub(crate) fn share_of(alloc: Global, stanza: &Stanza) -> Result<Option<[u8; 32]>, AllocError>
    ensures { IfOk result (λ found. MatchOption found ((share : List ℕ) → HasShare share stanza.now → ⊥) (λ share. HasShare share stanza.now)) }
{
    let Some(argument) = one_argument(stanza) else {
        return Ok(None);
    };
    if stanza.body().len() != 32 {
        return Ok(None);
    }
    decode_argument::<32>(alloc, argument)
}
