//! What an identity's secret makes of a stanza.
ghost use Rattle.std.specs.Prelude.{◌≡◌};
ghost use Rattle.age_format.specs.Unwrapping.{unwrap_answer};
ghost use Rattle.age_v1.specs.Identities.{FirstOf, Steady};
ghost use Rattle.age_v1.specs.RecipientType.{UnwrapsOwn};
ghost use Rattle.age_v1.specs.X25519.{HasShare, opened_with, UnwrapsBy};

use crate::stanzas::open_file_key;
use crate::x25519::wrapping::{NO_SECRET, TAG, share_of, wrap_key};
use age_error::DecryptError;
use age_format::Stanza;
use age_suite::secrecy::FileKey;
use age_suite::suite::Suite;
use std::alloc::Global;

// What a secret, whose public value is handed in, answers to a stanza with the tag of this type.
fn unwrap_own<S: Suite>(
    alloc: Global,
    secret: &[u8; 32],
    public: &[u8; 32],
    stanza: &Stanza,
) -> Option<Result<FileKey, DecryptError>>
    requires { public.now ≡ S.public_of secret.now }
    ensures { UnwrapsOwn HasShare (opened_with S.opened S.shared_of S.public_of secret.now) stanza.now (unwrap_answer result) }
{
    let share = match share_of(alloc, stanza) {
        Ok(Some(share)) => share,
        Ok(None) => return Some(Err(DecryptError::InvalidHeader)),
        Err(_) => return Some(Err(DecryptError::OutOfMemory)),
    };
    let shared = S::x25519(secret, &share);
    if shared == NO_SECRET {
        return Some(Err(DecryptError::InvalidHeader));
    }
    let key = wrap_key(&share, public, &shared);
    match open_file_key::<S>(alloc, &key, stanza.body()) {
        Ok(Some(file_key)) => Some(Ok(file_key)),
        Ok(None) => None,
        Err(_) => Some(Err(DecryptError::OutOfMemory)),
    }
}

// What it answers to a stanza: one with another tag is passed over.
fn unwrap<S: Suite>(
    alloc: Global,
    secret: &[u8; 32],
    public: &[u8; 32],
    stanza: &Stanza,
) -> Option<Result<FileKey, DecryptError>>
    requires { public.now ≡ S.public_of secret.now }
    ensures { UnwrapsBy S.opened S.shared_of S.public_of secret.now stanza.now (unwrap_answer result) }
{
    if stanza.tag() != TAG {
        return None;
    }
    unwrap_own::<S>(alloc, secret, public, stanza)
}

// What it answers to stanzas: the first answer to one of them that isn't `None`, a refusal too.
fn unwrap_each<S: Suite>(
    alloc: Global,
    secret: &[u8; 32],
    public: &[u8; 32],
    stanzas: &[Stanza],
) -> Option<Result<FileKey, DecryptError>>
    requires { public.now ≡ S.public_of secret.now }
    ensures { FirstOf (Steady (UnwrapsBy S.opened S.shared_of S.public_of)) secret.now stanzas.now (unwrap_answer result) secret.now }
{
    let mut rest = stanzas;
    while let Some((stanza, tail)) = rest.split_first() {
        if let Some(answer) = unwrap::<S>(alloc, secret, public, stanza) {
            return Some(answer);
        }
        rest = tail;
    }
    None
}

/// What a secret answers to stanzas, one after the other. Its public value, which takes about as long as an agreement, is computed once
/// for all of them, and not at all where none has the tag of this type.
pub(crate) fn unwrap_first<S: Suite>(
    alloc: Global,
    secret: &[u8; 32],
    stanzas: &[Stanza],
) -> Option<Result<FileKey, DecryptError>>
    ensures { FirstOf (Steady (UnwrapsBy S.opened S.shared_of S.public_of)) secret.now stanzas.now (unwrap_answer result) secret.now }
{
    let mut rest = stanzas;
    while let Some((stanza, tail)) = rest.split_first() {
        if stanza.tag() == TAG {
            return unwrap_each::<S>(alloc, secret, &S::public(secret), rest);
        }
        rest = tail;
    }
    None
}
