//! Those who decrypt.
ghost use Rattle.std.specs.Prelude.{◌≡◌};
ghost use Rattle.age.specs.Unwrapping.{unwrap_answer};
ghost use Rattle.sazh_core.specs.Holder.{HolderUnwraps, passed_over};

use age::format::Stanza;
use age::io::Read;
use age::secrecy::FileKey;
use age::suite::Suite;
use age::{Callbacks, DecryptError, Identity, encrypted, scrypt, x25519};
use std::alloc::Global;

/// One who decrypts. It answers as the identity that it holds, and changes as that does. A file that its passphrase doesn't open is passed
/// over, so that another may answer.
#[derive(Drop)]
pub enum Holder<S, R: Drop, C> {
    /// Who has a key.
    Key(x25519::Identity<S>),
    /// Who has the keys in a file that is encrypted with a passphrase.
    File(encrypted::Identity<S, R, C>),
    /// Who knows a passphrase.
    Passphrase(scrypt::Identity<S>),
}

// An answer, or none where it says that the passphrase opens no file.
fn passed_over(
    answer: Option<Result<FileKey, DecryptError>>,
) -> Option<Result<FileKey, DecryptError>>
    ensures { unwrap_answer result ≡ passed_over (unwrap_answer answer) }
{
    match answer {
        Some(Err(DecryptError::KeyDecryptionFailed)) => None,
        answer => answer,
    }
}

impl<S: Suite, R: Read + Drop, C: Callbacks> Identity for Holder<S, R, C> {
    ghost unwraps = { HolderUnwraps ⟦<x25519::Identity<S> as Identity>⟧.unwraps ⟦<encrypted::Identity<S, R, C> as Identity>⟧.unwraps
        ⟦<scrypt::Identity<S> as Identity>⟧.unwraps };

    fn unwrap_stanza(
        &mut self,
        alloc: Global,
        stanza: &Stanza,
    ) -> Option<Result<FileKey, DecryptError>> {
        match self {
            Holder::Key(identity) => identity.unwrap_stanza(alloc, stanza),
            Holder::File(identity) => passed_over(identity.unwrap_stanza(alloc, stanza)),
            Holder::Passphrase(identity) => identity.unwrap_stanza(alloc, stanza),
        }
    }

    fn unwrap_stanzas(
        &mut self,
        alloc: Global,
        stanzas: &[Stanza],
    ) -> Option<Result<FileKey, DecryptError>> {
        match self {
            Holder::Key(identity) => identity.unwrap_stanzas(alloc, stanzas),
            Holder::File(identity) => passed_over(identity.unwrap_stanzas(alloc, stanzas)),
            Holder::Passphrase(identity) => identity.unwrap_stanzas(alloc, stanzas),
        }
    }
}
