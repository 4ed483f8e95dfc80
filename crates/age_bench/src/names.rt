//! To whom and with what the program encrypts and decrypts.
ghost use Rattle.age_bench.specs.Names.{WrapsTo, AsksWith};

use crate::recipient::{BenchIdentity, BenchRecipient};
use crate::suite::BenchSuite;
use age::draw::Draw;
use age::format::Stanza;
use age::secrecy::FileKey;
use age::{DecryptError, EncryptError, Identity, Recipient, scrypt, x25519};
use std::alloc::Global;
use std::collections::BTreeSet;

/// To whom is encrypted.
#[derive(Drop)]
pub enum To {
    /// The recipient of the bench suite.
    Bench,
    /// The X25519 recipient of a public value.
    Key(x25519::Recipient<BenchSuite>),
    /// All who know a passphrase.
    Passphrase(scrypt::Recipient<BenchSuite>),
}

// Each word's recipient answers by itself.
impl Recipient for To {
    ghost wraps = { λ to file_key draws answer left. WrapsTo to file_key draws answer left };

    fn wrap_file_key(
        &self,
        alloc: Global,
        file_key: &FileKey,
        draw: &mut Draw,
    ) -> Result<(Vec<Stanza>, BTreeSet<String>), EncryptError> {
        match self {
            To::Bench => BenchRecipient.wrap_file_key(alloc, file_key, draw),
            To::Key(recipient) => recipient.wrap_file_key(alloc, file_key, draw),
            To::Passphrase(recipient) => recipient.wrap_file_key(alloc, file_key, draw),
        }
    }
}

/// With what is decrypted.
#[derive(Drop)]
pub enum With {
    /// The identity of the bench suite.
    Bench,
    /// The X25519 identity of a secret.
    Key(x25519::Identity<BenchSuite>),
    /// One who knows a passphrase.
    Passphrase(scrypt::Identity<BenchSuite>),
}

// Each word's identity answers by itself, to one stanza after the other.
impl Identity for With {
    ghost use Rattle.age.specs.Identities.{FirstOf, Steady};

    ghost unwraps = { FirstOf (Steady AsksWith) };

    fn unwrap_stanza(
        &mut self,
        alloc: Global,
        stanza: &Stanza,
    ) -> Option<Result<FileKey, DecryptError>> {
        match self {
            With::Bench => BenchIdentity.unwrap_stanza(alloc, stanza),
            With::Key(identity) => identity.unwrap_stanza(alloc, stanza),
            With::Passphrase(identity) => identity.unwrap_stanza(alloc, stanza),
        }
    }
}
