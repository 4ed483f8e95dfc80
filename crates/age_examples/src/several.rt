//! A file for several recipients, opened by the identity of one of them.
ghost use Rattle.std.specs.Prelude.{◌≡◌, ℕ, List, [], ◌∷◌, IfOk, IfErr, Some};
ghost use Rattle.age.specs.Several.{BelongsToOne};
ghost use Rattle.age.specs.Stanza.{StanzaValue};
ghost use Rattle.age.specs.FileLaws.{PreparesApart};
ghost use Rattle.age_examples.specs.Keys.{AlwaysGiveKeysBack, GiveKeysBack, RefusesFor};

use age::armor::Format;
use age::draw::Draw;
use age::format::Grease;
use age::io::Bytes;
use age::laws::several_recipients;
use age::streaming::{FileError, encrypt_all};
use age::suite::Suite;
use age::suite::laws::known_bytes;
use age::{Identity, Recipient, decrypt};
use std::alloc::Global;

/// Encrypts a plaintext to all recipients, in this form, and decrypts the file with one identity: the plaintext.
///
/// Where the identity belongs to one of the recipients, and a full last chunk of the file doesn't open as one in the middle too, a success
/// is the plaintext, and it refuses as `Encryptor::with_recipients` does, with `TooLong` for a plaintext past 2^60 bytes, or for want of
/// memory, and for nothing else.
pub fn opened_by_one<S: Suite, T: Recipient, I: Identity>(
    alloc: Global,
    recipients: &[T],
    identity: &mut I,
    draw: &mut Draw,
    grease: Grease,
    format: Format,
    plain: &[u8],
) -> Result<Vec<u8>, FileError>
    ensures plaintext { BelongsToOne T.wraps I.unwraps recipients.now identity.old →
        PreparesApart T.wraps recipients.now (Some grease) draw.old draw.new S.seal_of plain.now →
        IfOk result (λ given. given.items ≡ plain.now) }
    ensures refused { BelongsToOne T.wraps I.unwraps recipients.now identity.old →
        PreparesApart T.wraps recipients.now (Some grease) draw.old draw.new S.seal_of plain.now →
        IfErr result (RefusesFor T.wraps recipients.now grease draw.old draw.new plain.now) }
{
    // Facts for the proof alone.
    several_recipients::<S, T, I>();
    // For the proof alone: these are bytes, each below 256.
    known_bytes(plain);
    let mut file = Vec::new(alloc);
    let mut reader = Bytes::new(plain);
    match encrypt_all::<S, T, Bytes, Vec<u8>>(
        alloc,
        recipients,
        draw,
        grease,
        format,
        &mut reader,
        &mut file,
    ) {
        Err(error) => return Err(error),
        Ok(()) => {}
    }
    match decrypt::<S, I>(alloc, identity, &file) {
        Err(error) => Err(FileError::Decrypt(error)),
        Ok(given) => Ok(given),
    }
}

/// Who always gives keys back, for proofs alone: it does nothing.
///
/// - `always`: one identity that belongs to one of the recipients does.
/// - `no_other`: identities that always give the file key that was wrapped give no other one.
pub fn keys_come_back<S: Suite, T: Recipient, I: Identity>()
    ensures always { (recipients : List T) (identity : I) (grease : StanzaValue) (draws left : List ℕ)
        → BelongsToOne T.wraps I.unwraps recipients identity →
        AlwaysGiveKeysBack T.wraps I.unwraps recipients grease draws left (identity ∷ []) }
    ensures no_other { (recipients : List T) (grease : StanzaValue) (draws left : List ℕ) (identities : List I) →
        AlwaysGiveKeysBack T.wraps I.unwraps recipients grease draws left identities →
        GiveKeysBack T.wraps I.unwraps recipients grease draws left identities }
{
    // A fact for the proof alone.
    several_recipients::<S, T, I>();
}
