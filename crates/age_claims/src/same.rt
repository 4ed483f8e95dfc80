//! Decrypted in one call, and from a reader to a writer.
ghost use Rattle.std.specs.Prelude.{◌≡◌, [], ◌∷◌, IfOk};
ghost use Rattle.age_claims.specs.Claims.{GiveOneKey};

use age::armor::laws::carried_is_unique;
use age::io::Bytes;
use age::laws::one_plaintext;
use age::streaming::{FileError, decrypt_all};
use age::suite::Suite;
use age::{Identity, decrypt, scrypt, x25519};
use std::alloc::Global;

/// Decrypts a slice in one call, and once more from a reader to a writer: both times the same plaintext.
///
/// The identity is handed in twice, and whenever it gives a file key to the stanzas of a header, it is the same one. Then two successes are one
/// plaintext, whatever the bytes are.
pub fn decrypted_twice<S: Suite, I: Identity>(
    alloc: Global,
    one: &mut I,
    others: &mut [I],
    file: &[u8],
) -> Result<(Vec<u8>, Vec<u8>), FileError>
    ensures { others.old ≡ one.old ∷ [] → GiveOneKey I.unwraps others.old → IfOk result (λ both. both.0.items ≡ both.1.items) }
{
    // Facts for the proof alone.
    one_plaintext::<S>();
    carried_is_unique();
    let first = match decrypt::<S, I>(alloc, one, file) {
        Err(error) => return Err(FileError::Decrypt(error)),
        Ok(plain) => plain,
    };
    let mut second = Vec::new(alloc);
    let mut text = Bytes::new(file);
    match decrypt_all::<S, I, Bytes, Vec<u8>>(alloc, others, &mut text, &mut second) {
        Err(error) => Err(error),
        Ok(()) => Ok((first, second)),
    }
}

/// An X25519 identity gives one file key to the stanzas of a header, if any: so `decrypted_twice` speaks of it.
pub fn x25519_gives_one_key<S: Suite>(identity: &x25519::Identity<S>)
    ensures { GiveOneKey ⟦<x25519::Identity<S> as Identity>⟧.unwraps (identity.now ∷ []) }
{
    let _identity = identity;
}

/// So does an identity of a passphrase.
pub fn passphrase_gives_one_key<S: Suite>(identity: &scrypt::Identity<S>)
    ensures { GiveOneKey ⟦<scrypt::Identity<S> as Identity>⟧.unwraps (identity.now ∷ []) }
{
    let _identity = identity;
}
