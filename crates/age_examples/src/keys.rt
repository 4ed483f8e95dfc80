//! Files to one's own X25519 key.
ghost use Rattle.std.specs.Prelude.{◌≡◌, [], ◌∷◌, IfOk, IfErr, Some};
ghost use Rattle.age.specs.FileLaws.{PreparesApart};
ghost use Rattle.age_examples.specs.Keys.{RefusesFor};

use crate::several::opened_by_one;
use age::armor::Format;
use age::draw::Draw;
use age::format::Grease;
use age::streaming::FileError;
use age::suite::Suite;
use age::x25519::laws::x25519_pair;
use age::x25519::{Identity, Recipient};
use std::alloc::Global;

/// Encrypts a plaintext to the recipient of an identity, in this form, and decrypts the file with that identity: the plaintext.
///
/// Where a full last chunk of the file doesn't open as one in the middle too, a success is the plaintext, and it refuses as
/// `Encryptor::with_recipients` does, with `TooLong` for a plaintext past 2^60 bytes, or for want of memory, and for nothing else.
pub fn kept_for_oneself<S: Suite>(
    alloc: Global,
    identity: &mut Identity<S>,
    draw: &mut Draw,
    grease: Grease,
    format: Format,
    plain: &[u8],
) -> Result<Vec<u8>, FileError>
    ensures plaintext { PreparesApart ⟦<Recipient<S> as age::Recipient>⟧.wraps (S.public_of identity.old ∷ [])
        (Some grease) draw.old draw.new S.seal_of plain.now →
        IfOk result (λ given. given.items ≡ plain.now) }
    ensures refused { PreparesApart ⟦<Recipient<S> as age::Recipient>⟧.wraps (S.public_of identity.old ∷ [])
        (Some grease) draw.old draw.new S.seal_of plain.now →
        IfErr result (RefusesFor ⟦<Recipient<S> as age::Recipient>⟧.wraps (S.public_of identity.old ∷ []) grease draw.old draw.new plain.now) }
{
    // A fact for the proof alone.
    x25519_pair::<S>(identity);
    let recipients = [identity.to_public()];
    opened_by_one::<S, Recipient<S>, Identity<S>>(
        alloc,
        &recipients,
        identity,
        draw,
        grease,
        format,
        plain,
    )
}
