//! Encrypted from list to list, and decrypted again.
ghost use Rattle.std.specs.Prelude.{◌≡◌, [], ◌∷◌, Some, Err, MatchResult, length};
ghost use Rattle.age.specs.Several.{BelongsToOne};
ghost use Rattle.age.specs.Encrypting.{Prepares};
ghost use Rattle.age.specs.FileLaws.{PreparesApart};
ghost use Rattle.age_claims.specs.Claims.{RefusesBack};

use crate::texts::text_for;
use age::armor::Format;
use age::armor::laws::carried_is_unique;
use age::draw::Draw;
use age::format::Grease;
use age::io::Bytes;
use age::laws::one_plaintext;
use age::streaming::{FileError, decrypt_all};
use age::suite::Suite;
use age::{Identity, Recipient};
use std::alloc::Global;

/// Encrypts a plaintext to recipients in memory, bare or in armor, and decrypts the text with an identity: the plaintext.
///
/// The identity belongs to one of the recipients, and a full last chunk of the file doesn't open as one in the middle too. Then a success is the
/// plaintext. A refusal is want of memory, or `TooLong` of a plaintext of more than 2^60 bytes, or one of the encryption, to which the
/// recipients and the random bytes came.
pub fn kept<S: Suite, T: Recipient, I: Identity>(
    alloc: Global,
    recipients: &[T],
    identities: &mut [I],
    draw: &mut Draw,
    grease: Grease,
    format: Format,
    plain: &[u8],
) -> Result<Vec<u8>, FileError>
    ensures { (one : I) → identities.old ≡ one ∷ [] → BelongsToOne T.wraps I.unwraps recipients.now one →
        PreparesApart T.wraps recipients.now (Some grease) draw.old draw.new S.seal_of plain.now →
        MatchResult result (λ given. given.items ≡ plain.now)
        (RefusesBack (λ refusal. Prepares T.wraps recipients.now (Some grease) draw.old (Err refusal) draw.new) (length plain.now)) }
{
    // Facts for the proof alone.
    one_plaintext::<S>();
    carried_is_unique();
    let file = match text_for::<S, T, I>(alloc, recipients, draw, grease, format, plain) {
        Err(error) => return Err(error),
        Ok(file) => file,
    };
    let mut given = Vec::new(alloc);
    let mut text = Bytes::new(&file);
    match decrypt_all::<S, I, Bytes, Vec<u8>>(alloc, identities, &mut text, &mut given) {
        Err(error) => Err(error),
        Ok(()) => Ok(given),
    }
}
