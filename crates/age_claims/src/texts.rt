//! What the claims on one's own files share.
ghost use Rattle.std.specs.Prelude.{[], ◌∷◌, Some, Err, IfOk, IfErr, length};
ghost use Rattle.age.specs.Encrypting.{Prepares};
ghost use Rattle.age.specs.Identities.{FirstAnswer};
ghost use Rattle.age.specs.Several.{BelongsToOne};
ghost use Rattle.age.specs.FileLaws.{PreparesApart};
ghost use Rattle.age_claims.specs.Claims.{CarriesFor, RefusesBack};

use age::armor::Format;
use age::draw::Draw;
use age::format::Grease;
use age::io::Bytes;
use age::laws::several_recipients;
use age::streaming::{FileError, encrypt_all};
use age::suite::Suite;
use age::suite::laws::known_bytes;
use age::{Identity, Recipient};
use std::alloc::Global;

// Encrypts a plaintext to recipients in memory, bare or in armor: a text that carries a file for each identity that belongs to one of them.
pub(crate) fn text_for<S: Suite, T: Recipient, I: Identity>(
    alloc: Global,
    recipients: &[T],
    draw: &mut Draw,
    grease: Grease,
    format: Format,
    plain: &[u8],
) -> Result<Vec<u8>, FileError>
    ensures text { (one : I) → BelongsToOne T.wraps I.unwraps recipients.now one →
        PreparesApart T.wraps recipients.now (Some grease) draw.old draw.new S.seal_of plain.now →
        IfOk result (λ text. CarriesFor S.seal_of (FirstAnswer I.unwraps (one ∷ [])) plain.now text.items) }
    ensures refused { IfErr result (RefusesBack
        (λ refusal. Prepares T.wraps recipients.now (Some grease) draw.old (Err refusal) draw.new) (length plain.now)) }
{
    // Facts for the proof alone.
    several_recipients::<S, T, I>();
    known_bytes(plain);
    let mut file = Vec::new(alloc);
    let mut input = Bytes::new(plain);
    match encrypt_all::<S, T, Bytes, Vec<u8>>(
        alloc, recipients, draw, grease, format, &mut input, &mut file,
    ) {
        Err(error) => Err(error),
        Ok(()) => Ok(file),
    }
}
