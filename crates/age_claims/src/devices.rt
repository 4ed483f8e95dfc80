//! Encrypted from a device, and decrypted to a device.
ghost use Rattle.std.specs.Prelude.{◌≡◌, ◌&&◌, [], ◌∷◌, Some, Err, IsTrue, IfOk, OnOk, IfErr, length};
ghost use Rattle.age.specs.Copying.{AppendsFront};
ghost use Rattle.age.specs.Encrypting.{Prepares};
ghost use Rattle.age.specs.Identities.{FirstAnswer};
ghost use Rattle.age.specs.Reading.{IsQuiet};
ghost use Rattle.age.specs.Several.{BelongsToOne};
ghost use Rattle.age.specs.FileLaws.{PreparesApart};
ghost use Rattle.age_claims.specs.Claims.{CarriesFor, RefusesBack, RefusesRekeying};

use age::armor::Format;
use age::armor::laws::carried_is_unique;
use age::draw::Draw;
use age::format::Grease;
use age::io::{Bytes, Read, Write};
use age::laws::{one_plaintext, several_recipients};
use age::streaming::{FileError, decrypt_all, encrypt_all};
use age::suite::Suite;
use age::{Identity, Recipient};
use std::alloc::Global;

// Encrypts what a reader still has to recipients, bare or in armor: a text that carries a file of that for each identity that belongs to one of
// them.
fn text_from<S: Suite, T: Recipient, I: Identity, R: Read>(
    alloc: Global,
    recipients: &[T],
    draw: &mut Draw,
    grease: Grease,
    format: Format,
    reader: &mut R,
) -> Result<Vec<u8>, FileError>
    ensures ended { IsTrue (R.tells reader.old) → OnOk result (IsTrue (R.rest reader.old).ends_well) }
    ensures text { IsTrue (R.tells reader.old && R.steady reader.old) → (one : I) → BelongsToOne T.wraps I.unwraps recipients.now one
        → PreparesApart T.wraps recipients.now (Some grease) draw.old draw.new S.seal_of (R.rest reader.old).bytes
        → IfOk result (λ text. CarriesFor S.seal_of (FirstAnswer I.unwraps (one ∷ [])) (R.rest reader.old).bytes text.items) }
    ensures refused { IsTrue (R.tells reader.old) → IsTrue (R.rest reader.old).ends_well → IsQuiet (R.faults reader.old) (R.faults reader.new)
        → IfErr result (RefusesBack (λ refusal. Prepares T.wraps recipients.now (Some grease) draw.old (Err refusal) draw.new)
        (length (R.rest reader.old).bytes)) }
{
    // A fact for the proof alone.
    several_recipients::<S, T, I>();
    let mut text = Vec::new(alloc);
    match encrypt_all::<S, T, R, Vec<u8>>(
        alloc, recipients, draw, grease, format, reader, &mut text,
    ) {
        Err(error) => Err(error),
        Ok(()) => Ok(text),
    }
}

/// Encrypts what a reader still has to recipients in memory, bare or in armor, and decrypts the text to a writer, with an identity that belongs to
/// one of the recipients. Both devices may fail, and interrupt. A full last chunk of
/// the file doesn't open as one in the middle too.
///
/// - `all`: a success says, however often a device failed, that the reader's rest ended well, and that the writer was given just its bytes.
/// - `front`: whatever it answers, the writer was given a beginning of these bytes, and nothing else.
/// - `why`: where the reader's rest ends well, and its device, though it might, didn't fail in this call, a refusal is want of memory, or one of the
///   writer, the recipients or the random bytes, or `TooLong` of a plaintext of more than 2^60 bytes.
pub fn kept_between_devices<S: Suite, T: Recipient, I: Identity, R: Read, W: Write>(
    alloc: Global,
    recipients: &[T],
    identities: &mut [I],
    draw: &mut Draw,
    grease: Grease,
    format: Format,
    reader: &mut R,
    writer: &mut W,
) -> Result<(), FileError>
    ensures all { IsTrue (R.tells reader.old && R.steady reader.old) → IsTrue (W.tells writer.old) → (one : I) → identities.old ≡ one ∷ []
        → BelongsToOne T.wraps I.unwraps recipients.now one
        → PreparesApart T.wraps recipients.now (Some grease) draw.old draw.new S.seal_of (R.rest reader.old).bytes
        → OnOk result (IsTrue (R.rest reader.old).ends_well × W.appended writer.old (R.rest reader.old).bytes writer.new) }
    ensures front { IsTrue (R.tells reader.old && R.steady reader.old) → IsTrue (W.tells writer.old) → (one : I) → identities.old ≡ one ∷ []
        → BelongsToOne T.wraps I.unwraps recipients.now one
        → PreparesApart T.wraps recipients.now (Some grease) draw.old draw.new S.seal_of (R.rest reader.old).bytes
        → AppendsFront W.appended (R.rest reader.old).bytes writer.old writer.new }
    ensures why { IsTrue (R.tells reader.old && R.steady reader.old) → IsTrue (R.rest reader.old).ends_well
        → IsQuiet (R.faults reader.old) (R.faults reader.new) → (one : I) → identities.old ≡ one ∷ []
        → BelongsToOne T.wraps I.unwraps recipients.now one
        → PreparesApart T.wraps recipients.now (Some grease) draw.old draw.new S.seal_of (R.rest reader.old).bytes
        → IfErr result (RefusesRekeying (λ refusal. Prepares T.wraps recipients.now (Some grease) draw.old (Err refusal) draw.new)
        W.refuses writer.old (length (R.rest reader.old).bytes)) }
{
    // Facts for the proof alone.
    one_plaintext::<S>();
    carried_is_unique();
    let file = match text_from::<S, T, I, R>(alloc, recipients, draw, grease, format, reader) {
        Err(error) => return Err(error),
        Ok(file) => file,
    };
    let mut text = Bytes::new(&file);
    decrypt_all::<S, I, Bytes, W>(alloc, identities, &mut text, writer)
}
