//! What a failed encryption leaves behind.
ghost use Rattle.std.specs.Prelude.{◌≡◌, ◌⊎◌, List, ℕ, Some, Ok, IsTrue, IfOk, OnOk};
ghost use Rattle.age.specs.Armor.{text_of};
ghost use Rattle.age.specs.Claims.{AppendsFile};
ghost use Rattle.age.specs.Copying.{AppendsFront};
ghost use Rattle.age.specs.Encrypting.{Prepared, Prepares};
ghost use Rattle.age.specs.File.{file_text};
ghost use Rattle.age.specs.WholeFiles.{IsWritten};

use age::Recipient;
use age::armor::Format;
use age::draw::Draw;
use age::format::Grease;
use age::io::{Bytes, Read, Write, write_all};
use age::streaming::{FileError, encrypt_all};
use age::suite::Suite;
use age::suite::laws::known_bytes;
use std::alloc::Global;

// The text of the file of a plaintext, as it is prepared.
fn file_of<S: Suite, T: Recipient>(
    alloc: Global,
    recipients: &[T],
    draw: &mut Draw,
    grease: Grease,
    format: Format,
    plain: &[u8],
) -> Result<Vec<u8>, FileError>
    ensures { IfOk result (λ text. (prepared : Prepared) × Prepares T.wraps recipients.now (Some grease) draw.old (Ok prepared) draw.new
        × IsWritten S.seal_of (text_of format) plain.now prepared text.items) }
{
    // For the proof alone: these are bytes, each below 256.
    known_bytes(plain);
    let mut text = Vec::new(alloc);
    let mut input = Bytes::new(plain);
    match encrypt_all::<S, T, Bytes, Vec<u8>>(
        alloc, recipients, draw, grease, format, &mut input, &mut text,
    ) {
        Err(error) => Err(error),
        Ok(()) => Ok(text),
    }
}

/// Encrypts a plaintext to recipients in memory, bare or in armor, and gives the text to a writer once it is whole.
///
/// - `left`: whatever it answers, the writer is as it was, or it was given a beginning of the text of one file of the plaintext, as the recipients
///   and the random bytes make it, and nothing else.
/// - `whole`: a success says that it was given all of that text.
pub fn written_at_once<S: Suite, T: Recipient, W: Write>(
    alloc: Global,
    recipients: &[T],
    draw: &mut Draw,
    grease: Grease,
    format: Format,
    plain: &[u8],
    writer: &mut W,
) -> Result<(), FileError>
    ensures left { IsTrue (W.tells writer.old) → (writer.new ≡ writer.old)
        ⊎ ((prepared : Prepared) × (text : List ℕ) × Prepares T.wraps recipients.now (Some grease) draw.old (Ok prepared) draw.new
        × IsWritten S.seal_of (text_of format) plain.now prepared text × AppendsFront W.appended text writer.old writer.new) }
    ensures whole { IsTrue (W.tells writer.old) → OnOk result
        ((prepared : Prepared) × (text : List ℕ) × Prepares T.wraps recipients.now (Some grease) draw.old (Ok prepared) draw.new
        × IsWritten S.seal_of (text_of format) plain.now prepared text × W.appended writer.old text writer.new) }
{
    let text = match file_of::<S, T>(alloc, recipients, draw, grease, format, plain) {
        Err(error) => return Err(error),
        Ok(text) => text,
    };
    match write_all(writer, &text) {
        Err(error) => Err(FileError::Io(error)),
        Ok(()) => Ok(()),
    }
}

/// Encrypts what a reader still has to recipients, bare or in armor, and writes it chunk by chunk. Reader and writer tell their bytes.
/// It refuses as `encrypt_all` does.
///
/// - `left`: whatever it answers, the writer is as it was, or it was given a beginning of the text of one file of what the reader had, as the
///   recipients and the random bytes make it, and nothing else.
/// - `whole`: a success says that what the reader had ended well, and that the writer was given all of that text.
pub fn left_behind<S: Suite, T: Recipient, R: Read, W: Write>(
    alloc: Global,
    recipients: &[T],
    draw: &mut Draw,
    grease: Grease,
    format: Format,
    reader: &mut R,
    writer: &mut W,
) -> Result<(), FileError>
    ensures left { IsTrue (R.tells reader.old) → IsTrue (W.tells writer.old) → (writer.new ≡ writer.old)
        ⊎ ((prepared : Prepared) × Prepares T.wraps recipients.now (Some grease) draw.old (Ok prepared) draw.new
        × AppendsFront W.appended
        (text_of format (file_text S.seal_of prepared.file_key prepared.stanzas prepared.nonce (R.rest reader.old).bytes)) writer.old writer.new) }
    ensures whole { IsTrue (R.tells reader.old) → IsTrue (W.tells writer.old) → OnOk result
        ((prepared : Prepared) × Prepares T.wraps recipients.now (Some grease) draw.old (Ok prepared) draw.new
        × AppendsFile S.seal_of W.appended (text_of format) prepared (R.rest reader.old) writer.old writer.new) }
{
    encrypt_all::<S, T, R, W>(alloc, recipients, draw, grease, format, reader, writer)
}
