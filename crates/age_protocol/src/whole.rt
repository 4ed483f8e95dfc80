//! Whole files from a reader to a writer, in flat memory.
ghost use Rattle.std.specs.Prelude.{◌≡◌, ℕ, List, IsTrue, Some, Ok, Err, OnOk, IfErr};
ghost use Rattle.age_io.specs.Copying.{AppendsFront};
ghost use Rattle.age_v1.specs.Encrypting.{Prepared, Prepares};
ghost use Rattle.age_error.specs.Bytes.{AreBytes};
ghost use Rattle.age_v1.specs.File.{IsFileOf, file_text};
ghost use Rattle.age_protocol.specs.PrivateWriting.{EndsText, WritesMade};
ghost use Rattle.age_protocol.specs.WholeFiles.{RefusesWriting};
ghost use Rattle.age_v1.specs.Armor.{text_of};
ghost use Rattle.age_v1.specs.Claims.{AppendsFile};
ghost use Rattle.age_error.specs.FileErrors.{IfIo, IsEncryptError, EncryptsUnless};
ghost use Rattle.age_protocol.specs.DecryptingStreams.{DecryptsAll};
ghost use Rattle.age_v1.specs.Identities.{AnswersFirst, GivesFirst, FirstAnswer, IsFileFor};

use crate::encryptor::Encryptor;
use crate::laws::files_carry_themselves;
use crate::opening::open_file;
use crate::payload::write_payload;
use age_armor::{
    ArmoredReader, ArmoredWriter, Format, armor_is_carrying, sent_law as sent_in_armor,
};
use age_error::{FileError, io};
use age_format::{Grease, Identity, Recipient};
use age_io::{BufReader, Read, Write, copy_all, flush_retrying};
use age_stream::laws::reader_law;
use age_suite::draw::Draw;
use age_suite::suite::Suite;
use std::alloc::Global;

/// Reads what `reader` still has, and appends the file of it, encrypted to the recipients, to `writer`, which is flushed:
/// the file itself, or its armor.
///
/// The random bytes are drawn before anything is read or written, as by `Encryptor::with_recipients`, which also says what the
/// grease is for. A success says that the input ended well, and that what was appended is its file in this form; after an error of
/// encryption nothing was read or written. It takes the memory of the header's text, of a few chunks, and in armor of some lines,
/// whatever the length of the input. After any other refusal a beginning of the file in this form was appended, of all that the input
/// had (`front`): an input past 2^60 bytes is `TooLong`, want of memory `OutOfMemory`, and the others are those of the reader and the
/// writer.
pub fn encrypt_all<S: Suite, T: Recipient, R: Read, W: Write>(
    alloc: Global,
    recipients: &[T],
    draw: &mut Draw,
    grease: Grease,
    format: Format,
    reader: &mut R,
    writer: &mut W,
) -> Result<(), FileError>
    ensures file { IsTrue (R.tells reader.old) → IsTrue (W.tells writer.old) → OnOk result
        ((file : Prepared)
        × Prepares T.wraps recipients.now (Some grease) draw.old (Ok file) draw.new
        × AppendsFile S.seal_of W.appended (text_of format) file (R.rest reader.old) writer.old writer.new) }
    ensures refused { IfErr result (λ e. IsEncryptError e → (reader.new ≡ reader.old) × (writer.new ≡ writer.old)) }
    ensures why { IfErr result (EncryptsUnless (λ refusal. Prepares T.wraps recipients.now (Some grease) draw.old (Err refusal) draw.new)) }
    // After any other refusal a beginning of the file in this form was appended.
    ensures front { IsTrue (R.tells reader.old) → IsTrue (W.tells writer.old) → IfErr result (IfIo (λ _.
        (file : Prepared) × Prepares T.wraps recipients.now (Some grease) draw.old (Ok file) draw.new
        × AppendsFront W.appended (text_of format (file_text S.seal_of file.file_key file.stanzas file.nonce (R.rest reader.old).bytes))
        writer.old writer.new)) }
    // The file was prepared, and the reader refuses, or the writer, memory or the length does: the reader only where it has a fault.
    ensures io { IfErr result (IfIo (λ e.
        ((file : Prepared) × Prepares T.wraps recipients.now (Some grease) draw.old (Ok file) draw.new)
        × RefusesWriting ⟦<R as Read>⟧ ⟦<W as Write>⟧ reader.old reader.new writer.old writer.new e)) }
{
    // A fact for the proof alone.
    files_carry_themselves::<S>();
    armor_is_carrying();
    let encryptor = Encryptor::<S>::with_recipients(alloc, recipients, draw, grease)?;
    let written = write_file::<S, R, &mut W>(alloc, encryptor, format, reader, writer);
    match written.1 {
        Ok(()) => Ok(()),
        Err(error) => Err(FileError::Io(error)),
    }
}

// Writes the file of what `reader` still has, and hands back the writer beside the answer.
fn write_binary<S: Suite, R: Read, W: Write>(
    alloc: Global,
    encryptor: Encryptor<S>,
    reader: &mut R,
    output: W,
) -> (W, Result<(), io::Error>)
    ensures made { WritesMade ⟦<R as Read>⟧ ⟦<W as Write>⟧ (λ plain. file_text S.seal_of encryptor.file_key encryptor.stanzas encryptor.nonce plain)
        reader.old reader.new output result }
    ensures is_file { OnOk result.1 ((plain : List ℕ) →
        IsFileOf S.seal_of encryptor.file_key encryptor.stanzas plain
        (file_text S.seal_of encryptor.file_key encryptor.stanzas encryptor.nonce plain)) }
    ensures bytes { OnOk result.1 ((plain : List ℕ) → AreBytes plain →
        AreBytes (file_text S.seal_of encryptor.file_key encryptor.stanzas encryptor.nonce plain)) }
{
    match encryptor.begin(alloc, output) {
        Ok(mut stream) => {
            let written = write_payload(alloc, reader, &mut stream);
            (stream.into_inner(), written)
        }
        Err((output, error)) => (output, Err(error)),
    }
}

// Ends the text of what was written, and flushes the writer below.
fn end_text<W: Write>(armored: ArmoredWriter<W>) -> (W, Result<(), io::Error>)
    ensures { EndsText ⟦<W as Write>⟧ armored result }
{
    let mut armored = armored;
    let closed = armored.close();
    let mut output = armored.into_inner();
    match closed {
        Ok(()) => {
            let flushed = flush_retrying(&mut output);
            (output, flushed)
        }
        Err(error) => (output, Err(error)),
    }
}

// The same in this form, flushed.
fn write_file<S: Suite, R: Read, W: Write>(
    alloc: Global,
    encryptor: Encryptor<S>,
    format: Format,
    reader: &mut R,
    writer: W,
) -> (W, Result<(), io::Error>)
    ensures made { WritesMade ⟦<R as Read>⟧ ⟦<W as Write>⟧
        (λ plain. text_of format (file_text S.seal_of encryptor.file_key encryptor.stanzas encryptor.nonce plain))
        reader.old reader.new writer result }
    ensures is_file { OnOk result.1 ((plain : List ℕ) →
        IsFileOf S.seal_of encryptor.file_key encryptor.stanzas plain
        (file_text S.seal_of encryptor.file_key encryptor.stanzas encryptor.nonce plain)) }
    ensures bytes { OnOk result.1 ((plain : List ℕ) → AreBytes plain →
        AreBytes (file_text S.seal_of encryptor.file_key encryptor.stanzas encryptor.nonce plain)) }
{
    sent_in_armor::<W>();
    match ArmoredWriter::begin(alloc, writer, format) {
        Ok(armored) => {
            let written = write_binary(alloc, encryptor, reader, armored);
            match written.1 {
                Ok(()) => end_text(written.0),
                Err(error) => (written.0.into_inner(), Err(error)),
            }
        }
        Err((writer, error)) => (writer, Err(error)),
    }
}

/// Reads a file to its end, bare or in armor, and appends its plaintext, decrypted by one of the identities, to `writer`.
///
/// A success says that the input carried a file of exactly what was appended, under the file key of the first identity
/// that answered. After a refusal of the header, or of the armor before its end, nothing was appended; after a later one a
/// beginning of what the good chunks open to. The refusals are `Decrypt` of `open_file`, and `Io` of `ArmoredReader::new`, by
/// which fewer than 36 bytes are `UnexpectedEof`, whatever they are, and of `copy_all`. It takes the memory of a piece of the
/// plaintext and of a few chunks, whatever the length of the file.
pub fn decrypt_all<S: Suite, I: Identity, R: Read, W: Write>(
    alloc: Global,
    identities: &mut [I],
    reader: &mut R,
    writer: &mut W,
) -> Result<(), FileError>
    ensures { DecryptsAll ⟦<S as Suite>⟧ ⟦<R as Read>⟧ ⟦<W as Write>⟧ (GivesFirst I.unwraps identities.old identities.new)
        (AnswersFirst I.unwraps identities.old identities.new) (IsFileFor S.seal_of (FirstAnswer I.unwraps identities.old))
        reader.old writer.old writer.new result }
{
    let text = ArmoredReader::new(alloc, reader)?;
    let mut stream = open_file::<S, I, ArmoredReader<BufReader<&mut R>>>(alloc, identities, text)?;
    // A fact for the proof alone.
    reader_law(&stream);
    copy_all(alloc, &mut stream, writer)?;
    Ok(())
}
