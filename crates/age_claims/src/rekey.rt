//! A file decrypted, and encrypted to others.
ghost use Rattle.std.specs.Prelude.{◌≡◌, ◌⊎◌, ◌&&◌, ℕ, List, Some, Ok, Err, IsTrue, IfOk, OnOk, IfErr, MatchResult, length};
ghost use Rattle.age.specs.Armor.{Carries, text_of};
ghost use Rattle.age.specs.Encrypting.{Prepared, Prepares};
ghost use Rattle.age.specs.Stretch.{whole};
ghost use Rattle.age.specs.Claims.{AppendsFile};
ghost use Rattle.age.specs.FileErrors.{IsDecryptError, IsEncryptError, IsWant};
ghost use Rattle.age.specs.Identities.{CarriesFile, FirstAnswer, GivesFirst, IsFileFor};
ghost use Rattle.age.specs.OpeningFile.{StandsBefore};
ghost use Rattle.age.specs.StreamReader.{plain_rest_of};
ghost use Rattle.age_claims.specs.Claims.{AppendsRekeyed, RefusesRekeying};

use age::armor::{ArmoredReader, Format};
use age::draw::Draw;
use age::format::Grease;
use age::io::{BufReader, Read, Write};
use age::stream::StreamReader;
use age::stream::laws::reader_law;
use age::streaming::{FileError, encrypt_all, open_file};
use age::suite::Suite;
use age::{Identity, Recipient};
use std::alloc::Global;

// The reader of the plaintext of the file that a reader still has, bare or in armor. What it reads to a clean end is the plaintext of a file.
fn opened<S: Suite, I: Identity, R: Read + Drop>(
    alloc: Global,
    identities: &mut [I],
    reader: R,
) -> Result<StreamReader<S, ArmoredReader<BufReader<R>>>, FileError>
    ensures tells { let opened = ⟦<StreamReader<S, ArmoredReader<BufReader<R>>> as Read>⟧ in
        IfOk result (λ stream. opened.tells stream ≡ (R.tells reader && R.steady reader)) }
    ensures plaintext { IsTrue (R.tells reader && R.steady reader) → IsTrue (R.rest reader).ends_well → (file plain : List ℕ) →
        Carries (R.rest reader).bytes file → IsFileFor S.seal_of (FirstAnswer I.unwraps identities.old) plain file →
        MatchResult result (λ stream. StandsBefore plain stream) (λ e. ((r : R) → R.faults r ≡ 0) → IsWant e) }
    ensures carries { IsTrue (R.tells reader && R.steady reader) → IfOk result (λ stream. IsTrue (plain_rest_of stream).ends_well →
        IsTrue (R.rest reader).ends_well
        × CarriesFile S.seal_of (GivesFirst I.unwraps identities.old identities.new) (R.rest reader).bytes (plain_rest_of stream).bytes) }
    ensures cause { IfErr result (λ e. IsEncryptError e → ⊥) }
{
    let text = match ArmoredReader::new(alloc, reader) {
        Err(error) => return Err(FileError::Io(error)),
        Ok(text) => text,
    };
    match open_file::<S, I, ArmoredReader<BufReader<R>>>(alloc, identities, text) {
        Err(error) => Err(FileError::Decrypt(error)),
        Ok(stream) => {
            // A fact for the proof alone.
            reader_law(&stream);
            Ok(stream)
        }
    }
}

/// Decrypts the file that a reader still has, bare or in armor, and encrypts it to others, chunk by chunk: the file of the same plaintext.
///
/// - `only`: whatever bytes the reader has, a success says that these ended well and carried a file, under the file key that the first of the
///   identities gave who answered, and that the file of exactly its plaintext for the other recipients was appended to the writer, in this form,
///   with random bytes that were drawn for it. So bytes that are damaged, cut, added to or no file at all never become a file.
/// - `untouched`: where the header or the identities refuse, or the recipients do, nothing was appended.
/// - `file`: where the reader's rest ends well and carries a file for the identities, that plaintext is the file's.
/// - `why`: and then, where the reader's device never fails, a refusal is want of memory, or one of the writer, the recipients or the random bytes,
///   or `TooLong` of a plaintext of more than 2^60 bytes.
pub fn rekeyed<S: Suite, I: Identity, T: Recipient, R: Read + Drop, W: Write>(
    alloc: Global,
    identities: &mut [I],
    recipients: &[T],
    draw: &mut Draw,
    grease: Grease,
    format: Format,
    reader: R,
    writer: &mut W,
) -> Result<(), FileError>
    ensures only { IsTrue (R.tells reader && R.steady reader) → IsTrue (W.tells writer.old) → OnOk result
        (AppendsRekeyed S.seal_of (GivesFirst I.unwraps identities.old identities.new)
        (λ prepared. Prepares T.wraps recipients.now (Some grease) draw.old (Ok prepared) draw.new)
        W.appended (text_of format) (R.rest reader) writer.old writer.new) }
    ensures untouched { IfErr result (λ e. IsDecryptError e ⊎ IsEncryptError e → writer.new ≡ writer.old) }
    ensures file { IsTrue (R.tells reader && R.steady reader) → IsTrue (R.rest reader).ends_well → IsTrue (W.tells writer.old) →
        (file plain : List ℕ) → Carries (R.rest reader).bytes file → IsFileFor S.seal_of (FirstAnswer I.unwraps identities.old) plain file →
        OnOk result ((prepared : Prepared) × Prepares T.wraps recipients.now (Some grease) draw.old (Ok prepared) draw.new
        × AppendsFile S.seal_of W.appended (text_of format) prepared (whole plain) writer.old writer.new) }
    ensures why { IsTrue (R.tells reader && R.steady reader) → IsTrue (R.rest reader).ends_well → ((r : R) → R.faults r ≡ 0) →
        (file plain : List ℕ) → Carries (R.rest reader).bytes file → IsFileFor S.seal_of (FirstAnswer I.unwraps identities.old) plain file →
        IfErr result (RefusesRekeying (λ refusal. Prepares T.wraps recipients.now (Some grease) draw.old (Err refusal) draw.new)
        W.refuses writer.old (length plain)) }
{
    let mut stream = match opened::<S, I, R>(alloc, identities, reader) {
        Err(error) => return Err(error),
        Ok(stream) => stream,
    };
    encrypt_all::<S, T, StreamReader<S, ArmoredReader<BufReader<R>>>, W>(
        alloc,
        recipients,
        draw,
        grease,
        format,
        &mut stream,
        writer,
    )
}
