//! The commands on whole files.
ghost use Rattle.std.specs.Prelude.{◌≡◌, ◌⊎◌, ℕ, List, IsTrue, Ok, Err, IfOk, OnOk, IfErr};
ghost use Rattle.age.specs.Armor.{text_of};
ghost use Rattle.age.specs.Copying.{AppendsFront};
ghost use Rattle.age.specs.DecryptingStreams.{DecryptsAll};
ghost use Rattle.age.specs.EncryptErrors.{encrypt_refusal, OutOfMemory};
ghost use Rattle.age.specs.FileErrors.{IfIo, IsEncryptError, EncryptsUnless};
ghost use Rattle.age.specs.Identities.{IsFileFor};
ghost use Rattle.age.specs.WholeFiles.{RefusesWriting};
ghost use Rattle.age_bench.specs.Bench.{bench_seal};
ghost use Rattle.age_bench.specs.Names.{answers_of, file_by, gives_of};
ghost use Rattle.age_bench.specs.Recipient.{bench_grease};

use crate::names::{To, With};
use crate::suite::BenchSuite;
use age::EncryptError;
use age::armor::Format;
use age::draw::Draw;
use age::format::{Grease, Stanza};
use age::io::{Read, Write};
use age::streaming::{FileError, decrypt_all, encrypt_all};
use age::suite::Suite;
use std::alloc::Global;

// The stanza that a file has besides those of its recipients, where none of
// these is of a passphrase: the tag `agebench-grease`, no arguments and no body.
fn grease(alloc: Global) -> Result<Grease, EncryptError>
    ensures value { IfOk result (λ grease. grease ≡ bench_grease) }
    ensures memory { IfErr result (λ e. encrypt_refusal e ≡ OutOfMemory) }
{
    let tag = String::from_str(alloc, "agebench-grease")?;
    let Some(stanza) = Stanza::new(tag, Vec::new(alloc), Vec::new(alloc)) else {
        unreachable!();
    };
    match Grease::new(stanza) {
        Some(grease) => Ok(grease),
        None => unreachable!(),
    }
}

/// `encrypt_all` to the recipient that a word of the command line names.
///
/// The first 16 random bytes are the file key; an X25519 recipient takes the next 32 for its ephemeral secret, and a passphrase the next
/// 16 for its salt and 24 more for its label; the next 16 are the nonce of the payload. So what a success appended to `writer` is set by
/// the random bytes, the form and the plaintext alone. Beside the stanza of a passphrase stands no other; all else have the one of
/// `grease` too. It refuses as `encrypt_all` does; an error of encryption is want of memory, or what the random bytes come to:
/// `ShortRandom` where there are too few, for an X25519 recipient `ZeroSharedSecret`, and for a passphrase `WorkFactorRefused`, where
/// its work factor isn't one that the suite accepts. After any other refusal a beginning of the file in this form was appended, of all
/// that the input had (`front`). Such a refusal is the reader's, the writer's, want of memory, or `TooLong` for an input past 2^60
/// bytes; the reader's only where it has a fault (`io`).
pub fn encrypt_to<R: Read, W: Write>(
    alloc: Global,
    to: To,
    draw: Draw,
    format: Format,
    reader: &mut R,
    writer: &mut W,
) -> Result<(), FileError>
    ensures file { IsTrue (R.tells reader.old) → IsTrue (W.tells writer.old) → OnOk result
        ((text : List ℕ)
        × (file_by to draw (R.rest reader.old).bytes ≡ Ok text)
        × IsTrue (R.rest reader.old).ends_well
        × W.appended writer.old (text_of format text) writer.new) }
    ensures refused { IfErr result (λ e. IsEncryptError e → (reader.new ≡ reader.old) × (writer.new ≡ writer.old)) }
    // After any other refusal a beginning of the file in this form was appended.
    ensures front { IsTrue (R.tells reader.old) → IsTrue (W.tells writer.old) → IfErr result (IfIo (λ _.
        (text : List ℕ)
        × (file_by to draw (R.rest reader.old).bytes ≡ Ok text)
        × AppendsFront W.appended (text_of format text) writer.old writer.new)) }
    ensures why { IfErr result (EncryptsUnless (λ refusal. (refusal ≡ OutOfMemory) ⊎ ((plain : List ℕ) → file_by to draw plain ≡ Err refusal))) }
    ensures io { IfErr result (IfIo (RefusesWriting ⟦<R as Read>⟧ ⟦<W as Write>⟧ reader.old reader.new writer.old writer.new)) }
{
    let mut draw = draw;
    let grease = grease(alloc)?;
    encrypt_all::<BenchSuite, To, R, W>(alloc, &[to], &mut draw, grease, format, reader, writer)
}

/// `decrypt_all` with the identity that a word of the command line names.
///
/// A success says that the input carried a file of exactly what was appended to `writer`, under the file key that this identity
/// gives to its stanzas. It refuses as `decrypt_all` does, and then the same was appended.
pub fn decrypt_with<R: Read, W: Write>(
    alloc: Global,
    with: With,
    reader: &mut R,
    writer: &mut W,
) -> Result<(), FileError>
    ensures { DecryptsAll ⟦<BenchSuite as Suite>⟧ ⟦<R as Read>⟧ ⟦<W as Write>⟧ (gives_of with) (answers_of with)
        (IsFileFor bench_seal (answers_of with)) reader.old writer.old writer.new result }
{
    decrypt_all::<BenchSuite, With, R, W>(alloc, &mut [with], reader, writer)
}
