//! The commands that decrypt.
ghost use Rattle.std.specs.Prelude.{◌≡◌, IfErr};
ghost use Rattle.age.specs.FileErrors.{IsDecryptError};
ghost use Rattle.sazh_core.specs.Decrypting.{DecryptsThenFlushes, DecryptsSome, GivesFile, GivesPart, IsFlushed, Migrated, SeeksPart};

use age::Identity;
use age::armor::ArmoredReader;
use age::io::{BufReader, Read, Seek, Write, flush_retrying};
use age::stream::StreamReader;
use age::streaming::{FileError, at, decrypt_all, migrate, open_file, write_part};
use age::suite::Suite;
use std::alloc::Global;

// Flushes a writer.
fn flushed<W: Write>(writer: &mut W) -> Result<(), FileError>
    ensures { IsFlushed ⟦<W as Write>⟧ writer.old writer.new result }
{
    match flush_retrying(writer) {
        Ok(()) => Ok(()),
        Err(error) => Err(FileError::Io(error)),
    }
}

/// Reads a file to its end, bare or in armor, and appends its plaintext, decrypted by the first of the identities that answers, to
/// `writer`, which is flushed then.
///
/// A success says that the input carried a file of exactly what was appended, under the file key of that identity. The refusals are those
/// of `decrypt_all`, and that of the flush as `Io`. After one of `decrypt_all` for the header or the identities nothing was appended, after
/// any other a beginning of what the good chunks open to; after that of the flush all of it.
pub fn decrypt<S: Suite, I: Identity, R: Read, W: Write>(
    alloc: Global,
    identities: &mut [I],
    reader: &mut R,
    writer: &mut W,
) -> Result<(), FileError>
    ensures steps { DecryptsThenFlushes I.unwraps ⟦<S as Suite>⟧ ⟦<R as Read>⟧
        ⟦<W as Write>⟧ identities.old identities.new reader.old writer.old writer.new result }
    ensures file { GivesFile I.unwraps ⟦<S as Suite>⟧ ⟦<R as Read>⟧
        ⟦<W as Write>⟧ identities.old identities.new reader.old writer.old writer.new result }
    ensures refused { IfErr result (λ e. IsDecryptError e → writer.new ≡ writer.old) }
{
    match decrypt_all::<S, I, R, W>(alloc, identities, reader, writer) {
        Err(error) => Err(error),
        Ok(()) => flushed(writer),
    }
}

/// Reads a file to its end into memory, bare or in armor, and appends the `count` bytes of its plaintext that begin at `place`, or fewer at
/// its end, to `writer`, which is flushed then. The first of the identities that answers decrypts it.
///
/// The refusals are those of `at`, and that of the flush as `Io`. After one of `at` for the header or the identities nothing was appended,
/// after any other a beginning of these bytes; after that of the flush all of them.
pub fn decrypt_part<S: Suite, I: Identity, R: Read, W: Write>(
    alloc: Global,
    identities: &mut [I],
    place: u64,
    count: u64,
    reader: &mut R,
    writer: &mut W,
) -> Result<(), FileError>
    ensures { DecryptsSome I.unwraps ⟦<S as Suite>⟧ ⟦<R as Read>⟧
        ⟦<W as Write>⟧ identities.old identities.new place count reader.old reader.new writer.old writer.new result }
{
    match at::<S, I, R, W>(alloc, identities, place, count, reader, writer) {
        Err(error) => Err(error),
        Ok(()) => flushed(writer),
    }
}

// The bytes of a part of the plaintext of a file in which is sought, without a flush.
fn part_of<S: Suite, I: Identity, R: Seek + Drop, W: Write>(
    alloc: Global,
    identities: &mut [I],
    place: u64,
    count: u64,
    file: R,
    writer: &mut W,
) -> Result<(), FileError>
    ensures { SeeksPart I.unwraps ⟦<S as Suite>⟧ ⟦<R as Read>⟧ ⟦<ArmoredReader<BufReader<R>> as Read>⟧ ⟦<W as Write>⟧
        ⟦<StreamReader<S, ArmoredReader<BufReader<R>>> as Read>⟧
        ⟦<ArmoredReader<BufReader<R>> as Seek>⟧.seek_refuses identities.old identities.new place count «file» writer.old writer.new result }
{
    let text = match ArmoredReader::new(alloc, file) {
        Err(error) => return Err(FileError::Io(error)),
        Ok(text) => text,
    };
    let mut stream = match open_file::<S, I, ArmoredReader<BufReader<R>>>(alloc, identities, text) {
        Err(error) => return Err(FileError::Decrypt(error)),
        Ok(stream) => stream,
    };
    match write_part(alloc, &mut stream, place, count, writer) {
        Err(error) => Err(FileError::Io(error)),
        Ok(()) => Ok(()),
    }
}

/// Appends the `count` bytes of a file's plaintext that begin at `place`, or fewer at its end, to `writer`, which is flushed then. The file,
/// bare or in armor, stands in `file` from where that stands, and is sought in, so that only the chunks that hold the bytes are opened. The
/// first of the identities that answers decrypts it.
///
/// The refusals are those of `open_text` and of `write_part`, as `Io`, and that of the flush as `Io`. After one of `open_text` nothing was
/// appended, after one of `write_part` a beginning of these bytes, and after that of the flush all of them. The file is gone then.
pub fn seek_part<S: Suite, I: Identity, R: Seek + Drop, W: Write>(
    alloc: Global,
    identities: &mut [I],
    place: u64,
    count: u64,
    file: R,
    writer: &mut W,
) -> Result<(), FileError>
    ensures { GivesPart I.unwraps ⟦<S as Suite>⟧ ⟦<R as Read>⟧ ⟦<ArmoredReader<BufReader<R>> as Read>⟧ ⟦<W as Write>⟧
        ⟦<StreamReader<S, ArmoredReader<BufReader<R>>> as Read>⟧
        ⟦<ArmoredReader<BufReader<R>> as Seek>⟧.seek_refuses identities.old identities.new place count «file» writer.old writer.new result }
{
    match part_of::<S, I, R, W>(alloc, identities, place, count, file, writer) {
        Err(error) => Err(error),
        Ok(()) => flushed(writer),
    }
}

/// Rewrites a file from before the standard, bare or in armor, as a bare file of the standard, and flushes the writer: the header of the same
/// stanzas with its own MAC, then the nonce and the rest of the file unchanged and unopened. `Io(OutOfMemory)` where memory for reading armor
/// is refused, and then nothing was read or written; the other refusals are those of `migrate`, as `Decrypt`, and that of the flush, as `Io`.
pub fn migrate_text<S: Suite, I: Identity, R: Read + Drop, W: Write>(
    alloc: Global,
    identities: &mut [I],
    reader: R,
    writer: &mut W,
) -> Result<(), FileError>
    ensures { Migrated I.unwraps S.seal_of ⟦<R as Read>⟧ ⟦<ArmoredReader<BufReader<R>> as Read>⟧ ⟦<W as Write>⟧
        identities.old identities.new reader writer.old writer.new result }
{
    let mut text = match ArmoredReader::new(alloc, reader) {
        Err(error) => return Err(FileError::Io(error)),
        Ok(text) => text,
    };
    match migrate::<S, I, ArmoredReader<BufReader<R>>, W>(alloc, identities, &mut text, writer) {
        Err(error) => Err(FileError::Decrypt(error)),
        Ok(()) => flushed(writer),
    }
}
