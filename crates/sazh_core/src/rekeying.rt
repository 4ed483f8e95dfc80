//! The command that encrypts a file to others.
ghost use Rattle.sazh_core.specs.Rekeying.{KeepsPlaintext, Rekeys};

use crate::encrypting::encrypt_to_keys;
use crate::error::CommandError;
use crate::random::RandomBytes;
use age::armor::{ArmoredReader, Format};
use age::io::{BufReader, Read, Write};
use age::stream::StreamReader;
use age::streaming::{FileError, open_file};
use age::suite::Suite;
use age::{Identity, Recipient, x25519};
use std::alloc::Global;

/// Decrypts a file, bare or in armor, by the first of the identities that answers, and encrypts its plaintext as it is read to these
/// recipients, and to no other, as `encrypt_to_keys` does: a fresh file of the same plaintext, in one pass.
///
/// A success says that the plaintext ended where the last chunk says that it does: a file that was cut or changed is refused, and what was
/// written by then has no end.
///
/// # Errors
///
/// - `File(Io(OutOfMemory))`: memory for reading armor was refused. Nothing was drawn or written.
/// - `File(Decrypt)`: the file isn't opened, as `open_file` says. Nothing was drawn or written.
/// - those of `encrypt_to_keys`, whose reader is the plaintext: after one of encryption or of the random bytes nothing was written, after any
///   other a beginning of the new file of all that this reader had.
pub fn rekey<S: Suite, I: Identity, B: RandomBytes, R: Read + Drop, W: Write>(
    alloc: Global,
    identities: &mut [I],
    recipients: &[x25519::Recipient<S>],
    source: &mut B,
    format: Format,
    reader: R,
    writer: &mut W,
) -> Result<(), CommandError>
    ensures steps { Rekeys I.unwraps B.gives ⟦<x25519::Recipient<S> as Recipient>⟧.wraps ⟦<S as Suite>⟧
        ⟦<W as Write>⟧ format identities.old identities.new
        recipients.now source.old source.new ⟦<R as Read>⟧ ⟦<ArmoredReader<BufReader<R>> as Read>⟧
        ⟦<StreamReader<S, ArmoredReader<BufReader<R>>> as Read>⟧
        reader writer.old writer.new result }
    ensures plaintext { KeepsPlaintext I.unwraps B.gives ⟦<x25519::Recipient<S> as Recipient>⟧.wraps ⟦<S as Suite>⟧
        ⟦<W as Write>⟧ format identities.old
        identities.new recipients.now source.old source.new ⟦<R as Read>⟧ reader writer.old writer.new result }
{
    let text = match ArmoredReader::new(alloc, reader) {
        Err(error) => return Err(CommandError::File(FileError::Io(error))),
        Ok(text) => text,
    };
    let mut stream = match open_file::<S, I, ArmoredReader<BufReader<R>>>(alloc, identities, text) {
        Err(error) => return Err(CommandError::File(FileError::Decrypt(error))),
        Ok(stream) => stream,
    };
    encrypt_to_keys::<S, B, StreamReader<S, ArmoredReader<BufReader<R>>>, W>(
        alloc,
        recipients,
        source,
        format,
        &mut stream,
        writer,
    )
}
