//! The commands that encrypt.
ghost use Rattle.std.specs.Prelude.{◌≡◌, [], ◌∷◌, length, IfSome};
ghost use Rattle.sazh_core.specs.Encrypting.{AppendsEncrypted, draws_for_keys, draws_for_passphrase};

use crate::error::{CommandError, RandomError};
use crate::grease::grease;
use crate::passphrase::recipient_of;
use crate::random::{RandomBytes, drawn};
use age::armor::Format;
use age::io::{Read, Write};
use age::secrecy::SecretString;
use age::streaming::encrypt_all;
use age::suite::Suite;
use age::{Recipient, scrypt, x25519};
use std::alloc::Global;
use std::slice;

// How many random bytes a file takes: its key and the nonce of its payload.
const OF_A_FILE: usize = 32;

// And for each key besides: an ephemeral secret.
const OF_A_KEY: usize = 32;

// And for a passphrase besides: a salt and a label.
const OF_A_PASSPHRASE: usize = 40;

// How many random bytes a file to so many keys takes. `None` where these are more than memory has.
fn count_for(keys: usize) -> Option<usize>
    ensures { IfSome result (λ count. count ≡ draws_for_keys keys) }
{
    let secrets = keys.checked_mul(OF_A_KEY)?;
    secrets.checked_add(OF_A_FILE)
}

// Encrypts with so many bytes of a source.
fn encrypt_with<S: Suite, T: Recipient, B: RandomBytes, R: Read, W: Write>(
    alloc: Global,
    recipients: &[T],
    count: usize,
    source: &mut B,
    format: Format,
    reader: &mut R,
    writer: &mut W,
) -> Result<(), CommandError>
    ensures { AppendsEncrypted B.gives T.wraps recipients.now count source.old source.new
        ⟦<S as Suite>⟧ ⟦<R as Read>⟧ ⟦<W as Write>⟧ format reader.old reader.new writer.old writer.new result }
{
    let grease = grease(alloc)?;
    let mut draw = drawn(alloc, source, count)?;
    match encrypt_all::<S, T, R, W>(alloc, recipients, &mut draw, grease, format, reader, writer) {
        Ok(()) => Ok(()),
        Err(error) => Err(CommandError::File(error)),
    }
}

/// Encrypts what `reader` still has to these recipients, and to no other, and appends the file to `writer`, which is flushed: the file
/// itself, or its armor. The random bytes are the next ones of `source`, 32 for the file and 32 more for each recipient, all asked for at
/// once before anything is read. The first 16 are the file key; then each recipient takes 32 for its ephemeral secret, in their order; the
/// next 16 are the nonce of the payload. Besides the recipients' stanzas the header has that of `grease`.
///
/// # Errors
///
/// - `Random(NoRandom)`: the source has fewer bytes. Nothing was read or written.
/// - `Random(OutOfMemory)`: memory for the random bytes was refused. Nothing was read or written, and the source wasn't asked.
/// - `File`: those of `encrypt_all`, and of these an error of encryption also where memory for the grease is refused. After such an error
///   nothing was read or written, after any other a beginning of the file of all that the input had was written.
pub fn encrypt_to_keys<S: Suite, B: RandomBytes, R: Read, W: Write>(
    alloc: Global,
    recipients: &[x25519::Recipient<S>],
    source: &mut B,
    format: Format,
    reader: &mut R,
    writer: &mut W,
) -> Result<(), CommandError>
    ensures { AppendsEncrypted B.gives ⟦<x25519::Recipient<S> as Recipient>⟧.wraps recipients.now
        (draws_for_keys (length recipients.now)) source.old source.new
        ⟦<S as Suite>⟧ ⟦<R as Read>⟧ ⟦<W as Write>⟧ format reader.old reader.new writer.old writer.new result }
{
    let Some(count) = count_for(recipients.len()) else {
        return Err(CommandError::Random(RandomError::OutOfMemory));
    };
    encrypt_with::<S, x25519::Recipient<S>, B, R, W>(
        alloc, recipients, count, source, format, reader, writer,
    )
}

/// Encrypts what `reader` still has with a passphrase, whose work factor is 18, and appends the file to `writer`, which is flushed: the
/// file itself, or its armor. The random bytes are the next 72 of `source`, asked for at once before anything is read: 16 are the file
/// key, 16 the salt, 24 the label, and 16 the nonce of the payload. The header has no other stanza than that of the passphrase.
///
/// # Errors
///
/// - `Random(NoRandom)`: the source has fewer bytes. Nothing was read or written.
/// - `Random(OutOfMemory)`: memory for the random bytes was refused. Nothing was read or written, and the source wasn't asked.
/// - `File`: those of `encrypt_all`, and of these an error of encryption also where memory for the grease is refused. After such an error
///   nothing was read or written, after any other a beginning of the file of all that the input had was written.
pub fn encrypt_under<S: Suite, B: RandomBytes, R: Read, W: Write>(
    alloc: Global,
    passphrase: SecretString,
    source: &mut B,
    format: Format,
    reader: &mut R,
    writer: &mut W,
) -> Result<(), CommandError>
    ensures { AppendsEncrypted B.gives ⟦<scrypt::Recipient<S> as Recipient>⟧.wraps
        (record { passphrase = passphrase; factor = 18 } ∷ []) draws_for_passphrase source.old source.new
        ⟦<S as Suite>⟧ ⟦<R as Read>⟧ ⟦<W as Write>⟧ format reader.old reader.new writer.old writer.new result }
{
    let recipient: scrypt::Recipient<S> = recipient_of(passphrase);
    encrypt_with::<S, scrypt::Recipient<S>, B, R, W>(
        alloc,
        slice::from_ref(&recipient),
        OF_A_FILE + OF_A_PASSPHRASE,
        source,
        format,
        reader,
        writer,
    )
}
