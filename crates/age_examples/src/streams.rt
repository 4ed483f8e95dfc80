//! A stream encrypted and decrypted again, bare or in armor.
ghost use Rattle.std.specs.Prelude.{◌&&◌, length, IsTrue, IfErr, OnOk, Some};
ghost use Rattle.age.specs.Reading.{IsQuiet};
ghost use Rattle.age.specs.FileLaws.{PreparesApart};
ghost use Rattle.age_examples.specs.Keys.{AlwaysGiveKeysBack, GiveKeysBack, RefusesTo};

use age::armor::Format;
use age::armor::laws::carried_is_unique;
use age::draw::Draw;
use age::format::Grease;
use age::io::{Bytes, Read, Write};
use age::laws::one_plaintext;
use age::streaming::{FileError, decrypt_all, encrypt_all};
use age::suite::Suite;
use age::{Identity, Recipient};
use std::alloc::Global;

/// Encrypts what `reader` still has to the recipients, in this form, into memory, and appends what the identities decrypt of that
/// to `writer`.
///
/// Where the identities give no other file key to what the recipients answer than the one that these wrapped, a success appended
/// exactly what the reader had. Where they always give that one, the reader ends well and without a fault, and a full last chunk of the
/// file doesn't open as one in the middle too, it refuses as `Encryptor::with_recipients` does, with `TooLong` past 2^60 bytes, as the writer
/// does, or for want of memory, and for nothing else. Else it refuses as `encrypt_all` and as `decrypt_all` do.
pub fn streamed_there_and_back<S: Suite, T: Recipient, I: Identity, R: Read, W: Write>(
    alloc: Global,
    recipients: &[T],
    identities: &mut [I],
    draw: &mut Draw,
    grease: Grease,
    format: Format,
    reader: &mut R,
    writer: &mut W,
) -> Result<(), FileError>
    ensures plaintext { GiveKeysBack T.wraps I.unwraps recipients.now grease draw.old draw.new identities.old →
        IsTrue (R.tells reader.old && R.steady reader.old) → IsTrue (W.tells writer.old) →
        OnOk result (W.appended writer.old (R.rest reader.old).bytes writer.new) }
    ensures refused { AlwaysGiveKeysBack T.wraps I.unwraps recipients.now grease draw.old draw.new identities.old →
        PreparesApart T.wraps recipients.now (Some grease) draw.old draw.new S.seal_of (R.rest reader.old).bytes →
        IsTrue (R.tells reader.old && R.steady reader.old) → IsTrue (R.rest reader.old).ends_well
        → IsQuiet (R.faults reader.old) (R.faults reader.new) →
        IfErr result (RefusesTo T.wraps recipients.now grease draw.old draw.new W.refuses writer.old (length (R.rest reader.old).bytes)) }
{
    // Facts for the proof alone.
    one_plaintext::<S>();
    carried_is_unique();
    let mut file = Vec::new(alloc);
    encrypt_all::<S, T, R, Vec<u8>>(alloc, recipients, draw, grease, format, reader, &mut file)?;
    decrypt_all::<S, I, Bytes, W>(alloc, identities, &mut Bytes::new(&file), writer)
}
