//! A file encrypted and decrypted in memory.
ghost use Rattle.std.specs.Prelude.{◌≡◌, IfErr, IfOk, Some};
ghost use Rattle.age.specs.FileLaws.{PreparesApart};
ghost use Rattle.age_examples.specs.Keys.{AlwaysGiveKeysBack, GiveKeysBack, RefusesFor};

use age::draw::Draw;
use age::format::Grease;
use age::io::{Bytes, read_to_end, write_all};
use age::laws::{file_opens, front_is_accepted, one_plaintext};
use age::streaming::FileError;
use age::suite::Suite;
use age::suite::laws::known_bytes;
use age::{Decryptor, Encryptor, Identity, Recipient};
use std::alloc::Global;

/// Encrypts a plaintext to the recipients, and decrypts the file again with the identities.
///
/// Where the identities give no other file key to what the recipients answer than the one that these wrapped, a success is the
/// plaintext. Where they always give that one, and a full last chunk of the file doesn't open as one in the middle too, it refuses as
/// `Encryptor::with_recipients` does, and then no identity was asked, with `TooLong` for a plaintext past 2^60 bytes, or for want of
/// memory, and for nothing else. After a refusal `draw` has lost what was taken before it, and nothing is given.
pub fn there_and_back<S: Suite>(
    alloc: Global,
    recipients: &[Box<dyn Recipient>],
    identities: &mut [Box<dyn Identity>],
    draw: &mut Draw,
    grease: Grease,
    plain: &[u8],
) -> Result<Vec<u8>, FileError>
    ensures plaintext { GiveKeysBack ⟦<Box<dyn Recipient> as Recipient>⟧.wraps ⟦<Box<dyn Identity> as Identity>⟧.unwraps
        recipients.now grease draw.old draw.new identities.old → IfOk result (λ back. back.items ≡ plain.now) }
    ensures refused { let wraps = ⟦<Box<dyn Recipient> as Recipient>⟧.wraps in
        let unwraps = ⟦<Box<dyn Identity> as Identity>⟧.unwraps in
        AlwaysGiveKeysBack wraps unwraps recipients.now grease draw.old draw.new identities.old →
        PreparesApart wraps recipients.now (Some grease) draw.old draw.new S.seal_of plain.now →
        IfErr result (RefusesFor wraps recipients.now grease draw.old draw.new plain.now) }
{
    // Facts for the proof alone, here and at the end.
    one_plaintext::<S>();
    file_opens::<S, Bytes>();
    front_is_accepted::<Bytes>();
    known_bytes(plain);
    let encryptor = Encryptor::<S>::with_recipients(alloc, recipients, draw, grease)?;
    let mut writer = encryptor.wrap_output(alloc, Vec::new(alloc))?;
    write_all(&mut writer, plain)?;
    let file = writer.finish()?;
    let decryptor = Decryptor::<S, Bytes>::new(alloc, Bytes::new(&file))?;
    let mut reader = decryptor.decrypt(alloc, identities)?;
    let mut back = Vec::new(alloc);
    read_to_end(alloc, &mut reader, &mut back)?;
    known_bytes(&back);
    Ok(back)
}
