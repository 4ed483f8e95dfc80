//! Files from before the standard, whose headers have the legacy form of a stanza, carried over.
ghost use Rattle.age_v1.specs.Identities.{UnwrapAnswer, Unwraps, FirstThatAnswers, decided};
ghost use Rattle.age_protocol.specs.Migrating.{ReadsOldFrontOf, Rewrites, Migrates, MigratesFiles};

use crate::answering::file_key_of;
use crate::encryptor::text_before_payload;
use crate::front::read_nonce;
use age_error::DecryptError;
use age_format::{HeaderV1, Identity, OldHeader, header_text_reads_back, verdict_is_unique};
use age_io::{Read, Write, copy_all, write_all};
use age_suite::mac::mac_laws;
use age_suite::suite::Suite;
use std::alloc::Global;

// A header in which stanzas may have the legacy form, and the nonce that follows it.
#[derive(Drop)]
struct OldFront {
    header: OldHeader,
    nonce: [u8; 16],
}

impl OldFront {
    // From the front of the input, and no byte more.
    fn read<R: Read>(alloc: Global, reader: &mut R) -> Result<OldFront, DecryptError>
        ensures { ReadsOldFrontOf ⟦<R as Read>⟧ reader.old reader.new result }
    {
        let header = OldHeader::read(alloc, reader)?;
        let nonce = read_nonce(reader, header.stanzas())?;
        Ok(OldFront { header, nonce })
    }
}

// The header of the same stanzas with its own MAC, under the file key that the identities get, where the MAC as read is right.
fn rewritten<I: Identity>(
    alloc: Global,
    header: OldHeader,
    identities: &mut [I],
) -> Result<HeaderV1, DecryptError>
    ensures { (answer : UnwrapAnswer)
        × FirstThatAnswers (λ identity own after. Unwraps I.unwraps identity header.stanzas own after) identities.old answer identities.new
        × Rewrites (decided answer) header result }
{
    let file_key = file_key_of(alloc, identities, header.stanzas())?;
    if !header.verify_mac(&file_key) {
        return Err(DecryptError::InvalidMac);
    }
    let rewritten = HeaderV1::new(alloc, header.into_stanzas(), &file_key)?;
    Ok(rewritten)
}

/// Rewrites a bare file from before the standard, in whose header stanzas may have the legacy form, as a file of the standard: the
/// header of the same stanzas with its own MAC, then the nonce and the rest of the input unchanged and unopened. A file of the
/// standard is written as it is. The payload isn't looked at, and `Decryptor` tells whether it is whole.
///
/// The refusals, in the order in which they are looked for: those of `OldHeader::read`; where fewer than 16 bytes follow the header
/// `Io(UnexpectedEof)`, or the reader's own refusal where it doesn't end well; `InvalidHeader` where a stanza with the tag `scrypt`
/// stands beside another; that of the first identity whose answer isn't `None`, and `NoMatchingKeys` where none answers;
/// `InvalidMac` where the MAC isn't that of the header as it was read. After these nothing was written, and no byte after the nonce was
/// read. Any later refusal is one of the reader, of the writer or of memory, as `Io` or `OutOfMemory`: a beginning of the file may have been
/// written, and the reader stands after what was taken of it, or has failed. After a success it stands at its end.
pub fn migrate<S: Suite, I: Identity, R: Read, W: Write>(
    alloc: Global,
    identities: &mut [I],
    reader: &mut R,
    writer: &mut W,
) -> Result<(), DecryptError>
    ensures migrates { Migrates I.unwraps ⟦<R as Read>⟧
        ⟦<W as Write>⟧ identities.old identities.new reader.old reader.new writer.old writer.new result }
    // An old file for the identities becomes the file of its plaintext.
    ensures files { MigratesFiles S.seal_of I.unwraps ⟦<R as Read>⟧ ⟦<W as Write>⟧ identities.old reader.old reader.new writer.old writer.new result }
{
    // Facts for the proof alone.
    header_text_reads_back();
    verdict_is_unique();
    mac_laws();
    carry_over(alloc, identities, reader, writer)
}

// The same, whatever the suite is.
fn carry_over<I: Identity, R: Read, W: Write>(
    alloc: Global,
    identities: &mut [I],
    reader: &mut R,
    writer: &mut W,
) -> Result<(), DecryptError>
    ensures { Migrates I.unwraps ⟦<R as Read>⟧ ⟦<W as Write>⟧ identities.old identities.new reader.old reader.new writer.old writer.new result }
{
    let OldFront { header, nonce } = OldFront::read(alloc, reader)?;
    let header = rewritten(alloc, header, identities)?;
    let text = text_before_payload(alloc, &header, &nonce)?;
    write_all(writer, &text)?;
    copy_all(alloc, reader, writer)?;
    Ok(())
}
