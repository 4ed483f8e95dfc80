//! Reading of header texts, byte by byte, and no byte too many.

ghost use Rattle.std.specs.Prelude.{◌≡◌, ◌≢◌, ◌<◌, [], ◌∷◌, ◌+◌, IsTrue, IfOk, OnOk, IfErr, OnErr};
ghost use Rattle.age_error.specs.declared.io.Error.TheVariants.{OutOfMemory};
ghost use Rattle.age_error.specs.DecryptErrors.{decrypt_refusal, IfIoRefusal, IsDeviceRefusal, IsInterruptedRefusal};
ghost use Rattle.age_io.specs.Keeping.{SameReader, KeepsReader, OrEarly};
ghost use Rattle.age_io.specs.Reading.{Delivers, IsQuiet, IsShort, StaysOrFails, AddsNoReason, TriedAgain, most_faults};
ghost use Rattle.age_v1.specs.HeaderTexts.{IsHeaderText};
ghost use Rattle.age_v1.specs.HeaderVerdict.{Header};
ghost use Rattle.age_format.specs.ReadingHeader.{TookVerdict, RefusesHeader};

use crate::bytewise::{HeaderReader, Step};
use crate::stanza::Stanza;
use age_error::{DecryptError, io};
use age_io::{Read, read_retrying};
use std::alloc::Global;

/// The text of a header, and what it says.
#[derive(Drop)]
pub(crate) struct HeaderText {
    pub(crate) stanzas: Vec<Stanza>,
    pub(crate) mac: [u8; 32],
    pub(crate) text: Vec<u8>,
}

// The next byte, tried again after an interruption. `UnexpectedEof` says that none is left and the rest ends well; any
// other refusal is that of the read that met it.
fn next_byte<R: Read>(reader: &mut R) -> Result<u8, io::Error>
    ensures keeps { KeepsReader ⟦<R as Read>⟧ (OrEarly ⟦<R as Read>⟧) reader.old reader.new result }
    ensures unspent { OnOk result (R.faults reader.new < most_faults) }
    ensures byte { IsTrue (R.tells reader.old) → IfOk result (λ b.
        Delivers (b ∷ []) (R.rest reader.old) (R.rest reader.new)) }
    ensures moves { IsTrue (R.tells reader.old) → OnOk result (R.place reader.new ≡ R.place reader.old + 1) }
    ensures stays { IsTrue (R.tells reader.old) → OnErr result (R.place reader.new ≡ R.place reader.old) }
    ensures left { IsTrue (R.tells reader.old) → OnErr result
        (StaysOrFails (R.rest reader.old) (R.rest reader.new)) }
    ensures cause { IsTrue (R.tells reader.old) → IfErr result (λ e. e ≢ OutOfMemory →
        IsQuiet (R.faults reader.old) (R.faults reader.new) → IsShort 1 (R.rest reader.old) e) }
{
    let mut byte = [0u8; 1];
    match read_retrying(reader, &mut byte) {
        Err(e) => Err(e),
        Ok(0) => Err(io::Error::UnexpectedEof),
        Ok(_) => Ok(byte[0]),
    }
}

/// Reads the text of a header at the front of what `reader` still has, and no byte more: a canonical one, or with `legacy`
/// also one whose stanzas have the legacy form.
pub(crate) fn read_header_text<R: Read>(
    alloc: Global,
    reader: &mut R,
    legacy: bool,
) -> Result<HeaderText, DecryptError>
    ensures keeps { SameReader ⟦<R as Read>⟧ reader.old reader.new }
    ensures device { IfErr result (λ e. IsDeviceRefusal (decrypt_refusal e) → R.faults reader.old < R.faults reader.new) }
    ensures unspent { OnOk result (R.faults reader.new < most_faults) }
    ensures patient { IfErr result (λ e. IsInterruptedRefusal (decrypt_refusal e) → ⊥) }
    ensures says { IfOk result (λ h. IsHeaderText legacy h.text.items h.stanzas.items h.mac) }
    ensures header { IsTrue (R.tells reader.old) → IfOk result (λ h. TookVerdict legacy (R.rest reader.old) (R.rest reader.new)
        (R.place reader.old) (R.place reader.new) h.text.items (Header h.stanzas.items h.mac)) }
    ensures refused { IsTrue (R.tells reader.old) → IfErr result (λ e.
        RefusesHeader legacy (R.faults reader.old) (R.faults reader.new) (R.rest reader.old) (R.rest reader.new)
        (R.place reader.old) (R.place reader.new) (decrypt_refusal e)) }
    ensures io { IfErr result (λ e. IfIoRefusal (OrEarly ⟦<R as Read>⟧ reader.old) (decrypt_refusal e)) }
    ensures narrows { OnOk result (AddsNoReason (TriedAgain R.refuses) reader.old reader.new) }
{
    let mut header = HeaderReader::new(alloc, legacy);
    'bytes: loop {
        // It tells the proof that nothing decides so far, and that the text's length is a usize: so the loop ends.
        let _size = header.text().len();
        let byte = next_byte(reader)?;
        if header.goes_on(byte) {
            header.extend(byte)?;
            continue;
        }
        match header.push(alloc, byte)? {
            Step::More(more) => header = more,
            Step::Header(stanzas, mac, text) => return Ok(HeaderText { stanzas, mac, text }),
            Step::UnknownVersion => return Err(DecryptError::UnknownFormat),
            Step::Bad => return Err(DecryptError::InvalidHeader),
        }
    }
}
