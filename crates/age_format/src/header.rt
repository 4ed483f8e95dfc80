//! Headers that are read from a reader and written to a writer, and their MAC.

ghost use Rattle.std.specs.Prelude.{◌≡◌, ◌≢◌, ◌↔◌, [], IsTrue, IfOk, IfErr, codes};
ghost use Rattle.std.specs.List.{AllByRecursion};
ghost use Rattle.age_error.specs.Refusals.{IsInterruption};
ghost use Rattle.age_io.specs.Writing.{WritesAll, Retried, OrMemory};
ghost use Rattle.age_v1.specs.HeaderTexts.{canonical};
ghost use Rattle.age_v1.specs.Stanza.{IsStanza};
ghost use Rattle.age_v1.specs.Header.{covered_text, header_text, IsHeader, KeepsScryptRule};
ghost use Rattle.age_format.specs.HeaderV1.{IsScrypt};
ghost use Rattle.age_v1.specs.HeaderMac.{header_mac};
ghost use Rattle.age_format.specs.ReadingHeader.{ReadsHeader, ReadsOrRefuses};

use crate::mac::mac_key;
use crate::reading::{HeaderText, read_header_text};
use crate::stanza::Stanza;
use crate::write::{write_covered, write_mac};
use age_error::bytes::known_array;
use age_error::{DecryptError, io};
use age_io::{Read, Write, write_all};
use age_suite::mac::{HmacWriter, hmac};
use age_suite::secrecy::FileKey;
use std::alloc::{AllocError, Global};
use std::marker::Model;

/// A header (age-encryption.org/v1, "Header"): one or more stanzas, and a MAC.
#[derive(Drop)]
pub struct HeaderV1 {
    stanzas: Vec<Stanza>,
    mac: [u8; 32],
}

impl Model for HeaderV1 {
    ghost use Rattle.age_format.specs.HeaderV1.{HeaderValue, IsHeaderValue};

    ghost Value = { HeaderValue };

    ghost view = { λ h. record { stanzas = h.stanzas.items; mac = h.mac } };

    ghost invariant = { λ h. IsHeaderValue (record { stanzas = h.stanzas.items; mac = h.mac }) };
}

// Whether headers with the legacy form of a stanza are read.
const READS_LEGACY: bool = false;

// Whether a stanza has the tag `scrypt`.
fn has_tag_scrypt(stanza: &Stanza) -> bool
    ensures { IsTrue result ↔ (stanza.now.tag ≡ codes "scrypt") }
{
    stanza.tag() == "scrypt"
}

/// Whether stanzas keep the rule on passphrases: one with the tag `scrypt` is the only one (age-encryption.org/v1, "The scrypt
/// recipient type").
pub fn keeps_scrypt_rule(stanzas: &[Stanza]) -> bool
    ensures { IsTrue result ↔ KeepsScryptRule stanzas.now }
{
    stanzas.len() == 1 || stanzas.iter().all(|stanza| !has_tag_scrypt(stanza))
}

// The front that the MAC covers.
fn covered_bytes(alloc: Global, stanzas: &[Stanza]) -> Result<Vec<u8>, AllocError>
    ensures text { IfOk result (λ text. text.items ≡ covered_text stanzas.now) }
    ensures each { IfOk result (λ text. AllByRecursion IsStanza stanzas.now) }
{
    let mut text = Vec::new(alloc);
    write_covered(stanzas, &mut text)?;
    Ok(text)
}

impl HeaderV1 {
    /// Reads the header at the front of what `reader` still has, and no byte more. What was read is the text that `write`
    /// writes.
    ///
    /// `InvalidHeader` comes at the first byte that departs from how each header begins or that is neither LF nor
    /// printable, and at the LF of a line that no header has there; `UnknownFormat` at the LF of another version's line.
    /// The reader then stands right after that byte. Where the input ends before a header does the answer is
    /// `Io(UnexpectedEof)`, or the reader's own refusal where that doesn't end well, and no other `Io`. `OutOfMemory` comes
    /// where memory is refused, here or by the reader. Interruptions are tried again up to 16 times in a row.
    pub fn read<R: Read>(alloc: Global, reader: &mut R) -> Result<HeaderV1, DecryptError>
        ensures { ReadsOrRefuses ⟦<R as Read>⟧ canonical ReadsHeader reader.old reader.new result }
    {
        match read_header_text(alloc, reader, READS_LEGACY) {
            Ok(read) => {
                let HeaderText {
                    stanzas,
                    mac,
                    text: _,
                } = read;
                Ok(HeaderV1 { stanzas, mac })
            }
            Err(e) => Err(e),
        }
    }

    /// The header of one or more stanzas, with its MAC under the file key. `AllocError` comes where memory for its text is refused,
    /// and the stanzas are gone then.
    pub fn new(
        alloc: Global,
        stanzas: Vec<Stanza>,
        file_key: &FileKey,
    ) -> Result<HeaderV1, AllocError>
        requires some { stanzas.items ≢ [] }
        ensures stanzas { IfOk result (λ h. h.stanzas ≡ stanzas.items) }
        ensures mac { IfOk result (λ h. h.mac ≡ header_mac file_key.now (covered_text stanzas.items)) }
    {
        let covered = covered_bytes(alloc, stanzas.as_slice())?;
        let mac = hmac(&mac_key(file_key), covered.as_slice());
        // For the proof alone: the invariant asks for a MAC of 32 bytes.
        known_array(&mac);
        Ok(HeaderV1 { stanzas, mac })
    }

    /// The text, which is the same whether the header was read or made. `AllocError` comes only for want of memory.
    pub fn text(&self, alloc: Global) -> Result<Vec<u8>, AllocError>
        ensures { IfOk result (λ text. text.items ≡ header_text self.now.stanzas self.now.mac) }
    {
        let mut text = covered_bytes(alloc, self.stanzas.as_slice())?;
        write_mac(&self.mac, &mut text)?;
        Ok(text)
    }

    /// Writes the text. `OutOfMemory` comes before a byte is written, where memory for the text is refused. Any other refusal
    /// is that of the writer, and leaves a beginning of the text written.
    pub fn write<W: Write>(&self, alloc: Global, writer: &mut W) -> Result<(), io::Error>
        ensures writes { WritesAll W.tells W.faults (OrMemory (Retried W.refuses)) W.appended writer.old writer.new
            (header_text self.now.stanzas self.now.mac) result }
        ensures patient { IfErr result (λ e. IsInterruption e → ⊥) }
    {
        let text = self.text(alloc)?;
        write_all(writer, text.as_slice())
    }

    /// Whether the MAC is right under the file key: whether it is that of the text up to and with `---`. It takes no memory.
    pub fn verify_mac(&self, file_key: &FileKey) -> bool
        ensures { IsTrue result ↔ (self.now.mac ≡ header_mac file_key.now (covered_text self.now.stanzas)) }
    {
        let mut writer = HmacWriter::new(&mac_key(file_key));
        match write_covered(self.stanzas.as_slice(), &mut writer) {
            Ok(()) => writer.verify(&self.mac),
            // An HMAC takes all that it is given.
            Err(_) => unreachable!(),
        }
    }

    /// The stanzas, in their order: one or more.
    pub fn stanzas(&self) -> &[Stanza]
        ensures stanzas { result.now ≡ self.now.stanzas }
        ensures header { IsHeader self.now.stanzas self.now.mac }
    {
        self.stanzas.as_slice()
    }

    /// The stanzas themselves, in their order: one or more.
    pub fn into_stanzas(self) -> Vec<Stanza>
        ensures stanzas { result.items ≡ self.stanzas }
        ensures header { IsHeader self.stanzas self.mac }
    {
        let HeaderV1 { stanzas, mac: _ } = self;
        stanzas
    }

    /// The MAC as it stands in the header, right or wrong.
    pub fn mac(&self) -> &[u8; 32]
        ensures { result.now ≡ self.now.mac }
    {
        &self.mac
    }

    /// Whether the only stanza has the tag `scrypt`.
    pub fn is_scrypt(&self) -> bool
        ensures { IsTrue result ↔ IsScrypt self.now.stanzas }
    {
        match self.stanzas.as_slice() {
            [stanza] => has_tag_scrypt(stanza),
            _ => false,
        }
    }
}
