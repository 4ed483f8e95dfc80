//! Headers of files from before the standard, in which a stanza may have the legacy form: they are read to carry such files
//! over, and never written.

ghost use Rattle.std.specs.Prelude.{◌≡◌, ◌↔◌, IsTrue};
ghost use Rattle.age_v1.specs.HeaderTexts.{or_legacy, covered, IsHeaderText};
ghost use Rattle.age_v1.specs.Header.{IsHeader};
ghost use Rattle.age_v1.specs.HeaderMac.{header_mac};
ghost use Rattle.age_format.specs.OldHeader.{ReadsOldHeader};
ghost use Rattle.age_format.specs.ReadingHeader.{ReadsOrRefuses};

use crate::mac::mac_key;
use crate::reading::{HeaderText, read_header_text};
use crate::stanza::Stanza;
use age_error::DecryptError;
use age_error::bytes::known_bytes;
use age_io::Read;
use age_suite::mac::HmacWriter;
use age_suite::secrecy::FileKey;
use std::alloc::Global;
use std::marker::Model;

/// A header in which a stanza may have the legacy form, which leaves out the final line of the body where it would be empty:
/// one or more stanzas, a MAC, and the bytes that the MAC covers, as they were read.
#[derive(Drop)]
pub struct OldHeader {
    stanzas: Vec<Stanza>,
    mac: [u8; 32],
    covered: Vec<u8>,
}

impl Model for OldHeader {
    ghost use Rattle.age_format.specs.OldHeader.{OldHeaderValue, IsOldHeaderValue};

    ghost Value = { OldHeaderValue };

    ghost view = { λ h. record { stanzas = h.stanzas.items; mac = h.mac; covered = h.covered.items } };

    ghost invariant = { λ h. IsOldHeaderValue (record { stanzas = h.stanzas.items; mac = h.mac; covered = h.covered.items }) };
}

// How many bytes of a header's text the MAC doesn't cover: a space, the 43 columns of the MAC, and LF.
const UNCOVERED: usize = 45;

// The header that a text says.
fn header_of_text(read: HeaderText) -> OldHeader
    requires { IsHeaderText or_legacy read.text.items read.stanzas.items read.mac }
    ensures stanzas { result.stanzas ≡ read.stanzas.items }
    ensures mac { result.mac ≡ read.mac }
    ensures covered { result.covered ≡ covered read.text.items }
{
    let HeaderText {
        stanzas,
        mac,
        mut text,
    } = read;
    text.truncate(text.len() - UNCOVERED);
    // For the proof alone: what the MAC covers are bytes.
    known_bytes(text.as_slice());
    OldHeader {
        stanzas,
        mac,
        covered: text,
    }
}

impl OldHeader {
    /// Reads the header at the front of what `reader` still has, and no byte more, as `HeaderV1::read` does and with its
    /// refusals, after which the reader stands as there, but also where stanzas have the legacy form.
    pub fn read<R: Read>(alloc: Global, reader: &mut R) -> Result<OldHeader, DecryptError>
        ensures { ReadsOrRefuses ⟦<R as Read>⟧ or_legacy ReadsOldHeader reader.old reader.new result }
    {
        match read_header_text(alloc, reader, true) {
            Ok(read) => Ok(header_of_text(read)),
            Err(e) => Err(e),
        }
    }

    /// Whether the MAC is that of the covered bytes, as they were read, under the file key. It takes no memory.
    pub fn verify_mac(&self, file_key: &FileKey) -> bool
        ensures { IsTrue result ↔ (self.now.mac ≡ header_mac file_key.now self.now.covered) }
    {
        let mut writer = HmacWriter::new(&mac_key(file_key));
        writer.update(self.covered.as_slice());
        writer.verify(&self.mac)
    }

    /// The stanzas, in their order: one or more.
    pub fn stanzas(&self) -> &[Stanza]
        ensures stanzas { result.now ≡ self.now.stanzas }
        ensures header { IsHeader self.now.stanzas self.now.mac }
    {
        self.stanzas.as_slice()
    }

    /// The stanzas themselves, in their order: one or more.
    pub fn into_stanzas(self) -> Vec<Stanza>
        ensures stanzas { result.items ≡ self.stanzas }
        ensures header { IsHeader self.stanzas self.mac }
    {
        let OldHeader {
            stanzas,
            mac: _,
            covered: _,
        } = self;
        stanzas
    }
}
