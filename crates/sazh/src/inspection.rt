//! What is told of a file that is looked at without a key.

use crate::failure::{Failure, Fault, Shown, done, said};
use crate::files::copied;
use crate::jobs::Job;
use age::DecryptError;
use age::format::{HeaderV1, Stanza};
use age::io::{Read, Write, flush_retrying, write_all};
use age::streaming::FileError;
use age_standard::StandardSuite;
use sazh_core::error::{GivenError, InspectionError};
use sazh_core::given::opens_by;
use sazh_core::inspecting::{Inspection, Lengths, inspect};
use sazh_core::inspection_json::inspection_json;
use sazh_core::keyring::{KeyFile, Keyring};
use serde_json::Value;
use std::alloc::AllocError;
use std::fmt::Write as _;

// What a file in armor begins with (age-encryption.org/v1, "ASCII armor").
const BEGIN: &[u8] = b"-----BEGIN AGE ENCRYPTED FILE-----";

/// Tells what the input is, as lines of text or as JSON.
#[derive(Drop)]
pub struct Inspecting {
    pub header_limit: u64,
    pub json: bool,
    /// Who is asked whether they open it, where somebody is.
    pub asked: Option<Asked>,
    /// Whether it is in armor, which is seen of its front.
    pub is_armored: bool,
}

/// Who is asked whether they open a file.
#[derive(Drop)]
pub struct Asked {
    pub keyring: Keyring,
    /// The name of the file of a passphrase, where that is asked and no file of identities.
    pub passphrase_file: Option<String>,
}

// Who opens a file.
#[derive(Drop)]
enum Opener {
    // Nobody was asked.
    Unasked,
    // Nobody who was asked.
    Nobody,
    // The first identity in the file of this name, or the passphrase in it.
    File(String),
}

// Whether the file with this header opens by these.
fn opens(rt: &HostRuntime, keyring: &Keyring, header: &HeaderV1) -> Result<bool, Failure> {
    match opens_by::<StandardSuite>(rt.alloc(), keyring, header) {
        Ok(_) => Ok(true),
        Err(GivenError::Given(error)) => Err(said(rt, &error)),
        Err(GivenError::Command(FileError::Decrypt(error))) => match error {
            DecryptError::NoMatchingKeys
            | DecryptError::DecryptionFailed
            | DecryptError::KeyDecryptionFailed => Ok(false),
            error => Err(Failure::File(FileError::Decrypt(error))),
        },
        Err(GivenError::Command(error)) => Err(Failure::File(error)),
    }
}

// What decrypts with the identities in one file alone, and the same passphrase.
fn alone(
    rt: &HostRuntime,
    file: &KeyFile,
    passphrase: &Option<Vec<u8>>,
) -> Result<Keyring, Failure> {
    let mut files: Vec<KeyFile> = Vec::new(rt.alloc());
    files.push(KeyFile {
        name: copied(rt, &file.name)?,
        bytes: Vec::from_slice(rt.alloc(), &file.bytes)?,
    })?;
    let passphrase = match passphrase {
        Some(text) => Some(Vec::from_slice(rt.alloc(), text)?),
        None => None,
    };
    Ok(Keyring::Files(files, passphrase))
}

// The first of these files whose identities open the file with this header.
fn opener_among(
    rt: &HostRuntime,
    files: &[KeyFile],
    passphrase: &Option<Vec<u8>>,
    header: &HeaderV1,
) -> Result<Opener, Failure> {
    for file in files {
        let keyring = alone(rt, file, passphrase)?;
        if opens(rt, &keyring, header)? {
            return Ok(Opener::File(copied(rt, &file.name)?));
        }
    }
    Ok(Opener::Nobody)
}

// Who opens the file with this header.
fn opener_of(
    rt: &HostRuntime,
    asked: &Option<Asked>,
    header: &HeaderV1,
) -> Result<Opener, Failure> {
    let Some(asked) = asked else {
        return Ok(Opener::Unasked);
    };
    if let Keyring::Files(files, passphrase) = &asked.keyring {
        return opener_among(rt, files, passphrase, header);
    }
    match &asked.passphrase_file {
        Some(name) if opens(rt, &asked.keyring, header)? => Ok(Opener::File(copied(rt, name)?)),
        _ => Ok(Opener::Nobody),
    }
}

// The words for the form of a file.
fn form(is_armored: bool) -> &'static str {
    if is_armored { "armor" } else { "binary" }
}

// Adds the line of a stanza.
fn push_stanza(text: &mut String, stanza: &Stanza) -> Result<(), AllocError> {
    text.push_str("stanza: ")?;
    text.push_str(stanza.tag())?;
    for arg in stanza.args() {
        text.push(' ')?;
        text.push_str(arg)?;
    }
    let count = stanza.body().len();
    write!(text, ", {count} bytes\n")?;
    Ok(())
}

// Adds the lines of what follows the header.
fn push_lengths(text: &mut String, lengths: &Option<Lengths>) -> Result<(), AllocError> {
    if let Some(lengths) = lengths {
        let (payload, chunks, content) = (lengths.payload, lengths.chunks, lengths.plaintext);
        write!(
            text,
            "payload: {payload} bytes\nchunks: {chunks}\ncontent: {content} bytes\n"
        )?;
    }
    Ok(())
}

// Adds the line of who opens it.
fn push_opener(text: &mut String, opener: &Opener) -> Result<(), AllocError> {
    match opener {
        Opener::Unasked => Ok(()),
        Opener::Nobody => text.push_str("opened by: nobody\n"),
        Opener::File(name) => {
            let name = Shown(name);
            write!(text, "opened by: {name}\n")
        }
    }
}

// The lines that tell of a file.
fn lines_of(
    rt: &HostRuntime,
    is_armored: bool,
    found: &Inspection,
    opener: &Opener,
) -> Result<String, AllocError> {
    let mut text = String::new(rt.alloc());
    let (form, length) = (form(is_armored), found.header_length);
    write!(text, "form: {form}\nheader: {length} bytes\n")?;
    for stanza in found.header.stanzas() {
        push_stanza(&mut text, stanza)?;
    }
    push_lengths(&mut text, &found.lengths)?;
    push_opener(&mut text, opener)?;
    Ok(text)
}

// Who opens it, as JSON.
fn opener_json(rt: &HostRuntime, opener: &Opener) -> Result<String, AllocError> {
    match opener {
        Opener::Unasked | Opener::Nobody => String::from_str(rt.alloc(), "null"),
        Opener::File(name) => Value::try_from_str(rt.alloc(), name)?.to_string(rt.alloc()),
    }
}

// The object of `inspection_json`, with two members more, and a line end.
fn json_of(
    rt: &HostRuntime,
    is_armored: bool,
    found: &Inspection,
    opener: &Opener,
) -> Result<String, AllocError> {
    let told = inspection_json(rt.alloc(), found)?;
    let members = told.strip_prefix('{').unwrap_or("}");
    let (form, opener) = (form(is_armored), opener_json(rt, opener)?);
    format!(in rt.alloc(); "{{\"form\":\"{form}\",\"opened_by\":{opener},{members}\n")
}

// What is wrong with a file whose header was read.
fn fault_of(found: &Inspection) -> Option<Fault> {
    if !found.keeps_rule {
        return Some(Fault::PassphraseAmongOthers);
    }
    match found.lengths {
        Some(_) => None,
        None => Some(Fault::Length),
    }
}

// Why it isn't told what a file is.
fn refused(error: InspectionError) -> Failure {
    match error {
        InspectionError::OutOfMemory => Failure::OutOfMemory,
        InspectionError::Header { why, .. } => Failure::File(FileError::Decrypt(why)),
        InspectionError::Rest { why, .. } => Failure::Whole(FileError::Io(why)),
    }
}

impl Job for Inspecting {
    fn run<R: Read, W: Write>(
        self,
        rt: &HostRuntime,
        reader: &mut R,
        writer: &mut W,
    ) -> Result<(), Failure> {
        let found = match inspect::<&mut R>(rt.alloc(), reader) {
            Ok(found) => found,
            Err(error) => return Err(refused(error)),
        };
        let opener = opener_of(rt, &self.asked, &found.header)?;
        let text = if self.json {
            json_of(rt, self.is_armored, &found, &opener)?
        } else {
            lines_of(rt, self.is_armored, &found, &opener)?
        };
        done(rt, write_all(writer, text.as_bytes()))?;
        done(rt, flush_retrying(writer))?;
        match fault_of(&found) {
            None => Ok(()),
            Some(fault) => Err(Failure::Damaged(fault)),
        }
    }

    fn header_limit(&self) -> Option<u64> {
        Some(self.header_limit)
    }

    fn note_front(&mut self, front: &[u8]) {
        self.is_armored = front.starts_with(BEGIN);
    }
}
