//! The commands.

use crate::early::{answered, rewritten, shown_name};
use crate::failure::{Failure, done};
use crate::files::{copied, is_seekable, open, open_file, open_input, read};
use crate::front::Fronted;
use crate::inspection::{Asked, Inspecting};
use crate::jobs::{
    Decrypting, Encrypting, Job, Migrating, NewKey, Publishing, ReadingPart, Rekeying, SeekingPart,
    To, Verifying, run_job, run_seen, run_to_output,
};
use crate::keys::{keyring, passphrase_text, words};
use crate::new_key::{tell_recipient, warn};
use crate::progress::is_told;
use age::armor::Format;
use age::io::{Read, Write, flush_retrying, write_all};
use sazh_command::{Command, Identities, Opening, Output, Recipient, Recipients};
use sazh_core::keyring::Keyring;

// The permissions of a new file, before the user's mask: to read and to write for all, or for its owner alone.
const FOR_ALL: u32 = 0o666;

const FOR_ITS_OWNER: u32 = 0o600;

// A text is written, and nothing is read.
#[derive(Drop)]
struct Writing {
    text: Vec<u8>,
}

impl Job for Writing {
    fn run<R: Read, W: Write>(
        self,
        rt: &HostRuntime,
        _reader: &mut R,
        writer: &mut W,
    ) -> Result<(), Failure> {
        done(rt, write_all(writer, &self.text))?;
        done(rt, flush_retrying(writer))
    }
}

// To whom is encrypted.
fn to(rt: &HostRuntime, recipients: &Recipients) -> Result<To, Failure> {
    match recipients {
        Recipients::Listed(asked) => Ok(To::Words(words(rt, asked)?)),
        Recipients::PassphraseFile(name) => Ok(To::Passphrase(passphrase_text(rt, name)?)),
    }
}

// Bytes of a plaintext, from a place on.
#[derive(Clone, Copy)]
struct Range {
    place: u64,
    count: u64,
}

// A part of the plaintext of the input of this name, in which nobody can seek, to standard output: it is read into memory first.
fn part_of_stream(
    rt: &HostRuntime,
    keyring: Keyring,
    header_limit: u64,
    range: Range,
    input: &str,
    is_told: bool,
) -> Result<(), Failure> {
    let job = ReadingPart {
        keyring,
        header_limit,
        place: range.place,
        count: range.count,
        name: shown_name(input),
    };
    run_to_output(rt, job, input, is_told)
}

// A part of the plaintext of standard input, to standard output.
fn part_of_input(
    rt: &HostRuntime,
    keyring: Keyring,
    header_limit: u64,
    range: Range,
    is_told: bool,
) -> Result<(), Failure> {
    let Range { place, count } = range;
    let Some(looked_at) = open_input(rt) else {
        return part_of_stream(rt, keyring, header_limit, range, "-", is_told);
    };
    let mut front = Fronted::new(rt, looked_at.into_inner());
    front.look(rt, "standard input", header_limit)?;
    let Some(file) = open_input(rt) else {
        return Err(Failure::Unread);
    };
    let job = SeekingPart {
        keyring,
        file,
        name: "standard input",
        place,
        count,
    };
    run_to_output(rt, job, "-", is_told)
}

// A part of the plaintext of the file of this name, in which is sought, to standard output.
fn part_of_file(
    rt: &HostRuntime,
    keyring: Keyring,
    header_limit: u64,
    range: Range,
    name: &str,
    is_told: bool,
) -> Result<(), Failure> {
    let mut front = Fronted::new(rt, open_file(rt, name)?);
    front.look(rt, name, header_limit)?;
    let job = SeekingPart {
        keyring,
        file: open(rt, name)?,
        name,
        place: range.place,
        count: range.count,
    };
    run_to_output(rt, job, "-", is_told)
}

// A part of a file's plaintext, to standard output.
fn part(
    rt: &HostRuntime,
    opening: &Opening,
    range: Range,
    input: &str,
    is_told: bool,
) -> Result<(), Failure> {
    let asked = &opening.identities;
    let keyring = keyring(rt, asked)?;
    let answer = if input == "-" {
        part_of_input(rt, keyring, opening.header_limit, range, is_told)
    } else if is_seekable(rt, input) {
        part_of_file(rt, keyring, opening.header_limit, range, input, is_told)
    } else {
        part_of_stream(rt, keyring, opening.header_limit, range, input, is_told)
    };
    answered(rt, asked, input, answer)
}

// Writes a text to standard output.
fn print(rt: &HostRuntime, text: &str) -> Result<(), Failure> {
    let text = Vec::from_slice(rt.alloc(), text.as_bytes())?;
    run_to_output(rt, Writing { text }, "-", false)
}

// Writes a new key to an output, and tells its recipient.
fn keygen(rt: &HostRuntime, output: &Output, quiet: bool) -> Result<(), Failure> {
    warn(rt, output)?;
    let seen = run_seen(rt, NewKey, "-", output, FOR_ITS_OWNER, false)?;
    if !quiet {
        tell_recipient(rt, output, seen.front());
    }
    Ok(())
}

// Writes the recipients of the identities in an input to an output.
fn recipients_of(rt: &HostRuntime, input: &str, output: &Output) -> Result<(), Failure> {
    let bytes = read(rt, input)?;
    let job = Publishing {
        name: input,
        bytes: &bytes,
    };
    run_job(rt, job, "-", output, FOR_ALL, false)
}

// The form of a file, which is armor where that is asked for.
fn format(armored: bool) -> Format {
    if armored {
        Format::AsciiArmor
    } else {
        Format::Binary
    }
}

// Encrypts an input to an output.
fn encrypt(
    rt: &HostRuntime,
    recipients: &Recipients,
    format: Format,
    input: &str,
    output: &Output,
    is_told: bool,
) -> Result<(), Failure> {
    let job = Encrypting {
        to: to(rt, recipients)?,
        format,
    };
    run_job(rt, job, input, output, FOR_ALL, is_told)
}

// Decrypts an input to an output.
fn decrypt(
    rt: &HostRuntime,
    opening: &Opening,
    input: &str,
    output: &Output,
    is_told: bool,
) -> Result<(), Failure> {
    let asked = &opening.identities;
    let job = Decrypting {
        keyring: keyring(rt, asked)?,
        header_limit: opening.header_limit,
    };
    let answer = run_job(rt, job, input, output, FOR_ALL, is_told);
    answered(rt, asked, input, answer)
}

// Rewrites an input to an output, with a header of the standard.
fn migrate(
    rt: &HostRuntime,
    opening: &Opening,
    input: &str,
    output: &Output,
    is_told: bool,
) -> Result<(), Failure> {
    let asked = &opening.identities;
    let job = Migrating {
        keyring: keyring(rt, asked)?,
        header_limit: opening.header_limit,
    };
    let answer = run_job(rt, job, input, output, FOR_ALL, is_told);
    rewritten(rt, asked, input, answer)
}

// Encrypts the content of an input to others, to an output.
fn rekey(
    rt: &HostRuntime,
    opening: &Opening,
    (recipients, format): (&[Recipient], Format),
    input: &str,
    output: &Output,
    is_told: bool,
) -> Result<(), Failure> {
    let asked = &opening.identities;
    let job = Rekeying {
        keyring: keyring(rt, asked)?,
        header_limit: opening.header_limit,
        words: words(rt, recipients)?,
        format,
    };
    let answer = run_job(rt, job, input, output, FOR_ALL, is_told);
    answered(rt, asked, input, answer)
}

// Tells the length and the digest of an input's content on standard output.
fn verify(rt: &HostRuntime, opening: &Opening, input: &str, is_told: bool) -> Result<(), Failure> {
    let asked = &opening.identities;
    let job = Verifying {
        keyring: keyring(rt, asked)?,
        header_limit: opening.header_limit,
    };
    answered(rt, asked, input, run_to_output(rt, job, input, is_told))
}

// Who is asked whether they open a file.
fn asked(rt: &HostRuntime, identities: &Option<Identities>) -> Result<Option<Asked>, Failure> {
    let Some(identities) = identities else {
        return Ok(None);
    };
    let passphrase_file = match identities {
        Identities::PassphraseFile(name) => Some(copied(rt, name)?),
        Identities::Files(_) | Identities::ProtectedFiles(_, _) => None,
    };
    Ok(Some(Asked {
        keyring: keyring(rt, identities)?,
        passphrase_file,
    }))
}

// Tells what an input is, on standard output.
fn inspection(
    rt: &HostRuntime,
    identities: &Option<Identities>,
    header_limit: u64,
    json: bool,
    input: &str,
) -> Result<(), Failure> {
    let job = Inspecting {
        header_limit,
        json,
        asked: asked(rt, identities)?,
        is_armored: false,
    };
    run_to_output(rt, job, input, false)
}

/// Does what a command line asks for.
pub fn run(rt: &HostRuntime, command: &Command) -> Result<(), Failure> {
    match command {
        Command::Help(text) | Command::Version(text) => print(rt, text.as_str()),
        Command::Keygen { output, quiet } => keygen(rt, output, *quiet),
        Command::RecipientsOf { input, output } => recipients_of(rt, input, output),
        Command::Encrypt {
            recipients,
            armored,
            input,
            output,
            quiet,
        } => encrypt(
            rt,
            recipients,
            format(*armored),
            input,
            output,
            is_told(rt, *quiet),
        ),
        Command::Decrypt {
            opening,
            input,
            output,
            quiet,
        } => decrypt(rt, opening, input, output, is_told(rt, *quiet)),
        Command::Part {
            opening,
            place,
            count,
            input,
            quiet,
        } => {
            let range = Range {
                place: *place,
                count: *count,
            };
            part(rt, opening, range, input, is_told(rt, *quiet))
        }
        Command::Migrate {
            opening,
            input,
            output,
            quiet,
        } => migrate(rt, opening, input, output, is_told(rt, *quiet)),
        Command::Rekey {
            opening,
            recipients,
            armored,
            input,
            output,
            quiet,
        } => rekey(
            rt,
            opening,
            (recipients, format(*armored)),
            input,
            output,
            is_told(rt, *quiet),
        ),
        Command::Verify {
            opening,
            input,
            quiet,
        } => verify(rt, opening, input, is_told(rt, *quiet)),
        Command::Inspect {
            identities,
            header_limit,
            json,
            input,
        } => inspection(rt, identities, *header_limit, *json, input),
    }
}
