//! What is looked at before a command reads anything.

use crate::failure::{Failure, refused_by, told};
use crate::output::where_to;
use sazh_command::{Command, Identities, Output, Recipient, Recipients};
use std::alloc::AllocError;
use std::fs;
use std::io::IsTerminal;
use std::os::unix::fs::MetadataExt;

// Standard input, by its names.
const INPUT: [&str; 4] = ["-", "/dev/stdin", "/dev/fd/0", "/proc/self/fd/0"];

/// Two words of a command line that name one stream, whose bytes are read once.
#[derive(Clone, Copy)]
pub struct Clash {
    pub first: &'static str,
    pub second: &'static str,
}

// A stream that a word names, and the option that the word is the value of.
#[derive(Clone, Copy)]
struct Stream {
    option: &'static str,
    device: u64,
    node: u64,
}

// The streams that the words of a command line name so far, and the first two that are one.
#[derive(Drop)]
struct Streams {
    all: Vec<Stream>,
    clash: Option<Clash>,
}

// The stream that a word names: standard input, or what is no regular file. Its bytes are gone once they are read.
fn stream_of(rt: &HostRuntime, option: &'static str, name: &str) -> Option<Stream> {
    let is_input = INPUT.contains(&name);
    let Ok(found) = fs::metadata(rt, if is_input { "/dev/stdin" } else { name }) else {
        return None;
    };
    if !is_input && (found.is_file() || found.is_dir()) {
        return None;
    }
    Some(Stream {
        option,
        device: found.dev(),
        node: found.ino(),
    })
}

// The option whose word names this stream, if there is one.
fn option_of(all: &[Stream], one: Stream) -> Option<&'static str> {
    for other in all {
        if other.device == one.device && other.node == one.node {
            return Some(other.option);
        }
    }
    None
}

impl Streams {
    // Adds the word of an option.
    fn add(
        &mut self,
        rt: &HostRuntime,
        option: &'static str,
        name: &str,
    ) -> Result<(), AllocError> {
        let Some(one) = stream_of(rt, option, name) else {
            return Ok(());
        };
        if let Some(first) = option_of(&self.all, one) {
            self.clash = Some(Clash {
                first,
                second: option,
            });
        }
        self.all.push(one)?;
        Ok(())
    }

    // Adds the word of a recipient, where it is the name of a file.
    fn add_recipient(&mut self, rt: &HostRuntime, word: &Recipient) -> Result<(), AllocError> {
        match word {
            Recipient::Text(_) => Ok(()),
            Recipient::File(name) => self.add(rt, "-R", name),
            Recipient::IdentityFile(name) => self.add(rt, "-i", name),
        }
    }

    // Adds files of recipients.
    fn add_listed(&mut self, rt: &HostRuntime, words: &[Recipient]) -> Result<(), AllocError> {
        for word in words {
            self.add_recipient(rt, word)?;
        }
        Ok(())
    }

    // Adds the words that say to whom is encrypted.
    fn add_recipients(&mut self, rt: &HostRuntime, all: &Recipients) -> Result<(), AllocError> {
        match all {
            Recipients::PassphraseFile(name) => self.add(rt, "-p", name),
            Recipients::Listed(words) => self.add_listed(rt, words),
        }
    }

    // Adds files of identities.
    fn add_files(&mut self, rt: &HostRuntime, names: &[String]) -> Result<(), AllocError> {
        for name in names {
            self.add(rt, "-i", name)?;
        }
        Ok(())
    }

    // Adds the words that say who decrypts.
    fn add_identities(&mut self, rt: &HostRuntime, all: &Identities) -> Result<(), AllocError> {
        match all {
            Identities::Files(names) => self.add_files(rt, names),
            Identities::PassphraseFile(name) => self.add(rt, "-p", name),
            Identities::ProtectedFiles(names, name) => {
                self.add_files(rt, names)?;
                self.add(rt, "-p", name)
            }
        }
    }

    // Adds the words of a command.
    fn add_all(&mut self, rt: &HostRuntime, command: &Command) -> Result<(), AllocError> {
        match command {
            Command::Help(_) | Command::Version(_) | Command::Keygen { .. } => Ok(()),
            Command::RecipientsOf { input, .. } => self.add(rt, "IN", input),
            Command::Encrypt {
                recipients,
                input,
                ..
            } => {
                self.add_recipients(rt, recipients)?;
                self.add(rt, "IN", input)
            }
            Command::Decrypt { opening, input, .. }
            | Command::Part { opening, input, .. }
            | Command::Migrate { opening, input, .. }
            | Command::Verify { opening, input, .. } => {
                self.add_identities(rt, &opening.identities)?;
                self.add(rt, "IN", input)
            }
            Command::Inspect {
                identities,
                input,
                ..
            } => {
                if let Some(identities) = identities {
                    self.add_identities(rt, identities)?;
                }
                self.add(rt, "IN", input)
            }
            Command::Rekey {
                opening,
                recipients,
                input,
                ..
            } => {
                self.add_identities(rt, &opening.identities)?;
                self.add_listed(rt, recipients)?;
                self.add(rt, "IN", input)
            }
        }
    }
}

/// The words of a command that name one stream, where two do.
pub fn clash_of(rt: &HostRuntime, command: &Command) -> Result<Option<Clash>, AllocError> {
    let mut streams = Streams {
        all: Vec::new(rt.alloc()),
        clash: None,
    };
    streams.add_all(rt, command)?;
    Ok(streams.clash)
}

// Where a command writes, if it has words for that.
fn output(command: &Command) -> Option<&Output> {
    match command {
        Command::Help(_)
        | Command::Version(_)
        | Command::Part { .. }
        | Command::Verify { .. }
        | Command::Inspect { .. } => None,
        Command::Keygen { output, .. }
        | Command::RecipientsOf { output, .. }
        | Command::Encrypt { output, .. }
        | Command::Decrypt { output, .. }
        | Command::Migrate { output, .. }
        | Command::Rekey { output, .. } => Some(output),
    }
}

// The identities that a command has words for.
fn identities(command: &Command) -> Option<&Identities> {
    match command {
        Command::Help(_)
        | Command::Version(_)
        | Command::Keygen { .. }
        | Command::RecipientsOf { .. }
        | Command::Encrypt { .. } => None,
        Command::Decrypt { opening, .. }
        | Command::Part { opening, .. }
        | Command::Migrate { opening, .. }
        | Command::Rekey { opening, .. }
        | Command::Verify { opening, .. } => Some(&opening.identities),
        Command::Inspect { identities, .. } => match identities {
            Some(identities) => Some(identities),
            None => None,
        },
    }
}

// Where a command writes what is no text, and what the words may be that write it as text.
fn binary_output(command: &Command) -> Option<(&Output, &'static str)> {
    match command {
        Command::Encrypt {
            armored: false,
            output,
            ..
        }
        | Command::Rekey {
            armored: false,
            output,
            ..
        } => Some((output, "-a writes text, ")),
        Command::Migrate { output, .. } => Some((output, "")),
        _ => None,
    }
}

// Refuses to write what is no text to a terminal where no word asks for that.
fn terminal_looked(rt: &HostRuntime, command: &Command) -> Result<(), Failure> {
    let Some((output, as_text)) = binary_output(command) else {
        return Ok(());
    };
    if output.name.is_some() || !rt.stdout().is_terminal() {
        return Ok(());
    }
    Err(told(format!(in rt.alloc();
        "standard output is a terminal, and this is no text: {as_text}-o FILE writes a file, and -o - writes it there all the same"
    )))
}

// Refuses a file of the passphrase of identities that isn't there, also where no file of identities needs it.
fn passphrase_looked(rt: &HostRuntime, command: &Command) -> Result<(), Failure> {
    let Some(Identities::ProtectedFiles(_, name)) = identities(command) else {
        return Ok(());
    };
    if INPUT.contains(&name.as_str()) {
        return Ok(());
    }
    match fs::metadata(rt, name.as_str()) {
        Ok(_) => Ok(()),
        Err(error) => Err(refused_by(rt, name, error)),
    }
}

/// Refuses an output to which nothing can be written, a terminal for what is no text, and a file of a passphrase that isn't there, before
/// anything is read.
pub fn looked(rt: &HostRuntime, command: &Command) -> Result<(), Failure> {
    terminal_looked(rt, command)?;
    if let Some(output) = output(command) {
        where_to(rt, output)?;
    }
    passphrase_looked(rt, command)
}
