//! Why a command was refused.

use age::DecryptError;
use age::streaming::FileError;
use std::alloc::{AllocError, AllocFailed};
use std::fmt::Display;
use std::{fmt, io};

/// Why a command was refused. Its text is one line, without the program's name.
#[derive(Drop)]
pub enum Failure {
    /// Memory was refused.
    OutOfMemory,
    /// Nobody reads standard output any more.
    ClosedPipe,
    /// The file to open has no header of the standard.
    InvalidHeader,
    /// Nobody who was asked has the key of the file to open, which was encrypted with a passphrase or to keys.
    NoKeys { of_passphrase: bool },
    /// The passphrase opens no encrypted file of identities.
    WrongPassphrase,
    /// A file wasn't opened or written, and nobody has looked at it yet.
    File(FileError),
    /// The same of a file of which a part was asked for.
    Part(FileError),
    /// The same of a file whose content goes nowhere as it is.
    Whole(FileError),
    /// The input is no whole file, for this reason.
    Damaged(Fault),
    /// The input wasn't read, for the reason that the system gave.
    Unread,
    /// As this text says.
    Said(String),
}

/// What is wrong with a file that has a header.
#[derive(Clone, Copy)]
pub enum Fault {
    /// A stanza of a passphrase is one of several.
    PassphraseAmongOthers,
    /// So many bytes as follow the header follow none.
    Length,
}

impl fmt::Display for Fault {
    fn fmt<W: fmt::Write>(&self, f: &mut fmt::Formatter<W>) -> fmt::Result {
        f.write_str(match self {
            Fault::PassphraseAmongOthers =>
                "invalid header: a passphrase's stanza isn't the only one",
            Fault::Length => "damaged: no file has so many bytes behind its header",
        })
    }
}

impl Failure {
    /// Whether a file was refused for its header.
    pub fn is_invalid_header(&self) -> bool {
        matches!(self, Failure::InvalidHeader)
    }
}

/// That something was refused for this reason.
pub fn said<E: Display>(rt: &HostRuntime, why: &E) -> Failure {
    told(format!(in rt.alloc(); "{why}"))
}

/// A name or a word as it is printed: with its control characters escaped, so that it is one line and steers no terminal.
#[derive(Clone, Copy)]
pub struct Shown<'a>(pub &'a str);

impl<'a> fmt::Display for Shown<'a> {
    fn fmt<W: fmt::Write>(&self, f: &mut fmt::Formatter<W>) -> fmt::Result {
        for c in self.0.chars() {
            if c.is_control() {
                write!(f, "{}", c.escape_default())?;
            } else {
                f.write_char(c)?;
            }
        }
        Ok(())
    }
}

/// Why the system refused, in words.
#[derive(Clone, Copy)]
pub struct Reason(pub io::Error);

impl fmt::Display for Reason {
    fn fmt<W: fmt::Write>(&self, f: &mut fmt::Formatter<W>) -> fmt::Result {
        match self.0.kind() {
            io::ErrorKind::NotFound => f.write_str("no such file"),
            io::ErrorKind::PermissionDenied => f.write_str("permission denied"),
            io::ErrorKind::IsADirectory => f.write_str("it is a folder"),
            io::ErrorKind::StorageFull => f.write_str("no space is left on the device"),
            io::ErrorKind::InvalidFilename => f.write_str("the name is too long"),
            io::ErrorKind::BrokenPipe => f.write_str("nobody reads it any more"),
            _ => write!(f, "{}", self.0),
        }
    }
}

/// That what has this name was refused for this reason.
pub fn named<E: Display>(rt: &HostRuntime, name: &str, why: &E) -> Failure {
    let name = Shown(name);
    told(format!(in rt.alloc(); "{name}: {why}"))
}

/// That the system refused what has this name.
pub fn refused_by(rt: &HostRuntime, name: &str, error: io::Error) -> Failure {
    named(rt, name, &Reason(error))
}

/// Tells of something on standard error.
pub fn tell<E: Display>(rt: &HostRuntime, what: &E) {
    let _ = eprintln!(rt; "sazh: {what}");
}

/// What was answered, or that it was refused.
pub fn done<T, E: Display + Drop>(rt: &HostRuntime, answer: Result<T, E>) -> Result<T, Failure> {
    match answer {
        Ok(value) => Ok(value),
        Err(error) => Err(said(rt, &error)),
    }
}

/// What was answered, or that what has this name was refused.
pub fn done_with<T, E: Display + Drop>(
    rt: &HostRuntime,
    name: &str,
    answer: Result<T, E>,
) -> Result<T, Failure> {
    match answer {
        Ok(value) => Ok(value),
        Err(error) => Err(named(rt, name, &error)),
    }
}

/// What a text says, or that there was no memory for it.
pub fn told(text: Result<String, AllocError>) -> Failure {
    match text {
        Ok(text) => Failure::Said(text),
        Err(_) => Failure::OutOfMemory,
    }
}

impl fmt::Display for Failure {
    fn fmt<W: fmt::Write>(&self, f: &mut fmt::Formatter<W>) -> fmt::Result {
        match self {
            Failure::OutOfMemory => f.write_str("out of memory"),
            Failure::ClosedPipe => f.write_str("nobody reads standard output any more"),
            Failure::InvalidHeader => write!(f, "{}", DecryptError::InvalidHeader),
            Failure::NoKeys { .. } => write!(f, "{}", DecryptError::NoMatchingKeys),
            Failure::WrongPassphrase => write!(f, "{}", DecryptError::KeyDecryptionFailed),
            Failure::File(error) | Failure::Part(error) | Failure::Whole(error) => {
                write!(f, "{error}")
            }
            Failure::Damaged(why) => write!(f, "{why}"),
            Failure::Unread => f.write_str("the input isn't read"),
            Failure::Said(text) => f.write_str(text),
        }
    }
}

impl From<AllocError> for Failure {
    fn from(_: AllocError) -> Failure {
        Failure::OutOfMemory
    }
}

impl<T: Drop> From<AllocFailed<T>> for Failure {
    fn from(_: AllocFailed<T>) -> Failure {
        Failure::OutOfMemory
    }
}
