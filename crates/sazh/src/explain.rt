//! Why a file isn't decrypted, said of what was seen of it.

use crate::failure::{Failure, Shown, named, said, told};
use crate::files::open_file;
use crate::watch::{Seen, Watched};
use age::DecryptError;
use age::armor::ArmoredReader;
use age::io::{Bytes, Error, Read};
use age::streaming::FileError;
use sazh_command::Identities;
use std::io;

// How the header of a file begins, whatever its version.
const FORMAT: &[u8] = b"age-encryption.org/";

// The line of the version that is read.
const VERSION: &[u8] = b"age-encryption.org/v1\n";

// How a file begins that is encrypted with a passphrase, whose stanza is the only one.
const OF_PASSPHRASE: &[u8] = b"age-encryption.org/v1\n-> scrypt ";

// The largest work factor that is taken.
const MOST_WORK: u8 = 22;

// How many bytes are shown of what is no file of this format.
const SHOWN: usize = 24;

// The plaintext bytes of a chunk, which opens whole or not at all.
const CHUNK: u64 = 65_536;

// What was refused, where there is a text for it.
fn text_or_memory(
    rt: &HostRuntime,
    name: &str,
    text: Result<String, std::alloc::AllocError>,
) -> Failure {
    match text {
        Ok(text) => named(rt, name, &text),
        Err(_) => Failure::OutOfMemory,
    }
}

// The first bytes of a file without its armor, or none where that is damaged.
fn without_armor(rt: &HostRuntime, front: &[u8]) -> Result<Vec<u8>, Failure> {
    let mut room = [0; 64];
    let count = match ArmoredReader::new(rt.alloc(), Bytes::new(front)) {
        Err(_) => return Err(Failure::OutOfMemory),
        Ok(reader) => {
            let mut reader = reader;
            match reader.read(&mut room) {
                Ok(count) => count,
                Err(_) => 0,
            }
        }
    };
    match room.get(..count) {
        Some(read) => Ok(Vec::from_slice(rt.alloc(), read)?),
        None => Ok(Vec::new(rt.alloc())),
    }
}

// So many bytes of a front, or all.
fn shown(front: &[u8]) -> &[u8] {
    match front.get(..SHOWN) {
        Some(few) => few,
        None => front,
    }
}

// That a file has no header, where its front says so.
fn no_header(rt: &HostRuntime, name: &str, front: &[u8]) -> Failure {
    if front.starts_with(VERSION) {
        return Failure::InvalidHeader;
    }
    let few = shown(front).escape_ascii();
    text_or_memory(
        rt,
        name,
        format!(in rt.alloc(); "no age file: it begins with \"{few}\""),
    )
}

// That a file ends in its header, or has none: what there is of it isn't how a header begins.
fn cut_header(rt: &HostRuntime, name: &str, front: &[u8]) -> Failure {
    if front.starts_with(VERSION) || VERSION.starts_with(front) {
        return named(rt, name, &"it ends in its header");
    }
    no_header(rt, name, front)
}

// That a file has a header of another version.
fn other_version(rt: &HostRuntime, name: &str, front: &[u8]) -> Failure {
    let line = match front.strip_prefix(FORMAT) {
        Some(rest) => rest,
        None => front,
    };
    let end = match line.iter().position(|byte| *byte == b'\n') {
        Some(end) => end,
        None => SHOWN,
    };
    let version = match line.get(..end) {
        Some(version) => shown(version),
        None => shown(line),
    };
    let version = version.escape_ascii();
    text_or_memory(
        rt,
        name,
        format!(in rt.alloc();
            "its format is of the version \"{version}\", and v1 is the one that is read"
        ),
    )
}

// That a passphrase was stretched with more work than is taken: that of the file, or of a file of identities.
fn much_work(rt: &HostRuntime, name: &str, is_of_file: bool, work: u8) -> Failure {
    let name = if is_of_file {
        name
    } else {
        "an encrypted file of identities"
    };
    text_or_memory(
        rt,
        name,
        format!(in rt.alloc();
            "its passphrase has the work factor {work}, and the largest that is taken is {MOST_WORK}"
        ),
    )
}

// Why the front of a file, without its armor, was refused.
fn of_front(rt: &HostRuntime, name: &str, front: &[u8], error: DecryptError) -> Failure {
    let of_passphrase = front.starts_with(OF_PASSPHRASE);
    match error {
        DecryptError::OutOfMemory => Failure::OutOfMemory,
        DecryptError::InvalidHeader => no_header(rt, name, front),
        DecryptError::UnknownFormat => other_version(rt, name, front),
        DecryptError::ExcessiveWork { required, .. } => much_work(
            rt,
            name,
            of_passphrase,
            required,
        ),
        DecryptError::NoMatchingKeys => Failure::NoKeys { of_passphrase },
        DecryptError::DecryptionFailed => named(rt, name, &"wrong passphrase"),
        DecryptError::KeyDecryptionFailed => Failure::WrongPassphrase,
        DecryptError::Io(Error::UnexpectedEof) => cut_header(rt, name, front),
        DecryptError::Io(Error::Armor(fault)) => text_or_memory(
            rt,
            name,
            format!(in rt.alloc(); "damaged: {fault}"),
        ),
        error => named(rt, name, &error),
    }
}

// Whether a file is refused so that was changed or cut.
fn is_damage(error: &Error) -> bool {
    matches!(
        error,
        Error::Truncated
            | Error::BadChunk
            | Error::AfterLast
            | Error::LastChunkEmpty
            | Error::BadEnd
            | Error::UnexpectedEof
            | Error::Armor(_)
    )
}

/// Why the content of a file was refused, of which so many bytes were good.
pub fn of_content(rt: &HostRuntime, name: &str, good: u64, error: Error) -> Failure {
    if is_damage(&error) {
        return text_or_memory(
            rt,
            name,
            format!(in rt.alloc(); "damaged at or after byte {good} of its content: {error}"),
        );
    }
    match error {
        Error::OutOfMemory => Failure::OutOfMemory,
        error => named(rt, name, &error),
    }
}

/// Why a file was refused whose content goes nowhere as it is, so that no place in it is known.
pub fn of_whole(rt: &HostRuntime, name: &str, seen: &Seen, error: FileError) -> Failure {
    let FileError::Io(error) = error else {
        return explained(rt, name, seen, 0, error);
    };
    if seen.count > 0 && is_damage(&error) {
        return text_or_memory(rt, name, format!(in rt.alloc(); "damaged: {error}"));
    }
    explained(rt, name, seen, 0, FileError::Io(error))
}

/// Why a part of a file was refused that begins at a place: the chunks from that of the place on were looked at.
pub fn of_part(rt: &HostRuntime, name: &str, place: u64, error: Error) -> Failure {
    of_content(rt, name, place.saturating_sub(place % CHUNK), error)
}

/// Why a file was refused, of which this was seen, once so many bytes of its content were written.
pub fn explained(
    rt: &HostRuntime,
    name: &str,
    seen: &Seen,
    good: u64,
    error: FileError,
) -> Failure {
    if seen.count == 0 {
        return named(rt, name, &"it is empty");
    }
    match error {
        FileError::Io(error) => of_content(rt, name, good, error),
        FileError::Encrypt(error) => said(rt, &error),
        FileError::Decrypt(error) => match without_armor(rt, seen.front()) {
            Err(failure) => failure,
            Ok(front) if front.is_empty() => of_front(rt, name, seen.front(), error),
            Ok(front) => of_front(rt, name, &front, error),
        },
    }
}

// The front of the file of this name, which is read again.
fn seen_again(rt: &HostRuntime, name: &str) -> Result<Seen, Failure> {
    let mut reader = Watched::new(open_file(rt, name)?);
    let mut room = [0; 256];
    let _ = io::Read::read(&mut reader, &mut room);
    let (_, seen) = reader.into_parts();
    Ok(seen)
}

/// Why the regular file of this name was refused, of which nothing was seen yet.
pub fn explained_again(rt: &HostRuntime, name: &str, error: FileError) -> Failure {
    match seen_again(rt, name) {
        Err(failure) => failure,
        Ok(seen) => explained(rt, name, &seen, 0, error),
    }
}

// Names with commas between them.
fn joined(rt: &HostRuntime, names: &[String]) -> Result<String, Failure> {
    let mut all = String::new(rt.alloc());
    for name in names {
        if !all.is_empty() {
            all.push_str(", ")?;
        }
        all.push_str(name)?;
    }
    Ok(all)
}

// That none of the keys in these files opens a file.
fn no_keys(rt: &HostRuntime, name: &str, files: &[String]) -> Failure {
    match joined(rt, files) {
        Err(failure) => failure,
        Ok(files) => {
            let files = Shown(&files);
            text_or_memory(
                rt,
                name,
                format!(in rt.alloc(); "none of the keys in {files} opens it"),
            )
        }
    }
}

// Why nobody has the key of a file, by who was to decrypt it.
fn not_opened(rt: &HostRuntime, name: &str, asked: &Identities, of_passphrase: bool) -> Failure {
    match asked {
        Identities::PassphraseFile(_) => named(
            rt,
            name,
            &"it is encrypted to keys, and not with a passphrase: give them by -i FILE",
        ),
        Identities::Files(_) | Identities::ProtectedFiles(_, _) if of_passphrase => named(
            rt,
            name,
            &"it is encrypted with a passphrase, and not to keys: give that by -p FILE, without -i",
        ),
        Identities::Files(names) => no_keys(rt, name, names),
        Identities::ProtectedFiles(names, _) => no_keys(rt, name, names),
    }
}

/// Why a file was refused, with who was to decrypt it.
pub fn with_asked(rt: &HostRuntime, name: &str, asked: &Identities, failure: Failure) -> Failure {
    match failure {
        Failure::InvalidHeader => named(rt, name, &DecryptError::InvalidHeader),
        Failure::NoKeys { of_passphrase } => not_opened(rt, name, asked, of_passphrase),
        Failure::WrongPassphrase => match asked {
            Identities::ProtectedFiles(_, file) => named(
                rt,
                file,
                &"wrong passphrase: it opens no encrypted file of identities",
            ),
            _ => failure,
        },
        failure => failure,
    }
}
