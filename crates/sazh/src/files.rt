//! Files that are opened or read whole, and a random number.

use crate::failure::{Failure, named, refused_by, said};
use crate::watch::Watched;
use age::armor::ArmoredReader;
use age::io::{BufReader, Seek, SeekFrom, Std, read_to_end};
use age::util::LimitedReader;
use sazh_command::told_place;
use sazh_core::error::RandomError;
use std::fs;
use std::fs::File;
use std::os::unix::fs::FileTypeExt;
use std::random::RandomSource;

// Standard input by a name.
const INPUT: &str = "/dev/stdin";

// What Linux tells of it, its place among that (proc(5)).
const INPUT_TOLD: &str = "/proc/self/fdinfo/0";

// The most bytes that a file of recipients or of a passphrase may have: 16 MiB.
const MOST_BYTES: usize = 16_777_216;

/// A copy of a word.
pub fn copied(rt: &HostRuntime, word: &str) -> Result<String, Failure> {
    Ok(String::from_str(rt.alloc(), word)?)
}

// Whether this is a folder, which the system opens and refuses to read.
fn is_folder(file: &File) -> bool {
    match file.metadata() {
        Ok(found) => found.is_dir(),
        Err(_) => false,
    }
}

/// Opens the file of this name to read it, or standard input, whose name is `-`.
pub fn open_file(rt: &HostRuntime, name: &str) -> Result<File, Failure> {
    match File::open(rt, if name == "-" { INPUT } else { name }) {
        Ok(file) if is_folder(&file) => Err(named(rt, name, &"it is a folder")),
        Ok(file) => Ok(file),
        Err(error) => Err(refused_by(rt, name, error)),
    }
}

/// Opens the file of this name to read it, as a reader.
pub fn open(rt: &HostRuntime, name: &str) -> Result<Std<File>, Failure> {
    Ok(Std::new(open_file(rt, name)?))
}

/// The text of the file of this name, bare or in armor.
pub fn text_in(
    rt: &HostRuntime,
    name: &str,
) -> Result<ArmoredReader<BufReader<Std<File>>>, Failure> {
    match ArmoredReader::new(rt.alloc(), open(rt, name)?) {
        Ok(text) => Ok(text),
        Err(_) => Err(Failure::OutOfMemory),
    }
}

/// All that the file of this name holds, up to 16 MiB.
pub fn read(rt: &HostRuntime, name: &str) -> Result<Vec<u8>, Failure> {
    let mut device = Std::new(Watched::new(open_file(rt, name)?));
    let mut text = Vec::new(rt.alloc());
    match read_to_end(
        rt.alloc(),
        &mut LimitedReader::new(&mut device, MOST_BYTES),
        &mut text,
    ) {
        Ok(_) => Ok(text),
        Err(error) => {
            let (_, seen) = device.into_inner().into_parts();
            Err(match seen.error {
                Some(why) => refused_by(rt, name, why),
                None => named(rt, name, &error),
            })
        }
    }
}

/// Whether this is the name of a regular file, which can be read again.
pub fn is_regular(rt: &HostRuntime, name: &str) -> bool {
    match fs::metadata(rt, name) {
        Ok(found) => found.is_file(),
        Err(_) => false,
    }
}

/// Whether this is the name of what can be read again from its front: a regular file or a block device.
pub fn is_seekable(rt: &HostRuntime, name: &str) -> bool {
    match fs::metadata(rt, name) {
        Ok(found) => found.is_file() || found.file_type().is_block_device(),
        Err(_) => false,
    }
}

// The place at which standard input stands, where the system tells it.
fn input_place(rt: &HostRuntime) -> Option<u64> {
    let Ok(text) = read(rt, INPUT_TOLD) else {
        return None;
    };
    let Ok(text) = str::from_utf8(&text) else {
        return None;
    };
    told_place(text)
}

/// Standard input as a file in which can be sought, at the place where it stands: opened anew, where it is a regular file.
///
/// `None` where it is a pipe, say, and where the system doesn't tell its place or doesn't open it.
pub fn open_input(rt: &HostRuntime) -> Option<Std<File>> {
    let Ok(found) = fs::metadata(rt, INPUT) else {
        return None;
    };
    if !found.is_file() {
        return None;
    }
    let place = input_place(rt)?;
    let Ok(mut file) = open(rt, INPUT) else {
        return None;
    };
    match file.seek(SeekFrom::Start(place)) {
        Ok(_) => Some(file),
        Err(_) => None,
    }
}

/// How many bytes there are from where an input of this name is read, where it is a regular file.
pub fn whole(rt: &HostRuntime, name: &str) -> Option<u64> {
    let Ok(found) = fs::metadata(rt, if name == "-" { INPUT } else { name }) else {
        return None;
    };
    if !found.is_file() {
        return None;
    }
    if name != "-" {
        return Some(found.len());
    }
    Some(found.len().saturating_sub(input_place(rt)?))
}

/// A random number.
pub fn random_number(rt: &HostRuntime) -> Result<u32, Failure> {
    let mut bytes = [0; 4];
    match rt.fill_bytes(&mut bytes) {
        Ok(()) => Ok(u32::from_le_bytes(bytes)),
        Err(_) => Err(said(rt, &RandomError::NoRandom)),
    }
}
