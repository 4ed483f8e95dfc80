//! Where output goes: standard output, something that is there and is written as a stream, or a file that stands beside its name until
//! it is whole.

use crate::failure::{Failure, Reason, Shown, named, refused_by};
use crate::files::random_number;
use sazh_command::Output;
use std::fs::{File, Metadata, OpenOptions, Permissions};
use std::os::unix::fs::{MetadataExt, OpenOptionsExt, PermissionsExt, fchown};
use std::{fs, io};

// Standard output, by its names. It is written as it is, and not opened anew: what stands in it already stays.
const OUTPUT: [&str; 3] = ["/dev/stdout", "/dev/fd/1", "/proc/self/fd/1"];

// The permissions of a file that isn't whole yet.
const FOR_ITS_OWNER: u32 = 0o600;

// The bits of a mode that say who may read, write and run a file. The others, as set-user-ID, go with what stood in the file.
const PERMISSIONS: u32 = 0o777;

/// What an output's name stands for.
#[derive(Drop)]
pub enum Place {
    /// Standard output.
    Standard,
    /// Something that is there and is no regular file, as a FIFO or a device.
    Stream,
    /// A name that is free.
    Free,
    /// A regular file that may be replaced: its own name, which no link leads to another one, and what the system tells of it.
    Taken(String, Metadata),
}

/// A new file. It has its name once it is whole, and another one until then.
#[derive(Drop)]
pub struct NewFile {
    file: File,
    temporary: String,
    target: String,
    is_replacing: bool,
    skip_sync: bool,
    mode: u32,
}

/// The name of an output: standard output's where none is given.
pub fn name_of(output: &Output) -> &str {
    match &output.name {
        Some(name) => name.as_str(),
        None => "-",
    }
}

// That there is something of this name already.
fn exists(rt: &HostRuntime, name: &str) -> Failure {
    named(rt, name, &"there is such a file already: -f writes over it")
}

/// Whether this is a name of standard output.
pub fn is_standard(name: &str) -> bool {
    name == "-" || OUTPUT.contains(&name)
}

// The place of a file that is there. It may have the name of a link, and its own name is where that leads.
fn taken(rt: &HostRuntime, output: &Output, found: Metadata) -> Result<Place, Failure> {
    let name = name_of(output);
    if !output.overwrite {
        return Err(exists(rt, name));
    }
    match fs::canonicalize(rt, name) {
        Err(error) => Err(refused_by(rt, name, error)),
        Ok(path) => Ok(Place::Taken(String::from_str(rt.alloc(), path.as_str())?, found)),
    }
}

// The place of what the system tells this of.
fn place_of(rt: &HostRuntime, output: &Output, found: Metadata) -> Result<Place, Failure> {
    if found.is_dir() {
        return Err(named(rt, name_of(output), &"it is a folder"));
    }
    if found.is_file() {
        return taken(rt, output, found);
    }
    Ok(Place::Stream)
}

// The place of a name that leads to nothing: it is free, or it is that of a link to a file that isn't there.
fn free(rt: &HostRuntime, name: &str) -> Result<Place, Failure> {
    match fs::symlink_metadata(rt, name) {
        Ok(_) => Err(named(rt, name, &"it is a link to a file that isn't there")),
        Err(_) => Ok(Place::Free),
    }
}

/// What an output's name stands for. It refuses a folder, a file that is there and may not be replaced, and a link that leads nowhere.
pub fn where_to(rt: &HostRuntime, output: &Output) -> Result<Place, Failure> {
    let name = name_of(output);
    if is_standard(name) {
        return Ok(Place::Standard);
    }
    match fs::metadata(rt, name) {
        Ok(found) => place_of(rt, output, found),
        Err(error) if error.kind() == io::ErrorKind::NotFound => free(rt, name),
        Err(error) => Err(refused_by(rt, name, error)),
    }
}

/// Opens what is there and is no regular file, to write to it as it is.
pub fn open_stream(rt: &HostRuntime, name: &str) -> Result<File, Failure> {
    let mut options = OpenOptions::new();
    match options.write(true).open(rt, name) {
        Ok(file) => Ok(file),
        Err(error) => Err(refused_by(rt, name, error)),
    }
}

// The part of a name up to its last slash.
fn folder(name: &str) -> &str {
    match name.rfind('/') {
        None => "",
        Some(end) => name.get(..=end).unwrap_or(""),
    }
}

// The name under which a file is written until it is whole: a short one, in the same folder.
fn temporary_name(rt: &HostRuntime, name: &str) -> Result<String, Failure> {
    let number = random_number(rt)?;
    let folder = folder(name);
    Ok(format!(in rt.alloc(); "{folder}sazh-{number:08x}.part")?)
}

// Makes a new file of this name.
fn make(rt: &HostRuntime, name: &str, mode: u32) -> io::Result<File> {
    let mut options = OpenOptions::new();
    options.write(true).create_new(true).mode(mode);
    options.open(rt, name)
}

// Whether this file can be written.
fn is_writable(rt: &HostRuntime, name: &str) -> bool {
    let mut options = OpenOptions::new();
    options.write(true).open(rt, name).is_ok()
}

// That no file can be made beside this one.
fn not_made(rt: &HostRuntime, name: &str, is_there: bool, error: io::Error) -> Failure {
    if is_there && is_writable(rt, name) {
        let text = format!(in rt.alloc();
            "no file can be made beside it ({}): to write into it, use > in place of -o",
            Reason(error)
        );
        return match text {
            Ok(text) => named(rt, name, &text),
            Err(_) => Failure::OutOfMemory,
        };
    }
    refused_by(rt, name, error)
}

/// Begins a file that will have a free name and this mode, less the user's mask.
pub fn create(
    rt: &HostRuntime,
    name: &str,
    mode: u32,
    skip_sync: bool,
) -> Result<NewFile, Failure> {
    let temporary = temporary_name(rt, name)?;
    match make(rt, &temporary, mode) {
        Err(error) => Err(not_made(rt, name, false, error)),
        Ok(file) => {
            // What the mask leaves of the mode, which the file has again once it is whole.
            let mode = match file.metadata() {
                Ok(found) => found.mode() & PERMISSIONS,
                Err(_) => FOR_ITS_OWNER,
            };
            let _ = file.set_permissions(Permissions::from_mode(FOR_ITS_OWNER));
            Ok(NewFile {
                file,
                temporary,
                target: String::from_str(rt.alloc(), name)?,
                is_replacing: false,
                skip_sync,
                mode,
            })
        }
    }
}

// Gives a file the owner and the group of another one, where it doesn't have them.
fn keep_owner(file: &File, old: &Metadata) -> io::Result<()> {
    let new = file.metadata()?;
    if new.uid() == old.uid() && new.gid() == old.gid() {
        return Ok(());
    }
    let owner = if new.uid() == old.uid() {
        None
    } else {
        Some(old.uid())
    };
    fchown(file, owner, Some(old.gid()))
}

// That a file's owner or group can't be that of the one that it would replace.
fn not_owned(rt: &HostRuntime, name: &str, error: io::Error) -> Failure {
    let text = format!(in rt.alloc();
        "its owner and group can't be kept ({}): remove it first",
        Reason(error)
    );
    match text {
        Ok(text) => named(rt, name, &text),
        Err(_) => Failure::OutOfMemory,
    }
}

/// Begins a file that will replace the one of this name, with its mode, its owner and its group.
pub fn replace(
    rt: &HostRuntime,
    name: &str,
    target: String,
    old: &Metadata,
    skip_sync: bool,
) -> Result<NewFile, Failure> {
    let temporary = temporary_name(rt, &target)?;
    let file = match make(rt, &temporary, FOR_ITS_OWNER) {
        Err(error) => return Err(not_made(rt, name, true, error)),
        Ok(file) => file,
    };
    if let Err(error) = keep_owner(&file, old) {
        remove(rt, &temporary);
        return Err(not_owned(rt, name, error));
    }
    Ok(NewFile {
        file,
        temporary,
        target,
        is_replacing: true,
        skip_sync,
        mode: old.mode() & PERMISSIONS,
    })
}

// Removes a file, or tells that it is left.
fn remove(rt: &HostRuntime, name: &str) {
    if let Err(error) = fs::remove_file(rt, name) {
        let (name, why) = (Shown(name), Reason(error));
        let _ = eprintln!(rt; "sazh: {name} is left, since it can't be removed: {why}");
    }
}

// Takes a name, and gives it to a file: for a file system without links.
fn take_name(rt: &HostRuntime, temporary: &str, name: &str) -> io::Result<()> {
    make(rt, name, FOR_ITS_OWNER)?;
    match fs::rename(rt, temporary, name) {
        Ok(()) => Ok(()),
        Err(error) => {
            remove(rt, name);
            Err(error)
        }
    }
}

// Gives a whole file its name, where nothing has that name.
fn name_new(rt: &HostRuntime, temporary: &str, name: &str) -> io::Result<()> {
    match fs::hard_link(rt, temporary, name) {
        Ok(()) => {
            remove(rt, temporary);
            Ok(())
        }
        Err(error) if error.kind() == io::ErrorKind::AlreadyExists => Err(error),
        Err(_) => take_name(rt, temporary, name),
    }
}

// Gives a file its mode, where it doesn't have it.
fn set_mode(file: &File, mode: u32) -> io::Result<()> {
    if file.metadata()?.mode() & PERMISSIONS == mode {
        return Ok(());
    }
    file.set_permissions(Permissions::from_mode(mode))
}

// Gives a whole file its mode and its name, once its bytes are on the disk, unless that isn't waited for.
fn finished(rt: &HostRuntime, new: &NewFile) -> io::Result<()> {
    if !new.skip_sync {
        new.file.sync_all()?;
    }
    set_mode(&new.file, new.mode)?;
    if new.is_replacing {
        fs::rename(rt, new.temporary.as_str(), new.target.as_str())
    } else {
        name_new(rt, &new.temporary, &new.target)
    }
}

impl NewFile {
    /// The file, to be written.
    pub fn file(&self) -> &File {
        &self.file
    }
}

/// Gives a whole file its mode and its name. Where that is refused, it is taken away.
pub fn finish(rt: &HostRuntime, new: NewFile, name: &str) -> Result<(), Failure> {
    match finished(rt, &new) {
        Ok(()) => Ok(()),
        Err(error) => {
            remove(rt, &new.temporary);
            if error.kind() == io::ErrorKind::AlreadyExists {
                Err(exists(rt, name))
            } else {
                Err(refused_by(rt, name, error))
            }
        }
    }
}

/// Takes away a file that didn't become whole.
pub fn give_up(rt: &HostRuntime, new: NewFile) {
    remove(rt, &new.temporary);
}

/// Tells of a file that has other names: they keep what it was.
pub fn tell_links(rt: &HostRuntime, name: &str, old: &Metadata) {
    if old.nlink() > 1 {
        let count = old.nlink();
        let name = Shown(name);
        let _ = eprintln!(rt;
            "sazh: {name}: it had {count} names (hard links): the others keep what it was"
        );
    }
}
