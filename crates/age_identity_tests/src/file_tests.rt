//! Identity files on a disk.

use crate::fixtures::{File, K, count};
use age_error::io::{Error, ErrorKind};
use age_identity::IdentityFileConvertError;
use std::alloc::Global;
use std::path::PathBuf;
use std::test::Fail;
use std::{env, fs, process};

// A name for a file of a test, which isn't there yet.
fn path_of(rt: &HostRuntime, test: &str) -> Result<PathBuf, Fail> {
    let alloc = rt.alloc();
    let name = format!(in alloc; "age-identity-tests-{}-{test}", process::id(rt.process()))?;
    Ok(env::temp_dir(rt)?.join(alloc, name.as_str())?)
}

// What reading a file of these bytes answers, which is there no more.
fn read(rt: &HostRuntime, path: &PathBuf, bytes: &[u8]) -> Result<Result<File, Error>, Fail> {
    fs::write(rt, path.as_path(), bytes)?;
    let answer = read_there(rt, path)?;
    fs::remove_file(rt, path.as_path())?;
    Ok(answer)
}

// What reading the file of a name answers.
fn read_there(rt: &HostRuntime, path: &PathBuf) -> Result<Result<File, Error>, Fail> {
    let alloc = rt.alloc();
    let name = String::from_str(alloc, path.as_path().as_str())?;
    Ok(File::from_file(rt, alloc, name))
}

// `K` after a comment.
fn key_after_comment(alloc: Global) -> Result<Vec<u8>, Fail> {
    let mut text = Vec::from_slice(alloc, b"# a comment\n")?;
    text.extend_from_slice(K.as_bytes())?;
    Ok(text)
}

#[test]
fn a_file_is_read(rt: HostRuntime) -> Result<(), Fail> {
    let alloc = rt.alloc();
    let text = key_after_comment(alloc)?;
    let file = read(&rt, &path_of(&rt, "read")?, text.as_slice())??;
    assert!(rt; count(alloc, file)? == 1);
    Ok(())
}

// Whether writing the recipients of a file refuses since it has no identities, and names it so.
fn is_named(answer: &Result<(), IdentityFileConvertError>, name: &str) -> bool {
    match answer {
        Err(
            IdentityFileConvertError::NoIdentities {
                filename: Some(filename),
            },
        ) => { filename.as_str() == name }
        _ => false,
    }
}

// Whether a file without identities has this name.
fn keeps(alloc: Global, file: &File, name: &str) -> bool {
    is_named(
        &file.write_recipients_file(alloc, &mut Vec::new(alloc)),
        name,
    )
}

#[test]
fn a_file_keeps_its_name(rt: HostRuntime) -> Result<(), Fail> {
    let alloc = rt.alloc();
    let path = path_of(&rt, "name")?;
    let file = read(&rt, &path, b"")??;
    assert!(rt; keeps(alloc, &file, path.as_path().as_str()));
    Ok(())
}

#[test]
fn a_bad_line_of_a_file_is_told(rt: HostRuntime) -> Result<(), Fail> {
    let path = path_of(&rt, "line")?;
    let answer = read(&rt, &path, b"# a comment\nno identity\n")?;
    assert!(rt; answer.err() == Some(Error::NotIdentity { line: 2 }));
    Ok(())
}

#[test]
fn a_file_that_is_not_there(rt: HostRuntime) -> Result<(), Fail> {
    let path = path_of(&rt, "missing")?;
    let answer = read_there(&rt, &path)?;
    assert!(rt; answer.err() == Some(Error::Device(ErrorKind::NotFound)));
    Ok(())
}
