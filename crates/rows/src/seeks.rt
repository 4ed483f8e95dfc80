//! Reads one byte of a plaintext at each of the places that standard input names, one a line: what `bench/seeks.sh` times. The file of the last
//! word is a payload alone, under the key 0, 1, .., 31 and the bench suite, or, where the word `file` stands before it, a whole file to `bench`,
//! bare or in armor, that is opened by `open_text`. Prints how many bytes were read, their sum, and how many chunks were opened for them.

use crate::Outcome;
use age::io::{Error, Read, Seek, SeekFrom, Std, device_error, read_to_end};
use age::stream::StreamReader;
use age::streaming::{FileError, open_text};
use age_bench::recipient::BenchIdentity;
use age_bench::suite::BenchSuite;
use std::alloc::Global;
use std::fs::File;
use std::{slice, str};

/// The key of a payload alone.
pub const KEY: [u8; 32] = [
    0, 1, 2, 3, 4, 5, 6, 7, 8, 9, 10, 11, 12, 13, 14, 15, 16, 17, 18, 19, 20, 21, 22, 23, 24, 25,
    26, 27, 28, 29, 30, 31,
];

/// What a reader came to: how often something was read, the sum of the bytes that came, and how many chunks were opened.
#[derive(Clone, Copy)]
pub struct Walk {
    pub reads: u64,
    pub sum: u64,
    pub opens: u64,
}

// The numbers, or `None` where a line is none below 2^64.
fn numbers_of(alloc: Global, text: &[u8]) -> Result<Option<Vec<u64>>, Error> {
    let Ok(text) = str::from_utf8(text) else {
        return Ok(None);
    };
    let mut numbers = Vec::new(alloc);
    for line in text.lines() {
        match line.parse::<u64>() {
            Ok(number) => numbers.push(number)?,
            Err(_) => return Ok(None),
        }
    }
    Ok(Some(numbers))
}

/// The numbers that standard input names, one a line, or `None` where a line is none below 2^64.
pub fn numbers(rt: &HostRuntime) -> Result<Option<Vec<u64>>, Error> {
    let mut text = Vec::new(rt.alloc());
    read_to_end(rt.alloc(), &mut Std::new(rt.reader()), &mut text)?;
    numbers_of(rt.alloc(), &text)
}

// Reads a byte at each place. At the end of the plaintext none comes.
fn visit<R: Seek>(reader: &mut StreamReader<BenchSuite, R>, places: &[u64]) -> Result<Walk, Error> {
    let mut reads = 0u64;
    let mut sum = 0u64;
    for place in places {
        reader.seek(SeekFrom::Start(*place))?;
        let mut byte = [0];
        let count = reader.read(&mut byte)?;
        let [byte] = byte;
        reads = reads.saturating_add(count as u64);
        sum = sum.saturating_add(byte as u64);
    }
    let opens = reader.opens();
    Ok(Walk { reads, sum, opens })
}

/// The file of this name.
pub fn open(rt: &HostRuntime, name: &str) -> Result<Std<File>, Error> {
    match File::open(rt, name) {
        Ok(file) => Ok(Std::new(file)),
        Err(error) => Err(device_error(&error)),
    }
}

// In a payload alone.
fn walk_payload(alloc: Global, payload: Std<File>, places: &[u64]) -> Result<Walk, Error> {
    let mut reader = StreamReader::<BenchSuite, Std<File>>::with_payload_key(alloc, KEY, payload)?;
    visit(&mut reader, places)
}

// In a whole file, bare or in armor.
fn walk_file(alloc: Global, file: Std<File>, places: &[u64]) -> Result<Walk, FileError> {
    let mut identity = BenchIdentity;
    let mut reader = open_text::<BenchSuite, BenchIdentity, Std<File>>(
        alloc,
        slice::from_mut(&mut identity),
        file,
    )?;
    match visit(&mut reader, places) {
        Ok(walk) => Ok(walk),
        Err(error) => Err(FileError::Io(error)),
    }
}

// What the reader of the file of this name came to, or `None` where standard input names no places.
fn walk_in(rt: &HostRuntime, whole: bool, name: &str) -> Result<Option<Walk>, FileError> {
    let places = match numbers(rt) {
        Ok(Some(places)) => places,
        Ok(None) => return Ok(None),
        Err(error) => return Err(FileError::Io(error)),
    };
    let file = match open(rt, name) {
        Ok(file) => file,
        Err(error) => return Err(FileError::Io(error)),
    };
    if whole {
        return Ok(Some(walk_file(rt.alloc(), file, &places)?));
    }
    match walk_payload(rt.alloc(), file, &places) {
        Ok(walk) => Ok(Some(walk)),
        Err(error) => Err(FileError::Io(error)),
    }
}

/// Prints what a reader came to.
pub fn told(rt: &HostRuntime, walk: &Walk) -> Outcome {
    let _ = println!(rt;
        "{} read, {} in all, {} opened",
        walk.reads, walk.sum, walk.opens
    );
    Outcome::Done
}

/// Does what the words ask for.
pub fn print(rt: &HostRuntime, words: &[String]) -> Outcome {
    let walked = match words {
        [name] => walk_in(rt, false, name),
        [form, name] if form.as_str() == "file" => walk_in(rt, true, name),
        _ => return Outcome::Usage,
    };
    match walked {
        Ok(Some(walk)) => told(rt, &walk),
        Ok(None) => Outcome::Usage,
        Err(error) => {
            let _ = eprintln!(rt; "rows: {error}");
            Outcome::Refused
        }
    }
}
