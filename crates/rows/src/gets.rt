//! Gets the sealed records that standard input names by their numbers, one a line: what `bench/seeks.sh` times. The file of the last word is a
//! payload alone, under the key 0, 1, .., 31 and the bench suite, or, where the word `file` stands before it, a whole file to `bench`, bare or
//! in armor. Prints how many records were given, the sum of their bytes, and how many chunks were opened to open the records and to get them.

use crate::Outcome;
use crate::seeks::{KEY, Walk, numbers, open, told};
use age::io::{Error, Seek, Std};
use age::stream::StreamReader;
use age::streaming::open_text;
use age_bench::recipient::BenchIdentity;
use age_bench::suite::BenchSuite;
use age_records::{RecordError, Records};
use std::alloc::Global;
use std::fmt::Display;
use std::fs::File;
use std::slice;

// The sum of a record's bytes.
fn sum_of(record: &[u8]) -> u64 {
    let mut sum = 0u64;
    for byte in record {
        sum = sum.saturating_add(*byte as u64);
    }
    sum
}

// Gets the records of these numbers.
fn get_all<R: Seek>(
    records: &mut Records<BenchSuite, R>,
    numbers: &[u64],
) -> Result<Walk, RecordError> {
    let mut reads = 0u64;
    let mut sum = 0u64;
    for number in numbers {
        let record = records.get(*number)?;
        reads = reads.saturating_add(1);
        sum = sum.saturating_add(sum_of(&record));
    }
    let opens = records.opens();
    Ok(Walk { reads, sum, opens })
}

// In the payload that a reader gives.
fn walk<R: Seek + Drop>(
    alloc: Global,
    reader: StreamReader<BenchSuite, R>,
    numbers: &[u64],
) -> Result<Walk, RecordError> {
    get_all(&mut Records::open(alloc, reader)?, numbers)
}

// That it was refused for this reason.
fn refused<E: Display>(rt: &HostRuntime, error: &E) -> Outcome {
    let _ = eprintln!(rt; "rows: {error}");
    Outcome::Refused
}

// What it came to, or why it was refused.
fn shown(rt: &HostRuntime, walked: Result<Walk, RecordError>) -> Outcome {
    match walked {
        Ok(walk) => told(rt, &walk),
        Err(error) => refused(rt, &error),
    }
}

// In a payload alone.
fn in_payload(rt: &HostRuntime, payload: Std<File>, numbers: &[u64]) -> Outcome {
    match StreamReader::<BenchSuite, Std<File>>::with_payload_key(rt.alloc(), KEY, payload) {
        Ok(reader) => shown(rt, walk(rt.alloc(), reader, numbers)),
        Err(error) => refused(rt, &error),
    }
}

// In a whole file, bare or in armor.
fn in_file(rt: &HostRuntime, file: Std<File>, numbers: &[u64]) -> Outcome {
    let mut identity = BenchIdentity;
    match open_text::<BenchSuite, BenchIdentity, Std<File>>(
        rt.alloc(),
        slice::from_mut(&mut identity),
        file,
    ) {
        Ok(reader) => shown(rt, walk(rt.alloc(), reader, numbers)),
        Err(error) => refused(rt, &error),
    }
}

// In the file of this name, which is a whole one or a payload alone.
fn in_named(rt: &HostRuntime, whole: bool, name: &str, numbers: &[u64]) -> Outcome {
    let file = match open(rt, name) {
        Ok(file) => file,
        Err(error) => return refused(rt, &error),
    };
    if whole {
        in_file(rt, file, numbers)
    } else {
        in_payload(rt, file, numbers)
    }
}

// The records of the numbers that standard input names, in the file of this name.
fn get_in(rt: &HostRuntime, whole: bool, name: &str) -> Outcome {
    match numbers(rt) {
        Ok(Some(numbers)) => in_named(rt, whole, name, &numbers),
        Ok(None) => Outcome::Usage,
        Err(error) => refused(rt, &error),
    }
}

/// Does what the words ask for.
pub fn print(rt: &HostRuntime, words: &[String]) -> Outcome {
    match words {
        [name] => get_in(rt, false, name),
        [form, name] if form.as_str() == "file" => get_in(rt, true, name),
        _ => Outcome::Usage,
    }
}
