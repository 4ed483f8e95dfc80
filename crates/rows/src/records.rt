//! Sealed records, under the key 0, 1, .., 31: three that are written into a list that grows, and three that are read.

use crate::lines::{Digest, done, ready, say};
use age::io::{Bytes, Error, Seek, Write};
use age::stream::{StreamReader, StreamWriter};
use age_bench::suite::BenchSuite;
use age_records::{RecordError, Records, write_records};
use std::alloc::AllocError;

const OF: &str = "records";

const KEY: [u8; 32] = [
    0, 1, 2, 3, 4, 5, 6, 7, 8, 9, 10, 11, 12, 13, 14, 15, 16, 17, 18, 19, 20, 21, 22, 23, 24, 25,
    26, 27, 28, 29, 30, 31,
];

// A short record, an empty one, and one of these bytes.
fn listed(rt: &HostRuntime, long: &[u8]) -> Result<Vec<Vec<u8>>, AllocError> {
    let mut records = Vec::new(rt.alloc());
    for bytes in [b"first".as_slice(), b"", long] {
        records.push(Vec::from_slice(rt.alloc(), bytes)?)?;
    }
    Ok(records)
}

// Writes records. A writer that refuses them is asked again.
fn write_payload<W: Write + Drop>(rt: &HostRuntime, records: &[Vec<u8>], out: W) {
    let mut writer = match StreamWriter::<BenchSuite, W>::with_payload_key(rt.alloc(), KEY, out) {
        Ok(writer) => writer,
        Err(error) => {
            say(rt, OF, "writer", &error);
            return;
        }
    };
    if done(rt, OF, "write", write_records(records, &mut writer)).is_none() {
        let _ = done(rt, OF, "write", writer.write(&[0]));
        let _ = done(rt, OF, "flush", writer.flush());
    }
    let _ = done(rt, OF, "finish", writer.finish());
}

/// Writes three records, of which the last one is these bytes.
pub fn write_row(rt: &HostRuntime, long: &[u8]) {
    let Ok(records) = listed(rt, long) else {
        return;
    };
    ready(rt);
    let mut payload = Vec::new(rt.alloc());
    write_payload(rt, &records, &mut payload);
    say(rt, OF, "written", &Digest(payload.as_slice()));
}

// Asks for a record. Whether memory was refused.
fn get<R: Seek>(rt: &HostRuntime, records: &mut Records<BenchSuite, R>, index: u64) -> bool {
    match records.get(index) {
        Ok(bytes) => {
            say(rt, OF, "get", &Digest(bytes.as_slice()));
            false
        }
        Err(error) => {
            say(rt, OF, "get", &error);
            error == RecordError::Io(Error::OutOfMemory)
        }
    }
}

// Asks for each record, from the last on, for one that isn't there, and for the first once more. Where memory was refused it asks again.
fn get_all<R: Seek>(rt: &HostRuntime, records: &mut Records<BenchSuite, R>) {
    for index in [2, 1, 0, 3, 0] {
        if get(rt, records, index) {
            get(rt, records, index);
        }
    }
}

/// Reads the records in this payload.
pub fn row(rt: &HostRuntime, payload: &[u8]) {
    ready(rt);
    let made = StreamReader::<BenchSuite, _>::with_payload_key(
        rt.alloc(),
        KEY,
        Bytes::new(payload),
    );
    if let Some(reader) = done(rt, OF, "reader", made) {
        if let Some(mut records) = done(rt, OF, "open", Records::open(rt.alloc(), reader)) {
            say(rt, OF, "len", &records.len());
            get_all(rt, &mut records);
        }
    }
}
