//! A payload that is cut between two chunks, under the key 0, 1, .., 31: its front, its bad end, and the front again.

use crate::lines::{done, ready};
use crate::readers::{look, read, seek};
use age::io::{Bytes, Seek, SeekFrom};
use age::stream::StreamReader;
use age_bench::suite::BenchSuite;

const OF: &str = "payload";

const KEY: [u8; 32] = [
    0, 1, 2, 3, 4, 5, 6, 7, 8, 9, 10, 11, 12, 13, 14, 15, 16, 17, 18, 19, 20, 21, 22, 23, 24, 25,
    26, 27, 28, 29, 30, 31,
];

const START: SeekFrom = SeekFrom::Start(0);

// The first chunk, what follows it, and a read of a reader that has failed. Whether memory was refused.
fn read_to_cut<R: Seek>(rt: &HostRuntime, reader: &mut R, room: &mut [u8]) -> bool {
    read(rt, OF, reader, room) || read(rt, OF, reader, &mut [0]) || read(rt, OF, reader, &mut [0])
}

// The end, the front, and the first chunk again. Whether memory was refused.
fn seek_and_read<R: Seek>(rt: &HostRuntime, reader: &mut R, room: &mut [u8]) -> bool {
    seek(rt, OF, reader, SeekFrom::End(0))
        || seek(rt, OF, reader, START)
        || read(rt, OF, reader, room)
}

// All of it, and what state want of memory left.
fn calls<R: Seek>(rt: &HostRuntime, reader: &mut R, room: &mut [u8]) {
    if read_to_cut(rt, reader, room) || seek_and_read(rt, reader, room) {
        look(rt, OF, reader, START, room);
    }
}

/// Makes the calls on this payload.
pub fn row(rt: &HostRuntime, payload: &[u8]) {
    ready(rt);
    let made = StreamReader::<BenchSuite, _>::with_payload_key(
        rt.alloc(),
        KEY,
        Bytes::new(payload),
    );
    if let Some(mut reader) = done(rt, OF, "reader", made) {
        calls(rt, &mut reader, &mut [0; 65_536]);
    }
}
