//! A seek to the last of eleven full chunks of a payload, under the key 0, 1, .., 31, and a read of one byte there: how often this asks for memory.

use crate::lines::{done, ready, say};
use crate::seeks::KEY;
use age::io::{Bytes, Read, Seek, SeekFrom};
use age::stream::StreamReader;
use age_bench::suite::BenchSuite;

const OF: &str = "payload";

const PLACE: u64 = 655_360;

// A seek, a read of one byte, and how many chunks were opened by then.
fn calls<R: Seek>(rt: &HostRuntime, reader: &mut StreamReader<BenchSuite, R>) {
    if let Some(place) = done(rt, OF, "seek", reader.seek(SeekFrom::Start(PLACE))) {
        say(rt, OF, "seek", &place);
    }
    let mut byte = [0];
    if let Some(count) = done(rt, OF, "read", reader.read(&mut byte)) {
        let [byte] = byte;
        say(rt, OF, "read", &count);
        say(rt, OF, "byte", &byte);
    }
    say(rt, OF, "opens", &reader.opens());
}

/// Makes the calls on this payload.
pub fn row(rt: &HostRuntime, payload: &[u8]) {
    ready(rt);
    let made = StreamReader::<BenchSuite, _>::with_payload_key(
        rt.alloc(),
        KEY,
        Bytes::new(payload),
    );
    if let Some(mut reader) = done(rt, OF, "reader", made) {
        say(rt, OF, "opens", &reader.opens());
        calls(rt, &mut reader);
    }
}
