//! Seeks and reads in a text in armor, by one call of `run`; and once more a seek and a read, which show the state that it left.

use crate::lines::{Digest, done, ready, say};
use crate::readers::{look, read, seek};
use age::armor::ArmoredReader;
use age::io::{Answer, Bytes, Op, Seek, SeekFrom, run};

const OF: &str = "armor";

const OPS: [Op; 6] = [
    Op::Seek(FIRST),
    Op::Read(100),
    Op::Seek(SeekFrom::Current(500)),
    Op::Read(100),
    Op::Seek(SeekFrom::End(-1337)),
    Op::Read(100),
];

const FIRST: SeekFrom = SeekFrom::Start(5);

fn show(rt: &HostRuntime, answer: &Answer) {
    match answer {
        Answer::At(place) => say(rt, OF, "at", place),
        Answer::Bytes(bytes) => say(rt, OF, "bytes", &Digest(bytes.as_slice())),
        Answer::Fault { got, error } => {
            say(rt, OF, "got", &Digest(got.as_slice()));
            say(rt, OF, "fault", error);
        }
    }
}

// The operations, one after the other.
fn operations<R: Seek>(rt: &HostRuntime, reader: &mut R) {
    if let Some(answers) = done(rt, OF, "run", run(rt.alloc(), reader, &OPS)) {
        for answer in answers.as_slice() {
            show(rt, answer);
        }
    }
}

// A seek and a read, and what state want of memory left.
fn seek_and_read<R: Seek>(rt: &HostRuntime, reader: &mut R, room: &mut [u8]) {
    if seek(rt, OF, reader, FIRST) || read(rt, OF, reader, room) {
        look(rt, OF, reader, FIRST, room);
    }
}

/// Makes the calls on this text.
pub fn row(rt: &HostRuntime, text: &[u8]) {
    ready(rt);
    let made = ArmoredReader::new(rt.alloc(), Bytes::new(text));
    if let Some(mut reader) = done(rt, OF, "reader", made) {
        operations(rt, &mut reader);
        seek_and_read(rt, &mut reader, &mut [0; 100]);
    }
}
