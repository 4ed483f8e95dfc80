//! Calls on writers, and the row of a payload and a text in armor of what standard input gives, into lists that grow.

use crate::lines::{Digest, done, ready, say};
use age::armor::{ArmoredWriter, Format};
use age::io::{Write, write_all};
use age::stream::StreamWriter;
use age_bench::suite::BenchSuite;

const KEY: [u8; 32] = [
    0, 1, 2, 3, 4, 5, 6, 7, 8, 9, 10, 11, 12, 13, 14, 15, 16, 17, 18, 19, 20, 21, 22, 23, 24, 25,
    26, 27, 28, 29, 30, 31,
];

/// Writes all bytes. A writer that refuses them is asked again.
pub fn write<W: Write>(rt: &HostRuntime, of: &str, writer: &mut W, bytes: &[u8]) {
    if done(rt, of, "write", write_all(writer, bytes)).is_none() {
        let _ = done(rt, of, "write", writer.write(bytes));
        let _ = done(rt, of, "flush", writer.flush());
    }
}

fn write_payload<W: Write + Drop>(rt: &HostRuntime, plain: &[u8], out: W) {
    let made = StreamWriter::<BenchSuite, W>::with_payload_key(rt.alloc(), KEY, out);
    if let Some(mut writer) = done(rt, "payload", "writer", made) {
        write(rt, "payload", &mut writer, plain);
        let _ = done(rt, "payload", "finish", writer.finish());
    }
}

fn write_armor<W: Write + Drop>(rt: &HostRuntime, plain: &[u8], out: W) {
    let made = ArmoredWriter::wrap_output(rt.alloc(), out, Format::AsciiArmor);
    if let Some(mut writer) = done(rt, "armor", "writer", made) {
        write(rt, "armor", &mut writer, plain);
        let _ = done(rt, "armor", "finish", writer.finish());
    }
}

/// Makes the calls on this plaintext.
pub fn row(rt: &HostRuntime, plain: &[u8]) {
    ready(rt);
    let mut payload = Vec::new(rt.alloc());
    write_payload(rt, plain, &mut payload);
    say(rt, "payload", "written", &Digest(payload.as_slice()));
    let mut text = Vec::new(rt.alloc());
    write_armor(rt, plain, &mut text);
    say(rt, "armor", "written", &Digest(text.as_slice()));
}
