//! The calls that take no memory, made where each request for it is refused: the values that they are made on are there before. At the end two calls
//! that do take memory are refused it.

use crate::key_calls;
use crate::lines::{Digits, done, is_done, ready, say};
use age::draw::Draw;
use age::format::{Grease, HeaderV1, Stanza};
use age::io::{BufRead, Bytes, Read, Seek, SeekFrom, Write, read_exact, write_all};
use age::mac::{HmacWriter, hkdf, hmac};
use age::secrecy::FileKey;
use age::stream::{StreamReader, StreamWriter};
use age_bench::suite::BenchSuite;
use std::alloc::{AllocError, Global};

const KEY: [u8; 20] = [0x0b; 20];

const TEXT: &[u8] =
    b"age-encryption.org/v1\n-> bench\nAAAAAAAAAAAAAAAAAAAAAA\n-> x-grease\n\n--- V7seaDdC75BAsSxvbcxwXtSW8y5Dt7T/GP+foqDPt34\n";

// A writer of two parts, one of both, and one of nothing.
fn write_macs(rt: &HostRuntime) {
    let mut writer = HmacWriter::new(&KEY);
    writer.update(b"Hi ");
    writer.update(b"There");
    say(rt, "mac", "finalize", &Digits(&writer.finalize()));
    let mut writer = HmacWriter::new(&KEY);
    writer.update(b"Hi There");
    say(
        rt,
        "mac",
        "verify",
        &writer.verify(&hmac(&KEY, b"Hi There")),
    );
    let writer = HmacWriter::new(&KEY);
    say(
        rt,
        "mac",
        "verify",
        &writer.verify(&hmac(&KEY, b"Hi There")),
    );
}

fn macs(rt: &HostRuntime) {
    say(rt, "mac", "hmac", &Digits(&hmac(&KEY, b"Hi There")));
    let salt = [0, 1, 2, 3, 4, 5, 6, 7, 8, 9, 10, 11, 12];
    let info = [0xf0, 0xf1, 0xf2, 0xf3, 0xf4, 0xf5, 0xf6, 0xf7, 0xf8, 0xf9];
    say(rt, "mac", "hkdf", &Digits(&hkdf(&salt, &info, &[0x0b; 22])));
    write_macs(rt);
}

fn take(rt: &HostRuntime, draw: &mut Draw) {
    match draw.take::<32>() {
        Some(bytes) => say(rt, "draw", "take", &Digits(&bytes)),
        None => say(rt, "draw", "take", &"none"),
    }
    say(rt, "draw", "left", &draw.left());
}

fn draws(rt: &HostRuntime, bytes: Vec<u8>) {
    let mut draw = Draw::new(bytes);
    say(rt, "draw", "left", &draw.left());
    take(rt, &mut draw);
    take(rt, &mut draw);
}

fn seek(rt: &HostRuntime, reader: &mut Bytes, to: SeekFrom) {
    match reader.seek(to) {
        Ok(place) => say(rt, "bytes", "seek", &place),
        Err(error) => say(rt, "bytes", "seek", &error),
    }
}

fn read(rt: &HostRuntime, reader: &mut Bytes) {
    let mut room = [0; 4];
    match reader.read(&mut room) {
        Ok(count) => say(rt, "bytes", "read", &count),
        Err(error) => say(rt, "bytes", "read", &error),
    }
    say(rt, "bytes", "room", &Digits(&room));
}

// Shows what is left, and takes so many bytes of it.
fn show<R: BufRead>(rt: &HostRuntime, reader: &mut R, most: usize) {
    let Ok(shown) = reader.fill_buf() else {
        return;
    };
    say(rt, "bytes", "fill_buf", &Digits(shown));
    let amount = shown.len().min(most);
    reader.consume(amount);
}

fn readers(rt: &HostRuntime) {
    let mut reader = Bytes::new(b"abcdef");
    read(rt, &mut reader);
    show(rt, &mut reader, 1);
    show(rt, &mut reader, 0);
    for to in [
        SeekFrom::Start(7),
        SeekFrom::End(-5),
        SeekFrom::Current(-2),
        SeekFrom::Current(3),
    ] {
        seek(rt, &mut reader, to);
    }
    read(rt, &mut reader);
}

/// The parts of a stanza.
#[derive(Drop)]
struct Parts {
    tag: String,
    args: Vec<String>,
    body: Vec<u8>,
}

fn parts_of(alloc: Global, tag: &str) -> Result<Parts, AllocError> {
    let tag = String::from_str(alloc, tag)?;
    let mut args = Vec::new(alloc);
    args.push(String::from_str(alloc, "argument")?)?;
    let body = Vec::from_slice(alloc, b"body")?;
    Ok(Parts { tag, args, body })
}

fn show_stanza(rt: &HostRuntime, stanza: &Stanza) {
    say(rt, "stanza", "tag", &stanza.tag());
    for argument in stanza.args() {
        say(rt, "stanza", "argument", argument);
    }
    say(rt, "stanza", "body", &Digits(stanza.body()));
}

// A stanza, and whether it is grease.
fn stanza(rt: &HostRuntime, parts: Parts) {
    let Parts { tag, args, body } = parts;
    let Some(stanza) = Stanza::new(tag, args, body) else {
        say(rt, "stanza", "new", &"none");
        return;
    };
    show_stanza(rt, &stanza);
    match Grease::new(stanza) {
        Some(grease) => say(rt, "grease", "tag", &grease.into_stanza().tag()),
        None => say(rt, "grease", "new", &"none"),
    }
}

// The file key of these bytes, and whether the MAC of a header is that of it.
fn verify(rt: &HostRuntime, header: &HeaderV1, bytes: [u8; 16]) {
    let key = FileKey::new(bytes);
    say(rt, "file key", "secret", &Digits(key.expose_secret()));
    say(rt, "header", "verify_mac", &header.verify_mac(&key));
}

fn header(rt: &HostRuntime, header: HeaderV1) {
    for stanza in header.stanzas() {
        say(rt, "header", "tag", &stanza.tag());
    }
    say(rt, "header", "mac", &Digits(header.mac()));
    verify(rt, &header, [0; 16]);
    verify(rt, &header, [1; 16]);
    say(rt, "header", "stanzas", &header.into_stanzas().len());
}

type Writer = StreamWriter<BenchSuite, Vec<u8>>;

// The writer of a payload that has taken a byte.
fn writer(rt: &HostRuntime) -> Option<Writer> {
    let made = Writer::with_payload_key(rt.alloc(), [0; 32], Vec::new(rt.alloc()));
    let mut writer = done(rt, "writer", "new", made)?;
    done(rt, "writer", "write", write_all(&mut writer, b"a"))?;
    Some(writer)
}

// The payload of a byte.
fn payload(rt: &HostRuntime) -> Option<Vec<u8>> {
    done(rt, "writer", "finish", writer(rt)?.finish())
}

type Reader<'a> = StreamReader<BenchSuite, Bytes<'a>>;

fn reader<'a>(rt: &HostRuntime, payload: &'a [u8]) -> Option<Reader<'a>> {
    let made = Reader::with_payload_key(rt.alloc(), [0; 32], Bytes::new(payload));
    done(rt, "reader", "new", made)
}

// The calls that need no value.
fn without_values(rt: &HostRuntime) {
    ready(rt);
    macs(rt);
    readers(rt);
}

fn with_draw(rt: &HostRuntime) {
    if let Some(bytes) = done(rt, "draw", "bytes", Vec::from_slice(rt.alloc(), &[7; 48])) {
        without_values(rt);
        draws(rt, bytes);
    }
}

// A stanza of grease, one of another tag, and none.
fn with_parts(rt: &HostRuntime) {
    let Some(grease) = done(rt, "stanza", "parts", parts_of(rt.alloc(), "x-grease")) else {
        return;
    };
    let Some(other) = done(rt, "stanza", "parts", parts_of(rt.alloc(), "grease")) else {
        return;
    };
    if let Some(bad) = done(rt, "stanza", "parts", parts_of(rt.alloc(), "x grease")) {
        with_draw(rt);
        stanza(rt, grease);
        stanza(rt, other);
        stanza(rt, bad);
    }
}

fn with_header(rt: &HostRuntime) {
    let read = HeaderV1::read(rt.alloc(), &mut Bytes::new(TEXT));
    if let Some(it) = done(rt, "header", "read", read) {
        with_parts(rt);
        header(rt, it);
    }
}

fn with_writer(rt: &HostRuntime) {
    if let Some(mut writer) = writer(rt) {
        with_header(rt);
        is_done(rt, "writer", "flush", writer.flush());
    }
}

// A new reader has opened nothing, and one that gave a byte a chunk.
fn with_readers(rt: &HostRuntime, new: &Reader, used: &mut Reader) {
    if done(rt, "reader", "read", read_exact(used, &mut [0])).is_some() {
        with_writer(rt);
        say(rt, "reader", "opens", &new.opens());
        say(rt, "reader", "opens", &used.opens());
    }
}

fn with_payload(rt: &HostRuntime, payload: &[u8]) {
    let Some(new) = reader(rt, payload) else {
        return;
    };
    if let Some(mut used) = reader(rt, payload) {
        with_readers(rt, &new, &mut used);
    }
}

/// The calls of this file, which begin with `ready`.
pub fn with_values(rt: &HostRuntime) {
    if let Some(payload) = payload(rt) {
        with_payload(rt, payload.as_slice());
    }
}

// Calls that take memory.
fn controls(rt: &HostRuntime) {
    is_done(
        rt,
        "control",
        "with_capacity",
        Vec::<u8>::with_capacity(rt.alloc(), 1),
    );
    is_done(
        rt,
        "control",
        "payload",
        Writer::with_payload_key(rt.alloc(), [0; 32], Vec::new(rt.alloc())),
    );
}

/// Makes the calls. Each function prepares what its own calls need, and makes them once those of the functions within it are made: so all stands
/// ready before the first.
pub fn row(rt: &HostRuntime) {
    key_calls::with_values(rt);
    controls(rt);
}
