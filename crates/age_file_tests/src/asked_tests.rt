//! What a bare file is asked for by a seek in its plaintext and a read there: a chunk or two, however long it is.

use crate::shared::done;
use age::armor::ArmoredReader;
use age::io::{BufReader, Read, Seek, SeekFrom, Std};
use age::mac::hkdf;
use age::stream::StreamReader;
use age::streaming::{open_text, write_part};
use age::suite::Suite;
use age_bench::recipient::BenchIdentity;
use age_bench::suite::BenchSuite;
use std::alloc::Global;
use std::process::Abort;
use std::slice;
use std::test::Fail;
use test_support::fixtures::{message_file, part};
use test_support::metered::{Asked, Metered};

type Stream<R> = StreamReader<BenchSuite, ArmoredReader<BufReader<R>>>;

// How many chunks the file has, and at how many places it is read: one in every tenth chunk, the last among them.
const CHUNKS: usize = 1_000;

const PLACES: usize = 100;

// The bytes of the message's file before its payload. Its key and its nonce are 16 zeros each.
const FRONT: usize = 131;

const SEALED: usize = 65_552;

// Two sealed chunks and two buffers, and the calls for them.
const MOST_BYTES: u64 = 2 * SEALED as u64 + 16_384;

const MOST_CALLS: u64 = 40;

// The number of the chunk that holds a place of this number.
fn chunk_of(number: usize) -> usize {
    10 * number.min(PLACES - 1) + 9
}

// The place of this number.
fn place(number: usize) -> u64 {
    let chunk = chunk_of(number) as u64;
    chunk.saturating_mul(65_536).saturating_add(number as u64)
}

// Whether a chunk holds one of them.
fn is_read(chunk: usize) -> bool {
    chunk % 10 == 9
}

// The byte that a chunk of this number is made of.
fn byte(chunk: usize) -> u8 {
    (chunk % 251) as u8
}

// The sealed chunk of this number.
fn sealed(alloc: Global, key: &[u8; 32], number: usize) -> Result<Vec<u8>, Fail> {
    let mut nonce = [0; 12];
    nonce[3..11].copy_from_slice(&(number as u64).to_be_bytes());
    nonce[11] = (number == CHUNKS - 1) as u8;
    let plain = vec![in alloc; byte(number); 65_536]?;
    done(BenchSuite::seal(alloc, key, &nonce, &plain))
}

// A file of so many chunks, of which those that are read are sealed.
fn file(alloc: Global) -> Result<Vec<u8>, Fail> {
    let key = hkdf(&[0; 16], b"payload", &[0; 16]);
    let hole = vec![in alloc; 0; SEALED]?;
    let mut file = Vec::from_slice(alloc, part(&message_file(alloc, b"")?, 0, FRONT))?;
    for chunk in 0..CHUNKS {
        if is_read(chunk) {
            file.extend_from_slice(&sealed(alloc, &key, chunk)?)?;
        } else {
            file.extend_from_slice(&hole)?;
        }
    }
    Ok(file)
}

// Whether a seek leads to the place of this number, and a read gives its byte.
fn reads<R: Seek>(stream: &mut Stream<R>, number: usize) -> bool {
    let mut got = [0];
    stream.seek(SeekFrom::Start(place(number))) == Ok(place(number))
        && stream.read(&mut got) == Ok(1)
        && got == [byte(chunk_of(number))]
}

// Whether the part of one byte there is that byte.
fn gives<R: Seek>(alloc: Global, stream: &mut Stream<R>, number: usize) -> bool {
    let mut part = Vec::new(alloc);
    write_part(alloc, stream, place(number), 1, &mut part) == Ok(())
        && part.as_slice() == [byte(chunk_of(number))].as_slice()
}

// Whether no more was asked since so many calls and bytes.
fn is_little(asked: &Asked, calls: u64, bytes: u64) -> bool {
    asked.calls.get() <= calls.saturating_add(MOST_CALLS)
        && asked.bytes.get() <= bytes.saturating_add(MOST_BYTES)
}

// Whether the place of this number is read at for little: by a seek and a read, and as a part.
fn asks_little<R: Seek>(
    alloc: Global,
    stream: &mut Stream<R>,
    asked: &Asked,
    number: usize,
) -> bool {
    let calls = asked.calls.get();
    let bytes = asked.bytes.get();
    let by_a_seek = reads(stream, number) && is_little(asked, calls, bytes);
    let calls = asked.calls.get();
    let bytes = asked.bytes.get();
    by_a_seek && gives(alloc, stream, number) && is_little(asked, calls, bytes)
}

// Whether each of the places is, and the last as a part before it is sought.
fn all_ask_little<R: Seek>(alloc: Global, stream: &mut Stream<R>, asked: &Asked) -> bool {
    let calls = asked.calls.get();
    let bytes = asked.bytes.get();
    if !gives(alloc, stream, PLACES - 1) || !is_little(asked, calls, bytes) {
        return false;
    }
    for number in 0..PLACES {
        if !asks_little(alloc, stream, asked, number) {
            return false;
        }
    }
    true
}

// The reader of the file's plaintext, for which a buffer's bytes were asked at most.
fn opened<R: Read + Drop>(alloc: Global, reader: R, asked: &Asked) -> Result<Stream<R>, Fail> {
    let mut identity = BenchIdentity;
    let stream = done(open_text::<BenchSuite, BenchIdentity, R>(
        alloc,
        slice::from_mut(&mut identity),
        reader,
    ))?;
    if asked.bytes.get() > 8_192 {
        return Err(Fail::from("more than a buffer"));
    }
    Ok(stream)
}

// The file as a device that counts what it is asked for.
fn device<'a>(file: &'a [u8], asked: &'a Asked) -> Std<Metered<'a>> {
    Std::new(Metered {
        bytes: file,
        place: 0,
        asked,
    })
}

#[test]
fn a_seek_in_a_bare_file_asks_for_a_chunk_or_two(rt: HostRuntime) -> Result<(), Fail> {
    let alloc = rt.alloc();
    let file = file(alloc)?;
    let asked = Asked::none();
    let mut stream = opened(alloc, device(&file, &asked), &asked)?;
    assert!(rt; all_ask_little(alloc, &mut stream, &asked));
    Ok(())
}

fn asks_little_through_a_buffer(rt: &impl Abort, alloc: Global, file: &[u8]) -> Result<(), Fail> {
    let asked = Asked::none();
    let buffered = done(BufReader::new(alloc, device(file, &asked)))?;
    let mut stream = opened(alloc, buffered, &asked)?;
    assert!(rt; all_ask_little(alloc, &mut stream, &asked));
    Ok(())
}

#[test]
fn so_it_does_through_a_buffer(rt: HostRuntime) -> Result<(), Fail> {
    asks_little_through_a_buffer(&rt, rt.alloc(), &file(rt.alloc())?)
}
