//! Armor that is read: across the ends of a buffer, and what is left of the reader below. Good and bad texts are in the table of `rows`.

use age_armor::{ArmoredReader, ArmoredWriter, Format};
use age_base64::armor_engine;
use age_devices::answers::delivers;
use age_error::io::Error;
use age_io::{Bytes, Read, read_to_end, room_for, write_all};
use std::alloc::Global;
use std::test::Fail;

pub(crate) const BEGIN: &[u8] = b"-----BEGIN AGE ENCRYPTED FILE-----\n";

pub(crate) const END: &[u8] = b"-----END AGE ENCRYPTED FILE-----\n";

// These parts, one after another.
pub(crate) fn joined(alloc: Global, parts: &[&[u8]]) -> Result<Vec<u8>, Error> {
    let mut text = Vec::new(alloc);
    for part in parts {
        text.extend_from_slice(part)?;
    }
    Ok(text)
}

// The armor of bytes, with this line ending.
pub(crate) fn armored(alloc: Global, bytes: &[u8], feed: &[u8]) -> Result<Vec<u8>, Error> {
    let mut text = Vec::new(alloc);
    text.extend_from_slice(b"-----BEGIN AGE ENCRYPTED FILE-----")?;
    text.extend_from_slice(feed)?;
    for piece in bytes.chunks(48) {
        text.extend_from_slice(armor_engine().encode(alloc, piece)?.as_bytes())?;
        text.extend_from_slice(feed)?;
    }
    text.extend_from_slice(b"-----END AGE ENCRYPTED FILE-----")?;
    text.extend_from_slice(feed)?;
    Ok(text)
}

// The byte at place i is i modulo 256.
pub(crate) fn counting(alloc: Global, length: usize) -> Result<Vec<u8>, Error> {
    let mut bytes = Vec::new(alloc);
    for i in 0..length {
        bytes.push((i % 256) as u8)?;
    }
    Ok(bytes)
}

const LINE: &[u8] = b"YQ==\n";

// Whether a text that is read through a buffer carries these bytes.
fn carries(alloc: Global, text: &[u8], bytes: &[u8]) -> Result<bool, Error> {
    let mut reader = ArmoredReader::new(alloc, Bytes::new(text))?;
    Ok(delivers(alloc, &mut reader, bytes))
}

// Whether the armor of bytes carries them.
fn armor_carries(alloc: Global, bytes: &[u8]) -> Result<bool, Error> {
    carries(alloc, &armored(alloc, bytes, b"\n")?, bytes)
}

// Longer than the buffer of the reader between.
#[test]
fn lines_are_read_across_the_ends_of_a_buffer(rt: HostRuntime) -> Result<(), Fail> {
    let alloc = rt.alloc();
    let bytes = counting(alloc, 20_000)?;
    assert!(rt; bytes.len() == 20_000);
    assert!(rt; armor_carries(alloc, &bytes)?);
    assert!(rt; carries(alloc, &bytes, &bytes)?);
    Ok(())
}

// What is left of the inner reader of a text, once a read gave so many bytes of it.
fn left_after(alloc: Global, text: &[u8], size: usize, given: usize) -> Result<Vec<u8>, Error> {
    let mut reader = ArmoredReader::new_buffered(alloc, Bytes::new(text))?;
    let mut room = room_for(alloc, size)?;
    let mut rest = Vec::new(alloc);
    if reader.read(&mut room)? == given {
        let mut inner = reader.into_inner();
        read_to_end(alloc, &mut inner, &mut rest)?;
    }
    Ok(rest)
}

// Whether a text that gives so many bytes to a read of 60 leaves these.
fn leaves(alloc: Global, text: &[u8], given: usize, rest: &[u8]) -> Result<bool, Error> {
    Ok(left_after(alloc, text, 60, given)?.as_slice() == rest)
}

// Whether bytes that aren't armor, and give 35 of them, leave the others.
fn leaves_what_was_not_taken(alloc: Global, bytes: &[u8]) -> Result<bool, Error> {
    match bytes.split_at_checked(35) {
        Some((_, behind)) => leaves(alloc, bytes, 35, behind),
        None => Ok(false),
    }
}

// Whether armor leaves what follows the line that was asked for.
fn leaves_what_follows_the_line(alloc: Global) -> Result<bool, Error> {
    let rest = joined(alloc, &[END, b" "])?;
    leaves(alloc, &joined(alloc, &[BEGIN, LINE, &rest])?, 1, &rest)
}

#[test]
fn the_inner_reader_is_handed_back_where_it_stands(rt: HostRuntime) -> Result<(), Fail> {
    let alloc = rt.alloc();
    assert!(rt; leaves_what_was_not_taken(alloc, &counting(alloc, 100)?)?);
    assert!(rt; leaves_what_follows_the_line(alloc)?);
    Ok(())
}

// What is shown of a reader of this text.
fn shown_reader(alloc: Global, text: &[u8]) -> Result<String, Fail> {
    let reader = ArmoredReader::new_buffered(alloc, Bytes::new(text))?;
    Ok(format!(in alloc; "{reader:?}")?)
}

// What is shown of a writer that took these bytes.
fn shown_writer(alloc: Global, bytes: &[u8]) -> Result<String, Fail> {
    let mut writer = ArmoredWriter::wrap_output(alloc, Vec::new(alloc), Format::AsciiArmor)?;
    write_all(&mut writer, bytes)?;
    Ok(format!(in alloc; "{writer:?}")?)
}

#[test]
fn no_text_of_a_reader_or_a_writer_shows_a_byte(rt: HostRuntime) -> Result<(), Fail> {
    let alloc = rt.alloc();
    let text = joined(alloc, &[BEGIN, b"YQ==\n", END])?;
    assert!(rt; shown_reader(alloc, &text)?.as_str() == "ArmoredReader { .. }");
    assert!(rt; shown_writer(alloc, b"a")?.as_str() == "ArmoredWriter { .. }");
    Ok(())
}
