//! Armor over a reader that is interrupted.

use crate::reader_tests::{armored, counting};
use age_armor::ArmoredReader;
use age_devices::{Script, Source};
use age_error::io::{Error, ErrorKind};
use age_io::{BufRead, Read, read_to_end};
use std::alloc::Global;
use std::test::Fail;

// By what it shows.
fn by_showing<R: BufRead>(reader: &mut R, bytes: &mut Vec<u8>) -> Result<(), Error> {
    for _piece in 0..100_000u32 {
        let front = reader.fill_buf()?;
        let count = front.len();
        bytes.extend_from_slice(front)?;
        reader.consume(count);
        if count == 0 {
            return Ok(());
        }
    }
    Err(Error::TooLong)
}

// A text that comes in pieces, with so many interruptions before each.
fn restless(text: &[u8], size: usize, times: u32) -> Source<'_> {
    Source::new(Script::interrupted(times, size), text)
}

// Whether a reader of a text that comes in pieces, with so many interruptions before each, gives these bytes.
fn gives(alloc: Global, text: &[u8], size: usize, times: u32, whole: &[u8]) -> Result<bool, Error> {
    let mut reader = ArmoredReader::new_buffered(alloc, restless(text, size, times))?;
    let mut bytes = Vec::new(alloc);
    read_to_end(alloc, &mut reader, &mut bytes)?;
    let mut other = ArmoredReader::new_buffered(alloc, restless(text, size, times))?;
    let mut shown = Vec::new(alloc);
    by_showing(&mut other, &mut shown)?;
    Ok(bytes.as_slice() == whole && shown.as_slice() == whole)
}

// Whether it has failed for good after the first call.
fn gives_up(alloc: Global, text: &[u8], size: usize) -> Result<bool, Error> {
    let mut reader = ArmoredReader::new_buffered(alloc, restless(text, size, 17))?;
    let mut room = [7; 4];
    Ok(
        reader.read(&mut room) == Err(Error::Device(ErrorKind::Other))
            && reader.read(&mut room) == Err(Error::Failed)
            && room == [7; 4],
    )
}

// Whether readers of bytes, and of their armor with each line ending, in pieces with so many interruptions before each, give them.
fn all_give(alloc: Global, data: &[u8], size: usize, times: u32) -> Result<bool, Error> {
    Ok(
        gives(alloc, data, size, times, data)?
            && gives(alloc, &armored(alloc, data, b"\n")?, size, times, data)?
            && gives(alloc, &armored(alloc, data, b"\r\n")?, size, times, data)?,
    )
}

#[test]
fn sixteen_interruptions_before_each_piece_change_no_byte(rt: HostRuntime) -> Result<(), Fail> {
    let alloc = rt.alloc();
    let data = counting(alloc, 1_000)?;
    for size in [1, 7, 65, 1_000] {
        assert!(rt;
            all_give(alloc, &data, size, 1)? && all_give(alloc, &data, size, 16)?,
            "pieces of {size}"
        );
    }
    Ok(())
}

// Whether readers of bytes and of their armor have failed for good after the first call.
fn both_give_up(alloc: Global, data: &[u8], size: usize) -> Result<bool, Error> {
    Ok(gives_up(alloc, data, size)? && gives_up(alloc, &armored(alloc, data, b"\n")?, size)?)
}

#[test]
fn seventeen_interruptions_are_a_fault_of_the_device(rt: HostRuntime) -> Result<(), Fail> {
    let alloc = rt.alloc();
    let data = counting(alloc, 1_000)?;
    assert!(rt; both_give_up(alloc, &data, 1)? && both_give_up(alloc, &data, 1_000)?);
    Ok(())
}
