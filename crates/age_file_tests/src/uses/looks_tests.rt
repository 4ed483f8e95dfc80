//! Looks at places of an armored text.

use age::armor::ArmoredReader;
use age::io::{BufRead, Bytes, Error, Seek, read_to_end};
use age_examples::looks::bytes_at;
use std::alloc::Global;
use std::test::Fail;
use test_support::fixtures::{armored, plaintext};

// Whether a new reader gives 100,000 bytes, and takes 2,085 lines for them and the end.
fn reads_all<R: BufRead>(alloc: Global, reader: &mut ArmoredReader<R>) -> Result<bool, Error> {
    let mut all = Vec::new(alloc);
    read_to_end(alloc, reader, &mut all)?;
    Ok(all.len() == 100_000 && reader.lines() == 2_085)
}

// Whether the reader then gives the bytes at three places, and takes so many lines for each.
fn looks<R: BufRead + Seek>(alloc: Global, reader: &mut ArmoredReader<R>) -> Result<bool, Error> {
    let bytes = bytes_at(alloc, reader, &[98_303, 99_000, 0])?;
    Ok(bytes.as_slice() == [162, 106, 0].as_slice() && reader.lines() == 2_085 + 1_024 + 15 + 1)
}

// Whether there is no byte at the end and behind it.
fn finds_none_outside<R: BufRead + Seek>(alloc: Global, reader: &mut ArmoredReader<R>) -> bool {
    bytes_at(alloc, reader, &[100_000]) == Err(Error::UnexpectedEof)
        && bytes_at(alloc, reader, &[100_001]) == Err(Error::PastEnd)
}

// Whether a reader of a text does all of that in turn.
fn takes_lines(alloc: Global, text: &[u8]) -> Result<bool, Error> {
    let mut reader = ArmoredReader::new_buffered(alloc, Bytes::new(text))?;
    Ok(
        reads_all(alloc, &mut reader)?
            && looks(alloc, &mut reader)?
            && finds_none_outside(alloc, &mut reader),
    )
}

// The byte at place n of the plaintext is n modulo 251. 100,000 bytes are 2,084 lines, and the marks stand before lines 1,024 and 2,048.
#[test]
fn looks_take_lines_from_the_mark_before(rt: HostRuntime) -> Result<(), Fail> {
    let alloc = rt.alloc();
    let text = armored(alloc, &plaintext(alloc, 100_000)?)?;
    assert!(rt; takes_lines(alloc, &text)?);
    Ok(())
}
