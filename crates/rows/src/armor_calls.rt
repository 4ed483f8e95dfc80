//! Calls on armor: `armor::write BYTES` and `armor::bare BYTES` answer the text of bytes that are written with armor and without. `armor::read
//! TEXT` answers the bytes of a text, what the read after them answers, and what one more does, where it is read in every way: by reads and by
//! what is shown, of several sizes, with and without a buffer. `armor::read_back LEAST MOST` answers whether the bytes 0, 1, .., 255 again and
//! again, each number of them from the least to the most, are read back from their armor, and so does `read_back_crlf` with CRLF for its line
//! endings.

ghost use Rattle.std.specs.Prelude.{◌<◌, ◌^◌};

use crate::words::{Fault, Hex, Word, bytes, number, printed, said, told};
use age::armor::{ArmoredReader, ArmoredWriter, Format};
use age::io::{BufRead, BufReader, Bytes, Error, Read, read_to_end, write_all};
use std::alloc::Global;

// The text of bytes.
fn text_of(alloc: Global, format: Format, bytes: &[u8]) -> Result<Vec<u8>, Error> {
    let mut writer = ArmoredWriter::wrap_output(alloc, Vec::new(alloc), format)?;
    write_all(&mut writer, bytes)?;
    writer.finish()
}

// What a read answered that gave no byte.
fn end_of(alloc: Global, answer: Result<usize, Error>) -> Result<String, Fault> {
    match answer {
        Ok(count) => printed(alloc, &count),
        Err(error) => printed(alloc, &error),
    }
}

// The bytes that were read, and what the last two reads answered.
fn read_so(
    alloc: Global,
    bytes: &[u8],
    end: Result<usize, Error>,
    after: Result<usize, Error>,
) -> Result<String, Fault> {
    let end = end_of(alloc, end)?;
    let after = end_of(alloc, after)?;
    Ok(format!(in alloc; "{} {end} {after}", Hex(bytes))?)
}

// By reads of this size.
fn by_reads<R: Read>(alloc: Global, reader: &mut R, size: usize) -> Result<String, Fault> {
    let mut room = vec![in alloc; 0; size]?;
    let mut bytes = Vec::new(alloc);
    for _ in 0..100_000u32 {
        match reader.read(&mut room) {
            Ok(count) if count > 0 => bytes.extend_from_slice(room.get(..count).unwrap_or(&[]))?,
            end => return read_so(alloc, &bytes, end, reader.read(&mut room)),
        }
    }
    said(alloc, "too long")
}

// Takes at most so many bytes of what is shown.
fn take_shown<R: BufRead>(
    reader: &mut R,
    size: usize,
    bytes: &mut Vec<u8>,
) -> Result<usize, Error> {
    let front = reader.fill_buf()?;
    let count = front.len().min(size);
    bytes.extend_from_slice(front.get(..count).unwrap_or(&[]))?;
    reader.consume(count);
    Ok(count)
}

// By what is shown, of which so many bytes are taken at once.
fn by_showing<R: BufRead>(alloc: Global, reader: &mut R, size: usize) -> Result<String, Fault> {
    let mut bytes = Vec::new(alloc);
    for _ in 0..100_000u32 {
        match take_shown(reader, size, &mut bytes) {
            Ok(count) if count > 0 => {}
            end => return read_so(alloc, &bytes, end, reader.read(&mut [])),
        }
    }
    said(alloc, "too long")
}

// Both, with this size, without a buffer.
fn unbuffered(alloc: Global, text: &[u8], size: usize) -> Result<(String, String), Fault> {
    let mut reader = ArmoredReader::new_buffered(alloc, Bytes::new(text))?;
    let by_reads = by_reads(alloc, &mut reader, size)?;
    let mut reader = ArmoredReader::new_buffered(alloc, Bytes::new(text))?;
    Ok((by_reads, by_showing(alloc, &mut reader, size)?))
}

// By reads of this size, with a buffer of the reader's own and with one that is handed to it.
fn buffered(alloc: Global, text: &[u8], size: usize) -> Result<(String, String), Fault> {
    let mut reader = ArmoredReader::new(alloc, Bytes::new(text))?;
    let own = by_reads(alloc, &mut reader, size)?;
    let inner = BufReader::new(alloc, Bytes::new(text))?;
    let mut reader = ArmoredReader::new_buffered(alloc, inner)?;
    Ok((own, by_reads(alloc, &mut reader, size)?))
}

// Whether a pair is one answer twice.
fn are(pair: &(String, String), answer: &str) -> bool {
    let (first, second) = pair;
    first.as_str() == answer && second.as_str() == answer
}

// Whether a text is read so with this size, in every way.
fn is_read_so(alloc: Global, text: &[u8], size: usize, answer: &str) -> Result<bool, Fault> {
    Ok(are(&unbuffered(alloc, text, size)?, answer) && are(&buffered(alloc, text, size)?, answer))
}

fn read(alloc: Global, text: &[u8]) -> Result<String, Fault> {
    let (answer, _) = unbuffered(alloc, text, 64)?;
    for size in [1, 7, 48, 1000] {
        if !is_read_so(alloc, text, size, &answer)? {
            return Ok(format!(in alloc; "{answer}, but not of size {size}")?);
        }
    }
    Ok(answer)
}

// A text with CRLF in place of LF.
fn with_crlf(alloc: Global, text: &[u8]) -> Result<Vec<u8>, Fault> {
    let mut changed = Vec::new(alloc);
    for byte in text {
        if *byte == b'\n' {
            changed.push(b'\r')?;
        }
        changed.push(*byte)?;
    }
    Ok(changed)
}

// Whether a text carries these bytes and ends well.
fn carries(alloc: Global, text: &[u8], bytes: &[u8]) -> Result<bool, Fault> {
    let mut given = Vec::new(alloc);
    let mut reader = ArmoredReader::new_buffered(alloc, Bytes::new(text))?;
    Ok(read_to_end(alloc, &mut reader, &mut given).is_ok() && given.as_slice() == bytes)
}

// Whether bytes are read back from their armor, with LF or with CRLF.
fn is_read_back(alloc: Global, bytes: &[u8], crlf: bool) -> Result<bool, Fault> {
    let text = text_of(alloc, Format::AsciiArmor, bytes)?;
    if crlf {
        carries(alloc, &with_crlf(alloc, &text)?, bytes)
    } else {
        carries(alloc, &text, bytes)
    }
}

fn read_back(alloc: Global, least: usize, most: usize, crlf: bool) -> Result<String, Fault> {
    let mut bytes = Vec::new(alloc);
    for n in 0..=most {
        if n >= least && !is_read_back(alloc, &bytes, crlf)? {
            return Ok(format!(in alloc; "not {n}")?);
        }
        bytes.push((n % 256) as u8)?;
    }
    told(alloc, true)
}

fn write(alloc: Global, format: Format, bytes: &[u8]) -> Result<String, Fault> {
    printed(alloc, &Word(&text_of(alloc, format, bytes)?))
}

/// What a call answers.
pub fn answer(alloc: Global, name: &str, words: &[&str]) -> Result<String, Fault> {
    match (name, words) {
        ("write", [word]) => write(alloc, Format::AsciiArmor, &bytes(alloc, word)?),
        ("bare", [word]) => write(alloc, Format::Binary, &bytes(alloc, word)?),
        ("read", [word]) => read(alloc, &bytes(alloc, word)?),
        ("read_back", [least, most]) => read_back(alloc, number(least)?, number(most)?, false),
        ("read_back_crlf", [least, most]) => {
            read_back(alloc, number(least)?, number(most)?, true)
        }
        _ => Err(Fault::Call),
    }
}
