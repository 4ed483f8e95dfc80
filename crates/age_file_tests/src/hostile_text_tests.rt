//! Bad armor and bad headers. The armor is read over a bare slice and through a buffer, and as a payload. The headers are read as they
//! stand and in armor, alone and as the front of a file.

use crate::shared::{done, is_error};
use age::Decryptor;
use age::armor::{ArmoredReadError, ArmoredReader};
use age::format::{HeaderV1, Stanza};
use age::io::{Bytes, Error, Read, Seek, SeekFrom};
use age::stream::StreamReader;
use age_bench::suite::BenchSuite;
use std::alloc::{AllocError, Global};
use std::test::Fail;
use test_support::answers::{delivers, delivers_until, read_refuses};
use test_support::fixtures::{KEY, armored};

const BEGIN: &[u8] = b"-----BEGIN AGE ENCRYPTED FILE-----\n";

const END: &[u8] = b"-----END AGE ENCRYPTED FILE-----\n";

// A space stands before its LF.
const SPACED_END: &[u8] = b"-----END AGE ENCRYPTED FILE----- \n";

// Lines of 64, 68 and 70 columns.
const COLUMNS_64: &[u8] = b"AAAAAAAAAAAAAAAAAAAAAAAAAAAAAAAAAAAAAAAAAAAAAAAAAAAAAAAAAAAAAAAA\n";

const COLUMNS_68: &[u8] = b"AAAAAAAAAAAAAAAAAAAAAAAAAAAAAAAAAAAAAAAAAAAAAAAAAAAAAAAAAAAAAAAAAAAA\n";

const COLUMNS_70: &[u8] =
    b"AAAAAAAAAAAAAAAAAAAAAAAAAAAAAAAAAAAAAAAAAAAAAAAAAAAAAAAAAAAAAAAAAAAAAA\n";

// The lines between the markers, the end marker, the bytes that come before the fault, and the fault.
const ARMOR: [(&[u8], &[u8], &[u8], ArmoredReadError); 5] = [
    (COLUMNS_68, END, b"", ArmoredReadError::NotWrappedAt64Chars),
    (COLUMNS_70, END, b"", ArmoredReadError::MissingPadding),
    (b"Y\rQ\xff\n", END, b"", ArmoredReadError::InvalidUtf8),
    (
        b"YQ==\nYQ=\n",
        END,
        b"a",
        ArmoredReadError::NotWrappedAt64Chars,
    ),
    (
        COLUMNS_64,
        SPACED_END,
        &[0; 48],
        ArmoredReadError::MissingPadding,
    ),
];

// These parts, one after another.
fn joined(alloc: Global, parts: &[&[u8]]) -> Result<Vec<u8>, AllocError> {
    let mut text = Vec::new(alloc);
    for part in parts {
        text.extend_from_slice(part)?;
    }
    Ok(text)
}

// Whether the reader has failed before.
fn has_failed<R: Read>(reader: &mut R) -> bool {
    read_refuses(reader, Error::Failed) && read_refuses(reader, Error::Failed)
}

// Whether it delivers these bytes until this fault, and has failed then.
fn fails_after<R: Read>(alloc: Global, reader: &mut R, bytes: &[u8], fault: Error) -> bool {
    delivers_until(alloc, reader, bytes, fault) && has_failed(reader)
}

// Whether a seek is refused so, and the reader has failed then.
fn seek_fails<R: Seek>(reader: &mut R, to: SeekFrom, fault: Error) -> bool {
    reader.seek(to) == Err(fault) && has_failed(reader)
}

// Whether a reader of bad armor fails after these bytes, also where a seek that the fault refuses and one to the front come between.
fn is_bad<R: Seek>(alloc: Global, reader: &mut R, bytes: &[u8], fault: Error) -> bool {
    fails_after(alloc, reader, bytes, fault)
        && seek_fails(reader, SeekFrom::End(0), fault)
        && reader.seek(SeekFrom::Start(0)) == Ok(0)
        && fails_after(alloc, reader, bytes, fault)
}

// Whether a bare slice and a buffer over it are read so.
fn both_are_bad(alloc: Global, text: &[u8], bytes: &[u8], fault: Error) -> Result<bool, Error> {
    let mut bare = ArmoredReader::new_buffered(alloc, Bytes::new(text))?;
    let mut buffered = ArmoredReader::new(alloc, Bytes::new(text))?;
    Ok(is_bad(alloc, &mut bare, bytes, fault) && is_bad(alloc, &mut buffered, bytes, fault))
}

// Whether the first read of the payload that a text carries is refused so, and each one after it.
fn payload_is_bad(alloc: Global, text: &[u8], fault: Error) -> Result<bool, Error> {
    let inner = ArmoredReader::new(alloc, Bytes::new(text))?;
    let mut reader = StreamReader::<BenchSuite, _>::with_payload_key(alloc, KEY, inner)?;
    Ok(
        read_refuses(&mut reader, fault)
            && has_failed(&mut reader)
            && seek_fails(&mut reader, SeekFrom::Start(0), fault),
    )
}

// Whether armor of these parts is read so in all three ways.
fn armor_is_bad(
    alloc: Global,
    lines: &[u8],
    end: &[u8],
    bytes: &[u8],
    fault: Error,
) -> Result<bool, Error> {
    let text = joined(alloc, &[BEGIN, lines, end])?;
    Ok(both_are_bad(alloc, &text, bytes, fault)? && payload_is_bad(alloc, &text, fault)?)
}

#[test]
fn bad_armor_fails_until_a_seek_succeeds(rt: HostRuntime) -> Result<(), Fail> {
    for (lines, end, bytes, fault) in ARMOR {
        assert!(rt; armor_is_bad(rt.alloc(), lines, end, bytes, Error::Armor(fault))?);
    }
    Ok(())
}

// The front of a text that decides that it is no header.
const FRONTS: [&[u8]; 7] = [
    // CR, before the LF that follows.
    b"age-encryption.org/v1\r",
    // No version, and a space before it.
    b"age-encryption.org/\n",
    b"age-encryption.org/ v1\n",
    // Two spaces together.
    b"age-encryption.org/v1\n-> a  b\n",
    // A body line of 61 columns, and one with unused bits.
    b"age-encryption.org/v1\n-> a\nAAAAAAAAAAAAAAAAAAAAAAAAAAAAAAAAAAAAAAAAAAAAAAAAAAAAAAAAAAAAA\n",
    b"age-encryption.org/v1\n-> a\nYR\n",
    // A MAC line of 42 columns.
    b"age-encryption.org/v1\n-> a\n\n--- AAAAAAAAAAAAAAAAAAAAAAAAAAAAAAAAAAAAAAAAAA\n",
];

// What follows a front. The LF of the first front is the one here.
const AFTER: &[u8] = b"\nand what follows";

// Whether no header is read from an input, with the error that `Debug` writes so, and these bytes are left.
fn no_header_is_read<R: Read + Drop>(
    alloc: Global,
    mut input: R,
    error: &str,
    rest: &[u8],
) -> bool {
    is_error(alloc, HeaderV1::read(alloc, &mut input), error) && delivers(alloc, &mut input, rest)
}

// Whether a file of this input isn't opened, with that error.
fn is_not_opened<R: Read + Drop>(alloc: Global, input: R, error: &str) -> bool {
    is_error(alloc, Decryptor::<BenchSuite, R>::new(alloc, input), error)
}

// Whether both are so of a text as it stands.
fn bare_is_refused(alloc: Global, text: &[u8], error: &str, rest: &[u8]) -> bool {
    no_header_is_read(alloc, Bytes::new(text), error, rest)
        && is_not_opened(alloc, Bytes::new(text), error)
}

// Whether both are so of a text that armor carries.
fn carried_is_refused(alloc: Global, text: &[u8], error: &str, rest: &[u8]) -> Result<bool, Error> {
    let read = ArmoredReader::new(alloc, Bytes::new(text))?;
    let opened = ArmoredReader::new(alloc, Bytes::new(text))?;
    Ok(no_header_is_read(alloc, read, error, rest) && is_not_opened(alloc, opened, error))
}

// Whether both are so of this front and what follows it, as it stands and in armor.
fn is_refused(alloc: Global, front: &[u8], rest: &[u8], error: &str) -> Result<bool, Error> {
    let text = joined(alloc, &[front, rest])?;
    Ok(
        bare_is_refused(alloc, &text, error, rest)
            && carried_is_refused(alloc, &armored(alloc, &text)?, error, rest)?,
    )
}

#[test]
fn bad_headers_are_refused_at_their_deciding_byte(rt: HostRuntime) -> Result<(), Fail> {
    for front in FRONTS {
        assert!(rt; is_refused(rt.alloc(), front, AFTER, "InvalidHeader")?);
    }
    Ok(())
}

// A first line of 2^20 letters that has no end.
fn endless_line(alloc: Global) -> Result<Vec<u8>, AllocError> {
    let letters = vec![in alloc; b'a'; 1_048_576]?;
    joined(alloc, &[b"age-encryption.org/", &letters])
}

#[test]
fn a_first_line_without_end_is_read_to_the_end(rt: HostRuntime) -> Result<(), Fail> {
    let alloc = rt.alloc();
    assert!(rt; is_refused(alloc, &endless_line(alloc)?, b"", "Io(UnexpectedEof)")?);
    Ok(())
}

// A header of 10,000 stanzas, each with an empty body, and what follows it.
fn long_text(alloc: Global) -> Result<Vec<u8>, AllocError> {
    let mut text = Vec::from_slice(alloc, b"age-encryption.org/v1\n")?;
    for _stanza in 0..10_000u32 {
        text.extend_from_slice(b"-> x\n\n")?;
    }
    text.extend_from_slice(b"--- AAAAAAAAAAAAAAAAAAAAAAAAAAAAAAAAAAAAAAAAAAA\n")?;
    text.extend_from_slice(AFTER)?;
    Ok(text)
}

// Whether so many stanzas have the tag `x` alone.
fn are_empty(stanzas: &[Stanza], count: usize) -> bool {
    for stanza in stanzas {
        if stanza.tag() != "x" || !stanza.args().is_empty() || !stanza.body().is_empty() {
            return false;
        }
    }
    stanzas.len() == count
}

// Whether a header of 10,000 such stanzas is read from an input, and what follows it is left.
fn long_is_read<R: Read + Drop>(alloc: Global, mut input: R) -> Result<bool, Fail> {
    let header = done(HeaderV1::read(alloc, &mut input))?;
    Ok(are_empty(header.stanzas(), 10_000) && delivers(alloc, &mut input, AFTER))
}

#[test]
fn a_header_of_10_000_stanzas_is_read(rt: HostRuntime) -> Result<(), Fail> {
    let alloc = rt.alloc();
    let text = long_text(alloc)?;
    assert!(rt; long_is_read(alloc, Bytes::new(&text))?);
    let carried = armored(alloc, &text)?;
    assert!(rt; long_is_read(alloc, ArmoredReader::new(alloc, Bytes::new(&carried))?)?);
    Ok(())
}
