//! Bytes that are written in pieces.

ghost use Rattle.std.specs.Prelude.{◌<◌};

use age_armor::{ArmoredWriter, Format};
use age_error::io::Error;
use age_io::Write;
use std::alloc::Global;
use std::test::Fail;

// The text of bytes that are written in pieces of this length, with a flush after each.
fn written(alloc: Global, format: Format, bytes: &[u8], piece: usize) -> Result<Vec<u8>, Error>
    requires { 0 < piece }
{
    let mut writer = ArmoredWriter::wrap_output(alloc, Vec::new(alloc), format)?;
    for part in bytes.chunks(piece) {
        writer.write(part)?;
        writer.flush()?;
    }
    writer.finish()
}

// Bytes of which each is its place modulo 251.
fn numbered(alloc: Global, length: usize) -> Result<Vec<u8>, Error> {
    let mut bytes = Vec::new(alloc);
    for place in 0..length {
        bytes.push((place % 251) as u8)?;
    }
    Ok(bytes)
}

#[test]
fn binary_is_the_bytes_themselves(rt: HostRuntime) -> Result<(), Fail> {
    let alloc = rt.alloc();
    for length in [0, 1, 200] {
        let bytes = numbered(alloc, length)?;
        let text = written(alloc, Format::Binary, &bytes, 7)?;
        assert!(rt; text.as_slice() == bytes.as_slice(), "{length}");
    }
    Ok(())
}

#[test]
fn how_bytes_are_cut_into_writes_is_not_seen(rt: HostRuntime) -> Result<(), Fail> {
    let alloc = rt.alloc();
    for (length, text_length) in [(20_000, 27_153), (200_000, 270_903)] {
        let bytes = numbered(alloc, length)?;
        let text = written(alloc, Format::AsciiArmor, &bytes, length)?;
        assert!(rt; text.len() == text_length);
        for piece in [1, 47, 48, 49, 65_552] {
            let pieces = written(alloc, Format::AsciiArmor, &bytes, piece)?;
            assert!(rt; pieces.as_slice() == text.as_slice(), "{piece} of {length}");
        }
    }
    Ok(())
}
