//! Armor through the library: what is written is read back. Texts from outside and each fault of a text are in the table of `rows`.

use age_armor::{ArmoredReader, ArmoredWriter, Format};
use age_devices::answers::delivers;
use age_devices::bytes::{part, plaintext};
use age_error::io::Error;
use age_io::{BufReader, Bytes, Read, Write, write_all};
use std::alloc::Global;
use std::process::Abort;
use std::test::Fail;
use test_support::fixtures::{armored, digest};

// Whether a text carries these bytes and ends well.
fn carries(alloc: Global, text: &[u8], bytes: &[u8]) -> Result<bool, Error> {
    let mut reader = ArmoredReader::new(alloc, Bytes::new(text))?;
    Ok(delivers(alloc, &mut reader, bytes))
}

// Whether this text is their armor.
fn has_armor(alloc: Global, bytes: &[u8], text: &[u8]) -> Result<bool, Error> {
    Ok(armored(alloc, bytes)?.as_slice() == text)
}

// Whether the armor of bytes carries them.
fn is_read_back(alloc: Global, bytes: &[u8]) -> Result<bool, Error> {
    carries(alloc, &armored(alloc, bytes)?, bytes)
}

// The bytes 0, 1, .., 255 again and again: so many of them and one more each time, armored and read back.
fn are_read_back(rt: &impl Abort, alloc: Global, least: usize, most: usize) -> Result<(), Fail> {
    let mut bytes = Vec::new(alloc);
    for n in 0..=most {
        if n >= least {
            assert!(rt; is_read_back(alloc, &bytes)?, "of {n} bytes");
        }
        bytes.push((n % 256) as u8)?;
    }
    Ok(())
}

#[test]
fn up_to_300_bytes_are_read_back(rt: HostRuntime) -> Result<(), Fail> {
    are_read_back(&rt, rt.alloc(), 0, 300)
}

#[test]
fn up_to_600_bytes_are_read_back(rt: HostRuntime) -> Result<(), Fail> {
    are_read_back(&rt, rt.alloc(), 301, 600)
}

#[test]
fn up_to_900_bytes_are_read_back(rt: HostRuntime) -> Result<(), Fail> {
    are_read_back(&rt, rt.alloc(), 601, 900)
}

#[test]
fn up_to_1200_bytes_are_read_back(rt: HostRuntime) -> Result<(), Fail> {
    are_read_back(&rt, rt.alloc(), 901, 1_200)
}

#[test]
fn up_to_1500_bytes_are_read_back(rt: HostRuntime) -> Result<(), Fail> {
    are_read_back(&rt, rt.alloc(), 1_201, 1_500)
}

#[test]
fn up_to_1800_bytes_are_read_back(rt: HostRuntime) -> Result<(), Fail> {
    are_read_back(&rt, rt.alloc(), 1_501, 1_800)
}

#[test]
fn up_to_2100_bytes_are_read_back(rt: HostRuntime) -> Result<(), Fail> {
    are_read_back(&rt, rt.alloc(), 1_801, 2_100)
}

#[test]
fn up_to_2400_bytes_are_read_back(rt: HostRuntime) -> Result<(), Fail> {
    are_read_back(&rt, rt.alloc(), 2_101, 2_400)
}

// The text of bytes that are written one by one, with a flush after each; `None` where a write or a flush refuses.
fn by_single_bytes(alloc: Global, bytes: &[u8]) -> Result<Option<Vec<u8>>, Error> {
    let mut writer = ArmoredWriter::wrap_output(alloc, Vec::new(alloc), Format::AsciiArmor)?;
    for byte in bytes {
        if writer.write(&[*byte]) != Ok(1) || writer.flush() != Ok(()) {
            return Ok(None);
        }
    }
    Ok(Some(writer.finish()?))
}

#[test]
fn single_bytes_and_flushes_change_no_text(rt: HostRuntime) -> Result<(), Fail> {
    let alloc = rt.alloc();
    let bytes = plaintext(alloc, 20_000)?;
    let text = by_single_bytes(alloc, &bytes)?.ok_or("refused")?;
    assert!(rt; text.len() == 27_153 && digest(&text) == 0x975e_6058_0219_0eba);
    assert!(rt; has_armor(alloc, &bytes, &text)?);
    Ok(())
}

// What stands behind some bytes once these were written there without armor; `None` where a flush refuses.
fn in_binary(alloc: Global, before: &[u8], bytes: &[u8]) -> Result<Option<Vec<u8>>, Error> {
    let output = Vec::from_slice(alloc, before)?;
    let mut writer = ArmoredWriter::wrap_output(alloc, output, Format::Binary)?;
    write_all(&mut writer, bytes)?;
    if writer.flush() != Ok(()) {
        return Ok(None);
    }
    Ok(Some(writer.finish()?))
}

// Without armor the bytes go out, and are read, as they are: 36 of them or more.
#[test]
fn bytes_without_armor_stay_as_they_are(rt: HostRuntime) -> Result<(), Fail> {
    let alloc = rt.alloc();
    let bytes = plaintext(alloc, 20_000)?;
    let text = in_binary(alloc, b"before", &bytes)?.ok_or("refused")?;
    assert!(rt; text.strip_prefix(b"before") == Some(bytes.as_slice()));
    for length in [36, 37, 20_000] {
        let front = part(&bytes, 0, length);
        assert!(rt; front.len() == length && carries(alloc, front, front)?);
    }
    Ok(())
}

// Whether a buffer gives the first five of these bytes to a short read, and then the rest.
fn is_buffered(alloc: Global, bytes: &[u8]) -> Result<bool, Error> {
    let mut reader = BufReader::new(alloc, Bytes::new(bytes))?;
    let mut room = [0; 5];
    Ok(
        reader.read(&mut room) == Ok(5)
            && room.as_slice() == part(bytes, 0, 5)
            && delivers(alloc, &mut reader, part(bytes, 5, bytes.len())),
    )
}

#[test]
fn a_buffer_reads_what_its_reader_has(rt: HostRuntime) -> Result<(), Fail> {
    let bytes = plaintext(rt.alloc(), 20_000)?;
    assert!(rt; is_buffered(rt.alloc(), &bytes)?);
    Ok(())
}
