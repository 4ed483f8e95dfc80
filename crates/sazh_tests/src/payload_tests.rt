//! What the commands write, and their refusals. The sealed bytes are those of HMAC in Python.

use crate::done::is_done;
use age::io::{Bytes, Error, ErrorKind};
use age::streaming::{FileError, open_all, seal_all};
use age_bench::suite::BenchSuite;
use std::alloc::Global;
use std::process::Abort;
use std::test::Fail;
use test_support::answers::is_refusal;
use test_support::fixtures::{KEY, part, plaintext};
use test_support::whole::seal_whole;

const ZEROS: [u8; 32] = [0; 32];

// The payloads of nothing and of the byte `a` under 32 zeros.
const EMPTY_SEALED: [u8; 16] = [
    0x38, 0xde, 0xf6, 0x1c, 0xf4, 0x93, 0x7b, 0x43, 0x78, 0xa6, 0x6e, 0xde, 0x11, 0x05, 0xb2, 0x9f,
];

const LETTER_SEALED: [u8; 17] = [
    0x03, 0x78, 0x0e, 0x25, 0x33, 0xcc, 0x7d, 0x8e, 0xa5, 0xb6, 0xe7, 0x52, 0xc6, 0x17, 0x90, 0x2e,
    0xc0,
];

// Whether sealing a plaintext writes this payload, behind what stands in the output.
fn seals(
    alloc: Global,
    key: [u8; 32],
    before: &[u8],
    plain: &[u8],
    payload: &[u8],
) -> Result<bool, Fail> {
    let mut sealed = Vec::from_slice(alloc, before)?;
    let is_sealed = is_done(seal_all::<BenchSuite, _, _>(
        alloc,
        key,
        &mut Bytes::new(plain),
        &mut sealed,
    ));
    Ok(is_sealed && sealed.strip_prefix(before) == Some(payload))
}

// Whether opening a payload writes this plaintext, behind what stands in the output.
fn opens(
    alloc: Global,
    key: [u8; 32],
    before: &[u8],
    payload: &[u8],
    plain: &[u8],
) -> Result<bool, Fail> {
    let mut opened = Vec::from_slice(alloc, before)?;
    let is_opened = is_done(open_all::<BenchSuite, _, _>(
        alloc,
        key,
        &mut Bytes::new(payload),
        &mut opened,
    ));
    Ok(is_opened && opened.strip_prefix(before) == Some(plain))
}

// Whether both lead from a plaintext to this payload and back.
fn there_and_back(
    alloc: Global,
    key: [u8; 32],
    before: &[u8],
    plain: &[u8],
    payload: &[u8],
) -> Result<bool, Fail> {
    Ok(seals(alloc, key, before, plain, payload)? && opens(alloc, key, before, payload, plain)?)
}

#[test]
fn commands_seal_and_open(rt: HostRuntime) -> Result<(), Fail> {
    let alloc = rt.alloc();
    assert!(rt; there_and_back(alloc, ZEROS, b"", b"", &EMPTY_SEALED)?);
    assert!(rt; there_and_back(alloc, ZEROS, b"", b"a", &LETTER_SEALED)?);
    Ok(())
}

// Both go on where the output stands.
#[test]
fn commands_append_many_chunks(rt: HostRuntime) -> Result<(), Fail> {
    let alloc = rt.alloc();
    let plain = plaintext(alloc, 200_000)?;
    let payload = seal_whole::<BenchSuite>(alloc, &KEY, &plain)?;
    assert!(rt; there_and_back(alloc, KEY, b"before", &plain, &payload)?);
    Ok(())
}

// Whether opening a payload fails with this text, after the first bytes of the plaintext were written, so many.
fn is_refused(alloc: Global, payload: &[u8], written: usize, text: &str) -> Result<bool, Fail> {
    let mut opened = Vec::new(alloc);
    let is_refused = is_refusal(
        alloc,
        open_all::<BenchSuite, _, _>(alloc, KEY, &mut Bytes::new(payload), &mut opened),
        text,
    );
    Ok(is_refused && opened.as_slice() == plaintext(alloc, written)?.as_slice())
}

// The payload of two full chunks.
fn two_chunks(alloc: Global) -> Result<Vec<u8>, Fail> {
    let payload = seal_whole::<BenchSuite>(alloc, &KEY, &plaintext(alloc, 131_072)?)?;
    if payload.len() == 131_104 {
        Ok(payload)
    } else {
        Err(Fail::from("another length"))
    }
}

// So many bytes of that payload, how many of the plaintext are written, and the refusal.
const CUTS: [(usize, usize, &str); 4] = [
    (0, 0, "age file is truncated"),
    (15, 0, "decryption error"),
    (65_552, 65_536, "age file is truncated"),
    (131_103, 65_536, "decryption error"),
];

#[test]
fn cut_payloads_are_refused(rt: HostRuntime) -> Result<(), Fail> {
    let alloc = rt.alloc();
    let payload = two_chunks(alloc)?;
    for (length, written, text) in CUTS {
        assert!(rt;
            is_refused(alloc, part(&payload, 0, length), written, text)?,
            "of {length} bytes: {text}"
        );
    }
    Ok(())
}

// Changes a bit of the byte at a place.
fn flip(bytes: &mut [u8], place: usize) {
    if let Some(byte) = bytes.get_mut(place) {
        *byte ^= 0x10;
    }
}

// A bit of the second chunk, and a byte after it.
#[test]
fn changed_payloads_are_refused(rt: HostRuntime) -> Result<(), Fail> {
    let alloc = rt.alloc();
    let mut payload = two_chunks(alloc)?;
    flip(&mut payload, 100_000);
    assert!(rt; is_refused(alloc, &payload, 65_536, "decryption error")?);
    flip(&mut payload, 100_000);
    payload.push(0)?;
    assert!(rt; is_refused(alloc, &payload, 131_072, "last chunk has been processed")?);
    Ok(())
}

// Whether the errors of a file that hold this one have its text.
fn have_text(alloc: Global, error: Error, text: &str) -> bool {
    is_refusal(alloc, Err::<(), FileError>(FileError::Io(error)), text)
        && is_refusal(alloc, Err::<(), FileError>(FileError::from(error)), text)
}

const TEXTS: [(Error, &str); 4] = [
    (Error::Device(ErrorKind::NotFound), "device fault"),
    (Error::WriteZero, "nothing could be written"),
    (
        Error::NotIdentity { line: 7 },
        "identity file contains non-identity data on line 7",
    ),
    (Error::OutOfMemory, "out of memory"),
];

#[test]
fn a_refusal_of_a_command_has_its_text(rt: HostRuntime) -> Result<(), Fail> {
    for (error, text) in TEXTS {
        assert!(rt; have_text(rt.alloc(), error, text), "{text}");
    }
    Ok(())
}
