//! Payloads as streams, over both suites. The digests are those of HMAC in Python.

ghost use Rattle.std.specs.Prelude.{◌<◌};

use crate::fixtures::{SECOND_AS_LAST, reader_of};
use age::io::{Bytes, Error, Read, Write, copy_all, read_to_end};
use age::stream::StreamWriter;
use age::suite::{Opens, Suite};
use age_bench::suite::BenchSuite;
use std::alloc::Global;
use std::fmt::Debug;
use std::process::Abort;
use std::test::Fail;
use test_support::answers::{delivers, ends};
use test_support::fixtures::{KEY, digest, plaintext};
use test_support::other_suite::OtherSuite;
use test_support::whole::{open_whole, seal_whole};

// The payload of a plaintext that is written in pieces of this length, with a flush after each.
fn written<S: Suite>(alloc: Global, plain: &[u8], piece: usize) -> Result<Vec<u8>, Error>
    requires { 0 < piece }
{
    let mut writer = StreamWriter::<S, Vec<u8>>::with_payload_key(alloc, KEY, Vec::new(alloc))?;
    for part in plain.chunks(piece) {
        writer.write(part)?;
        writer.flush()?;
    }
    writer.finish()
}

// Whether the definition gives this payload for this plaintext.
fn is_payload_of<S: Suite>(alloc: Global, payload: &[u8], plain: &[u8]) -> Result<bool, Fail> {
    Ok(seal_whole::<S>(alloc, &KEY, plain)?.as_slice() == payload)
}

// Whether the definition opens this payload to this plaintext.
fn opens_to<S: Suite>(alloc: Global, payload: &[u8], plain: &[u8]) -> Result<bool, Fail> {
    let opened = open_whole::<S>(alloc, &mut Opens::new(), &KEY, payload)?;
    Ok(opened.as_slice() == plain)
}

// Whether a reader gives this plaintext and its clean end.
fn is_read_to<S: Suite>(alloc: Global, payload: &[u8], plain: &[u8]) -> Result<bool, Fail> {
    let mut reader = reader_of::<S, Bytes>(alloc, Bytes::new(payload))?;
    Ok(delivers(alloc, &mut reader, plain) && ends(&mut reader))
}

// Whether a payload has this length and this digest.
fn is_known(payload: &[u8], length: usize, expected: u64) -> bool {
    payload.len() == length && digest(payload) == expected
}

// Whether a plaintext has the payload of this length and digest, and is read back from it.
fn is_written_and_read_back<S: Suite>(
    alloc: Global,
    plain: &[u8],
    length: usize,
    expected: u64,
) -> Result<bool, Fail> {
    let payload = written::<S>(alloc, plain, 1 << 20)?;
    Ok(
        is_known(&payload, length, expected)
            && is_payload_of::<S>(alloc, &payload, plain)?
            && opens_to::<S>(alloc, &payload, plain)?
            && is_read_to::<S>(alloc, &payload, plain)?,
    )
}

// Whether a plaintext of so many bytes is, over both suites.
fn both_are_written_and_read_back(
    alloc: Global,
    length: usize,
    payload_length: usize,
    bench: u64,
    other: u64,
) -> Result<bool, Fail> {
    let plain = plaintext(alloc, length)?;
    Ok(
        is_written_and_read_back::<BenchSuite>(alloc, &plain, payload_length, bench)?
            && is_written_and_read_back::<OtherSuite>(alloc, &plain, payload_length, other)?,
    )
}

// The length of a plaintext and of its payload, and the payload's digest over each suite.
const WRITTEN: [(usize, usize, u64, u64); 4] = [
    (0, 16, 0xc0f8_88c4_1d88_92ff, 0xc384_0b7a_7e31_1f86),
    (1, 17, 0x9fe2_f53e_8a77_2f10, 0x06b9_bc1a_5305_8867),
    (65_536, 65_552, 0x1293_37fd_c421_275c, 0x97fb_5dd3_8219_cb1a),
    (65_537, 65_569, 0x4c19_c88a_fe40_61bc, 0x47f5_f2cd_bc3e_981d),
];

#[test]
fn payloads_are_written_and_read_back(rt: HostRuntime) -> Result<(), Fail> {
    for (length, payload_length, bench, other) in WRITTEN {
        assert!(rt;
            both_are_written_and_read_back(rt.alloc(), length, payload_length, bench, other)?,
            "of {length} bytes"
        );
    }
    Ok(())
}

// Whether this seal of the second chunk opens as the last to these bytes.
fn last_opens_to(alloc: Global, seal: &[u8], expected: &[u8]) -> Result<bool, Fail> {
    let last = BenchSuite::open(alloc, &mut Opens::new(), &KEY, &SECOND_AS_LAST, seal)?;
    Ok(last.ok_or("refused")?.as_slice() == expected)
}

// The last chunk of a plaintext of 65,537 bytes has number 1.
#[test]
fn a_last_chunk_opens_under_its_nonce(rt: HostRuntime) -> Result<(), Fail> {
    let alloc = rt.alloc();
    let payload = written::<BenchSuite>(alloc, &plaintext(alloc, 65_537)?, 65_537)?;
    assert!(rt; payload.len() == 65_569);
    // 65,536 is 25 more than a multiple of 251.
    assert!(rt; last_opens_to(alloc, &payload[65_552..], &[25])?);
    Ok(())
}

// Whether this plaintext of 131,072 bytes, in pieces of this length, has the payload with this digest.
fn is_written_in_pieces<S: Suite>(
    alloc: Global,
    plain: &[u8],
    piece: usize,
    expected: u64,
) -> Result<bool, Fail>
    requires { 0 < piece }
{
    let payload = written::<S>(alloc, plain, piece)?;
    Ok(is_known(&payload, 131_104, expected))
}

// Whether it has over both suites.
fn both_are_written_in_pieces(alloc: Global, plain: &[u8], piece: usize) -> Result<bool, Fail>
    requires { 0 < piece }
{
    Ok(
        is_written_in_pieces::<BenchSuite>(alloc, plain, piece, 0x5f42_35d1_0738_d687)?
            && is_written_in_pieces::<OtherSuite>(alloc, plain, piece, 0x81c2_3405_d713_853f)?,
    )
}

#[test]
fn how_a_plaintext_is_cut_into_writes_is_not_seen(rt: HostRuntime) -> Result<(), Fail> {
    let alloc = rt.alloc();
    let plain = plaintext(alloc, 131_072)?;
    for piece in [1, 65_535, 65_536, 131_072] {
        assert!(rt;
            both_are_written_in_pieces(alloc, &plain, piece)?,
            "in pieces of {piece}"
        );
    }
    Ok(())
}

// The payload of a plaintext that is copied: the writer takes each whole piece but the first by an exchange of memory.
fn copied<S: Suite>(alloc: Global, plain: &[u8]) -> Result<Vec<u8>, Error> {
    let mut writer = StreamWriter::<S, Vec<u8>>::with_payload_key(alloc, KEY, Vec::new(alloc))?;
    copy_all(alloc, &mut Bytes::new(plain), &mut writer)?;
    writer.finish()
}

#[test]
fn a_copied_plaintext_has_its_payload(rt: HostRuntime) -> Result<(), Fail> {
    let alloc = rt.alloc();
    let plain = plaintext(alloc, 131_072)?;
    assert!(rt;
        is_known(
            &copied::<BenchSuite>(alloc, &plain)?,
            131_104,
            0x5f42_35d1_0738_d687
        )
    );
    assert!(rt;
        is_known(
            &copied::<OtherSuite>(alloc, &plain)?,
            131_104,
            0x81c2_3405_d713_853f
        )
    );
    Ok(())
}

// Whether a writer that was given so many bytes takes a piece of that length by an exchange.
fn exchanges(alloc: Global, given: usize, length: usize) -> Result<bool, Fail> {
    let mut writer = StreamWriter::<BenchSuite, Vec<u8>>::with_payload_key(
        alloc,
        KEY,
        Vec::new(alloc),
    )?;
    writer.write(&plaintext(alloc, given)?)?;
    Ok(writer.exchange(&mut plaintext(alloc, length)?)?)
}

#[test]
fn a_whole_piece_is_exchanged_for_the_one_that_is_held(rt: HostRuntime) -> Result<(), Fail> {
    let alloc = rt.alloc();
    assert!(rt; exchanges(alloc, 65_536, 65_536)?);
    for (given, length) in [
        (0, 65_536),
        (65_535, 65_536),
        (65_536, 65_535),
        (65_536, 65_537),
    ] {
        assert!(rt; !exchanges(alloc, given, length)?, "{given} and {length}");
    }
    Ok(())
}

// Whether the inner reader still has the end of the payload, of that length.
fn has_left(alloc: Global, inner: &mut Bytes, payload: &[u8], left: usize) -> Result<bool, Fail> {
    let mut rest = Vec::new(alloc);
    let count = read_to_end(alloc, inner, &mut rest)?;
    Ok(count == left && payload.ends_with(&rest))
}

// After so many reads of a byte the inner reader has so much left.
fn is_handed_back(
    rt: &impl Abort,
    alloc: Global,
    payload: &[u8],
    reads: u8,
    left: usize,
) -> Result<(), Fail> {
    let mut reader = reader_of::<BenchSuite, Bytes>(alloc, Bytes::new(payload))?;
    for _read in 0..reads {
        assert!(rt; reader.read(&mut [0]) == Ok(1));
    }
    let mut inner = reader.into_inner();
    assert!(rt; has_left(alloc, &mut inner, payload, left)?, "not {left}");
    Ok(())
}

// It has read the first chunk whole for one byte of it.
#[test]
fn the_inner_reader_is_handed_back_as_it_stands(rt: HostRuntime) -> Result<(), Fail> {
    let alloc = rt.alloc();
    let payload = written::<BenchSuite>(alloc, &plaintext(alloc, 65_537)?, 65_537)?;
    is_handed_back(&rt, alloc, &payload, 0, 65_569)?;
    is_handed_back(&rt, alloc, &payload, 1, 17)
}

type Writer = StreamWriter<BenchSuite, Vec<u8>>;

// Whether a value is shown as this text.
fn is_shown<T: Debug>(alloc: Global, value: &T, text: &str) -> Result<bool, Fail> {
    let shown = format!(in alloc; "{value:?}")?;
    Ok(shown.as_str() == text)
}

// The payload of this plaintext, of 65,537 bytes, by a writer that shows how many it has taken.
fn written_and_shown(rt: &impl Abort, alloc: Global, plain: &[u8]) -> Result<Vec<u8>, Fail> {
    let mut writer = Writer::with_payload_key(alloc, KEY, Vec::new(alloc))?;
    assert!(rt; is_shown(alloc, &writer, "StreamWriter { taken: 0, .. }")?);
    writer.write(plain)?;
    assert!(rt; is_shown(alloc, &writer, "StreamWriter { taken: 65537, .. }")?);
    Ok(writer.finish()?)
}

// Whether a reader of it shows how many bytes it has given.
fn is_read_and_shown(alloc: Global, payload: &[u8]) -> Result<bool, Fail> {
    let mut reader = reader_of::<BenchSuite, Bytes>(alloc, Bytes::new(payload))?;
    let mut read = Vec::new(alloc);
    read_to_end(alloc, &mut reader, &mut read)?;
    is_shown(alloc, &reader, "StreamReader { place: 65537, .. }")
}

#[test]
fn debug_prints_how_far_they_are(rt: HostRuntime) -> Result<(), Fail> {
    let alloc = rt.alloc();
    let payload = written_and_shown(&rt, alloc, &plaintext(alloc, 65_537)?)?;
    assert!(rt; is_read_and_shown(alloc, &payload)?);
    Ok(())
}
