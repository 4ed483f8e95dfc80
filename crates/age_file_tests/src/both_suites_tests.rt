//! Whole files over both suites, which have nothing in common but the laws. The digests are those of Python.

use crate::shared::{answers, changed, is_bad_after, opened_by, opens_to, prepared};
use age::DecryptError;
use age::io::{Answer, Bytes, Error, Op, Seek, SeekFrom, Write, run, write_all};
use age::stream::{StreamReader, StreamWriter};
use age::suite::Suite;
use age_bench::recipient::{BenchIdentity, BenchRecipient};
use age_bench::suite::BenchSuite;
use std::alloc::{AllocError, Global};
use std::process::Abort;
use std::test::Fail;
use test_support::answers::is_refusal;
use test_support::fixtures::{digest, message_file, part, plaintext, zeros};
use test_support::other_suite::OtherSuite;

// The bytes of the header and the nonce of each file here.
const FRONT: usize = 131;

type Stream<'a, S> = StreamReader<S, Bytes<'a>>;

// The writer of a file to `bench`, where each random byte is 0.
fn writer<S: Suite>(alloc: Global) -> Result<StreamWriter<S, Vec<u8>>, Fail> {
    let mut draw = zeros(alloc, 32)?;
    let encryptor = prepared::<S, BenchRecipient>(alloc, &[BenchRecipient], &mut draw)?;
    Ok(encryptor.wrap_output(alloc, Vec::new(alloc))?)
}

// Writes a plaintext in pieces of 50,000 bytes.
fn write_pieces<W: Write>(writer: &mut W, plain: &[u8]) -> Result<(), Error> {
    for piece in plain.chunks(50_000) {
        write_all(writer, piece)?;
    }
    Ok(())
}

// The file of a plaintext, written in pieces of 50,000 bytes, where each random byte is 0.
fn file_of<S: Suite>(alloc: Global, plain: &[u8]) -> Result<Vec<u8>, Fail> {
    let mut writer = writer::<S>(alloc)?;
    write_pieces(&mut writer, plain)?;
    Ok(writer.finish()?)
}

// The reader of a file's plaintext.
fn opened<'a, S: Suite>(alloc: Global, file: &'a [u8]) -> Result<Stream<'a, S>, DecryptError> {
    opened_by::<S, BenchIdentity>(alloc, &mut BenchIdentity, file)
}

// Whether a plaintext of so many bytes has the file with this digest, and comes back from it.
fn comes_back<S: Suite>(alloc: Global, length: usize, expected: u64) -> Result<bool, Fail> {
    let plain = plaintext(alloc, length)?;
    let file = file_of::<S>(alloc, &plain)?;
    Ok(digest(&file) == expected && opens_to(alloc, opened::<S>(alloc, &file), &plain))
}

// How long a plaintext is, and the digests of its files over the bench suite and over the other.
const FILES: [(usize, u64, u64); 6] = [
    (0, 0x64e6_ad25_d330_798a, 0xef70_5cc2_adbf_2cd6),
    (1, 0x89ef_7bbc_598e_8d2c, 0x345f_0d5e_314d_00a8),
    (65_535, 0x24c2_99ae_6117_c5bb, 0xf54a_2717_bb8d_7191),
    (65_536, 0x3bff_655d_2c0a_d45d, 0xf218_ef6c_8579_9f2f),
    (65_537, 0xf6a5_9c0a_9699_2eb5, 0x85e2_b367_c5f1_62fa),
    (131_072, 0x1e1c_6c9b_de14_9e64, 0xb4d7_f8fc_1c15_dcb9),
];

#[test]
fn plaintexts_come_back(rt: HostRuntime) -> Result<(), Fail> {
    let alloc = rt.alloc();
    for (length, bench, other) in FILES {
        assert!(rt;
            comes_back::<BenchSuite>(alloc, length, bench)?
                && comes_back::<OtherSuite>(alloc, length, other)?,
            "of {length} bytes"
        );
    }
    Ok(())
}

const OPS: [Op; 14] = [
    Op::Read(100),
    Op::Seek(SeekFrom::Current(65_436)),
    Op::Read(70_000),
    Op::Seek(SeekFrom::End(-131_074)),
    Op::Read(1),
    Op::Seek(SeekFrom::End(-5)),
    Op::Read(6),
    Op::Seek(SeekFrom::Start(131_074)),
    Op::Seek(SeekFrom::Start(131_073)),
    Op::Read(1),
    Op::Seek(SeekFrom::Current(-65_538)),
    Op::Read(2),
    Op::Seek(SeekFrom::Start(65_536)),
    Op::Read(65_537),
];

// The answers of a plain cursor.
fn plain_answers(alloc: Global, plain: &[u8]) -> Result<Vec<Answer>, AllocError> {
    run(alloc, &mut Bytes::new(plain), &OPS)
}

// Whether it is a success with a reader that answers so.
fn moves_so<R: Seek + Drop, E: Drop>(
    alloc: Global,
    opened: Result<R, E>,
    expected: &[Answer],
) -> bool {
    match opened {
        Ok(mut reader) => answers(run(alloc, &mut reader, &OPS), expected),
        Err(_) => false,
    }
}

// Whether the reader of a plaintext's file answers so.
fn file_moves_so<S: Suite>(alloc: Global, plain: &[u8], expected: &[Answer]) -> Result<bool, Fail> {
    let file = file_of::<S>(alloc, plain)?;
    Ok(moves_so(alloc, opened::<S>(alloc, &file), expected))
}

// Whether reads and seeks on a file's plaintext are answered as those on a plain cursor.
fn moves_a_cursor<S: Suite>(alloc: Global) -> Result<bool, Fail> {
    let plain = plaintext(alloc, 131_073)?;
    let expected = plain_answers(alloc, &plain)?;
    Ok(expected.len() == OPS.len() && file_moves_so::<S>(alloc, &plain, &expected)?)
}

#[test]
fn reads_and_seeks_move_a_cursor(rt: HostRuntime) -> Result<(), Fail> {
    assert!(rt; moves_a_cursor::<BenchSuite>(rt.alloc())?);
    assert!(rt; moves_a_cursor::<OtherSuite>(rt.alloc())?);
    Ok(())
}

// Whether a file with one bit changed at a place can't be opened for the identity, with this text.
fn is_refused<S: Suite>(
    alloc: Global,
    file: &[u8],
    place: usize,
    expected: &str,
) -> Result<bool, Fail> {
    let copy = changed(alloc, file, place, 2)?;
    Ok(is_refusal(alloc, opened::<S>(alloc, &copy), expected))
}

// Places in the version, the stanza's tag, its body and the MAC, and why a file with a bit changed there isn't opened.
const OF_HEADER: [(usize, &str); 4] = [
    (20, "unknown format"),
    (25, "no matching keys"),
    (31, "invalid header MAC"),
    (71, "invalid header MAC"),
];

// No header with a bit changed is opened.
fn no_changed_header_is_opened<S: Suite>(
    rt: &impl Abort,
    alloc: Global,
    file: &[u8],
) -> Result<(), Fail> {
    for (place, expected) in OF_HEADER {
        assert!(rt; is_refused::<S>(alloc, file, place, expected)?);
    }
    Ok(())
}

// Whether a file with one bit changed at a place has a plaintext that begins with these bytes, and then a chunk is bad.
fn is_bad_at<S: Suite>(
    alloc: Global,
    file: &[u8],
    place: usize,
    front: &[u8],
) -> Result<bool, Fail> {
    let copy = changed(alloc, file, place, 2)?;
    Ok(is_bad_after(alloc, opened::<S>(alloc, &copy), front))
}

// Places in the nonce, and at the first, a middle and the last byte of each of two chunks, and how many bytes of the plaintext
// come before the chunk that is bad by a change there.
const OF_PAYLOAD: [(usize, usize); 8] = [
    (115, 0),
    (130, 0),
    (131, 0),
    (40_000, 0),
    (65_682, 0),
    (65_683, 65_536),
    (68_000, 65_536),
    (70_162, 65_536),
];

// No chunk is opened where a bit of it or of the nonce is changed.
fn no_changed_chunk_is_opened<S: Suite>(
    rt: &impl Abort,
    alloc: Global,
    file: &[u8],
    plain: &[u8],
) -> Result<(), Fail> {
    for (place, count) in OF_PAYLOAD {
        assert!(rt; is_bad_at::<S>(alloc, file, place, part(plain, 0, count))?);
    }
    Ok(())
}

// A bit of the header; then of the nonce and of the chunks.
fn no_changed_file_is_opened<S: Suite>(rt: &impl Abort, alloc: Global) -> Result<(), Fail> {
    let plain = plaintext(alloc, 70_000)?;
    let file = file_of::<S>(alloc, &plain)?;
    assert!(rt; file.len() == 70_163);
    no_changed_header_is_opened::<S>(rt, alloc, &file)?;
    no_changed_chunk_is_opened::<S>(rt, alloc, &file, &plain)
}

#[test]
fn changed_files_are_refused(rt: HostRuntime) -> Result<(), Fail> {
    no_changed_file_is_opened::<BenchSuite>(&rt, rt.alloc())?;
    no_changed_file_is_opened::<OtherSuite>(&rt, rt.alloc())
}

// Whether a file begins as the message's.
fn has_front(alloc: Global, file: &[u8]) -> Result<bool, AllocError> {
    let front = message_file(alloc, &[])?;
    Ok(part(file, 0, FRONT) == part(&front, 0, FRONT))
}

// The file of a plaintext of so many bytes.
fn file_of_length<S: Suite>(alloc: Global, length: usize) -> Result<Vec<u8>, Fail> {
    let plain = plaintext(alloc, length)?;
    file_of::<S>(alloc, &plain)
}

// The header doesn't hang on the suite, so it is opened; the first chunk is no seal of the other's.
fn opens_no_chunk_of<S: Suite, T: Suite>(alloc: Global, length: usize) -> Result<bool, Fail> {
    let file = file_of_length::<T>(alloc, length)?;
    Ok(has_front(alloc, &file)? && is_bad_after(alloc, opened::<S>(alloc, &file), &[]))
}

#[test]
fn a_suite_opens_no_chunk_of_the_other(rt: HostRuntime) -> Result<(), Fail> {
    let alloc = rt.alloc();
    for length in [0, 36, 65_536, 65_537] {
        assert!(rt; opens_no_chunk_of::<BenchSuite, OtherSuite>(alloc, length)?);
        assert!(rt; opens_no_chunk_of::<OtherSuite, BenchSuite>(alloc, length)?);
    }
    Ok(())
}
