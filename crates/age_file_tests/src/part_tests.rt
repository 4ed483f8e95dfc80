//! Parts of a file's plaintext, and the words that ask for them.

use crate::shared::{commands_file, is_answered};
use age::armor::Format;
use age::io::Bytes;
use age_bench::names::With;
use age_bench::part::at_with;
use std::alloc::Global;
use std::test::Fail;
use test_support::fixtures::{MESSAGE, part, plaintext};

// Appends a part of a file's plaintext. Whether it succeeds, or, where a text is given, is refused with this text.
fn appends(
    alloc: Global,
    file: &[u8],
    place: u64,
    count: u64,
    got: &mut Vec<u8>,
    refusal: Option<&str>,
) -> bool {
    is_answered(
        alloc,
        at_with(alloc, With::Bench, place, count, &mut Bytes::new(file), got),
        refusal,
    )
}

/// Whether a part of a file's plaintext is these bytes.
pub fn is_given(alloc: Global, file: &[u8], place: u64, count: u64, expected: &[u8]) -> bool {
    let mut got = Vec::new(alloc);
    appends(alloc, file, place, count, &mut got, None) && got.as_slice() == expected
}

/// Whether a part of a file's plaintext is refused with this text, and nothing is given.
pub fn no_part_is_given(alloc: Global, file: &[u8], place: u64, count: u64, text: &str) -> bool {
    let mut got = Vec::new(alloc);
    appends(alloc, file, place, count, &mut got, Some(text)) && got.is_empty()
}

// Whether a part is refused since it begins past the end of a file's plaintext, and nothing is given.
fn is_past_end(alloc: Global, file: &[u8], place: u64, count: u64) -> bool {
    no_part_is_given(alloc, file, place, count, "cannot seek past the end")
}

// Whether a file has these parts of the message.
fn has_parts_of_message(alloc: Global, file: &[u8]) -> bool {
    is_given(alloc, file, 5, 3, b"is ")
        && is_given(alloc, file, 30, 10, b"sting.")
        && is_given(alloc, file, 36, 1, b"")
        && is_given(alloc, file, 7, 0, b"")
        && is_given(alloc, file, 0, u64::MAX, MESSAGE)
}

// Whether these parts of the message's file are past its end.
fn has_no_parts_past_end(alloc: Global, file: &[u8]) -> bool {
    is_past_end(alloc, file, 37, 1)
        && is_past_end(alloc, file, 37, 0)
        && is_past_end(alloc, file, u64::MAX, u64::MAX)
}

// Whether the message's file in this form has its parts, and no other.
fn has_its_parts(alloc: Global, format: Format) -> Result<bool, Fail> {
    let file = commands_file(alloc, MESSAGE, format)?;
    Ok(has_parts_of_message(alloc, &file) && has_no_parts_past_end(alloc, &file))
}

#[test]
fn a_message_has_its_parts(rt: HostRuntime) -> Result<(), Fail> {
    assert!(rt; has_its_parts(rt.alloc(), Format::Binary)?);
    assert!(rt; has_its_parts(rt.alloc(), Format::AsciiArmor)?);
    Ok(())
}

// Whether the part of a file's plaintext is that of these bytes, as far as they reach.
fn is_part_of(alloc: Global, file: &[u8], plain: &[u8], place: usize, count: usize) -> bool {
    let expected = part(plain, place, place.saturating_add(count));
    is_given(alloc, file, place as u64, count as u64, expected)
}

// Where a part begins, and how many bytes it has at most.
const PARTS: [(usize, usize); 5] = [
    (65_530, 12),
    (65_536, 1),
    (131_071, 2),
    (1, 262_145),
    (399_999, 9),
];

// Whether a file has these parts of its plaintext.
fn has_parts(alloc: Global, file: &[u8], plain: &[u8]) -> bool {
    for (place, count) in PARTS {
        if !is_part_of(alloc, file, plain, place, count) {
            return false;
        }
    }
    true
}

// Whether the file of a plaintext in this form has them.
fn has_parts_in(alloc: Global, plain: &[u8], format: Format) -> Result<bool, Fail> {
    Ok(has_parts(alloc, &commands_file(alloc, plain, format)?, plain))
}

// Across the end of a chunk, and of a piece that is read at once.
#[test]
fn parts_go_over_the_ends_of_chunks(rt: HostRuntime) -> Result<(), Fail> {
    let alloc = rt.alloc();
    let plain = plaintext(alloc, 400_000)?;
    assert!(rt; has_parts_in(alloc, &plain, Format::Binary)?);
    assert!(rt; has_parts_in(alloc, &plain, Format::AsciiArmor)?);
    Ok(())
}

// Changes a bit of the second chunk of a file whose plaintext has 200,000 bytes. Whether there is one.
fn harm_second_chunk(file: &mut [u8]) -> bool {
    let start = file.len().saturating_sub(200_064);
    let Some(byte) = file.get_mut(start.saturating_add(65_552)) else {
        return false;
    };
    *byte ^= 1;
    true
}

// Whether a part that begins six bytes before the second chunk is these bytes, and then a bad chunk.
fn ends_with_first_chunk(alloc: Global, file: &[u8], expected: Option<&[u8]>) -> bool {
    let mut got = Vec::new(alloc);
    appends(alloc, file, 65_530, 20, &mut got, Some("decryption error"))
        && Some(got.as_slice()) == expected
}

// The file of a plaintext of 200,000 bytes, whose second chunk is bad.
fn with_bad_chunk(alloc: Global, plain: &[u8]) -> Result<Vec<u8>, Fail> {
    let mut file = commands_file(alloc, plain, Format::Binary)?;
    if !harm_second_chunk(&mut file) {
        return Err(Fail::from("no chunk"));
    }
    Ok(file)
}

// Whether the bad chunk ends a part after the bytes of the first, and a part behind it is given.
fn is_met_where_it_stands(alloc: Global, plain: &[u8]) -> Result<bool, Fail> {
    let file = with_bad_chunk(alloc, plain)?;
    Ok(
        ends_with_first_chunk(alloc, &file, plain.get(65_530..65_536))
            && is_part_of(alloc, &file, plain, 131_072, 8),
    )
}

// A chunk that is bad ends the part after the bytes of the chunks before it, and chunks that aren't asked for aren't looked at.
#[test]
fn a_bad_chunk_is_met_where_it_stands(rt: HostRuntime) -> Result<(), Fail> {
    let alloc = rt.alloc();
    assert!(rt; is_met_where_it_stands(alloc, &plaintext(alloc, 200_000)?)?);
    Ok(())
}
