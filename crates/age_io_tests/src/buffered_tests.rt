//! Readers that show what they hold, and the reader with a buffer.

use crate::fixtures::{Device, buffered, fills, gives, long_text, refuses, source};
use age_devices::Step;
use age_devices::answers::delivers;
use age_error::io::{Error, ErrorKind};
use age_io::{BufRead, BufReader, Bytes, Read};
use std::alloc::Global;
use std::test::Fail;

// More bytes than a buffer holds.
const LONG: usize = 20_000;

// Whether the rest, read by reads into this room, is this text.
fn gives_in_pieces<R: Read>(reader: &mut R, room: &mut [u8], text: &[u8]) -> bool {
    let mut rest = text;
    for _piece in 0..LONG + 1 {
        match reader.read(room) {
            Ok(0) => return rest.is_empty(),
            Ok(count) => match rest.strip_prefix(&room[..count]) {
                Some(later) => rest = later,
                None => return false,
            },
            Err(_) => return false,
        }
    }
    false
}

// Whether the rest, taken as it is shown, at most `most` bytes at a time, is this text.
fn shows_in_pieces<R: BufRead>(reader: &mut R, most: usize, text: &[u8]) -> bool {
    let mut rest = text;
    for _piece in 0..LONG + 1 {
        let Ok(front) = reader.fill_buf() else {
            return false;
        };
        if front.is_empty() {
            return rest.is_empty();
        }
        let amount = front.len().min(most);
        let Some(later) = rest.strip_prefix(&front[..amount]) else {
            return false;
        };
        rest = later;
        reader.consume(amount);
    }
    false
}

// Whether it shows these bytes.
fn shows<R: BufRead>(reader: &mut R, expected: &[u8]) -> bool {
    match reader.fill_buf() {
        Ok(front) => front == expected,
        Err(_) => false,
    }
}

// Whether it refuses to show so.
fn shows_nothing<R: BufRead>(reader: &mut R, expected: Error) -> bool {
    match reader.fill_buf() {
        Ok(_) => false,
        Err(error) => error == expected,
    }
}

// Whether a reader gives a text by reads into this room, and then nothing.
fn gives_all<R: Read>(reader: &mut R, room: &mut [u8], text: &[u8]) -> bool {
    gives_in_pieces(reader, room, text)
        && gives(reader, &mut [0; 4], 0)
        && gives(reader, &mut [], 0)
}

// Whether one with a buffer gives it, by reads of `size` bytes.
fn buffered_gives_all(alloc: Global, size: usize, text: &[u8]) -> Result<bool, Fail> {
    let mut reader = buffered(alloc, Bytes::new(text))?;
    let mut room = vec![in alloc; 0; size]?;
    Ok(gives_all(&mut reader, &mut room, text))
}

#[test]
fn buffered_reader_gives_all(rt: HostRuntime) -> Result<(), Fail> {
    let text = long_text(rt.alloc(), LONG)?;
    for size in [1, 65, 8_191, 8_192, 8_193, LONG + 1] {
        assert!(rt; buffered_gives_all(rt.alloc(), size, &text)?, "by {size}");
    }
    Ok(())
}

// Whether a reader shows a text, of which at most `most` bytes are taken at a time, and then nothing.
fn shows_all<R: BufRead>(reader: &mut R, most: usize, text: &[u8]) -> bool {
    shows_in_pieces(reader, most, text) && shows(reader, &[])
}

// Whether one with a buffer shows it.
fn buffered_shows_all(alloc: Global, most: usize, text: &[u8]) -> Result<bool, Fail> {
    Ok(shows_all(&mut buffered(alloc, Bytes::new(text))?, most, text))
}

#[test]
fn buffered_reader_shows_all(rt: HostRuntime) -> Result<(), Fail> {
    let text = long_text(rt.alloc(), LONG)?;
    for most in [1, 65, 8_192] {
        assert!(rt; buffered_shows_all(rt.alloc(), most, &text)?, "by {most}");
    }
    assert!(rt; shows_all(&mut Bytes::new(&text), 3_000, &text));
    Ok(())
}

// Whether a reader of the bytes `a text` shows them until they are taken, and what isn't taken yet then.
fn shows_the_rest<R: BufRead>(reader: &mut R) -> bool {
    let mut room = [0; 2];
    shows(reader, b"a text")
        && shows(reader, b"a text")
        && gives(reader, &mut room, 2)
        && room == *b"a "
        && shows(reader, b"text")
}

// Whether it goes on there, after nothing was taken.
fn goes_on<R: BufRead>(reader: &mut R) -> bool {
    reader.consume(0);
    let mut room = [0; 2];
    fills(reader, &mut room) && room == *b"te" && shows(reader, b"xt")
}

#[test]
fn what_is_shown_stays_until_it_is_taken(rt: HostRuntime) -> Result<(), Fail> {
    let mut reader = buffered(rt.alloc(), Bytes::new(b"a text"))?;
    assert!(rt; shows_the_rest(&mut reader));
    assert!(rt; goes_on(&mut reader));
    Ok(())
}

// Whether a reader with a buffer over this one shows these bytes, gives them, and ends.
fn begins_with(alloc: Global, inner: &mut Bytes, bytes: &[u8]) -> Result<bool, Fail> {
    let mut reader = buffered(alloc, inner)?;
    Ok(shows(&mut reader, bytes) && delivers(alloc, &mut reader, bytes))
}

// The reader below begins in the middle of its text, and what it was lent for is seen after.
#[test]
fn buffered_reader_begins_where_the_inner_one_stands(rt: HostRuntime) -> Result<(), Fail> {
    let mut inner = Bytes::new(b"a text and more");
    assert!(rt; gives(&mut inner, &mut [0; 2], 2));
    assert!(rt; begins_with(rt.alloc(), &mut inner, b"text and more")?);
    assert!(rt; shows(&mut inner, &[]));
    Ok(())
}

// A reader with a buffer over a device of these steps and of the bytes `a text`, of which it gives two at a time.
fn over_device<'a>(alloc: Global, steps: &'a [Step]) -> Result<BufReader<Device<'a>>, Fail> {
    buffered(alloc, source(steps, 2, b"a text"))
}

// Whether it shows the first two bytes.
fn shows_two(alloc: Global, steps: &[Step]) -> Result<bool, Fail> {
    Ok(shows(&mut over_device(alloc, steps)?, b"a "))
}

// Whether it gives two bytes into a room that is larger than its buffer.
fn gives_two(alloc: Global, steps: &[Step]) -> Result<bool, Fail> {
    Ok(gives(&mut over_device(alloc, steps)?, &mut [0; 9_000], 2))
}

#[test]
fn buffered_reader_tries_again_sixteen_times(rt: HostRuntime) -> Result<(), Fail> {
    let steps = [Step::Fail(ErrorKind::Interrupted); 16];
    assert!(rt; shows_two(rt.alloc(), &steps)?);
    assert!(rt; gives_two(rt.alloc(), &steps)?);
    Ok(())
}

// Whether a reader that is asked to show refuses so, and then for good.
fn fails_as_it_shows<R: BufRead>(reader: &mut R) -> bool {
    shows_nothing(reader, Error::Device(ErrorKind::Other))
        && shows_nothing(reader, Error::Failed)
        && refuses(reader, &mut [], Error::Failed)
}

// Whether one over a device of these steps does.
fn device_fails_as_it_shows(alloc: Global, steps: &[Step]) -> Result<bool, Fail> {
    Ok(fails_as_it_shows(&mut over_device(alloc, steps)?))
}

// Whether a reader that is read into this room refuses so, and then for good.
fn fails_as_it_reads<R: BufRead>(reader: &mut R, room: &mut [u8]) -> bool {
    refuses(reader, room, Error::Device(ErrorKind::PermissionDenied))
        && refuses(reader, room, Error::Failed)
        && shows_nothing(reader, Error::Failed)
}

// A device that fails in its first call.
const DENIED: [Step; 1] = [Step::Fail(ErrorKind::PermissionDenied)];

// Whether one over that device does.
fn device_fails_as_it_reads(alloc: Global, room: &mut [u8]) -> Result<bool, Fail> {
    Ok(fails_as_it_reads(&mut over_device(alloc, &DENIED)?, room))
}

#[test]
fn buffered_reader_fails_for_good(rt: HostRuntime) -> Result<(), Fail> {
    let steps = [Step::Fail(ErrorKind::Interrupted); 17];
    assert!(rt; device_fails_as_it_shows(rt.alloc(), &steps)?);
    assert!(rt; device_fails_as_it_reads(rt.alloc(), &mut [0; 2])?);
    assert!(rt; device_fails_as_it_reads(rt.alloc(), &mut [0; 9_000])?);
    Ok(())
}
