//! The front of a file that is to be opened, which is looked at before its header is kept: one that has no end is refused.

use crate::failure::{Failure, Shown, told};
use age::armor::ArmoredReader;
use age::io::{Bytes, Read};
use std::io;

// How a header begins, whatever its version, and how its last line does (age-encryption.org/v1, "Header").
const FORMAT: &[u8] = b"age-encryption.org/";

const LAST_LINE: &[u8] = b"---";

// How many bytes are looked at first. No content is written before as many were read, or the input's end.
const FIRST: u64 = 65_536;

// How many times that is doubled.
const TURNS: u32 = 48;

// A front in armor has fewer bytes than twice those that it carries, but for its marker.
const MARKER: u64 = 4_096;

// What a front shows of a header.
#[derive(Clone, Copy, PartialEq, Eq)]
enum Found {
    // It ends, or there is none: whoever reads it says so.
    Ended,
    // It goes on.
    Open,
    // It is longer than it may be.
    TooLong,
}

// A header so far.
#[derive(Clone, Copy)]
struct Header {
    // How many bytes it has.
    count: u64,
    // How many bytes its line has, and whether they are those of the last one.
    column: usize,
    is_last: bool,
}

impl Header {
    // Nothing.
    fn new() -> Header {
        Header {
            count: 0,
            column: 0,
            is_last: true,
        }
    }

    // With one byte more. `None` where this ends it.
    fn with(self, byte: u8) -> Option<Header> {
        if byte == b'\n' {
            if self.is_last && self.column >= LAST_LINE.len() {
                return None;
            }
            return Some(Header {
                count: self.count.saturating_add(1),
                column: 0,
                is_last: true,
            });
        }
        let fits = match LAST_LINE.get(self.column) {
            Some(wanted) => *wanted == byte,
            None => true,
        };
        Some(Header {
            count: self.count.saturating_add(1),
            column: self.column.saturating_add(1),
            is_last: self.is_last && fits,
        })
    }

    // Whether this byte, which comes next, is none of a header.
    fn refuses(self, byte: u8) -> bool {
        match usize::try_from(self.count) {
            Ok(count) => match FORMAT.get(count) {
                Some(wanted) => *wanted != byte,
                None => false,
            },
            Err(_) => false,
        }
    }

    // With these bytes more, of which it may have so many in all.
    fn with_all(self, bytes: &[u8], limit: u64) -> Result<Header, Found> {
        let mut header = self;
        for byte in bytes {
            if header.refuses(*byte) {
                return Err(Found::Ended);
            }
            if header.count >= limit {
                return Err(Found::TooLong);
            }
            match header.with(*byte) {
                None => return Err(Found::Ended),
                Some(more) => header = more,
            }
        }
        Ok(header)
    }
}

// What a front, bare or in armor, shows of a header that may have so many bytes.
fn header_in(rt: &HostRuntime, front: &[u8], limit: u64) -> Result<Found, Failure> {
    let mut text = match ArmoredReader::new(rt.alloc(), Bytes::new(front)) {
        Err(_) => return Err(Failure::OutOfMemory),
        Ok(text) => text,
    };
    let mut header = Header::new();
    let mut room = [0; 4096];
    for _ in 0..u64::MAX {
        let count = match text.read(&mut room) {
            Ok(count) => count,
            Err(_) => return Ok(Found::Open),
        };
        let read = match room.get(..count) {
            Some(read) if count > 0 => read,
            _ => return Ok(Found::Open),
        };
        match header.with_all(read, limit) {
            Err(found) => return Ok(found),
            Ok(more) => header = more,
        }
    }
    Ok(Found::Open)
}

/// A reader of which the front may have been looked at.
#[derive(Drop)]
pub struct Fronted<R> {
    inner: R,
    front: Vec<u8>,
    place: usize,
}

impl<R: io::Read + Drop> Fronted<R> {
    /// This one, at which nobody has looked.
    pub fn new(rt: &HostRuntime, inner: R) -> Fronted<R> {
        Fronted {
            inner,
            front: Vec::new(rt.alloc()),
            place: 0,
        }
    }

    /// The reader.
    pub fn into_inner(self) -> R {
        let Fronted { inner, .. } = self;
        inner
    }

    /// What was looked at.
    pub fn front(&self) -> &[u8] {
        &self.front
    }

    // Reads until there are so many bytes. `false` where it ends before.
    fn fill(&mut self, size: u64) -> Result<bool, Failure> {
        let mut room = [0; 4096];
        for _ in 0..u64::MAX {
            if self.front.len() as u64 >= size {
                return Ok(true);
            }
            let count = match self.inner.read(&mut room) {
                Ok(count) => count,
                Err(error) if error.kind() == io::ErrorKind::Interrupted => continue,
                // (who watches the reader knows why)
                Err(_) => return Err(Failure::Unread),
            };
            match room.get(..count) {
                Some(read) if count > 0 => self.front.extend_from_slice(read)?,
                _ => return Ok(false),
            }
        }
        Ok(false)
    }

    /// Looks at the front of what has this name, until its header ends, and keeps it to be read. Refused where a header has more bytes than
    /// it may, bare or in armor.
    pub fn look(&mut self, rt: &HostRuntime, name: &str, limit: u64) -> Result<(), Failure> {
        let most = limit.saturating_mul(2).saturating_add(MARKER);
        let mut size = FIRST;
        for _ in 0..TURNS {
            let has_more = self.fill(size)?;
            match header_in(rt, &self.front, limit)? {
                Found::Ended => return Ok(()),
                Found::TooLong => return Err(too_long(rt, name, limit)),
                Found::Open if !has_more => return Ok(()),
                Found::Open if size > most => return Err(too_long(rt, name, limit)),
                Found::Open => size = size.saturating_mul(2),
            }
        }
        Err(too_long(rt, name, limit))
    }
}

// That a header is too long.
fn too_long(rt: &HostRuntime, name: &str, limit: u64) -> Failure {
    let name = Shown(name);
    told(format!(in rt.alloc();
        "{name}: its header doesn't end within {limit} bytes: --header-limit BYTES takes a longer one"
    ))
}

impl<R: io::Read> io::Read for Fronted<R> {
    fn read(&mut self, buf: &mut [u8]) -> io::Result<usize> {
        let mut left = match self.front.get(self.place..) {
            Some(left) if !left.is_empty() => left,
            _ => return self.inner.read(buf),
        };
        match io::Read::read(&mut left, buf) {
            Ok(count) => {
                self.place = self.place.saturating_add(count);
                Ok(count)
            }
            Err(error) => Err(error),
        }
    }
}
