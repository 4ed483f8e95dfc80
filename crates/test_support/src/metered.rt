//! A reader of std that counts what it is asked for. `Std` makes a reader of this port of it.

use std::cell::Cell;
use std::io;
use std::io::{ErrorKind, Read, Seek, SeekFrom};

/// How often a device was asked, reads and seeks together, and how many bytes its reads gave.
#[derive(Drop)]
pub struct Asked {
    pub calls: Cell<u64>,
    pub bytes: Cell<u64>,
}

impl Asked {
    /// Of a device that wasn't asked yet.
    pub fn none() -> Asked {
        Asked {
            calls: Cell::new(0),
            bytes: Cell::new(0),
        }
    }

    // One call more, which gave so many bytes.
    fn count(&self, bytes: usize) {
        self.calls.set(self.calls.get().saturating_add(1));
        self.bytes
            .set(self.bytes.get().saturating_add(bytes as u64));
    }
}

/// Gives bytes from its place on, seeks in them, and counts what it is asked for.
#[derive(Drop)]
pub struct Metered<'a> {
    pub bytes: &'a [u8],
    pub place: u64,
    pub asked: &'a Asked,
}

impl<'a> Read for Metered<'a> {
    fn read(&mut self, buf: &mut [u8]) -> io::Result<usize> {
        let start = (self.place as usize).min(self.bytes.len());
        let mut rest = &self.bytes[start..];
        let count = rest.read(buf)?;
        self.place = self.place.saturating_add(count as u64);
        self.asked.count(count);
        Ok(count)
    }
}

impl<'a> Seek for Metered<'a> {
    fn seek(&mut self, to: SeekFrom) -> io::Result<u64> {
        self.asked.count(0);
        let target = match to {
            SeekFrom::Start(place) => Some(place),
            SeekFrom::End(distance) => (self.bytes.len() as u64).checked_add_signed(distance),
            SeekFrom::Current(distance) => self.place.checked_add_signed(distance),
        };
        let Some(target) = target else {
            return Err(io::Error::from(ErrorKind::InvalidInput));
        };
        self.place = target;
        Ok(target)
    }
}
