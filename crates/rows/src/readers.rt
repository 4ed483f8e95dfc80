//! Calls on readers.

use crate::lines::{Digest, say};
use age::io::{Error, Read, Seek, SeekFrom, read_exact};

/// Reads until the room is full. Whether memory was refused.
pub fn read<R: Read>(rt: &HostRuntime, of: &str, reader: &mut R, room: &mut [u8]) -> bool {
    match read_exact(reader, room) {
        Ok(()) => {
            say(rt, of, "read", &Digest(room));
            false
        }
        Err(error) => {
            say(rt, of, "read", &error);
            error == Error::OutOfMemory
        }
    }
}

/// Seeks. Whether memory was refused.
pub fn seek<R: Seek>(rt: &HostRuntime, of: &str, reader: &mut R, to: SeekFrom) -> bool {
    match reader.seek(to) {
        Ok(place) => {
            say(rt, of, "seek", &place);
            false
        }
        Err(error) => {
            say(rt, of, "seek", &error);
            error == Error::OutOfMemory
        }
    }
}

/// What a reader answers that was refused memory: to reads, one of them into no room, and to all once a seek succeeded.
pub fn look<R: Seek>(rt: &HostRuntime, of: &str, reader: &mut R, to: SeekFrom, room: &mut [u8]) {
    read(rt, of, reader, room);
    match reader.read(&mut []) {
        Ok(count) => say(rt, of, "empty read", &count),
        Err(error) => say(rt, of, "empty read", &error),
    }
    seek(rt, of, reader, to);
    read(rt, of, reader, room);
}
