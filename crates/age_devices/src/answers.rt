//! What a call answered, as a `bool` or a text. Whoever asks holds no error, whose parts are many, beside other values: so a test
//! is proved in a fraction of the time.

use age_error::io::Error;
use age_io::{Read, read_to_end};
use std::alloc::Global;
use std::fmt::Display;

/// Whether it is a refusal with this text.
pub fn is_refusal<T: Drop, E: Display + Drop>(
    alloc: Global,
    answer: Result<T, E>,
    text: &str,
) -> bool {
    match answer {
        Ok(_) => false,
        Err(error) => error.to_string(alloc).is_ok_and(|it| it.as_str() == text),
    }
}

/// The text of a refusal; `None` of a success, and where memory for it is refused.
pub fn refusal_of<T: Drop, E: Display + Drop>(
    alloc: Global,
    answer: Result<T, E>,
) -> Option<String> {
    match answer {
        Ok(_) => None,
        Err(error) => error.to_string(alloc).ok(),
    }
}

/// Whether it is a success with these bytes.
pub fn gives<E: Drop>(answer: Result<Vec<u8>, E>, bytes: &[u8]) -> bool {
    match answer {
        Ok(got) => got.as_slice() == bytes,
        Err(_) => false,
    }
}

/// Whether a reader stands at its clean end.
pub fn ends<R: Read>(reader: &mut R) -> bool {
    reader.read(&mut [0]) == Ok(0)
}

/// Whether the next read refuses so.
pub fn read_refuses<R: Read>(reader: &mut R, error: Error) -> bool {
    reader.read(&mut [0]) == Err(error)
}

/// Whether a reader still has these bytes and a clean end after them.
pub fn delivers<R: Read>(alloc: Global, reader: &mut R, bytes: &[u8]) -> bool {
    let mut got = Vec::new(alloc);
    read_to_end(alloc, reader, &mut got) == Ok(bytes.len()) && got.as_slice() == bytes
}

/// Whether a reader still has these bytes and then refuses so.
pub fn delivers_until<R: Read>(alloc: Global, reader: &mut R, bytes: &[u8], error: Error) -> bool {
    let mut got = Vec::new(alloc);
    read_to_end(alloc, reader, &mut got) == Err(error) && got.as_slice() == bytes
}
