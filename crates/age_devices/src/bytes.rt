//! Bytes for tests.

use std::alloc::{AllocError, Global};

/// The bytes 0, 1, .., 250 again and again, so many in all. Where memory for them is refused the answer is `AllocError`.
pub fn plaintext(alloc: Global, length: usize) -> Result<Vec<u8>, AllocError> {
    let mut plain = Vec::with_capacity(alloc, length)?;
    for i in 0..length {
        plain.push((i % 251) as u8)?;
    }
    Ok(plain)
}

/// The bytes from one place to another, as far as they are there.
pub fn part(bytes: &[u8], from: usize, to: usize) -> &[u8] {
    let end = to.min(bytes.len());
    let start = from.min(end);
    &bytes[start..end]
}
