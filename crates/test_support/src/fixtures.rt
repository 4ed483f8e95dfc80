//! What tests share.

use age_armor::{ArmoredWriter, Format};
pub use age_devices::bytes::{part, plaintext};
use age_error::io::Error;
use age_format::Stanza;
use age_io::write_all;
use age_suite::draw::Draw;
use age_suite::mac::hmac;
use std::alloc::{AllocError, Global};
use std::test::Fail;

/// The payload key: the bytes 0, 1, .., 31.
pub const KEY: [u8; 32] = [
    0, 1, 2, 3, 4, 5, 6, 7, 8, 9, 10, 11, 12, 13, 14, 15, 16, 17, 18, 19, 20, 21, 22, 23, 24, 25,
    26, 27, 28, 29, 30, 31,
];

/// The first 8 bytes of the HMAC of some bytes under an empty key.
pub fn digest(bytes: &[u8]) -> u64 {
    let [a, b, c, d, e, f, g, h, ..] = hmac(&[], bytes);
    u64::from_be_bytes([a, b, c, d, e, f, g, h])
}

/// A plaintext of 36 bytes.
pub const MESSAGE: &[u8] = b"This is a test message. For testing.";

// The file of the message to `bench`, where each random byte is 0 and the grease stanza is `x-grease`: the header's text
// has 115 bytes, and the nonce of 16 zeros follows it.
const HEADER: &[u8] =
    b"age-encryption.org/v1\n-> bench\nAAAAAAAAAAAAAAAAAAAAAA\n-> x-grease\n\n--- V7seaDdC75BAsSxvbcxwXtSW8y5Dt7T/GP+foqDPt34\n";

/// The payload of the message in that file.
pub const SEALED: [u8; 52] = [
    0x7e, 0x60, 0xc4, 0xf6, 0xdc, 0x6b, 0xb7, 0x0a, 0x70, 0xec, 0xd9, 0x1b, 0xed, 0x19, 0xc0, 0x3e,
    0xc4, 0x43, 0xfd, 0x85, 0x51, 0xa4, 0xb1, 0x14, 0x91, 0xf1, 0x08, 0xba, 0x92, 0x6e, 0x5c, 0x1a,
    0x43, 0x66, 0xca, 0xab, 0x68, 0x3d, 0x25, 0xf3, 0xed, 0xed, 0x42, 0xa2, 0xc3, 0x2f, 0x4f, 0xec,
    0xd1, 0x6c, 0xd1, 0x12,
];

/// The message's file, and these bytes after it.
pub fn message_file(alloc: Global, more: &[u8]) -> Result<Vec<u8>, AllocError> {
    let mut file = Vec::from_slice(alloc, HEADER)?;
    file.extend_from_slice(&[0; 16])?;
    file.extend_from_slice(&SEALED)?;
    file.extend_from_slice(more)?;
    Ok(file)
}

/// So many random bytes, all of them 0.
pub fn zeros(alloc: Global, count: usize) -> Result<Draw, AllocError> {
    Ok(Draw::new(vec![in alloc; 0; count]?))
}

/// A stanza without arguments and body.
pub fn empty_stanza(alloc: Global, tag: &str) -> Result<Option<Stanza>, AllocError> {
    let tag = String::from_str(alloc, tag)?;
    Ok(Stanza::new(tag, Vec::new(alloc), Vec::new(alloc)))
}

/// The armor of some bytes, written in one piece.
pub fn armored(alloc: Global, bytes: &[u8]) -> Result<Vec<u8>, Error> {
    let mut writer = ArmoredWriter::wrap_output(alloc, Vec::new(alloc), Format::AsciiArmor)?;
    write_all(&mut writer, bytes)?;
    writer.finish()
}

/// A text with CRLF in place of LF after its first line or not, after its second or not, and so on in turn, and three
/// spaces after it.
pub fn with_endings(alloc: Global, text: &[u8], crlf: [bool; 2]) -> Result<Vec<u8>, AllocError> {
    let mut changed = Vec::new(alloc);
    let [mut this, mut next] = crlf;
    for byte in text {
        if *byte == b'\n' {
            if this {
                changed.push(b'\r')?;
            }
            (this, next) = (next, this);
        }
        changed.push(*byte)?;
    }
    changed.extend_from_slice(b"   ")?;
    Ok(changed)
}

/// Texts that carry some bytes: their armor with LF, with CRLF and with both, and white space after it.
pub fn armored_texts(alloc: Global, bytes: &[u8]) -> Result<Vec<Vec<u8>>, Fail> {
    let text = armored(alloc, bytes)?;
    let mut texts = Vec::new(alloc);
    for crlf in [[false, false], [true, true], [true, false]] {
        texts.push(with_endings(alloc, &text, crlf)?)?;
    }
    Ok(texts)
}
