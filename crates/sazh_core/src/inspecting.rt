//! What a file shows without a key.
ghost use Rattle.std.specs.Prelude.{◌≡◌, ◌+◌, ◌<◌, ◌≤◌};
ghost use Rattle.sazh_core.specs.Inspecting.{AreLengths, Inspects, InspectsText};
ghost use Rattle.sazh_core.specs.Placing.{inner_of};

use crate::counting::{Counting, Placed};
use crate::error::InspectionError;
use age::armor::ArmoredReader;
use age::format::{HeaderV1, keeps_scrypt_rule};
use age::io::{BufReader, Read, copy_all};
use std::alloc::Global;

/// The lengths of what follows a file's header, which is a nonce of 16 bytes and the payload's chunks (age-encryption.org/v1, section
/// "Payload").
#[derive(Clone, Copy, Debug, PartialEq, Eq)]
pub struct Lengths {
    /// How many bytes the chunks have.
    pub payload: u64,
    /// How many chunks there are, one or more.
    pub chunks: u64,
    /// How many bytes the plaintext has, 16 fewer for each chunk.
    pub plaintext: u64,
}

/// What a file shows without a key. That the header's MAC is right, and that the chunks open, isn't looked at.
#[derive(Drop)]
pub struct Inspection {
    /// The header's stanzas and its MAC.
    pub header: HeaderV1,
    /// How many bytes the header has, from the version's line to the LF of the MAC's.
    pub header_length: u64,
    /// Whether a stanza with the tag `scrypt` is the only one. A file is refused without that.
    pub keeps_rule: bool,
    /// How many bytes follow the header.
    pub rest_length: u64,
    /// The lengths of these. `None` where no file has so many bytes there: fewer than 16 of the nonce, or a last chunk with fewer bytes than a
    /// tag has, or with no more though it isn't the only one.
    pub lengths: Option<Lengths>,
}

// How many bytes precede the chunks.
const NONCE: u64 = 16;

// How many bytes a chunk's tag has.
const TAG: u64 = 16;

// How many bytes a chunk has but for the last, with its tag.
const CHUNK: u64 = 65_552;

// How many bytes the last chunk has at least that so many precede.
fn least_last(before: u64) -> u64
    ensures tag { 16 ≤ result }
    ensures first { before ≡ 0 → result ≡ 16 }
    ensures later { 0 < before → result ≡ 17 }
{
    if before == 0 { TAG } else { TAG + 1 }
}

// The lengths of chunks of so many bytes.
fn lengths_of_payload(payload: u64) -> Option<Lengths>
    ensures { AreLengths (16 + payload) result }
{
    // No empty chunk follows a full one, and a payload of no bytes has none before its last either.
    let before = payload.saturating_sub(1) / CHUNK;
    let last = payload - CHUNK * before;
    if last < least_last(before) {
        return None;
    }
    Some(Lengths {
        payload,
        chunks: before + 1,
        plaintext: payload - TAG * (before + 1),
    })
}

// The lengths of so many bytes that follow a header.
fn lengths_of(rest: u64) -> Option<Lengths>
    ensures { AreLengths rest result }
{
    match rest.checked_sub(NONCE) {
        None => None,
        Some(payload) => lengths_of_payload(payload),
    }
}

// Looks at what this one reads.
fn inspect_text<T: Read>(alloc: Global, text: &mut Placed<T>) -> Result<Inspection, InspectionError>
    ensures { T.place (inner_of text.old) ≡ 0 → InspectsText ⟦<T as Read>⟧ (inner_of text.old) result }
{
    let header = match HeaderV1::read(alloc, text) {
        Ok(header) => header,
        Err(why) => return Err(InspectionError::Header {
            count: text.count(),
            why,
        }),
    };
    let header_length = text.count();
    let mut rest = Counting::new();
    match copy_all(alloc, text, &mut rest) {
        Err(why) => Err(InspectionError::Rest {
            count: text.count(),
            why,
        }),
        Ok(()) => Ok(Inspection {
            keeps_rule: keeps_scrypt_rule(header.stanzas()),
            header,
            header_length,
            rest_length: rest.count(),
            lengths: lengths_of(rest.count()),
        }),
    }
}

/// Reads a file to its end, bare or in armor, and tells what it shows without a key. It keeps the header alone, and counts what follows.
///
/// A success says that the input ended well, and carried exactly the header that is told and so many bytes after it.
///
/// # Errors
///
/// - `Header`: what the text carries doesn't begin as a file does, as `HeaderV1::read` refuses it, and how many bytes were read then: the last
///   of them is the first that no header has there. Where the input broke off it is `Io`.
/// - `Rest`: the header is good, and the input refused after so many bytes, with a fault of its armor, its device or its length. It is `TooLong`
///   where 2^64 bytes or more follow the header, and `OutOfMemory` where memory for reading them was refused.
/// - `OutOfMemory`: memory for reading armor was refused. Nothing was read.
pub fn inspect<R: Read + Drop>(alloc: Global, reader: R) -> Result<Inspection, InspectionError>
    ensures { Inspects ⟦<R as Read>⟧ ⟦<ArmoredReader<BufReader<R>> as Read>⟧ reader result }
{
    let text = match ArmoredReader::new(alloc, reader) {
        Err(_) => return Err(InspectionError::OutOfMemory),
        Ok(text) => text,
    };
    let mut text = Placed::new(text);
    inspect_text(alloc, &mut text)
}
