//! The payload of a file, told by the file's front alone.
ghost use Rattle.std.specs.Prelude.{◌≡◌, ◌+◌, length, MatchOption, MatchResult, Option, Result};
ghost use Rattle.age.specs.DecryptErrors.{decrypt_refusal};
ghost use Rattle.age.specs.Identities.{AnswersFirst};
ghost use Rattle.age.specs.Header.{header_text};
ghost use Rattle.age.specs.Unwrapping.{unwrap_answer};
ghost use Rattle.age.specs.Types.{DecryptError as decrypt_error};
ghost use Rattle.age_slices.specs.Decrypting.{AreIdentities, RefusesIdentityText};
ghost use Rattle.age_slices.specs.Opening.{BeginsWith, HandsOutPayload, IsNoFront, IsTooShort, OpensHeader, OpensHeaderBy};
ghost use Rattle.age_slices.specs.Status;
ghost use Rattle.age_slices.specs.declared.opening.PayloadAt.{PayloadAt as payload_at};

use crate::decrypting::identities_of;
use crate::handing::{hand_out, refuse};
use crate::status::{NEED_MORE, of_decrypt};
use age::format::laws::{canonical_text_reads_back, verdict_is_unique};
use age::format::{HeaderV1, Stanza, keeps_scrypt_rule};
use age::io::{Bytes, Read, Seek, SeekFrom};
use age::mac::hkdf;
use age::secrecy::FileKey;
use age::suite::Suite;
use age::suite::laws::known_array;
use age::{DecryptError, Identity, x25519};
use std::alloc::Global;

/// Where the payload of a file begins, counted in bytes of the file, and its key: age-encryption.org/v1, "Payload".
#[derive(Drop)]
pub struct PayloadAt {
    pub key: [u8; 32],
    pub place: usize,
}

// A header, its nonce, and where these end.
#[derive(Drop)]
struct Front {
    header: HeaderV1,
    nonce: [u8; 16],
    end: usize,
}

// The header and the nonce at the front of a file, or none where more of it is needed.
fn front_of(alloc: Global, front: &[u8]) -> Result<Option<Front>, DecryptError>
    ensures { MatchResult result (λ found. MatchOption found (IsTooShort front.now)
        (λ it. BeginsWith it.header it.nonce front.now × (it.end ≡ length (header_text it.header.stanzas it.header.mac) + 16)))
        (λ e. IsNoFront front.now (decrypt_refusal e)) }
{
    let mut reader = Bytes::new(front);
    let header = match HeaderV1::read(alloc, &mut reader) {
        Ok(header) => header,
        // (a slice refuses where it ends, and nowhere else)
        Err(DecryptError::Io(_)) => return Ok(None),
        Err(error) => return Err(error),
    };
    let mut nonce = [0; 16];
    match reader.read(&mut nonce) {
        Ok(16) => (),
        _ => return Ok(None),
    }
    if !keeps_scrypt_rule(header.stanzas()) {
        return Err(DecryptError::InvalidHeader);
    }
    // For the proof alone: these are bytes, each below 256.
    known_array(&nonce);
    match reader.seek(SeekFrom::Current(0)) {
        Ok(end) => Ok(Some(Front {
            header,
            nonce,
            end: end as usize,
        })),
        Err(_) => unreachable!(),
    }
}

// The answer of the first identity whose answer isn't `None`; those after it aren't asked.
fn first_answer<I: Identity>(
    alloc: Global,
    identities: &mut [I],
    stanzas: &[Stanza],
) -> Option<Result<FileKey, DecryptError>>
    ensures { AnswersFirst I.unwraps identities.old identities.new stanzas.now (unwrap_answer result) }
{
    for identity in identities.iter_mut() {
        if let Some(answer) = identity.unwrap_stanzas(alloc, stanzas) {
            return Some(answer);
        }
    }
    None
}

/// The key of the payload and where it begins, told by the front of a bare file: as many of its first bytes as there are so far. `None` where more of
/// the file is needed, that is where the front ends before the header and the nonce of 16 bytes after it do.
///
/// A front that ends there or later tells the same, and no identity is asked before. The first identity whose answer isn't `None` decides.
///
/// # Errors
///
/// - `UnknownFormat`, `InvalidHeader`: as `HeaderV1::read`, at the byte from which on no header follows, so of a file in armor `InvalidHeader` at
///   its first byte; or `InvalidHeader` where a stanza with the tag `scrypt` stands beside another.
/// - `NoMatchingKeys`: none of the identities answers; or what the first refuses with that answers.
/// - `InvalidMac`: the header's MAC isn't the one under the file key.
/// - `OutOfMemory`: memory was refused.
pub fn open_header_by<I: Identity>(
    alloc: Global,
    identities: &mut [I],
    front: &[u8],
) -> Result<Option<PayloadAt>, DecryptError>
    ensures { OpensHeader I.unwraps identities.old identities.new front.now result }
{
    // A fact for the proof alone.
    verdict_is_unique();
    canonical_text_reads_back();
    let found = match front_of(alloc, front) {
        Ok(None) => return Ok(None),
        Ok(Some(found)) => found,
        Err(error) => return Err(error),
    };
    match first_answer(alloc, identities, found.header.stanzas()) {
        None => Err(DecryptError::NoMatchingKeys),
        Some(Err(error)) => Err(error),
        Some(Ok(file_key)) => {
            if !found.header.verify_mac(&file_key) {
                return Err(DecryptError::InvalidMac);
            }
            Ok(Some(PayloadAt {
                key: hkdf(&found.nonce, b"payload", file_key.expose_secret()),
                place: found.end,
            }))
        }
    }
}

/// The key of the payload and where it begins, by the first of the identities in `text` that answers, as `open_header_by` tells them.
///
/// # Errors
///
/// - Those of `identities_of`, whatever the front is, and those of `open_header_by`.
pub fn open_header<S: Suite>(
    alloc: Global,
    text: &[u8],
    front: &[u8],
) -> Result<Option<PayloadAt>, DecryptError>
    ensures { OpensHeaderBy ⟦<x25519::Identity<S> as Identity>⟧.unwraps (RefusesIdentityText text.now) (AreIdentities text.now) front.now result }
{
    match identities_of::<S>(alloc, text) {
        Err(error) => Err(error),
        Ok(keys) => {
            let mut keys = keys;
            open_header_by::<x25519::Identity<S>>(alloc, &mut keys, front)
        }
    }
}

/// Hands out what was told of a payload: its key at the front of `out`, in `written` the 32 bytes of it, and the place where the payload begins, or a
/// number above 0: 1 where `out` has fewer than 32 bytes, and the place is told, 2 where more of the file is needed, or that of a refusal. But where
/// it succeeds `out` stays as it was.
pub fn hand_out_payload(
    answer: Result<Option<PayloadAt>, DecryptError>,
    out: &mut [u8],
    written: &mut usize,
    place: &mut usize,
) -> u32
    ensures { HandsOutPayload Status.of_decrypt answer out.old out.new written.new place.new result }
{
    match answer {
        Ok(Some(found)) => {
            *place = found.place;
            hand_out(&found.key, out, written)
        }
        Ok(None) => {
            *place = 0;
            refuse(NEED_MORE, written)
        }
        Err(error) => {
            *place = 0;
            refuse(of_decrypt(&error), written)
        }
    }
}

/// Hands out what `open_header` tells, as `hand_out_payload` does.
pub fn open_header_out<S: Suite>(
    alloc: Global,
    text: &[u8],
    front: &[u8],
    out: &mut [u8],
    written: &mut usize,
    place: &mut usize,
) -> u32
    ensures { (answer : Result (Option payload_at) decrypt_error)
        × OpensHeaderBy ⟦<x25519::Identity<S> as Identity>⟧.unwraps (RefusesIdentityText text.now) (AreIdentities text.now) front.now answer
        × HandsOutPayload Status.of_decrypt answer out.old out.new written.new place.new result }
{
    hand_out_payload(open_header::<S>(alloc, text, front), out, written, place)
}
