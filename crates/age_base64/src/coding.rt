//! The base64 of headers: of stanzas' bodies, of their arguments and of MACs (age-encryption.org/v1, section "Header").
ghost use Rattle.std.specs.Prelude.{◌≡◌, ◌≤◌, ℕ, true, false, List, length, IfOk, OnErr, MatchOption, string_bytes};
ghost use Rattle.age_error.specs.Bytes.{AreBytes};
ghost use Rattle.age_base64.specs.Base64.{columns, AreColumns};
ghost use Rattle.age_base64.specs.Engine.{IsHeaderEngine};

use crate::engine::header_engine;
use age_error::bytes::known_bytes;
use base64::DecodeAllocError;
use base64::engine::general_purpose::GeneralPurpose;
use std::alloc::{AllocError, Global};

// How many columns are judged at once: those of 48 bytes, so that each piece stands for itself.
const PIECE: usize = 64;

/// The base64 of bytes, canonical and without padding. `AllocError` where memory is refused.
pub fn encode_columns(alloc: Global, bytes: &[u8]) -> Result<String, AllocError>
    ensures { IfOk result (λ text. string_bytes text ≡ columns bytes.now) }
{
    header_engine().encode(alloc, bytes)
}

/// The bytes that the columns stand for, or `None` where they aren't canonical base64 without padding. `AllocError` where
/// memory is refused. It is asked for after they were judged, so it is never the answer of others (`memory`).
pub fn decode_columns(alloc: Global, text: &[u8]) -> Result<Option<Vec<u8>>, AllocError>
    ensures found { IfOk result (λ found. MatchOption found
        ((bytes : List ℕ) → AreBytes bytes → columns bytes ≡ text.now → ⊥)
        (λ v. AreBytes v.items × (columns v.items ≡ text.now))) }
    ensures memory { OnErr result (AreColumns text.now) }
{
    let engine = header_engine();
    if !are_columns(&engine, text) {
        return Ok(None);
    }
    match engine.decode(alloc, text) {
        Ok(bytes) => Ok(Some(bytes)),
        Err(DecodeAllocError::OutOfMemory) => Err(AllocError),
        // Judged above.
        Err(DecodeAllocError::DecodeError(_)) => unreachable!(),
    }
}

/// Whether the text is columns, judged a piece at a time, without memory.
fn are_columns(engine: &GeneralPurpose, text: &[u8]) -> bool
    requires engine { IsHeaderEngine engine.now }
    ensures is { result ≡ true → AreColumns text.now }
    ensures not { result ≡ false → AreColumns text.now → ⊥ }
{
    let mut rest = text;
    while rest.len() > PIECE {
        let (piece, more) = rest.split_at(PIECE);
        if !is_piece(engine, piece) {
            return false;
        }
        rest = more;
    }
    is_piece(engine, rest)
}

/// Whether a text of one piece at most is columns.
fn is_piece(engine: &GeneralPurpose, piece: &[u8]) -> bool
    requires engine { IsHeaderEngine engine.now }
    requires short { length piece.now ≤ 64 }
    ensures is { result ≡ true → AreColumns piece.now }
    ensures not { result ≡ false → AreColumns piece.now → ⊥ }
{
    let mut bytes = [0; 48];
    match engine.decode_slice_unchecked(piece, &mut bytes) {
        Ok(_) => {
            // For the proof alone: these are bytes, each below 256.
            known_bytes(&bytes);
            true
        }
        Err(_) => false,
    }
}
