//! The parts of a header's lines.

ghost use Rattle.std.specs.Prelude.{◌≡◌, ◌≢◌, ◌++◌, [], ◌<◌, ◌==◌, ℕ, List, map, IfOk, MatchOption, string_bytes};
ghost use Rattle.std.specs.List.{AllByRecursion, join_with_byte, slice_split};
ghost use Rattle.age_error.specs.Bytes.{AreBytesOf};
ghost use Rattle.age_v1.specs.Stanza.{IsString, StanzaValue, IsStanza, first_line};
ghost use Rattle.age_v1.specs.Header.{mac_line};

use crate::stanza::{Stanza, is_string};
use age_base64::decode_columns;
use std::alloc::{AllocError, Global};

/// What follows the prefix, if the text begins with it.
pub(crate) fn after_prefix<'a>(text: &'a [u8], prefix: &[u8]) -> Option<&'a [u8]>
    ensures { MatchOption result
        ((rest : List ℕ) → text.now ≢ prefix.now ++ rest)
        (λ rest. text.now ≡ prefix.now ++ rest.now) }
{
    text.strip_prefix(prefix)
}

/// The MAC that a header's last line tells, if it is such a line.
pub(crate) fn parse_mac_line(alloc: Global, text: &[u8]) -> Result<Option<[u8; 32]>, AllocError>
    ensures { IfOk result (λ found. MatchOption found
        ((mac : List ℕ) → AreBytesOf 32 mac → mac_line mac ≡ text.now → ⊥)
        (λ mac. AreBytesOf 32 mac × (mac_line mac ≡ text.now))) }
{
    let Some(rest) = after_prefix(text, b"--- ") else {
        return Ok(None);
    };
    let Some(bytes) = decode_columns(alloc, rest)? else {
        return Ok(None);
    };
    if bytes.len() != 32 {
        return Ok(None);
    }
    let mut mac = [0; 32];
    mac.copy_from_slice(bytes.as_slice());
    Ok(Some(mac))
}

/// The parts between the spaces.
fn parts_of(alloc: Global, text: &[u8]) -> Result<Vec<&[u8]>, AllocError>
    ensures { IfOk result (λ v. map (λ x. x.now) v.items ≡ slice_split (λ b. b == 32) text.now) }
{
    text.split(|b| *b == b' ').collect(alloc)
}

/// The strings that stand in the text with one space between two, if it is such a text.
fn words_of(alloc: Global, text: &[u8]) -> Result<Option<Vec<String>>, AllocError>
    ensures { IfOk result (λ found. MatchOption found
        ((words : List (List ℕ)) → words ≢ [] → AllByRecursion IsString words → join_with_byte 32 words ≡ text.now → ⊥)
        (λ v. (map (λ a. string_bytes a) v.items ≢ [])
        × AllByRecursion IsString (map (λ a. string_bytes a) v.items)
        × (join_with_byte 32 (map (λ a. string_bytes a) v.items) ≡ text.now))) }
{
    let parts = parts_of(alloc, text)?;
    let mut words = Vec::new(alloc);
    for part in &parts {
        let part: &[u8] = part;
        let Ok(word) = str::from_utf8(part) else {
            return Ok(None);
        };
        if !is_string(word) {
            return Ok(None);
        }
        words.push(String::from_str(alloc, word)?)?;
    }
    Ok(Some(words))
}

/// The stanza of a first line and an empty body, if it is such a line.
pub(crate) fn parse_first_line(alloc: Global, text: &[u8]) -> Result<Option<Stanza>, AllocError>
    ensures { IfOk result (λ found. MatchOption found
        ((s : StanzaValue) → IsStanza s → first_line s ≡ text.now → ⊥)
        (λ s. IsStanza s × (s.body ≡ []) × (first_line s ≡ text.now))) }
{
    let Some(rest) = after_prefix(text, b"-> ") else {
        return Ok(None);
    };
    let Some(mut words) = words_of(alloc, rest)? else {
        return Ok(None);
    };
    // `words_of` gives one at least.
    let tag = words.remove(0);
    // A list that grew has room to spare, which a header of many stanzas would keep many times.
    words.shrink_to_fit();
    let Some(stanza) = Stanza::new(tag, words, Vec::new(alloc)) else {
        // The words are strings of the format.
        unreachable!();
    };
    Ok(Some(stanza))
}
