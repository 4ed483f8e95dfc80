//! Reading (BIP 173, "Bech32").
ghost use Rattle.std.specs.Prelude.{MatchOption, MatchResult, string_bytes};
ghost use Rattle.age_bech32.specs.Bech32.{IsBech32, IsPayload};
ghost use Rattle.age_bech32.specs.Groups.{bytes_of_groups};
ghost use Rattle.age_bech32.specs.Refusals.{IsNoBech32, IsNoPayload, IsOfOtherSize, IsRefusalOfText};
ghost use Rattle.age_bech32.specs.Symbols.{AreSymbols, values_of};

use crate::checksum::{remainder_of_prefix, remainder_of_symbols};
use crate::error::Bech32Error;
use crate::groups::{are_groups, byte_count, bytes_into};
use crate::prefix::{is_prefix, last_separator};
use crate::symbols::is_one_case;
use std::alloc::Global;

const CHECK: usize = 6;

// The remainder of values with their check.
const CLOSED: u32 = 1;

/// The symbols of the groups in what follows the separator, where their check is right and they have bytes.
fn groups_in<'a>(prefix: &[u8], rest: &'a [u8]) -> Option<&'a [u8]>
    ensures { MatchOption result (IsNoPayload prefix.now rest.now)
        (λ groups. AreSymbols groups.now × IsPayload prefix.now rest.now (bytes_of_groups (values_of groups.now))) }
{
    let Some(sum) = remainder_of_symbols(remainder_of_prefix(prefix), rest) else {
        return None;
    };
    if sum != CLOSED {
        return None;
    }
    if rest.len() < CHECK {
        return None;
    }
    let (groups, _) = rest.split_at(rest.len() - CHECK);
    if !are_groups(groups) {
        return None;
    }
    Some(groups)
}

/// The prefix of a text, and the symbols of its groups.
fn parts_of(text: &str) -> Option<(&str, &[u8])>
    ensures { MatchOption result (IsNoBech32 text.now)
        (λ parts. AreSymbols parts.1.now × IsBech32 text.now parts.0.now (bytes_of_groups (values_of parts.1.now))) }
{
    let bytes = text.as_bytes();
    let Some(separator) = last_separator(bytes) else {
        return None;
    };
    let prefix = &text[..separator];
    if !is_prefix(prefix.as_bytes()) {
        return None;
    }
    if !is_one_case(bytes) {
        return None;
    }
    match groups_in(prefix.as_bytes(), &bytes[separator + 1..]) {
        Some(groups) => Some((prefix, groups)),
        None => None,
    }
}

/// Reads Bech32 of any length (BIP 173, "Bech32"): the prefix as it is written, and the bytes.
///
/// # Errors
///
/// - `Invalid`: the text is none. It lacks a separator, its prefix isn't 1 to 83 bytes of 33 to 126, it has letters of both
///   cases, a symbol is none, the check is wrong, or unused bits at the end are more than four or not zero.
/// - `OutOfMemory`: the text is Bech32, and memory was refused for its prefix or its bytes.
pub fn decode(alloc: Global, text: &str) -> Result<(String, Vec<u8>), Bech32Error>
    ensures { MatchResult result (λ read. IsBech32 text.now (string_bytes read.0) read.1.items) (λ e. IsRefusalOfText e text.now) }
{
    let Some((prefix, symbols)) = parts_of(text) else {
        return Err(Bech32Error::Invalid);
    };
    let mut data = vec![in alloc; 0; byte_count(symbols.len())]?;
    bytes_into(symbols, &mut data);
    Ok((String::from_str(alloc, prefix)?, data))
}

/// Reads Bech32 of any length (BIP 173, "Bech32") into an array: the prefix as it is written, and the bytes where they are
/// `N`, else `None` in their place. It takes no memory. `None` for the whole where the text is no Bech32: it lacks a separator,
/// its prefix isn't 1 to 83 bytes of 33 to 126, it has letters of both cases, a symbol is none, the check is wrong, or unused
/// bits at the end are more than four or not zero.
pub fn decode_array<const N: usize>(text: &str) -> Option<(&str, Option<[u8; N]>)>
    ensures { MatchOption result (IsNoBech32 text.now)
        (λ read. MatchOption read.1 (IsOfOtherSize N text.now read.0.now) (λ bytes. IsBech32 text.now read.0.now bytes)) }
{
    let Some((prefix, symbols)) = parts_of(text) else {
        return None;
    };
    if byte_count(symbols.len()) != N {
        return Some((prefix, None));
    }
    let mut data = [0; N];
    bytes_into(symbols, &mut data);
    Some((prefix, Some(data)))
}
