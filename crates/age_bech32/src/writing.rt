//! Writing (BIP 173, "Bech32").
ghost use Rattle.std.specs.Prelude.{◌≡◌, ◌+◌, ◌^◌, ◌<◌, ◌≤◌, All, IfOk, MatchBool, MatchResult, SomeIff, length, string_bytes};
ghost use Rattle.age_bech32.specs.Bech32.{IsBech32, IsInCaseOf};
ghost use Rattle.age_bech32.specs.Refusals.{IsRefusalOfPrefix, MayBeWritten};
ghost use Rattle.age_bech32.specs.Groups.{group_count};
ghost use Rattle.age_bech32.specs.Written.{bech32_text, values_of_bytes};

use crate::checksum::check_of;
use crate::error::Bech32Error;
use crate::groups::{group_count, groups_into};
use crate::prefix::is_prefix;
use crate::symbols::{has_upper, is_one_case, push_symbols, write_symbols};
use std::alloc::Global;

const CHECK: usize = 6;

/// Whether this is a prefix in one case.
fn may_be_written(prefix: &[u8]) -> bool
    ensures { MatchBool result (MayBeWritten prefix.now) (MayBeWritten prefix.now → ⊥) }
{
    if !is_prefix(prefix) {
        return false;
    }
    is_one_case(prefix)
}

/// How many bytes the text of a prefix and bytes has.
fn text_size(prefix: &[u8], bytes: &[u8]) -> usize
    requires { length prefix.now ≤ 83 }
    ensures { result ≡ length prefix.now + 1 + (group_count (length bytes.now) + 6) }
{
    prefix.len() + 1 + (group_count(bytes.len()) + CHECK)
}

/// Writes the groups of bytes, and then the check of a prefix and these.
fn values_into(prefix: &[u8], bytes: &[u8], values: &mut [u8])
    requires { length values.old ≡ group_count (length bytes.now) + 6 }
    ensures values { values.new ≡ values_of_bytes prefix.now bytes.now }
    ensures fives { All (λ value. value < 2 ^ 5) values.new }
{
    let count = values.len() - CHECK;
    let (groups, check) = values.split_at_mut(count);
    groups_into(bytes, groups);
    check.copy_from_slice(&check_of(prefix, groups));
}

/// Writes the text of a prefix and bytes, in the prefix's case.
#[tactic(auto, using(crate::proofs::Written::text_parts))]
fn text_into(prefix: &[u8], bytes: &[u8], text: &mut [u8])
    requires { length text.old ≡ length prefix.now + 1 + (group_count (length bytes.now) + 6) }
    ensures { text.new ≡ bech32_text prefix.now bytes.now }
{
    let (front, rest) = text.split_at_mut(prefix.len());
    front.copy_from_slice(prefix);
    let (separator, values) = rest.split_at_mut(1);
    separator.copy_from_slice(b"1");
    values_into(prefix, bytes, values);
    write_symbols(values, has_upper(prefix));
}

/// Writes a prefix and bytes as Bech32 of any length (BIP 173, "Bech32") into an array, in the prefix's case, and in lower case
/// where it has no letter. It takes no memory. `None` where the prefix isn't 1 to 83 bytes of 33 to 126, or has letters of both
/// cases, or where the text isn't `N` bytes long.
#[tactic(auto, using(crate::proofs::Written::length_text))]
pub fn encode_array<const N: usize>(prefix: &str, data: &[u8]) -> Option<[u8; N]>
    ensures { let text = bech32_text prefix.now «data».now in SomeIff result (MayBeWritten prefix.now × (length text ≡ N)) text }
{
    let bytes = prefix.as_bytes();
    if !may_be_written(bytes) {
        return None;
    }
    if text_size(bytes, data) != N {
        return None;
    }
    let mut text = [0; N];
    text_into(bytes, data, &mut text);
    Some(text)
}

/// Writes a prefix and bytes as Bech32 of any length (BIP 173, "Bech32"), in the prefix's case, and in lower case where it has
/// no letter.
///
/// # Errors
///
/// - `Invalid`: the prefix isn't 1 to 83 bytes of 33 to 126, or has letters of both cases.
/// - `OutOfMemory`: the prefix may be written, and memory was refused.
pub fn encode(alloc: Global, prefix: &str, data: &[u8]) -> Result<String, Bech32Error>
    ensures text { MatchResult result (λ text. string_bytes text ≡ bech32_text prefix.now «data».now) (λ e. IsRefusalOfPrefix e prefix.now) }
    ensures reads { IfOk result (λ text. IsBech32 (string_bytes text) prefix.now «data».now × IsInCaseOf prefix.now (string_bytes text)) }
{
    let bytes = prefix.as_bytes();
    if !may_be_written(bytes) {
        return Err(Bech32Error::Invalid);
    }
    let mut values = vec![in alloc; 0; group_count(data.len()) + CHECK]?;
    values_into(bytes, data, &mut values);
    let upper = has_upper(bytes);
    let mut text = String::from_str(alloc, prefix)?;
    text.push('1')?;
    push_symbols(&mut text, &values, upper)?;
    Ok(text)
}
