//! Bytes and groups of five bits (BIP 173, "Segwit address format").
ghost use Rattle.std.specs.Prelude.{◌≡◌, ◌+◌, ◌*◌, ◌/◌, ◌%◌, ◌^◌, ◌<◌, ◌≤◌, MatchBool, length, slice_set};
ghost use Rattle.age_bech32.specs.Groups.{IsRegrouped, byte_count, bytes_of_groups, group_count, groups_of_bytes};
ghost use Rattle.age_bech32.specs.Refusals.{AreNoGroups};
ghost use Rattle.age_bech32.specs.Symbols.{AreSymbols, values_of};

use crate::symbols::known_value;

/// The bits held, and those of a digit below them.
fn joined(held: u32, digit: u8, bits: u32) -> u32
    requires held { held < 2 ^ 8 }
    requires bits { bits ≤ 8 }
    requires digit { digit < 2 ^ bits }
    ensures { result ≡ held * 2 ^ bits + digit }
{
    held << bits | u32::from(digit)
}

/// So many of the bits held, the last ones.
fn last_bits(held: u32, count: u32) -> u32
    requires { count < 32 }
    ensures { result ≡ held % 2 ^ count }
{
    held & ((1 << count) - 1)
}

/// How many groups of five bits so many bytes have, the last filled.
pub fn group_count(bytes: usize) -> usize
    requires { bytes < 2 ^ 63 }
    ensures { result ≡ group_count bytes }
{
    // Eight times the bytes may not fit.
    bytes / 5 * 8 + (bytes % 5 * 8 + 4) / 5
}

/// Writes what stands above so many of the bits held, and gives those that are left.
fn give(places: &mut [u8], at: usize, held: u32, count: u32) -> u32
    requires at { at < length places.old }
    requires count { count < 32 }
    requires fits { held / 2 ^ count < 2 ^ 8 }
    ensures places { places.new ≡ slice_set places.old at (held / 2 ^ count) }
    ensures rest { result ≡ held % 2 ^ count }
{
    places[at] = (held >> count) as u8;
    last_bits(held, count)
}

/// Writes the groups of five bits of bytes, the last filled with zeros.
pub fn groups_into(bytes: &[u8], groups: &mut [u8])
    requires { length groups.old ≡ group_count (length bytes.now) }
    ensures { groups.new ≡ groups_of_bytes bytes.now }
{
    let mut held = 0u32;
    let mut count = 0u32;
    let mut at = 0;
    for byte in bytes {
        // Eight bits more, of which the first group takes five.
        count += 3;
        held = give(groups, at, joined(held, *byte, 8), count);
        at += 1;
        if count >= 5 {
            count -= 5;
            held = give(groups, at, held, count);
            at += 1;
        }
    }
    if count > 0 {
        groups[at] = (held << (5 - count)) as u8;
    }
}

/// How many bytes so many groups of five bits have.
pub fn byte_count(groups: usize) -> usize
    requires { groups < 2 ^ 63 }
    ensures { result ≡ byte_count groups }
{
    // Five times the groups may not fit.
    groups / 8 * 5 + groups % 8 * 5 / 8
}

/// Writes the bytes of groups, which are read off their symbols.
pub fn bytes_into(symbols: &[u8], bytes: &mut [u8])
    requires symbols { AreSymbols symbols.now }
    requires room { length bytes.old ≡ byte_count (length symbols.now) }
    ensures { bytes.new ≡ bytes_of_groups (values_of symbols.now) }
{
    let mut held = 0u32;
    let mut count = 0u32;
    let mut at = 0;
    for symbol in symbols {
        held = joined(held, known_value(*symbol), 5);
        count += 5;
        if count >= 8 {
            count -= 8;
            held = give(bytes, at, held, count);
            at += 1;
        }
    }
}

/// Whether groups have bytes: at most four bits at the end are unused, and these are zero.
pub fn are_groups(symbols: &[u8]) -> bool
    requires { AreSymbols symbols.now }
    ensures { let groups = values_of symbols.now in MatchBool result (IsRegrouped (bytes_of_groups groups) groups) (AreNoGroups groups) }
{
    let unused = (symbols.len() % 8 * 5 % 8) as u32;
    if unused > 4 {
        return false;
    }
    if symbols.is_empty() {
        return true;
    }
    let last = known_value(symbols[symbols.len() - 1]);
    last_bits(u32::from(last), unused) == 0
}
