//! The remainder of the check (BIP 173, "Checksum").
ghost use Rattle.std.specs.Prelude.{◌≡◌, ◌<◌, ◌/◌, ◌%◌, ◌^◌, All, MatchOption, length, map};
ghost use Rattle.age_bech32.specs.Symbols.{AreSymbols, lowered, values_of};
ghost use Rattle.age_bech32.specs.Remainder.{expanded, generated, remainder, remainder_after, step};
ghost use Rattle.age_bech32.specs.Written.{check_values};

use crate::symbols::value_of;

/// The sum of the generators that the top five bits of a remainder choose.
fn generated(top: u32) -> u32
    requires { top < 2 ^ 5 }
    ensures value { result ≡ generated top }
    ensures bound { result < 2 ^ 30 }
{
    (top & 1) * 0x3b6a_57b2
        ^ (top >> 1 & 1) * 0x2650_8e6d
        ^ (top >> 2 & 1) * 0x1ea1_19fa
        ^ (top >> 3 & 1) * 0x3d42_33dd
        ^ (top >> 4 & 1) * 0x2a14_62b3
}

/// The remainder with one value more.
fn step(sum: u32, value: u8) -> u32
    requires sum { sum < 2 ^ 30 }
    requires value { value < 2 ^ 5 }
    ensures value { result ≡ step sum value }
    ensures bound { result < 2 ^ 30 }
{
    (sum & 0x01ff_ffff) << 5 ^ u32::from(value) ^ generated(sum >> 25)
}

/// The remainder after values, from that before them.
fn remainder_of_values(start: u32, values: &[u8]) -> u32
    requires start { start < 2 ^ 30 }
    requires values { All (λ value. value < 2 ^ 5) values.now }
    ensures value { result ≡ remainder_after start values.now }
    ensures bound { result < 2 ^ 30 }
{
    let mut sum = start;
    for value in values {
        sum = step(sum, *value);
    }
    sum
}

/// The remainder after the high three bits of each byte of a prefix in lower case.
fn remainder_of_high_bits(start: u32, prefix: &[u8]) -> u32
    requires { start < 2 ^ 30 }
    ensures value { result ≡ remainder_after start (map (λ byte. byte / 2 ^ 5) (lowered prefix.now)) }
    ensures bound { result < 2 ^ 30 }
{
    let mut sum = start;
    for byte in prefix {
        sum = step(sum, byte.to_ascii_lowercase() >> 5);
    }
    sum
}

/// The remainder after the low five bits of each byte of a prefix in lower case.
fn remainder_of_low_bits(start: u32, prefix: &[u8]) -> u32
    requires { start < 2 ^ 30 }
    ensures value { result ≡ remainder_after start (map (λ byte. byte % 2 ^ 5) (lowered prefix.now)) }
    ensures bound { result < 2 ^ 30 }
{
    let mut sum = start;
    for byte in prefix {
        sum = step(sum, byte.to_ascii_lowercase() & 31);
    }
    sum
}

/// The remainder of a prefix.
pub fn remainder_of_prefix(prefix: &[u8]) -> u32
    ensures value { result ≡ remainder (expanded prefix.now) }
    ensures bound { result < 2 ^ 30 }
{
    let sum = step(remainder_of_high_bits(1, prefix), 0);
    remainder_of_low_bits(sum, prefix)
}

/// The remainder after the values of symbols, where each byte is one.
pub fn remainder_of_symbols(start: u32, symbols: &[u8]) -> Option<u32>
    requires { start < 2 ^ 30 }
    ensures { MatchOption result (AreSymbols symbols.now → ⊥)
        (λ sum. AreSymbols symbols.now × (sum ≡ remainder_after start (values_of symbols.now))) }
{
    let mut sum = start;
    for symbol in symbols {
        match value_of(*symbol) {
            Some(value) => sum = step(sum, value),
            None => return None,
        }
    }
    Some(sum)
}

/// The six values of the check of a prefix and values.
pub fn check_of(prefix: &[u8], values: &[u8]) -> [u8; 6]
    requires { All (λ value. value < 2 ^ 5) values.now }
    ensures values { All (λ value. value < 2 ^ 5) result }
    ensures six { length result ≡ 6 }
    ensures check { result ≡ check_values prefix.now values.now }
{
    let sum = remainder_of_values(remainder_of_prefix(prefix), values);
    let sum = remainder_of_values(sum, &[0; 6]) ^ 1;
    [
        (sum >> 25) as u8,
        (sum >> 20 & 31) as u8,
        (sum >> 15 & 31) as u8,
        (sum >> 10 & 31) as u8,
        (sum >> 5 & 31) as u8,
        (sum & 31) as u8,
    ]
}
