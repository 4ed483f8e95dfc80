//! The symbols and the case of letters (BIP 173, "Bech32").
ghost use Rattle.std.specs.Prelude.{◌≡◌, ◌<◌, ◌≤◌, ◌^◌, ◌++◌, map, MatchBool, MatchOption, OnOk, string_bytes, All};
ghost use Rattle.age_bech32.specs.Symbols.{IsOneCase, has_lower, has_upper, symbol, symbol_in, value_of};

use std::alloc::AllocError;

const SYMBOLS: &[u8; 32] = b"qpzry9x8gf2tvdw0s3jn54khce6mua7l";

/// Whether a letter is in upper case.
pub fn has_upper(text: &[u8]) -> bool
    ensures { result ≡ has_upper text.now }
{
    text.iter().any(|byte| byte.is_ascii_uppercase())
}

/// Whether a letter is in lower case.
fn has_lower(text: &[u8]) -> bool
    ensures { result ≡ has_lower text.now }
{
    text.iter().any(|byte| byte.is_ascii_lowercase())
}

/// Whether not both cases stand in one text.
pub fn is_one_case(text: &[u8]) -> bool
    ensures { MatchBool result (IsOneCase text.now) (IsOneCase text.now → ⊥) }
{
    if has_upper(text) {
        return !has_lower(text);
    }
    true
}

/// The symbol of a value, in lower case.
fn symbol_of(value: u8) -> u8
    requires { value < 2 ^ 5 }
    ensures { result ≡ symbol value }
{
    SYMBOLS[usize::from(value)]
}

/// The symbol of a value, in upper case where asked.
fn symbol_in(value: u8, upper: bool) -> u8
    requires { value < 2 ^ 5 }
    ensures symbol { result ≡ symbol_in upper value }
    ensures ascii { result < 128 }
{
    let symbol = symbol_of(value);
    if upper {
        return symbol.to_ascii_uppercase();
    }
    symbol
}

/// The value of a symbol in either case, where it is one.
pub fn value_of(byte: u8) -> Option<u8>
    ensures { MatchOption result (2 ^ 5 ≤ value_of byte) (λ value. (value < 2 ^ 5) × (value ≡ value_of byte)) }
{
    let lower = byte.to_ascii_lowercase();
    for value in 0..32 {
        if SYMBOLS[usize::from(value)] == lower {
            return Some(value);
        }
    }
    None
}

/// The value of what is known to be a symbol.
pub fn known_value(symbol: u8) -> u8
    requires { value_of symbol < 2 ^ 5 }
    ensures { result ≡ value_of symbol }
{
    match value_of(symbol) {
        Some(value) => value,
        None => unreachable!(),
    }
}

/// Exchanges each value for its symbol, in upper case where asked.
pub fn write_symbols(values: &mut [u8], upper: bool)
    requires { All (λ value. value < 2 ^ 5) values.old }
    ensures { values.new ≡ map (symbol_in upper) values.old }
{
    for value in values.iter_mut() {
        *value = symbol_in(*value, upper);
    }
}

/// Writes the symbols of values after a text, in upper case where asked.
pub fn push_symbols(text: &mut String, values: &[u8], upper: bool) -> Result<(), AllocError>
    requires { All (λ value. value < 2 ^ 5) values.now }
    ensures { OnOk result (string_bytes text.new ≡ string_bytes text.old ++ map (symbol_in upper) values.now) }
{
    for value in values {
        text.push(char::from(symbol_in(*value, upper)))?;
    }
    Ok(())
}
