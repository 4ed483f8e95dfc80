//! Names of plugins.
ghost use Rattle.std.specs.Prelude.{◌≡◌, ◌≢◌, ◌++◌, [], ◌∷◌, ℕ, List, true, false, MatchOption};
ghost use Rattle.std.specs.List.{list_all};
ghost use Rattle.age_bech32.specs.Bech32.{IsBech32};
ghost use Rattle.age_bech32.specs.Refusals.{IsNoBech32};
ghost use Rattle.age_keys.specs.PluginKeys.{is_name, is_name_byte, IsWithoutHyphens};

use age_bech32::decode_array;

// Whether a byte may stand in a name.
fn is_name_byte(byte: u8) -> bool
    ensures { result ≡ is_name_byte byte }
{
    byte.is_ascii_alphanumeric() || matches!(byte, b'+' | b'-' | b'.' | b'_')
}

// Whether each byte may.
fn are_name_bytes(bytes: &[u8]) -> bool
    ensures { result ≡ list_all is_name_byte bytes.now }
{
    bytes.iter().all(|byte| is_name_byte(*byte))
}

// Whether bytes are a name.
fn is_name(bytes: &[u8]) -> bool
    ensures { result ≡ is_name bytes.now }
{
    !bytes.is_empty() && are_name_bytes(bytes)
}

/// The prefix of a text, whatever its bytes are. It takes no memory.
pub(crate) fn prefix_of(text: &str) -> Option<&str>
    ensures { MatchOption result (IsNoBech32 text.now) (λ prefix. (bytes : List ℕ) × IsBech32 text.now prefix.now bytes) }
{
    let (prefix, _) = decode_array::<0>(text)?;
    Some(prefix)
}

/// What follows the front of a prefix, if the prefix begins with it.
pub(crate) fn after_front<'a>(prefix: &'a [u8], front: &[u8]) -> Option<&'a [u8]>
    ensures { MatchOption result ((rest : List ℕ) → prefix.now ≢ front.now ++ rest) (λ rest. prefix.now ≡ front.now ++ rest.now) }
{
    prefix.strip_prefix(front)
}

/// The name that bytes are, or `None` where they are none: one or more ASCII letters, digits, `+`, `-`, `.` and `_`.
pub(crate) fn name_in(bytes: &[u8]) -> Option<&str>
    ensures { MatchOption result (is_name bytes.now ≡ false) (λ name. (name.now ≡ bytes.now) × (is_name bytes.now ≡ true)) }
{
    if !is_name(bytes) {
        return None;
    }
    match str::from_utf8(bytes) {
        Ok(name) => Some(name),
        Err(_) => unreachable!(),
    }
}

// What stands before the hyphen at the end, if there is one.
fn before_hyphen(bytes: &[u8]) -> Option<&[u8]>
    ensures { MatchOption result ((before : List ℕ) → bytes.now ≢ before ++ 45 ∷ []) (λ before. bytes.now ≡ before.now ++ 45 ∷ []) }
{
    let (last, before) = bytes.split_last()?;
    if *last == b'-' { Some(before) } else { None }
}

/// What stands between the front of a prefix and a hyphen at its end, if the prefix is of that form.
pub(crate) fn between<'a>(prefix: &'a [u8], front: &[u8]) -> Option<&'a [u8]>
    ensures { MatchOption result ((before : List ℕ) → prefix.now ≢ front.now ++ before ++ 45 ∷ [])
        (λ before. prefix.now ≡ front.now ++ before.now ++ 45 ∷ []) }
{
    let rest = after_front(prefix, front)?;
    before_hyphen(rest)
}

/// Bytes without the hyphens at their end.
pub(crate) fn without_hyphens(bytes: &[u8]) -> &[u8]
    ensures { IsWithoutHyphens bytes.now result.now }
{
    let mut front = bytes;
    while let Some(before) = before_hyphen(front) {
        front = before;
    }
    front
}
