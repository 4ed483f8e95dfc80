//! Prefixes and the separator (BIP 173, "Bech32").
ghost use Rattle.std.specs.Prelude.{◌≡◌, ◌≢◌, ◌+◌, ◌<◌, MatchBool, MatchOption, length, slice_index};
ghost use Rattle.std.specs.List.{AllWithin};
ghost use Rattle.age_bech32.specs.Bech32.{IsPrefix};

const MOST_BYTES: usize = 83;

/// Whether this is a prefix: 1 to 83 bytes, each 33 to 126.
pub fn is_prefix(bytes: &[u8]) -> bool
    ensures { MatchBool result (IsPrefix bytes.now) (IsPrefix bytes.now → ⊥) }
{
    if bytes.is_empty() || bytes.len() > MOST_BYTES {
        return false;
    }
    for byte in bytes {
        if *byte < 33 || *byte > 126 {
            return false;
        }
    }
    true
}

/// Where the last `1` stands.
pub fn last_separator(text: &[u8]) -> Option<usize>
    ensures { MatchOption result (AllWithin (λ byte. byte ≢ 49) text.now 0 (length text.now))
        (λ i. (i < length text.now) × (slice_index text.now i ≡ 49) × AllWithin (λ byte. byte ≢ 49) text.now (i + 1) (length text.now)) }
{
    for i in (0..text.len()).rev() {
        if text[i] == b'1' {
            return Some(i);
        }
    }
    None
}
