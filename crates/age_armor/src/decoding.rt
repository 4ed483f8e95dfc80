//! Decoding the columns of a line.
ghost use Rattle.std.specs.Prelude.{◌≡◌, ◌*◌, ◌≤◌, IsTrue, Some, None, take, length, MatchOption};
ghost use Rattle.age_v1.specs.ArmorLineVerdict.{decoded};
ghost use Rattle.age_armor.specs.Decoder.{DecodesArmor, RefusesNoArmor};

use age_base64::armor_engine;
use age_error::bytes::known_bytes;
use base64::engine::general_purpose::GeneralPurpose;
use base64_vectors::decode_full;

/// The engine of armor's base64. It is made once, since making it fills its tables.
#[derive(Drop)]
pub(crate) struct Decoder {
    engine: GeneralPurpose,
    ghost decodes: { DecodesArmor engine },
    ghost takes: { RefusesNoArmor engine },
}

impl Decoder {
    pub(crate) fn new() -> Decoder {
        Decoder {
            engine: armor_engine(),
        }
    }

    /// Puts the bytes that the columns stand for in front of `bytes`, and answers how many they are; or `None` where the
    /// columns are no canonical base64 with padding (RFC 4648 section 4).
    pub(crate) fn decode(&self, columns: &[u8], bytes: &mut [u8; 48]) -> Option<usize>
        requires { length columns.now ≤ 64 }
        ensures { MatchOption result
            (decoded columns.now ≡ None)
            (λ n. (decoded columns.now ≡ Some (take n bytes.new)) × (n ≤ 48)) }
    {
        match self.engine.decode_slice_unchecked(columns, bytes) {
            Ok(count) => {
                // For the proof alone: these are bytes, each below 256.
                known_bytes(bytes);
                Some(count)
            }
            Err(_) => None,
        }
    }

    /// Whether columns are the base64 of as many bytes as fill `bytes`, which are then there. Whole lines are decoded by
    /// vectors.
    pub(crate) fn decode_full(&self, columns: &[u8], bytes: &mut [u8]) -> bool
        requires { length columns.now * 3 ≡ length bytes.old * 4 }
        ensures { IsTrue result → decoded columns.now ≡ Some bytes.new }
    {
        if columns.len() % 64 == 0 {
            let is_right = decode_full(columns, bytes);
            // For the proof alone: these are bytes, each below 256.
            known_bytes(bytes);
            return is_right;
        }
        match self.engine.decode_slice_unchecked(columns, bytes) {
            Ok(count) => {
                // For the proof alone: these are bytes, each below 256.
                known_bytes(bytes);
                count == bytes.len()
            }
            Err(_) => false,
        }
    }
}
