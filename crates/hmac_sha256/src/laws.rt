//! Laws of the definitions, for proofs alone: the function here does nothing, and its contract is the laws.

ghost use Rattle.std.specs.Prelude.{◌≡◌, ℕ, ◌<◌, ◌^◌, All, List, [], length, replicate};
ghost use Rattle.hmac_sha256.specs.Hmac.{hmac_of};
ghost use Rattle.hmac_sha256.specs.Hkdf.{hkdf_of};

/// What is true of HMAC and HKDF, of any lists.
///
/// - `length`, `bytes`: an HMAC has 32 items, and they are bytes.
/// - `key_length`, `key_bytes`: so is what HKDF gives.
/// - `no_salt`: HKDF with an empty salt is HKDF with 32 zero bytes for a salt (RFC 5869, section 2.2).
pub fn hmac_laws()
    ensures length { (key text : List ℕ) → length (hmac_of key text) ≡ 32 }
    ensures bytes { (key text : List ℕ) → All (λ byte. byte < 2 ^ 8) (hmac_of key text) }
    ensures key_length { (salt info input : List ℕ) → length (hkdf_of salt info input) ≡ 32 }
    ensures key_bytes { (salt info input : List ℕ) → All (λ byte. byte < 2 ^ 8) (hkdf_of salt info input) }
    ensures no_salt { (info input : List ℕ) → hkdf_of [] info input ≡ hkdf_of (replicate 32 0) info input }
{}
