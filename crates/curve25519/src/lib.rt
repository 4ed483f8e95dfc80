//! The definition of X25519 (RFC 7748, 4.1, 5 and 6.1), and the law that makes it a key agreement. No code runs here: the code is in
//! the crate `x25519`.
//!
//! - `specs/Field`, `specs/Encoding` and `specs/X25519` are the definition, line by line that of the RFC.
//! - `proofs/` shows the law. `docs/development/X25519.md` is the way through them.
#![tactic(auto)]

ghost use Rattle.std.specs.Prelude.{◌≡◌, ◌<◌, ◌^◌, All, List, ℕ, length};
ghost use Rattle.curve25519.specs.X25519.{public_key, x25519};

/// What is true of X25519, for proofs alone: the function does nothing, and its contract is the law.
///
/// - `same_secret`: of two secrets of 32 bytes, each with the other's public key gives the same shared secret (RFC 7748, 6.1).
/// - `public_key_length`, `public_key_bytes`: a public key is 32 bytes.
/// - `shared_secret_length`, `shared_secret_bytes`: so is what `x25519` gives for any lists.
pub fn x25519_laws()
    ensures same_secret { (a b : List ℕ) → length a ≡ 32 → All (λ byte. byte < 2 ^ 8) a → length b ≡ 32 → All (λ byte. byte < 2 ^ 8) b →
        x25519 a (public_key b) ≡ x25519 b (public_key a) }
    ensures public_key_length { (secret : List ℕ) → length (public_key secret) ≡ 32 }
    ensures public_key_bytes { (secret : List ℕ) → All (λ byte. byte < 2 ^ 8) (public_key secret) }
    ensures shared_secret_length { (secret public : List ℕ) → length (x25519 secret public) ≡ 32 }
    ensures shared_secret_bytes { (secret public : List ℕ) → All (λ byte. byte < 2 ^ 8) (x25519 secret public) }
{}
