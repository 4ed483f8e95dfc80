//! Laws of the definitions, for proofs alone: the function here does nothing, and its contract is the laws.
ghost use Rattle.std.specs.Prelude.{◌≡◌, ◌+◌, ℕ, ◌<◌, ◌^◌, ◌↔◌, All, List, length, Some};
ghost use Rattle.chacha20poly1305.specs.Aead.{opened, seal_of};

/// What is true of ChaCha20-Poly1305 without additional data, of any lists as key and nonce.
///
/// - `opens_exactly`: a text of bytes opens to a plaintext, which is bytes, exactly if it is the plaintext's seal.
/// - `length`: a seal has 16 items more than the plaintext.
/// - `bytes`: the seal of bytes is bytes.
pub fn chacha20poly1305_laws()
    ensures opens_exactly { (key nonce sealed plain : List ℕ) → All (λ byte. byte < 2 ^ 8) sealed →
        (opened key nonce sealed ≡ Some plain) ↔ (All (λ byte. byte < 2 ^ 8) plain × (sealed ≡ seal_of key nonce plain)) }
    ensures length { (key nonce plain : List ℕ) → length (seal_of key nonce plain) ≡ length plain + 16 }
    ensures bytes { (key nonce plain : List ℕ) → All (λ byte. byte < 2 ^ 8) plain → All (λ byte. byte < 2 ^ 8) (seal_of key nonce plain) }
{}
