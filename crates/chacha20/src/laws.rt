//! Laws of the definitions, for proofs alone: the function here does nothing, and its contract is the laws.
ghost use Rattle.std.specs.Prelude.{◌≡◌, ℕ, ◌<◌, ◌^◌, All, List, length};
ghost use Rattle.chacha20.specs.Block.{chacha20_block};
ghost use Rattle.chacha20.specs.Encryption.{chacha20_encrypt};

/// What is true of ChaCha20, of any lists as key and nonce and any number as counter.
///
/// - `block_length`: a block has 64 items.
/// - `block_bytes`: the items of a block are bytes.
/// - `length`: encryption keeps the length.
/// - `bytes`: what is encrypted of bytes is bytes.
/// - `twice`: encryption done twice gives the text back.
pub fn chacha20_laws()
    ensures block_length { (key : List ℕ) (counter : ℕ) (nonce : List ℕ) → length (chacha20_block key counter nonce) ≡ 64 }
    ensures block_bytes { (key : List ℕ) (counter : ℕ) (nonce : List ℕ) → All (λ byte. byte < 2 ^ 8) (chacha20_block key counter nonce) }
    ensures length { (key : List ℕ) (counter : ℕ) (nonce text : List ℕ) → length (chacha20_encrypt key counter nonce text) ≡ length text }
    ensures bytes { (key : List ℕ) (counter : ℕ) (nonce text : List ℕ) → All (λ byte. byte < 2 ^ 8) text →
        All (λ byte. byte < 2 ^ 8) (chacha20_encrypt key counter nonce text) }
    ensures twice { (key : List ℕ) (counter : ℕ) (nonce text : List ℕ) →
        chacha20_encrypt key counter nonce (chacha20_encrypt key counter nonce text) ≡ text }
{}
