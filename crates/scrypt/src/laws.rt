//! Laws of the definitions, for proofs alone: the function here does nothing, and its contract is the laws.
ghost use Rattle.std.specs.Prelude.{◌≡◌, ℕ, ◌<◌, ◌^◌, All, List, length};
ghost use Rattle.scrypt.specs.Scrypt.{scrypt_of};

/// What is true of scrypt, of any lists as passphrase and salt and any number as work factor.
///
/// - `length`, `bytes`: a derived key has 32 items, and they are bytes.
pub fn scrypt_laws()
    ensures length { (password salt : List ℕ) (log_n : ℕ) → length (scrypt_of password salt log_n) ≡ 32 }
    ensures bytes { (password salt : List ℕ) (log_n : ℕ) → All (λ byte. byte < 2 ^ 8) (scrypt_of password salt log_n) }
{}
