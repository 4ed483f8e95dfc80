//! Laws of the definitions, for proofs alone: the function here does nothing, and its contract is the laws.
ghost use Rattle.std.specs.Prelude.{◌≡◌, ℕ, ◌<◌, ◌^◌, All, List, length};
ghost use Rattle.poly1305.specs.Mac.{poly1305_mac};

/// What is true of Poly1305, of any lists as key and text.
///
/// - `length`: a tag has 16 items.
/// - `bytes`: the items of a tag are bytes.
pub fn poly1305_laws()
    ensures length { (key text : List ℕ) → length (poly1305_mac key text) ≡ 16 }
    ensures bytes { (key text : List ℕ) → All (λ byte. byte < 2 ^ 8) (poly1305_mac key text) }
{}
