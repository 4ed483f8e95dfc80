//! Laws of the definitions, for proofs alone: the function here does nothing, and its contract is the laws.
ghost use Rattle.std.specs.Prelude.{◌≡◌, ◌≢◌, ◌<◌, ◌^◌, ◌++◌, ◌∷◌, ℕ, Bool, List, All};
ghost use Rattle.std.specs.Char.{to_ascii_lowercase};
ghost use Rattle.age_bech32.specs.Bech32.{IsBech32, IsInCaseOf, IsPrefix};
ghost use Rattle.age_bech32.specs.Symbols.{IsInCase, IsOneCase, has_upper};
ghost use Rattle.age_bech32.specs.Written.{bech32_text};

/// What is true of Bech32.
///
/// - `one_reading`: a text has at most one prefix and bytes.
/// - `one_text`: two texts of one prefix and bytes that are both in upper case, or both not, are the same.
/// - `some_text`: a prefix that lacks the other case and any bytes have a text in each case.
/// - `written`: what is written of a prefix that may be written and of bytes is a text of them, in the prefix's case.
/// - `one_symbol`: with one symbol after the separator exchanged for another one, a text is none.
pub fn bech32_laws()
    ensures one_reading { (text prefix other bytes more : List ℕ) → IsBech32 text prefix bytes → IsBech32 text other more →
        (prefix ≡ other) × (bytes ≡ more) }
    ensures one_text { (text other prefix bytes : List ℕ) → IsBech32 text prefix bytes → IsBech32 other prefix bytes →
        has_upper text ≡ has_upper other → text ≡ other }
    ensures some_text { (upper : Bool) (prefix bytes : List ℕ) → IsPrefix prefix → IsInCase upper prefix → All (λ byte. byte < 2 ^ 8) bytes →
        (text : List ℕ) × IsBech32 text prefix bytes × IsInCase upper text }
    ensures written { (prefix bytes : List ℕ) → IsPrefix prefix → IsOneCase prefix → All (λ byte. byte < 2 ^ 8) bytes →
        IsBech32 (bech32_text prefix bytes) prefix bytes × IsInCaseOf prefix (bech32_text prefix bytes) }
    ensures one_symbol { (prefix bytes front back : List ℕ) (symbol changed : ℕ) → changed ≢ 49 →
        to_ascii_lowercase symbol ≢ to_ascii_lowercase changed → IsBech32 (prefix ++ 49 ∷ (front ++ symbol ∷ back)) prefix bytes →
        (other more : List ℕ) → IsBech32 (prefix ++ 49 ∷ (front ++ changed ∷ back)) other more → ⊥ }
{}
