//! Where the text of a header goes, piece by piece: into a list of bytes, or into its MAC.

ghost use Rattle.std.specs.Prelude.{◌≡◌, ◌++◌, ℕ, List, [], Bool, IsTrue, OnOk, OnErr};

use age_suite::mac::HmacWriter;
use std::alloc::AllocError;

/// Takes a text piece by piece.
pub(crate) trait Sink {
    // The second state is the first after it has taken these bytes.
    ghost took: { Self → List ℕ → Self → Type 0 };

    // Whether bytes can be refused.
    ghost refuses: { Bool };

    /// Takes the next bytes of the text. `AllocError` comes only for want of memory.
    fn take(&mut self, bytes: &[u8]) -> Result<(), AllocError>
        ensures took { OnOk result (took self.old bytes.now self.new) }
        ensures refused { OnErr result (IsTrue refuses) };

    /// A state and itself are related by no bytes.
    ghost takes_nothing: { (s : Self) → took s [] s };

    /// Bytes that were taken in turn were taken joined.
    ghost joins: { (a b c : Self) (x y : List ℕ) → took a x b → took b y c → took a (x ++ y) c };
}

impl Sink for Vec<u8> {
    ghost use Rattle.std.specs.Prelude.{◌≡◌, ◌++◌, true};
    ghost use Rattle.std.proofs.Common.{arith};
    ghost use Rattle.std.proofs.lemmas.Grind.{common_steps};

    ghost took = { λ a x b. b.items ≡ a.items ++ x };

    ghost refuses = { true };

    ghost takes_nothing = { λ s. Prim.grind (arith, common_steps) };

    ghost joins = { λ a b c x y p q. Prim.grind (arith, common_steps) };

    fn take(&mut self, bytes: &[u8]) -> Result<(), AllocError> {
        self.extend_from_slice(bytes)
    }
}

impl Sink for HmacWriter {
    ghost use Rattle.std.specs.Prelude.{ℕ, List, ◌++◌, false};
    ghost use Rattle.std.proofs.Common.{subst, sym, append_assoc};
    ghost use Rattle.std.proofs.lemmas.List.{append-nil};
    ghost use Rattle.age_suite.specs.Mac.{WasGiven};

    // Whatever text it was given before, and under whatever key.
    ghost took = { λ a x b. (key text : List ℕ) → WasGiven a key text → WasGiven b key (text ++ x) };

    ghost refuses = { false };

    ghost takes_nothing = { λ s key text given. subst (λ t. WasGiven s key t) (sym (append-nil text)) given };

    ghost joins = { λ a b c x y first second key text given.
        subst (λ t. WasGiven c key t) (append_assoc text x y) (second key (text ++ x) (first key text given)) };

    fn take(&mut self, bytes: &[u8]) -> Result<(), AllocError> {
        self.update(bytes);
        Ok(())
    }
}
