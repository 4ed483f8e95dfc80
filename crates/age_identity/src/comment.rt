//! Comments, which aren't kept.
ghost use Rattle.std.specs.Prelude.{◌≡◌, ◌≤◌, ◌++◌, [], ◌∷◌, ℕ, List, length, true, false};
ghost use Rattle.std.specs.Str.{IsUtf8};

/// Whether a text that comes byte by byte is UTF-8. It keeps four bytes of it at most.
#[derive(Drop)]
pub(crate) struct Utf8Check {
    // The bytes that came since the last character ended. Four of them are no character's.
    pending: [u8; 4],
    count: usize,
    ghost few: { count ≤ 4 },
    ghost size: { length pending ≡ 4 },
}

// Whether bytes are UTF-8.
fn is_text(bytes: &[u8]) -> bool
    ensures yes { result ≡ true → IsUtf8 bytes.now }
    ensures no { result ≡ false → IsUtf8 bytes.now → ⊥ }
{
    match str::from_utf8(bytes) {
        Ok(_) => true,
        Err(_) => false,
    }
}

impl Utf8Check {
    ghost use Rattle.age_identity.specs.Comments.{HasChecked};

    /// The check of no bytes.
    pub(crate) fn new() -> Utf8Check
        ensures { HasChecked result.pending result.count [] }
    {
        Utf8Check {
            pending: [0; 4],
            count: 0,
        }
    }

    /// The check with one more byte.
    pub(crate) fn push(self, byte: u8) -> Utf8Check
        ensures { (text : List ℕ) → HasChecked self.pending self.count text → HasChecked result.pending result.count (text ++ byte ∷ []) }
    {
        let Utf8Check { pending, count } = self;
        if count == 4 {
            return Utf8Check { pending, count };
        }
        let mut pending = pending;
        pending[count] = byte;
        if is_text(&pending[..count + 1]) {
            return Utf8Check { pending, count: 0 };
        }
        Utf8Check {
            pending,
            count: count + 1,
        }
    }

    /// Whether the text so far is UTF-8.
    pub(crate) fn is_utf8(&self) -> bool
        ensures yes { result ≡ true → (text : List ℕ) → HasChecked self.now.pending self.now.count text → IsUtf8 text }
        ensures no { result ≡ false → (text : List ℕ) → HasChecked self.now.pending self.now.count text → IsUtf8 text → ⊥ }
    {
        self.count == 0
    }
}
