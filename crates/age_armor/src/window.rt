//! Bytes that were read and not given yet.
ghost use Rattle.std.specs.Prelude.{◌≡◌, ◌≤◌, ◌<◌, false, IsTrue, [], length, take, drop, min};

/// What was decoded of a line, or read of a binary text, and not given yet.
#[derive(Drop)]
pub(crate) struct Window {
    // Room for a line's bytes. Those from `given` to `filled` are held.
    pub(crate) bytes: [u8; 48],
    given: usize,
    filled: usize,
    ghost room: { length bytes ≡ 48 },
    ghost order: { given ≤ filled },
    ghost within: { filled ≤ 48 },
}

impl Window {
    ghost use Rattle.age_armor.specs.Windows.{held_in};

    /// One that holds nothing.
    pub(crate) fn new() -> Window
        ensures { held_in result ≡ [] }
    {
        Window {
            bytes: [0; 48],
            given: 0,
            filled: 0,
        }
    }

    /// Whether nothing is held.
    #[tactic(auto, using(crate::proofs::Windows::held_size, crate::proofs::Windows::held_none))]
    pub(crate) fn is_empty(&self) -> bool
        ensures yes { IsTrue result → held_in self.now ≡ [] }
        ensures no { result ≡ false → 0 < length (held_in self.now) }
    {
        self.given == self.filled
    }

    /// Holds so many of the first bytes that stand in the room.
    pub(crate) fn hold(&mut self, count: usize)
        requires { count ≤ 48 }
        ensures { held_in self.new ≡ take count self.old.bytes }
    {
        self.given = 0;
        self.filled = count;
    }

    /// Holds nothing from now on.
    pub(crate) fn clear(&mut self)
        ensures { held_in self.new ≡ [] }
    {
        self.given = 0;
        self.filled = 0;
    }

    /// Gives what is held, as far as `buf` has room, and answers how many bytes these are.
    pub(crate) fn give(&mut self, buf: &mut [u8]) -> usize
        ensures count { result ≡ min (length buf.old) (length (held_in self.old)) }
        ensures left { held_in self.new ≡ drop result (held_in self.old) }
        ensures bytes { take result buf.new ≡ take result (held_in self.old) }
        ensures beyond { drop result buf.new ≡ drop result buf.old }
    {
        let count = buf.len().min(self.filled - self.given);
        buf[..count].copy_from_slice(&self.bytes[self.given..self.given + count]);
        self.given += count;
        count
    }

    /// Passes over bytes that are held.
    pub(crate) fn pass(&mut self, amount: usize)
        requires { amount ≤ length (held_in self.old) }
        ensures { held_in self.new ≡ drop amount (held_in self.old) }
    {
        self.given += amount;
    }

    /// What is held.
    pub(crate) fn as_slice(&self) -> &[u8]
        ensures { result.now ≡ held_in self.now }
    {
        &self.bytes[self.given..self.filled]
    }
}
