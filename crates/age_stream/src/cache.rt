//! The chunks that a reader has opened: at most two, the one that it used last and another.
ghost use Rattle.std.specs.Prelude.{◌≡◌, ℕ, ◌≤◌, ◌<◌, ◌⊎◌, Option, Some, None, IsSome, true, false, IsTrue, List, length, IfErr, OnOk, Ok, Err};
ghost use Rattle.age_error.specs.declared.io.Error.TheVariants.{OutOfMemory};
ghost use Rattle.age_io.specs.Stretch.{Stretch};
ghost use Rattle.age_v1.specs.DeliveredPayload.{chunk_of};
ghost use Rattle.age_stream.specs.Wholeness.{IsChunkSize};
ghost use Rattle.age_stream.specs.PrivateWholeness.{OpensTwice};

use crate::reader::open_chunk;
use age_error::io::Error;
use age_suite::suite::{Opens, Suite};
use std::alloc::Global;
use std::mem;

/// A chunk that was opened: its number, its plaintext, and whether it was opened as the last.
#[derive(Drop)]
pub(crate) struct Opened {
    pub(crate) number: u64,
    pub(crate) piece: Vec<u8>,
    pub(crate) last: bool,
    ghost whole: { IsChunkSize number last piece.items },
}

impl Opened {
    // None yet.
    fn none(alloc: Global) -> Opened {
        Opened {
            number: 0,
            piece: Vec::new(alloc),
            last: true,
        }
    }
}

/// At most two chunks that were opened.
#[derive(Drop)]
pub(crate) struct Cache {
    // One of them, and whether it is there by the verdict on it. A seek to the end takes a full chunk as the last without one.
    pub(crate) first: Opened,
    pub(crate) judged: bool,
    // Another one, and whether the first was used after it.
    pub(crate) other: Option<Opened>,
    pub(crate) used: bool,
}

impl Cache {
    ghost use Rattle.age_stream.specs.declared.cache.Opened.{Opened};
    ghost use Rattle.age_stream.specs.Cache.{has_number, has_last, last_used, HasLast, HasOne};
    ghost use Rattle.age_stream.specs.PrivateCache.{Brings, IsKept, IsText, SameChunks};
    ghost use Rattle.age_stream.specs.PrivateKeeping.{IsChunkRefusal};
    ghost use Rattle.age_stream.specs.Reading.{IsHeld};

    // Whether it is the chunk of this number.
    fn is_chunk(opened: &Option<Opened>, number: u64) -> bool
        ensures { result ≡ has_number number opened.now }
    {
        match opened {
            Some(opened) => opened.number == number,
            None => false,
        }
    }

    // Whether it is the chunk of this number, opened as the last.
    fn is_last_chunk(opened: &Option<Opened>, number: u64) -> bool
        ensures { result ≡ has_last number opened.now }
    {
        match opened {
            Some(opened) => opened.number == number && opened.last,
            None => false,
        }
    }

    /// None.
    pub(crate) fn new(alloc: Global) -> Cache
        ensures judged { result.judged ≡ false }
        ensures other { result.other ≡ None }
    {
        Cache {
            first: Opened::none(alloc),
            judged: false,
            other: None,
            used: false,
        }
    }

    // Takes the first out.
    fn set_aside(&mut self, alloc: Global) -> Option<Opened>
        ensures judged { self.new.judged ≡ false }
        ensures same { (self.new.other ≡ self.old.other) × (self.new.used ≡ self.old.used) }
        ensures some { self.old.judged ≡ true → IsSome result }
        ensures is { (it : Opened) → result ≡ Some it → (self.old.judged ≡ true) × (it ≡ self.old.first) }
    {
        if !self.judged {
            return None;
        }
        self.judged = false;
        Some(mem::replace(&mut self.first, Opened::none(alloc)))
    }

    // Exchanges the two.
    fn exchange(&mut self, alloc: Global)
        ensures kept { (opened : List ℕ → List ℕ → List ℕ → Option (List ℕ)) (key : List ℕ) (payload : Stretch)
            → IsKept opened key payload self.old → IsKept opened key payload self.new }
        ensures same { SameChunks self.old self.new }
        ensures brought { (b : ℕ) → has_number b self.old.other ≡ true → (self.new.judged ≡ true) × (self.new.first.number ≡ b) }
        ensures brought_last { (b : ℕ) → has_last b self.old.other ≡ true
            → (self.new.judged ≡ true) × (self.new.first.number ≡ b) × (self.new.first.last ≡ true) }
        ensures put { self.old.judged ≡ true → has_number self.old.first.number self.new.other ≡ true }
        ensures used { self.old.used ≡ false → self.new.used ≡ true }
    {
        let first = self.set_aside(alloc);
        let other = mem::replace(&mut self.other, first);
        self.used = !self.used;
        match other {
            None => {}
            Some(opened) => {
                self.first = opened;
                self.judged = true;
            }
        }
    }

    /// Gives up the chunk that wasn't used last.
    pub(crate) fn make_room(&mut self, alloc: Global)
        ensures kept { (opened : List ℕ → List ℕ → List ℕ → Option (List ℕ)) (key : List ℕ) (payload : Stretch)
            → IsKept opened key payload self.old → IsKept opened key payload self.new }
        ensures had { (b : ℕ) → HasOne self.new b → HasOne self.old b }
        ensures same_last { last_used self.new ≡ last_used self.old }
        ensures alone { (self.new.other ≡ None) × (self.new.used ≡ true) }
    {
        if !self.used {
            self.exchange(alloc);
        }
        self.other = None;
    }

    /// Puts a chunk in front of the one that was used last, as the one that is used now.
    pub(crate) fn put(
        &mut self,
        alloc: Global,
        number: u64,
        piece: Vec<u8>,
        last: bool,
        judged: bool,
    )
        requires whole { IsChunkSize number last piece.items }
        requires room { self.old.other ≡ None }
        ensures first { (self.new.first.number ≡ number) × (self.new.first.piece ≡ piece) × (self.new.first.last ≡ last) × (self.new.judged ≡ judged)
            × (self.new.used ≡ true) }
        ensures kept { (opened : List ℕ → List ℕ → List ℕ → Option (List ℕ)) (key : List ℕ) (payload : Stretch) → IsKept opened key payload self.old →
            (judged ≡ true → IsHeld opened key payload number last 0 piece.items) → IsKept opened key payload self.new }
        ensures had { (b : ℕ) → HasOne self.new b → (b ≡ number) ⊎ HasOne self.old b }
        ensures keeps_last { self.old.used ≡ true → (b : ℕ) → last_used self.old ≡ Some b → HasOne self.new b }
    {
        self.exchange(alloc);
        self.first = Opened {
            number,
            piece,
            last,
        };
        self.judged = judged;
        self.used = true;
    }

    /// Gives up both, unless they are kept.
    pub(crate) fn keep_if(&mut self, alloc: Global, are_kept: bool)
        ensures kept { (opened : List ℕ → List ℕ → List ℕ → Option (List ℕ)) (key : List ℕ) (payload : Stretch)
            → IsKept opened key payload self.old → IsKept opened key payload self.new }
        ensures same { are_kept ≡ true → self.new ≡ self.old }
        ensures none { are_kept ≡ false → (b : ℕ) → HasOne self.new b → ⊥ }
    {
        if !are_kept {
            self.first = Opened::none(alloc);
            self.judged = false;
            self.other = None;
        }
    }

    /// Whether the chunk of this number is there by the verdict on it and has a byte at this place. It is the first then.
    pub(crate) fn find(&mut self, alloc: Global, number: u64, at: usize) -> bool
        ensures found { IsTrue result → (self.new.judged ≡ true) × (self.new.first.number ≡ number) × (at < length self.new.first.piece.items) }
        ensures none { result ≡ false → HasOne self.old number
            → (self.new.judged ≡ true) × (self.new.first.number ≡ number) × (length self.new.first.piece.items ≤ at) }
        ensures kept { (opened : List ℕ → List ℕ → List ℕ → Option (List ℕ)) (key : List ℕ) (payload : Stretch)
            → IsKept opened key payload self.old → IsKept opened key payload self.new }
        ensures same { SameChunks self.old self.new }
    {
        if Cache::is_chunk(&self.other, number) {
            self.exchange(alloc);
        }
        self.judged && self.first.number == number && at < self.first.piece.len()
    }

    /// Whether the chunk of this number is there as the last, by the verdict on it. It is the first then.
    pub(crate) fn find_last(&mut self, alloc: Global, number: u64) -> bool
        ensures found { IsTrue result → (self.new.judged ≡ true) × (self.new.first.number ≡ number) × (self.new.first.last ≡ true) }
        ensures none { result ≡ false → HasLast self.old number → ⊥ }
        ensures kept { (opened : List ℕ → List ℕ → List ℕ → Option (List ℕ)) (key : List ℕ) (payload : Stretch)
            → IsKept opened key payload self.old → IsKept opened key payload self.new }
        ensures same { SameChunks self.old self.new }
    {
        if Cache::is_last_chunk(&self.other, number) {
            self.exchange(alloc);
            return true;
        }
        self.judged && self.first.number == number && self.first.last
    }

    /// Has the chunk of this number, whose text was read, as the first: the other one, or one that is opened. It is used now.
    pub(crate) fn bring<S: Suite>(
        &mut self,
        alloc: Global,
        opens: &mut Opens,
        key: &[u8; 32],
        number: u64,
        text: &[u8],
    ) -> Result<(), Error>
        requires { length text.now ≤ 65552 }
        ensures kept { (payload : Stretch) → IsKept S.opened key.now payload self.old → IsText payload number text.now
            → IsKept S.opened key.now payload self.new }
        ensures brings { OnOk result (Brings number self.old self.new opens.old opens.new) }
        ensures refused { IfErr result (λ e. (e ≡ OutOfMemory) ⊎ (chunk_of S.opened key.now number text.now ≡ Err e)) }
        ensures named { IfErr result IsChunkRefusal }
        ensures opens { OpensTwice opens.old opens.new }
        ensures found { has_number number self.old.other ≡ true → opens.new ≡ opens.old }
    {
        if Cache::is_chunk(&self.other, number) {
            self.exchange(alloc);
            self.used = true;
            return Ok(());
        }
        self.make_room(alloc);
        let (piece, last) = open_chunk::<S>(alloc, opens, key, number, text)?;
        self.put(alloc, number, piece, last, true);
        Ok(())
    }
}
