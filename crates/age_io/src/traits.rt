//! What reads and writes.
ghost use Rattle.std.specs.Prelude.{◌≡◌, ◌≢◌, ℕ, ◌^◌, ◌≤◌, ◌<◌, Bool, false, IsTrue, List, [], ◌++◌, length, Result, Ok, IfErr, ⊤, refl};
ghost use Rattle.std.proofs.Common.{◌∙◌};
ghost use Rattle.age_error.specs.Bytes.{AreBytes};
ghost use Rattle.age_error.specs.Refusals.{IsInterruption};
ghost use Rattle.age_error.specs.declared.io.Error.{Error};
ghost use Rattle.age_io.specs.Stretch.{Stretch, nothing};
ghost use Rattle.age_io.specs.Reading.{Reads, StandsIn, most_faults};
ghost use Rattle.age_io.specs.Writing.{Retried, Writes, WritesAll, Flushes};

use age_error::io::Error;

/// Reads bytes.
///
/// What a reader means is said by its members. Its content is what it delivers from the start as long as nothing
/// seeks: all bytes before the first fault, and whether a clean end follows them. Where it doesn't tell its bytes,
/// nothing is said of them.
pub trait Read {
    /// Whether the members below say what the bytes are.
    ghost tells: { Self → Bool };

    /// Whether the rest is always that of the content at the place, also where the content ends badly.
    ghost steady: { Self → Bool };

    /// What a reader that never seeks delivers from the start.
    ghost content: { Self → Stretch };

    /// How many bytes of the content stand before the next read.
    ghost place: { Self → ℕ };

    /// What reads can still deliver: of a failed reader nothing, and it doesn't end well.
    ghost rest: { Self → Stretch };

    /// How often the device has failed.
    ghost faults: { Self → ℕ };

    /// Which errors its calls may answer, whatever is sought in between, until one was answered: then it may have failed, and
    /// refuse with `Failed` too. What a seek says of its target is none of them.
    ghost refuses: { Self → Error → Type 0 };

    /// What an implementation says of `read` besides: of the states before and after it, of the buffer before and after it,
    /// and of its answer.
    ghost read_besides: { Self → Self → List ℕ → List ℕ → Result ℕ Error → Type 0 } = { λ _ _ _ _ _. ⊤ };

    /// Puts the next n bytes in front of `buf` and answers n. It is 0 only for an empty buffer or at a clean end.
    ///
    /// A refusal leaves the place where it was. It comes only where the device failed in this call or has failed
    /// 2^64 - 1 times, where memory was refused, or where nothing but a fault is left, and is one that `refuses` names.
    /// `Device(kind)` says that the device failed in this call. What a state after a success or an interruption may refuse
    /// with, the one before it may. After `Device(Interrupted)` the call may be made again.
    fn read(&mut self, buf: &mut [u8]) -> Result<usize, Error>
        ensures reads { Reads tells steady content place rest faults refuses self.old self.new buf.new result }
        ensures besides { read_besides self.old self.new buf.old buf.new result };

    /// The count of faults is a u64.
    ghost faults_fit: { (r : Self) → faults r < 2 ^ 64 };

    /// A reader whose count of faults is used up has failed.
    ghost spent: { (r : Self) → IsTrue (tells r) → faults r ≡ most_faults → rest r ≡ nothing };

    /// A reader whose content ends well is steady.
    ghost well: { (r : Self) → IsTrue (tells r) → IsTrue (content r).ends_well → IsTrue (steady r) };

    /// A steady reader stands within its content, and has its rest, unless it failed.
    ghost stands: { (r : Self) → IsTrue (tells r) → IsTrue (steady r) → StandsIn (content r) (place r) (rest r) };

    /// A content is a list of bytes.
    ghost are_bytes: { (r : Self) → IsTrue (tells r) → AreBytes (content r).bytes };

    /// A content has at most 2^63 - 1 bytes.
    ghost short: { (r : Self) → IsTrue (tells r) → length (content r).bytes < 2 ^ 63 };

    /// So has what stands before the place, on any content.
    ghost place_fits: { (r : Self) → IsTrue (tells r) → place r < 2 ^ 63 };
}

/// Takes bytes.
///
/// What a writer means is said by its members. Where it doesn't tell its bytes, nothing is said of what went out.
pub trait Write {
    /// Whether `appended` says what went out.
    ghost tells: { Self → Bool };

    /// How often the device has failed.
    ghost faults: { Self → ℕ };

    /// Which errors writes and flushes may answer while they are given this many bytes in all.
    ghost refuses: { Self → ℕ → Error → Type 0 };

    /// The second state is the first with these bytes appended.
    ghost appended: { Self → List ℕ → Self → Type 0 };

    /// What an implementation says of `write` besides: of the states before and after it, of the bytes that it was given, and
    /// of its answer.
    ghost write_besides: { Self → Self → List ℕ → Result ℕ Error → Type 0 } = { λ _ _ _ _. ⊤ };

    /// What it says of `flush` besides: of the states before and after it, and of its answer.
    ghost flush_besides: { Self → Self → Result ⊤ Error → Type 0 } = { λ _ _ _. ⊤ };

    /// Appends the first n bytes and answers n. A refusal is one that `refuses` names. Of the bytes it appended some of the first, or
    /// none: none where the call was interrupted (`Device(Interrupted)`), so that it can be tried again, and of most writers
    /// after any refusal, which says `write_besides` then.
    ///
    /// `Device(kind)` says that the device failed in this call. A state that was given n bytes may refuse only what the
    /// first one may that is given those and what follows; so may one that was interrupted. Where n is 0, though there
    /// are bytes, the writer may refuse with `WriteZero`.
    fn write(&mut self, bytes: &[u8]) -> Result<usize, Error>
        ensures writes { Writes tells faults refuses appended self.old self.new bytes.now result }
        ensures besides { write_besides self.old self.new bytes.now result };

    /// Sends on what a buffer holds back. It appends nothing.
    fn flush(&mut self) -> Result<(), Error>
        ensures flushes { Flushes tells faults refuses appended self.old self.new result }
        ensures besides { flush_besides self.old self.new result };

    /// Takes all bytes of `piece` as `write_all` does, by an exchange of its memory for some of the writer's own, which spares
    /// a copy, and answers true: `piece` is as long as before then, and what it holds means nothing. Or it takes none,
    /// changes nothing and answers false, as each writer does that keeps no piece.
    ///
    /// It refuses as `write_all` does. It is never `Device(Interrupted)` (`patient`).
    fn exchange(&mut self, piece: &mut Vec<u8>) -> Result<bool, Error>
        ensures takes { result ≢ Ok false → WritesAll tells faults (Retried refuses) appended self.old self.new piece.old.items result }
        ensures none { result ≡ Ok false → (self.new ≡ self.old) × (piece.new.items ≡ piece.old.items) }
        ensures size { length piece.new.items ≡ length piece.old.items }
        ensures patient { IfErr result (λ e. IsInterruption e → ⊥) }
    {
        let _same = piece;
        Ok(false)
    }

    /// The count of faults is a u64.
    ghost faults_fit: { (w : Self) → faults w < 2 ^ 64 };

    /// What may be refused of fewer bytes may be of more.
    ghost refuses_more: { (w : Self) (m n : ℕ) (e : Error) → m ≤ n → refuses w m e → refuses w n e };

    /// A state and itself are related by no bytes.
    ghost appends_nothing: { (w : Self) → appended w [] w };

    /// Bytes appended in turn are appended joined.
    ghost joins: { (a b c : Self) (x y : List ℕ) → appended a x b → appended b y c → appended a (x ++ y) c };
}

impl<R: Read> Read for &mut R {
    ghost tells = { λ r. R.tells r.now };

    ghost steady = { λ r. R.steady r.now };

    ghost content = { λ r. R.content r.now };

    ghost place = { λ r. R.place r.now };

    ghost rest = { λ r. R.rest r.now };

    ghost faults = { λ r. R.faults r.now };

    ghost refuses = { λ r. R.refuses r.now };

    ghost read_besides = { λ old new before after result. R.read_besides old.now new.now before after result };

    ghost faults_fit = { λ r. R.faults_fit r.now };

    ghost spent = { λ r. R.spent r.now };

    ghost well = { λ r. R.well r.now };

    ghost stands = { λ r. R.stands r.now };

    ghost are_bytes = { λ r. R.are_bytes r.now };

    ghost short = { λ r. R.short r.now };

    ghost place_fits = { λ r. R.place_fits r.now };

    fn read(&mut self, buf: &mut [u8]) -> Result<usize, Error> {
        Read::read(&mut **self, buf)
    }
}

// What was appended through a reference was appended to what it lends: the two states are of one loan.
impl<W: Write> Write for &mut W {
    ghost tells = { λ w. W.tells w.now };

    ghost faults = { λ w. W.faults w.now };

    ghost refuses = { λ w. W.refuses w.now };

    ghost appended = { λ a x b. (a.ghost_name ≡ b.ghost_name) × W.appended a.now x b.now };

    ghost write_besides = { λ old new bytes result. W.write_besides old.now new.now bytes result };

    ghost flush_besides = { λ old new result. W.flush_besides old.now new.now result };

    ghost faults_fit = { λ w. W.faults_fit w.now };

    ghost refuses_more = { λ w. W.refuses_more w.now };

    ghost appends_nothing = { λ w. (refl, W.appends_nothing w.now) };

    ghost joins = { λ a b c x y p q. (p.0 ∙ q.0, W.joins a.now b.now c.now x y p.1 q.1) };

    fn write(&mut self, bytes: &[u8]) -> Result<usize, Error> {
        Write::write(&mut **self, bytes)
    }

    fn flush(&mut self) -> Result<(), Error> {
        Write::flush(&mut **self)
    }

    fn exchange(&mut self, piece: &mut Vec<u8>) -> Result<bool, Error> {
        Write::exchange(&mut **self, piece)
    }
}
