//! Reading armor.
ghost use Rattle.std.specs.Prelude.{◌≡◌, ◌≢◌, ◌+◌, ◌-◌, ◌*◌, ◌≤◌, ◌<◌, true, false, IsTrue, [], length, take, drop, min, IfOk, IfErr, OnErr, IsOk, Ok, Err, Some, codes};
ghost use Rattle.age_error.specs.declared.io.Error.TheVariants.{OutOfMemory, Failed};
ghost use Rattle.age_io.specs.Stretch.{IsFault};
ghost use Rattle.age_io.specs.Reading.{IsQuiet, Delivers, StandsIn};
ghost use Rattle.age_io.specs.Filling.{IsFront};
ghost use Rattle.age_io.specs.Failing.{FailsForGood};
ghost use Rattle.age_io.specs.Calls.{ConsumesBy, ReadsBy};
ghost use Rattle.age_armor.specs.Stages.{is_start};
ghost use Rattle.age_armor.specs.PrivateStages.{is_ended};
ghost use Rattle.age_armor.specs.declared.stages.Stage.TheVariants.{Binary};
ghost use Rattle.age_v1.proofs.DeliveredArmors.{content_bytes, content_short, stands_by};
ghost use Rattle.age_armor.specs.ReaderLemmas.{spent_ahead, well_inner};
ghost use Rattle.age_armor.specs.PrivateReader.{IsSound};
ghost use Rattle.age_armor.specs.Windows.{held_in};

use crate::counted::Counted;
use crate::decoding::Decoder;
use crate::marks::Marks;
use crate::stages::{Stage, advance};
use crate::window::Window;
use age_error::io::Error;
use age_io::{BufRead, BufReader, Read};
use std::alloc::Global;
use std::fmt;

/// Reads what a text carries: the data of an armored text, and a binary text unchanged (age-encryption.org/v1, section
/// "ASCII armor").
///
/// The text begins where the inner reader stands when this one is made, and places count from there. The first read
/// finds out which of the two it is. One line is held at a time. Up to 16 lines that the inner reader shows are decoded in
/// one call, each is taken from it only when it is asked for. Of each 1,024 full lines that were read a mark is kept, in 8
/// bytes, from which seeks read on, and the length of what the text carries once its end was read. Where memory for a mark is
/// refused, none is kept from then on, and the answers are the same. A seek in a binary text is one of the inner reader.
#[derive(Drop)]
pub struct ArmoredReader<R: BufRead> {
    pub(crate) source: Counted<R>,
    // How many of the counted bytes precede the text: none until the inner reader was asked for its place, and from then on all
    // that stand before it.
    pub(crate) preceding: u64,
    decoder: Decoder,
    pub(crate) stage: Stage,
    // The text of a line, where the inner reader doesn't show it in one piece.
    line: Vec<u8>,
    // What was read and not given yet.
    pub(crate) window: Window,
    // How many bytes of the content were given. This too is exact where the inner reader tells its bytes, and stays at
    // 2^64 - 1.
    pub(crate) place: u64,
    pub(crate) failed: bool,
    pub(crate) marks: Marks,
    ghost sound: { IsSound source preceding stage (held_in window) place failed marks },
}

impl<R: BufRead> Read for ArmoredReader<R> {
    ghost use Rattle.age_armor.specs.Reader.{inner_of, armored_content, place_of, armored_rest, refuses_of, ReadsArmor};

    ghost tells = { λ r. R.Read.tells (inner_of r) };

    ghost steady = { λ r. R.Read.steady (inner_of r) };

    ghost content = { armored_content };

    ghost place = { place_of };

    ghost rest = { armored_rest };

    ghost faults = { λ r. R.Read.faults (inner_of r) };

    ghost refuses = { λ r. refuses_of r };

    ghost read_besides = { ReadsArmor };

    ghost faults_fit = { λ r. R.Read.faults_fit r.source.inner };

    ghost spent = { λ r told is. spent_ahead r.failed (held_in r.window) r.stage (R.Read.rest r.source.inner)
        (R.Read.faults r.source.inner) r.sound.fresh r.sound.unspent is (R.Read.spent r.source.inner told is) };

    ghost well = { λ r told well. R.Read.well r.source.inner told
        (well_inner (R.Read.content r.source.inner) (R.Read.place r.source.inner - r.source.taken + r.preceding) well) };

    ghost stands = { λ r told steady. stands_by (armored_content r) (armored_rest r) r.place (r.sound.text told steady).inside
        (λ some. ((r.sound.text told steady).follows some).rest) };

    ghost are_bytes = { λ r told. content_bytes (R.Read.content r.source.inner) (R.Read.place r.source.inner - r.source.taken + r.preceding)
        (R.Read.are_bytes r.source.inner told) };

    ghost short = { λ r told. content_short (R.Read.content r.source.inner) (R.Read.place r.source.inner - r.source.taken + r.preceding)
        (R.Read.are_bytes r.source.inner told) (R.Read.short r.source.inner told) };

    ghost place_fits = { λ r told. r.sound.fits told };

    /// Puts the next bytes in front of `buf`, and answers how many they are: of armor at most the rest of one line.
    ///
    /// An empty buffer changes nothing, and the answer is 0. Else 0 is the end: the inner reader ended well, and the text
    /// carries exactly the bytes that were given. A refusal is
    ///
    /// - `UnexpectedEof`: the text has fewer than 36 bytes.
    /// - `Armor(..)`: the first fault of the text, in the order of its lines.
    /// - that of the inner reader, where it refuses before a line is whole, or in place of its end. Its interruptions
    ///   are tried again up to 16 times in a row; after that the answer is `Device(Other)`.
    /// - `OutOfMemory`: memory for a line's text was refused.
    /// - `TooLong`: the inner reader doesn't tell its bytes, and gave white space behind the end marker in 2^64 - 1 reads.
    /// - `Failed`: it refused before.
    ///
    /// After a refusal the reader has failed, and stays so. The place is as it was, and so is the buffer where the text begins
    /// as armor does.
    ///
    /// Its contract is that of each reader, with `ReadsArmor` in the clause `besides`:
    ///
    /// - `gives`: which bytes it gives, what becomes of the rest of the buffer, and that it has found out the form of the text.
    /// - `text`: the text stays, what it delivers in all, and how it ends; a refusal that neither the device nor memory made is
    ///   that of this end. Whether or not the device failed, a refusal is want of memory, one that the inner reader might make, or
    ///   the end's, where nothing else is left (`says`).
    /// - `learns`, `knows`: how many lines it takes, how far the text was read then, and that its end is known after a 0.
    /// - `good`, `failed`, `empty`: it fails for good, interruptions were tried again, and a failed reader and an empty buffer
    ///   change nothing.
    #[tactic(auto, using(crate::proofs::Ahead::rest_failed, crate::proofs::Ahead::shown_small))]
    fn read(&mut self, buf: &mut [u8]) -> Result<usize, Error> {
        if self.failed {
            return Err(Error::Failed);
        }
        if buf.is_empty() {
            return Ok(0);
        }
        self.read_on(buf)
    }
}

impl<R: BufRead> ArmoredReader<R> {
    ghost use Rattle.age_armor.specs.Reader.{inner_of, has_failed, has_armor, taken_of, source_of, lines_of, furthest_of, knows_end, place_of, armored_rest, shown_of, GivesLine, Learns};
    ghost use Rattle.age_armor.specs.Opening.{OpensText};
    ghost use Rattle.age_armor.specs.PrivateSeeking.{Goes};
    ghost use Rattle.age_armor.specs.PrivateSteps.{WhereTold, KeepsText, EndsAsBefore, RefusesAsTold, CountsTaken, HoldsNext, ReadsNothing, StaysBinary};

    /// A reader of what the text carries that begins where `inner` stands.
    ///
    /// It reads nothing yet, takes no memory and never refuses (`ok`). By `opens` it is what `new` makes, but over `inner` itself
    /// (`inner`).
    pub fn new_buffered(alloc: Global, inner: R) -> Result<ArmoredReader<R>, Error>
    where
        R: Drop,
        ensures opens { OpensText ⟦<R as Read>⟧ inner result }
        ensures inner { IfOk result (λ r. inner_of r ≡ inner) }
        ensures ok { IsOk result }
    {
        Ok(ArmoredReader {
            source: Counted {
                inner,
                taken: 0,
                lines: 0,
                ahead: [0; 768],
                next: 0,
                left: 0,
            },
            preceding: 0,
            decoder: Decoder::new(),
            stage: Stage::Start,
            line: Vec::new(alloc),
            window: Window::new(),
            place: 0,
            failed: false,
            marks: Marks::new(alloc),
        })
    }

    /// Hands back the inner reader where it stands: in the text, behind all that was taken for what was given and for what is
    /// held. It never refuses.
    ///
    /// What is held and wasn't given is lost with this reader. Of a binary text the inner reader has the rest behind what is
    /// held; of armor it may stand further on, since markers and lines are taken before their bytes are given.
    pub fn into_inner(self) -> R
        ensures inner { result ≡ inner_of self }
        ensures stands { IsTrue (R.Read.tells (inner_of self)) → IsTrue (R.Read.steady (inner_of self)) →
            StandsIn (source_of self) (taken_of self) (R.Read.rest result) }
        ensures behind { IsTrue (R.Read.tells (inner_of self)) → has_failed self ≡ false → place_of self + length (shown_of self) ≤ taken_of self }
        ensures binary { has_failed self ≡ false → has_armor self ≡ false → 0 < taken_of self →
            Delivers (shown_of self) (armored_rest self) (R.Read.rest result) }
    {
        self.source.inner
    }

    /// How many lines were taken so far: one for each line after the begin marker's, up to and with the end marker's, that a read,
    /// a look or a seek took, each time that it did. It is 0 of a binary text, and stays at 2^64 - 1.
    ///
    /// Over an inner reader that tells its bytes 48 times as many are, in armor, no fewer than the bytes up to the furthest place
    /// that was come to (`least`), and that place isn't before what a good reader has given and holds (`reached`).
    pub fn lines(&self) -> u64
        ensures count { result ≡ lines_of self.now }
        ensures least { IsTrue (R.Read.tells (inner_of self.now)) → IsTrue (has_armor self.now) → furthest_of self.now ≤ 48 * result }
        ensures reached { IsTrue (R.Read.tells (inner_of self.now)) → has_failed self.now ≡ false →
            place_of self.now + length (shown_of self.now) ≤ furthest_of self.now }
    {
        self.source.lines
    }

    // A read of a good reader into a buffer that isn't empty.
    #[tactic(auto, using(crate::proofs::Ahead::rest_failed, crate::proofs::Ahead::shown_small))]
    pub(crate) fn read_on(&mut self, buf: &mut [u8]) -> Result<usize, Error>
        requires good { self.old.failed ≡ false }
        requires some { 0 < length buf.old }
        ensures reads { ReadsBy ⟦<ArmoredReader<R> as Read>⟧ self.old self.new buf.new result }
        ensures good { FailsForGood (has_failed self.old) (has_failed self.new) result }
        ensures ending { EndsAsBefore self.old self.new result }
        ensures why { RefusesAsTold self.old result }
        ensures same_text { WhereTold self.old (source_of self.new ≡ source_of self.old) }
        ensures gives { GivesLine self.old self.new buf.old buf.new result }
        ensures counts { CountsTaken self.old self.new result }
        ensures learns { Learns self.old self.new result }
        ensures knows { IfOk result (λ n. n ≡ 0 → IsTrue (knows_end self.new)) }
    {
        if self.is_passing() {
            return self.pass(buf);
        }
        match self.hold() {
            Err(e) => Err(e),
            Ok(()) => Ok(self.give(buf)),
        }
    }

    // Whether the text is binary and nothing of it is held.
    fn is_passing(&self) -> bool
        ensures { IsTrue result → (self.now.stage ≡ Binary) × (held_in self.now.window ≡ []) }
    {
        match self.stage {
            Stage::Binary => self.window.is_empty(),
            _ => false,
        }
    }

    // Passes on a read of a binary text.
    #[tactic(auto, using(crate::proofs::Ahead::rest_failed))]
    fn pass(&mut self, buf: &mut [u8]) -> Result<usize, Error>
        requires good { self.old.failed ≡ false }
        requires some { 0 < length buf.old }
        requires binary { self.old.stage ≡ Binary }
        requires given { held_in self.old.window ≡ [] }
        ensures reads { ReadsBy ⟦<ArmoredReader<R> as Read>⟧ self.old self.new buf.new result }
        ensures good { FailsForGood (has_failed self.old) (has_failed self.new) result }
        ensures ending { EndsAsBefore self.old self.new result }
        ensures why { RefusesAsTold self.old result }
        ensures text { KeepsText self.old self.new }
        ensures binary { StaysBinary self.old self.new }
        ensures stays { OnErr result (self.new.place ≡ self.old.place) }
        ensures knows { IfOk result (λ n. n ≡ 0 → IsTrue (knows_end self.new)) }
    {
        match self.source.read(buf) {
            Ok(count) => {
                self.marks.learn(Stage::Binary, self.place, 0, count);
                self.place = self.place.saturating_add(count as u64);
                Ok(count)
            }
            Err(e) => {
                self.failed = true;
                Err(e)
            }
        }
    }

    // Whether a byte is held, or the end was found.
    fn is_ready(&self) -> bool
        requires { self.now.failed ≡ false }
        ensures begun { IsTrue result → is_start self.now.stage ≡ false }
        ensures end { IsTrue result → held_in self.now.window ≡ [] → is_ended self.now.stage ≡ true }
        ensures none { result ≡ false → held_in self.now.window ≡ [] }
        ensures more { result ≡ false → is_ended self.now.stage ≡ false }
    {
        if self.window.is_empty() {
            return matches!(self.stage, Stage::Ended);
        }
        true
    }

    // Reads on where nothing is held. Then nothing is held at a clean end alone.
    #[tactic(auto, using(crate::proofs::Ahead::rest_failed))]
    fn hold(&mut self) -> Result<(), Error>
        requires { self.old.failed ≡ false }
        ensures goes { let reader = ⟦<ArmoredReader<R> as Read>⟧ in Goes reader reader.refuses self.old self.new result }
        ensures good { FailsForGood (has_failed self.old) (has_failed self.new) result }
        ensures ending { EndsAsBefore self.old self.new result }
        ensures why { RefusesAsTold self.old result }
        ensures text { KeepsText self.old self.new }
        ensures holds { HoldsNext self.old self.new result }
        ensures counts { CountsTaken self.old self.new result }
        ensures lines { lines_of self.new ≤ lines_of self.old + 1 }
        ensures cause { WhereTold self.old (IfErr result (λ e. e ≢ OutOfMemory →
            IsQuiet (R.Read.faults (inner_of self.old)) (R.Read.faults (inner_of self.new)) → IsFault (armored_rest self.old))) }
    {
        if self.is_ready() {
            return Ok(());
        }
        let taken = self.source.taken.saturating_sub(self.preceding);
        match advance(
            &mut self.source,
            &self.decoder,
            self.stage,
            &mut self.line,
            &mut self.window.bytes,
        ) {
            Ok(piece) => {
                self.marks.learn(self.stage, self.place, taken, piece.count);
                self.stage = piece.next;
                self.window.hold(piece.count);
                Ok(())
            }
            Err(e) => {
                self.failed = true;
                Err(e)
            }
        }
    }

    // Gives what is held, as far as `buf` has room.
    fn give(&mut self, buf: &mut [u8]) -> usize
        requires { self.old.failed ≡ false }
        ensures count { result ≡ min (length buf.old) (length (held_in self.old.window)) }
        ensures reads { ReadsNothing self.old self.new }
        ensures shown { shown_of self.new ≡ drop result (shown_of self.old) }
        ensures bytes { Delivers (take result buf.new) (armored_rest self.old) (armored_rest self.new) }
        ensures beyond { drop result buf.new ≡ drop result buf.old }
        ensures moves { WhereTold self.old (self.new.place ≡ self.old.place + result) }
        ensures sum { WhereTold self.old (self.new.place + length (held_in self.new.window) ≡ self.old.place + length (held_in self.old.window)) }
    {
        let count = self.window.give(buf);
        self.place = self.place.saturating_add(count as u64);
        count
    }

    // What is held.
    fn as_held(&self) -> &[u8]
        requires { self.now.failed ≡ false }
        ensures shown { shown_of self.now ≡ result.now }
        ensures front { IsFront result.now (armored_rest self.now) }
        ensures none { length result.now ≡ 0 → held_in self.now.window ≡ [] }
    {
        self.window.as_slice()
    }
}

impl<R: BufRead> fmt::Debug for ArmoredReader<R> {
    // No byte of the text and of what it carries.
    ghost debug_output = { λ _. Some (codes "ArmoredReader { .. }") };

    fn fmt<W: fmt::Write>(&self, f: &mut fmt::Formatter<W>) -> fmt::Result {
        f.write_str("ArmoredReader { .. }")
    }
}

impl<R: BufRead> BufRead for ArmoredReader<R> {
    ghost use Rattle.age_armor.specs.Reader.{shown_of, ShowsArmor, SameButPlace};

    ghost shown = { shown_of };

    ghost besides = { λ old new result. ShowsArmor old new result };

    /// Shows what is held of a line, or the next line's bytes where nothing is held.
    ///
    /// It refuses as `read` does, and then has failed as after `read`. Its contract is that of each reader, with `ShowsArmor` in
    /// its field `own`: `text`, `learns` and `good` are as for `read`, by `form` it has found out the form of the text, and by
    /// `knows` the end is known where it shows nothing.
    #[tactic(auto, using(crate::proofs::Ahead::rest_failed))]
    fn fill_buf(&mut self) -> Result<&[u8], Error> {
        if self.failed {
            return Err(Error::Failed);
        }
        match self.hold() {
            Err(e) => Err(e),
            Ok(()) => Ok(self.as_held()),
        }
    }

    /// Takes bytes of what was shown. It takes no line, and asks the inner reader for nothing.
    ///
    /// `consumes` is what each reader says: the place moves, and what is shown gets shorter. By `same` all else stays: it neither
    /// fails nor makes good again, and what was found of the text is the same.
    fn consume(&mut self, amount: usize)
        requires { amount ≤ length (shown_of self.old) }
        ensures consumes { ConsumesBy ⟦<ArmoredReader<R> as Read>⟧ (λ r. shown_of r) self.old self.new amount }
        ensures same { SameButPlace self.old self.new }
    {
        self.window.pass(amount);
        self.place = self.place.saturating_add(amount as u64);
    }
}

impl<R: Read> ArmoredReader<BufReader<R>> {
    ghost use Rattle.age_armor.specs.Opening.{OpensText};

    /// A reader of what the text carries that begins where `inner` stands, over a buffer of its own.
    ///
    /// It reads nothing yet. It takes memory for the buffer, and answers `OutOfMemory` where it is refused that; then `inner` is
    /// gone.
    ///
    /// `OpensText` says of a success that the reader tells its bytes, is steady and counts faults as `inner` does (`tells`, `steady`,
    /// `faults`), that it stands at the front of a text of which nothing was read (`unread`, `begins`, `place`), that it delivers what
    /// the definition makes of `inner`'s content and rest, to a clean end exactly what the rest carries (`content`, `rest`,
    /// `carries`, `honest`), and why its calls refuse (`named`).
    pub fn new(alloc: Global, inner: R) -> Result<ArmoredReader<BufReader<R>>, Error>
    where
        R: Drop,
        ensures { OpensText ⟦<R as Read>⟧ inner result }
    {
        let buffered = BufReader::new(alloc, inner)?;
        ArmoredReader::new_buffered(alloc, buffered)
    }
}
