//! Reading a payload.
ghost use Rattle.std.specs.Prelude.{◌≡◌, ◌+◌, ◌-◌, ◌^◌, ◌<◌, ◌≤◌, ◌⊎◌, ◌&&◌, Option, Some, None, option_map, vec_items, IfSome, true, false, IsTrue, min, length, take, drop, MatchResult, IfOk, IfErr, OnOk, Ok, Err};
ghost use Rattle.std.proofs.Common.{arith};
ghost use Rattle.age_error.specs.Bytes.{AreBytesOf};
ghost use Rattle.age_error.specs.declared.io.Error.TheVariants.{OutOfMemory, Failed, AfterLast};
ghost use Rattle.age_io.specs.Reading.{Delivers, most_faults};
ghost use Rattle.age_io.specs.Calls.{ReadsBy};
ghost use Rattle.age_v1.specs.Payload.{chunk_nonce};
ghost use Rattle.age_v1.specs.PayloadAnswers.{Gives};
ghost use Rattle.age_v1.specs.DeliveredPayload.{allowed, chunk_of};
ghost use Rattle.age_stream.specs.Keeping.{OwnOrInner, IsReadRefusal};
ghost use Rattle.age_stream.specs.PrivateKeeping.{IsChunkRefusal, KeepsPayload};
ghost use Rattle.age_stream.specs.Reading.{payload_from, spare, tells_from, IsSound};
ghost use Rattle.age_stream.specs.Cache.{last_used};
ghost use Rattle.age_stream.specs.PrivateCache.{IsAtChunk, IsKept};
ghost use Rattle.age_stream.specs.PrivateWholeness.{IsAllowedAt, IsOpening, OpensTwice};
ghost use Rattle.age_suite.specs.Suite.{one_more};
ghost use Rattle.age_stream.specs.ReadingLemmas.{and-left, and-right, both-true, stream_stands, stream_spent};
ghost use Rattle.age_v1.proofs.OpenedTexts.{shorter, opens_bytes};
ghost use Rattle.age_v1.proofs.DeliveredSizes.{delivered-bytes, delivered-short};

use crate::cache::Cache;
use crate::nonce::nonce_of;
use crate::place::Place;
use crate::sizes::{CHUNK, MOST_CHUNKS};
use crate::source::Source;
use age_error::bytes::{known_array, known_bytes};
use age_error::io::Error;
use age_io::Read;
use age_suite::suite::{Opens, Suite};
use std::alloc::{AllocError, Global};
use std::marker::PhantomData;

/// Reads a payload from an inner reader, and gives its plaintext by `Read`.
///
/// The payload is that of age-encryption.org/v1, "Payload": the plaintext in chunks of 65,536 bytes, each sealed under
/// the payload key and a nonce that counts the chunks and says of the last one that it is (STREAM). A sealed chunk has
/// 16 bytes more. Each chunk is opened whole before a byte of it is given. The two that were used last, by a read or by a
/// seek to the end, are kept, so back and forth between two places opens nothing anew; a reader that has failed keeps none.
/// It seeks where the inner reader does.
pub struct StreamReader<S: Suite, R: Read> {
    pub(crate) alloc: Global,
    pub(crate) key: [u8; 32],
    // Where the payload comes from.
    pub(crate) source: Source<R>,
    pub(crate) place: Place,
    pub(crate) cache: Cache,
    pub(crate) opens: Opens,
    pub(crate) suite: PhantomData<S>,
    ghost key_bytes: { AreBytesOf 32 key },
    ghost chunk: { place.held ≡ true → IsAtChunk place.number place.at cache },
    ghost count_fits: { opens < 2 ^ 64 },
    ghost unspent: { place.failed ≡ false → place.held ≡ true → R.faults source.inner < most_faults },
    ghost kept: { IsTrue (tells_from source) → IsKept S.opened key (payload_from source) cache },
    ghost sound: { IsTrue (tells_from source) → IsSound S.opened key place cache source },
}

impl<S: Suite, R: Read> Read for StreamReader<S, R> {
    ghost use Rattle.age_stream.specs.Reader.{tells_of, steady_of, content_of, place_of, plain_rest_of, faults_of, refuses_of};
    ghost use Rattle.age_stream.specs.Sealed.{ReadsPayload, GivesPlaintext, RefusesPayload, LeavesPayload, OpensTwiceAtMost, KeepsRead};

    ghost tells = { tells_of };

    ghost steady = { steady_of };

    ghost content = { content_of };

    ghost place = { place_of };

    ghost rest = { plain_rest_of };

    ghost faults = { faults_of };

    ghost refuses = { refuses_of };

    ghost read_besides = { ReadsPayload };

    ghost faults_fit = { λ r. R.faults_fit r.source.inner };

    ghost spent = { λ r told is. stream_spent S.opened r.key (shorter S.seal_of S.opened S.cipher r.key r.key_bytes) r.place r.cache (R.rest
        r.source.inner)
        (λ good held. Prim.omega (arith, is, r.unspent good held)) (R.spent r.source.inner (and-left _ _ told) is) };

    ghost well = { λ r told well. both-true _ _ told well };

    ghost stands = { λ r told steady. stream_stands S.opened r.key (shorter S.seal_of S.opened S.cipher r.key r.key_bytes) r.place r.cache r.source
        told
        (R.are_bytes r.source.inner (and-left _ _ told)) (λ held. (r.chunk held).in_chunk) (r.sound told)
        (R.stands r.source.inner (and-left _ _ told) (and-right _ _ told)) (and-right _ _ steady) };

    ghost are_bytes = { λ r told. delivered-bytes S.opened r.key (shorter S.seal_of S.opened S.cipher r.key r.key_bytes)
        (opens_bytes S.seal_of S.opened S.cipher r.key r.key_bytes) 0 (R.place r.source.inner - r.source.taken) (R.content r.source.inner)
        (R.are_bytes r.source.inner (and-left _ _ told)) };

    ghost short = { λ r told. delivered-short S.opened r.key (shorter S.seal_of S.opened S.cipher r.key r.key_bytes)
        (opens_bytes S.seal_of S.opened S.cipher r.key r.key_bytes) 0 (R.place r.source.inner - r.source.taken) (R.content r.source.inner)
        (R.are_bytes r.source.inner (and-left _ _ told)) (R.short r.source.inner (and-left _ _ told)) };

    ghost place_fits = { λ r told. Prim.omega (arith, r.place.offset, r.place.limit) };

    /// Puts the next bytes of the plaintext in front of `buf`, and answers how many they are: the smaller of the buffer
    /// and what is left of the chunk at the place.
    ///
    /// An empty buffer changes nothing, and the answer is 0. Else 0 is the end: the place is the plaintext's length, as
    /// the payload's own length gives it, and the last chunk is one. Where no seek was made, the payload was then that of
    /// exactly the plaintext (`gives`). Where no byte is held the chunk at the place is read and, unless it is one of the two that are
    /// kept, opened, a full one as a middle chunk and then as the last, a shorter one, after which the inner reader ends
    /// well, only as the last. So a read opens a chunk at most twice (`opens`). It seeks nothing. A refusal is (`refuses`)
    ///
    /// - `Truncated`: no byte is left, and no chunk was the last; or fewer than a seek found, which an inner reader that
    ///   tells its bytes never has.
    /// - `BadChunk`: the chunk opens neither as a middle one nor as the last.
    /// - `LastChunkEmpty`: the last chunk is empty, and isn't the only one.
    /// - `TooLong`: the chunk holds a byte of the plaintext at place 2^60 or later.
    /// - `AfterLast`: bytes follow a chunk that opened as the last, and that reads came through to its end since the last
    ///   seek that succeeded. Right after a seek the chunk at the place is judged by itself.
    /// - that of the inner reader, where it refuses before a chunk is whole, or in place of its end after the last
    ///   chunk, and by the name that it has there: any other comes only where no read of it was refused. Its
    ///   interruptions are retried as by `fill`.
    /// - `OutOfMemory`: the suite was refused memory for the plaintext of a chunk. Nothing is said of the payload.
    /// - `Failed`: it refused before.
    ///
    /// After a refusal the reader has failed, and stays so until a seek succeeds. The place and `buf` are as they were (`leaves`).
    /// Of the opened chunks it has the one that it reads, and the one that was used last before (`chunks`).
    #[tactic(auto, using(crate::proofs::Holding::rest_failed, crate::proofs::Holding::fault_failed))]
    fn read(&mut self, buf: &mut [u8]) -> Result<usize, Error>
        ensures reads { ReadsBy ⟦<StreamReader<S, R> as Read>⟧ self.old self.new buf.new result }
        ensures gives { GivesPlaintext self.old self.new buf.old buf.new result }
        ensures refuses { RefusesPayload self.old self.new result }
        ensures leaves { LeavesPayload self.old self.new buf.old buf.new result }
        ensures opens { OpensTwiceAtMost self.old self.new result }
        ensures chunks { KeepsRead self.old self.new result }
    {
        if self.place.failed {
            return Err(Error::Failed);
        }
        if buf.is_empty() {
            return Ok(0);
        }
        self.read_on(buf)
    }
}

impl<S: Suite, R: Read> StreamReader<S, R> {
    ghost use Rattle.age_stream.specs.Reader.{payload_of, inner_of, place_of, IsHolding, IsAfterLast, opens_of, stops_of};
    ghost use Rattle.age_stream.specs.Naming.{RefusedBelow, RefusesMore, RefusesText, SaysWhy};
    ghost use Rattle.age_stream.specs.NewReader.{IsReaderOf};
    ghost use Rattle.age_stream.specs.PrivateSteps.{AnswersRead, EndsClean, GivesHeld, HasOpenedAt, Moves, OpensFew, PassesOn, ReadsChunks, RefusesPastLast, RefusesAtPlace, Stays, StaysAt};

    /// A reader of the payload that begins where `inner` stands, under the payload key of 32 bytes. It stands before the
    /// first byte of the plaintext. It reads a plaintext to a clean end exactly where `inner` stands before the plaintext's payload
    /// and a clean end (`made`).
    ///
    /// It reads nothing and opens nothing yet. It takes memory for one sealed chunk, 65,552 bytes, which serves for the
    /// whole payload, and answers `OutOfMemory` where it is refused that. A chunk's plaintext is memory of its own, for
    /// as long as it is held or kept: of two chunks at most, the one that is being opened among them.
    pub fn with_payload_key(alloc: Global, key: [u8; 32], inner: R) -> Result<Self, Error>
    where
        R: Drop,
        ensures made { IfOk result (IsReaderOf key inner) }
        ensures memory { IfErr result (λ e. e ≡ OutOfMemory) }
    {
        // For the proof alone: these are bytes, each below 256.
        known_array(&key);
        let source = Source::new(alloc, inner)?;
        Ok(StreamReader {
            alloc,
            key,
            source,
            place: Place {
                number: 0,
                at: 0,
                held: false,
                failed: false,
                sought: false,
            },
            cache: Cache::new(alloc),
            opens: Opens::new(),
            suite: PhantomData,
        })
    }

    /// How often this reader opened a chunk: one more for each call of the suite's `open`. It stays at 2^64 - 1.
    pub fn opens(&self) -> u64
        ensures { result ≡ opens_of self.now }
    {
        self.opens.count()
    }

    /// Hands back the inner reader as it stands: after the bytes that reads took of it, or where a seek put it. A chunk is
    /// taken whole for its first byte, so what is left of the one that is held is gone. It reads nothing.
    pub fn into_inner(self) -> R
        ensures inner { result ≡ inner_of self }
    {
        let StreamReader {
            alloc: _,
            key: _,
            source,
            place: _,
            cache: _,
            opens: _,
            suite: _,
        } = self;
        source.into_inner()
    }

    // A read of a good reader into a buffer that isn't empty.
    #[tactic(auto, using(crate::proofs::Holding::rest_failed, crate::proofs::Holding::fault_failed, crate::proofs::Keeping::ok_narrows))]
    pub(crate) fn read_on(&mut self, buf: &mut [u8]) -> Result<usize, Error>
        requires good { self.old.place.failed ≡ false }
        requires some { 0 < length buf.old }
        ensures reads { ReadsBy ⟦<StreamReader<S, R> as Read>⟧ self.old self.new buf.new result }
        ensures keeps { KeepsPayload (stops_of self.old) self.old.source self.new.source result }
        ensures names { IfErr result (OwnOrInner ⟦<R as Read>⟧ IsReadRefusal self.old.source.inner) }
        ensures says { IfErr result (SaysWhy self.old self.new) }
        ensures moves { Moves self.old self.new result }
        ensures answers { AnswersRead self.old self.new buf.old buf.new result }
        ensures opens { OpensFew self.old self.new result }
        ensures chunks { ReadsChunks self.old self.new result }
    {
        if self.is_after_last() {
            return self.end();
        }
        self.hold()?;
        Ok(self.give(buf))
    }

    // Whether it has come through a chunk that it holds as the last.
    fn is_after_last(&self) -> bool
        ensures yes { IsTrue result → IsAfterLast self.now }
        ensures no { result ≡ false → IsAfterLast self.now → ⊥ }
    {
        self.place.held && self.cache.first.last && self.place.at == self.cache.first.piece.len()
    }

    // Holds a byte of the chunk at the place, or the last chunk, which is empty.
    fn hold(&mut self) -> Result<(), Error>
        requires good { self.old.place.failed ≡ false }
        requires more { self.old.place.held ≡ true → self.old.cache.first.last ≡ true → self.old.place.at < length self.old.cache.first.piece.items }
        ensures keeps { KeepsPayload (stops_of self.old) self.old.source self.new.source result }
        ensures names { IfErr result (OwnOrInner ⟦<R as Read>⟧ IsReadRefusal self.old.source.inner) }
        ensures says { IfErr result (λ e. RefusedBelow ⟦<R as Read>⟧ 65552 self.old.source.inner self.new.source.inner e
            ⊎ RefusesText self.old self.new e) }
        ensures stays { StaysAt self.old self.new }
        ensures holds { OnOk result (HasOpenedAt self.old self.new) }
        ensures refused { IfErr result (RefusesAtPlace self.old self.new) }
        ensures opens { OpensFew self.old self.new result }
    {
        self.pass();
        if self.place.held {
            return Ok(());
        }
        self.open()
    }

    // After a middle chunk that was given whole the place is the front of the next.
    fn pass(&mut self)
        requires good { self.old.place.failed ≡ false }
        requires more { self.old.place.held ≡ true → self.old.cache.first.last ≡ true → self.old.place.at < length self.old.cache.first.piece.items }
        ensures passes { PassesOn self.old self.new }
        ensures left { self.new.place.held ≡ true → self.new.place.at < length self.new.cache.first.piece.items }
        ensures holding { (IsHolding self.old → IsHolding self.new) × (IsHolding self.new → IsHolding self.old) }
        ensures spared { self.new.opens + spare self.new.place.held self.new.cache.first.last + self.old.place.number
            ≤ self.old.opens + spare self.old.place.held self.old.cache.first.last + self.new.place.number }
    {
        if self.place.held && self.place.at == self.cache.first.piece.len() {
            self.place.number += 1;
            self.place.at = 0;
            self.place.held = false;
        }
    }

    // After the last chunk: the end, or bytes that come after it.
    fn end(&mut self) -> Result<usize, Error>
        requires good { self.old.place.failed ≡ false }
        requires held { self.old.place.held ≡ true }
        requires last { self.old.cache.first.last ≡ true }
        requires given { self.old.place.at ≡ length self.old.cache.first.piece.items }
        ensures keeps { KeepsPayload (stops_of self.old) self.old.source self.new.source result }
        ensures names { IfErr result (OwnOrInner ⟦<R as Read>⟧ IsReadRefusal self.old.source.inner) }
        ensures says { IfErr result (λ e. RefusedBelow ⟦<R as Read>⟧ 1 self.old.source.inner self.new.source.inner e
            ⊎ RefusesMore self.old self.new e) }
        ensures stays { Stays self.old self.new }
        ensures sought { self.new.place.sought ≡ self.old.place.sought }
        ensures none { IfOk result (λ n. n ≡ 0) }
        ensures ends { OnOk result (EndsClean self.old self.new) }
        ensures refused { IfErr result (RefusesPastLast self.old self.new) }
    {
        // It stays so unless nothing follows.
        self.place.failed = true;
        let count = self.source.take(1)?;
        if count > 0 {
            return Err(Error::AfterLast);
        }
        self.place.failed = false;
        Ok(0)
    }

    // Reads and opens the chunk at the place.
    fn open(&mut self) -> Result<(), Error>
        requires good { self.old.place.failed ≡ false }
        requires closed { self.old.place.held ≡ false }
        ensures keeps { KeepsPayload (stops_of self.old) self.old.source self.new.source result }
        ensures names { IfErr result (OwnOrInner ⟦<R as Read>⟧ IsReadRefusal self.old.source.inner) }
        ensures says { IfErr result (λ e. RefusedBelow ⟦<R as Read>⟧ 65552 self.old.source.inner self.new.source.inner e
            ⊎ RefusesText self.old self.new e) }
        ensures stays { StaysAt self.old self.new }
        ensures holds { OnOk result (HasOpenedAt self.old self.new) }
        ensures refused { IfErr result (RefusesAtPlace self.old self.new) }
        ensures opens { OpensFew self.old self.new result }
    {
        // It stays so on each way out but the last.
        self.place.failed = true;
        let count = self.source.take(CHUNK)?;
        self.cache.bring::<S>(
            self.alloc,
            &mut self.opens,
            &self.key,
            self.place.number,
            &self.source.room[..count],
        )?;
        // Only where the inner reader has fewer bytes than a seek found.
        if self.place.at > self.cache.first.piece.len() {
            return Err(Error::Truncated);
        }
        self.place.held = true;
        self.place.failed = false;
        Ok(())
    }

    // Gives bytes of the chunk that is held.
    fn give(&mut self, buf: &mut [u8]) -> usize
        requires good { self.old.place.failed ≡ false }
        requires held { self.old.place.held ≡ true }
        ensures count { result ≡ min (length buf.old) (length self.old.cache.first.piece.items - self.old.place.at) }
        ensures held { GivesHeld self.old self.new }
        ensures moves { place_of self.new ≡ place_of self.old + result }
        ensures beyond { drop result buf.new ≡ drop result buf.old }
        ensures bytes { Delivers (take result buf.new)
            (⟦<StreamReader<S, R> as Read>⟧.rest self.old) (⟦<StreamReader<S, R> as Read>⟧.rest self.new) }
        ensures gives { let reader = ⟦<StreamReader<S, R> as Read>⟧ in IsTrue (reader.tells self.old) → 0 < result →
            Gives S.seal_of self.old.key (payload_of self.old) (reader.place self.old) (length buf.old) (take result buf.new) }
        ensures uses { 0 < result → last_used self.new.cache ≡ Some self.old.place.number }
    {
        let count = buf.len().min(self.cache.first.piece.len() - self.place.at);
        buf[..count].copy_from_slice(&self.cache.first.piece[self.place.at..self.place.at + count]);
        self.place.at += count;
        self.cache.used = true;
        count
    }
}

impl<S: Suite, R: Read + Drop> Drop for StreamReader<S, R> {
    fn drop(self) {
        let StreamReader {
            alloc: _,
            key: _,
            source: _,
            place: _,
            cache: _,
            opens: _,
            suite: _,
        } = self;
    }
}

// Opens a text under the nonce of a middle chunk or of the last one.
pub(crate) fn open_as<S: Suite>(
    alloc: Global,
    opens: &mut Opens,
    key: &[u8; 32],
    number: u64,
    last: bool,
    sealed: &[u8],
) -> Result<Option<Vec<u8>>, AllocError>
    ensures opened { IfOk result (λ o. option_map vec_items o ≡ S.opened key.now (chunk_nonce number last) sealed.now) }
    ensures length { IfOk result (λ o. IfSome o (λ v. length v.items + 16 ≡ length sealed.now)) }
    ensures opens { opens.new ≡ one_more opens.old }
{
    // For the proof alone: these are bytes, each below 256.
    known_array(key);
    known_bytes(sealed);
    S::open(alloc, opens, key, &nonce_of(number, last), sealed)
}

// Opens a chunk, as middle or as last.
#[tactic(auto, unfolding(age_v1::specs::DeliveredPayload::chunk_of))]
pub(crate) fn open_chunk<S: Suite>(
    alloc: Global,
    opens: &mut Opens,
    key: &[u8; 32],
    number: u64,
    sealed: &[u8],
) -> Result<(Vec<u8>, bool), Error>
    ensures chunk { MatchResult result (λ found. chunk_of S.opened key.now number sealed.now ≡ Ok (found.0.items, found.1))
        (λ e. (e ≡ OutOfMemory) ⊎ (chunk_of S.opened key.now number sealed.now ≡ Err e)) }
    ensures named { IfErr result IsChunkRefusal }
    ensures is { IfOk result (λ found. IsOpening number (length sealed.now) found.0.items found.1 opens.old opens.new) }
    ensures opens { OpensTwice opens.old opens.new }
{
    if sealed.is_empty() {
        return Err(Error::Truncated);
    }
    if sealed.len() == CHUNK {
        if let Some(plain) = open_as::<S>(alloc, opens, key, number, false, sealed)? {
            return allow(number, plain, false);
        }
    }
    match open_as::<S>(alloc, opens, key, number, true, sealed)? {
        Some(plain) => allow(number, plain, true),
        None => Err(Error::BadChunk),
    }
}

// Refuses an empty chunk after others, and a byte past the longest plaintext.
fn allow(number: u64, plain: Vec<u8>, last: bool) -> Result<(Vec<u8>, bool), Error>
    ensures chunk { MatchResult result (λ found. allowed number (plain.items, last) ≡ Ok (found.0.items, found.1))
        (λ e. allowed number (plain.items, last) ≡ Err e) }
    ensures named { IfErr result IsChunkRefusal }
    ensures is { IfOk result (λ found. IsAllowedAt number found.0.items) }
    ensures same { IfOk result (λ found. (found.0 ≡ plain) × (found.1 ≡ last)) }
{
    if plain.is_empty() {
        if number > 0 {
            return Err(Error::LastChunkEmpty);
        }
    } else if number >= MOST_CHUNKS {
        return Err(Error::TooLong);
    }
    Ok((plain, last))
}
