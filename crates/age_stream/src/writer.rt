//! Writing a payload.
ghost use Rattle.std.specs.Prelude.{◌≡◌, ◌+◌, ◌*◌, ◌^◌, ◌<◌, ◌≤◌, true, false, IsTrue, [], length, take, IfOk, IfErr, OnOk, OnErr, IsOk, IsOkAnd, Err, vec_len, vec_capacity};
ghost use Rattle.age_error.specs.declared.io.Error.TheVariants.{Failed, OutOfMemory};
ghost use Rattle.age_io.specs.Writing.{KeepsWriter};
ghost use Rattle.age_io.specs.Copying.{AppendsFront};
ghost use Rattle.age_stream.specs.Sending.{RefusesChunk};
ghost use Rattle.age_v1.specs.Payload.{chunk_nonce};

use crate::nonce::nonce_of;
use crate::sizes::{MOST_CHUNKS, PIECE};
use age_error::io::Error;
use age_io::{Write, write_all};
use age_suite::suite::Suite;
use std::alloc::Global;
use std::marker::PhantomData;
use std::mem;

/// Memory for the chunk that a `StreamWriter` holds, for one who writes to the inner writer before and wants to be sure
/// of the memory first.
#[derive(Drop)]
pub struct ChunkRoom {
    alloc: Global,
    held: Vec<u8>,
    ghost empty: { held.items ≡ [] },
    ghost has_room: { 65536 ≤ vec_capacity held },
}

impl ChunkRoom {
    /// Memory for one chunk of plaintext, 65,536 bytes. It answers `OutOfMemory` where it is refused that.
    pub fn new(alloc: Global) -> Result<ChunkRoom, Error>
        ensures { IfErr result (λ e. e ≡ OutOfMemory) }
    {
        let held = Vec::with_capacity(alloc, PIECE)?;
        Ok(ChunkRoom { alloc, held })
    }
}

/// Takes a plaintext by `Write`, and writes its payload to an inner writer.
///
/// The payload is that of age-encryption.org/v1, "Payload": the plaintext in chunks of 65,536 bytes, each sealed
/// under the payload key and a nonce that counts the chunks and says of the last one that it is (STREAM). It is
/// whole only after `finish` or `close`. A writer that is dropped before that leaves a beginning of it.
pub struct StreamWriter<S, W> {
    pub(crate) alloc: Global,
    pub(crate) key: [u8; 32],
    pub(crate) inner: W,
    // The last piece so far, which is not sealed before a byte follows it or it is closed.
    pub(crate) held: Vec<u8>,
    // How many pieces were sealed.
    pub(crate) sealed: u64,
    pub(crate) failed: bool,
    pub(crate) suite: PhantomData<S>,
    ghost one_piece: { vec_len held ≤ 65536 },
    ghost has_room: { 65536 ≤ vec_capacity held },
    ghost in_limit: { 65536 * sealed + vec_len held ≤ 2 ^ 60 },
}

impl<S: Suite, W: Write> StreamWriter<S, W> {
    ghost use Rattle.age_stream.specs.Writing.{CanExchange, HoldsMore, TakesSome, WasMade, Sent, Took, SendsFront, taken_len, held_len};

    /// A writer that has taken nothing. The payload begins where `inner` stands.
    ///
    /// It writes nothing. It takes memory for one chunk, 65,536 bytes, which serves for the whole plaintext, and
    /// answers `OutOfMemory` where it is refused that. A chunk's seal is memory of its own, for as long as it is
    /// written.
    pub fn with_payload_key(alloc: Global, key: [u8; 32], inner: W) -> Result<Self, Error>
    where
        W: Drop,
        ensures made { IfOk result (WasMade key inner) }
        ensures empty { IfOk result (λ w. (taken_len w ≡ 0) × (held_len w ≡ 0)) }
        ensures same_tells { IfOk result (λ w. ⟦<StreamWriter<S, W> as Write>⟧.tells w ≡ W.tells inner) }
        ensures same_faults { IfOk result (λ w. ⟦<StreamWriter<S, W> as Write>⟧.faults w ≡ W.faults inner) }
        ensures memory { IfErr result (λ e. e ≡ OutOfMemory) }
    {
        let room = ChunkRoom::new(alloc)?;
        Ok(StreamWriter::with_room(room, key, inner))
    }

    /// The same with memory that was taken before. It takes none itself, so it never refuses.
    pub fn with_room(room: ChunkRoom, key: [u8; 32], inner: W) -> Self
        ensures made { WasMade key inner result }
        ensures empty { (taken_len result ≡ 0) × (held_len result ≡ 0) }
        ensures same_tells { ⟦<StreamWriter<S, W> as Write>⟧.tells result ≡ W.tells inner }
        ensures same_faults { ⟦<StreamWriter<S, W> as Write>⟧.faults result ≡ W.faults inner }
    {
        let ChunkRoom { alloc, held } = room;
        StreamWriter {
            alloc,
            key,
            inner,
            held,
            sealed: 0,
            failed: false,
            suite: PhantomData,
        }
    }

    // Seals what is held, where it is full, so that another byte finds room.
    fn make_room(&mut self) -> Result<(), Error>
        requires { taken_len self.old < 2 ^ 60 }
        ensures room { OnOk result ((held_len self.new < 65536) × (taken_len self.new ≡ taken_len self.old)) }
        ensures roomy { held_len self.old < 65536 → IsOk result × (held_len self.new ≡ held_len self.old) × (self.new.inner ≡ self.old.inner) }
        ensures sent { IsTrue (W.tells self.old.inner) → OnOk result (Sent S.seal_of W.appended self.old [] self.new) }
        ensures front { IsTrue (W.tells self.old.inner) → OnErr result ((held_len self.old ≡ 65536)
            × AppendsFront W.appended (S.seal_of self.old.key (chunk_nonce self.old.sealed false) self.old.held.items)
            self.old.inner self.new.inner) }
        ensures failed { self.new.failed ≡ self.old.failed }
        ensures inner { KeepsWriter W.tells W.faults (RefusesChunk W.refuses) self.old.inner self.new.inner result }
    {
        if self.held.len() < PIECE {
            return Ok(());
        }
        write_chunk::<S, W>(
            self.alloc,
            &mut self.inner,
            &self.key,
            self.sealed,
            false,
            &self.held,
        )?;
        self.held.clear();
        self.sealed += 1;
        Ok(())
    }

    // Seals a full piece where nothing is held.
    fn send_piece(&mut self, piece: &[u8]) -> Result<(), Error>
        requires none { held_len self.old ≡ 0 }
        requires full { length piece.now ≡ 65536 }
        requires room { taken_len self.old + 65536 ≤ 2 ^ 60 }
        ensures total { OnOk result (taken_len self.new ≡ taken_len self.old + 65536) }
        ensures sent { IsTrue (W.tells self.old.inner) → OnOk result (Sent S.seal_of W.appended self.old piece.now self.new) }
        ensures front { IsTrue (W.tells self.old.inner) → OnErr result
            (AppendsFront W.appended (S.seal_of self.old.key (chunk_nonce self.old.sealed false) piece.now) self.old.inner self.new.inner) }
        ensures failed { self.new.failed ≡ self.old.failed }
        ensures inner { KeepsWriter W.tells W.faults (RefusesChunk W.refuses) self.old.inner self.new.inner result }
    {
        write_chunk::<S, W>(
            self.alloc,
            &mut self.inner,
            &self.key,
            self.sealed,
            false,
            piece,
        )?;
        self.sealed += 1;
        Ok(())
    }

    // Holds bytes that find room, for which it takes no memory.
    fn hold(&mut self, bytes: &[u8]) -> Result<(), Error>
        requires fits { held_len self.old + length bytes.now ≤ 65536 }
        requires room { taken_len self.old + length bytes.now ≤ 2 ^ 60 }
        ensures ok { IsOk result }
        ensures held { HoldsMore self.old bytes.now self.new }
        ensures sent { IsTrue (W.tells self.old.inner) → OnOk result (Sent S.seal_of W.appended self.old bytes.now self.new) }
        ensures inner { KeepsWriter W.tells W.faults (RefusesChunk W.refuses) self.old.inner self.new.inner result }
    {
        self.held.extend_from_slice(bytes)?;
        Ok(())
    }

    // Whether it holds a piece and may take these bytes as the next.
    pub(crate) fn can_exchange(&self, bytes: &[u8]) -> bool
        ensures good { IsTrue result → self.now.failed ≡ false }
        ensures full { IsTrue result → (held_len self.now ≡ 65536) × (length bytes.now ≡ 65536) }
        ensures room { IsTrue result → taken_len self.now + 65536 ≤ 2 ^ 60 }
        ensures must { CanExchange self.now bytes.now → IsTrue result }
    {
        let are_full = self.held.len() == PIECE && bytes.len() == PIECE;
        !self.failed && are_full && self.sealed + 1 < MOST_CHUNKS
    }

    // Seals the piece that is held, and holds the one that is given in its place.
    pub(crate) fn exchange_held(&mut self, piece: &mut Vec<u8>) -> Result<(), Error>
        requires full { (held_len self.old ≡ 65536) × (length piece.old.items ≡ 65536) }
        requires room { taken_len self.old + 65536 ≤ 2 ^ 60 }
        ensures size { length piece.new.items ≡ length piece.old.items }
        ensures total { OnOk result (taken_len self.new ≡ taken_len self.old + length piece.old.items) }
        ensures held { OnOk result (held_len self.new ≡ 65536) }
        ensures took { IsTrue (W.tells self.old.inner) → OnOk result (Took S.seal_of W.appended self.old piece.old.items self.new) }
        ensures front { IsTrue (W.tells self.old.inner) → OnErr result (SendsFront S.seal_of W.appended self.old piece.old.items self.new.inner) }
        ensures failed { self.new.failed ≡ self.old.failed }
        ensures inner { KeepsWriter W.tells W.faults (RefusesChunk W.refuses) self.old.inner self.new.inner result }
    {
        write_chunk::<S, W>(
            self.alloc,
            &mut self.inner,
            &self.key,
            self.sealed,
            false,
            &self.held,
        )?;
        mem::swap(&mut self.held, piece);
        self.sealed += 1;
        Ok(())
    }

    // Takes some of the bytes. A full piece is sealed only where a byte follows it: straight from `bytes`, where
    // nothing is held before it.
    fn take_some(&mut self, bytes: &[u8]) -> Result<usize, Error>
        requires some { 0 < length bytes.now }
        requires room { taken_len self.old + length bytes.now ≤ 2 ^ 60 }
        ensures takes { IfOk result (λ n. TakesSome self.old (length bytes.now) n self.new) }
        ensures roomy { held_len self.old + length bytes.now ≤ 65536 → IsOkAnd result (λ n.
            (held_len self.new ≡ held_len self.old + n) × (self.new.inner ≡ self.old.inner)) }
        ensures sent { IsTrue (W.tells self.old.inner) → IfOk result (λ n. Sent S.seal_of W.appended self.old (take n bytes.now) self.new) }
        ensures front { IsTrue (W.tells self.old.inner) → OnErr result (SendsFront S.seal_of W.appended self.old bytes.now self.new.inner) }
        ensures failed { self.new.failed ≡ self.old.failed }
        ensures inner { KeepsWriter W.tells W.faults (RefusesChunk W.refuses) self.old.inner self.new.inner result }
    {
        self.make_room()?;
        let count = bytes.len().min(PIECE - self.held.len());
        if self.held.is_empty() && count < bytes.len() {
            self.send_piece(&bytes[..count])?;
            return Ok(count);
        }
        self.hold(&bytes[..count])?;
        Ok(count)
    }

    // Takes all bytes.
    pub(crate) fn take_all(&mut self, bytes: &[u8]) -> Result<(), Error>
        requires { taken_len self.old + length bytes.now ≤ 2 ^ 60 }
        ensures total { OnOk result (taken_len self.new ≡ taken_len self.old + length bytes.now) }
        ensures roomy { held_len self.old + length bytes.now ≤ 65536 →
            IsOk result × (held_len self.new ≡ held_len self.old + length bytes.now) × (self.new.inner ≡ self.old.inner) }
        ensures took { IsTrue (W.tells self.old.inner) → OnOk result (Took S.seal_of W.appended self.old bytes.now self.new) }
        ensures front { IsTrue (W.tells self.old.inner) → OnErr result (SendsFront S.seal_of W.appended self.old bytes.now self.new.inner) }
        ensures failed { self.new.failed ≡ self.old.failed }
        ensures inner { KeepsWriter W.tells W.faults (RefusesChunk W.refuses) self.old.inner self.new.inner result }
    {
        let mut done = 0;
        while done < bytes.len() {
            done += self.take_some(&bytes[done..])?;
        }
        Ok(())
    }
}

impl<S: Suite, W: Write> StreamWriter<S, W> {
    ghost use Rattle.age_stream.specs.Writing.{Closes, ClosesWriter, StaysWithin, inner_of, last_seal};

    /// Seals what is held as the last chunk, and writes it to the inner writer, which isn't flushed.
    ///
    /// On success the inner writer was given the payload of the whole plaintext, which has at most 2^60 bytes. A refusal is that of the
    /// inner writer, `WriteZero` where that took no byte, or `OutOfMemory` where the suite was refused memory for the seal. After it
    /// the payload is cut off.
    ///
    /// Whatever it answers, a beginning of the last chunk was appended to the inner writer (`front`), and the writer is failed, so that
    /// it takes no more. Where it failed before, the answer is `Failed`, and it stays as it is. `ClosesWriter` says so (`failed`,
    /// `fails`), why it refuses (`why`), and what stays of the inner writer (`hands_back`, `inner`).
    pub fn close(&mut self) -> Result<(), Error>
        ensures ok { let writer = ⟦<StreamWriter<S, W> as Write>⟧ in
            IsTrue (writer.tells self.old) → Closes S.seal_of W.appended writer.appended self.old self.new result }
        ensures within { StaysWithin ⟦<StreamWriter<S, W> as Write>⟧.appended self.old result }
        ensures closes { ClosesWriter ⟦<W as Write>⟧ self.old self.new result }
        ensures front { IsTrue (W.tells (inner_of self.old))
            → AppendsFront W.appended (last_seal S.seal_of self.old) (inner_of self.old) (inner_of self.new) }
    {
        if self.failed {
            return Err(Error::Failed);
        }
        self.failed = true;
        write_chunk::<S, W>(
            self.alloc,
            &mut self.inner,
            &self.key,
            self.sealed,
            true,
            &self.held,
        )?;
        Ok(())
    }

    /// Hands back the inner writer as it stands. It writes nothing: where the writer wasn't closed, the payload is cut off.
    pub fn into_inner(self) -> W
        ensures { result ≡ inner_of self }
    {
        let StreamWriter {
            alloc: _,
            key: _,
            inner,
            held: _,
            sealed: _,
            failed: _,
            suite: _,
        } = self;
        inner
    }
}

impl<S: Suite, W: Write + Drop> StreamWriter<S, W> {
    ghost use Rattle.age_stream.specs.Writing.{Finishes, HandsBack, HasFailed, StaysWithin, inner_of};

    /// Seals what is held as the last chunk, writes it, and hands back the inner writer, which isn't flushed: `close`, and the inner writer.
    ///
    /// On success the inner writer was given the payload of the whole plaintext, which has at most 2^60 bytes. Where the writer failed before
    /// the answer is `Failed`. Else a refusal is that of the inner writer, `WriteZero` where that took no byte, or
    /// `OutOfMemory` where the suite was refused memory for the seal. After a refusal the payload is cut off, and
    /// the inner writer is gone.
    pub fn finish(mut self) -> Result<W, Error>
        ensures ok { let writer = ⟦<StreamWriter<S, W> as Write>⟧ in
            IsTrue (writer.tells self) → Finishes S.seal_of W.appended writer.appended self result }
        ensures within { StaysWithin ⟦<StreamWriter<S, W> as Write>⟧.appended self result }
        ensures failed { HasFailed self → result ≡ Err Failed }
        ensures why { IfErr result (⟦<StreamWriter<S, W> as Write>⟧.refuses self 0) }
        ensures hands_back { IfOk result (HandsBack ⟦<W as Write>⟧ self) }
    {
        self.close()?;
        Ok(self.into_inner())
    }
}

/// Seals a piece of plaintext as the chunk of this number, and writes it.
pub(crate) fn write_chunk<S: Suite, W: Write>(
    alloc: Global,
    inner: &mut W,
    key: &[u8; 32],
    number: u64,
    last: bool,
    piece: &[u8],
) -> Result<(), Error>
    ensures keeps { KeepsWriter W.tells W.faults (RefusesChunk W.refuses) inner.old inner.new result }
    ensures sent { IsTrue (W.tells inner.old) → OnOk result (W.appended inner.old (S.seal_of key.now (chunk_nonce number last) piece.now) inner.new) }
    ensures front { IsTrue (W.tells inner.old) → AppendsFront W.appended (S.seal_of key.now (chunk_nonce number last) piece.now) inner.old inner.new }
{
    let sealed = S::seal(alloc, key, &nonce_of(number, last), piece)?;
    write_all(inner, &sealed)
}

impl<S, W: Drop> Drop for StreamWriter<S, W> {
    fn drop(self) {
        let StreamWriter {
            alloc: _,
            key: _,
            inner: _,
            held: _,
            sealed: _,
            failed: _,
            suite: _,
        } = self;
    }
}
