//! What is true of payloads, for proofs alone: the functions here do nothing, and their contracts are the laws.
ghost use Rattle.std.specs.Prelude.{◌≡◌, ◌+◌, List, ℕ, IsTrue, true, length};
ghost use Rattle.age_v1.specs.PayloadAnswers.{StandAt, IsGoodEnd};
ghost use Rattle.age_stream.specs.Reader.{key_of, payload_of};
ghost use Rattle.age_stream.specs.Writing.{IsGood, HasSent, SendsPayload, SendsFrontOfPayload, ClosesPayload};
ghost use Rattle.age_v1.specs.PayloadLaws.{ArePieces, PayloadLength, PlainLength, OnePlaintext, MiddleChunks, LastChunk, NotRefused, OpensToPayload, PayloadOpens, CutPayload, NothingAfterLast};

use crate::reader::StreamReader;
use crate::writer::StreamWriter;
use age_io::{Read, Write};
use age_suite::suite::Suite;

/// The pieces of every plaintext, joined, are the plaintext: those before the last have 65,536 bytes, the last has no more,
/// and it is empty only where the plaintext is.
pub fn piece_law()
    ensures { (plain : List ℕ) → ArePieces plain }
{}

/// What is true of payloads under every suite, for keys of 32 bytes (age-encryption.org/v1, Payload).
///
/// - `length`: a payload is bytes, 16 more for each chunk than its plaintext has.
/// - `plain_length`: so the payload's length tells the plaintext's.
/// - `one_plaintext`: under one key no two plaintexts have one payload.
/// - `middle_chunks`: each chunk but the last is the seal of its piece under its nonce as a middle chunk.
/// - `last_chunk`: the last chunk is the seal of the last piece as the last, and isn't one as a middle chunk, where the
///   suite keeps these apart (`LastIsNoMiddle`, asked of a last piece of 65,536 bytes alone).
/// - `not_refused`: such a payload, read from front to end, is refused for want of memory, or because its plaintext has
///   more than 2^60 bytes.
pub fn payload_laws<S: Suite>()
    ensures length { PayloadLength S.seal_of }
    ensures plain_length { PlainLength S.seal_of }
    ensures one_plaintext { OnePlaintext S.seal_of }
    ensures middle_chunks { MiddleChunks S.seal_of }
    ensures last_chunk { LastChunk S.seal_of }
    ensures not_refused { NotRefused S.seal_of }
{}

/// What a payload delivers under every suite, for keys of 32 bytes. `delivered S.opened key 0 s` is what a reader delivers
/// that stands before the sealed bytes `s`, and `whole p` is `p` and then a clean end.
///
/// - `opens_to_payload`: success means payload. Sealed bytes that deliver a plaintext and then a clean end are the payload of
///   that plaintext, and end cleanly themselves: none was changed, left out, added or moved.
/// - `payload_opens`: the payload of a plaintext of at most 2^60 bytes delivers it and then a clean end, where the suite keeps
///   a full last piece's seal apart from one as a middle chunk (`LastIsNoMiddle`).
/// - `cut_payload`: a payload that was cut between two of its chunks delivers the pieces before the cut and then a fault,
///   never a clean end.
/// - `nothing_after_last`: nor is a clean end delivered where bytes follow a chunk that is held as the last.
pub fn delivery_laws<S: Suite>()
    ensures opens_to_payload { OpensToPayload S.seal_of S.opened }
    ensures payload_opens { PayloadOpens S.seal_of S.opened }
    ensures cut_payload { CutPayload S.seal_of S.opened }
    ensures nothing_after_last { NothingAfterLast S.seal_of S.opened }
{}

/// What a writer that hasn't failed has sent so far (age-encryption.org/v1, Payload): where it was made under a key over an
/// inner writer, and took a plaintext since by writes and flushes of any number, the inner writer was given the seals, as
/// middle chunks, of all pieces of the plaintext but the last.
pub fn writer_law<S: Suite, W: Write>(writer: &StreamWriter<S, W>)
    ensures { IsGood writer.now → HasSent S.seal_of W.appended ⟦<StreamWriter<S, W> as Write>⟧.appended writer.now }
{
    let _writer = writer;
}

/// What a writer has sent up to a refusal and with it (age-encryption.org/v1, Payload), where it was made under a key over an inner
/// writer, and took a plaintext since by writes and flushes of any number.
///
/// - `write`: where it hadn't failed, and was then given bytes by one write more, whatever that answered, the inner writer was given a
///   beginning of the payload of the plaintext and these bytes. `SendsFront` is the clause `sent` of `write`.
/// - `calls`: where it was given a plaintext, by calls of any number, the last of them refused or not, the inner writer was given a
///   beginning of the payload of that plaintext, and of each that begins with it. So this holds after every call that speaks of
///   `appended` alone, as `write_all` and `copy_all`, also after a refused one.
/// - `close`: where it was then closed, whatever that answered, the inner writer was given a beginning of the plaintext's payload. What
///   `close` appended is told by its clause `front`, and that it leaves a failed writer as it is by `failed` of `closes`.
pub fn sent_law<S: Suite, W: Write>()
    ensures write { SendsPayload S.seal_of W.appended ⟦<StreamWriter<S, W> as Write>⟧.appended }
    ensures calls { SendsFrontOfPayload S.seal_of W.appended ⟦<StreamWriter<S, W> as Write>⟧.appended }
    ensures close { ClosesPayload S.seal_of W.appended ⟦<StreamWriter<S, W> as Write>⟧.appended }
{}

/// What is true of any reader, whatever was sought and however bad the payload is.
///
/// - `stands`: what it can still deliver stands in the plaintext from its place on. The chunk at each byte's place is the seal of
///   bytes under its own nonce, and the byte is the one at its place among them.
/// - `end`: where that ends well, so does the payload: its length is that of the payload of so many bytes, and its last chunk is a seal
///   as the last.
pub fn reader_law<S: Suite, R: Read>(reader: &StreamReader<S, R>)
    ensures stands { let reading = ⟦<StreamReader<S, R> as Read>⟧ in IsTrue (reading.tells reader.now) →
        StandAt S.seal_of (key_of reader.now) (payload_of reader.now).bytes (reading.place reader.now) (reading.rest reader.now).bytes }
    ensures end { let reading = ⟦<StreamReader<S, R> as Read>⟧ in IsTrue (reading.tells reader.now) → (reading.rest reader.now).ends_well ≡ true →
        IsGoodEnd S.seal_of (key_of reader.now) (payload_of reader.now) (reading.place reader.now + length (reading.rest reader.now).bytes) }
{
    let _reader = reader;
}
