//! A part of a file's plaintext.
ghost use Rattle.std.specs.Prelude.{◌≡◌, ◌≢◌, ◌⊎◌, ℕ, ◌+◌, ◌<◌, ◌≤◌, ◌&&◌, true, ⊤, IsTrue, List, [], length, take, drop, Some, Ok, IfErr, OnOk, MatchResult};
ghost use Rattle.age_error.specs.Refusals.{IsDevice};
ghost use Rattle.age_error.specs.declared.io.Error.TheVariants.{PastEnd, Failed, OutOfMemory};
ghost use Rattle.age_error.specs.declared.io.SeekFrom.TheVariants.{Start};
ghost use Rattle.age_io.specs.Stretch.{from_place};
ghost use Rattle.age_io.specs.Reading.{IsQuiet, TriedAgain};
ghost use Rattle.age_io.specs.Copying.{AppendsFront, AppendsSome, CopyRefuses};
ghost use Rattle.age_io.specs.Cursor.{IsOutside, IsSeekRefusal, OrTooLong};
ghost use Rattle.age_io.specs.Writing.{HandsOn, OrMemory, Retried};
ghost use Rattle.age_v1.specs.Armor.{Carries};
ghost use Rattle.age_v1.specs.DeliveredArmor.{text_delivers, stretch_of};
ghost use Rattle.age_stream.specs.Keeping.{IsPayloadRefusal};
ghost use Rattle.age_v1.specs.PayloadTargets.{sought_in};
ghost use Rattle.age_stream.specs.Reader.{payload_of, key_of};
ghost use Rattle.age_protocol.specs.Opened.{IsNotOpened};
ghost use Rattle.age_protocol.specs.WholeFiles.{RefusesReading, read_of};
ghost use Rattle.age_error.specs.FileErrors.{DecryptsUnless, IfIo, IsDecryptError};
ghost use Rattle.age_protocol.specs.DecryptingStreams.{DecryptsPart, RefusesOpening};
ghost use Rattle.age_v1.specs.Identities.{AnswersFirst, GivesFirst, FirstAnswer, IsFileFor};
ghost use Rattle.age_protocol.specs.Texts.{HasFront};
ghost use Rattle.age_protocol.specs.Parts.{AppendsPart, AppendsOf, EndsBefore, RefusesPart, StandsAt, IsPartAt};

use crate::opening::open_file;
use age_armor::ArmoredReader;
use age_error::FileError;
use age_error::io::{Error, SeekFrom};
use age_format::Identity;
use age_io::{Bytes, Read, Seek, Write, copy_some, read_to_end};
use age_stream::laws::reader_law;
use age_stream::reader::StreamReader;
use age_suite::suite::Suite;
use std::alloc::Global;

/// Seeks to `place`, in bytes from the start of the plaintext, and appends the `count` bytes that stand there to `writer`,
/// or fewer at the end.
///
/// Where the content ends well, a success says that the place is in it, and that exactly these bytes were appended; after
/// a refusal a beginning of them was. The reader then stands after them. A place after the end is `PastEnd`: nothing is appended
/// then, and the reader stays where it stands. The other refusals
/// of the seek are those of `StreamReader::seek`, and those after it those of `copy_some`.
pub fn write_part<S: Suite, R: Seek, W: Write>(
    alloc: Global,
    stream: &mut StreamReader<S, R>,
    place: u64,
    count: u64,
    writer: &mut W,
) -> Result<(), Error>
    ensures tells { W.tells writer.new ≡ W.tells writer.old }
    ensures order { let reader = ⟦<StreamReader<S, R> as Read>⟧ in IsTrue (reader.tells stream.old) → OnOk result
        (sought_in (Start place) (reader.place stream.old) (length (payload_of stream.old).bytes) ≡ Ok place) }
    // Over a content that ends well.
    ensures part { let reader = ⟦<StreamReader<S, R> as Read>⟧ in IsTrue (reader.tells stream.old) → IsTrue (W.tells writer.old) →
        IsTrue (reader.content stream.old).ends_well → OnOk result ((place ≤ length (reader.content stream.old).bytes)
        × W.appended writer.old (take count (drop place (reader.content stream.old).bytes)) writer.new) }
    ensures front { let reader = ⟦<StreamReader<S, R> as Read>⟧ in IsTrue (reader.tells stream.old) → IsTrue (W.tells writer.old) →
        IsTrue (reader.content stream.old).ends_well →
        AppendsFront W.appended (take count (drop place (reader.content stream.old).bytes)) writer.old writer.new }
    ensures past_end { let reader = ⟦<StreamReader<S, R> as Read>⟧ in IsTrue (reader.tells stream.old) →
        IsTrue (reader.content stream.old).ends_well → length (reader.content stream.old).bytes < place →
        (writer.new ≡ writer.old) × MatchResult result (λ done. ⊥)
        (λ e. e ≢ OutOfMemory → IsQuiet (reader.faults stream.old) (reader.faults stream.new) → e ≡ PastEnd) }
    // A place after the end leaves the reader where it stands.
    ensures stays { let reader = ⟦<StreamReader<S, R> as Read>⟧ in IsTrue (reader.tells stream.old) →
        IsTrue (reader.content stream.old).ends_well → length (reader.content stream.old).bytes < place →
        reader.place stream.new ≡ reader.place stream.old }
    // So many bytes were taken from the reader as were appended.
    ensures stands { let reader = ⟦<StreamReader<S, R> as Read>⟧ in IsTrue (reader.tells stream.old) → IsTrue (reader.content stream.old).ends_well →
        OnOk result ((reader.place stream.new ≡ place + length (take count (drop place (reader.content stream.old).bytes)))
        × (reader.rest stream.new ≡ from_place (reader.place stream.new) (reader.content stream.old))) }
    // On any payload: whatever it answers, what is appended stands in the plaintext from the place on, and where it succeeds no byte
    // of it is missing.
    ensures standing { let reader = ⟦<StreamReader<S, R> as Read>⟧ in IsTrue (reader.tells stream.old) → IsTrue (W.tells writer.old) →
        AppendsSome W.appended count (StandsAt S.seal_of place (key_of stream.old) (payload_of stream.old)) writer.old writer.new }
    ensures given { let reader = ⟦<StreamReader<S, R> as Read>⟧ in IsTrue (reader.tells stream.old) → IsTrue (W.tells writer.old) → OnOk result
        (AppendsSome W.appended count (IsPartAt S.seal_of place count (key_of stream.old) (payload_of stream.old)) writer.old writer.new) }
    // Why it refuses: for want of memory, as a seek or a read of the stream does, or as the writer does that is given so many bytes. A
    // place in a content that ends well is refused for want of memory or by the writer alone.
    ensures named { let reader = ⟦<StreamReader<S, R> as Read>⟧ in IfErr result
        (CopyRefuses (λ e. IsSeekRefusal (OrTooLong R.seek_refuses) e ⊎ TriedAgain reader.refuses stream.old e)
        (Retried W.refuses writer.old count)) }
    ensures why { let reader = ⟦<StreamReader<S, R> as Read>⟧ in IsTrue (reader.tells stream.old) → IsTrue (reader.content stream.old).ends_well →
        place ≤ length (reader.content stream.old).bytes → IsQuiet (reader.faults stream.old) (reader.faults stream.new) →
        IfErr result (OrMemory (Retried W.refuses) writer.old count) }
    // That the place is outside is said where the payload ends before it, by its own length, or as the stream's own reads or the writer say it.
    ensures outside { let reader = ⟦<StreamReader<S, R> as Read>⟧ in
        IsTrue (reader.tells stream.old) → IsTrue (W.tells writer.old) → IfErr result (λ e. IsOutside e →
        TriedAgain reader.refuses stream.old e ⊎ Retried W.refuses writer.old count e ⊎ ((e ≡ PastEnd)
        × AppendsSome W.appended count (λ out. (out ≡ []) × EndsBefore place (payload_of stream.old)) writer.old writer.new)) }
    ensures device { let reader = ⟦<StreamReader<S, R> as Read>⟧ in IfErr result (λ e. IsDevice e →
        (reader.faults stream.old < reader.faults stream.new) ⊎ (W.faults writer.old < W.faults writer.new)) }
{
    match stream.seek(SeekFrom::Start(place)) {
        Err(e) => Err(e),
        Ok(_start) => {
            // A fact for the proof alone.
            reader_law(stream);
            copy_some(alloc, stream, writer, count)
        }
    }
}

// `write_part` of the bare file that `bytes` gives, decrypted by one of the identities.
fn at_bytes<S: Suite, I: Identity, T: Seek + Drop, W: Write>(
    alloc: Global,
    identities: &mut [I],
    place: u64,
    count: u64,
    bytes: T,
    writer: &mut W,
) -> Result<(), FileError>
    ensures cursor { IsTrue (T.tells bytes && T.steady bytes) → IsTrue (W.tells writer.old) → IsTrue (T.rest bytes).ends_well → (plain : List ℕ) →
        IsFileFor S.seal_of (FirstAnswer I.unwraps identities.old) plain (T.rest bytes).bytes →
        AppendsPart W.appended W.refuses ((t : T) → T.faults t ≡ 0) place count plain writer.old writer.new result }
    ensures standing { T.rest bytes ≡ from_place (T.place bytes) (T.content bytes) → IsTrue (T.tells bytes && T.steady bytes)
        → IsTrue (W.tells writer.old) →
        (writer.new ≡ writer.old) ⊎ AppendsOf (HasFront (T.rest bytes) (T.place bytes))
        (GivesFirst I.unwraps identities.old identities.new)
        W.appended count (StandsAt S.seal_of place) writer.old writer.new }
    ensures given { T.rest bytes ≡ from_place (T.place bytes) (T.content bytes) → IsTrue (T.tells bytes && T.steady bytes)
        → IsTrue (W.tells writer.old) → OnOk result (AppendsOf (HasFront (T.rest bytes) (T.place bytes))
        (GivesFirst I.unwraps identities.old identities.new)
        W.appended count (IsPartAt S.seal_of place count) writer.old writer.new) }
    ensures refused { IfErr result (λ e. IsDecryptError e → writer.new ≡ writer.old) }
    ensures unopened { IfErr result (DecryptsUnless (IsNotOpened I.unwraps ⟦<T as Read>⟧ identities.old identities.new bytes)) }
    ensures io { IfErr result (IfIo (λ e. (e ≡ OutOfMemory) ⊎ TriedAgain T.refuses bytes e ⊎ HandsOn W.refuses writer.old e
        ⊎ IsSeekRefusal T.seek_refuses e ⊎ IsPayloadRefusal e)) }
    ensures cause { T.rest bytes ≡ from_place (T.place bytes) (T.content bytes) → IsTrue (T.tells bytes && T.steady bytes)
        → IsTrue (W.tells writer.old) →
        IfErr result (IfIo (λ e. (e ≡ OutOfMemory) ⊎ TriedAgain T.refuses bytes e ⊎ HandsOn W.refuses writer.old e
        ⊎ AppendsOf (HasFront (T.rest bytes) (T.place bytes)) (GivesFirst I.unwraps identities.old identities.new) W.appended count
        (RefusesPart S.seal_of T.seek_refuses place e) writer.old writer.new)) }
{
    let mut stream = match open_file::<S, I, T>(alloc, identities, bytes) {
        Err(e) => return Err(FileError::Decrypt(e)),
        Ok(stream) => stream,
    };
    match write_part(alloc, &mut stream, place, count, writer) {
        Err(e) => Err(FileError::Io(e)),
        Ok(()) => Ok(()),
    }
}

/// Reads a file, bare or armored, to its end into memory, and appends the `count` bytes of its plaintext from `place` on, or
/// fewer at the end, to `writer`. One of the identities decrypts it.
///
/// The seek is by the length of the payload, and only the chunks that hold the bytes are opened. A place after the end of the plaintext
/// is `PastEnd`. After a refusal a beginning of the bytes was appended, and after one of the header nothing. The refusals are those of
/// `read_to_end`, of `decrypt_all` for the header, and of `write_part`; what the payload is refused for is said only under a right MAC.
pub fn at<S: Suite, I: Identity, R: Read, W: Write>(
    alloc: Global,
    identities: &mut [I],
    place: u64,
    count: u64,
    reader: &mut R,
    writer: &mut W,
) -> Result<(), FileError>
    ensures { DecryptsPart ⟦<S as Suite>⟧ ⟦<R as Read>⟧ ⟦<W as Write>⟧ (GivesFirst I.unwraps identities.old identities.new)
        (AnswersFirst I.unwraps identities.old identities.new)
        (IsFileFor S.seal_of (FirstAnswer I.unwraps identities.old)) place count reader.old reader.new writer.old writer.new result }
{
    let mut text = Vec::new(alloc);
    match read_to_end(alloc, reader, &mut text) {
        Err(e) => Err(FileError::Io(e)),
        Ok(_) => at_text::<S, I, W>(alloc, identities, place, count, &text, writer),
    }
}

// The same of a file, bare or armored, whose text stands in memory.
fn at_text<S: Suite, I: Identity, W: Write>(
    alloc: Global,
    identities: &mut [I],
    place: u64,
    count: u64,
    text: &[u8],
    writer: &mut W,
) -> Result<(), FileError>
    ensures cursor { IsTrue (W.tells writer.old) → (file plain : List ℕ) → Carries text.now file →
        IsFileFor S.seal_of (FirstAnswer I.unwraps identities.old) plain file →
        AppendsPart W.appended W.refuses ⊤ place count plain writer.old writer.new result }
    ensures standing { IsTrue (W.tells writer.old) → (writer.new ≡ writer.old) ⊎ AppendsOf (HasFront (stretch_of (text_delivers text.now true)) 0)
        (GivesFirst I.unwraps identities.old identities.new)
        W.appended count (StandsAt S.seal_of place) writer.old writer.new }
    ensures given { IsTrue (W.tells writer.old) → OnOk result (AppendsOf (HasFront (stretch_of (text_delivers text.now true)) 0)
        (GivesFirst I.unwraps identities.old identities.new)
        W.appended count (IsPartAt S.seal_of place count) writer.old writer.new) }
    ensures refused { IfErr result (λ e. IsDecryptError e → writer.new ≡ writer.old) }
    ensures why { IfErr result (DecryptsUnless
        (RefusesOpening text.now (HasFront (read_of text.now) 0) (AnswersFirst I.unwraps identities.old identities.new))) }
    ensures io { IfErr result (IfIo (λ e. (e ≡ OutOfMemory) ⊎ HandsOn W.refuses writer.old e
        ⊎ IsOutside e ⊎ (e ≡ Failed) ⊎ RefusesReading text.now e ⊎ IsPayloadRefusal e)) }
    ensures cause { IsTrue (W.tells writer.old)
        → IfErr result (IfIo (λ e. (e ≡ OutOfMemory) ⊎ HandsOn W.refuses writer.old e ⊎ RefusesReading text.now e
        ⊎ AppendsOf (HasFront (stretch_of (text_delivers text.now true)) 0) (GivesFirst I.unwraps identities.old identities.new) W.appended count
        (RefusesPart S.seal_of (λ f. f ≡ Failed) place e) writer.old writer.new)) }
{
    match ArmoredReader::new_buffered(alloc, Bytes::new(text)) {
        Err(e) => Err(FileError::Io(e)),
        Ok(bytes) => at_bytes::<S, I, ArmoredReader<Bytes>, W>(
            alloc, identities, place, count, bytes, writer,
        ),
    }
}
