//! Payloads alone, under a given key, from a reader to a writer in flat memory.
ghost use Rattle.std.specs.Prelude.{◌≡◌, ◌⊎◌, ◌&&◌, ◌^◌, ◌≤◌, ℕ, IfErr, IsTrue, List, OnOk, length};
ghost use Rattle.age_error.specs.declared.io.Error.TheVariants.{OutOfMemory};
ghost use Rattle.age_io.specs.Copying.{AppendsFront};
ghost use Rattle.age_io.specs.Stretch.{from_place, whole};
ghost use Rattle.age_io.specs.Writing.{HandsOn};
ghost use Rattle.age_v1.specs.DeliveredPayload.{payload_delivers};
ghost use Rattle.age_v1.specs.Payload.{payload};
ghost use Rattle.age_stream.specs.Keeping.{OwnOrInner, Stops};
ghost use Rattle.age_stream.specs.Writing.{WasMade, inner_of};
ghost use Rattle.age_protocol.specs.PrivateWriting.{WritesMade};
ghost use Rattle.age_protocol.specs.WholeFiles.{RefusesWriting};

use age_error::io::Error;
use age_io::{Read, Write, copy_all, flush_retrying};
use age_stream::laws::sent_law;
use age_stream::reader::StreamReader;
use age_stream::writer::{ChunkRoom, StreamWriter};
use age_suite::suite::Suite;
use std::alloc::Global;

/// Reads what `reader` still has, and appends its payload under `key` to `writer`, which is flushed: what stands in a file after the
/// header and the nonce (age-encryption.org/v1, "Payload").
///
/// A success says that the input ended well, and that what was appended is its payload (`payload`). Whatever it answers, what was appended
/// is a beginning of the payload of all that the input had (`front`). It takes the memory of a few chunks, whatever the length of the
/// input. A plaintext past 2^60 bytes is `TooLong`, want of memory `OutOfMemory`, and any other refusal is that of the reader or the
/// writer (`refused`).
pub fn seal_all<S: Suite, R: Read, W: Write>(
    alloc: Global,
    key: [u8; 32],
    reader: &mut R,
    writer: &mut W,
) -> Result<(), Error>
    ensures payload { IsTrue (R.tells reader.old) → IsTrue (W.tells writer.old) → OnOk result (IsTrue (R.rest reader.old).ends_well
        × (length (R.rest reader.old).bytes ≤ 2 ^ 60) × W.appended writer.old (payload S.seal_of key (R.rest reader.old).bytes) writer.new) }
    ensures front { IsTrue (R.tells reader.old) → IsTrue (W.tells writer.old) →
        AppendsFront W.appended (payload S.seal_of key (R.rest reader.old).bytes) writer.old writer.new }
    ensures refused { IfErr result (RefusesWriting ⟦<R as Read>⟧ ⟦<W as Write>⟧ reader.old reader.new writer.old writer.new) }
{
    let sealed = seal_into::<S, R, &mut W>(alloc, key, reader, writer);
    match sealed.1 {
        Ok(()) => Ok(()),
        Err(e) => Err(e),
    }
}

// The same with a writer that is handed in, and handed back whatever came of it.
fn seal_into<S: Suite, R: Read, W: Write>(
    alloc: Global,
    key: [u8; 32],
    reader: &mut R,
    output: W,
) -> (W, Result<(), Error>)
    ensures { WritesMade ⟦<R as Read>⟧ ⟦<W as Write>⟧ (payload S.seal_of key) reader.old reader.new output result }
{
    let room = match ChunkRoom::new(alloc) {
        Ok(room) => room,
        Err(error) => return (output, Err(error)),
    };
    let mut stream = StreamWriter::<S, W>::with_room(room, key, output);
    let written = write_payload(alloc, reader, &mut stream);
    let mut output = stream.into_inner();
    match written {
        Ok(()) => {
            let flushed = flush_retrying(&mut output);
            (output, flushed)
        }
        Err(error) => (output, Err(error)),
    }
}

/// Writes the payload of what `reader` still has. The writer of it takes no more then.
pub(crate) fn write_payload<S: Suite, R: Read, W: Write>(
    alloc: Global,
    reader: &mut R,
    stream: &mut StreamWriter<S, W>,
) -> Result<(), Error>
    ensures { (key : List ℕ) (first : W) → WasMade key first stream.old →
        WritesMade ⟦<R as Read>⟧ ⟦<W as Write>⟧ (payload S.seal_of key) reader.old reader.new first (inner_of stream.new, result) }
{
    // A fact for the proof alone.
    sent_law::<S, W>();
    match copy_all(alloc, reader, stream) {
        Ok(()) => stream.close(),
        Err(error) => Err(error),
    }
}

/// Reads a payload under `key` to its end, and appends its plaintext to `writer` (age-encryption.org/v1, "Payload").
///
/// A success says that the input was the payload of exactly what was appended (`opened`). Whatever it answers, what was appended is a
/// beginning of what the payload's good chunks open to (`front`). It takes the memory of a few chunks, whatever the length of the input.
/// It refuses for want of memory, as the writer does, for what is wrong with the payload, or as the reader does (`why`).
pub fn open_all<S: Suite, R: Read, W: Write>(
    alloc: Global,
    key: [u8; 32],
    reader: &mut R,
    writer: &mut W,
) -> Result<(), Error>
    ensures opened { IsTrue (R.tells reader.old && R.steady reader.old) → IsTrue (W.tells writer.old) → OnOk result
        ((plain : List ℕ) × (R.rest reader.old ≡ whole (payload S.seal_of key plain)) × W.appended writer.old plain writer.new) }
    ensures front { IsTrue (R.tells reader.old && R.steady reader.old) → IsTrue (W.tells writer.old) →
        AppendsFront W.appended (payload_delivers S.opened key 0 (R.rest reader.old)).bytes writer.old writer.new }
    ensures why { IfErr result (λ e. (e ≡ OutOfMemory) ⊎ HandsOn W.refuses writer.old e ⊎ OwnOrInner ⟦<R as Read>⟧
        (Stops S.seal_of key (from_place (R.place reader.old) (R.content reader.old)) (IsTrue (R.tells reader.old && R.steady reader.old)))
        reader.old e) }
{
    let mut stream = StreamReader::<S, &mut R>::with_payload_key(alloc, key, reader)?;
    copy_all(alloc, &mut stream, writer)
}
