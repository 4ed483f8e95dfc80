//! Reads and writes that go on until all is done.
ghost use Rattle.std.specs.Prelude.{◌≡◌, ◌≢◌, ◌+◌, ◌≤◌, ◌<◌, IsTrue, length, take, vec_len, vec_capacity, All, IfOk, OnOk, IfErr, OnErr, Ok, Err};
ghost use Rattle.age_error.specs.Refusals.{IsInterruption};
ghost use Rattle.age_error.specs.declared.io.Error.TheVariants.{OutOfMemory, UnexpectedEof};
ghost use Rattle.age_io.specs.Reading.{IsQuiet, Delivers, TookSome, IsShort, most_faults};
ghost use Rattle.age_io.specs.Keeping.{KeepsReader, OrEarly};
ghost use Rattle.age_io.specs.Whole.{FillsBuffer, ReadsToEnd};
ghost use Rattle.age_io.specs.Calls.{WritesAllBy};

use crate::retry::{read_retrying, write_retrying};
use crate::traits::{Read, Write};
use age_error::io::Error;
use std::alloc::Global;

/// Fills the buffer, or as much of it as comes before a clean end. `filled` says how many bytes, also after a refusal.
///
/// A refusal is that of the read that met it. The reader then stands after the bytes in `filled`, or has failed there.
/// An interruption is tried again as in `read_retrying`.
///
/// Of every reader, also one that doesn't tell its bytes: what is in front of the buffer is what its reads gave. Where it
/// succeeds none of them was refused, and where the buffer isn't full the last of them answered 0 (`turns`); where it
/// refuses, the last of them, and no other, was refused with this error (`refused`).
pub fn fill<R: Read>(reader: &mut R, buf: &mut [u8], filled: &mut usize) -> Result<(), Error>
    ensures { FillsBuffer ⟦<R as Read>⟧ reader.old reader.new buf.old buf.new filled.new result }
{
    *filled = 0;
    'reads: while *filled < buf.len() {
        match read_retrying(reader, &mut buf[*filled..])? {
            0 => return Ok(()),
            n => *filled += n,
        }
    }
    Ok(())
}

/// Fills the whole buffer. Where a clean end comes before that the answer is `UnexpectedEof`.
///
/// Any other refusal is that of the read that met it. The reader then stands after the bytes that it gave, at most the
/// buffer's length, or has failed there; what the buffer holds isn't said. An interruption is tried again as in
/// `read_retrying`.
pub fn read_exact<R: Read>(reader: &mut R, buf: &mut [u8]) -> Result<(), Error>
    ensures keeps { KeepsReader ⟦<R as Read>⟧ (OrEarly ⟦<R as Read>⟧) reader.old reader.new result }
    ensures unspent { 0 < length buf.old → OnOk result (R.faults reader.new < most_faults) }
    ensures bytes { IsTrue (R.tells reader.old) → OnOk result
        (Delivers buf.new (R.rest reader.old) (R.rest reader.new)) }
    ensures moves { IsTrue (R.tells reader.old) → OnOk result
        (R.place reader.new ≡ R.place reader.old + length buf.new) }
    ensures err { IsTrue (R.tells reader.old) → OnErr result
        (TookSome (length buf.new) (R.place reader.old) (R.place reader.new) (R.rest reader.old) (R.rest reader.new)) }
    ensures early { IsTrue (R.tells reader.old) → IfErr result (λ e. e ≢ OutOfMemory →
        IsQuiet (R.faults reader.old) (R.faults reader.new) →
        IsShort (length buf.new) (R.rest reader.old) e) }
{
    let mut at = 0;
    while at < buf.len() {
        match read_retrying(reader, &mut buf[at..])? {
            0 => return Err(Error::UnexpectedEof),
            n => at += n,
        }
    }
    Ok(())
}

// How many bytes `read_to_end` asks for at once.
const ROOM: usize = 65_536;

// How many bytes, up to `most`, the list takes with the memory that it has. Only a full one asks for more, so the read that
// finds the end takes none where there is room.
fn spare(buf: &mut Vec<u8>, most: usize) -> Result<usize, Error>
    ensures items { buf.new.items ≡ buf.old.items }
    ensures fits { IfOk result (λ n. vec_len buf.new + n ≤ vec_capacity buf.new) }
    ensures most { IfOk result (λ n. n ≤ most) }
    ensures some { 0 < most → IfOk result (λ n. 0 < n) }
    ensures memory { IfErr result (λ e. e ≡ OutOfMemory) }
{
    if buf.len() == buf.capacity() {
        buf.reserve(most)?;
    }
    Ok(most.min(buf.capacity() - buf.len()))
}

/// Appends the whole rest and answers its length in bytes. A success says that the rest ended well, and the reader
/// stands at its end.
///
/// A refusal is that of the read that met it, or `OutOfMemory` where the list can't grow. What was delivered before it
/// is appended, and no byte is lost: the list is asked to grow before a read, and only where it is full. An interruption is
/// tried again as in `read_retrying`.
pub fn read_to_end<R: Read>(
    alloc: Global,
    reader: &mut R,
    buf: &mut Vec<u8>,
) -> Result<usize, Error>
    ensures { ReadsToEnd ⟦<R as Read>⟧ reader.old reader.new buf.old.items buf.new.items result }
{
    let mut room = room_for(alloc, ROOM)?;
    let start = buf.len();
    'reads: loop {
        let wanted = spare(buf, room.len())?;
        let part = &mut room[..wanted];
        let count = read_retrying(reader, part)?;
        if count == 0 {
            return Ok(buf.len() - start);
        }
        buf.extend_from_slice(&part[..count])?;
    }
}

/// A list of `size` zero bytes, as room to read into. It refuses with `OutOfMemory` alone.
pub fn room_for(alloc: Global, size: usize) -> Result<Vec<u8>, Error>
    ensures length { IfOk result (λ v. length v.items ≡ size) }
    ensures zeros { IfOk result (λ v. All (λ b. b ≡ 0) v.items) }
    ensures memory { IfErr result (λ e. e ≡ OutOfMemory) }
{
    Ok(vec![in alloc; 0; size]?)
}

/// Writes all bytes. Where a write of some bytes takes none of them the answer is `WriteZero`.
///
/// Any refusal is one that the writer may make while it is given these bytes, `WriteZero` among them; an interruption is
/// tried again as in `write_retrying`. A beginning of the bytes was then appended, and how many isn't said.
pub fn write_all<W: Write>(writer: &mut W, bytes: &[u8]) -> Result<(), Error>
    ensures writes { WritesAllBy ⟦<W as Write>⟧ writer.old writer.new bytes.now result }
    ensures patient { IfErr result (λ e. IsInterruption e → ⊥) }
{
    let mut at = 0;
    while at < bytes.len() {
        match write_retrying(writer, &bytes[at..]) {
            Err(e) => return Err(e),
            Ok(0) => return Err(Error::WriteZero),
            Ok(n) => at += n,
        }
    }
    Ok(())
}

/// Writes the first `count` bytes of `piece` as `write_all` does. Where these are all, the writer may take them by an exchange
/// (`Write::exchange`): of `piece` then only the length stays.
pub(crate) fn write_front<W: Write>(
    writer: &mut W,
    piece: &mut Vec<u8>,
    count: usize,
) -> Result<(), Error>
    requires { count ≤ length piece.old.items }
    ensures writes { WritesAllBy ⟦<W as Write>⟧ writer.old writer.new (take count piece.old.items) result }
    ensures size { length piece.new.items ≡ length piece.old.items }
{
    if count == piece.len() {
        match writer.exchange(piece) {
            Ok(true) => return Ok(()),
            Ok(false) => {}
            Err(refused) => return Err(refused),
        }
    }
    write_all(writer, &piece[..count])
}
