//! Copying what a reader still has to a writer.
ghost use Rattle.age_io.specs.Copying.{CopiesAll, CopiesSome};

use crate::retry::read_retrying;
use crate::traits::{Read, Write};
use crate::whole::{room_for, write_all, write_front};
use age_error::io::Error;
use std::alloc::Global;

// How many bytes are read at once: a piece of a payload, which is then sealed straight from what was read.
const ROOM: usize = 65_536;

/// Appends to `writer` what `reader` still has, piece by piece, in memory of one piece. A success says that the
/// input ended well and all of it was appended; the reader then stands at its end. After a refusal a beginning of it was
/// appended, and the reader stands after the bytes that it gave, or has failed there: what was read and not written is
/// lost.
///
/// `OutOfMemory` comes before the first piece, where memory of one is refused. Any other refusal is that of the reader
/// or one that the writer may make while it is given these bytes, but for `TooLong` after 2^64 - 1 pieces, to which a
/// reader that tells its bytes never comes. Interruptions are tried again up to 16 times in a row.
pub fn copy_all<R: Read, W: Write>(
    alloc: Global,
    reader: &mut R,
    writer: &mut W,
) -> Result<(), Error>
    ensures { CopiesAll ⟦<R as Read>⟧ ⟦<W as Write>⟧ reader.old reader.new writer.old writer.new result }
{
    let mut room = room_for(alloc, ROOM)?;
    for _piece in 0..u64::MAX {
        let count = read_retrying(reader, &mut room)?;
        if count == 0 {
            return Ok(());
        }
        write_front(writer, &mut room, count)?;
    }
    Err(Error::TooLong)
}

/// Appends to `writer` the next `count` bytes that `reader` has, or fewer at its end, piece by piece, in memory of one
/// piece whatever the count. A success says that all of them were appended, and where they are fewer than `count` that
/// the input ended well; the reader then stands after them. After a refusal a beginning of them was appended, and the
/// reader stands after the bytes that it gave, at most `count`, or has failed there: what was read and not written is
/// lost. No byte after the `count` bytes is asked for.
///
/// `OutOfMemory` comes before the first piece, where memory of one is refused. Any other refusal is that of the reader
/// or one that the writer may make while it is given `count` bytes. Interruptions are tried again up to 16 times in a row.
pub fn copy_some<R: Read, W: Write>(
    alloc: Global,
    reader: &mut R,
    writer: &mut W,
    count: u64,
) -> Result<(), Error>
    ensures { CopiesSome ⟦<R as Read>⟧ ⟦<W as Write>⟧ count reader.old reader.new writer.old writer.new result }
{
    let mut piece = room_for(alloc, ROOM)?;
    let mut left = count;
    'pieces: while left > 0 {
        let wanted = left.min(piece.len() as u64) as usize;
        let part = &mut piece[..wanted];
        let got = read_retrying(reader, part)?;
        if got == 0 {
            return Ok(());
        }
        write_all(writer, &part[..got])?;
        left -= got as u64;
    }
    Ok(())
}
