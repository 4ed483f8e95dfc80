//! How many lines a text of armor has.
ghost use Rattle.std.specs.Prelude.{◌+◌, ◌*◌, ◌≤◌, IsTrue, length, IfOk};
ghost use Rattle.age.specs.ArmorReader.{has_armor, inner_of, place_of};

use age::armor::ArmoredReader;
use age::io::{BufRead, Error, Read, read_to_end};
use std::alloc::Global;

/// Reads what a text carries to its end, appends it to `out`, and answers how many lines were taken for it in all.
///
/// In armor 48 times as many are no fewer than the bytes up to the end, over a reader below that tells its bytes. It refuses as
/// `read_to_end` does.
pub fn read_by_lines<R: BufRead>(
    alloc: Global,
    reader: &mut ArmoredReader<R>,
    out: &mut Vec<u8>,
) -> Result<u64, Error>
    ensures { IsTrue (R.Read.tells (inner_of reader.old)) → IfOk result (λ lines. IsTrue (has_armor reader.new) →
        place_of reader.old + length out.new.items ≤ length out.old.items + 48 * lines) }
{
    read_to_end(alloc, reader, out)?;
    // One read more says that the reader is good, as `lines` asks.
    reader.read(&mut [0])?;
    Ok(reader.lines())
}
