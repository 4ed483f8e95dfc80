//! Reading identity files.
ghost use Rattle.std.specs.Prelude.{◌≡◌, ◌+◌, ◌<◌, ◌^◌, length, map, true, false, IfOk, IfErr};
ghost use Rattle.age_error.specs.Refusals.{IsInterruption};
ghost use Rattle.age_io.specs.Reading.{TriedAgain};
ghost use Rattle.age_identity.specs.Entries.{entry_of};
ghost use Rattle.age_identity.specs.Limited.{inner_of, left_of, is_past, ReadsWithin, Meets};
ghost use Rattle.age_identity.specs.Reading.{ReadsEntries};

use crate::entry::IdentityFileEntry;
use crate::parser::Parser;
use crate::util::LimitedReader;
use age_error::io::{Error, ErrorKind};
use age_io::{Read, retried};
use std::alloc::Global;

// How many bytes are read at once.
const ROOM: usize = 1_024;

// A read that is tried again after an interruption, up to 16 times in a row.
fn read_some<R: Read>(reader: &mut LimitedReader<R>, buf: &mut [u8]) -> Result<usize, Error>
    requires some { 0 < length buf.old }
    requires within { is_past reader.old ≡ false }
    ensures patient { IfErr result (λ e. IsInterruption e → ⊥) }
    ensures counts { IfOk result (λ n. left_of reader.new + n ≡ left_of reader.old) }
    ensures inner { is_past reader.new ≡ false →
        ReadsWithin ⟦<R as Read>⟧ (TriedAgain R.refuses) (inner_of reader.old) (inner_of reader.new) buf.new result }
    ensures meets { is_past reader.new ≡ true → Meets ⟦<R as Read>⟧ reader.old reader.new result }
{
    retried!(_try, reader.read(buf))
}

/// The entries of all that a reader still has, up to its limit. It takes the memory of one line and of the entries, and gives the
/// refusals of the first bad line and of the reader in the order in which they come. Interruptions are tried again up to 16 times in a
/// row.
pub(crate) fn read_entries<S, R: Read>(
    alloc: Global,
    reader: &mut LimitedReader<R>,
) -> Result<Vec<IdentityFileEntry<S>>, Error>
    requires within { is_past reader.old ≡ false }
    requires few { left_of reader.old < 2 ^ 62 }
    ensures { ReadsEntries ⟦<R as Read>⟧ (left_of reader.old) (λ entries. map (λ e. entry_of e) entries.items) (inner_of reader.old)
        (inner_of reader.new) result }
{
    let mut room = [0; ROOM];
    let mut parser = Parser::new(alloc);
    'reads: loop {
        let count = match read_some(reader, &mut room) {
            Err(e) => return Err(e),
            Ok(count) => count,
        };
        if count == 0 {
            return parser.finish(alloc);
        }
        match parser.push_all(alloc, &room[..count]) {
            Err(e) => return Err(e),
            Ok(next) => parser = next,
        }
    }
}
