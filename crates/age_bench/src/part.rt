//! The command on a part of a file's plaintext.
ghost use Rattle.age.specs.DecryptingStreams.{DecryptsPart};
ghost use Rattle.age.specs.Identities.{IsFileFor};
ghost use Rattle.age_bench.specs.Bench.{bench_seal};
ghost use Rattle.age_bench.specs.Names.{answers_of, gives_of};

use crate::names::With;
use crate::suite::BenchSuite;
use age::io::{Read, Write};
use age::streaming::{FileError, at};
use age::suite::Suite;
use std::alloc::Global;

/// `at` with the identity that a word of the command line names.
///
/// It refuses as `at` does, and then the same was appended.
pub fn at_with<R: Read, W: Write>(
    alloc: Global,
    with: With,
    place: u64,
    count: u64,
    reader: &mut R,
    writer: &mut W,
) -> Result<(), FileError>
    ensures { DecryptsPart ⟦<BenchSuite as Suite>⟧ ⟦<R as Read>⟧ ⟦<W as Write>⟧ (gives_of with) (answers_of with)
        (IsFileFor bench_seal (answers_of with)) place count reader.old reader.new writer.old writer.new result }
{
    at::<BenchSuite, With, R, W>(alloc, &mut [with], place, count, reader, writer)
}
