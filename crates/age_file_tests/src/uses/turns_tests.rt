//! Two places read in turn.

use age::io::{Bytes, Error, Seek};
use age::stream::StreamReader;
use age::suite::Suite;
use age_bench::suite::BenchSuite;
use age_examples::turns::in_turns;
use std::alloc::Global;
use std::test::Fail;
use test_support::fixtures::{KEY, plaintext};
use test_support::whole::seal_whole;

// Whether a hundred turns open two chunks, and the end of the plaintext is no place.
fn opens_two_chunks<S: Suite, R: Seek>(reader: &mut StreamReader<S, R>) -> bool {
    in_turns(reader, 3, 655_360, 100) == Ok((3, 250))
        && reader.opens() == 2
        && in_turns(reader, 3, 655_361, 0) == Err(Error::UnexpectedEof)
}

// Whether a reader of a payload does that.
fn is_read_in_turns(alloc: Global, payload: &[u8]) -> Result<bool, Error> {
    let mut reader = StreamReader::<BenchSuite, Bytes>::with_payload_key(
        alloc,
        KEY,
        Bytes::new(payload),
    )?;
    Ok(opens_two_chunks(&mut reader))
}

// Between two of eleven chunks.
#[test]
fn a_hundred_turns_open_two_chunks(rt: HostRuntime) -> Result<(), Fail> {
    let alloc = rt.alloc();
    let payload = seal_whole::<BenchSuite>(alloc, &KEY, &plaintext(alloc, 655_361)?)?;
    assert!(rt; is_read_in_turns(alloc, &payload)?);
    Ok(())
}
