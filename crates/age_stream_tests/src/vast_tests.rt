//! Seeks in a payload that is too long to be held anywhere.

use crate::fixtures::{Call, answers, reader_of};
use age::io::{Error, Read, SeekFrom, Std};
use age::stream::StreamReader;
use age::suite::Suite;
use age_bench::suite::BenchSuite;
use std::alloc::Global;
use std::io;
use std::process::Abort;
use std::test::Fail;
use test_support::fixtures::{KEY, part};

type Reader<'a> = StreamReader<BenchSuite, Std<Vast<'a>>>;

// 2^40 bytes of plaintext, all of them 0, in 2^24 chunks.
const PLAIN: u64 = 1 << 40;

const CHUNKS: u64 = 1 << 24;

const SEALED: u64 = PLAIN + 16 * CHUNKS;

// A device that makes the bytes of the payload from their place, and counts those that it gave.
#[derive(Drop)]
struct Vast<'a> {
    alloc: Global,
    place: u64,
    given: &'a mut u64,
}

// The sealed chunk of that number.
fn chunk(alloc: Global, number: u64) -> io::Result<Vec<u8>> {
    let mut nonce = [0; 12];
    nonce[3..11].copy_from_slice(&number.to_be_bytes());
    nonce[11] = (number == CHUNKS - 1) as u8;
    let plain = vec![in alloc; 0; 65_536]?;
    Ok(BenchSuite::seal(alloc, &KEY, &nonce, &plain)?)
}

impl<'a> io::Read for Vast<'a> {
    fn read(&mut self, buf: &mut [u8]) -> io::Result<usize> {
        if self.place >= SEALED {
            return Ok(0);
        }
        let sealed = chunk(self.alloc, self.place / 65_552)?;
        let rest = part(&sealed, (self.place % 65_552) as usize, sealed.len());
        let count = rest.len().min(buf.len());
        buf[..count].copy_from_slice(&rest[..count]);
        self.place += count as u64;
        *self.given = self.given.saturating_add(count as u64);
        Ok(count)
    }
}

impl<'a> io::Seek for Vast<'a> {
    fn seek(&mut self, to: io::SeekFrom) -> io::Result<u64> {
        let place = match to {
            io::SeekFrom::Start(place) => Some(place),
            io::SeekFrom::End(distance) => SEALED.checked_add_signed(distance),
            io::SeekFrom::Current(distance) => self.place.checked_add_signed(distance),
        };
        match place {
            Some(place) => {
                self.place = place;
                Ok(place)
            }
            None => Err(io::Error::from(io::ErrorKind::InvalidInput)),
        }
    }
}

// Whether the next byte is a 0.
fn reads_a_zero(reader: &mut Reader<'_>) -> bool {
    let mut byte = [1];
    reader.read(&mut byte) == Ok(1) && byte == [0]
}

// A seek to this place opens no chunk, and the read of a byte after it no more than two.
fn is_read_after(
    rt: &impl Abort,
    alloc: Global,
    reader: &mut Reader<'_>,
    to: SeekFrom,
    place: u64,
) -> Result<(), Fail> {
    let calls = [
        Call::Refuses(SeekFrom::Start(PLAIN + 1), Error::PastEnd),
        Call::Goes(to, place),
        Call::Opened(0),
    ];
    answers(rt, alloc, reader, &calls)?;
    assert!(rt; reads_a_zero(reader), "{to:?}");
    assert!(rt; reader.opens() <= 2, "{to:?}");
    Ok(())
}

// How many bytes the device gave for that.
fn given_for(rt: &impl Abort, alloc: Global, to: SeekFrom, place: u64) -> Result<u64, Fail> {
    let mut given = 0;
    let device = Vast {
        alloc,
        place: 0,
        given: &mut given,
    };
    let mut reader = reader_of::<BenchSuite, Std<Vast>>(alloc, Std::new(device))?;
    is_read_after(rt, alloc, &mut reader, to, place)?;
    drop(reader);
    Ok(given)
}

#[test]
fn a_seek_reads_nothing_and_a_read_one_chunk(rt: HostRuntime) -> Result<(), Fail> {
    for (to, place) in [
        (SeekFrom::Start(PLAIN / 2 + 5), PLAIN / 2 + 5),
        (SeekFrom::Current(70_000), 70_000),
        (SeekFrom::End(-1), PLAIN - 1),
    ] {
        assert!(rt; given_for(&rt, rt.alloc(), to, place)? == 65_552, "{to:?}");
    }
    Ok(())
}
