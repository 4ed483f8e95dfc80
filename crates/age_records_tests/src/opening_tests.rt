//! How many chunks are opened for records, bare and in armor: at most 9 to open them, and n / 65,536 + 8 for one of n bytes.

use crate::fixtures::{gives, in_armor, many, opened, three_of, written};
use age::io::{Bytes, Seek};
use age_bench::suite::BenchSuite;
use age_records::Records;
use std::alloc::Global;
use std::process::Abort;
use std::test::Fail;
use test_support::fixtures::{armored, plaintext};

// Whether this record of the list is given, and at most as many chunks are opened for it as may be.
fn gives_within<R: Seek>(
    records: &mut Records<BenchSuite, R>,
    list: &[Vec<u8>],
    index: usize,
) -> bool {
    let Some(bytes) = list.get(index) else {
        return false;
    };
    let before = records.opens();
    let most = (bytes.len() / 65_536).saturating_add(8) as u64;
    gives(records, index as u64, bytes) && records.opens().saturating_sub(before) <= most
}

// The records in the payload that this gives are opened, and those of these numbers are given, one after the other.
fn opens_few<R: Seek + Drop>(
    rt: &impl Abort,
    alloc: Global,
    inner: R,
    list: &[Vec<u8>],
    order: &[usize],
) -> Result<(), Fail> {
    let mut records = opened(alloc, inner)?;
    assert!(rt; records.len() == list.len() as u64);
    assert!(rt; records.opens() > 0 && records.opens() <= 9);
    for index in order {
        assert!(rt;
            gives_within(&mut records, list, *index),
            "at record {index}"
        );
    }
    Ok(())
}

// The same of their payload, bare.
fn opens_few_bare(
    rt: &impl Abort,
    alloc: Global,
    list: &[Vec<u8>],
    order: &[usize],
) -> Result<(), Fail> {
    let payload = written(alloc, list)?;
    opens_few(rt, alloc, Bytes::new(&payload), list, order)
}

// And in armor.
fn opens_few_in_armor(
    rt: &impl Abort,
    alloc: Global,
    list: &[Vec<u8>],
    order: &[usize],
) -> Result<(), Fail> {
    let text = armored(alloc, &written(alloc, list)?)?;
    opens_few(rt, alloc, in_armor(alloc, &text)?, list, order)
}

// Three records of this length have a text of 300,032 bytes, which are five chunks.
const LONG: usize = 100_000;

// Each of them after each other one.
const LONG_ORDER: [usize; 7] = [2, 0, 1, 2, 1, 0, 2];

#[test]
fn few_chunks_are_opened_for_long_records(rt: HostRuntime) -> Result<(), Fail> {
    let list = three_of(rt.alloc(), LONG)?;
    opens_few_bare(&rt, rt.alloc(), &list, &LONG_ORDER)
}

#[test]
fn few_chunks_are_opened_for_long_records_in_armor(rt: HostRuntime) -> Result<(), Fail> {
    let list = three_of(rt.alloc(), LONG)?;
    opens_few_in_armor(&rt, rt.alloc(), &list, &LONG_ORDER)
}

// So many records, in an order in which each comes once, far from the one before.
fn mixed(alloc: Global, count: usize) -> Result<Vec<usize>, Fail> {
    let mut order = Vec::new(alloc);
    for i in 0..count {
        order.push(i.saturating_mul(617) % count.max(1))?;
    }
    Ok(order)
}

#[test]
fn few_chunks_are_opened_for_many_records(rt: HostRuntime) -> Result<(), Fail> {
    let list = many(rt.alloc(), 1_000)?;
    opens_few_bare(&rt, rt.alloc(), &list, &mixed(rt.alloc(), 1_000)?)
}

#[test]
fn few_chunks_are_opened_for_many_records_in_armor(rt: HostRuntime) -> Result<(), Fail> {
    let list = many(rt.alloc(), 1_000)?;
    opens_few_in_armor(&rt, rt.alloc(), &list, &mixed(rt.alloc(), 1_000)?)
}

// The ends of so many records have 72,000 bytes, so that they go on in the second chunk.
const MORE: usize = 9_000;

// The two ends of record 8,191 are in different chunks.
const MORE_ORDER: [usize; 10] = [8_191, 0, 8_191, 8_192, 8_190, 8_999, 1, 4_500, 8_192, 8_191];

#[test]
fn ends_are_read_over_the_end_of_a_chunk(rt: HostRuntime) -> Result<(), Fail> {
    let list = many(rt.alloc(), MORE)?;
    opens_few_bare(&rt, rt.alloc(), &list, &MORE_ORDER)
}

#[test]
fn ends_are_read_over_the_end_of_a_chunk_in_armor(rt: HostRuntime) -> Result<(), Fail> {
    let list = many(rt.alloc(), MORE)?;
    opens_few_in_armor(&rt, rt.alloc(), &list, &MORE_ORDER)
}

// A record of 20 chunks between short ones, of 6 bytes and of 7.
fn one_long(alloc: Global) -> Result<Vec<Vec<u8>>, Fail> {
    let mut list = Vec::new(alloc);
    for length in [6, 20 * 65_536, 7] {
        list.push(plaintext(alloc, length)?)?;
    }
    Ok(list)
}

// The chunks of the long record are more than may be opened for a short one, or for all.
#[test]
fn a_long_record_is_not_opened_for_a_short_one(rt: HostRuntime) -> Result<(), Fail> {
    let list = one_long(rt.alloc())?;
    opens_few_bare(&rt, rt.alloc(), &list, &[2, 0, 2, 1, 2, 0])
}
