//! The bench suite against values of HMAC in Python.

use age_bench::suite::BenchSuite;
use age_error::suite::ScryptError;
use age_suite::suite::{Opens, Suite};
use std::alloc::{AllocError, Global};
use std::process::Abort;
use std::test::Fail;
use test_support::fixtures::KEY;

const NONCE: [u8; 12] = [100, 101, 102, 103, 104, 105, 106, 107, 108, 109, 110, 111];

const PLAIN: [u8; 40] = [
    200, 201, 202, 203, 204, 205, 206, 207, 208, 209, 210, 211, 212, 213, 214, 215, 216, 217, 218,
    219, 220, 221, 222, 223, 224, 225, 226, 227, 228, 229, 230, 231, 232, 233, 234, 235, 236, 237,
    238, 239,
];

const SEALED: [u8; 56] = [
    0x4d, 0xe2, 0x35, 0xf8, 0xee, 0x1c, 0xf9, 0x65, 0xce, 0x79, 0xff, 0x25, 0xff, 0x4b, 0x3d, 0x54,
    0x80, 0x19, 0x5f, 0x2f, 0x76, 0x9e, 0x3b, 0xf9, 0xd6, 0xbb, 0x20, 0x3a, 0x69, 0xe7, 0xce, 0x81,
    0x6d, 0xc2, 0x15, 0xd8, 0xce, 0x3c, 0xd9, 0x45, 0x49, 0x8c, 0x3d, 0x65, 0x3e, 0xcd, 0x77, 0x66,
    0xf4, 0x2b, 0x3d, 0x3c, 0xde, 0x2a, 0xad, 0x1e,
];

#[test]
fn a_plaintext_has_its_seal(rt: HostRuntime) -> Result<(), Fail> {
    let sealed = BenchSuite::seal(rt.alloc(), &KEY, &NONCE, &PLAIN)?;
    assert!(rt; sealed.as_slice() == SEALED.as_slice());
    Ok(())
}

// Whether a text opens to this plaintext.
fn opens_to(alloc: Global, opens: &mut Opens, key: &[u8; 32], sealed: &[u8], plain: &[u8]) -> bool {
    match BenchSuite::open(alloc, opens, key, &NONCE, sealed) {
        Ok(Some(opened)) => opened.as_slice() == plain,
        _ => false,
    }
}

// Whether a text doesn't open.
fn is_refused(
    alloc: Global,
    opens: &mut Opens,
    key: &[u8; 32],
    nonce: &[u8; 12],
    sealed: &[u8],
) -> bool {
    matches!(BenchSuite::open(alloc, opens, key, nonce, sealed), Ok(None))
}

// Another last byte of the key, and another first byte of the nonce.
const OTHER_KEY: [u8; 32] = [
    0, 1, 2, 3, 4, 5, 6, 7, 8, 9, 10, 11, 12, 13, 14, 15, 16, 17, 18, 19, 20, 21, 22, 23, 24, 25,
    26, 27, 28, 29, 30, 32,
];

const OTHER_NONCE: [u8; 12] = [0, 101, 102, 103, 104, 105, 106, 107, 108, 109, 110, 111];

// Whether the seal opens under its key and nonce alone, and each try is counted.
fn opens_to_its_key(alloc: Global, opens: &mut Opens) -> bool {
    opens_to(alloc, opens, &KEY, &SEALED, &PLAIN)
        && opens.count() == 1
        && is_refused(alloc, opens, &OTHER_KEY, &NONCE, &SEALED)
        && opens.count() == 2
        && is_refused(alloc, opens, &KEY, &OTHER_NONCE, &SEALED)
}

// Whether the seal doesn't open with a bit of this byte changed.
fn is_refused_changed(alloc: Global, opens: &mut Opens, place: usize) -> bool {
    let mut changed = SEALED;
    if let Some(byte) = changed.get_mut(place) {
        *byte ^= 1;
    }
    is_refused(alloc, opens, &KEY, &NONCE, &changed)
}

// Whether beginnings of the seal don't open.
fn are_refused_cut(alloc: Global, opens: &mut Opens) -> bool {
    is_refused(alloc, opens, &KEY, &NONCE, &SEALED[..55])
        && is_refused(alloc, opens, &KEY, &NONCE, &SEALED[..15])
        && is_refused(alloc, opens, &KEY, &NONCE, &[])
}

#[test]
fn a_seal_opens_and_opens_are_counted(rt: HostRuntime) -> Result<(), Fail> {
    let alloc = rt.alloc();
    let mut opens = Opens::new();
    assert!(rt; opens.count() == 0 && opens_to_its_key(alloc, &mut opens));
    for place in 0..56 {
        assert!(rt;
            is_refused_changed(alloc, &mut opens, place),
            "at byte {place}"
        );
    }
    assert!(rt; are_refused_cut(alloc, &mut opens) && opens.count() == 62);
    Ok(())
}

// Whether so many bytes have a seal of this length that opens to them.
fn are_sealed_and_open(
    alloc: Global,
    opens: &mut Opens,
    count: usize,
    length: usize,
) -> Result<bool, AllocError> {
    let plain = vec![in alloc; 7u8; count]?;
    let sealed = BenchSuite::seal(alloc, &KEY, &NONCE, &plain)?;
    Ok(sealed.len() == length && opens_to(alloc, opens, &KEY, &sealed, &plain))
}

// Numbers of bytes about whole masks, and the lengths of their seals.
const LENGTHS: [(usize, usize); 9] = [
    (0, 16),
    (1, 17),
    (31, 47),
    (32, 48),
    (33, 49),
    (63, 79),
    (64, 80),
    (65, 81),
    (1000, 1016),
];

#[test]
fn plaintexts_of_all_lengths_open(rt: HostRuntime) -> Result<(), Fail> {
    let alloc = rt.alloc();
    let mut opens = Opens::new();
    for (count, length) in LENGTHS {
        assert!(rt;
            are_sealed_and_open(alloc, &mut opens, count, length)?,
            "of {count} bytes"
        );
    }
    Ok(())
}

const ONES: [u8; 32] = [1; 32];

// Whether both sides come to the same secret, which begins and ends with these bytes.
fn share(here: &[u8; 32], there: &[u8; 32], ends: (u8, u8)) -> bool {
    let shared = BenchSuite::x25519(here, &BenchSuite::public(there));
    shared == BenchSuite::x25519(there, &BenchSuite::public(here))
        && (shared[0], shared[31]) == ends
}

#[test]
fn both_sides_share_a_secret(rt: HostRuntime) {
    assert!(rt; BenchSuite::public(&ONES) == [0x5b; 32]);
    assert!(rt; share(&ONES, &KEY, (1, 30)));
    assert!(rt; BenchSuite::x25519(&KEY, &BenchSuite::public(&KEY)) == [0; 32]);
}

// What a passphrase is stretched to with this work factor.
fn stretched(alloc: Global, factor: u8) -> Result<[u8; 32], ScryptError> {
    BenchSuite::scrypt(alloc, b"passphrase", b"salt", factor)
}

// Whether this work factor is accepted from 1 to 20, and refused elsewhere.
fn is_answered(alloc: Global, factor: u8) -> bool {
    let answer = stretched(alloc, factor);
    if factor < 1 || factor > 20 {
        answer == Err(ScryptError::InvalidParams)
    } else {
        answer.is_ok()
    }
}

const STRETCHED: [u8; 32] = [
    0x65, 0xd1, 0x46, 0xac, 0xce, 0xcd, 0x77, 0xff, 0xf2, 0x7e, 0xb2, 0xdb, 0x39, 0x1a, 0x0a, 0xae,
    0x04, 0xfc, 0x5b, 0xdd, 0x1b, 0x15, 0xe9, 0x0c, 0x43, 0x08, 0x0c, 0xcd, 0x2a, 0x29, 0xe3, 0xef,
];

#[test]
fn work_factors_from_1_to_20_are_accepted(rt: HostRuntime) {
    for factor in 0..=255 {
        assert!(rt; is_answered(rt.alloc(), factor), "of {factor}");
    }
    assert!(rt; stretched(rt.alloc(), 10) == Ok(STRETCHED));
}
