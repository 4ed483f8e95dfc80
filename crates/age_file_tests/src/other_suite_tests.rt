//! The other suite against values of HMAC in Python.

use crate::shared::changed;
use age::suite::{Opens, ScryptError, Suite};
use std::alloc::{AllocError, Global};
use std::test::Fail;
use test_support::answers::gives;
use test_support::fixtures::{KEY, digest, part};
use test_support::other_suite::OtherSuite;

const NONCE: [u8; 12] = [100, 101, 102, 103, 104, 105, 106, 107, 108, 109, 110, 111];

const PLAIN: &[u8] = &[
    200, 201, 202, 203, 204, 205, 206, 207, 208, 209, 210, 211, 212, 213, 214, 215, 216, 217, 218,
    219, 220, 221, 222, 223, 224, 225, 226, 227, 228, 229, 230, 231, 232, 233, 234, 235, 236, 237,
    238, 239,
];

const SEALED: &[u8] = &[
    0x8c, 0x7b, 0xa5, 0xde, 0x1a, 0xe3, 0xc6, 0xbc, 0x88, 0x42, 0x17, 0x84, 0xe4, 0x18, 0x8b, 0xea,
    0x87, 0xd4, 0x44, 0x7d, 0xa6, 0xaf, 0x65, 0xb5, 0xff, 0xe7, 0xc1, 0x40, 0x7e, 0x62, 0xe5, 0x2c,
    0x26, 0xab, 0xbb, 0x8e, 0x39, 0xae, 0x92, 0x1d, 0xb1, 0x74, 0xd9, 0x6c, 0xca, 0x46, 0x76, 0x24,
    0x7e, 0xd0, 0x93, 0x95, 0xd5, 0x6c, 0x9b, 0x55,
];

// Whether a plaintext under the key and the nonce has this seal.
fn is_sealed_so(alloc: Global, plain: &[u8], sealed: &[u8]) -> bool {
    gives(OtherSuite::seal(alloc, &KEY, &NONCE, plain), sealed)
}

// What a seal opens to.
fn opened(
    alloc: Global,
    opens: &mut Opens,
    key: &[u8; 32],
    nonce: &[u8; 12],
    sealed: &[u8],
) -> Result<Option<Vec<u8>>, AllocError> {
    OtherSuite::open(alloc, opens, key, nonce, sealed)
}

// Whether a seal opens to this plaintext.
fn opens_to(alloc: Global, opens: &mut Opens, sealed: &[u8], plain: &[u8]) -> bool {
    match opened(alloc, opens, &KEY, &NONCE, sealed) {
        Ok(answer) => gives(answer.ok_or("refused"), plain),
        Err(_) => false,
    }
}

// Whether the seal opens to the plaintext, and that is counted.
fn opens_once(alloc: Global) -> bool {
    let mut opens = Opens::new();
    opens_to(alloc, &mut opens, SEALED, PLAIN) && opens.count() == 1
}

#[test]
fn a_plaintext_has_its_other_seal(rt: HostRuntime) {
    assert!(rt; PLAIN.len() == 40 && SEALED.len() == 56);
    assert!(rt; is_sealed_so(rt.alloc(), PLAIN, SEALED) && opens_once(rt.alloc()));
}

// Whether these bytes are no seal under the key and the nonce.
fn is_no_seal(
    alloc: Global,
    opens: &mut Opens,
    key: &[u8; 32],
    nonce: &[u8; 12],
    sealed: &[u8],
) -> bool {
    match opened(alloc, opens, key, nonce, sealed) {
        Ok(plain) => plain.is_none(),
        Err(_) => false,
    }
}

// Whether the seal is none under the key with its last byte changed.
fn is_no_seal_by_another_key(alloc: Global, opens: &mut Opens) -> bool {
    let mut key = KEY;
    key[31] = 32;
    is_no_seal(alloc, opens, &key, &NONCE, SEALED)
}

// Whether the seal is none under the nonce with its first byte changed.
fn is_no_seal_by_another_nonce(alloc: Global, opens: &mut Opens) -> bool {
    let mut nonce = NONCE;
    nonce[0] = 0;
    is_no_seal(alloc, opens, &KEY, &nonce, SEALED)
}

// Whether the seal with a bit of this byte changed is none.
fn is_no_seal_changed(alloc: Global, opens: &mut Opens, place: usize) -> Result<bool, Fail> {
    let copy = changed(alloc, SEALED, place, 1)?;
    Ok(is_no_seal(alloc, opens, &KEY, &NONCE, &copy))
}

// Whether the first bytes of the seal, so many of them, are none.
fn is_no_seal_cut(alloc: Global, opens: &mut Opens, length: usize) -> bool {
    is_no_seal(alloc, opens, &KEY, &NONCE, part(SEALED, 0, length))
}

// With another key, another nonce or another byte, and cut.
#[test]
fn what_is_no_other_seal_is_refused(rt: HostRuntime) -> Result<(), Fail> {
    let alloc = rt.alloc();
    let mut opens = Opens::new();
    assert!(rt;
        is_no_seal_by_another_key(alloc, &mut opens)
            && is_no_seal_by_another_nonce(alloc, &mut opens)
    );
    for i in 0..56 {
        assert!(rt;
            is_no_seal_changed(alloc, &mut opens, i)? && is_no_seal_cut(alloc, &mut opens, i),
            "at byte {i}"
        );
    }
    assert!(rt; opens.count() == 114);
    Ok(())
}

// The secret of the other side.
const HERE: [u8; 32] = [1; 32];

#[test]
fn both_sides_share_another_secret(rt: HostRuntime) {
    assert!(rt; OtherSuite::public(&HERE) == [0x36; 32]);
    let shared = OtherSuite::x25519(&HERE, &OtherSuite::public(&KEY));
    assert!(rt; shared == OtherSuite::x25519(&KEY, &OtherSuite::public(&HERE)));
    assert!(rt; (shared[0], shared[31]) == (0x36, 0x55));
}

// What the passphrase of these tests is stretched to.
fn stretched(alloc: Global, factor: u8) -> Result<[u8; 32], ScryptError> {
    OtherSuite::scrypt(alloc, b"passphrase", b"salt", factor)
}

// Whether a work factor is accepted, and refused by name where it is above 12.
fn is_judged(alloc: Global, factor: u8) -> bool {
    let stretched = stretched(alloc, factor);
    if factor > 12 {
        stretched == Err(ScryptError::InvalidParams)
    } else {
        stretched.is_ok()
    }
}

// Whether a work factor is accepted, and gives bytes with this digest.
fn has_digest(alloc: Global, factor: u8, expected: u64) -> bool {
    match stretched(alloc, factor) {
        Ok(key) => digest(&key) == expected,
        Err(_) => false,
    }
}

// Work factors, and the digest of what the passphrase is stretched to.
const FACTORS: [(u8, u64); 3] = [
    (0, 0x7b4a_42b2_4a55_11f4),
    (1, 0x702f_25ca_f0d6_f09a),
    (12, 0x58e8_6c5f_601f_3dac),
];

#[test]
fn work_factors_from_0_to_12_are_accepted(rt: HostRuntime) {
    for factor in 0..=255 {
        assert!(rt; is_judged(rt.alloc(), factor), "of {factor}");
    }
    for (factor, expected) in FACTORS {
        assert!(rt; has_digest(rt.alloc(), factor, expected), "of {factor}");
    }
}
