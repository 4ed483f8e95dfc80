//! What recipients and identities of a passphrase do before they stretch it. The expected bytes are those of Python, from the format's own
//! words. Other stanzas are in the table of `rows`.

use crate::fixtures::{Answer, gives_zeros, horse, passphrase, refuses, refuses_to_wrap, stanza};
use age::scrypt::{Identity, Recipient};
use age::{DecryptError, Identity as _, Recipient as AnyRecipient};
use age_bench::suite::BenchSuite;
use std::alloc::{AllocError, Global};
use std::test::Fail;
use test_support::fixtures::zeros;
use test_support::never_stretches::NeverStretches;

// A salt of zeros, and what is sealed under `correct horse` with it and the work factor 10: a file key of zeros.
const SALT: &str = "AAAAAAAAAAAAAAAAAAAAAA";

const SEALED: [u8; 32] = [
    0x5c, 0xca, 0x3d, 0x51, 0x84, 0xc5, 0x16, 0x09, 0x29, 0x0a, 0x99, 0xac, 0x74, 0x79, 0x48, 0x33,
    0x9f, 0xd6, 0xd2, 0x16, 0x17, 0x9f, 0x50, 0x5b, 0x66, 0x7b, 0xf4, 0x43, 0x79, 0x25, 0xf3, 0x6a,
];

// The refusal where too few random bytes are left.
const SHORT: &str = "random bytes ran out";

// An identity that takes factors up to four above its target, or up to another one that it is told.
#[test]
fn the_largest_work_factor_can_be_set(rt: HostRuntime) -> Result<(), Fail> {
    let alloc = rt.alloc();
    let stanza = stanza(alloc, "scrypt", &[SALT, "10"], &SEALED)?;
    let mut identity = horse(alloc, 6)?;
    assert!(rt; gives_zeros(alloc, &mut identity, &stanza));
    identity.set_max_work_factor(9);
    assert!(rt;
        refuses(
            alloc,
            &mut identity,
            &stanza,
            "excessive work factor 10, target 6"
        )
    );
    identity.set_max_work_factor(10);
    assert!(rt; gives_zeros(alloc, &mut identity, &stanza));
    Ok(())
}

// An identity for a work factor of 5 whose suite stretches nothing.
fn never_stretching(alloc: Global) -> Result<Identity<NeverStretches>, Fail> {
    Ok(Identity::new(passphrase(alloc, "correct horse")?, 5))
}

// Whether it refuses a stanza with this work factor so.
fn is_unstretched(alloc: Global, factor: &str, refusal: &str) -> Result<bool, Fail> {
    let stanza = stanza(alloc, "scrypt", &[SALT, factor], &SEALED)?;
    Ok(refuses(alloc, &mut never_stretching(alloc)?, &stanza, refusal))
}

// Whether memory is refused.
fn is_out_of_memory(answer: &Answer) -> bool {
    matches!(answer, Some(Err(DecryptError::OutOfMemory)))
}

// Whether it would stretch its passphrase for a stanza with this work factor.
fn would_stretch(alloc: Global, factor: &str) -> Result<bool, Fail> {
    let stanza = stanza(alloc, "scrypt", &[SALT, factor], &SEALED)?;
    Ok(is_out_of_memory(&never_stretching(alloc)?.unwrap_stanza(alloc, &stanza)))
}

// A factor that is too large is refused by an identity whose suite stretches nothing, as are arguments that aren't those of the type: no
// passphrase was stretched. One within the bound would be.
#[test]
fn no_work_is_done_above_the_largest_factor(rt: HostRuntime) -> Result<(), Fail> {
    let alloc = rt.alloc();
    assert!(rt; is_unstretched(alloc, "10", "excessive work factor 10, target 5")?);
    assert!(rt; is_unstretched(alloc, "09", "invalid header")?);
    assert!(rt; would_stretch(alloc, "9")?);
    Ok(())
}

// Whether it is refused so to wrap it with so many, of which so many are left.
fn is_refused<R: AnyRecipient>(
    alloc: Global,
    recipient: &R,
    random: usize,
    refusal: &str,
    left: usize,
) -> Result<bool, AllocError> {
    Ok(refuses_to_wrap(alloc, recipient, zeros(alloc, random)?, refusal, left))
}

// All is drawn before a passphrase is stretched.
#[test]
fn draws_come_before_the_work(rt: HostRuntime) -> Result<(), Fail> {
    let alloc = rt.alloc();
    let recipient = Recipient::<NeverStretches>::new(passphrase(alloc, "correct horse")?, 10);
    assert!(rt; is_refused(alloc, &recipient, 39, SHORT, 23)?);
    assert!(rt; is_refused(alloc, &recipient, 40, "out of memory", 0)?);
    Ok(())
}
