//! X25519 recipients in a set.

use crate::fixtures::recipient_of;
use age::x25519::Recipient;
use age_bench::suite::BenchSuite;
use std::alloc::Global;
use std::collections::HashSet;
use std::test::Fail;

// The recipient of a secret, where it equals its copy.
fn copied(alloc: Global, secret: &[u8]) -> Result<Recipient<BenchSuite>, Fail> {
    let recipient = recipient_of(alloc, secret)?;
    if recipient == recipient.clone()? {
        Ok(recipient)
    } else {
        Err(Fail::from("another copy"))
    }
}

#[test]
fn recipients_are_their_bytes(rt: HostRuntime) -> Result<(), Fail> {
    let alloc = rt.alloc();
    let mut set = HashSet::new(alloc);
    for secret in [[1; 32], [2; 32], [1; 32]] {
        set.insert(copied(alloc, &secret)?)?;
    }
    assert!(rt; set.len() == 2);
    Ok(())
}
