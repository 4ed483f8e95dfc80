//! Files to X25519 recipients. The expected bytes are those of Python, from the format's own words.

use crate::fixtures::{
    armored_for, encrypted_for, grease, identity_of, opens, recipient_of, refuses_file,
};
use age::draw::Draw;
use age::encrypt;
use age::x25519::{Identity, Recipient};
use age_bench::suite::BenchSuite;
use std::alloc::Global;
use std::test::Fail;
use test_support::answers::is_refusal;
use test_support::fixtures::{KEY, MESSAGE, digest, zeros};

// The header of the message's file for that identity, with random bytes that are zero.
const HEADER: &[u8] =
    b"age-encryption.org/v1\n-> X25519 WlpaWlpaWlpaWlpaWlpaWlpaWlpaWlpaWlpaWlpaWlo\n8YTqiaR+AGskezrb0qlKIRgOyNRiXDZoyGHuvoArL9k\n-> x-grease\n\n--- C94eH/KHckOUH2UEVHxqtCs9Jhhpv0tTWSL3QORypWU\n";

// The identity whose secret is the bytes 0, 1, .., 31.
fn counting(alloc: Global) -> Result<Identity<BenchSuite>, Fail> {
    identity_of(alloc, &KEY)
}

// The message's file for that identity, with random bytes that are zero.
fn encrypted(alloc: Global) -> Result<Vec<u8>, Fail> {
    encrypted_for(alloc, &recipient_of(alloc, &KEY)?, zeros(alloc, 64)?)
}

// Whether that identity decrypts a file, or its armor, to the message.
fn comes_back(alloc: Global, file: &[u8]) -> Result<bool, Fail> {
    Ok(opens(alloc, &mut counting(alloc)?, file))
}

#[test]
fn a_message_has_its_file(rt: HostRuntime) -> Result<(), Fail> {
    let alloc = rt.alloc();
    let file = encrypted(alloc)?;
    assert!(rt; file.len() == 249 && file.starts_with(HEADER));
    assert!(rt; digest(&file) == 0xc316a2df6a3f83c8 && comes_back(alloc, &file)?);
    Ok(())
}

// Its armor.
fn armored(alloc: Global) -> Result<String, Fail> {
    armored_for(alloc, &recipient_of(alloc, &KEY)?, zeros(alloc, 64)?)
}

// Whether the identity of the secret of nines is none of a file.
fn nines_fail(alloc: Global, file: &[u8]) -> Result<bool, Fail> {
    let mut other = identity_of(alloc, &[9; 32])?;
    Ok(refuses_file::<BenchSuite, _>(alloc, &mut other, file, "no matching keys"))
}

#[test]
fn a_message_has_its_armor(rt: HostRuntime) -> Result<(), Fail> {
    let alloc = rt.alloc();
    let text = armored(alloc)?;
    assert!(rt; text.len() == 406 && comes_back(alloc, text.as_bytes())?);
    assert!(rt; nines_fail(alloc, text.as_bytes())?);
    Ok(())
}

// Whether an encryption is refused since random bytes ran out.
fn is_short(alloc: Global, draw: &mut Draw) -> Result<bool, Fail> {
    let recipient = recipient_of(alloc, &KEY)?;
    let grease = grease(alloc)?;
    let answer = encrypt::<BenchSuite, Recipient<BenchSuite>>(
        alloc, &recipient, MESSAGE, draw, grease,
    );
    Ok(is_refusal(alloc, answer, "random bytes ran out"))
}

// Whether an encryption with so many random bytes is refused so, and so many are left.
fn runs_out(alloc: Global, random: usize, left: usize) -> Result<bool, Fail> {
    let mut draw = zeros(alloc, random)?;
    Ok(is_short(alloc, &mut draw)? && draw.left() == left)
}

#[test]
fn random_bytes_run_out(rt: HostRuntime) -> Result<(), Fail> {
    let alloc = rt.alloc();
    for (random, left) in [(0, 0), (15, 15), (16, 0), (47, 31), (48, 0), (63, 15)] {
        assert!(rt; runs_out(alloc, random, left)?, "with {random}");
    }
    Ok(())
}
