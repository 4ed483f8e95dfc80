//! Files under a passphrase, as encryptors write them. The expected digests are those of Python, from the format's own words.
ghost use Rattle.std.specs.Prelude.{◌≤◌};

use crate::shared::{done, is_scrypt, passphrase, written};
use age::draw::Draw;
use age::io::Bytes;
use age::scrypt::Identity;
use age::{EncryptError, Encryptor, decrypt};
use age_bench::suite::BenchSuite;
use std::alloc::{AllocError, Global};
use std::test::Fail;
use test_support::answers::{gives, is_refusal};
use test_support::fixtures::{MESSAGE, digest, plaintext};

const PASSPHRASE: &str = "correct horse";

// The random bytes 0, 1, .., so many of them.
fn counted(alloc: Global, random: usize) -> Result<Draw, AllocError> {
    Ok(Draw::new(plaintext(alloc, random)?))
}

// An encryptor under the passphrase with this work factor.
fn prepared(
    alloc: Global,
    log_n: u8,
    draw: &mut Draw,
) -> Result<Encryptor<BenchSuite>, EncryptError>
    requires some { 1 ≤ log_n }
    requires most { log_n ≤ 63 }
{
    Encryptor::with_user_passphrase(alloc, passphrase(alloc, PASSPHRASE)?, log_n, draw)
}

// The message's file under the passphrase with this work factor, by these random bytes.
fn message_written(alloc: Global, log_n: u8, draw: &mut Draw) -> Result<Vec<u8>, Fail>
    requires some { 1 ≤ log_n }
    requires most { log_n ≤ 63 }
{
    written(alloc, done(prepared(alloc, log_n, draw))?, MESSAGE)
}

// Whether the identity of the passphrase gives the message.
fn comes_back(alloc: Global, file: &[u8]) -> Result<bool, AllocError> {
    let mut identity = Identity::<BenchSuite>::new(passphrase(alloc, PASSPHRASE)?, 20);
    let plain = decrypt::<BenchSuite, Identity<BenchSuite>>(alloc, &mut identity, file);
    Ok(gives(plain, MESSAGE))
}

// Whether a file has this digest, is one of a passphrase, and is decrypted again.
fn is_file(alloc: Global, file: &[u8], expected: u64) -> Result<bool, AllocError> {
    Ok(
        digest(file) == expected
            && is_scrypt(alloc, Bytes::new(file)).ok() == Some(true)
            && comes_back(alloc, file)?,
    )
}

// Whether the message's file under the passphrase with this work factor, by the random bytes 0, 1, .., 71, is one with this digest. Of one
// random byte more that one is left.
fn is_written(alloc: Global, log_n: u8, expected: u64) -> Result<bool, Fail>
    requires some { 1 ≤ log_n }
    requires most { log_n ≤ 63 }
{
    let mut draw = counted(alloc, 73)?;
    let file = message_written(alloc, log_n, &mut draw)?;
    Ok(draw.left() == 1 && is_file(alloc, &file, expected)?)
}

#[test]
fn a_message_has_its_file_under_a_passphrase(rt: HostRuntime) -> Result<(), Fail> {
    let alloc = rt.alloc();
    assert!(rt; is_written(alloc, 10, 0x9177_d2e8_0442_76f0)?);
    assert!(rt; is_written(alloc, 1, 0xc5d1_12c3_b239_2314)?);
    assert!(rt; is_written(alloc, 20, 0xaf02_c5ea_5b32_eb97)?);
    Ok(())
}

// Whether of so many random bytes and with this work factor nothing is prepared, this text says why, and so many bytes are left.
fn is_refused(
    alloc: Global,
    random: usize,
    log_n: u8,
    left: usize,
    expected: &str,
) -> Result<bool, AllocError>
    requires some { 1 ≤ log_n }
    requires most { log_n ≤ 63 }
{
    let mut draw = counted(alloc, random)?;
    let answer = prepared(alloc, log_n, &mut draw);
    Ok(is_refusal(alloc, answer, expected) && draw.left() == left)
}

const SHORT: &str = "random bytes ran out";

// Whether the file key, the salt, the label and the nonce are drawn in turn.
fn short_draws_are_refused(alloc: Global) -> Result<bool, AllocError> {
    Ok(
        is_refused(alloc, 15, 10, 15, SHORT)?
            && is_refused(alloc, 31, 10, 15, SHORT)?
            && is_refused(alloc, 55, 21, 23, SHORT)?
            && is_refused(alloc, 71, 10, 15, SHORT)?,
    )
}

const TOO_MUCH: &str = "work factor refused";

// Whether a work factor above 20 is refused before the nonce is drawn.
fn high_factors_are_refused(alloc: Global) -> Result<bool, AllocError> {
    Ok(is_refused(alloc, 56, 21, 0, TOO_MUCH)? && is_refused(alloc, 80, 63, 24, TOO_MUCH)?)
}

#[test]
fn refusals_come_in_their_order(rt: HostRuntime) -> Result<(), Fail> {
    assert!(rt; short_draws_are_refused(rt.alloc())?);
    assert!(rt; high_factors_are_refused(rt.alloc())?);
    Ok(())
}
