//! Random bytes that run out: of each number of them below what is needed, how many are left.

use crate::shared::{Kind, done, grease, is_answered, passphrase, recipients, sevens};
use age::{Encryptor, Recipient, x25519};
use age_bench::suite::BenchSuite;
use std::alloc::Global;
use std::test::Fail;

const RAN_OUT: Option<&str> = Some("random bytes ran out");

// What is drawn, one after the other: a file key, what a recipient needs, and the nonce of the payload.
const TO_BENCH: [usize; 2] = [16, 16];

const TO_X25519: [usize; 3] = [16, 32, 16];

const UNDER_A_PASSPHRASE: [usize; 4] = [16, 16, 24, 16];

const RECIPIENT: &str = "age1t7rxyev2z3rw82stdlrrepyc39nvn86l5078zqkf5uasdy86jp6svpy7pa";

// What is left of so many random bytes, of which the first draw that needs more takes none.
fn left(random: usize, draws: &[usize]) -> usize {
    let mut left = random;
    for size in draws {
        if left < *size {
            return left;
        }
        left -= *size;
    }
    left
}

// Whether an encryption to these recipients with so many random bytes is refused since they ran out, and what is left of them is right.
fn runs_out<T: Recipient>(
    alloc: Global,
    to: &[T],
    random: usize,
    draws: &[usize],
) -> Result<bool, Fail> {
    let mut draw = sevens(alloc, random)?;
    let grease = grease(alloc, "x-grease")?;
    let encryptor = Encryptor::<BenchSuite>::with_recipients(alloc, to, &mut draw, grease);
    Ok(is_answered(alloc, encryptor, RAN_OUT) && draw.left() == left(random, draws))
}

// Whether one under a passphrase is.
fn passphrase_runs_out(alloc: Global, random: usize) -> Result<bool, Fail> {
    let mut draw = sevens(alloc, random)?;
    let passphrase = passphrase(alloc, "correct horse")?;
    let encryptor = Encryptor::<BenchSuite>::with_user_passphrase(alloc, passphrase, 2, &mut draw);
    Ok(is_answered(alloc, encryptor, RAN_OUT) && draw.left() == left(random, &UNDER_A_PASSPHRASE))
}

#[test]
fn draws_to_the_bench_recipient_run_out(rt: HostRuntime) -> Result<(), Fail> {
    let to = recipients(rt.alloc(), &[Kind::Bench])?;
    for random in 0..32 {
        assert!(rt;
            runs_out(rt.alloc(), &to, random, &TO_BENCH)?,
            "of {random}"
        );
    }
    Ok(())
}

#[test]
fn draws_to_an_x25519_recipient_run_out(rt: HostRuntime) -> Result<(), Fail> {
    let to = [done(RECIPIENT.parse::<x25519::Recipient<BenchSuite>>())?];
    for random in 0..64 {
        assert!(rt;
            runs_out(rt.alloc(), &to, random, &TO_X25519)?,
            "of {random}"
        );
    }
    Ok(())
}

#[test]
fn draws_under_a_passphrase_run_out(rt: HostRuntime) -> Result<(), Fail> {
    for random in 0..72 {
        assert!(rt; passphrase_runs_out(rt.alloc(), random)?, "of {random}");
    }
    Ok(())
}
