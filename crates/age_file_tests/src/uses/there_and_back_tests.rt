//! A message encrypted and decrypted in memory.

use crate::shared::{Kind, is_error, sevens};
use crate::uses::fixtures::{back, comes_back};
use age_bench::suite::BenchSuite;
use std::test::Fail;

#[test]
fn the_message_comes_back(rt: HostRuntime) -> Result<(), Fail> {
    let alloc = rt.alloc();
    let mut draw = sevens(alloc, 33)?;
    assert!(rt; comes_back::<BenchSuite>(alloc, &[Kind::Bench], &[Kind::Bench], &mut draw)?);
    assert!(rt; draw.left() == 1);
    Ok(())
}

#[test]
fn without_an_identity_nothing_comes_back(rt: HostRuntime) -> Result<(), Fail> {
    let alloc = rt.alloc();
    let mut draw = sevens(alloc, 32)?;
    let answer = back::<BenchSuite>(alloc, &[Kind::Bench], &mut [], &mut draw)?;
    assert!(rt; is_error(alloc, answer, "Decrypt(NoMatchingKeys)"));
    Ok(())
}
