//! What a call did, told to one who holds no error and no value of many parts beside others.

use std::test::Fail;

/// Whether it is no refusal.
pub fn is_done<T: Drop, E: Drop>(answer: Result<T, E>) -> bool {
    answer.is_ok()
}

/// What was found; where nothing was, the test fails with this text.
pub fn found<T: Drop>(answer: Option<T>, text: &str) -> Result<T, Fail> {
    match answer {
        Some(found) => Ok(found),
        None => Err(Fail::from(text)),
    }
}
