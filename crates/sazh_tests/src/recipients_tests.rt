//! Files of recipients. The texts of recipients were computed by another implementation of Bech32 (BIP 173).

use age::x25519::Recipient;
use age_bench::suite::BenchSuite;
use sazh_core::error::RecipientsError;
use sazh_core::recipients::recipients_of;
use std::alloc::Global;
use std::process::Abort;
use std::str::FromStr;
use std::test::Fail;

// The recipients of 32 bytes of 0, and of 32 bytes of 1.
const ZEROS: &str = "age1qqqqqqqqqqqqqqqqqqqqqqqqqqqqqqqqqqqqqqqqqqqqqqqqqqqq5cu47z";

const ONES: &str = "age1qyqszqgpqyqszqgpqyqszqgpqyqszqgpqyqszqgpqyqszqgpqyqs3290gq";

// Whether a recipient is that of this text.
fn is_that_of(recipient: &Recipient<BenchSuite>, text: &str) -> bool {
    match Recipient::<BenchSuite>::from_str(text) {
        Ok(other) => *recipient == other,
        Err(_) => false,
    }
}

// Whether a text names these recipients, each told by its text.
fn names(alloc: Global, text: &[u8], wanted: &[&str]) -> Result<bool, Fail> {
    let found: Vec<Recipient<BenchSuite>> = recipients_of(alloc, text)?;
    let mut same = found.len() == wanted.len();
    for (recipient, text) in found.iter().zip(wanted) {
        same &= is_that_of(recipient, text);
    }
    Ok(same)
}

// Whether a text is refused so.
fn is_refused(alloc: Global, text: &[u8], wanted: RecipientsError) -> bool {
    match recipients_of::<BenchSuite>(alloc, text) {
        Ok(_) => false,
        Err(error) => error == wanted,
    }
}

#[test]
fn one_line_is_one_recipient(rt: HostRuntime) -> Result<(), Fail> {
    assert!(rt; names(rt.alloc(), ZEROS.as_bytes(), &[ZEROS])?);
    Ok(())
}

// That of ones, and that of zeros.
const TWO: &[u8] =
    b"# two of them\r\n\nage1qyqszqgpqyqszqgpqyqszqgpqyqszqgpqyqszqgpqyqszqgpqyqs3290gq\r\n#\nage1qqqqqqqqqqqqqqqqqqqqqqqqqqqqqqqqqqqqqqqqqqqqqqqqqqqq5cu47z\n";

#[test]
fn lines_keep_their_order(rt: HostRuntime) -> Result<(), Fail> {
    assert!(rt; names(rt.alloc(), TWO, &[ONES, ZEROS])?);
    Ok(())
}

#[test]
fn text_may_be_in_upper_case(rt: HostRuntime) -> Result<(), Fail> {
    let text = b"AGE1QQQQQQQQQQQQQQQQQQQQQQQQQQQQQQQQQQQQQQQQQQQQQQQQQQQQ5CU47Z\n";
    assert!(rt; names(rt.alloc(), text, &[ZEROS])?);
    Ok(())
}

// Whether the third line is told as bad.
fn third_is_bad(alloc: Global, text: &[u8]) -> bool {
    is_refused(alloc, text, RecipientsError::NotRecipient { line: 3 })
}

// That of zeros, but for one more byte.
const LONGER: &[u8] =
    b"\n#\r\nage1qqqqqqqqqqqqqqqqqqqqqqqqqqqqqqqqqqqqqqqqqqqqqqqqqqqq5cu47z\r\r\n";

#[test]
fn first_bad_line_is_told(rt: HostRuntime) -> Result<(), Fail> {
    let alloc = rt.alloc();
    assert!(rt;
        third_is_bad(alloc, b"\n# no key\nage1x\nage1y\n") && third_is_bad(alloc, b"\n\n ")
    );
    assert!(rt; third_is_bad(alloc, LONGER));
    Ok(())
}

#[test]
fn an_identity_is_no_recipient(rt: HostRuntime) {
    let text = b"AGE-SECRET-KEY-1QQQSYQCYQ5RQWZQFPG9SCRGWPUGPZYSNZS23V9CCRYDPK8QARC0SWRYDWG\n";
    assert!(rt; is_refused(rt.alloc(), text, RecipientsError::NotRecipient { line: 1 }));
}

// Whether a text has nobody.
fn has_nobody(alloc: Global, text: &[u8]) -> bool {
    is_refused(alloc, text, RecipientsError::NoRecipient)
}

#[test]
fn nobody_is_no_recipient(rt: HostRuntime) {
    assert!(rt; has_nobody(rt.alloc(), b"") && has_nobody(rt.alloc(), b"# none\n\n"));
}

#[test]
fn other_bytes_are_no_text(rt: HostRuntime) {
    assert!(rt; is_refused(rt.alloc(), b"# \xe4\n", RecipientsError::NotText));
}
