//! Texts of keys: a recipient that prints itself, the same with a letter raised, and a text of no bytes. What is refused memory is tried once more.

use crate::lines::{Digest, done, ready, say};
use age::bech32::decode;
use age::x25519::Recipient;
use age_bench::suite::BenchSuite;

const RECIPIENT: &str = "age1t7rxyev2z3rw82stdlrrepyc39nvn86l5078zqkf5uasdy86jp6svpy7pa";

const RAISED: &str = "age1t7rxyev2z3rw82stdlrrepyc39nvn86l5078zqkf5uasdy86jp6svpy7pA";

// Reads a recipient.
fn read(rt: &HostRuntime, of: &str, text: &str) -> Option<Recipient<BenchSuite>> {
    done(rt, of, "read", text.parse::<Recipient<BenchSuite>>())
}

// Whether its text is printed.
fn is_printed(rt: &HostRuntime, recipient: &Recipient<BenchSuite>) -> bool {
    match done(rt, "recipient", "text", recipient.to_string(rt.alloc())) {
        Some(text) => {
            say(rt, "recipient", "text", &text);
            true
        }
        None => false,
    }
}

// Whether the parts of a text are printed.
fn is_decoded(rt: &HostRuntime, text: &str) -> bool {
    match done(rt, "text", "prefix", decode(rt.alloc(), text)) {
        Some((prefix, bytes)) => {
            say(rt, "text", "prefix", &prefix);
            say(rt, "text", "bytes", &Digest(bytes.as_slice()));
            true
        }
        None => false,
    }
}

/// Makes the calls.
pub fn row(rt: &HostRuntime) {
    ready(rt);
    if let Some(recipient) = read(rt, "recipient", RECIPIENT) {
        let _ = is_printed(rt, &recipient) || is_printed(rt, &recipient);
    }
    if read(rt, "raised", RAISED).is_some() {
        say(rt, "raised", "read", &"done");
    }
    let _ = is_decoded(rt, "A12UEL5L") || is_decoded(rt, "A12UEL5L");
}
