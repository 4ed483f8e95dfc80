//! A file of identities: its recipients, and its identities. What is refused memory, and can be asked again, is asked once more.

use crate::lines::{Digest, done, is_done, ready, say};
use age::io::Bytes;
use age::x25519::Identity;
use age::{IdentityFile, NoCallbacks};
use age_bench::suite::BenchSuite;

type File = IdentityFile<BenchSuite, NoCallbacks>;

// Whether its recipients are written, without want of memory. What is written is printed, also of a refusal.
fn is_written(rt: &HostRuntime, file: &File) -> bool {
    let mut text = Vec::new(rt.alloc());
    let written = file.write_recipients_file(rt.alloc(), &mut text);
    let is_written = is_done(rt, "file", "recipients", written);
    say(rt, "file", "written", &Digest(text.as_slice()));
    is_written
}

// Whether the text of an identity is printed.
fn is_printed(rt: &HostRuntime, identity: &Identity<BenchSuite>) -> bool {
    match done(rt, "identity", "text", identity.to_string(rt.alloc())) {
        Some(text) => {
            say(rt, "identity", "text", &text.expose_secret());
            true
        }
        None => false,
    }
}

// Its identities.
fn print_identities(rt: &HostRuntime, file: File) {
    if let Some(identities) = done(rt, "file", "identities", file.into_identities(rt.alloc())) {
        say(rt, "file", "identities", &identities.len());
        for identity in identities.as_slice() {
            let _ = is_printed(rt, identity) || is_printed(rt, identity);
        }
    }
}

/// Makes the calls on this file.
pub fn row(rt: &HostRuntime, text: &[u8]) {
    ready(rt);
    let read = File::from_buffer(rt.alloc(), Bytes::new(text));
    if let Some(file) = done(rt, "file", "read", read) {
        let _ = is_written(rt, &file) || is_written(rt, &file);
        print_identities(rt, file);
    }
}
