//! What is told of a new key.

use crate::failure::{Failure, Shown, tell};
use crate::output::{Place, is_standard, name_of, where_to};
use sazh_command::Output;
use std::fs;
use std::fs::Metadata;
use std::io::IsTerminal;
use std::os::unix::fs::MetadataExt;

// Standard output, as the system names it.
const OUTPUT: &str = "/dev/stdout";

// The bits of a mode by which others than the owner of a file may read it.
const READ_BY_OTHERS: u32 = 0o044;

// What the first line of a file of identities begins with, before the recipient.
const RECIPIENT: &[u8] = b"# public key: ";

// Whether this is a file that others than its owner may read.
fn is_open(found: &Metadata) -> bool {
    found.is_file() && found.mode() & READ_BY_OTHERS != 0
}

// Whether a key that goes to standard output goes to a file that others may read.
fn is_output_open(rt: &HostRuntime) -> bool {
    match fs::metadata(rt, OUTPUT) {
        Ok(found) => is_open(&found),
        Err(_) => false,
    }
}

// Whether an output is standard output, and that a terminal.
fn is_terminal(rt: &HostRuntime, place: &Place) -> bool {
    matches!(place, Place::Standard) && rt.stdout().is_terminal()
}

// Warns of a file that others than its owner may read.
fn tell_open(rt: &HostRuntime, name: &str) {
    let name = Shown(name);
    let _ = eprintln!(rt;
        "sazh: warning: {name}: others than its owner may read this file of a secret key"
    );
}

/// Warns where a new key goes to a file that others than its owner may read, or is shown on a terminal.
pub fn warn(rt: &HostRuntime, output: &Output) -> Result<(), Failure> {
    let place = where_to(rt, output)?;
    if is_terminal(rt, &place) {
        tell(
            rt,
            &"warning: the terminal shows the secret key: -o FILE keeps it in a file that its owner alone reads",
        );
        return Ok(());
    }
    match &place {
        Place::Standard if is_output_open(rt) => tell_open(rt, "standard output"),
        Place::Taken(_, old) if is_open(old) => tell_open(rt, name_of(output)),
        _ => {}
    }
    Ok(())
}

// The recipient that the front of a file of identities tells.
fn recipient_in(front: &[u8]) -> Option<&str> {
    let rest = front.strip_prefix(RECIPIENT)?;
    let end = rest.iter().position(|byte| *byte == b'\n')?;
    let line = rest.get(..end)?;
    str::from_utf8(line).ok()
}

/// Tells the recipient of a new key, whose file begins so, unless that is shown on a terminal.
pub fn tell_recipient(rt: &HostRuntime, output: &Output, front: &[u8]) {
    if is_standard(name_of(output)) && rt.stdout().is_terminal() {
        return;
    }
    if let Some(recipient) = recipient_in(front) {
        let _ = eprintln!(rt; "Public key: {recipient}");
    }
}
