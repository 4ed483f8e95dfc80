//! Files from before the standard, whose headers may have an early form, in which a body's last line is missing where it would be empty.

use crate::explain::{explained_again, with_asked};
use crate::failure::{Failure, named};
use crate::files::{is_regular, text_in};
use age::DecryptError;
use age::format::{HeaderV1, OldHeader};
use sazh_command::Identities;

// Whether the file of this name has no header of the standard.
fn has_invalid_header(rt: &HostRuntime, name: &str) -> bool {
    match text_in(rt, name) {
        Ok(mut text) => matches!(
            HeaderV1::read(rt.alloc(), &mut text),
            Err(DecryptError::InvalidHeader)
        ),
        Err(_) => false,
    }
}

// Whether the file of this name has a header of the standard or of the early form.
fn has_old_header(rt: &HostRuntime, name: &str) -> bool {
    match text_in(rt, name) {
        Ok(mut text) => OldHeader::read(rt.alloc(), &mut text).is_ok(),
        Err(_) => false,
    }
}

// Whether the file of this name can be read again, and has a header of the early form that isn't one of the standard. That is asked
// last, since a header that is of neither form is then read once more and not twice.
fn is_early(rt: &HostRuntime, name: &str) -> bool {
    is_regular(rt, name) && has_old_header(rt, name) && has_invalid_header(rt, name)
}

/// The name of an input as it is told.
pub fn shown_name(input: &str) -> &str {
    if input == "-" {
        "standard input"
    } else {
        input
    }
}

// Why the input of this name was refused, told anew where that was for a header of the early form.
fn reason(rt: &HostRuntime, input: &str, failure: Failure) -> Failure {
    if failure.is_invalid_header() && input != "-" && is_early(rt, input) {
        return named(
            rt,
            input,
            &"a header of an early form: sazh migrate rewrites it",
        );
    }
    failure
}

// Why the input of this name was refused, where a part of it was asked for: it is looked at again, where it can be.
fn looked_at(rt: &HostRuntime, input: &str, failure: Failure) -> Failure {
    match failure {
        Failure::Part(error) if input != "-" && is_regular(rt, input) => explained_again(
            rt, input, error,
        ),
        failure => failure,
    }
}

/// What was answered of the input of this name, by who was to decrypt it. Where its header was refused, the input is looked at again: one
/// of the early form is told as such, with the command that rewrites it. Standard input, a pipe, and what can't be read again stay
/// refused as they were.
pub fn answered(
    rt: &HostRuntime,
    asked: &Identities,
    input: &str,
    answer: Result<(), Failure>,
) -> Result<(), Failure> {
    match answer {
        Ok(()) => Ok(()),
        Err(failure) => {
            let failure = reason(rt, input, looked_at(rt, input, failure));
            Err(with_asked(rt, shown_name(input), asked, failure))
        }
    }
}

/// What was answered of an input that was rewritten, by who was to have its key.
pub fn rewritten(
    rt: &HostRuntime,
    asked: &Identities,
    input: &str,
    answer: Result<(), Failure>,
) -> Result<(), Failure> {
    match answer {
        Ok(()) => Ok(()),
        Err(failure) => Err(with_asked(rt, shown_name(input), asked, failure)),
    }
}
