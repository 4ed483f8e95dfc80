//! Callbacks.

use age_identity::{Callbacks, NoCallbacks};
use std::test::Fail;

// Whether callbacks that were shown a message answer nothing to each question.
fn answer_nothing<C: Callbacks>(callbacks: &mut C) -> bool {
    callbacks.display_message("message");
    callbacks.confirm("message", "yes", Some("no")).is_none()
        && callbacks.request_public_string("description").is_none()
        && callbacks.request_passphrase("description").is_none()
}

#[test]
fn no_callbacks_answer_nothing(rt: HostRuntime) -> Result<(), Fail> {
    let mut callbacks: Box<dyn Callbacks> = Box::new(rt.alloc(), NoCallbacks)?;
    assert!(rt; answer_nothing(&mut callbacks));
    Ok(())
}
