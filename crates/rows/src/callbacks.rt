//! Answers to the questions of a protected file.

ghost use Rattle.std.specs.Prelude.{⊤};

use age::Callbacks;
use age::secrecy::SecretString;
use std::cell::Cell;

/// Knows one passphrase or none, which it gives once, and counts how often it is asked for one.
#[derive(Drop)]
pub struct Knows<'a> {
    pub passphrase: Option<SecretString>,
    pub asked: &'a Cell<u64>,
}

impl<'a> Callbacks for Knows<'a> {
    ghost displays = { λ _ _ _. ⊤ };

    ghost confirms = { λ _ _ _ _ _ _. ⊤ };

    ghost gives_string = { λ _ _ _ _. ⊤ };

    ghost gives_passphrase = { λ _ _ _ _. ⊤ };

    fn display_message(&mut self, _message: &str) {}

    fn confirm(&mut self, _message: &str, _yes: &str, _no: Option<&str>) -> Option<bool> {
        None
    }

    fn request_public_string(&mut self, _description: &str) -> Option<String> {
        None
    }

    fn request_passphrase(&mut self, _description: &str) -> Option<SecretString> {
        self.asked.set(self.asked.get().saturating_add(1));
        self.passphrase.take()
    }
}
