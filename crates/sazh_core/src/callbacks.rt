//! Whoever knows one passphrase.
ghost use Rattle.std.specs.Prelude.{◌≡◌, None};

use age::Callbacks;
use age::secrecy::SecretString;

/// Gives its passphrase to whoever asks first, and to no other. It shows nothing and answers nothing else.
#[derive(Drop)]
pub struct GivesOnce {
    passphrase: Option<SecretString>,
}

impl GivesOnce {
    /// One who gives this passphrase, or never one.
    pub fn new(passphrase: Option<SecretString>) -> GivesOnce
        ensures { result.passphrase ≡ passphrase }
    {
        GivesOnce { passphrase }
    }
}

impl Callbacks for GivesOnce {
    ghost use Rattle.std.specs.Option.{option_map};

    ghost displays = { λ before _ after. after ≡ before };

    ghost confirms = { λ before _ _ _ answer after. (answer ≡ None) × (after ≡ before) };

    ghost gives_string = { λ before _ answer after. (answer ≡ None) × (after ≡ before) };

    ghost gives_passphrase = { λ before _ answer after. (answer ≡ option_map (λ text. text) before.passphrase) × (after.passphrase ≡ None) };

    /// Does nothing.
    fn display_message(&mut self, _message: &str) {}

    /// Answers `None`.
    fn confirm(&mut self, _message: &str, _yes: &str, _no: Option<&str>) -> Option<bool> {
        None
    }

    /// Answers `None`.
    fn request_public_string(&mut self, _description: &str) -> Option<String> {
        None
    }

    /// The passphrase, the first time.
    fn request_passphrase(&mut self, _description: &str) -> Option<SecretString> {
        self.passphrase.take()
    }
}
