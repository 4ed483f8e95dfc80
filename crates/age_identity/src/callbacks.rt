//! Those who are asked while identities are used.
ghost use Rattle.std.specs.Prelude.{◌≡◌, ℕ, List, Bool, Option, None, string_bytes};
ghost use Rattle.std.specs.Option.{option_map};
ghost use Rattle.age_format.specs.Boxed.{Changes};

use age_suite::secrecy::SecretString;

/// One who shows messages to a user and asks for what only the user knows.
///
/// What one does is said by a relation for each call: of the callbacks before it, what they were told, the answer, and the callbacks
/// after it. So a chain of states says which calls were made, and how often. Texts are lists of bytes.
pub trait Callbacks: Drop {
    // The callbacks before, the message, and the callbacks after.
    ghost displays: { Self → List ℕ → Self → Type 0 };

    // The callbacks before, the message, the words for yes and, if there are any, for no, the answer, and the callbacks after.
    ghost confirms: { Self → List ℕ → List ℕ → Option (List ℕ) → Option Bool → Self → Type 0 };

    // The callbacks before, the description, the answer, and the callbacks after.
    ghost gives_string: { Self → List ℕ → Option (List ℕ) → Self → Type 0 };

    // The same of a passphrase.
    ghost gives_passphrase: { Self → List ℕ → Option (List ℕ) → Self → Type 0 };

    /// Shows a message.
    fn display_message(&mut self, message: &str)
        ensures { displays self.old message.now self.new };

    /// Asks to confirm what the message says, by the words of `yes`, or to decline by those of `no`. `None` where nobody can be asked.
    fn confirm(&mut self, message: &str, yes: &str, no: Option<&str>) -> Option<bool>
        ensures { confirms self.old message.now yes.now (option_map (λ word. word.now) no.entry) result self.new };

    /// Asks for a text that isn't secret. `None` where none is given.
    fn request_public_string(&mut self, description: &str) -> Option<String>
        ensures { gives_string self.old description.now (option_map (λ text. string_bytes text) result) self.new };

    /// Asks for a passphrase. `None` where none is given.
    fn request_passphrase(&mut self, description: &str) -> Option<SecretString>
        ensures { gives_passphrase self.old description.now (option_map (λ text. text) result) self.new };
}

/// Callbacks that show nothing and answer nothing.
#[derive(Clone, Copy, Debug)]
pub struct NoCallbacks;

impl Callbacks for NoCallbacks {
    ghost displays = { λ before _ after. after ≡ before };

    ghost confirms = { λ before _ _ _ answer after. (answer ≡ None) × (after ≡ before) };

    ghost gives_string = { λ before _ answer after. (answer ≡ None) × (after ≡ before) };

    ghost gives_passphrase = { λ before _ answer after. (answer ≡ None) × (after ≡ before) };

    /// Does nothing.
    fn display_message(&mut self, _message: &str) {}

    /// Answers `None`.
    fn confirm(&mut self, _message: &str, _yes: &str, _no: Option<&str>) -> Option<bool> {
        None
    }

    /// Answers `None`.
    fn request_public_string(&mut self, _description: &str) -> Option<String> {
        None
    }

    /// Answers `None`.
    fn request_passphrase(&mut self, _description: &str) -> Option<SecretString> {
        None
    }
}

// What callbacks in a box show, and how they change.
fn display_in_box(callbacks: &mut Box<dyn Callbacks>, message: &str)
    ensures { Changes callbacks.old (λ before after. (Callbacks-box callbacks.old).displays before message.now after) callbacks.new }
{
    (**callbacks).display_message(message)
}

// The same of what they confirm.
fn confirm_in_box(
    callbacks: &mut Box<dyn Callbacks>,
    message: &str,
    yes: &str,
    no: Option<&str>,
) -> Option<bool>
    ensures { Changes callbacks.old (λ before after. (Callbacks-box callbacks.old).confirms before message.now yes.now
        (option_map (λ word. word.now) no.entry) result after) callbacks.new }
{
    (**callbacks).confirm(message, yes, no)
}

// The same of a text that they give.
fn string_in_box(callbacks: &mut Box<dyn Callbacks>, description: &str) -> Option<String>
    ensures { Changes callbacks.old (λ before after. (Callbacks-box callbacks.old).gives_string before description.now
        (option_map (λ text. string_bytes text) result) after) callbacks.new }
{
    (**callbacks).request_public_string(description)
}

// The same of a passphrase.
fn passphrase_in_box(callbacks: &mut Box<dyn Callbacks>, description: &str) -> Option<SecretString>
    ensures { Changes callbacks.old (λ before after. (Callbacks-box callbacks.old).gives_passphrase before description.now
        (option_map (λ text. text) result) after) callbacks.new }
{
    (**callbacks).request_passphrase(description)
}

// What callbacks in a box do is what those in the box do.
impl Callbacks for Box<dyn Callbacks> {
    ghost displays = { λ callbacks message after. Changes callbacks (λ before after. (Callbacks-box callbacks).displays before message after) after };

    ghost confirms = { λ callbacks message yes no answer after. Changes callbacks
        (λ before after. (Callbacks-box callbacks).confirms before message yes no answer after) after };

    ghost gives_string = { λ callbacks description answer after. Changes callbacks
        (λ before after. (Callbacks-box callbacks).gives_string before description answer after) after };

    ghost gives_passphrase = { λ callbacks description answer after. Changes callbacks
        (λ before after. (Callbacks-box callbacks).gives_passphrase before description answer after) after };

    fn display_message(&mut self, message: &str) {
        display_in_box(self, message)
    }

    fn confirm(&mut self, message: &str, yes: &str, no: Option<&str>) -> Option<bool> {
        confirm_in_box(self, message, yes, no)
    }

    fn request_public_string(&mut self, description: &str) -> Option<String> {
        string_in_box(self, description)
    }

    fn request_passphrase(&mut self, description: &str) -> Option<SecretString> {
        passphrase_in_box(self, description)
    }
}
