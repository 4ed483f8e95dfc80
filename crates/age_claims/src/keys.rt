//! What is printed of a key.
ghost use Rattle.std.specs.Prelude.{◌≡◌, false, IfOk, string_bytes};
ghost use Rattle.age.specs.Bech32Symbols.{has_lower, has_upper};
ghost use Rattle.age.specs.Bech32Written.{bech32_text};
ghost use Rattle.age.specs.X25519.{identity_prefix, recipient_prefix};

use age::secrecy::SecretString;
use age::x25519::laws::{known_identity, known_recipient, text_laws};
use age::x25519::{Identity, Recipient};
use std::alloc::{AllocError, Global};

/// Two recipients with one text are one key. It does nothing: its contract is the claim.
#[tactic(auto, using(crate::proofs::PrintedKeys::one_key))]
pub fn one_key_of_a_text<S>(one: &Recipient<S>, other: &Recipient<S>)
    ensures { bech32_text recipient_prefix one.now ≡ bech32_text recipient_prefix other.now → one.now ≡ other.now }
{
    // Facts for the proof alone.
    text_laws();
    known_recipient(one);
    known_recipient(other);
}

/// The text of a recipient, its key in Bech32, in which no letter is in upper case. `AllocError` where memory is refused.
#[tactic(auto, using(crate::proofs::PrintedKeys::in_lower_case))]
pub fn printed_recipient<S>(alloc: Global, recipient: &Recipient<S>) -> Result<String, AllocError>
    ensures text { IfOk result (λ text. string_bytes text ≡ bech32_text recipient_prefix recipient.now) }
    ensures case { IfOk result (λ text. has_upper (string_bytes text) ≡ false) }
{
    // Facts for the proof alone.
    text_laws();
    known_recipient(recipient);
    recipient.to_string(alloc)
}

/// The text of an identity, its secret in Bech32, in which no letter is in lower case, as the standard writes it. `AllocError` where memory is
/// refused.
#[tactic(auto, using(crate::proofs::PrintedKeys::in_upper_case))]
pub fn printed_identity<S>(
    alloc: Global,
    identity: &Identity<S>,
) -> Result<SecretString, AllocError>
    ensures text { IfOk result (λ text. text ≡ bech32_text identity_prefix identity.now) }
    ensures case { IfOk result (λ text. has_lower text ≡ false) }
{
    // Facts for the proof alone.
    text_laws();
    known_identity(identity);
    identity.to_string(alloc)
}
