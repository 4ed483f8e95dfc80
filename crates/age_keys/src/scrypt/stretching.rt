//! Passphrases stretched, and what a stanza says of that.
ghost use Rattle.std.specs.Prelude.{◌≡◌, ℕ, ◌^◌, ◌<◌, ◌≤◌, ◌↔◌, List, [], ◌∷◌, Err, false, IfOk, MatchOption};
ghost use Rattle.std.specs.Fmt.{decimal};
ghost use Rattle.age_error.specs.declared.suite.ScryptError.TheVariants.{InvalidParams};
ghost use Rattle.age_v1.specs.Scrypt.{stretch_salt, HasStretching, Stretching as SaltAndFactor};

use crate::stanzas::decode_argument;
use age_error::suite::ScryptError;
use age_format::Stanza;
use age_suite::suite::Suite;
use std::alloc::{AllocError, Global};
use std::marker::Model;

/// The tag of the type.
pub(crate) const TAG: &str = "scrypt";

// What a passphrase is stretched with, of the salt of a stanza.
fn stretch_salt(salt: &[u8; 16]) -> [u8; 44]
    ensures { result ≡ stretch_salt salt.now }
{
    let mut whole = [0; 44];
    let (front, back) = whole.split_at_mut(28);
    front.copy_from_slice(b"age-encryption.org/v1/scrypt");
    back.copy_from_slice(salt);
    whole
}

/// What a stanza says of the stretching: the salt, and the work factor from 1 to 255. In contracts it is a record of both.
#[derive(Drop)]
pub(crate) struct Stretching {
    salt: [u8; 16],
    factor: u8,
}

impl Model for Stretching {
    ghost use Rattle.age_v1.specs.Scrypt.{Stretching as SaltAndFactor};

    ghost Value = { SaltAndFactor };

    ghost view = { λ with_. record { salt = with_.salt; factor = with_.factor } };
}

impl Stretching {
    /// The salt.
    pub(crate) fn salt(&self) -> &[u8; 16]
        ensures { result.now ≡ self.now.salt }
    {
        &self.salt
    }

    /// The work factor.
    pub(crate) fn factor(&self) -> u8
        ensures { result ≡ self.now.factor }
    {
        self.factor
    }
}

/// A passphrase stretched with the salt of a stanza and a work factor: the wrap key. `InvalidParams` where the suite doesn't accept
/// the factor, and there alone; `OutOfMemory` where memory is refused.
pub(crate) fn stretch<S: Suite>(
    alloc: Global,
    passphrase: &str,
    salt: &[u8; 16],
    factor: u8,
) -> Result<[u8; 32], ScryptError>
    ensures value { IfOk result (λ key. key ≡ S.stretch_of passphrase.now (stretch_salt salt.now) factor) }
    ensures refused { (result ≡ Err InvalidParams) ↔ (S.accepts factor ≡ false) }
{
    S::scrypt(alloc, passphrase.as_bytes(), &stretch_salt(salt), factor)
}

// The number from 1 to 255 that a text is the decimal of.
fn factor_of(text: &str) -> Option<u8>
    ensures { MatchOption result ((factor : ℕ) → 1 ≤ factor → factor < 2 ^ 8 → decimal factor ≡ text.now → ⊥)
        (λ factor. (1 ≤ factor) × (decimal factor ≡ text.now)) }
{
    // (`parse` takes a plus and leading zeros.)
    if text.as_bytes().starts_with(b"+") {
        return None;
    }
    if text.as_bytes().starts_with(b"0") {
        return None;
    }
    text.parse::<u8>().ok()
}

// The arguments of a stanza that has two.
fn two_arguments(stanza: &Stanza) -> Option<(&str, &str)>
    ensures { MatchOption result ((salt : List ℕ) (factor : List ℕ) → stanza.now.args ≡ salt ∷ factor ∷ [] → ⊥)
        (λ both. stanza.now.args ≡ both.0.now ∷ both.1.now ∷ []) }
{
    let (salt, more) = stanza.args().split_first()?;
    let (factor, more) = more.split_first()?;
    if more.is_empty() {
        Some((salt.as_str(), factor.as_str()))
    } else {
        None
    }
}

/// The salt and the work factor of a stanza, or `None` where it lacks what this type asks: two arguments, the base64 of 16 bytes and
/// the decimal of a number from 1 to 255, and a body of 32 bytes.
pub(crate) fn stretching_of(
    alloc: Global,
    stanza: &Stanza,
) -> Result<Option<Stretching>, AllocError>
    ensures { IfOk result (λ found. MatchOption found ((with_ : SaltAndFactor) → HasStretching with_ stanza.now → ⊥)
        (λ with_. HasStretching with_ stanza.now)) }
{
    let Some((salt, factor)) = two_arguments(stanza) else {
        return Ok(None);
    };
    let Some(factor) = factor_of(factor) else {
        return Ok(None);
    };
    if stanza.body().len() != 32 {
        return Ok(None);
    }
    match decode_argument::<16>(alloc, salt)? {
        Some(salt) => Ok(Some(Stretching { salt, factor })),
        None => Ok(None),
    }
}
