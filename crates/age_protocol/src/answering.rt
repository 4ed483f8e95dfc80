//! Which of several identities decides.
ghost use Rattle.std.specs.Prelude.{◌≡◌};
ghost use Rattle.age_format.specs.Unwrapping.{key_answer, unwrap_answer};
ghost use Rattle.age_v1.specs.Identities.{UnwrapAnswer, Unwraps, FirstThatAnswers, decided};

use age_error::DecryptError;
use age_format::{Identity, Stanza};
use age_suite::secrecy::FileKey;
use std::alloc::Global;

// The answer of the first identity whose answer isn't `None`; those after it aren't asked.
fn first_answer<I: Identity>(
    alloc: Global,
    identities: &mut [I],
    stanzas: &[Stanza],
) -> Option<Result<FileKey, DecryptError>>
    ensures { FirstThatAnswers (λ identity answer after. Unwraps I.unwraps identity stanzas.now answer after) identities.old
        (unwrap_answer result) identities.new }
{
    for identity in identities.iter_mut() {
        if let Some(answer) = identity.unwrap_stanzas(alloc, stanzas) {
            return Some(answer);
        }
    }
    None
}

/// The file key, or the refusal, by the first identity whose answer isn't `None`; `NoMatchingKeys` where there is none.
pub(crate) fn file_key_of<I: Identity>(
    alloc: Global,
    identities: &mut [I],
    stanzas: &[Stanza],
) -> Result<FileKey, DecryptError>
    ensures { (answer : UnwrapAnswer)
        × FirstThatAnswers (λ identity answer after. Unwraps I.unwraps identity stanzas.now answer after) identities.old answer identities.new
        × (key_answer result ≡ decided answer) }
{
    match first_answer(alloc, identities, stanzas) {
        Some(answer) => answer,
        None => Err(DecryptError::NoMatchingKeys),
    }
}

/// The same of one identity alone.
pub(crate) fn file_key_by_one<I: Identity>(
    alloc: Global,
    identity: &mut I,
    stanzas: &[Stanza],
) -> Result<FileKey, DecryptError>
    ensures { (answer : UnwrapAnswer)
        × Unwraps I.unwraps identity.old stanzas.now answer identity.new
        × (key_answer result ≡ decided answer) }
{
    match identity.unwrap_stanzas(alloc, stanzas) {
        Some(answer) => answer,
        None => Err(DecryptError::NoMatchingKeys),
    }
}
