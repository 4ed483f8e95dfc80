//! Who opens a file whose header is known.
ghost use Rattle.std.specs.Prelude.{◌≡◌, List, ℕ, None, IfOk, IfErr, MatchOption, Ok};
ghost use Rattle.std.specs.List.{AllZip};
ghost use Rattle.age.specs.DecryptErrors.{decrypt_refusal};
ghost use Rattle.age.specs.Header.{covered_text};
ghost use Rattle.age.specs.HeaderMac.{header_mac};
ghost use Rattle.age.specs.Texts.{RefusesKey};
ghost use Rattle.age.specs.Unwrapping.{key_answer};
ghost use Rattle.sazh_core.specs.Opening.{AnswersByNumber, AnswersHeader, FindsOpener};

use age::format::HeaderV1;
use age::secrecy::FileKey;
use age::{DecryptError, Identity};
use std::alloc::Global;

// Who answered, counted from 0, and what.
#[derive(Drop)]
struct Answered {
    number: usize,
    answer: Result<FileKey, DecryptError>,
}

// The answer of the first whose answer isn't `None`; those after it aren't asked.
fn first_answer<I: Identity>(
    alloc: Global,
    identities: &mut [I],
    header: &HeaderV1,
) -> Option<Answered>
    ensures { MatchOption result (AllZip (λ identity then. AnswersHeader I.unwraps header.now identity None then) identities.old identities.new)
        (λ it. AnswersByNumber I.unwraps header.now identities.old identities.new it.number (key_answer it.answer)) }
{
    let mut number = 0;
    for identity in identities.iter_mut() {
        if let Some(answer) = identity.unwrap_stanzas(alloc, header.stanzas()) {
            return Some(Answered { number, answer });
        }
        number += 1;
    }
    None
}

// The number, where the header's MAC is right under the file key that was answered.
fn verified(
    header: &HeaderV1,
    answer: Result<FileKey, DecryptError>,
    number: usize,
) -> Result<usize, DecryptError>
    ensures right { IfOk result (λ n. (n ≡ number) × ((file_key : List ℕ) × (key_answer answer ≡ Ok file_key)
        × (header.now.mac ≡ header_mac file_key (covered_text header.now.stanzas)))) }
    ensures refused { IfErr result (λ e. RefusesKey (key_answer answer) header.now (decrypt_refusal e)) }
{
    match answer {
        Err(error) => Err(error),
        Ok(file_key) => {
            if header.verify_mac(&file_key) {
                Ok(number)
            } else {
                Err(DecryptError::InvalidMac)
            }
        }
    }
}

/// Which of these opens a file with this header: the number, counted from 0, of the first that answers to its stanzas, where the header's MAC is
/// right under the file key that it answers. Those after it aren't asked.
///
/// # Errors
///
/// - `NoMatchingKeys`: none answers.
/// - `InvalidMac`: the header's MAC isn't the one under the file key of the first that answers.
/// - that of the first that answers, where it refuses.
pub fn opens_header<I: Identity>(
    alloc: Global,
    identities: &mut [I],
    header: &HeaderV1,
) -> Result<usize, DecryptError>
    ensures { FindsOpener I.unwraps header.now identities.old identities.new result }
{
    match first_answer(alloc, identities, header) {
        None => Err(DecryptError::NoMatchingKeys),
        Some(it) => {
            let Answered { number, answer } = it;
            verified(header, answer, number)
        }
    }
}
