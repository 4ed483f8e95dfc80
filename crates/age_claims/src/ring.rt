//! A file that one of several identities opens.
ghost use Rattle.std.specs.Prelude.{◌≡◌, ℕ, List, [], ◌∷◌, ◌++◌, None, All, MatchResult};
ghost use Rattle.age.specs.Armor.{Carries};
ghost use Rattle.age.specs.FileErrors.{IsWant};
ghost use Rattle.age.specs.Identities.{FirstAnswer, IsFileFor};
ghost use Rattle.age_claims.specs.Claims.{AnswersAlways};

use age::Identity;
use age::armor::laws::carried_is_unique;
use age::io::Bytes;
use age::laws::one_plaintext;
use age::streaming::{FileError, decrypt_all};
use age::suite::Suite;
use std::alloc::Global;

/// Decrypts a file, bare or in armor, with several identities: its plaintext.
///
/// Where it is a file for one of them, and those before that one pass over its stanzas, a success is the plaintext, and a refusal is
/// want of memory. The identities after that one may be any.
pub fn decrypted_by_one_of_many<S: Suite, I: Identity>(
    alloc: Global,
    identities: &mut [I],
    text: &[u8],
) -> Result<Vec<u8>, FileError>
    ensures { (front back : List I) (one : I) (file plain : List ℕ) → identities.old ≡ front ++ one ∷ back → Carries text.now file →
        (for : IsFileFor S.seal_of (FirstAnswer I.unwraps (one ∷ [])) plain file) → All (AnswersAlways I.unwraps for.stanzas None) front →
        MatchResult result (λ given. given.items ≡ plain) IsWant }
{
    // Facts for the proof alone.
    one_plaintext::<S>();
    carried_is_unique();
    let mut given = Vec::new(alloc);
    let mut input = Bytes::new(text);
    match decrypt_all::<S, I, Bytes, Vec<u8>>(alloc, identities, &mut input, &mut given) {
        Err(error) => Err(error),
        Ok(()) => Ok(given),
    }
}
