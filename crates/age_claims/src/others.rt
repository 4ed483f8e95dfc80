//! A file that isn't for the identity.
ghost use Rattle.std.specs.Prelude.{◌≡◌, ◌⊎◌, ℕ, List, Err, MatchResult};
ghost use Rattle.age.specs.DecryptErrors.{DecryptRefusal, decrypt_refusal, OutOfMemory};
ghost use Rattle.age.specs.Identities.{decided, UnwrapAnswer};
ghost use Rattle.age.specs.Armor.{Carries};
ghost use Rattle.age.specs.File.{IsFileOf};
ghost use Rattle.age.specs.Stanza.{StanzaValue};
ghost use Rattle.age_claims.specs.Claims.{AnswersAlways};

use age::armor::laws::{carried_is_delivered, carried_is_unique};
use age::format::laws::{header_text_reads_back, verdict_is_unique};
use age::laws::one_plaintext;
use age::suite::Suite;
use age::{DecryptError, Identity, decrypt};
use std::alloc::Global;

/// Decrypts a file, bare or in armor, with an identity that has no file key for it.
///
/// To the file's stanzas the identity answers nothing, or always the same refusal, unless memory is refused. Then the call doesn't succeed, and
/// its refusal is `NoMatchingKeys`, or that of the identity, or want of memory.
pub fn refused_as_answered<S: Suite, I: Identity>(
    alloc: Global,
    identity: &mut I,
    text: &[u8],
) -> Result<Vec<u8>, DecryptError>
    ensures { (key : List ℕ) (stanzas : List StanzaValue) (plain file : List ℕ) (this : UnwrapAnswer) (why : DecryptRefusal)
        → Carries text.now file → IsFileOf S.seal_of key stanzas plain file → decided this ≡ Err why
        → AnswersAlways I.unwraps stanzas this identity.old
        → MatchResult result (λ given. ⊥) (λ e. (decrypt_refusal e ≡ why) ⊎ (decrypt_refusal e ≡ OutOfMemory)) }
{
    // Facts for the proof alone.
    header_text_reads_back();
    verdict_is_unique();
    carried_is_delivered();
    carried_is_unique();
    one_plaintext::<S>();
    decrypt::<S, I>(alloc, identity, text)
}
