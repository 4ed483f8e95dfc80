//! A text that was changed.
ghost use Rattle.std.specs.Prelude.{◌≡◌, ◌≢◌, ℕ, List, [], ◌∷◌, ◌++◌, IfOk};
ghost use Rattle.age.specs.Armor.{Carries};
ghost use Rattle.age.specs.File.{file_front};
ghost use Rattle.age.specs.Identities.{FirstAnswer, IsFileFor};
ghost use Rattle.age.specs.Payload.{payload, payload_key};

use age::armor::laws::carried_is_unique;
use age::format::laws::{header_text_reads_back, verdict_is_unique};
use age::suite::Suite;
use age::{DecryptError, Identity, decrypt};
use std::alloc::Global;

/// Decrypts a text, bare or in armor, beside a file of a plaintext for the same identity.
///
/// - `other_plaintext`: a success with another plaintext says that the text doesn't carry that file.
/// - `follows`: where what the text carries begins with that file's header and nonce, a success says that what follows is the payload of what
///   came out, under that file's own key: each chunk was sealed for this place of this file.
/// - `same_plaintext`: so with that file's plaintext it is that file, byte for byte.
pub fn decrypted_beside_a_file<S: Suite, I: Identity>(
    alloc: Global,
    identity: &mut I,
    text: &[u8],
) -> Result<Vec<u8>, DecryptError>
    ensures other_plaintext { (file plain : List ℕ) → IsFileFor S.seal_of (FirstAnswer I.unwraps (identity.old ∷ [])) plain file →
        IfOk result (λ given. given.items ≢ plain → Carries text.now file → ⊥) }
    ensures follows { (file plain rest : List ℕ) → (for : IsFileFor S.seal_of (FirstAnswer I.unwraps (identity.old ∷ [])) plain file) →
        Carries text.now (file_front for.file_key for.stanzas for.is_file.nonce ++ rest) →
        IfOk result (λ given. rest ≡ payload S.seal_of (payload_key for.file_key for.is_file.nonce) given.items) }
    ensures same_plaintext { (file plain rest : List ℕ) → (for : IsFileFor S.seal_of (FirstAnswer I.unwraps (identity.old ∷ [])) plain file) →
        let front = file_front for.file_key for.stanzas for.is_file.nonce in Carries text.now (front ++ rest) →
        IfOk result (λ given. given.items ≡ plain → front ++ rest ≡ file) }
{
    // Facts for the proof alone.
    header_text_reads_back();
    verdict_is_unique();
    carried_is_unique();
    decrypt::<S, I>(alloc, identity, text)
}
