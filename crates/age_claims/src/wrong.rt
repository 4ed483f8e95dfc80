//! A passphrase or a key that isn't that of the file.
ghost use Rattle.std.specs.Prelude.{◌≡◌, ◌⊎◌, ◌≤◌, ℕ, List, [], ◌∷◌, All, None, Ok, MatchResult};
ghost use Rattle.age.specs.Bytes.{AreBytes};
ghost use Rattle.age.specs.DecryptErrors.{decrypt_refusal, DecryptionFailed, NoMatchingKeys, OutOfMemory};
ghost use Rattle.age.specs.Armor.{Carries};
ghost use Rattle.age.specs.Encrypting.{Prepared, Prepares};
ghost use Rattle.age.specs.File.{IsFileOf};
ghost use Rattle.age.specs.RecipientType.{no_nonce};
ghost use Rattle.age.specs.Scrypt.{PassphraseRecipient, stretch_salt, scrypt_stanza, WrapsUnder};
ghost use Rattle.age.specs.Stanza.{StanzaValue};
ghost use Rattle.age_claims.specs.Claims.{IsUnopened};

use crate::others::refused_as_answered;
use age::laws::{passphrase_files, several_recipients};
use age::scrypt::{Identity, Recipient};
use age::suite::Suite;
use age::x25519::laws::x25519_pair;
use age::{DecryptError, x25519};
use std::alloc::Global;

/// Decrypts a file under a passphrase, bare or in armor, with an identity of another passphrase.
///
/// The work factor is from 1 to 63, the identity takes it, and what the identity's passphrase is stretched to doesn't open the body of the file's
/// stanza. Then the call doesn't succeed, and its refusal is `DecryptionFailed`, or want of memory.
pub fn refused_by_another_passphrase<S: Suite>(
    alloc: Global,
    identity: &mut Identity<S>,
    text: &[u8],
) -> Result<Vec<u8>, DecryptError>
    ensures { (recipient : PassphraseRecipient) (draws left : List ℕ) (file : Prepared) (plain carried : List ℕ)
        → AreBytes recipient.passphrase → 1 ≤ recipient.factor → recipient.factor ≤ 63 → recipient.factor ≤ identity.old.most
        → Prepares (WrapsUnder S.seal_of S.stretch_of S.accepts) (recipient ∷ []) None draws (Ok file) left
        → Carries text.now carried → IsFileOf S.seal_of file.file_key file.stanzas plain carried
        → ((salt body : List ℕ) → file.stanzas ≡ scrypt_stanza salt recipient.factor body ∷ []
        → S.opened (S.stretch_of identity.old.passphrase (stretch_salt salt) recipient.factor) no_nonce body ≡ None)
        → MatchResult result (λ given. ⊥) (λ e. (decrypt_refusal e ≡ DecryptionFailed) ⊎ (decrypt_refusal e ≡ OutOfMemory)) }
{
    // Facts for the proof alone.
    passphrase_files::<S>();
    several_recipients::<S, Recipient<S>, Identity<S>>();
    refused_as_answered::<S, Identity<S>>(alloc, identity, text)
}

/// Decrypts a file, bare or in armor, with an X25519 identity that none of its stanzas is for.
///
/// Each stanza is of another type, or the identity's secret doesn't open its body. Then the call doesn't succeed, and its refusal is
/// `NoMatchingKeys`, or want of memory.
pub fn refused_by_another_key<S: Suite>(
    alloc: Global,
    identity: &mut x25519::Identity<S>,
    text: &[u8],
) -> Result<Vec<u8>, DecryptError>
    ensures { (key : List ℕ) (stanzas : List StanzaValue) (plain file : List ℕ) → Carries text.now file → IsFileOf S.seal_of key stanzas plain file
        → All (IsUnopened S.opened S.shared_of S.public_of identity.old) stanzas
        → MatchResult result (λ given. ⊥) (λ e. (decrypt_refusal e ≡ NoMatchingKeys) ⊎ (decrypt_refusal e ≡ OutOfMemory)) }
{
    // A fact for the proof alone.
    x25519_pair::<S>(identity);
    refused_as_answered::<S, x25519::Identity<S>>(alloc, identity, text)
}
