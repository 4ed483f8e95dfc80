//! A file of the standard to one's own key, in armor.
ghost use Rattle.std.specs.Prelude.{◌≡◌, [], ◌∷◌, MatchResult, Some};
ghost use Rattle.age.specs.Several.{BelongsToOne};
ghost use Rattle.age.specs.FileErrors.{IsDecryptError, IsWant};
ghost use Rattle.age.specs.FileLaws.{PreparesApart};

use age::draw::Draw;
use age::format::Grease;
use age::laws::several_recipients;
use age::streaming::FileError;
use age::suite::Suite;
use age::suite::laws::known_bytes;
use age::x25519::laws::x25519_pair;
use age::{Identity, Recipient, decrypt, encrypt_and_armor, x25519};
use age_standard::StandardSuite;
use std::alloc::Global;

/// Encrypts a plaintext to one recipient, in armor, and decrypts the text with one identity: the plaintext.
///
/// The identity belongs to the recipient, and a full last chunk of the file doesn't open as one in the middle too. Then a success is the plaintext,
/// and an error of decryption is want of memory.
pub fn armored_and_back<S: Suite, T: Recipient, I: Identity>(
    alloc: Global,
    recipient: &T,
    identity: &mut I,
    draw: &mut Draw,
    grease: Grease,
    plain: &[u8],
) -> Result<Vec<u8>, FileError>
    ensures { BelongsToOne T.wraps I.unwraps (recipient.now ∷ []) identity.old →
        PreparesApart T.wraps (recipient.now ∷ []) (Some grease) draw.old draw.new S.seal_of plain.now →
        MatchResult result (λ given. given.items ≡ plain.now) (λ e. IsDecryptError e → IsWant e) }
{
    // Facts for the proof alone.
    several_recipients::<S, T, I>();
    known_bytes(plain);
    let text = match encrypt_and_armor::<S, T>(alloc, recipient, plain, draw, grease) {
        Err(error) => return Err(FileError::Encrypt(error)),
        Ok(text) => text,
    };
    match decrypt::<S, I>(alloc, identity, text.as_bytes()) {
        Err(error) => Err(FileError::Decrypt(error)),
        Ok(given) => Ok(given),
    }
}

/// The same with the suite of the standard and one's own X25519 key: the recipient is that of the identity, which belongs to it.
pub fn standard_key(
    alloc: Global,
    identity: &mut x25519::Identity<StandardSuite>,
    draw: &mut Draw,
    grease: Grease,
    plain: &[u8],
) -> Result<Vec<u8>, FileError>
    ensures { let suite = ⟦<StandardSuite as Suite>⟧ in
        PreparesApart ⟦<x25519::Recipient<StandardSuite> as Recipient>⟧.wraps (suite.public_of identity.old ∷ []) (Some grease) draw.old draw.new
        suite.seal_of plain.now →
        MatchResult result (λ given. given.items ≡ plain.now) (λ e. IsDecryptError e → IsWant e) }
{
    // A fact for the proof alone.
    x25519_pair::<StandardSuite>(identity);
    let recipient = identity.to_public();
    armored_and_back::<
        StandardSuite,
        x25519::Recipient<StandardSuite>,
        x25519::Identity<StandardSuite>,
    >(alloc, &recipient, identity, draw, grease, plain)
}
