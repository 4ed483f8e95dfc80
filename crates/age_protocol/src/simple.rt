//! Whole files in one call.
ghost use Rattle.std.specs.Prelude.{◌≡◌, ℕ, ◌<◌, List, [], ◌∷◌, Some, Result, IfOk, IfErr, MatchResult, string_bytes, vec_items};
ghost use Rattle.std.specs.Result.{result_map_both};
ghost use Rattle.age_error.specs.DecryptErrors.{decrypt_refusal, OutOfMemory};
ghost use Rattle.age_error.specs.EncryptErrors.{EncryptRefusal, encrypt_refusal};
ghost use Rattle.age_v1.specs.Armor.{armor, Carries, text_of};
ghost use Rattle.age_v1.specs.Encrypting.{Prepared, Prepares};
ghost use Rattle.age_v1.specs.Identities.{FirstAnswer, IsFileFor, Decrypts};
ghost use Rattle.age_protocol.specs.WholeFiles.{Encrypts, RefusesDecrypting};

use crate::laws::carried_files;
use crate::opening::open_file_by_one;
use crate::whole::encrypt_all;
use age_armor::{ArmoredReader, Format, armor_is_text};
use age_error::bytes::known_bytes;
use age_error::{DecryptError, EncryptError, FileError};
use age_format::{Grease, Identity, Recipient};
use age_io::{Bytes, read_to_end};
use age_suite::draw::Draw;
use age_suite::suite::Suite;
use std::alloc::Global;

// Encrypts a plaintext to one recipient: the file itself, or its armor.
fn encrypt_as<S: Suite, T: Recipient>(
    alloc: Global,
    recipient: &T,
    plaintext: &[u8],
    draw: &mut Draw,
    grease: Grease,
    format: Format,
) -> Result<Vec<u8>, EncryptError>
    ensures { (outcome : Result Prepared EncryptRefusal)
        × Prepares T.wraps (recipient.now ∷ []) (Some grease) draw.old outcome draw.new
        × Encrypts S.seal_of (text_of format) plaintext.now outcome (result_map_both vec_items (λ e. encrypt_refusal e) result) }
{
    // For the proof alone: these are bytes, each below 256.
    known_bytes(plaintext);
    let mut reader = Bytes::new(plaintext);
    let mut file = Vec::new(alloc);
    match encrypt_all::<S, &T, Bytes, Vec<u8>>(
        alloc,
        &[recipient],
        draw,
        grease,
        format,
        &mut reader,
        &mut file,
    ) {
        Ok(()) => Ok(file),
        Err(FileError::Encrypt(e)) => Err(e),
        Err(FileError::Io(e)) => Err(EncryptError::from(e)),
        Err(FileError::Decrypt(_)) => unreachable!(),
    }
}

/// Encrypts a plaintext to one recipient: the bytes of the whole file (age-encryption.org/v1).
///
/// The random bytes are drawn as by `Encryptor::with_recipients`, and its refusals are those of this call: the recipient's
/// own is answered as it is. After that it refuses for want of memory, and a plaintext of more than 2^60 bytes as `Io(TooLong)`,
/// and for nothing else. After a refusal `draw` has lost what was taken before it.
pub fn encrypt<S: Suite, T: Recipient>(
    alloc: Global,
    recipient: &T,
    plaintext: &[u8],
    draw: &mut Draw,
    grease: Grease,
) -> Result<Vec<u8>, EncryptError>
    ensures { (outcome : Result Prepared EncryptRefusal)
        × Prepares T.wraps (recipient.now ∷ []) (Some grease) draw.old outcome draw.new
        × Encrypts S.seal_of (λ text. text) plaintext.now outcome (result_map_both vec_items (λ e. encrypt_refusal e) result) }
{
    encrypt_as::<S, T>(alloc, recipient, plaintext, draw, grease, Format::Binary)
}

/// Encrypts a plaintext to one recipient: the armor of the whole file (age-encryption.org/v1, section "ASCII armor").
///
/// It refuses as `encrypt` does.
pub fn encrypt_and_armor<S: Suite, T: Recipient>(
    alloc: Global,
    recipient: &T,
    plaintext: &[u8],
    draw: &mut Draw,
    grease: Grease,
) -> Result<String, EncryptError>
    ensures { (outcome : Result Prepared EncryptRefusal)
        × Prepares T.wraps (recipient.now ∷ []) (Some grease) draw.old outcome draw.new
        × Encrypts S.seal_of armor plaintext.now outcome (result_map_both string_bytes (λ e. encrypt_refusal e) result) }
{
    let text = encrypt_as::<S, T>(
        alloc,
        recipient,
        plaintext,
        draw,
        grease,
        Format::AsciiArmor,
    )?;
    armor_is_text();
    match String::from_utf8(text) {
        Ok(text) => Ok(text),
        Err(_) => unreachable!(),
    }
}

// The plaintext of a file that is read to its end.
fn plaintext_of<S: Suite, I: Identity>(
    alloc: Global,
    identity: &mut I,
    file: &[u8],
) -> Result<Vec<u8>, DecryptError>
    ensures success { IfOk result (λ plain. Decrypts S.seal_of I.unwraps identity.old file.now plain.items identity.new) }
    ensures refused { IfErr result (λ e. RefusesDecrypting S.seal_of I.unwraps identity.old file.now identity.new (decrypt_refusal e)) }
{
    // For the proof alone: these are bytes, each below 256.
    known_bytes(file);
    let input = ArmoredReader::new_buffered(alloc, Bytes::new(file))?;
    let mut reader = open_file_by_one::<S, I, ArmoredReader<Bytes>>(alloc, identity, input)?;
    let mut plaintext = Vec::new(alloc);
    read_to_end(alloc, &mut reader, &mut plaintext)?;
    // For the proof alone: these are bytes, each below 256.
    known_bytes(&plaintext);
    Ok(plaintext)
}

/// Decrypts a file, bare or armored, with one identity: the plaintext.
///
/// A success says that the bytes carry a file of exactly this plaintext, under the file key that the identity got from the
/// header's stanzas, with the right MAC. The refusals, in the order in which they are looked for:
///
/// - those of `Decryptor::new`; the identity isn't asked then. Fewer than 36 bytes are `Io(UnexpectedEof)`, whatever they
///   are. `Io(Armor(..))` where the armor has a fault before the nonce ends: its first.
/// - the identity's own, `NoMatchingKeys` where it answers `None`, and `InvalidMac` where the header's MAC is wrong under
///   its file key.
/// - `Io` where what follows the nonce is no payload of a plaintext, or not to its end: the first fault of the armor, or what
///   the definition names for one of the payload's chunks or for its end.
///
/// `OutOfMemory` can come at each step. No plaintext is handed out with a refusal.
pub fn decrypt<S: Suite, I: Identity>(
    alloc: Global,
    identity: &mut I,
    file: &[u8],
) -> Result<Vec<u8>, DecryptError>
    ensures success { IfOk result (λ plain. Decrypts S.seal_of I.unwraps identity.old file.now plain.items identity.new) }
    ensures refused { IfErr result (λ e. RefusesDecrypting S.seal_of I.unwraps identity.old file.now identity.new (decrypt_refusal e)) }
    // A file whose file key the identity gets is refused for want of memory alone, and gives nothing but its plaintext.
    ensures honest { (carried plain : List ℕ) → Carries file.now carried
        → IsFileFor S.seal_of (FirstAnswer I.unwraps (identity.old ∷ [])) plain carried →
        MatchResult result (λ given. given.items ≡ plain) (λ e. decrypt_refusal e ≡ OutOfMemory) }
{
    carried_files::<S, I>();
    plaintext_of::<S, I>(alloc, identity, file)
}
