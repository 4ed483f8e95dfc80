//! Bytes added to a file, or cut from it.
ghost use Rattle.std.specs.Prelude.{◌≡◌, ◌≤◌, ◌*◌, ◌-◌, ℕ, List, [], ◌∷◌, ◌++◌, length, take, IsTrue, IfOk, OnOk};
ghost use Rattle.age.specs.Armor.{Carries};
ghost use Rattle.age.specs.Bytes.{AreBytes};
ghost use Rattle.age.specs.Copying.{AppendsFront};
ghost use Rattle.age.specs.File.{IsFileOf};
ghost use Rattle.age.specs.Identities.{FirstAnswer, IsFileFor};
ghost use Rattle.age.specs.Payload.{last_piece, payload_key};
ghost use Rattle.age.specs.Stanza.{StanzaValue};
ghost use Rattle.age_claims.specs.Claims.{HasNoLastSeal, first_chunks};

use age::armor::laws::{carried_is_delivered, carried_is_unique};
use age::format::laws::{header_text_reads_back, verdict_is_unique};
use age::io::{Bytes, Write};
use age::laws::front_reads_back;
use age::stream::laws::{delivery_laws, payload_laws};
use age::streaming::{FileError, decrypt_all};
use age::suite::Suite;
use age::{DecryptError, Identity, decrypt};
use std::alloc::Global;

/// Two files, one of which goes on where the other ends, are the same file where their plaintexts have one length, whatever their file keys
/// and the plaintexts are.
pub fn no_longer_file<S: Suite>()
    ensures { (key other : List ℕ) (stanzas others : List StanzaValue) (plain given file more : List ℕ) → AreBytes plain → AreBytes given
        → IsFileOf S.seal_of key stanzas plain file → IsFileOf S.seal_of other others given (file ++ more)
        → length plain ≡ length given → more ≡ [] }
{
    // Facts for the proof alone.
    header_text_reads_back();
    verdict_is_unique();
    payload_laws::<S>();
}

/// Decrypts a text, bare or in armor, that carries a file to which bytes were added behind its end, or from which bytes were cut.
///
/// A success is no plaintext of the file's length: so it isn't the file's plaintext, whatever the identity answers.
pub fn lengthened_or_cut<S: Suite, I: Identity>(
    alloc: Global,
    identity: &mut I,
    text: &[u8],
) -> Result<Vec<u8>, DecryptError>
    ensures added { (key : List ℕ) (stanzas : List StanzaValue) (plain file more : List ℕ) → AreBytes plain
        → IsFileOf S.seal_of key stanzas plain file → Carries text.now (file ++ more)
        → IfOk result (λ given. length given.items ≡ length plain → more ≡ []) }
    ensures cut { (key : List ℕ) (stanzas : List StanzaValue) (plain front more : List ℕ) → AreBytes plain
        → IsFileOf S.seal_of key stanzas plain (front ++ more) → Carries text.now front
        → IfOk result (λ given. length given.items ≡ length plain → more ≡ []) }
{
    // Facts for the proof alone.
    no_longer_file::<S>();
    carried_is_unique();
    decrypt::<S, I>(alloc, identity, text)
}

/// Decrypts a text, bare or in armor, that carries a file which was cut between two of its chunks, or before the first: it doesn't succeed.
///
/// The file is one for the identity, and the text carries its header, its nonce and its first `n` chunks, which aren't all. The last of these, a
/// middle chunk of the file, doesn't open as a last one too.
pub fn cut_between_chunks<S: Suite, I: Identity>(
    alloc: Global,
    identity: &mut I,
    text: &[u8],
) -> Result<Vec<u8>, DecryptError>
    ensures { (file plain : List ℕ) (n : ℕ) →
        (for : IsFileFor S.seal_of (FirstAnswer I.unwraps (identity.old ∷ [])) plain file) → n ≤ last_piece (length plain) →
        HasNoLastSeal S.seal_of (payload_key for.file_key for.is_file.nonce) plain (n - 1) →
        Carries text.now (first_chunks S.seal_of for n) → IfOk result (λ given. ⊥) }
{
    // Facts for the proof alone.
    header_text_reads_back();
    verdict_is_unique();
    carried_is_unique();
    payload_laws::<S>();
    delivery_laws::<S>();
    decrypt::<S, I>(alloc, identity, text)
}

/// Decrypts such a text to a writer that tells its bytes: it appends a beginning of the plaintext, and doesn't succeed.
///
/// - `front`: whatever it answers, it appended a beginning of the plaintext of the chunks before the cut.
/// - `refused`: it doesn't succeed, where the last of these chunks doesn't open as a last one too.
pub fn decrypted_up_to_the_cut<S: Suite, I: Identity, W: Write>(
    alloc: Global,
    identities: &mut [I],
    text: &[u8],
    writer: &mut W,
) -> Result<(), FileError>
    ensures front { IsTrue (W.tells writer.old) → (file plain : List ℕ) (n : ℕ) →
        (for : IsFileFor S.seal_of (FirstAnswer I.unwraps identities.old) plain file) → n ≤ last_piece (length plain) →
        Carries text.now (first_chunks S.seal_of for n) → AppendsFront W.appended (take (65536 * n) plain) writer.old writer.new }
    ensures refused { IsTrue (W.tells writer.old) → (file plain : List ℕ) (n : ℕ) →
        (for : IsFileFor S.seal_of (FirstAnswer I.unwraps identities.old) plain file) → n ≤ last_piece (length plain) →
        HasNoLastSeal S.seal_of (payload_key for.file_key for.is_file.nonce) plain (n - 1) →
        Carries text.now (first_chunks S.seal_of for n) → OnOk result ⊥ }
{
    // Facts for the proof alone.
    header_text_reads_back();
    verdict_is_unique();
    carried_is_unique();
    carried_is_delivered();
    front_reads_back();
    payload_laws::<S>();
    delivery_laws::<S>();
    let mut input = Bytes::new(text);
    decrypt_all::<S, I, Bytes, W>(alloc, identities, &mut input, writer)
}
