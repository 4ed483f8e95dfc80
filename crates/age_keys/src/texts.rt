//! Texts of native keys (BIP 173; age-encryption.org/v1, section "The X25519 recipient type").
ghost use Rattle.std.specs.Prelude.{◌≡◌, IfOk, MatchResult, string_bytes};
ghost use Rattle.age_bech32.specs.Refusals.{MayBeWritten};
ghost use Rattle.age_bech32.specs.Written.{bech32_text};
ghost use Rattle.age_keys.specs.KeyTexts.{IsRefusedAs, KeyReadsBack};
ghost use Rattle.age_v1.specs.X25519.{identity_prefix, recipient_prefix, IsKeyText};

use age_bech32::{decode_array, encode};
use std::alloc::{AllocError, Global};

/// The key of 32 bytes that a text with this prefix, in either case, stands for; else why it is none, with a message of its own for
/// a key of another size. It takes no memory.
pub(crate) fn parse_key(
    text: &str,
    prefix: &str,
    size_message: &'static str,
) -> Result<[u8; 32], &'static str>
    ensures { MatchResult result (λ key. IsKeyText prefix.now text.now key)
        (λ message. IsRefusedAs prefix.now size_message.now text.now message.now) }
{
    let Some((written, data)) = decode_array::<32>(text) else {
        return Err("invalid Bech32 encoding");
    };
    if !written.eq_ignore_ascii_case(prefix) {
        return Err("incorrect HRP");
    }
    match data {
        Some(key) => Ok(key),
        None => Err(size_message),
    }
}

/// The text of a key with a prefix that may be written. `AllocError` where memory is refused.
pub(crate) fn text_of(alloc: Global, prefix: &str, key: &[u8; 32]) -> Result<String, AllocError>
    requires { MayBeWritten prefix.now }
    ensures { IfOk result (λ text. string_bytes text ≡ bech32_text prefix.now key.now) }
{
    match encode(alloc, prefix, key) {
        Ok(text) => Ok(text),
        Err(_) => Err(AllocError),
    }
}

/// What is printed of an X25519 identity or recipient is read back as it is: its text is one of its 32 bytes and of no others (`text`,
/// `alone`), and parsing doesn't refuse it (`accepted`). It is in the prefix's case (`in_case`), a recipient's in lower case and an
/// identity's in upper case, and a text of them in that case is the one that is printed (`printed`). For proofs alone: it does nothing.
pub fn text_laws()
    ensures identity { KeyReadsBack identity_prefix }
    ensures recipient { KeyReadsBack recipient_prefix }
{}
