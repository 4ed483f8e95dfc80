//! What stanzas of all native types have: arguments in base64, and a body that is a sealed file key.
ghost use Rattle.std.specs.Prelude.{◌≡◌, ℕ, List, Ok, IfOk, MatchOption, length, map, option_map, string_bytes};
ghost use Rattle.std.specs.List.{AllByRecursion};
ghost use Rattle.std.specs.Result.{result_map_both};
ghost use Rattle.age_error.specs.Bytes.{AreBytesOf};
ghost use Rattle.age_error.specs.EncryptErrors.{encrypt_refusal};
ghost use Rattle.age_base64.specs.Base64.{columns};
ghost use Rattle.age_v1.specs.Stanza.{IsString};
ghost use Rattle.age_v1.specs.Encrypting.{IsOrNoMemory};
ghost use Rattle.age_v1.specs.RecipientType.{no_nonce};

use age_base64::decode_columns;
use age_error::EncryptError;
use age_error::bytes::{known_array, known_bytes};
use age_format::Stanza;
use age_suite::secrecy::FileKey;
use age_suite::suite::{Opens, Suite};
use std::alloc::{AllocError, Global};

/// The nonce of each seal: a wrap key is used once.
const NO_NONCE: [u8; 12] = [0; 12];

/// The stanza of a tag and arguments that are strings of the format, and of the file key sealed under a wrap key.
pub(crate) fn seal_stanza<S: Suite>(
    alloc: Global,
    tag: &str,
    args: Vec<String>,
    wrap_key: &[u8; 32],
    file_key: &FileKey,
) -> Result<Stanza, EncryptError>
    requires tag { IsString tag.now }
    requires args { AllByRecursion IsString (map (λ a. string_bytes a) args.items) }
    ensures { IsOrNoMemory (Ok (record {
      tag = tag.now;
      args = map (λ a. string_bytes a) args.items;
      body = S.seal_of wrap_key.now no_nonce file_key.now;
    }))
        (result_map_both (λ s. s) (λ e. encrypt_refusal e) result) }
{
    let body = S::seal(alloc, wrap_key, &NO_NONCE, file_key.expose_secret())?;
    let tag = String::from_str(alloc, tag)?;
    match Stanza::new(tag, args, body) {
        Some(stanza) => Ok(stanza),
        None => unreachable!(),
    }
}

/// The file key that a body of 32 bytes opens to, or `None` where it is no seal under the key.
pub(crate) fn open_file_key<S: Suite>(
    alloc: Global,
    key: &[u8; 32],
    body: &[u8],
) -> Result<Option<FileKey>, AllocError>
    requires { length body.now ≡ 32 }
    ensures { IfOk result (λ found. option_map (λ key. key) found ≡ S.opened key.now no_nonce body.now) }
{
    // For the proof alone: these are bytes, each below 256.
    known_array(key);
    known_bytes(body);
    let Some(bytes) = S::open(alloc, &mut Opens::new(), key, &NO_NONCE, body)? else {
        return Ok(None);
    };
    match <[u8; 16]>::try_from(bytes.as_slice()) {
        Ok(bytes) => Ok(Some(FileKey::new(bytes))),
        Err(_) => unreachable!(),
    }
}

/// The `N` bytes whose base64 a text is.
pub(crate) fn decode_argument<const N: usize>(
    alloc: Global,
    text: &str,
) -> Result<Option<[u8; N]>, AllocError>
    ensures { IfOk result (λ found. MatchOption found ((bytes : List ℕ) → AreBytesOf N bytes → columns bytes ≡ text.now → ⊥)
        (λ bytes. AreBytesOf N bytes × (columns bytes ≡ text.now))) }
{
    let Some(bytes) = decode_columns(alloc, text.as_bytes())? else {
        return Ok(None);
    };
    match <[u8; N]>::try_from(bytes.as_slice()) {
        Ok(bytes) => Ok(Some(bytes)),
        Err(_) => Ok(None),
    }
}
