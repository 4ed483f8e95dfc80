//! Sealing and opening (RFC 8439, 2.8).
ghost use Rattle.std.specs.Prelude.{◌≡◌, ◌+◌, ◌<◌, ◌≤◌, ◌++◌, IfErr, IfOk, IsSome, drop, length, option_map, take, vec_capacity, vec_items};
ghost use Rattle.chacha20.specs.Encryption.{chacha20_encrypt};
ghost use Rattle.chacha20poly1305.specs.Aead.{opened, seal_of};

use crate::sealing::{LONG, open_long, seal_long};
use crate::tag::{tag, verifies};
use chacha20::apply_keystream;
use std::alloc::{AllocError, Global};

/// How many bytes a tag has.
pub const TAG: usize = 16;

/// Encrypts the bytes from a place on, in place.
pub fn encrypt_from(key: &[u8; 32], counter: u32, nonce: &[u8; 12], bytes: &mut [u8], start: usize)
    requires { start ≤ length bytes.old }
    ensures { bytes.new ≡ take start bytes.old ++ chacha20_encrypt key.now counter nonce.now (drop start bytes.old) }
{
    apply_keystream(key, counter, nonce, &mut bytes[start..]);
}

/// Appends a text, encrypted from block 1 on.
pub fn append_encrypted(
    bytes: &mut Vec<u8>,
    key: &[u8; 32],
    nonce: &[u8; 12],
    text: &[u8],
) -> Result<(), AllocError>
    ensures value { IfOk result (λ _. bytes.new.items ≡ bytes.old.items ++ chacha20_encrypt key.now 1 nonce.now text.now) }
    ensures capacity { vec_capacity bytes.old ≤ vec_capacity bytes.new }
{
    let start = bytes.len();
    bytes.extend_from_slice(text)?;
    encrypt_from(key, 1, nonce, bytes, start);
    Ok(())
}

/// A text encrypted, which decrypts it too, in a list with room for so many bytes more. Memory is taken once, or not at all for none.
fn encrypted(
    alloc: Global,
    key: &[u8; 32],
    nonce: &[u8; 12],
    text: &[u8],
    room: usize,
) -> Result<Vec<u8>, AllocError>
    requires { room ≤ TAG }
    ensures value { IfOk result (λ bytes. bytes.items ≡ chacha20_encrypt key.now 1 nonce.now text.now) }
    ensures room { IfOk result (λ bytes. length text.now + room ≤ vec_capacity bytes) }
{
    let mut bytes = Vec::with_capacity(alloc, text.len() + room)?;
    append_encrypted(&mut bytes, key, nonce, text)?;
    Ok(bytes)
}

/// Seals a plaintext of any number of bytes under a key of 32 bytes and a nonce of 12: the ciphertext, as long as the plaintext, and
/// the 16 bytes of its tag (RFC 8439, 2.8, with no additional data). Takes memory once, for the seal. `AllocError` where it is
/// refused.
///
/// Under one key a nonce is for one plaintext alone. One of more than 2^38 - 64 bytes would be encrypted by the block of the one-time
/// key too: the RFC forbids such plaintexts.
#[tactic(auto, unfolding(crate::specs::Aead::seal_of))]
pub fn seal(
    alloc: Global,
    key: &[u8; 32],
    nonce: &[u8; 12],
    plain: &[u8],
) -> Result<Vec<u8>, AllocError>
    ensures { IfOk result (λ sealed. sealed.items ≡ seal_of key.now nonce.now plain.now) }
{
    if plain.len() >= LONG {
        return seal_long(alloc, key, nonce, plain);
    }
    let mut sealed = encrypted(alloc, key, nonce, plain, TAG)?;
    let tag = tag(key, nonce, &sealed);
    sealed.extend_from_slice(&tag)?;
    Ok(sealed)
}

/// Opens a text of any number of bytes under a key of 32 bytes and a nonce of 12: the plaintext whose seal it is, or `None` where it
/// is the seal of none, as where it has fewer than 16 bytes (RFC 8439, 2.8, with no additional data). The tag is compared to its
/// end. Memory is taken at most once, for the plaintext. `AllocError` where it is refused, but a text that is no seal is `None`
/// all the same.
///
/// A long text is decrypted while its tag is made, and what was decrypted is let go where the tag is another. A shorter one isn't
/// decrypted before its tag was compared.
#[tactic(auto, using(crate::proofs::Seals::opened_verified), unfolding(crate::specs::Aead::opened))]
pub fn open(
    alloc: Global,
    key: &[u8; 32],
    nonce: &[u8; 12],
    sealed: &[u8],
) -> Result<Option<Vec<u8>>, AllocError>
    ensures value { IfOk result (λ plain. option_map vec_items plain ≡ opened key.now nonce.now sealed.now) }
    ensures memory { IfErr result (λ _. IsSome (opened key.now nonce.now sealed.now)) }
{
    if sealed.len() < TAG {
        return Ok(None);
    }
    let (ciphertext, tag) = sealed.split_at(sealed.len() - TAG);
    if ciphertext.len() >= LONG {
        return open_long(alloc, key, nonce, ciphertext, tag);
    }
    if !verifies(key, nonce, ciphertext, tag) {
        return Ok(None);
    }
    let plain = encrypted(alloc, key, nonce, ciphertext, 0)?;
    Ok(Some(plain))
}
