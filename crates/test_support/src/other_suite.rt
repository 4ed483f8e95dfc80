//! A second suite for tests, with all the laws and no security, and as unlike the bench suite as the laws let it be: what holds
//! over both doesn't hold by chance of one.

ghost use Rattle.std.specs.Prelude.{◌≡◌, ◌≤◌, ◌*◌, length};
ghost use Rattle.test_support.specs.Other.{pad_block as block_of_pad, pad_at, hidden_from, hidden, mark_of, other_seal, other_opened, other_shared, other_public, other_stretch, other_accepts};
ghost use Rattle.test_support.specs.Laws.{other_cipher, other_agreement, other_stretching};

use age_error::suite::ScryptError;
use age_suite::mac::{HmacWriter, hkdf};
use age_suite::suite::{Opens, Suite};
use std::alloc::{AllocError, Global};

const MARK: usize = 16;

const BLOCK: usize = 32;

/// The other suite for tests: anybody can make its seals.
#[derive(Drop)]
pub struct OtherSuite;

// The bytes that hide the block with this number.
fn pad_block(key: &[u8; 32], nonce: &[u8; 12], number: usize) -> [u8; BLOCK]
    ensures { result ≡ block_of_pad key.now nonce.now number }
{
    let mut writer = HmacWriter::new(key);
    writer.update(&(number as u64).to_be_bytes());
    writer.update(nonce);
    writer.finalize()
}

// At most one block, the one with this number.
fn hide_block(key: &[u8; 32], nonce: &[u8; 12], number: usize, block: &mut [u8])
    requires { length block.old ≤ BLOCK }
    ensures { block.new ≡ hidden_from (pad_at key.now nonce.now) (32 * number) block.old }
{
    let pad = pad_block(key, nonce, number);
    for i in 0..block.len() {
        block[i] = pad[i].wrapping_sub(block[i]);
    }
}

fn hide(key: &[u8; 32], nonce: &[u8; 12], bytes: &mut [u8])
    ensures { bytes.new ≡ hidden key.now nonce.now bytes.old }
{
    let whole = bytes.len() / BLOCK;
    for i in 0..whole {
        hide_block(key, nonce, i, &mut bytes[BLOCK * i..BLOCK * i + BLOCK]);
    }
    hide_block(key, nonce, whole, &mut bytes[BLOCK * whole..]);
}

// What shows that a hidden text was made under the key and the nonce.
fn mark(key: &[u8; 32], nonce: &[u8; 12], text: &[u8]) -> [u8; MARK]
    ensures { result ≡ mark_of key.now nonce.now text.now }
{
    let mut writer = HmacWriter::new(key);
    writer.update(text);
    writer.update(nonce);
    let whole = writer.finalize();
    let mut mark = [0; MARK];
    mark.copy_from_slice(&whole[..MARK]);
    mark
}

impl Suite for OtherSuite {
    ghost seal_of = { other_seal };

    ghost opened = { other_opened };

    ghost shared_of = { other_shared };

    ghost public_of = { other_public };

    ghost stretch_of = { other_stretch };

    ghost accepts = { other_accepts };

    /// 16 bytes that show the rest whole, and then the plaintext, each byte taken away from that of a pad which
    /// depends on the key, the nonce and the byte's place. Takes memory twice.
    fn seal(
        alloc: Global,
        key: &[u8; 32],
        nonce: &[u8; 12],
        plain: &[u8],
    ) -> Result<Vec<u8>, AllocError> {
        let mut text = Vec::from_slice(alloc, plain)?;
        hide(key, nonce, &mut text);
        let mut sealed = Vec::with_capacity(alloc, text.len() + MARK)?;
        sealed.extend_from_slice(&mark(key, nonce, &text))?;
        sealed.extend_from_slice(&text)?;
        Ok(sealed)
    }

    /// The plaintext of a seal, `None` of anything else. Takes memory for a plaintext alone.
    fn open(
        alloc: Global,
        opens: &mut Opens,
        key: &[u8; 32],
        nonce: &[u8; 12],
        sealed: &[u8],
    ) -> Result<Option<Vec<u8>>, AllocError> {
        opens.tick();
        if sealed.len() < MARK {
            return Ok(None);
        }
        let (front, text) = sealed.split_at(MARK);
        let expected = mark(key, nonce, text);
        if front != expected.as_slice() {
            return Ok(None);
        }
        let mut plain = Vec::from_slice(alloc, text)?;
        hide(key, nonce, &mut plain);
        Ok(Some(plain))
    }

    /// The sum of each byte of the secret and that of the public value, modulo 256.
    fn x25519(secret: &[u8; 32], public: &[u8; 32]) -> [u8; 32] {
        let mut shared = [0; 32];
        for i in 0..32 {
            shared[i] = secret[i].wrapping_add(public[i]);
        }
        shared
    }

    /// Each byte of the secret plus 0x35, modulo 256.
    fn public(secret: &[u8; 32]) -> [u8; 32] {
        let mut public = *secret;
        for x in public.iter_mut() {
            *x = x.wrapping_add(0x35);
        }
        public
    }

    /// HKDF of the passphrase under the salt, for the work factor's byte. Work factors from 0 to 12 are accepted, and cost
    /// nothing. Takes no memory.
    fn scrypt(
        _alloc: Global,
        passphrase: &[u8],
        salt: &[u8],
        log_n: u8,
    ) -> Result<[u8; 32], ScryptError> {
        if log_n > 12 {
            return Err(ScryptError::InvalidParams);
        }
        Ok(hkdf(salt, &[log_n], passphrase))
    }

    ghost cipher = { other_cipher };

    ghost agreement = { other_agreement };

    ghost stretching = { other_stretching };
}
