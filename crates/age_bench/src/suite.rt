//! The bench suite: a suite with all the laws and no security. Tests and programs that compare
//! bytes use it, since its seals can be computed by any HMAC.

ghost use Rattle.std.specs.Prelude.{◌≡◌, ◌≤◌, ◌*◌, length};
ghost use Rattle.age_bench.specs.Bench.{masked, tag_of, bench_seal, bench_opened, bench_shared, bench_public, bench_stretch, bench_accepts};
ghost use Rattle.age_bench.specs.Laws.{bench_cipher, bench_agreement, bench_stretching};

use age::mac::{HmacWriter, hmac};
use age::suite::{Opens, ScryptError, Suite};
use std::alloc::{AllocError, Global};

const TAG: usize = 16;

const MASK: usize = 32;

/// The suite for tests: anybody can make its seals.
#[derive(Drop)]
pub struct BenchSuite;

// At most one mask's length of bytes.
#[inline(always)]
fn mask_block(mask: &[u8; MASK], block: &mut [u8])
    requires { length block.old ≤ MASK }
    ensures { block.new ≡ masked mask.now block.old }
{
    for i in 0..block.len() {
        block[i] ^= mask[i];
    }
}

// Goes by whole masks, since a loop over a fixed length is compiled to wide steps.
fn mask_all(mask: &[u8; MASK], bytes: &mut [u8])
    ensures { bytes.new ≡ masked mask.now bytes.old }
{
    let whole = bytes.len() / MASK;
    for i in 0..whole {
        mask_block(mask, &mut bytes[MASK * i..MASK * i + MASK]);
    }
    mask_block(mask, &mut bytes[MASK * whole..]);
}

// What shows that a plaintext was sealed under the key and the nonce.
fn tag(key: &[u8; 32], nonce: &[u8; 12], plain: &[u8]) -> [u8; TAG]
    ensures { result ≡ tag_of key.now nonce.now plain.now }
{
    let mut writer = HmacWriter::new(key);
    writer.update(&[1]);
    writer.update(nonce);
    writer.update(plain);
    let whole = writer.finalize();
    let mut tag = [0; TAG];
    tag.copy_from_slice(&whole[..TAG]);
    tag
}

impl Suite for BenchSuite {
    ghost seal_of = { bench_seal };

    ghost opened = { bench_opened };

    ghost shared_of = { bench_shared };

    ghost public_of = { bench_public };

    ghost stretch_of = { bench_stretch };

    ghost accepts = { bench_accepts };

    /// The plaintext masked by `hmac(key, nonce)`, and 16 bytes that show it whole.
    /// Takes memory once.
    fn seal(
        alloc: Global,
        key: &[u8; 32],
        nonce: &[u8; 12],
        plain: &[u8],
    ) -> Result<Vec<u8>, AllocError> {
        let mut sealed = Vec::with_capacity(alloc, plain.len() + TAG)?;
        sealed.extend_from_slice(plain)?;
        mask_all(&hmac(key, nonce), &mut sealed);
        sealed.extend_from_slice(&tag(key, nonce, plain))?;
        Ok(sealed)
    }

    /// The plaintext of a seal, `None` of anything else.
    /// Takes memory once of 17 bytes or more, whatever it answers, and none of fewer.
    fn open(
        alloc: Global,
        opens: &mut Opens,
        key: &[u8; 32],
        nonce: &[u8; 12],
        sealed: &[u8],
    ) -> Result<Option<Vec<u8>>, AllocError> {
        opens.tick();
        if sealed.len() < TAG {
            return Ok(None);
        }
        let (front, back) = sealed.split_at(sealed.len() - TAG);
        let mut plain = Vec::from_slice(alloc, front)?;
        mask_all(&hmac(key, nonce), &mut plain);
        let expected = tag(key, nonce, &plain);
        if back == expected.as_slice() {
            Ok(Some(plain))
        } else {
            Ok(None)
        }
    }

    /// Each byte of the secret combined by exclusive or with that of the public value and 5a:
    /// zero exactly where both secrets are equal.
    fn x25519(secret: &[u8; 32], public: &[u8; 32]) -> [u8; 32] {
        let mut shared = [0; 32];
        for i in 0..32 {
            shared[i] = secret[i] ^ public[i] ^ 0x5a;
        }
        shared
    }

    /// Each byte of the secret combined by exclusive or with 5a.
    fn public(secret: &[u8; 32]) -> [u8; 32] {
        let mut public = *secret;
        for x in public.iter_mut() {
            *x ^= 0x5a;
        }
        public
    }

    /// The HMAC of the salt and the work factor's byte under the passphrase. Work factors from
    /// 1 to 20 are accepted, and cost nothing. Takes no memory.
    fn scrypt(
        _alloc: Global,
        passphrase: &[u8],
        salt: &[u8],
        log_n: u8,
    ) -> Result<[u8; 32], ScryptError> {
        if log_n < 1 || log_n > 20 {
            return Err(ScryptError::InvalidParams);
        }
        let mut writer = HmacWriter::new(passphrase);
        writer.update(salt);
        writer.update(&[log_n]);
        Ok(writer.finalize())
    }

    ghost cipher = { bench_cipher };

    ghost agreement = { bench_agreement };

    ghost stretching = { bench_stretching };
}
