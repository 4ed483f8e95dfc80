//! scrypt (RFC 7914, 6).
ghost use Rattle.std.specs.Prelude.{◌≡◌, ◌↔◌, false, Err, IfOk};
ghost use Rattle.scrypt.specs.Scrypt.{accepts, scrypt_of};

use crate::encoding::{blocks, blocks_bytes};
use crate::error::ScryptError;
use crate::mixing::rom_mix;
use crate::pbkdf2_sha256::{pbkdf2, pbkdf2_block};
use std::alloc::Global;

/// The key of 32 bytes that a passphrase and a salt of any number of bytes give with the cost parameter N = 2^`log_n`
/// (RFC 7914, 6, with r = 8 and p = 1). It takes one piece of memory of 1024 * N bytes, and frees it before it returns.
///
/// `InvalidParams` exactly where `log_n` is 0, since N has to be larger than 1 (RFC 7914, 2), or above 63, since N has to fit in 64
/// bits; then no memory was taken. `OutOfMemory` where the memory is refused, or is more than a machine can have.
pub fn scrypt(
    alloc: Global,
    password: &[u8],
    salt: &[u8],
    log_n: u8,
) -> Result<[u8; 32], ScryptError>
    ensures value { IfOk result (λ key. key ≡ scrypt_of password.now salt.now log_n) }
    ensures refused { (result ≡ Err ScryptError.InvalidParams) ↔ (accepts log_n ≡ false) }
{
    if log_n == 0 || log_n >= 64 {
        return Err(ScryptError::InvalidParams);
    }
    let b = blocks(&pbkdf2(password, salt));
    let mixed = rom_mix(alloc, b, log_n)?;
    Ok(pbkdf2_block(password, &blocks_bytes(&mixed), 1))
}
