//! PBKDF2 with HMAC-SHA-256 and an iteration count of 1 (RFC 8018, 5.2).
ghost use Rattle.std.specs.Prelude.{◌≡◌};
ghost use Rattle.scrypt.specs.Pbkdf2.{pbkdf2, pbkdf2_block};

use hmac_sha256::HmacWriter;

/// Block `i` of the derived key.
pub fn pbkdf2_block(password: &[u8], salt: &[u8], i: u32) -> [u8; 32]
    ensures { result ≡ pbkdf2_block password.now salt.now i }
{
    let mut writer = HmacWriter::new(password);
    writer.update(salt);
    writer.update(&i.to_be_bytes());
    writer.finalize()
}

/// The first 32 blocks of the derived key.
pub fn pbkdf2(password: &[u8], salt: &[u8]) -> [u8; 1024]
    ensures { result ≡ pbkdf2 password.now salt.now 32 }
{
    let mut key = [0; 1024];
    'places: for i in 0..32 {
        key[32 * i..32 * i + 32].copy_from_slice(&pbkdf2_block(password, salt, i as u32 + 1));
    }
    key
}
