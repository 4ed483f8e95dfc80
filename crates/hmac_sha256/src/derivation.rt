//! HKDF with SHA-256 (RFC 5869, section 2), as far as one round goes.

ghost use Rattle.std.specs.Prelude.{◌≡◌};
ghost use Rattle.hmac_sha256.specs.Hkdf.{hkdf_of};

use crate::mac::{HmacWriter, hmac};

/// 32 bytes of HKDF-SHA-256 (RFC 5869, section 2, with one round): a key that is derived from the
/// input under a salt, for the use that `info` names. Each of the three has any number of bytes. An
/// empty salt acts as 32 zero bytes.
#[tactic(auto, unfolding(crate::specs::Hkdf::hkdf_of))]
pub fn hkdf(salt: &[u8], info: &[u8], input: &[u8]) -> [u8; 32]
    ensures { result ≡ hkdf_of salt.now info.now input.now }
{
    let mut writer = HmacWriter::new(&hmac(salt, input));
    writer.update(info);
    writer.update(&[1]);
    writer.finalize()
}
