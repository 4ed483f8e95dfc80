//! The key of the payload.
ghost use Rattle.std.specs.Prelude.{◌≡◌};
ghost use Rattle.age_v1.specs.Payload.{payload_key};

use age_suite::mac::hkdf;
use age_suite::secrecy::FileKey;

/// The 32 bytes of the payload key, of a file key and a nonce (age-encryption.org/v1, "Payload").
#[tactic(auto, unfolding(age_v1::specs::Payload::payload_key))]
pub(crate) fn payload_key_of(file_key: &FileKey, nonce: &[u8; 16]) -> [u8; 32]
    ensures { result ≡ payload_key file_key.now nonce.now }
{
    hkdf(nonce, b"payload", file_key.expose_secret())
}
