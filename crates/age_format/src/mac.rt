//! The key of a header's MAC.

ghost use Rattle.std.specs.Prelude.{◌≡◌, [], codes};
ghost use Rattle.age_suite.specs.Mac.{hkdf_of};

use age_suite::mac::hkdf;
use age_suite::secrecy::FileKey;

/// The key of a header's MAC under a file key.
pub(crate) fn mac_key(file_key: &FileKey) -> [u8; 32]
    ensures { result ≡ hkdf_of [] (codes "header") file_key.now }
{
    hkdf(&[], b"header", file_key.expose_secret())
}
