//! scrypt (RFC 7914), which stretches a passphrase to a key: with a block size parameter r of 8, a parallelization parameter p of 1
//! and a key of 32 bytes. The CPU and memory cost parameter N is a power of two, and callers give its logarithm, the work factor.
//!
//! The places that are read in the table hang on the passphrase and the salt: that is what the algorithm is (RFC 7914, 5). No other
//! index and no branch depends on their bytes. Nothing is claimed of time: no clause says so, it is seen in the code. What was made
//! of a passphrase is left in memory as it is, and not wiped.
#![tactic(auto)]

mod encoding;
mod error;
mod laws;
mod mixing;
mod pbkdf2_sha256;
mod salsa;
mod stretching;

pub use error::ScryptError;
pub use laws::scrypt_laws;
pub use stretching::scrypt;
