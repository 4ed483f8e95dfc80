//! HMAC and HKDF with SHA-256 (RFC 2104, RFC 5869). Nothing here takes memory or refuses.
//!
//! The comparison of a MAC doesn't end at a difference. No clause says so: it is seen in the code. What was made of a key is
//! left in memory as it is, and not wiped.
#![tactic(auto)]

mod derivation;
mod laws;
mod mac;

pub use derivation::hkdf;
pub use laws::hmac_laws;
pub use mac::{HmacWriter, hmac};
