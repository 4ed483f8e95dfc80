//! X25519 (RFC 7748, 5 and 6.1): the shared secret of a secret and a public key, and the public key of a secret. Each is what the
//! definition in the crate `curve25519` says, for any bytes. Nothing here takes memory or refuses.
//!
//! No branch and no index depends on a secret or a public key: the ladder exchanges its points by a mask, and each loop has a fixed
//! count. No clause says so: it is seen in the code. Nothing is claimed of the time that a call takes, since what a compiler and a
//! processor make of the code isn't known here. What was made of a secret is left in memory as it is, and not wiped.
#![tactic(auto)]

mod agreement;
mod arithmetic;
mod element;
mod encoding;
mod inverse;
mod ladder;
mod state;

pub use agreement::{public_key, x25519};
