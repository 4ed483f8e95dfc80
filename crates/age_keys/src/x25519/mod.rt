//! The X25519 recipient type (age-encryption.org/v1, section "The X25519 recipient type").

mod identity;
mod laws;
mod recipient;
mod unwrapping;
mod wrapping;

pub use identity::Identity;
pub use laws::{known_identity, known_recipient, x25519_laws, x25519_pair};
pub use recipient::Recipient;
