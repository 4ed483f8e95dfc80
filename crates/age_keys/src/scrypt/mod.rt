//! The scrypt recipient type (age-encryption.org/v1, section "The scrypt recipient type").

mod identity;
mod laws;
mod recipient;
mod stretching;

pub use identity::Identity;
pub use laws::{scrypt_pair, scrypt_unopened};
pub use recipient::Recipient;
