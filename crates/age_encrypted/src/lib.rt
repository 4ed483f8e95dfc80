//! Files of identities that are encrypted with a passphrase.
#![tactic(auto)]

mod encrypted_identity;
mod identity;
pub mod laws;

pub use encrypted_identity::{EncryptedIdentity, NotOpened};
pub use identity::Identity;
