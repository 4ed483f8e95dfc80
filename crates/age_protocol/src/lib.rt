//! Encryption of files to recipients, and their decryption by identities (age-encryption.org/v1).
#![tactic(auto)]

mod answering;
pub mod decryptor;
mod encrypting;
pub mod encryptor;
mod front;
mod gathering;
mod keys;
pub mod laws;
pub mod migrate;
pub mod opening;
pub mod part;
pub mod payload;
pub mod simple;
pub mod whole;

pub use decryptor::Decryptor;
pub use encryptor::Encryptor;
