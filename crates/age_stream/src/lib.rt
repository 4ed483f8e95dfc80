//! The payload of a file of age-encryption.org/v1: the plaintext in sealed chunks (STREAM).
//!
//! CONTRIBUTING.md has the ten files that a newcomer reads first, in order ("Ten files to read first, of the payload").
#![tactic(auto)]

mod access;
mod cache;
mod debug;
pub mod laws;
pub mod nonce;
mod place;
pub mod reader;
mod seeking;
pub mod sizes;
mod source;
pub mod writer;
mod writing;
