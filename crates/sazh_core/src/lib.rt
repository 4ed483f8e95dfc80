//! What a program for real files is made of, over any suite: files of recipients and of passphrases, the file of a new key, random bytes, and grease.
#![tactic(auto)]

pub mod callbacks;
mod counting;
pub mod decrypting;
pub mod encrypting;
pub mod error;
pub mod given;
pub mod grease;
pub mod holder;
pub mod inspecting;
pub mod inspection_json;
pub mod keygen;
pub mod keyring;
mod lists;
pub mod measuring;
pub mod opening;
pub mod own_recipients;
pub mod passphrase;
pub mod random;
pub mod recipients;
pub mod rekeying;
pub mod words;
