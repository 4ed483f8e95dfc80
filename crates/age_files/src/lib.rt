//! Whole files over slices, for callers outside of Rattle: encrypted to the recipients in a text, and under a passphrase both ways.
#![tactic(auto)]

pub mod decrypting;
pub mod encrypting;
pub mod keys;
pub mod opening;
pub mod status;
pub mod texts;
