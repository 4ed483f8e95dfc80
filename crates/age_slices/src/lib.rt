//! Decryption over slices, for callers outside of Rattle: bytes in, bytes out into a room of the caller's, and a number for each refusal.
#![tactic(auto)]

pub mod chunks;
pub mod decrypting;
pub mod handing;
pub mod opening;
pub mod reading;
pub mod status;
