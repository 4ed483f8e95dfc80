//! The proved calls for C, and for what calls C: files, and chunks of payloads, under the suite of the standard, over buffers of the caller's.
//! The header file `include/age_c.h` says the same in C's words.
#![tactic(auto)]

pub mod chunks;
pub mod files;
pub mod keys;
pub mod opening;
pub mod texts;
