//! The base64 of the format, over the standard alphabet: what headers and armor share (RFC 4648 section 4;
//! age-encryption.org/v1, sections "Header" and "ASCII armor").
#![tactic(auto)]

mod coding;
mod engine;

pub use coding::{decode_columns, encode_columns};
pub use engine::{armor_engine, header_engine};
