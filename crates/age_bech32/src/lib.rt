//! Bech32 without its limit of 90 characters (BIP 173): a prefix and bytes as a text with a check.
#![tactic(auto)]

mod checksum;
mod error;
mod groups;
mod laws;
mod prefix;
mod reading;
mod symbols;
mod writing;

pub use error::Bech32Error;
pub use laws::bech32_laws;
pub use reading::{decode, decode_array};
pub use writing::{encode, encode_array};
