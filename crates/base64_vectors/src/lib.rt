//! Base64 (RFC 4648 section 4) of whole lines of 64 columns, in vectors of 16 bytes.
#![tactic(auto)]

mod decoding;
mod encoding;
mod lookup;

pub use decoding::decode_full;
pub use encoding::encode_full;
