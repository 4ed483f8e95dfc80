//! Stanzas, headers and their MAC, and the traits of those who make and open stanzas (age-encryption.org/v1, section
//! "Header").
#![tactic(auto)]

mod bytewise;
mod grease;
mod header;
mod identity;
mod laws;
mod mac;
mod old_header;
mod parse;
mod reading;
mod recipient;
mod sink;
mod stanza;
mod state;
mod write;

pub use grease::Grease;
pub use header::{HeaderV1, keeps_scrypt_rule};
pub use identity::Identity;
pub use laws::{
    canonical_text_is_text, canonical_text_reads_back, covered_front, equal_stanzas_are_same,
    header_text_is_canonical, header_text_reads_back, header_text_tells, verdict_is_unique,
};
pub use old_header::OldHeader;
pub use recipient::Recipient;
pub use stanza::{Stanza, is_string};
