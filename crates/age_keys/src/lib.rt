//! Keys: native recipients and identities, and what texts they have.
#![tactic(auto)]

pub mod plugin;
pub mod scrypt;
mod stanzas;
mod texts;
pub mod x25519;

pub use texts::text_laws;
