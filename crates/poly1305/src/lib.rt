//! Poly1305 (RFC 8439, 2.5): the tag of a text under a key that is used once. Nothing here takes memory or refuses.
//!
//! No branch and no index depends on the key or on the bytes of the text. No clause says so: it is seen in the code, and nothing is
//! claimed of the time that it takes. What was made of the key is left in memory as it is, and not wiped.
#![tactic(auto)]

mod authenticator;
mod blocks;
mod groups;
mod laws;
mod limbs;
mod steps;

pub use authenticator::{Poly1305, poly1305_mac};
pub use laws::poly1305_laws;
pub use steps::{Powers, Steps};
