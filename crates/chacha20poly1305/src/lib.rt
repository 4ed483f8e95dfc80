//! The authenticated encryption ChaCha20-Poly1305 (RFC 8439, 2.8) without additional data: sealing, and opening.
//!
//! No branch and no index depends on the key or on the bytes of a plaintext, and a tag is compared to its end wherever it differs. No
//! clause says so: it is seen in the code, here and in the crates below, and nothing is claimed of the time that it takes. What was
//! made of the key is left in memory as it is, and not wiped, and so is what was decrypted of a long text that is no seal.
#![tactic(auto)]

mod aead;
mod laws;
mod sealing;
mod tag;

pub use aead::{open, seal};
pub use laws::chacha20poly1305_laws;
pub use tag::one_time_key;
