//! The suite of age-encryption.org/v1: ChaCha20-Poly1305 without additional data (RFC 8439, 2.8), X25519 (RFC 7748, 5) and scrypt
//! (RFC 7914), each exactly as its RFC defines it, with all laws of a suite proved.
//!
//! With this suite the calls of `age`, which are proved for every suite, read and write the files of other implementations. Nothing is
//! claimed of secrecy, of time, or of what is left in memory.
#![tactic(auto)]

mod suite;

pub use suite::StandardSuite;
