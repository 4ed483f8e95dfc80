//! Tests of headers, of keys and of passphrases.
#![tactic(auto)]

#[cfg(test)]
mod file_tests;
#[cfg(test)]
mod fixtures;
#[cfg(test)]
mod header_tests;
#[cfg(test)]
mod passphrase_tests;
#[cfg(test)]
mod scrypt_tests;
#[cfg(test)]
mod text_tests;
#[cfg(test)]
mod x25519_tests;
