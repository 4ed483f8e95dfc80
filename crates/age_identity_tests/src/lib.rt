//! Tests of `age_identity` and `age_encrypted`: readers with a limit, lines of identity files, callbacks, files of identities that a
//! passphrase protects, and what the identities of a file answer.
#![tactic(auto)]

#[cfg(test)]
mod answer_tests;
#[cfg(test)]
mod callback_tests;
#[cfg(test)]
mod convert_tests;
#[cfg(test)]
mod encrypted_tests;
#[cfg(test)]
mod file_tests;
#[cfg(test)]
mod fixtures;
#[cfg(test)]
mod identity_tests;
#[cfg(test)]
mod limit_tests;
#[cfg(test)]
mod limited_text_tests;
#[cfg(test)]
mod size_tests;
