//! The uses of `age` (`age_examples`) run over the insecure bench suite, and some
//! over a second one. The texts that are expected come from a second implementation.

mod fixtures;
mod keys_tests;
mod looks_tests;
mod own_tests;
mod parts_tests;
mod passphrases_tests;
mod protected_tests;
mod several_tests;
mod streams_tests;
mod there_and_back_tests;
mod turns_tests;
