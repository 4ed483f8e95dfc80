//! The library over an insecure bench suite, by which it is tried and measured: the suite, its recipient and identity, and
//! the commands of the program `agebench` as functions over readers and writers, and what the words of its command line ask for.
#![tactic(auto)]

pub mod command;
pub mod file;
pub mod keygen;
pub mod laws;
pub mod names;
mod number;
pub mod opening;
pub mod part;
pub mod recipient;
pub mod suite;
