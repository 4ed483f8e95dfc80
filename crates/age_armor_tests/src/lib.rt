//! Tests of `age_armor`: texts of armor that are written and read, their faults, and seeks in them.
#![tactic(auto)]

#[cfg(test)]
mod armor_tests;
#[cfg(test)]
mod definition_tests;
#[cfg(test)]
mod reader_tests;
#[cfg(test)]
mod retry_tests;
#[cfg(test)]
mod seek_tests;
#[cfg(test)]
mod writer_tests;
