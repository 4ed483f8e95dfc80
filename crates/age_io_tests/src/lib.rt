//! Tests of `age_error`, the texts of its refusals, and of `age_io`: readers and writers in memory and of std, with a buffer, and seeks.
#![tactic(auto)]

#[cfg(test)]
mod buffered_tests;
#[cfg(test)]
mod error_texts;
#[cfg(test)]
mod fixtures;
#[cfg(test)]
mod into_std_tests;
#[cfg(test)]
mod io_seek_tests;
#[cfg(test)]
mod long_error_texts;
#[cfg(test)]
mod run_tests;
#[cfg(test)]
mod standard_tests;
#[cfg(test)]
mod values_tests;
