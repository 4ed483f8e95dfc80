//! Tests of `age_records`: records that are written and read, damaged texts among them, the chunks that are opened for them, and
//! devices that fail, bare and in armor; and the claims of `age_claims` and the worked examples of `age_slices`, run to their success.
#![tactic(auto)]

#[cfg(test)]
mod claims_tests;
#[cfg(test)]
mod device_tests;
#[cfg(test)]
mod error_tests;
#[cfg(test)]
mod fixtures;
#[cfg(test)]
mod opening_tests;
#[cfg(test)]
mod record_tests;
#[cfg(test)]
mod slices_tests;
#[cfg(test)]
mod standard_tests;
