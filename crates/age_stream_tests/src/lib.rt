//! Tests of `age_stream`: payloads that are written and read front to end, over devices that fail too, and seeks in them, bare and in
//! armor.
#![tactic(auto)]

#[cfg(test)]
mod cursor_tests;
#[cfg(test)]
mod damaged_tests;
#[cfg(test)]
mod device_tests;
#[cfg(test)]
mod fault_tests;
#[cfg(test)]
mod fixtures;
#[cfg(test)]
mod kept_tests;
#[cfg(test)]
mod refusal_tests;
#[cfg(test)]
mod seek_tests;
#[cfg(test)]
mod stream_tests;
#[cfg(test)]
mod vast_tests;
