//! What tests share: what a call answered as a `bool` (of `age_devices`), fixtures, a reader that counts what it is asked for, a recipient and an
//! identity whose answers are given, a second suite beside the bench suite, one that stretches no passphrase, and payloads sealed and opened whole.
#![tactic(auto)]

pub mod fixtures;
pub mod metered;
pub mod never_stretches;
pub mod other_suite;
pub mod scripted;
pub mod whole;

pub use age_devices::answers;
