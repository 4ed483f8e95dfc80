//! Tests of what the programs stand on. Of `agebench`: what its command lines ask for, its commands and its suite (`age_bench`). Of `sazh`:
//! files that no code of the library made open under `age_standard`, through calls that are generic over suites; files of recipients and
//! of a passphrase, the file of a new key, and grease (`sazh_core`); what its command lines ask for (`sazh_command`).
#![tactic(auto)]

#[cfg(test)]
mod bench_suite_tests;
#[cfg(test)]
mod command_tests;
#[cfg(test)]
mod done;
#[cfg(test)]
mod file_tests;
#[cfg(test)]
mod given_tests;
#[cfg(test)]
mod inspection_tests;
#[cfg(test)]
mod key_file_tests;
#[cfg(test)]
mod key_tests;
#[cfg(test)]
mod own_recipients_tests;
#[cfg(test)]
mod passphrase_tests;
#[cfg(test)]
mod payload_tests;
#[cfg(test)]
mod protected_tests;
#[cfg(test)]
mod recipients_tests;
#[cfg(test)]
mod sazh_words;
#[cfg(test)]
mod standard_suite_tests;
#[cfg(test)]
mod tool_tests;
#[cfg(test)]
mod words;
