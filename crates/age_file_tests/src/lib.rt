//! Tests of whole files, of files from before the standard, of the plaintext of a file
//! that is opened, of its parts, of bad armor and bad headers, and of the uses of `age`.
#![tactic(auto)]

#[cfg(test)]
mod asked_tests;
#[cfg(test)]
mod both_suites_tests;
#[cfg(test)]
mod buffered_tests;
#[cfg(test)]
mod device_tests;
#[cfg(test)]
mod file_tests;
#[cfg(test)]
mod hostile_text_tests;
#[cfg(test)]
mod migrate_device_tests;
#[cfg(test)]
mod migrate_tests;
#[cfg(test)]
mod opening_tests;
#[cfg(test)]
mod other_suite_tests;
#[cfg(test)]
mod part_tests;
#[cfg(test)]
mod passphrase_tests;
#[cfg(test)]
mod recipient_tests;
#[cfg(test)]
mod shared;
#[cfg(test)]
mod short_draw_tests;
#[cfg(test)]
mod uses;
#[cfg(test)]
mod whole_file_tests;
