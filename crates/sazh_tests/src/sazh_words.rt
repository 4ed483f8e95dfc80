//! Tests of `sazh_command`: each line of the synopsis, each mistake, and what the texts hold.

mod answers;
mod command_tests;
mod help_tests;
mod mistake_tests;
mod number_tests;
