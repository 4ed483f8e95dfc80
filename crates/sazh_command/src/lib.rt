//! What the words of a command line of `sazh` ask for, what is wrong with them, and the texts that say how they are written.
//!
//! Nothing here knows of keys or files: a word is kept as it was given, and whoever runs the command reads it. The words are read by
//! `clap`, which is told of the commands and their options in `app`.
#![tactic(auto)]

mod app;
mod command;
mod found;
mod help;
mod input;
mod laws;
mod meaning;
mod mistakes;
mod names;
mod number;
mod parsing;
mod secrets;
mod shown;

pub use command::{Command, Identities, Opening, Output, Recipient, Recipients};
pub use help::USAGE;
pub use input::told_place;
pub use laws::command_laws;
pub use mistakes::UsageError;
pub use names::Operand;
pub use parsing::parse;
