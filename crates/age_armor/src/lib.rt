//! Armor: the ASCII form of a file, written and read (age-encryption.org/v1, section "ASCII armor").
#![tactic(auto)]

mod counted;
mod decoding;
mod encoding;
mod gathering;
mod judging;
mod laws;
mod leaping;
mod marks;
mod reader;
mod seeking;
mod sending;
mod showing;
mod stages;
mod window;
mod writer;
mod writing;

pub use age_v1::Format;
pub use laws::{
    armor_is_carrying, armor_is_text, armor_length, carried_is_delivered, carried_is_unique,
    delivered_is_carried, first_fault_is_unique, sent_law, verdict_is_unique,
};
pub use reader::ArmoredReader;
pub use writer::ArmoredWriter;
