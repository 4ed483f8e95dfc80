//! What a user of `age` wants to rely on, each claim proved from the public clauses of `age` (and of `age_standard`) alone.
#![tactic(auto)]

pub mod devices;
pub mod kept;
pub mod keys;
pub mod left;
pub mod lines;
pub mod longer;
pub mod others;
pub mod outside;
pub mod place;
pub mod rekey;
pub mod ring;
pub mod same;
pub mod sealed;
pub mod sent;
pub mod standard;
pub mod tampered;
mod texts;
pub mod turns;
pub mod wrong;
