//! Uses of `age` and `age_records`, each proved from what these say in public: what a caller writes over any suite, and what it is
//! worth.
#![tactic(auto)]

pub mod keys;
pub mod looks;
pub mod own;
pub mod parts;
pub mod passphrases;
pub mod protected;
pub mod record_calls;
pub mod record_files;
pub mod records_there_and_back;
pub mod several;
pub mod streams;
pub mod there_and_back;
pub mod turns;
