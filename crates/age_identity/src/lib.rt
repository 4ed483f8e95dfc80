//! Files of identities: what their lines are, and those who are asked while identities are used.
#![tactic(auto)]

mod callbacks;
mod comment;
mod entry;
pub mod error;
pub mod identity;
mod judging;
mod line;
mod parser;
mod reading;
pub mod util;

pub use callbacks::{Callbacks, NoCallbacks};
pub use error::IdentityFileConvertError;
pub use identity::IdentityFile;
