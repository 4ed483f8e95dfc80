//! Texts of the keys of plugins (age's plugin specification, on names and keys).

mod identity;
mod names;
mod recipient;

pub use identity::Identity;
pub use recipient::Recipient;
