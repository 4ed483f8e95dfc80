//! Devices on which code over the readers and writers of this library is tried: a reader that seeks and a writer, which move a byte a call, fail or
//! are interrupted as a script says. They tell their bytes, so all that the library says of a reader or a writer holds over them. Beside them stands
//! what tests of readers share: bytes, and what a call answered as a `bool`.
#![tactic(auto)]

pub mod answers;
pub mod bytes;
mod calls;
mod script;
mod sink;
mod source;

pub use script::{Script, Step};
pub use sink::Sink;
pub use source::Source;
