//! Readers and writers: what they mean, and calls that read or write until all is done.
#![tactic(auto)]

mod buffered;
mod bufread;
mod copying;
mod into_std;
mod laws;
mod memory;
mod operations;
mod retry;
mod seeking;
mod standard;
mod targets;
mod traits;
mod whole;

pub use buffered::BufReader;
pub use bufread::BufRead;
pub use copying::{copy_all, copy_some};
pub use into_std::{IntoStd, standard_error};
pub use laws::cursor_laws;
pub use memory::Bytes;
pub use operations::{Answer, Op, run};
pub use retry::{flush_retrying, is_interruption, read_retrying, seek_retrying, write_retrying};
pub use seeking::Seek;
pub use standard::{Std, device_error};
pub use targets::{distance_back, is_outside, place_at, sought, unrefused};
pub use traits::{Read, Write};
pub use whole::{fill, read_exact, read_to_end, room_for, write_all};
