//! ChaCha20 with a nonce of 96 bits (RFC 8439, 2.1 to 2.4): the block function, and the key stream over bytes in place. Nothing
//! here takes memory or refuses. Eight blocks are made side by side, in the lanes of vectors.
//!
//! No branch and no index depends on the key, the nonce or the bytes. No clause says so: it is seen in the code. What was made
//! of the key is left in memory as it is, and not wiped.
#![tactic(auto)]

mod block;
mod laws;
mod rounds;
mod stream;
mod transposed;

pub use block::initial_states;
pub use laws::chacha20_laws;
pub use rounds::double_round;
pub use stream::{apply_blocks, apply_keystream, chacha20_block};
