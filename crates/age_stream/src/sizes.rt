//! The sizes of a payload (age-encryption.org/v1, section "Payload").

/// How many bytes a piece of the plaintext has, but for the last.
pub const PIECE: usize = 65_536;

/// How many bytes a chunk has, which is a piece that is sealed, but for the last.
pub const CHUNK: usize = 65_552;

/// How many bytes the longest plaintext has.
pub const LONGEST_PLAINTEXT: u64 = 1 << 60;

/// How many chunks the longest plaintext has.
pub const MOST_CHUNKS: u64 = 1 << 44;
