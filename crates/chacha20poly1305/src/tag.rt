//! What the tag of a ciphertext is made of (RFC 8439, 2.6 and 2.8).
ghost use Rattle.std.specs.Prelude.{◌≡◌, ◌↔◌, ◌++◌, IsTrue, List, ℕ, length, take};
ghost use Rattle.std.specs.Int.{w64, to_le_bytes};
ghost use Rattle.poly1305.specs.Given.{WasGiven};
ghost use Rattle.chacha20poly1305.specs.Aead.{mac_data, one_time_key, pad16, tag_of};

use chacha20::chacha20_block;
use poly1305::Poly1305;

/// The first half of a block.
fn first_half(block: &[u8; 64]) -> [u8; 32]
    ensures { result ≡ take 32 block.now }
{
    let mut half = [0; 32];
    half.copy_from_slice(&block[..32]);
    half
}

/// The one-time key of Poly1305 for a nonce of 12 bytes under a key of 32 (RFC 8439, 2.6): 32 bytes. It takes no memory and never
/// refuses.
#[tactic(auto, unfolding(crate::specs::Aead::one_time_key))]
pub fn one_time_key(key: &[u8; 32], nonce: &[u8; 12]) -> [u8; 32]
    ensures { result ≡ one_time_key key.now nonce.now }
{
    first_half(&chacha20_block(key, 0, nonce))
}

/// The lengths of no additional data and of the ciphertext, 8 bytes each.
fn lengths(ciphertext: &[u8]) -> [u8; 16]
    ensures { result ≡ to_le_bytes w64 0 ++ to_le_bytes w64 (length ciphertext.now) }
{
    let mut lengths = [0; 16];
    lengths[8..].copy_from_slice(&(ciphertext.len() as u64).to_le_bytes());
    lengths
}

/// Gives a state the zeros that fill a ciphertext up to whole blocks.
fn give_padding(state: &mut Poly1305, ciphertext: &[u8])
    ensures { (key text : List ℕ) → WasGiven state.old key text → WasGiven state.new key (text ++ pad16 ciphertext.now) }
{
    let zeros = [0; 15];
    state.update(&zeros[..(16 - ciphertext.len() % 16) % 16]);
}

/// A state that was given a ciphertext, once it is given all else that the tag is made of (RFC 8439, 2.8).
pub fn ended(state: Poly1305, ciphertext: &[u8]) -> Poly1305
    ensures { (key : List ℕ) → WasGiven state key ciphertext.now → WasGiven result key (mac_data ciphertext.now) }
{
    let mut state = state;
    give_padding(&mut state, ciphertext);
    state.update(lengths(ciphertext).as_slice());
    state
}

/// The state that was given all that the tag of a ciphertext is made of.
fn authenticated(key: &[u8; 32], nonce: &[u8; 12], ciphertext: &[u8]) -> Poly1305
    ensures { WasGiven result (one_time_key key.now nonce.now) (mac_data ciphertext.now) }
{
    let mut state = Poly1305::new(&one_time_key(key, nonce));
    state.update(ciphertext);
    ended(state, ciphertext)
}

/// The tag of a ciphertext (RFC 8439, 2.8).
#[tactic(auto, unfolding(crate::specs::Aead::tag_of))]
pub fn tag(key: &[u8; 32], nonce: &[u8; 12], ciphertext: &[u8]) -> [u8; 16]
    ensures { result ≡ tag_of key.now nonce.now ciphertext.now }
{
    authenticated(key, nonce, ciphertext).finalize()
}

/// Whether these bytes are the tag of a ciphertext. A difference doesn't end the comparison.
#[tactic(auto, unfolding(crate::specs::Aead::tag_of))]
pub fn verifies(key: &[u8; 32], nonce: &[u8; 12], ciphertext: &[u8], tag: &[u8]) -> bool
    ensures { IsTrue result ↔ (tag.now ≡ tag_of key.now nonce.now ciphertext.now) }
{
    authenticated(key, nonce, ciphertext).verify(tag)
}
