//! Sealing and opening long texts (RFC 8439, 2.8), in groups of 512 bytes. Beside the rounds for a group the tag takes a group of the
//! ciphertext: of a seal the one before, and of a text that is opened the same. Rounds are steps of vectors and a tag is
//! multiplications of words, so that a processor makes both at once.
ghost use Rattle.std.specs.Prelude.{◌≡◌, ◌+◌, ◌-◌, ◌*◌, ◌/◌, ◌%◌, ◌^◌, ◌<◌, ◌≤◌, ◌≢◌, ◌↔◌, ◌++◌, ℕ, List, [], IfErr, IfOk, IsTrue, MatchOption, OnOk, length, take};
ghost use Rattle.chacha20.specs.Blocks.{HasDone, IsEncryptedTo};
ghost use Rattle.chacha20.specs.Encryption.{chacha20_encrypt};
ghost use Rattle.poly1305.specs.Given.{WasGiven};
ghost use Rattle.poly1305.specs.Steps.{ArePowersFor, IsUnbegun};
ghost use Rattle.chacha20poly1305.specs.Aead.{one_time_key, seal_of, tag_of};

use crate::aead::{TAG, append_encrypted, encrypt_from};
use crate::tag::{ended, one_time_key, verifies};
use chacha20::{apply_blocks, double_round, initial_states};
use poly1305::{Poly1305, Powers, Steps};
use std::alloc::{AllocError, Global};
use std::simd::u32x8;

/// How many bytes the blocks have that are made side by side: eight of ChaCha20, 32 of Poly1305.
const GROUP: usize = 512;

/// From how many bytes on a text is long: for a shorter one, what is made of the key first costs more than it gains.
pub const LONG: usize = 4096;

/// How many bytes of a plaintext are copied and encrypted at once: whole groups, and an eighth of the first cache.
const PIECE: usize = 4096;

/// How many pieces a text of so many bytes has, with one that isn't whole.
fn pieces_of(len: usize) -> usize
    ensures reach { len ≤ PIECE * result }
    ensures begun { PIECE * result < len + PIECE }
{
    let whole = len / PIECE;
    if PIECE * whole < len {
        return whole + 1;
    }
    whole
}

/// The number of the block that group `n` begins with. That of group 0 is 1.
#[inline(always)]
fn counter_of(n: usize) -> u32
    requires { 8 * n < 2 ^ 64 }
    ensures { result ≡ (1 + 8 * n % 2 ^ 32) % 2 ^ 32 }
{
    1u32.wrapping_add((8 * n % 0x1_0000_0000) as u32)
}

/// The states of the blocks of group `n`, before the rounds.
#[inline(always)]
fn states_of(key: &[u8; 32], nonce: &[u8; 12], n: usize) -> [u32x8; 16]
    requires { 8 * n < 2 ^ 64 }
    ensures { HasDone key.now ((1 + 8 * n % 2 ^ 32) % 2 ^ 32) nonce.now 0 result result }
{
    initial_states(key, counter_of(n), nonce)
}

/// One double round more.
// (the first two stand in the callers of `rounds_beside`: with them it would be too large to be inlined)
#[inline(always)]
fn next_round(states: &mut [u32x8; 16])
    ensures { (key nonce : List ℕ) (counter rounds : ℕ) (before : List (List ℕ)) → HasDone key counter nonce rounds before states.old
        → HasDone key counter nonce (rounds + 1) before states.new }
{
    double_round(states);
}

/// The last eight double rounds, with a step of the tag beside each, which takes a group.
#[inline(always)]
fn rounds_beside(states: &mut [u32x8; 16], state: &mut Poly1305, powers: &Powers, group: &[u8])
    requires group { length group.now ≡ GROUP }
    requires unbegun { IsUnbegun state.old }
    ensures rounds { (key nonce : List ℕ) (counter : ℕ) (before : List (List ℕ)) → HasDone key counter nonce 2 before states.old
        → HasDone key counter nonce 10 before states.new }
    ensures given { (one text : List ℕ) → ArePowersFor one powers.now → WasGiven state.old one text → WasGiven state.new one (text ++ group.now) }
    ensures unbegun { IsUnbegun state.new }
{
    let mut steps = Steps::new(state, powers);
    'rounds: for i in 0..8usize {
        steps.step(powers, group, i);
        next_round(states);
    }
    state.take_group(steps);
}

/// Combines group `n` of a text with its blocks, of which these are the states before all rounds and after them.
#[inline(always)]
fn combine_group(before: &[u32x8; 16], states: &[u32x8; 16], bytes: &mut [u8], n: usize)
    requires { GROUP * n + GROUP ≤ length bytes.old }
    ensures length { length bytes.new ≡ length bytes.old }
    ensures front { take (512 * n) bytes.new ≡ take (512 * n) bytes.old }
    ensures encrypted { (key nonce text : List ℕ) → HasDone key ((1 + 8 * n % 2 ^ 32) % 2 ^ 32) nonce 10 before.now states.now
        → IsEncryptedTo key 1 nonce 0 text (512 * n) bytes.old → IsEncryptedTo key 1 nonce 0 text (512 * (n + 1)) bytes.new }
{
    apply_blocks(before, states, &mut bytes[GROUP * n..GROUP * n + GROUP]);
}

/// Encrypts the bytes from a group on in place. The tag takes all groups but the last, from the one before the first of these on.
#[inline(never)]
fn encrypt_groups(
    key: &[u8; 32],
    nonce: &[u8; 12],
    state: &mut Poly1305,
    powers: &Powers,
    bytes: &mut [u8],
    from: usize,
)
    requires within { (0 < from) × (GROUP * from ≤ length bytes.old) }
    requires unbegun { IsUnbegun state.old }
    ensures encrypted { (text : List ℕ) → IsEncryptedTo key.now 1 nonce.now 0 text (512 * from) bytes.old
        → bytes.new ≡ chacha20_encrypt key.now 1 nonce.now text }
    ensures given { (one : List ℕ) → ArePowersFor one powers.now → WasGiven state.old one (take (512 * (from - 1)) bytes.old)
        → WasGiven state.new one (take (512 * (length bytes.new / 512 - 1)) bytes.new) }
    ensures length { length bytes.new ≡ length bytes.old }
    ensures unbegun { IsUnbegun state.new }
{
    // (copies, which no write to the bytes can change: so what is made of them is made once)
    let key = *key;
    let nonce = *nonce;
    let whole = bytes.len() / GROUP;
    'groups: for n in from..whole {
        let before = states_of(&key, &nonce, n);
        let group = &bytes[GROUP * (n - 1)..GROUP * n];
        let mut states = before;
        next_round(&mut states);
        next_round(&mut states);
        rounds_beside(&mut states, state, powers, group);
        combine_group(&before, &states, bytes, n);
    }
    encrypt_from(&key, counter_of(whole), &nonce, bytes, GROUP * whole);
}

/// Appends a piece of a plaintext, encrypted. The tag takes all groups but the last.
fn append_beside(
    bytes: &mut Vec<u8>,
    key: &[u8; 32],
    nonce: &[u8; 12],
    state: &mut Poly1305,
    powers: &Powers,
    piece: &[u8],
) -> Result<(), AllocError>
    requires whole { (0 < length bytes.old.items) × (length bytes.old.items % GROUP ≡ 0) }
    requires unbegun { IsUnbegun state.old }
    ensures encrypted { (text : List ℕ) → bytes.old.items ≡ chacha20_encrypt key.now 1 nonce.now text
        → OnOk result (bytes.new.items ≡ chacha20_encrypt key.now 1 nonce.now (text ++ piece.now)) }
    ensures given { (one : List ℕ) → ArePowersFor one powers.now
        → WasGiven state.old one (take (512 * (length bytes.old.items / 512 - 1)) bytes.old.items)
        → OnOk result (WasGiven state.new one (take (512 * (length bytes.new.items / 512 - 1)) bytes.new.items)) }
    ensures length { OnOk result (length bytes.new.items ≡ length bytes.old.items + length piece.now) }
    ensures unbegun { OnOk result (IsUnbegun state.new) }
{
    let from = bytes.len() / GROUP;
    bytes.extend_from_slice(piece)?;
    encrypt_groups(key, nonce, state, powers, bytes, from);
    Ok(())
}

/// Seals a plaintext of a group or more, as `seal` does. Memory is taken once, for the seal. `AllocError` where it is refused.
pub fn seal_long(
    alloc: Global,
    key: &[u8; 32],
    nonce: &[u8; 12],
    plain: &[u8],
) -> Result<Vec<u8>, AllocError>
    requires { GROUP ≤ length plain.now }
    ensures { IfOk result (λ sealed. sealed.items ≡ seal_of key.now nonce.now plain.now) }
{
    let mut state = Poly1305::new(&one_time_key(key, nonce));
    let powers = Powers::new(&state);
    let mut bytes = Vec::with_capacity(alloc, plain.len() + TAG)?;
    append_encrypted(&mut bytes, key, nonce, &plain[..GROUP])?;
    'pieces: for n in 0..pieces_of(plain.len() - GROUP) {
        let start = GROUP + PIECE * n;
        let end = plain.len().min(start + PIECE);
        append_beside(
            &mut bytes,
            key,
            nonce,
            &mut state,
            &powers,
            &plain[start..end],
        )?;
    }
    // Of the last group and what follows it the tag has nothing yet.
    let rest = GROUP * (bytes.len() / GROUP - 1);
    state.update(&bytes[rest..]);
    let tag = ended(state, &bytes).finalize();
    bytes.extend_from_slice(&tag)?;
    Ok(bytes)
}

/// Decrypts a copy of a ciphertext in place. The tag takes all whole groups.
#[inline(never)]
fn decrypt_groups(
    key: &[u8; 32],
    nonce: &[u8; 12],
    state: &mut Poly1305,
    powers: &Powers,
    ciphertext: &[u8],
    bytes: &mut [u8],
)
    requires same { length bytes.old ≡ length ciphertext.now }
    requires unbegun { IsUnbegun state.old }
    ensures length { length bytes.new ≡ length bytes.old }
    ensures decrypted { bytes.old ≡ ciphertext.now → bytes.new ≡ chacha20_encrypt key.now 1 nonce.now ciphertext.now }
    ensures given { (one : List ℕ) → ArePowersFor one powers.now → WasGiven state.old one []
        → WasGiven state.new one (take (512 * (length ciphertext.now / 512)) ciphertext.now) }
{
    // (copies, which no write to the bytes can change: so what is made of them is made once)
    let key = *key;
    let nonce = *nonce;
    let whole = ciphertext.len() / GROUP;
    'groups: for n in 0..whole {
        let before = states_of(&key, &nonce, n);
        let group = &ciphertext[GROUP * n..GROUP * n + GROUP];
        let mut states = before;
        next_round(&mut states);
        next_round(&mut states);
        rounds_beside(&mut states, state, powers, group);
        combine_group(&before, &states, bytes, n);
    }
    encrypt_from(&key, counter_of(whole), &nonce, bytes, GROUP * whole);
}

/// A copy of a text. Memory is taken once, or not at all for none.
fn copied(alloc: Global, text: &[u8]) -> Result<Vec<u8>, AllocError>
    ensures { IfOk result (λ bytes. bytes.items ≡ text.now) }
{
    let mut bytes = Vec::with_capacity(alloc, text.len())?;
    bytes.extend_from_slice(text)?;
    Ok(bytes)
}

/// Decrypts a copy of a ciphertext in place, and answers whether this is the ciphertext's tag. A difference doesn't end the
/// comparison.
fn decrypt_beside(
    key: &[u8; 32],
    nonce: &[u8; 12],
    ciphertext: &[u8],
    tag: &[u8],
    bytes: &mut Vec<u8>,
) -> bool
    requires { bytes.old.items ≡ ciphertext.now }
    ensures verified { IsTrue result ↔ (tag.now ≡ tag_of key.now nonce.now ciphertext.now) }
    ensures decrypted { bytes.new.items ≡ chacha20_encrypt key.now 1 nonce.now ciphertext.now }
{
    let mut state = Poly1305::new(&one_time_key(key, nonce));
    let powers = Powers::new(&state);
    decrypt_groups(key, nonce, &mut state, &powers, ciphertext, bytes);
    state.update(&ciphertext[GROUP * (ciphertext.len() / GROUP)..]);
    ended(state, ciphertext).verify(tag)
}

/// The plaintext of a ciphertext, where this is its tag, which is compared to its end. Memory is taken at most once, for the
/// plaintext. Where it is refused, a ciphertext that hasn't this tag is `None` all the same, and `AllocError` is the answer of
/// one that has.
pub fn open_long(
    alloc: Global,
    key: &[u8; 32],
    nonce: &[u8; 12],
    ciphertext: &[u8],
    tag: &[u8],
) -> Result<Option<Vec<u8>>, AllocError>
    ensures value { IfOk result (λ plain. MatchOption plain (tag.now ≢ tag_of key.now nonce.now ciphertext.now) (λ bytes.
        (tag.now ≡ tag_of key.now nonce.now ciphertext.now) × (bytes.items ≡ chacha20_encrypt key.now 1 nonce.now ciphertext.now))) }
    ensures memory { IfErr result (λ _. tag.now ≡ tag_of key.now nonce.now ciphertext.now) }
{
    let mut bytes = match copied(alloc, ciphertext) {
        Ok(bytes) => bytes,
        Err(refused) => {
            if verifies(key, nonce, ciphertext, tag) {
                return Err(refused);
            }
            return Ok(None);
        }
    };
    if !decrypt_beside(key, nonce, ciphertext, tag, &mut bytes) {
        return Ok(None);
    }
    Ok(Some(bytes))
}
