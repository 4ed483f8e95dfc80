//! A payload sealed and opened whole, in memory: the plain program that holds the definition against worked values.
ghost use Rattle.std.specs.Prelude.{◌≡◌, ℕ, List, ◌+◌, ◌*◌, ◌/◌, ◌^◌, ◌<◌, ◌≤◌, length, IfOk, IfErr};
ghost use Rattle.age_v1.specs.Payload.{payload, chunk, OpensAsMiddle};
ghost use Rattle.age_suite.specs.Suite.{one_more};
ghost use Rattle.age_v1.specs.PayloadRefusals.{RefusesFrontToEnd, IsOpenedTo};

use age_error::io;
use age_stream::nonce::nonce_of;
use age_suite::suite::{Opens, Suite};
use std::alloc::{AllocError, Global};

// The bytes of a piece of the plaintext, but for the last.
const PIECE: usize = 65_536;

// The bytes of a full chunk, which is a sealed piece.
const CHUNK: usize = 65_552;

// So many chunks hold the longest plaintext, of 2^60 bytes.
const MOST_CHUNKS: usize = 1 << 44;

/// The payload of a plaintext (age-encryption.org/v1, Payload): its pieces of 65,536 bytes, each sealed under the key of
/// 32 bytes and its nonce, the last one, of at most 65,536 bytes, as the last. It refuses only for want of memory.
pub fn seal_whole<S: Suite>(
    alloc: Global,
    key: &[u8; 32],
    plain: &[u8],
) -> Result<Vec<u8>, AllocError>
    ensures { IfOk result (λ sealed. sealed.items ≡ payload S.seal_of key.now plain.now) }
{
    let last = plain.len().saturating_sub(1) / PIECE;
    let mut out = Vec::new(alloc);
    for i in 0..last {
        let piece = &plain[i * PIECE..i * PIECE + PIECE];
        let seal = S::seal(alloc, key, &nonce_of(i as u64, false), piece)?;
        out.extend_from_slice(&seal)?;
    }
    let seal = S::seal(
        alloc,
        key,
        &nonce_of(last as u64, true),
        &plain[last * PIECE..],
    )?;
    out.extend_from_slice(&seal)?;
    Ok(out)
}

// Chunk `i` of a payload.
fn chunk_at(sealed: &[u8], i: usize) -> &[u8]
    requires { 65552 * i ≤ length sealed.now }
    ensures { result.now ≡ chunk i sealed.now }
{
    let rest = &sealed[i * CHUNK..];
    &rest[..rest.len().min(CHUNK)]
}

// What the payload opens to, where the chunks before `i` are opened to `out`, and chunk `i` is there and isn't held as
// middle.
fn open_last<S: Suite>(
    alloc: Global,
    opens: &mut Opens,
    key: &[u8; 32],
    sealed: &[u8],
    i: usize,
    mut out: Vec<u8>,
) -> Result<Vec<u8>, io::Error>
    requires there { 65552 * i < length sealed.now }
    requires reach { i ≤ 2 ^ 44 }
    requires opened { IsOpenedTo S.seal_of key.now sealed.now i out.items }
    requires not_middle { (other : List ℕ) → OpensAsMiddle S.seal_of key.now sealed.now i other → ⊥ }
    ensures ok { IfOk result (λ plain. sealed.now ≡ payload S.seal_of key.now plain.items) }
    ensures limit { IfOk result (λ plain. length plain.items ≤ 2 ^ 60) }
    ensures err { IfErr result (λ error. RefusesFrontToEnd S.seal_of key.now sealed.now error) }
    ensures opens { opens.new ≡ one_more opens.old }
{
    let left = sealed.len() - i * CHUNK;
    match S::open(
        alloc,
        opens,
        key,
        &nonce_of(i as u64, true),
        chunk_at(sealed, i),
    )? {
        None => Err(io::Error::BadChunk),
        Some(piece) => {
            if i > 0 && piece.is_empty() {
                Err(io::Error::LastChunkEmpty)
            } else if i >= MOST_CHUNKS {
                Err(io::Error::TooLong)
            } else if left > CHUNK {
                Err(io::Error::AfterLast)
            } else {
                out.extend_from_slice(&piece)?;
                Ok(out)
            }
        }
    }
}

/// The plaintext of a payload (age-encryption.org/v1, Payload), under the payload's key of 32 bytes. An answer is the
/// plaintext that the whole payload seals, of at most 2^60 bytes.
///
/// The refusal is that of the first chunk, from the front, that isn't a middle chunk, or is one too many:
/// - `Truncated`: no byte is left there.
/// - `BadChunk`: the chunk opens neither as middle nor as last.
/// - `LastChunkEmpty`: it is the last, and empty, and not the only one.
/// - `TooLong`: it holds a byte of the plaintext at place 2^60 or later.
/// - `AfterLast`: it is the last and none of these, and bytes follow it.
/// - `OutOfMemory`: memory was refused; nothing is said of the payload.
///
/// A full chunk is tried as middle first, so that it is opened twice where it isn't one; any other is opened once. No
/// plaintext is handed out with a refusal.
pub fn open_whole<S: Suite>(
    alloc: Global,
    opens: &mut Opens,
    key: &[u8; 32],
    sealed: &[u8],
) -> Result<Vec<u8>, io::Error>
    ensures ok { IfOk result (λ plain. sealed.now ≡ payload S.seal_of key.now plain.items) }
    ensures limit { IfOk result (λ plain. length plain.items ≤ 2 ^ 60) }
    ensures err { IfErr result (λ error. RefusesFrontToEnd S.seal_of key.now sealed.now error) }
    ensures counts { opens.old < 2 ^ 64 → opens.old ≤ opens.new }
    ensures opens { opens.new ≤ opens.old + length sealed.now / 65552 + 1 }
{
    let mut out = Vec::new(alloc);
    let full = sealed.len() / CHUNK;
    for i in 0..full {
        match S::open(
            alloc,
            opens,
            key,
            &nonce_of(i as u64, false),
            chunk_at(sealed, i),
        )? {
            None => return open_last::<S>(alloc, opens, key, sealed, i, out),
            Some(piece) => {
                if i >= MOST_CHUNKS {
                    return Err(io::Error::TooLong);
                }
                out.extend_from_slice(&piece)?;
            }
        }
    }
    if sealed.len() == full * CHUNK {
        return Err(io::Error::Truncated);
    }
    open_last::<S>(alloc, opens, key, sealed, full, out)
}
