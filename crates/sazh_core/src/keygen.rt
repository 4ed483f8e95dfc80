//! The file of a new key.
ghost use Rattle.std.specs.Prelude.{◌≡◌, ◌⊎◌, ℕ, List, Some, None, IfOk, IfErr};
ghost use Rattle.age.specs.Draw.{left_after, taken};
ghost use Rattle.age.specs.EncryptErrors.{encrypt_refusal, OutOfMemory, ShortRandom};
ghost use Rattle.sazh_core.specs.Keygen.{WritesKey, key_file};

use crate::error::CommandError;
use crate::random::{RandomBytes, drawn};
use age::EncryptError;
use age::draw::Draw;
use age::io::{Write, flush_retrying, write_all};
use age::streaming::FileError;
use age::suite::Suite;
use age::x25519::Identity;
use std::alloc::Global;

/// The text of the file of a new X25519 identity, whose secret is the next 32 random bytes: a line with its recipient,
/// `# public key: age1..`, and one with the identity's text, each with LF.
///
/// `ShortRandom` where there are fewer than 32 random bytes, and `OutOfMemory` where memory for the text is refused. The random bytes are
/// taken whatever it answers.
pub fn new_key_file<S: Suite>(alloc: Global, draw: &mut Draw) -> Result<Vec<u8>, EncryptError>
    ensures text { IfOk result (λ text. (secret : List ℕ) × (taken 32 draw.old ≡ Some secret) × (text.items ≡ key_file S.public_of secret)) }
    ensures refused { IfErr result (λ e. (encrypt_refusal e ≡ OutOfMemory) ⊎ ((encrypt_refusal e ≡ ShortRandom) × (taken 32 draw.old ≡ None))) }
    ensures left { draw.new ≡ left_after 32 draw.old }
{
    match Identity::<S>::generate(draw) {
        None => Err(EncryptError::ShortRandom),
        Some(identity) => text_of(alloc, &identity),
    }
}

// The text of an identity's file.
#[tactic(auto, unfolding(crate::specs::Keygen::key_file))]
fn text_of<S: Suite>(alloc: Global, identity: &Identity<S>) -> Result<Vec<u8>, EncryptError>
    ensures text { IfOk result (λ text. text.items ≡ key_file S.public_of identity.now) }
    ensures memory { IfErr result (λ e. encrypt_refusal e ≡ OutOfMemory) }
{
    let recipient = identity.to_public().to_string(alloc)?;
    let secret = identity.to_string(alloc)?;
    let mut text = Vec::from_slice(alloc, b"# public key: ")?;
    text.extend_from_slice(recipient.as_bytes())?;
    text.push(b'\n')?;
    text.extend_from_slice(secret.expose_secret().as_bytes())?;
    text.push(b'\n')?;
    Ok(text)
}

// How many random bytes are a secret.
const OF_A_SECRET: usize = 32;

/// Writes the text of the file of a new key, as `new_key_file` makes it, and flushes the writer. The secret is the next 32 bytes of `source`.
///
/// # Errors
///
/// - `Random(NoRandom)`: the source has fewer bytes. Nothing was written.
/// - `Random(OutOfMemory)`: memory for the random bytes was refused. Nothing was written, and the source wasn't asked.
/// - `File(Encrypt(OutOfMemory))`: memory for the text was refused. Nothing was written.
/// - `File(Io)`: as the writer refuses. A beginning of the text may have been written.
pub fn write_new_key<S: Suite, B: RandomBytes, W: Write>(
    alloc: Global,
    source: &mut B,
    writer: &mut W,
) -> Result<(), CommandError>
    ensures { WritesKey S.public_of B.gives ⟦<W as Write>⟧ source.old source.new writer.old writer.new result }
{
    let mut draw = drawn(alloc, source, OF_A_SECRET)?;
    let text = new_key_file::<S>(alloc, &mut draw)?;
    match write_all(writer, &text) {
        Err(error) => return Err(CommandError::File(FileError::Io(error))),
        Ok(()) => {}
    }
    match flush_retrying(writer) {
        Err(error) => Err(CommandError::File(FileError::Io(error))),
        Ok(()) => Ok(()),
    }
}
