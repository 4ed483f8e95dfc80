//! The command that makes a key.
ghost use Rattle.std.specs.Prelude.{◌≡◌, ◌⊎◌, ◌<◌, ◌≤◌, [], ◌∷◌, ◌++◌, length, take, IsTrue, IfOk, OnOk, IfErr};
ghost use Rattle.age.specs.Bech32Written.{bech32_text};
ghost use Rattle.age.specs.Copying.{AppendsFront};
ghost use Rattle.age.specs.EncryptErrors.{encrypt_refusal, OutOfMemory, ShortRandom};
ghost use Rattle.age.specs.FileErrors.{IsEncryptError, EncryptsUnless, IfIo};
ghost use Rattle.age.specs.X25519.{identity_prefix};
ghost use Rattle.age.specs.Writing.{HandsOn};

use crate::suite::BenchSuite;
use age::EncryptError;
use age::draw::Draw;
use age::io::{Write, flush_retrying, write_all};
use age::streaming::FileError;
use age::x25519::Identity;
use std::alloc::Global;

/// Writes the text of a new X25519 identity and a line feed, and flushes the writer. The secret is the first 32 random bytes, and
/// what is left of them is ignored.
///
/// `Encrypt(ShortRandom)` where there are fewer than 32 random bytes, and `Encrypt(OutOfMemory)` where memory for the text is refused:
/// then nothing was appended. Any other refusal is the writer's. Whatever it answers, what was appended is a beginning of the line.
pub fn keygen<W: Write>(alloc: Global, draw: Draw, writer: &mut W) -> Result<(), FileError>
    ensures text { IsTrue (W.tells writer.old) → OnOk result
        ((32 ≤ length draw) × W.appended writer.old (bech32_text identity_prefix (take 32 draw) ++ 10 ∷ []) writer.new) }
    ensures front { IsTrue (W.tells writer.old) → (writer.new ≡ writer.old)
        ⊎ AppendsFront W.appended (bech32_text identity_prefix (take 32 draw) ++ 10 ∷ []) writer.old writer.new }
    ensures refused { IfErr result (λ e. IsEncryptError e → writer.new ≡ writer.old) }
    ensures why { IfErr result (EncryptsUnless (λ refusal. (refusal ≡ OutOfMemory) ⊎ ((refusal ≡ ShortRandom) × (length draw < 32)))) }
    ensures io { IfErr result (IfIo (HandsOn W.refuses writer.old)) }
{
    let mut draw = draw;
    let Some(identity) = Identity::<BenchSuite>::generate(&mut draw) else {
        return Err(FileError::Encrypt(EncryptError::ShortRandom));
    };
    let line = line_of(alloc, &identity)?;
    write_all(writer, &line)?;
    flush_retrying(writer)?;
    Ok(())
}

// The line of an identity's text.
fn line_of(alloc: Global, identity: &Identity<BenchSuite>) -> Result<Vec<u8>, EncryptError>
    ensures line { IfOk result (λ line. line.items ≡ bech32_text identity_prefix identity.now ++ 10 ∷ []) }
    ensures memory { IfErr result (λ e. encrypt_refusal e ≡ OutOfMemory) }
{
    let text = identity.to_string(alloc)?;
    let mut line = Vec::from_slice(alloc, text.expose_secret().as_bytes())?;
    line.push(b'\n')?;
    Ok(line)
}
