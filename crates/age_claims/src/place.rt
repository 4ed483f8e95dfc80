//! Encrypted, and read from a place on.
ghost use Rattle.std.specs.Prelude.{◌≡◌, ◌≤◌, [], ◌∷◌, length, take, drop, map, All, Some, Err, MatchResult};
ghost use Rattle.age.specs.Encrypting.{Prepares};
ghost use Rattle.age.specs.Several.{BelongsToOne};
ghost use Rattle.age.specs.Replies.{seen, gave, at, IsNoWant};
ghost use Rattle.age.specs.FileLaws.{PreparesApart};
ghost use Rattle.age_claims.specs.Claims.{RefusesBack};

use crate::texts::text_for;
use age::armor::Format;
use age::draw::Draw;
use age::format::Grease;
use age::io::{Answer, Bytes, Op, SeekFrom};
use age::streaming::{FileError, answers};
use age::suite::Suite;
use age::{Identity, Recipient};
use std::alloc::Global;

/// Encrypts a plaintext to recipients in memory, bare or in armor, opens the text with an identity, seeks to a place and reads: the slice that
/// stands there.
///
/// The identity belongs to one of the recipients, a full last chunk of the file doesn't open as one in the middle too, and the place isn't after the
/// end. Then a success answers this place and the `count` bytes from there on, fewer where the plaintext ends, or one of the two answers is
/// want of memory. It refuses as `kept` does.
pub fn slice_of<S: Suite, T: Recipient, I: Identity>(
    alloc: Global,
    recipients: &[T],
    identities: &mut [I],
    draw: &mut Draw,
    grease: Grease,
    format: Format,
    plain: &[u8],
    place: u64,
    count: usize,
) -> Result<Vec<Answer>, FileError>
    ensures { (one : I) → identities.old ≡ one ∷ [] → BelongsToOne T.wraps I.unwraps recipients.now one →
        PreparesApart T.wraps recipients.now (Some grease) draw.old draw.new S.seal_of plain.now →
        place ≤ length plain.now → MatchResult result (λ answers. All IsNoWant answers.items →
        map seen answers.items ≡ at place ∷ gave (take count (drop place plain.now)) ∷ [])
        (RefusesBack (λ refusal. Prepares T.wraps recipients.now (Some grease) draw.old (Err refusal) draw.new) (length plain.now)) }
{
    let file = match text_for::<S, T, I>(alloc, recipients, draw, grease, format, plain) {
        Err(error) => return Err(error),
        Ok(file) => file,
    };
    let ops = [Op::Seek(SeekFrom::Start(place)), Op::Read(count)];
    answers::<S, I, Bytes>(alloc, identities, &ops, Bytes::new(&file))
}
