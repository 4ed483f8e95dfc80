//! What is answered of a payload, however bad it is.
ghost use Rattle.std.specs.Prelude.{◌≡◌, ℕ, List, IsTrue, IfOk, OnOk};
ghost use Rattle.age.specs.PayloadAnswers.{StandAt};
ghost use Rattle.age.specs.StreamReader.{key_of, payload_of, place_of, tells_of};
ghost use Rattle.age.specs.Stretch.{Stretch};
ghost use Rattle.age_claims.specs.Claims.{AnswersFrom, AreHeldAt, IsCalm};

use age::io::{Answer, Op, Seek, run};
use age::stream::StreamReader;
use age::suite::Suite;
use std::alloc::{AllocError, Global};

/// Does each read and seek in turn on a reader of a payload, however bad the payload is and whatever was refused before.
///
/// - `each`: the bytes that a read gives, also those before a refusal, stand from the place on where the answers before leave the reader, each where
///   the chunk that seals it says. That chunk is held by the standard's definition: it is the seal of bytes under the reader's key and the chunk's
///   own nonce, as one in the middle, or else as the last, and the byte is the one at its place among them. A seek that is answered led to its
///   target, by the payload's length, and to the end only where the last chunk is a seal as the last; one that is refused keeps the place, and says
///   why, where the payload ends well and the device below never fails. The reader stands where the last answer leaves it.
/// - `same`: the payload and the key are the same, so another list goes on from there.
pub fn answers_are_sealed<S: Suite, R: Seek>(
    alloc: Global,
    reader: &mut StreamReader<S, R>,
    ops: &[Op],
) -> Result<Vec<Answer>, AllocError>
    ensures each { IsTrue (tells_of reader.old) → IfOk result (λ answers.
        AnswersFrom (IsCalm R.faults (payload_of reader.old)) S.seal_of (key_of reader.old) (payload_of reader.old)
        ops.now answers.items (place_of reader.old) (place_of reader.new)) }
    ensures same { IsTrue (tells_of reader.old) → OnOk result
        (IsTrue (tells_of reader.new) × (payload_of reader.new ≡ payload_of reader.old) × (key_of reader.new ≡ key_of reader.old)) }
{
    run(alloc, reader, ops)
}

/// Bytes that chunks are held with stand in the plaintext, in the words of `age` (`StandAt`).
pub fn held_bytes_stand<S: Suite>()
    ensures { (key : List ℕ) (sealed : Stretch) (place : ℕ) (bytes : List ℕ) → AreHeldAt S.seal_of key sealed place bytes
        → StandAt S.seal_of key sealed.bytes place bytes }
{}
