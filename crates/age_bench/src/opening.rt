//! Files opened, and reads and seeks on their plaintext.
ghost use Rattle.std.specs.Prelude.{◌≡◌, ◌&&◌, ℕ, ◌≤◌, IsTrue, List, [], ◌∷◌, All, map, IfOk, IfErr, MatchResult};
ghost use Rattle.age.specs.DecryptErrors.{OutOfMemory, decrypt_refusal};
ghost use Rattle.age.specs.Replies.{seen, replies, IsNoWant};
ghost use Rattle.age.specs.Armor.{Carries};
ghost use Rattle.age.specs.Opened.{IsOpened, IsNotOpened, OfText, AnswersInTurn};
ghost use Rattle.age.specs.OpeningFile.{StandsBefore};
ghost use Rattle.age.specs.FileErrors.{DecryptsUnless, IsIoError, IsWant};
ghost use Rattle.age.specs.Identities.{IsFileFor};
ghost use Rattle.age_bench.specs.Bench.{bench_seal};
ghost use Rattle.age_bench.specs.Names.{answers_of};

use crate::names::With;
use crate::suite::BenchSuite;
use age::armor::ArmoredReader;
use age::io::{Answer, BufReader, Op, Read, Seek};
use age::stream::StreamReader;
use age::streaming::{FileError, answers, open_file};
use age::suite::Suite;
use age::{DecryptError, Identity};
use std::alloc::Global;

/// `open_file` with the identity that a word of the command line names.
///
/// Whatever the bytes give, a success says that a header and a nonce begin them, that the identity gave the file key, under which the
/// header's MAC is right, and that nothing of the payload was read or opened. It refuses as `open_file` does. The bytes and the
/// identity are gone after a refusal.
pub fn open_with<T: Read + Drop>(
    alloc: Global,
    with: With,
    bytes: T,
) -> Result<StreamReader<BenchSuite, T>, DecryptError>
    ensures tells { let reader = ⟦<StreamReader<BenchSuite, T> as Read>⟧ in
        IfOk result (λ stream. reader.tells stream ≡ (T.tells bytes && T.steady bytes)) }
    ensures faults { let reader = ⟦<StreamReader<BenchSuite, T> as Read>⟧ in IfOk result (λ stream. T.faults bytes ≤ reader.faults stream) }
    ensures opened { IfOk result (λ stream. (after : List With) × IsOpened ⟦<With as Identity>⟧.unwraps (with ∷ []) after bytes stream) }
    ensures plaintext { IsTrue (T.tells bytes && T.steady bytes) → IsTrue (T.rest bytes).ends_well → (plain : List ℕ) →
        IsFileFor bench_seal (answers_of with) plain (T.rest bytes).bytes →
        MatchResult result (λ stream. StandsBefore plain stream) (λ e. ((t : T) → T.faults t ≡ 0) → decrypt_refusal e ≡ OutOfMemory) }
    ensures refused { IfErr result (λ e. (after : List With)
        × IsNotOpened ⟦<With as Identity>⟧.unwraps ⟦<T as Read>⟧ (with ∷ []) after bytes (decrypt_refusal e)) }
{
    open_file::<BenchSuite, With, T>(alloc, &mut [with], bytes)
}

/// Does each read and seek in turn on the plaintext of the file, bare or armored, that `reader` gives from where it stands, and
/// answers what came of each. The identity that a word names decrypts the file.
///
/// The reads and seeks go through three layers: `StreamReader` over `ArmoredReader` over `BufReader`. Where what the reader
/// still has ends well and carries a file for the identity, and its device never fails, the answers are those of a cursor on
/// the plaintext, as long as none of them is `OutOfMemory`, and nothing but want of memory is refused. Whatever the reader gives, a
/// success says that the text's file was opened as by `open_text`, with a right MAC, and that the answers came of these reads and
/// seeks in turn on its payload. It refuses with `Decrypt` as `open_text` does, and with `Io` for want of memory alone, also where
/// the list of answers or the bytes in it couldn't grow. The reader and the identity are gone then.
pub fn answers_with<R: Seek + Drop>(
    alloc: Global,
    with: With,
    ops: &[Op],
    reader: R,
) -> Result<Vec<Answer>, FileError>
    ensures opened { let armored = ⟦<ArmoredReader<BufReader<R>> as Read>⟧ in (after : List With) × IfOk result (λ answers.
        OfText ⟦<R as Read>⟧ armored reader (λ text. AnswersInTurn ⟦<BenchSuite as Suite>⟧ armored ⟦<With as Identity>⟧.unwraps (with ∷ []) after
        text ⟦<ArmoredReader<BufReader<R>> as Seek>⟧.seek_refuses ops.now answers.items)) }
    ensures refused { let armored = ⟦<ArmoredReader<BufReader<R>> as Read>⟧ in (after : List With) × IfErr result (DecryptsUnless (λ refusal.
        OfText ⟦<R as Read>⟧ armored reader (λ text. IsNotOpened ⟦<With as Identity>⟧.unwraps armored (with ∷ []) after text refusal))) }
    ensures io { IfErr result (λ e. IsIoError e → IsWant e) }
    ensures cursor { IsTrue (R.tells reader && R.steady reader) → IsTrue (R.rest reader).ends_well → ((r : R) → R.faults r ≡ 0) →
        (file plain : List ℕ) → Carries (R.rest reader).bytes file → IsFileFor bench_seal (answers_of with) plain file →
        MatchResult result (λ answers. All IsNoWant answers.items → map seen answers.items ≡ replies ops.now plain 0) IsWant }
{
    answers::<BenchSuite, With, R>(alloc, &mut [with], ops, reader)
}
