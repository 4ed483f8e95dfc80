//! Files opened, and reads and seeks on their plaintext.
ghost use Rattle.std.specs.Prelude.{◌≡◌, ◌⊎◌, ◌&&◌, ℕ, ◌≤◌, IsTrue, List, [], ◌∷◌, All, map, IfOk, IfErr, MatchResult};
ghost use Rattle.age_error.specs.DecryptErrors.{OutOfMemory, decrypt_refusal};
ghost use Rattle.age_io.specs.Replies.{seen, replies, IsNoWant};
ghost use Rattle.age_v1.specs.Armor.{Carries};
ghost use Rattle.age_protocol.specs.OpeningFile.{StandsBefore};
ghost use Rattle.age_protocol.specs.Opened.{IsOpened, IsNotOpened, OfText, WasOpened, AnswersInTurn};
ghost use Rattle.age_error.specs.FileErrors.{DecryptsUnless, IsIoError, IsWant};
ghost use Rattle.age_v1.specs.Identities.{FirstAnswer, IsFileFor};

use crate::decryptor::Decryptor;
use crate::laws::{file_opens, front_is_accepted};
use age_armor::ArmoredReader;
use age_error::io::Error;
use age_error::{DecryptError, FileError};
use age_format::Identity;
use age_io::{Answer, BufReader, Op, Read, Seek, run};
use age_stream::reader::StreamReader;
use age_suite::suite::Suite;
use std::alloc::Global;

/// Opens the bare file that `bytes` gives from where it stands, which one of the identities decrypts: the reader of its plaintext.
///
/// Where what they give ends well and is a file for the identities, the reader stands before the file's plaintext, and it is refused
/// only for want of memory or after a fault of the device. So `run` on it answers reads and seeks as a cursor on the
/// plaintext. It refuses as `Decryptor::new`, and then no identity was asked, and as `Decryptor::decrypt`; they are gone then.
/// Over an `ArmoredReader` it opens a file in armor too.
pub fn open_file<S: Suite, I: Identity, T: Read + Drop>(
    alloc: Global,
    identities: &mut [I],
    bytes: T,
) -> Result<StreamReader<S, T>, DecryptError>
    ensures tells { let reader = ⟦<StreamReader<S, T> as Read>⟧ in IfOk result (λ stream. reader.tells stream ≡ (T.tells bytes && T.steady bytes)) }
    ensures faults { let reader = ⟦<StreamReader<S, T> as Read>⟧ in IfOk result (λ stream. T.faults bytes ≤ reader.faults stream) }
    // Of any bytes.
    ensures opened { IfOk result (λ stream. IsOpened I.unwraps identities.old identities.new bytes stream) }
    ensures refused { IfErr result (λ e.
        IsNotOpened I.unwraps ⟦<T as Read>⟧ identities.old identities.new bytes (decrypt_refusal e)) }
    // Of a file for the identities.
    ensures plaintext { IsTrue (T.tells bytes && T.steady bytes) → IsTrue (T.rest bytes).ends_well → (plain : List ℕ) →
        IsFileFor S.seal_of (FirstAnswer I.unwraps identities.old) plain (T.rest bytes).bytes →
        MatchResult result (λ stream. StandsBefore plain stream) (λ e. ((t : T) → T.faults t ≡ 0) → decrypt_refusal e ≡ OutOfMemory) }
{
    // Facts for the proof alone.
    front_is_accepted::<T>();
    file_opens::<S, T>();
    match Decryptor::<S, T>::new(alloc, bytes) {
        Err(error) => Err(error),
        Ok(decryptor) => decryptor.decrypt(alloc, identities),
    }
}

/// Opens the bare file that `bytes` gives from where it stands, which this identity decrypts: the reader of its plaintext.
///
/// It is `open_file` over a list of one, for where no list can be made: of a value of a type parameter it would take memory.
/// Where what the bytes give ends well and is a file for the identity, the reader stands before the file's plaintext, and it is
/// refused only for want of memory or after a fault of the device. It refuses as `Decryptor::new`, and then the identity wasn't
/// asked, and as `Decryptor::decrypt_one`; the bytes are gone then, and the identity is as its answer left it.
pub fn open_file_by_one<S: Suite, I: Identity, T: Read + Drop>(
    alloc: Global,
    identity: &mut I,
    bytes: T,
) -> Result<StreamReader<S, T>, DecryptError>
    ensures tells { let reader = ⟦<StreamReader<S, T> as Read>⟧ in IfOk result (λ stream. reader.tells stream ≡ (T.tells bytes && T.steady bytes)) }
    ensures faults { let reader = ⟦<StreamReader<S, T> as Read>⟧ in IfOk result (λ stream. T.faults bytes ≤ reader.faults stream) }
    // Of any bytes.
    ensures opened { IfOk result (λ stream. IsOpened I.unwraps (identity.old ∷ []) (identity.new ∷ []) bytes stream) }
    ensures refused { IfErr result (λ e.
        IsNotOpened I.unwraps ⟦<T as Read>⟧ (identity.old ∷ []) (identity.new ∷ []) bytes (decrypt_refusal e)) }
    // Of a file for the identity.
    ensures plaintext { IsTrue (T.tells bytes && T.steady bytes) → IsTrue (T.rest bytes).ends_well → (plain : List ℕ) →
        IsFileFor S.seal_of (FirstAnswer I.unwraps (identity.old ∷ [])) plain (T.rest bytes).bytes →
        MatchResult result (λ stream. StandsBefore plain stream) (λ e. ((t : T) → T.faults t ≡ 0) → decrypt_refusal e ≡ OutOfMemory) }
{
    // Facts for the proof alone.
    front_is_accepted::<T>();
    file_opens::<S, T>();
    match Decryptor::<S, T>::new(alloc, bytes) {
        Err(error) => Err(error),
        Ok(decryptor) => decryptor.decrypt_one(alloc, identity),
    }
}

/// Opens the file that `reader` gives from where it stands, bare or in armor, which one of the identities decrypts: the reader
/// of its plaintext.
///
/// Where what the reader still has ends well and carries a file for the identities, the answer stands before the file's
/// plaintext, and it is refused for want of memory alone, or after a fault of the device. Whatever the reader gives, a success
/// says that its text begins with a header and a nonce, that the first identity that answers gave the file key, under which
/// the header's MAC is right, and that nothing of the payload was read or opened; the identities after it weren't asked. It
/// refuses with `Decrypt` as `open_file` refuses what the text carries, by which fewer than 36 bytes are `UnexpectedEof`, whatever
/// they are; where no header and nonce begin it no identity was asked. With `Io` it refuses for want of memory alone, before
/// anything was read or asked. The reader is gone then.
pub fn open_text<S: Suite, I: Identity, R: Read + Drop>(
    alloc: Global,
    identities: &mut [I],
    reader: R,
) -> Result<StreamReader<S, ArmoredReader<BufReader<R>>>, FileError>
    ensures tells { let opened = ⟦<StreamReader<S, ArmoredReader<BufReader<R>>> as Read>⟧ in
        IfOk result (λ stream. opened.tells stream ≡ (R.tells reader && R.steady reader)) }
    ensures faults { let opened = ⟦<StreamReader<S, ArmoredReader<BufReader<R>>> as Read>⟧ in
        IfOk result (λ stream. R.faults reader ≤ opened.faults stream) }
    // Of any text.
    ensures opened { let armored = ⟦<ArmoredReader<BufReader<R>> as Read>⟧ in IfOk result (λ stream.
        OfText ⟦<R as Read>⟧ armored reader (λ text. IsOpened I.unwraps identities.old identities.new text stream)) }
    ensures refused { let armored = ⟦<ArmoredReader<BufReader<R>> as Read>⟧ in IfErr result (DecryptsUnless (λ refusal.
        OfText ⟦<R as Read>⟧ armored reader (λ text. IsNotOpened I.unwraps armored identities.old identities.new text refusal))) }
    ensures io { IfErr result (λ e. IsIoError e → IsWant e × (identities.new ≡ identities.old)) }
    // Of a text that carries a file for the identities.
    ensures plaintext { IsTrue (R.tells reader && R.steady reader) → IsTrue (R.rest reader).ends_well → (file plain : List ℕ) →
        Carries (R.rest reader).bytes file → IsFileFor S.seal_of (FirstAnswer I.unwraps identities.old) plain file →
        MatchResult result (λ stream. StandsBefore plain stream) (λ e. ((r : R) → R.faults r ≡ 0) → IsWant e) }
{
    let bytes = match ArmoredReader::new(alloc, reader) {
        Err(error) => return Err(FileError::Io(error)),
        Ok(bytes) => bytes,
    };
    match open_file::<S, I, ArmoredReader<BufReader<R>>>(alloc, identities, bytes) {
        Err(error) => Err(FileError::Decrypt(error)),
        Ok(stream) => Ok(stream),
    }
}

/// Does each read and seek in turn on the plaintext of the file, bare or in armor, that `reader` gives from where it stands, and
/// answers what came of each. One of the identities decrypts the file.
///
/// The reads and seeks go through three layers: `StreamReader` over `ArmoredReader` over `BufReader`. Where what the reader
/// still has ends well and carries a file for the identities, and its device never fails, the answers are those of a cursor on
/// the plaintext, as long as none of them is `OutOfMemory`, and nothing but want of memory is refused. Whatever the reader
/// gives, a success says that the text's file was opened as by `open_text`, with a right MAC, and that the answers came of these
/// reads and seeks in turn on its payload, with all that each of them promises. It refuses as `open_text` does, and with
/// `Io(OutOfMemory)` where the list of answers or the bytes in it couldn't grow: then no identity was asked, or the file was opened.
pub fn answers<S: Suite, I: Identity, R: Seek + Drop>(
    alloc: Global,
    identities: &mut [I],
    ops: &[Op],
    reader: R,
) -> Result<Vec<Answer>, FileError>
    ensures opened { let armored = ⟦<ArmoredReader<BufReader<R>> as Read>⟧ in IfOk result (λ answers.
        OfText ⟦<R as Read>⟧ armored reader (λ text. AnswersInTurn ⟦<S as Suite>⟧ armored I.unwraps identities.old identities.new text
        ⟦<ArmoredReader<BufReader<R>> as Seek>⟧.seek_refuses ops.now answers.items)) }
    ensures refused { let armored = ⟦<ArmoredReader<BufReader<R>> as Read>⟧ in IfErr result (DecryptsUnless (λ refusal.
        OfText ⟦<R as Read>⟧ armored reader (λ text. IsNotOpened I.unwraps armored identities.old identities.new text refusal))) }
    ensures io { let armored = ⟦<ArmoredReader<BufReader<R>> as Read>⟧ in
        IfErr result (λ e. IsIoError e → IsWant e × ((identities.new ≡ identities.old)
        ⊎ OfText ⟦<R as Read>⟧ armored reader (λ text. WasOpened ⟦<S as Suite>⟧ armored I.unwraps identities.old identities.new text))) }
    ensures cursor { IsTrue (R.tells reader && R.steady reader) → IsTrue (R.rest reader).ends_well → ((r : R) → R.faults r ≡ 0) →
        (file plain : List ℕ) → Carries (R.rest reader).bytes file → IsFileFor S.seal_of (FirstAnswer I.unwraps identities.old) plain file →
        MatchResult result (λ answers. All IsNoWant answers.items → map seen answers.items ≡ replies ops.now plain 0) IsWant }
{
    let mut stream = match open_text::<S, I, R>(alloc, identities, reader) {
        Err(error) => return Err(error),
        Ok(stream) => stream,
    };
    match run(alloc, &mut stream, ops) {
        Err(_) => Err(FileError::Io(Error::OutOfMemory)),
        Ok(answers) => Ok(answers),
    }
}
