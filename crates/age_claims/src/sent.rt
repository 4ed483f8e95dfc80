//! What lies below a writer of a payload or of a bare file, whatever a write or a copy to it answers.
ghost use Rattle.std.specs.Prelude.{IsTrue, OnOk};
ghost use Rattle.age.specs.Copying.{AppendsFront};
ghost use Rattle.age.specs.File.{file_text};
ghost use Rattle.age.specs.StreamWriting.{inner_of};
ghost use Rattle.age_claims.specs.Claims.{HasBegun};

use age::Encryptor;
use age::io::{Error, Read, Write, copy_all};
use age::stream::StreamWriter;
use age::stream::laws::sent_law;
use age::suite::Suite;
use std::alloc::Global;

/// Gives bytes to a `StreamWriter` that was made under a key and took a plaintext since, over a writer that tells its bytes.
///
/// Whatever it answers, the writer below was given a beginning of the payload of that plaintext and these bytes, and nothing else,
/// also where the `StreamWriter` had failed before.
pub fn sent_so_far<S: Suite, W: Write>(
    writer: &mut StreamWriter<S, W>,
    bytes: &[u8],
) -> Result<usize, Error>
    ensures { IsTrue (W.tells (inner_of writer.old)) →
        HasBegun S.seal_of W.appended ⟦<StreamWriter<S, W> as Write>⟧.appended writer.old bytes.now writer.new }
{
    // A fact for the proof alone.
    sent_law::<S, W>();
    writer.write(bytes)
}

/// Copies what a reader still has to a `StreamWriter` that was made under a key and took a plaintext since, over a writer that tells its
/// bytes; the reader does too.
///
/// Whatever it answers, the writer below was given a beginning of the payload of that plaintext and of what the reader had, and nothing
/// else, also where the reader or the writer below failed midway, and where the `StreamWriter` had failed before. It refuses as `copy_all`
/// does.
pub fn copied_so_far<S: Suite, R: Read, W: Write>(
    alloc: Global,
    reader: &mut R,
    writer: &mut StreamWriter<S, W>,
) -> Result<(), Error>
    ensures { IsTrue (R.tells reader.old) → IsTrue (W.tells (inner_of writer.old)) →
        HasBegun S.seal_of W.appended ⟦<StreamWriter<S, W> as Write>⟧.appended writer.old (R.rest reader.old).bytes writer.new }
{
    // A fact for the proof alone.
    sent_law::<S, W>();
    copy_all(alloc, reader, writer)
}

/// Writes the bare file of what a reader still has, as it was prepared, and hands the output back, with what came of it. Reader and output
/// tell their bytes. It refuses as `Encryptor::begin`, `copy_all` or `StreamWriter::close` does.
///
/// - `begun`: whatever came of it, the output was given a beginning of the file of what the reader had, and nothing else, also where the
///   reader or the output failed midway.
/// - `whole`: a success says that what the reader had ended well, and that the output was given all of its file.
pub fn encrypted_so_far<S: Suite, R: Read, W: Write>(
    alloc: Global,
    encryptor: Encryptor<S>,
    reader: &mut R,
    output: W,
) -> (W, Result<(), Error>)
    ensures begun { IsTrue (R.tells reader.old) → IsTrue (W.tells output) → AppendsFront W.appended
        (file_text S.seal_of encryptor.file_key encryptor.stanzas encryptor.nonce (R.rest reader.old).bytes) output result.0 }
    ensures whole { IsTrue (R.tells reader.old) → IsTrue (W.tells output) → OnOk result.1 (IsTrue (R.rest reader.old).ends_well
        × W.appended output (file_text S.seal_of encryptor.file_key encryptor.stanzas encryptor.nonce (R.rest reader.old).bytes) result.0) }
{
    // A fact for the proof alone.
    sent_law::<S, W>();
    match encryptor.begin(alloc, output) {
        Err((output, error)) => (output, Err(error)),
        Ok(mut writer) => match copy_all(alloc, reader, &mut writer) {
            Err(error) => (writer.into_inner(), Err(error)),
            Ok(()) => {
                let closed = writer.close();
                (writer.into_inner(), closed)
            }
        },
    }
}
