//! Encrypting a file.
ghost use Rattle.std.specs.Prelude.{◌≡◌, ◌≢◌, ◌≤◌, ℕ, List, [], ◌∷◌, ◌++◌, Some, None, Ok, IsTrue, IfOk, OnOk, IfErr};
ghost use Rattle.age_error.specs.Bytes.{AreBytes};
ghost use Rattle.age_error.specs.Refusals.{IsInterruption};
ghost use Rattle.age_error.specs.declared.io.Error.TheVariants.{OutOfMemory};
ghost use Rattle.age_protocol.specs.Answers.{encrypt_answer};
ghost use Rattle.age_v1.specs.Header.{header_text, IsHeader, KeepsScryptRule};
ghost use Rattle.age_v1.specs.Encrypting.{IsOrNoMemory, Prepares};
ghost use Rattle.age_v1.specs.Scrypt.{WrapsUnder};
ghost use Rattle.age_io.specs.Writing.{WritesAll, Retried, OrMemory};
ghost use Rattle.age_v1.specs.File.{file_text, IsFileOf};
ghost use Rattle.age_protocol.specs.Starting.{Starts, WritesFile, GivesUp};

use crate::encrypting::prepare;
use crate::keys::payload_key_of;
use age_error::bytes::{known_array, known_bytes};
use age_error::{EncryptError, io};
use age_format::{Grease, HeaderV1, Recipient, Stanza};
use age_io::{Write, write_all};
use age_keys::scrypt;
use age_stream::laws::payload_laws;
use age_stream::writer::{ChunkRoom, StreamWriter};
use age_suite::draw::Draw;
use age_suite::mac::mac_laws;
use age_suite::secrecy::{FileKey, SecretString};
use age_suite::suite::Suite;
use std::alloc::Global;
use std::marker::{Model, PhantomData};

/// All that a file's header and payload are made of but the plaintext: a file key, the stanzas that hold it, and the nonce
/// of the payload. In contracts it is a record of these three.
pub struct Encryptor<S> {
    header: HeaderV1,
    nonce: [u8; 16],
    file_key: FileKey,
    suite: PhantomData<S>,
}

impl<S> Model for Encryptor<S> {
    ghost use Rattle.age_v1.specs.Encrypting.{Prepared};
    ghost use Rattle.age_protocol.specs.Ready.{IsReady};

    ghost Value = { Prepared };

    ghost view = { λ e. record { file_key = e.file_key; stanzas = e.header.stanzas; nonce = e.nonce } };

    ghost invariant = { λ e. IsReady e.file_key e.header e.nonce };
}

// What a header is: a fact for proofs alone.
fn known_header(header: &HeaderV1)
    ensures { IsHeader header.now.stanzas header.now.mac }
{
    let _stanzas = header.stanzas();
}

/// What stands before the payload: the header's text and the nonce.
pub(crate) fn text_before_payload(
    alloc: Global,
    header: &HeaderV1,
    nonce: &[u8; 16],
) -> Result<Vec<u8>, io::Error>
    ensures text { IfOk result (λ text. text.items ≡ header_text header.now.stanzas header.now.mac ++ nonce.now) }
    ensures memory { IfErr result (λ e. e ≡ OutOfMemory) }
{
    let mut text = header.text(alloc)?;
    text.extend_from_slice(nonce)?;
    Ok(text)
}

// Writes what stands before the payload, once the memory for that and for a chunk is there.
fn write_front<W: Write>(
    alloc: Global,
    header: &HeaderV1,
    nonce: &[u8; 16],
    output: &mut W,
) -> Result<ChunkRoom, io::Error>
    ensures writes { WritesAll W.tells W.faults (OrMemory (Retried W.refuses)) W.appended output.old output.new
        (header_text header.now.stanzas header.now.mac ++ nonce.now) result }
    ensures patient { IfErr result (λ e. IsInterruption e → ⊥) }
    ensures bytes { OnOk result (AreBytes (header_text header.now.stanzas header.now.mac ++ nonce.now)) }
{
    let text = text_before_payload(alloc, header, nonce)?;
    // For the proof alone: these are bytes, each below 256.
    known_bytes(&text);
    let room = ChunkRoom::new(alloc)?;
    write_all(output, &text)?;
    Ok(room)
}

impl<S: Suite> Encryptor<S> {
    /// A file key of 16 bytes, drawn and wrapped for all recipients in their order, and then a nonce of 16 bytes.
    ///
    /// Where no recipient answered a stanza with the tag `scrypt`, the grease is the header's last stanza. The refusals, in
    /// the order in which they are looked for:
    ///
    /// - `ShortRandom`: fewer than 16 bytes are left for the file key.
    /// - that of the first recipient that refuses; those after it aren't asked.
    /// - `InvalidRecipientLabels`: a label of the first recipient isn't a string of bytes 33 to 126. A recipient's labels
    ///   are looked at before the next one is asked.
    /// - `IncompatibleRecipients`: a later recipient's labels aren't the same set as the first one's;
    ///   `MixedRecipientAndPassphrase` where this is so and a stanza so far has the tag `scrypt`.
    /// - `MissingRecipients`: there is no recipient.
    /// - `MixedRecipientAndPassphrase`: a stanza with the tag `scrypt` stands beside another.
    /// - `ShortRandom`: fewer than 16 bytes are left for the nonce.
    ///
    /// `OutOfMemory` can come where a recipient's stanzas are joined to those before, where the grease is, and where the
    /// header is made. After a refusal `draw` has lost what was taken before it.
    ///
    /// The recipients are of one type: `Box<dyn Recipient>` for several of different types, `&R` for one that is borrowed.
    pub fn with_recipients<R: Recipient>(
        alloc: Global,
        recipients: &[R],
        draw: &mut Draw,
        grease: Grease,
    ) -> Result<Encryptor<S>, EncryptError>
        ensures { Prepares R.wraps recipients.now (Some grease) draw.old (encrypt_answer result) draw.new }
    {
        prepare(alloc, recipients, draw, Some(grease))
    }

    /// `with_recipients` for the one recipient of a passphrase, `scrypt::Recipient`, with a work factor from 1 to 63
    /// (age-encryption.org/v1, "The scrypt recipient type"): the suite's scrypt works on 2^`log_n` blocks. The header has the
    /// recipient's stanza alone, and no grease.
    ///
    /// A file key of 16 bytes is drawn, then a salt of 16, a label of 24 and a nonce of 16. The refusals, in the order in which they
    /// are looked for:
    ///
    /// - `ShortRandom`: fewer bytes are left than the file key, the salt or the label takes next.
    /// - `WorkFactorRefused`: the suite doesn't accept the work factor.
    /// - `ShortRandom`: fewer than 16 bytes are left for the nonce.
    ///
    /// `OutOfMemory` can come where the passphrase is stretched, where the stanza and its label are made or kept, and where the
    /// header is made. After a refusal `draw` has lost what was taken before it.
    pub fn with_user_passphrase(
        alloc: Global,
        passphrase: SecretString,
        log_n: u8,
        draw: &mut Draw,
    ) -> Result<Encryptor<S>, EncryptError>
        requires some { 1 ≤ log_n }
        requires most { log_n ≤ 63 }
        ensures { Prepares (WrapsUnder S.seal_of S.stretch_of S.accepts) (record { passphrase = passphrase; factor = log_n } ∷ []) None
            draw.old (encrypt_answer result) draw.new }
    {
        let recipient = scrypt::Recipient::<S>::new(passphrase, log_n);
        prepare(alloc, &[recipient], draw, None)
    }

    // With the canonical header of the stanzas, whose MAC is that under the file key.
    pub(crate) fn with_header(
        alloc: Global,
        file_key: FileKey,
        stanzas: Vec<Stanza>,
        nonce: [u8; 16],
    ) -> Result<Encryptor<S>, EncryptError>
        requires some { stanzas.items ≢ [] }
        requires rule { KeepsScryptRule stanzas.items }
        ensures { IsOrNoMemory (Ok (record { file_key = file_key; stanzas = stanzas.items; nonce = nonce })) (encrypt_answer result) }
    {
        let header = HeaderV1::new(alloc, stanzas, &file_key)?;
        // Facts for the proof alone.
        known_header(&header);
        known_array(&nonce);
        Ok(Encryptor {
            header,
            nonce,
            file_key,
            suite: PhantomData,
        })
    }

    /// Writes the header and the nonce to `output`, and answers a writer that takes the plaintext, and writes its payload
    /// after them. The file is whole only after the writer's `finish` or `close`.
    ///
    /// Its memory is taken first: the text of the header, and room for one chunk of 65,536 bytes. Where it is refused that
    /// it answers `OutOfMemory` and has written nothing. Any other refusal is that of the output, or `WriteZero` where that
    /// took no byte; a beginning of header and nonce was then written. Interruptions are retried as by `write_all`. `output`
    /// is gone after a refusal.
    pub fn wrap_output<W: Write + Drop>(
        self,
        alloc: Global,
        output: W,
    ) -> Result<StreamWriter<S, W>, io::Error>
        ensures starts { IfOk result (Starts W.tells W.faults W.refuses W.appended self output) }
        ensures file { IsTrue (W.tells output) → IfOk result (WritesFile S.seal_of W.appended ⟦<StreamWriter<S, W> as Write>⟧.appended self output) }
        // By the definition of a file that decryptors are proved by, what it writes is one.
        ensures is_file { OnOk result ((plain : List ℕ) →
            IsFileOf S.seal_of self.file_key self.stanzas plain (file_text S.seal_of self.file_key self.stanzas self.nonce plain)) }
        ensures bytes { OnOk result ((plain : List ℕ) → AreBytes plain → AreBytes (file_text S.seal_of self.file_key self.stanzas self.nonce plain)) }
        ensures refused { IfErr result (λ e. (last : W) × GivesUp W.tells W.faults W.refuses W.appended self output last e) }
        ensures patient { IfErr result (λ e. IsInterruption e → ⊥) }
    {
        match self.begin(alloc, output) {
            Ok(writer) => Ok(writer),
            Err((_output, error)) => Err(error),
        }
    }

    /// `wrap_output`, which hands `output` back beside the refusal. It refuses as `wrap_output` does, and leaves what that leaves.
    pub fn begin<W: Write>(
        self,
        alloc: Global,
        output: W,
    ) -> Result<StreamWriter<S, W>, (W, io::Error)>
        ensures starts { IfOk result (Starts W.tells W.faults W.refuses W.appended self output) }
        ensures file { IsTrue (W.tells output) → IfOk result (WritesFile S.seal_of W.appended ⟦<StreamWriter<S, W> as Write>⟧.appended self output) }
        ensures is_file { OnOk result ((plain : List ℕ) →
            IsFileOf S.seal_of self.file_key self.stanzas plain (file_text S.seal_of self.file_key self.stanzas self.nonce plain)) }
        ensures bytes { OnOk result ((plain : List ℕ) → AreBytes plain → AreBytes (file_text S.seal_of self.file_key self.stanzas self.nonce plain)) }
        ensures refused { IfErr result (λ back. GivesUp W.tells W.faults W.refuses W.appended self output back.0 back.1) }
        ensures patient { IfErr result (λ back. IsInterruption back.1 → ⊥) }
    {
        // Facts for the proof alone.
        payload_laws::<S>();
        mac_laws();
        let mut output = output;
        match write_front(alloc, &self.header, &self.nonce, &mut output) {
            Ok(room) => {
                let key = payload_key_of(&self.file_key, &self.nonce);
                Ok(StreamWriter::with_room(room, key, output))
            }
            Err(error) => Err((output, error)),
        }
    }
}

impl<S> Drop for Encryptor<S> {
    fn drop(self) {
        let Encryptor {
            header: _,
            nonce: _,
            file_key: _,
            suite: _,
        } = self;
    }
}
