//! Decrypting a file.
ghost use Rattle.std.specs.Prelude.{Ok};
ghost use Rattle.age_v1.specs.Identities.{UnwrapAnswer, Unwraps, FirstThatAnswers, decided};
ghost use Rattle.age_protocol.specs.OpeningFile.{AnswersReader};

use crate::answering::{file_key_by_one, file_key_of};
use crate::front::read_nonce;
use crate::keys::payload_key_of;
use age_error::DecryptError;
use age_format::{HeaderV1, Identity};
use age_io::{BufRead, Read};
use age_stream::reader::StreamReader;
use age_suite::secrecy::FileKey;
use age_suite::suite::Suite;
use std::alloc::Global;
use std::marker::PhantomData;

/// The header and the nonce of a file that were read from its front, and the reader, which stands before the payload.
pub struct Decryptor<S, R> {
    input: R,
    header: HeaderV1,
    nonce: [u8; 16],
    suite: PhantomData<S>,
}

impl<S: Suite, R: Read + Drop> Decryptor<S, R> {
    ghost use Rattle.age_protocol.specs.Decryptor.{header_of, nonce_of, input_of, OpensFront};

    /// Reads the header and the nonce of 16 bytes from the front of the input, and no byte after them.
    ///
    /// The refusals, in the order in which they are looked for: those of `HeaderV1::read`; where fewer than 16 bytes follow
    /// the header `Io(UnexpectedEof)`, or the reader's own refusal where it doesn't end well; `InvalidHeader` where a stanza
    /// with the tag `scrypt` stands beside another. `OutOfMemory` where memory is refused. After a refusal the reader is gone.
    pub fn new(alloc: Global, input: R) -> Result<Self, DecryptError>
        ensures { OpensFront ⟦<R as Read>⟧ input result }
    {
        let mut input = input;
        let header = HeaderV1::read(alloc, &mut input)?;
        let nonce = read_nonce(&mut input, header.stanzas())?;
        Ok(Decryptor {
            input,
            header,
            nonce,
            suite: PhantomData,
        })
    }

    /// A reader of the plaintext, by the file key that the identities get from the header's stanzas.
    ///
    /// The identities are asked in their order. The first whose answer isn't `None` decides: its refusal is the answer, and
    /// those after it aren't asked. `NoMatchingKeys` where none answers, and `InvalidMac` where the header's MAC isn't the
    /// one under the file key. `OutOfMemory` where memory for one sealed chunk, 65,552 bytes, is refused. Nothing of the
    /// payload is read yet. After a refusal the input is gone.
    pub fn decrypt<I: Identity>(
        self,
        alloc: Global,
        identities: &mut [I],
    ) -> Result<StreamReader<S, R>, DecryptError>
        ensures { (answer : UnwrapAnswer)
            × FirstThatAnswers (λ identity answer after. Unwraps I.unwraps identity (header_of self).stanzas answer after) identities.old answer
            identities.new
            × AnswersReader (decided answer) (header_of self) (nonce_of self) (input_of self) result }
    {
        match file_key_of(alloc, identities, self.header.stanzas()) {
            Ok(file_key) => self.decrypt_with(alloc, &file_key),
            Err(error) => Err(error),
        }
    }

    /// `decrypt` with one identity: its answer decides.
    ///
    /// The refusals are the identity's own, `NoMatchingKeys` where it answers `None`, and those of `decrypt` after that.
    pub fn decrypt_one<I: Identity>(
        self,
        alloc: Global,
        identity: &mut I,
    ) -> Result<StreamReader<S, R>, DecryptError>
        ensures { (answer : UnwrapAnswer)
            × Unwraps I.unwraps identity.old (header_of self).stanzas answer identity.new
            × AnswersReader (decided answer) (header_of self) (nonce_of self) (input_of self) result }
    {
        match file_key_by_one(alloc, identity, self.header.stanzas()) {
            Ok(file_key) => self.decrypt_with(alloc, &file_key),
            Err(error) => Err(error),
        }
    }

    // With the file key of the identity that decides.
    fn decrypt_with(
        self,
        alloc: Global,
        file_key: &FileKey,
    ) -> Result<StreamReader<S, R>, DecryptError>
        ensures { AnswersReader (Ok file_key.now) (header_of self) (nonce_of self) (input_of self) result }
    {
        let Decryptor {
            input,
            header,
            nonce,
            suite: _,
        } = self;
        if !header.verify_mac(file_key) {
            return Err(DecryptError::InvalidMac);
        }
        let key = payload_key_of(file_key, &nonce);
        let reader = StreamReader::with_payload_key(alloc, key, input)?;
        Ok(reader)
    }
}

impl<S: Suite, R: BufRead + Drop> Decryptor<S, R> {
    ghost use Rattle.age_protocol.specs.Decryptor.{OpensFront};

    /// Reads the header and the nonce of 16 bytes, as `new` does, from a reader with a buffer of its own, which stands exactly after
    /// the nonce then.
    ///
    /// `new` takes the header byte by byte, and here each of these reads is one of the buffer. What the reader holds of the
    /// payload it still holds afterwards, so nothing that it read ahead is lost. The refusals are those of `new`, in the same
    /// order. After a refusal the reader is gone.
    pub fn new_buffered(alloc: Global, input: R) -> Result<Self, DecryptError>
        ensures { OpensFront ⟦<R as Read>⟧ input result }
    {
        Decryptor::new(alloc, input)
    }
}

impl<S, R> Decryptor<S, R> {
    ghost use Rattle.std.specs.Prelude.{◌↔◌, IsTrue};
    ghost use Rattle.age_format.specs.HeaderV1.{IsScrypt};
    ghost use Rattle.age_protocol.specs.Decryptor.{header_of};

    /// Whether the file is one of a passphrase: whether its header's only stanza has the tag `scrypt` (age-encryption.org/v1,
    /// "The scrypt recipient type"). It takes no memory.
    pub fn is_scrypt(&self) -> bool
        ensures { IsTrue result ↔ IsScrypt (header_of self.now).stanzas }
    {
        self.header.is_scrypt()
    }
}

impl<S, R: Drop> Drop for Decryptor<S, R> {
    fn drop(self) {
        let Decryptor {
            input: _,
            header: _,
            nonce: _,
            suite: _,
        } = self;
    }
}
