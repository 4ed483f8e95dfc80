//! What the tests share.

use age::draw::Draw;
use age::format::Stanza;
use age::io::{BufRead, Bytes, Error, Read, write_all};
use age::secrecy::{FileKey, SecretString};
use age::x25519::Identity;
use age::{DecryptError, Encryptor, Recipient as _};
use age_bench::suite::BenchSuite;
use age_identity::{Callbacks, IdentityFile, NoCallbacks};
use std::alloc::{AllocError, Global};
use std::str::FromStr;
use std::test::Fail;
use test_support::fixtures::{armored, plaintext};

/// An identity that the crate `age` has in its own tests.
pub const K: &str = "AGE-SECRET-KEY-1GQ9778VQXMMJVE8SK7J6VT8UJ4HDQAJUVSFCWCM02D8GEWQ72PVQ2Y5J33";

/// Parts of a text, where `@` stands for `K` and `^` for the end of a line.
pub fn text_of(alloc: Global, form: &[u8], end: &[u8]) -> Result<Vec<u8>, Fail> {
    let mut text = Vec::new(alloc);
    for byte in form {
        let part = match *byte {
            b'@' => K.as_bytes(),
            b'^' => end,
            _ => std::slice::from_ref(byte),
        };
        text.extend_from_slice(part)?;
    }
    Ok(text)
}

/// A file of identities.
pub type File = IdentityFile<BenchSuite, NoCallbacks>;

/// What is asked of whoever knows the passphrase of a file of this name.
pub const QUESTION: &str = "passphrase for encrypted identity key.age";

/// How often one who knows a passphrase was asked, and how often it was shown that no key matches.
#[derive(Clone, Copy)]
pub struct Counts {
    pub asked: u8,
    pub shown: u8,
}

/// The counts at first.
pub const NEVER: Counts = Counts { asked: 0, shown: 0 };

/// Whether the counts are these.
pub fn counted(counts: &Counts, asked: u8, shown: u8) -> bool {
    counts.asked == asked && counts.shown == shown
}

/// One who gives a passphrase, if it has one, the first time that it is asked this question, and nothing else. It counts what is asked
/// and what is shown.
#[derive(Drop)]
pub struct Knows<'a> {
    pub passphrase: Option<SecretString>,
    pub question: &'static str,
    pub counts: &'a mut Counts,
}

impl<'a> Callbacks for Knows<'a> {
    ghost use Rattle.std.specs.Prelude.{⊤};

    ghost displays = { λ _ _ _. ⊤ };

    ghost confirms = { λ _ _ _ _ _ _. ⊤ };

    ghost gives_string = { λ _ _ _ _. ⊤ };

    ghost gives_passphrase = { λ _ _ _ _. ⊤ };

    fn display_message(&mut self, message: &str) {
        if message == "no key of the encrypted identity matches" {
            self.counts.shown = self.counts.shown.saturating_add(1);
        }
    }

    fn confirm(&mut self, _message: &str, _yes: &str, _no: Option<&str>) -> Option<bool> {
        None
    }

    fn request_public_string(&mut self, _description: &str) -> Option<String> {
        None
    }

    fn request_passphrase(&mut self, description: &str) -> Option<SecretString> {
        self.counts.asked = self.counts.asked.saturating_add(1);
        if description != self.question {
            return None;
        }
        self.passphrase.take()
    }
}

/// A passphrase, where there is one.
pub fn secret(alloc: Global, text: Option<&str>) -> Result<Option<SecretString>, AllocError> {
    match text {
        None => Ok(None),
        Some(text) => Ok(Some(SecretString::from(String::from_str(alloc, text)?))),
    }
}

/// One who gives a passphrase, if there is one, to the question for the file `key.age`.
pub fn one_who_knows<'a>(
    alloc: Global,
    text: Option<&str>,
    counts: &'a mut Counts,
) -> Result<Knows<'a>, AllocError> {
    Ok(Knows {
        passphrase: secret(alloc, text)?,
        question: QUESTION,
        counts,
    })
}

// What encrypts for the passphrase `foobar` with the work factor 10.
fn encryptor(alloc: Global) -> Result<Encryptor<BenchSuite>, Fail> {
    let mut draw = Draw::new(plaintext(alloc, 72)?);
    let passphrase = SecretString::from(String::from_str(alloc, "foobar")?);
    Ok(Encryptor::with_user_passphrase(alloc, passphrase, 10, &mut draw)?)
}

/// A text under the passphrase `foobar` with the work factor 10.
pub fn protected(alloc: Global, text: &[u8]) -> Result<Vec<u8>, Fail> {
    let mut writer = encryptor(alloc)?.wrap_output(alloc, Vec::new(alloc))?;
    write_all(&mut writer, text)?;
    Ok(writer.finish()?)
}

/// `K` and LF under that passphrase.
pub fn protected_key(alloc: Global) -> Result<Vec<u8>, Fail> {
    let mut text = Vec::from_slice(alloc, K.as_bytes())?;
    text.push(b'\n')?;
    protected(alloc, text.as_slice())
}

// Its stanza has the work factor 10. Nobody knows the passphrase.
const PROTECTED_HEADER: &[u8] =
    b"age-encryption.org/v1\n-> scrypt skb8GKz/cKOk8piHM4FF1Q 10\nAAAAAAAAAAAAAAAAAAAAAAAAAAAAAAAAAAAAAAAAAAA\n--- AAAAAAAAAAAAAAAAAAAAAAAAAAAAAAAAAAAAAAAAAAA\n";

/// The armor of a file of identities that nobody has the passphrase of.
pub fn protected_by_nobody(alloc: Global) -> Result<Vec<u8>, Fail> {
    let mut bytes = Vec::from_slice(alloc, PROTECTED_HEADER)?;
    bytes.extend_from_slice(&[0; 32])?;
    Ok(armored(alloc, bytes.as_slice())?)
}

/// Whether a text is refused so as a file.
pub fn refuses_file(alloc: Global, text: &[u8], error: Error) -> bool {
    File::from_buffer(alloc, Bytes::new(text)).err() == Some(error)
}

// Stanzas of a file key of sevens for the recipient of an identity.
fn stanzas_for(alloc: Global, identity: &Identity<BenchSuite>) -> Result<Vec<Stanza>, Fail> {
    let mut draw = Draw::new(Vec::from_slice(alloc, &[9; 32])?);
    let file_key = FileKey::new([7; 16]);
    let (stanzas, _labels) = identity
        .to_public()
        .wrap_file_key(alloc, &file_key, &mut draw)?;
    Ok(stanzas)
}

/// Those for the recipient of `K`.
pub fn own_stanzas(alloc: Global) -> Result<Vec<Stanza>, Fail> {
    match Identity::from_str(K) {
        Ok(identity) => stanzas_for(alloc, &identity),
        Err(text) => Err(Fail::from(text)),
    }
}

/// Those for the recipient of a secret of ones.
pub fn other_stanzas(alloc: Global) -> Result<Vec<Stanza>, Fail> {
    let mut draw = Draw::new(Vec::from_slice(alloc, &[1; 32])?);
    match Identity::generate(&mut draw) {
        Some(identity) => stanzas_for(alloc, &identity),
        None => Err(Fail::from("too few random bytes")),
    }
}

// Whether an identity prints `K`.
fn prints_k(alloc: Global, identity: &Identity<BenchSuite>) -> Result<bool, Fail> {
    Ok(identity.to_string(alloc)?.expose_secret() == K)
}

/// How many identities a file has, each of which prints `K`.
pub fn count<C: Drop>(alloc: Global, file: IdentityFile<BenchSuite, C>) -> Result<usize, Fail> {
    let identities = file.into_identities(alloc)?;
    for identity in identities.as_slice() {
        if !prints_k(alloc, identity)? {
            return Err(Fail::from("another identity"));
        }
    }
    Ok(identities.len())
}

/// What an identity answers to stanzas.
pub type Answer = Option<Result<FileKey, DecryptError>>;

/// Whether an answer is the file key of sevens.
pub fn is_key(answer: &Answer) -> bool {
    match answer {
        Some(Ok(file_key)) => file_key.expose_secret() == &[7; 16],
        _ => false,
    }
}

/// Whether an answer is that the file isn't opened by what was given.
pub fn is_closed(answer: &Answer) -> bool {
    matches!(answer, Some(Err(DecryptError::KeyDecryptionFailed)))
}

/// Whether an answer is that a plugin's program is missing.
pub fn is_missing_plugin(answer: &Answer) -> bool {
    matches!(answer, Some(Err(DecryptError::PluginResolve(_))))
}

/// Whether a read into some room answers this.
pub fn reads<R: Read>(reader: &mut R, room: &mut [u8], answer: Result<usize, Error>) -> bool {
    reader.read(room) == answer
}

/// Whether a reader that shows refuses with this.
pub fn refuses<R: BufRead>(reader: &mut R, error: Error) -> bool {
    match reader.fill_buf() {
        Ok(_) => false,
        Err(refusal) => refusal == error,
    }
}

/// Whether a reader shows these bytes.
pub fn shows<R: BufRead>(reader: &mut R, bytes: &[u8]) -> bool {
    match reader.fill_buf() {
        Ok(front) => front == bytes,
        Err(_) => false,
    }
}
