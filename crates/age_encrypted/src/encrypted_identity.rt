//! A file of identities that is encrypted with a passphrase, before it is opened.
ghost use Rattle.std.specs.Prelude.{◌≡◌, ◌≤◌, IfOk, MatchOption, string_bytes};
ghost use Rattle.std.specs.Option.{option_map};
ghost use Rattle.std.specs.Result.{result_map_both};
ghost use Rattle.age_error.specs.DecryptErrors.{decrypt_refusal};
ghost use Rattle.age_format.specs.HeaderV1.{IsScrypt};
ghost use Rattle.age_v1.specs.Identities.{UnwrapAnswer, decided};
ghost use Rattle.age_protocol.specs.Decryptor.{header_of, nonce_of, input_of};
ghost use Rattle.age_protocol.specs.OpeningFile.{AnswersReader};
ghost use Rattle.age_protocol.specs.Passphrases.{UnwrapsPassphrase};
ghost use Rattle.age_identity.specs.IdentityFile.{entries_of, callbacks_of};
ghost use Rattle.age_encrypted.specs.Protected.{Opens, EntriesAreThose, description, of_passphrase, own_refusal, opened_by_asking, most_of};

use age_error::DecryptError;
use age_identity::identity::read_file;
use age_identity::{Callbacks, IdentityFile, NoCallbacks};
use age_io::Read;
use age_keys::scrypt;
use age_protocol::Decryptor;
use age_stream::reader::StreamReader;
use age_suite::secrecy::SecretString;
use age_suite::suite::Suite;
use std::alloc::{AllocError, Global};

// The front of a file of identities that is encrypted with a passphrase, its payload, which isn't read yet, and the work factors that are
// taken.
#[derive(Drop)]
pub(crate) struct Front<S, R: Drop> {
    decryptor: Decryptor<S, R>,
    target: u8,
    max_work_factor: Option<u8>,
    ghost bounded: { target ≤ 63 },
}

impl<S: Suite, R: Read + Drop> Front<S, R> {
    ghost use Rattle.age_encrypted.specs.EncryptedIdentity.{file_asked_by};

    // Asks those who are lent for the passphrase, once, and reads the identities of the file to its end.
    pub(crate) fn open_with<C: Callbacks>(
        self,
        alloc: Global,
        filename: Option<&str>,
        callbacks: &mut C,
    ) -> Result<IdentityFile<S, NoCallbacks>, DecryptError>
        ensures { Opens ⟦<S as Suite>⟧ ⟦<StreamReader<S, R> as Read>⟧ C.gives_passphrase (option_map (λ name. name.now) filename.entry)
            (file_asked_by self callbacks.old) (result_map_both (λ file. entries_of file) (λ e. decrypt_refusal e) result) callbacks.new }
    {
        let Front {
            decryptor,
            target,
            max_work_factor,
        } = self;
        let description = description_of(alloc, filename)?;
        let Some(passphrase) = callbacks.request_passphrase(description.as_str()) else {
            return Err(DecryptError::KeyDecryptionFailed);
        };
        let identity = identity_of(passphrase, target, max_work_factor);
        let stream = decrypted(alloc, decryptor, identity)?;
        let file = read_file(alloc, stream)?;
        Ok(file)
    }
}

/// The front of a file of identities that is encrypted with a passphrase, its payload, which isn't read yet, and who is asked for the
/// passphrase.
#[derive(Drop)]
pub struct EncryptedIdentity<S, R: Drop, C> {
    pub(crate) front: Front<S, R>,
    pub(crate) callbacks: C,
}

/// Why a file didn't open, and those who were asked. `?` makes the `DecryptError` of it, and lets them go.
#[derive(Drop)]
pub struct NotOpened<C> {
    /// Why it didn't.
    pub error: DecryptError,
    /// Those who were asked, as the one question left them.
    pub callbacks: C,
}

impl<C: Drop> From<NotOpened<C>> for DecryptError {
    ghost from_gives = { λ refused e. e ≡ refused.error };

    fn from(refused: NotOpened<C>) -> DecryptError {
        let NotOpened {
            error,
            callbacks: _,
        } = refused;
        error
    }
}

// Callbacks aren't known as such here, so none of them can be called.
impl<S, R: Drop, C: Drop> EncryptedIdentity<S, R, C> {
    ghost use Rattle.age_encrypted.specs.EncryptedIdentity.{protected_of, file_of};

    /// The file whose front a decryptor has read, if it is one of a passphrase: if its header's only stanza has the tag `scrypt`
    /// (age-encryption.org/v1, section "The scrypt recipient type"). Else `None`, and all that was handed in is gone.
    ///
    /// The passphrase is meant for a work factor of at most 63, a logarithm to base 2. Factors up to `max_work_factor` are taken, or,
    /// where that is `None`, up to four above the target. It takes no memory, and asks for nothing yet.
    pub fn new(
        decryptor: Decryptor<S, R>,
        callbacks: C,
        target: u8,
        max_work_factor: Option<u8>,
    ) -> Option<Self>
        requires { target ≤ 63 }
        ensures { MatchOption result (IsScrypt (header_of decryptor).stanzas → ⊥) (λ file. IsScrypt (header_of decryptor).stanzas
            × (protected_of file ≡ file_of decryptor callbacks target max_work_factor)) }
    {
        if !decryptor.is_scrypt() {
            return None;
        }
        let front = Front {
            decryptor,
            target,
            max_work_factor,
        };
        Some(EncryptedIdentity { front, callbacks })
    }
}

impl<S: Suite, R: Read + Drop, C: Callbacks> EncryptedIdentity<S, R, C> {
    ghost use Rattle.age_encrypted.specs.EncryptedIdentity.{protected_of, callbacks_left};

    /// Asks for the passphrase, once, and reads the identities of the file to its end, as `IdentityFile::from_buffer` does. Whoever asks
    /// is told the name of the file, where there is one. Nothing is displayed, and nothing else is asked, whatever the answer.
    ///
    /// # Errors
    ///
    /// - `KeyDecryptionFailed`: no passphrase was given, or the file isn't encrypted with it.
    /// - `InvalidHeader`, `ExcessiveWork`: as those of `scrypt::Identity`.
    /// - `InvalidMac`: the MAC of the header is wrong under the file key.
    /// - `Io`: the refusals of `IdentityFile::from_buffer`, and those of `StreamReader` where the payload is none.
    /// - `OutOfMemory`: memory was refused, perhaps before the passphrase was asked for.
    ///
    /// After a refusal the reader is gone. Those who were asked come back with the error, as that one question left them, or, where
    /// memory was refused before it, as they were.
    pub fn decrypt(
        self,
        alloc: Global,
        filename: Option<&str>,
    ) -> Result<IdentityFile<S, C>, NotOpened<C>>
        ensures opens { Opens ⟦<S as Suite>⟧ ⟦<StreamReader<S, R> as Read>⟧ C.gives_passphrase (option_map (λ name. name.now) filename.entry)
            (protected_of self)
            (result_map_both (λ file. entries_of file) (λ e. decrypt_refusal e.error) result) (callbacks_left result) }
        ensures entries { IfOk result (λ file. EntriesAreThose ⟦<S as Suite>⟧ ⟦<StreamReader<S, R> as Read>⟧ C.gives_passphrase
            (option_map (λ name. name.now) filename.entry) (protected_of self) (opened_by_asking (callbacks_of file) (entries_of file))) }
    {
        let EncryptedIdentity { front, callbacks } = self;
        let mut callbacks = callbacks;
        match front.open_with(alloc, filename, &mut callbacks) {
            Ok(file) => Ok(file.with_callbacks(callbacks)),
            Err(error) => Err(NotOpened { error, callbacks }),
        }
    }
}

// The words by which a passphrase is asked for.
fn description_of(alloc: Global, filename: Option<&str>) -> Result<String, AllocError>
    ensures { IfOk result (λ text. string_bytes text ≡ description (option_map (λ name. name.now) filename.entry)) }
{
    let mut text = String::from_str(alloc, "passphrase for encrypted identity ")?;
    if let Some(name) = filename {
        text.push_str(name)?;
    }
    Ok(text)
}

// The identity of a passphrase that takes work factors up to the largest.
fn identity_of<S>(
    passphrase: SecretString,
    target: u8,
    max_work_factor: Option<u8>,
) -> scrypt::Identity<S>
    requires { target ≤ 63 }
    ensures { result ≡ record { passphrase = passphrase; target = target; most = most_of target max_work_factor } }
{
    let mut identity = scrypt::Identity::new(passphrase, target);
    if let Some(most) = max_work_factor {
        identity.set_max_work_factor(most);
    }
    identity
}

// The plaintext of a file, by the identity of a passphrase. A passphrase that isn't that of the file has a refusal of its own.
fn decrypted<S: Suite, R: Read + Drop>(
    alloc: Global,
    decryptor: Decryptor<S, R>,
    identity: scrypt::Identity<S>,
) -> Result<StreamReader<S, R>, DecryptError>
    ensures { (answer : UnwrapAnswer)
        × UnwrapsPassphrase ⟦<S as Suite>⟧ identity (header_of decryptor).stanzas answer identity
        × AnswersReader (of_passphrase (decided answer)) (header_of decryptor) (nonce_of decryptor) (input_of decryptor) result }
{
    let mut identity = identity;
    match decryptor.decrypt_one(alloc, &mut identity) {
        Ok(stream) => Ok(stream),
        Err(e) => Err(named(e)),
    }
}

// The refusal of a passphrase that isn't that of the file, where it is one.
fn named(e: DecryptError) -> DecryptError
    ensures { decrypt_refusal result ≡ own_refusal (decrypt_refusal e) }
{
    match e {
        DecryptError::DecryptionFailed => DecryptError::KeyDecryptionFailed,
        other => other,
    }
}
