//! Identities whose file is encrypted with a passphrase.
ghost use Rattle.std.specs.Prelude.{◌≡◌, ◌≤◌, List, Result, string_bytes};
ghost use Rattle.std.specs.Option.{option_map};
ghost use Rattle.std.specs.Result.{result_map_both};
ghost use Rattle.age_error.specs.DecryptErrors.{DecryptRefusal, OutOfMemory, decrypt_refusal};
ghost use Rattle.age_error.specs.EncryptErrors.{encrypt_refusal};
ghost use Rattle.age_format.specs.Unwrapping.{unwrap_answer};
ghost use Rattle.age_v1.specs.Identities.{Unwraps};
ghost use Rattle.age_identity.specs.Asking.{EntriesAnswer};
ghost use Rattle.age_identity.specs.Entries.{Entry};
ghost use Rattle.age_identity.specs.IdentityFile.{entries_of};
ghost use Rattle.age_v1.specs.X25519.{UnwrapsBy};
ghost use Rattle.age_protocol.specs.Decryptor.{OpensFront};
ghost use Rattle.age_protocol.specs.declared.decryptor.Decryptor.{Decryptor as DecryptorValue};
ghost use Rattle.age_encrypted.specs.Protected.{Opens};
ghost use Rattle.age_encrypted.specs.EncryptedIdentity.{file_asked_by};
ghost use Rattle.age_encrypted.specs.Identity.{IsMadeOf, filename_of, of_state, state_of};
ghost use Rattle.age_encrypted.specs.ProtectedIdentity.{is_encrypted, state_after, GivesRecipients, OpensOnce, Repeats, Shows, Uses};

use crate::encrypted_identity::{EncryptedIdentity, Front};
use age_error::{DecryptError, EncryptError};
use age_format::Stanza;
use age_identity::identity::answer_of;
use age_identity::{Callbacks, IdentityFile, NoCallbacks};
use age_io::Read;
use age_keys::x25519;
use age_protocol::Decryptor;
use age_stream::reader::StreamReader;
use age_suite::secrecy::FileKey;
use age_suite::suite::Suite;
use std::alloc::Global;
use std::{mem, slice};

// What became of a file.
#[derive(Drop)]
enum IdentityState<S, R: Drop> {
    // Nothing was tried yet.
    Encrypted(Front<S, R>),
    // The file was opened.
    Decrypted(IdentityFile<S, NoCallbacks>),
    // It wasn't to be opened, and never will be.
    Failed(DecryptError),
}

/// The identities in a file that is encrypted with a passphrase.
///
/// The first use asks for the passphrase and opens the file. If that fails, each later use answers the same, and nobody is asked again:
/// those who were asked stay as the one question left them.
#[derive(Drop)]
pub struct Identity<S, R: Drop, C> {
    state: IdentityState<S, R>,
    callbacks: C,
    filename: Option<String>,
}

// Callbacks aren't known as such here, so none of them can be called.
impl<S: Suite, R: Read + Drop, C: Drop> Identity<S, R, C> {
    /// The identities of a file whose header and nonce are read now, by `Decryptor::new`, if it is one of a passphrase. Else `None`, and
    /// all that was handed in is gone. A file in armor is read through an `ArmoredReader`.
    ///
    /// Whoever asks for the passphrase is told the name of the file, where there is one. Work factors up to `max_work_factor` are taken,
    /// or, where that is `None`, up to four above the target, which is at most 63. Nobody is asked yet.
    ///
    /// # Errors
    ///
    /// Those of `Decryptor::new`. After a refusal all that was handed in is gone.
    pub fn from_buffer(
        alloc: Global,
        data: R,
        filename: Option<String>,
        callbacks: C,
        target: u8,
        max_work_factor: Option<u8>,
    ) -> Result<Option<Self>, DecryptError>
        requires { target ≤ 63 }
        ensures { (made : Result (DecryptorValue S R) DecryptError) × OpensFront ⟦<R as Read>⟧ «data» made
            × IsMadeOf made (option_map (λ text. string_bytes text) filename) callbacks target max_work_factor result }
    {
        let decryptor = Decryptor::new(alloc, data)?;
        let Some(file) = EncryptedIdentity::new(decryptor, callbacks, target, max_work_factor)
        else {
            return Ok(None);
        };
        let EncryptedIdentity { front, callbacks } = file;
        Ok(Some(Identity {
            state: IdentityState::Encrypted(front),
            callbacks,
            filename,
        }))
    }
}

impl<S: Suite, R: Read + Drop, C: Callbacks> Identity<S, R, C> {
    /// The recipients of the identities, in the order of the file. It opens the file if nothing did yet, and shows no message.
    ///
    /// # Errors
    ///
    /// - `EncryptedIdentities`: the file isn't to be opened. It is what `EncryptedIdentity::decrypt` refused with, in this use or in the
    ///   first.
    /// - those of `IdentityFile::to_recipients`: a plugin's identity, or want of memory. The file stays open.
    pub fn recipients(&mut self, alloc: Global) -> Result<Vec<x25519::Recipient<S>>, EncryptError>
        ensures opens { OpensOnce ⟦<S as Suite>⟧ ⟦<StreamReader<S, R> as Read>⟧ C.gives_passphrase (filename_of self.old) (state_of self.old)
            (state_of self.new) }
        ensures recipients { GivesRecipients S.public_of (state_of self.new)
            (result_map_both (λ recipients. recipients.items) (λ e. encrypt_refusal e) result) }
        ensures name { filename_of self.new ≡ filename_of self.old }
    {
        self.open(alloc);
        match &self.state {
            // `open` leaves a file that is open or has failed.
            IdentityState::Encrypted(_) => unreachable!(),
            IdentityState::Decrypted(file) => file.to_recipients(alloc),
            IdentityState::Failed(e) => Err(EncryptError::EncryptedIdentities(e.clone()?)),
        }
    }

    // Opens the file, if nothing was tried yet. Whether it did.
    fn open(&mut self, alloc: Global) -> bool
        ensures opens { OpensOnce ⟦<S as Suite>⟧ ⟦<StreamReader<S, R> as Read>⟧ C.gives_passphrase (filename_of self.old) (state_of self.old)
            (state_of self.new) }
        ensures first { result ≡ is_encrypted (state_of self.old) }
        ensures name { filename_of self.new ≡ filename_of self.old }
    {
        // To open the file takes the state; another stands there meanwhile, which nobody sees.
        let failed = IdentityState::Failed(DecryptError::KeyDecryptionFailed);
        match mem::replace(&mut self.state, failed) {
            IdentityState::Encrypted(front) => {
                let name = name_of(&self.filename);
                self.state = opened(alloc, front, name, &mut self.callbacks);
                true
            }
            other => {
                self.state = other;
                false
            }
        }
    }

    // What the file answers to stanzas.
    fn answer(&mut self, alloc: Global, stanzas: &[Stanza]) -> Option<Result<FileKey, DecryptError>>
        ensures uses { Uses ⟦<S as Suite>⟧ ⟦<StreamReader<S, R> as Read>⟧ C.gives_passphrase (filename_of self.old) C.displays
            (state_of self.old) stanzas.now (unwrap_answer result) (state_of self.new) }
        ensures name { filename_of self.new ≡ filename_of self.old }
    {
        let first = self.open(alloc);
        match &self.state {
            // `open` leaves a file that is open or has failed.
            IdentityState::Encrypted(_) => unreachable!(),
            IdentityState::Decrypted(file) => {
                ask(alloc, file, stanzas, first, &mut self.callbacks)
            }
            IdentityState::Failed(e) => Some(Err(repeated(e))),
        }
    }
}

// The name of a file, if it has one.
fn name_of(filename: &Option<String>) -> Option<&str>
    ensures { option_map (λ name. name.now) result ≡ option_map (λ text. string_bytes text) filename.now }
{
    match filename {
        None => None,
        Some(name) => Some(name.as_str()),
    }
}

// What becomes of a file that is opened by those who are lent, and of them.
fn opened<S: Suite, R: Read + Drop, C: Callbacks>(
    alloc: Global,
    front: Front<S, R>,
    filename: Option<&str>,
    callbacks: &mut C,
) -> IdentityState<S, R>
    ensures { (outcome : Result (List Entry) DecryptRefusal)
        × Opens ⟦<S as Suite>⟧ ⟦<StreamReader<S, R> as Read>⟧ C.gives_passphrase (option_map (λ name. name.now) filename.entry)
        (file_asked_by front callbacks.old) outcome callbacks.new
        × (of_state result callbacks.new ≡ state_after outcome callbacks.new) }
{
    match front.open_with(alloc, filename, callbacks) {
        Ok(file) => IdentityState::Decrypted(file),
        Err(e) => IdentityState::Failed(e),
    }
}

// What the identities of an opened file answer. A user is told where none of them does, if the file was opened just now.
fn ask<S: Suite, C: Callbacks>(
    alloc: Global,
    file: &IdentityFile<S, NoCallbacks>,
    stanzas: &[Stanza],
    first: bool,
    callbacks: &mut C,
) -> Option<Result<FileKey, DecryptError>>
    ensures answers { EntriesAnswer (UnwrapsBy S.opened S.shared_of S.public_of) (entries_of file.now) stanzas.now (unwrap_answer result) }
    ensures shows { Shows C.displays first (unwrap_answer result) callbacks.old callbacks.new }
{
    let answer = answer_of(alloc, file, stanzas);
    if first && answer.is_none() {
        callbacks.display_message("no key of the encrypted identity matches");
    }
    answer
}

// The same refusal again.
fn repeated(e: &DecryptError) -> DecryptError
    ensures { Repeats (λ refusal. refusal) OutOfMemory (decrypt_refusal e.now) (decrypt_refusal result) }
{
    match e.clone() {
        Ok(copy) => copy,
        Err(_) => DecryptError::OutOfMemory,
    }
}

impl<S: Suite, R: Read + Drop, C: Callbacks> age_format::Identity for Identity<S, R, C> {
    // The file is opened, if nothing was tried yet, and then its identities are asked. Its name stays.
    ghost unwraps = { λ before stanzas answer after. (filename_of after ≡ filename_of before)
        × Uses ⟦<S as Suite>⟧ ⟦<StreamReader<S, R> as Read>⟧ C.gives_passphrase (filename_of before) C.displays (state_of before) stanzas answer
        (state_of after) };

    /// Answers to one stanza: opens the file if nothing did yet, and asks its identities in the order of the file. The first answer that
    /// isn't `None` decides.
    ///
    /// Where this use opened the file and none answered, one message is shown. A file that isn't to be opened answers its refusal.
    fn unwrap_stanza(
        &mut self,
        alloc: Global,
        stanza: &Stanza,
    ) -> Option<Result<FileKey, DecryptError>> {
        self.answer(alloc, slice::from_ref(stanza))
    }

    /// The same of the stanzas of a header: each identity of the file is asked for all of them before the next is.
    fn unwrap_stanzas(
        &mut self,
        alloc: Global,
        stanzas: &[Stanza],
    ) -> Option<Result<FileKey, DecryptError>>
        ensures unwraps { Unwraps ⟦<Identity<S, R, C> as age_format::Identity>⟧.unwraps self.old stanzas.now (unwrap_answer result) self.new }
        ensures uses { Uses ⟦<S as Suite>⟧ ⟦<StreamReader<S, R> as Read>⟧ C.gives_passphrase (filename_of self.old) C.displays
            (state_of self.old) stanzas.now (unwrap_answer result) (state_of self.new) }
        ensures name { filename_of self.new ≡ filename_of self.old }
    {
        self.answer(alloc, stanzas)
    }
}
