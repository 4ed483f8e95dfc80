//! Who decrypts, as the files that a command line names say it.
ghost use Rattle.std.specs.Prelude.{◌≡◌, ◌≢◌, ◌⊎◌, ℕ, List, [], ◌∷◌, MatchResult, Some, None, IfOk, map, string_bytes};
ghost use Rattle.std.specs.Str.Lines.{lines};
ghost use Rattle.std.specs.Option.{option_map};
ghost use Rattle.age.specs.Entries.{AreEntries};
ghost use Rattle.age.specs.IdentityFile.{entries_of};
ghost use Rattle.sazh_core.specs.Keyring.{AreHolders, AreKeys, AreOfFile, AreOfFiles, FoundOrNone, IsFoundProtected, IsHeldUnder, IsHeldUnderGiven, KnowsPassphrase, ReadsBytes, RefusesKeyBytes, RefusesEntries, RefusesKeyFile, RefusesFiles, RefusesKeyring, RefusesProtected, RefusesPassphraseFile};
ghost use Rattle.sazh_core.specs.declared.error.KeyringError.TheVariants as refused;
ghost use Rattle.sazh_core.specs.declared.holder.Holder.TheVariants as holder;

use crate::callbacks::GivesOnce;
use crate::error::KeyringError;
use crate::holder::Holder;
use crate::lists::joined;
use crate::passphrase::{WORK_FACTOR, identity_of, passphrase_of};
use age::armor::ArmoredReader;
use age::io::{BufReader, Bytes, Error, Read};
use age::suite::Suite;
use age::{DecryptError, IdentityFile, NoCallbacks, encrypted, x25519};
use std::alloc::{AllocError, Global};

/// A file of identities.
#[derive(Drop)]
pub struct KeyFile {
    /// Its name, which is told where its passphrase is asked for.
    pub name: String,
    /// Its bytes.
    pub bytes: Vec<u8>,
}

/// What a command line gives to decrypt with.
#[derive(Drop)]
pub enum Keyring {
    /// Each identity in these files, in their order, and the text of the file of a passphrase for those that are encrypted.
    Files(Vec<KeyFile>, Option<Vec<u8>>),
    /// The text of the file of a passphrase.
    Passphrase(Vec<u8>),
}

// What a file of identities carries that is encrypted with a passphrase.
pub(crate) type Text<'a> = ArmoredReader<BufReader<Bytes<'a>>>;

/// One of those who decrypt. An encrypted file of identities is read from its bytes in memory.
pub type Held<'a, S> = Holder<S, ArmoredReader<BufReader<Bytes<'a>>>, GivesOnce>;

// A reader of what these bytes carry.
pub(crate) fn text_of<'a>(alloc: Global, bytes: &'a [u8]) -> Result<Text<'a>, KeyringError>
    ensures { MatchResult result (λ text. ReadsBytes ⟦<ArmoredReader<BufReader<Bytes<'a>>> as Read>⟧ bytes.now text) (λ e. e ≡ refused.OutOfMemory) }
{
    match ArmoredReader::new(alloc, Bytes::new(bytes)) {
        Ok(text) => Ok(text),
        Err(_) => Err(KeyringError::OutOfMemory),
    }
}

// The identities in these bytes.
pub(crate) fn identities_in<S>(
    alloc: Global,
    bytes: &[u8],
) -> Result<IdentityFile<S, NoCallbacks>, Error>
    ensures { MatchResult result (λ file. AreEntries (lines bytes.now) (entries_of file)) (λ e. RefusesKeyBytes bytes.now e) }
{
    IdentityFile::from_buffer(alloc, Bytes::new(bytes))
}

// Those who have these keys, in their order.
fn holders_of_keys<S, R: Drop>(
    alloc: Global,
    keys: Vec<x25519::Identity<S>>,
) -> Result<Vec<Holder<S, R, GivesOnce>>, AllocError>
    ensures { IfOk result (λ holders. holders.items ≡ map (λ secret. holder.Key secret) keys.items) }
{
    let mut holders: Vec<Holder<S, R, GivesOnce>> = Vec::new(alloc);
    for key in keys {
        holders.push(Holder::Key(key))?;
    }
    Ok(holders)
}

// Those who have these keys, of which there are some.
fn holders_of_some<S, R: Drop>(
    alloc: Global,
    keys: Vec<x25519::Identity<S>>,
    number: usize,
) -> Result<Vec<Holder<S, R, GivesOnce>>, KeyringError>
    ensures { MatchResult result (λ holders. (keys.items ≢ []) × (holders.items ≡ map (λ secret. holder.Key secret) keys.items))
        (λ e. (e ≡ refused.OutOfMemory) ⊎ ((e ≡ refused.NoIdentity number) × (keys.items ≡ []))) }
{
    if keys.is_empty() {
        return Err(KeyringError::NoIdentity { file: number });
    }
    match holders_of_keys(alloc, keys) {
        Ok(holders) => Ok(holders),
        Err(_) => Err(KeyringError::OutOfMemory),
    }
}

// Those who have the identities in a file of this number that isn't encrypted.
fn holders_in_entries<S, R: Drop>(
    alloc: Global,
    found: IdentityFile<S, NoCallbacks>,
    number: usize,
) -> Result<Vec<Holder<S, R, GivesOnce>>, KeyringError>
    ensures { MatchResult result (λ holders. AreKeys (entries_of found) holders.items) (λ e. RefusesEntries number (entries_of found) e) }
{
    match found.into_identities(alloc) {
        Ok(keys) => holders_of_some(alloc, keys, number),
        Err(DecryptError::PluginResolve(_)) => Err(KeyringError::Plugin { file: number }),
        Err(_) => Err(KeyringError::OutOfMemory),
    }
}

// What was found, or nothing where a front was refused for another reason than memory.
fn found_or_none<T: Drop>(
    answer: Result<Option<T>, DecryptError>,
) -> Result<Option<T>, KeyringError>
    ensures { FoundOrNone answer result }
{
    match answer {
        Ok(found) => Ok(found),
        Err(DecryptError::OutOfMemory) => Err(KeyringError::OutOfMemory),
        Err(_) => Ok(None),
    }
}

// Who asks for the passphrase of a file of this name, of whom that is asked, or `None` where it is no file under a passphrase.
fn protected_in<S: Suite, R: Read + Drop>(
    alloc: Global,
    text: R,
    name: &str,
    asked: GivesOnce,
) -> Result<Option<encrypted::Identity<S, R, GivesOnce>>, KeyringError>
    ensures { (bytes : List ℕ) → ReadsBytes ⟦<R as Read>⟧ bytes text → IsFoundProtected ⟦<R as Read>⟧ name.now bytes asked result }
{
    match String::from_str(alloc, name) {
        Err(_) => Err(KeyringError::OutOfMemory),
        Ok(name) => found_or_none(encrypted::Identity::from_buffer(
            alloc,
            text,
            Some(name),
            asked,
            WORK_FACTOR,
            None,
        )),
    }
}

// The same of a file of identities.
fn protected<'a, S: Suite>(
    alloc: Global,
    file: &'a KeyFile,
    asked: GivesOnce,
) -> Result<Option<encrypted::Identity<S, Text<'a>, GivesOnce>>, KeyringError>
    ensures { IsFoundProtected ⟦<ArmoredReader<BufReader<Bytes<'a>>> as Read>⟧ (string_bytes file.now.name) file.now.bytes.items asked result }
{
    match text_of(alloc, &file.bytes) {
        Err(error) => Err(error),
        Ok(text) => protected_in(alloc, text, file.name.as_str(), asked),
    }
}

// One who decrypts alone.
fn alone<T: Drop>(alloc: Global, holder: T) -> Result<Vec<T>, KeyringError>
    ensures { MatchResult result (λ one. one.items ≡ holder ∷ []) (λ e. e ≡ refused.OutOfMemory) }
{
    let mut one = Vec::new(alloc);
    match one.push(holder) {
        Ok(()) => Ok(one),
        Err(_) => Err(KeyringError::OutOfMemory),
    }
}

// Why a file of this number, of which this line is no identity, names nobody where no passphrase is given.
fn refused_without_passphrase<'a, S: Suite>(
    alloc: Global,
    file: &'a KeyFile,
    number: usize,
    line: usize,
) -> KeyringError
    ensures { RefusesProtected ⟦<ArmoredReader<BufReader<Bytes<'a>>> as Read>⟧ S number line file.now.bytes.items None result }
{
    match protected::<S>(alloc, file, GivesOnce::new(None)) {
        Ok(None) => KeyringError::NotIdentity { file: number, line },
        Ok(Some(_)) => KeyringError::NoPassphrase { file: number },
        Err(error) => error,
    }
}

// Who asks for the passphrase of a file of this number, of which this line is no identity, where the text of a passphrase is given.
fn holders_under_passphrase<'a, S: Suite>(
    alloc: Global,
    file: &'a KeyFile,
    number: usize,
    line: usize,
    text: &[u8],
) -> Result<Vec<Held<'a, S>>, KeyringError>
    ensures { MatchResult result (λ holders. IsHeldUnder ⟦<ArmoredReader<BufReader<Bytes<'a>>> as Read>⟧ file.now text.now holders.items)
        (λ e. RefusesProtected ⟦<ArmoredReader<BufReader<Bytes<'a>>> as Read>⟧ S number line file.now.bytes.items (Some text.now) e) }
{
    let secret = match passphrase_of(alloc, text) {
        Ok(secret) => secret,
        Err(why) => return Err(KeyringError::Passphrase(why)),
    };
    match protected::<S>(alloc, file, GivesOnce::new(Some(secret))) {
        Ok(None) => Err(KeyringError::NotIdentity { file: number, line }),
        Ok(Some(identity)) => alone(alloc, Holder::File(identity)),
        Err(error) => Err(error),
    }
}

// The same, whether one is given or not.
fn holders_of_protected<'a, S: Suite>(
    alloc: Global,
    file: &'a KeyFile,
    number: usize,
    line: usize,
    passphrase: Option<&[u8]>,
) -> Result<Vec<Held<'a, S>>, KeyringError>
    ensures { MatchResult result
        (λ holders. IsHeldUnderGiven ⟦<ArmoredReader<BufReader<Bytes<'a>>> as Read>⟧ file.now
        (option_map (λ t. t.now) passphrase.entry) holders.items)
        (λ e. RefusesProtected ⟦<ArmoredReader<BufReader<Bytes<'a>>> as Read>⟧ S number line file.now.bytes.items
        (option_map (λ t. t.now) passphrase.entry) e) }
{
    match passphrase {
        None => Err(refused_without_passphrase::<S>(alloc, file, number, line)),
        Some(text) => holders_under_passphrase(alloc, file, number, line, text),
    }
}

// Those who have the identities in the file of this number.
fn holders_in<'a, S: Suite>(
    alloc: Global,
    file: &'a KeyFile,
    number: usize,
    passphrase: Option<&[u8]>,
) -> Result<Vec<Held<'a, S>>, KeyringError>
    ensures { MatchResult result
        (λ holders. AreOfFile ⟦<ArmoredReader<BufReader<Bytes<'a>>> as Read>⟧ file.now (option_map (λ t. t.now) passphrase.entry) holders.items)
        (λ e. RefusesKeyFile ⟦<ArmoredReader<BufReader<Bytes<'a>>> as Read>⟧ S number file.now (option_map (λ t. t.now) passphrase.entry) e) }
{
    match identities_in::<S>(alloc, &file.bytes) {
        Ok(found) => holders_in_entries(alloc, found, number),
        Err(Error::NotIdentity { line }) => holders_of_protected(
            alloc, file, number, line, passphrase,
        ),
        Err(Error::LimitExceeded) => Err(KeyringError::TooLong { file: number }),
        Err(_) => Err(KeyringError::OutOfMemory),
    }
}

// Those who have the identities in files.
fn holders_in_all<'a, S: Suite>(
    alloc: Global,
    files: &'a [KeyFile],
    passphrase: Option<&[u8]>,
) -> Result<Vec<Held<'a, S>>, KeyringError>
    ensures { MatchResult result
        (λ holders. AreOfFiles ⟦<ArmoredReader<BufReader<Bytes<'a>>> as Read>⟧ files.now (option_map (λ t. t.now) passphrase.entry) holders.items)
        (λ e. RefusesFiles ⟦<ArmoredReader<BufReader<Bytes<'a>>> as Read>⟧ S files.now (option_map (λ t. t.now) passphrase.entry) e) }
{
    let mut holders: Vec<Held<'a, S>> = Vec::new(alloc);
    for i in 0..files.len() {
        match holders_in(alloc, &files[i], i, passphrase) {
            Err(error) => return Err(error),
            Ok(more) => match joined(holders, more) {
                Err(_) => return Err(KeyringError::OutOfMemory),
                Ok(all) => holders = all,
            },
        }
    }
    Ok(holders)
}

// Who knows the passphrase that a text gives.
fn holder_of_passphrase<'a, S: Suite>(
    alloc: Global,
    text: &[u8],
) -> Result<Vec<Held<'a, S>>, KeyringError>
    ensures { MatchResult result (λ holders. KnowsPassphrase text.now holders.items) (λ e. RefusesPassphraseFile (Some text.now) e) }
{
    let secret = match passphrase_of(alloc, text) {
        Ok(secret) => secret,
        Err(why) => return Err(KeyringError::Passphrase(why)),
    };
    alone(alloc, Holder::Passphrase(identity_of(secret)))
}

/// Those who decrypt with what a command line gives, in the order of the files, and of each file in the order of its lines. There is no other.
///
/// A file of identities whose lines are all good has those of its keys. Any other is one under a passphrase, bare or in armor: it has the one who
/// asks for its passphrase by the file's name, who is given the first line of the passphrase's text once, and takes work factors up to 22. It isn't
/// opened yet. Without files it is who knows the passphrase of the text.
///
/// # Errors
///
/// Those of the first file that is refused, whose number is counted from 0:
///
/// - `NotIdentity`: this line, counted from 1, is the text of no identity and isn't passed over, and the file isn't one under a passphrase.
/// - `TooLong`: it has more than 16 MiB, and no line of these is bad.
/// - `Plugin`: an identity in it is a plugin's.
/// - `NoIdentity`: none is in it.
/// - `NoPassphrase`: it is one under a passphrase, and none is given.
/// - `Passphrase`: the text of the passphrase gives none, and why. It is looked at where a line of a file is no identity, or there is no file.
///
/// `OutOfMemory`: memory was refused. Whatever it answers, no file of identities is opened, and what is given stays.
pub fn holders_of<'a, S: Suite>(
    alloc: Global,
    keyring: &'a Keyring,
) -> Result<Vec<Held<'a, S>>, KeyringError>
    ensures { MatchResult result
        (λ holders. AreHolders ⟦<ArmoredReader<BufReader<Bytes<'a>>> as Read>⟧ keyring.now holders.items)
        (λ e. RefusesKeyring ⟦<ArmoredReader<BufReader<Bytes<'a>>> as Read>⟧ S keyring.now e) }
{
    match keyring {
        Keyring::Files(files, None) => holders_in_all(alloc, files, None),
        Keyring::Files(files, Some(text)) => holders_in_all(alloc, files, Some(text)),
        Keyring::Passphrase(text) => holder_of_passphrase(alloc, text),
    }
}
