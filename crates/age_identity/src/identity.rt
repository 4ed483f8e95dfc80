//! Files of identities.
ghost use Rattle.std.specs.Prelude.{◌≡◌, ◌⊎◌, [], ◌∷◌, ◌++◌, OnOk, IfOk, IfErr, IsErrAnd, None, Some, MatchOption, List, ℕ, map, string_bytes};
ghost use Rattle.std.specs.Option.{option_map};
ghost use Rattle.std.specs.Result.{result_map_both};
ghost use Rattle.age_error.specs.DecryptErrors.{decrypt_refusal, PluginResolve, OutOfMemory as no_memory};
ghost use Rattle.age_error.specs.ResolveErrors.{MissingPlugin};
ghost use Rattle.age_error.specs.EncryptErrors.{encrypt_refusal};
ghost use Rattle.age_error.specs.declared.io.Error.TheVariants.{OutOfMemory as out_of_memory};
ghost use Rattle.age_identity.specs.ConvertErrors.{convert_refusal, NoIdentities, IdentityFileContainsPlugin, FailedToWriteOutput};
ghost use Rattle.age_identity.specs.Converting.{native_secrets, plugin_names, program_of, recipients_text, IsAtMost, IsLeast, RefusesRecipients, RefusesIdentities, Converts};
ghost use Rattle.age_format.specs.Unwrapping.{unwrap_answer};
ghost use Rattle.age_v1.specs.Identities.{Steady, FirstOf};
ghost use Rattle.age_v1.specs.X25519.{UnwrapsBy};
ghost use Rattle.age_identity.specs.Asking.{EntryAnswers, EntriesAnswer};
ghost use Rattle.age_identity.specs.Entries.{entry_of};
ghost use Rattle.age_identity.specs.IdentityFile.{entries_of, filename_of, callbacks_of};
ghost use Rattle.age_error.specs.Refusals.{IsDevice};
ghost use Rattle.age_identity.specs.Reading.{ReadsDevice, ReadsFile, most_file_bytes};

use crate::callbacks::{Callbacks, NoCallbacks};
use crate::entry::IdentityFileEntry;
use crate::error::IdentityFileConvertError;
use crate::reading::read_entries;
use crate::util::LimitedReader;
use age_error::io::Error;
use age_error::resolve::ResolveError;
use age_error::{DecryptError, EncryptError};
use age_format::{Identity, Stanza};
use age_io::{BufRead, Read, Std, Write, device_error, write_all};
use age_keys::x25519;
use age_suite::secrecy::FileKey;
use age_suite::suite::Suite;
use std::alloc::{AllocError, Global};
use std::cmp::Ordering;
use std::fmt::Write as _;
use std::fs::{File, Files};

/// The most bytes that a file may have: 16 MiB.
const IDENTITY_SIZE_LIMIT: usize = 16_777_216;

/// The identities of a file, in the order of its lines, and who is asked while they are used.
///
/// Each line of such a file is an identity's text, `AGE-SECRET-KEY-1..` or `AGE-PLUGIN-..`, or is passed over: it is empty or begins
/// with `#`. It has no `Debug` and no `Display`, so no text shows an identity by chance.
#[derive(Drop)]
pub struct IdentityFile<S, C> {
    filename: Option<String>,
    entries: Vec<IdentityFileEntry<S>>,
    callbacks: C,
}

impl<S> IdentityFile<S, NoCallbacks> {
    /// Reads the file that a reader still has, to its end. It has at most 16 MiB (2^24 bytes). A line ends with LF or CRLF, the last one
    /// perhaps with the input. It takes memory for one line and for the identities.
    ///
    /// What it refuses with, whichever comes first in the file:
    ///
    /// - `NotIdentity { line }`: the line of this number, counted from 1, isn't UTF-8, or is neither passed over nor the text of an
    ///   identity. It is looked at once it has ended, and the error doesn't show it.
    /// - `LimitExceeded`: a byte comes after the limit. The line that stands there isn't looked at.
    /// - what the reader refuses with. An interruption is tried again up to 16 times in a row; after that it is `Device(Other)`.
    /// - `OutOfMemory`: memory was refused.
    ///
    /// After a refusal the reader is gone.
    pub fn from_buffer<R: BufRead + Drop>(alloc: Global, data: R) -> Result<Self, Error>
        ensures reads { ReadsFile ⟦<R as Read>⟧ most_file_bytes (λ file. entries_of file) «data» result }
        ensures named { IfOk result (λ file. filename_of file ≡ None) }
    {
        read_file(alloc, data)
    }

    /// Reads the file of this name, to its end, as `from_buffer` does. It keeps the name.
    ///
    /// The refusals are those of `from_buffer`, and `Device(kind)` where the file isn't opened, `Device(NotFound)` where there is none.
    /// Nothing is known of the bytes of a file on a device.
    pub fn from_file<F: Files>(files: &F, alloc: Global, filename: String) -> Result<Self, Error>
        ensures reads { IsErrAnd result IsDevice ⊎ ReadsDevice ⟦<Std<F::File> as Read>⟧ (λ file. entries_of file) result }
        ensures named { IfOk result (λ file. filename_of file ≡ Some (string_bytes filename)) }
    {
        match File::open(files, filename.as_str()) {
            Err(error) => Err(device_error(&error)),
            Ok(device) => match read_file(alloc, Std::new(device)) {
                Err(error) => Err(error),
                Ok(file) => Ok(file.with_name(filename)),
            },
        }
    }
}

/// The file that a reader still has, as `IdentityFile::from_buffer` reads it, of a reader without a buffer of its own.
///
/// It reads 1,024 bytes at a time. The refusals are those of `from_buffer`. After a refusal the reader is gone.
pub fn read_file<S, R: Read + Drop>(
    alloc: Global,
    data: R,
) -> Result<IdentityFile<S, NoCallbacks>, Error>
    ensures reads { ReadsFile ⟦<R as Read>⟧ most_file_bytes (λ file. entries_of file) «data» result }
    ensures named { IfOk result (λ file. filename_of file ≡ None) }
{
    let mut reader = LimitedReader::new(data, IDENTITY_SIZE_LIMIT);
    match read_entries(alloc, &mut reader) {
        Err(e) => Err(e),
        Ok(entries) => Ok(IdentityFile {
            filename: None,
            entries,
            callbacks: NoCallbacks,
        }),
    }
}

impl<S, C> IdentityFile<S, C> {
    /// The same file with others to be asked. It takes no memory.
    pub fn with_callbacks<D: Callbacks>(self, callbacks: D) -> IdentityFile<S, D>
    where
        C: Callbacks,
        ensures entries { entries_of result ≡ entries_of self }
        ensures name { filename_of result ≡ filename_of self }
        ensures callbacks { callbacks_of result ≡ callbacks }
    {
        let IdentityFile {
            filename,
            entries,
            callbacks: _,
        } = self;
        IdentityFile {
            filename,
            entries,
            callbacks,
        }
    }

    // The same file under a name.
    fn with_name(self, filename: String) -> IdentityFile<S, C>
        ensures entries { entries_of result ≡ entries_of self }
        ensures name { filename_of result ≡ Some (string_bytes filename) }
        ensures callbacks { callbacks_of result ≡ callbacks_of self }
    {
        let mut file = self;
        file.filename = Some(filename);
        file
    }

    // A copy of the file's name.
    fn copied_name(&self) -> Result<Option<String>, AllocError>
        ensures { IfOk result (λ name. option_map (λ text. string_bytes text) name ≡ filename_of self.now) }
    {
        match &self.filename {
            None => Ok(None),
            Some(name) => {
                let copy = name.clone()?;
                Ok(Some(copy))
            }
        }
    }

    // That the file has no identity.
    fn no_identities(&self) -> IdentityFileConvertError
        ensures { let refusal = convert_refusal result in
            (refusal ≡ NoIdentities (filename_of self.now)) ⊎ (refusal ≡ FailedToWriteOutput out_of_memory) }
    {
        match self.copied_name() {
            Ok(filename) => IdentityFileConvertError::NoIdentities { filename },
            Err(_) => IdentityFileConvertError::FailedToWriteOutput(Error::OutOfMemory),
        }
    }

    // That the file has an identity of this plugin.
    fn contains_plugin(
        &self,
        alloc: Global,
        plugin: &str,
    ) -> Result<IdentityFileConvertError, AllocError>
        ensures { IfOk result (λ e. convert_refusal e ≡ IdentityFileContainsPlugin (filename_of self.now) plugin.now) }
    {
        let filename = self.copied_name()?;
        let plugin_name = String::from_str(alloc, plugin)?;
        Ok(IdentityFileConvertError::IdentityFileContainsPlugin {
            filename,
            plugin_name,
        })
    }
}

impl<S: Suite, C> IdentityFile<S, C> {
    /// Writes the recipients of the identities, each with LF after it, in the order of the file, up to the first identity of a plugin.
    ///
    /// The text is made in memory and written in one go. An interruption of the output is tried again as in `write_all`.
    ///
    /// # Errors
    ///
    /// - `NoIdentities`: the file has no identity. Nothing was written.
    /// - `IdentityFileContainsPlugin`: there is an identity of a plugin, of which this is the first in the file. The recipients before it
    ///   were written.
    /// - `FailedToWriteOutput`: the output refused, or memory was refused (`OutOfMemory`). A beginning of the text was written, and how
    ///   much isn't said.
    pub fn write_recipients_file<W: Write>(
        &self,
        alloc: Global,
        output: &mut W,
    ) -> Result<(), IdentityFileConvertError>
        ensures { Converts W.tells W.faults W.refuses W.appended (recipients_text S.public_of (entries_of self.now)) (entries_of self.now)
            (filename_of self.now)
            output.old output.new (result_map_both (λ _. tt) (λ e. convert_refusal e) result) }
    {
        let entries = self.entries.as_slice();
        if entries.is_empty() {
            return Err(self.no_identities());
        }
        let text = text_of_recipients(alloc, entries)?;
        match write_all(output, text.as_bytes()) {
            Err(e) => return Err(IdentityFileConvertError::FailedToWriteOutput(e)),
            Ok(()) => {}
        }
        match first_plugin(entries) {
            None => Ok(()),
            Some(name) => match self.contains_plugin(alloc, name) {
                Ok(e) => Err(e),
                Err(_) => Err(IdentityFileConvertError::FailedToWriteOutput(Error::OutOfMemory)),
            },
        }
    }

    /// The recipients of the identities, in the order of the file.
    ///
    /// # Errors
    ///
    /// - `PluginResolve(MissingPlugin)`: there is an identity of a plugin. Of several plugins it is the one whose name is the least in the
    ///   order of its bytes.
    /// - `OutOfMemory`: memory was refused.
    pub fn to_recipients(&self, alloc: Global) -> Result<Vec<x25519::Recipient<S>>, EncryptError>
        ensures ok { IfOk result (λ recipients. (plugin_names (entries_of self.now) ≡ [])
            × (recipients.items ≡ map (λ secret. S.public_of secret) (native_secrets (entries_of self.now)))) }
        ensures refused { IfErr result (λ e. RefusesRecipients (entries_of self.now) (encrypt_refusal e)) }
    {
        let entries = self.entries.as_slice();
        if let Some(name) = least_plugin(entries) {
            let binary_name = binary_name(alloc, name)?;
            return Err(EncryptError::PluginResolve(ResolveError::MissingPlugin { binary_name }));
        }
        let mut recipients = Vec::new(alloc);
        for entry in entries {
            add_recipient(&mut recipients, entry)?;
        }
        Ok(recipients)
    }
}

impl<S, C: Drop> IdentityFile<S, C> {
    /// The identities, in the order of the file.
    ///
    /// # Errors
    ///
    /// - `PluginResolve(MissingPlugin)`: there is an identity of a plugin. Of several it is the first in the file.
    /// - `OutOfMemory`: memory was refused.
    pub fn into_identities(self, alloc: Global) -> Result<Vec<x25519::Identity<S>>, DecryptError>
        ensures ok { IfOk result (λ identities. (plugin_names (entries_of self) ≡ []) × (identities.items ≡ native_secrets (entries_of self))) }
        ensures refused { IfErr result (λ e. RefusesIdentities (entries_of self) (decrypt_refusal e)) }
    {
        let entries = self.entries.as_slice();
        if let Some(name) = first_plugin(entries) {
            return Err(missing_plugin(alloc, name));
        }
        let mut identities = Vec::new(alloc);
        for entry in entries {
            add_identity(&mut identities, entry)?;
        }
        Ok(identities)
    }
}

/// What the identities of a file answer to stanzas, asked in the order of the file, each for all of the stanzas: the first answer that
/// isn't `None`, a refusal too. Those after it aren't asked.
///
/// A native identity answers as `x25519::Identity`, and one of a plugin with `PluginResolve(MissingPlugin)`, since no program of a plugin
/// is run. `OutOfMemory` where memory is refused.
pub fn answer_of<S: Suite, C>(
    alloc: Global,
    file: &IdentityFile<S, C>,
    stanzas: &[Stanza],
) -> Option<Result<FileKey, DecryptError>>
    ensures { EntriesAnswer (UnwrapsBy S.opened S.shared_of S.public_of) (entries_of file.now) stanzas.now (unwrap_answer result) }
{
    let mut rest = file.entries.as_slice();
    while let Some((entry, tail)) = rest.split_first() {
        if let Some(answer) = ask(alloc, entry, stanzas) {
            return Some(answer);
        }
        rest = tail;
    }
    None
}

/// Shows a message to the user of a file.
pub fn show<S, C: Callbacks>(file: &mut IdentityFile<S, C>, message: &str)
    ensures entries { entries_of file.new ≡ entries_of file.old }
    ensures name { filename_of file.new ≡ filename_of file.old }
    ensures shown { C.displays (callbacks_of file.old) message.now (callbacks_of file.new) }
{
    file.callbacks.display_message(message);
}

// What an entry answers.
fn ask<S: Suite>(
    alloc: Global,
    entry: &IdentityFileEntry<S>,
    stanzas: &[Stanza],
) -> Option<Result<FileKey, DecryptError>>
    ensures { EntryAnswers (UnwrapsBy S.opened S.shared_of S.public_of) stanzas.now (entry_of entry.now) (unwrap_answer result) }
{
    match entry {
        IdentityFileEntry::Native(identity) => ask_native(alloc, identity, stanzas),
        IdentityFileEntry::Plugin(key) => Some(Err(missing_plugin(alloc, key.plugin()))),
    }
}

// What a native identity answers. A copy is asked, since whoever is asked may change; it takes no memory, and this one doesn't change.
fn ask_native<S: Suite>(
    alloc: Global,
    identity: &x25519::Identity<S>,
    stanzas: &[Stanza],
) -> Option<Result<FileKey, DecryptError>>
    ensures { FirstOf (Steady (UnwrapsBy S.opened S.shared_of S.public_of)) identity.now stanzas.now (unwrap_answer result) identity.now }
{
    match identity.clone() {
        Ok(copy) => ask_copy(alloc, copy, stanzas),
        Err(_) => unreachable!(),
    }
}

// What it answers, and then it is gone.
fn ask_copy<S: Suite>(
    alloc: Global,
    identity: x25519::Identity<S>,
    stanzas: &[Stanza],
) -> Option<Result<FileKey, DecryptError>>
    ensures { FirstOf (Steady (UnwrapsBy S.opened S.shared_of S.public_of)) identity stanzas.now (unwrap_answer result) identity }
{
    let mut identity = identity;
    identity.unwrap_stanzas(alloc, stanzas)
}

// That the program of a plugin isn't there.
fn missing_plugin(alloc: Global, plugin: &str) -> DecryptError
    ensures { let refusal = decrypt_refusal result in (refusal ≡ PluginResolve (MissingPlugin (program_of plugin.now))) ⊎ (refusal ≡ no_memory) }
{
    match binary_name(alloc, plugin) {
        Ok(binary_name) => DecryptError::PluginResolve(ResolveError::MissingPlugin { binary_name }),
        Err(_) => DecryptError::OutOfMemory,
    }
}

// Adds the recipient of a native entry.
fn add_recipient<S: Suite>(
    recipients: &mut Vec<x25519::Recipient<S>>,
    entry: &IdentityFileEntry<S>,
) -> Result<(), AllocError>
    ensures { OnOk result (recipients.new.items
        ≡ recipients.old.items ++ map (λ secret. S.public_of secret) (native_secrets (entry_of entry.now ∷ []))) }
{
    let IdentityFileEntry::Native(identity) = entry else {
        return Ok(());
    };
    recipients.push(identity.to_public())?;
    Ok(())
}

// Adds the identity of a native entry.
fn add_identity<S>(
    identities: &mut Vec<x25519::Identity<S>>,
    entry: &IdentityFileEntry<S>,
) -> Result<(), AllocError>
    ensures { OnOk result (identities.new.items ≡ identities.old.items ++ native_secrets (entry_of entry.now ∷ [])) }
{
    let IdentityFileEntry::Native(identity) = entry else {
        return Ok(());
    };
    let identity: x25519::Identity<S> = identity.clone()?;
    identities.push(identity)?;
    Ok(())
}

// The name of a plugin's program.
fn binary_name(alloc: Global, plugin: &str) -> Result<String, AllocError>
    ensures { IfOk result (λ text. string_bytes text ≡ program_of plugin.now) }
{
    let mut name = String::from_str(alloc, "age-plugin-")?;
    name.push_str(plugin)?;
    Ok(name)
}

// The name of the plugin of the first entry that is one's.
fn first_plugin<S>(entries: &[IdentityFileEntry<S>]) -> Option<&str>
    ensures { let names = plugin_names (map (λ e. entry_of e) entries.now) in
        MatchOption result (names ≡ []) (λ name. (others : List (List ℕ)) × (names ≡ name.now ∷ others)) }
{
    for entry in entries {
        if let IdentityFileEntry::Plugin(key) = entry {
            return Some(key.plugin());
        }
    }
    None
}

// The lesser of two names in the order of their bytes, the first where they are the same.
fn lesser<'a>(first: &'a str, second: &'a str) -> &'a str
    ensures first { IsAtMost result.now first.now }
    ensures second { IsAtMost result.now second.now }
    ensures one { (result.now ≡ first.now) ⊎ (result.now ≡ second.now) }
{
    match first.cmp(second) {
        Ordering::Greater => second,
        _ => first,
    }
}

// The least of some names and that of an entry.
fn least_with<'a, S>(least: Option<&'a str>, entry: &'a IdentityFileEntry<S>) -> Option<&'a str>
    ensures { (names : List (List ℕ)) → MatchOption least.entry (names ≡ []) (λ name. IsLeast name.now names) →
        let later = names ++ plugin_names (entry_of entry.now ∷ []) in MatchOption result (later ≡ []) (λ name. IsLeast name.now later) }
{
    let IdentityFileEntry::Plugin(key) = entry else {
        return least;
    };
    match least {
        None => Some(key.plugin()),
        Some(name) => Some(lesser(name, key.plugin())),
    }
}

// The least name of a plugin in the order of their bytes.
fn least_plugin<S>(entries: &[IdentityFileEntry<S>]) -> Option<&str>
    ensures { let names = plugin_names (map (λ e. entry_of e) entries.now) in MatchOption result (names ≡ []) (λ name. IsLeast name.now names) }
{
    let mut least: Option<&str> = None;
    for entry in entries {
        least = least_with(least, entry);
    }
    least
}

// The recipients up to the first entry of a plugin, each with LF.
fn text_of_recipients<S: Suite>(
    alloc: Global,
    entries: &[IdentityFileEntry<S>],
) -> Result<String, AllocError>
    ensures { IfOk result (λ text. string_bytes text ≡ recipients_text S.public_of (map (λ e. entry_of e) entries.now)) }
{
    let mut text = String::new(alloc);
    for entry in entries {
        match entry {
            IdentityFileEntry::Plugin(_) => return Ok(text),
            IdentityFileEntry::Native(identity) => {
                let recipient = identity.to_public();
                writeln!(text, "{recipient}")?;
            }
        }
    }
    Ok(text)
}
