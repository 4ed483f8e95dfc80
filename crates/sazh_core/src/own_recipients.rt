//! The recipients of the identities in a file.
ghost use Rattle.std.specs.Prelude.{◌≡◌, ◌≢◌, ◌++◌, ℕ, List, [], MatchResult, IfOk};
ghost use Rattle.age.specs.Bech32Written.{bech32_text};
ghost use Rattle.age.specs.IdentityFile.{entries_of};
ghost use Rattle.age.specs.X25519.{recipient_prefix};
ghost use Rattle.age.specs.Lines.{line};
ghost use Rattle.sazh_core.specs.Given.{Answers, WithGiven};
ghost use Rattle.sazh_core.specs.Keyring.{ReadsBytes};
ghost use Rattle.sazh_core.specs.OwnRecipients.{AreOfIdentities, ArePublicOf, RefusesEntries, RefusesOwnIdentities, RefusesIdentityLine, WritesText, recipients_text};
ghost use Rattle.sazh_core.specs.declared.error.IdentitiesError.TheVariants as error;

use crate::error::{GivenError, IdentitiesError};
use crate::keyring::{identities_in, text_of};
use age::armor::ArmoredReader;
use age::io::{BufReader, Bytes, Error, Read, Write, flush_retrying, write_all};
use age::suite::Suite;
use age::x25519::Recipient;
use age::{DecryptError, Decryptor, EncryptError, IdentityFile, NoCallbacks};
use std::alloc::{AllocError, Global};

// Recipients, of which there are some.
fn some_of<S>(recipients: Vec<Recipient<S>>) -> Result<Vec<Recipient<S>>, IdentitiesError>
    ensures { MatchResult result (λ some. (recipients.items ≢ []) × (some.items ≡ recipients.items))
        (λ e. (e ≡ error.NoIdentity) × (recipients.items ≡ [])) }
{
    if recipients.is_empty() {
        return Err(IdentitiesError::NoIdentity);
    }
    Ok(recipients)
}

// The recipients of the identities that were found.
fn recipients_in_entries<S: Suite>(
    alloc: Global,
    found: IdentityFile<S, NoCallbacks>,
) -> Result<Vec<Recipient<S>>, IdentitiesError>
    ensures { MatchResult result (λ recipients. ArePublicOf S.public_of (entries_of found) recipients.items)
        (λ e. RefusesEntries (entries_of found) e) }
{
    match found.to_recipients(alloc) {
        Ok(recipients) => some_of(recipients),
        Err(EncryptError::PluginResolve(_)) => Err(IdentitiesError::Plugin),
        Err(_) => Err(IdentitiesError::OutOfMemory),
    }
}

// Why what this one reads, of which this line is no identity, has no recipients that can be told.
fn refused_text<S: Suite, R: Read + Drop>(alloc: Global, text: R, line: usize) -> IdentitiesError
    ensures { (bytes : List ℕ) → ReadsBytes ⟦<R as Read>⟧ bytes text → RefusesIdentityLine ⟦<R as Read>⟧ S line bytes result }
{
    match Decryptor::<S, R>::new(alloc, text) {
        Ok(front) => {
            if front.is_scrypt() {
                IdentitiesError::Encrypted
            } else {
                IdentitiesError::NotIdentity { line }
            }
        }
        Err(DecryptError::OutOfMemory) => IdentitiesError::OutOfMemory,
        Err(_) => IdentitiesError::NotIdentity { line },
    }
}

// The same of bytes.
fn refused_bytes<'a, S: Suite>(alloc: Global, bytes: &'a [u8], line: usize) -> IdentitiesError
    ensures { RefusesIdentityLine ⟦<ArmoredReader<BufReader<Bytes<'a>>> as Read>⟧ S line bytes.now result }
{
    match text_of(alloc, bytes) {
        Err(_) => IdentitiesError::OutOfMemory,
        Ok(text) => refused_text::<S, ArmoredReader<BufReader<Bytes<'a>>>>(alloc, text, line),
    }
}

/// The recipients of all identities in a file of these bytes, in the order of its lines. They are X25519 recipients, and there is one or more.
///
/// # Errors
///
/// - `NotIdentity`: this line, counted from 1, is the first that is the text of no identity and isn't passed over, and the file isn't one under
///   a passphrase.
/// - `Encrypted`: a line is no identity, since the file is one under a passphrase, bare or in armor. It isn't opened.
/// - `TooLong`: it has more than 16 MiB, and no line of these is bad.
/// - `Plugin`: an identity in it is a plugin's.
/// - `NoIdentity`: none is in it.
/// - `OutOfMemory`: memory was refused.
///
/// No error holds a byte of the file.
pub fn recipients_of_identities<'a, S: Suite>(
    alloc: Global,
    bytes: &'a [u8],
) -> Result<Vec<Recipient<S>>, IdentitiesError>
    ensures { MatchResult result (λ recipients. AreOfIdentities S.public_of bytes.now recipients.items)
        (λ e. RefusesOwnIdentities ⟦<ArmoredReader<BufReader<Bytes<'a>>> as Read>⟧ S bytes.now e) }
{
    match identities_in::<S>(alloc, bytes) {
        Ok(found) => recipients_in_entries(alloc, found),
        Err(Error::NotIdentity { line }) => Err(refused_bytes::<S>(alloc, bytes, line)),
        Err(Error::LimitExceeded) => Err(IdentitiesError::TooLong),
        Err(_) => Err(IdentitiesError::OutOfMemory),
    }
}

// A text, and after it a line of this recipient.
fn with_line<S>(
    alloc: Global,
    text: Vec<u8>,
    recipient: &Recipient<S>,
) -> Result<Vec<u8>, AllocError>
    ensures { IfOk result (λ more. more.items ≡ text.items ++ line (bech32_text recipient_prefix recipient.now)) }
{
    let mut more = text;
    let word = recipient.to_string(alloc)?;
    more.extend_from_slice(word.as_bytes())?;
    more.push(b'\n')?;
    Ok(more)
}

/// The text of recipients: of each a line, in their order, which is its text, `age1..`, and LF. `AllocError` where memory is refused.
pub fn text_of_recipients<S>(
    alloc: Global,
    recipients: &[Recipient<S>],
) -> Result<Vec<u8>, AllocError>
    ensures { IfOk result (λ text. text.items ≡ recipients_text recipients.now) }
{
    let mut text = Vec::new(alloc);
    for i in 0..recipients.len() {
        text = with_line(alloc, text, &recipients[i])?;
    }
    Ok(text)
}

// Writes a text, and flushes the writer.
fn write_text<W: Write>(text: &[u8], writer: &mut W) -> Result<(), Error>
    ensures { WritesText ⟦<W as Write>⟧ text.now writer.old writer.new result }
{
    match write_all(writer, text) {
        Err(error) => return Err(error),
        Ok(()) => {}
    }
    flush_retrying(writer)
}

// Writes the text of recipients, and flushes the writer.
fn write_lines<S, W: Write>(
    alloc: Global,
    recipients: &[Recipient<S>],
    writer: &mut W,
) -> Result<(), Error>
    ensures { WritesText ⟦<W as Write>⟧ (recipients_text recipients.now) writer.old writer.new result }
{
    match text_of_recipients(alloc, recipients) {
        Err(_) => Err(Error::OutOfMemory),
        Ok(text) => write_text(&text, writer),
    }
}

/// Writes the recipients of the identities in a file of these bytes, as `recipients_of_identities` gives them, in the form of
/// `text_of_recipients`, and flushes the writer. The text is made in memory and written in one go.
///
/// # Errors
///
/// - `Given`: the bytes have no recipients, as `recipients_of_identities` says. Nothing was written.
/// - `Command(OutOfMemory)`: memory for the text was refused, and nothing was written, or the writer answered so.
/// - `Command`: as the writer refuses. A beginning of the text may have been written.
pub fn write_recipients_of<'a, S: Suite, W: Write>(
    alloc: Global,
    bytes: &'a [u8],
    writer: &mut W,
) -> Result<(), GivenError<IdentitiesError, Error>>
    ensures { WithGiven (λ e. RefusesOwnIdentities ⟦<ArmoredReader<BufReader<Bytes<'a>>> as Read>⟧ S bytes.now e) (writer.new ≡ writer.old)
        (λ (keys : List (List ℕ)). AreOfIdentities S.public_of bytes.now keys)
        (λ keys done. WritesText ⟦<W as Write>⟧ (recipients_text keys) writer.old writer.new done)
        (λ _ done told. Answers done told) result }
{
    match recipients_of_identities::<S>(alloc, bytes) {
        Err(error) => Err(GivenError::Given(error)),
        Ok(recipients) => match write_lines(alloc, &recipients, writer) {
            Ok(()) => Ok(()),
            Err(error) => Err(GivenError::Command(error)),
        },
    }
}
