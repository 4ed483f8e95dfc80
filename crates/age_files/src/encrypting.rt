//! Slices that are encrypted, with random bytes that are handed in.
ghost use Rattle.std.specs.Prelude.{◌≡◌, ◌<◌, ℕ, List, [], ◌∷◌, length, vec_items, Result, MatchResult};
ghost use Rattle.std.specs.Result.{result_map_both};
ghost use Rattle.age_files.specs.Encrypting.{EncryptsBytes, EncryptsTo, EncryptsUnder};
ghost use Rattle.age_slices.specs.Handing.{HandsOutAnswer};
ghost use Rattle.age_files.specs.Status;
ghost use Rattle.sazh_core.specs.Encrypting.{draws_for_keys, draws_for_passphrase};
ghost use Rattle.sazh_core.specs.declared.error.CommandError.{CommandError as command_error};
ghost use Rattle.sazh_core.specs.declared.error.CommandError.TheVariants.{Random};
ghost use Rattle.sazh_core.specs.declared.error.GivenError.{GivenError as given_error};
ghost use Rattle.sazh_core.specs.declared.error.PassphraseError.{PassphraseError as passphrase_error};
ghost use Rattle.sazh_core.specs.declared.error.RandomError.TheVariants.{OutOfMemory};
ghost use Rattle.sazh_core.specs.declared.error.RecipientsError.{RecipientsError as recipients_error};

use crate::status::{of_command, of_passphrase, of_recipients};
use age::armor::Format;
use age::io::Bytes;
use age::secrecy::SecretString;
use age::suite::Suite;
use age::suite::laws::known_bytes;
use age::{Recipient, scrypt, x25519};
use age_slices::handing::{hand_out, refuse};
use sazh_core::encrypting::{encrypt_to_keys, encrypt_under};
use sazh_core::error::{CommandError, GivenError, PassphraseError, RandomError, RecipientsError};
use sazh_core::passphrase::passphrase_of;
use sazh_core::random::GivenBytes;
use sazh_core::recipients::recipients_of;
use std::alloc::Global;

// A source of these random bytes.
fn source_of(alloc: Global, given: &[u8]) -> Result<GivenBytes, CommandError>
    ensures { MatchResult result (λ source. source ≡ given.now) (λ e. e ≡ Random OutOfMemory) }
{
    match Vec::from_slice(alloc, given) {
        Ok(bytes) => Ok(GivenBytes::new(bytes)),
        Err(_) => Err(CommandError::Random(RandomError::OutOfMemory)),
    }
}

// The file of a plaintext to these keys.
fn file_to_keys<S: Suite>(
    alloc: Global,
    keys: &[x25519::Recipient<S>],
    given: &[u8],
    format: Format,
    plain: &[u8],
) -> Result<Vec<u8>, CommandError>
    ensures { EncryptsBytes ⟦<x25519::Recipient<S> as Recipient>⟧.wraps keys.now
        (draws_for_keys (length keys.now)) given.now S.seal_of format plain.now
        (result_map_both vec_items (λ e. e) result) }
{
    let mut source = match source_of(alloc, given) {
        Ok(source) => source,
        Err(error) => return Err(error),
    };
    // For the proof alone: what is encrypted are bytes.
    known_bytes(plain);
    let mut reader = Bytes::new(plain);
    let mut file = Vec::new(alloc);
    match encrypt_to_keys::<S, GivenBytes, Bytes, Vec<u8>>(
        alloc,
        keys,
        &mut source,
        format,
        &mut reader,
        &mut file,
    ) {
        Ok(()) => Ok(file),
        Err(error) => Err(error),
    }
}

// The file of a plaintext under a passphrase.
fn file_under<S: Suite>(
    alloc: Global,
    passphrase: SecretString,
    given: &[u8],
    format: Format,
    plain: &[u8],
) -> Result<Vec<u8>, CommandError>
    ensures { EncryptsBytes ⟦<scrypt::Recipient<S> as Recipient>⟧.wraps (record { passphrase = passphrase; factor = 18 }
        ∷ []) draws_for_passphrase given.now
        S.seal_of format plain.now (result_map_both vec_items (λ e. e) result) }
{
    let mut source = match source_of(alloc, given) {
        Ok(source) => source,
        Err(error) => return Err(error),
    };
    // For the proof alone: what is encrypted are bytes.
    known_bytes(plain);
    let mut reader = Bytes::new(plain);
    let mut file = Vec::new(alloc);
    match encrypt_under::<S, GivenBytes, Bytes, Vec<u8>>(
        alloc,
        passphrase,
        &mut source,
        format,
        &mut reader,
        &mut file,
    ) {
        Ok(()) => Ok(file),
        Err(error) => Err(error),
    }
}

/// The file of a plaintext, or its armor, encrypted to the recipients in `text`, one to a line as in a file of recipients, and to no other.
///
/// The random bytes are the first ones of `given`: 32 for the file and 32 more for each recipient. More may be handed in, and aren't used.
///
/// # Errors
///
/// - `Given`: the text names no recipients, as `recipients_of` says.
/// - `Command(Random(NoRandom))`: fewer random bytes were handed in.
/// - `Command(File(Encrypt))`: a recipient refuses, or memory was refused.
/// - `Command(File(Io))`: the plaintext has more than 2^60 bytes, or memory was refused.
pub fn encrypt_to<S: Suite>(
    alloc: Global,
    text: &[u8],
    given: &[u8],
    format: Format,
    plain: &[u8],
) -> Result<Vec<u8>, GivenError<RecipientsError, CommandError>>
    ensures { EncryptsTo ⟦<x25519::Recipient<S> as Recipient>⟧.wraps S.seal_of text.now given.now format plain.now (result_map_both vec_items
        (λ e. e) result) }
{
    match recipients_of::<S>(alloc, text) {
        Err(error) => Err(GivenError::Given(error)),
        Ok(keys) => match file_to_keys::<S>(alloc, &keys, given, format, plain) {
            Ok(file) => Ok(file),
            Err(error) => Err(GivenError::Command(error)),
        },
    }
}

/// The file of a plaintext, or its armor, encrypted with the passphrase that a text gives, its first line, by the work factor 18.
///
/// The random bytes are the first 72 of `given`. More may be handed in, and aren't used.
///
/// # Errors
///
/// - `Given`: the text gives no passphrase, as `passphrase_of` says.
/// - `Command`: as those of `encrypt_to`.
pub fn encrypt_with<S: Suite>(
    alloc: Global,
    text: &[u8],
    given: &[u8],
    format: Format,
    plain: &[u8],
) -> Result<Vec<u8>, GivenError<PassphraseError, CommandError>>
    ensures { EncryptsUnder ⟦<scrypt::Recipient<S> as Recipient>⟧.wraps S.seal_of text.now given.now format plain.now (result_map_both vec_items
        (λ e. e) result) }
{
    match passphrase_of(alloc, text) {
        Err(error) => Err(GivenError::Given(error)),
        Ok(passphrase) => match file_under::<S>(alloc, passphrase, given, format, plain) {
            Ok(file) => Ok(file),
            Err(error) => Err(GivenError::Command(error)),
        },
    }
}

// The number of why a plaintext isn't encrypted to recipients.
fn status_to(error: &GivenError<RecipientsError, CommandError>) -> u32
    ensures number { result ≡ Status.of_given Status.of_recipients Status.of_command error.now }
    ensures above { 1 < result }
{
    match error {
        GivenError::Given(error) => of_recipients(*error),
        GivenError::Command(error) => of_command(error),
    }
}

// The number of why a plaintext isn't encrypted with a passphrase.
fn status_with(error: &GivenError<PassphraseError, CommandError>) -> u32
    ensures number { result ≡ Status.of_given Status.of_passphrase Status.of_command error.now }
    ensures above { 1 < result }
{
    match error {
        GivenError::Given(error) => of_passphrase(*error),
        GivenError::Command(error) => of_command(error),
    }
}

/// Hands out what `encrypt_to` answers: the file at the front of `out` and how many bytes it has, or a number above 0, of which 1 says that `out` is
/// too short, and then how long it has to be, and the others are those of refusals. But where it succeeds `out` stays as it was.
pub fn encrypt_to_out<S: Suite>(
    alloc: Global,
    text: &[u8],
    given: &[u8],
    format: Format,
    plain: &[u8],
    out: &mut [u8],
    written: &mut usize,
) -> u32
    ensures { (answer : Result (List ℕ) (given_error recipients_error command_error))
        × EncryptsTo ⟦<x25519::Recipient<S> as Recipient>⟧.wraps S.seal_of text.now given.now format plain.now answer
        × HandsOutAnswer (Status.of_given Status.of_recipients Status.of_command) answer out.old out.new written.new result }
{
    match encrypt_to::<S>(alloc, text, given, format, plain) {
        Ok(file) => hand_out(&file, out, written),
        Err(error) => refuse(status_to(&error), written),
    }
}

/// Hands out what `encrypt_with` answers, as `encrypt_to_out` does.
pub fn encrypt_with_out<S: Suite>(
    alloc: Global,
    text: &[u8],
    given: &[u8],
    format: Format,
    plain: &[u8],
    out: &mut [u8],
    written: &mut usize,
) -> u32
    ensures { (answer : Result (List ℕ) (given_error passphrase_error command_error))
        × EncryptsUnder ⟦<scrypt::Recipient<S> as Recipient>⟧.wraps S.seal_of text.now given.now format plain.now answer
        × HandsOutAnswer (Status.of_given Status.of_passphrase Status.of_command) answer out.old out.new written.new result }
{
    match encrypt_with::<S>(alloc, text, given, format, plain) {
        Ok(file) => hand_out(&file, out, written),
        Err(error) => refuse(status_with(&error), written),
    }
}
