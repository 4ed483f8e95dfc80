//! Files of a passphrase, and who knows one.
ghost use Rattle.std.specs.Prelude.{◌≡◌, ◌==◌, IfOk, IfErr};
ghost use Rattle.std.specs.List.{before_first, position};
ghost use Rattle.std.specs.Str.Lines.{strip_carriage_return};
ghost use Rattle.sazh_core.specs.Passphrase.{first_line, RefusesPassphrase};

use crate::error::PassphraseError;
use age::scrypt;
use age::secrecy::SecretString;
use std::alloc::Global;

// The place of the first line feed, if there is one.
fn line_feed(text: &[u8]) -> Option<usize>
    ensures { result ≡ position (λ byte. byte == 10) text.now }
{
    text.iter().position(|byte| *byte == b'\n')
}

// The bytes before the first line feed, or all where there is none.
fn before_line_feed(text: &[u8]) -> &[u8]
    ensures { result.now ≡ before_first (λ byte. byte == 10) text.now }
{
    match line_feed(text) {
        None => text,
        Some(end) => &text[..end],
    }
}

// The bytes without the carriage return at their end, if there is one.
fn without_carriage_return(line: &[u8]) -> &[u8]
    ensures { result.now ≡ strip_carriage_return line.now }
{
    let Some((last, before)) = line.split_last() else {
        return line;
    };
    if *last == b'\r' { before } else { line }
}

/// The passphrase that a file's text gives: its first line, without the LF or CRLF at its end. What follows is passed over.
///
/// # Errors
///
/// - `Empty`: the line is empty, or there is none.
/// - `NotText`: the line isn't UTF-8.
/// - `OutOfMemory`: memory was refused.
pub fn passphrase_of(alloc: Global, text: &[u8]) -> Result<SecretString, PassphraseError>
    ensures value { IfOk result (λ passphrase. passphrase ≡ first_line text.now) }
    ensures refused { IfErr result (λ e. RefusesPassphrase e text.now) }
{
    let line = without_carriage_return(before_line_feed(text));
    if line.is_empty() {
        return Err(PassphraseError::Empty);
    }
    let Ok(passphrase) = str::from_utf8(line) else {
        return Err(PassphraseError::NotText);
    };
    match String::from_str(alloc, passphrase) {
        Err(_) => Err(PassphraseError::OutOfMemory),
        Ok(passphrase) => Ok(SecretString::from(passphrase)),
    }
}

/// The work factor that a passphrase is stretched with, the logarithm to base 2 of scrypt's N: about a second's work.
pub const WORK_FACTOR: u8 = 18;

/// The recipient of a passphrase, with the work factor 18.
pub fn recipient_of<S>(passphrase: SecretString) -> scrypt::Recipient<S>
    ensures { result ≡ record { passphrase = passphrase; factor = 18 } }
{
    scrypt::Recipient::new(passphrase, WORK_FACTOR)
}

/// The identity of a passphrase. It takes work factors up to 22, which is 16 times the work of its own files.
pub fn identity_of<S>(passphrase: SecretString) -> scrypt::Identity<S>
    ensures { result ≡ record { passphrase = passphrase; target = 18; most = 22 } }
{
    scrypt::Identity::new(passphrase, WORK_FACTOR)
}
