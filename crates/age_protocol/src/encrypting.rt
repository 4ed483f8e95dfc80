//! Wrapping a file key for several recipients.
ghost use Rattle.std.specs.Prelude.{◌≢◌, []};
ghost use Rattle.age_v1.specs.Header.{KeepsScryptRule};
ghost use Rattle.age_v1.specs.Recipients.{WrapAnswer, nothing_yet, judged};
ghost use Rattle.age_v1.specs.Encrypting.{IsOrNoMemory, WrapsInTurn, PreparesNonce, PreparesRest, PreparesWith, Prepares};
ghost use Rattle.age_protocol.specs.Answers.{encrypt_answer};

use crate::encryptor::Encryptor;
use crate::gathering::Gathered;
use age_error::EncryptError;
use age_format::{Grease, Recipient, Stanza};
use age_suite::draw::Draw;
use age_suite::secrecy::FileKey;
use age_suite::suite::Suite;
use std::alloc::Global;

// With the answer of one more recipient.
fn wrap_next<R: Recipient>(
    alloc: Global,
    recipient: &R,
    file_key: &FileKey,
    draw: &mut Draw,
    so_far: Gathered,
) -> Result<Gathered, EncryptError>
    ensures { (answer : WrapAnswer) × R.wraps recipient.now file_key.now draw.old answer draw.new
        × IsOrNoMemory (judged so_far answer) (encrypt_answer result) }
{
    let (stanzas, labels) = recipient.wrap_file_key(alloc, file_key, draw)?;
    so_far.join(stanzas, labels)
}

// The answers of all recipients in turn; the first refusal ends it.
fn wrap_in_turn<R: Recipient>(
    alloc: Global,
    recipients: &[R],
    file_key: &FileKey,
    draw: &mut Draw,
) -> Result<Gathered, EncryptError>
    ensures { WrapsInTurn R.wraps file_key.now nothing_yet recipients.now draw.old (encrypt_answer result) draw.new }
{
    let mut so_far = Gathered::nothing(alloc);
    let mut rest = recipients;
    while let Some((recipient, tail)) = rest.split_first() {
        so_far = wrap_next(alloc, recipient, file_key, draw, so_far)?;
        rest = tail;
    }
    Ok(so_far)
}

// With a nonce drawn, and then the header made.
fn prepare_nonce<S: Suite>(
    alloc: Global,
    file_key: FileKey,
    stanzas: Vec<Stanza>,
    draw: &mut Draw,
) -> Result<Encryptor<S>, EncryptError>
    requires some { stanzas.items ≢ [] }
    requires rule { KeepsScryptRule stanzas.items }
    ensures { PreparesNonce file_key stanzas.items draw.old (encrypt_answer result) draw.new }
{
    match draw.take::<16>() {
        Some(nonce) => Encryptor::with_header(alloc, file_key, stanzas, nonce),
        None => Err(EncryptError::ShortRandom),
    }
}

// With the stanzas of the header, and a nonce drawn.
fn prepare_rest<S: Suite>(
    alloc: Global,
    file_key: FileKey,
    all: Gathered,
    grease: Option<Grease>,
    draw: &mut Draw,
) -> Result<Encryptor<S>, EncryptError>
    ensures { PreparesRest file_key grease all draw.old (encrypt_answer result) draw.new }
{
    let stanzas = all.close(grease)?;
    prepare_nonce(alloc, file_key, stanzas, draw)
}

// With a file key that was drawn.
fn prepare_with<S: Suite, R: Recipient>(
    alloc: Global,
    recipients: &[R],
    file_key: FileKey,
    grease: Option<Grease>,
    draw: &mut Draw,
) -> Result<Encryptor<S>, EncryptError>
    ensures { PreparesWith R.wraps recipients.now grease file_key draw.old (encrypt_answer result) draw.new }
{
    match wrap_in_turn(alloc, recipients, &file_key, draw) {
        Ok(all) => prepare_rest(alloc, file_key, all, grease, draw),
        Err(error) => Err(error),
    }
}

/// A file key drawn and wrapped for recipients of any one type, and a nonce drawn.
///
/// Without grease, recipients that answer no stanza are as none: `MissingRecipients`.
pub(crate) fn prepare<S: Suite, R: Recipient>(
    alloc: Global,
    recipients: &[R],
    draw: &mut Draw,
    grease: Option<Grease>,
) -> Result<Encryptor<S>, EncryptError>
    ensures { Prepares R.wraps recipients.now grease draw.old (encrypt_answer result) draw.new }
{
    match draw.take::<16>() {
        Some(bytes) => prepare_with(alloc, recipients, FileKey::new(bytes), grease, draw),
        None => Err(EncryptError::ShortRandom),
    }
}
