//! What is true of files and labels, for proofs alone: the functions here do nothing, and their contracts are the laws.
ghost use Rattle.std.specs.Prelude.{◌↔◌, IsTrue, List, ℕ};
ghost use Rattle.std.specs.List.{Contains};
ghost use Rattle.age_error.specs.Labels.{labels_of};
ghost use Rattle.age_v1.specs.Recipients.{same_labels};
ghost use Rattle.age_protocol.specs.Several.{HoldAnswers, OneDecrypts, AnyDecrypts};
ghost use Rattle.age_protocol.specs.Passphrases.{PassphraseHolds, PassphraseDecrypts, PassphraseRefuses};
ghost use Rattle.age_protocol.specs.Laws.{ReadsBack, RefusesNoFile, FileOpens, FileIsContent, OneHeader, OnePlain, CarriesItself, GivesBack, RefusesNone};

use age_armor::{carried_is_delivered, carried_is_unique};
use age_format::{Identity, Recipient, header_text_reads_back, verdict_is_unique};
use age_io::Read;
use age_stream::laws::payload_laws;
use age_suite::mac::mac_laws;
use age_suite::suite::Suite;
use std::collections::BTreeSet;

/// A decryptor that was made of bytes which begin as a file has read the file's header and nonce, and no byte more.
pub fn front_reads_back()
    ensures { ReadsBack }
{
    header_text_reads_back();
    verdict_is_unique();
}

/// `Decryptor::new` refuses bytes that begin as a file for want of memory, or after a fault of the device, and else never.
pub fn front_is_accepted<R: Read>()
    ensures { RefusesNoFile ⟦<R as Read>⟧ }
{
    header_text_reads_back();
    verdict_is_unique();
}

/// Where the bytes are a file of a plaintext under a file key:
///
/// - `payload`: a decryptor's header has the right MAC under that file key, and the payload of the plaintext, under its payload
///   key, is what is left. So `Decryptor::decrypt` with that file key is no `InvalidMac`.
/// - `content`: the reader that it gives has the plaintext as its content, and stands before it, where the file is all that
///   there is. So `run` on it answers reads and seeks as a cursor on the plaintext. The suite must not open a full last
///   chunk under the nonce of one in the middle.
pub fn file_opens<S: Suite, R: Read>()
    ensures payload { FileOpens S.seal_of }
    ensures content { FileIsContent ⟦<S as Suite>⟧ ⟦<R as Read>⟧ }
{
    front_reads_back();
}

/// The bytes of a file tell its stanzas, and under one file key its plaintext.
pub fn one_plaintext<S: Suite>()
    ensures header { OneHeader S.seal_of }
    ensures plaintext { OnePlain S.seal_of }
{
    header_text_reads_back();
    verdict_is_unique();
    payload_laws::<S>();
    mac_laws();
}

/// A file that isn't armored carries itself: no file is so short that it would be refused, and none begins as armor does.
pub fn files_carry_themselves<S: Suite>()
    ensures { CarriesItself S.seal_of }
{}

/// A text that carries a file, bare or armored, whose file key the identity gets: what a success of `decrypt` says of it is
/// true of no other plaintext, and what a refusal says of it is true of want of memory alone.
pub fn carried_files<S: Suite, I: Identity>()
    ensures gives_back { GivesBack S.seal_of I.unwraps }
    ensures refuses_none { RefusesNone S.seal_of I.unwraps }
{
    header_text_reads_back();
    verdict_is_unique();
    carried_is_unique();
    carried_is_delivered();
    one_plaintext::<S>();
}

/// Files for several recipients, and the identities that belong to one of them:
///
/// - `stanzas`: a file holds the stanzas that each recipient wrapped its file key in, in the recipients' order, and then the
///   grease, which is left out beside a stanza of a passphrase.
/// - `one`: it is a file for each identity that answers its file key to its stanzas.
/// - `any`: it is a file for each identity that belongs to one of the recipients, where those before that one wrap in nothing but
///   what is strange to the identity. So `decrypt` and `decrypt_all` with that identity alone give its plaintext.
pub fn several_recipients<S: Suite, T: Recipient, I: Identity>()
    ensures stanzas { HoldAnswers T.wraps }
    ensures one { OneDecrypts I.unwraps S.seal_of }
    ensures any { AnyDecrypts T.wraps I.unwraps S.seal_of }
{}

/// What `Encryptor::with_user_passphrase` prepares, or why it refuses, and the identities that have the passphrase:
///
/// - `holds`: a file holds the recipient's stanza alone, so it is one of a passphrase, and the suite accepts the work factor.
/// - `opens`: it is a file for each identity that has the passphrase and takes the work factor. So `decrypt` with that identity
///   gives its plaintext.
/// - `refuses`: a refusal is `ShortRandom`, `WorkFactorRefused` where the suite doesn't accept the factor, or `OutOfMemory`.
pub fn passphrase_files<S: Suite>()
    ensures holds { PassphraseHolds ⟦<S as Suite>⟧ }
    ensures opens { PassphraseDecrypts ⟦<S as Suite>⟧ }
    ensures refuses { PassphraseRefuses ⟦<S as Suite>⟧ }
{}

/// Labels are compared as sets: two sets are the same, by their texts in order, exactly where each has the labels of the
/// other.
pub fn labels_are_sets(left: &BTreeSet<String>, right: &BTreeSet<String>)
    ensures { IsTrue (same_labels (labels_of left.now) (labels_of right.now))
        ↔ ((label : List ℕ) → Contains (labels_of left.now) label ↔ Contains (labels_of right.now) label) }
{
    let _left = left.len();
    let _right = right.len();
}
