//! The rules on the labels and stanzas of recipients.

ghost use Rattle.std.specs.Prelude.{◌≡◌, ◌≢◌, [], false, string_bytes, Ok, IfOk};
ghost use Rattle.std.specs.Result.{result_map_both};
ghost use Rattle.std.specs.List.{list_all};
ghost use Rattle.age_v1.specs.Stanza.{is_string_of};
ghost use Rattle.std.specs.Option.{option_map};
ghost use Rattle.age_error.specs.Labels.{labels_of};
ghost use Rattle.age_v1.specs.Header.{KeepsScryptRule};
ghost use Rattle.age_error.specs.EncryptErrors.{encrypt_refusal};
ghost use Rattle.std.specs.Vec.{vec_items};
ghost use Rattle.age_v1.specs.Encrypting.{IsOrNoMemory};
ghost use Rattle.age_v1.specs.Recipients.{nothing_yet, has_scrypt, same_labels, agreed_labels, judged, greased, closed};

use age_error::EncryptError;
use age_format::{Grease, Stanza, is_string};
use std::alloc::Global;
use std::collections::BTreeSet;
use std::marker::Model;

/// What the recipients so far come to.
#[derive(Drop)]
pub(crate) struct Gathered {
    labels: Option<BTreeSet<String>>,
    stanzas: Vec<Stanza>,
}

impl Model for Gathered {
    ghost use Rattle.std.specs.Option.{option_map};
    ghost use Rattle.age_error.specs.Labels.{labels_of};
    ghost use Rattle.age_v1.specs.Recipients.{Gathered as Seen};

    ghost Value = { Seen };

    ghost view = { λ g. record { labels = option_map labels_of g.labels; stanzas = g.stanzas.items } };
}

/// Whether a stanza is one of a passphrase.
pub(crate) fn is_scrypt_among(stanzas: &[Stanza]) -> bool
    ensures { result ≡ has_scrypt stanzas.now }
{
    stanzas.iter().any(|stanza| stanza.tag() == "scrypt")
}

/// Whether each label is a string of the format, by the labels as they lie in the set.
fn is_each_label(labels: &BTreeSet<String>) -> bool
    ensures { result ≡ list_all (λ label. is_string_of (string_bytes label)) labels.now.keys }
{
    labels.iter().all(|label| is_string(label.as_str()))
}

/// Whether each label is a string of the format.
fn are_labels(labels: &BTreeSet<String>) -> bool
    ensures { result ≡ list_all is_string_of (labels_of labels.now) }
{
    is_each_label(labels)
}

/// Whether two sets have the same labels.
fn are_same(l_labels: &BTreeSet<String>, r_labels: &BTreeSet<String>) -> bool
    ensures { result ≡ same_labels (labels_of l_labels.now) (labels_of r_labels.now) }
{
    l_labels == r_labels
}

/// The labels that all share after one more recipient.
fn agreed(
    first: Option<BTreeSet<String>>,
    labels: BTreeSet<String>,
    with_scrypt: bool,
) -> Result<BTreeSet<String>, EncryptError>
    ensures { result_map_both (λ l. labels_of l) (λ e. encrypt_refusal e) result
        ≡ agreed_labels (option_map (λ l. labels_of l) first) (labels_of labels) with_scrypt }
{
    match first {
        None => {
            if are_labels(&labels) {
                Ok(labels)
            } else {
                Err(EncryptError::InvalidRecipientLabels(labels))
            }
        }
        Some(l_labels) => {
            if are_same(&l_labels, &labels) {
                Ok(l_labels)
            } else if with_scrypt {
                Err(EncryptError::MixedRecipientAndPassphrase)
            } else {
                Err(EncryptError::IncompatibleRecipients {
                    l_labels,
                    r_labels: labels,
                })
            }
        }
    }
}

// The stanzas, of which none is one of a passphrase, and then the grease, if there is one.
fn with_grease(
    mut stanzas: Vec<Stanza>,
    grease: Option<Grease>,
) -> Result<Vec<Stanza>, EncryptError>
    requires none { has_scrypt stanzas.items ≡ false }
    ensures all { IsOrNoMemory (greased stanzas.items grease) (result_map_both vec_items (λ e. encrypt_refusal e) result) }
    ensures some { IfOk result (λ all. all.items ≢ []) }
    ensures rule { IfOk result (λ all. KeepsScryptRule all.items) }
{
    match grease {
        Some(grease) => {
            stanzas.push(grease.into_stanza())?;
            Ok(stanzas)
        }
        None if stanzas.is_empty() => Err(EncryptError::MissingRecipients),
        None => Ok(stanzas),
    }
}

impl Gathered {
    /// What no recipients come to.
    pub(crate) fn nothing(alloc: Global) -> Gathered
        ensures { result ≡ nothing_yet }
    {
        Gathered {
            labels: None,
            stanzas: Vec::new(alloc),
        }
    }

    /// With one more recipient's stanzas and labels.
    pub(crate) fn join(
        self,
        mut stanzas: Vec<Stanza>,
        labels: BTreeSet<String>,
    ) -> Result<Gathered, EncryptError>
        ensures { IsOrNoMemory (judged self (Ok (record { stanzas = stanzas.items; labels = labels_of labels })))
            (result_map_both (λ g. g) (λ e. encrypt_refusal e) result) }
    {
        let Gathered {
            labels: first,
            stanzas: mut all,
        } = self;
        let with_scrypt = is_scrypt_among(&all) || is_scrypt_among(&stanzas);
        let labels = agreed(first, labels, with_scrypt)?;
        all.append(&mut stanzas)?;
        Ok(Gathered {
            labels: Some(labels),
            stanzas: all,
        })
    }

    /// The stanzas of the header: one or more.
    pub(crate) fn close(self, grease: Option<Grease>) -> Result<Vec<Stanza>, EncryptError>
        ensures closed { IsOrNoMemory (closed self.labels self.stanzas grease) (result_map_both vec_items (λ e. encrypt_refusal e) result) }
        ensures some { IfOk result (λ stanzas. stanzas.items ≢ []) }
        ensures rule { IfOk result (λ stanzas. KeepsScryptRule stanzas.items) }
    {
        let Gathered { labels, stanzas } = self;
        if labels.is_none() {
            return Err(EncryptError::MissingRecipients);
        }
        if is_scrypt_among(&stanzas) {
            if stanzas.len() != 1 {
                return Err(EncryptError::MixedRecipientAndPassphrase);
            }
            return Ok(stanzas);
        }
        with_grease(stanzas, grease)
    }
}
