//! What is true of X25519 recipients and identities, for proofs alone: the functions here do nothing, and their contracts are the laws.
ghost use Rattle.age_error.specs.Bytes.{AreBytesOf};
ghost use Rattle.age_v1.specs.Belonging.{AnswersBeside, BelongsTo};
ghost use Rattle.age_keys.specs.X25519Laws.{UnwrapsWhatItWraps, has_other_tag, IsPassedOver, PassesUnopened};

use crate::x25519::identity::Identity;
use crate::x25519::recipient::Recipient;
use age_suite::suite::Suite;

/// What the recipient of a secret of 32 bytes wraps is one stanza without labels, to which the identity of that secret answers the
/// file key, or want of memory, whatever was drawn. `to_public` gives that recipient.
pub fn x25519_laws<S: Suite>()
    ensures { UnwrapsWhatItWraps S.seal_of S.opened S.shared_of S.public_of }
{}

/// An identity belongs to the recipient that `to_public` gives: it answers the file key that the recipient wrapped, or want of memory,
/// whatever stands after the recipient's stanza.
///
/// - `beside_others`: whatever stanzas of other types stand before it.
/// - `beside_passed`: whatever stanzas stand before it that the identity passes over.
/// - `unopened`: it passes over a stanza of this type that has one share and a body of 32 bytes, and whose body the secret doesn't
///   open. That the stanzas of other X25519 recipients are such is nothing that a suite promises.
///
/// So by `several_recipients` it decrypts each file that is for its recipient too, where the recipients before that one wrap in stanzas
/// of other types alone.
pub fn x25519_pair<S: Suite>(identity: &Identity<S>)
    ensures beside_others { BelongsTo ⟦<Recipient<S> as age_format::Recipient>⟧.wraps ⟦<Identity<S> as age_format::Identity>⟧.unwraps has_other_tag
        (S.public_of identity.now) identity.now }
    ensures beside_passed { AnswersBeside ⟦<Recipient<S> as age_format::Recipient>⟧.wraps ⟦<Identity<S> as age_format::Identity>⟧.unwraps
        (IsPassedOver S.opened S.shared_of S.public_of identity.now) (S.public_of identity.now) identity.now }
    ensures unopened { PassesUnopened S.opened S.shared_of S.public_of identity.now }
{
    identity.known();
}

/// What contracts know of a recipient, its public value, is 32 bytes.
pub fn known_recipient<S>(recipient: &Recipient<S>)
    ensures { AreBytesOf 32 recipient.now }
{
    recipient.known();
}

/// What contracts know of an identity, its secret, is 32 bytes.
pub fn known_identity<S>(identity: &Identity<S>)
    ensures { AreBytesOf 32 identity.now }
{
    identity.known();
}
