//! What is true of recipients and identities of passphrases, for proofs alone: the functions here do nothing, and their contracts are the
//! laws.
ghost use Rattle.age_v1.specs.Belonging.{BelongsTo};
ghost use Rattle.age_keys.specs.ScryptLaws.{IsMeantFor, RefusesUnopened, has_other_tag};

use crate::scrypt::identity::Identity;
use crate::scrypt::recipient::Recipient;
use age_suite::suite::Suite;

/// An identity belongs to each recipient of the same passphrase whose work factor it takes: it answers the file key that the recipient
/// wrapped, or want of memory, whatever was drawn. (In a header the recipient's stanza stands alone.)
pub fn scrypt_pair<S: Suite>(recipient: &Recipient<S>, identity: &Identity<S>)
    ensures { IsMeantFor recipient.now identity.now →
        BelongsTo ⟦<Recipient<S> as age_format::Recipient>⟧.wraps
        ⟦<Identity<S> as age_format::Identity>⟧.unwraps has_other_tag recipient.now identity.now }
{
    recipient.known();
}

/// What an identity answers to a stanza of this type that its passphrase doesn't open: `DecryptionFailed`, or want of memory. The stanza
/// has a salt, a work factor that identity and suite take, and a body of 32 bytes. That the stanza of another passphrase isn't opened is
/// nothing that a suite promises.
pub fn scrypt_unopened<S: Suite>(identity: &Identity<S>)
    ensures { RefusesUnopened S.opened S.stretch_of S.accepts identity.now }
{}
