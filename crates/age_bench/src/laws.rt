//! What is true of the bench recipient and its files, for proofs alone: the functions here do nothing, and their contracts are
//! the laws.
ghost use Rattle.age.specs.Belonging.{BelongsTo};
ghost use Rattle.age_bench.specs.FileLaws.{IsBenchFile, IsCarried, CarriesOnlyIt, IsForBench};
ghost use Rattle.age_bench.specs.Names.{GoesWith, is_other_to};
ghost use Rattle.age_bench.specs.Recipient.{has_other_tag};
ghost use Rattle.age_bench.specs.declared.names.With.TheVariants.{Passphrase};

use crate::names::{To, With};
use crate::recipient::{BenchIdentity, BenchRecipient};
use crate::suite::BenchSuite;
use age::armor::laws::{armor_is_carrying, carried_is_unique};
use age::format::laws::{header_text_reads_back, verdict_is_unique};
use age::scrypt::Identity as PassphraseIdentity;
use age::scrypt::laws::scrypt_pair;
use age::stream::laws::{payload_laws, piece_law};
use age::x25519::laws::x25519_pair;
use age::{Identity, Recipient};

/// What is true of the file that `encrypt_to` appends where it is asked for `bench`.
///
/// - `is_file`: it is a file of its plaintext.
/// - `is_carried`: what is appended in either form carries that file.
/// - `gives_back`: what a success of `decrypt_with` with `bench` says of it is true of no other plaintext. So what is encrypted and
///   then decrypted is as it was.
/// - `is_for_bench`: a file whose first bench stanza holds its file key is one for `bench`, so `decrypt_with`, `at_with` and
///   `answers_with` succeed on it but for want of memory, as their clauses say.
pub fn bench_file_laws()
    ensures is_file { IsBenchFile }
    ensures is_carried { IsCarried }
    ensures gives_back { CarriesOnlyIt }
    ensures is_for_bench { IsForBench }
{
    header_text_reads_back();
    verdict_is_unique();
    piece_law();
    payload_laws::<BenchSuite>();
    armor_is_carrying();
    carried_is_unique();
}

/// The bench identity belongs to the bench recipient: it answers the file key that the recipient wrapped, whatever stands after
/// the recipient's stanza, and whatever stanzas with another tag stand before it. So by `several_recipients` it decrypts each file
/// that is for the bench recipient too, where no recipient before that one wraps in a stanza with the tag `bench`.
pub fn bench_pair(recipient: &BenchRecipient, identity: &BenchIdentity)
    ensures { BelongsTo ⟦<BenchRecipient as Recipient>⟧.wraps ⟦<BenchIdentity as Identity>⟧.unwraps has_other_tag recipient.now identity.now }
{
    let _recipient = recipient;
    let _identity = identity;
}

// One who knows a passphrase belongs to all who know it, where the work factor of those is taken.
fn passphrase_pair(to: &To, identity: &PassphraseIdentity<BenchSuite>)
    ensures { GoesWith to.now (Passphrase identity.now) →
        BelongsTo ⟦<To as Recipient>⟧.wraps ⟦<With as Identity>⟧.unwraps (is_other_to (Passphrase identity.now)) to.now (Passphrase identity.now) }
{
    if let To::Passphrase(recipient) = to {
        scrypt_pair(recipient, identity);
    }
}

/// What WITH names belongs to what TO names, where the two go together: the identity of the bench suite to its recipient, that of a
/// secret to the recipient of its public value, and that of a passphrase to each recipient of it whose work factor it takes. So by
/// `several_recipients` a file that is encrypted to the one is one for the other.
pub fn named_pair(to: &To, with: &With)
    ensures { GoesWith to.now with.now → BelongsTo ⟦<To as Recipient>⟧.wraps ⟦<With as Identity>⟧.unwraps (is_other_to with.now) to.now with.now }
{
    match with {
        With::Bench => bench_pair(&BenchRecipient, &BenchIdentity),
        With::Key(identity) => x25519_pair(identity),
        With::Passphrase(identity) => passphrase_pair(to, identity),
    }
}
