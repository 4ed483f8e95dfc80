//! Keys that a passphrase protects.
ghost use Rattle.std.specs.Prelude.{◌≡◌, IfErr, IfOk, IfSome, IsTrue, None};
ghost use Rattle.age_examples.specs.ProtectedKeys.{AreOfProtected, HasNoPassphrase, GivesNoRecipients};

use age::Callbacks;
use age::encrypted::Identity;
use age::encrypted::laws::opened_files;
use age::io::Read;
use age::stream::StreamReader;
use age::streaming::FileError;
use age::suite::Suite;
use age::x25519::Recipient;
use std::alloc::Global;

/// The recipients of the identities in a protected identity file, for whose passphrase the callbacks are asked. `None` where the file
/// isn't one of a passphrase.
///
/// Where the reader tells its bytes, it had the file of an identity file's text under the passphrase that was given, and these are the
/// recipients of that text's lines, all of which are native. It refuses with `Decrypt` as `Decryptor::new`, and then nobody was asked, and
/// with `Encrypt` as `Identity::recipients`, of a file of a passphrase alone.
pub fn recipients_of<S: Suite, R: Read + Drop, C: Callbacks>(
    alloc: Global,
    input: R,
    callbacks: C,
) -> Result<Option<Vec<Recipient<S>>>, FileError>
    ensures recipients { IsTrue (R.tells input) → IsTrue (R.steady input) → IfOk result (λ made. IfSome made (λ recipients.
        AreOfProtected ⟦<S as Suite>⟧ ⟦<StreamReader<S, R> as Read>⟧ C.gives_passphrase (R.rest input) callbacks recipients.items)) }
    ensures none { IsTrue (R.tells input) → IfOk result (λ made. made ≡ None → HasNoPassphrase (R.rest input) (R.place input)) }
    ensures refused { IfErr result (GivesNoRecipients ⟦<S as Suite>⟧ ⟦<StreamReader<S, R> as Read>⟧ C.gives_passphrase input callbacks) }
{
    // For the proof alone.
    opened_files::<S, R, C>();
    let made: Option<Identity<S, R, C>> = Identity::from_buffer(
        alloc, input, None, callbacks, 18, None,
    )?;
    let Some(identity) = made else {
        return Ok(None);
    };
    let mut identity = identity;
    let recipients = identity.recipients(alloc)?;
    Ok(Some(recipients))
}
