//! What is true of protected files, for proofs alone: these functions do nothing.
ghost use Rattle.age_encrypted.specs.Protected.{HoldsItsEntries, RefusesWithoutText};

use age_identity::Callbacks;
use age_io::Read;
use age_stream::reader::StreamReader;
use age_suite::suite::Suite;

/// What opening a protected file comes to, by `EncryptedIdentity::decrypt` or in the first use of an `Identity`:
///
/// - `entries`: what opens holds the entries of the file. Where the reader tells its bytes, the file was one of a plaintext under the
///   passphrase that was given, and they are the entries of its lines.
/// - `refusals`: what is refused carries no text. So each later use of an `Identity` answers that very refusal.
pub fn opened_files<S: Suite, R: Read + Drop, C: Callbacks>()
    ensures entries { HoldsItsEntries ⟦<S as Suite>⟧ ⟦<StreamReader<S, R> as Read>⟧ C.gives_passphrase }
    ensures refusals { RefusesWithoutText ⟦<S as Suite>⟧ ⟦<StreamReader<S, R> as Read>⟧ C.gives_passphrase }
{}
