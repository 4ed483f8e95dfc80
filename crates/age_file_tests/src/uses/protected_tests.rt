//! The recipients of protected identity files. Those that are expected were computed by a program of our own after BIP 173.

use crate::shared::{done, passphrase, sevens, written};
use age::io::Bytes;
use age::secrecy::SecretString;
use age::streaming::FileError;
use age::x25519::Recipient;
use age::{Callbacks, EncryptError, Encryptor};
use age_bench::suite::BenchSuite;
use age_examples::protected::recipients_of;
use std::alloc::Global;
use std::test::Fail;

const IDENTITIES: &[u8] =
    b"# a comment\nAGE-SECRET-KEY-1GQ9778VQXMMJVE8SK7J6VT8UJ4HDQAJUVSFCWCM02D8GEWQ72PVQ2Y5J33\n";

const RECIPIENT: &str = "age1rfgm2376djkhc042ahllca4xeu6g5tqx8eya6wf4py2ddcjypgpquw0u5y";

// Gives a passphrase once.
#[derive(Drop)]
struct Types {
    passphrase: Option<SecretString>,
}

impl Callbacks for Types {
    ghost use Rattle.std.specs.Prelude.{⊤};

    ghost displays = { λ _ _ _. ⊤ };

    ghost confirms = { λ _ _ _ _ _ _. ⊤ };

    ghost gives_string = { λ _ _ _ _. ⊤ };

    ghost gives_passphrase = { λ _ _ _ _. ⊤ };

    fn display_message(&mut self, _message: &str) {}

    fn confirm(&mut self, _message: &str, _yes: &str, _no: Option<&str>) -> Option<bool> {
        None
    }

    fn request_public_string(&mut self, _description: &str) -> Option<String> {
        None
    }

    fn request_passphrase(&mut self, _description: &str) -> Option<SecretString> {
        self.passphrase.take()
    }
}

// An encryptor under `correct horse`.
fn encryptor(alloc: Global) -> Result<Encryptor<BenchSuite>, Fail> {
    let mut draw = sevens(alloc, 72)?;
    let passphrase = passphrase(alloc, "correct horse")?;
    let made = Encryptor::<BenchSuite>::with_user_passphrase(alloc, passphrase, 10, &mut draw);
    done(made)
}

// The file of the identities under `correct horse`.
fn identity_file(alloc: Global) -> Result<Vec<u8>, Fail> {
    written(alloc, encryptor(alloc)?, IDENTITIES)
}

// What the recipients of the identities under `correct horse` are for who types this text.
fn recipients(
    alloc: Global,
    text: &str,
) -> Result<Result<Option<Vec<Recipient<BenchSuite>>>, FileError>, Fail> {
    let file = identity_file(alloc)?;
    let typed = Types {
        passphrase: Some(passphrase(alloc, text)?),
    };
    Ok(recipients_of(alloc, Bytes::new(file.as_slice()), typed))
}

// Whether this is the recipient that is expected, alone.
fn is_expected(alloc: Global, recipients: &[Recipient<BenchSuite>]) -> Result<bool, Fail> {
    match recipients.first() {
        Some(first) => {
            Ok(recipients.len() == 1 && first.to_string(alloc)?.as_str() == RECIPIENT)
        }
        None => Ok(false),
    }
}

// Whether it is a success with that recipient.
fn gives_expected<E: Drop>(
    alloc: Global,
    answer: Result<Option<Vec<Recipient<BenchSuite>>>, E>,
) -> Result<bool, Fail> {
    match answer {
        Ok(Some(recipients)) => is_expected(alloc, &recipients),
        _ => Ok(false),
    }
}

#[test]
fn the_recipients_are_those_of_the_file(rt: HostRuntime) -> Result<(), Fail> {
    let alloc = rt.alloc();
    assert!(rt; gives_expected(alloc, recipients(alloc, "correct horse")?)?);
    Ok(())
}

// Whether it is refused that identities are encrypted.
fn is_encrypted<T>(answer: &Result<T, FileError>) -> bool {
    matches!(
        answer,
        Err(FileError::Encrypt(EncryptError::EncryptedIdentities(_)))
    )
}

// Whether that is so for who types another text.
fn stays_encrypted(alloc: Global, text: &str) -> Result<bool, Fail> {
    Ok(is_encrypted(&recipients(alloc, text)?))
}

#[test]
fn another_passphrase_is_refused(rt: HostRuntime) -> Result<(), Fail> {
    assert!(rt; stays_encrypted(rt.alloc(), "correct horse ")?);
    Ok(())
}
