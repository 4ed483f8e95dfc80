//! The protected identity file that the Rust crate `age` ships with its tests.

use crate::done::{found, is_done};
use age::armor::ArmoredReader;
use age::encrypted::Identity;
use age::io::{BufReader, Bytes};
use age::secrecy::SecretString;
use age::streaming::{FileError, decrypt_all};
use age::x25519::Recipient;
use age::{EncryptError, scrypt};
use age_standard::StandardSuite;
use sazh_core::callbacks::GivesOnce;
use std::alloc::{AllocError, Global};
use std::process::Abort;
use std::test::Fail;

const FILE: &[u8] = b"-----BEGIN AGE ENCRYPTED FILE-----
YWdlLWVuY3J5cHRpb24ub3JnL3YxCi0+IHNjcnlwdCBza2I4R0t6L2NLT2s4cGlI
TTRGRjFRIDEwCnVodTdORmZjcCtjRmdnYU54bm8rZEJ5NWlrVHZLY1hyRzZEN2JE
ZVpwWnMKLS0tIEZTcDlSL3oyRC9NQ3JZa3ZvUzNaNlk4bnhBSUdJRTFrMmE4QzMr
UVNETlkK34fdtpwZz+qQaGuirGHEdodVe4JvnSG3ANQpWhkDcsRzoe/+OuHXNdnv
zhBhaKdthstzGXbd2yJbLrTH1A3YbWO+/3zTIZENzKU9XbibLLQ4M/TXwKMzoObY
oiMf5/+8GiQVREtHmm24wsc/479cVwnGVTdH7DL+wANmyf6S9Vc2FYQmXjLDxsJ0
LMF6Cpgcg09C2gg4pcb4TFUWmDuxnZrfggrptOtyzC8O8aRuKPZqCGnzoWNOWl86
fOrxrKTj7xCdNS3+OrCdnBC8Z9cKDxjCGWW3fkjLsYha0Jo=
-----END AGE ENCRYPTED FILE-----
";

const RECIPIENT: &str = "age1ysxuaeqlk7xd8uqsh8lsnfwt9jzzjlqf49ruhpjrrj5yatlcuf7qke4pqe";

// The last bytes of what it holds: the line of the identity.
const LAST_LINE: &[u8] =
    b"\nAGE-SECRET-KEY-1YZ3PRM0AJDSQEWZVRM7NKJL58NQMG3DRAA0JKHX5UL6ND5DJ5P2QJCU2JK\n";

// An identity in a text that is lent.
type Protected<'a> = Identity<StandardSuite, ArmoredReader<BufReader<Bytes<'a>>>, GivesOnce>;

// A secret of this text.
fn secret(alloc: Global, text: &str) -> Result<SecretString, Fail> {
    Ok(SecretString::from(String::from_str(alloc, text)?))
}

// The identity that the file protects, for one who gives this passphrase.
fn identity<'a>(alloc: Global, passphrase: &str) -> Result<Protected<'a>, Fail> {
    let callbacks = GivesOnce::new(Some(secret(alloc, passphrase)?));
    let input = ArmoredReader::new(alloc, Bytes::new(FILE))?;
    found(
        Identity::from_buffer(alloc, input, None, callbacks, 18, None)?,
        "the file isn't one of a passphrase",
    )
}

// What comes of decrypting a file with a passphrase.
fn decrypted(
    alloc: Global,
    passphrase: SecretString,
    file: &[u8],
    plain: &mut Vec<u8>,
) -> Result<(), FileError> {
    let knows = scrypt::Identity::new(passphrase, 18);
    decrypt_all::<StandardSuite, scrypt::Identity<StandardSuite>, Bytes, Vec<u8>>(
        alloc,
        &mut [knows],
        &mut Bytes::new(file),
        plain,
    )
}

// Whether a file is refused with this passphrase.
fn is_refused(alloc: Global, passphrase: &str, file: &[u8]) -> Result<bool, Fail> {
    let passphrase = secret(alloc, passphrase)?;
    Ok(!is_done(decrypted(alloc, passphrase, file, &mut Vec::new(alloc))))
}

// Whether the file is decrypted with this passphrase to so many bytes, of which these are the last.
fn opens_to(alloc: Global, passphrase: &str, length: usize, last: &[u8]) -> Result<bool, Fail> {
    let passphrase = secret(alloc, passphrase)?;
    let mut plain = Vec::new(alloc);
    let is_opened = is_done(decrypted(alloc, passphrase, FILE, &mut plain));
    Ok(is_opened && plain.len() == length && plain.as_slice().ends_with(last))
}

#[test]
fn passphrase_opens_it(rt: HostRuntime) -> Result<(), Fail> {
    assert!(rt; opens_to(rt.alloc(), "foobar", 189, LAST_LINE)?);
    Ok(())
}

#[test]
fn another_passphrase_does_not(rt: HostRuntime) -> Result<(), Fail> {
    assert!(rt; is_refused(rt.alloc(), "foobaz", FILE)?);
    Ok(())
}

// The file with a bit of the byte changed that stands 40 places before its end.
fn changed_file(alloc: Global) -> Result<Vec<u8>, Fail> {
    let mut file = Vec::from_slice(alloc, FILE)?;
    let place = file.len() - 40;
    file[place] ^= 1;
    Ok(file)
}

#[test]
fn changed_file_is_refused(rt: HostRuntime) -> Result<(), Fail> {
    let file = changed_file(rt.alloc())?;
    assert!(rt; is_refused(rt.alloc(), "foobar", &file)?);
    Ok(())
}

// Whether the recipients are one alone, and this text is that of it.
fn is_one(
    alloc: Global,
    recipients: &[Recipient<StandardSuite>],
    text: &str,
) -> Result<bool, AllocError> {
    match recipients {
        [recipient] => Ok(recipient.to_string(alloc)?.as_str() == text),
        _ => Ok(false),
    }
}

// The recipients of an identity.
fn recipients(
    alloc: Global,
    mut identity: Protected,
) -> Result<Vec<Recipient<StandardSuite>>, EncryptError> {
    identity.recipients(alloc)
}

// Whether the identity has this recipient alone, for one who gives this passphrase.
fn has_recipient(alloc: Global, passphrase: &str, text: &str) -> Result<bool, Fail> {
    let all = recipients(alloc, identity(alloc, passphrase)?)?;
    Ok(is_one(alloc, &all, text)?)
}

#[test]
fn recipient_is_that_of_its_identity(rt: HostRuntime) -> Result<(), Fail> {
    assert!(rt; has_recipient(rt.alloc(), "foobar", RECIPIENT)?);
    Ok(())
}

// Whether an encrypted file of identities didn't open.
fn stayed_closed<T: Drop>(answer: Result<T, EncryptError>) -> bool {
    matches!(answer, Err(EncryptError::EncryptedIdentities(_)))
}

// Whether they do for one who gives this passphrase.
fn stays_closed(alloc: Global, passphrase: &str) -> Result<bool, Fail> {
    let identity = identity(alloc, passphrase)?;
    Ok(stayed_closed(recipients(alloc, identity)))
}

#[test]
fn its_identities_stay_closed(rt: HostRuntime) -> Result<(), Fail> {
    assert!(rt; stays_closed(rt.alloc(), "foobaz")?);
    Ok(())
}
