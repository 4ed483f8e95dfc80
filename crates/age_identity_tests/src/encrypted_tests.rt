//! Files of identities that are encrypted with a passphrase, opened once.

use crate::fixtures::{
    Counts, Knows, NEVER, QUESTION, count, counted, one_who_knows, protected, protected_by_nobody,
    protected_key,
};
use age::armor::ArmoredReader;
use age::io::{Bytes, Read};
use age::{Callbacks, DecryptError, Decryptor, IdentityFile};
use age_bench::suite::BenchSuite;
use age_encrypted::{EncryptedIdentity, NotOpened};
use std::alloc::Global;
use std::test::Fail;
use test_support::answers::is_refusal;
use test_support::fixtures::armored;

// An encrypted file, for one who gives a passphrase, if there is one, with the target 18.
fn encrypted<'a, R: Read + Drop>(
    alloc: Global,
    input: R,
    text: Option<&str>,
    most: Option<u8>,
    counts: &'a mut Counts,
) -> Result<EncryptedIdentity<BenchSuite, R, Knows<'a>>, Fail> {
    let callbacks = one_who_knows(alloc, text, counts)?;
    match EncryptedIdentity::new(Decryptor::new(alloc, input)?, callbacks, 18, most) {
        Some(file) => Ok(file),
        None => Err(Fail::from("the file isn't one of a passphrase")),
    }
}

// What becomes of a file whose name is that of the question.
fn decrypted<'a, R: Read + Drop>(
    alloc: Global,
    file: EncryptedIdentity<BenchSuite, R, Knows<'a>>,
) -> Result<IdentityFile<BenchSuite, Knows<'a>>, DecryptError> {
    let file = file.decrypt(alloc, Some("key.age"))?;
    Ok(file)
}

// How many identities the file, whose name is that of a question, has by a passphrase. Each of them prints `K`.
fn opened<R: Read + Drop>(
    alloc: Global,
    input: R,
    text: &str,
    most: Option<u8>,
) -> Result<usize, Fail> {
    let mut counts = NEVER;
    let file = encrypted(alloc, input, Some(text), most, &mut counts)?;
    count(alloc, decrypted(alloc, file)?)
}

// Whether it is refused with this text by a passphrase, if there is one.
fn refused<R: Read + Drop>(
    alloc: Global,
    input: R,
    text: Option<&str>,
    most: Option<u8>,
    refusal: &str,
) -> Result<bool, Fail> {
    let mut counts = NEVER;
    let file = encrypted(alloc, input, text, most, &mut counts)?;
    Ok(is_refusal(alloc, decrypted(alloc, file), refusal))
}

// Whether these bytes are refused so.
fn refuses(
    alloc: Global,
    bytes: &[u8],
    text: Option<&str>,
    most: Option<u8>,
    refusal: &str,
) -> Result<bool, Fail> {
    refused(alloc, Bytes::new(bytes), text, most, refusal)
}

// How many identities a file of these bytes has, by `foobar`.
fn opened_in_memory(alloc: Global, bytes: &[u8], most: Option<u8>) -> Result<usize, Fail> {
    opened(alloc, Bytes::new(bytes), "foobar", most)
}

#[test]
fn a_file_opens(rt: HostRuntime) -> Result<(), Fail> {
    let bytes = protected_key(rt.alloc())?;
    assert!(rt; bytes.len() == 257);
    assert!(rt; opened_in_memory(rt.alloc(), bytes.as_slice(), Some(10))? == 1);
    Ok(())
}

// How many identities a file in armor has.
fn opened_in_armor<R: Read + Drop>(alloc: Global, file: R) -> Result<usize, Fail> {
    opened(alloc, ArmoredReader::new(alloc, file)?, "foobar", None)
}

// The armor of the file of `K`.
fn armored_key(alloc: Global) -> Result<Vec<u8>, Fail> {
    Ok(armored(alloc, protected_key(alloc)?.as_slice())?)
}

#[test]
fn a_file_in_armor_opens(rt: HostRuntime) -> Result<(), Fail> {
    let text = armored_key(rt.alloc())?;
    assert!(rt; text.len() == 418);
    assert!(rt; opened_in_armor(rt.alloc(), Bytes::new(text.as_slice()))? == 1);
    Ok(())
}

// Whether the file of `K` is refused so.
fn key_refuses(
    alloc: Global,
    text: Option<&str>,
    most: Option<u8>,
    refusal: &str,
) -> Result<bool, Fail> {
    refuses(alloc, protected_key(alloc)?.as_slice(), text, most, refusal)
}

// What the file answers under another passphrase, and under none.
const FAILED: &str = "key decryption failed";

#[test]
fn the_passphrase_decides(rt: HostRuntime) -> Result<(), Fail> {
    assert!(rt; key_refuses(rt.alloc(), Some("foobaz"), None, FAILED)?);
    assert!(rt; key_refuses(rt.alloc(), None, None, FAILED)?);
    Ok(())
}

// What it answers where less work is taken.
const EXCESSIVE: &str = "excessive work factor 10, target 18";

#[test]
fn the_work_factor_has_a_bound(rt: HostRuntime) -> Result<(), Fail> {
    assert!(rt; key_refuses(rt.alloc(), Some("foobar"), Some(9), EXCESSIVE)?);
    Ok(())
}

// Whether a file of this plaintext is refused so.
fn plaintext_refuses(alloc: Global, plain: &[u8], refusal: &str) -> Result<bool, Fail> {
    let bytes = protected(alloc, plain)?;
    refuses(alloc, bytes.as_slice(), Some("foobar"), None, refusal)
}

// How many identities a file of this plaintext has.
fn opened_of_plaintext(alloc: Global, plain: &[u8]) -> Result<usize, Fail> {
    opened_in_memory(alloc, protected(alloc, plain)?.as_slice(), None)
}

// What a file of a comment and a bad line answers.
const BAD_LINE: &str = "identity file contains non-identity data on line 2";

#[test]
fn the_plaintext_is_an_identity_file(rt: HostRuntime) -> Result<(), Fail> {
    assert!(rt; plaintext_refuses(rt.alloc(), b"# a comment\nno identity\n", BAD_LINE)?);
    assert!(rt; opened_of_plaintext(rt.alloc(), b"")? == 0);
    Ok(())
}

#[test]
fn a_file_that_ends_early_is_refused(rt: HostRuntime) -> Result<(), Fail> {
    let alloc = rt.alloc();
    let mut bytes = protected_key(alloc)?;
    bytes.truncate(256);
    let refusal = "decryption error";
    assert!(rt; refuses(alloc, bytes.as_slice(), Some("foobar"), None, refusal)?);
    Ok(())
}

// Whether a file in armor is refused so.
fn refuses_in_armor<R: Read + Drop>(
    alloc: Global,
    file: R,
    text: Option<&str>,
    most: Option<u8>,
    refusal: &str,
) -> Result<bool, Fail> {
    refused(alloc, ArmoredReader::new(alloc, file)?, text, most, refusal)
}

// Whether the protected file whose passphrase nobody has is.
fn closed(
    alloc: Global,
    text: Option<&str>,
    most: Option<u8>,
    refusal: &str,
) -> Result<bool, Fail> {
    let file = protected_by_nobody(alloc)?;
    refuses_in_armor(alloc, Bytes::new(file.as_slice()), text, most, refusal)
}

#[test]
fn a_file_that_none_has_the_passphrase_of(rt: HostRuntime) -> Result<(), Fail> {
    assert!(rt; closed(rt.alloc(), None, None, FAILED)?);
    assert!(rt; closed(rt.alloc(), Some("foobar"), Some(5), EXCESSIVE)?);
    Ok(())
}

// Asks those who were asked for a passphrase again, and whether they have none.
fn has_none_left(callbacks: Knows) -> bool {
    let mut callbacks = callbacks;
    callbacks.request_passphrase(QUESTION).is_none()
}

// Whether a file didn't open, and those who come back have no passphrase left.
fn comes_back<T: Drop>(answer: Result<T, NotOpened<Knows>>) -> bool {
    match answer {
        Ok(_) => false,
        Err(
            NotOpened {
                error: _,
                callbacks,
            },
        ) => has_none_left(callbacks),
    }
}

// Whether a file doesn't open by this passphrase, which is asked for once before it is asked for again here.
fn is_asked_once(alloc: Global, bytes: &[u8], text: &str) -> Result<bool, Fail> {
    let mut counts = NEVER;
    let file = encrypted(alloc, Bytes::new(bytes), Some(text), None, &mut counts)?;
    let back = comes_back(file.decrypt(alloc, Some("key.age")));
    Ok(back && counted(&counts, 2, 0))
}

#[test]
fn one_who_was_asked_comes_back(rt: HostRuntime) -> Result<(), Fail> {
    let bytes = protected_key(rt.alloc())?;
    assert!(rt; is_asked_once(rt.alloc(), bytes.as_slice(), "foobaz")?);
    Ok(())
}
