//! The recipients of the identities in a file: as a text, and as those that a file is encrypted to.

use crate::done::is_done;
use age::armor::Format;
use age::io::Bytes;
use age_standard::StandardSuite;
use sazh_core::error::IdentitiesError;
use sazh_core::given::{decrypt_by, encrypt_to_words, opens_by};
use sazh_core::inspecting::inspect;
use sazh_core::keyring::{KeyFile, Keyring};
use sazh_core::own_recipients::{recipients_of_identities, write_recipients_of};
use sazh_core::random::GivenBytes;
use sazh_core::words::{Word, keys_of_words};
use std::alloc::Global;
use std::process::Abort;
use std::test::Fail;
use test_support::answers::is_refusal;

// The secret values of RFC 7748, section 6.1, Bob's, and of the Rust crate's tests, the texts by another implementation of Bech32. The file
// has a comment, an empty line and lines of both ends.
const FILE: &[u8] = b"# two keys\r
AGE-SECRET-KEY-1TK4SSLNZF29YK70P079C8QQWUEHNHVFFYCVTDLGU979J0LUGUR4SMHZYQ2\r

AGE-SECRET-KEY-1GQ9778VQXMMJVE8SK7J6VT8UJ4HDQAJUVSFCWCM02D8GEWQ72PVQ2Y5J33";

// Their recipients, of the public values there.
const RECIPIENTS: &[u8] = b"age1m60dkltm0hqmf56mv8pweep4xulcxs7gtduxwnddl3lpgmug9d8s0dmj33
age1t7rxyev2z3rw82stdlrrepyc39nvn86l5078zqkf5uasdy86jp6svpy7pa
";

// The second key's file alone.
const SECOND: &[u8] =
    b"AGE-SECRET-KEY-1GQ9778VQXMMJVE8SK7J6VT8UJ4HDQAJUVSFCWCM02D8GEWQ72PVQ2Y5J33\n";

// The front of a file under a passphrase, up to the nonce; its MAC is that of nothing.
const ENCRYPTED: &[u8] = b"age-encryption.org/v1
-> scrypt MTIzNDU2Nzg5MDEyMzQ1Ng 10
AAAAAAAAAAAAAAAAAAAAAAAAAAAAAAAAAAAAAAAAAAA
--- AAAAAAAAAAAAAAAAAAAAAAAAAAAAAAAAAAAAAAAAAAA
0123456789abcdef";

// The front of a file to a recipient of another type.
const FOR_OTHERS: &[u8] = b"age-encryption.org/v1
-> other MTIzNDU2Nzg5MDEyMzQ1Ng 10
AAAAAAAAAAAAAAAAAAAAAAAAAAAAAAAAAAAAAAAAAAA
--- AAAAAAAAAAAAAAAAAAAAAAAAAAAAAAAAAAAAAAAAAAA
0123456789abcdef";

#[test]
fn recipients_of_a_file_are_lines_in_its_order(rt: HostRuntime) {
    let mut text = Vec::new(rt.alloc());
    assert!(rt; is_done(write_recipients_of::<StandardSuite, _>(rt.alloc(), FILE, &mut text)));
    assert!(rt; text.as_slice() == RECIPIENTS);
}

// Whether the recipients of a file are refused so, and nothing is written.
fn refuses(alloc: Global, file: &[u8], wanted: IdentitiesError) -> bool {
    let mut text = Vec::new(alloc);
    if is_done(write_recipients_of::<StandardSuite, _>(alloc, file, &mut text)) {
        return false;
    }
    match recipients_of_identities::<StandardSuite>(alloc, file) {
        Ok(_) => false,
        Err(error) => error == wanted && text.is_empty(),
    }
}

#[test]
fn file_without_recipients_is_refused(rt: HostRuntime) {
    let alloc = rt.alloc();
    assert!(rt; refuses(alloc, b"# nothing\n", IdentitiesError::NoIdentity));
    assert!(rt;
        refuses(
            alloc,
            b"AGE-PLUGIN-FOOBAR-1QVHULF\n",
            IdentitiesError::Plugin
        )
    );
    assert!(rt;
        refuses(
            alloc,
            b"#\nage1\n",
            IdentitiesError::NotIdentity { line: 2 }
        )
    );
}

#[test]
fn encrypted_file_of_identities_is_told_from_another(rt: HostRuntime) {
    let alloc = rt.alloc();
    assert!(rt; refuses(alloc, ENCRYPTED, IdentitiesError::Encrypted));
    assert!(rt; refuses(alloc, FOR_OTHERS, IdentitiesError::NotIdentity { line: 1 }));
}

// A word of a file of identities.
fn word(alloc: Global, bytes: &[u8]) -> Result<Vec<Word>, Fail> {
    let mut words = Vec::new(alloc);
    words.push(Word::Identities(Vec::from_slice(alloc, bytes)?))?;
    Ok(words)
}

// Nothing, encrypted to the recipients of both keys.
fn to_both(alloc: Global) -> Result<Vec<u8>, Fail> {
    let words = word(alloc, FILE)?;
    let mut source = GivenBytes::new(vec![in alloc; 3; 96]?);
    let mut file = Vec::new(alloc);
    let answer = encrypt_to_words::<StandardSuite, _, _, _>(
        alloc,
        &words,
        &mut source,
        Format::Binary,
        &mut Bytes::new(b"both"),
        &mut file,
    );
    if is_done(answer) {
        Ok(file)
    } else {
        Err(Fail::from("a refusal"))
    }
}

#[test]
fn file_is_encrypted_to_its_own_recipients(rt: HostRuntime) -> Result<(), Fail> {
    let alloc = rt.alloc();
    let file = to_both(alloc)?;
    let name = String::from_str(alloc, "second")?;
    let bytes = Vec::from_slice(alloc, SECOND)?;
    let mut files = Vec::new(alloc);
    files.push(KeyFile { name, bytes })?;
    let keyring = Keyring::Files(files, None);
    let mut plain = Vec::new(alloc);
    let mut reader = Bytes::new(&file);
    assert!(rt;
        is_done(decrypt_by::<StandardSuite, _, _>(alloc, &keyring, &mut reader, &mut plain))
    );
    assert!(rt; plain.as_slice() == b"both".as_slice());
    Ok(())
}

#[test]
fn word_of_an_encrypted_file_is_refused(rt: HostRuntime) -> Result<(), Fail> {
    let alloc = rt.alloc();
    let words = word(alloc, ENCRYPTED)?;
    let text = "it is encrypted with a passphrase, without which its recipients can't be told";
    assert!(rt; is_refusal(alloc, keys_of_words::<StandardSuite>(alloc, &words), text));
    Ok(())
}

// The number of the identity in a file that opens another, as its header says.
fn opens_as(alloc: Global, keys: &[u8], file: &[u8]) -> Result<Option<usize>, Fail> {
    let name = String::from_str(alloc, "keys")?;
    let bytes = Vec::from_slice(alloc, keys)?;
    let mut files = Vec::new(alloc);
    files.push(KeyFile { name, bytes })?;
    let keyring = Keyring::Files(files, None);
    match inspect(alloc, Bytes::new(file)) {
        Err(_) => Err(Fail::from("a refusal")),
        Ok(it) => Ok(opens_by::<StandardSuite>(alloc, &keyring, &it.header).ok()),
    }
}

// The identity whose secret is 32 bytes of 1, by another implementation of Bech32.
const OTHER: &[u8] = b"AGE-SECRET-KEY-1QYQSZQGPQYQSZQGPQYQSZQGPQYQSZQGPQYQSZQGPQYQSZQGPQYQSZ9K4CN
";

#[test]
fn first_identity_that_opens_is_told(rt: HostRuntime) -> Result<(), Fail> {
    let alloc = rt.alloc();
    let file = to_both(alloc)?;
    assert!(rt; opens_as(alloc, FILE, &file)? == Some(0));
    assert!(rt; opens_as(alloc, OTHER, &file)? == None);
    let mut keys = Vec::from_slice(alloc, OTHER)?;
    keys.extend_from_slice(SECOND)?;
    assert!(rt; opens_as(alloc, &keys, &file)? == Some(1));
    Ok(())
}
