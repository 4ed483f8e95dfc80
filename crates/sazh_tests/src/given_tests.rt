//! The commands of the library from words and texts of files on, with random bytes that are handed in.

use crate::done::{found, is_done};
use age::armor::Format;
use age::draw::Draw;
use age::io::Bytes;
use age::x25519::Identity;
use age_bench::suite::BenchSuite;
use sazh_core::error::{KeyringError, PassphraseError};
use sazh_core::given::{
    decrypt_by, decrypt_part_by, encrypt_to_words, encrypt_under_text, migrate_by, rekey_by,
    seek_part_by,
};
use sazh_core::keygen::write_new_key;
use sazh_core::keyring::{KeyFile, Keyring, holders_of};
use sazh_core::random::GivenBytes;
use sazh_core::words::Word;
use std::alloc::Global;
use std::process::Abort;
use std::test::Fail;
use test_support::answers::is_refusal;
use test_support::fixtures::MESSAGE;

// The identity of a plugin named `foobar`, without data.
const PLUGIN: &[u8] = b"AGE-PLUGIN-FOOBAR-1QVHULF\n";

// A source of so many bytes of this value.
fn source(alloc: Global, byte: u8, count: usize) -> Result<GivenBytes, Fail> {
    Ok(GivenBytes::new(vec![in alloc; byte; count]?))
}

// The file of the key whose secret is 32 bytes of this value.
fn key_text(alloc: Global, byte: u8) -> Result<Vec<u8>, Fail> {
    let mut text = Vec::new(alloc);
    let mut source = source(alloc, byte, 32)?;
    if is_done(write_new_key::<BenchSuite, _, _>(alloc, &mut source, &mut text)) {
        Ok(text)
    } else {
        Err(Fail::from("no key"))
    }
}

// The text of its recipient.
fn recipient_text(alloc: Global, byte: u8) -> Result<String, Fail> {
    let mut draw = Draw::new(vec![in alloc; byte; 32]?);
    let identity: Identity<BenchSuite> = found(Identity::generate(&mut draw), "no key")?;
    Ok(identity.to_public().to_string(alloc)?)
}

// The words of a file with the recipient of 7 and of the text of that of 9.
fn words(alloc: Global) -> Result<Vec<Word>, Fail> {
    let line = recipient_text(alloc, 7)?;
    let mut words = Vec::new(alloc);
    words.push(Word::File(Vec::from_slice(alloc, line.as_bytes())?))?;
    words.push(Word::Text(recipient_text(alloc, 9)?))?;
    Ok(words)
}

// The message encrypted to both.
fn to_both(alloc: Global, format: Format) -> Result<Vec<u8>, Fail> {
    let words = words(alloc)?;
    let mut source = source(alloc, 3, 96)?;
    let mut file = Vec::new(alloc);
    let mut message = Bytes::new(MESSAGE);
    let answer = encrypt_to_words::<BenchSuite, _, _, _>(
        alloc,
        &words,
        &mut source,
        format,
        &mut message,
        &mut file,
    );
    if is_done(answer) && source.left() == 0 {
        Ok(file)
    } else {
        Err(Fail::from("a refusal, or random bytes that are left"))
    }
}

// A plaintext encrypted under the passphrase of this text.
fn under(alloc: Global, text: &[u8], plain: &[u8]) -> Result<Vec<u8>, Fail> {
    let mut source = source(alloc, 5, 72)?;
    let mut file = Vec::new(alloc);
    let mut plain = Bytes::new(plain);
    let answer = encrypt_under_text::<BenchSuite, _, _, _>(
        alloc,
        text,
        &mut source,
        Format::AsciiArmor,
        &mut plain,
        &mut file,
    );
    if is_done(answer) && source.left() == 0 {
        Ok(file)
    } else {
        Err(Fail::from("a refusal, or random bytes that are left"))
    }
}

// A file of identities with these bytes.
fn key_file(alloc: Global, bytes: Vec<u8>) -> Result<KeyFile, Fail> {
    let name = String::from_str(alloc, "keys")?;
    Ok(KeyFile { name, bytes })
}

// A file of the key of this value, encrypted under a passphrase where that is asked for.
fn file_of(alloc: Global, byte: u8, is_protected: bool) -> Result<KeyFile, Fail> {
    let text = key_text(alloc, byte)?;
    if is_protected {
        key_file(alloc, under(alloc, b"a passphrase\nand more", &text)?)
    } else {
        key_file(alloc, text)
    }
}

// A copy of bytes, where there are some.
fn copied(alloc: Global, bytes: Option<&[u8]>) -> Result<Option<Vec<u8>>, Fail> {
    match bytes {
        None => Ok(None),
        Some(bytes) => Ok(Some(Vec::from_slice(alloc, bytes)?)),
    }
}

// The files of the keys of these values, those that are encrypted after a `true`, with the text of a passphrase.
fn keyring(
    alloc: Global,
    files: &[(u8, bool)],
    passphrase: Option<&[u8]>,
) -> Result<Keyring, Fail> {
    let mut all = Vec::new(alloc);
    for (byte, is_protected) in files {
        all.push(file_of(alloc, *byte, *is_protected)?)?;
    }
    Ok(Keyring::Files(all, copied(alloc, passphrase)?))
}

// Whether a file decrypts to the message with what is given.
fn opens(alloc: Global, keyring: &Keyring, file: &[u8]) -> bool {
    let mut plain = Vec::new(alloc);
    let mut reader = Bytes::new(file);
    let answer = decrypt_by::<BenchSuite, _, _>(alloc, keyring, &mut reader, &mut plain);
    is_done(answer) && plain.as_slice() == MESSAGE
}

// Whether it is refused so, and nothing is written.
fn refuses(alloc: Global, keyring: &Keyring, file: &[u8], text: &str) -> bool {
    let mut plain = Vec::new(alloc);
    let mut reader = Bytes::new(file);
    let answer = decrypt_by::<BenchSuite, _, _>(alloc, keyring, &mut reader, &mut plain);
    is_refusal(alloc, answer, text) && plain.is_empty()
}

#[test]
fn each_word_is_encrypted_to(rt: HostRuntime) -> Result<(), Fail> {
    let alloc = rt.alloc();
    let file = to_both(alloc, Format::Binary)?;
    assert!(rt; opens(alloc, &keyring(alloc, &[(7, false)], None)?, &file));
    assert!(rt; opens(alloc, &keyring(alloc, &[(9, false)], None)?, &file));
    assert!(rt;
        refuses(
            alloc,
            &keyring(alloc, &[(8, false)], None)?,
            &file,
            "no matching keys"
        )
    );
    Ok(())
}

// Whether a bad word is refused, and no random byte is taken and nothing written.
fn is_bad_word(alloc: Global, text: &str) -> Result<bool, Fail> {
    let mut words = words(alloc)?;
    words.push(Word::Text(String::from_str(alloc, text)?))?;
    let mut source = source(alloc, 3, 200)?;
    let mut file = Vec::new(alloc);
    let mut message = Bytes::new(MESSAGE);
    let answer = encrypt_to_words::<BenchSuite, _, _, _>(
        alloc,
        &words,
        &mut source,
        Format::Binary,
        &mut message,
        &mut file,
    );
    let refused = is_refusal(alloc, answer, "no recipient: invalid Bech32 encoding");
    Ok(refused && source.left() == 200 && file.is_empty())
}

#[test]
fn a_bad_word_takes_nothing(rt: HostRuntime) -> Result<(), Fail> {
    assert!(rt; is_bad_word(rt.alloc(), "age1x")?);
    Ok(())
}

// Whether a file under a passphrase opens for the text of that.
fn opens_under(alloc: Global, file: &[u8], text: &[u8]) -> Result<bool, Fail> {
    let keyring = Keyring::Passphrase(Vec::from_slice(alloc, text)?);
    Ok(opens(alloc, &keyring, file))
}

#[test]
fn the_first_line_is_the_passphrase(rt: HostRuntime) -> Result<(), Fail> {
    let alloc = rt.alloc();
    let file = under(alloc, b"a passphrase\r\nand more", MESSAGE)?;
    assert!(rt;
        opens_under(alloc, &file, b"a passphrase")?
            && opens_under(alloc, &file, b"a passphrase\nx")?
    );
    assert!(rt; !opens_under(alloc, &file, b"x")?);
    Ok(())
}

#[test]
fn a_file_under_a_passphrase_opens_and_answers(rt: HostRuntime) -> Result<(), Fail> {
    let alloc = rt.alloc();
    let file = to_both(alloc, Format::AsciiArmor)?;
    let right = keyring(alloc, &[(7, true)], Some(b"a passphrase"))?;
    assert!(rt; opens(alloc, &right, &file));
    let other = keyring(alloc, &[(8, true)], Some(b"a passphrase"))?;
    assert!(rt; refuses(alloc, &other, &file, "no matching keys"));
    Ok(())
}

// A file of identities that its passphrase doesn't open is passed over, wherever it stands; where nobody answers, that is told.
#[test]
fn one_that_does_not_open_is_passed_over(rt: HostRuntime) -> Result<(), Fail> {
    let alloc = rt.alloc();
    let file = to_both(alloc, Format::Binary)?;
    let wrong: Option<&[u8]> = Some(b"another");
    assert!(rt;
        opens(
            alloc,
            &keyring(alloc, &[(7, true), (9, false)], wrong)?,
            &file
        )
    );
    assert!(rt;
        opens(
            alloc,
            &keyring(alloc, &[(9, false), (7, true)], wrong)?,
            &file
        )
    );
    let text = "key decryption failed";
    assert!(rt;
        refuses(
            alloc,
            &keyring(alloc, &[(7, true), (8, false)], wrong)?,
            &file,
            text
        )
    );
    assert!(rt;
        refuses(
            alloc,
            &keyring(alloc, &[(8, false), (7, true)], wrong)?,
            &file,
            text
        )
    );
    Ok(())
}

// Whether a key file with these bytes, after a good one, is refused so.
fn is_bad(
    alloc: Global,
    bytes: &[u8],
    passphrase: Option<&[u8]>,
    error: KeyringError,
) -> Result<bool, Fail> {
    let mut files = Vec::new(alloc);
    files.push(file_of(alloc, 7, false)?)?;
    files.push(key_file(alloc, Vec::from_slice(alloc, bytes)?)?)?;
    let keyring = Keyring::Files(files, copied(alloc, passphrase)?);
    Ok(matches!(holders_of::<BenchSuite>(alloc, &keyring), Err(it) if it == error))
}

#[test]
fn what_is_wrong_with_a_file_is_told(rt: HostRuntime) -> Result<(), Fail> {
    let alloc = rt.alloc();
    let line = KeyringError::NotIdentity { file: 1, line: 2 };
    assert!(rt; is_bad(alloc, b"# keys\nnone\n", None, line)?);
    assert!(rt; is_bad(alloc, b"# keys\nnone\n", Some(b"a passphrase"), line)?);
    assert!(rt;
        is_bad(
            alloc,
            b"# keys\n",
            None,
            KeyringError::NoIdentity { file: 1 }
        )?
    );
    assert!(rt; is_bad(alloc, PLUGIN, None, KeyringError::Plugin { file: 1 })?);
    let text = key_text(alloc, 8)?;
    let file = under(alloc, b"a passphrase", &text)?;
    assert!(rt; is_bad(alloc, &file, None, KeyringError::NoPassphrase { file: 1 })?);
    let empty = KeyringError::Passphrase(PassphraseError::Empty);
    assert!(rt; is_bad(alloc, &file, Some(b"\na passphrase"), empty)?);
    Ok(())
}

// The bytes of the message from place 5 on, of a file in which is not sought, and of one in which is.
fn parts(alloc: Global, file: &[u8]) -> Result<(Vec<u8>, Vec<u8>), Fail> {
    let keyring = keyring(alloc, &[(8, false), (7, true)], Some(b"a passphrase"))?;
    let mut read = Vec::new(alloc);
    let mut sought = Vec::new(alloc);
    let mut reader = Bytes::new(file);
    let first = decrypt_part_by::<BenchSuite, _, _>(alloc, &keyring, 5, 3, &mut reader, &mut read);
    let second = seek_part_by::<BenchSuite, _, _>(
        alloc,
        &keyring,
        5,
        3,
        Bytes::new(file),
        &mut sought,
    );
    if is_done(first) && is_done(second) {
        Ok((read, sought))
    } else {
        Err(Fail::from("a refusal"))
    }
}

#[test]
fn a_part_begins_at_its_place(rt: HostRuntime) -> Result<(), Fail> {
    let alloc = rt.alloc();
    let file = to_both(alloc, Format::AsciiArmor)?;
    let (read, sought) = parts(alloc, &file)?;
    assert!(rt; read.as_slice() == b"is ".as_slice() && sought.as_slice() == b"is ".as_slice());
    Ok(())
}

// A file rewritten with a header of the standard.
fn migrated(alloc: Global, file: &[u8]) -> Result<Vec<u8>, Fail> {
    let keyring = keyring(alloc, &[(8, false), (7, false)], None)?;
    let mut out = Vec::new(alloc);
    if is_done(migrate_by::<BenchSuite, _, _>(alloc, &keyring, Bytes::new(file), &mut out)) {
        Ok(out)
    } else {
        Err(Fail::from("a refusal"))
    }
}

#[test]
fn a_file_of_the_standard_is_rewritten_as_it_is(rt: HostRuntime) -> Result<(), Fail> {
    let alloc = rt.alloc();
    let file = to_both(alloc, Format::Binary)?;
    let armored = to_both(alloc, Format::AsciiArmor)?;
    assert!(rt; migrated(alloc, &file)? == file && migrated(alloc, &armored)? == file);
    Ok(())
}

// A file that opens for the keys of 7 and 9, or under a passphrase, encrypted to that of 8.
fn rekeyed(
    alloc: Global,
    keyring: &Keyring,
    word: String,
    file: &[u8],
) -> Result<Option<Vec<u8>>, Fail> {
    let mut words = Vec::new(alloc);
    words.push(Word::Text(word))?;
    let mut source = source(alloc, 11, 64)?;
    let mut out = Vec::new(alloc);
    let answer = rekey_by::<BenchSuite, _, _, _>(
        alloc,
        keyring,
        &words,
        &mut source,
        Format::Binary,
        Bytes::new(file),
        &mut out,
    );
    if is_done(answer) {
        Ok(Some(out))
    } else if out.is_empty() && source.left() == 64 {
        Ok(None)
    } else {
        Err(Fail::from("something was drawn or written"))
    }
}

// The same to the recipient of the key of 8, which must succeed.
fn to_eight(alloc: Global, keyring: &Keyring, file: &[u8]) -> Result<Vec<u8>, Fail> {
    let word = recipient_text(alloc, 8)?;
    found(rekeyed(alloc, keyring, word, file)?, "a refusal")
}

#[test]
fn a_rekeyed_file_is_for_others(rt: HostRuntime) -> Result<(), Fail> {
    let alloc = rt.alloc();
    let file = to_both(alloc, Format::AsciiArmor)?;
    let keys = keyring(alloc, &[(6, false), (7, true)], Some(b"a passphrase"))?;
    let new = to_eight(alloc, &keys, &file)?;
    assert!(rt; opens(alloc, &keyring(alloc, &[(8, false)], None)?, &new));
    assert!(rt;
        refuses(
            alloc,
            &keyring(alloc, &[(7, false)], None)?,
            &new,
            "no matching keys"
        )
    );
    Ok(())
}

// Whether nothing is drawn or written where nobody has the key, and where the word is no recipient.
#[test]
fn what_is_not_rekeyed_takes_nothing(rt: HostRuntime) -> Result<(), Fail> {
    let alloc = rt.alloc();
    let file = to_both(alloc, Format::Binary)?;
    let eight = recipient_text(alloc, 8)?;
    let other = keyring(alloc, &[(8, false)], None)?;
    assert!(rt; rekeyed(alloc, &other, eight, &file)?.is_none());
    let seven = keyring(alloc, &[(7, false)], None)?;
    let word = String::from_str(alloc, "age1x")?;
    assert!(rt; rekeyed(alloc, &seven, word, &file)?.is_none());
    Ok(())
}

// A file whose last chunk is cut isn't rekeyed to a whole one.
#[test]
fn a_cut_file_has_no_rekeyed_end(rt: HostRuntime) -> Result<(), Fail> {
    let alloc = rt.alloc();
    let mut file = to_both(alloc, Format::Binary)?;
    let cut = file.len().saturating_sub(1);
    file.truncate(cut);
    let keys = keyring(alloc, &[(7, false)], None)?;
    let mut words = Vec::new(alloc);
    words.push(Word::Text(recipient_text(alloc, 8)?))?;
    let mut source = source(alloc, 11, 64)?;
    let mut out = Vec::new(alloc);
    let answer = rekey_by::<BenchSuite, _, _, _>(
        alloc,
        &keys,
        &words,
        &mut source,
        Format::Binary,
        Bytes::new(&file),
        &mut out,
    );
    let eight = keyring(alloc, &[(8, false)], None)?;
    assert!(rt; !is_done(answer) && !opens(alloc, &eight, &out));
    Ok(())
}
