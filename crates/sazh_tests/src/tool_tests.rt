//! The commands of the library, with random bytes that are handed in.

use crate::done::{found, is_done};
use age::armor::Format;
use age::draw::Draw;
use age::io::Bytes;
use age::secrecy::SecretString;
use age::x25519::{Identity, Recipient};
use age_bench::suite::BenchSuite;
use sazh_core::callbacks::GivesOnce;
use sazh_core::decrypting::{decrypt, decrypt_part, seek_part};
use sazh_core::encrypting::{encrypt_to_keys, encrypt_under};
use sazh_core::holder::Holder;
use sazh_core::keygen::write_new_key;
use sazh_core::passphrase::identity_of;
use sazh_core::random::{GivenBytes, RandomBytes, drawn};
use sazh_core::recipients::recipients_of;
use sazh_core::words::{Word, keys_of_words};
use std::alloc::Global;
use std::process::Abort;
use std::test::Fail;
use test_support::answers::is_refusal;
use test_support::fixtures::MESSAGE;

// One who decrypts, of whom none has an encrypted file here.
type Mine = Holder<BenchSuite, Bytes<'static>, GivesOnce>;

// A source of the bytes 1, 2, .., 250 again and again, so many in all.
fn source(alloc: Global, count: usize) -> Result<GivenBytes, Fail> {
    let mut bytes = Vec::new(alloc);
    for i in 0..count {
        bytes.push((i % 250) as u8 + 1)?;
    }
    Ok(GivenBytes::new(bytes))
}

// Whether a source gives the bytes 1 to 3.
fn gives_three(alloc: Global, source: &mut GivenBytes) -> bool {
    match drawn(alloc, source, 3) {
        Ok(draw) => {
            let mut draw = draw;
            draw.take::<3>() == Some([1, 2, 3]) && draw.left() == 0
        }
        Err(_) => false,
    }
}

#[test]
fn random_bytes_come_in_their_order_and_once(rt: HostRuntime) -> Result<(), Fail> {
    let alloc = rt.alloc();
    let mut five = source(alloc, 5)?;
    assert!(rt; gives_three(alloc, &mut five) && five.left() == 2);
    let text = "the system gives no random bytes";
    assert!(rt; is_refusal(alloc, drawn(alloc, &mut five, 3), text) && five.left() == 2);
    let mut room = [0; 2];
    assert!(rt; is_done(five.fill(&mut room)) && room == [4, 5]);
    Ok(())
}

// Who has the key whose secret is 32 bytes of this one.
fn identity(alloc: Global, byte: u8) -> Result<Identity<BenchSuite>, Fail> {
    let mut draw = Draw::new(vec![in alloc; byte; 32]?);
    found(Identity::generate(&mut draw), "no key")
}

// The recipients of the keys of 7 and of 9.
fn both(alloc: Global) -> Result<Vec<Recipient<BenchSuite>>, Fail> {
    let mut keys = Vec::new(alloc);
    keys.push(identity(alloc, 7)?.to_public())?;
    keys.push(identity(alloc, 9)?.to_public())?;
    Ok(keys)
}

// The message encrypted to both, and how many random bytes are left of 100.
fn encrypted(alloc: Global, format: Format) -> Result<(Vec<u8>, usize), Fail> {
    let keys = both(alloc)?;
    let mut source = source(alloc, 100)?;
    let mut file = Vec::new(alloc);
    let answer = encrypt_to_keys(
        alloc,
        &keys,
        &mut source,
        format,
        &mut Bytes::new(MESSAGE),
        &mut file,
    );
    if is_done(answer) {
        Ok((file, source.left()))
    } else {
        Err(Fail::from("a refusal"))
    }
}

// Whether a file gives the message back to this one alone.
fn opens(alloc: Global, file: &[u8], one: Mine) -> bool {
    let mut plain = Vec::new(alloc);
    let answer = decrypt::<BenchSuite, Mine, _, _>(
        alloc,
        &mut [one],
        &mut Bytes::new(file),
        &mut plain,
    );
    is_done(answer) && plain.as_slice() == MESSAGE
}

// Whether it gives it to who has the key of these bytes.
fn opens_with(alloc: Global, file: &[u8], byte: u8) -> Result<bool, Fail> {
    Ok(opens(alloc, file, Holder::Key(identity(alloc, byte)?)))
}

// 32 random bytes are the file's, and 32 more each recipient's.
#[test]
fn each_recipient_alone_opens_the_file(rt: HostRuntime) -> Result<(), Fail> {
    let alloc = rt.alloc();
    let (file, left) = encrypted(alloc, Format::Binary)?;
    assert!(rt; left == 4);
    assert!(rt; opens_with(alloc, &file, 7)? && opens_with(alloc, &file, 9)?);
    assert!(rt; !opens_with(alloc, &file, 8)?);
    Ok(())
}

// The bytes of the message from place 5 on, of a file in which is not sought.
fn read_part(alloc: Global, file: &[u8]) -> Result<Vec<u8>, Fail> {
    let mut out = Vec::new(alloc);
    let mut one: [Mine; 1] = [Holder::Key(identity(alloc, 7)?)];
    let mut reader = Bytes::new(file);
    let answer = decrypt_part::<BenchSuite, Mine, _, _>(
        alloc,
        &mut one,
        5,
        3,
        &mut reader,
        &mut out,
    );
    if is_done(answer) {
        Ok(out)
    } else {
        Err(Fail::from("a refusal"))
    }
}

// The same of one in which is sought.
fn sought_part(alloc: Global, file: &[u8]) -> Result<Vec<u8>, Fail> {
    let mut out = Vec::new(alloc);
    let mut one: [Mine; 1] = [Holder::Key(identity(alloc, 7)?)];
    let answer = seek_part::<BenchSuite, Mine, _, _>(
        alloc,
        &mut one,
        5,
        3,
        Bytes::new(file),
        &mut out,
    );
    if is_done(answer) {
        Ok(out)
    } else {
        Err(Fail::from("a refusal"))
    }
}

#[test]
fn a_part_begins_at_its_place(rt: HostRuntime) -> Result<(), Fail> {
    let alloc = rt.alloc();
    let (file, _left) = encrypted(alloc, Format::AsciiArmor)?;
    assert!(rt; read_part(alloc, &file)?.as_slice() == b"is ".as_slice());
    assert!(rt; sought_part(alloc, &file)?.as_slice() == b"is ".as_slice());
    Ok(())
}

// A secret of this text.
fn secret(alloc: Global, text: &str) -> Result<SecretString, Fail> {
    Ok(SecretString::from(String::from_str(alloc, text)?))
}

// The message encrypted under a passphrase, by 72 random bytes.
fn protected(alloc: Global) -> Result<Vec<u8>, Fail> {
    let mut source = source(alloc, 72)?;
    let mut file = Vec::new(alloc);
    let passphrase = secret(alloc, "a passphrase")?;
    let answer = encrypt_under::<BenchSuite, _, _, _>(
        alloc,
        passphrase,
        &mut source,
        Format::Binary,
        &mut Bytes::new(MESSAGE),
        &mut file,
    );
    if is_done(answer) && source.left() == 0 {
        Ok(file)
    } else {
        Err(Fail::from("a refusal, or random bytes that are left"))
    }
}

// Whether a file opens for who knows this passphrase.
fn opens_under(alloc: Global, file: &[u8], passphrase: &str) -> Result<bool, Fail> {
    let identity = identity_of(secret(alloc, passphrase)?);
    Ok(opens(alloc, file, Holder::Passphrase(identity)))
}

#[test]
fn a_file_opens_under_its_passphrase_alone(rt: HostRuntime) -> Result<(), Fail> {
    let alloc = rt.alloc();
    let file = protected(alloc)?;
    assert!(rt; opens_under(alloc, &file, "a passphrase")?);
    assert!(rt; !opens_under(alloc, &file, "x")?);
    Ok(())
}

// Whether so few random bytes make no file, and are left.
fn are_too_few(alloc: Global, count: usize) -> Result<bool, Fail> {
    let keys = both(alloc)?;
    let mut source = source(alloc, count)?;
    let mut file = Vec::new(alloc);
    let mut message = Bytes::new(MESSAGE);
    let answer = encrypt_to_keys(
        alloc,
        &keys,
        &mut source,
        Format::Binary,
        &mut message,
        &mut file,
    );
    let refused = is_refusal(alloc, answer, "the system gives no random bytes");
    Ok(refused && file.is_empty() && source.left() == count)
}

#[test]
fn too_few_random_bytes_end_the_command(rt: HostRuntime) -> Result<(), Fail> {
    for count in [0, 32, 95] {
        assert!(rt; are_too_few(rt.alloc(), count)?, "of {count} bytes");
    }
    Ok(())
}

// The file of the key whose secret is the bytes 1 to 32, under the bench suite, by another implementation of Bech32.
const SECRET_LINE: &[u8] =
    b"\nAGE-SECRET-KEY-1QYPQXPQ9QCRSSZG2PVXQ6RS0ZQG3YYC5Z5TPWXQERGD3C8G7RUSQGPQYEE\n";

#[test]
fn a_new_key_is_the_next_random_bytes(rt: HostRuntime) -> Result<(), Fail> {
    let alloc = rt.alloc();
    let mut source = source(alloc, 40)?;
    let mut text = Vec::new(alloc);
    assert!(rt; is_done(write_new_key::<BenchSuite, _, _>(alloc, &mut source, &mut text,)));
    assert!(rt; source.left() == 8 && text.as_slice().ends_with(SECRET_LINE));
    Ok(())
}

// The recipients of 32 bytes of 0, and of 32 bytes of 1.
const ZEROS: &str = "age1qqqqqqqqqqqqqqqqqqqqqqqqqqqqqqqqqqqqqqqqqqqqqqqqqqqq5cu47z";

const ONES: &str = "age1qyqszqgpqyqszqgpqyqszqgpqyqszqgpqyqszqgpqyqszqgpqyqs3290gq";

// The words of a file of one line and of two texts.
fn words(alloc: Global, first: &str, second: &str, third: &str) -> Result<Vec<Word>, Fail> {
    let mut words = Vec::new(alloc);
    words.push(Word::File(Vec::from_slice(alloc, first.as_bytes())?))?;
    words.push(Word::Text(String::from_str(alloc, second)?))?;
    words.push(Word::Text(String::from_str(alloc, third)?))?;
    Ok(words)
}

// Whether the recipients of words are these, told by a text with a line for each.
fn are_these(alloc: Global, words: &[Word], lines: &str) -> Result<bool, Fail> {
    let keys: Vec<Recipient<BenchSuite>> = keys_of_words(alloc, words)?;
    let wanted: Vec<Recipient<BenchSuite>> = recipients_of(alloc, lines.as_bytes())?;
    let mut same = keys.len() == wanted.len();
    for (key, other) in keys.iter().zip(wanted.iter()) {
        same &= *key == *other;
    }
    Ok(same)
}

#[test]
fn words_keep_their_order(rt: HostRuntime) -> Result<(), Fail> {
    let alloc = rt.alloc();
    let words = words(alloc, ONES, ZEROS, ONES)?;
    let lines = format!(in alloc; "{ONES}\n{ZEROS}\n{ONES}\n")?;
    assert!(rt; are_these(alloc, &words, &lines)?);
    Ok(())
}

#[test]
fn the_first_bad_word_is_told(rt: HostRuntime) -> Result<(), Fail> {
    let alloc = rt.alloc();
    let words = words(alloc, ONES, "age1x", "age1y")?;
    let answer: Result<Vec<Recipient<BenchSuite>>, _> = keys_of_words(alloc, &words);
    assert!(rt; is_refusal(alloc, answer, "no recipient: invalid Bech32 encoding"));
    Ok(())
}
