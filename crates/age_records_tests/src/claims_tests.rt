//! The claims of `age_claims`, run to their success, or to the refusal that they tell of. No clause says that memory is left.

use crate::fixtures::{SECRET, bench_text, grease, sealed, text_to};
use age::armor::{ArmoredReader, Format};
use age::io::{Answer, Bytes, Op, SeekFrom};
use age::secrecy::SecretString;
use age::stream::{StreamReader, StreamWriter};
use age::{Encryptor, scrypt, x25519};
use age_bench::recipient::{BenchIdentity, BenchRecipient};
use age_bench::suite::BenchSuite;
use age_claims::devices::kept_between_devices;
use age_claims::kept::kept;
use age_claims::keys::{one_key_of_a_text, printed_identity, printed_recipient};
use age_claims::left::{left_behind, written_at_once};
use age_claims::lines::read_by_lines;
use age_claims::longer::{cut_between_chunks, decrypted_up_to_the_cut, lengthened_or_cut};
use age_claims::others::refused_as_answered;
use age_claims::outside::read_inside;
use age_claims::place::slice_of;
use age_claims::rekey::rekeyed;
use age_claims::ring::decrypted_by_one_of_many;
use age_claims::same::decrypted_twice;
use age_claims::sealed::answers_are_sealed;
use age_claims::sent::{copied_so_far, encrypted_so_far, sent_so_far};
use age_claims::standard::{armored_and_back, standard_key};
use age_claims::tampered::decrypted_beside_a_file;
use age_claims::turns::read_in_turn;
use age_claims::wrong::{refused_by_another_key, refused_by_another_passphrase};
use age_standard::StandardSuite;
use std::alloc::{AllocError, Global};
use std::slice;
use std::str::FromStr;
use std::test::Fail;
use test_support::answers::{gives, is_refusal};
use test_support::fixtures::{KEY, MESSAGE, part, plaintext, zeros};
use test_support::scripted::{Script, ScriptedIdentity};

// In armor, or bare.
fn form(is_armored: bool) -> Format {
    if is_armored {
        Format::AsciiArmor
    } else {
        Format::Binary
    }
}

// The bytes of the header and the nonce of a file to `bench`.
const FRONT: usize = 131;

// How long a plaintext of two chunks is, and the seal of its first piece.
const LENGTH: usize = 70_000;

const CHUNK: usize = 65_552;

type Key = x25519::Identity<StandardSuite>;

fn key() -> Result<Key, Fail> {
    Ok(Key::from_str(SECRET)?)
}

// A key that isn't that one.
fn other_key(alloc: Global) -> Result<Key, Fail> {
    match Key::generate(&mut zeros(alloc, 32)?) {
        Some(key) => Ok(key),
        None => Err(Fail::from("no key")),
    }
}

// Whether a plaintext that is encrypted to `bench` in this form comes back.
fn is_kept(alloc: Global, is_armored: bool, plain: &[u8]) -> Result<bool, Fail> {
    let mut draw = zeros(alloc, 32)?;
    let mut identity = BenchIdentity;
    let given = kept::<BenchSuite, BenchRecipient, BenchIdentity>(
        alloc,
        &[BenchRecipient],
        slice::from_mut(&mut identity),
        &mut draw,
        grease(alloc)?,
        form(is_armored),
        plain,
    );
    Ok(gives(given, plain))
}

// Whether it does from a reader to a writer.
fn is_passed_on(alloc: Global, is_armored: bool, plain: &[u8]) -> Result<bool, Fail> {
    let mut draw = zeros(alloc, 32)?;
    let mut identity = BenchIdentity;
    let mut out = Vec::new(alloc);
    let answer = kept_between_devices::<BenchSuite, BenchRecipient, BenchIdentity, Bytes, Vec<u8>>(
        alloc,
        &[BenchRecipient],
        slice::from_mut(&mut identity),
        &mut draw,
        grease(alloc)?,
        form(is_armored),
        &mut Bytes::new(plain),
        &mut out,
    );
    Ok(answer.is_ok() && out.as_slice() == plain)
}

// Whether its file is written in one piece, as it is chunk by chunk.
fn is_written(alloc: Global, is_armored: bool, plain: &[u8]) -> Result<bool, Fail> {
    let mut draw = zeros(alloc, 32)?;
    let mut out = Vec::new(alloc);
    let answer = written_at_once::<BenchSuite, BenchRecipient, Vec<u8>>(
        alloc,
        &[BenchRecipient],
        &mut draw,
        grease(alloc)?,
        form(is_armored),
        plain,
        &mut out,
    );
    let text = bench_text(alloc, form(is_armored), plain)?;
    Ok(answer.is_ok() && out.as_slice() == text.as_slice())
}

// Whether its file is written chunk by chunk.
fn is_left_behind(alloc: Global, is_armored: bool, plain: &[u8]) -> Result<bool, Fail> {
    let mut draw = zeros(alloc, 32)?;
    let mut out = Vec::new(alloc);
    let answer = left_behind::<BenchSuite, BenchRecipient, Bytes, Vec<u8>>(
        alloc,
        &[BenchRecipient],
        &mut draw,
        grease(alloc)?,
        form(is_armored),
        &mut Bytes::new(plain),
        &mut out,
    );
    let text = bench_text(alloc, form(is_armored), plain)?;
    Ok(answer.is_ok() && out.as_slice() == text.as_slice())
}

// Whether these are a seek to this place, and a read of these bytes.
fn are_at(answers: &[Answer], place: u64, bytes: &[u8]) -> bool {
    match answers {
        [Answer::At(at), Answer::Bytes(got)] => *at == place && got.as_slice() == bytes,
        _ => false,
    }
}

// Whether a seek to a place of it and a read give the slice that stands there.
fn is_sliced(alloc: Global, is_armored: bool, plain: &[u8], place: usize) -> Result<bool, Fail> {
    let mut draw = zeros(alloc, 32)?;
    let mut identity = BenchIdentity;
    let given = slice_of::<BenchSuite, BenchRecipient, BenchIdentity>(
        alloc,
        &[BenchRecipient],
        slice::from_mut(&mut identity),
        &mut draw,
        grease(alloc)?,
        form(is_armored),
        plain,
        place as u64,
        700,
    );
    match given {
        Ok(answers) => Ok(are_at(
            &answers,
            place as u64,
            part(plain, place, place.saturating_add(700)),
        )),
        Err(_) => Ok(false),
    }
}

// Places before, over and behind the border of two pieces, and near the end.
const PLACES: [usize; 5] = [0, 65_300, 65_536, 69_900, 70_000];

#[test]
fn a_plaintext_is_kept(rt: HostRuntime) -> Result<(), Fail> {
    let alloc = rt.alloc();
    let plain = plaintext(alloc, LENGTH)?;
    for is_armored in [false, true] {
        assert!(rt; is_kept(alloc, is_armored, &[])? && is_kept(alloc, is_armored, &plain)?);
        assert!(rt; is_passed_on(alloc, is_armored, &plain)?);
        assert!(rt; is_written(alloc, is_armored, &plain)?);
        assert!(rt; is_left_behind(alloc, is_armored, &plain)?);
    }
    for place in PLACES {
        assert!(rt; is_sliced(alloc, false, &plain, place)?, "at {place}");
        assert!(rt; is_sliced(alloc, true, &plain, place)?, "at {place}");
    }
    Ok(())
}

// Whether a text for the bench identity is decrypted twice to this plaintext.
fn is_twice(alloc: Global, text: &[u8], plain: &[u8]) -> bool {
    let mut identity = BenchIdentity;
    let both = decrypted_twice::<BenchSuite, BenchIdentity>(
        alloc,
        &mut BenchIdentity,
        slice::from_mut(&mut identity),
        text,
    );
    match both {
        Ok((first, second)) => first.as_slice() == plain && second.as_slice() == plain,
        Err(_) => false,
    }
}

// Whether the claims on one text give this plaintext, which it carries a file of.
fn is_given(alloc: Global, text: &[u8], plain: &[u8]) -> bool {
    gives(
        decrypted_beside_a_file::<BenchSuite, BenchIdentity>(alloc, &mut BenchIdentity, text),
        plain,
    ) && gives(
        lengthened_or_cut::<BenchSuite, BenchIdentity>(alloc, &mut BenchIdentity, text),
        plain,
    ) && is_twice(alloc, text, plain)
}

// Whether a text, encrypted to the other recipients in this form, has the file of the same plaintext.
fn is_rekeyed(alloc: Global, text: &[u8], is_armored: bool, plain: &[u8]) -> Result<bool, Fail> {
    let mut draw = zeros(alloc, 32)?;
    let mut identity = BenchIdentity;
    let mut out = Vec::new(alloc);
    let answer = rekeyed::<BenchSuite, BenchIdentity, BenchRecipient, Bytes, Vec<u8>>(
        alloc,
        slice::from_mut(&mut identity),
        &[BenchRecipient],
        &mut draw,
        grease(alloc)?,
        form(is_armored),
        Bytes::new(text),
        &mut out,
    );
    Ok(answer.is_ok() && out.as_slice() == bench_text(alloc, form(is_armored), plain)?.as_slice())
}

// Whether they do of a text in this form.
fn is_told(alloc: Global, is_armored: bool, plain: &[u8]) -> Result<bool, Fail> {
    let text = bench_text(alloc, form(is_armored), plain)?;
    Ok(
        is_given(alloc, &text, plain)
            && is_rekeyed(alloc, &text, false, plain)?
            && is_rekeyed(alloc, &text, true, plain)?,
    )
}

#[test]
fn a_text_gives_its_plaintext(rt: HostRuntime) -> Result<(), Fail> {
    let alloc = rt.alloc();
    for is_armored in [false, true] {
        assert!(rt; is_told(alloc, is_armored, MESSAGE)?);
        assert!(rt; is_told(alloc, is_armored, &plaintext(alloc, LENGTH)?)?);
    }
    Ok(())
}

// Whether a plaintext comes back by one's own key, over the primitives of the standard and in armor.
fn is_kept_by_a_key(alloc: Global, plain: &[u8]) -> Result<bool, Fail> {
    let mut draw = zeros(alloc, 64)?;
    let mut key = key()?;
    Ok(gives(
        standard_key(alloc, &mut key, &mut draw, grease(alloc)?, plain),
        plain,
    ))
}

// Whether it does over the bench suite.
fn is_kept_in_armor(alloc: Global, plain: &[u8]) -> Result<bool, Fail> {
    let mut draw = zeros(alloc, 32)?;
    let given = armored_and_back::<BenchSuite, BenchRecipient, BenchIdentity>(
        alloc,
        &BenchRecipient,
        &mut BenchIdentity,
        &mut draw,
        grease(alloc)?,
        plain,
    );
    Ok(gives(given, plain))
}

#[test]
fn a_plaintext_is_kept_in_armor(rt: HostRuntime) -> Result<(), Fail> {
    let alloc = rt.alloc();
    let plain = plaintext(alloc, LENGTH)?;
    assert!(rt; is_kept_by_a_key(alloc, MESSAGE)? && is_kept_by_a_key(alloc, &plain)?);
    assert!(rt; is_kept_in_armor(alloc, MESSAGE)? && is_kept_in_armor(alloc, &plain)?);
    Ok(())
}

// The file of the message to the key.
fn text_to_key(alloc: Global) -> Result<Vec<u8>, Fail> {
    let recipients = [key()?.to_public()];
    text_to::<StandardSuite, _>(alloc, &recipients, 64, Format::Binary, MESSAGE)
}

// Whether the key opens it after another key, which has none of its stanzas.
fn is_opened_by_the_second(alloc: Global, text: &[u8]) -> Result<bool, Fail> {
    let mut keys = [other_key(alloc)?, key()?];
    Ok(gives(
        decrypted_by_one_of_many::<StandardSuite, Key>(alloc, &mut keys, text),
        MESSAGE,
    ))
}

const NO_KEY: &str = "no matching keys";

// Whether the other key alone doesn't.
fn is_no_file_of_the_other(alloc: Global, text: &[u8]) -> Result<bool, Fail> {
    let mut key = other_key(alloc)?;
    let given = refused_by_another_key::<StandardSuite>(alloc, &mut key, text);
    Ok(is_refusal(alloc, given, NO_KEY))
}

#[test]
fn a_key_opens_its_files_alone(rt: HostRuntime) -> Result<(), Fail> {
    let alloc = rt.alloc();
    let text = text_to_key(alloc)?;
    assert!(rt; is_opened_by_the_second(alloc, &text)?);
    assert!(rt; is_no_file_of_the_other(alloc, &text)?);
    Ok(())
}

// Whether a file to `bench` is refused so to who answers by this script.
fn is_refused_so(alloc: Global, script: Script, text: &str) -> Result<bool, Fail> {
    let file = bench_text(alloc, Format::Binary, MESSAGE)?;
    let mut identity = ScriptedIdentity { script, asked: 0 };
    let given = refused_as_answered::<BenchSuite, ScriptedIdentity>(alloc, &mut identity, &file);
    Ok(is_refusal(alloc, given, text))
}

fn passphrase(alloc: Global, text: &str) -> Result<SecretString, AllocError> {
    Ok(SecretString::from(String::from_str(alloc, text)?))
}

// The message's file under a passphrase.
fn text_under(alloc: Global, word: &str) -> Result<Vec<u8>, Fail> {
    let recipients = [scrypt::Recipient::<BenchSuite>::new(passphrase(alloc, word)?, 1)];
    text_to::<BenchSuite, _>(alloc, &recipients, 72, Format::Binary, MESSAGE)
}

// Whether it is refused so to an identity of another.
fn is_refused_under(alloc: Global, word: &str, other: &str, text: &str) -> Result<bool, Fail> {
    let file = text_under(alloc, word)?;
    let mut identity = scrypt::Identity::<BenchSuite>::new(passphrase(alloc, other)?, 20);
    let given = refused_by_another_passphrase::<BenchSuite>(alloc, &mut identity, &file);
    Ok(is_refusal(alloc, given, text))
}

#[test]
fn a_file_is_refused_as_is_answered(rt: HostRuntime) -> Result<(), Fail> {
    let alloc = rt.alloc();
    assert!(rt; is_refused_so(alloc, Script::Nothing, NO_KEY)?);
    assert!(rt; is_refused_so(alloc, Script::Refusal, "decryption failed")?);
    assert!(rt; is_refused_under(alloc, "correct horse", "correct", "decryption failed")?);
    Ok(())
}

const TRUNCATED: &str = "age file is truncated";

// Whether a file that is cut there isn't decrypted, and gives this beginning of its plaintext.
fn is_cut(alloc: Global, file: &[u8], front: &[u8]) -> bool {
    let mut identity = BenchIdentity;
    let mut out = Vec::new(alloc);
    let written = decrypted_up_to_the_cut::<BenchSuite, BenchIdentity, Vec<u8>>(
        alloc,
        slice::from_mut(&mut identity),
        file,
        &mut out,
    );
    let given = cut_between_chunks::<BenchSuite, BenchIdentity>(alloc, &mut BenchIdentity, file);
    is_refusal(alloc, written, TRUNCATED)
        && out.as_slice() == front
        && is_refusal(alloc, given, TRUNCATED)
}

#[test]
fn a_cut_file_gives_its_front(rt: HostRuntime) -> Result<(), Fail> {
    let alloc = rt.alloc();
    let plain = plaintext(alloc, LENGTH)?;
    let file = bench_text(alloc, Format::Binary, &plain)?;
    for (end, given) in [(0, 0), (CHUNK, 65_536)] {
        assert!(rt;
            is_cut(
                alloc,
                part(&file, 0, FRONT.saturating_add(end)),
                part(&plain, 0, given)
            )
        );
    }
    Ok(())
}

// How many lines are taken for the text of a plaintext's file in this form, and how many bytes it carries.
fn lines_of(alloc: Global, is_armored: bool, plain: &[u8]) -> Result<(u64, usize), Fail> {
    let text = bench_text(alloc, form(is_armored), plain)?;
    let mut reader = ArmoredReader::new(alloc, Bytes::new(&text))?;
    let mut out = Vec::new(alloc);
    let lines = read_by_lines(alloc, &mut reader, &mut out)?;
    Ok((lines, out.len()))
}

#[test]
fn each_line_of_armor_is_counted(rt: HostRuntime) -> Result<(), Fail> {
    let alloc = rt.alloc();
    let plain = plaintext(alloc, LENGTH)?;
    // 131 bytes before the payload, 70,000 of the plaintext and two tags fill 1,461 lines of 48 bytes, and 35 of one more. Then comes
    // the end marker.
    assert!(rt; lines_of(alloc, true, &plain)? == (1463, 70_163));
    assert!(rt; lines_of(alloc, false, &plain)? == (0, 70_163));
    Ok(())
}

// The payload that is written in two pieces of a plaintext.
fn sent(alloc: Global, plain: &[u8]) -> Result<Vec<u8>, Fail> {
    let mut writer = StreamWriter::<BenchSuite, Vec<u8>>::with_payload_key(
        alloc,
        KEY,
        Vec::new(alloc),
    )?;
    let first = sent_so_far::<BenchSuite, Vec<u8>>(&mut writer, part(plain, 0, 10))?;
    let mut at = first;
    for _ in 0..3 {
        at = at.saturating_add(sent_so_far::<BenchSuite, Vec<u8>>(
            &mut writer,
            part(plain, at, plain.len()),
        )?);
    }
    Ok(writer.finish()?)
}

// The payload that a copy of a plaintext gives, and then the end.
fn copied(alloc: Global, plain: &[u8]) -> Result<Vec<u8>, Fail> {
    let mut writer = StreamWriter::<BenchSuite, Vec<u8>>::with_payload_key(
        alloc,
        KEY,
        Vec::new(alloc),
    )?;
    copied_so_far::<BenchSuite, Bytes, Vec<u8>>(alloc, &mut Bytes::new(plain), &mut writer)?;
    writer.close()?;
    Ok(writer.into_inner())
}

// The bare file that a copy of a plaintext gives, as it was prepared for `bench`.
fn encrypted(alloc: Global, plain: &[u8]) -> Result<Vec<u8>, Fail> {
    let mut draw = zeros(alloc, 32)?;
    let encryptor = Encryptor::<BenchSuite>::with_recipients(
        alloc,
        &[BenchRecipient],
        &mut draw,
        grease(alloc)?,
    )?;
    let (file, done) = encrypted_so_far::<BenchSuite, Bytes, Vec<u8>>(
        alloc,
        encryptor,
        &mut Bytes::new(plain),
        Vec::new(alloc),
    );
    done?;
    Ok(file)
}

type Stream<'a> = StreamReader<BenchSuite, Bytes<'a>>;

const OPS: [Op; 3] = [Op::Read(10), Op::Seek(SeekFrom::End(-5)), Op::Read(10)];

// Whether reads and a seek on a payload of a plaintext give what stands there.
fn is_answered(alloc: Global, payload: &[u8], plain: &[u8]) -> Result<bool, Fail> {
    let mut reader = Stream::with_payload_key(alloc, KEY, Bytes::new(payload))?;
    let answers = answers_are_sealed::<BenchSuite, Bytes>(alloc, &mut reader, &OPS)?;
    let from = plain.len().saturating_sub(5);
    match answers.as_slice() {
        [Answer::Bytes(got), rest @ ..] => Ok(
            got.as_slice() == part(plain, 0, 10)
                && are_at(rest, from as u64, part(plain, from, plain.len())),
        ),
        _ => Ok(false),
    }
}

// Whether a read from a place on gives what stands there.
fn is_inside(alloc: Global, payload: &[u8], plain: &[u8], place: usize) -> Result<bool, Fail> {
    let mut reader = Stream::with_payload_key(alloc, KEY, Bytes::new(payload))?;
    let mut buf = [0; 100];
    let count = read_inside::<BenchSuite, Bytes>(&mut reader, place as u64, &mut buf)?;
    Ok(part(&buf, 0, count) == part(plain, place, place.saturating_add(100)))
}

#[test]
fn a_payload_gives_what_was_sent(rt: HostRuntime) -> Result<(), Fail> {
    let alloc = rt.alloc();
    let plain = plaintext(alloc, LENGTH)?;
    let payload = sealed(alloc, &plain)?;
    assert!(rt; sent(alloc, &plain)?.as_slice() == payload.as_slice());
    assert!(rt; copied(alloc, &plain)?.as_slice() == payload.as_slice());
    let file = bench_text(alloc, Format::Binary, &plain)?;
    assert!(rt; encrypted(alloc, &plain)?.as_slice() == file.as_slice());
    assert!(rt; is_answered(alloc, &payload, &plain)?);
    for place in PLACES {
        assert!(rt; is_inside(alloc, &payload, &plain, place)?, "at {place}");
    }
    Ok(())
}

// Whether reads at the fronts of two chunks in turn, so many times, give what stands there, with each chunk opened once.
fn is_read_in_turn(alloc: Global, payload: &[u8], plain: &[u8], times: u64) -> Result<bool, Fail> {
    let mut reader = Stream::with_payload_key(alloc, KEY, Bytes::new(payload))?;
    let mut first = [0; 10];
    let mut second = [0; 10];
    read_in_turn::<BenchSuite, Bytes>(&mut reader, 5, &mut first, 65_536, &mut second, times)?;
    Ok(
        first.as_slice() == part(plain, 5, 15)
            && second.as_slice() == part(plain, 65_536, 65_546)
            && reader.opens() <= 4,
    )
}

#[test]
fn two_chunks_are_opened_once(rt: HostRuntime) -> Result<(), Fail> {
    let alloc = rt.alloc();
    let plain = plaintext(alloc, LENGTH)?;
    let payload = sealed(alloc, &plain)?;
    for times in [0, 1, 20] {
        assert!(rt;
            is_read_in_turn(alloc, &payload, &plain, times)?,
            "{times} times"
        );
    }
    Ok(())
}

// The recipient's text of that key.
const RECIPIENT: &str = "age1t7rxyev2z3rw82stdlrrepyc39nvn86l5078zqkf5uasdy86jp6svpy7pa";

#[test]
fn keys_are_printed_in_their_case(rt: HostRuntime) -> Result<(), Fail> {
    let alloc = rt.alloc();
    let key = key()?;
    let recipient = key.to_public();
    one_key_of_a_text(&recipient, &recipient);
    assert!(rt; printed_identity(alloc, &key)?.expose_secret() == SECRET);
    assert!(rt; printed_recipient(alloc, &recipient)?.as_str() == RECIPIENT);
    Ok(())
}
