//! Identities whose file is opened by their first use.

use crate::fixtures::{
    Counts, K, Knows, NEVER, QUESTION, counted, is_closed, is_key, is_missing_plugin,
    other_stanzas, own_stanzas, protected, protected_by_nobody, protected_key, secret,
};
use age::armor::ArmoredReader;
use age::format::Stanza;
use age::io::{BufReader, Read, Std};
use age::x25519::Recipient;
use age::{DecryptError, EncryptError, Identity as _};
use age_bench::suite::BenchSuite;
use age_encrypted::Identity;
use std::alloc::Global;
use std::fs::File;
use std::io::Cursor;
use std::test::Fail;
use std::{env, fs, process};
use test_support::fixtures::{armored, message_file};

// The recipient of `K` under the bench suite.
const RECIPIENT: &str = "age1rfgm2376djkhc042ahllca4xeu6g5tqx8eya6wf4py2ddcjypgpquw0u5y";

// An identity by one who knows a passphrase.
type Opens<'a, R> = Identity<BenchSuite, R, Knows<'a>>;

// The identity of a file of this name, by one who gives a passphrase to a question once, if there is one.
fn asking<'a, R: Read + Drop>(
    alloc: Global,
    input: R,
    name: Option<String>,
    callbacks: Knows<'a>,
    most: Option<u8>,
) -> Result<Opens<'a, R>, Fail> {
    match Identity::from_buffer(alloc, input, name, callbacks, 18, most)? {
        Some(identity) => Ok(identity),
        None => Err(Fail::from("the file isn't one of a passphrase")),
    }
}

// The identity of a file whose name is that of the question, by one who gives a passphrase once, if there is one.
fn identity_of<'a, R: Read + Drop>(
    alloc: Global,
    input: R,
    text: Option<&str>,
    counts: &'a mut Counts,
) -> Result<Opens<'a, R>, Fail> {
    let callbacks = Knows {
        passphrase: secret(alloc, text)?,
        question: QUESTION,
        counts,
    };
    let name = Some(String::from_str(alloc, "key.age")?);
    asking(alloc, input, name, callbacks, None)
}

// An input of these bytes that lends nothing.
type Input = Std<Cursor<Vec<u8>>>;

fn input_of(bytes: Vec<u8>) -> Input {
    Std::new(Cursor::new(bytes))
}

// The identity of `K`'s file, by one who gives this passphrase once.
fn key_identity<'a>(
    alloc: Global,
    text: &str,
    counts: &'a mut Counts,
) -> Result<Opens<'a, Input>, Fail> {
    identity_of(alloc, input_of(protected_key(alloc)?), Some(text), counts)
}

// Whether an identity finds the file key of sevens in stanzas.
fn finds<I: age::Identity>(alloc: Global, identity: &mut I, stanzas: &[Stanza]) -> bool {
    is_key(&identity.unwrap_stanzas(alloc, stanzas))
}

// Whether it finds it in each stanza, twice.
fn finds_in_each<I: age::Identity>(alloc: Global, identity: &mut I, stanzas: &[Stanza]) -> bool {
    for stanza in stanzas {
        for _time in 0..2 {
            if !is_key(&identity.unwrap_stanza(alloc, stanza)) {
                return false;
            }
        }
    }
    true
}

// Whether it answers nothing to stanzas.
fn passes<I: age::Identity>(alloc: Global, identity: &mut I, stanzas: &[Stanza]) -> bool {
    identity.unwrap_stanzas(alloc, stanzas).is_none()
}

// Whether it answers that the file isn't opened.
fn stays_closed<I: age::Identity>(alloc: Global, identity: &mut I, stanzas: &[Stanza]) -> bool {
    is_closed(&identity.unwrap_stanzas(alloc, stanzas))
}

// Whether it answers that a plugin's program is missing.
fn misses_plugin<I: age::Identity>(alloc: Global, identity: &mut I, stanzas: &[Stanza]) -> bool {
    is_missing_plugin(&identity.unwrap_stanzas(alloc, stanzas))
}

// Whether the key is found each time that it is asked for, under `foobar`, which is asked for once.
fn is_found_again(alloc: Global, stanzas: &[Stanza]) -> Result<bool, Fail> {
    let mut counts = NEVER;
    let mut identity = key_identity(alloc, "foobar", &mut counts)?;
    let found = finds_in_each(alloc, &mut identity, stanzas)
        && finds(alloc, &mut identity, stanzas);
    drop(identity);
    Ok(found && counted(&counts, 1, 0))
}

#[test]
fn a_file_is_opened_once(rt: HostRuntime) -> Result<(), Fail> {
    let alloc = rt.alloc();
    let stanzas = own_stanzas(alloc)?;
    assert!(rt; is_found_again(alloc, stanzas.as_slice())?);
    Ok(())
}

// Whether stanzas are passed over twice, under `foobar`, which is asked for once, and it is shown once that no key matches.
fn passes_twice(alloc: Global, stanzas: &[Stanza]) -> Result<bool, Fail> {
    let mut counts = NEVER;
    let mut identity = key_identity(alloc, "foobar", &mut counts)?;
    let passed = passes(alloc, &mut identity, stanzas) && passes(alloc, &mut identity, stanzas);
    drop(identity);
    Ok(passed && counted(&counts, 1, 1))
}

#[test]
fn a_user_is_told_once_that_no_key_matches(rt: HostRuntime) -> Result<(), Fail> {
    let alloc = rt.alloc();
    let stanzas = other_stanzas(alloc)?;
    assert!(rt; passes_twice(alloc, stanzas.as_slice())?);
    Ok(())
}

// Whether a recipient prints that of `K`.
fn prints_recipient(alloc: Global, recipient: &Recipient<BenchSuite>) -> Result<bool, Fail> {
    Ok(recipient.to_string(alloc)?.as_str() == RECIPIENT)
}

// Whether they are the recipient of `K` alone.
fn is_that_of_k(alloc: Global, recipients: &[Recipient<BenchSuite>]) -> Result<bool, Fail> {
    match recipients {
        [recipient] => prints_recipient(alloc, recipient),
        _ => Ok(false),
    }
}

// What an identity answers whose recipients are asked for.
type Recipients = Result<Vec<Recipient<BenchSuite>>, EncryptError>;

// Whether they are the recipient of `K` alone.
fn is_recipient(alloc: Global, answer: Recipients) -> Result<bool, Fail> {
    is_that_of_k(alloc, answer?.as_slice())
}

// Whether the recipient of `K` is that of its file, which then passes over stanzas. The passphrase is asked for once, and nothing is shown.
fn has_recipient(alloc: Global, stanzas: &[Stanza]) -> Result<bool, Fail> {
    let mut counts = NEVER;
    let mut identity = key_identity(alloc, "foobar", &mut counts)?;
    let answer = identity.recipients(alloc);
    let passed = passes(alloc, &mut identity, stanzas);
    drop(identity);
    Ok(passed && counted(&counts, 1, 0) && is_recipient(alloc, answer)?)
}

#[test]
fn nothing_is_shown_for_recipients(rt: HostRuntime) -> Result<(), Fail> {
    let alloc = rt.alloc();
    let stanzas = other_stanzas(alloc)?;
    assert!(rt; has_recipient(alloc, stanzas.as_slice())?);
    Ok(())
}

// Whether a file in armor is closed twice to one who has no passphrase and is asked once.
fn is_closed_twice(alloc: Global, text: Vec<u8>) -> Result<bool, Fail> {
    let reader: ArmoredReader<BufReader<Input>> = ArmoredReader::new(alloc, input_of(text))?;
    let mut counts = NEVER;
    let mut identity = identity_of(alloc, reader, None, &mut counts)?;
    let closed = stays_closed(alloc, &mut identity, &[]) && stays_closed(alloc, &mut identity, &[]);
    drop(identity);
    Ok(closed && counted(&counts, 1, 0))
}

#[test]
fn a_file_that_is_refused_stays_so(rt: HostRuntime) -> Result<(), Fail> {
    let alloc = rt.alloc();
    assert!(rt; is_closed_twice(alloc, protected_by_nobody(alloc)?)?);
    Ok(())
}

// Whether there are no recipients, since the file isn't to be opened.
fn is_unopened(answer: &Recipients) -> bool {
    matches!(
        answer,
        Err(EncryptError::EncryptedIdentities(DecryptError::KeyDecryptionFailed))
    )
}

// The same of an identity.
fn is_for_nobody<R: Read + Drop>(alloc: Global, identity: &mut Opens<R>) -> bool {
    is_unopened(&identity.recipients(alloc))
}

// Whether a file is closed to stanzas, and for nobody before and after, under `foobaz`, where one is asked once.
fn is_closed_for_good(alloc: Global, stanzas: &[Stanza]) -> Result<bool, Fail> {
    let mut counts = NEVER;
    let mut identity = key_identity(alloc, "foobaz", &mut counts)?;
    let closed = is_for_nobody(alloc, &mut identity)
        && stays_closed(alloc, &mut identity, stanzas)
        && is_for_nobody(alloc, &mut identity);
    drop(identity);
    Ok(closed && counted(&counts, 1, 0))
}

// The second time the passphrase would be the right one, but nobody asks for it.
#[test]
fn a_wrong_passphrase_is_the_last(rt: HostRuntime) -> Result<(), Fail> {
    let alloc = rt.alloc();
    let stanzas = own_stanzas(alloc)?;
    assert!(rt; is_closed_for_good(alloc, stanzas.as_slice())?);
    Ok(())
}

// A file of a plugin and of `K`, under `foobar`.
fn plugin_and_key(alloc: Global) -> Result<Vec<u8>, Fail> {
    let mut text = Vec::from_slice(alloc, b"AGE-PLUGIN-FOOBAR-1QVHULF\n")?;
    text.extend_from_slice(K.as_bytes())?;
    protected(alloc, text.as_slice())
}

// Whether recipients are refused since a plugin is missing.
fn is_without_plugin(answer: &Recipients) -> bool {
    matches!(answer, Err(EncryptError::PluginResolve(_)))
}

// The same of an identity.
fn lacks_plugin<R: Read + Drop>(alloc: Global, identity: &mut Opens<R>) -> bool {
    is_without_plugin(&identity.recipients(alloc))
}

// Whether a plugin of a file is missing for stanzas and for recipients, where one is asked once.
fn plugin_is_missing(alloc: Global, input: Input, stanzas: &[Stanza]) -> Result<bool, Fail> {
    let mut counts = NEVER;
    let mut identity = identity_of(alloc, input, Some("foobar"), &mut counts)?;
    let missing = misses_plugin(alloc, &mut identity, stanzas)
        && lacks_plugin(alloc, &mut identity);
    drop(identity);
    Ok(missing && counted(&counts, 1, 0))
}

#[test]
fn a_plugin_of_a_protected_file_is_missing(rt: HostRuntime) -> Result<(), Fail> {
    let alloc = rt.alloc();
    let stanzas = own_stanzas(alloc)?;
    let input = input_of(plugin_and_key(alloc)?);
    assert!(rt; plugin_is_missing(alloc, input, stanzas.as_slice())?);
    Ok(())
}

#[test]
fn a_file_of_no_passphrase_is_none(rt: HostRuntime) -> Result<(), Fail> {
    let alloc = rt.alloc();
    let bytes = message_file(alloc, b"")?;
    let mut counts = NEVER;
    let callbacks = Knows {
        passphrase: None,
        question: QUESTION,
        counts: &mut counts,
    };
    let made: Option<Opens<Input>> = Identity::from_buffer(
        alloc,
        input_of(bytes),
        None,
        callbacks,
        18,
        None,
    )?;
    assert!(rt; made.is_none());
    drop(made);
    assert!(rt; counted(&counts, 0, 0));
    Ok(())
}

// A file on a disk of these bytes, which has no name there any more.
fn on_disk(rt: &HostRuntime, bytes: &[u8]) -> Result<File, Fail> {
    let alloc = rt.alloc();
    let name = format!(in alloc; "age-encrypted-tests-{}", process::id(rt.process()))?;
    let path = env::temp_dir(rt)?.join(alloc, name.as_str())?;
    fs::write(rt, path.as_path(), bytes)?;
    let file = File::open(rt, path.as_path())?;
    fs::remove_file(rt, path.as_path())?;
    Ok(file)
}

// Whether an identity finds the key of its own stanzas twice.
fn finds_twice<I: age::Identity>(alloc: Global, mut identity: I) -> Result<bool, Fail> {
    let stanzas = own_stanzas(alloc)?;
    Ok(
        finds(alloc, &mut identity, stanzas.as_slice())
            && finds(alloc, &mut identity, stanzas.as_slice()),
    )
}

// Whether the key is found twice in a file in armor, under `foobar`.
fn is_found_in_armor<R: Read + Drop>(
    alloc: Global,
    file: R,
    counts: &mut Counts,
) -> Result<bool, Fail> {
    let reader = ArmoredReader::new(alloc, file)?;
    finds_twice(alloc, identity_of(alloc, reader, Some("foobar"), counts)?)
}

// The same of a file on a disk, in armor.
#[test]
fn a_file_on_a_disk_is_opened_once(rt: HostRuntime) -> Result<(), Fail> {
    let alloc = rt.alloc();
    let text = armored(alloc, protected_key(alloc)?.as_slice())?;
    let file = Std::new(on_disk(&rt, text.as_slice())?);
    let mut counts = NEVER;
    assert!(rt; is_found_in_armor(alloc, file, &mut counts)?);
    assert!(rt; counted(&counts, 1, 0));
    Ok(())
}

// The identity of `K`'s file without a name, under `foobar`.
fn nameless<'a>(alloc: Global, counts: &'a mut Counts) -> Result<Opens<'a, Input>, Fail> {
    let callbacks = Knows {
        passphrase: secret(alloc, Some("foobar"))?,
        question: "passphrase for encrypted identity ",
        counts,
    };
    asking(
        alloc,
        input_of(protected_key(alloc)?),
        None,
        callbacks,
        Some(10),
    )
}

// Whether that identity finds the key, and one is asked once.
fn nameless_finds(alloc: Global, stanzas: &[Stanza]) -> Result<bool, Fail> {
    let mut counts = NEVER;
    let mut identity = nameless(alloc, &mut counts)?;
    let found = finds(alloc, &mut identity, stanzas);
    drop(identity);
    Ok(found && counted(&counts, 1, 0))
}

#[test]
fn a_file_without_a_name_is_asked_for(rt: HostRuntime) -> Result<(), Fail> {
    let alloc = rt.alloc();
    let stanzas = own_stanzas(alloc)?;
    assert!(rt; nameless_finds(alloc, stanzas.as_slice())?);
    Ok(())
}
