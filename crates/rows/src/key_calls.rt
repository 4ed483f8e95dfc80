//! The calls on keys, passphrases and files of them that take no memory.

use crate::calls;
use crate::files::{key, passphrase};
use crate::lines::{done, say};
use age::draw::Draw;
use age::encrypted::EncryptedIdentity;
use age::io::Bytes;
use age::secrecy::SecretString;
use age::x25519::{Identity, Recipient};
use age::{Callbacks, Decryptor, IdentityFile, NoCallbacks, scrypt};
use age_bench::suite::BenchSuite;
use std::hash::{DefaultHasher, Hash, Hasher};

// The front of a file to `bench`, and that of one for a passphrase.
const TO_BENCH: &[u8] =
    b"age-encryption.org/v1\n-> bench\nAAAAAAAAAAAAAAAAAAAAAA\n-> x-grease\n\n--- V7seaDdC75BAsSxvbcxwXtSW8y5Dt7T/GP+foqDPt34\n\0\0\0\0\0\0\0\0\0\0\0\0\0\0\0\0";

const FOR_PASSPHRASE: &[u8] =
    b"age-encryption.org/v1\n-> scrypt AAAAAAAAAAAAAAAAAAAAAA 10\nXMo9UYTFFgkpCpmsdHlIM5/W0hYXn1BbZnv0Q3kl82o\n--- OYcv5rOrwoJ2JGRsY7wui/ipHM33H1JfEIQQIqZefyE\n\0\0\0\0\0\0\0\0\0\0\0\0\0\0\0\0";

// The recipient and the identity of the secret 50, 51, .., 81.
const RECIPIENT: &str = "age1dp5kummvd43xxcrpvenkgeg6rvvpj8slrsw3yycszytpw9q4pg9srcyvy0";

const IDENTITY: &str = "AGE-SECRET-KEY-1XGENGDFKXUURJW3M8S7NU06QG9PYX3Z9GER5SJ22FDXY6NJ02PGS4JLZP6";

const SECRET: [u8; 32] = [
    50, 51, 52, 53, 54, 55, 56, 57, 58, 59, 60, 61, 62, 63, 64, 65, 66, 67, 68, 69, 70, 71, 72, 73,
    74, 75, 76, 77, 78, 79, 80, 81,
];

fn recipient(rt: &HostRuntime, text: &str) -> Option<Recipient<BenchSuite>> {
    done(
        rt,
        "recipient",
        "from_str",
        text.parse::<Recipient<BenchSuite>>(),
    )
}

fn identity(rt: &HostRuntime, text: &str) -> Option<Identity<BenchSuite>> {
    done(
        rt,
        "identity",
        "from_str",
        text.parse::<Identity<BenchSuite>>(),
    )
}

fn hash_of(recipient: &Recipient<BenchSuite>) -> u64 {
    let mut state = DefaultHasher::new();
    recipient.hash(&mut state);
    state.finish()
}

// Whether two recipients are the same, and whether their hashes are.
fn compare(rt: &HostRuntime, one: &Recipient<BenchSuite>, other: &Recipient<BenchSuite>) {
    say(rt, "recipient", "eq", &(one == other));
    say(rt, "recipient", "hash", &(hash_of(one) == hash_of(other)));
}

// The recipient of a text and that of an identity's text.
fn compare_texts(rt: &HostRuntime, generated: &Recipient<BenchSuite>) {
    if let Some(read) = recipient(rt, RECIPIENT) {
        compare(rt, generated, &read);
    }
    if let Some(read) = identity(rt, IDENTITY) {
        compare(rt, generated, &read.to_public());
    }
    if let Some(other) = key(rt) {
        compare(rt, generated, &other.to_public());
    }
}

// An identity of the random bytes, and none of what is left.
fn generate(rt: &HostRuntime, draw: &mut Draw) {
    if let Some(identity) = Identity::<BenchSuite>::generate(draw) {
        compare_texts(rt, &identity.to_public());
    }
    let again = Identity::<BenchSuite>::generate(draw);
    say(rt, "identity", "generate", &again.is_some());
}

fn refused_texts(rt: &HostRuntime) {
    let _ = recipient(rt, IDENTITY);
    let _ = recipient(rt, "age1");
    let _ = identity(rt, RECIPIENT);
    let _ = identity(rt, "");
}

fn of_passphrase(rt: &HostRuntime, word: SecretString) {
    let mut recipient = scrypt::Recipient::<BenchSuite>::new(word, 10);
    recipient.set_work_factor(63);
    say(rt, "scrypt", "recipient", &"done");
}

fn knows_passphrase(rt: &HostRuntime, word: SecretString) {
    let mut identity = scrypt::Identity::<BenchSuite>::new(word, 18);
    identity.set_max_work_factor(255);
    say(rt, "scrypt", "identity", &"done");
}

type Front<'a> = Decryptor<BenchSuite, Bytes<'a>>;

fn front<'a>(rt: &HostRuntime, text: &'a [u8]) -> Option<Front<'a>> {
    done(
        rt,
        "decryptor",
        "new",
        Front::new(rt.alloc(), Bytes::new(text)),
    )
}

// Whether a file is one of a passphrase, and an identity is made of it.
fn protects(rt: &HostRuntime, front: Front) {
    say(rt, "decryptor", "is_scrypt", &front.is_scrypt());
    let made = EncryptedIdentity::new(front, NoCallbacks, 18, None);
    say(rt, "encrypted", "new", &made.is_some());
}

fn callbacks(rt: &HostRuntime) {
    let mut none = NoCallbacks;
    none.display_message("message");
    say(
        rt,
        "callbacks",
        "confirm",
        &none.confirm("message", "yes", Some("no")).is_some(),
    );
    say(
        rt,
        "callbacks",
        "public",
        &none.request_public_string("description").is_some(),
    );
    say(
        rt,
        "callbacks",
        "passphrase",
        &none.request_passphrase("description").is_some(),
    );
}

// The file `key` with other callbacks.
fn with_file(rt: &HostRuntime) {
    let read = IdentityFile::<BenchSuite, NoCallbacks>::from_buffer(
        rt.alloc(),
        Bytes::new(IDENTITY.as_bytes()),
    );
    if let Some(file) = done(rt, "file", "from_buffer", read) {
        calls::with_values(rt);
        let _changed = file.with_callbacks(NoCallbacks);
        say(rt, "file", "with_callbacks", &"done");
        callbacks(rt);
    }
}

fn with_fronts(rt: &HostRuntime) {
    let Some(bench) = front(rt, TO_BENCH) else {
        return;
    };
    if let Some(passphrase) = front(rt, FOR_PASSPHRASE) {
        with_file(rt);
        protects(rt, bench);
        protects(rt, passphrase);
    }
}

fn with_passphrases(rt: &HostRuntime) {
    let Some(word) = done(rt, "scrypt", "passphrase", passphrase(rt.alloc())) else {
        return;
    };
    if let Some(other) = done(rt, "scrypt", "passphrase", passphrase(rt.alloc())) {
        with_fronts(rt);
        of_passphrase(rt, word);
        knows_passphrase(rt, other);
    }
}

/// The calls of this file, and before them those of `calls`.
pub fn with_values(rt: &HostRuntime) {
    if let Some(bytes) = done(
        rt,
        "identity",
        "bytes",
        Vec::from_slice(rt.alloc(), &SECRET),
    ) {
        with_passphrases(rt);
        let mut draw = Draw::new(bytes);
        generate(rt, &mut draw);
        refused_texts(rt);
    }
}
