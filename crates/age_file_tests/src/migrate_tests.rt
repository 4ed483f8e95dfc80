//! Files from before the standard, in whose header stanzas have the legacy form: they are refused, and carried over to files that
//! aren't. The expected bytes are those of Python, from the format's own words.

use crate::part_tests::{is_given, no_part_is_given};
use crate::shared::{
    call_gives_message, command_decrypts, command_gives_message, file_of, is_error, replace,
};
use age::io::Bytes;
use age::streaming::migrate;
use age::{DecryptError, Decryptor, Identity, decrypt};
use age_bench::recipient::BenchIdentity;
use age_bench::suite::BenchSuite;
use std::alloc::{AllocError, Global};
use std::test::Fail;
use test_support::answers::delivers;
use test_support::fixtures::{MESSAGE, SEALED, armored, part, plaintext};
use test_support::scripted::{Script, ScriptedIdentity};

/// A header whose second stanza has no empty line at its end. The MAC is that of file key zero over the first 66 bytes.
pub const OLD: &[u8] =
    b"age-encryption.org/v1\n-> bench\nAAAAAAAAAAAAAAAAAAAAAA\n-> x-old\n--- XKAhETzxUcvg991wzB4Y3VMo9zbMcuCnY9lEYSHs+O0\n";

/// The header of the same stanzas in the canonical form. The MAC is that of file key zero over the first 67 bytes.
pub const NEW: &[u8] =
    b"age-encryption.org/v1\n-> bench\nAAAAAAAAAAAAAAAAAAAAAA\n-> x-old\n\n--- XOnDhSe4T5S9y7yAk094xs0dcFu8JQPOHoOy0Ygowxo\n";

// A header whose first stanza has no empty line at its end, nor has its second, whose body is a whole line. The MAC is that of file
// key zero over the first 152 bytes.
const OLD_OF_THREE: &[u8] =
    b"age-encryption.org/v1\n-> x-first\n-> x-whole one two\nAAECAwQFBgcICQoLDA0ODxAREhMUFRYXGBkaGxwdHh8gISIjJCUmJygpKissLS4v\n-> bench\nAAAAAAAAAAAAAAAAAAAAAA\n--- elIuHSvvmQBs0eAH5HtOxz0Ol3QcR8jwzsBbm/C7ZtQ\n";

// The header of the same stanzas in the canonical form. The MAC is that of file key zero over the first 154 bytes.
const NEW_OF_THREE: &[u8] =
    b"age-encryption.org/v1\n-> x-first\n\n-> x-whole one two\nAAECAwQFBgcICQoLDA0ODxAREhMUFRYXGBkaGxwdHh8gISIjJCUmJygpKissLS4v\n\n-> bench\nAAAAAAAAAAAAAAAAAAAAAA\n--- yNHIlfyVFlufFyLUlZN/98lk2/ooLlx0EEvnyJHiFsQ\n";

// The armor of the old file.
const ARMORED: &[u8] =
    b"-----BEGIN AGE ENCRYPTED FILE-----\nYWdlLWVuY3J5cHRpb24ub3JnL3YxCi0+IGJlbmNoCkFBQUFBQUFBQUFBQUFBQUFB\nQUFBQUEKLT4geC1vbGQKLS0tIFhLQWhFVHp4VWN2Zzk5MXd6QjRZM1ZNbzl6Yk1j\ndUNuWTlsRVlTSHMrTzAKAAAAAAAAAAAAAAAAAAAAAH5gxPbca7cKcOzZG+0ZwD7E\nQ/2FUaSxFJHxCLqSblwaQ2bKq2g9JfPt7UKiwy9P7NFs0RI=\n-----END AGE ENCRYPTED FILE-----\n";

// Carries over what `file` is of these identities, and appends it.
fn carried_over<I: Identity>(
    alloc: Global,
    identities: &mut [I],
    file: &[u8],
    written: &mut Vec<u8>,
) -> Result<(), DecryptError> {
    migrate::<BenchSuite, I, Bytes, Vec<u8>>(alloc, identities, &mut Bytes::new(file), written)
}

/// Whether one file becomes another by the identity of `bench`.
pub fn becomes(alloc: Global, file: &[u8], other: &[u8]) -> bool {
    let mut written = Vec::new(alloc);
    let answer = carried_over(alloc, &mut [BenchIdentity], file, &mut written);
    answer.is_ok() && written.as_slice() == other
}

// Whether a file of one header becomes the one of so many bytes of another.
fn file_becomes(alloc: Global, old: &[u8], new: &[u8], size: usize) -> Result<bool, AllocError> {
    let new = file_of(alloc, new)?;
    Ok(new.len() == size && becomes(alloc, &file_of(alloc, old)?, &new))
}

// A header, the one that it becomes, and the size of a file of that.
const CARRIED: [(&[u8], &[u8], usize); 4] = [
    (OLD, NEW, 180),
    (OLD_OF_THREE, NEW_OF_THREE, 267),
    (NEW, NEW, 180),
    (NEW_OF_THREE, NEW_OF_THREE, 267),
];

#[test]
fn files_are_carried_over(rt: HostRuntime) -> Result<(), Fail> {
    for (old, new, size) in CARRIED {
        assert!(rt; file_becomes(rt.alloc(), old, new, size)?);
    }
    Ok(())
}

// Whether what a file of this header becomes is decrypted to the message, by the call and by the command.
fn gives_message_carried(alloc: Global, header: &[u8]) -> Result<bool, Fail> {
    let mut written = Vec::new(alloc);
    let file = file_of(alloc, header)?;
    carried_over(alloc, &mut [BenchIdentity], &file, &mut written)?;
    Ok(call_gives_message(alloc, &written) && command_gives_message(alloc, &written))
}

#[test]
fn files_that_were_carried_over_are_decrypted(rt: HostRuntime) -> Result<(), Fail> {
    for (old, _, _) in CARRIED {
        assert!(rt; gives_message_carried(rt.alloc(), old)?);
    }
    Ok(())
}

// Whether a file is refused as one with a bad header, by the call and by the command.
fn is_not_decrypted(alloc: Global, file: &[u8]) -> bool {
    let mut plain = Vec::new(alloc);
    let answer = decrypt::<BenchSuite, BenchIdentity>(alloc, &mut BenchIdentity, file);
    is_error(alloc, answer, "InvalidHeader")
        && command_decrypts(alloc, file, &mut plain, Some("invalid header"))
        && plain.is_empty()
}

// Whether no front is read from an input, by bytes.
fn reads_no_front(alloc: Global, input: &mut Bytes<'_>) -> bool {
    let decryptor = Decryptor::<BenchSuite, &mut Bytes>::new(alloc, input);
    is_error(alloc, decryptor, "InvalidHeader")
}

// The same by what the input shows.
fn shows_no_front(alloc: Global, input: &mut Bytes<'_>) -> bool {
    let decryptor = Decryptor::<BenchSuite, &mut Bytes>::new_buffered(alloc, input);
    is_error(alloc, decryptor, "InvalidHeader")
}

// Whether the front of a file of this header is refused in both ways, after so many bytes.
fn front_is_refused(alloc: Global, header: &[u8], taken: usize) -> Result<bool, AllocError> {
    let file = file_of(alloc, header)?;
    let rest = part(&file, taken, file.len());
    let mut input = Bytes::new(&file);
    let mut shown = Bytes::new(&file);
    Ok(
        reads_no_front(alloc, &mut input)
            && delivers(alloc, &mut input, rest)
            && shows_no_front(alloc, &mut shown)
            && delivers(alloc, &mut shown, rest),
    )
}

// The line after a stanza in the legacy form decides: that of the MAC, or that of the stanza with two arguments.
#[test]
fn files_with_a_legacy_stanza_are_refused(rt: HostRuntime) -> Result<(), Fail> {
    let alloc = rt.alloc();
    assert!(rt; front_is_refused(alloc, OLD, 111)? && front_is_refused(alloc, OLD_OF_THREE, 52)?);
    assert!(rt; is_not_decrypted(alloc, &file_of(alloc, OLD)?));
    assert!(rt; is_not_decrypted(alloc, &file_of(alloc, OLD_OF_THREE)?));
    assert!(rt; is_not_decrypted(alloc, ARMORED));
    Ok(())
}

// Whether the part of a file's plaintext from place 30 on is the message's.
fn gives_end(alloc: Global, file: &[u8]) -> bool {
    is_given(alloc, file, 30, 10, b"sting.")
}

// Whether no part of a file's plaintext is given.
fn gives_no_end(alloc: Global, file: &[u8]) -> bool {
    no_part_is_given(alloc, file, 30, 10, "invalid header")
}

// Whether it is given of what an old file becomes, and of the armor of that.
fn end_is_given_carried(alloc: Global) -> Result<bool, Fail> {
    let mut written = Vec::new(alloc);
    let file = file_of(alloc, OLD)?;
    carried_over(alloc, &mut [BenchIdentity], &file, &mut written)?;
    Ok(gives_end(alloc, &written) && gives_end(alloc, &armored(alloc, &written)?))
}

#[test]
fn a_part_is_given_once_the_file_is_carried_over(rt: HostRuntime) -> Result<(), Fail> {
    let alloc = rt.alloc();
    assert!(rt; gives_no_end(alloc, &file_of(alloc, OLD)?) && gives_no_end(alloc, ARMORED));
    assert!(rt; end_is_given_carried(alloc)?);
    Ok(())
}

// Whether carrying over is refused with the error that `Debug` writes so, nothing is written, and these bytes of the file are left.
fn is_refused<I: Identity>(
    alloc: Global,
    identities: &mut [I],
    file: &[u8],
    error: &str,
    rest: &[u8],
) -> bool {
    let mut input = Bytes::new(file);
    let mut written = Vec::new(alloc);
    let answer = migrate::<BenchSuite, I, Bytes, Vec<u8>>(
        alloc,
        identities,
        &mut input,
        &mut written,
    );
    is_error(alloc, answer, error) && written.is_empty() && delivers(alloc, &mut input, rest)
}

// The same by the identity of `bench`.
fn bench_is_refused(alloc: Global, file: &[u8], error: &str, rest: &[u8]) -> bool {
    is_refused(alloc, &mut [BenchIdentity], file, error, rest)
}

// A header, the place of a letter in its MAC that has no unused bits, and one that differs from it in one bit.
const CHANGED: [(&[u8], usize, u8, u8); 4] = [
    (OLD, 67, b'X', b'W'),
    (NEW, 68, b'X', b'W'),
    (OLD_OF_THREE, 153, b'e', b'f'),
    (NEW_OF_THREE, 155, b'y', b'z'),
];

// Whether a file with that letter in its MAC is refused, before any byte of its payload is read.
fn change_is_refused(
    alloc: Global,
    header: &[u8],
    place: usize,
    from: u8,
    to: u8,
) -> Result<bool, AllocError> {
    let mut file = file_of(alloc, header)?;
    Ok(replace(&mut file, place, from, to) && bench_is_refused(alloc, &file, "InvalidMac", &SEALED))
}

#[test]
fn a_changed_mac_is_refused(rt: HostRuntime) -> Result<(), Fail> {
    for (header, place, from, to) in CHANGED {
        assert!(rt; change_is_refused(rt.alloc(), header, place, from, to)?);
    }
    Ok(())
}

// What the MAC covers of a header, and the MAC of another.
const EXCHANGED: [(&[u8], usize, &[u8], usize); 4] = [
    (OLD, 66, NEW, 67),
    (NEW, 67, OLD, 66),
    (OLD_OF_THREE, 152, NEW_OF_THREE, 154),
    (NEW_OF_THREE, 154, OLD_OF_THREE, 152),
];

// A file of these bytes that are covered, and what follows those of another header in that.
fn file_with_mac(
    alloc: Global,
    header: &[u8],
    covered: usize,
    other: &[u8],
    place: usize,
) -> Result<Vec<u8>, AllocError> {
    let mut text = Vec::from_slice(alloc, part(header, 0, covered))?;
    text.extend_from_slice(part(other, place, other.len()))?;
    file_of(alloc, &text)
}

// The MAC covers the bytes as they are read, and the one of the other form isn't right for them.
#[test]
fn the_mac_of_the_other_form_is_refused(rt: HostRuntime) -> Result<(), Fail> {
    let alloc = rt.alloc();
    for (header, covered, other, place) in EXCHANGED {
        let file = file_with_mac(alloc, header, covered, other, place)?;
        assert!(rt; bench_is_refused(alloc, &file, "InvalidMac", &SEALED));
    }
    Ok(())
}

// Identities of these scripts that weren't asked yet.
fn identities_of(alloc: Global, scripts: &[Script]) -> Result<Vec<ScriptedIdentity>, AllocError> {
    let mut identities = Vec::new(alloc);
    for script in scripts {
        identities.push(ScriptedIdentity {
            script: *script,
            asked: 0,
        })?;
    }
    Ok(identities)
}

// Whether identities were asked so often.
fn were_asked(identities: &[ScriptedIdentity], times: &[u8]) -> bool {
    for (identity, count) in identities.iter().zip(times.iter()) {
        if identity.asked != *count {
            return false;
        }
    }
    identities.len() == times.len()
}

// What identities answer to the stanzas of a file, the refusal, and how often each is asked.
const ANSWERS: [(&[Script], &str, &[u8]); 7] = [
    (&[], "NoMatchingKeys", &[]),
    (&[Script::Nothing], "NoMatchingKeys", &[2]),
    (
        &[Script::Nothing, Script::Nothing],
        "NoMatchingKeys",
        &[2, 2],
    ),
    (&[Script::Refusal], "DecryptionFailed", &[1]),
    (
        &[Script::Nothing, Script::Refusal, Script::TimesAsked],
        "DecryptionFailed",
        &[2, 1, 0],
    ),
    (&[Script::TimesAsked], "InvalidMac", &[1]),
    (
        &[Script::TimesAsked, Script::Refusal],
        "InvalidMac",
        &[1, 0],
    ),
];

// Whether these answers refuse the old file so.
fn answers_refuse(
    alloc: Global,
    scripts: &[Script],
    error: &str,
    times: &[u8],
) -> Result<bool, AllocError> {
    let mut identities = identities_of(alloc, scripts)?;
    let file = file_of(alloc, OLD)?;
    Ok(is_refused(alloc, &mut identities, &file, error, &SEALED) && were_asked(&identities, times))
}

#[test]
fn the_first_identity_that_answers_decides(rt: HostRuntime) -> Result<(), Fail> {
    for (scripts, error, times) in ANSWERS {
        assert!(rt; answers_refuse(rt.alloc(), scripts, error, times)?);
    }
    Ok(())
}

// The MAC of the old header, and of the new one, under a file key of ones.
const OLD_MAC_OF_ONES: &[u8] = b" B9QE7RLuDv0969vFuisAnvRxDqFmO3ENoq3f8EAR46w\n";

const NEW_MAC_OF_ONES: &[u8] = b" 3NFXEBc3SOqY7gv8G09GT/MbN2VN3mDkDEsHIR4aDUE\n";

// Whether the file of that key is carried over by an identity that answers it, which stands behind one that answers nothing.
fn is_carried_over_by_ones(alloc: Global) -> Result<bool, AllocError> {
    let file = file_with_mac(alloc, OLD, 66, OLD_MAC_OF_ONES, 0)?;
    let other = file_with_mac(alloc, NEW, 67, NEW_MAC_OF_ONES, 0)?;
    let mut identities = identities_of(alloc, &[Script::Nothing, Script::TimesAsked])?;
    let mut written = Vec::new(alloc);
    let answer = carried_over(alloc, &mut identities, &file, &mut written);
    Ok(answer.is_ok() && written.as_slice() == other.as_slice() && were_asked(&identities, &[2, 1]))
}

#[test]
fn the_new_mac_is_under_the_key_that_the_identities_get(rt: HostRuntime) -> Result<(), Fail> {
    assert!(rt; is_carried_over_by_ones(rt.alloc())?);
    Ok(())
}

// A header with a stanza of a passphrase beside another, and a MAC that is nobody's.
const MIXED: &[u8] =
    b"age-encryption.org/v1\n-> scrypt AAAA 10\nAAAA\n-> x-old\n--- AAAAAAAAAAAAAAAAAAAAAAAAAAAAAAAAAAAAAAAAAAA\n";

// Whether it is refused so where so many bytes follow it, and nobody is asked.
fn mixed_is_refused(
    alloc: Global,
    after: usize,
    error: &str,
    rest: &[u8],
) -> Result<bool, AllocError> {
    let mut file = Vec::from_slice(alloc, MIXED)?;
    file.extend_from_slice(part(&[b'n'; 17], 0, after))?;
    let mut identities = identities_of(alloc, &[Script::TimesAsked])?;
    Ok(is_refused(alloc, &mut identities, &file, error, rest) && were_asked(&identities, &[0]))
}

#[test]
fn a_passphrase_beside_others_is_refused_after_the_nonce(rt: HostRuntime) -> Result<(), Fail> {
    let alloc = rt.alloc();
    assert!(rt; mixed_is_refused(alloc, 15, "Io(UnexpectedEof)", b"")?);
    assert!(rt; mixed_is_refused(alloc, 16, "InvalidHeader", b"")?);
    assert!(rt; mixed_is_refused(alloc, 17, "InvalidHeader", b"n")?);
    Ok(())
}

// Whether no beginning of a file that ends before its payload is carried over, where the header and the nonce have so many bytes.
fn cut_front_is_refused(alloc: Global, file: &[u8], front: usize) -> bool {
    for length in 0..front {
        if !bench_is_refused(alloc, part(file, 0, length), "Io(UnexpectedEof)", b"") {
            return false;
        }
    }
    true
}

// Whether each longer beginning of it becomes that of another file which has so many bytes more.
fn cut_payload_is_kept(
    alloc: Global,
    file: &[u8],
    front: usize,
    other: &[u8],
    more: usize,
) -> bool {
    for length in front..file.len().saturating_add(1) {
        let cut = part(other, 0, length.saturating_add(more));
        if !becomes(alloc, part(file, 0, length), cut) {
            return false;
        }
    }
    true
}

// A header, the bytes of it and its nonce, the header that it becomes, and how many bytes more that has.
const CUT: [(&[u8], usize, &[u8], usize); 3] = [
    (OLD, 127, NEW, 1),
    (NEW, 128, NEW, 0),
    (OLD_OF_THREE, 213, NEW_OF_THREE, 2),
];

// The payload isn't looked at: a file that is cut in it is carried over as it stands.
#[test]
fn files_are_cut_after_each_byte(rt: HostRuntime) -> Result<(), Fail> {
    let alloc = rt.alloc();
    for (old, front, new, more) in CUT {
        let file = file_of(alloc, old)?;
        assert!(rt; cut_front_is_refused(alloc, &file, front));
        assert!(rt; cut_payload_is_kept(alloc, &file, front, &file_of(alloc, new)?, more));
    }
    Ok(())
}

// A header, and these bytes after it.
fn followed(alloc: Global, header: &[u8], rest: &[u8]) -> Result<Vec<u8>, AllocError> {
    let mut file = Vec::from_slice(alloc, header)?;
    file.extend_from_slice(rest)?;
    Ok(file)
}

// Nonce and payload are what any bytes are, and more than are copied at once.
#[test]
fn what_follows_the_header_is_kept(rt: HostRuntime) -> Result<(), Fail> {
    let alloc = rt.alloc();
    let rest = plaintext(alloc, 200_000)?;
    assert!(rt;
        becomes(
            alloc,
            &followed(alloc, OLD, &rest)?,
            &followed(alloc, NEW, &rest)?
        )
    );
    Ok(())
}

// Inputs that are no bare file of this version, the error, and how many bytes are taken.
const OTHERS: [(&[u8], &str, usize); 6] = [
    (ARMORED, "InvalidHeader", 1),
    (b"hello", "InvalidHeader", 1),
    (b"age-encryption.org/v2\nmore", "UnknownFormat", 22),
    (b"age-encryption.org/v1\n--- \nmore", "InvalidHeader", 27),
    (
        b"age-encryption.org/v1\n-> a\nYR\nmore",
        "InvalidHeader",
        30,
    ),
    (
        b"age-encryption.org/v1\n-> a\n--- AA\nmore",
        "InvalidHeader",
        34,
    ),
];

// Whether such an input is refused so.
fn other_is_refused(alloc: Global, input: &[u8], error: &str, taken: usize) -> bool {
    bench_is_refused(alloc, input, error, part(input, taken, input.len()))
}

// The armor of what an old file becomes.
fn new_in_armor(alloc: Global) -> Result<Vec<u8>, Fail> {
    Ok(armored(alloc, &file_of(alloc, NEW)?)?)
}

#[test]
fn bare_files_alone_are_carried_over(rt: HostRuntime) -> Result<(), Fail> {
    let alloc = rt.alloc();
    for (input, error, taken) in OTHERS {
        assert!(rt; other_is_refused(alloc, input, error, taken));
    }
    assert!(rt; other_is_refused(alloc, &new_in_armor(alloc)?, "InvalidHeader", 1));
    Ok(())
}

// The MAC of file key zero over the stanza of `bench`, 10,000 without arguments and body, and what stands around them.
const LONG_OLD_MAC: &[u8] = b"--- diOaMylZFdMjhcyDDqSBPU4TTzg0Qn4te4jNPTTf8Gc\n";

const LONG_NEW_MAC: &[u8] = b"--- Ji4aCDJZFexnKByBOk9v/3vVoMmlkouQn8H5UGTjaJU\n";

// The file of these stanzas, of which 10,000 have this text.
fn long_file(alloc: Global, stanza: &[u8], mac: &[u8]) -> Result<Vec<u8>, AllocError> {
    let mut header = Vec::from_slice(alloc, part(OLD, 0, 54))?;
    for _stanza in 0..10_000u32 {
        header.extend_from_slice(stanza)?;
    }
    header.extend_from_slice(mac)?;
    file_of(alloc, &header)
}

#[test]
fn a_file_of_10_001_stanzas_is_carried_over(rt: HostRuntime) -> Result<(), Fail> {
    let alloc = rt.alloc();
    let old = long_file(alloc, b"-> x\n", LONG_OLD_MAC)?;
    let new = long_file(alloc, b"-> x\n\n", LONG_NEW_MAC)?;
    assert!(rt; old.len() == 50_170 && new.len() == 60_170 && becomes(alloc, &old, &new));
    Ok(())
}
