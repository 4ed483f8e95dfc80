//! What the tests of the uses share.

use crate::shared::{Kind, done, grease, identities, is_answered, recipients};
use age::armor::Format;
use age::draw::Draw;
use age::io::Bytes;
use age::streaming::{FileError, decrypt_all, encrypt_all};
use age::suite::Suite;
use age::{Identity, Recipient};
use age_bench::recipient::BenchIdentity;
use age_examples::parts::part_of;
use age_examples::there_and_back::there_and_back;
use std::alloc::Global;
use std::test::Fail;
use test_support::answers::gives;
use test_support::fixtures::{MESSAGE, zeros};

/// The armor of the message's file to `bench`, where each random byte is 0 and the grease stanza is `x-grease`.
pub const ARMORED: &[u8] =
    b"-----BEGIN AGE ENCRYPTED FILE-----\nYWdlLWVuY3J5cHRpb24ub3JnL3YxCi0+IGJlbmNoCkFBQUFBQUFBQUFBQUFBQUFB\nQUFBQUEKLT4geC1ncmVhc2UKCi0tLSBWN3NlYURkQzc1QkFzU3h2YmN4d1h0U1c4\neTVEdDdUL0dQK2ZvcURQdDM0CgAAAAAAAAAAAAAAAAAAAAB+YMT23Gu3CnDs2Rvt\nGcA+xEP9hVGksRSR8Qi6km5cGkNmyqtoPSXz7e1CosMvT+zRbNES\n-----END AGE ENCRYPTED FILE-----\n";

/// The message's file to these recipients in one of the forms, where each random byte is 0.
pub fn encrypted<S: Suite, T: Recipient>(
    alloc: Global,
    recipients: &[T],
    format: Format,
) -> Result<Vec<u8>, Fail> {
    let grease = grease(alloc, "x-grease")?;
    let mut draw = zeros(alloc, 32)?;
    let mut file = Vec::new(alloc);
    done(encrypt_all::<S, T, Bytes, Vec<u8>>(
        alloc,
        recipients,
        &mut draw,
        grease,
        format,
        &mut Bytes::new(MESSAGE),
        &mut file,
    ))?;
    Ok(file)
}

/// What these identities make of a file, with the plaintext handed out after what is there.
pub fn decrypted<S: Suite, I: Identity>(
    alloc: Global,
    identities: &mut [I],
    file: &[u8],
    plain: &mut Vec<u8>,
) -> Result<(), FileError> {
    decrypt_all::<S, I, Bytes, Vec<u8>>(alloc, identities, &mut Bytes::new(file), plain)
}

/// Whether these identities decrypt a file to the message.
pub fn is_decrypted<S: Suite, I: Identity>(
    alloc: Global,
    identities: &mut [I],
    file: &[u8],
) -> bool {
    let mut plain = Vec::new(alloc);
    let answer = decrypted::<S, I>(alloc, identities, file, &mut plain);
    is_answered(alloc, answer, None) && plain.as_slice() == MESSAGE
}

/// A part of a file's plaintext, for the bench identity.
pub fn part<S: Suite>(
    alloc: Global,
    place: u64,
    count: usize,
    text: &[u8],
) -> Result<Vec<u8>, FileError> {
    part_of::<S, BenchIdentity, Bytes>(alloc, &mut [BenchIdentity], place, count, Bytes::new(text))
}

/// Whether that part is these bytes.
pub fn has_part<S: Suite>(
    alloc: Global,
    place: u64,
    count: usize,
    text: &[u8],
    expected: &[u8],
) -> bool {
    gives(part::<S>(alloc, place, count, text), expected)
}

/// What the message comes back as from recipients of these kinds by these identities.
pub fn back<S: Suite>(
    alloc: Global,
    kinds: &[Kind],
    identities: &mut [Box<dyn Identity>],
    draw: &mut Draw,
) -> Result<Result<Vec<u8>, FileError>, Fail> {
    let recipients = recipients(alloc, kinds)?;
    let grease = grease(alloc, "x-grease")?;
    Ok(there_and_back::<S>(alloc, &recipients, identities, draw, grease, MESSAGE))
}

/// Whether the message comes back from recipients of these kinds by identities of those.
pub fn comes_back<S: Suite>(
    alloc: Global,
    from: &[Kind],
    by: &[Kind],
    draw: &mut Draw,
) -> Result<bool, Fail> {
    let mut identities = identities(alloc, by)?;
    Ok(gives(back::<S>(alloc, from, &mut identities, draw)?, MESSAGE))
}
