//! A file that another implementation made over OpenSSL's primitives, to the recipient of a key pair that the Rust crate `age` tests with.

use crate::done::is_done;
use age::decrypt;
use age::x25519::Identity;
use age_standard::StandardSuite;
use std::alloc::Global;
use std::process::Abort;
use std::str::FromStr;
use std::test::Fail;
use test_support::answers::gives;

const SECRET: &str = "AGE-SECRET-KEY-1GQ9778VQXMMJVE8SK7J6VT8UJ4HDQAJUVSFCWCM02D8GEWQ72PVQ2Y5J33";

const RECIPIENT: &str = "age1t7rxyev2z3rw82stdlrrepyc39nvn86l5078zqkf5uasdy86jp6svpy7pa";

// A file of the one byte 0.
const FILE: &[u8] =
    b"age-encryption.org/v1\n-> X25519 GCSUzGzViyYd13WDsys/ylJ+L5Wd7ShkWrCXY80s9U8\nWdZ+WWKud62vRiVSi6dq6MBiYWas2wGJy6OYtu8lAnU\n--- JlkuYeKm4d4pmG/V06lCjlfzAByidLgKIq6AEhHbmd8\n\x88\xe7\xdf\xf4F\x9a\x1d\x81e\xac\x99\x12\xc2\xc1aj\x15=\xd9\xd4\x8f\xa4D0\xa5Z}\xfb\xbb\xbafv\xa2";

// The identity of the secret.
fn key() -> Result<Identity<StandardSuite>, Fail> {
    Ok(Identity::from_str(SECRET)?)
}

// Whether a file is decrypted to these bytes.
fn opens_to(alloc: Global, mut key: Identity<StandardSuite>, file: &[u8], plain: &[u8]) -> bool {
    gives(
        decrypt::<StandardSuite, Identity<StandardSuite>>(alloc, &mut key, file),
        plain,
    )
}

// Whether a file is refused.
fn is_refused(alloc: Global, mut key: Identity<StandardSuite>, file: &[u8]) -> bool {
    !is_done(decrypt::<StandardSuite, Identity<StandardSuite>>(alloc, &mut key, file))
}

// Whether the file is refused where this byte is another.
fn is_refused_changed(alloc: Global, place: usize) -> Result<bool, Fail> {
    let key = key()?;
    let mut file = Vec::from_slice(alloc, FILE)?;
    if let Some(byte) = file.get_mut(place) {
        *byte ^= 1;
    }
    Ok(is_refused(alloc, key, &file))
}

#[test]
fn recipient_is_that_of_its_secret(rt: HostRuntime) -> Result<(), Fail> {
    let text = key()?.to_public().to_string(rt.alloc())?;
    assert!(rt; text.as_str() == RECIPIENT);
    Ok(())
}

#[test]
fn file_opens(rt: HostRuntime) -> Result<(), Fail> {
    assert!(rt; opens_to(rt.alloc(), key()?, FILE, &[0]));
    Ok(())
}

#[test]
fn changed_share_is_refused(rt: HostRuntime) -> Result<(), Fail> {
    assert!(rt; is_refused_changed(rt.alloc(), 40)?);
    Ok(())
}

#[test]
fn changed_mac_is_refused(rt: HostRuntime) -> Result<(), Fail> {
    assert!(rt; is_refused_changed(rt.alloc(), 130)?);
    Ok(())
}

#[test]
fn changed_payload_is_refused(rt: HostRuntime) -> Result<(), Fail> {
    assert!(rt; is_refused_changed(rt.alloc(), FILE.len() - 17)?);
    Ok(())
}

#[test]
fn cut_file_is_refused(rt: HostRuntime) -> Result<(), Fail> {
    assert!(rt; is_refused(rt.alloc(), key()?, &FILE[..FILE.len() - 1]));
    Ok(())
}
