//! The texts of the errors of encryption and decryption, and their copies.

use crate::error_texts::{prints, shows};
use age_error::{DecryptError, EncryptError, ResolveError, io};
use std::alloc::Global;
use std::collections::BTreeSet;
use std::fmt::{Debug, Display};
use std::test::Fail;

// A set of these labels.
fn labels(alloc: Global, texts: &[&str]) -> Result<BTreeSet<String>, Fail> {
    let mut set = BTreeSet::new(alloc);
    for text in texts {
        set.insert(String::from_str(alloc, text)?)?;
    }
    Ok(set)
}

// Whether an error and its copy print as this text, and are shown alike.
fn copies<E: Display + Debug>(alloc: Global, error: &E, copy: &E, text: &str) -> bool {
    prints(alloc, error, text)
        && prints(alloc, copy, text)
        && format!(in alloc; "{error:?}").is_ok_and(|shown| shows(alloc, copy, &shown))
}

// The same of an error on a plugin, and of what copying it gives.
fn of_plugin(alloc: Global, error: ResolveError, text: &str) -> bool {
    let Ok(copy) = error.clone() else {
        return false;
    };
    copies(alloc, &error, &copy, text)
}

// The same of an error of decryption.
fn of_decryption(alloc: Global, error: DecryptError, text: &str) -> bool {
    let Ok(copy) = error.clone() else {
        return false;
    };
    copies(alloc, &error, &copy, text)
}

// The same of an error of encryption.
fn of_encryption(alloc: Global, error: EncryptError, text: &str) -> bool {
    let Ok(copy) = error.clone() else {
        return false;
    };
    copies(alloc, &error, &copy, text)
}

fn invalid_name(alloc: Global, name: &str) -> Result<ResolveError, Fail> {
    Ok(ResolveError::InvalidPluginName {
        name: String::from_str(alloc, name)?,
    })
}

fn missing(alloc: Global, binary_name: &str) -> Result<ResolveError, Fail> {
    Ok(ResolveError::MissingPlugin {
        binary_name: String::from_str(alloc, binary_name)?,
    })
}

// Whether a name of a plugin that is invalid is told with this text.
fn tells_name(alloc: Global, name: &str, text: &str) -> Result<bool, Fail> {
    Ok(of_plugin(alloc, invalid_name(alloc, name)?, text))
}

// Whether a program that is missing is told with this text.
fn tells_missing(alloc: Global, binary_name: &str, text: &str) -> Result<bool, Fail> {
    Ok(of_plugin(alloc, missing(alloc, binary_name)?, text))
}

// A name of a plugin, and the text that refuses it.
const NAMES: [(&str, &str); 2] = [
    (
        "foobar/../bin/echo",
        "invalid plugin name: foobar/../bin/echo",
    ),
    ("", "invalid plugin name: "),
];

#[test]
fn plugin_errors_have_their_texts_and_copies(rt: HostRuntime) -> Result<(), Fail> {
    let alloc = rt.alloc();
    for (name, text) in NAMES {
        assert!(rt; tells_name(alloc, name, text)?, "at {text}");
    }
    assert!(rt;
        tells_missing(
            alloc,
            "age-plugin-yubikey",
            "plugin not found: age-plugin-yubikey"
        )?
    );
    assert!(rt; of_plugin(alloc, ResolveError::OutOfMemory, "out of memory"));
    Ok(())
}

// Whether refusals of decryption by a reader, and by a plugin, have their texts.
fn decryption_errors_tell_why(alloc: Global) -> Result<bool, Fail> {
    let yubikey = DecryptError::PluginResolve(missing(alloc, "age-plugin-yubikey")?);
    Ok(
        of_decryption(alloc, yubikey, "plugin not found: age-plugin-yubikey")
            && of_decryption(
                alloc,
                DecryptError::Io(io::Error::UnexpectedEof),
                "input ended early",
            )
            && of_decryption(
                alloc,
                DecryptError::Io(io::Error::NotIdentity { line: 7 }),
                "identity file contains non-identity data on line 7",
            ),
    )
}

// Whether those of keys and of work have.
fn decryption_of_keys_fails(alloc: Global) -> bool {
    let excessive = DecryptError::ExcessiveWork {
        required: 10,
        target: 5,
    };
    of_decryption(alloc, excessive, "excessive work factor 10, target 5")
        && of_decryption(alloc, DecryptError::DecryptionFailed, "decryption failed")
        && of_decryption(
            alloc,
            DecryptError::KeyDecryptionFailed,
            "key decryption failed",
        )
        && of_decryption(alloc, DecryptError::NoMatchingKeys, "no matching keys")
}

// Whether those of headers and of memory have.
fn decryption_of_headers_fails(alloc: Global) -> bool {
    of_decryption(alloc, DecryptError::InvalidHeader, "invalid header")
        && of_decryption(alloc, DecryptError::InvalidMac, "invalid header MAC")
        && of_decryption(alloc, DecryptError::UnknownFormat, "unknown format")
        && of_decryption(alloc, DecryptError::OutOfMemory, "out of memory")
}

#[test]
fn decryption_errors_have_their_texts_and_copies(rt: HostRuntime) -> Result<(), Fail> {
    assert!(rt; decryption_of_keys_fails(rt.alloc()));
    assert!(rt; decryption_of_headers_fails(rt.alloc()));
    assert!(rt; decryption_errors_tell_why(rt.alloc())?);
    Ok(())
}

// Whether refusals of encryption by identities, and by a writer, have their texts.
fn encryption_errors_tell_why(alloc: Global) -> bool {
    let failed = EncryptError::EncryptedIdentities(DecryptError::KeyDecryptionFailed);
    let full = EncryptError::Io(io::Error::WriteZero);
    of_encryption(alloc, failed, "key decryption failed")
        && of_encryption(alloc, full, "nothing could be written")
}

// Whether one by identities with an invalid name of a plugin has.
fn invalid_names_are_told(alloc: Global) -> Result<bool, Fail> {
    let invalid = DecryptError::PluginResolve(invalid_name(alloc, "-")?);
    Ok(of_encryption(
        alloc,
        EncryptError::EncryptedIdentities(invalid),
        "invalid plugin name: -",
    ))
}

// Whether one by a program that is missing has.
fn missing_programs_are_told(alloc: Global) -> Result<bool, Fail> {
    let unnamed = EncryptError::PluginResolve(missing(alloc, "age-plugin-")?);
    Ok(of_encryption(alloc, unnamed, "plugin not found: age-plugin-"))
}

// Whether those of recipients have.
fn encryption_to_recipients_fails(alloc: Global) -> bool {
    of_encryption(
        alloc,
        EncryptError::MixedRecipientAndPassphrase,
        "a passphrase can't be used with other recipients",
    ) && of_encryption(alloc, EncryptError::MissingRecipients, "no recipients")
        && of_encryption(
            alloc,
            EncryptError::ZeroSharedSecret,
            "shared secret is zero",
        )
}

// Whether those of random bytes, of work and of memory have.
fn encryption_lacks_something(alloc: Global) -> bool {
    of_encryption(alloc, EncryptError::ShortRandom, "random bytes ran out")
        && of_encryption(
            alloc,
            EncryptError::WorkFactorRefused,
            "work factor refused",
        )
        && of_encryption(alloc, EncryptError::OutOfMemory, "out of memory")
}

#[test]
fn encryption_errors_have_their_texts_and_copies(rt: HostRuntime) -> Result<(), Fail> {
    let alloc = rt.alloc();
    assert!(rt; encryption_to_recipients_fails(alloc) && encryption_lacks_something(alloc));
    assert!(rt; encryption_errors_tell_why(alloc));
    assert!(rt; invalid_names_are_told(alloc)? && missing_programs_are_told(alloc)?);
    Ok(())
}

// Whether recipients with these labels are incompatible with this text.
fn incompatible(alloc: Global, left: &[&str], right: &[&str], text: &str) -> Result<bool, Fail> {
    let error = EncryptError::IncompatibleRecipients {
        l_labels: labels(alloc, left)?,
        r_labels: labels(alloc, right)?,
    };
    Ok(of_encryption(alloc, error, text))
}

// Whether labels that are refused are told with this text.
fn tells_labels(alloc: Global, texts: &[&str], text: &str) -> Result<bool, Fail> {
    let error = EncryptError::InvalidRecipientLabels(labels(alloc, texts)?);
    Ok(of_encryption(alloc, error, text))
}

// The texts of labels on both sides, on the left alone and on the right alone.
const BOTH: &str = "recipients have different labels: B, a, b / postquantum";

const LEFT: &str = "recipients have different labels: a, z / ";

const RIGHT: &str = "recipients have different labels:  / 10, 9";

// Labels are printed in the order of their bytes, whatever the order in which they came.
#[test]
fn labels_have_their_texts_and_copies(rt: HostRuntime) -> Result<(), Fail> {
    let alloc = rt.alloc();
    assert!(rt; incompatible(alloc, &["b", "B", "a"], &["postquantum"], BOTH)?);
    assert!(rt; incompatible(alloc, &["z", "a"], &[], LEFT)?);
    assert!(rt; incompatible(alloc, &[], &["10", "9"], RIGHT)?);
    assert!(rt;
        tells_labels(
            alloc,
            &["c", "a b", "c"],
            "invalid recipient labels: a b, c"
        )?
    );
    Ok(())
}

// Whether this text is what is shown of an error for debugging.
fn shown<E: Debug + Drop>(alloc: Global, error: E, text: &str) -> bool {
    shows(alloc, &error, text)
}

// Whether a refusal of a reader or a writer is shown so as one of decryption, and as one of encryption.
fn is_kept(alloc: Global, error: io::Error, text: &str) -> bool {
    shown(alloc, DecryptError::from(error), text) && shown(alloc, EncryptError::from(error), text)
}

// Want of memory of a reader or a writer is want of memory; what else it refuses with is kept.
#[test]
fn refusals_of_readers_and_writers_are_kept(rt: HostRuntime) {
    let alloc = rt.alloc();
    assert!(rt; is_kept(alloc, io::Error::OutOfMemory, "OutOfMemory"));
    assert!(rt; is_kept(alloc, io::Error::Truncated, "Io(Truncated)"));
    assert!(rt; is_kept(alloc, io::Error::WriteZero, "Io(WriteZero)"));
}

// Whether the work that was asked for is shown.
fn work_is_shown(alloc: Global) -> bool {
    let excessive = DecryptError::ExcessiveWork {
        required: 10,
        target: 5,
    };
    shown(
        alloc,
        excessive,
        "ExcessiveWork { required: 10, target: 5 }",
    )
}

const MISSING: &str = "PluginResolve(MissingPlugin { binary_name: \"age-plugin-x\" })";

// Whether the program that is missing is shown.
fn program_is_shown(alloc: Global) -> Result<bool, Fail> {
    let plugin = DecryptError::PluginResolve(missing(alloc, "age-plugin-x")?);
    Ok(shown(alloc, plugin, MISSING))
}

// Whether labels that are refused are shown.
fn labels_are_shown(alloc: Global) -> Result<bool, Fail> {
    let refused = EncryptError::InvalidRecipientLabels(labels(alloc, &["b", "a"])?);
    Ok(shown(alloc, refused, "InvalidRecipientLabels({\"a\", \"b\"})"))
}

// As Rust's derive writes them.
#[test]
fn long_errors_are_shown_for_debugging(rt: HostRuntime) -> Result<(), Fail> {
    assert!(rt; work_is_shown(rt.alloc()));
    assert!(rt; program_is_shown(rt.alloc())? && labels_are_shown(rt.alloc())?);
    Ok(())
}
