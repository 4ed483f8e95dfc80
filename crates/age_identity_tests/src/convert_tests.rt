//! What is made of identity files. The recipient of `K` under the bench suite was computed by a program of our own after BIP 173.

use crate::fixtures::{File, count, text_of};
use age::io::Write;
use age::x25519::Recipient;
use age_bench::suite::BenchSuite;
use age_devices::{Script, Sink, Step};
use age_error::EncryptError;
use age_error::io::{Error, ErrorKind};
use age_error::resolve::ResolveError;
use age_identity::{IdentityFileConvertError, NoCallbacks};
use age_io::Bytes;
use std::alloc::Global;
use std::test::Fail;
use test_support::answers::is_refusal;

const RECIPIENT_LINE: &[u8] = b"age1rfgm2376djkhc042ahllca4xeu6g5tqx8eya6wf4py2ddcjypgpquw0u5y\n";

fn file_of(alloc: Global, form: &[u8]) -> Result<File, Fail> {
    let text = text_of(alloc, form, b"\n")?;
    Ok(File::from_buffer(alloc, Bytes::new(text.as_slice()))?)
}

// How often the output has the line of the recipient, and nothing else.
fn lines(output: &[u8]) -> Option<usize> {
    let mut rest = output;
    for count in 0..output.len() + 1 {
        match rest.strip_prefix(RECIPIENT_LINE) {
            Some(tail) => rest = tail,
            None => return if rest.is_empty() { Some(count) } else { None },
        }
    }
    None
}

// How many recipients are written of a file, and nothing else.
fn written(alloc: Global, file: &File) -> Result<Option<usize>, Fail> {
    let mut output = Vec::new(alloc);
    file.write_recipients_file(alloc, &mut output)?;
    Ok(lines(output.as_slice()))
}

// How many recipients a file has.
fn recipients(alloc: Global, file: &File) -> Result<usize, Fail> {
    Ok(file.to_recipients(alloc)?.len())
}

// Whether a file has so many recipients, which are written.
fn writes_all(alloc: Global, file: &File, expected: usize) -> Result<bool, Fail> {
    Ok(written(alloc, file)? == Some(expected) && recipients(alloc, file)? == expected)
}

#[test]
fn recipients_are_written(rt: HostRuntime) -> Result<(), Fail> {
    let file = file_of(rt.alloc(), b"@^#^@")?;
    assert!(rt; writes_all(rt.alloc(), &file, 2)?);
    Ok(())
}

// What writing the recipients of a file answers.
type Written = Result<(), IdentityFileConvertError>;

// Whether nothing is written of a plugin `foobar` in a file without a name.
fn names_plugin(answer: &Written) -> bool {
    match answer {
        Err(
            IdentityFileConvertError::IdentityFileContainsPlugin {
                filename,
                plugin_name,
            },
        ) => filename.is_none() && plugin_name.as_str() == "foobar",
        _ => false,
    }
}

// Whether the recipients of a file are written up to that plugin, so many of them.
fn stops_at_plugin(alloc: Global, file: &File, expected: usize) -> bool {
    let mut output = Vec::new(alloc);
    names_plugin(&file.write_recipients_file(alloc, &mut output))
        && lines(output.as_slice()) == Some(expected)
}

#[test]
fn recipients_are_written_up_to_a_plugin(rt: HostRuntime) -> Result<(), Fail> {
    let file = file_of(rt.alloc(), b"@^AGE-PLUGIN-FOOBAR-1QVHULF^@")?;
    assert!(rt; stops_at_plugin(rt.alloc(), &file, 1));
    Ok(())
}

// Whether a file without a name has no identities.
fn is_empty(answer: &Written) -> bool {
    match answer {
        Err(IdentityFileConvertError::NoIdentities { filename }) => filename.is_none(),
        _ => false,
    }
}

// Whether no recipients are written since there are none.
fn writes_none(alloc: Global, file: &File) -> bool {
    let mut output = Vec::new(alloc);
    is_empty(&file.write_recipients_file(alloc, &mut output)) && output.is_empty()
}

#[test]
fn a_file_without_identities_has_no_recipients(rt: HostRuntime) -> Result<(), Fail> {
    let file = file_of(rt.alloc(), b"")?;
    assert!(rt; writes_none(rt.alloc(), &file));
    assert!(rt; recipients(rt.alloc(), &file)? == 0);
    Ok(())
}

// Whether the output refused so.
fn is_fault(answer: &Written, fault: Error) -> bool {
    match answer {
        Err(IdentityFileConvertError::FailedToWriteOutput(error)) => *error == fault,
        _ => false,
    }
}

// Whether writing the recipients of a file to an output fails so.
fn fails<W: Write>(alloc: Global, file: &File, output: &mut W, fault: Error) -> bool {
    is_fault(&file.write_recipients_file(alloc, output), fault)
}

// An output that takes a byte, and refuses the next one.
const SECOND_FAILS: [Step; 2] = [Step::Move(1), Step::Fail(ErrorKind::PermissionDenied)];

// A device that does these steps, and then takes at most 100 bytes in a call.
fn sink<'a>(alloc: Global, steps: &'a [Step]) -> Sink<'a> {
    Sink::new(alloc, Script::new(steps, 100))
}

#[test]
fn a_fault_of_the_output_is_answered(rt: HostRuntime) -> Result<(), Fail> {
    let file = file_of(rt.alloc(), b"@")?;
    let fault = Error::Device(ErrorKind::PermissionDenied);
    assert!(rt;
        fails(
            rt.alloc(),
            &file,
            &mut sink(rt.alloc(), &SECOND_FAILS),
            fault
        )
    );
    Ok(())
}

// Whether recipients are refused since this program is missing.
fn misses(answer: &Result<Vec<Recipient<BenchSuite>>, EncryptError>, program: &str) -> bool {
    match answer {
        Err(EncryptError::PluginResolve(ResolveError::MissingPlugin { binary_name })) => {
            binary_name.as_str() == program
        }
        _ => false,
    }
}

// Whether a file has no recipients since this program is missing.
fn has_no_recipients(alloc: Global, file: &File, program: &str) -> bool {
    misses(&file.to_recipients(alloc), program)
}

// `K` and two plugins, of which the later comes first by its name.
const PLUGINS: &[u8] = b"@^AGE-PLUGIN-ZETA-1CEJWHN^AGE-PLUGIN-ALPHA-13DM6UT^";

#[test]
fn plugins_are_missing(rt: HostRuntime) -> Result<(), Fail> {
    let file = file_of(rt.alloc(), PLUGINS)?.with_callbacks(NoCallbacks);
    assert!(rt; has_no_recipients(rt.alloc(), &file, "age-plugin-alpha"));
    let refusal = "plugin not found: age-plugin-zeta";
    assert!(rt; is_refusal(rt.alloc(), file.into_identities(rt.alloc()), refusal));
    Ok(())
}

#[test]
fn identities_are_those_of_the_file(rt: HostRuntime) -> Result<(), Fail> {
    let alloc = rt.alloc();
    assert!(rt; count(alloc, file_of(alloc, b"@")?)? == 1);
    Ok(())
}

// Whether an error has this text.
fn says(alloc: Global, error: IdentityFileConvertError, text: &str) -> Result<bool, Fail> {
    Ok(error.to_string(alloc)?.as_str() == text)
}

// Whether those of an output and of a file without identities have their texts.
fn short_errors_say_so(alloc: Global) -> Result<bool, Fail> {
    let failed = IdentityFileConvertError::FailedToWriteOutput(Error::WriteZero);
    let none = IdentityFileConvertError::NoIdentities { filename: None };
    Ok(
        says(alloc, failed, "failed to write output")?
            && says(alloc, none, "no identities in file")?,
    )
}

// The error of a plugin `foobar` in the file `keys.txt`.
fn plugin_in_file(alloc: Global) -> Result<IdentityFileConvertError, Fail> {
    Ok(IdentityFileConvertError::IdentityFileContainsPlugin {
        filename: Some(String::from_str(alloc, "keys.txt")?),
        plugin_name: String::from_str(alloc, "foobar")?,
    })
}

// Whether it has this text.
fn plugin_says(alloc: Global, text: &str) -> Result<bool, Fail> {
    says(alloc, plugin_in_file(alloc)?, text)
}

#[test]
fn errors_have_their_texts(rt: HostRuntime) -> Result<(), Fail> {
    assert!(rt; short_errors_say_so(rt.alloc())?);
    assert!(rt;
        plugin_says(
            rt.alloc(),
            "identity file contains a plugin identity: foobar"
        )?
    );
    Ok(())
}
