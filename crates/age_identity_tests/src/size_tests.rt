//! The limit of identity files.

use crate::fixtures::{File, K, refuses_file};
use age_devices::{Script, Source, Step};
use age_error::io::{Error, ErrorKind};
use age_io::{BufRead, BufReader, Bytes};
use std::alloc::Global;
use std::test::Fail;

const LIMIT: usize = 16_777_216;

// A first line and LF, and then a comment without LF, so many bytes in all.
fn long_text(alloc: Global, first: &[u8], size: usize) -> Result<Vec<u8>, Fail> {
    let mut text = Vec::with_capacity(alloc, size)?;
    text.extend_from_slice(first)?;
    text.push(b'\n')?;
    text.push(b'#')?;
    for _byte in text.len()..size {
        text.push(b'x')?;
    }
    Ok(text)
}

#[test]
fn a_file_may_have_so_many_bytes(rt: HostRuntime) -> Result<(), Fail> {
    let alloc = rt.alloc();
    let text = long_text(alloc, K.as_bytes(), LIMIT)?;
    assert!(rt; identities(alloc, Bytes::new(text.as_slice()))? == 1);
    Ok(())
}

// How many identities a reader has.
fn identities<R: BufRead + Drop>(alloc: Global, reader: R) -> Result<usize, Fail> {
    Ok(
        File::from_buffer(alloc, reader)?
            .into_identities(alloc)?
            .len(),
    )
}

#[test]
fn a_file_may_have_no_more(rt: HostRuntime) -> Result<(), Fail> {
    let alloc = rt.alloc();
    let text = long_text(alloc, K.as_bytes(), LIMIT + 1)?;
    assert!(rt; refuses_file(alloc, text.as_slice(), Error::LimitExceeded));
    Ok(())
}

#[test]
fn a_bad_line_comes_before_the_limit(rt: HostRuntime) -> Result<(), Fail> {
    let alloc = rt.alloc();
    let text = long_text(alloc, b"AGE-", LIMIT + 1)?;
    assert!(rt; refuses_file(alloc, text.as_slice(), Error::NotIdentity { line: 1 }));
    Ok(())
}

// `K`, LF, and `K`.
fn key_twice(alloc: Global) -> Result<Vec<u8>, Fail> {
    let mut text = Vec::from_slice(alloc, K.as_bytes())?;
    text.push(b'\n')?;
    text.extend_from_slice(K.as_bytes())?;
    Ok(text)
}

// A text on a device that does these steps.
fn device<'a>(
    alloc: Global,
    text: &'a [u8],
    steps: &'a [Step],
) -> Result<BufReader<Source<'a>>, Fail> {
    let source = Source::new(Script::new(steps, 100), text);
    Ok(BufReader::new(alloc, source)?)
}

// How many identities that text has on a device that does these steps.
fn read(alloc: Global, text: &[u8], steps: &[Step]) -> Result<usize, Fail> {
    identities(alloc, device(alloc, text, steps)?)
}

// Whether it is refused so.
fn refuses(alloc: Global, text: &[u8], steps: &[Step], kind: ErrorKind) -> Result<bool, Fail> {
    let answer = File::from_buffer(alloc, device(alloc, text, steps)?);
    Ok(answer.err() == Some(Error::Device(kind)))
}

const INTERRUPTED: Step = Step::Fail(ErrorKind::Interrupted);

const DENIED: Step = Step::Fail(ErrorKind::PermissionDenied);

// Whether both identities are read past interruptions.
fn interruptions_are_passed_over(alloc: Global, text: &[u8]) -> Result<bool, Fail> {
    Ok(
        read(alloc, text, &[])? == 2
            && read(alloc, text, &[Step::Move(1), Step::Move(7), INTERRUPTED])? == 2
            && read(alloc, text, &[INTERRUPTED; 16])? == 2,
    )
}

// Devices that fail for good, at once or after some bytes.
const DENYING: [&[Step]; 3] = [
    &[DENIED],
    &[Step::Move(100), DENIED],
    &[Step::Move(100), Step::Move(100), DENIED],
];

// At most 16 interruptions together are passed over.
#[test]
fn faults_of_the_device_are_answered(rt: HostRuntime) -> Result<(), Fail> {
    let text = key_twice(rt.alloc())?;
    assert!(rt; interruptions_are_passed_over(rt.alloc(), text.as_slice())?);
    assert!(rt;
        refuses(
            rt.alloc(),
            text.as_slice(),
            &[INTERRUPTED; 17],
            ErrorKind::Other
        )?
    );
    for steps in DENYING {
        assert!(rt;
            refuses(
                rt.alloc(),
                text.as_slice(),
                steps,
                ErrorKind::PermissionDenied
            )?
        );
    }
    Ok(())
}
