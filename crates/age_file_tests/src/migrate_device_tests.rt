//! Files from before the standard that are carried over from and to devices which fail at each of their calls in turn.

use crate::device_tests::is_refused;
use crate::migrate_tests::{NEW, OLD};
use crate::shared::{file_of, is_error, replace};
use age::DecryptError;
use age::io::{Bytes, ErrorKind, Read, Write, read_to_end};
use age::streaming::migrate;
use age_bench::recipient::BenchIdentity;
use age_bench::suite::BenchSuite;
use age_devices::{Script, Sink, Source, Step};
use std::alloc::{AllocError, Global};
use std::process::Abort;
use std::test::Fail;
use test_support::fixtures::{SEALED, part};

// The bytes of the old file before its payload.
const FRONT: usize = 127;

// Carries a file over by the identity of `bench`.
fn carry_over<R: Read, W: Write>(
    alloc: Global,
    reader: &mut R,
    writer: &mut W,
) -> Result<(), DecryptError> {
    migrate::<BenchSuite, BenchIdentity, R, W>(alloc, &mut [BenchIdentity], reader, writer)
}

// The calls of a device that moves a byte at each of so many and then fails once.
fn steps(alloc: Global, moves: usize) -> Result<Vec<Step>, AllocError> {
    let mut steps = vec![in alloc; Step::Move(1); moves]?;
    steps.push(Step::Fail(ErrorKind::Other))?;
    Ok(steps)
}

// Whether this was written of the file that another becomes, of which these bytes are still to be read: nothing before the payload,
// and then all but these.
fn is_written(alloc: Global, written: &[u8], rest: &[u8], file: &[u8]) -> Result<bool, AllocError> {
    if rest.len() > SEALED.len() {
        return Ok(written.is_empty());
    }
    let mut both = Vec::from_slice(alloc, written)?;
    both.extend_from_slice(rest)?;
    Ok(both.as_slice() == file)
}

// What came of a file that a device gives: whether the device's fault refused it, and what was written.
fn read_from(alloc: Global, source: &mut Source<'_>) -> Result<(bool, Vec<u8>), Fail> {
    let mut written = Vec::new(alloc);
    let refused = is_refused(carry_over(alloc, source, &mut written))?;
    if source.faults() != refused as u64 {
        return Err(Fail::from("another count of faults"));
    }
    Ok((refused, written))
}

// Whether the fault of the device that fails at the call of this number refuses it, and what was written is right.
fn read_fails_at(alloc: Global, old: &[u8], new: &[u8], call: u64) -> Result<bool, Fail> {
    let mut source = Source::new(Script::failing_at(call), old);
    let (refused, written) = read_from(alloc, &mut source)?;
    let mut rest = Vec::new(alloc);
    if refused {
        read_to_end(alloc, &mut source, &mut rest)?;
    }
    if !is_written(alloc, &written, &rest, new)? {
        return Err(Fail::from("other bytes"));
    }
    Ok(refused)
}

// At least one read for the header, one for the nonce, one for the payload and one for the end.
const READS: u64 = 4;

#[test]
fn each_read_fails_in_turn(rt: HostRuntime) -> Result<(), Fail> {
    let old = file_of(rt.alloc(), OLD)?;
    let new = file_of(rt.alloc(), NEW)?;
    for call in 1..1_000u64 {
        if !read_fails_at(rt.alloc(), &old, &new, call)? {
            assert!(rt; call > READS, "only {call}");
            return Ok(());
        }
    }
    Err(Fail::from("no run without a fault"))
}

// Whether a device that gives so many bytes one by one and then fails refuses the file, of which this was written then.
fn fails_after(
    alloc: Global,
    old: &[u8],
    given: usize,
    expected: &[u8],
    refuses: bool,
) -> Result<bool, Fail> {
    let steps = steps(alloc, given)?;
    let mut source = Source::new(Script::new(&steps, 1), old);
    let (refused, written) = read_from(alloc, &mut source)?;
    Ok(refused == refuses && written.as_slice() == expected)
}

// Nothing is written before the nonce is read, and then each byte of the payload once it is.
#[test]
fn each_byte_that_is_read_fails_in_turn(rt: HostRuntime) -> Result<(), Fail> {
    let alloc = rt.alloc();
    let old = file_of(alloc, OLD)?;
    let new = file_of(alloc, NEW)?;
    for given in 0..FRONT {
        assert!(rt; fails_after(alloc, &old, given, b"", true)?);
    }
    for given in FRONT..180 {
        let expected = part(&new, 0, given.saturating_add(1));
        assert!(rt; fails_after(alloc, &old, given, expected, true)?);
    }
    assert!(rt; fails_after(alloc, &old, 180, &new, false)?);
    Ok(())
}

// Whether a device takes the file, or its fault refuses it.
fn write_to(alloc: Global, sink: &mut Sink<'_>, old: &[u8]) -> Result<bool, Fail> {
    let refused = is_refused(carry_over(alloc, &mut Bytes::new(old), sink))?;
    if sink.faults() != refused as u64 {
        return Err(Fail::from("another count of faults"));
    }
    Ok(refused)
}

// Whether the fault of the device that fails at the call of this number refuses it, after a beginning of the file.
fn write_fails_at(alloc: Global, old: &[u8], new: &[u8], call: u64) -> Result<bool, Fail> {
    let mut sink = Sink::new(alloc, Script::failing_at(call));
    let refused = write_to(alloc, &mut sink, old)?;
    let Some(missing) = new.strip_prefix(sink.bytes()) else {
        return Err(Fail::from("no beginning of the file"));
    };
    if missing.is_empty() == refused {
        return Err(Fail::from("another part of the file"));
    }
    Ok(refused)
}

#[test]
fn each_write_fails_in_turn(rt: HostRuntime) -> Result<(), Fail> {
    let old = file_of(rt.alloc(), OLD)?;
    let new = file_of(rt.alloc(), NEW)?;
    for call in 1..1_000u64 {
        if !write_fails_at(rt.alloc(), &old, &new, call)? {
            assert!(rt; call > 1, "no call");
            return Ok(());
        }
    }
    Err(Fail::from("no run without a fault"))
}

// Whether a device that takes so many bytes one by one and then fails has taken these, and refuses the file, or not.
fn takes(
    alloc: Global,
    old: &[u8],
    taken: usize,
    expected: &[u8],
    refuses: bool,
) -> Result<bool, Fail> {
    let steps = steps(alloc, taken)?;
    let mut sink = Sink::new(alloc, Script::new(&steps, 1));
    let refused = write_to(alloc, &mut sink, old)?;
    Ok(refused == refuses && sink.bytes() == expected)
}

#[test]
fn each_byte_that_is_written_fails_in_turn(rt: HostRuntime) -> Result<(), Fail> {
    let alloc = rt.alloc();
    let old = file_of(alloc, OLD)?;
    let new = file_of(alloc, NEW)?;
    for taken in 0..180usize {
        assert!(rt; takes(alloc, &old, taken, part(&new, 0, taken), true)?);
    }
    assert!(rt; takes(alloc, &old, 180, &new, false)?);
    Ok(())
}

// Whether a file with a wrong MAC is refused before anything is written: by a device that fails at the call of this number, or where
// that doesn't fail for its MAC.
fn nothing_is_written(alloc: Global, file: &[u8], call: u64) -> bool {
    let mut source = Source::new(Script::failing_at(call), file);
    let mut sink = Sink::new(alloc, Script::failing_at(1));
    let answer = carry_over(alloc, &mut source, &mut sink);
    let error = if source.faults() == 0 {
        "InvalidMac"
    } else {
        "Io(Device(Other))"
    };
    is_error(alloc, answer, error) && sink.bytes().is_empty() && sink.faults() == 0
}

// The writer isn't asked at all.
#[test]
fn nothing_is_written_before_the_mac_is_checked(rt: HostRuntime) -> Result<(), Fail> {
    let alloc = rt.alloc();
    let mut file = file_of(alloc, OLD)?;
    assert!(rt; replace(&mut file, 67, b'X', b'W'));
    for call in 0..140u64 {
        assert!(rt; nothing_is_written(alloc, &file, call));
    }
    Ok(())
}

// Whether the file goes from one device to another, of which each is interrupted so often before each of its calls.
fn is_carried_over_interrupted(alloc: Global, old: &[u8], new: &[u8], times: u32) -> bool {
    let mut source = Source::new(Script::interrupted(times, 1), old);
    let mut sink = Sink::new(alloc, Script::interrupted(times, 1));
    let answer = carry_over(alloc, &mut source, &mut sink);
    answer.is_ok() && sink.bytes() == new && sink.faults() > 0
}

#[test]
fn interruptions_are_tried_again(rt: HostRuntime) -> Result<(), Fail> {
    let alloc = rt.alloc();
    let old = file_of(alloc, OLD)?;
    let new = file_of(alloc, NEW)?;
    assert!(rt; is_carried_over_interrupted(alloc, &old, &new, 1));
    assert!(rt; is_carried_over_interrupted(alloc, &old, &new, 16));
    Ok(())
}
