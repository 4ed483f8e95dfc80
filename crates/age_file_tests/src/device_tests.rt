//! Files that are written to devices that fail at each of their calls in turn, and headers that are read from such.

use crate::shared::prepared;
use age::armor::{ArmoredWriter, Format};
use age::io::{Error, ErrorKind, Write};
use age::mac::hkdf;
use age::stream::StreamWriter;
use age::{DecryptError, Decryptor};
use age_bench::recipient::BenchRecipient;
use age_bench::suite::BenchSuite;
use age_devices::{Script, Sink, Source};
use std::alloc::Global;
use std::process::Abort;
use std::test::Fail;
use test_support::fixtures::{armored, message_file, part, plaintext, zeros};
use test_support::whole::seal_whole;

const FAULT: Error = Error::Device(ErrorKind::Other);

// The plaintext has two chunks.
const LENGTH: usize = 70_000;

// It is written in three pieces, with a flush after each.
const PIECE: usize = 30_000;

// More calls than these are made for it: the header goes out, two chunks do, and there are three flushes.
const CALLS: u64 = 6;

// The bytes of the message's file before its payload. Its key and its nonce are 16 zeros each.
const FRONT: usize = 131;

// The file of a plaintext, by the definition of its payload.
fn file(alloc: Global, plain: &[u8]) -> Result<Vec<u8>, Fail> {
    let key = hkdf(&[0; 16], b"payload", &[0; 16]);
    let mut file = Vec::from_slice(alloc, part(&message_file(alloc, b"")?, 0, FRONT))?;
    file.extend_from_slice(&seal_whole::<BenchSuite>(alloc, &key, plain)?)?;
    Ok(file)
}

// Whether a writer has failed for good.
fn has_failed<W: Write>(writer: &mut W) -> bool {
    writer.write(b"a") == Err(Error::Failed)
        && writer.write(b"") == Err(Error::Failed)
        && writer.flush() == Err(Error::Failed)
}

// How a writer goes on.
#[derive(Clone, Copy, PartialEq, Eq)]
enum Course {
    // All was taken.
    On,
    // The device has failed, and so has the writer, for good.
    Failed,
    // It was refused otherwise, or wasn't for good.
    Wrong,
}

// The fault of the device, after which the writer has failed.
fn failed<W: Write>(writer: &mut W, refusal: Error) -> Course {
    if refusal == FAULT && has_failed(writer) {
        Course::Failed
    } else {
        Course::Wrong
    }
}

// A write and a flush.
fn take<W: Write>(writer: &mut W, piece: &[u8]) -> Course {
    match writer.write(piece) {
        Err(refusal) => failed(writer, refusal),
        Ok(count) if count != piece.len() => Course::Wrong,
        Ok(_) => match writer.flush() {
            Err(refusal) => failed(writer, refusal),
            Ok(()) => Course::On,
        },
    }
}

// The writes and flushes of a plaintext, up to the first that is refused.
fn take_all<W: Write>(writer: &mut W, plain: &[u8]) -> Course {
    for piece in plain.chunks(PIECE) {
        match take(writer, piece) {
            Course::On => {}
            other => return other,
        }
    }
    Course::On
}

// The end, which is refused by the fault, or as it failed before.
fn end<T: Drop>(course: Course, answer: Result<T, Error>) -> Course {
    match (course, answer.err()) {
        (Course::On, None) => Course::On,
        (Course::On, Some(FAULT)) => Course::Failed,
        (Course::Failed, Some(Error::Failed)) => Course::Failed,
        _ => Course::Wrong,
    }
}

// A plaintext is encrypted to this writer.
fn encrypt_to<W: Write + Drop>(alloc: Global, out: W, plain: &[u8]) -> Result<Course, Fail> {
    let encryptor = prepared::<BenchSuite, BenchRecipient>(
        alloc,
        &[BenchRecipient],
        &mut zeros(alloc, 32)?,
    )?;
    let mut writer: StreamWriter<BenchSuite, W> = match encryptor.wrap_output(alloc, out) {
        Ok(writer) => writer,
        Err(refusal) => return Ok(end::<()>(Course::On, Err(refusal))),
    };
    let course = take_all(&mut writer, plain);
    Ok(end(course, writer.finish()))
}

// The same in armor, whose writer has failed too.
fn encrypt_in_armor(alloc: Global, sink: &mut Sink<'_>, plain: &[u8]) -> Result<Course, Fail> {
    let mut armor = match ArmoredWriter::wrap_output(alloc, sink, Format::AsciiArmor) {
        Ok(armor) => armor,
        Err(refusal) => return Ok(end::<()>(Course::On, Err(refusal))),
    };
    let course = encrypt_to(alloc, &mut armor, plain)?;
    if course == Course::Failed && !has_failed(&mut armor) {
        return Ok(Course::Wrong);
    }
    Ok(end(course, armor.finish()))
}

// Whether what went out is a beginning of the text, and all of it where nothing failed.
fn is_sent(sink: &Sink<'_>, course: Course, text: &[u8]) -> bool {
    match course {
        Course::On => sink.faults() == 0 && sink.bytes() == text,
        Course::Failed => sink.faults() == 1 && text.strip_prefix(sink.bytes()).is_some(),
        Course::Wrong => false,
    }
}

// A text that is written, and of what.
#[derive(Clone, Copy, Drop)]
struct Written<'a> {
    plain: &'a [u8],
    text: &'a [u8],
    armored: bool,
}

impl<'a> Written<'a> {
    // Whether it is written, or a beginning of it, to a device that fails at the
    // call of this number; whether there is no such call; `None` where it is wrong.
    fn is_whole(&self, alloc: Global, call: u64) -> Result<Option<bool>, Fail> {
        let mut sink = Sink::new(alloc, Script::failing_at(call));
        let course = if self.armored {
            encrypt_in_armor(alloc, &mut sink, self.plain)?
        } else {
            encrypt_to(alloc, &mut sink, self.plain)?
        };
        if is_sent(&sink, course, self.text) {
            Ok(Some(course == Course::On))
        } else {
            Ok(None)
        }
    }

    // The device fails at each of its calls in turn, until it isn't called so often.
    fn fails_in_turn(&self, rt: &impl Abort, alloc: Global) -> Result<(), Fail> {
        for call in 1..10_000u64 {
            match self.is_whole(alloc, call)? {
                Some(false) => {}
                Some(true) => {
                    assert!(rt; call > CALLS, "only {call}");
                    return Ok(());
                }
                None => return Err(Fail::from("another answer, or other bytes")),
            }
        }
        Err(Fail::from("no run without a fault"))
    }
}

#[test]
fn each_call_of_a_bare_file_fails_in_turn(rt: HostRuntime) -> Result<(), Fail> {
    let plain = plaintext(rt.alloc(), LENGTH)?;
    let text = file(rt.alloc(), &plain)?;
    let written = Written {
        plain: &plain,
        text: &text,
        armored: false,
    };
    written.fails_in_turn(&rt, rt.alloc())
}

#[test]
fn each_call_of_an_armored_file_fails_in_turn(rt: HostRuntime) -> Result<(), Fail> {
    let plain = plaintext(rt.alloc(), LENGTH)?;
    let text = armored(rt.alloc(), &file(rt.alloc(), &plain)?)?;
    let written = Written {
        plain: &plain,
        text: &text,
        armored: true,
    };
    written.fails_in_turn(&rt, rt.alloc())
}

/// Whether it is refused by the fault of a device, or succeeds.
pub fn is_refused<T: Drop>(answer: Result<T, DecryptError>) -> Result<bool, Fail> {
    match answer {
        Ok(_) => Ok(false),
        Err(DecryptError::Io(FAULT)) => Ok(true),
        Err(_) => Err(Fail::from("another refusal")),
    }
}

// Whether a device that fails at the call of this number fails the reading of the front, by bytes or by what is shown.
fn fails_at(alloc: Global, file: &[u8], call: u64, buffered: bool) -> Result<bool, Fail> {
    let mut source = Source::new(Script::failing_at(call), file);
    let refused = if buffered {
        is_refused(Decryptor::<BenchSuite, &mut Source>::new_buffered(alloc, &mut source))?
    } else {
        is_refused(Decryptor::<BenchSuite, &mut Source>::new(alloc, &mut source))?
    };
    if source.faults() != refused as u64 {
        return Err(Fail::from("another count of faults"));
    }
    Ok(refused)
}

// At each call in turn, until there is none of this number.
fn front_fails_in_turn(
    rt: &impl Abort,
    alloc: Global,
    file: &[u8],
    buffered: bool,
) -> Result<(), Fail> {
    for call in 1..1_000u64 {
        if !fails_at(alloc, file, call, buffered)? {
            assert!(rt; call > 1, "no call");
            return Ok(());
        }
    }
    Err(Fail::from("no run without a fault"))
}

#[test]
fn each_read_of_a_header_and_a_nonce_fails_in_turn(rt: HostRuntime) -> Result<(), Fail> {
    let file = message_file(rt.alloc(), b"")?;
    front_fails_in_turn(&rt, rt.alloc(), &file, false)?;
    front_fails_in_turn(&rt, rt.alloc(), &file, true)
}
