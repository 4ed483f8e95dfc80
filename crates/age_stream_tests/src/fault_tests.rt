//! Devices that fail: what the calls above them answer, at that call and at the next.

use crate::fixtures::{reader_of, sealed};
use age::io::{Error, ErrorKind, Read, Write, read_exact, read_to_end, write_all};
use age::stream::StreamWriter;
use age::streaming::{open_all, seal_all};
use age_bench::suite::BenchSuite;
use age_devices::{Script, Sink, Source, Step};
use std::alloc::Global;
use std::process::Abort;
use std::test::Fail;
use test_support::answers::delivers;
use test_support::fixtures::{KEY, digest, plaintext};
use test_support::whole::seal_whole;

type Writer<'a, 'b> = StreamWriter<BenchSuite, &'b mut Sink<'a>>;

const INTERRUPTED: Step = Step::Fail(ErrorKind::Interrupted);

const GONE: Step = Step::Fail(ErrorKind::NotFound);

const CLOSED: Step = Step::Fail(ErrorKind::Other);

const ENDED: Step = Step::Fail(ErrorKind::UnexpectedEof);

const CHUNK: Step = Step::Move(65_552);

const SIXTEEN: [Step; 16] = [INTERRUPTED; 16];

const SEVENTEEN: [Step; 17] = [INTERRUPTED; 17];

const OTHER: Error = Error::Device(ErrorKind::Other);

const ALL: usize = usize::MAX;

// A reader of these bytes, whose first calls do this.
fn source<'a>(steps: &'a [Step], bytes: &'a [u8]) -> Source<'a> {
    Source::new(Script::new(steps, ALL), bytes)
}

// A writer that has nothing, whose first calls do this.
fn sink(alloc: Global, steps: &[Step]) -> Sink<'_> {
    Sink::new(alloc, Script::new(steps, ALL))
}

// A writer of a payload into these bytes.
fn writer_to<'a, 'b>(alloc: Global, out: &'b mut Sink<'a>) -> Result<Writer<'a, 'b>, Fail> {
    Ok(Writer::with_payload_key(alloc, KEY, out)?)
}

// Whether three bytes are read from such a device with this answer.
fn are_read(steps: &[Step], answer: Result<(), Error>) -> bool {
    let mut room = [0; 3];
    read_exact(&mut source(steps, b"abc"), &mut room) == answer
}

// Whether such a device is read to its end with this answer.
fn is_read_to_end(alloc: Global, steps: &[Step], answer: Result<usize, Error>) -> bool {
    let mut all = Vec::new(alloc);
    read_to_end(alloc, &mut source(steps, b"abc"), &mut all) == answer
}

// Whether two reads of three bytes answer this.
fn reads_twice<R: Read>(
    reader: &mut R,
    first: Result<usize, Error>,
    second: Result<usize, Error>,
) -> bool {
    let mut room = [0; 3];
    reader.read(&mut room) == first && reader.read(&mut room) == second
}

// Whether two reads of such a payload answer this.
fn is_read_twice(
    alloc: Global,
    steps: &[Step],
    payload: &[u8],
    first: Result<usize, Error>,
    second: Result<usize, Error>,
) -> Result<bool, Fail> {
    let mut reader = reader_of::<BenchSuite, Source>(alloc, source(steps, payload))?;
    Ok(reads_twice(&mut reader, first, second))
}

// Whether reads are done after 16 interruptions in a row.
fn are_read_after_16(alloc: Global, payload: &[u8]) -> Result<bool, Fail> {
    Ok(
        are_read(&SIXTEEN, Ok(()))
            && is_read_to_end(alloc, &SIXTEEN, Ok(3))
            && is_read_twice(alloc, &SIXTEEN, payload, Ok(3), Ok(0))?,
    )
}

// Whether 17 of them are a fault of the device.
fn are_refused_after_17(alloc: Global, payload: &[u8]) -> Result<bool, Fail> {
    let failed = Err(Error::Failed);
    Ok(
        are_read(&SEVENTEEN, Err(OTHER))
            && is_read_to_end(alloc, &SEVENTEEN, Err(OTHER))
            && is_read_twice(alloc, &SEVENTEEN, payload, Err(OTHER), failed)?,
    )
}

#[test]
fn reads_are_tried_17_times(rt: HostRuntime) -> Result<(), Fail> {
    let alloc = rt.alloc();
    let payload = seal_whole::<BenchSuite>(alloc, &KEY, b"abc")?;
    assert!(rt; are_read_after_16(alloc, &payload)?);
    assert!(rt; are_refused_after_17(alloc, &payload)?);
    Ok(())
}

// Whether three bytes are written to such a device with this answer.
fn are_written(alloc: Global, steps: &[Step], answer: Result<(), Error>) -> bool {
    let mut out = sink(alloc, steps);
    write_all(&mut out, b"abc") == answer
}

// Whether a write answers this, and a write of one byte after it.
fn writes_twice<W: Write>(
    writer: &mut W,
    plain: &[u8],
    written: Result<usize, Error>,
    after: Result<usize, Error>,
) -> bool {
    writer.write(plain) == written && writer.write(b"a") == after
}

// Whether they do to a writer over such a device.
fn writes(
    alloc: Global,
    steps: &[Step],
    plain: &[u8],
    written: Result<usize, Error>,
    after: Result<usize, Error>,
) -> Result<bool, Fail> {
    let mut out = sink(alloc, steps);
    let mut writer = writer_to(alloc, &mut out)?;
    Ok(writes_twice(&mut writer, plain, written, after))
}

// Whether a flush answers this, and a write of one byte after it.
fn flushes(
    alloc: Global,
    steps: &[Step],
    flushed: Result<(), Error>,
    after: Result<usize, Error>,
) -> Result<bool, Fail> {
    let mut out = sink(alloc, steps);
    let mut writer = writer_to(alloc, &mut out)?;
    Ok(writer.flush() == flushed && writer.write(b"a") == after)
}

// Whether the end of an empty payload is refused so, or not.
fn finishes(alloc: Global, steps: &[Step], refusal: Option<Error>) -> Result<bool, Fail> {
    let mut out = sink(alloc, steps);
    let writer = writer_to(alloc, &mut out)?;
    Ok(writer.finish().err() == refusal)
}

// Whether a device takes this plaintext, of 65,537 bytes, after 16 interruptions in a row.
fn are_written_after_16(alloc: Global, plain: &[u8]) -> Result<bool, Fail> {
    Ok(
        are_written(alloc, &SIXTEEN, Ok(()))
            && writes(alloc, &SIXTEEN, plain, Ok(65_537), Ok(1))?
            && flushes(alloc, &SIXTEEN, Ok(()), Ok(1))?
            && finishes(alloc, &SIXTEEN, None)?,
    )
}

// Whether 17 of them are a fault of the device.
fn are_not_written_after_17(alloc: Global, plain: &[u8]) -> Result<bool, Fail> {
    let failed = Err(Error::Failed);
    Ok(
        are_written(alloc, &SEVENTEEN, Err(OTHER))
            && writes(alloc, &SEVENTEEN, plain, Err(OTHER), failed)?
            && flushes(alloc, &SEVENTEEN, Err(OTHER), failed)?
            && finishes(alloc, &SEVENTEEN, Some(OTHER))?,
    )
}

#[test]
fn writes_are_tried_17_times(rt: HostRuntime) -> Result<(), Fail> {
    let alloc = rt.alloc();
    let plain = plaintext(alloc, 65_537)?;
    assert!(rt; are_written_after_16(alloc, &plain)?);
    assert!(rt; are_not_written_after_17(alloc, &plain)?);
    Ok(())
}

// Whether such a device gives its three bytes.
fn gives_them(steps: &[Step]) -> bool {
    let mut room = [0; 3];
    read_exact(&mut source(steps, b"abc"), &mut room) == Ok(())
        && room.as_slice() == b"abc".as_slice()
}

// Whether such a device takes three bytes.
fn takes_them(alloc: Global, steps: &[Step]) -> bool {
    let mut out = sink(alloc, steps);
    write_all(&mut out, b"abc") == Ok(()) && out.bytes() == b"abc".as_slice()
}

// 16 interruptions before each of three bytes are no more than 16 in a row.
#[test]
fn interruptions_are_counted_afresh_after_each_byte(rt: HostRuntime) -> Result<(), Fail> {
    let mut steps = [INTERRUPTED; 51];
    for i in 1..=3 {
        steps[17 * i - 1] = Step::Move(1);
    }
    assert!(rt; gives_them(&steps));
    assert!(rt; takes_them(rt.alloc(), &steps));
    Ok(())
}

// A write that is whole, and the payload's end.
fn writes_all(rt: &impl Abort, mut writer: Writer<'_, '_>, plain: &[u8]) {
    assert!(rt; writer.write(plain) == Ok(plain.len()));
    assert!(rt; writer.finish().err() == None);
}

// The payload of this plaintext, written byte by byte.
fn written_by_bytes(rt: &impl Abort, alloc: Global, plain: &[u8]) -> Result<Vec<u8>, Fail> {
    let mut out = Sink::new(alloc, Script::by_bytes());
    writes_all(rt, writer_to(alloc, &mut out)?, plain);
    Ok(Vec::from_slice(alloc, out.bytes())?)
}

// Whether a payload, read byte by byte, gives this plaintext.
fn is_read_by_bytes(alloc: Global, payload: &[u8], plain: &[u8]) -> Result<bool, Fail> {
    let bytes = Source::new(Script::by_bytes(), payload);
    let mut reader = reader_of::<BenchSuite, Source>(alloc, bytes)?;
    Ok(delivers(alloc, &mut reader, plain))
}

#[test]
fn pieces_of_one_byte_change_nothing(rt: HostRuntime) -> Result<(), Fail> {
    let alloc = rt.alloc();
    let plain = plaintext(alloc, 65_537)?;
    let payload = written_by_bytes(&rt, alloc, &plain)?;
    assert!(rt; digest(&payload) == 0x4c19_c88a_fe40_61bc);
    assert!(rt; is_read_by_bytes(alloc, &payload, &plain)?);
    Ok(())
}

// Of four reads of 65,536 bytes so many give a chunk, the next is refused so, and the others are as after a refusal.
fn stops<R: Read>(rt: &impl Abort, reader: &mut R, room: &mut [u8], chunks: u8, refusal: Error) {
    for _chunk in 0..chunks {
        assert!(rt; reader.read(room) == Ok(65_536), "before {refusal:?}");
    }
    assert!(rt; reader.read(room) == Err(refusal), "not {refusal:?}");
    for _read in 0..3u8.saturating_sub(chunks) {
        assert!(rt; reader.read(room) == Err(Error::Failed));
    }
}

// A reader of this payload does, over a device whose first calls do this.
fn fails_a_reader(
    rt: &impl Abort,
    alloc: Global,
    steps: &[Step],
    payload: &[u8],
    chunks: u8,
    refusal: Error,
) -> Result<(), Fail> {
    let mut room = vec![in alloc; 0; 65_536]?;
    let mut reader = reader_of::<BenchSuite, Source>(alloc, source(steps, payload))?;
    stops(rt, &mut reader, &mut room, chunks, refusal);
    Ok(())
}

const NOT_FOUND: Error = Error::Device(ErrorKind::NotFound);

const UNEXPECTED: Error = Error::Device(ErrorKind::UnexpectedEof);

// The payload has two chunks.
fn fails_readers(rt: &impl Abort, alloc: Global, payload: &[u8]) -> Result<(), Fail> {
    let part = Step::Move(100);
    fails_a_reader(rt, alloc, &[GONE, CHUNK, CHUNK], payload, 0, NOT_FOUND)?;
    fails_a_reader(rt, alloc, &[part, CLOSED, CHUNK], payload, 0, OTHER)?;
    fails_a_reader(rt, alloc, &[part, ENDED, CHUNK], payload, 0, UNEXPECTED)?;
    fails_a_reader(rt, alloc, &[CHUNK, ENDED, CHUNK], payload, 1, UNEXPECTED)?;
    fails_a_reader(rt, alloc, &[CHUNK, CHUNK, ENDED], payload, 2, UNEXPECTED)
}

// The device would go on after its fault, but the reader doesn't. A fault is never a clean end.
#[test]
fn a_fault_of_the_device_below_fails_a_reader(rt: HostRuntime) -> Result<(), Fail> {
    let alloc = rt.alloc();
    fails_readers(&rt, alloc, &sealed::<BenchSuite>(alloc, 131_072)?)
}

// A writer that refused stays failed, and sends nothing more.
fn stays_failed(rt: &impl Abort, mut writer: Writer<'_, '_>) {
    assert!(rt; is_failed(&mut writer));
    assert!(rt; writer.finish().err() == Some(Error::Failed));
}

// Whether writes and flushes are refused as after a refusal.
fn is_failed<W: Write>(writer: &mut W) -> bool {
    writer.write(b"a") == Err(Error::Failed)
        && writer.write(b"") == Err(Error::Failed)
        && writer.flush() == Err(Error::Failed)
}

// A flush is refused so, and its writer has failed.
fn fails_a_flush(rt: &impl Abort, alloc: Global, refusal: Error) -> Result<(), Fail> {
    let mut out = sink(alloc, &[GONE]);
    let mut writer = writer_to(alloc, &mut out)?;
    assert!(rt; writer.flush() == Err(refusal));
    stays_failed(rt, writer);
    Ok(())
}

// So is the end of an empty payload, after three bytes of it.
fn fails_an_end(rt: &impl Abort, alloc: Global, step: Step, refusal: Error) -> Result<(), Fail> {
    let steps = [Step::Move(3), step];
    let mut out = sink(alloc, &steps);
    let writer = writer_to(alloc, &mut out)?;
    assert!(rt; writer.finish().err() == Some(refusal), "not {refusal:?}");
    assert!(rt; out.bytes().len() == 3, "at {refusal:?}");
    Ok(())
}

// A write is refused so, and its writer has failed.
fn refuses_a_write(rt: &impl Abort, mut writer: Writer<'_, '_>, plain: &[u8], refusal: Error) {
    assert!(rt; writer.write(plain) == Err(refusal), "not {refusal:?}");
    stays_failed(rt, writer);
}

// Whether a beginning of the payload of that length was sent.
fn was_sent(out: &Sink<'_>, payload: &[u8], sent: usize) -> bool {
    payload.strip_prefix(out.bytes()).is_some() && out.bytes().len() == sent
}

// A write to such a device is refused so, after so much of the plaintext's payload.
fn fails_a_write(
    rt: &impl Abort,
    alloc: Global,
    steps: &[Step],
    (plain, payload): (&[u8], &[u8]),
    refusal: Error,
    sent: usize,
) -> Result<(), Fail> {
    let mut out = sink(alloc, steps);
    refuses_a_write(rt, writer_to(alloc, &mut out)?, plain, refusal);
    assert!(rt; was_sent(&out, payload, sent), "{sent}");
    Ok(())
}

// The plaintext, with its payload, is longer than two chunks.
fn fails_writes(rt: &impl Abort, alloc: Global, texts: (&[u8], &[u8])) -> Result<(), Fail> {
    let part = Step::Move(100);
    let none = Step::Move(0);
    fails_a_write(rt, alloc, &[GONE, CHUNK], texts, NOT_FOUND, 0)?;
    fails_a_write(rt, alloc, &[part, CLOSED], texts, OTHER, 100)?;
    fails_a_write(rt, alloc, &[CHUNK, ENDED], texts, UNEXPECTED, 65_552)?;
    fails_a_write(rt, alloc, &[none, CHUNK], texts, Error::WriteZero, 0)?;
    fails_a_write(rt, alloc, &[CHUNK, none], texts, Error::WriteZero, 65_552)
}

#[test]
fn a_fault_of_the_device_below_fails_a_writer(rt: HostRuntime) -> Result<(), Fail> {
    let alloc = rt.alloc();
    fails_a_flush(&rt, alloc, NOT_FOUND)?;
    fails_an_end(&rt, alloc, CLOSED, OTHER)?;
    fails_an_end(&rt, alloc, Step::Move(0), Error::WriteZero)?;
    let plain = plaintext(alloc, 131_073)?;
    let payload = seal_whole::<BenchSuite>(alloc, &KEY, &plain)?;
    fails_writes(&rt, alloc, (&plain, &payload))
}

// Whether a command has succeeded.
fn is_done<E: Drop>(answer: Result<(), E>) -> bool {
    answer.is_ok()
}

// Whether three bytes are sealed from such a device to such a device.
fn seals(alloc: Global, input: &[Step], output: &[Step]) -> bool {
    let mut out = sink(alloc, output);
    is_done(seal_all::<BenchSuite, _, _>(alloc, KEY, &mut source(input, b"abc"), &mut out))
}

// Whether a payload is opened from such a device to such a device.
fn opens(alloc: Global, input: &[Step], output: &[Step], payload: &[u8]) -> bool {
    let mut out = sink(alloc, output);
    is_done(open_all::<BenchSuite, _, _>(alloc, KEY, &mut source(input, payload), &mut out))
}

// Whether sealing is done between such devices, or not, as told, and opening too.
fn is_done_so(
    alloc: Global,
    payload: &[u8],
    input: &[Step],
    output: &[Step],
    (is_sealed, is_opened): (bool, bool),
) -> bool {
    seals(alloc, input, output) == is_sealed && opens(alloc, input, output, payload) == is_opened
}

// Whether the commands answer the faults. Each reads once until the end, writes once, and sealing flushes.
fn commands_answer(alloc: Global, payload: &[u8]) -> bool {
    let good = [CHUNK, CHUNK];
    let first = [CLOSED, CHUNK];
    let second = [CHUNK, CLOSED];
    is_done_so(alloc, payload, &good, &good, (true, true))
        && is_done_so(alloc, payload, &first, &good, (false, false))
        && is_done_so(alloc, payload, &second, &good, (false, false))
        && is_done_so(alloc, payload, &good, &first, (false, false))
        && is_done_so(alloc, payload, &good, &second, (false, true))
}

#[test]
fn commands_answer_the_faults_of_devices(rt: HostRuntime) -> Result<(), Fail> {
    let alloc = rt.alloc();
    let payload = seal_whole::<BenchSuite>(alloc, &KEY, b"abc")?;
    assert!(rt; commands_answer(alloc, &payload));
    Ok(())
}
