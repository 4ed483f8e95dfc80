//! Seeks over a device that fails in one of their steps: the answer, the state after it, and what seeks and reads give then.

use crate::fixtures::{Call, answers, reader_of, sealed};
use age::io::{Error, ErrorKind, IntoStd, Read, Seek, SeekFrom, Std};
use age::stream::StreamReader;
use age_bench::suite::BenchSuite;
use age_devices::{Script, Source, Step};
use std::alloc::Global;
use std::process::Abort;
use std::test::Fail;

// A device as std's, which a seek asks three times.
type Device<'a> = Std<IntoStd<Source<'a>>>;

type Reader<'a> = StreamReader<BenchSuite, Device<'a>>;

const ALL: usize = usize::MAX;

const DONE: Step = Step::Move(ALL);

const GONE: Step = Step::Fail(ErrorKind::PermissionDenied);

const FAULT: Error = Error::Device(ErrorKind::PermissionDenied);

// The calls of a seek at which a fault leaves the device at its end, so that the payload's front is reckoned from there: the third for
// its place, and the third for its end.
const LEFT_AT_ITS_END: [usize; 2] = [2, 5];

// After its first read the device does so many calls, fails at the next, and does what comes then.
fn steps_before_a_fault(calls: usize) -> [Step; 13] {
    let mut steps = [DONE; 13];
    if let Some(step) = steps.get_mut(calls.saturating_add(1)) {
        *step = GONE;
    }
    steps
}

// A device with this payload, which does these steps.
fn disk<'a>(steps: &'a [Step], payload: &'a [u8]) -> Device<'a> {
    Std::new(IntoStd::new(Source::new(Script::new(steps, ALL), payload)))
}

// Whether the reader shows that it stands before the second byte.
fn shows_its_place(alloc: Global, reader: &Reader<'_>) -> Result<bool, Fail> {
    let text = format!(in alloc; "{reader:?}")?;
    Ok(text.as_str() == "StreamReader { place: 1, .. }")
}

// The reader gives the first byte of its plaintext, and opens the first chunk for it. The seek meets the fault then: the reader has
// failed at its place, and opened nothing.
fn is_refused(
    rt: &impl Abort,
    alloc: Global,
    reader: &mut Reader<'_>,
    to: SeekFrom,
) -> Result<(), Fail> {
    let calls = [
        Call::Gives(0),
        Call::Opened(1),
        Call::Refuses(to, FAULT),
        Call::Failed,
        Call::Refuses(SeekFrom::Current(-2), Error::BeforeStart),
        Call::Failed,
        Call::Opened(1),
    ];
    answers(rt, alloc, reader, &calls)?;
    assert!(rt; shows_its_place(alloc, reader)?);
    Ok(())
}

const OPENED_ANEW: [Call; 2] = [Call::Gives(5), Call::Opened(2)];

// A reader that has failed keeps no chunk: the one that it held is opened anew.
fn opens_its_chunk_anew(
    rt: &impl Abort,
    alloc: Global,
    reader: &mut Reader<'_>,
    done: usize,
) -> Result<(), Fail> {
    assert!(rt; reader.seek(SeekFrom::Start(5)) == Ok(5), "after {done}");
    if LEFT_AT_ITS_END.contains(&done) {
        return Ok(());
    }
    answers(rt, alloc, reader, &OPENED_ANEW)
}

// A seek whose fault comes after so many calls.
fn meets_a_fault(
    rt: &impl Abort,
    alloc: Global,
    payload: &[u8],
    done: usize,
    to: SeekFrom,
) -> Result<(), Fail> {
    let steps = steps_before_a_fault(done);
    let mut reader = reader_of::<BenchSuite, Device>(alloc, disk(&steps, payload))?;
    is_refused(rt, alloc, &mut reader, to)?;
    opens_its_chunk_anew(rt, alloc, &mut reader, done)
}

// A seek of so many calls, with a fault in each of them.
fn meets_each_fault(
    rt: &impl Abort,
    alloc: Global,
    payload: &[u8],
    to: SeekFrom,
    calls: usize,
) -> Result<(), Fail> {
    for done in 0..calls {
        meets_a_fault(rt, alloc, payload, done, to)?;
    }
    Ok(())
}

// A seek asks the device nine times: for its place, its end, and a new place, each by three calls. To the end of the
// plaintext it reads the last chunk by two more, and opens it.
#[test]
fn a_seek_meets_a_fault_in_each_of_its_steps(rt: HostRuntime) -> Result<(), Fail> {
    let alloc = rt.alloc();
    let payload = sealed::<BenchSuite>(alloc, 102_400)?;
    for (to, calls) in [
        (SeekFrom::Start(70_000), 9),
        (SeekFrom::Start(102_401), 9),
        (SeekFrom::End(0), 11),
    ] {
        meets_each_fault(&rt, alloc, &payload, to, calls)?;
    }
    Ok(())
}

const AFTER_A_FAULT: [Call; 5] = [
    Call::Gives(70_000),
    Call::Opened(2),
    Call::Goes(SeekFrom::End(0), 102_400),
    Call::Ends,
    Call::Opened(2),
];

// A seek after the fault goes where it should.
fn goes_where_it_should(
    rt: &impl Abort,
    alloc: Global,
    reader: &mut Reader<'_>,
    done: usize,
) -> Result<(), Fail> {
    is_refused(rt, alloc, reader, SeekFrom::End(0))?;
    assert!(rt;
        reader.seek(SeekFrom::Start(70_000)) == Ok(70_000),
        "after {done}"
    );
    answers(rt, alloc, reader, &AFTER_A_FAULT)
}

// The same over a device that fails once, after so many calls.
fn is_exact_after_a_fault(
    rt: &impl Abort,
    alloc: Global,
    payload: &[u8],
    done: usize,
) -> Result<(), Fail> {
    let steps = steps_before_a_fault(done);
    let mut reader = reader_of::<BenchSuite, Device>(alloc, disk(&steps, payload))?;
    goes_where_it_should(rt, alloc, &mut reader, done)
}

// But where the fault left the device at its end: the third call of those for its place, and of those for its end.
#[test]
fn a_seek_after_a_fault_is_exact(rt: HostRuntime) -> Result<(), Fail> {
    let alloc = rt.alloc();
    let payload = sealed::<BenchSuite>(alloc, 102_400)?;
    for done in [0, 1, 3, 4, 6, 7, 8, 9, 10] {
        is_exact_after_a_fault(&rt, alloc, &payload, done)?;
    }
    Ok(())
}

// Whether a read of one byte answers this.
fn reads_so(reader: &mut Reader<'_>, answer: Result<usize, Error>) -> bool {
    reader.read(&mut [0]) == answer
}

// After the first byte a seek and the read after it answer this, and so many chunks were opened then. The call that asks the device
// next meets the fault: the read, or another seek.
fn meets_it_next(
    rt: &impl Abort,
    alloc: Global,
    reader: &mut Reader<'_>,
    seek: Call,
    next: Result<usize, Error>,
    opens: u64,
) -> Result<(), Fail> {
    let calls = [Call::Gives(0), Call::Opened(1), seek];
    answers(rt, alloc, reader, &calls)?;
    assert!(rt; reads_so(reader, next), "not {next:?}");
    assert!(rt; reader.opens() == opens, "not {opens} opens");
    assert!(rt; reader.seek(SeekFrom::End(-1)).is_ok() == next.is_err());
    Ok(())
}

// The same over a device that fails once, after so many calls.
fn asks_no_more(
    rt: &impl Abort,
    alloc: Global,
    payload: &[u8],
    calls: usize,
    seek: Call,
    next: Result<usize, Error>,
    opens: u64,
) -> Result<(), Fail> {
    let steps = steps_before_a_fault(calls);
    let mut reader = reader_of::<BenchSuite, Device>(alloc, disk(&steps, payload))?;
    meets_it_next(rt, alloc, &mut reader, seek, next, opens)
}

// How many calls a seek takes, what it answers, what the read after it does, and how many chunks were opened then.
const SEEKS: [(usize, Call, Result<usize, Error>, u64); 6] = [
    (
        9,
        Call::Goes(SeekFrom::Start(70_000), 70_000),
        Err(FAULT),
        1,
    ),
    (9, Call::Goes(SeekFrom::Start(9), 9), Ok(1), 1),
    (
        9,
        Call::Refuses(SeekFrom::Start(102_401), Error::PastEnd),
        Ok(1),
        1,
    ),
    (
        9,
        Call::Refuses(SeekFrom::End(-102_401), Error::BeforeStart),
        Ok(1),
        1,
    ),
    (
        0,
        Call::Refuses(SeekFrom::Current(-2), Error::BeforeStart),
        Ok(1),
        1,
    ),
    (11, Call::Goes(SeekFrom::End(0), 102_400), Err(FAULT), 2),
];

// The seek is done before the fault, and the next call that asks the device meets it.
#[test]
fn a_seek_asks_no_more_than_its_steps(rt: HostRuntime) -> Result<(), Fail> {
    let alloc = rt.alloc();
    let payload = sealed::<BenchSuite>(alloc, 102_400)?;
    for (calls, seek, next, opens) in SEEKS {
        asks_no_more(&rt, alloc, &payload, calls, seek, next, opens)?;
    }
    Ok(())
}
