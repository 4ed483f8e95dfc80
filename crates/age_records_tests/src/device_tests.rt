//! Records that are read from devices, and written to such, that move few bytes a call, are interrupted, or fail at each of their
//! calls in turn.
ghost use Rattle.std.specs.Prelude.{◌≡◌};
ghost use Rattle.age.specs.StreamWriting.{taken_len};

use crate::fixtures::{opened, three_of, written};
use age::armor::ArmoredReader;
use age::io::{Error, ErrorKind, Seek, Write};
use age::stream::StreamWriter;
use age_bench::suite::BenchSuite;
use age_devices::{Script, Sink, Source, Step};
use age_records::{RecordError, Records, write_records};
use std::alloc::Global;
use std::process::Abort;
use std::test::Fail;
use test_support::fixtures::{KEY, armored, part};

const FAULT: Error = Error::Device(ErrorKind::Other);

// Three records of this length have a text of 132,032 bytes, which are three chunks, one more than a reader keeps. So it asks the
// device for chunks again as the records are given, and not only as they are opened.
const LENGTH: usize = 44_000;

// Three of this length are in one chunk, whose armor is longer than what a buffer takes at once.
const SHORT: usize = 3_000;

// Of the calls on the armor of three chunks one in so many fails, since each run is long.
const STRIDE: u64 = 37;

// The records that are asked for, twice in a row where chunks are read for them, so that after a fault one is asked for again at
// once.
const ORDER: [usize; 8] = [1, 1, 2, 2, 0, 0, 2, 1];

// The same in armor, where a chunk is read from the text's front.
const ORDER_IN_ARMOR: [usize; 4] = [1, 1, 2, 2];

// More calls than these are made for them: to open them there are a seek to the end, and one to a number and a read of it.
const READ_CALLS: u64 = 5;

// How often the fault refuses a record: not where it is these bytes. `None` where the answer is wrong.
fn faults_at<R: Seek>(
    records: &mut Records<BenchSuite, R>,
    index: usize,
    bytes: &[u8],
) -> Option<u64> {
    match records.get(index as u64) {
        Ok(got) => {
            if got.as_slice() == bytes {
                Some(0)
            } else {
                None
            }
        }
        Err(RecordError::Io(FAULT)) => Some(1),
        Err(_) => None,
    }
}

// How often it refuses any of those that are asked for. All others are right, also those after the fault.
fn faults_of_all<R: Seek>(
    records: &mut Records<BenchSuite, R>,
    list: &[Vec<u8>],
    order: &[usize],
) -> Option<u64> {
    let mut faults = 0u64;
    for index in order {
        faults = faults.saturating_add(faults_at(records, *index, list.get(*index)?)?);
    }
    Some(faults)
}

// The same over the payload that this gives, where the fault may refuse the opening too.
fn faults_over<R: Seek + Drop>(
    alloc: Global,
    inner: R,
    list: &[Vec<u8>],
    order: &[usize],
) -> Option<u64> {
    match opened(alloc, inner) {
        Ok(mut records) => faults_of_all(&mut records, list, order),
        Err(RecordError::Io(FAULT)) => Some(1),
        Err(_) => None,
    }
}

// A text that carries the payload of the records, or is it.
#[derive(Clone, Copy, Drop)]
struct Text<'a> {
    list: &'a [Vec<u8>],
    bytes: &'a [u8],
    armored: bool,
}

impl<'a> Text<'a> {
    // How many faults a device of this script, with these bytes, made, and how many the answers over it have.
    fn faults(&self, alloc: Global, script: Script<'_>) -> Result<(u64, Option<u64>), Fail> {
        let mut device = Source::new(script, self.bytes);
        let told = if self.armored {
            faults_over(
                alloc,
                ArmoredReader::new(alloc, &mut device)?,
                self.list,
                &ORDER_IN_ARMOR,
            )
        } else {
            faults_over(alloc, &mut device, self.list, &ORDER)
        };
        Ok((device.faults(), told))
    }

    // Whether the records are read over a device of this script as over one that never fails.
    fn is_unharmed(&self, alloc: Global, script: Script<'_>) -> Result<bool, Fail> {
        let (_, told) = self.faults(alloc, script)?;
        Ok(told == Some(0))
    }

    // Whether a device that fails at the call of this number is called so often, and one answer is the fault then; `None` where an
    // answer is wrong.
    fn fails_at(&self, alloc: Global, call: u64) -> Result<Option<bool>, Fail> {
        match self.faults(alloc, Script::failing_at(call))? {
            (0, Some(0)) => Ok(Some(false)),
            (1, Some(1)) => Ok(Some(true)),
            _ => Ok(None),
        }
    }

    // Devices fail at one in so many of their calls, in turn, until one isn't called so often.
    fn fails_in_turn(&self, rt: &impl Abort, alloc: Global, stride: u64) -> Result<(), Fail> {
        for turn in 0..1_000u64 {
            let call = turn.saturating_mul(stride).saturating_add(1);
            match self.fails_at(alloc, call)? {
                Some(true) => {}
                Some(false) => {
                    assert!(rt; call > READ_CALLS, "only {call}");
                    return Ok(());
                }
                None => return Err(Fail::from("another answer")),
            }
        }
        Err(Fail::from("no run without a fault"))
    }
}

// Records, their payload, and its armor.
#[derive(Drop)]
struct Texts {
    list: Vec<Vec<u8>>,
    payload: Vec<u8>,
    armor: Vec<u8>,
}

impl Texts {
    fn new(alloc: Global, length: usize) -> Result<Texts, Fail> {
        let list = three_of(alloc, length)?;
        let payload = written(alloc, &list)?;
        Ok(Texts {
            list,
            armor: armored(alloc, &payload)?,
            payload,
        })
    }

    fn bare(&self) -> Text<'_> {
        Text {
            list: &self.list,
            bytes: &self.payload,
            armored: false,
        }
    }

    fn in_armor(&self) -> Text<'_> {
        Text {
            list: &self.list,
            bytes: &self.armor,
            armored: true,
        }
    }
}

// Whether both are read so over devices of this script.
fn both_are_unharmed(alloc: Global, texts: &Texts, script: Script<'_>) -> Result<bool, Fail> {
    Ok(texts.bare().is_unharmed(alloc, script)? && texts.in_armor().is_unharmed(alloc, script)?)
}

#[test]
fn devices_that_give_a_byte_a_call_change_nothing(rt: HostRuntime) -> Result<(), Fail> {
    let texts = Texts::new(rt.alloc(), LENGTH)?;
    assert!(rt; both_are_unharmed(rt.alloc(), &texts, Script::by_bytes())?);
    Ok(())
}

#[test]
fn interruptions_change_nothing(rt: HostRuntime) -> Result<(), Fail> {
    let texts = Texts::new(rt.alloc(), LENGTH)?;
    let script = Script::interrupted(16, usize::MAX);
    assert!(rt; both_are_unharmed(rt.alloc(), &texts, script)?);
    Ok(())
}

#[test]
fn each_call_on_a_payload_fails_in_turn(rt: HostRuntime) -> Result<(), Fail> {
    let texts = Texts::new(rt.alloc(), LENGTH)?;
    texts.bare().fails_in_turn(&rt, rt.alloc(), 1)
}

#[test]
fn each_call_on_its_armor_fails_in_turn(rt: HostRuntime) -> Result<(), Fail> {
    let texts = Texts::new(rt.alloc(), SHORT)?;
    texts.in_armor().fails_in_turn(&rt, rt.alloc(), 1)
}

#[test]
fn some_calls_on_the_armor_of_three_chunks_fail_in_turn(rt: HostRuntime) -> Result<(), Fail> {
    let texts = Texts::new(rt.alloc(), LENGTH)?;
    texts.in_armor().fails_in_turn(&rt, rt.alloc(), STRIDE)
}

// Three records of this length are written in five chunks, of which `finish` writes the last.
const LONG: usize = 100_000;

// How a writer goes on.
#[derive(Clone, Copy, PartialEq, Eq)]
enum Course {
    // All was taken.
    On,
    // The device has failed, and so has the writer, for good.
    Failed,
    // It was refused otherwise, or wasn't for good.
    Wrong,
}

// Records are written, or refused by the fault; the writer has failed then.
fn put<W: Write>(writer: &mut StreamWriter<BenchSuite, W>, list: &[Vec<u8>]) -> Course
    requires { taken_len writer.old ≡ 0 }
{
    match write_records(list, writer) {
        Ok(()) => Course::On,
        Err(FAULT) if writer.write(b"a") == Err(Error::Failed) => Course::Failed,
        Err(_) => Course::Wrong,
    }
}

// The end, which is refused by the fault, or as the writer failed before.
fn end<T: Drop>(course: Course, answer: Result<T, Error>) -> Course {
    match (course, answer.err()) {
        (Course::On, None) => Course::On,
        (Course::On, Some(FAULT)) => Course::Failed,
        (Course::Failed, Some(Error::Failed)) => Course::Failed,
        _ => Course::Wrong,
    }
}

// Records are written to a device.
fn write_to(alloc: Global, sink: &mut Sink<'_>, list: &[Vec<u8>]) -> Result<Course, Fail> {
    let mut writer = StreamWriter::<BenchSuite, &mut Sink>::with_payload_key(alloc, KEY, sink)?;
    let course = put(&mut writer, list);
    Ok(end(course, writer.finish()))
}

// Whether what went out is a beginning of the payload, and all of it where nothing failed.
fn is_sent(sink: &Sink<'_>, course: Course, payload: &[u8]) -> bool {
    match course {
        Course::On => sink.bytes() == payload,
        Course::Failed => sink.faults() == 1 && payload.strip_prefix(sink.bytes()).is_some(),
        Course::Wrong => false,
    }
}

// Whether records are written, or a beginning of them, to a device that fails at the call of this number; whether there is no such
// call; `None` where it is wrong.
fn is_whole(
    alloc: Global,
    list: &[Vec<u8>],
    payload: &[u8],
    call: u64,
) -> Result<Option<bool>, Fail> {
    let mut sink = Sink::new(alloc, Script::failing_at(call));
    let course = write_to(alloc, &mut sink, list)?;
    if is_sent(&sink, course, payload) {
        Ok(Some(sink.faults() == 0))
    } else {
        Ok(None)
    }
}

// Four chunks go out as the records are written, and one does with `finish`.
#[test]
fn each_call_of_a_writer_fails_in_turn(rt: HostRuntime) -> Result<(), Fail> {
    let list = three_of(rt.alloc(), LONG)?;
    let payload = written(rt.alloc(), &list)?;
    for call in 1..6u64 {
        assert!(rt;
            is_whole(rt.alloc(), &list, &payload, call)? == Some(false),
            "at {call}"
        );
    }
    assert!(rt; is_whole(rt.alloc(), &list, &payload, 6)? == Some(true));
    Ok(())
}

const GONE: Step = Step::Fail(ErrorKind::Other);

// What a device does that fails within a chunk, and how many bytes it has then.
const CUTS: [(&[Step], usize); 4] = [
    (&[Step::Move(5), GONE], 5),
    (&[Step::Move(usize::MAX), Step::Move(7), GONE], 65_559),
    (
        &[
            Step::Move(1),
            Step::Move(1),
            Step::Move(65_550),
            Step::Move(1),
            GONE,
        ],
        65_553,
    ),
    (
        &[
            Step::Move(usize::MAX),
            Step::Move(usize::MAX),
            Step::Move(usize::MAX),
            Step::Move(usize::MAX),
            Step::Move(3),
            GONE,
        ],
        262_211,
    ),
];

// Whether so many bytes of the payload go out to a device of these steps.
fn is_cut(
    alloc: Global,
    list: &[Vec<u8>],
    payload: &[u8],
    steps: &[Step],
    length: usize,
) -> Result<bool, Fail> {
    let mut sink = Sink::new(alloc, Script::new(steps, usize::MAX));
    let course = write_to(alloc, &mut sink, list)?;
    Ok(course == Course::Failed && sink.bytes() == part(payload, 0, length))
}

#[test]
fn a_device_that_fails_within_a_chunk_has_a_beginning(rt: HostRuntime) -> Result<(), Fail> {
    let list = three_of(rt.alloc(), LONG)?;
    let payload = written(rt.alloc(), &list)?;
    for (steps, length) in CUTS {
        assert!(rt;
            is_cut(rt.alloc(), &list, &payload, steps, length)?,
            "at {length}"
        );
    }
    Ok(())
}

// Whether records are written whole to a device of this script.
fn is_taken(
    alloc: Global,
    list: &[Vec<u8>],
    payload: &[u8],
    script: Script<'_>,
) -> Result<bool, Fail> {
    let mut sink = Sink::new(alloc, script);
    let course = write_to(alloc, &mut sink, list)?;
    Ok(course == Course::On && is_sent(&sink, course, payload))
}

#[test]
fn devices_that_take_little_or_are_interrupted_take_all(rt: HostRuntime) -> Result<(), Fail> {
    let list = three_of(rt.alloc(), LENGTH)?;
    let payload = written(rt.alloc(), &list)?;
    for script in [Script::by_bytes(), Script::interrupted(16, 10_000)] {
        assert!(rt; is_taken(rt.alloc(), &list, &payload, script)?);
    }
    Ok(())
}
