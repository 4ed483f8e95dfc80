//! Reads and seeks over devices that move a byte a call, fail once, or are
//! interrupted, bare and through armor, judged by a plain cursor on the plaintext.

use crate::fixtures::{reader_of, sealed};
use age::armor::ArmoredReader;
use age::io::{Answer, Error, ErrorKind, Op, Seek, SeekFrom, run};
use age_bench::suite::BenchSuite;
use age_devices::{Script, Source};
use std::alloc::Global;
use std::process::Abort;
use std::test::Fail;
use test_support::fixtures::{armored, part, plaintext};

const LENGTH: usize = 102_400;

// The reads and seeks.
const OPS: [Op; 6] = [
    Op::Read(10),
    Op::Seek(SeekFrom::Start(65_530)),
    Op::Read(20),
    Op::Seek(SeekFrom::End(0)),
    Op::Seek(SeekFrom::Start(0)),
    Op::Read(5),
];

// More calls than these are made for them: two chunks are read, and there are three seeks.
const CALLS: u64 = 5;

const FAULT: Error = Error::Device(ErrorKind::Other);

// A cursor on the plaintext: a list and a place. It has failed from a fault until a seek leads on, and counts the faults.
#[derive(Drop)]
struct Cursor<'a> {
    plain: &'a [u8],
    place: usize,
    failed: bool,
    faults: u32,
}

impl<'a> Cursor<'a> {
    fn new(plain: &'a [u8]) -> Cursor<'a> {
        Cursor {
            plain,
            place: 0,
            failed: false,
            faults: 0,
        }
    }

    // A read got these bytes, from its place on.
    fn got(&mut self, bytes: &[u8]) -> bool {
        let start = self.place;
        self.place = start.saturating_add(bytes.len());
        part(self.plain, start, self.place) == bytes
    }

    // A read of so many bytes is answered with these: all that were asked for, or fewer at the end.
    fn reads(&mut self, count: usize, bytes: &[u8]) -> bool {
        let wanted = part(self.plain, self.place, self.place.saturating_add(count)).len();
        !self.failed && bytes.len() == wanted && self.got(bytes)
    }

    // It is refused after these bytes: as failed before, or by a fault that fails it.
    fn refuses(&mut self, count: usize, bytes: &[u8], error: Error) -> bool {
        if self.failed {
            return bytes.is_empty() && error == Error::Failed;
        }
        self.failed = true;
        self.faults = self.faults.saturating_add(1);
        bytes.len() < count && self.got(bytes) && error == FAULT
    }

    // A seek leads to this place.
    fn leads(&mut self, to: SeekFrom, place: u64) -> bool {
        self.failed = false;
        self.place = match to {
            SeekFrom::Start(target) => target as usize,
            SeekFrom::End(_) => self.plain.len(),
            SeekFrom::Current(_) => return false,
        };
        self.place as u64 == place
    }

    // It is refused by a fault, which fails it.
    fn leads_nowhere(&mut self, bytes: &[u8], error: Error) -> bool {
        self.failed = true;
        self.faults = self.faults.saturating_add(1);
        bytes.is_empty() && error == FAULT
    }

    // What it answers to a read or a seek is this.
    fn answers(&mut self, op: Op, answer: &Answer) -> bool {
        match (op, answer) {
            (Op::Read(count), Answer::Bytes(bytes)) => self.reads(count, bytes),
            (Op::Read(count), Answer::Fault { got, error }) => self.refuses(count, got, *error),
            (Op::Seek(to), Answer::At(place)) => self.leads(to, *place),
            (Op::Seek(_), Answer::Fault { got, error }) => self.leads_nowhere(got, *error),
            _ => false,
        }
    }
}

// How many faults there are among answers that are a cursor's but for them; `None` where one is wrong.
fn faults_among(plain: &[u8], answers: &[Answer]) -> Option<u32> {
    let mut cursor = Cursor::new(plain);
    for (op, answer) in OPS.iter().zip(answers) {
        if !cursor.answers(*op, answer) {
            return None;
        }
    }
    if answers.len() == OPS.len() {
        Some(cursor.faults)
    } else {
        None
    }
}

// The same of the answers of a reader of the payload that this one gives.
fn faults_over<R: Seek + Drop>(alloc: Global, inner: R, plain: &[u8]) -> Result<Option<u32>, Fail> {
    let mut reader = reader_of::<BenchSuite, R>(alloc, inner)?;
    let answers = run(alloc, &mut reader, &OPS)?;
    Ok(faults_among(plain, &answers))
}

// A text that carries the payload, or is it.
#[derive(Clone, Copy, Drop)]
struct Text<'a> {
    plain: &'a [u8],
    bytes: &'a [u8],
    armored: bool,
}

impl<'a> Text<'a> {
    // How many faults a device of this script, with these bytes, made, and how many the answers over it have.
    fn faults(&self, alloc: Global, script: Script<'_>) -> Result<(u64, Option<u32>), Fail> {
        let mut device = Source::new(script, self.bytes);
        let told = if self.armored {
            faults_over(alloc, ArmoredReader::new(alloc, &mut device)?, self.plain)?
        } else {
            faults_over(alloc, &mut device, self.plain)?
        };
        Ok((device.faults(), told))
    }

    // Whether over a device of this script, which never fails for good, the answers are the cursor's.
    fn is_unharmed(&self, alloc: Global, script: Script<'_>) -> Result<bool, Fail> {
        let (_, told) = self.faults(alloc, script)?;
        Ok(told == Some(0))
    }

    // Whether one that fails at the call of this number is called so often, and one answer is the fault then; `None` where an answer is wrong.
    fn fails_at(&self, alloc: Global, call: u64) -> Result<Option<bool>, Fail> {
        match self.faults(alloc, Script::failing_at(call))? {
            (0, Some(0)) => Ok(Some(false)),
            (1, Some(1)) => Ok(Some(true)),
            _ => Ok(None),
        }
    }

    // Devices fail at each of their calls in turn, until one isn't called so often.
    fn fails_in_turn(&self, rt: &impl Abort, alloc: Global) -> Result<(), Fail> {
        for call in 1..1_000u64 {
            match self.fails_at(alloc, call)? {
                Some(true) => {}
                Some(false) => {
                    assert!(rt; call > CALLS, "only {call}");
                    return Ok(());
                }
                None => return Err(Fail::from("another answer")),
            }
        }
        Err(Fail::from("no run without a fault"))
    }
}

// The payload of a plaintext, and its armor.
#[derive(Drop)]
struct Texts {
    plain: Vec<u8>,
    payload: Vec<u8>,
    armor: Vec<u8>,
}

impl Texts {
    fn new(alloc: Global) -> Result<Texts, Fail> {
        let payload = sealed::<BenchSuite>(alloc, LENGTH)?;
        Ok(Texts {
            plain: plaintext(alloc, LENGTH)?,
            armor: armored(alloc, &payload)?,
            payload,
        })
    }

    fn bare(&self) -> Text<'_> {
        Text {
            plain: &self.plain,
            bytes: &self.payload,
            armored: false,
        }
    }

    fn in_armor(&self) -> Text<'_> {
        Text {
            plain: &self.plain,
            bytes: &self.armor,
            armored: true,
        }
    }
}

// Whether both are read as by a cursor over devices of this script.
fn both_are_unharmed(alloc: Global, texts: &Texts, script: Script<'_>) -> Result<bool, Fail> {
    Ok(texts.bare().is_unharmed(alloc, script)? && texts.in_armor().is_unharmed(alloc, script)?)
}

#[test]
fn a_byte_a_call_changes_nothing(rt: HostRuntime) -> Result<(), Fail> {
    let texts = Texts::new(rt.alloc())?;
    assert!(rt; both_are_unharmed(rt.alloc(), &texts, Script::by_bytes())?);
    Ok(())
}

#[test]
fn sixteen_interruptions_before_each_call_change_nothing(rt: HostRuntime) -> Result<(), Fail> {
    let texts = Texts::new(rt.alloc())?;
    let script = Script::interrupted(16, usize::MAX);
    assert!(rt; both_are_unharmed(rt.alloc(), &texts, script)?);
    Ok(())
}

// Whether over a device of which each call comes after 17 interruptions the first
// answer is the fault, and the others are the cursor's but for more of them.
fn is_interrupted(alloc: Global, text: &Text<'_>) -> Result<bool, Fail> {
    let (interruptions, told) = text.faults(alloc, Script::interrupted(17, usize::MAX))?;
    Ok(interruptions > 16 && told.is_some() && told != Some(0))
}

#[test]
fn seventeen_interruptions_are_a_fault(rt: HostRuntime) -> Result<(), Fail> {
    let texts = Texts::new(rt.alloc())?;
    assert!(rt; is_interrupted(rt.alloc(), &texts.bare())?);
    assert!(rt; is_interrupted(rt.alloc(), &texts.in_armor())?);
    Ok(())
}

#[test]
fn each_call_on_a_payload_fails_in_turn(rt: HostRuntime) -> Result<(), Fail> {
    let texts = Texts::new(rt.alloc())?;
    texts.bare().fails_in_turn(&rt, rt.alloc())
}

#[test]
fn each_call_on_its_armor_fails_in_turn(rt: HostRuntime) -> Result<(), Fail> {
    let texts = Texts::new(rt.alloc())?;
    texts.in_armor().fails_in_turn(&rt, rt.alloc())
}
