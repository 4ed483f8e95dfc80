//! Texts within a limit and past it.

use crate::fixtures::{reads, refuses, shows};
use age_devices::{Script, Source, Step};
use age_error::io::{Error, ErrorKind};
use age_identity::util::LimitedReader;
use age_io::{BufRead, Bytes, Read};
use std::test::Fail;

// Whether a reader gives these bytes, by at most 20 reads into some room, and then answers so.
fn gives<R: Read>(
    reader: &mut R,
    room: &mut [u8],
    given: &[u8],
    end: Result<usize, Error>,
) -> bool {
    let mut rest = given;
    for _call in 0..20 {
        match reader.read(room) {
            Ok(0) => return rest.is_empty() && end == Ok(0),
            Ok(count) => match rest.strip_prefix(&room[..count]) {
                Some(tail) => rest = tail,
                None => return false,
            },
            Err(error) => return rest.is_empty() && end == Err(error),
        }
    }
    false
}

// Whether a reader shows these bytes, of which at most `most` are taken on in a call, and then answers so.
fn shows_on<R: BufRead>(
    reader: &mut R,
    most: usize,
    given: &[u8],
    end: Result<usize, Error>,
) -> bool {
    let mut rest = given;
    for _call in 0..20 {
        let amount = match reader.fill_buf() {
            Ok([]) => return rest.is_empty() && end == Ok(0),
            Ok(front) => {
                let amount = front.len().min(most);
                match rest.strip_prefix(&front[..amount]) {
                    Some(tail) => rest = tail,
                    None => return false,
                }
                amount
            }
            Err(error) => return rest.is_empty() && end == Err(error),
        };
        reader.consume(amount);
    }
    false
}

// A reader of a text with this limit.
fn limited<'a>(text: &'a [u8], limit: usize) -> LimitedReader<Bytes<'a>> {
    LimitedReader::new(Bytes::new(text), limit)
}

// Whether of this text a reader with this limit gives these bytes, by 1, 2 or 10 in a read, and then answers so.
fn is_given(text: &[u8], limit: usize, given: &[u8], end: Result<usize, Error>) -> bool {
    gives(&mut limited(text, limit), &mut [0; 1], given, end)
        && gives(&mut limited(text, limit), &mut [0; 2], given, end)
        && gives(&mut limited(text, limit), &mut [0; 10], given, end)
}

// Whether it shows them too.
fn is_shown(text: &[u8], limit: usize, given: &[u8], end: Result<usize, Error>) -> bool {
    for most in [1, 2, 10] {
        if !shows_on(&mut limited(text, limit), most, given, end) {
            return false;
        }
    }
    true
}

// Whether it gives them and shows them.
fn is_cut(text: &[u8], limit: usize, given: &[u8], end: Result<usize, Error>) -> bool {
    is_given(text, limit, given, end) && is_shown(text, limit, given, end)
}

// A text, and a limit that it is within.
const WITHIN: [(&[u8], usize); 5] = [
    (b"", 0),
    (b"", 5),
    (b"abc", 3),
    (b"abc", 4),
    (b"abc", usize::MAX),
];

#[test]
fn a_text_within_its_limit_ends(rt: HostRuntime) -> Result<(), Fail> {
    for (text, limit) in WITHIN {
        assert!(rt; is_cut(text, limit, text, Ok(0)), "{text:?} within {limit}");
    }
    Ok(())
}

// A limit, and what is given of `abc` within it.
const PAST: [(usize, &[u8]); 3] = [(0, b""), (1, b"a"), (2, b"ab")];

#[test]
fn a_longer_text_is_cut_and_refused(rt: HostRuntime) -> Result<(), Fail> {
    for (limit, given) in PAST {
        assert!(rt;
            is_cut(b"abc", limit, given, Err(Error::LimitExceeded)),
            "within {limit}"
        );
    }
    Ok(())
}

// Whether a reader with a limit refuses for good, to each who reads and to each who looks.
fn refuses_for_good<R: BufRead>(reader: &mut R) -> bool {
    let refusal = Err(Error::LimitExceeded);
    let mut room = [0; 4];
    reads(reader, &mut room, refusal)
        && reads(reader, &mut room, refusal)
        && reads(reader, &mut [], refusal)
        && refuses(reader, Error::LimitExceeded)
}

// Whether of six bytes a reader of a limit of 2 gives two, and refuses for good then.
fn gives_two(inner: &mut Bytes) -> bool {
    let mut reader = LimitedReader::new(inner, 2);
    reads(&mut reader, &mut [0; 4], Ok(2))
        && reads(&mut reader, &mut [], Ok(0))
        && refuses_for_good(&mut reader)
}

#[test]
fn a_limit_is_exceeded_for_good(rt: HostRuntime) -> Result<(), Fail> {
    let mut inner = Bytes::new(b"abcdef");
    assert!(rt; gives_two(&mut inner));
    // The byte that was one too many was taken from the inner reader, and no other.
    assert!(rt; shows(&mut inner, b"def"));
    Ok(())
}

// Whether a reader of a limit of 0 shows nothing, and refuses for good then.
fn shows_none(inner: &mut Bytes) -> bool {
    let mut reader = LimitedReader::new(inner, 0);
    refuses(&mut reader, Error::LimitExceeded)
        && refuses(&mut reader, Error::LimitExceeded)
        && reads(&mut reader, &mut [], Err(Error::LimitExceeded))
}

#[test]
fn a_limit_is_exceeded_for_good_by_what_is_shown(rt: HostRuntime) -> Result<(), Fail> {
    let mut inner = Bytes::new(b"abcdef");
    assert!(rt; shows_none(&mut inner));
    assert!(rt; shows(&mut inner, b"bcdef"));
    Ok(())
}

// A device that is interrupted after its first two bytes.
fn interrupted<'a>(steps: &'a [Step]) -> Source<'a> {
    Source::new(Script::new(steps, 2), b"a text")
}

const STEPS: [Step; 2] = [Step::Move(2), Step::Fail(ErrorKind::Interrupted)];

const INTERRUPTED: Error = Error::Device(ErrorKind::Interrupted);

// Whether a reader of a limit of 5 gives the bytes before an interruption and after it, and is past its limit then.
fn passes_on<R: Read>(reader: &mut R) -> bool {
    let mut room = [0; 4];
    reads(reader, &mut room, Ok(2))
        && reads(reader, &mut room, Err(INTERRUPTED))
        && reads(reader, &mut room, Ok(2))
        && reads(reader, &mut room, Ok(1))
        && reads(reader, &mut room, Err(Error::LimitExceeded))
}

#[test]
fn an_interruption_is_passed_on(rt: HostRuntime) -> Result<(), Fail> {
    assert!(rt; passes_on(&mut LimitedReader::new(interrupted(&STEPS), 5)));
    Ok(())
}

// Whether a reader of a limit of 2 that is interrupted there is past its limit only after.
fn exceeds_nothing<R: Read>(reader: &mut R) -> bool {
    let mut room = [0; 4];
    reads(reader, &mut room, Ok(2))
        && reads(reader, &mut room, Err(INTERRUPTED))
        && reads(reader, &mut [], Ok(0))
        && reads(reader, &mut room, Err(Error::LimitExceeded))
}

// It isn't known yet whether a byte more is there.
#[test]
fn an_interruption_at_the_limit_exceeds_nothing(rt: HostRuntime) -> Result<(), Fail> {
    assert!(rt; exceeds_nothing(&mut LimitedReader::new(interrupted(&STEPS), 2)));
    Ok(())
}
