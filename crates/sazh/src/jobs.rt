//! What is done from an input to an output.

use crate::explain::{explained, of_part, of_whole};
use crate::failure::{Failure, done, named, refused_by, said};
use crate::files::{open_file, whole};
use crate::front::Fronted;
use crate::keys::bad_identities;
use crate::output::{
    NewFile, Place, create, finish, give_up, name_of, open_stream, replace, tell_links, where_to,
};
use crate::progress::{Metered, Progress};
use crate::random::System;
use crate::watch::{Seen, Watched};
use age::armor::Format;
use age::io::{Read, Std, Write, flush_retrying, write_all};
use age::streaming::FileError;
use age_standard::StandardSuite;
use sazh_command::Output;
use sazh_core::error::{CommandError, GivenError, KeyringError};
use sazh_core::given::{
    decrypt_by, decrypt_part_by, encrypt_to_words, encrypt_under_text, migrate_by, rekey_by,
    seek_part_by, verify_by,
};
use sazh_core::keygen::write_new_key;
use sazh_core::keyring::Keyring;
use sazh_core::measuring::Measured;
use sazh_core::own_recipients::write_recipients_of;
use sazh_core::words::Word;
use std::alloc::AllocError;
use std::fmt::Write as _;
use std::fs::File;
use std::io;
use std::io::IsTerminal;

/// To whom is encrypted.
#[derive(Drop)]
pub enum To {
    /// To the recipients that these words name.
    Words(Vec<Word>),
    /// To all who know the passphrase in this text.
    Passphrase(Vec<u8>),
}

/// Something that is done from an input to an output.
pub trait Job: Drop {
    /// Does it, and flushes the output.
    fn run<R: Read, W: Write>(
        self,
        rt: &HostRuntime,
        reader: &mut R,
        writer: &mut W,
    ) -> Result<(), Failure>;

    /// How many bytes the header of its input may have, where that is a file which is to be opened.
    fn header_limit(&self) -> Option<u64> {
        None
    }

    /// What its input begins with, where a header is looked at.
    fn note_front(&mut self, _front: &[u8]) {}

    /// How many bytes it writes at most, where that tells how far it is. Elsewhere the bytes that it has read do.
    fn writes(&self) -> Option<u64> {
        None
    }
}

/// Encrypts the input, with the system's random bytes.
#[derive(Drop)]
pub struct Encrypting {
    pub to: To,
    pub format: Format,
}

impl Job for Encrypting {
    fn run<R: Read, W: Write>(
        self,
        rt: &HostRuntime,
        reader: &mut R,
        writer: &mut W,
    ) -> Result<(), Failure> {
        let Encrypting { to, format } = self;
        let mut source = System::new(rt);
        match to {
            To::Words(words) => done(
                rt,
                encrypt_to_words::<StandardSuite, System, R, W>(
                    rt.alloc(),
                    &words,
                    &mut source,
                    format,
                    reader,
                    writer,
                ),
            ),
            To::Passphrase(text) => done(
                rt,
                encrypt_under_text::<StandardSuite, System, R, W>(
                    rt.alloc(),
                    &text,
                    &mut source,
                    format,
                    reader,
                    writer,
                ),
            ),
        }
    }
}

/// Writes a new key, whose secret is the system's random bytes. No input is read.
#[derive(Clone, Copy)]
pub struct NewKey;

impl Job for NewKey {
    fn run<R: Read, W: Write>(
        self,
        rt: &HostRuntime,
        _reader: &mut R,
        writer: &mut W,
    ) -> Result<(), Failure> {
        let mut source = System::new(rt);
        done(
            rt,
            write_new_key::<StandardSuite, System, W>(rt.alloc(), &mut source, writer),
        )
    }
}

// What was answered, or that a file wasn't opened or written.
fn done_with(
    rt: &HostRuntime,
    answer: Result<(), GivenError<KeyringError, FileError>>,
) -> Result<(), Failure> {
    match answer {
        Ok(()) => Ok(()),
        Err(GivenError::Given(error)) => Err(said(rt, &error)),
        Err(GivenError::Command(error)) => Err(Failure::File(error)),
    }
}

/// Decrypts the input.
#[derive(Drop)]
pub struct Decrypting {
    pub keyring: Keyring,
    pub header_limit: u64,
}

impl Job for Decrypting {
    fn run<R: Read, W: Write>(
        self,
        rt: &HostRuntime,
        reader: &mut R,
        writer: &mut W,
    ) -> Result<(), Failure> {
        done_with(
            rt,
            decrypt_by::<StandardSuite, R, W>(rt.alloc(), &self.keyring, reader, writer),
        )
    }

    fn header_limit(&self) -> Option<u64> {
        Some(self.header_limit)
    }
}

/// Encrypts the content of the input to others, with the system's random bytes.
#[derive(Drop)]
pub struct Rekeying {
    pub keyring: Keyring,
    pub header_limit: u64,
    pub words: Vec<Word>,
    pub format: Format,
}

impl Job for Rekeying {
    fn run<R: Read, W: Write>(
        self,
        rt: &HostRuntime,
        reader: &mut R,
        writer: &mut W,
    ) -> Result<(), Failure> {
        let mut source = System::new(rt);
        let answer = rekey_by::<StandardSuite, System, &mut R, W>(
            rt.alloc(),
            &self.keyring,
            &self.words,
            &mut source,
            self.format,
            reader,
            writer,
        );
        match answer {
            Ok(()) => Ok(()),
            Err(GivenError::Command(CommandError::File(error))) => Err(Failure::Whole(error)),
            Err(error) => Err(said(rt, &error)),
        }
    }

    fn header_limit(&self) -> Option<u64> {
        Some(self.header_limit)
    }
}

/// Tells the length and the digest of the input's content.
#[derive(Drop)]
pub struct Verifying {
    pub keyring: Keyring,
    pub header_limit: u64,
}

// The lines that tell what was measured.
fn lines_of(rt: &HostRuntime, measured: &Measured) -> Result<String, AllocError> {
    let mut text = String::new(rt.alloc());
    write!(text, "length {}\nsha256 ", measured.length)?;
    for byte in measured.sha256 {
        write!(text, "{byte:02x}")?;
    }
    text.push('\n')?;
    Ok(text)
}

impl Job for Verifying {
    fn run<R: Read, W: Write>(
        self,
        rt: &HostRuntime,
        reader: &mut R,
        writer: &mut W,
    ) -> Result<(), Failure> {
        match verify_by::<StandardSuite, R>(rt.alloc(), &self.keyring, reader) {
            Ok(measured) => {
                let text = lines_of(rt, &measured)?;
                done(rt, write_all(writer, text.as_bytes()))?;
                done(rt, flush_retrying(writer))
            }
            Err(GivenError::Command(error)) => Err(Failure::Whole(error)),
            Err(error) => Err(said(rt, &error)),
        }
    }

    fn header_limit(&self) -> Option<u64> {
        Some(self.header_limit)
    }
}

/// Rewrites the input with a header of the standard.
#[derive(Drop)]
pub struct Migrating {
    pub keyring: Keyring,
    pub header_limit: u64,
}

impl Job for Migrating {
    fn run<R: Read, W: Write>(
        self,
        rt: &HostRuntime,
        reader: &mut R,
        writer: &mut W,
    ) -> Result<(), Failure> {
        done_with(
            rt,
            migrate_by::<StandardSuite, &mut R, W>(rt.alloc(), &self.keyring, reader, writer),
        )
    }

    fn header_limit(&self) -> Option<u64> {
        Some(self.header_limit)
    }
}

/// Decrypts a part of the input, which is read into memory first.
#[derive(Drop)]
pub struct ReadingPart<'a> {
    pub keyring: Keyring,
    pub header_limit: u64,
    pub place: u64,
    pub count: u64,
    /// The input, as it is told.
    pub name: &'a str,
}

impl<'a> Job for ReadingPart<'a> {
    fn run<R: Read, W: Write>(
        self,
        rt: &HostRuntime,
        reader: &mut R,
        writer: &mut W,
    ) -> Result<(), Failure> {
        let ReadingPart {
            keyring,
            place,
            count,
            name,
            ..
        } = self;
        let answer = decrypt_part_by::<StandardSuite, R, W>(
            rt.alloc(),
            &keyring,
            place,
            count,
            reader,
            writer,
        );
        match done_with(rt, answer) {
            Err(Failure::File(FileError::Io(error))) => { Err(of_part(rt, name, place, error)) }
            other => other,
        }
    }

    fn header_limit(&self) -> Option<u64> {
        Some(self.header_limit)
    }
}

/// Decrypts a part of a file, in which is sought. No other input is read.
#[derive(Drop)]
pub struct SeekingPart<'a> {
    pub keyring: Keyring,
    pub file: Std<File>,
    pub name: &'a str,
    pub place: u64,
    pub count: u64,
}

impl<'a> Job for SeekingPart<'a> {
    fn run<R: Read, W: Write>(
        self,
        rt: &HostRuntime,
        _reader: &mut R,
        writer: &mut W,
    ) -> Result<(), Failure> {
        let SeekingPart {
            keyring,
            file,
            name,
            place,
            count,
        } = self;
        let answer = seek_part_by::<StandardSuite, Std<File>, W>(
            rt.alloc(),
            &keyring,
            place,
            count,
            file,
            writer,
        );
        match done_with(rt, answer) {
            Err(Failure::File(FileError::Io(error))) => Err(of_part(rt, name, place, error)),
            Err(Failure::File(error)) => Err(Failure::Part(error)),
            other => other,
        }
    }

    fn writes(&self) -> Option<u64> {
        Some(self.count)
    }
}

/// Writes the recipients of the identities in the file of this name, which has these bytes. No input is read.
#[derive(Clone, Copy)]
pub struct Publishing<'a> {
    pub name: &'a str,
    pub bytes: &'a [u8],
}

impl<'a> Job for Publishing<'a> {
    fn run<R: Read, W: Write>(
        self,
        rt: &HostRuntime,
        _reader: &mut R,
        writer: &mut W,
    ) -> Result<(), Failure> {
        match write_recipients_of::<StandardSuite, W>(rt.alloc(), self.bytes, writer) {
            Ok(()) => Ok(()),
            Err(GivenError::Given(error)) => Err(bad_identities(rt, self.name, self.bytes, error)),
            Err(GivenError::Command(error)) => Err(said(rt, &error)),
        }
    }
}

// Why something that was done between these was refused: as the system said, where it did. The names are those of the input and the
// output; an output without a name is standard output, and where nobody reads that any more, there is nobody to tell.
fn reason(
    rt: &HostRuntime,
    failure: Failure,
    read: Seen,
    input: &str,
    written: Seen,
    output: Option<&str>,
) -> Failure {
    if let Some(error) = written.error {
        return match output {
            Some(name) => refused_by(rt, name, error),
            None if error.kind() == io::ErrorKind::BrokenPipe => Failure::ClosedPipe,
            None => refused_by(rt, "standard output", error),
        };
    }
    if let Some(error) = read.error {
        return refused_by(rt, input, error);
    }
    match failure {
        Failure::File(error) => explained(rt, input, &read, written.count, error),
        Failure::Whole(error) => of_whole(rt, input, &read, error),
        Failure::Damaged(why) => named(rt, input, &why),
        failure => failure,
    }
}

// Where it is read from: a reader of std, its name, and how many bytes it has where that is known.
#[derive(Drop)]
struct Source<'a, R> {
    reader: R,
    name: &'a str,
    whole: Option<u64>,
}

// What came of it: the reader and the writer, what was seen of them, and how it ended.
#[derive(Drop)]
struct Outcome<R, W> {
    reader: R,
    read: Seen,
    writer: W,
    written: Seen,
    answer: Result<(), Failure>,
}

// Does it, where the reader is that of what has this name, once a header was looked at.
fn run_watched<J: Job, R: io::Read + Drop, W: io::Write + Drop>(
    rt: &HostRuntime,
    job: J,
    name: &str,
    reader: R,
    writer: W,
) -> Outcome<R, W> {
    let mut job = job;
    let mut front = Fronted::new(rt, Watched::new(reader));
    let looked = match job.header_limit() {
        Some(limit) => front.look(rt, name, limit),
        None => Ok(()),
    };
    job.note_front(front.front());
    let mut reader = Std::new(front);
    let mut writer = Std::new(Watched::new(writer));
    let answer = match looked {
        Ok(()) => job.run(rt, &mut reader, &mut writer),
        Err(failure) => Err(failure),
    };
    let (reader, read) = reader.into_inner().into_inner().into_parts();
    let (writer, written) = writer.into_inner().into_parts();
    Outcome {
        reader,
        read,
        writer,
        written,
        answer,
    }
}

// What tells how far it is, of what is read and of what is written, where there are so many bytes to read.
fn meters<'a, J: Job>(
    rt: &'a HostRuntime,
    job: &J,
    whole: Option<u64>,
    is_told: bool,
) -> (Progress<'a>, Progress<'a>) {
    if !is_told {
        return (Progress::untold(rt), Progress::untold(rt));
    }
    match job.writes() {
        Some(count) => (Progress::untold(rt), Progress::begun(rt, Some(count))),
        None => (Progress::begun(rt, whole), Progress::untold(rt)),
    }
}

// Does it from a reader to a writer of std, and tells how far it is. What it gives is what was seen of the writer.
fn run_between<J: Job, R: io::Read + Drop, W: io::Write + Drop>(
    rt: &HostRuntime,
    job: J,
    from: Source<'_, R>,
    to: W,
    output: Option<&str>,
    is_told: bool,
) -> Result<Seen, Failure> {
    let Source {
        reader,
        name,
        whole,
    } = from;
    let (reading, writing) = meters(rt, &job, whole, is_told);
    let reader = Metered::new(reader, reading);
    let writer = Metered::new(to, writing);
    let Outcome {
        reader,
        read,
        writer,
        written,
        answer,
    } = run_watched(rt, job, name, reader, writer);
    reader.end();
    writer.end();
    match answer {
        Ok(()) => Ok(written),
        Err(failure) => Err(reason(rt, failure, read, name, written, output)),
    }
}

// Does it from the input of this name, which is standard input where it is `-`.
fn run_from<J: Job, W: io::Write + Drop>(
    rt: &HostRuntime,
    job: J,
    input: &str,
    to: W,
    output: Option<&str>,
    is_told: bool,
) -> Result<Seen, Failure> {
    let whole = whole(rt, input);
    if input == "-" {
        let from = Source {
            reader: rt.reader(),
            name: "standard input",
            whole,
        };
        run_between(rt, job, from, to, output, is_told)
    } else {
        let from = Source {
            reader: open_file(rt, input)?,
            name: input,
            whole,
        };
        run_between(rt, job, from, to, output, is_told)
    }
}

// Does it from the input of this name to a new file. One that doesn't become whole is taken away.
fn run_to_file<J: Job>(
    rt: &HostRuntime,
    job: J,
    input: &str,
    name: &str,
    new: NewFile,
    is_told: bool,
) -> Result<Seen, Failure> {
    match run_from(rt, job, input, new.file(), Some(name), is_told) {
        Ok(seen) => {
            finish(rt, new, name)?;
            Ok(seen)
        }
        Err(failure) => {
            give_up(rt, new);
            Err(failure)
        }
    }
}

// Does it from the input of this name to standard output. How far it is isn't told among what a terminal shows of that.
fn run_to_standard<J: Job>(
    rt: &HostRuntime,
    job: J,
    input: &str,
    is_told: bool,
) -> Result<Seen, Failure> {
    let is_told = is_told && !rt.stdout().is_terminal();
    run_from(rt, job, input, io::writer(rt), None, is_told)
}

// That it is done, whatever was seen.
fn ended(answer: Result<Seen, Failure>) -> Result<(), Failure> {
    match answer {
        Ok(_) => Ok(()),
        Err(failure) => Err(failure),
    }
}

/// Does it from the input of this name to standard output, and tells how far it is where `is_told`.
pub fn run_to_output<J: Job>(
    rt: &HostRuntime,
    job: J,
    input: &str,
    is_told: bool,
) -> Result<(), Failure> {
    ended(run_to_standard(rt, job, input, is_told))
}

/// The same as `run_job`. What it gives is what was seen of the output.
pub fn run_seen<J: Job>(
    rt: &HostRuntime,
    job: J,
    input: &str,
    output: &Output,
    mode: u32,
    is_told: bool,
) -> Result<Seen, Failure> {
    let name = name_of(output);
    let skip_sync = output.skip_sync;
    match where_to(rt, output)? {
        Place::Standard => run_to_standard(rt, job, input, is_told),
        Place::Stream => {
            let file = open_stream(rt, name)?;
            run_from(rt, job, input, file, Some(name), is_told)
        }
        Place::Free => {
            let new = create(rt, name, mode, skip_sync)?;
            run_to_file(rt, job, input, name, new, is_told)
        }
        Place::Taken(target, old) => {
            let new = replace(rt, name, target, &old, skip_sync)?;
            let seen = run_to_file(rt, job, input, name, new, is_told)?;
            tell_links(rt, name, &old);
            Ok(seen)
        }
    }
}

/// Does it from the input of this name to an output, and tells how far it is where `is_told`: to standard output, to what is there and is no
/// regular file, or to a new file, which has its name once it is whole. A file that is replaced keeps its mode and its owner.
pub fn run_job<J: Job>(
    rt: &HostRuntime,
    job: J,
    input: &str,
    output: &Output,
    mode: u32,
    is_told: bool,
) -> Result<(), Failure> {
    ended(run_seen(rt, job, input, output, mode, is_told))
}
