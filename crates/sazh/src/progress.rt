//! How far a command is, told on standard error where that is a terminal.

use std::alloc::AllocError;
use std::io::IsTerminal;
use std::time::Instant;
use std::{fmt, io};

// How long a command runs before anything is told of it, and how long what was told stays, in milliseconds.
const FIRST: u64 = 1_000;

const NEXT: u64 = 200;

/// A number of bytes, in a unit in which it has few digits: no fraction is shown.
#[derive(Clone, Copy)]
struct Size(u64);

impl fmt::Display for Size {
    fn fmt<W: fmt::Write>(&self, f: &mut fmt::Formatter<W>) -> fmt::Result {
        let bytes = self.0;
        if bytes < 10 << 10 {
            write!(f, "{bytes} B")
        } else if bytes < 10 << 20 {
            write!(f, "{} KiB", bytes >> 10)
        } else if bytes < 10 << 30 {
            write!(f, "{} MiB", bytes >> 20)
        } else {
            write!(f, "{} GiB", bytes >> 30)
        }
    }
}

/// Whether it is told how far a command is: standard error is a terminal, and nobody asked for silence.
pub fn is_told(rt: &HostRuntime, quiet: bool) -> bool {
    !quiet && rt.stderr().is_terminal()
}

/// How far a command is.
#[derive(Drop)]
pub struct Progress<'a> {
    rt: &'a HostRuntime,
    // When it began, or `None` where nothing is told.
    began: Option<Instant>,
    // How many bytes there are, where that is known, and how many went through by now.
    whole: Option<u64>,
    count: u64,
    // When something is told next, in milliseconds from the beginning.
    next: u64,
    is_shown: bool,
}

// The line that tells of so many bytes, after so many milliseconds.
fn line_of(
    rt: &HostRuntime,
    count: u64,
    whole: Option<u64>,
    elapsed: u64,
) -> Result<String, AllocError> {
    let done = Size(count);
    let speed = Size(
        count
            .saturating_mul(1_000)
            .checked_div(elapsed)
            .unwrap_or(0),
    );
    match whole {
        None => format!(in rt.alloc(); "sazh: {done}, {speed}/s"),
        Some(whole) => {
            let share = count
                .min(whole)
                .saturating_mul(100)
                .checked_div(whole)
                .unwrap_or(100);
            let whole = Size(whole);
            format!(in rt.alloc(); "sazh: {done} of {whole}, {share} %, {speed}/s")
        }
    }
}

impl<'a> Progress<'a> {
    /// Nothing is told.
    pub fn untold(rt: &'a HostRuntime) -> Progress<'a> {
        Progress {
            rt,
            began: None,
            whole: None,
            count: 0,
            next: FIRST,
            is_shown: false,
        }
    }

    /// It begins now, and there are so many bytes, where that is known.
    pub fn begun(rt: &'a HostRuntime, whole: Option<u64>) -> Progress<'a> {
        let began = match Instant::now(rt) {
            Ok(now) => Some(now),
            Err(_) => None,
        };
        Progress {
            rt,
            began,
            whole,
            count: 0,
            next: FIRST,
            is_shown: false,
        }
    }

    // How many milliseconds went by, where something is told.
    fn elapsed(&self) -> Option<u64> {
        let Some(began) = self.began else {
            return None;
        };
        match Instant::now(self.rt) {
            Ok(now) => match u64::try_from(now.duration_since(began).as_millis()) {
                Ok(elapsed) => Some(elapsed),
                Err(_) => None,
            },
            Err(_) => None,
        }
    }

    // So many bytes more went through.
    fn went(&mut self, count: usize) {
        self.count = self.count.saturating_add(count as u64);
        let Some(elapsed) = self.elapsed() else {
            return;
        };
        if elapsed < self.next {
            return;
        }
        self.next = elapsed.saturating_add(NEXT);
        let rt = self.rt;
        if let Ok(line) = line_of(rt, self.count, self.whole, elapsed) {
            let _ = eprint!(rt; "\r{line:<60}");
            self.is_shown = true;
        }
    }

    // It is over: what was told goes.
    fn end(self) {
        if self.is_shown {
            let rt = self.rt;
            let _ = eprint!(rt; "\r{:<60}\r", "");
        }
    }
}

/// A reader or a writer, of whose bytes it is told how many went through.
#[derive(Drop)]
pub struct Metered<'a, T> {
    inner: T,
    progress: Progress<'a>,
}

impl<'a, T: Drop> Metered<'a, T> {
    /// This one.
    pub fn new(inner: T, progress: Progress<'a>) -> Metered<'a, T> {
        Metered { inner, progress }
    }

    /// It is over: what was told goes.
    pub fn end(self) {
        let Metered { inner, progress } = self;
        drop(inner);
        progress.end();
    }
}

impl<'a, T: io::Read> io::Read for Metered<'a, T> {
    fn read(&mut self, buf: &mut [u8]) -> io::Result<usize> {
        match self.inner.read(buf) {
            Ok(count) => {
                self.progress.went(count);
                Ok(count)
            }
            Err(error) => Err(error),
        }
    }
}

impl<'a, T: io::Write> io::Write for Metered<'a, T> {
    fn write(&mut self, buf: &[u8]) -> io::Result<usize> {
        match self.inner.write(buf) {
            Ok(count) => {
                self.progress.went(count);
                Ok(count)
            }
            Err(error) => Err(error),
        }
    }

    fn flush(&mut self) -> io::Result<()> {
        self.inner.flush()
    }
}
