//! Readers and writers that remember how much went through them, how it began, and why the system refused.
use std::io;

// How many bytes are kept of the front: what tells a file of this format from others is in them, in armor too.
const FRONT: usize = 256;

/// What was seen of a reader or of a writer.
#[derive(Drop)]
pub struct Seen {
    /// How many bytes went through it.
    pub count: u64,
    /// Why the system refused last.
    pub error: Option<io::Error>,
    front: [u8; FRONT],
    kept: usize,
}

impl Seen {
    /// Nothing.
    pub fn new() -> Seen {
        Seen {
            count: 0,
            error: None,
            front: [0; FRONT],
            kept: 0,
        }
    }

    /// The first bytes that went through it, at most 256.
    pub fn front(&self) -> &[u8] {
        match self.front.get(..self.kept) {
            Some(front) => front,
            None => &self.front,
        }
    }

    // These bytes went through it.
    fn saw(&mut self, bytes: &[u8]) {
        self.count = self.count.saturating_add(bytes.len() as u64);
        if self.kept < FRONT {
            for byte in bytes.iter().take(FRONT) {
                if self.kept < FRONT {
                    self.front[self.kept] = *byte;
                    self.kept += 1;
                }
            }
        }
    }

    // The system refused. A signal that came in between is no refusal: the call is made again.
    fn was_refused(&mut self, error: io::Error) {
        if error.kind() != io::ErrorKind::Interrupted {
            self.error = Some(error);
        }
    }
}

/// A reader or a writer that is watched.
#[derive(Drop)]
pub struct Watched<T> {
    inner: T,
    seen: Seen,
}

impl<T> Watched<T> {
    /// This one, of which nothing was seen yet.
    pub fn new(inner: T) -> Watched<T> {
        Watched {
            inner,
            seen: Seen::new(),
        }
    }

    /// The reader or the writer, and what was seen of it.
    pub fn into_parts(self) -> (T, Seen) {
        (self.inner, self.seen)
    }
}

impl<T: io::Read> io::Read for Watched<T> {
    fn read(&mut self, buf: &mut [u8]) -> io::Result<usize> {
        match self.inner.read(buf) {
            Ok(count) => {
                if count <= buf.len() {
                    self.seen.saw(&buf[..count]);
                }
                Ok(count)
            }
            Err(error) => {
                self.seen.was_refused(error);
                Err(error)
            }
        }
    }
}

impl<T: io::Write> io::Write for Watched<T> {
    fn write(&mut self, buf: &[u8]) -> io::Result<usize> {
        match self.inner.write(buf) {
            Ok(count) => {
                if count <= buf.len() {
                    self.seen.saw(&buf[..count]);
                }
                Ok(count)
            }
            Err(error) => {
                self.seen.was_refused(error);
                Err(error)
            }
        }
    }

    fn flush(&mut self) -> io::Result<()> {
        match self.inner.flush() {
            Ok(()) => Ok(()),
            Err(error) => {
                self.seen.was_refused(error);
                Err(error)
            }
        }
    }
}
