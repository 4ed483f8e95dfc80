//! Random access to a payload.
ghost use Rattle.std.specs.Prelude.{◌≡◌, ℕ, ◌+◌, ◌*◌, ◌/◌, ◌<◌, ◌≤◌, false, IsTrue, length, take, IfErr, OnOk, Ok, Err};
ghost use Rattle.age_io.specs.Cursor;
ghost use Rattle.age_io.specs.Cursor.{OrTooLong};
ghost use Rattle.age_io.specs.Keeping.{KeepsReader, OrSeek};
ghost use Rattle.age_stream.specs.PrivateKeeping.{KeepsPayload};

use crate::reader::StreamReader;
use age_error::io::{Error, SeekFrom};
use age_io::{Read, Seek};
use age_suite::suite::Suite;

impl<S: Suite, R: Read> StreamReader<S, R> {
    ghost use Rattle.age_stream.specs.Reader.{key_of, place_of, stops_of};
    ghost use Rattle.age_stream.specs.PrivateSteps.{FullInOne, ReadsFull, RefusesFull};

    // Reads until the buffer is full or the end. `filled` says how many bytes were read, also after a refusal.
    fn read_full(&mut self, buf: &mut [u8], filled: &mut usize) -> Result<(), Error>
        requires good { self.old.place.failed ≡ false }
        ensures keeps { KeepsPayload (stops_of self.old) self.old.source self.new.source result }
        ensures count { filled.new ≤ length buf.new }
        ensures moves { (key_of self.new ≡ key_of self.old) × (place_of self.new ≡ place_of self.old + filled.new) }
        ensures reads { OnOk result (ReadsFull self.old self.new (length buf.new) (take filled.new buf.new) filled.new) }
        ensures refused { IfErr result (RefusesFull self.old self.new (length buf.new) filled.new) }
        ensures opens { (self.old.opens ≤ self.new.opens) × (self.new.opens ≤ self.old.opens + length buf.new / 65536 + 3) }
        ensures one { IsTrue (⟦<StreamReader<S, R> as Read>⟧.tells self.old) → (chunk : ℕ) → 65536 * chunk ≤ place_of self.old →
            place_of self.old + length buf.new ≤ 65536 * chunk + 65536 → FullInOne self.old self.new chunk filled.new result }
    {
        *filled = 0;
        'reads: while *filled < buf.len() {
            let n = self.read_on(&mut buf[*filled..])?;
            if n == 0 {
                return Ok(());
            }
            *filled += n;
        }
        Ok(())
    }
}

impl<S: Suite, R: Seek> StreamReader<S, R> {
    ghost use Rattle.age_stream.specs.Access.{GivesAt, RefusesAt, LeavesAt, OpensAt, KeepsAt};

    /// Seeks, and then reads until the buffer is full or the end. It answers how many bytes it read, which are in front of
    /// `buf`, and the reader stands after them. They are fewer than the buffer takes only at the end (`gives`).
    ///
    /// A refusal is that of the seek or of the read that met it, and so is the state after it: the reader has failed, but
    /// where the seek refused with `BeforeStart` or `PastEnd`. It stands where it stood, or where the seek led and after the bytes
    /// that were read since (`leaves`). `BeforeStart` and `PastEnd` say that the target is outside, unless the inner reader's own
    /// reads refuse so (`refuses`). What `buf` holds after a refusal isn't said. For n bytes it opens at most n / 65,536 + 4 times
    /// (`opens`).
    ///
    /// Where `buf` isn't empty, the target is before the end, and as many bytes as `buf` takes end in the chunk in which they begin, it
    /// opens at most twice, and not at all where it has that chunk. It has the chunk then, as the one that was used last, and the
    /// one that was used last before; and where it had the chunk, both that it had (`chunks`).
    pub fn read_at(&mut self, to: SeekFrom, buf: &mut [u8]) -> Result<usize, Error>
        ensures keeps { KeepsReader ⟦<StreamReader<S, R> as Read>⟧
            (OrSeek (OrTooLong R.seek_refuses) ⟦<StreamReader<S, R> as Read>⟧.refuses) self.old self.new result }
        ensures gives { GivesAt self.old self.new to buf.new result }
        ensures refuses { RefusesAt self.old self.new to buf.new result }
        ensures leaves { LeavesAt self.old self.new to buf.new result }
        ensures opens { OpensAt self.old self.new (length buf.new) }
        ensures chunks { KeepsAt self.old self.new to (length buf.new) result }
    {
        let _start = Seek::seek(self, to)?;
        let mut filled = 0;
        self.read_full(buf, &mut filled)?;
        Ok(filled)
    }
}
