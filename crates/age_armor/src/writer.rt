//! Writing armor.
ghost use Rattle.std.specs.Prelude.{◌≡◌, ◌+◌, ◌*◌, ◌<◌, ◌≤◌, ℕ, true, false, IsTrue, List, [], length, take, IfOk, IfErr, OnOk, OnErr, IsOk, IsOkAnd, Some, codes, vec_len, vec_capacity};
ghost use Rattle.std.specs.Result.{result_map_both};
ghost use Rattle.age_error.specs.Refusals.{IsDevice};
ghost use Rattle.age_error.specs.declared.io.Error.TheVariants.{OutOfMemory};
ghost use Rattle.age_io.specs.Copying.{AppendsFront};
ghost use Rattle.age_v1.specs.Armor.{armor, text_of};
ghost use Rattle.age_v1.specs.declared.format.Format.TheVariants.{AsciiArmor};
ghost use Rattle.age_io.specs.Writing.{HandsOn, KeepsWriter};

use crate::encoding::{COLUMNS, ColumnEncoder, LINE, LINE_TEXT};
use crate::sending::{write_begin, write_end, write_lines};
use age_error::io::Error;
use age_io::{Write, room_for};
use age_v1::Format;
use std::alloc::Global;
use std::fmt;

// How many full lines go out in one write at most.
const LINES: usize = 1024;

/// Takes bytes by `Write`, and writes the text that carries them to an inner writer: their armor, or the bytes
/// themselves.
///
/// Armor is that of age-encryption.org/v1, section "ASCII armor": the begin marker, base64 with padding in lines of
/// 64 columns, and the end marker, each with LF. It is whole only after `finish` or `close`. A writer that is dropped
/// before that leaves a beginning of it.
pub struct ArmoredWriter<W> {
    pub(crate) inner: W,
    pub(crate) armored: bool,
    // What doesn't fill a line yet.
    pub(crate) held: Vec<u8>,
    pub(crate) encoder: ColumnEncoder,
    // Room for the columns and for the text of `LINES` lines. What stands there between calls is no longer needed.
    pub(crate) columns: Vec<u8>,
    pub(crate) text: Vec<u8>,
    pub(crate) failed: bool,
    ghost part: { vec_len held < 48 },
    ghost has_room: { armored ≡ true → 48 ≤ vec_capacity held },
    ghost has_columns: { armored ≡ true → length columns.items ≡ 65536 },
    ghost has_text: { armored ≡ true → length text.items ≡ 66560 },
    ghost armor_alone: { armored ≡ false → failed ≡ false },
}

// Memory for a line that isn't full, and for the columns and the text of `LINES` lines.
fn rooms(alloc: Global) -> Result<(Vec<u8>, Vec<u8>, Vec<u8>), Error>
    ensures held { IfOk result (λ rooms. (rooms.0.items ≡ []) × (48 ≤ vec_capacity rooms.0)) }
    ensures full { IfOk result (λ rooms. (length rooms.1.items ≡ 65536) × (length rooms.2.items ≡ 66560)) }
    ensures memory { IfErr result (λ e. e ≡ OutOfMemory) }
{
    let held = Vec::with_capacity(alloc, LINE)?;
    let columns = room_for(alloc, LINES * COLUMNS)?;
    let text = room_for(alloc, LINES * LINE_TEXT)?;
    Ok((held, columns, text))
}

impl<W: Write> ArmoredWriter<W> {
    ghost use Rattle.age_armor.specs.Writing.{Took, SendsLines, is_armored, inner_of, held_len};
    ghost use Rattle.age_armor.specs.WriterCalls.{WrapsOutput};

    /// A writer that has taken nothing. The text begins where `inner` stands.
    ///
    /// In armor it first takes the memory that serves for the whole text, and answers `OutOfMemory` where it is refused
    /// that; nothing was written then. Then it writes the begin marker and LF: any other refusal is that of the inner
    /// writer, or `WriteZero` where that took no byte. Interruptions of the inner writer are retried as by `write_all`.
    /// In binary it writes nothing, takes no memory and never refuses. `inner` is gone after a refusal.
    ///
    /// `WrapsOutput` says of a success that nothing was taken yet, and that the begin marker went out where it is armor (`made`,
    /// `empty`); what stays of `inner`, and that the writer refuses later only as `inner` might (`same_tells`, `no_fewer_faults`,
    /// `narrows`); and why it is refused (`binary`, `why`, `patient`).
    pub fn wrap_output(alloc: Global, inner: W, format: Format) -> Result<Self, Error>
    where
        W: Drop,
        ensures { WrapsOutput ⟦<W as Write>⟧ inner format result }
    {
        match ArmoredWriter::begin(alloc, inner, format) {
            Ok(writer) => Ok(writer),
            Err((_inner, error)) => Err(error),
        }
    }

    /// It makes a writer and refuses as `wrap_output` does, and hands `inner` back beside the refusal. A beginning of the text, whatever
    /// follows, was written to it then (`front`), and where the refusal is a device's one of its calls failed (`device`).
    ///
    /// `wraps` says what the contract of `wrap_output` says, of the writer or of the refusal alone.
    pub fn begin(alloc: Global, inner: W, format: Format) -> Result<Self, (W, Error)>
        ensures wraps { WrapsOutput ⟦<W as Write>⟧ inner format (result_map_both (λ writer. writer) (λ back. back.1) result) }
        ensures front { IsTrue (W.tells inner) → IfErr result
            (λ back. (bytes : List ℕ) → AppendsFront W.appended (text_of format bytes) inner back.0) }
        ensures device { IfErr result (λ back. IsDevice back.1 → W.faults inner < W.faults back.0) }
    {
        match format {
            Format::Binary => Ok(ArmoredWriter {
                inner,
                armored: false,
                held: Vec::new(alloc),
                encoder: ColumnEncoder::new(),
                columns: Vec::new(alloc),
                text: Vec::new(alloc),
                failed: false,
            }),
            Format::AsciiArmor => ArmoredWriter::begin_armor(alloc, inner),
        }
    }

    // The same in armor.
    fn begin_armor(alloc: Global, mut inner: W) -> Result<Self, (W, Error)>
        ensures wraps { WrapsOutput ⟦<W as Write>⟧ inner AsciiArmor (result_map_both (λ writer. writer) (λ back. back.1) result) }
        ensures front { IsTrue (W.tells inner) → IfErr result (λ back. (bytes : List ℕ) → AppendsFront W.appended (armor bytes) inner back.0) }
        ensures device { IfErr result (λ back. IsDevice back.1 → W.faults inner < W.faults back.0) }
    {
        let (held, columns, text) = match rooms(alloc) {
            Ok(rooms) => rooms,
            Err(error) => return Err((inner, error)),
        };
        match write_begin(&mut inner) {
            Ok(()) => Ok(ArmoredWriter {
                inner,
                armored: true,
                held,
                encoder: ColumnEncoder::new(),
                columns,
                text,
                failed: false,
            }),
            Err(error) => Err((inner, error)),
        }
    }

    // Takes full lines from the front of the bytes, where nothing is held.
    fn take_lines(&mut self, bytes: &[u8]) -> Result<usize, Error>
        requires form { is_armored self.old ≡ true }
        requires none { held_len self.old ≡ 0 }
        requires full { 48 ≤ length bytes.now }
        ensures count { IfOk result (λ n. (0 < n) × (n ≤ length bytes.now)) }
        ensures took { IsTrue (W.tells (inner_of self.old)) → IfOk result (λ n. Took W.appended self.old (take n bytes.now) self.new) }
        ensures front { IsTrue (W.tells (inner_of self.old)) → OnErr result (SendsLines W.appended self.old bytes.now (inner_of self.new)) }
        ensures inner { KeepsWriter W.tells W.faults (HandsOn W.refuses) (inner_of self.old) (inner_of self.new) result }
        ensures failed { self.new.failed ≡ self.old.failed }
        ensures same_form { is_armored self.new ≡ is_armored self.old }
    {
        let count = LINE * (bytes.len() / LINE).min(LINES);
        write_lines(
            &mut self.inner,
            &mut self.columns,
            &mut self.text,
            &bytes[..count],
        )?;
        Ok(count)
    }

    // Takes bytes that fill the line that is held.
    fn fill_line(&mut self, bytes: &[u8]) -> Result<(), Error>
        requires form { is_armored self.old ≡ true }
        requires fills { held_len self.old + length bytes.now ≡ 48 }
        ensures took { IsTrue (W.tells (inner_of self.old)) → OnOk result (Took W.appended self.old bytes.now self.new) }
        ensures front { IsTrue (W.tells (inner_of self.old)) → SendsLines W.appended self.old bytes.now (inner_of self.new) }
        ensures inner { KeepsWriter W.tells W.faults (HandsOn W.refuses) (inner_of self.old) (inner_of self.new) result }
        ensures failed { self.new.failed ≡ self.old.failed }
        ensures same_form { is_armored self.new ≡ is_armored self.old }
    {
        self.held.extend_from_slice(bytes)?;
        let sent = write_lines(
            &mut self.inner,
            &mut self.columns,
            &mut self.text,
            &self.held,
        );
        self.held.clear();
        sent
    }

    // Holds bytes that don't fill a line, for which it takes no memory.
    fn hold(&mut self, bytes: &[u8]) -> Result<(), Error>
        requires form { is_armored self.old ≡ true }
        requires fits { held_len self.old + length bytes.now < 48 }
        ensures ok { IsOk result }
        ensures held { held_len self.new ≡ held_len self.old + length bytes.now }
        ensures same_inner { inner_of self.new ≡ inner_of self.old }
        ensures took { IsTrue (W.tells (inner_of self.old)) → OnOk result (Took W.appended self.old bytes.now self.new) }
        ensures inner { KeepsWriter W.tells W.faults (HandsOn W.refuses) (inner_of self.old) (inner_of self.new) result }
        ensures failed { self.new.failed ≡ self.old.failed }
        ensures same_form { is_armored self.new ≡ is_armored self.old }
    {
        self.held.extend_from_slice(bytes)?;
        Ok(())
    }

    // Takes some of the bytes. A line goes out as soon as it is full.
    fn take_some(&mut self, bytes: &[u8]) -> Result<usize, Error>
        requires form { is_armored self.old ≡ true }
        requires some { 0 < length bytes.now }
        ensures count { IfOk result (λ n. (0 < n) × (n ≤ length bytes.now)) }
        ensures took { IsTrue (W.tells (inner_of self.old)) → IfOk result (λ n. Took W.appended self.old (take n bytes.now) self.new) }
        ensures front { IsTrue (W.tells (inner_of self.old)) → OnErr result (SendsLines W.appended self.old bytes.now (inner_of self.new)) }
        ensures roomy { held_len self.old + length bytes.now < 48 → IsOkAnd result (λ n.
            (held_len self.new ≡ held_len self.old + n) × (inner_of self.new ≡ inner_of self.old)) }
        ensures inner { KeepsWriter W.tells W.faults (HandsOn W.refuses) (inner_of self.old) (inner_of self.new) result }
        ensures failed { self.new.failed ≡ self.old.failed }
        ensures same_form { is_armored self.new ≡ is_armored self.old }
    {
        if self.held.is_empty() && bytes.len() >= LINE {
            return self.take_lines(bytes);
        }
        let count = bytes.len().min(LINE - self.held.len());
        if self.held.len() + count < LINE {
            self.hold(&bytes[..count])?;
            return Ok(count);
        }
        self.fill_line(&bytes[..count])?;
        Ok(count)
    }

    // Takes all bytes.
    pub(crate) fn take_all(&mut self, bytes: &[u8]) -> Result<(), Error>
        requires form { is_armored self.old ≡ true }
        ensures took { IsTrue (W.tells (inner_of self.old)) → OnOk result (Took W.appended self.old bytes.now self.new) }
        ensures front { IsTrue (W.tells (inner_of self.old)) → OnErr result (SendsLines W.appended self.old bytes.now (inner_of self.new)) }
        ensures roomy { held_len self.old + length bytes.now < 48 →
            IsOk result × (held_len self.new ≡ held_len self.old + length bytes.now) × (inner_of self.new ≡ inner_of self.old) }
        ensures inner { KeepsWriter W.tells W.faults (HandsOn W.refuses) (inner_of self.old) (inner_of self.new) result }
        ensures failed { self.new.failed ≡ self.old.failed }
        ensures same_form { is_armored self.new ≡ is_armored self.old }
    {
        let mut done = 0;
        while done < bytes.len() {
            done += self.take_some(&bytes[done..])?;
        }
        Ok(())
    }
}

impl<W: Write> ArmoredWriter<W> {
    ghost use Rattle.age_armor.specs.Writing.{inner_of};
    ghost use Rattle.age_armor.specs.WriterCalls.{ClosesText};

    /// In armor it writes the line of what is held, where that is some bytes, and the end marker and LF. The inner writer
    /// isn't flushed. Whatever it answers, the writer is failed from then on. In binary it does nothing and never refuses,
    /// and the writer goes on.
    ///
    /// On success the inner writer was given the text that carries all bytes taken. Where the writer failed or was closed
    /// before, the answer is `Failed`, and it stays as it is. Else a refusal is that of the inner writer, or `WriteZero`
    /// where that took no byte, and the inner writer has a beginning of the text. It takes no memory of its own.
    ///
    /// `ClosesText` says that the inner writer was given the whole text, from before the writer was made (`ok`), and whatever it
    /// answers a beginning of what is left of it and so of the text (`left`, `front`), and in binary nothing (`binary`); what stays
    /// of it, and that it refuses later only as before (`same_form`, `same_tells`, `no_fewer_faults`, `narrows`); and when the writer
    /// fails and why it refuses (`fails`, `failed`, `why`, `patient`, `device`).
    pub fn close(&mut self) -> Result<(), Error>
        ensures { ClosesText ⟦<W as Write>⟧ self.old self.new result }
    {
        if self.failed {
            return Err(Error::Failed);
        }
        if !self.armored {
            return Ok(());
        }
        self.failed = true;
        write_end(&mut self.inner, &self.encoder, &self.held)
    }

    /// Hands back the inner writer as it stands. It writes nothing: where the writer wasn't closed or finished, armor is cut off.
    pub fn into_inner(self) -> W
        ensures { result ≡ inner_of self }
    {
        let ArmoredWriter {
            inner,
            armored: _,
            held: _,
            encoder: _,
            columns: _,
            text: _,
            failed: _,
        } = self;
        inner
    }
}

impl<W: Write + Drop> ArmoredWriter<W> {
    ghost use Rattle.age_armor.specs.WriterCalls.{FinishesText};

    /// It closes the text, as `close` does, and hands back the inner writer, which isn't flushed.
    ///
    /// On success the inner writer was given the text that carries all bytes taken. It refuses as `close` does; the text is cut off
    /// then, and the inner writer is gone. In binary it writes nothing and never refuses.
    ///
    /// `FinishesText` says that the inner writer was given the whole text, from before the writer was made (`ok`), and in binary is
    /// handed back as it stands (`binary`); what stays of it, and that it refuses later only as before (`same_tells`,
    /// `no_fewer_faults`, `narrows`); and why it is refused (`failed`, `why`, `patient`).
    pub fn finish(mut self) -> Result<W, Error>
        ensures { FinishesText ⟦<W as Write>⟧ self result }
    {
        self.close()?;
        Ok(self.into_inner())
    }
}

impl<W> fmt::Debug for ArmoredWriter<W> {
    // No byte of what it has taken.
    ghost debug_output = { λ _. Some (codes "ArmoredWriter { .. }") };

    fn fmt<F: fmt::Write>(&self, f: &mut fmt::Formatter<F>) -> fmt::Result {
        f.write_str("ArmoredWriter { .. }")
    }
}

impl<W: Drop> Drop for ArmoredWriter<W> {
    fn drop(self) {
        let ArmoredWriter {
            inner: _,
            armored: _,
            held: _,
            encoder: _,
            columns: _,
            text: _,
            failed: _,
        } = self;
    }
}
