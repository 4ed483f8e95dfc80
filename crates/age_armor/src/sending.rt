//! What goes out to the inner writer.
ghost use Rattle.std.specs.Prelude.{◌≡◌, ◌+◌, ◌*◌, ◌/◌, ◌%◌, ◌<◌, ◌≤◌, IsTrue, true, length, OnOk};
ghost use Rattle.age_base64.specs.Lines.{line};
ghost use Rattle.age_base64.specs.Base64.{padded_columns};
ghost use Rattle.age_io.specs.Copying.{AppendsFront};
ghost use Rattle.age_io.specs.Writing.{HandsOn, KeepsWriter};
ghost use Rattle.age_v1.specs.Armor.{begin_marker, end_marker};
ghost use Rattle.age_v1.specs.ArmorFullLines.{full_lines};
ghost use Rattle.age_armor.specs.Writing.{text_end};

use crate::encoding::{COLUMNS, ColumnEncoder, LINE, LINE_TEXT, encode_lines};
use age_error::io::Error;
use age_io::{Write, write_all};

/// Writes the begin marker and LF.
pub(crate) fn write_begin<W: Write>(inner: &mut W) -> Result<(), Error>
    ensures keeps { KeepsWriter W.tells W.faults (HandsOn W.refuses) inner.old inner.new result }
    ensures sent { IsTrue (W.tells inner.old) → OnOk result (W.appended inner.old (line begin_marker) inner.new) }
    ensures front { IsTrue (W.tells inner.old) → AppendsFront W.appended (line begin_marker) inner.old inner.new }
{
    write_all(inner, b"-----BEGIN AGE ENCRYPTED FILE-----\n")
}

/// Writes the lines that carry `bytes`, which fill them, at once. They go through `columns` and `text`, whose bytes are no
/// longer needed.
pub(crate) fn write_lines<W: Write>(
    inner: &mut W,
    columns: &mut [u8],
    text: &mut [u8],
    bytes: &[u8],
) -> Result<(), Error>
    requires full { length bytes.now % 48 ≡ 0 }
    requires room { 64 * (length bytes.now / 48) ≤ length columns.old }
    requires text_room { 65 * (length bytes.now / 48) ≤ length text.old }
    ensures keeps { KeepsWriter W.tells W.faults (HandsOn W.refuses) inner.old inner.new result }
    ensures sent { IsTrue (W.tells inner.old) →
        OnOk result (W.appended inner.old (full_lines (length bytes.now / 48) bytes.now) inner.new) }
    ensures front { IsTrue (W.tells inner.old) → AppendsFront W.appended (full_lines (length bytes.now / 48) bytes.now) inner.old inner.new }
{
    let lines = bytes.len() / LINE;
    let size = LINE_TEXT * lines;
    encode_lines(bytes, &mut columns[..COLUMNS * lines], &mut text[..size]);
    write_all(inner, &text[..size])
}

// Writes the line that carries these bytes, which don't fill one.
fn write_last_line<W: Write>(
    inner: &mut W,
    encoder: &ColumnEncoder,
    bytes: &[u8],
) -> Result<(), Error>
    requires { length bytes.now < 48 }
    ensures keeps { KeepsWriter W.tells W.faults (HandsOn W.refuses) inner.old inner.new result }
    ensures sent { IsTrue (W.tells inner.old) → OnOk result (W.appended inner.old (line (padded_columns bytes.now)) inner.new) }
    ensures front { IsTrue (W.tells inner.old) → AppendsFront W.appended (line (padded_columns bytes.now)) inner.old inner.new }
{
    let mut text = [0u8; LINE_TEXT];
    let columns = encoder.encode(bytes, &mut text);
    text[columns] = b'\n';
    write_all(inner, &text[..columns + 1])
}

// Writes the end marker and LF.
fn write_end_marker<W: Write>(inner: &mut W) -> Result<(), Error>
    ensures keeps { KeepsWriter W.tells W.faults (HandsOn W.refuses) inner.old inner.new result }
    ensures sent { IsTrue (W.tells inner.old) → OnOk result (W.appended inner.old (line end_marker) inner.new) }
    ensures front { IsTrue (W.tells inner.old) → AppendsFront W.appended (line end_marker) inner.old inner.new }
{
    write_all(inner, b"-----END AGE ENCRYPTED FILE-----\n")
}

/// Writes the line that carries what is held, where that is some bytes, and the end marker and LF.
pub(crate) fn write_end<W: Write>(
    inner: &mut W,
    encoder: &ColumnEncoder,
    held: &[u8],
) -> Result<(), Error>
    requires { length held.now < 48 }
    ensures keeps { KeepsWriter W.tells W.faults (HandsOn W.refuses) inner.old inner.new result }
    ensures sent { IsTrue (W.tells inner.old) → OnOk result (W.appended inner.old (text_end true held.now) inner.new) }
    ensures front { IsTrue (W.tells inner.old) → AppendsFront W.appended (text_end true held.now) inner.old inner.new }
{
    if held.is_empty() {
        return write_end_marker(inner);
    }
    write_last_line(inner, encoder, held)?;
    write_end_marker(inner)
}
