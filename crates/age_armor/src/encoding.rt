//! Lines of armor, encoded.
ghost use Rattle.std.specs.Prelude.{◌≡◌, ◌+◌, ◌*◌, ◌/◌, ◌%◌, ◌≤◌, ◌++◌, length, drop};
ghost use Rattle.age_base64.specs.Lines.{line};
ghost use Rattle.age_base64.specs.Base64.{padded_columns};
ghost use Rattle.age_v1.specs.ArmorFullLines.{full_lines};

use age_base64::armor_engine;
use base64::engine::general_purpose::GeneralPurpose;
use base64_vectors::encode_full;
use std::marker::Model;

/// How many bytes a full line carries.
pub(crate) const LINE: usize = 48;

/// How many columns of base64 a full line has.
pub(crate) const COLUMNS: usize = 64;

/// How many bytes the text of a full line has: its columns and LF.
pub(crate) const LINE_TEXT: usize = 65;

/// Writes the base64 of armor. It is made once, and kept with its tables. Its value is the symbols that it writes with, so
/// that clauses don't see the tables.
#[derive(Drop)]
pub(crate) struct ColumnEncoder {
    engine: GeneralPurpose,
}

impl Model for ColumnEncoder {
    ghost use Rattle.std.specs.Prelude.{◌≡◌, List, ℕ};
    ghost use Rattle.base64.specs.GeneralPurpose.{encode_of};
    ghost use Rattle.age_base64.specs.Base64.{padded_columns, symbols};

    ghost Value = { List ℕ };

    ghost view = { λ _. symbols };

    ghost invariant = { λ e. (bytes : List ℕ) → encode_of e.engine bytes ≡ padded_columns bytes };
}

impl ColumnEncoder {
    pub(crate) fn new() -> ColumnEncoder {
        ColumnEncoder {
            engine: armor_engine(),
        }
    }

    /// Writes the columns of `bytes` to the front of `columns`, and answers how many they are.
    pub(crate) fn encode(&self, bytes: &[u8], columns: &mut [u8]) -> usize
        requires { 4 * ((length bytes.now + 2) / 3) ≤ length columns.old }
        ensures count { result ≡ 4 * ((length bytes.now + 2) / 3) }
        ensures written { columns.new ≡ padded_columns bytes.now ++ drop result columns.old }
    {
        let Ok(count) = self.engine.encode_slice(bytes, columns) else {
            unreachable!();
        };
        count
    }
}

// Writes the line of these columns.
fn write_line(columns: &[u8], text: &mut [u8])
    requires { length text.old ≡ length columns.now + 1 }
    ensures { text.new ≡ line columns.now }
{
    let count = columns.len();
    text[..count].copy_from_slice(columns);
    text[count] = b'\n';
}

/// Writes the lines that carry `bytes`, which fill them, to `text`, which they fill. All are encoded by vectors in one call,
/// to `columns`, and copied from there.
pub(crate) fn encode_lines(bytes: &[u8], columns: &mut [u8], text: &mut [u8])
    requires full { length bytes.now % 48 ≡ 0 }
    requires room { length columns.old ≡ 64 * (length bytes.now / 48) }
    requires text_room { length text.old ≡ 65 * (length bytes.now / 48) }
    ensures { text.new ≡ full_lines (length bytes.now / 48) bytes.now }
{
    encode_full(bytes, columns);
    'lines: for number in 0..bytes.len() / LINE {
        write_line(
            &columns[COLUMNS * number..COLUMNS * number + COLUMNS],
            &mut text[LINE_TEXT * number..LINE_TEXT * number + LINE_TEXT],
        );
    }
}
