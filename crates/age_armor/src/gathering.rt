//! Lines that a reader shows, decoded before they are taken: many in one call, which is faster than a call for each.
ghost use Rattle.std.specs.Prelude.{◌≡◌, ◌+◌, ◌*◌, ◌≤◌, ◌<◌, IsTrue, List, ℕ, length, take, slice_index};
ghost use Rattle.age_base64.specs.Base64.{padded_columns};
ghost use Rattle.age_v1.specs.ArmorFullLines.{full_lines};
ghost use Rattle.age_armor.specs.Showing.{IsAhead};

use crate::decoding::Decoder;
use crate::encoding::{COLUMNS, LINE, LINE_TEXT};

// Whether the line of that number is 64 columns and LF.
fn is_line(front: &[u8], number: usize) -> bool
    requires { 65 * number ≤ length front.now }
    ensures { IsTrue result → (65 * (number + 1) ≤ length front.now) × (slice_index front.now (65 * number + 64) ≡ 10) }
{
    if front.len() - LINE_TEXT * number < LINE_TEXT {
        return false;
    }
    front[LINE_TEXT * number + COLUMNS] == b'\n'
}

// Puts the columns of the first lines in `columns`, as far as it has room, and answers how many lines they are. Whether
// they are base64 isn't looked at.
fn gather(front: &[u8], columns: &mut [u8]) -> usize
    ensures room { 64 * result ≤ length columns.new }
    ensures shown { 65 * result ≤ length front.now }
    ensures lines { (bytes : List ℕ) → length bytes ≡ 48 * result → take (64 * result) columns.new ≡ padded_columns bytes →
        take (65 * result) front.now ≡ full_lines result bytes }
{
    let most = columns.len() / COLUMNS;
    let mut count = 0;
    'lines: while count < most && is_line(front, count) {
        columns[COLUMNS * count..COLUMNS * count + COLUMNS].copy_from_slice(
            &front[LINE_TEXT * count..LINE_TEXT * count + COLUMNS],
        );
        count += 1;
    }
    count
}

// Decodes the first lines into `bytes`, as many as `columns` and `bytes` have room for, and answers how many they are. It is
// none where one of them is bad.
fn decode_front(front: &[u8], decoder: &Decoder, columns: &mut [u8], bytes: &mut [u8]) -> usize
    requires { length columns.old * 3 ≡ length bytes.old * 4 }
    ensures ahead { IsAhead bytes.new 0 result front.now }
    ensures columns { length columns.new ≡ length columns.old }
    ensures bytes { length bytes.new ≡ length bytes.old }
{
    let count = gather(front, columns);
    if decoder.decode_full(&columns[..COLUMNS * count], &mut bytes[..LINE * count]) {
        count
    } else {
        0
    }
}

// Decodes the first line alone.
fn decode_first(front: &[u8], decoder: &Decoder, bytes: &mut [u8; 768]) -> usize
    ensures { IsAhead bytes.new 0 result front.now }
{
    let mut columns = [0u8; 64];
    decode_front(front, decoder, &mut columns, &mut bytes[..LINE])
}

/// Decodes the first lines that are shown into `bytes`, and answers how many they are: only lines of 64 columns and LF that
/// stand for 48 bytes, and at most 16. It is none only where the first isn't such a line.
pub(crate) fn decode_ahead(front: &[u8], decoder: &Decoder, bytes: &mut [u8; 768]) -> usize
    ensures { IsAhead bytes.new 0 result front.now }
{
    let mut columns = [0u8; 1024];
    let count = decode_front(front, decoder, &mut columns, bytes);
    if count > 0 {
        return count;
    }
    decode_first(front, decoder, bytes)
}
