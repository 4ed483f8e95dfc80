//! The verdict on a line.
ghost use Rattle.std.specs.Prelude.{◌≡◌, true, false, MatchOption};
ghost use Rattle.age_v1.specs.ArmorLineVerdict.{verdict, columns_verdict, line_columns, is_short, last_is, but_last};
ghost use Rattle.age_armor.specs.PrivateJudging.{IsJudged};

use crate::decoding::Decoder;
use age_error::io::ArmoredReadError;
use std::str;

/// The verdict on a line.
#[derive(Clone, Copy)]
pub(crate) enum Judged {
    /// It is bad.
    Refuses(ArmoredReadError),
    /// It is the end marker.
    Ends,
    /// It stands for so many bytes, and is short or not.
    Holds(usize, bool),
}

// What stands before the last byte, if that is c.
fn before_last(bytes: &[u8], c: u8) -> Option<&[u8]>
    ensures { MatchOption result (last_is c bytes.now ≡ false) (λ front. (last_is c bytes.now ≡ true) × (front.now ≡ but_last bytes.now)) }
{
    let (last, front) = bytes.split_last()?;
    if *last == c { Some(front) } else { None }
}

// The columns of a line: the line without its LF or CRLF.
fn columns_of(raw: &[u8]) -> &[u8]
    ensures { result.now ≡ line_columns raw.now }
{
    let Some(line) = before_last(raw, b'\n') else {
        return raw;
    };
    match before_last(line, b'\r') {
        Some(columns) => columns,
        None => line,
    }
}

// The verdict on columns: the tests in their order.
fn judge_columns(
    decoder: &Decoder,
    after_short: bool,
    columns: &[u8],
    bytes: &mut [u8; 48],
) -> Judged
    ensures { IsJudged (columns_verdict after_short columns.now) (is_short columns.now) bytes.new result }
{
    if columns.contains(&b'\r') {
        return Judged::Refuses(ArmoredReadError::LineContainsCr);
    }
    if columns == b"-----END AGE ENCRYPTED FILE-----".as_slice() {
        return Judged::Ends;
    }
    if after_short {
        if columns.len() == 64 {
            return Judged::Refuses(ArmoredReadError::ShortLineInMiddle);
        }
        return Judged::Refuses(ArmoredReadError::NotWrappedAt64Chars);
    }
    if columns.len() % 4 != 0 {
        return Judged::Refuses(ArmoredReadError::MissingPadding);
    }
    if columns.is_empty() || columns.len() > 64 {
        return Judged::Refuses(ArmoredReadError::NotWrappedAt64Chars);
    }
    match decoder.decode(columns, bytes) {
        Some(count) => {
            let short = columns.len() < 64 || before_last(columns, b'=').is_some();
            Judged::Holds(count, short)
        }
        None => Judged::Refuses(ArmoredReadError::Base64),
    }
}

/// The verdict on a line with its ending. `after_short` says that a short line came before. The bytes that a good line
/// stands for are then in front of `bytes`.
pub(crate) fn judge(
    decoder: &Decoder,
    after_short: bool,
    raw: &[u8],
    bytes: &mut [u8; 48],
) -> Judged
    ensures { IsJudged (verdict after_short raw.now) (is_short (line_columns raw.now)) bytes.new result }
{
    match str::from_utf8(raw) {
        Ok(_text) => judge_columns(decoder, after_short, columns_of(raw), bytes),
        Err(_) => Judged::Refuses(ArmoredReadError::InvalidUtf8),
    }
}
