//! What each status says, in English, for callers outside of Rattle that show it to a person.
ghost use Rattle.std.specs.Prelude.{◌≡◌, ◌≤◌, length};
ghost use Rattle.age_files.specs.Texts.{status_text};

/// The text of a status: a line without its end, in ASCII, of at most 64 bytes. Where a refusal of the library
/// prints no number and no name, it says the same. A number that no call answers has a text of its own.
pub fn text_of(status: u32) -> &'static str
    ensures text { result.now ≡ status_text status }
    ensures short { length result.now ≤ 64 }
{
    match status {
        0 => "success",
        1 => "the room for the answer is too short",
        2 => "more of the file is needed",
        3 => "a length that no key or payload has",
        4 => "out of memory",
        10 => "device fault",
        11 => "input ended early",
        12 => "nothing could be written",
        13 => "cannot seek before the start",
        14 => "cannot seek past the end",
        15 => "age file is truncated",
        16 => "decryption error",
        17 => "last chunk has been processed",
        18 => "last chunk is empty",
        19 => "Last chunk is invalid, stream might be truncated",
        20 => "more than the largest length",
        21 => "input is longer than its limit",
        22 => "a line is no identity",
        23 => "failed earlier",
        30 => "invalid base64 in armor",
        31 => "invalid armor begin marker",
        32 => "stream did not contain valid UTF-8",
        33 => "line contains CR",
        34 => "invalid armor (last line is missing padding)",
        35 => "invalid armor (not wrapped at 64 characters)",
        36 => "invalid armor (short line in middle of encoding)",
        37 => "invalid armor (non-whitespace characters after end marker)",
        40 => "decryption failed",
        41 => "excessive work factor",
        42 => "invalid header",
        43 => "invalid header MAC",
        44 => "key decryption failed",
        45 => "no matching keys",
        46 => "plugins are never started",
        47 => "unknown format",
        50 => "encrypted identities name no recipients",
        51 => "recipients have different labels",
        52 => "invalid recipient labels",
        53 => "no recipients",
        54 => "a passphrase can't be used with other recipients",
        55 => "random bytes ran out",
        56 => "shared secret is zero",
        57 => "work factor refused",
        60 => "not UTF-8",
        61 => "a line is no recipient",
        62 => "no recipient is in the text",
        63 => "no identity is in the text",
        64 => "the passphrase is empty",
        65 => "the text is encrypted with a passphrase",
        _ => "unknown status",
    }
}
