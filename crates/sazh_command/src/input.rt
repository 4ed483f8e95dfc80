//! Where standard input stands.
ghost use Rattle.sazh_command.specs.Place.{TellsPlace};

use crate::number::parse_number;

/// The place at which a file stands, by the text that Linux gives of its descriptor (proc(5), `/proc/PID/fdinfo`): it begins with
/// `pos:`, a tab, decimal digits and a line feed.
///
/// `None` where the text doesn't begin so, or the number is past 2^64 - 1.
pub fn told_place(text: &str) -> Option<u64>
    ensures { TellsPlace text.now result }
{
    let told = text.strip_prefix("pos:\t")?;
    let (digits, _rest) = told.split_once('\n')?;
    parse_number(digits)
}
