//! Decimal numbers in the words of a command line.
ghost use Rattle.std.specs.Prelude.{◌≡◌};
ghost use Rattle.sazh_command.specs.Decimal.{number_of};

/// The number that decimal digits write, the high one first. Leading zeros are taken.
///
/// `None` where there is no digit, where a byte is no digit, so a sign or a space, and where the number is past 2^64 - 1.
pub fn parse_number(word: &str) -> Option<u64>
    ensures { result ≡ number_of word.now }
{
    if word.starts_with('+') {
        return None;
    }
    word.parse::<u64>().ok()
}
