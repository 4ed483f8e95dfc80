//! Decimal numbers in the words of a command line.
ghost use Rattle.std.specs.Prelude.{◌≡◌, ◌+◌, ◌*◌, ◌^◌, ◌<◌, IfSome};
ghost use Rattle.std.specs.Option.{option_and_then};
ghost use Rattle.age_bench.specs.Decimal.{decimal_digit, digits_number, number_of, within_64};

// The value of a decimal digit.
fn decimal_value(digit: u8) -> Option<u64>
    ensures value { result ≡ decimal_digit digit }
    ensures small { IfSome result (λ value. value < 10) }
{
    match digit {
        b'0'..=b'9' => Some((digit - b'0') as u64),
        _ => None,
    }
}

// The number with one digit more, or `None` where it is no digit or the number is past 2^64 - 1.
fn push_digit(number: u64, digit: u8) -> Option<u64>
    ensures number { result ≡ option_and_then (λ d. within_64 (number * 10 + d)) (decimal_digit digit) }
    ensures small { IfSome result (λ more. more < 2 ^ 64) }
{
    let value = decimal_value(digit)?;
    if number > (u64::MAX - value) / 10 {
        return None;
    }
    Some(number * 10 + value)
}

// The number that digits write, of none 0.
fn parse_digits(text: &[u8]) -> Option<u64>
    ensures { result ≡ digits_number text.now }
{
    let mut number = 0;
    let mut rest = text;
    'digits: while let Some((digit, tail)) = rest.split_first() {
        number = push_digit(number, *digit)?;
        rest = tail;
    }
    Some(number)
}

/// The number that decimal digits write, the high one first. Leading zeros are taken.
///
/// `None` where there is no digit, where a byte is no digit, so a sign or a space, and where the number is past 2^64 - 1.
pub fn parse_number(text: &[u8]) -> Option<u64>
    ensures { result ≡ number_of text.now }
{
    if text.is_empty() {
        return None;
    }
    parse_digits(text)
}
