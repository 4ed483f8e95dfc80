//! Powers in GF(p).
ghost use Rattle.std.specs.Prelude.{◌≡◌, ◌-◌, ◌%◌, ◌^◌};
ghost use Rattle.curve25519.specs.Field.{prime, field_power};
ghost use Rattle.x25519.specs.Elements.{value};

use crate::arithmetic::{product, square};
use crate::element::Element;

/// The power by 2^count: so many squares, one after another.
fn repeated_square(z: Element, count: u32) -> Element
    ensures { value result % prime ≡ field_power (value z) (2 ^ count) }
{
    let mut power = z;
    'squares: for _square in 0..count {
        power = square(power);
    }
    power
}

/// z^(p - 2), which is the inverse of z, and 0 for 0 (RFC 7748, 5). The number of an exponent of ones is how many bits it has.
pub fn inverse(z: Element) -> Element
    ensures { value result % prime ≡ field_power (value z) (prime - 2) }
{
    let power2 = square(z);
    let power8 = repeated_square(power2, 2);
    let power9 = product(power8, z);
    let power11 = product(power9, power2);
    let power22 = square(power11);
    let ones5 = product(power22, power9);
    let shifted5 = repeated_square(ones5, 5);
    let ones10 = product(shifted5, ones5);
    let shifted10 = repeated_square(ones10, 10);
    let ones20 = product(shifted10, ones10);
    let shifted20 = repeated_square(ones20, 20);
    let ones40 = product(shifted20, ones20);
    let shifted40 = repeated_square(ones40, 10);
    let ones50 = product(shifted40, ones10);
    let shifted50 = repeated_square(ones50, 50);
    let ones100 = product(shifted50, ones50);
    let shifted100 = repeated_square(ones100, 100);
    let ones200 = product(shifted100, ones100);
    let shifted200 = repeated_square(ones200, 50);
    let ones250 = product(shifted200, ones50);
    let shifted250 = repeated_square(ones250, 5);
    product(shifted250, power11)
}
