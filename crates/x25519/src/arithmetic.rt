//! Arithmetic in GF(p) (RFC 7748, 5). No branch and no index depends on an element.
ghost use Rattle.std.specs.Prelude.{◌≡◌, ◌+◌, ◌*◌, ◌/◌, ◌%◌, ◌^◌, ◌<◌};
ghost use Rattle.curve25519.specs.Field.{prime, sum, difference, product, square};
ghost use Rattle.curve25519.specs.X25519.{conditional_swap};
ghost use Rattle.x25519.specs.Elements.{value};

use crate::element::Element;

/// The sum.
#[tactic(auto, unfolding(curve25519::specs::Field::prime))]
pub fn sum(a: Element, b: Element) -> Element
    ensures { value result % prime ≡ sum (value a) (value b) }
{
    carried(
        a.limb0 + b.limb0,
        a.limb1 + b.limb1,
        a.limb2 + b.limb2,
        a.limb3 + b.limb3,
        a.limb4 + b.limb4,
    )
}

/// The difference.
#[tactic(auto, unfolding(curve25519::specs::Field::prime))]
pub fn difference(a: Element, b: Element) -> Element
    ensures { value result % prime ≡ difference (value a) (value b) }
{
    // (four times p is added, so that no limb falls below 0)
    carried(
        a.limb0 + 0x1f_ffff_ffff_ffb4 - b.limb0,
        a.limb1 + 0x1f_ffff_ffff_fffc - b.limb1,
        a.limb2 + 0x1f_ffff_ffff_fffc - b.limb2,
        a.limb3 + 0x1f_ffff_ffff_fffc - b.limb3,
        a.limb4 + 0x1f_ffff_ffff_fffc - b.limb4,
    )
}

/// The element of limbs that are a little too large: what a limb has above 51 bits is carried to the next one, from the last one
/// 19 times to the first, since 2^255 is p + 19.
#[inline(always)]
#[tactic(auto, unfolding(curve25519::specs::Field::prime))]
fn carried(s0: u64, s1: u64, s2: u64, s3: u64, s4: u64) -> Element
    requires { (s0 < 2 ^ 54) × (s1 < 2 ^ 54) × (s2 < 2 ^ 54) × (s3 < 2 ^ 54) × (s4 < 2 ^ 54) }
    ensures value { value result % prime ≡ (s0 + 2 ^ 51 * s1 + 2 ^ 102 * s2 + 2 ^ 153 * s3 + 2 ^ 204 * s4) % prime }
    ensures bound { (result.limb0 < 2 ^ 51 + 256) × (result.limb1 < 2 ^ 51 + 256) × (result.limb2 < 2 ^ 51 + 256)
        × (result.limb3 < 2 ^ 51 + 256) × (result.limb4 < 2 ^ 51 + 256) }
{
    Element {
        limb0: s0 % 0x8_0000_0000_0000 + s4 / 0x8_0000_0000_0000 * 19,
        limb1: s1 % 0x8_0000_0000_0000 + s0 / 0x8_0000_0000_0000,
        limb2: s2 % 0x8_0000_0000_0000 + s1 / 0x8_0000_0000_0000,
        limb3: s3 % 0x8_0000_0000_0000 + s2 / 0x8_0000_0000_0000,
        limb4: s4 % 0x8_0000_0000_0000 + s3 / 0x8_0000_0000_0000,
    }
}

/// A product of limbs, of which the second may be multiplied before.
#[inline(always)]
fn wide(a: u64, b: u64) -> u128
    requires left { a < 2 ^ 52 }
    requires right { b < 2 ^ 58 }
    ensures value { result ≡ a * b }
    ensures bound { result < 2 ^ 110 }
{
    u128::from(a) * u128::from(b)
}

/// The element of limbs of up to 113 bits: one carry through all limbs, and from the last one to the first two.
#[inline(always)]
#[tactic(auto, unfolding(curve25519::specs::Field::prime))]
fn reduced(d0: u128, d1: u128, d2: u128, d3: u128, d4: u128) -> Element
    requires { (d0 < 2 ^ 113) × (d1 < 2 ^ 113) × (d2 < 2 ^ 113) × (d3 < 2 ^ 113) × (d4 < 2 ^ 113) }
    ensures { value result % prime ≡ (d0 + 2 ^ 51 * d1 + 2 ^ 102 * d2 + 2 ^ 153 * d3 + 2 ^ 204 * d4) % prime }
{
    let e1 = d1 + d0 / 0x8_0000_0000_0000;
    let e2 = d2 + e1 / 0x8_0000_0000_0000;
    let e3 = d3 + e2 / 0x8_0000_0000_0000;
    let e4 = d4 + e3 / 0x8_0000_0000_0000;
    let f0 = d0 % 0x8_0000_0000_0000 + e4 / 0x8_0000_0000_0000 * 19;
    Element {
        limb0: (f0 % 0x8_0000_0000_0000) as u64,
        limb1: (e1 % 0x8_0000_0000_0000 + f0 / 0x8_0000_0000_0000) as u64,
        limb2: (e2 % 0x8_0000_0000_0000) as u64,
        limb3: (e3 % 0x8_0000_0000_0000) as u64,
        limb4: (e4 % 0x8_0000_0000_0000) as u64,
    }
}

/// The product.
#[tactic(auto, unfolding(curve25519::specs::Field::prime))]
pub fn product(a: Element, b: Element) -> Element
    ensures { value result % prime ≡ product (value a) (value b) }
{
    // (2^255 is 19 modulo p: what lies beyond the fifth limb counts 19 times at the front)
    let b1_19 = b.limb1 * 19;
    let b2_19 = b.limb2 * 19;
    let b3_19 = b.limb3 * 19;
    let b4_19 = b.limb4 * 19;
    let d0 = wide(a.limb0, b.limb0)
        + wide(a.limb1, b4_19)
        + wide(a.limb2, b3_19)
        + wide(a.limb3, b2_19)
        + wide(a.limb4, b1_19);
    let d1 = wide(a.limb0, b.limb1)
        + wide(a.limb1, b.limb0)
        + wide(a.limb2, b4_19)
        + wide(a.limb3, b3_19)
        + wide(a.limb4, b2_19);
    let d2 = wide(a.limb0, b.limb2)
        + wide(a.limb1, b.limb1)
        + wide(a.limb2, b.limb0)
        + wide(a.limb3, b4_19)
        + wide(a.limb4, b3_19);
    let d3 = wide(a.limb0, b.limb3)
        + wide(a.limb1, b.limb2)
        + wide(a.limb2, b.limb1)
        + wide(a.limb3, b.limb0)
        + wide(a.limb4, b4_19);
    let d4 = wide(a.limb0, b.limb4)
        + wide(a.limb1, b.limb3)
        + wide(a.limb2, b.limb2)
        + wide(a.limb3, b.limb1)
        + wide(a.limb4, b.limb0);
    reduced(d0, d1, d2, d3, d4)
}

/// The square, by fewer products than `product` takes.
#[tactic(auto, unfolding(curve25519::specs::Field::prime))]
pub fn square(a: Element) -> Element
    ensures { value result % prime ≡ square (value a) }
{
    // (a product of two different limbs comes twice)
    let a0_2 = a.limb0 * 2;
    let a1_2 = a.limb1 * 2;
    let a3_19 = a.limb3 * 19;
    let a4_19 = a.limb4 * 19;
    let a4_38 = a.limb4 * 38;
    let d0 = wide(a.limb0, a.limb0) + wide(a.limb1, a4_38) + wide(a.limb2, a3_19 * 2);
    let d1 = wide(a.limb1, a0_2) + wide(a.limb2, a4_38) + wide(a.limb3, a3_19);
    let d2 = wide(a.limb2, a0_2) + wide(a.limb1, a.limb1) + wide(a.limb3, a4_38);
    let d3 = wide(a.limb3, a0_2) + wide(a.limb2, a1_2) + wide(a.limb4, a4_19);
    let d4 = wide(a.limb4, a0_2) + wide(a.limb3, a1_2) + wide(a.limb2, a.limb2);
    reduced(d0, d1, d2, d3, d4)
}

/// The product with a small number.
#[tactic(auto, unfolding(curve25519::specs::Field::prime))]
pub fn small_product(n: u64, a: Element) -> Element
    requires { n < 2 ^ 58 }
    ensures { value result % prime ≡ product n (value a) }
{
    reduced(
        wide(a.limb0, n),
        wide(a.limb1, n),
        wide(a.limb2, n),
        wide(a.limb3, n),
        wide(a.limb4, n),
    )
}

/// A small number as an element.
pub fn small(n: u64) -> Element
    requires { n < 2 ^ 51 }
    ensures { value result ≡ n }
{
    Element {
        limb0: n,
        limb1: 0,
        limb2: 0,
        limb3: 0,
        limb4: 0,
    }
}

/// How often the number holds p: 0 or 1 where its limbs are bounded so.
#[inline(always)]
fn quotient(e: Element) -> u64
    requires { (e.limb0 < 2 ^ 51 + 256) × (e.limb1 < 2 ^ 51 + 256) × (e.limb2 < 2 ^ 51 + 256) × (e.limb3 < 2 ^ 51 + 256)
        × (e.limb4 < 2 ^ 51 + 256) }
    ensures { result ≡ (value e + 19) / 2 ^ 255 }
{
    // (p is 2^255 - 19: what is carried beyond 255 bits where 19 is added)
    let q0 = (e.limb0 + 19) / 0x8_0000_0000_0000;
    let q1 = (e.limb1 + q0) / 0x8_0000_0000_0000;
    let q2 = (e.limb2 + q1) / 0x8_0000_0000_0000;
    let q3 = (e.limb3 + q2) / 0x8_0000_0000_0000;
    (e.limb4 + q3) / 0x8_0000_0000_0000
}

/// The number without p, taken q times: 19 times q is added, and what is above 255 bits dropped.
#[inline(always)]
fn remainder(e: Element, q: u64) -> Element
    requires bound { (e.limb0 < 2 ^ 51 + 256) × (e.limb1 < 2 ^ 51 + 256) × (e.limb2 < 2 ^ 51 + 256) × (e.limb3 < 2 ^ 51 + 256)
        × (e.limb4 < 2 ^ 51 + 256) }
    requires quotient { q ≡ (value e + 19) / 2 ^ 255 }
    ensures { value result ≡ (value e + 19 * q) % 2 ^ 255 }
{
    let s0 = e.limb0 + q * 19;
    let s1 = e.limb1 + s0 / 0x8_0000_0000_0000;
    let s2 = e.limb2 + s1 / 0x8_0000_0000_0000;
    let s3 = e.limb3 + s2 / 0x8_0000_0000_0000;
    let s4 = e.limb4 + s3 / 0x8_0000_0000_0000;
    Element {
        limb0: s0 % 0x8_0000_0000_0000,
        limb1: s1 % 0x8_0000_0000_0000,
        limb2: s2 % 0x8_0000_0000_0000,
        limb3: s3 % 0x8_0000_0000_0000,
        limb4: s4 % 0x8_0000_0000_0000,
    }
}

/// The number below p.
#[tactic(auto, unfolding(curve25519::specs::Field::prime))]
pub fn canonical(e: Element) -> Element
    ensures { value result ≡ value e % prime }
{
    let bounded = carried(e.limb0, e.limb1, e.limb2, e.limb3, e.limb4);
    let q = quotient(bounded);
    remainder(bounded, q)
}

/// `b` where swap is 1, else `a`, with no branch.
#[inline(always)]
fn select(swap: u64, a: u64, b: u64) -> u64
    requires { swap < 2 }
    ensures { result ≡ (conditional_swap swap a b).0 }
{
    // (no bit, or all 64)
    let mask = swap.wrapping_neg();
    a ^ (mask & (a ^ b))
}

/// `cswap`: both, exchanged where swap is 1 (RFC 7748, 5).
#[inline(always)]
pub fn conditional_swap(swap: u64, a: Element, b: Element) -> (Element, Element)
    requires { swap < 2 }
    ensures left { value result.0 ≡ (conditional_swap swap (value a) (value b)).0 }
    ensures right { value result.1 ≡ (conditional_swap swap (value a) (value b)).1 }
{
    let left = selected(swap, a, b);
    let right = selected(swap, b, a);
    (left, right)
}

/// `b` where swap is 1, else `a`, with no branch.
#[inline(always)]
fn selected(swap: u64, a: Element, b: Element) -> Element
    requires { swap < 2 }
    ensures { value result ≡ (conditional_swap swap (value a) (value b)).0 }
{
    Element {
        limb0: select(swap, a.limb0, b.limb0),
        limb1: select(swap, a.limb1, b.limb1),
        limb2: select(swap, a.limb2, b.limb2),
        limb3: select(swap, a.limb3, b.limb3),
        limb4: select(swap, a.limb4, b.limb4),
    }
}
