//! Elements of GF(p), where p = 2^255 - 19.
ghost use Rattle.std.specs.Prelude.{◌<◌, ◌^◌};

/// A number modulo p: the sum of the limbs, of which each counts 2^51 times the one before. A limb may be more than 51 bits, and the
/// number p or more.
#[derive(Clone, Copy)]
pub struct Element {
    pub limb0: u64,
    pub limb1: u64,
    pub limb2: u64,
    pub limb3: u64,
    pub limb4: u64,
    ghost bounded: { (limb0 < 2 ^ 52) × (limb1 < 2 ^ 52) × (limb2 < 2 ^ 52) × (limb3 < 2 ^ 52) × (limb4 < 2 ^ 52) },
}
