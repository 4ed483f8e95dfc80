//! The state of the ladder (RFC 7748, 5).
ghost use Rattle.std.specs.Prelude.{◌<◌};

use crate::element::Element;

/// Two points on the line of u-coordinates, u = x / z, and 1 where they are to be exchanged before the next step, else 0.
#[derive(Clone, Copy)]
pub struct LadderState {
    pub x_2: Element,
    pub z_2: Element,
    pub x_3: Element,
    pub z_3: Element,
    pub swap: u64,
    ghost is_bit: { swap < 2 },
}
