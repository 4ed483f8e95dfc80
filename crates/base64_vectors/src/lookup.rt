//! Tables of 16 bytes, looked up in each lane.
ghost use Rattle.std.specs.Prelude.{◌≡◌, ◌<◌};
ghost use Rattle.std.specs.Simd.Lanes.{Each1};
ghost use Rattle.base64_vectors.specs.Vectors.{looked_up};

use std::simd::u8x16;

/// What stands in a table at the place that each lane says.
#[inline(always)]
pub(crate) fn looked_up(table: u8x16, places: u8x16) -> u8x16
    requires { Each1 (λ place. place < 16) places }
    ensures { result ≡ looked_up table places }
{
    table.swizzle_dyn(places)
}
