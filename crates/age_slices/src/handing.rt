//! What is handed out into a caller's memory.
ghost use Rattle.std.specs.Prelude.{◌≡◌};
ghost use Rattle.age_slices.specs.Handing.{HandsOut};

use crate::status::{DONE, OUT_TOO_SHORT};

/// Writes `bytes` to the front of `out`, and their count to `written`: 0. Where `out` has fewer bytes it stays as it was, `written` is how many it
/// has to have, and the answer is `OUT_TOO_SHORT`.
pub fn hand_out(bytes: &[u8], out: &mut [u8], written: &mut usize) -> u32
    ensures { HandsOut bytes.now out.old out.new written.new result }
{
    let count = bytes.len();
    *written = count;
    if out.len() < count {
        return OUT_TOO_SHORT;
    }
    out[..count].copy_from_slice(bytes);
    DONE
}

/// Writes nothing: the number of a refusal, and 0 as the count.
pub fn refuse(number: u32, written: &mut usize) -> u32
    ensures status { result ≡ number }
    ensures count { written.new ≡ 0 }
{
    *written = 0;
    number
}
