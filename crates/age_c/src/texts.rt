//! Texts of statuses.
ghost use Rattle.std.specs.Prelude.{◌≡◌, ◌≤◌, length};
ghost use Rattle.age_files.specs.Texts.{status_text};
ghost use Rattle.age_slices.specs.Handing.{HandsOut};

use age_files::texts::text_of;
use age_slices::handing::hand_out;

/// Hands out the text of a status, as `text_of` has it, at the front of `out`, and its length: 0. Where `out` is shorter it stays as it was, and the
/// answer is 1. A room of 64 bytes is enough for each.
#[unsafe(no_mangle)]
pub extern "C" fn age_error_text(status: u32, out: &mut [u8], written: &mut usize) -> u32
    ensures text { HandsOut (status_text status) out.old out.new written.new result }
    ensures enough { 64 ≤ length out.old → result ≡ 0 }
{
    hand_out(text_of(status).as_bytes(), out, written)
}
