//! Where seeks lead.
ghost use Rattle.std.specs.Prelude.{◌≡◌, ◌≢◌, ℕ, ◌-◌, ◌^◌, ◌≤◌, ◌<◌, false, IsTrue, Some};
ghost use Rattle.age_io.specs.Cursor;
ghost use Rattle.age_error.specs.declared.io.Error.TheVariants.{Failed};

use age_error::io::{Error, SeekFrom};

/// Where a seek leads from a place in a content of `len` bytes: to a target from 0 to `len`.
///
/// A target below 0 is `BeforeStart`, one above `len` is `PastEnd`.
pub fn sought(to: SeekFrom, place: u64, len: u64) -> Result<u64, Error>
    requires place { place < 2 ^ 63 }
    requires len { len < 2 ^ 63 }
    ensures { result ≡ Cursor.sought to place len }
{
    let target = match to {
        SeekFrom::Start(target) => target,
        SeekFrom::End(distance) => place_at(len, distance).ok_or(Error::BeforeStart)?,
        SeekFrom::Current(distance) => place_at(place, distance).ok_or(Error::BeforeStart)?,
    };
    if target <= len {
        Ok(target)
    } else {
        Err(Error::PastEnd)
    }
}

/// The place at this distance from another, or `None` where it is below 0.
pub fn place_at(base: u64, distance: i64) -> Option<u64>
    requires { base < 2 ^ 63 }
    ensures { result ≡ Cursor.place_at base distance }
{
    if distance < 0 {
        base.checked_sub(distance.unsigned_abs())
    } else {
        Some(base + distance as u64)
    }
}

/// The distance to a place so many bytes back.
pub fn distance_back(count: u64) -> i64
    requires { count < 2 ^ 63 }
    ensures { (place : ℕ) → count ≤ place → Cursor.place_at place result ≡ Some (place - count) }
{
    -(count as i64)
}

/// Whether an error says that the target of a seek is outside the content: `BeforeStart` or `PastEnd`.
pub fn is_outside(error: Error) -> bool
    ensures yes { IsTrue result → Cursor.IsOutside error }
    ensures no { result ≡ false → Cursor.IsOutside error → ⊥ }
{
    match error {
        Error::BeforeStart | Error::PastEnd => true,
        _ => false,
    }
}

/// The error of a seek to bytes that were read before: that they are outside the content is an answer of a broken reader
/// alone, and becomes `Failed`.
pub fn unrefused(error: Error) -> Error
    ensures other { Cursor.IsOutside result → ⊥ }
    ensures same { (Cursor.IsOutside error → ⊥) → result ≡ error }
    ensures failed { Cursor.IsOutside error → result ≡ Failed }
    ensures kept { result ≢ Failed → result ≡ error }
{
    if is_outside(error) {
        Error::Failed
    } else {
        error
    }
}
