//! The system's random bytes.
ghost use Rattle.std.specs.Prelude.{◌≡◌, length, MatchOption, ⊤};

use sazh_core::error::RandomError;
use sazh_core::random::RandomBytes;
use std::random::RandomSource;

/// The system, as a source of random bytes. Of what it gives no more is known than how many bytes they are.
#[derive(Clone, Copy)]
pub struct System<'a> {
    rt: &'a HostRuntime,
}

impl<'a> System<'a> {
    /// The system that the program runs on.
    pub fn new(rt: &'a HostRuntime) -> System<'a> {
        System { rt }
    }
}

impl<'a> RandomBytes for System<'a> {
    ghost gives = { λ _ count given _. MatchOption given ⊤ (λ bytes. length bytes ≡ count) };

    /// Fills all of `room`. `NoRandom` where the system refuses.
    fn fill(&mut self, room: &mut [u8]) -> Result<(), RandomError> {
        match self.rt.fill_bytes(room) {
            Ok(()) => Ok(()),
            Err(_) => Err(RandomError::NoRandom),
        }
    }
}
