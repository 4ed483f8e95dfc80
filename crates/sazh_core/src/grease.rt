//! Grease.
ghost use Rattle.std.specs.Prelude.{◌≡◌, [], codes, IfOk, IfErr};
ghost use Rattle.age.specs.EncryptErrors.{encrypt_refusal, OutOfMemory};

use age::EncryptError;
use age::format::{Grease, Stanza};
use std::alloc::Global;

/// The stanza of grease that files of the program have: the tag `sazh-grease`, no arguments and no body.
///
/// `OutOfMemory` where memory is refused.
pub fn grease(alloc: Global) -> Result<Grease, EncryptError>
    ensures value { IfOk result (λ grease. grease ≡ record { tag = codes "sazh-grease"; args = []; body = [] }) }
    ensures memory { IfErr result (λ e. encrypt_refusal e ≡ OutOfMemory) }
{
    let tag = String::from_str(alloc, "sazh-grease")?;
    let Some(stanza) = Stanza::new(tag, Vec::new(alloc), Vec::new(alloc)) else {
        // The tag is a string of the format.
        unreachable!();
    };
    match Grease::new(stanza) {
        Some(grease) => Ok(grease),
        // It ends in `-grease`.
        None => unreachable!(),
    }
}
