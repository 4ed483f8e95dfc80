//! The engines.

ghost use Rattle.age_base64.specs.Engine.{IsArmorEngine, IsHeaderEngine};

use base64::engine::general_purpose::{GeneralPurpose, STANDARD, STANDARD_NO_PAD};

// The tables of both stand in the program: to make them anew takes longer than a line's base64.
const HEADER: GeneralPurpose = STANDARD_NO_PAD;

const ARMOR: GeneralPurpose = STANDARD;

/// The base64 of headers: canonical, without padding.
#[tactic(auto, using(crate::proofs::Engines::unpadded_is_header))]
pub fn header_engine() -> GeneralPurpose
    ensures { IsHeaderEngine result }
{
    HEADER
}

/// The base64 of armor: canonical, with padding.
#[tactic(auto, using(crate::proofs::Engines::padded_is_armor))]
pub fn armor_engine() -> GeneralPurpose
    ensures { IsArmorEngine result }
{
    ARMOR
}
