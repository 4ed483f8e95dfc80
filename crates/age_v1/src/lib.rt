//! The definition of age-encryption.org/v1, section by section, on whole lists of bytes. No code runs here: the code is in the crates above.
//!
//! A file of `specs/` for each section of the standard, with what it asks under "standard", in our words:
//!
//! - `Stanza`, `Header`, `HeaderMac`: the recipient stanza, the header and its MAC.
//! - `Payload`, `File`: chunks, nonces and the payload; the file.
//! - `Armor`: the armor, and what text carries which file.
//! - `Recipients`, `Encrypting`, `Identities`: what recipients and identities come to, in their order.
//! - `RecipientType`, `X25519`, `Scrypt`: the native types.
//! - `Claims`: what a success of the calls on whole files says.
//!
//! The other files of `specs/` say what a reader makes of any bytes, which no section asks: which texts are read and which of them
//! decides (`HeaderTexts`, `HeaderVerdict`), what a payload or an armor delivers and why it is refused (`DeliveredPayload`, `PayloadAnswers`,
//! `PayloadRefusals`, `PayloadTargets`, `DeliveredArmor`, `ArmorLineVerdict`, `ArmorFirstFault`, `ArmorFullLines`), which identities belong to a
//! recipient (`Belonging`), and what is true of payloads (`PayloadLaws`). What follows from all of them stands in `proofs/`.
#![tactic(auto)]

pub mod format;

pub use format::Format;
