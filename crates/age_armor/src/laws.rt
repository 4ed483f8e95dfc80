//! The theorems on armor: those that hold of the format itself, and what a writer has sent. Each is a function that does nothing, with the
//! theorem as its contract.

ghost use Rattle.std.specs.Prelude.{◌≡◌, ◌++◌, ◌+◌, ◌*◌, ◌/◌, ◌⊎◌, List, ◌∷◌, length, ℕ, Bool, true};
ghost use Rattle.std.specs.Str.{IsUtf8};
ghost use Rattle.age_base64.specs.Base64.{padded_columns};
ghost use Rattle.age_error.specs.Bytes.{AreBytes};
ghost use Rattle.age_error.specs.declared.io.Error.{Error as Refusal};
ghost use Rattle.age_v1.specs.Armor.{armor, armor_lines, begin_marker, AreEndedLines, Carries, IsArmorEnd};
ghost use Rattle.age_v1.specs.ArmorLineVerdict.{IsLineVerdict, LineVerdict, verdict};
ghost use Rattle.age_v1.specs.DeliveredArmor.{text_delivers, Clean, Refused};
ghost use Rattle.age_v1.specs.ArmorFirstFault.{IsFirstFault};
ghost use Rattle.age_armor.specs.Writing.{SendsFrontOfText, SendsText};

use crate::writer::ArmoredWriter;
use age_io::Write;

/// Each line has exactly one verdict: the case that the tests of a line, in their order, come to.
///
/// `one`: the tests give a verdict whose meaning holds. `unique`: no other verdict's meaning holds.
pub fn verdict_is_unique()
    ensures one { (after_short : Bool) (raw : List ℕ) → IsLineVerdict after_short raw (verdict after_short raw) }
    ensures unique { (after_short : Bool) (raw : List ℕ) (v : LineVerdict) → IsLineVerdict after_short raw v → verdict after_short raw ≡ v }
{}

/// Every list of bytes has an armor that carries it.
///
/// `itself`: its armor, with LF after each line. `ended`: the same lines with CRLF after any of them, with or without the
/// last line ending, and with white space after that ending.
pub fn armor_is_carrying()
    ensures itself { (bytes : List ℕ) → AreBytes bytes → Carries (armor bytes) bytes }
    ensures ended { (bytes front end : List ℕ) → AreBytes bytes → AreEndedLines (begin_marker ∷ armor_lines (padded_columns bytes)) front
        → IsArmorEnd end → Carries (front ++ end) bytes }
{}

/// The armor of n bytes has 68 bytes for the two markers with their LF, 4 columns for each 3 bytes begun, and an LF for each
/// 48 bytes begun.
pub fn armor_length()
    ensures { (bytes : List ℕ) → length (armor bytes) ≡ 68 + 4 * ((length bytes + 2) / 3) + (length bytes + 47) / 48 }
{}

/// Armor is a text: its bytes are UTF-8, all of them ASCII.
pub fn armor_is_text()
    ensures { (bytes : List ℕ) → IsUtf8 (armor bytes) }
{}

/// A text carries at most one list of bytes.
pub fn carried_is_unique()
    ensures { (text bytes others : List ℕ) → Carries text bytes → Carries text others → bytes ≡ others }
{}

/// A text that carries bytes delivers them and then a clean end.
pub fn carried_is_delivered()
    ensures { (text bytes : List ℕ) → Carries text bytes → text_delivers text true ≡ record { bytes = bytes; ending = Clean } }
{}

/// A text of bytes that delivers a list and then a clean end carries that list.
pub fn delivered_is_carried()
    ensures { (text bytes : List ℕ) → AreBytes text → text_delivers text true ≡ record { bytes = bytes; ending = Clean } → Carries text bytes }
{}

/// A text of bytes carries a list or has a first fault, never both.
///
/// `either`: one of the two holds. `exclusive`: not both. `unique`: a text has at most one first fault, after one list of
/// bytes. `text_delivers`: those bytes are what it delivers, and then that fault.
pub fn first_fault_is_unique()
    ensures either { (text : List ℕ) → AreBytes text
        → ((bytes : List ℕ) × Carries text bytes) ⊎ ((bytes : List ℕ) × (e : Refusal) × IsFirstFault text bytes e) }
    ensures exclusive { (text bytes others : List ℕ) (e : Refusal) → Carries text bytes → IsFirstFault text others e → ⊥ }
    ensures unique { (text bytes others : List ℕ) (e f : Refusal) → IsFirstFault text bytes e → IsFirstFault text others f
        → (bytes ≡ others) × (e ≡ f) }
    ensures delivered { (text bytes : List ℕ) (e : Refusal) → IsFirstFault text bytes e
        → text_delivers text true ≡ record { bytes = bytes; ending = Refused e } }
{}

/// What a writer has sent that was made in a form over an inner writer, and was given bytes since by writes and flushes of any number, also
/// by calls that are generic over the writer. All of it is told from before the writer was made.
///
/// `given`: where it hasn't failed and was then given more by one write, whatever that answered, the inner writer was given a beginning of
/// the text that carries both. `SendsFront` is the clause `sent` of `write`. `sent`: whatever became of it, the inner writer has a beginning
/// of the text that carries the bytes that it was given, and of each text that carries more after them. Where a write failed, the first of
/// its bytes are among them, as many as `takes_part` of `Writes` says, and the others may come after them.
pub fn sent_law<W: Write>()
    ensures given { SendsText W.appended ⟦<ArmoredWriter<W> as Write>⟧.appended }
    ensures sent { SendsFrontOfText W.appended ⟦<ArmoredWriter<W> as Write>⟧.appended }
{}
