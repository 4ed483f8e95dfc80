//! Laws of the cursor on a list, for proofs alone: the function here does nothing, and its contract is the laws.
ghost use Rattle.std.specs.Prelude.{◌≡◌, ℕ, ◌+◌, ◌≤◌, ◌<◌, ◌++◌, [], ◌∷◌, List, length, take, drop, Ok, Err, IfErr, pos, negsuc};
ghost use Rattle.age_io.specs.Cursor.{sought, IsOutside};
ghost use Rattle.age_io.specs.Replies.{replies, place_after_all, at, gave};

use crate::operations::Op;
use age_error::io::{Error, SeekFrom};

/// What is true of a cursor that reads and seeks in a list of bytes.
///
/// - `start`, `here`, `end`: a seek leads to a target within the content, to where it stands, to the end.
/// - `past`, `before`: above the length it is refused with `PastEnd`, below 0 with `BeforeStart`.
/// - `within`, `refused`: a seek leads into the content, or is refused with one of the two.
/// - `stays`: whatever is done, the place stays in the content.
/// - `parts`: the replies to two lists are those to the first and, from where that leads, those to the second.
/// - `reads`: two reads in a row give what one read of both sizes gives.
/// - `read_at`: after a seek into the content a read gives what stands there.
pub fn cursor_laws()
    ensures start { (n place len : ℕ) → n ≤ len → sought (SeekFrom.Start n) place len ≡ Ok n }
    ensures here { (place len : ℕ) → place ≤ len → sought (SeekFrom.Current (pos 0)) place len ≡ Ok place }
    ensures end { (place len : ℕ) → sought (SeekFrom.End (pos 0)) place len ≡ Ok len }
    ensures past { (n place len : ℕ) → len < n → sought (SeekFrom.Start n) place len ≡ Err Error.PastEnd }
    ensures before { (k place len : ℕ) → place ≤ k → sought (SeekFrom.Current (negsuc k)) place len ≡ Err Error.BeforeStart }
    ensures within { (to : SeekFrom) (place len n : ℕ) → sought to place len ≡ Ok n → n ≤ len }
    ensures refused { (to : SeekFrom) (place len : ℕ) → IfErr (sought to place len) IsOutside }
    ensures stays { (ops : List Op) (content : List ℕ) (place : ℕ) → place ≤ length content →
        place_after_all ops content place ≤ length content }
    ensures parts { (first second : List Op) (content : List ℕ) (place : ℕ) → replies (first ++ second) content place
        ≡ replies first content place ++ replies second content (place_after_all first content place) }
    ensures reads { (m n : ℕ) (content : List ℕ) (place : ℕ) →
        take m (drop place content) ++ take n (drop (place_after_all (Op.Read m ∷ []) content place) content)
        ≡ take (m + n) (drop place content) }
    ensures read_at { (n count : ℕ) (content : List ℕ) (place : ℕ) → n ≤ length content →
        replies (Op.Seek (SeekFrom.Start n) ∷ Op.Read count ∷ []) content place
        ≡ at n ∷ gave (take count (drop n content)) ∷ [] }
{}
