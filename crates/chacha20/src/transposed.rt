//! Rows for columns: eight vectors of eight words, where vector `j` of the result has lane `j` of each.
ghost use Rattle.std.specs.Prelude.{◌≡◌, ◌<◌, ℕ, [], ◌∷◌, slice_index};
ghost use Rattle.chacha20.specs.Lanes.{lane};

use std::simd::u32x8;

/// Words of two vectors by turns: those of lanes 0, 1, 4 and 5, and the others.
#[inline(always)]
fn words_by_turns(a: u32x8, b: u32x8) -> (u32x8, u32x8)
    ensures low { result.0 ≡ slice_index a 0 ∷ slice_index b 0 ∷ slice_index a 1 ∷ slice_index b 1
        ∷ slice_index a 4 ∷ slice_index b 4 ∷ slice_index a 5 ∷ slice_index b 5 ∷ [] }
    ensures high { result.1 ≡ slice_index a 2 ∷ slice_index b 2 ∷ slice_index a 3 ∷ slice_index b 3
        ∷ slice_index a 6 ∷ slice_index b 6 ∷ slice_index a 7 ∷ slice_index b 7 ∷ [] }
{
    (
        a.shuffle(b, [0, 8, 1, 9, 4, 12, 5, 13]),
        a.shuffle(b, [2, 10, 3, 11, 6, 14, 7, 15]),
    )
}

/// Pairs of words of two vectors by turns: the first pair of each half, and the second.
#[inline(always)]
fn pairs_by_turns(a: u32x8, b: u32x8) -> (u32x8, u32x8)
    ensures low { result.0 ≡ slice_index a 0 ∷ slice_index a 1 ∷ slice_index b 0 ∷ slice_index b 1
        ∷ slice_index a 4 ∷ slice_index a 5 ∷ slice_index b 4 ∷ slice_index b 5 ∷ [] }
    ensures high { result.1 ≡ slice_index a 2 ∷ slice_index a 3 ∷ slice_index b 2 ∷ slice_index b 3
        ∷ slice_index a 6 ∷ slice_index a 7 ∷ slice_index b 6 ∷ slice_index b 7 ∷ [] }
{
    (
        a.shuffle(b, [0, 1, 8, 9, 4, 5, 12, 13]),
        a.shuffle(b, [2, 3, 10, 11, 6, 7, 14, 15]),
    )
}

/// Halves of two vectors: the first of each, and the second.
#[inline(always)]
fn halves(a: u32x8, b: u32x8) -> (u32x8, u32x8)
    ensures low { result.0 ≡ slice_index a 0 ∷ slice_index a 1 ∷ slice_index a 2 ∷ slice_index a 3
        ∷ slice_index b 0 ∷ slice_index b 1 ∷ slice_index b 2 ∷ slice_index b 3 ∷ [] }
    ensures high { result.1 ≡ slice_index a 4 ∷ slice_index a 5 ∷ slice_index a 6 ∷ slice_index a 7
        ∷ slice_index b 4 ∷ slice_index b 5 ∷ slice_index b 6 ∷ slice_index b 7 ∷ [] }
{
    (
        a.shuffle(b, [0, 1, 2, 3, 8, 9, 10, 11]),
        a.shuffle(b, [4, 5, 6, 7, 12, 13, 14, 15]),
    )
}

/// Rows for columns: first words are put beside each other, then pairs of words, then halves of vectors.
#[inline(always)]
pub fn transposed(columns: &[u32x8; 8]) -> [u32x8; 8]
    ensures { (j k : ℕ) → j < 8 → k < 8 → slice_index (lane k result) j ≡ slice_index (lane j columns.now) k }
{
    let (rows_0145_of_01, rows_2367_of_01) = words_by_turns(columns[0], columns[1]);
    let (rows_0145_of_23, rows_2367_of_23) = words_by_turns(columns[2], columns[3]);
    let (rows_0145_of_45, rows_2367_of_45) = words_by_turns(columns[4], columns[5]);
    let (rows_0145_of_67, rows_2367_of_67) = words_by_turns(columns[6], columns[7]);
    let (left_04, left_15) = pairs_by_turns(rows_0145_of_01, rows_0145_of_23);
    let (left_26, left_37) = pairs_by_turns(rows_2367_of_01, rows_2367_of_23);
    let (right_04, right_15) = pairs_by_turns(rows_0145_of_45, rows_0145_of_67);
    let (right_26, right_37) = pairs_by_turns(rows_2367_of_45, rows_2367_of_67);
    let (zeroth, fourth) = halves(left_04, right_04);
    let (first, fifth) = halves(left_15, right_15);
    let (second, sixth) = halves(left_26, right_26);
    let (third, seventh) = halves(left_37, right_37);
    [zeroth, first, second, third, fourth, fifth, sixth, seventh]
}
