//! Laws of the parts that are made, each the contract of a function that does nothing.

ghost use Rattle.std.specs.Prelude.{ℕ, ◌≡◌, ◌<◌, ◌≤◌, ◌+◌, ◌^◌, List, [], ◌∷◌, length, map, slice_index, true, false, Some, None};
ghost use Rattle.bit_words.specs.Bits.{rank};
ghost use Rattle.bit_words.specs.Digits.{digits};
ghost use Rattle.id_names.specs.Cycles.{IsPlacePermutation, marks_of, marked, back_pointers};
ghost use Rattle.id_names.specs.Inverse.{number_at};
ghost use Rattle.id_names.specs.Making.{made, spacing, places_of, rising, high_bits};

/// The parts have the sizes that names ask for: `HasSizes` of what holds them.
pub fn sizes_of_made()
    ensures high { (low : ℕ) (ids : List ℕ)
        → ((k : ℕ) → k < length ids → slice_index ids k < 2 ^ (digits (length ids) + low))
        → length (made low ids).high ≡ length ids + 2 ^ digits (length ids) }
    ensures lows { (low : ℕ) (ids : List ℕ) → length (made low ids).lows ≡ length ids }
    ensures places { (low : ℕ) (ids : List ℕ) → length (made low ids).places ≡ length ids }
    ensures marks { (low : ℕ) (ids : List ℕ) → length (made low ids).marks ≡ length ids }
    ensures back { (low : ℕ) (ids : List ℕ)
        → rank true (made low ids).marks (length (made low ids).marks) ≡ length (made low ids).back }
{}

/// In a permutation whose long cycles are marked, the walk from the place of each number comes to it.
pub fn walks_in_cycles()
    ensures { (places : List ℕ) → IsPlacePermutation places → (k : ℕ) → k < length places
        → number_at places (marked places (spacing (length places))) (back_pointers places (spacing (length places)))
        (slice_index places k) ≡ Some k }
{}

/// What is made of a few ids, by hand.
pub fn made_by_hand()
    ensures places { places_of (2 ∷ 1 ∷ 3 ∷ []) ≡ 1 ∷ 0 ∷ 2 ∷ [] }
    ensures rising { rising (2 ∷ 1 ∷ 3 ∷ []) ≡ 1 ∷ 2 ∷ 3 ∷ [] }
    ensures high { high_bits 1 (5 ∷ 2 ∷ 3 ∷ []) ≡ false ∷ true ∷ true ∷ false ∷ true ∷ false ∷ false ∷ [] }
    ensures spacing { map spacing (1 ∷ 4 ∷ 6 ∷ 13 ∷ 14 ∷ 100 ∷ []) ≡ 2 ∷ 3 ∷ 4 ∷ 4 ∷ 1 ∷ 1 ∷ [] }
    ensures marks { marks_of (1 ∷ 2 ∷ 3 ∷ 4 ∷ 0 ∷ []) 2 ≡ Some 4 ∷ None ∷ Some 0 ∷ None ∷ Some 2 ∷ [] }
    ensures all { marks_of (1 ∷ 2 ∷ 0 ∷ 3 ∷ []) 1 ≡ Some 2 ∷ Some 0 ∷ Some 1 ∷ None ∷ [] }
    ensures short { marks_of (1 ∷ 0 ∷ 3 ∷ 2 ∷ []) 2 ≡ None ∷ None ∷ None ∷ None ∷ [] }
    ensures back { back_pointers (1 ∷ 2 ∷ 3 ∷ 4 ∷ 0 ∷ []) 2 ≡ 4 ∷ 0 ∷ 2 ∷ [] }
{}
