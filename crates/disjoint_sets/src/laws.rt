//! Laws of sets and their numbers, each the contract of a function that does nothing.

ghost use Rattle.std.specs.Prelude.{◌≡◌, ◌<◌, ◌↔◌, ◌⊎◌, ℕ, List, length, slice_index};
ghost use Rattle.std.specs.List.{range_with_len};
ghost use Rattle.disjoint_sets.specs.Sets.{AreSets, joined, numbered};

/// Numbers alone are sets, and so are sets of which two are joined, with as many members.
pub fn are_sets()
    ensures alone { (count : ℕ) → AreSets (range_with_len 0 count) }
    ensures joined { (leasts : List ℕ) (a b : ℕ) → AreSets leasts → a < length leasts → b < length leasts
        → AreSets (joined leasts a b) }
    ensures length { (leasts : List ℕ) (a b : ℕ) → length (joined leasts a b) ≡ length leasts }
{}

/// After `a` and `b` are joined, two members are of one set exactly where they were before, or where one was with `a`
/// and the other with `b`.
pub fn joined_members()
    ensures { (leasts : List ℕ) (a b i j : ℕ) → i < length leasts → j < length leasts
        → (slice_index (joined leasts a b) i ≡ slice_index (joined leasts a b) j)
        ↔ ((slice_index leasts i ≡ slice_index leasts j)
        ⊎ (((slice_index leasts i ≡ slice_index leasts a) × (slice_index leasts j ≡ slice_index leasts b))
        ⊎ ((slice_index leasts i ≡ slice_index leasts b) × (slice_index leasts j ≡ slice_index leasts a)))) }
{}

/// Two members have one number exactly where they are of one set. Each number is below the count and is that of a
/// least member, and rises with these.
pub fn numbers_of_sets()
    ensures length { (leasts : List ℕ) → length (numbered leasts).of_members ≡ length leasts }
    ensures same { (leasts : List ℕ) (i j : ℕ) → AreSets leasts → i < length leasts → j < length leasts
        → (slice_index (numbered leasts).of_members i ≡ slice_index (numbered leasts).of_members j)
        ↔ (slice_index leasts i ≡ slice_index leasts j) }
    ensures below { (leasts : List ℕ) (i : ℕ) → AreSets leasts → i < length leasts
        → slice_index (numbered leasts).of_members i < (numbered leasts).count }
    ensures each { (leasts : List ℕ) (k : ℕ) → k < (numbered leasts).count
        → (i : ℕ) × (i < length leasts) × (slice_index leasts i ≡ i)
        × (slice_index (numbered leasts).of_members i ≡ k) }
    ensures order { (leasts : List ℕ) (i j : ℕ) → j < length leasts → slice_index leasts i ≡ i
        → slice_index leasts j ≡ j → i < j
        → slice_index (numbered leasts).of_members i < slice_index (numbered leasts).of_members j }
{}
