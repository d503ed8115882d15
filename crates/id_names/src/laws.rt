//! Laws of names, each the contract of a function that does nothing.

ghost use Rattle.std.specs.Prelude.{◌≡◌, ◌≢◌, ◌<◌, ◌≤◌, ◌↔◌, ℕ, Bool, List, length, slice_index, Some, None, IsTrue, IsFalse, true};
ghost use Rattle.bit_words.specs.Bits.{rank};
ghost use Rattle.rank_select.specs.Counts.{counts_of};
ghost use Rattle.id_names.specs.Names.{AreDistinct, AreDistinctIds, number_of, is_names};
ghost use Rattle.id_names.specs.RisingNames.{RisingNames, count, id_bound, id_at, number_at, ids_by_number};
ghost use Rattle.id_names.specs.Faults.{name_fault, is_rising, is_ordered, wrong_count};
ghost use Rattle.id_names.specs.declared.fault.NameFault.TheVariants.{HighCounts, Ones, Rising, MarkCounts, MarkOnes, Order};

/// Numbers and ids are each other's inverse: a number that is found has the id, an id that is not found is no
/// number's, and each number of distinct ids is found by its id.
pub fn numbers_and_ids()
    ensures found { (ids : List ℕ) (id number : ℕ) → number_of ids id ≡ Some number
        → (number < length ids) × (slice_index ids number ≡ id) }
    ensures missing { (ids : List ℕ) (id : ℕ) → number_of ids id ≡ None → (k : ℕ) → k < length ids
        → slice_index ids k ≢ id }
    ensures inverse { (ids : List ℕ) → AreDistinct ids → (k : ℕ) → k < length ids
        → number_of ids (slice_index ids k) ≡ Some k }
{}

/// Whether ids are distinct and below a bound is a test.
pub fn distinct_ids()
    ensures test { (bound : ℕ) (ids : List ℕ) → IsTrue (is_names bound ids) ↔ AreDistinctIds bound ids }
{}

/// Parts without fault are a finite bijection: each number has a place of its own, each place is a number's, and the
/// walk from a place comes to the number whose place it is.
pub fn numbers_and_places()
    ensures place { (p : RisingNames) (high_counts mark_counts : List ℕ) → name_fault p high_counts mark_counts ≡ None
        → (k : ℕ) → k < count p → (slice_index p.places k < count p) × (number_at p (slice_index p.places k) ≡ Some k) }
    ensures number { (p : RisingNames) (high_counts mark_counts : List ℕ) → name_fault p high_counts mark_counts ≡ None
        → (j : ℕ) → j < count p → (k : ℕ) × (number_at p j ≡ Some k) × (k < count p) × (slice_index p.places k ≡ j) }
    ensures one { (p : RisingNames) (high_counts mark_counts : List ℕ) → name_fault p high_counts mark_counts ≡ None
        → (j k : ℕ) → j < count p → k < count p → slice_index p.places j ≡ slice_index p.places k → j ≡ k }
{}

/// Their ids rise from place to place, are in range, and no two are the same; each is found by its number, and each
/// number by its id.
pub fn ids_without_fault()
    ensures rising { (p : RisingNames) (high_counts mark_counts : List ℕ) → name_fault p high_counts mark_counts ≡ None
        → (i j : ℕ) → i < j → j < count p → id_at p i < id_at p j }
    ensures in_range { (p : RisingNames) (high_counts mark_counts : List ℕ)
        → name_fault p high_counts mark_counts ≡ None → (j : ℕ) → j < count p
        → (1 ≤ id_at p j) × (id_at p j < id_bound p) }
    ensures ids { (p : RisingNames) (high_counts mark_counts : List ℕ) → name_fault p high_counts mark_counts ≡ None
        → (k : ℕ) → k < count p → slice_index (ids_by_number p) k ≡ id_at p (slice_index p.places k) }
    ensures right { (p : RisingNames) (high_counts mark_counts : List ℕ) → name_fault p high_counts mark_counts ≡ None
        → AreDistinctIds (id_bound p) (ids_by_number p) }
    ensures found { (p : RisingNames) (high_counts mark_counts : List ℕ) → name_fault p high_counts mark_counts ≡ None
        → (k : ℕ) → k < count p → number_of (ids_by_number p) (id_at p (slice_index p.places k)) ≡ Some k }
{}

/// Each fault says what is first wrong: the first wrong entry of a directory, another number of ones, the least place
/// whose id does not rise or is out of range, the least number that is not found from its place.
pub fn first_name_fault()
    ensures high_counts { (p : RisingNames) (high_counts mark_counts : List ℕ) (at : ℕ)
        → name_fault p high_counts mark_counts ≡ Some (HighCounts at) → wrong_count p.high high_counts ≡ Some at }
    ensures ones { (p : RisingNames) (high_counts mark_counts : List ℕ) (found : ℕ)
        → name_fault p high_counts mark_counts ≡ Some (Ones found)
        → (found ≡ rank true p.high (length p.high)) × (found ≢ count p) }
    ensures rising { (p : RisingNames) (high_counts mark_counts : List ℕ) (at : ℕ)
        → name_fault p high_counts mark_counts ≡ Some (Rising at)
        → (at < count p) × IsFalse (is_rising (id_bound p) (id_at p) at)
        × ((k : ℕ) → k < at → IsTrue (is_rising (id_bound p) (id_at p) k)) }
    ensures mark_counts { (p : RisingNames) (high_counts mark_counts : List ℕ) (at : ℕ)
        → name_fault p high_counts mark_counts ≡ Some (MarkCounts at) → wrong_count p.marks mark_counts ≡ Some at }
    ensures mark_ones { (p : RisingNames) (high_counts mark_counts : List ℕ) (found : ℕ)
        → name_fault p high_counts mark_counts ≡ Some (MarkOnes found)
        → (found ≡ rank true p.marks (length p.marks)) × (found ≢ length p.back) }
    ensures order { (p : RisingNames) (high_counts mark_counts : List ℕ) (at : ℕ)
        → name_fault p high_counts mark_counts ≡ Some (Order at)
        → (at < count p) × IsFalse (is_ordered p.places (number_at p) at)
        × ((k : ℕ) → k < at → IsTrue (is_ordered p.places (number_at p) k)) }
    ensures wrong { (bits : List Bool) (counts : List ℕ) (at : ℕ) → wrong_count bits counts ≡ Some at
        → (at < length (counts_of bits)) × (slice_index counts at ≢ slice_index (counts_of bits) at)
        × ((k : ℕ) → k < at → slice_index counts k ≡ slice_index (counts_of bits) k) }
{}
