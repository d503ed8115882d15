//! Pairs of points on a cycle: they nest exactly where the step to the point after the mate has as many orbits as it
//! can have. Each law is the contract of a function that does nothing.
#![tactic(auto)]

ghost use Rattle.std.specs.Prelude.{◌≡◌, ◌≢◌, ℕ, ◌+◌, ◌*◌, ◌<◌, ◌≤◌, ◌↔◌, List, [], ◌∷◌, length, get_or};
ghost use Rattle.cycle_pairs.specs.Pairs.{IsPairing, pairs, Nests, after_mate, colours, IsKept, least_of, orbits, Meet, IsPermuted};

/// The step to the point after the mate permutes the points.
pub fn steps_permute()
    ensures { (n : ℕ) (mate : ℕ → ℕ) → IsPairing n mate → IsPermuted n (after_mate n mate) }
{}

/// Two points lie in one orbit exactly where their orbits have one least point, so `orbits` counts the orbits.
pub fn least_points_tell_orbits()
    ensures { (n : ℕ) (step : ℕ → ℕ) (i j : ℕ) → IsPermuted n step → i < n → j < n
        → Meet step i j ↔ (least_of step n i ≡ least_of step n j) }
{}

/// A list of different colours that points have is no longer than `colours` counts, and one that has all of them is no
/// shorter.
pub fn listed_colours()
    ensures few { (colour : ℕ → ℕ) (n : ℕ) (listed : List ℕ)
        → ((k : ℕ) → k < length listed → (i : ℕ) × (i < n) × (colour i ≡ get_or listed k 0))
        → ((j k : ℕ) → j < k → k < length listed → get_or listed j 0 ≢ get_or listed k 0)
        → length listed ≤ colours colour n }
    ensures all { (colour : ℕ → ℕ) (n : ℕ) (listed : List ℕ)
        → ((i : ℕ) → i < n → (k : ℕ) × (k < length listed) × (get_or listed k 0 ≡ colour i))
        → colours colour n ≤ length listed }
{}

/// Where a step keeps the colour, and points of one colour lie in one orbit, there are as many colours as orbits.
pub fn colours_of_orbits()
    ensures { (n : ℕ) (step colour : ℕ → ℕ) → IsPermuted n step → ((i : ℕ) → i < n → colour (step i) ≡ colour i)
        → ((i j : ℕ) → i < n → j < n → colour i ≡ colour j → Meet step i j) → colours colour n ≡ orbits n step }
{}

/// The step keeps at most one colour more than there are pairs, and where it keeps so many, the pairs nest.
pub fn most_colours_nest()
    ensures few { (n : ℕ) (mate colour : ℕ → ℕ) → IsPairing n mate → IsKept n mate colour
        → colours colour n ≤ pairs mate n + 1 }
    ensures nests { (n : ℕ) (mate colour : ℕ → ℕ) → IsPairing n mate → IsKept n mate colour
        → pairs mate n + 1 ≤ colours colour n → Nests n mate }
{}

/// The step has at most one orbit more than there are pairs, and has so many exactly where the pairs nest.
pub fn most_orbits_nest()
    ensures few { (n : ℕ) (mate : ℕ → ℕ) → IsPairing n mate → orbits n (after_mate n mate) ≤ pairs mate n + 1 }
    ensures nests { (n : ℕ) (mate : ℕ → ℕ)
        → IsPairing n mate → 0 < n → Nests n mate ↔ (orbits n (after_mate n mate) ≡ pairs mate n + 1) }
{}

/// Where each of 2 * g points has a mate there are g pairs, and they nest exactly where the step has g + 1 orbits.
pub fn whole_pairings_nest()
    ensures half { (g : ℕ) (mate : ℕ → ℕ) → IsPairing (2 * g) mate → ((i : ℕ) → i < 2 * g → mate i ≢ i)
        → pairs mate (2 * g) ≡ g }
    ensures nests { (g : ℕ) (mate : ℕ → ℕ) → IsPairing (2 * g) mate → ((i : ℕ) → i < 2 * g → mate i ≢ i) → 0 < g
        → Nests (2 * g) mate ↔ (orbits (2 * g) (after_mate (2 * g) mate) ≡ g + 1) }
{}

/// Pairs among some points of a larger permutation nest where each of its orbits has such a point, the permutation
/// leads from each to where the step leads, and it has one orbit more than there are pairs.
pub fn pairs_of_a_permutation_nest()
    ensures { (m n : ℕ) (next mate at : ℕ → ℕ) → IsPermuted m next → IsPairing n mate → ((i : ℕ) → i < n → at i < m)
        → ((i : ℕ) → i < n → Meet next (at (after_mate n mate i)) (at i))
        → ((d : ℕ) → d < m → (i : ℕ) × (i < n) × Meet next (at i) d) → pairs mate n + 1 ≤ orbits m next → Nests n mate }
{}

/// Two pairs side by side, one within the other, and interleaved; and a pair beside a point that has no mate.
pub fn small_pairings()
    ensures side_by_side { orbits 4 (after_mate 4 (λ i. get_or (1 ∷ 0 ∷ 3 ∷ 2 ∷ []) i 0)) ≡ 3 }
    ensures within { orbits 4 (after_mate 4 (λ i. get_or (3 ∷ 2 ∷ 1 ∷ 0 ∷ []) i 0)) ≡ 3 }
    ensures interleaved { orbits 4 (after_mate 4 (λ i. get_or (2 ∷ 3 ∷ 0 ∷ 1 ∷ []) i 0)) ≡ 1 }
    ensures alone { orbits 3 (after_mate 3 (λ i. get_or (1 ∷ 0 ∷ 2 ∷ []) i 0)) ≡ 2 }
{}
