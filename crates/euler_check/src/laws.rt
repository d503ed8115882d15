//! Laws of orbits and parts, each the contract of a function that does nothing.

ghost use Rattle.std.specs.Prelude.{◌≡◌, ℤ, IsTrue, List, length, sum_by};
ghost use Rattle.plane_model.specs.Component.{component, components};
ghost use Rattle.plane_model.specs.Orders.{Permutes};
ghost use Rattle.plane_model.specs.PlaneMap.{map_of, ring, rings, signed_edges, until_return};
ghost use Rattle.plane_model.specs.Rotation.{is_rotation};
ghost use Rattle.plane_model.specs.Rows.{Rows};
ghost use Rattle.plane_model.specs.Sets.{is_distinct_edges};
ghost use Rattle.euler_check.specs.Orbits.{orbit_names};

/// The lengths of the orbits of a permutation sum to the number of signed edges, and so do those of rings and of
/// components.
pub fn lengths_sum()
    ensures orbits { (us : List ℤ) (step : ℤ → ℤ) → IsTrue (is_distinct_edges us) → Permutes us step
        → sum_by (λ d. length (until_return (length us) step d d)) (orbit_names us step) ≡ length us }
    ensures rings { (t : Rows) → IsTrue (is_rotation (map_of t))
        → sum_by (λ d. length (ring (map_of t) d)) (rings (map_of t)) ≡ length (signed_edges (map_of t)) }
    ensures components { (t : Rows) → IsTrue (is_rotation (map_of t))
        → sum_by (λ d. length (component (map_of t) d)) (components (map_of t)) ≡ length (signed_edges (map_of t)) }
{}
