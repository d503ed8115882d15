//! Laws of the definitions, each the contract of a function that does nothing.

ghost use Rattle.std.specs.Prelude.{◌≡◌, ℕ, ◌+◌, ◌-◌, ◌*◌, ◌<◌, ◌↔◌, Bool, List, length, IsTrue};
ghost use Rattle.plane_model.specs.Component.{is_plane, is_plane_component};
ghost use Rattle.topo_base.specs.SignedEdge.{reverse};
ghost use Rattle.plane_model.specs.PlaneMap.{next, origin};
ghost use Rattle.rotation_check.specs.Darts.{RotationRows, IsRotation, map_of_rotation, node_id, signed_edge};
ghost use Rattle.spanning_pair.specs.Crossings.{IsFirstCrossing, OthersNest};
ghost use Rattle.spanning_pair.specs.Darts.{InComponent, reverse_dart};
ghost use Rattle.spanning_pair.specs.Rotations.{AreComponentStarts, AreConnected, dart_of, next_dart, node_row};
ghost use Rattle.spanning_pair.specs.Tours.{number_at, flag_at, IsTour};
ghost use Rattle.spanning_pair.specs.Walks.{IsTreeWalk};

/// A rotation's dart is that of its signed edge, its next dart that of the next signed edge, its other dart that of the
/// reverse, and the row of its node has the origin's id.
pub fn darts_of_signed_edges()
    ensures dart { (r : RotationRows) (d : ℕ) → IsRotation r → d < 2 * length r.edges
        → dart_of r.edges (signed_edge r.edges d) ≡ d }
    ensures next { (r : RotationRows) (d : ℕ) → IsRotation r → d < 2 * length r.edges
        → (next_dart r d < 2 * length r.edges)
        × (signed_edge r.edges (next_dart r d) ≡ next (map_of_rotation r) (signed_edge r.edges d)) }
    ensures reverse { (r : RotationRows) (d : ℕ) → d < 2 * length r.edges
        → (reverse_dart d < 2 * length r.edges)
        × (signed_edge r.edges (reverse_dart d) ≡ reverse (signed_edge r.edges d)) }
    ensures node { (r : RotationRows) (d : ℕ) → IsRotation r → d < 2 * length r.edges
        → (node_row r d < length r.nodes)
        × (node_id r.nodes (node_row r d) ≡ origin (map_of_rotation r) (signed_edge r.edges d)) }
{}

/// A dart is in the component of a start exactly where its signed edge is in that of the start's.
pub fn components_of_signed_edges()
    ensures { (r : RotationRows) (start dart : ℕ) → IsRotation r → start < 2 * length r.edges
        → dart < 2 * length r.edges → InComponent (next_dart r) start dart ↔ AreConnected r start dart }
{}

/// Where a first crossing is, two edges that are not of the tree interleave.
pub fn crossed_or_nested()
    ensures { (dart : ℕ → ℕ) (tree : ℕ → Bool) (n closing : ℕ) → IsFirstCrossing dart tree n closing
        → OthersNest dart tree n → ⊥ }
{}

/// The edges of a component's walk that are not of the tree nest exactly where Euler's count of the component is 2, and
/// those of a tour exactly where that of each component is.
pub fn nested_where_plane()
    ensures component { (r : RotationRows) (start : ℕ) (dart : ℕ → ℕ) (tree first : ℕ → Bool) (from to : ℕ)
        → IsRotation r → start < 2 * length r.edges
        → IsTreeWalk (next_dart r) (node_row r) start dart tree first from to
        → OthersNest (λ p. dart (from + p)) (λ p. tree (from + p)) (to - from)
        ↔ IsTrue (is_plane_component (map_of_rotation r) (signed_edge r.edges start)) }
    ensures tour { (r : RotationRows) (starts darts : List ℕ) (tree first : List Bool) (places : List ℕ) → IsRotation r
        → AreComponentStarts r starts
        → IsTour (length r.edges) (next_dart r) (node_row r) starts darts tree first places
        → OthersNest (number_at darts) (flag_at tree) (length darts) ↔ IsTrue (is_plane (map_of_rotation r)) }
{}
