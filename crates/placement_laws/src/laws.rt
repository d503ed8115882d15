//! What the definitions of rings, components and faces say, each law the contract of a function that does nothing.

ghost use Rattle.std.specs.Prelude.{◌≡◌, ◌+◌, ◌⊎◌, ◌↔◌, ℕ, ℤ, pos, nat_lt, IsTrue, IsFalse, List, [], ◌∷◌, ◌++◌, Some, None, length, slice_get};
ghost use Rattle.std.specs.List.{list_all};
ghost use Rattle.topo_base.specs.SignedEdge.{same_edge};
ghost use Rattle.plane_model.specs.declared.rows.FaceRow.{FaceRow};
ghost use Rattle.plane_model.specs.Rows.{Rows};
ghost use Rattle.plane_model.specs.Sets.{has, has_edge, is_distinct_edges};
ghost use Rattle.plane_model.specs.PlaneMap.{map_of, signed_edges, side, ring, rings, smallest};
ghost use Rattle.plane_model.specs.Rotation.{is_rotation, is_rotation_system};
ghost use Rattle.plane_model.specs.InRange.{is_in_range};
ghost use Rattle.plane_model.specs.Component.{component, components};
ghost use Rattle.plane_model.specs.Faces.{is_labelled, is_placed, is_reached, is_outer, outer_ring, outer_rings};
ghost use Rattle.plane_model.specs.Lists.{shell};
ghost use Rattle.plane_model.specs.Orders.{is_rising_edges};
ghost use Rattle.plane_model.specs.Worked.{island, minus};
ghost use Rattle.placement_laws.specs.Placing.{IsLabelledRotation, IsPlacing, IsShellOfEarlier, LiesInEarlier};
ghost use Rattle.placement_laws.specs.Connected.{IsClosedAlongRings, EachClosedHas, EachClosedHasAll, IsTree, cut_off};
ghost use Rattle.placement_laws.specs.PlacedSoFar.{IsPlacedSoFar, IsNextFront, round_starts};

/// Tables that are in range and are a labelled rotation system meet what the laws ask.
pub fn labelled_rotation()
    ensures { (t : Rows) → IsTrue (is_in_range t) → IsTrue (is_rotation_system t) → IsTrue (is_labelled (map_of t))
        → IsLabelledRotation t }
{}

/// A worked map meets what the laws ask: a triangle with a closed edge in its face.
pub fn worked_island()
    ensures labelled { IsLabelledRotation island }
    ensures placed { IsTrue (is_placed (map_of island)) }
    ensures outer { outer_rings (map_of island) ≡ minus 1 ∷ minus 4 ∷ [] }
    ensures shells { (shell (map_of island) 1 ≡ Some (pos 1)) × (shell (map_of island) 2 ≡ Some (pos 4)) }
{}

/// The signed edges of a ring lie on one face and in one component, and its smallest names it.
pub fn rings_of()
    ensures named { (t : Rows) (d : ℤ) → IsLabelledRotation t → let m = map_of t in let name = smallest d (ring m d)
        in IsTrue (has_edge (signed_edges m) d)
        → IsTrue (has_edge (rings m) name) × IsTrue (has_edge (ring m d) name) × IsTrue (has_edge (component m d) name)
        × (side m name ≡ side m d) }
    ensures one_name { (t : Rows) (d e : ℤ) → IsLabelledRotation t → let m = map_of t
        in IsTrue (has_edge (signed_edges m) d) → IsTrue (has_edge (ring m d) e)
        → IsTrue (has_edge (signed_edges m) e) × (smallest e (ring m e) ≡ smallest d (ring m d)) × (side m e ≡ side m d)
        × IsTrue (has_edge (component m d) e) }
    ensures alike { (t : Rows) (d e : ℤ) → IsLabelledRotation t → let m = map_of t
        in IsTrue (has_edge (signed_edges m) d) → IsTrue (has_edge (signed_edges m) e)
        → has_edge (ring m d) e ≡ same_edge (smallest d (ring m d)) (smallest e (ring m e)) }
    ensures differ { (t : Rows) (r q : ℤ) → IsLabelledRotation t → let m = map_of t in IsTrue (has_edge (rings m) r)
        → IsTrue (has_edge (rings m) q) → IsTrue (has_edge (ring m r) q) → r ≡ q }
    ensures apart { (t : Rows) → IsLabelledRotation t → IsTrue (is_distinct_edges (rings (map_of t))) }
{}

/// Each signed edge is in one component, and the component's smallest names it.
pub fn components_of()
    ensures holds { (t : Rows) (d : ℤ) → IsLabelledRotation t → let m = map_of t
        in let name = smallest d (component m d) in IsTrue (has_edge (signed_edges m) d)
        → IsTrue (has_edge (component m d) d) × IsTrue (has_edge (components m) name)
        × IsTrue (has_edge (component m d) name) }
    ensures same { (t : Rows) (d e : ℤ) → IsLabelledRotation t → let m = map_of t
        in IsTrue (has_edge (signed_edges m) d) → IsTrue (has_edge (component m d) e)
        → IsTrue (has_edge (signed_edges m) e) × IsTrue (has_edge (component m e) d)
        × (smallest e (component m e) ≡ smallest d (component m d)) }
    ensures alike { (t : Rows) (d e : ℤ) → IsLabelledRotation t → let m = map_of t
        in IsTrue (has_edge (signed_edges m) d) → IsTrue (has_edge (signed_edges m) e)
        → has_edge (component m d) e ≡ same_edge (smallest d (component m d)) (smallest e (component m e)) }
    ensures name_rings { (t : Rows) (c : ℤ) → IsLabelledRotation t → let m = map_of t
        in IsTrue (has_edge (components m) c) → IsTrue (has_edge (rings m) c) }
    ensures within { (t : Rows) (d e x : ℤ) → IsLabelledRotation t → let m = map_of t
        in IsTrue (has_edge (signed_edges m) d) → IsTrue (has_edge (component m d) e)
        → IsTrue (has_edge (component m e) x) → IsTrue (has_edge (component m d) x) }
    ensures apart { (t : Rows) → IsLabelledRotation t → IsTrue (is_distinct_edges (components (map_of t))) }
{}

/// In a placed map the outer rings are a placing.
pub fn placed_gives_placing()
    ensures { (t : Rows) → IsLabelledRotation t → IsTrue (is_placed (map_of t))
        → IsPlacing (map_of t) (outer_rings (map_of t)) }
{}

/// A map with a placing is placed, and the starts are its outer rings, perhaps in another order.
pub fn placing_gives_placed()
    ensures placed { (t : Rows) (starts : List ℤ) → IsLabelledRotation t → IsPlacing (map_of t) starts
        → IsTrue (is_placed (map_of t)) }
    ensures outer { (t : Rows) (starts : List ℤ) (r : ℤ) → IsLabelledRotation t → IsPlacing (map_of t) starts
        → is_outer (map_of t) r ≡ has_edge starts r }
{}

/// A component is reached exactly where it is in each set of faces and components that has face 0 and is closed along
/// rings, and all are reached exactly where each such set has all. So a map is placed exactly where the graph whose
/// points are faces and components and whose lines are rings is a tree.
pub fn closed_along_rings()
    ensures reached { (t : Rows) (c : ℤ) → IsLabelledRotation t → let m = map_of t in IsTrue (has_edge (components m) c)
        → IsTrue (is_reached m c) ↔ EachClosedHas m c }
    ensures all { (t : Rows) → IsLabelledRotation t → let m = map_of t
        in IsTrue (list_all (is_reached m) (components m)) ↔ EachClosedHasAll m }
    ensures placed { (t : Rows) → IsLabelledRotation t → IsTrue (is_placed (map_of t)) ↔ IsTree (map_of t) }
{}

/// A worked map with as many rings as a tree has lines, which isn't placed: faces 0 and 1 with the component of edge 1
/// are a closed set without that of edge 4.
pub fn worked_cut_off()
    ensures labelled { IsLabelledRotation cut_off }
    ensures many { let m = map_of cut_off in length (rings m) ≡ length m.faces + length (components m) }
    ensures components { components (map_of cut_off) ≡ pos 1 ∷ pos 4 ∷ [] }
    ensures closed { IsClosedAlongRings (map_of cut_off) (λ f. nat_lt f 2) (same_edge (pos 1)) }
    ensures not_reached { IsFalse (is_reached (map_of cut_off) (pos 4)) }
    ensures not_placed { IsFalse (is_placed (map_of cut_off)) }
{}

/// Each component of a placed map has one outer ring.
pub fn outer_ring_of()
    ensures some { (t : Rows) (d : ℤ) → IsLabelledRotation t → let m = map_of t in IsTrue (is_placed m)
        → IsTrue (has_edge (signed_edges m) d)
        → (r : ℤ) × (outer_ring m d ≡ Some r) × IsTrue (is_outer m r) × IsTrue (has_edge (rings m) r)
        × IsTrue (has_edge (component m r) d) }
    ensures same { (t : Rows) (d e : ℤ) → IsLabelledRotation t → let m = map_of t in IsTrue (is_placed m)
        → IsTrue (has_edge (signed_edges m) d) → IsTrue (has_edge (component m d) e) → outer_ring m e ≡ outer_ring m d }
    ensures many { (t : Rows) → IsLabelledRotation t → let m = map_of t in IsTrue (is_placed m)
        → length (outer_rings m) ≡ length (components m) }
{}

/// Each face of a placed map other than 0 has one shell, and face 0 has none.
pub fn shell_of()
    ensures some { (t : Rows) (f : ℕ) → IsLabelledRotation t → let m = map_of t in IsTrue (is_placed m)
        → IsTrue (has m.faces f)
        → (q : ℤ) × (shell m f ≡ Some q) × IsFalse (is_outer m q) × IsTrue (has_edge (rings m) q) × (side m q ≡ f) }
    ensures none { (t : Rows) → IsLabelledRotation t → let m = map_of t in IsTrue (is_placed m) → shell m 0 ≡ None }
{}

/// A ring of a placed map is the outer ring of its component or the shell of its face, and not both.
pub fn outer_or_shell()
    ensures { (t : Rows) (r : ℤ) → IsLabelledRotation t → let m = map_of t in IsTrue (is_placed m)
        → IsTrue (has_edge (rings m) r)
        → (IsTrue (is_outer m r) × (outer_ring m r ≡ Some r))
        ⊎ (IsFalse (is_outer m r) × (shell m (side m r) ≡ Some r) × IsTrue (has m.faces (side m r))) }
{}

/// The face of an outer ring is face 0, or a face that a ring has which is no outer ring, in the component of an
/// earlier outer ring: in a placed map that ring is the face's shell.
pub fn outer_rings_in_order()
    ensures any { (t : Rows) (place : ℕ) (r : ℤ) → IsLabelledRotation t → let m = map_of t
        in slice_get (outer_rings m) place ≡ Some r
        → (side m r ≡ 0) ⊎ IsShellOfEarlier m (outer_rings m) place (side m r) }
    ensures placed { (t : Rows) (place : ℕ) (r : ℤ) → IsLabelledRotation t → let m = map_of t in IsTrue (is_placed m)
        → slice_get (outer_rings m) place ≡ Some r → (side m r ≡ 0) ⊎ LiesInEarlier m place (side m r) }
{}

/// Signed edges, rings and components rise, so that each list is known by its members.
pub fn rising_lists()
    ensures signed_edges { (t : Rows) → IsLabelledRotation t → IsTrue (is_rising_edges (signed_edges (map_of t))) }
    ensures rings { (t : Rows) → IsLabelledRotation t → IsTrue (is_rising_edges (rings (map_of t))) }
    ensures components { (t : Rows) → IsLabelledRotation t → IsTrue (is_rising_edges (components (map_of t))) }
{}

/// Placing round by round: it begins with face 0, a round adds its starts, and at an empty front the starts are the
/// outer rings.
pub fn placing_by_rounds()
    ensures begins { (t : Rows) → let m = map_of t in IsPlacedSoFar m (length (components m)) (0 ∷ []) [] [] }
    ensures goes_on { (t : Rows) (left : ℕ) (front entered next : List ℕ) (starts : List ℤ) → IsLabelledRotation t
        → let m = map_of t in IsPlacedSoFar m left front entered starts
        → IsNextFront m (front ++ entered) (round_starts m front starts) next
        → (left' : ℕ) × IsPlacedSoFar m left' next (front ++ entered) (starts ++ round_starts m front starts) }
    ensures ends { (t : Rows) (left : ℕ) (entered : List ℕ) (starts : List ℤ) → let m = map_of t
        in IsPlacedSoFar m left [] entered starts → starts ≡ outer_rings m }
{}

/// Rotation, labels, rings, components and outer rings are the same whatever the face table is.
pub fn other_faces()
    ensures rotation { (t : Rows) (faces : List FaceRow)
        → is_rotation (map_of (record t { faces = faces })) ≡ is_rotation (map_of t) }
    ensures labels { (t : Rows) (faces : List FaceRow)
        → is_labelled (map_of (record t { faces = faces })) ≡ is_labelled (map_of t) }
    ensures signed_edges { (t : Rows) (faces : List FaceRow)
        → signed_edges (map_of (record t { faces = faces })) ≡ signed_edges (map_of t) }
    ensures ring { (t : Rows) (faces : List FaceRow) (d : ℤ)
        → ring (map_of (record t { faces = faces })) d ≡ ring (map_of t) d }
    ensures component { (t : Rows) (faces : List FaceRow) (d : ℤ)
        → component (map_of (record t { faces = faces })) d ≡ component (map_of t) d }
    ensures rings { (t : Rows) (faces : List FaceRow) → rings (map_of (record t { faces = faces })) ≡ rings (map_of t) }
    ensures components { (t : Rows) (faces : List FaceRow)
        → components (map_of (record t { faces = faces })) ≡ components (map_of t) }
    ensures outer { (t : Rows) (faces : List FaceRow)
        → outer_rings (map_of (record t { faces = faces })) ≡ outer_rings (map_of t) }
{}
