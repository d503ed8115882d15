//! Laws of the definitions, each the contract of a function that does nothing.

ghost use Rattle.std.specs.Prelude.{◌≡◌, ℕ, ℤ, Bool, true, false, not, ◌&&◌, ◌==◌, ◌+◌, ◌≤◌, nat_lt, IsTrue, IsFalse, List, [], ◌∷◌, map, filter, length, find, flat_map, if◌then◌else◌, Option, Some, None, is_none, is_some, IsPermutation, Ok};
ghost use Rattle.std.specs.List.{list_all, list_any};
ghost use Rattle.std.specs.List.Sorted.{IsNonDecreasing, IsStrictlyIncreasing};
ghost use Rattle.topo_base.specs.SignedEdge.{edge_of, reverse};
ghost use Rattle.topo_base.specs.declared.refusal.Refusal.{Refusal};
ghost use Rattle.plane_model.specs.Rows.{Rows};
ghost use Rattle.topo_base.specs.declared.refusal.Table.TheVariants as table;
ghost use Rattle.plane_model.specs.declared.rows.NodeRow.{NodeRow};
ghost use Rattle.plane_model.specs.declared.rows.EdgeRow.{EdgeRow};
ghost use Rattle.plane_model.specs.declared.rows.FaceRow.{FaceRow};
ghost use Rattle.plane_model.specs.declared.rows.RegionRow.{RegionRow};
ghost use Rattle.plane_model.specs.declared.rows.MemberRow.{MemberRow};
ghost use Rattle.plane_model.specs.Reading.{node_rows, edge_rows, face_rows, region_rows, member_rows, most_rows};
ghost use Rattle.plane_model.specs.InRange.{is_in_range, is_id, is_face_id, is_none_or, is_edge_in_range};
ghost use Rattle.plane_model.specs.Sets.{has, has_edge, is_distinct, is_distinct_edges, rising};
ghost use Rattle.plane_model.specs.Orders.{how_often, is_rising, is_strictly_rising, is_rising_edges, IsLeast, IsSmallest};
ghost use Rattle.plane_model.specs.PlaneMap.{PlaneMap, Same, map_of, signed_edges, smallest, origin, head, side, next, turn, leaving, until_return, ring, round, rings};
ghost use Rattle.plane_model.specs.Rotation.{is_face, is_face_or_none, node_face, is_one_orbit, is_rotation, is_rotation_system};
ghost use Rattle.plane_model.specs.Component.{component, components, is_plane};
ghost use Rattle.plane_model.specs.Faces.{is_labelled, is_reached, is_on_ring, is_placed, outer_rings, is_outer};
ghost use Rattle.plane_model.specs.Regions.{is_region, is_region_or_none, parents, upward, is_region_forest};
ghost use Rattle.plane_model.specs.Consistent.{is_consistent, size};
ghost use Rattle.plane_model.specs.Answers.{answers, listed, walked};
ghost use Rattle.plane_model.specs.Faults.{first_in, either_way, least_twice, no_node, no_edge_row, no_face, no_containing_face, wrong_end, next_twice, split_node, node_with_face, mixed_ring, not_plane, unplaced, bare_face, face_cycle, no_parent, region_cycle, no_member_region, no_member_face, rotation_fault, euler_fault, placement_fault, region_fault, first_fault};
ghost use Rattle.plane_model.specs.Orders.{Permutes, IsPartition, AreNames, IsNamed, IsAllOf, first_pair, nodes_and_edges, returns};

/// `rising xs` has the numbers of `xs`, each as often, in rising order, and strictly where none stands twice.
pub fn rising_order()
    ensures permutation { (xs : List ℕ) → IsPermutation xs (rising xs) }
    ensures members { (xs : List ℕ) (x : ℕ) → has (rising xs) x ≡ has xs x }
    ensures often { (xs : List ℕ) (x : ℕ) → how_often (rising xs) x ≡ how_often xs x }
    ensures sorted { (xs : List ℕ) → IsNonDecreasing (rising xs) }
    ensures strictly { (xs : List ℕ) → IsTrue (is_distinct xs) → IsTrue (is_strictly_rising (rising xs)) }
    ensures increasing { (xs : List ℕ) → IsTrue (is_strictly_rising xs) → IsStrictlyIncreasing xs }
    ensures from_increasing { (xs : List ℕ) → IsStrictlyIncreasing xs → IsTrue (is_strictly_rising xs) }
{}

/// A sorted list of the numbers is `rising` of them, and so is a strictly rising one with the same members.
pub fn one_rising_order()
    ensures sorted { (xs zs : List ℕ) → IsPermutation xs zs → IsNonDecreasing zs → zs ≡ rising xs }
    ensures strictly { (xs zs : List ℕ) → IsTrue (is_distinct xs) → IsTrue (is_strictly_rising zs)
        → ((x : ℕ) → has zs x ≡ has xs x) → zs ≡ rising xs }
{}

/// What is found first in `rising xs` is the least of `xs` that passes.
pub fn least_found()
    ensures least { (p : ℕ → Bool) (xs : List ℕ) (x : ℕ) → find p (rising xs) ≡ Some x → IsLeast p xs x }
    ensures found { (p : ℕ → Bool) (xs : List ℕ) (x : ℕ) → IsLeast p xs x → find p (rising xs) ≡ Some x }
    ensures none { (p : ℕ → Bool) (xs : List ℕ) → find p (rising xs) ≡ None → (x : ℕ) → IsTrue (has xs x)
        → IsFalse (p x) }
{}

/// A map's signed edges are those of its edges, in the order of signed edges where the ids are rising, from 1 on.
pub fn signed_order()
    ensures members { (m : PlaneMap) (d : ℤ) → has_edge (signed_edges m) d ≡ has m.edges.keys (edge_of d) }
    ensures rising { (m : PlaneMap) → IsTrue (is_strictly_rising m.edges.keys)
        → IsTrue (list_all (nat_lt 0) m.edges.keys) → IsTrue (is_rising_edges (signed_edges m)) }
    ensures rows { (t : Rows) → IsTrue (is_in_range t) → IsTrue (is_distinct (map (λ e. e.id) t.edges))
        → IsTrue (is_rising_edges (signed_edges (map_of t))) }
{}

/// What is found first in rising signed edges is the smallest that passes, and `smallest` is the smallest of all.
pub fn smallest_found()
    ensures least { (p : ℤ → Bool) (ds : List ℤ) (d : ℤ) → IsTrue (is_rising_edges ds) → find p ds ≡ Some d
        → IsSmallest p ds d }
    ensures found { (p : ℤ → Bool) (ds : List ℤ) (d : ℤ) → IsTrue (is_rising_edges ds) → IsSmallest p ds d
        → find p ds ≡ Some d }
    ensures smallest { (d : ℤ) (ds : List ℤ) → IsSmallest (λ e. true) (d ∷ ds) (smallest d ds) }
{}

/// Rising lists of signed edges with the same members are equal, what a filter leaves of one rises, and so do rings and
/// components.
pub fn one_signed_order()
    ensures same { (ds es : List ℤ) → IsTrue (is_rising_edges ds) → IsTrue (is_rising_edges es)
        → ((x : ℤ) → has_edge ds x ≡ has_edge es x) → ds ≡ es }
    ensures once { (ds : List ℤ) → IsTrue (is_rising_edges ds) → IsTrue (is_distinct_edges ds) }
    ensures filter { (p : ℤ → Bool) (ds : List ℤ) → IsTrue (is_rising_edges ds)
        → IsTrue (is_rising_edges (filter p ds)) }
    ensures rings { (m : PlaneMap) → IsTrue (is_rising_edges (signed_edges m)) → IsTrue (is_rising_edges (rings m)) }
    ensures components { (m : PlaneMap) → IsTrue (is_rising_edges (signed_edges m))
        → IsTrue (is_rising_edges (components m)) }
{}

/// The least number that stands twice is the first of the sorted numbers that equals the one behind it.
pub fn twice_found()
    ensures sorted { (xs zs : List ℕ) → IsPermutation xs zs → IsNonDecreasing zs → least_twice xs ≡ first_pair zs }
    ensures exactly { (xs : List ℕ) → is_none (least_twice xs) ≡ is_distinct xs }
{}

/// Each fault of an edge is none exactly where no signed edge has it, where ids of edges are in range and distinct.
pub fn edge_faults()
    ensures nodes { (t : Rows) → IsTrue (is_in_range t) → IsTrue (is_distinct (map (λ e. e.id) t.edges))
        → is_none (first_in (no_node (map_of t)) t.edges)
        ≡ list_all (λ d. is_some ((map_of t).nodes.at (origin (map_of t) d))) (signed_edges (map_of t)) }
    ensures nexts { (t : Rows) → IsTrue (is_in_range t) → IsTrue (is_distinct (map (λ e. e.id) t.edges))
        → is_none (first_in (no_edge_row (map_of t)) t.edges)
        ≡ list_all (λ d. is_some ((map_of t).edges.at (edge_of (next (map_of t) d)))) (signed_edges (map_of t)) }
    ensures faces { (t : Rows) → IsTrue (is_in_range t) → IsTrue (is_distinct (map (λ e. e.id) t.edges))
        → is_none (first_in (no_face (map_of t)) t.edges)
        ≡ list_all (λ d. is_face (map_of t) (side (map_of t) d)) (signed_edges (map_of t)) }
    ensures ends { (t : Rows) → is_none (first_in (either_way (wrong_end (map_of t))) t.edges)
        ≡ list_all (λ d. origin (map_of t) (next (map_of t) d) == head (map_of t) d) (signed_edges (map_of t)) }
    ensures twice { (m : PlaneMap) → IsTrue (list_all (λ d. has_edge (signed_edges m) (next m d)) (signed_edges m))
        → is_none (next_twice m) ≡ is_distinct_edges (map (next m) (signed_edges m)) }
    ensures rings { (t : Rows) → is_none (first_in (either_way (mixed_ring (map_of t))) t.edges)
        ≡ is_labelled (map_of t) }
{}

/// Each fault of a node is none exactly where no node of the map has it, where ids of nodes are distinct.
pub fn node_faults()
    ensures faces { (t : Rows) → IsTrue (is_distinct (map (λ n. n.id) t.nodes))
        → is_none (first_in (no_containing_face (map_of t)) t.nodes)
        ≡ list_all (λ n. is_face_or_none (map_of t) (node_face (map_of t) n)) (map_of t).nodes.keys }
    ensures split { (m : PlaneMap) → is_none (split_node m)
        ≡ list_all (λ n. is_one_orbit m (leaving m n)) m.nodes.keys }
    ensures alone { (t : Rows) → IsTrue (is_distinct (map (λ n. n.id) t.nodes))
        → is_none (first_in (node_with_face (map_of t)) t.nodes)
        ≡ list_all (λ n. if is_some (node_face (map_of t) n) then length (leaving (map_of t) n) == 0
        else nat_lt 0 (length (leaving (map_of t) n))) (map_of t).nodes.keys }
{}

/// No fault of the rotation exactly where tables are a rotation system.
pub fn rotation_faults()
    ensures exactly { (t : Rows) → IsTrue (is_in_range t) → is_none (rotation_fault t) ≡ is_rotation_system t }
    ensures fine { (t : Rows) → IsTrue (is_in_range t) → IsTrue (is_rotation_system t) → rotation_fault t ≡ None }
    ensures refused { (t : Rows) (e : Refusal) → IsTrue (is_in_range t) → rotation_fault t ≡ Some e
        → IsFalse (is_rotation_system t) }
{}

/// No fault of rings and components exactly where each ring has one face and each component is plane.
pub fn euler_faults()
    ensures exactly { (t : Rows) → is_none (euler_fault t) ≡ (is_labelled (map_of t) && is_plane (map_of t)) }
    ensures refused { (t : Rows) (e : Refusal) → euler_fault t ≡ Some e
        → IsFalse (is_labelled (map_of t) && is_plane (map_of t)) }
{}

/// No fault of the places of components exactly where they are placed.
pub fn placement_faults()
    ensures exactly { (m : PlaneMap) → is_none (placement_fault m) ≡ is_placed m }
    ensures refused { (m : PlaneMap) (e : Refusal) → placement_fault m ≡ Some e → IsFalse (is_placed m) }
{}

/// No fault of regions exactly where they are a forest.
pub fn region_faults()
    ensures exactly { (t : Rows) → is_none (region_fault t) ≡ is_region_forest t }
    ensures refused { (t : Rows) (e : Refusal) → region_fault t ≡ Some e → IsFalse (is_region_forest t) }
{}

/// Each fault of the places of components, and of regions, is none exactly where its part of the test holds.
pub fn later_faults()
    ensures plane { (m : PlaneMap) → is_none (not_plane m) ≡ is_plane m }
    ensures reached { (m : PlaneMap) → is_none (unplaced m) ≡ list_all (is_reached m) (components m) }
    ensures faces { (m : PlaneMap) → is_none (bare_face m) ≡ list_all (is_on_ring m) m.faces }
    ensures count { (m : PlaneMap) → is_none (face_cycle m)
        ≡ (length (rings m) == length m.faces + length (components m)) }
    ensures parents { (t : Rows) → is_none (first_in (no_parent (map_of t)) t.regions)
        ≡ list_all (λ r. is_region_or_none (map_of t) r.parent) t.regions }
    ensures cycles { (t : Rows) → is_none (region_cycle (map_of t))
        ≡ list_all (λ r. not (has (parents (map_of t) r.id) r.id)) t.regions }
    ensures members { (t : Rows) → (is_none (first_in (no_member_region (map_of t)) t.members)
        && is_none (first_in (no_member_face (map_of t)) t.members))
        ≡ list_all (λ x. is_region (map_of t) x.region && is_face (map_of t) x.face) t.members }
{}

/// No fault exactly where tables are consistent.
pub fn all_faults()
    ensures exactly { (t : Rows) → IsTrue (is_in_range t) → is_none (first_fault t) ≡ is_consistent t }
    ensures fine { (t : Rows) → IsTrue (is_in_range t) → IsTrue (is_consistent t) → first_fault t ≡ None }
    ensures refused { (t : Rows) (e : Refusal) → IsTrue (is_in_range t) → first_fault t ≡ Some e
        → IsFalse (is_consistent t) }
{}

/// The first fault is that of the first part that has one.
pub fn fault_order()
    ensures rotation { (t : Rows) (e : Refusal) → rotation_fault t ≡ Some e → first_fault t ≡ Some e }
    ensures euler { (t : Rows) (e : Refusal) → rotation_fault t ≡ None → euler_fault t ≡ Some e
        → first_fault t ≡ Some e }
    ensures placement { (t : Rows) (e : Refusal) → rotation_fault t ≡ None → euler_fault t ≡ None
        → placement_fault (map_of t) ≡ Some e → first_fault t ≡ Some e }
    ensures region { (t : Rows) (e : Refusal) → rotation_fault t ≡ None → euler_fault t ≡ None
        → placement_fault (map_of t) ≡ None → region_fault t ≡ Some e → first_fault t ≡ Some e }
{}

/// What is said of nodes and edges does not depend on faces, regions and members.
pub fn faces_make_no_difference()
    ensures rotation { (t : Rows) → is_rotation (map_of (nodes_and_edges t)) ≡ is_rotation (map_of t) }
    ensures labelled { (t : Rows) → is_labelled (map_of (nodes_and_edges t)) ≡ is_labelled (map_of t) }
    ensures plane { (t : Rows) → is_plane (map_of (nodes_and_edges t)) ≡ is_plane (map_of t) }
    ensures rings { (t : Rows) → rings (map_of (nodes_and_edges t)) ≡ rings (map_of t) }
    ensures component { (t : Rows) (d : ℤ) → component (map_of (nodes_and_edges t)) d ≡ component (map_of t) d }
    ensures components { (t : Rows) → components (map_of (nodes_and_edges t)) ≡ components (map_of t) }
    ensures outer { (t : Rows) → outer_rings (map_of (nodes_and_edges t)) ≡ outer_rings (map_of t) }
    ensures fault { (t : Rows) → euler_fault (nodes_and_edges t) ≡ euler_fault t }
{}

/// Where the next of each signed edge is there, and no two have one, the next and the turn take signed edges to signed
/// edges, no two to one.
pub fn next_permutes()
    ensures next { (t : Rows) → IsTrue (list_all (λ d. is_some ((map_of t).edges.at (edge_of (next (map_of t) d))))
        (signed_edges (map_of t))) → IsTrue (is_distinct_edges (map (next (map_of t)) (signed_edges (map_of t))))
        → Permutes (signed_edges (map_of t)) (next (map_of t)) }
    ensures turn { (m : PlaneMap) → Permutes (signed_edges m) (next m) → Permutes (signed_edges m) (turn m) }
    ensures orbit { (us : List ℤ) (step : ℤ → ℤ) → Permutes us step
        → IsPartition us (λ d. until_return (length us) step d d) }
{}

/// Where each next leaves the head, the round of a signed edge stays at its node, and the node's signed edges are one
/// orbit exactly where it is as long as they are many.
pub fn node_rounds()
    ensures stays { (m : PlaneMap) (n : ℕ) (d x : ℤ)
        → IsTrue (list_all (λ e. origin m (next m e) == head m e) (signed_edges m)) → Permutes (signed_edges m) (turn m)
        → IsTrue (has_edge (leaving m n) d) → IsTrue (has_edge (round m d) x) → IsTrue (has_edge (leaving m n) x) }
    ensures counts { (m : PlaneMap) (n : ℕ) (d : ℤ) (ds : List ℤ)
        → IsTrue (list_all (λ e. origin m (next m e) == head m e) (signed_edges m)) → Permutes (signed_edges m) (turn m)
        → IsTrue (is_distinct_edges (signed_edges m)) → leaving m n ≡ (d ∷ ds)
        → is_one_orbit m (leaving m n) ≡ (length (round m d) == length (leaving m n)) }
{}

/// The next and the turn of a rotation take its signed edges to signed edges, no two to one.
pub fn rotation_permutes()
    ensures next { (t : Rows) → IsTrue (is_rotation (map_of t)) → Permutes (signed_edges (map_of t)) (next (map_of t)) }
    ensures turn { (t : Rows) → IsTrue (is_rotation (map_of t)) → Permutes (signed_edges (map_of t)) (turn (map_of t)) }
{}

/// Rings, rounds of nodes and components have no signed edge twice, and two that share one are equal as sets.
pub fn parts_share_nothing()
    ensures ring { (t : Rows) → IsTrue (is_rotation (map_of t))
        → IsPartition (signed_edges (map_of t)) (ring (map_of t)) }
    ensures round { (t : Rows) → IsTrue (is_rotation (map_of t))
        → IsPartition (signed_edges (map_of t)) (round (map_of t)) }
    ensures component { (t : Rows) → IsTrue (is_rotation (map_of t))
        → IsPartition (signed_edges (map_of t)) (component (map_of t)) }
{}

/// Each signed edge is on one of `rings` and in one of `components`.
pub fn parts_have_names()
    ensures ring { (t : Rows) → IsTrue (is_rotation (map_of t))
        → AreNames (signed_edges (map_of t)) (ring (map_of t)) (rings (map_of t)) }
    ensures component { (t : Rows) → IsTrue (is_rotation (map_of t))
        → AreNames (signed_edges (map_of t)) (component (map_of t)) (components (map_of t)) }
{}

/// The smallest signed edge of a ring and of a component is that of each in it, and of none outside it.
pub fn smallest_names()
    ensures ring { (t : Rows) → IsTrue (is_rotation (map_of t)) → IsNamed (signed_edges (map_of t)) (ring (map_of t)) }
    ensures component { (t : Rows) → IsTrue (is_rotation (map_of t))
        → IsNamed (signed_edges (map_of t)) (component (map_of t)) }
{}

/// The names of all signed edges, each once, are as many as the rings, or the components.
pub fn names_counted()
    ensures rings { (t : Rows) (ds ns : List ℤ) → IsTrue (is_rotation (map_of t))
        → ((d : ℤ) → has_edge ds d ≡ has_edge (signed_edges (map_of t)) d) → IsTrue (is_distinct_edges ns)
        → ((x : ℤ) → has_edge ns x ≡ has_edge (map (λ d. smallest d (ring (map_of t) d)) ds) x)
        → length ns ≡ length (rings (map_of t)) }
    ensures components { (t : Rows) (ds ns : List ℤ) → IsTrue (is_rotation (map_of t))
        → ((d : ℤ) → has_edge ds d ≡ has_edge (signed_edges (map_of t)) d) → IsTrue (is_distinct_edges ns)
        → ((x : ℤ) → has_edge ns x ≡ has_edge (map (λ d. smallest d (component (map_of t) d)) ds) x)
        → length ns ≡ length (components (map_of t)) }
{}

/// All rings together are the signed edges, each once, and so are all components.
pub fn parts_are_all()
    ensures rings { (t : Rows) → IsTrue (is_rotation (map_of t))
        → IsAllOf (signed_edges (map_of t)) (flat_map (ring (map_of t)) (rings (map_of t))) }
    ensures components { (t : Rows) → IsTrue (is_rotation (map_of t))
        → IsAllOf (signed_edges (map_of t)) (flat_map (component (map_of t)) (components (map_of t))) }
{}

/// In consistent tables each component has one outer ring, and each face other than 0 has one shell: a ring that is no
/// outer ring.
pub fn outer_rings_and_shells()
    ensures count { (t : Rows) → IsTrue (is_consistent t)
        → length (outer_rings (map_of t)) ≡ length (components (map_of t)) }
    ensures outer { (t : Rows) (d : ℤ) → IsTrue (is_consistent t) → IsTrue (has_edge (signed_edges (map_of t)) d)
        → (r : ℤ) × IsTrue (is_outer (map_of t) r) × IsTrue (has_edge (component (map_of t) r) d) }
    ensures one_outer { (t : Rows) (d q r : ℤ) → IsTrue (is_consistent t) → IsTrue (is_outer (map_of t) q)
        → IsTrue (is_outer (map_of t) r) → IsTrue (has_edge (component (map_of t) q) d)
        → IsTrue (has_edge (component (map_of t) r) d) → q ≡ r }
    ensures shell { (t : Rows) (f : ℕ) → IsTrue (is_consistent t) → IsTrue (has (map_of t).faces f)
        → (q : ℤ) × IsTrue (has_edge (rings (map_of t)) q) × IsFalse (is_outer (map_of t) q) × (side (map_of t) q ≡ f) }
    ensures one_shell { (t : Rows) (q r : ℤ) → IsTrue (is_consistent t) → IsTrue (has_edge (rings (map_of t)) q)
        → IsTrue (has_edge (rings (map_of t)) r) → IsFalse (is_outer (map_of t) q) → IsFalse (is_outer (map_of t) r)
        → side (map_of t) q ≡ side (map_of t) r → q ≡ r }
    ensures face { (t : Rows) (q : ℤ) → IsTrue (is_consistent t) → IsTrue (has_edge (rings (map_of t)) q)
        → IsFalse (is_outer (map_of t) q) → IsTrue (has (map_of t).faces (side (map_of t) q)) }
{}

/// A component of a rotation has all or none of an edge, of a round, of a ring and of a node.
pub fn component_keeps()
    ensures reverse { (t : Rows) (c d : ℤ) → IsTrue (is_rotation (map_of t))
        → IsTrue (has_edge (signed_edges (map_of t)) c)
        → has_edge (component (map_of t) c) (reverse d) ≡ has_edge (component (map_of t) c) d }
    ensures turn { (t : Rows) (c d : ℤ) → IsTrue (is_rotation (map_of t))
        → IsTrue (has_edge (signed_edges (map_of t)) c) → IsTrue (has_edge (signed_edges (map_of t)) d)
        → has_edge (component (map_of t) c) (turn (map_of t) d) ≡ has_edge (component (map_of t) c) d }
    ensures next { (t : Rows) (c d : ℤ) → IsTrue (is_rotation (map_of t))
        → IsTrue (has_edge (signed_edges (map_of t)) c) → IsTrue (has_edge (signed_edges (map_of t)) d)
        → has_edge (component (map_of t) c) (next (map_of t) d) ≡ has_edge (component (map_of t) c) d }
    ensures round { (t : Rows) (c d x : ℤ) → IsTrue (is_rotation (map_of t))
        → IsTrue (has_edge (signed_edges (map_of t)) c) → IsTrue (has_edge (signed_edges (map_of t)) d)
        → IsTrue (has_edge (round (map_of t) d) x)
        → has_edge (component (map_of t) c) x ≡ has_edge (component (map_of t) c) d }
    ensures ring { (t : Rows) (c d x : ℤ) → IsTrue (is_rotation (map_of t))
        → IsTrue (has_edge (signed_edges (map_of t)) c) → IsTrue (has_edge (signed_edges (map_of t)) d)
        → IsTrue (has_edge (ring (map_of t) d) x)
        → has_edge (component (map_of t) c) x ≡ has_edge (component (map_of t) c) d }
    ensures node { (t : Rows) (c d : ℤ) (ds : List ℤ) (n : ℕ) → IsTrue (is_rotation (map_of t))
        → IsTrue (has_edge (signed_edges (map_of t)) c) → IsTrue (has (map_of t).nodes.keys n)
        → leaving (map_of t) n ≡ (d ∷ ds)
        → list_any (has_edge (component (map_of t) c)) (leaving (map_of t) n) ≡ has_edge (component (map_of t) c) d }
    ensures side { (t : Rows) (d x : ℤ) → IsTrue (is_rotation (map_of t)) → IsTrue (is_labelled (map_of t))
        → IsTrue (has_edge (signed_edges (map_of t)) d) → IsTrue (has_edge (ring (map_of t) d) x)
        → side (map_of t) x ≡ side (map_of t) d }
{}

/// In a forest of regions a chain of parents has no region twice, and ends within as many steps as there are regions.
pub fn chains_end()
    ensures whole { (t : Rows) (r k : ℕ) → IsTrue (is_region_forest t) → IsTrue (has (map_of t).regions.keys r)
        → length (map_of t).regions.keys ≤ k
        → upward k (map_of t) (Some r) ≡ upward (length (map_of t).regions.keys) (map_of t) (Some r) }
    ensures once { (t : Rows) (r : ℕ) → IsTrue (is_region_forest t) → IsTrue (has (map_of t).regions.keys r)
        → IsTrue (is_distinct (upward (length (map_of t).regions.keys) (map_of t) (Some r))) }
{}

/// Rows that are read are in range, and no more than the table may have.
pub fn read_in_range()
    ensures nodes { (bytes : List ℕ) (rs : List NodeRow) → node_rows bytes ≡ Ok rs
        → (list_all (λ r. is_id r.id && is_none_or is_face_id r.face) rs ≡ true) × (length rs ≤ most_rows table.Node) }
    ensures edges { (bytes : List ℕ) (rs : List EdgeRow) → edge_rows bytes ≡ Ok rs
        → (list_all is_edge_in_range rs ≡ true) × (length rs ≤ most_rows table.Edge) }
    ensures faces { (bytes : List ℕ) (rs : List FaceRow) → face_rows bytes ≡ Ok rs
        → (list_all (λ r. is_face_id r.id) rs ≡ true) × (length rs ≤ most_rows table.Face) }
    ensures regions { (bytes : List ℕ) (rs : List RegionRow) → region_rows bytes ≡ Ok rs
        → (list_all (λ r. is_id r.id && is_none_or is_id r.parent) rs ≡ true) × (length rs ≤ most_rows table.Region) }
    ensures members { (bytes : List ℕ) (rs : List MemberRow) → member_rows bytes ≡ Ok rs
        → (list_all (λ r. is_id r.region && is_face_id r.face) rs ≡ true) × (length rs ≤ most_rows table.Member) }
{}

/// A walk by a step that permutes signed edges comes back within as many steps as there are signed edges.
pub fn orbits_return()
    ensures { (us : List ℤ) (step : ℤ → ℤ) → Permutes us step → (d : ℤ) → IsTrue (has_edge us d)
        → IsTrue (returns (length us) step d d) }
{}

/// The component of a signed edge, which has it, is the least set that is closed under reverse and turn.
pub fn component_is_least()
    ensures reversed { (t : Rows) (d e : ℤ) → IsTrue (is_rotation (map_of t))
        → IsTrue (has_edge (signed_edges (map_of t)) d) → IsTrue (has_edge (component (map_of t) d) e)
        → IsTrue (has_edge (component (map_of t) d) (reverse e)) }
    ensures turned { (t : Rows) (d e : ℤ) → IsTrue (is_rotation (map_of t))
        → IsTrue (has_edge (signed_edges (map_of t)) d) → IsTrue (has_edge (component (map_of t) d) e)
        → IsTrue (has_edge (component (map_of t) d) (turn (map_of t) e)) }
    ensures least { (m : PlaneMap) (s : ℤ → Bool) → ((e : ℤ) → IsTrue (s e) → IsTrue (s (reverse e)))
        → ((e : ℤ) → IsTrue (s e) → IsTrue (s (turn m e))) → (d : ℤ) → IsTrue (s d)
        → IsTrue (list_all s (component m d)) }
{}

/// Tables that describe one map have one answer to each script, by as much walked and listed: the order of rows and a
/// row for face 0 make no difference.
pub fn same_map_same_answers()
    ensures answers { (t u : Rows) → Same t u → (script : List ℕ)
        → answers (map_of t) script ≡ answers (map_of u) script }
    ensures walked { (t u : Rows) → Same t u → (line : List ℕ) → walked (map_of t) line ≡ walked (map_of u) line }
    ensures listed { (t u : Rows) → Same t u → (line : List ℕ) → listed (map_of t) line ≡ listed (map_of u) line }
    ensures size { (t u : Rows) → Same t u → size (map_of t) ≡ size (map_of u) }
{}
