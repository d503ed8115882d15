//! What the definitions of outlines say, each law the contract of a function that does nothing.

ghost use Rattle.std.specs.Prelude.{◌≡◌, ℕ, ℤ, IsTrue, filter, flat_map};
ghost use Rattle.topo_base.specs.SignedEdge.{reverse};
ghost use Rattle.plane_model.specs.Rows.{Rows};
ghost use Rattle.plane_model.specs.Sets.{has_edge};
ghost use Rattle.plane_model.specs.PlaneMap.{map_of, signed_edges, side};
ghost use Rattle.plane_model.specs.InRange.{is_in_range};
ghost use Rattle.plane_model.specs.Consistent.{is_consistent};
ghost use Rattle.plane_model.specs.Orders.{Permutes, IsAllOf};
ghost use Rattle.plane_model.specs.Border.{is_inside, is_border, outline, border};
ghost use Rattle.region_border.specs.Looked.{passed};

/// In consistent tables the outline takes the border edges of a region to border edges, no two to one. Each signed edge
/// before the one found has faces inside on both hands.
pub fn outline_permutes()
    ensures permutes { (t : Rows) (r : ℕ) → IsTrue (is_in_range t) → IsTrue (is_consistent t)
        → Permutes (filter (is_border (map_of t) r) (signed_edges (map_of t))) (outline (map_of t) r) }
    ensures inside { (t : Rows) (r : ℕ) (d e : ℤ) → IsTrue (is_in_range t) → IsTrue (is_consistent t)
        → IsTrue (has_edge (signed_edges (map_of t)) d) → IsTrue (is_border (map_of t) r d)
        → IsTrue (has_edge (passed (map_of t) r d) e) → IsTrue (is_inside (map_of t) r (side (map_of t) e))
        × IsTrue (is_inside (map_of t) r (side (map_of t) (reverse e))) }
{}

/// All border rings together are the border edges, each once.
pub fn border_is_all()
    ensures { (t : Rows) (r : ℕ) → IsTrue (is_in_range t) → IsTrue (is_consistent t)
        → IsAllOf (filter (is_border (map_of t) r) (signed_edges (map_of t)))
        (flat_map (λ ds. ds) (border (map_of t) r)) }
{}
