//! A law on where components are, the contract of a function that does nothing.

ghost use Rattle.std.specs.Prelude.{◌≡◌, IsTrue};
ghost use Rattle.plane_model.specs.Rows.{Rows};
ghost use Rattle.plane_model.specs.PlaneMap.{map_of};
ghost use Rattle.plane_model.specs.Rotation.{is_rotation_system};
ghost use Rattle.plane_model.specs.Faces.{is_placed, outer_rings};
ghost use Rattle.plane_model.specs.Faults.{placement_fault};
ghost use Rattle.rotation_check.specs.Darts.{rotation_rows};
ghost use Rattle.islands.specs.Placed.{AreFacesOf, map_with_faces};

/// What is asked of a face table holds in a rotation system, and where components are depends on edges and faces alone.
pub fn other_tables()
    ensures asked { (t : Rows) → IsTrue (is_rotation_system t) → AreFacesOf (rotation_rows t) t.faces }
    ensures placed { (t : Rows) → is_placed (map_with_faces (rotation_rows t) t.faces) ≡ is_placed (map_of t) }
    ensures outer { (t : Rows) → outer_rings (map_with_faces (rotation_rows t) t.faces) ≡ outer_rings (map_of t) }
    ensures fault { (t : Rows) → placement_fault (map_with_faces (rotation_rows t) t.faces)
        ≡ placement_fault (map_of t) }
{}
