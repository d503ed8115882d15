//! What the definitions of distances and ways say, each law the contract of a function that does nothing.

ghost use Rattle.std.specs.Prelude.{◌≡◌, ◌<◌, ◌≤◌, ◌+◌, ℕ, IsTrue, IsFalse, Some, length};
ghost use Rattle.plane_model.specs.Rows.{Rows};
ghost use Rattle.plane_model.specs.Sets.{has, is_distinct};
ghost use Rattle.plane_model.specs.PlaneMap.{PlaneMap, map_of};
ghost use Rattle.plane_model.specs.InRange.{is_in_range};
ghost use Rattle.plane_model.specs.Consistent.{is_consistent};
ghost use Rattle.plane_model.specs.Rotation.{is_face};
ghost use Rattle.plane_model.specs.Lists.{adjacent};
ghost use Rattle.plane_model.specs.Hops.{is_within, distance, hops};

/// A distance is the least number of moves of a path.
pub fn distance_is_least()
    ensures path { (m : PlaneMap) (f g n : ℕ) → distance m f g ≡ Some n → IsTrue (is_within n m f g) }
    ensures least { (m : PlaneMap) (f g n k : ℕ) → distance m f g ≡ Some n → k < n → IsFalse (is_within k m f g) }
{}

/// In consistent tables a path leads from each face to each other, of no more moves than there are faces other than 0.
/// The way has one face more than moves, each once, and of two adjacent faces each is beside the other.
pub fn paths_between_faces()
    ensures some { (t : Rows) (f g : ℕ) → IsTrue (is_in_range t) → IsTrue (is_consistent t)
        → IsTrue (is_face (map_of t) f) → IsTrue (is_face (map_of t) g)
        → (n : ℕ) × (distance (map_of t) f g ≡ Some n) × (n ≤ length (map_of t).faces) }
    ensures long { (t : Rows) (f g n : ℕ) → IsTrue (is_in_range t) → IsTrue (is_consistent t)
        → IsTrue (is_face (map_of t) f) → distance (map_of t) f g ≡ Some n → length (hops (map_of t) f g) ≡ n + 1 }
    ensures apart { (t : Rows) (f g n : ℕ) → IsTrue (is_in_range t) → IsTrue (is_consistent t)
        → IsTrue (is_face (map_of t) f) → distance (map_of t) f g ≡ Some n
        → IsTrue (is_distinct (hops (map_of t) f g)) }
    ensures mutual { (t : Rows) (f g : ℕ) → IsTrue (is_in_range t) → IsTrue (is_consistent t)
        → IsTrue (has (adjacent (map_of t) f) g) → IsTrue (has (adjacent (map_of t) g) f) }
{}
