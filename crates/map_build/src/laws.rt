//! What the contents of a map are, each law the contract of a function that does nothing.

ghost use Rattle.std.specs.Prelude.{◌≡◌, ◌*◌, ◌<◌, ℕ, ℤ, Bool, List, map, length, IsTrue};
ghost use Rattle.plane_model.specs.Rows.{Rows};
ghost use Rattle.plane_model.specs.PlaneMap.{PlaneMap, Same, map_of, side, origin, next as next_edge, turn as turn_edge};
ghost use Rattle.plane_model.specs.Faces.{outer_rings};
ghost use Rattle.plane_model.specs.Consistent.{is_consistent};
ghost use Rattle.plane_model.specs.InRange.{is_in_range};
ghost use Rattle.rotation_check.specs.Darts.{signed_edge, rotation_rows};
ghost use Rattle.spanning_pair.specs.Rotations.{next_dart, node_row, AreComponentStarts};
ghost use Rattle.spanning_pair.specs.Tours.{IsTour};
ghost use Rattle.code_laws.specs.Code.{mate, next, turn};
ghost use Rattle.code_laws.specs.SeqFault.{is_sound};
ghost use Rattle.code_laws.specs.Tour.{code_of};
ghost use Rattle.file_laws.specs.Contents.{Contents};
ghost use Rattle.file_laws.specs.Held.{contents_of};
ghost use Rattle.file_laws.specs.MapOfFile.{rows_of_contents, signed_at, node_at, face_at};
ghost use Rattle.file_laws.specs.Lawful.{is_whole, StandsFor};
ghost use Rattle.map_build.specs.Made.{walked_at, contents_of_walk, contents_of_map};
ghost use Rattle.file_laws.specs.Image.{image_of};
ghost use Rattle.file_laws.specs.Layout.{words_of};
ghost use Rattle.islands.specs.Darts.{AreDartsOf};
ghost use Rattle.islands.specs.Placed.{map_with_faces};
ghost use Rattle.map_build.specs.Filled.{AreFilled};
ghost use Rattle.map_build.specs.Starts.{AreOuterDarts};
ghost use Rattle.map_build.specs.Walked.{IsPaired, IsMapWalk};

/// Where the places of a walk are in pairs that nest, its code is sound, and the mate of a position is the other place
/// of its edge.
pub fn paired_walks()
    ensures sound { (tree first : List Bool) (starts : List ℕ) (count : ℕ) (other : ℕ → ℕ)
        → IsPaired tree first starts count other → IsTrue (is_sound (code_of tree first starts)) }
    ensures mates { (tree first : List Bool) (starts : List ℕ) (count : ℕ) (other : ℕ → ℕ)
        → IsPaired tree first starts count other → (p : ℕ) → p < length tree
        → mate (code_of tree first starts) p ≡ other p }
{}

/// The steps of the code of a walk are those of the map.
pub fn steps_of_walks()
    ensures nexts { (m : PlaneMap) (begins darts : List ℤ) (tree first : List Bool) (places : List ℕ) (other : ℕ → ℕ)
        → IsMapWalk m begins darts tree first places other → (p : ℕ) → p < length tree
        → walked_at darts (next (code_of tree first places) p) ≡ next_edge m (walked_at darts p) }
    ensures turns { (m : PlaneMap) (begins darts : List ℤ) (tree first : List Bool) (places : List ℕ) (other : ℕ → ℕ)
        → IsMapWalk m begins darts tree first places other → (p : ℕ) → p < length tree
        → walked_at darts (turn (code_of tree first places) p) ≡ turn_edge m (walked_at darts p) }
{}

/// What is made of a walk of a consistent map from its outer rings has at each position the signed edge that is walked
/// there, the node that it leaves and the face on its left. It is whole, and stands for the tables.
pub fn contents_of_walks()
    ensures signed { (t : Rows) (darts : List ℤ) (tree first : List Bool) (places : List ℕ) (other : ℕ → ℕ)
        → IsTrue (is_in_range t) → IsTrue (is_consistent t)
        → IsMapWalk (map_of t) (outer_rings (map_of t)) darts tree first places other → (p : ℕ) → p < length tree
        → signed_at (contents_of_walk (map_of t) darts tree first places) p ≡ walked_at darts p }
    ensures nodes { (t : Rows) (darts : List ℤ) (tree first : List Bool) (places : List ℕ) (other : ℕ → ℕ)
        → IsTrue (is_in_range t) → IsTrue (is_consistent t)
        → IsMapWalk (map_of t) (outer_rings (map_of t)) darts tree first places other → (p : ℕ) → p < length tree
        → node_at (contents_of_walk (map_of t) darts tree first places) p ≡ origin (map_of t) (walked_at darts p) }
    ensures faces { (t : Rows) (darts : List ℤ) (tree first : List Bool) (places : List ℕ) (other : ℕ → ℕ)
        → IsTrue (is_in_range t) → IsTrue (is_consistent t)
        → IsMapWalk (map_of t) (outer_rings (map_of t)) darts tree first places other → (p : ℕ) → p < length tree
        → face_at (contents_of_walk (map_of t) darts tree first places) p ≡ side (map_of t) (walked_at darts p) }
    ensures whole { (t : Rows) (darts : List ℤ) (tree first : List Bool) (places : List ℕ) (other : ℕ → ℕ)
        → IsTrue (is_in_range t) → IsTrue (is_consistent t)
        → IsMapWalk (map_of t) (outer_rings (map_of t)) darts tree first places other
        → IsTrue (is_whole (contents_of_walk (map_of t) darts tree first places)) }
    ensures stands { (t : Rows) (darts : List ℤ) (tree first : List Bool) (places : List ℕ) (other : ℕ → ℕ)
        → IsTrue (is_in_range t) → IsTrue (is_consistent t)
        → IsMapWalk (map_of t) (outer_rings (map_of t)) darts tree first places other
        → Same (rows_of_contents (contents_of_walk (map_of t) darts tree first places)) t }
{}

/// The darts of the outer rings are one for each component, the tour from them is a walk of the map, and what is made
/// of it is the contents of the map.
pub fn contents_of_tours()
    ensures starts { (t : Rows) (starts : List ℕ) → IsTrue (is_in_range t) → IsTrue (is_consistent t)
        → AreOuterDarts t starts → AreComponentStarts (rotation_rows t) starts }
    ensures walk { (t : Rows) (starts darts : List ℕ) (tree first : List Bool) (places : List ℕ)
        → IsTrue (is_in_range t) → IsTrue (is_consistent t) → AreOuterDarts t starts
        → IsTour (length t.edges) (next_dart (rotation_rows t))
        (node_row (rotation_rows t)) starts darts tree first places
        → (other : ℕ → ℕ) × IsMapWalk (map_of t) (outer_rings (map_of t))
        (map (signed_edge t.edges) darts) tree first places other }
    ensures same { (t : Rows) (starts darts : List ℕ) (tree first : List Bool) (places : List ℕ)
        → IsTrue (is_in_range t) → IsTrue (is_consistent t) → AreOuterDarts t starts
        → IsTour (length t.edges) (next_dart (rotation_rows t))
        (node_row (rotation_rows t)) starts darts tree first places
        → contents_of_map (map_of t) ≡ contents_of_walk (map_of t) (map (signed_edge t.edges) darts) tree first places }
{}

/// The contents of a consistent map are whole, and stand for its tables: a function of the map, so that tables of one
/// map have one file, whatever the order of their rows.
pub fn contents_of_maps()
    ensures whole { (t : Rows) → IsTrue (is_in_range t) → IsTrue (is_consistent t)
        → IsTrue (is_whole (contents_of_map (map_of t))) }
    ensures stands { (t : Rows) → IsTrue (is_in_range t) → IsTrue (is_consistent t)
        → Same (rows_of_contents (contents_of_map (map_of t))) t }
    ensures one { (t u : Rows) → Same t u → contents_of_map (map_of t) ≡ contents_of_map (map_of u) }
{}

/// The darts that a placement gives are those of the outer rings, and its faces are theirs.
pub fn starts_of_placements()
    ensures starts { (t : Rows) (starts : List ℕ)
        → AreDartsOf t.edges (outer_rings (map_with_faces (rotation_rows t) t.faces)) starts → AreOuterDarts t starts }
    ensures faces { (t : Rows) → map (side (map_with_faces (rotation_rows t) t.faces))
        (outer_rings (map_with_faces (rotation_rows t) t.faces)) ≡ map (side (map_of t)) (outer_rings (map_of t)) }
{}

/// What is made of a walk is what is filled by number at its positions and sorted by place, and nothing else is.
pub fn filled_contents()
    ensures same { (t : Rows) (darts : List ℤ) (tree first : List Bool) (places : List ℕ) (other : ℕ → ℕ)
        → IsTrue (is_in_range t) → IsTrue (is_consistent t)
        → IsMapWalk (map_of t) (outer_rings (map_of t)) darts tree first places other → (x : Contents)
        → AreFilled (map_of t) (code_of tree first places) darts x
        → x ≡ contents_of_walk (map_of t) darts tree first places }
    ensures filled { (t : Rows) (darts : List ℤ) (tree first : List Bool) (places : List ℕ) (other : ℕ → ℕ)
        → IsTrue (is_in_range t) → IsTrue (is_consistent t)
        → IsMapWalk (map_of t) (outer_rings (map_of t)) darts tree first places other
        → AreFilled (map_of t) (code_of tree first places) darts (contents_of_walk (map_of t) darts tree first places) }
{}

/// So contents that are filled and sorted so from the tour of the outer rings are the contents of the map, and a file
/// that holds the contents of a map stands for its tables.
pub fn built_contents()
    ensures built { (t : Rows) (starts darts : List ℕ) (tree first : List Bool) (places : List ℕ) (x : Contents)
        → IsTrue (is_in_range t) → IsTrue (is_consistent t) → AreOuterDarts t starts
        → IsTour (length t.edges) (next_dart (rotation_rows t))
        (node_row (rotation_rows t)) starts darts tree first places
        → AreFilled (map_of t) (code_of tree first places) (map (signed_edge t.edges) darts) x
        → x ≡ contents_of_map (map_of t) }
    ensures stands { (bytes : List ℕ) (t : Rows) → IsTrue (is_in_range t) → IsTrue (is_consistent t)
        → contents_of (words_of bytes) ≡ contents_of_map (map_of t) → StandsFor bytes t }
{}

/// Tables of one map have one image in each form, whatever the order of their rows.
pub fn one_image()
    ensures { (form : ℕ) (t u : Rows) → Same t u
        → image_of form (contents_of_map (map_of t)) ≡ image_of form (contents_of_map (map_of u)) }
{}
