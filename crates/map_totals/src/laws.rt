//! What the totals say, each law the contract of a function that does nothing.

ghost use Rattle.std.specs.Prelude.{◌≡◌};
ghost use Rattle.plane_model.specs.Rows.{Rows};
ghost use Rattle.plane_model.specs.PlaneMap.{Same, map_of};
ghost use Rattle.map_totals.specs.Totals.{face_total, node_total, adjacent_total, most_total_words};

/// Tables that describe one map have the same totals, by as many words: the order of rows and a row for face 0 make no
/// difference.
pub fn same_map_same_totals()
    ensures face { (t u : Rows) → Same t u → face_total (map_of t) ≡ face_total (map_of u) }
    ensures node { (t u : Rows) → Same t u → node_total (map_of t) ≡ node_total (map_of u) }
    ensures adjacent { (t u : Rows) → Same t u → adjacent_total (map_of t) ≡ adjacent_total (map_of u) }
    ensures words { (t u : Rows) → Same t u → most_total_words (map_of t) ≡ most_total_words (map_of u) }
{}
