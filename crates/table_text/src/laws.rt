//! Laws of the texts, each the contract of a function that does nothing.

ghost use Rattle.std.specs.Prelude.{◌≡◌, ◌==◌, ◌+◌, ◌*◌, ◌≤◌, IsTrue, None, Ok, filter, length, not};
ghost use Rattle.topo_base.specs.declared.refusal.Table.{Table};
ghost use Rattle.topo_base.specs.declared.refusal.Table.TheVariants as table;
ghost use Rattle.plane_model.specs.Rows.{Rows};
ghost use Rattle.plane_model.specs.PlaneMap.{Same, has_map, map_of};
ghost use Rattle.plane_model.specs.InRange.{is_in_range};
ghost use Rattle.plane_model.specs.Consistent.{is_consistent};
ghost use Rattle.plane_model.specs.Faults.{first_fault};
ghost use Rattle.plane_model.specs.Reading.{edge_rows, face_rows, member_rows, node_rows, region_rows};
ghost use Rattle.plane_model.specs.Texts.{table_text};
ghost use Rattle.table_text.specs.RowsOfMap.{AreSorted, rows_of_map};
ghost use Rattle.table_text.specs.TextsRead.{ReadsBack, tables_read};

/// Where tables are in range and have a map, the five texts of the map read as its rows, rising by id.
pub fn texts_read()
    ensures nodes { (t : Rows) → IsTrue (is_in_range t) → IsTrue (has_map t)
        → node_rows (table_text (map_of t) table.Node) ≡ Ok (rows_of_map (map_of t)).nodes }
    ensures edges { (t : Rows) → IsTrue (is_in_range t) → IsTrue (has_map t)
        → edge_rows (table_text (map_of t) table.Edge) ≡ Ok (rows_of_map (map_of t)).edges }
    ensures faces { (t : Rows) → IsTrue (is_in_range t) → IsTrue (has_map t)
        → face_rows (table_text (map_of t) table.Face) ≡ Ok (rows_of_map (map_of t)).faces }
    ensures regions { (t : Rows) → IsTrue (is_in_range t) → IsTrue (has_map t)
        → region_rows (table_text (map_of t) table.Region) ≡ Ok (rows_of_map (map_of t)).regions }
    ensures members { (t : Rows) → IsTrue (is_in_range t) → IsTrue (has_map t)
        → member_rows (table_text (map_of t) table.Member) ≡ Ok (rows_of_map (map_of t)).members }
    ensures all { (t : Rows) → IsTrue (is_in_range t) → IsTrue (has_map t)
        → tables_read (table_text (map_of t)) ≡ Ok (rows_of_map (map_of t)) }
{}

/// The rows of a map are the rows of the tables that it came from, in rising order, without those for face 0.
pub fn rows_are_sorted()
    ensures nodes { (t : Rows) → IsTrue (has_map t) → AreSorted (λ r. r.id) t.nodes (rows_of_map (map_of t)).nodes }
    ensures edges { (t : Rows) → IsTrue (has_map t) → AreSorted (λ r. r.id) t.edges (rows_of_map (map_of t)).edges }
    ensures faces { (t : Rows) → IsTrue (has_map t)
        → AreSorted (λ r. r.id) (filter (λ r. not (r.id == 0)) t.faces) (rows_of_map (map_of t)).faces }
    ensures regions { (t : Rows) → IsTrue (has_map t)
        → AreSorted (λ r. r.id) t.regions (rows_of_map (map_of t)).regions }
    ensures members { (t : Rows) → IsTrue (has_map t)
        → AreSorted (λ r. r.face) t.members (rows_of_map (map_of t)).members }
{}

/// The rows of a map describe the same map as the tables that it came from, are in range where these are, and are
/// consistent exactly where these are; consistent tables have a map.
pub fn rows_keep_the_map()
    ensures same { (t : Rows) → IsTrue (has_map t) → Same (rows_of_map (map_of t)) t }
    ensures in_range { (t : Rows) → IsTrue (is_in_range t) → IsTrue (has_map t)
        → IsTrue (is_in_range (rows_of_map (map_of t))) }
    ensures consistent { (t : Rows) → IsTrue (has_map t) → is_consistent (rows_of_map (map_of t)) ≡ is_consistent t }
    ensures accepted { (t : Rows) → IsTrue (is_in_range t) → IsTrue (is_consistent t)
        → first_fault (rows_of_map (map_of t)) ≡ None }
    ensures has_map { (t : Rows) → IsTrue (is_consistent t) → IsTrue (has_map t) }
{}

/// The texts of a map read back: as tables that describe the same map, and whose texts are these again.
pub fn texts_read_back()
    ensures back { (t : Rows) → IsTrue (is_in_range t) → IsTrue (has_map t) → ReadsBack t (rows_of_map (map_of t)) }
    ensures only { (t back : Rows) → IsTrue (is_in_range t) → IsTrue (has_map t)
        → tables_read (table_text (map_of t)) ≡ Ok back → ReadsBack t back }
    ensures again { (t back : Rows) (which : Table) → IsTrue (is_in_range t) → IsTrue (has_map t)
        → tables_read (table_text (map_of t)) ≡ Ok back → table_text (map_of back) which ≡ table_text (map_of t) which }
{}

/// Maps whose five texts are equal are one map.
pub fn texts_tell_the_map()
    ensures { (t u : Rows) → IsTrue (is_in_range t) → IsTrue (is_in_range u) → IsTrue (has_map t) → IsTrue (has_map u)
        → ((which : Table) → table_text (map_of t) which ≡ table_text (map_of u) which) → map_of t ≡ map_of u }
{}

/// A text has its header and at most 20, 40 or 142 bytes a row. So up to 7,561,561 edges each text is within 2^30
/// bytes.
pub fn text_lengths()
    ensures nodes { (t : Rows) → IsTrue (is_in_range t) → IsTrue (has_map t)
        → length (table_text (map_of t) table.Node) ≤ 24 + 40 * length t.nodes }
    ensures edges { (t : Rows) → IsTrue (is_in_range t) → IsTrue (has_map t)
        → length (table_text (map_of t) table.Edge) ≤ 80 + 142 * length t.edges }
    ensures faces { (t : Rows) → IsTrue (is_in_range t) → IsTrue (has_map t)
        → length (table_text (map_of t) table.Face) ≤ 8 + 20 * length t.faces }
    ensures regions { (t : Rows) → IsTrue (is_in_range t) → IsTrue (has_map t)
        → length (table_text (map_of t) table.Region) ≤ 17 + 40 * length t.regions }
    ensures members { (t : Rows) → IsTrue (is_in_range t) → IsTrue (has_map t)
        → length (table_text (map_of t) table.Member) ≤ 18 + 40 * length t.members }
    ensures all { (t : Rows) (which : Table) → IsTrue (is_in_range t) → IsTrue (has_map t) → length t.edges ≤ 7_561_561
        → length (table_text (map_of t) which) ≤ 1_073_741_824 }
{}
