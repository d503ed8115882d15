//! Laws of regions by number, each the contract of a function that does nothing.

ghost use Rattle.std.specs.Prelude.{◌≡◌, ◌<◌, Bool, IsTrue, List, length, find, map, option_map, slice_index, Some, ℕ};
ghost use Rattle.plane_model.specs.InRange.{is_in_range};
ghost use Rattle.plane_model.specs.Rows.{Rows};
ghost use Rattle.plane_model.specs.PlaneMap.{PlaneMap, map_of};
ghost use Rattle.plane_model.specs.Regions.{is_region_forest, upward};
ghost use Rattle.plane_model.specs.Sets.{has};
ghost use Rattle.plane_model.specs.Faults.{region_fault};
ghost use Rattle.region_tree.specs.Nesting.{chain, common_number};
ghost use Rattle.region_tree.specs.Numbering.{AreMembers, RegionsAreNumbered};
ghost use Rattle.region_tree.specs.Parts.{member_places, region_bits, region_ids};
ghost use Rattle.region_tree.specs.Tables.{region_map, region_tables};

/// The regions of a forest by number give its regions and members back.
pub fn regions_given_back()
    ensures regions { (t : Rows) → IsTrue (is_in_range t) → IsTrue (is_region_forest t)
        → RegionsAreNumbered (map_of t) (region_bits (map_of t)) (region_ids (map_of t)) }
    ensures members { (t : Rows) → IsTrue (is_in_range t) → IsTrue (is_region_forest t)
        → AreMembers (map_of t) (region_ids (map_of t)) (member_places (map_of t)) }
{}

/// Where regions are numbered, their chains are those of the map, and so is the first region of one chain in another.
pub fn chains_by_number()
    ensures chain { (m : PlaneMap) (bits : List Bool) (ids : List ℕ) (x : ℕ) → RegionsAreNumbered m bits ids
        → x < length ids → upward (length m.regions.keys) m (Some (slice_index ids x))
        ≡ map (slice_index ids) (chain bits x) }
    ensures common { (m : PlaneMap) (bits : List Bool) (ids : List ℕ) (x y : ℕ) → RegionsAreNumbered m bits ids
        → x < length ids → y < length ids
        → find (has (upward (length m.regions.keys) m (Some (slice_index ids y))))
        (upward (length m.regions.keys) m (Some (slice_index ids x)))
        ≡ option_map (slice_index ids) (common_number bits x y) }
{}

/// The other tables make no difference to regions and members: neither to what is first wrong with them nor to their
/// numbers.
pub fn other_tables()
    ensures fault { (t : Rows) → region_fault (region_tables t.regions t.members t.faces) ≡ region_fault t }
    ensures forest { (t : Rows) → is_region_forest (region_tables t.regions t.members t.faces) ≡ is_region_forest t }
    ensures bits { (t : Rows) → region_bits (region_map t.regions t.members t.faces) ≡ region_bits (map_of t) }
    ensures ids { (t : Rows) → region_ids (region_map t.regions t.members t.faces) ≡ region_ids (map_of t) }
    ensures members { (t : Rows) → member_places (region_map t.regions t.members t.faces) ≡ member_places (map_of t) }
{}
