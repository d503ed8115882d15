//! What the definitions of files and of their maps say, each law the contract of a function that does nothing.

ghost use Rattle.std.specs.Prelude.{◌≡◌, ◌*◌, ◌+◌, ◌^◌, ◌≤◌, ◌<◌, ◌==◌, ◌⊎◌, true, false, ℕ, ℤ, List, Some, map, length, filter, option_map, slice_index, IsTrue};
ghost use Rattle.plane_model.specs.PlaneMap.{map_of, ring, round};
ghost use Rattle.plane_model.specs.Sets.{has_edge};
ghost use Rattle.plane_model.specs.Rotation.{is_rotation_system};
ghost use Rattle.plane_model.specs.Component.{component, is_plane};
ghost use Rattle.plane_model.specs.Faces.{is_labelled, is_placed, is_outer, outer_ring};
ghost use Rattle.plane_model.specs.Regions.{is_region_forest};
ghost use Rattle.plane_model.specs.Consistent.{is_consistent, size};
ghost use Rattle.plane_model.specs.InRange.{is_in_range};
ghost use Rattle.code_laws.specs.Code.{component_of, start_of};
ghost use Rattle.code_laws.specs.Orbits.{orbit};
ghost use Rattle.file_laws.specs.Layout.{HeaderCounts, counts_in, words_of, header_words, file_words, section, section_from, section_numbers, section_words, sections, total_words, is_code_section};
ghost use Rattle.file_laws.specs.Contents.{Contents};
ghost use Rattle.file_laws.specs.Held.{contents_of};
ghost use Rattle.region_tree.specs.Nesting.{region_at};
ghost use Rattle.region_tree.specs.Numbering.{RegionsAreNumbered};
ghost use Rattle.file_laws.specs.MapOfFile.{signed_at, face_at_place, rows_of_contents};
ghost use Rattle.file_laws.specs.Lawful.{is_lawful, is_whole, has_room_for, map_of_file, file_size};
ghost use Rattle.file_laws.specs.Agreement.{Agrees, starts_of};
ghost use Rattle.file_laws.specs.Counted.{HasCounts};

/// The sections of a file follow each other without gaps, in the order of their numbers' list, and fill the file.
pub fn sections_follow()
    ensures numbers { (c : HeaderCounts) → map (λ s. s.number) (sections c) ≡ section_numbers }
    ensures first { (c : HeaderCounts) → section_from c 1 ≡ header_words }
    ensures next { (c : HeaderCounts) (i : ℕ)
        → i < 44 → section_from c (slice_index section_numbers (i + 1))
        ≡ section_from c (slice_index section_numbers i) + section_words (section c (slice_index section_numbers i)) }
    ensures last { (c : HeaderCounts) → section_from c 25 + section_words (section c 25) ≡ file_words c }
    ensures within { (c : HeaderCounts) (number : ℕ)
        → section_from c number + section_words (section c number) ≤ file_words c }
{}

/// A lawful file is of form 1 or of form 2.
pub fn two_forms()
    ensures { (bytes : List ℕ) → IsTrue (is_lawful bytes)
        → ((counts_in (words_of bytes)).form ≡ 1) ⊎ ((counts_in (words_of bytes)).form ≡ 2) }
{}

/// A lawful file has exactly the length that its form and its counts give, its code is small, and none is large.
pub fn lawful_sizes()
    ensures length { (bytes : List ℕ) → IsTrue (is_lawful bytes)
        → length bytes ≡ 8 * file_words (counts_in (words_of bytes)) }
    ensures small { (bytes : List ℕ) → IsTrue (is_lawful bytes)
        → 64 * total_words (filter is_code_section (sections (counts_in (words_of bytes))))
        ≤ 6 * (counts_in (words_of bytes)).edges + 16384 }
    ensures few { (bytes : List ℕ) → IsTrue (is_lawful bytes) → length bytes < 2 ^ 30 }
{}

/// Whole contents have room in form 2, and what a lawful file holds has room in the file's own form.
pub fn rooms()
    ensures whole { (c : Contents) → IsTrue (is_whole c) → IsTrue (has_room_for 2 c) }
    ensures old { (bytes : List ℕ) → IsTrue (is_lawful bytes) → (counts_in (words_of bytes)).form ≡ 1
        → IsTrue (has_room_for 1 (contents_of (words_of bytes))) }
    ensures own { (bytes : List ℕ) → IsTrue (is_lawful bytes)
        → IsTrue (has_room_for (counts_in (words_of bytes)).form (contents_of (words_of bytes))) }
{}

/// The map of whole contents agrees with their code, position by position.
pub fn whole_agrees()
    ensures { (c : Contents) → IsTrue (is_whole c) → Agrees c (map_of (rows_of_contents c)) }
{}

/// The map of whole contents is consistent and in range, part by part.
pub fn whole_is_consistent()
    ensures range { (c : Contents) → IsTrue (is_whole c) → IsTrue (is_in_range (rows_of_contents c)) }
    ensures rotation { (c : Contents) → IsTrue (is_whole c) → IsTrue (is_rotation_system (rows_of_contents c)) }
    ensures labelled { (c : Contents) → IsTrue (is_whole c) → IsTrue (is_labelled (map_of (rows_of_contents c))) }
    ensures plane { (c : Contents) → IsTrue (is_whole c) → IsTrue (is_plane (map_of (rows_of_contents c))) }
    ensures placed { (c : Contents) → IsTrue (is_whole c) → IsTrue (is_placed (map_of (rows_of_contents c))) }
    ensures regions { (c : Contents) → IsTrue (is_whole c) → IsTrue (is_region_forest (rows_of_contents c)) }
    ensures consistent { (c : Contents) → IsTrue (is_whole c) → IsTrue (is_consistent (rows_of_contents c)) }
{}

/// The outer rings of the map are those of the starts of components.
pub fn starts_are_outer_rings()
    ensures { (c : Contents) (r : ℤ) → IsTrue (is_whole c)
        → is_outer (map_of (rows_of_contents c)) r ≡ has_edge (starts_of c) r }
{}

/// What the sections of a lawful file hold is whole, whatever the file's form: so the map of a lawful file is
/// consistent and in range, and the size that bounds are measured by is the map's.
pub fn lawful_is_whole()
    ensures whole { (bytes : List ℕ) → IsTrue (is_lawful bytes) → IsTrue (is_whole (contents_of (words_of bytes))) }
    ensures consistent { (bytes : List ℕ) → IsTrue (is_lawful bytes) → IsTrue (is_consistent (map_of_file bytes)) }
    ensures range { (bytes : List ℕ) → IsTrue (is_lawful bytes) → IsTrue (is_in_range (map_of_file bytes)) }
    ensures size { (bytes : List ℕ) → IsTrue (is_lawful bytes)
        → file_size (counts_in (words_of bytes)) ≡ size (map_of (map_of_file bytes)) }
{}

/// Rings and rounds of the map are orbits of positions, each from the same position on, and components of the map are
/// those of the code. The outer ring of a component is that of its start.
pub fn parts_by_position()
    ensures rings { (c : Contents) → IsTrue (is_whole c) → (p : ℕ) → p < length c.code.a
        → ring (map_of (rows_of_contents c)) (signed_at c p) ≡ map (signed_at c) (orbit c.code false p) }
    ensures rounds { (c : Contents) → IsTrue (is_whole c) → (p : ℕ) → p < length c.code.a
        → round (map_of (rows_of_contents c)) (signed_at c p) ≡ map (signed_at c) (orbit c.code true p) }
    ensures components { (c : Contents) → IsTrue (is_whole c) → (p q : ℕ) → p < length c.code.a → q < length c.code.a
        → has_edge (component (map_of (rows_of_contents c)) (signed_at c p)) (signed_at c q)
        ≡ (component_of c.code q == component_of c.code p) }
    ensures outer { (c : Contents) → IsTrue (is_whole c) → (p : ℕ) → p < length c.code.a
        → outer_ring (map_of (rows_of_contents c)) (signed_at c p)
        ≡ Some (signed_at c (start_of c.code (component_of c.code p))) }
{}

/// The map of whole contents has as many nodes, edges, faces other than 0, components and regions as they have.
pub fn whole_counts()
    ensures { (c : Contents) → IsTrue (is_whole c) → HasCounts c (map_of (rows_of_contents c)) }
{}

/// The regions of whole contents give the regions and members of their map back: each region has one number and its
/// parent is the region of the innermost pair round it, and the face at a place is in the region that stands there.
pub fn regions_by_number()
    ensures numbered { (c : Contents) → IsTrue (is_whole c)
        → RegionsAreNumbered (map_of (rows_of_contents c)) c.region_bits c.regions }
    ensures members { (c : Contents) → IsTrue (is_whole c) → (place : ℕ) → place ≤ length c.faces
        → (map_of (rows_of_contents c)).members.at (face_at_place c place)
        ≡ option_map (slice_index c.regions) (region_at c.members place) }
{}
