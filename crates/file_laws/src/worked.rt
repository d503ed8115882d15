//! Worked files: what the definitions compute of them, each the contract of a function that does nothing.

ghost use Rattle.std.specs.Prelude.{◌≡◌, true, false, [], ◌∷◌, ◌++◌, Some, None, length, take, drop};
ghost use Rattle.plane_model.specs.Consistent.{is_consistent};
ghost use Rattle.plane_model.specs.InRange.{is_in_range};
ghost use Rattle.code_laws.specs.declared.seq_fault.SeqFault.TheVariants.{Starts, Ones, Tree, Dual};
ghost use Rattle.file_laws.specs.Layout.{counts_in, words_of, file_words};
ghost use Rattle.file_laws.specs.Held.{contents_of};
ghost use Rattle.file_laws.specs.Faults.{count_fault};
ghost use Rattle.file_laws.specs.Lawful.{content_fault, map_of_file, first_fault, is_lawful, is_whole, has_room_for};
ghost use Rattle.file_laws.specs.declared.fault.FileFault.TheVariants as fault;
ghost use Rattle.file_laws.specs.Image.{bytes_of, image_of};
ghost use Rattle.file_laws.specs.Worked.{two, counts_with, tri, wide_tri, tri_rows, with_word, wide_with, digest_words, sealed, empty, isle, isle_with, isle_rows, plain, plain_with, plain_rows};

/// The file of a triangle in form 1.
pub fn triangle_file()
    ensures tri_length { length tri ≡ 52 }
    ensures tri_words { words_of (bytes_of tri) ≡ tri }
    ensures lawful_tri { is_lawful (sealed tri) ≡ true }
    ensures tri_map { map_of_file (sealed tri) ≡ tri_rows }
    ensures tri_image { image_of 1 (contents_of tri) ≡ sealed tri }
    ensures turned_round { is_lawful (sealed (with_word 24 1)) ≡ true }
    ensures turned_consistent { is_consistent (map_of_file (sealed (with_word 24 1))) ≡ true }
{}

/// The same in form 2: the contents and the map are the same, and each form's image is made of either.
pub fn wide_triangle_file()
    ensures wide_length { length wide_tri ≡ 54 }
    ensures lawful_wide { is_lawful (sealed wide_tri) ≡ true }
    ensures wide_map { map_of_file (sealed wide_tri) ≡ tri_rows }
    ensures wide_contents { contents_of wide_tri ≡ contents_of tri }
    ensures wide_image { image_of 2 (contents_of tri) ≡ sealed wide_tri }
    ensures narrow_image { image_of 1 (contents_of wide_tri) ≡ sealed tri }
    ensures both_whole { is_whole (contents_of wide_tri) ≡ true }
    ensures narrow_room { has_room_for 1 (contents_of wide_tri) ≡ true }
    ensures great_id { is_lawful (sealed (wide_with 29 36028797018963967)) ≡ true }
    ensures no_narrow_room { has_room_for 1 (contents_of (wide_with 29 36028797018963967)) ≡ false }
{}

/// The file of a triangle with a closed edge and a node inside it, with regions and without them.
pub fn island_file()
    ensures isle_lawful { is_lawful (sealed isle) ≡ true }
    ensures isle_map { map_of_file (sealed isle) ≡ isle_rows }
    ensures isle_image { image_of 1 (contents_of isle) ≡ sealed isle }
    ensures isle_consistent { is_consistent (map_of_file (sealed isle)) ≡ true }
    ensures isle_range { is_in_range (map_of_file (sealed isle)) ≡ true }
    ensures plain_lawful { is_lawful (sealed plain) ≡ true }
    ensures plain_map { map_of_file (sealed plain) ≡ plain_rows }
    ensures plain_image { image_of 1 (contents_of plain) ≡ sealed plain }
    ensures plain_consistent { is_consistent (map_of_file (sealed plain)) ≡ true }
    ensures plain_range { is_in_range (map_of_file (sealed plain)) ≡ true }
{}

/// The file of tables without rows.
pub fn smallest_file()
    ensures empty_length { length empty ≡ 33 }
    ensures empty_lawful { is_lawful (sealed empty) ≡ true }
    ensures empty_image { image_of 1 (contents_of empty) ≡ sealed empty }
    ensures empty_map { map_of_file (sealed empty)
        ≡ record { nodes = []; edges = []; faces = []; regions = []; members = [] } }
    ensures empty_want { file_words (counts_with 1 0 0 0 0 0) ≡ 33 }
    ensures empty_wide_want { file_words (counts_with 2 0 0 0 0 0) ≡ 33 }
{}

/// Files that are cut, of another form, or with other counts.
pub fn cut_files()
    ensures cut_10 { first_fault (bytes_of (take 10 tri)) ≡ Some (fault.NotPemb 10) }
    ensures cut_11 { first_fault (bytes_of (take 11 tri)) ≡ Some (fault.Length 15 11) }
    ensures cut_14 { first_fault (bytes_of (take 14 tri)) ≡ Some (fault.Length 15 14) }
    ensures cut_15 { first_fault (bytes_of (take 15 tri)) ≡ Some (fault.Length 52 15) }
    ensures cut_51 { first_fault (bytes_of (take 51 tri)) ≡ Some (fault.Length 52 51) }
    ensures cut_byte { first_fault (take 279 (bytes_of tri)) ≡ Some (fault.NotWords 279) }
    ensures form_0 { first_fault (bytes_of (with_word 1 0)) ≡ Some (fault.UnknownForm 0) }
    ensures form_3 { first_fault (bytes_of (with_word 1 3)) ≡ Some (fault.UnknownForm 3) }
    ensures another_width { first_fault (bytes_of (with_word 1 2)) ≡ Some (fault.Length 54 52) }
    ensures wide_cut { first_fault (bytes_of (take 53 wide_tri)) ≡ Some (fault.Length 54 53) }
    ensures wide_want { file_words (counts_with 1 18446744073709551615 2 1 0 0) ≡ 50188114247416807456 }
    ensures old_digest { first_fault (bytes_of (take 2 (with_word 17 6) ++ digest_words tri ++ drop 6 (with_word 17 6)))
        ≡ Some (fault.Digest 0) }
    ensures no_components { count_fault (counts_with 1 3 2 0 0 0) ≡ Some (fault.Count 8 0) }
    ensures many_nodes { count_fault (counts_with 1 3 2 1 16777214 0) ≡ Some (fault.Count 9 16777214) }
    ensures as_many_regions { count_fault (counts_with 1 3 2 1 0 16777216) ≡ None }
    ensures many_regions { count_fault (counts_with 1 3 2 1 0 16777217) ≡ Some (fault.Count 10 16777217) }
    ensures many_edges { count_fault (counts_with 1 16777217 2 1 0 0) ≡ Some (fault.Count 6 16777217) }
    ensures many_tree_edges { count_fault (counts_with 1 3 4 1 0 0) ≡ Some (fault.Count 7 4) }
    ensures many_node_pointers { count_fault (record (counts_with 1 3 2 1 0 0) { node_back = 4 })
        ≡ Some (fault.Count 11 4) }
    ensures many_edge_pointers { count_fault (record (counts_with 1 3 2 1 0 0) { node_back = 3; edge_back = 4 })
        ≡ Some (fault.Count 12 4) }
    ensures many_face_pointers { count_fault (record (counts_with 1 3 2 1 0 0) { edge_back = 3; face_back = 2 })
        ≡ Some (fault.Count 13 2) }
    ensures many_region_pointers { count_fault (record (counts_with 1 3 2 1 0 0) { face_back = 1; region_back = 1 })
        ≡ Some (fault.Count 14 1) }
{}

/// One word of the triangle changed.
pub fn damaged_triangles()
    ensures wrong_ones { first_fault (sealed (with_word 15 26)) ≡ Some (fault.Sequence (Ones 3)) }
    ensures wrong_tree { first_fault (sealed (with_word 17 6)) ≡ Some (fault.Sequence (Tree 0)) }
    ensures wrong_directory { first_fault (sealed (with_word 16 (two 0 5))) ≡ Some (fault.Directory 2 1 4 5) }
    ensures wrong_low_part { first_fault (sealed (with_word 27 864691129528877056)) ≡ Some (fault.Name 33 0) }
    ensures wrong_place { first_fault (sealed (with_word 29 32)) ≡ Some (fault.Name 34 1) }
    ensures wrong_high_ones { first_fault (sealed (with_word 25 5)) ≡ Some (fault.Name 32 1) }
    ensures wrong_high_counts { content_fault (with_word 26 (two 0 4)) ≡ Some (fault.Name 32 1) }
    ensures wrong_mark { first_fault (sealed (with_word 30 1)) ≡ Some (fault.Name 36 1) }
    ensures wrong_component { first_fault (sealed (with_word 45 1)) ≡ Some (fault.Place 17 0) }
    ensures wrong_start { first_fault (sealed (with_word 17 5)) ≡ Some (fault.Start 0) }
    ensures wrong_padding { first_fault (sealed (with_word 15 91)) ≡ Some (fault.Padding 15) }
    ensures tree_counts { content_fault (with_word 18 (two 1 2)) ≡ Some (fault.Directory 4 0 0 1) }
    ensures tree_nodes { content_fault (with_word 19 7) ≡ Some (fault.Directory 5 0 0 7) }
    ensures dual_counts { content_fault (with_word 21 (two 0 3)) ≡ Some (fault.Directory 7 1 1 3) }
    ensures dual_nodes { content_fault (with_word 22 1) ≡ Some (fault.Directory 8 0 0 1) }
    ensures edge_order { content_fault (with_word 36 57) ≡ Some (fault.Name 44 0) }
    ensures face_order { content_fault (with_word 42 1) ≡ Some (fault.Name 54 0) }
    ensures no_regions_counts { first_fault (sealed (with_word 47 2)) ≡ Some (fault.RegionPart 21 0) }
    ensures no_regions_names { content_fault (with_word 48 1) ≡ Some (fault.RegionPart 62 1) }
    ensures no_regions_member { first_fault (sealed (with_word 51 (two 0 1))) ≡ Some (fault.RegionPart 25 1) }
{}

/// One word of the island changed.
pub fn damaged_islands()
    ensures isle_starts { content_fault (isle_with 23 (two 0 0)) ≡ Some (fault.Sequence (Starts 1)) }
    ensures isle_dual { content_fault (isle_with 20 9) ≡ Some (fault.Sequence (Dual 1)) }
    ensures isle_pointer { content_fault (isle_with 34 0) ≡ Some (fault.Name 34 2) }
    ensures isle_order { content_fault (isle_with 49 (two 1 0)) ≡ Some (fault.Place 18 1) }
    ensures isle_isolated { content_fault (isle_with 50 3) ≡ Some (fault.Place 19 0) }
    ensures isle_padding { content_fault (isle_with 61 (two 1 5)) ≡ Some (fault.Padding 61) }
    ensures regions_unopened { content_fault (isle_with 51 6) ≡ Some (fault.RegionPart 20 0) }
    ensures regions_unclosed { content_fault (isle_with 51 7) ≡ Some (fault.RegionPart 20 4) }
    ensures regions_counts { content_fault (isle_with 52 (two 0 1)) ≡ Some (fault.RegionPart 21 1) }
    ensures regions_tree { content_fault (isle_with 53 1) ≡ Some (fault.RegionPart 22 0) }
    ensures regions_places { content_fault (isle_with 57 5) ≡ Some (fault.RegionPart 64 0) }
    ensures regions_member { content_fault (isle_with 61 3) ≡ Some (fault.RegionPart 25 2) }
    ensures plain_counts { first_fault (sealed (plain_with 51 1)) ≡ Some (fault.RegionPart 21 0) }
    ensures plain_member { first_fault (sealed (plain_with 56 1)) ≡ Some (fault.RegionPart 25 2) }
    ensures plain_padding { first_fault (sealed (plain_with 56 (two 0 1))) ≡ Some (fault.Padding 56) }
{}
