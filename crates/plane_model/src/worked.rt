//! Worked maps and texts: what the definitions compute of them, each the contract of a function that does nothing.

ghost use Rattle.std.specs.Prelude.{◌≡◌, pos, true, false, [], ◌∷◌, ◌++◌, Some, None, Ok, Err, codes, replicate};
ghost use Rattle.topo_base.specs.declared.refusal.Table.TheVariants as table;
ghost use Rattle.topo_base.specs.declared.refusal.Column.TheVariants as column;
ghost use Rattle.topo_base.specs.declared.refusal.Refusal.TheVariants as refusal;
ghost use Rattle.plane_model.specs.PlaneMap.{map_of, ring, rings};
ghost use Rattle.plane_model.specs.Component.{components};
ghost use Rattle.plane_model.specs.Lists.{holes};
ghost use Rattle.plane_model.specs.Consistent.{is_consistent, size};
ghost use Rattle.plane_model.specs.Answers.{answers};
ghost use Rattle.plane_model.specs.Faults.{first_fault};
ghost use Rattle.plane_model.specs.Reading.{node_rows, edge_rows, face_rows};
ghost use Rattle.plane_model.specs.Hops.{distance, hops};
ghost use Rattle.plane_model.specs.Border.{border};
ghost use Rattle.plane_model.specs.Texts.{table_text};
ghost use Rattle.plane_model.specs.Worked.{edge, edge_header, island, island_in_regions, isolated, loop, member, minus, node, region, tables, theta, torus, triangle, triangle_edges, triangles, two_triangles};

/// Worked maps: what is consistent, and rings and components by their smallest signed edges.
pub fn maps()
    ensures triangle { is_consistent triangle ≡ true }
    ensures triangle_rings { rings (map_of triangle) ≡ pos 1 ∷ minus 1 ∷ [] }
    ensures triangle_ring { ring (map_of triangle) (minus 2) ≡ minus 2 ∷ minus 1 ∷ minus 3 ∷ [] }
    ensures island { is_consistent island ≡ true }
    ensures island_holes { holes (map_of island) 1 ≡ minus 4 ∷ [] }
    ensures island_size { size (map_of island) ≡ 11 }
    ensures regions { is_consistent island_in_regions ≡ true }
    ensures two_triangles { is_consistent two_triangles ≡ true }
    ensures two_rings { rings (map_of two_triangles) ≡ pos 1 ∷ minus 1 ∷ pos 4 ∷ minus 4 ∷ [] }
    ensures two_components { components (map_of two_triangles) ≡ pos 1 ∷ pos 4 ∷ [] }
    ensures theta { is_consistent theta ≡ true }
    ensures torus { is_consistent torus ≡ false }
    ensures six_triangles { is_consistent (triangles 6) ≡ true }
{}

/// Answers over worked maps.
pub fn answers_of_maps()
    ensures nothing { answers (map_of (tables [] [] [])) (codes "face 0\ncounts\n")
        ≡ codes "face 0:\ncounts: 0 0 0 0 0\n" }
    ensures closed_edge { answers (map_of (tables (1 ∷ []) (loop 1 ∷ []) (1 ∷ []))) (codes "ring 1\nnode 1\nface 0\n")
        ≡ codes "ring 1: 1\nnode 1: 1 -1\nface 0: -1\n" }
    ensures bridge { answers (map_of (tables (1 ∷ 2 ∷ []) (edge 1 1 2 (minus 1) (pos 1) 0 0 ∷ []) []))
        (codes "ring 1\nnode 2\nadjacent 0\n") ≡ codes "ring 1: 1 -1\nnode 2: -1\nadjacent 0:\n" }
    ensures triangle { answers (map_of triangle) (codes "face 1\nface 0\nnode 1\nnode 2\nnode 3\nring 1\nnext -1\nends -1\nsides 1\nadjacent 0\ncontains 1\nislands 0\ncounts\n") ≡ codes "face 1: 1 2 3\nface 0: -1 -3 -2\nnode 1: 1 -3\nnode 2: -1 2\nnode 3: -2 3\nring 1: 1 2 3\nnext -1: -3\nends -1: 2 1\nsides 1: 1 0\nadjacent 0: 1\ncontains 1: 0\nislands 0: -1\ncounts: 3 3 1 1 0\n" }
    ensures island { answers (map_of island) (codes "face 1\nadjacent 1\nislands 1\nislands 2\ncontains 4\ncontains 5\nnode 5\ncounts\n") ≡ codes "face 1: 1 2 3 -4\nadjacent 1: 0 2\nislands 1: -4\nislands 2: n5\ncontains 4: 1\ncontains 5: 2\nnode 5:\ncounts: 5 4 2 2 0\n" }
    ensures two_triangles { answers (map_of two_triangles) (codes "ring -2\nnode 2\nface 0\nislands 0\ncounts\n")
        ≡ codes "ring -2: -2 -1 -3\nnode 2: -1 2\nface 0: -1 -3 -2 -4 -6 -5\nislands 0: -1 -4\ncounts: 6 6 2 2 0\n" }
    ensures theta { answers (map_of theta) (codes "node 1\nnode 2\nring -3")
        ≡ codes "node 1: 1 2 3\nnode 2: -1 -3 -2\nring -3: -3 1\n" }
    ensures regions { answers (map_of island_in_regions) (codes
        "regions 1\nregions 2\nregions 0\ncommon 1 2\ncommon 0 1\ncounts")
        ≡ codes "regions 1: 2 1\nregions 2: 1\nregions 0:\ncommon 1 2: 1\ncommon 0 1:\ncounts: 5 4 2 2 2\n" }
    ensures other_lines { answers (map_of triangle) (codes "\n# x\nnode 99\nnode x\nnode 0\n" ++ replicate 256 97
        ++ codes "\nnext 1") ≡ codes "node 99: unknown\nbad\nbad\nlong\nnext 1: 2\n" }
    ensures carriage_return { answers (map_of triangle) (codes "node 2\r\n") ≡ codes "node 2: -1 2\n" }
    ensures greatest_id { answers (map_of (tables (1 ∷ []) (loop 9223372036854775807 ∷ []) (1 ∷ [])))
        (codes "ring -9223372036854775807\nring -9223372036854775808\n")
        ≡ codes "ring -9223372036854775807: -9223372036854775807\nbad\n" }
{}

/// The first fault of worked tables.
pub fn faults_of_tables()
    ensures triangle { first_fault triangle ≡ None }
    ensures island { first_fault island ≡ None }
    ensures regions { first_fault island_in_regions ≡ None }
    ensures id_twice { first_fault (tables (1 ∷ 2 ∷ 3 ∷ 2 ∷ []) triangle_edges (0 ∷ 1 ∷ []))
        ≡ Some (refusal.IdTwice table.Node 2) }
    ensures no_node { first_fault (tables (1 ∷ 2 ∷ []) triangle_edges (1 ∷ [])) ≡ Some (refusal.NoNode 2 3) }
    ensures no_edge { first_fault (tables (1 ∷ 2 ∷ 3 ∷ []) (edge 1 1 2 (pos 9) (minus 3) 1 0
        ∷ edge 2 2 3 (pos 3) (minus 1) 1 0 ∷ edge 3 3 1 (pos 1) (minus 2) 1 0 ∷ []) (0 ∷ 1 ∷ []))
        ≡ Some (refusal.NoEdge 1 (pos 9)) }
    ensures no_face { first_fault (tables (1 ∷ 2 ∷ 3 ∷ []) (edge 1 1 2 (pos 2) (minus 3) 1 0
        ∷ edge 2 2 3 (pos 3) (minus 1) 1 0 ∷ edge 3 3 1 (pos 1) (minus 2) 7 0 ∷ []) (0 ∷ 1 ∷ []))
        ≡ Some (refusal.NoFace table.Edge 3 7) }
    ensures wrong_end { first_fault (tables (1 ∷ 2 ∷ 3 ∷ []) (edge 1 1 2 (pos 3) (minus 3) 1 0
        ∷ edge 2 2 3 (pos 3) (minus 1) 1 0 ∷ edge 3 3 1 (pos 1) (minus 2) 1 0 ∷ []) (0 ∷ 1 ∷ []))
        ≡ Some (refusal.WrongEnd (pos 1) (pos 3)) }
    ensures next_twice { first_fault (tables (1 ∷ []) (edge 1 1 1 (pos 1) (minus 1) 0 0
        ∷ edge 2 1 1 (pos 1) (minus 2) 0 0 ∷ []) []) ≡ Some (refusal.NextTwice (pos 1)) }
    ensures split_node { first_fault (tables (1 ∷ []) (edge 1 1 1 (pos 1) (minus 1) 0 0
        ∷ edge 2 1 1 (pos 2) (minus 2) 0 0 ∷ []) []) ≡ Some (refusal.SplitNode 1) }
    ensures node_with_face { first_fault (record triangle { nodes = isolated 1 0 ∷ node 2 ∷ node 3 ∷ [] })
        ≡ Some (refusal.NodeFace 1) }
    ensures lone_node { first_fault (record triangle { nodes = node 1 ∷ node 2 ∷ node 3 ∷ node 7 ∷ [] })
        ≡ Some (refusal.NodeFace 7) }
    ensures mixed_ring { first_fault (tables (1 ∷ 2 ∷ 3 ∷ []) (edge 1 1 2 (pos 2) (minus 3) 1 0
        ∷ edge 2 2 3 (pos 3) (minus 1) 0 0 ∷ edge 3 3 1 (pos 1) (minus 2) 1 0 ∷ []) (0 ∷ 1 ∷ []))
        ≡ Some (refusal.MixedRing (pos 1) (pos 2)) }
    ensures euler { first_fault torus ≡ Some (refusal.Euler 1 1 2 1) }
    ensures unplaced { first_fault (tables (1 ∷ 2 ∷ []) (edge 1 1 1 (pos 1) (minus 1) 1 2
        ∷ edge 2 2 2 (pos 2) (minus 2) 2 1 ∷ []) (1 ∷ 2 ∷ [])) ≡ Some (refusal.Unplaced 1) }
    ensures bare_face { first_fault (tables (1 ∷ []) (loop 1 ∷ []) (1 ∷ 5 ∷ [])) ≡ Some (refusal.BareFace 5) }
    ensures face_cycle { first_fault (tables (1 ∷ []) (edge 1 1 1 (pos 1) (minus 1) 0 0 ∷ []) [])
        ≡ Some (refusal.FaceCycle 2 1 1) }
    ensures region_cycle { first_fault (record island_in_regions
        { regions = region 1 (Some 2) ∷ region 2 (Some 1) ∷ [] }) ≡ Some (refusal.RegionCycle 1) }
    ensures no_member_region { first_fault (record triangle { members = member 1 1 ∷ [] })
        ≡ Some (refusal.NoRegion table.Member 1 1) }
    ensures member_twice { first_fault (record triangle
        { regions = region 1 None ∷ []; members = member 1 1 ∷ member 1 1 ∷ [] }) ≡ Some (refusal.MemberTwice 1) }
{}

/// Rows and refusals of worked texts.
pub fn rows_of_texts()
    ensures triangle { edge_rows (edge_header ++ codes "1,1,2,2,-3,1,0\n2,2,3,3,-1,1,0\n3,3,1,1,-2,1,0\n")
        ≡ Ok triangle_edges }
    ensures other_columns { edge_rows (codes "edge_id,start_node,end_node,next_left_edge,abs_next_left_edge,next_right_edge,abs_next_right_edge,left_face,right_face,geom\r\n1,1,2,2,2,-3,3,1,0,01ab\r\n2,2,3,3,3,-1,1,1,0,\r\n\"3\",3,1,1,1,-2,2,1,0,x") ≡ Ok triangle_edges }
    ensures nodes { node_rows (codes "node_id,containing_face\n1,\n5,2\n") ≡ Ok (node 1 ∷ isolated 5 2 ∷ []) }
    ensures no_header { edge_rows [] ≡ Err (refusal.ColumnMissing table.Edge column.EdgeId) }
    ensures one_column { edge_rows (codes "edge_id\n") ≡ Err (refusal.ColumnMissing table.Edge column.StartNode) }
    ensures no_containing_face { node_rows (codes "node_id\n1\n")
        ≡ Err (refusal.ColumnMissing table.Node column.ContainingFace) }
    ensures column_twice { face_rows (codes "face_id,face_id\n1,1\n")
        ≡ Err (refusal.ColumnTwice table.Face column.FaceId) }
    ensures row_shape { face_rows (codes "face_id,mbr\n1,x\n2\n") ≡ Err (refusal.RowShape table.Face 2 1 2) }
    ensures too_great { edge_rows (edge_header ++ codes "9223372036854775808,1,1,1,-1,1,0\n")
        ≡ Err (refusal.BadNumber table.Edge 1 column.EdgeId) }
    ensures beyond_32_bits { edge_rows (edge_header ++ codes "2147483648,1,1,2147483648,-2147483648,1,0\n")
        ≡ Ok (loop 2147483648 ∷ []) }
    ensures empty_end { edge_rows (edge_header ++ codes "1,1,2,2,-3,1,0\n2,2,,3,-1,1,0\n")
        ≡ Err (refusal.EmptyNumber table.Edge 2 column.EndNode) }
    ensures leading_zero { face_rows (codes "face_id\n01\n") ≡ Err (refusal.BadNumber table.Face 1 column.FaceId) }
    ensures zero_next { edge_rows (edge_header ++ codes "1,1,1,0,-1,1,0\n")
        ≡ Err (refusal.BadNumber table.Edge 1 column.NextLeftEdge) }
{}

/// Shortest paths of faces, outlines of regions, and tables as text.
pub fn paths_and_outlines()
    ensures path { hops (map_of island) 0 2 ≡ 0 ∷ 1 ∷ 2 ∷ [] }
    ensures distance { distance (map_of island) 0 2 ≡ Some 2 }
    ensures no_move { hops (map_of island) 1 1 ≡ 1 ∷ [] }
    ensures outline { border (map_of island_in_regions) 1 ≡ (pos 1 ∷ pos 2 ∷ pos 3 ∷ []) ∷ [] }
    ensures outline_with_hole { border (map_of island_in_regions) 2
        ≡ (pos 1 ∷ pos 2 ∷ pos 3 ∷ []) ∷ (minus 4 ∷ []) ∷ [] }
    ensures outline_of_two { border (map_of (record theta
        { regions = region 1 None ∷ []; members = member 1 1 ∷ member 1 2 ∷ [] })) 1 ≡ (minus 1 ∷ pos 3 ∷ []) ∷ [] }
    ensures edge_text { table_text (map_of triangle) table.Edge ≡ edge_header
        ++ codes "1,1,2,2,-3,1,0\n2,2,3,3,-1,1,0\n3,3,1,1,-2,1,0\n" }
    ensures node_text { table_text (map_of island) table.Node ≡ codes "node_id,containing_face\n1,\n2,\n3,\n4,\n5,2\n" }
{}
