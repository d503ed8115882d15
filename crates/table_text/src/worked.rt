//! Worked maps: the texts of their tables, each the contract of a function that does nothing.

ghost use Rattle.std.specs.Prelude.{◌≡◌, ◌++◌, Ok, codes};
ghost use Rattle.topo_base.specs.declared.refusal.Table.TheVariants as table;
ghost use Rattle.plane_model.specs.PlaneMap.{map_of};
ghost use Rattle.plane_model.specs.Texts.{table_text};
ghost use Rattle.plane_model.specs.Worked.{edge_header, island_in_regions, triangle};

/// The texts of a triangle, of which the table of faces has a row for face 0 that the text leaves out.
pub fn triangle_texts()
    ensures nodes { table_text (map_of triangle) table.Node ≡ codes "node_id,containing_face\n1,\n2,\n3,\n" }
    ensures edges { table_text (map_of triangle) table.Edge ≡ edge_header
        ++ codes "1,1,2,2,-3,1,0\n2,2,3,3,-1,1,0\n3,3,1,1,-2,1,0\n" }
    ensures faces { table_text (map_of triangle) table.Face ≡ codes "face_id\n1\n" }
    ensures regions { table_text (map_of triangle) table.Region ≡ codes "region_id,parent\n" }
    ensures members { table_text (map_of triangle) table.Member ≡ codes "region_id,face_id\n" }
{}

/// The texts of a map with a closed edge in a face, an isolated node, and regions.
pub fn island_texts()
    ensures nodes { table_text (map_of island_in_regions) table.Node
        ≡ codes "node_id,containing_face\n1,\n2,\n3,\n4,\n5,2\n" }
    ensures edges { table_text (map_of island_in_regions) table.Edge ≡ edge_header
        ++ codes "1,1,2,2,-3,1,0\n2,2,3,3,-1,1,0\n3,3,1,1,-2,1,0\n4,4,4,4,-4,2,1\n" }
    ensures faces { table_text (map_of island_in_regions) table.Face ≡ codes "face_id\n1\n2\n" }
    ensures regions { table_text (map_of island_in_regions) table.Region ≡ codes "region_id,parent\n1,\n2,1\n" }
    ensures members { table_text (map_of island_in_regions) table.Member ≡ codes "region_id,face_id\n2,1\n1,2\n" }
{}
