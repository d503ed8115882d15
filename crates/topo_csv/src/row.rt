//! The rows of each table.

ghost use Rattle.std.specs.Prelude.{◌≡◌, Result};
ghost use Rattle.topo_base.specs.declared.refusal.Table.{Table};
ghost use Rattle.topo_base.specs.declared.refusal.Table.TheVariants as table;
ghost use Rattle.topo_base.specs.declared.refusal.Refusal.{Refusal};
ghost use Rattle.plane_model.specs.Reading.{Line, node_row, edge_row, face_row, region_row, member_row};
ghost use Rattle.topo_csv.specs.Lines.{line_of, table_of};

use crate::line::Line;
use plane_model::{EdgeRow, FaceRow, MemberRow, NodeRow, RegionRow};
use topo_base::{Column, Refusal, Table};

/// A row of one of the tables, which is read from a line.
pub trait TableRow: Drop {
    ghost of_table: { Table };

    ghost read_line: { Line → Result Self Refusal };

    /// The table that has such rows.
    fn table() -> Table
        ensures { result ≡ of_table };

    /// Reads the needed columns in their order.
    fn read(line: &Line<'_>) -> Result<Self, Refusal>
        requires { table_of line.now ≡ of_table }
        ensures { result ≡ read_line (line_of line.now) };
}

impl TableRow for NodeRow {
    ghost of_table = { table.Node };

    ghost read_line = { node_row };

    fn table() -> Table {
        Table::Node
    }

    fn read(line: &Line<'_>) -> Result<NodeRow, Refusal> {
        let id = line.positive(Column::NodeId)?;
        let face = line.optional_id(Column::ContainingFace)?;
        Ok(NodeRow { id, face })
    }
}

impl TableRow for EdgeRow {
    ghost of_table = { table.Edge };

    ghost read_line = { edge_row };

    fn table() -> Table {
        Table::Edge
    }

    fn read(line: &Line<'_>) -> Result<EdgeRow, Refusal> {
        let id = line.positive(Column::EdgeId)?;
        let start = line.positive(Column::StartNode)?;
        let end = line.positive(Column::EndNode)?;
        let next_left = line.signed(Column::NextLeftEdge)?;
        let next_right = line.signed(Column::NextRightEdge)?;
        let left_face = line.id(Column::LeftFace)?;
        let right_face = line.id(Column::RightFace)?;
        Ok(EdgeRow {
            id,
            start,
            end,
            next_left,
            next_right,
            left_face,
            right_face,
        })
    }
}

impl TableRow for FaceRow {
    ghost of_table = { table.Face };

    ghost read_line = { face_row };

    fn table() -> Table {
        Table::Face
    }

    fn read(line: &Line<'_>) -> Result<FaceRow, Refusal> {
        let id = line.id(Column::FaceId)?;
        Ok(FaceRow { id })
    }
}

impl TableRow for RegionRow {
    ghost of_table = { table.Region };

    ghost read_line = { region_row };

    fn table() -> Table {
        Table::Region
    }

    fn read(line: &Line<'_>) -> Result<RegionRow, Refusal> {
        let id = line.positive(Column::RegionId)?;
        let parent = line.optional_positive(Column::Parent)?;
        Ok(RegionRow { id, parent })
    }
}

impl TableRow for MemberRow {
    ghost of_table = { table.Member };

    ghost read_line = { member_row };

    fn table() -> Table {
        Table::Member
    }

    fn read(line: &Line<'_>) -> Result<MemberRow, Refusal> {
        let region = line.positive(Column::RegionId)?;
        let face = line.id(Column::FaceId)?;
        Ok(MemberRow { region, face })
    }
}
