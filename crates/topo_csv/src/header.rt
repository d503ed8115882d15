//! The header of a table.

ghost use Rattle.std.specs.Prelude.{◌≡◌, IfOk, IfErr, OnOk, ◌==◌, nat_lt, find, codes, position, bytes_eq, slice_get, option_map, Option, Some, None};
ghost use Rattle.csv.specs.Records.{fields_of};
ghost use Rattle.topo_base.specs.declared.refusal.Column.{Column};
ghost use Rattle.plane_model.specs.Reading.{column_name, columns, header_fault, most_rows, times};
ghost use Rattle.topo_csv.specs.Codes.{code};

use csv::ByteRecord;
use topo_base::{Column, Refusal, Table};

/// How many columns there are in all tables.
const COLUMNS: usize = 12;

/// The columns that a table needs, in order.
fn columns(table: Table) -> &'static [Column]
    ensures { result.now ≡ columns table }
{
    match table {
        Table::Node => &[Column::NodeId, Column::ContainingFace],
        Table::Edge => &[
            Column::EdgeId,
            Column::StartNode,
            Column::EndNode,
            Column::NextLeftEdge,
            Column::NextRightEdge,
            Column::LeftFace,
            Column::RightFace,
        ],
        Table::Face => &[Column::FaceId],
        Table::Region => &[Column::RegionId, Column::Parent],
        Table::Member => &[Column::RegionId, Column::FaceId],
    }
}

/// How many rows a table may have.
pub fn most_rows(table: Table) -> u64
    ensures { result ≡ most_rows table }
{
    match table {
        Table::Node | Table::Edge | Table::Face | Table::Region => 16_777_216,
        Table::Member => 16_777_217,
    }
}

/// The name of a column in a header.
fn column_name(column: Column) -> &'static [u8]
    ensures { result.now ≡ column_name column }
{
    match column {
        Column::NodeId => b"node_id",
        Column::ContainingFace => b"containing_face",
        Column::EdgeId => b"edge_id",
        Column::StartNode => b"start_node",
        Column::EndNode => b"end_node",
        Column::NextLeftEdge => b"next_left_edge",
        Column::NextRightEdge => b"next_right_edge",
        Column::LeftFace => b"left_face",
        Column::RightFace => b"right_face",
        Column::FaceId => b"face_id",
        Column::RegionId => b"region_id",
        Column::Parent => b"parent",
    }
}

/// Where a column stands first.
fn place(names: &ByteRecord, column: Column) -> Option<usize>
    ensures { result ≡ position (bytes_eq (column_name column)) (fields_of names.now) }
{
    let name = column_name(column);
    for (i, field) in names.iter().enumerate() {
        if name == field {
            return Some(i);
        }
    }
    None
}

/// How often a header has a column.
fn times(names: &ByteRecord, column: Column) -> usize
    ensures { result ≡ times (fields_of names.now) column }
{
    let name = column_name(column);
    let mut times = 0;
    for field in names {
        if name == field {
            times += 1;
        }
    }
    times
}

/// The first needed column that is missing.
fn missing(table: Table, names: &ByteRecord) -> Option<Column>
    ensures { result ≡ find (λ c. times (fields_of names.now) c == 0) (columns table) }
{
    columns(table)
        .iter()
        .copied()
        .find(|column| times(names, *column) == 0)
}

/// The first needed column that stands twice.
fn twice(table: Table, names: &ByteRecord) -> Option<Column>
    ensures { result ≡ find (λ c. nat_lt 1 (times (fields_of names.now) c)) (columns table) }
{
    columns(table)
        .iter()
        .copied()
        .find(|column| times(names, *column) > 1)
}

/// The first needed column that is missing, or else the first that stands twice.
fn header_fault(table: Table, names: &ByteRecord) -> Option<Refusal>
    ensures { result ≡ header_fault table (fields_of names.now) }
{
    if let Some(column) = missing(table, names) {
        return Some(Refusal::ColumnMissing { table, column });
    }
    let column = twice(table, names)?;
    Some(Refusal::ColumnTwice { table, column })
}

/// The header of a table, which has each needed column once.
#[derive(Drop)]
pub struct Header {
    pub table: Table,
    pub names: ByteRecord,
    places: [Option<usize>; COLUMNS],
    ghost found: { (c : Column) → slice_get places (code c)
        ≡ Some (position (bytes_eq (column_name c)) (fields_of names)) },
}

impl Header {
    /// The header with these names, or what is wrong with it.
    pub fn new(table: Table, names: ByteRecord) -> Result<Header, Refusal>
        ensures table { IfOk result (λ header. header.table ≡ table) }
        ensures names { IfOk result (λ header. header.names ≡ names) }
        ensures accepted { OnOk result (header_fault table (fields_of names) ≡ None) }
        ensures refused { IfErr result (λ e. header_fault table (fields_of names) ≡ Some e) }
    {
        if let Some(fault) = header_fault(table, &names) {
            return Err(fault);
        }
        let places = [
            place(&names, Column::NodeId),
            place(&names, Column::ContainingFace),
            place(&names, Column::EdgeId),
            place(&names, Column::StartNode),
            place(&names, Column::EndNode),
            place(&names, Column::NextLeftEdge),
            place(&names, Column::NextRightEdge),
            place(&names, Column::LeftFace),
            place(&names, Column::RightFace),
            place(&names, Column::FaceId),
            place(&names, Column::RegionId),
            place(&names, Column::Parent),
        ];
        Ok(Header {
            table,
            names,
            places,
        })
    }

    /// Where a column stands, also one that the table doesn't need.
    pub fn place(&self, column: Column) -> Option<usize>
        ensures { result ≡ position (bytes_eq (column_name column)) (fields_of self.now.names) }
    {
        self.places[column as usize]
    }
}
