//! The rows of a table's bytes.

ghost use Rattle.std.specs.Prelude.{◌≡◌, IfOk, IfErr, IsTrue, Ok};
ghost use Rattle.csv.specs.Records.{fields_of};
ghost use Rattle.csv.specs.Reading.{default_config, records};
ghost use Rattle.plane_model.specs.Reading.{row_of, rows, rows_from, rows_in, node_rows, edge_rows, face_rows, region_rows, member_rows};
ghost use Rattle.topo_csv.specs.Fault.{IsFault};
ghost use Rattle.topo_csv.specs.Left.{IsReading, left_in};
ghost use Rattle.topo_csv.specs.Lines.{line_of, table_of};
ghost use Rattle.topo_csv.specs.Plain.{has_no_quote};

use crate::fault::CsvFault;
use crate::header::{Header, most_rows};
use crate::line::Line;
use crate::plain::{plain_record, without_mark};
use crate::record::{fields_in, next_record, record_of, records};
use crate::row::TableRow;
use crate::row_list::RowList;
use csv::{ByteRecord, Reader};
use memchr::memchr;
use plane_model::{EdgeTable, FaceRow, MemberRow, NodeTable, RegionRow};
use std::alloc::Global;
use topo_base::Refusal;

/// The row of a line, which stands within the table's limit and has as many fields as the header.
fn read_row<R: TableRow>(line: &Line<'_>) -> Result<R, Refusal>
    requires { table_of line.now ≡ R.of_table }
    ensures { result ≡ row_of R.of_table R.read_line (line_of line.now) }
{
    let table = R::table();
    if line.row > most_rows(table) {
        return Err(Refusal::TooMany { table });
    }
    let found = line.fields.len();
    let wanted = line.header.names.len();
    if found != wanted {
        return Err(Refusal::RowShape {
            table,
            row: line.row,
            fields: found as u64,
            wanted: wanted as u64,
        });
    }
    R::read(line)
}

/// The rows of the lines below a header. No more are held than the table may have.
fn read_lines<L: RowList>(
    alloc: Global,
    header: &Header,
    reader: &mut Reader<&[u8]>,
) -> Result<L, CsvFault>
    requires table { header.now.table ≡ L.Row.of_table }
    requires reading { IsReading reader.old }
    ensures rows { IfOk result (λ rows. rows_from L.Row.of_table L.Row.read_line (fields_of header.now.names) 1
        (left_in reader.old) ≡ Ok (L.listed rows)) }
    ensures refused { IfErr result (λ e. IsFault e (rows_from L.Row.of_table L.Row.read_line
        (fields_of header.now.names) 1 (left_in reader.old))) }
{
    let mut rows = L::empty(alloc);
    let mut record = ByteRecord::new(alloc);
    while next_record(reader, &mut record)? {
        let fields = fields_in(alloc, &record)?;
        let line = Line {
            header,
            row: rows.len() as u64 + 1,
            fields: &fields,
        };
        rows.push(read_row(&line)?)?;
    }
    Ok(rows)
}

/// The rows of the lines below the header of a table without quotes.
fn read_plain_lines<L: RowList>(alloc: Global, header: &Header, bytes: &[u8]) -> Result<L, CsvFault>
    requires table { header.now.table ≡ L.Row.of_table }
    requires plain { IsTrue (has_no_quote bytes.now) }
    ensures rows { IfOk result (λ rows. rows_from L.Row.of_table L.Row.read_line (fields_of header.now.names) 1
        (records default_config bytes.now) ≡ Ok (L.listed rows)) }
    ensures refused { IfErr result (λ e. IsFault e (rows_from L.Row.of_table L.Row.read_line
        (fields_of header.now.names) 1 (records default_config bytes.now))) }
{
    let mut rows = L::empty(alloc);
    let mut fields = Vec::new(alloc);
    let mut left = bytes;
    while let Some(behind) = plain_record(left, &mut fields)? {
        let line = Line {
            header,
            row: rows.len() as u64 + 1,
            fields: &fields,
        };
        rows.push(read_row(&line)?)?;
        left = behind;
    }
    Ok(rows)
}

/// The rows of a table without quotes.
fn read_plain_rows<L: RowList>(alloc: Global, bytes: &[u8]) -> Result<L, CsvFault>
    requires { IsTrue (has_no_quote bytes.now) }
    ensures rows { IfOk result (λ read. rows_in L.Row.of_table L.Row.read_line (records default_config bytes.now)
        ≡ Ok (L.listed read)) }
    ensures refused { IfErr result (λ e. IsFault e (rows_in L.Row.of_table L.Row.read_line
        (records default_config bytes.now))) }
{
    let mut fields = Vec::new(alloc);
    let below = match plain_record(bytes, &mut fields)? {
        Some(below) => below,
        None => &[],
    };
    let names = record_of(alloc, &fields)?;
    let header = Header::new(L::Row::table(), names)?;
    read_plain_lines(alloc, &header, below)
}

/// The rows of any table.
fn read_rows<L: RowList>(alloc: Global, bytes: &[u8]) -> Result<L, CsvFault>
    ensures rows { IfOk result (λ read. rows L.Row.of_table L.Row.read_line bytes.now ≡ Ok (L.listed read)) }
    ensures refused { IfErr result (λ e. IsFault e (rows L.Row.of_table L.Row.read_line bytes.now)) }
{
    if memchr(b'"', bytes).is_none() {
        return read_plain_rows(alloc, without_mark(bytes));
    }
    let mut reader = records(alloc, bytes);
    let mut names = ByteRecord::new(alloc);
    next_record(&mut reader, &mut names)?;
    let header = Header::new(L::Row::table(), names)?;
    read_lines(alloc, &header, &mut reader)
}

/// The rows of a node table, in the order of the file. `containing_face` may be NULL.
pub fn read_nodes(alloc: Global, bytes: &[u8]) -> Result<NodeTable, CsvFault>
    ensures rows { IfOk result (λ rows. node_rows bytes.now ≡ Ok rows) }
    ensures refused { IfErr result (λ e. IsFault e (node_rows bytes.now)) }
{
    read_rows(alloc, bytes)
}

/// The rows of an edge table, in the order of the file. Nothing in it may be NULL.
pub fn read_edges(alloc: Global, bytes: &[u8]) -> Result<EdgeTable, CsvFault>
    ensures rows { IfOk result (λ rows. edge_rows bytes.now ≡ Ok rows) }
    ensures refused { IfErr result (λ e. IsFault e (edge_rows bytes.now)) }
{
    read_rows(alloc, bytes)
}

/// The rows of a face table, in the order of the file. Face 0 may have a row.
pub fn read_faces(alloc: Global, bytes: &[u8]) -> Result<Vec<FaceRow>, CsvFault>
    ensures rows { IfOk result (λ rows. face_rows bytes.now ≡ Ok rows.items) }
    ensures refused { IfErr result (λ e. IsFault e (face_rows bytes.now)) }
{
    read_rows(alloc, bytes)
}

/// The rows of a region table, in the order of the file. `parent` may be NULL, at a root.
pub fn read_regions(alloc: Global, bytes: &[u8]) -> Result<Vec<RegionRow>, CsvFault>
    ensures rows { IfOk result (λ rows. region_rows bytes.now ≡ Ok rows.items) }
    ensures refused { IfErr result (λ e. IsFault e (region_rows bytes.now)) }
{
    read_rows(alloc, bytes)
}

/// The rows of a member table, in the order of the file. Face 0 may be a member.
pub fn read_members(alloc: Global, bytes: &[u8]) -> Result<Vec<MemberRow>, CsvFault>
    ensures rows { IfOk result (λ rows. member_rows bytes.now ≡ Ok rows.items) }
    ensures refused { IfErr result (λ e. IsFault e (member_rows bytes.now)) }
{
    read_rows(alloc, bytes)
}
