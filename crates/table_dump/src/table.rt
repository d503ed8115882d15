//! One table, written under its name.

ghost use Rattle.std.specs.Prelude.{◌≡◌, ◌<◌, ◌≤◌, ◌+◌, ◌*◌, ◌++◌, [], length, OnErr, OnOk};
ghost use Rattle.scratch_region.specs.Numbers.{numbers_of};
ghost use Rattle.ports.specs.Outside.{CountsWrite, WhereTold, Holds, HoldsFront};
ghost use Rattle.plane_model.specs.Texts.{table_text};
ghost use Rattle.pemb_file.specs.Served.{contents_of_view};
ghost use Rattle.navigate.specs.Bound.{served_map};
ghost use Rattle.table_dump.specs.Lines.{header_line, line_at, row_count};
ghost use Rattle.table_dump.specs.Ahead.{IsAhead, words_to_dump};
ghost use Rattle.table_dump.specs.Prices.{line_price, row_price};

use crate::ahead::read_ahead;
use crate::gathered::{Gathered, gather, make_room, put_out};
use crate::line::{LONGEST, put_edge, put_face, put_member, put_node, put_region};
use crate::rows::{edge_row, face_row, member_row, node_row, region_row};
use bit_words::Steps;
use pemb_file::Served;
use ports::{Failed, Shelf};
use scratch_region::{Numbers, Region};
use std::sync::ledger::Ledger;
use topo_base::Table;

/// The names of a table's columns, as a line.
fn header(table: Table) -> &'static [u8]
    ensures header { result.now ≡ header_line table }
    ensures short { length result.now ≤ 256 }
{
    match table {
        Table::Node => b"node_id,containing_face\n",
        Table::Edge => {
            b"edge_id,start_node,end_node,next_left_edge,next_right_edge,left_face,right_face\n"
        }
        Table::Face => b"face_id\n",
        Table::Region => b"region_id,parent\n",
        Table::Member => b"region_id,face_id\n",
    }
}

/// How many places a table has: one for each row, and in the table of members one for each face, face 0 too.
fn places(served: Served<'_>, table: Table) -> usize
    ensures count { result ≡ row_count (contents_of_view served.entry) table }
    ensures few { result ≤ 16777217 }
{
    match table {
        Table::Node => served.nodes().count(),
        Table::Edge => served.edges().count(),
        Table::Face => served.faces().count(),
        Table::Region => served.regions().count(),
        Table::Member => served.faces().count() + 1,
    }
}

/// Puts the line at a place of a table, over what was read ahead for the table. Nothing is put where a face is in no
/// region.
fn put_line<C: Ledger>(
    served: Served<'_>,
    table: Table,
    ahead: &Numbers<'_>,
    place: usize,
    text: &mut Gathered,
    steps: &mut Steps<C>,
)
    requires within { place < row_count (contents_of_view served) table }
    requires ahead { IsAhead (contents_of_view served) table (numbers_of ahead.now) }
    requires room { length text.old.items + 160 ≤ 65536 }
    ensures line { text.new.items ≡ text.old.items ++ line_at (contents_of_view served.entry) table place }
    ensures some_steps { steps.old + 1 ≤ steps.new }
    ensures cost { steps.new ≤ steps.old + line_price (contents_of_view served.entry) table }
{
    match table {
        Table::Node => put_node(text, node_row(served, ahead, place, steps)),
        Table::Edge => put_edge(text, edge_row(served, ahead, place, steps)),
        Table::Face => put_face(text, face_row(served, place, steps)),
        Table::Region => put_region(text, region_row(served, place, steps)),
        Table::Member => match member_row(served, ahead, place, steps) {
            Some(row) => put_member(text, row),
            None => {}
        },
    }
}

/// Writes a table under a name, over what was read ahead for it. Nothing may be gathered before, and nothing is left
/// gathered where all is written.
fn write_lines<H: Shelf, C: Ledger>(
    served: Served<'_>,
    table: Table,
    ahead: &Numbers<'_>,
    name: &str,
    shelf: &mut H,
    text: &mut Gathered,
    steps: &mut Steps<C>,
) -> Result<(), Failed>
    requires empty { text.old.items ≡ [] }
    requires ahead { IsAhead (contents_of_view served) table (numbers_of ahead.now) }
    ensures written { OnOk result (WhereTold (Holds name.now (table_text (served_map served.entry) table))
        (H.files shelf.old) (H.files shelf.new)) }
    ensures part { OnErr result (WhereTold (HoldsFront name.now (table_text (served_map served.entry) table))
        (H.files shelf.old) (H.files shelf.new)) }
    ensures counted { CountsWrite result (H.write_faults shelf.old) (H.write_faults shelf.new) }
    ensures empty { OnOk result (text.new.items ≡ []) }
    ensures no_fault { H.faults shelf.new ≡ H.faults shelf.old }
    ensures no_miss { H.misses shelf.new ≡ H.misses shelf.old }
    ensures least { OnOk result (steps.old + row_count (contents_of_view served.entry) table ≤ steps.new) }
    ensures grows { steps.old ≤ steps.new }
    ensures paid { steps.new ≤ steps.old + row_count (contents_of_view served.entry) table
        * line_price (contents_of_view served.entry) table }
{
    shelf.start(name)?;
    gather(shelf, name, text, header(table))?;
    let count = places(served, table);
    for place in 0..count {
        make_room(shelf, name, text, LONGEST)?;
        put_line(served, table, ahead, place, text, steps);
    }
    put_out(shelf, name, text)
}

/// Writes a table under a name, over lent words. Nothing may be gathered before, and nothing is left gathered where all
/// is written.
pub(crate) fn write_table<H: Shelf, C: Ledger>(
    served: Served<'_>,
    table: Table,
    name: &str,
    words: &mut [u64],
    shelf: &mut H,
    text: &mut Gathered,
    steps: &mut Steps<C>,
) -> Result<(), Failed>
    requires empty { text.old.items ≡ [] }
    requires room { words_to_dump (contents_of_view served) ≤ length words.old }
    requires few { length words.old ≤ 2147483647 }
    ensures written { OnOk result (WhereTold (Holds name.now (table_text (served_map served.entry) table))
        (H.files shelf.old) (H.files shelf.new)) }
    ensures part { OnErr result (WhereTold (HoldsFront name.now (table_text (served_map served.entry) table))
        (H.files shelf.old) (H.files shelf.new)) }
    ensures counted { CountsWrite result (H.write_faults shelf.old) (H.write_faults shelf.new) }
    ensures empty { OnOk result (text.new.items ≡ []) }
    ensures no_fault { H.faults shelf.new ≡ H.faults shelf.old }
    ensures no_miss { H.misses shelf.new ≡ H.misses shelf.old }
    ensures least { OnOk result (steps.old + row_count (contents_of_view served.entry) table ≤ steps.new) }
    ensures grows { steps.old ≤ steps.new }
    ensures paid { steps.new ≤ steps.old + row_count (contents_of_view served.entry) table
        * row_price (contents_of_view served.entry) table }
{
    let ahead = read_ahead(served, table, Region::new(words), steps);
    write_lines(served, table, &ahead, name, shelf, text, steps)
}
