//! What is read ahead for a table, over lent words.

ghost use Rattle.std.specs.Prelude.{◌≡◌, ◌≤◌, ◌+◌, ◌*◌, length};
ghost use Rattle.scratch_region.specs.Numbers.{numbers_of};
ghost use Rattle.scratch_region.specs.Region.{words_left};
ghost use Rattle.pemb_file.specs.Served.{contents_of_view};
ghost use Rattle.table_dump.specs.Ahead.{IsAhead, ahead_count, words_to_dump};
ghost use Rattle.table_dump.specs.Lines.{row_count};
ghost use Rattle.table_dump.specs.Prices.{ahead_price};

use crate::by_rank::put_by_rank;
use crate::ends::NUMBERS;
use crate::ids::read_ids;
use crate::sweep::fill_ends;
use bit_words::Steps;
use code_tour::Tour;
use pemb_file::Served;
use scratch_region::{Numbers, Region};
use std::sync::ledger::Ledger;
use topo_base::Table;

/// How many words a dump is lent: six for the ends of each edge and one for the tour, and one for the id of each node,
/// edge and face.
pub fn words_to_dump(served: Served<'_>) -> usize
    ensures words { result ≡ words_to_dump (contents_of_view served.entry) }
    ensures few { result ≤ 2147483647 }
{
    let edges = served.edges().count();
    let nodes = served.nodes().count();
    let faces = served.faces().count();
    let ends = 2 * NUMBERS * edges;
    let tour = edges;
    ends + tour + (nodes + edges + faces)
}

/// How many numbers are read ahead for a table.
fn ahead_count(served: Served<'_>, table: Table) -> usize
    ensures { result ≡ ahead_count (contents_of_view served.entry) table }
{
    match table {
        Table::Node => served.nodes().count(),
        Table::Edge => 2 * NUMBERS * served.edges().count(),
        Table::Member => served.faces().count(),
        Table::Face | Table::Region => 0,
    }
}

/// What is read ahead for a table: the numbers of nodes or faces by their places, or the ends of edges.
pub(crate) fn read_ahead<'r, C: Ledger>(
    served: Served<'_>,
    table: Table,
    room: Region<'r>,
    steps: &mut Steps<C>,
) -> Numbers<'r>
    requires { words_to_dump (contents_of_view served) ≤ words_left room }
    ensures ahead { IsAhead (contents_of_view served.entry) table (numbers_of result) }
    ensures grows { steps.old ≤ steps.new }
    ensures cost { steps.new ≤ steps.old + row_count (contents_of_view served.entry) table
        * ahead_price (contents_of_view served.entry) table }
{
    let Ok((mut ahead, room)) = room.carve_numbers(ahead_count(served, table)) else {
        unreachable!()
    };
    match table {
        Table::Node => put_by_rank(*served.nodes(), &mut ahead, steps),
        Table::Edge => {
            let (ids, room) = read_ids(served, room, steps);
            let mut tour = Tour::new(*served.code(), room);
            fill_ends(served, &ids, &mut tour, &mut ahead, steps);
        }
        Table::Member => put_by_rank(*served.faces(), &mut ahead, steps),
        Table::Face | Table::Region => {}
    }
    ahead
}
