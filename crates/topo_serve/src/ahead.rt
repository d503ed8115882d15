//! The lines to come: they are read ahead, and their ids are looked up together.

ghost use Rattle.std.specs.Prelude.{◌≡◌, ◌<◌, ◌≤◌, ◌+◌, ◌*◌, length};
ghost use Rattle.pemb_file.specs.OpenFile.{contents_of_file};
ghost use Rattle.navigate.specs.Bound.{map_with, words_ahead};
ghost use Rattle.query_text.specs.Lines.{HasNoFeed};
ghost use Rattle.topo_serve.specs.Ahead.{AreNext, IsNext, behind};

use arrayvec::ArrayVec;
use bit_words::Steps;
use navigate::look_ahead;
use pemb_file::{IdsAhead, OpenFile};
use query_text::{Query, first_line};
use std::sync::ledger::Ledger;

/// How many lines are read ahead: as many as have their ids looked up together.
const AHEAD: usize = 4;

/// A line to come: how many bytes it has before its line feed, and what it says.
#[derive(Clone, Copy)]
pub(crate) struct LineAhead {
    pub(crate) end: usize,
    pub(crate) query: Query,
}

impl Default for LineAhead {
    fn default() -> Self {
        LineAhead {
            end: 0,
            query: Query::Blank,
        }
    }
}

/// The next lines, in their order.
pub(crate) type LinesAhead = ArrayVec<LineAhead, AHEAD>;

/// The next lines that end in these bytes, as many as are read ahead, or all, from the first on, which was read before.
pub(crate) fn lines_from(first: LineAhead, script: &[u8]) -> LinesAhead
    requires { IsNext first script.now }
    ensures next { AreNext result.items script.now }
    ensures some { 1 ≤ length result.items }
    ensures few { length result.items < AHEAD → let left = behind result.items script.now in
        HasNoFeed (length left) left }
{
    let mut lines = LinesAhead::new();
    let mut rest = &script[first.end + 1..];
    lines.push(first);
    while !lines.is_full() {
        let Some(line) = first_line(rest) else {
            return lines;
        };
        let end = line.end;
        lines.push(LineAhead {
            end,
            query: line.query,
        });
        rest = &rest[end + 1..];
    }
    lines
}

/// Puts the id that a query names with those of its kind.
fn put_down(ids: &mut IdsAhead, place: usize, query: Query)
    requires { place < 4 }
{
    match query {
        Query::Node(node) | Query::Contains(node) => ids.nodes[place] = Some(node.0),
        Query::Ring(edge) | Query::Next(edge) | Query::Ends(edge) | Query::Sides(edge) => {
            ids.edges[place] = Some(edge.edge().0);
        }
        Query::Face(face)
        | Query::Adjacent(face)
        | Query::Islands(face)
        | Query::Regions(face)
        | Query::Common(face, _) => ids.faces[place] = Some(face.0),
        Query::Blank | Query::Bad | Query::Long | Query::Counts => {}
    }
}

/// The ids that lines name.
fn ids_of(lines: &[LineAhead]) -> IdsAhead
    requires { length lines.now ≤ 4 }
{
    let mut ids = IdsAhead {
        nodes: [None; 4],
        edges: [None; 4],
        faces: [None; 4],
    };
    for (place, line) in lines.iter().enumerate() {
        put_down(&mut ids, place, line.query);
    }
    ids
}

/// Looks up the ids of lines to come together. Where fewer have come than are read ahead, each line looks up its own.
pub(crate) fn look_up<C: Ledger>(file: &mut OpenFile<'_>, lines: &LinesAhead, steps: &mut Steps<C>)
    ensures contents { contents_of_file file.new ≡ contents_of_file file.old }
    ensures grows { steps.old ≤ steps.new }
    ensures paid { steps.new ≤ steps.old + length lines.now.items * words_ahead (map_with (contents_of_file file.old)) }
{
    if lines.is_full() {
        look_ahead(file, &ids_of(lines.as_slice()), steps);
    }
}
