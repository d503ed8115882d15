//! The ids of nodes, edges and faces, read ahead by number over lent words.

ghost use Rattle.std.specs.Prelude.{◌≡◌, ◌≤◌, ◌+◌, ◌*◌, length, take};
ghost use Rattle.bit_words.specs.Digits.{digits};
ghost use Rattle.scratch_region.specs.Numbers.{numbers_of};
ghost use Rattle.scratch_region.specs.Region.{words_left};
ghost use Rattle.id_names.specs.Views.{ids_of};
ghost use Rattle.pemb_file.specs.Served.{contents_of_view};
ghost use Rattle.navigate.specs.Bound.{line_digits};
ghost use Rattle.table_dump.specs.Ids.{AreIds};

use bit_words::Steps;
use id_names::NamesView;
use pemb_file::Served;
use scratch_region::{Numbers, Region};
use std::sync::ledger::Ledger;
use topo_base::IdNumber;

/// The ids of the nodes that have edges, of edges and of faces, each by number.
#[derive(Drop)]
pub(crate) struct Ids<'r> {
    nodes: Numbers<'r>,
    edges: Numbers<'r>,
    faces: Numbers<'r>,
}

impl<'r> Ids<'r> {
    ghost use Rattle.std.specs.Prelude.{◌≡◌, ◌<◌, ◌≤◌, ◌-◌, ◌==◌, length, slice_index, if◌then◌else◌};
    ghost use Rattle.scratch_region.specs.Numbers.{numbers_of};

    /// The id of a node.
    pub(crate) fn node(&self, number: usize) -> IdNumber
        requires { number < length (numbers_of self.now.nodes) }
        ensures { result ≡ slice_index (numbers_of self.now.nodes) number }
    {
        self.nodes.get(number)
    }

    /// The id of an edge.
    pub(crate) fn edge(&self, number: usize) -> IdNumber
        requires { number < length (numbers_of self.now.edges) }
        ensures { result ≡ slice_index (numbers_of self.now.edges) number }
    {
        self.edges.get(number)
    }

    /// The id of the face at a place: 0 for face 0, and else that of the number before.
    pub(crate) fn face(&self, place: usize) -> IdNumber
        requires { place ≤ length (numbers_of self.now.faces) }
        ensures { result ≡ (if place == 0 then 0 else slice_index (numbers_of self.now.faces) (place - 1)) }
    {
        if place == 0 {
            0
        } else {
            self.faces.get(place - 1)
        }
    }
}

/// Puts the ids of the first numbers, as many as there is room for.
fn put_ids<C: Ledger>(names: NamesView<'_>, ids: &mut Numbers<'_>, steps: &mut Steps<C>)
    requires { length (numbers_of ids.old) ≤ length (ids_of names) }
    ensures ids { numbers_of ids.new ≡ take (length (numbers_of ids.old)) (ids_of names.entry) }
    ensures grows { steps.old ≤ steps.new }
    ensures cost { steps.new ≤ steps.old + length (numbers_of ids.old)
        * (3 * digits (length (ids_of names.entry) + 2) + 20) }
{
    for number in 0..ids.len() {
        let id = names.id_of(number, steps);
        ids.set(number, id);
    }
}

/// The ids of so many numbers from 0 on, and the region without the words that they take.
fn first_ids<'r, C: Ledger>(
    names: NamesView<'_>,
    count: usize,
    room: Region<'r>,
    steps: &mut Steps<C>,
) -> (Numbers<'r>, Region<'r>)
    requires few { count ≤ length (ids_of names) }
    requires room { count ≤ words_left room }
    ensures ids { numbers_of result.0 ≡ take count (ids_of names.entry) }
    ensures left { words_left result.1 + count ≡ words_left room.entry }
    ensures grows { steps.old ≤ steps.new }
    ensures cost { steps.new ≤ steps.old + count * (3 * digits (length (ids_of names.entry) + 2) + 20) }
{
    let Ok((mut ids, room)) = room.carve_numbers(count) else {
        unreachable!()
    };
    put_ids(names, &mut ids, steps);
    (ids, room)
}

/// The ids of a file, and the region without the words that they take. No id of an isolated node is read.
pub(crate) fn read_ids<'r, C: Ledger>(
    served: Served<'_>,
    room: Region<'r>,
    steps: &mut Steps<C>,
) -> (Ids<'r>, Region<'r>)
    requires { length (contents_of_view served).nodes + length (contents_of_view served).edges
        + length (contents_of_view served).faces ≤ words_left room }
    ensures ids { AreIds (contents_of_view served.entry) result.0 }
    ensures left { words_left room.entry ≤ words_left result.1 + (length (contents_of_view served.entry).nodes
        + length (contents_of_view served.entry).edges + length (contents_of_view served.entry).faces) }
    ensures grows { steps.old ≤ steps.new }
    ensures cost { steps.new ≤ steps.old + length (contents_of_view served.entry).edges
        * (9 * line_digits (contents_of_view served.entry) + 60) }
{
    let counts = served.counts();
    let joined = (counts.nodes - counts.isolated) as usize;
    let (nodes, room) = first_ids(*served.nodes(), joined, room, steps);
    let (edges, room) = first_ids(*served.edges(), counts.edges as usize, room, steps);
    let (faces, room) = first_ids(*served.faces(), counts.faces as usize, room, steps);
    (
        Ids {
            nodes,
            edges,
            faces,
        },
        room,
    )
}
