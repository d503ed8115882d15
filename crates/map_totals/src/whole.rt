//! All totals of a map.

ghost use Rattle.std.specs.Prelude.{◌≡◌, ◌<◌, ◌≤◌, ◌+◌, length};
ghost use Rattle.scratch_region.specs.Marks.{room_of, IsEmpty};
ghost use Rattle.pemb_file.specs.Served.{contents_of_view};
ghost use Rattle.navigate.specs.Bound.{served_map};
ghost use Rattle.map_totals.specs.Totals.{face_total, node_total, adjacent_total, most_total_words};

use crate::sums::{Totals, sum_adjacent, sum_faces, sum_nodes};
use bit_words::Steps;
use pemb_file::Served;
use scratch_region::Marks;
use std::sync::ledger::Ledger;

/// The totals of the map of a file, by the walks of each face and each node.
pub fn totals<C: Ledger>(served: Served<'_>, marks: &mut Marks<'_>, steps: &mut Steps<C>) -> Totals
    requires room { length (contents_of_view served).faces < room_of marks.old }
    requires empty { IsEmpty marks.old }
    ensures face { result.face ≡ face_total (served_map served.entry) }
    ensures node { result.node ≡ node_total (served_map served.entry) }
    ensures adjacent { result.adjacent ≡ adjacent_total (served_map served.entry) }
    ensures room { room_of marks.new ≡ room_of marks.old }
    ensures empty { IsEmpty marks.new }
    ensures least { steps.old + (result.face + result.node + result.adjacent) ≤ steps.new }
    ensures paid { steps.new ≤ steps.old + most_total_words (served_map served.entry) }
{
    let face = sum_faces(served, steps);
    let node = sum_nodes(served, steps);
    let adjacent = sum_adjacent(served, marks, steps);
    Totals {
        face,
        node,
        adjacent,
    }
}
