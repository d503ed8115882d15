//! Ids that are looked up ahead of the questions that name them.

ghost use Rattle.std.specs.Prelude.{◌≡◌, ◌≤◌, ◌+◌, ◌*◌};
ghost use Rattle.id_names.specs.Known.{asked};
ghost use Rattle.pemb_file.specs.OpenFile.{contents_of_file};
ghost use Rattle.navigate.specs.Bound.{map_with, words_ahead};

use bit_words::Steps;
use pemb_file::{IdsAhead, OpenFile};
use std::sync::ledger::Ledger;

/// Looks up the ids of four questions side by side. The file says what it said, and the questions find their ids without
/// reading a word.
pub fn look_ahead<C: Ledger>(file: &mut OpenFile<'_>, ids: &IdsAhead, steps: &mut Steps<C>)
    ensures contents { contents_of_file file.new ≡ contents_of_file file.old }
    ensures nodes { asked (file.new).nodes.known ≡ ids.now.nodes }
    ensures edges { asked (file.new).edges.known ≡ ids.now.edges }
    ensures faces { asked (file.new).faces.known ≡ ids.now.faces }
    ensures grows { steps.old ≤ steps.new }
    ensures paid { steps.new ≤ steps.old + 4 * words_ahead (map_with (contents_of_file file.old)) }
{
    file.look_ahead(ids, steps);
}
