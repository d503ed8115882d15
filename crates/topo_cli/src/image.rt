//! Lawful files, opened.

ghost use Rattle.std.specs.Prelude.{◌≡◌, ◌≤◌, ◌<◌, ◌+◌, ◌*◌, IfOk, length};
ghost use Rattle.plane_model.specs.PlaneMap.{map_of};
ghost use Rattle.file_laws.specs.Lawful.{map_of_file};
ghost use Rattle.pemb_file.specs.Draft.{file_of_draft};
ghost use Rattle.pemb_file.specs.OpenFile.{contents_of_file};
ghost use Rattle.pemb_file.specs.Served.{contents_of_view};
ghost use Rattle.navigate.specs.Bound.{map_with};
ghost use Rattle.topo_cli.specs.Outcome.{words_of_built};

use bit_words::Steps;
use pemb_file::{Draft, OpenFile, Served};
use std::alloc::{AllocError, Global};
use std::sync::ledger::Ledger;

/// A draft that was built, opened: nothing of it is checked again.
pub fn open_draft<'a, L: Ledger>(draft: &'a Draft, steps: &mut Steps<L>) -> OpenFile<'a>
    ensures map { map_with (contents_of_file result) ≡ map_of (map_of_file (file_of_draft draft.now)) }
    ensures few { steps.new ≤ steps.old + words_of_built }
    ensures grows { steps.old ≤ steps.new }
{
    draft.open(steps)
}

/// Words with a bit for each face of a file, face 0 among them.
pub fn words_for_marks(alloc: Global, served: &Served<'_>) -> Result<Vec<u64>, AllocError>
    ensures room { IfOk result (λ words. length (contents_of_view served.now).faces < 64 * length words.items) }
    ensures few { IfOk result (λ words. length words.items ≤ 2147483647) }
{
    vec![in alloc; 0; served.counts().faces as usize / 64 + 1]
}
