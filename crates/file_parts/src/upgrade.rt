//! The file of form 2 of the map of an opened file.

ghost use Rattle.std.specs.Prelude.{ℕ, ◌≡◌, ◌≤◌, List, IfOk, IsTrue};
ghost use Rattle.file_laws.specs.Layout.{counts_in, words_of};
ghost use Rattle.file_laws.specs.Held.{contents_of};
ghost use Rattle.file_laws.specs.Image.{image_of};
ghost use Rattle.file_laws.specs.Lawful.{is_lawful};
ghost use Rattle.pemb_file.specs.Served.{contents_of_view};
ghost use Rattle.file_parts.specs.Upgrade.{IsUpgradeOf};

use crate::gathering::parts_of;
use bit_words::{Memory, Steps};
use pemb_file::{Served, write_image};
use std::alloc::Global;
use std::sync::ledger::Ledger;

/// The file of form 2 that holds what an opened file of either form holds. It stands for the same map, whatever bytes
/// the opened file has.
pub fn upgraded<C: Ledger>(
    alloc: Global,
    served: Served<'_>,
    steps: &mut Steps<C>,
) -> Result<Vec<u8>, Memory>
    ensures image { IfOk result (λ image. image.items ≡ image_of 2 (contents_of_view served.entry)) }
    ensures form { IfOk result (λ image. (counts_in (words_of image.items)).form ≡ 2) }
    ensures lawful { IfOk result (λ image. IsTrue (is_lawful image.items)) }
    ensures contents { IfOk result (λ image. contents_of (words_of image.items) ≡ contents_of_view served.entry) }
    ensures upgrade { IfOk result (λ image. (old : List ℕ) → contents_of_view served.entry ≡ contents_of (words_of old)
        → IsUpgradeOf old image.items) }
    ensures grows { steps.old ≤ steps.new }
{
    let parts = parts_of(alloc, served, steps)?;
    write_image(alloc, &parts)
}
