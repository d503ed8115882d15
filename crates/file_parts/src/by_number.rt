//! Lists by the numbers of names and of edges.

ghost use Rattle.std.specs.Prelude.{◌≡◌, ◌≤◌, IfOk};
ghost use Rattle.id_names.specs.Views.{ids_of};
ghost use Rattle.pemb_file.specs.Served.{contents_of_view};

use bit_words::Steps;
use id_names::NamesView;
use pemb_file::Served;
use std::alloc::{AllocError, Global};
use std::sync::ledger::Ledger;
use topo_base::IdNumber;

/// The ids of names.
pub(crate) fn ids<C: Ledger>(
    alloc: Global,
    names: NamesView<'_>,
    steps: &mut Steps<C>,
) -> Result<Vec<IdNumber>, AllocError>
    ensures ids { IfOk result (λ ids. ids.items ≡ ids_of names.entry) }
    ensures grows { steps.old ≤ steps.new }
{
    let count = names.count();
    let mut ids = Vec::with_capacity(alloc, count)?;
    for number in 0..count {
        let id = names.id_of(number, steps);
        ids.push(id)?;
    }
    Ok(ids)
}

/// Whether the first position of each edge is the forward one.
pub(crate) fn forward_bits<C: Ledger>(
    alloc: Global,
    served: Served<'_>,
    steps: &mut Steps<C>,
) -> Result<Vec<bool>, AllocError>
    ensures forward { IfOk result (λ forward. forward.items ≡ (contents_of_view served.entry).forward) }
    ensures grows { steps.old ≤ steps.new }
{
    let edges = served.counts().edges as usize;
    let mut forward = Vec::with_capacity(alloc, edges)?;
    for edge in 0..edges {
        let is_forward = served.forward(edge, steps);
        forward.push(is_forward)?;
    }
    Ok(forward)
}
