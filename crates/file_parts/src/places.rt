//! The places of components and of isolated nodes, and the order of components.

ghost use Rattle.std.specs.Prelude.{◌≡◌, ◌≤◌, IfOk};
ghost use Rattle.pemb_file.specs.Served.{contents_of_view};

use bit_words::Steps;
use pemb_file::Served;
use std::alloc::{AllocError, Global};
use std::sync::ledger::Ledger;

/// The place of each component.
pub(crate) fn component_places<C: Ledger>(
    alloc: Global,
    served: Served<'_>,
    steps: &mut Steps<C>,
) -> Result<Vec<u32>, AllocError>
    ensures places { IfOk result (λ places. places.items ≡ (contents_of_view served.entry).places) }
    ensures grows { steps.old ≤ steps.new }
{
    let components = served.counts().components as usize;
    let mut places = Vec::with_capacity(alloc, components)?;
    for component in 0..components {
        let place = served.place(component, steps);
        places.push(place)?;
    }
    Ok(places)
}

/// The components, in their order by place.
pub(crate) fn component_order<C: Ledger>(
    alloc: Global,
    served: Served<'_>,
    steps: &mut Steps<C>,
) -> Result<Vec<u32>, AllocError>
    ensures order { IfOk result (λ order. order.items ≡ (contents_of_view served.entry).place_order) }
    ensures grows { steps.old ≤ steps.new }
{
    let components = served.counts().components as usize;
    let mut order = Vec::with_capacity(alloc, components)?;
    for j in 0..components {
        let component = served.place_order(j, steps);
        order.push(component)?;
    }
    Ok(order)
}

/// The place of each isolated node.
pub(crate) fn isolated_places<C: Ledger>(
    alloc: Global,
    served: Served<'_>,
    steps: &mut Steps<C>,
) -> Result<Vec<u32>, AllocError>
    ensures places { IfOk result (λ places. places.items ≡ (contents_of_view served.entry).isolated) }
    ensures grows { steps.old ≤ steps.new }
{
    let isolated = served.counts().isolated as usize;
    let mut places = Vec::with_capacity(alloc, isolated)?;
    for j in 0..isolated {
        let place = served.isolated(j, steps);
        places.push(place)?;
    }
    Ok(places)
}
