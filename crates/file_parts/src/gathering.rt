//! What an opened file holds, as plain lists.

ghost use Rattle.std.specs.Prelude.{◌≡◌, ◌≤◌, IfOk, IsTrue, length};
ghost use Rattle.file_laws.specs.Lawful.{is_whole};
ghost use Rattle.pemb_file.specs.Parts.{contents_of_parts};
ghost use Rattle.pemb_file.specs.Served.{contents_of_view};
ghost use Rattle.file_parts.specs.Walk.{firsts};

use crate::by_number::{forward_bits, ids};
use crate::places::{component_order, component_places, isolated_places};
use crate::regions::{members, region_bits, region_ids};
use crate::walk::{first_bits, starts, tree_bits};
use bit_words::{Memory, Steps};
use pemb_file::{ImageParts, Served};
use std::alloc::{AllocError, Global};
use std::sync::ledger::Ledger;

/// Each list, from its views.
fn gathered<C: Ledger>(
    alloc: Global,
    served: Served<'_>,
    steps: &mut Steps<C>,
) -> Result<ImageParts, AllocError>
    ensures contents { IfOk result (λ parts. contents_of_parts parts ≡ contents_of_view served.entry) }
    ensures walk { IfOk result (λ parts. length parts.tree.items ≡ length parts.first.items) }
    ensures first { IfOk result (λ parts. parts.first.items ≡ firsts (contents_of_view served.entry).code) }
    ensures whole { IfOk result (λ parts. IsTrue (is_whole (contents_of_parts parts))) }
    ensures grows { steps.old ≤ steps.new }
{
    let counts = served.counts();
    let code = *served.code();
    let tree = tree_bits(alloc, code, counts.tree_edges, steps)?;
    let first = first_bits(alloc, code, steps)?;
    let starts = starts(alloc, code, counts.components, steps)?;
    let forward = forward_bits(alloc, served, steps)?;
    let names = *served.nodes();
    let nodes = ids(alloc, names, steps)?;
    let names = *served.edges();
    let edges = ids(alloc, names, steps)?;
    let names = *served.faces();
    let faces = ids(alloc, names, steps)?;
    let places = component_places(alloc, served, steps)?;
    let place_order = component_order(alloc, served, steps)?;
    let isolated = isolated_places(alloc, served, steps)?;
    let region_tree = served.regions();
    let region_bits = region_bits(alloc, region_tree, steps)?;
    let regions = region_ids(alloc, region_tree, steps)?;
    let members = members(alloc, served, steps)?;
    Ok(ImageParts {
        tree,
        first,
        starts,
        forward,
        nodes,
        edges,
        faces,
        places,
        place_order,
        isolated,
        region_bits,
        regions,
        members,
    })
}

/// What the sections of an opened file hold, as plain lists: components, regions and isolated nodes keep their order,
/// and ids stand by number. `write_image` may be called on it.
pub fn parts_of<C: Ledger>(
    alloc: Global,
    served: Served<'_>,
    steps: &mut Steps<C>,
) -> Result<ImageParts, Memory>
    ensures contents { IfOk result (λ parts. contents_of_parts parts ≡ contents_of_view served.entry) }
    ensures walk { IfOk result (λ parts. length parts.tree.items ≡ length parts.first.items) }
    ensures first { IfOk result (λ parts. parts.first.items ≡ firsts (contents_of_view served.entry).code) }
    ensures whole { IfOk result (λ parts. IsTrue (is_whole (contents_of_parts parts))) }
    ensures grows { steps.old ≤ steps.new }
{
    match gathered(alloc, served, steps) {
        Ok(parts) => Ok(parts),
        Err(_) => Err(Memory),
    }
}
