//! The rings of an outline, a line each.

ghost use Rattle.std.specs.Prelude.{◌≡◌, ◌≤◌, ◌+◌, ◌*◌, ◌++◌, false, length, IfOk, OnOk};
ghost use Rattle.scratch_region.specs.Marks.{room_of};
ghost use Rattle.region_border.specs.Items.{is_edge};
ghost use Rattle.region_border.specs.BorderWalk.{allowance, contents_in, rest, HoldsGiven};
ghost use Rattle.outline_text.specs.Told.{edges_among, one_edge, one_ring, rings_among, rings_text, told};

use bit_words::Steps;
use query_text::signed_item;
use region_border::{BorderItem, BorderWalk};
use scratch_region::Marks;
use std::alloc::AllocError;
use std::sync::ledger::Ledger;
use topo_base::Signed;

/// How many rings and signed edges of an outline were told.
#[derive(Clone, Copy, Debug, PartialEq, Eq)]
pub(crate) struct RingCounts {
    pub rings: u64,
    pub edges: u64,
}

/// Appends a signed edge behind a space, and the beginning of its line before the first of a ring.
fn append_edge(text: &mut Vec<u8>, edge: Signed, begun: bool) -> Result<(), AllocError>
    ensures { OnOk result (text.new.items ≡ text.old.items ++ told begun (BorderItem.Edge edge)) }
{
    if !begun {
        text.extend_from_slice(b"ring:")?;
    }
    text.extend_from_slice(signed_item(edge).as_slice())
}

/// Appends an item of a walk, where its ring was begun or not, and counts it. The result is whether a ring is begun.
fn append_item(
    text: &mut Vec<u8>,
    item: BorderItem,
    counts: &mut RingCounts,
    begun: bool,
) -> Result<bool, AllocError>
    requires { counts.old.rings + counts.old.edges ≤ length text.old.items }
    ensures text { OnOk result (text.new.items ≡ text.old.items ++ told begun item) }
    ensures begun { IfOk result (λ begun. begun ≡ is_edge item) }
    ensures rings { OnOk result (counts.new.rings ≡ counts.old.rings + one_ring item) }
    ensures edges { OnOk result (counts.new.edges ≡ counts.old.edges + one_edge item) }
{
    match item {
        BorderItem::Edge(edge) => {
            append_edge(text, edge, begun)?;
            counts.edges += 1;
            Ok(true)
        }
        BorderItem::RingEnd => {
            text.push(b'\n')?;
            counts.rings += 1;
            Ok(false)
        }
    }
}

/// Appends the lines of the rings that a walk still gives, and counts them and their signed edges.
pub(crate) fn append_rings<L: Ledger>(
    text: &mut Vec<u8>,
    walk: &mut BorderWalk<'_>,
    marks: &mut Marks<'_>,
    steps: &mut Steps<L>,
) -> Result<RingCounts, AllocError>
    requires room { 2 * length (contents_in walk.old).edges ≤ room_of marks.old }
    requires marks { HoldsGiven walk.old marks.old }
    ensures text { OnOk result (text.new.items ≡ text.old.items ++ rings_text false (rest walk.old)) }
    ensures rings { IfOk result (λ counts. counts.rings ≡ rings_among (rest walk.old)) }
    ensures edges { IfOk result (λ counts. counts.edges ≡ edges_among (rest walk.old)) }
    ensures least { OnOk result (steps.old + edges_among (rest walk.old) ≤ steps.new) }
    ensures most { steps.new ≤ steps.old + allowance walk.old }
    ensures grows { steps.old ≤ steps.new }
{
    let mut counts = RingCounts { rings: 0, edges: 0 };
    let mut begun = false;
    while let Some(item) = walk.step(marks, steps) {
        begun = append_item(text, item, &mut counts, begun)?;
    }
    Ok(counts)
}
