//! One item of an answer.

ghost use Rattle.std.specs.Prelude.{◌≡◌};
ghost use Rattle.topo_base.specs.Script.{item_text};
ghost use Rattle.topo_serve.specs.Gathering.{out_at, Writes};
ghost use Rattle.topo_serve.specs.Items.{item_of};

use crate::gathered::{Gathered, gather_both, gather_spaced};
use itoa::Buffer;
use ports::{Failed, Sink};
use topo_base::{IdNumber, NodeId, Signed};

/// An item of an answer.
#[derive(Clone, Copy)]
pub(crate) enum Item {
    /// A signed edge.
    Edge(Signed),
    /// A count, or the id of a node, a face or a region.
    Number(IdNumber),
    /// An isolated node.
    Node(NodeId),
}

/// Gathers the text of an item: a space, `n` before an isolated node, and the number.
#[inline(always)]
pub(crate) fn gather_item<K: Sink>(
    out: &mut K,
    text: &mut Gathered,
    item: Item,
) -> Result<(), Failed>
    ensures { Writes result (out_at (K.held out.old) (K.faults out.old) text.old.items)
        (out_at (K.held out.new) (K.faults out.new) text.new.items) (item_text (item_of item)) }
{
    let mut digits = Buffer::new();
    match item {
        Item::Edge(edge) => gather_spaced(out, text, digits.format(edge.value()).as_bytes()),
        Item::Number(number) => gather_spaced(out, text, digits.format(number).as_bytes()),
        Item::Node(node) => gather_both(out, text, b" n", digits.format(node.0).as_bytes()),
    }
}
