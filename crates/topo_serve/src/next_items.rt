//! The items that a walk gives at once.

use crate::item::Item;
use navigate::Several;

/// The next items of an answer.
#[derive(Clone, Copy)]
pub(crate) enum NextItems {
    /// Some signed edges.
    Edges(Several),
    /// One item.
    One(Item),
    /// None.
    End,
}

impl NextItems {
    ghost use Rattle.std.specs.Prelude.{◌≡◌, ◌↔◌, [], IsTrue};
    ghost use Rattle.topo_serve.specs.Items.{items_of};

    /// Whether there are none.
    pub(crate) fn is_empty(&self) -> bool
        ensures { IsTrue result ↔ (items_of self.now ≡ []) }
    {
        match self {
            NextItems::Edges(edges) => edges.as_slice().is_empty(),
            NextItems::One(_) => false,
            NextItems::End => true,
        }
    }
}
