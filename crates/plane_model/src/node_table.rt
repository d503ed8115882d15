//! The rows of a node table, held close together.

ghost use Rattle.std.specs.Prelude.{◌≡◌};
ghost use Rattle.plane_model.specs.NodeTable.{widened};

use crate::rows::NodeRow;
use std::alloc::{AllocError, Global};
use std::marker::Model;

/// A row whose ids have at most 32 bits: half as long as a `NodeRow`.
#[derive(Clone, Copy, Debug)]
struct NarrowNode {
    id: u32,
    face: Option<u32>,
}

impl NarrowNode {
    ghost use Rattle.std.specs.Prelude.{◌≡◌, IfSome};
    ghost use Rattle.plane_model.specs.NodeTable.{widened};

    /// A row in half its length, or None where one of its ids is too great.
    fn of(row: NodeRow) -> Option<NarrowNode>
        ensures { IfSome result (λ node. widened node ≡ row) }
    {
        let face = match row.face {
            Some(face) => Some(u32::try_from(face).ok()?),
            None => None,
        };
        Some(NarrowNode {
            id: u32::try_from(row.id).ok()?,
            face,
        })
    }

    /// The row.
    #[inline]
    fn widened(&self) -> NodeRow
        ensures { result ≡ widened self.now }
    {
        NodeRow {
            id: self.id.into(),
            face: match self.face {
                Some(face) => Some(face.into()),
                None => None,
            },
        }
    }
}

/// The rows of a node table, in the order of the file. Before the first row with an id past 32 bits each takes 12 bytes,
/// and from that one on 24.
#[derive(Debug, Drop)]
pub struct NodeTable {
    narrow: Vec<NarrowNode>,
    wide: Vec<NodeRow>,
}

impl Model for NodeTable {
    ghost use Rattle.std.specs.Prelude.{List, ◌++◌, map};
    ghost use Rattle.plane_model.specs.declared.rows.NodeRow.{NodeRow};
    ghost use Rattle.plane_model.specs.NodeTable.{widened};

    ghost Value = { List NodeRow };

    ghost view = { λ t. map widened t.narrow.items ++ t.wide.items };
}

impl NodeTable {
    ghost use Rattle.std.specs.Prelude.{◌≡◌, ◌<◌, ◌++◌, ◌∷◌, [], OnOk, Some, length, slice_get};

    /// A table without rows.
    pub fn new(alloc: Global) -> NodeTable
        ensures { result ≡ [] }
    {
        NodeTable {
            narrow: Vec::new(alloc),
            wide: Vec::new(alloc),
        }
    }

    /// How many rows there are.
    #[inline]
    pub fn len(&self) -> usize
        ensures { result ≡ length self.now }
    {
        self.narrow.len() + self.wide.len()
    }

    /// The row at a place, from 0.
    #[inline]
    pub fn row(&self, place: usize) -> NodeRow
        requires { place < length self.now }
        ensures { slice_get self.now place ≡ Some result }
    {
        let narrow = self.narrow.len();
        if place < narrow {
            self.narrow[place].widened()
        } else {
            self.wide[place - narrow]
        }
    }

    /// Adds a row behind the others.
    pub fn push(&mut self, row: NodeRow) -> Result<(), AllocError>
        ensures { OnOk result (self.new ≡ self.old ++ row ∷ []) }
    {
        if self.wide.is_empty() {
            if let Some(node) = NarrowNode::of(row) {
                self.narrow.push(node)?;
                return Ok(());
            }
        }
        self.wide.push(row)?;
        Ok(())
    }
}
