//! The rows of an edge table, held close together.

ghost use Rattle.std.specs.Prelude.{◌≡◌};
ghost use Rattle.plane_model.specs.EdgeTable.{widened};

use crate::rows::EdgeRow;
use std::alloc::{AllocError, Global};
use std::marker::Model;

/// A row whose numbers have at most 32 bits, those of signed edges with their sign: half as long as an `EdgeRow`.
#[derive(Clone, Copy, Debug)]
struct NarrowEdge {
    id: u32,
    start: u32,
    end: u32,
    next_left: i32,
    next_right: i32,
    left_face: u32,
    right_face: u32,
}

impl NarrowEdge {
    ghost use Rattle.std.specs.Prelude.{◌≡◌, IfSome};
    ghost use Rattle.plane_model.specs.EdgeTable.{widened};

    /// A row in half its length, or None where one of its numbers is too great.
    fn of(row: EdgeRow) -> Option<NarrowEdge>
        ensures { IfSome result (λ edge. widened edge ≡ row) }
    {
        Some(NarrowEdge {
            id: u32::try_from(row.id).ok()?,
            start: u32::try_from(row.start).ok()?,
            end: u32::try_from(row.end).ok()?,
            next_left: i32::try_from(row.next_left).ok()?,
            next_right: i32::try_from(row.next_right).ok()?,
            left_face: u32::try_from(row.left_face).ok()?,
            right_face: u32::try_from(row.right_face).ok()?,
        })
    }

    /// The row.
    #[inline]
    fn widened(&self) -> EdgeRow
        ensures { result ≡ widened self.now }
    {
        EdgeRow {
            id: self.id.into(),
            start: self.start.into(),
            end: self.end.into(),
            next_left: self.next_left.into(),
            next_right: self.next_right.into(),
            left_face: self.left_face.into(),
            right_face: self.right_face.into(),
        }
    }
}

/// The rows of an edge table, in the order of the file. Before the first row with a number past 32 bits each takes 28
/// bytes, and from that one on 56.
#[derive(Debug, Drop)]
pub struct EdgeTable {
    narrow: Vec<NarrowEdge>,
    wide: Vec<EdgeRow>,
}

impl Model for EdgeTable {
    ghost use Rattle.std.specs.Prelude.{List, ◌++◌, map};
    ghost use Rattle.plane_model.specs.declared.rows.EdgeRow.{EdgeRow};
    ghost use Rattle.plane_model.specs.EdgeTable.{widened};

    ghost Value = { List EdgeRow };

    ghost view = { λ t. map widened t.narrow.items ++ t.wide.items };
}

impl EdgeTable {
    ghost use Rattle.std.specs.Prelude.{◌≡◌, ◌<◌, ◌++◌, ◌∷◌, [], OnOk, Some, length, slice_get};

    /// A table without rows.
    pub fn new(alloc: Global) -> EdgeTable
        ensures { result ≡ [] }
    {
        EdgeTable {
            narrow: Vec::new(alloc),
            wide: Vec::new(alloc),
        }
    }

    /// How many rows there are.
    #[inline]
    pub fn len(&self) -> usize
        ensures { result ≡ length self.now }
    {
        self.narrow.len() + self.wide.len()
    }

    /// The row at a place, from 0.
    #[inline]
    pub fn row(&self, place: usize) -> EdgeRow
        requires { place < length self.now }
        ensures { slice_get self.now place ≡ Some result }
    {
        let narrow = self.narrow.len();
        if place < narrow {
            self.narrow[place].widened()
        } else {
            self.wide[place - narrow]
        }
    }

    /// Adds a row behind the others.
    pub fn push(&mut self, row: EdgeRow) -> Result<(), AllocError>
        ensures { OnOk result (self.new ≡ self.old ++ row ∷ []) }
    {
        if self.wide.is_empty() {
            if let Some(edge) = NarrowEdge::of(row) {
                self.narrow.push(edge)?;
                return Ok(());
            }
        }
        self.wide.push(row)?;
        Ok(())
    }
}
