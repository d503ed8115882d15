//! What the rows of a table are held in.

ghost use Rattle.std.specs.Prelude.{List, [], ◌∷◌, ◌++◌, ◌≡◌, OnOk, length};

use crate::row::TableRow;
use plane_model::{EdgeRow, EdgeTable, NodeRow, NodeTable};
use std::alloc::{AllocError, Global};

/// Rows of one table, in the order of the file.
pub trait RowList: Drop {
    /// A row of the table.
    type Row: TableRow;

    ghost listed: { Self → List Self.Row };

    /// No rows.
    fn empty(alloc: Global) -> Self
        ensures { listed result ≡ [] };

    /// How many rows there are.
    fn len(&self) -> usize
        ensures { result ≡ length (listed self.now) };

    /// Adds a row behind the others.
    fn push(&mut self, row: Self::Row) -> Result<(), AllocError>
        ensures { OnOk result (listed self.new ≡ listed self.old ++ row ∷ []) };
}

impl<R: TableRow> RowList for Vec<R> {
    type Row = R;

    ghost listed = { λ rows. rows.items };

    fn empty(alloc: Global) -> Vec<R> {
        Vec::new(alloc)
    }

    fn len(&self) -> usize {
        self.len()
    }

    fn push(&mut self, row: R) -> Result<(), AllocError> {
        self.push(row)?;
        Ok(())
    }
}

impl RowList for EdgeTable {
    type Row = EdgeRow;

    ghost listed = { λ rows. rows };

    fn empty(alloc: Global) -> EdgeTable {
        EdgeTable::new(alloc)
    }

    fn len(&self) -> usize {
        self.len()
    }

    fn push(&mut self, row: EdgeRow) -> Result<(), AllocError> {
        self.push(row)
    }
}

impl RowList for NodeTable {
    type Row = NodeRow;

    ghost listed = { λ rows. rows };

    fn empty(alloc: Global) -> NodeTable {
        NodeTable::new(alloc)
    }

    fn len(&self) -> usize {
        self.len()
    }

    fn push(&mut self, row: NodeRow) -> Result<(), AllocError> {
        self.push(row)
    }
}
