//! An index from ids to rows.

use crate::dense::{DenseRows, slots_over};
use crate::repeated::with_id;
use crate::sparse::SparseRows;
use std::alloc::{AllocError, Global};
use topo_base::IdNumber;

/// The first rows of ids.
#[derive(Drop)]
enum Form {
    Dense(DenseRows),
    Sparse(SparseRows),
}

/// The rows of a table by their ids: the first row in which each id stands, and the least id that stands twice.
#[derive(Drop)]
pub struct IdIndex {
    form: Form,
    repeated: Option<IdNumber>,
}

impl IdIndex {
    ghost use Rattle.std.specs.Prelude.{◌≡◌, ◌<◌, ◌≤◌, ◌+◌, ◌*◌, ◌^◌, length, IfOk};
    ghost use Rattle.std.specs.List.{All};
    ghost use Rattle.id_index.specs.Index.{IsIndex, places_in, row_in};

    /// The index of the ids of rows. Err where there is no memory for it.
    pub fn new(alloc: Global, ids: &[IdNumber]) -> Result<IdIndex, AllocError>
        requires { length ids.now < 2 ^ 32 }
        ensures index { IfOk result (IsIndex ids.now) }
        ensures few { IfOk result (λ index. places_in index ≤ 4 * length ids.now + 1024) }
    {
        match slots_over(ids) {
            Some(slots) => IdIndex::dense(alloc, ids, slots),
            None => IdIndex::sparse(alloc, ids),
        }
    }

    /// The index by an array of so many slots.
    fn dense(alloc: Global, ids: &[IdNumber], slots: usize) -> Result<IdIndex, AllocError>
        requires few { length ids.now < 2 ^ 32 }
        requires within { All (λ id. id < slots) ids.now }
        ensures index { IfOk result (IsIndex ids.now) }
        ensures many { IfOk result (λ index. places_in index ≡ slots) }
    {
        let mut rows = DenseRows::new(alloc, slots)?;
        let mut repeated = None;
        for row in (0..ids.len()).rev() {
            let id = ids[row];
            let again = rows.put(id, row as u32);
            repeated = with_id(repeated, id, again);
        }
        Ok(IdIndex {
            form: Form::Dense(rows),
            repeated,
        })
    }

    /// The index by sorted ids.
    fn sparse(alloc: Global, ids: &[IdNumber]) -> Result<IdIndex, AllocError>
        requires { length ids.now < 2 ^ 32 }
        ensures index { IfOk result (IsIndex ids.now) }
        ensures many { IfOk result (λ index. places_in index ≡ length ids.now) }
    {
        let rows = SparseRows::new(alloc, ids)?;
        let repeated = rows.first_twice();
        Ok(IdIndex {
            form: Form::Sparse(rows),
            repeated,
        })
    }

    /// The first row in which an id stands, or None where it stands in none.
    #[inline]
    pub fn row_of(&self, id: IdNumber) -> Option<u32>
        ensures { result ≡ row_in self.now id }
    {
        match &self.form {
            Form::Dense(rows) => rows.row_of(id),
            Form::Sparse(rows) => rows.row_of(id),
        }
    }

    /// The least id that stands in two rows.
    pub fn repeated(&self) -> Option<IdNumber>
        ensures { result ≡ self.now.repeated }
    {
        self.repeated
    }
}
