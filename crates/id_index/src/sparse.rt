//! The rows of ids, sorted.

ghost use Rattle.std.specs.Prelude.{◌≡◌, ◌<◌, ◌^◌, ◌==◌, ℕ, find, length, IfOk, IsPermutation};
ghost use Rattle.std.specs.List.Sorted.{IsNonDecreasingBy};
ghost use Rattle.id_index.specs.Entries.{numbered};

use std::alloc::{AllocError, Global};
use topo_base::IdNumber;

/// An id and a row in which it stands.
#[derive(Clone, Copy)]
struct Entry {
    id: IdNumber,
    row: u32,
}

/// The ids with their rows, in file order.
fn numbered(alloc: Global, ids: &[IdNumber]) -> Result<Vec<Entry>, AllocError>
    requires { length ids.now < 2 ^ 32 }
    ensures { IfOk result (λ entries. entries.items ≡ numbered ids.now) }
{
    ids.iter()
        .enumerate()
        .map(|(row, id)| Entry {
            id: *id,
            row: row as u32,
        })
        .collect(alloc)
}

/// The ids with their rows, rising by id. The rows of one id keep their order.
fn rising(alloc: Global, ids: &[IdNumber]) -> Result<Vec<Entry>, AllocError>
    requires { length ids.now < 2 ^ 32 }
    ensures same { IfOk result (λ entries. IsPermutation (numbered ids.now) entries.items) }
    ensures rising { IfOk result (λ entries. IsNonDecreasingBy (λ e. e.id) entries.items) }
    ensures first { IfOk result (λ entries. (id : ℕ) → find (λ e. e.id == id) entries.items
        ≡ find (λ e. e.id == id) (numbered ids.now)) }
{
    let mut entries = numbered(alloc, ids)?;
    entries.sort_by_key(|entry| entry.id)?;
    Ok(entries)
}

/// The rows of all ids, found by halving.
#[derive(Drop)]
pub(crate) struct SparseRows {
    /// Rising by id, and the rows of one id in file order.
    entries: Vec<Entry>,
    ghost rising: { IsNonDecreasingBy (λ e. e.id) entries.items },
}

impl SparseRows {
    ghost use Rattle.std.specs.Prelude.{◌≡◌, ◌<◌, ◌^◌, ℕ, length, map, IfOk, IsPermutation};
    ghost use Rattle.plane_model.specs.Orders.{first_pair};
    ghost use Rattle.id_index.specs.Rows.{first_row};
    ghost use Rattle.id_index.specs.Entries.{ids_of, row_among};

    /// The rows of these ids.
    pub(crate) fn new(alloc: Global, ids: &[IdNumber]) -> Result<SparseRows, AllocError>
        requires { length ids.now < 2 ^ 32 }
        ensures same { IfOk result (λ rows. IsPermutation ids.now (ids_of rows.entries.items)) }
        ensures rows { IfOk result (λ rows. (id : ℕ) → row_among rows.entries.items id ≡ first_row ids.now id) }
    {
        Ok(SparseRows {
            entries: rising(alloc, ids)?,
        })
    }

    /// The first row of an id.
    pub(crate) fn row_of(&self, id: IdNumber) -> Option<u32>
        ensures { result ≡ row_among self.now.entries.items id }
    {
        let place = self.entries.partition_point(|entry| entry.id < id);
        let entry = self.entries.get(place)?;
        if entry.id == id {
            Some(entry.row)
        } else {
            None
        }
    }

    /// The first id that equals the one behind it.
    pub(crate) fn first_twice(&self) -> Option<IdNumber>
        ensures { result ≡ first_pair (ids_of self.now.entries.items) }
    {
        for place in 1..self.entries.len() {
            let id = self.entries[place].id;
            if self.entries[place - 1].id == id {
                return Some(id);
            }
        }
        None
    }
}
