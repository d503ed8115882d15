//! Ids that stand in two rows, and the index of ids of which none does.

ghost use Rattle.std.specs.Prelude.{◌≡◌, ◌<◌, ◌^◌, length, map, IfErr, IfOk, OnOk, None};
ghost use Rattle.plane_model.specs.Faults.{id_twice};
ghost use Rattle.id_index.specs.Index.{IsIndex};
ghost use Rattle.rotation_check.specs.Checked.{Names};

use crate::checking::{CheckFault, refuse};
use id_index::IdIndex;
use plane_model::{EdgeTable, FaceRow, NodeTable};
use std::alloc::{AllocError, Global};
use topo_base::{IdNumber, Refusal, Table};

/// The ids of the rows of nodes.
pub fn node_ids(alloc: Global, table: &NodeTable) -> Result<Vec<IdNumber>, AllocError>
    ensures { IfOk result (λ ids. ids.items ≡ map (λ r. r.id) table.now) }
{
    let mut ids = Vec::with_capacity(alloc, table.len())?;
    for place in 0..table.len() {
        ids.push(table.row(place).id)?;
    }
    Ok(ids)
}

/// The ids of the rows of edges.
pub fn edge_ids(alloc: Global, table: &EdgeTable) -> Result<Vec<IdNumber>, AllocError>
    ensures { IfOk result (λ ids. ids.items ≡ map (λ r. r.id) table.now) }
{
    let mut ids = Vec::with_capacity(alloc, table.len())?;
    for place in 0..table.len() {
        ids.push(table.row(place).id)?;
    }
    Ok(ids)
}

/// The ids of the rows of faces.
pub fn face_ids(alloc: Global, rows: &[FaceRow]) -> Result<Vec<IdNumber>, AllocError>
    ensures { IfOk result (λ ids. ids.items ≡ map (λ r. r.id) rows.now) }
{
    rows.iter().map(|row| row.id).collect(alloc)
}

/// The index of the ids of a table, or the least of them that stands in two rows.
pub fn distinct_index(alloc: Global, table: Table, ids: &[IdNumber]) -> Result<IdIndex, CheckFault>
    requires { length ids.now < 2 ^ 32 }
    ensures index { IfOk result (IsIndex ids.now) }
    ensures fine { OnOk result (id_twice table ids.now ≡ None) }
    ensures refused { IfErr result (λ e. Names e (id_twice table ids.now)) }
{
    let index = IdIndex::new(alloc, ids)?;
    refuse(index.repeated().map(|id| Refusal::IdTwice { table, id }))?;
    Ok(index)
}
