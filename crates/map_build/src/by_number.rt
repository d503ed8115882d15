//! Lists by number, filled position by position of a walk. Positions of one number agree on what stands there, so an
//! id is looked up only where none stands yet.

ghost use Rattle.std.specs.Prelude.{◌≡◌, ◌≤◌, ◌*◌, ◌<◌, ◌-◌, ◌==◌, ◌%◌, ℕ, Bool, true, false, IfOk, List, length, slice_index, slice_index_or, nat_lt};
ghost use Rattle.map_build.specs.ByNumber.{StandByNumber};
ghost use Rattle.map_build.specs.DartRows.{row_at, start_of_dart, face_of_dart};

use crate::rows::{edge_id, face_id, is_forward, node_id};
use plane_model::EdgeTable;
use std::alloc::{AllocError, Global};
use topo_base::IdNumber;

/// The ids of edges by number.
pub(crate) fn edge_ids(
    alloc: Global,
    edges: &EdgeTable,
    darts: &[u32],
    numbers: &[u32],
) -> Result<Vec<IdNumber>, AllocError>
    requires darts { (p : ℕ) → p < length darts.now → slice_index darts.now p < 2 * length edges.now }
    requires many { length numbers.now ≡ length darts.now }
    requires agree { (ids : List ℕ) × (length ids ≡ length edges.now)
        × StandByNumber 0 (slice_index numbers.now) (λ p. (row_at edges.now (slice_index darts.now p)).id) (λ _. true)
        (length darts.now) ids }
    ensures len { IfOk result (λ ids. length ids.items ≡ length edges.now) }
    ensures ids { IfOk result (λ ids. StandByNumber 0 (slice_index numbers.now)
        (λ p. (row_at edges.now (slice_index darts.now p)).id) (λ _. true) (length darts.now) ids.items) }
{
    let mut ids = vec![in alloc; 0; edges.len()]?;
    for p in 0..darts.len() {
        let number = numbers[p] as usize;
        if ids[number] == 0 {
            ids[number] = edge_id(edges, darts[p]);
        }
    }
    Ok(ids)
}

/// Whether each edge, by number, runs forward where the walk first comes to it.
pub(crate) fn directions(
    alloc: Global,
    count: usize,
    darts: &[u32],
    first: &[bool],
    numbers: &[u32],
) -> Result<Vec<bool>, AllocError>
    requires flags { length first.now ≡ length darts.now }
    requires many { length numbers.now ≡ length darts.now }
    requires agree { (forward : List Bool) × (length forward ≡ count)
        × StandByNumber false (slice_index numbers.now) (λ p. slice_index darts.now p % 2 == 0)
        (λ p. slice_index_or first.now p false) (length darts.now) forward }
    ensures len { IfOk result (λ forward. length forward.items ≡ count) }
    ensures forward { IfOk result (λ forward. StandByNumber false (slice_index numbers.now)
        (λ p. slice_index darts.now p % 2 == 0) (λ p. slice_index_or first.now p false)
        (length darts.now) forward.items) }
{
    let mut forward = vec![in alloc; false; count]?;
    for p in 0..darts.len() {
        if first[p] {
            forward[numbers[p] as usize] = is_forward(darts[p]);
        }
    }
    Ok(forward)
}

/// The ids of so many nodes by number.
pub(crate) fn node_ids(
    alloc: Global,
    count: usize,
    edges: &EdgeTable,
    darts: &[u32],
    numbers: &[u32],
) -> Result<Vec<IdNumber>, AllocError>
    requires darts { (p : ℕ) → p < length darts.now → slice_index darts.now p < 2 * length edges.now }
    requires many { length numbers.now ≡ length darts.now }
    requires agree { (ids : List ℕ) × (length ids ≡ count)
        × StandByNumber 0 (slice_index numbers.now) (λ p. start_of_dart edges.now (slice_index darts.now p)) (λ _. true)
        (length darts.now) ids }
    ensures len { IfOk result (λ ids. length ids.items ≡ count) }
    ensures ids { IfOk result (λ ids. StandByNumber 0 (slice_index numbers.now)
        (λ p. start_of_dart edges.now (slice_index darts.now p)) (λ _. true) (length darts.now) ids.items) }
{
    let mut ids = vec![in alloc; 0; count]?;
    for p in 0..darts.len() {
        let number = numbers[p] as usize;
        if ids[number] == 0 {
            ids[number] = node_id(edges, darts[p]);
        }
    }
    Ok(ids)
}

/// The ids of so many faces by the number of their shell; a ring has 1 + this number, and an outer ring 0.
pub(crate) fn face_ids(
    alloc: Global,
    count: usize,
    edges: &EdgeTable,
    darts: &[u32],
    rings: &[u32],
) -> Result<Vec<IdNumber>, AllocError>
    requires darts { (p : ℕ) → p < length darts.now → slice_index darts.now p < 2 * length edges.now }
    requires many { length rings.now ≡ length darts.now }
    requires agree { (ids : List ℕ) × (length ids ≡ count)
        × StandByNumber 0 (λ p. slice_index rings.now p - 1) (λ p. face_of_dart edges.now (slice_index darts.now p))
        (λ p. nat_lt 0 (slice_index rings.now p)) (length darts.now) ids }
    ensures len { IfOk result (λ ids. length ids.items ≡ count) }
    ensures ids { IfOk result (λ ids. StandByNumber 0 (λ p. slice_index rings.now p - 1)
        (λ p. face_of_dart edges.now (slice_index darts.now p)) (λ p. nat_lt 0 (slice_index rings.now p))
        (length darts.now) ids.items) }
{
    let mut ids = vec![in alloc; 0; count]?;
    for p in 0..darts.len() {
        if rings[p] > 0 {
            let number = (rings[p] - 1) as usize;
            if ids[number] == 0 {
                ids[number] = face_id(edges, darts[p]);
            }
        }
    }
    Ok(ids)
}
