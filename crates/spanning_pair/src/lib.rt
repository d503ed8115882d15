//! The walk round a spanning tree of each component of a rotation system.
#![tactic(auto)]

ghost use Rattle.std.specs.Prelude.{◌≡◌, ℕ, ◌+◌, ◌*◌, ◌/◌, ◌<◌, ◌≤◌, length, cond, not, true, slice_set, IfOk, IfErr, OnOk, IsTrue, MatchOption, Bool};
ghost use Rattle.plane_model.specs.Component.{is_plane};
ghost use Rattle.rotation_check.specs.Darts.{IsRotation, map_of_rotation};
ghost use Rattle.spanning_pair.specs.Crossings.{ArePairs, OthersNest, IsFirstCrossing};
ghost use Rattle.spanning_pair.specs.Darts.{reverse_dart};
ghost use Rattle.spanning_pair.specs.Faults.{IsTourFault};
ghost use Rattle.spanning_pair.specs.declared.TourFault.TheVariants as faults;
ghost use Rattle.spanning_pair.specs.Marks.{seen_in, mark_where};
ghost use Rattle.spanning_pair.specs.Rotations.{next_dart, node_row, AreComponentStarts};
ghost use Rattle.spanning_pair.specs.Tours.{number_at, flag_at, AreClean, AreMarkedInComponent, IsNumberedSystem, IsWalkAppended, IsTour, IsTheTour};
ghost use Rattle.spanning_pair.specs.Walks.{after};

use marks::{EdgeMark, is_new_edge, is_tree_edge, new_edges};
use rotation_check::{Rotation, reversed};
use std::alloc::{AllocError, Global};
use topo_base::IdNumber;

pub mod laws;
mod marks;
#[cfg(test)]
mod path_tests;
mod places;
#[cfg(test)]
mod tests;

pub use places::Tour;

/// Why there is no tour.
#[derive(Clone, Copy, Debug, PartialEq, Eq)]
pub enum TourFault {
    /// Two edges that are not of the tree interleave. Read from the front, the edge of this id is the first that ends
    /// while one that began later is open.
    Crossed { edge: IdNumber },
    /// Memory ran out.
    Memory,
}

/// The row of the node that a dart enters.
fn head_row(rotation: &Rotation, dart: u32) -> u32
    requires rotation { IsRotation rotation.now }
    requires within { dart < 2 * length rotation.now.edges }
    ensures within { result < length rotation.now.nodes }
    ensures head { result ≡ node_row rotation.now (reverse_dart dart) }
{
    rotation.node(reversed(dart))
}

/// The row of the node that a dart leaves.
fn tail_row(rotation: &Rotation, dart: u32) -> u32
    requires rotation { IsRotation rotation.now }
    requires within { dart < 2 * length rotation.now.edges }
    ensures within { result < length rotation.now.nodes }
    ensures tail { result ≡ node_row rotation.now dart }
{
    rotation.node(dart)
}

/// Marks the edge of a dart where it is new, with the node that the dart enters, and answers whether it was new. A new
/// edge is a tree edge where that node was not visited. Nothing is written, and no node read, where the edge was seen.
fn mark_new_edge(
    rotation: &Rotation,
    dart: u32,
    marks: &mut [EdgeMark],
    visited: &mut [bool],
) -> bool
    requires rotation { IsRotation rotation.now }
    requires within { dart < 2 * length rotation.now.edges }
    requires marks_len { length marks.old ≡ length rotation.now.edges }
    requires visited_len { length visited.old ≡ length rotation.now.nodes }
    ensures new { result ≡ not (flag_at (seen_in marks.old) (dart / 2)) }
    ensures marks { marks.new ≡ cond result (slice_set marks.old (dart / 2)
        (mark_where (flag_at visited.old (node_row rotation.now (reverse_dart dart))))) marks.old }
    ensures visited { visited.new ≡ cond result (slice_set visited.old (node_row rotation.now (reverse_dart dart)) true)
        visited.old }
{
    let edge = (dart / 2) as usize;
    if !is_new_edge(marks, edge) {
        return false;
    }
    let head = head_row(rotation, dart) as usize;
    marks[edge] = if visited[head] {
        EdgeMark::Other
    } else {
        EdgeMark::Tree
    };
    visited[head] = true;
    true
}

/// The dart that comes after `dart` in the walk.
fn dart_after(rotation: &Rotation, is_tree: bool, dart: u32) -> u32
    requires rotation { IsRotation rotation.now }
    requires within { dart < 2 * length rotation.now.edges }
    ensures { result ≡ after (next_dart rotation.now) is_tree dart }
{
    if is_tree {
        rotation.next(dart)
    } else {
        rotation.turn(dart)
    }
}

/// Appends the walk of the component of `start`.
fn walk(
    rotation: &Rotation,
    start: u32,
    marks: &mut [EdgeMark],
    visited: &mut [bool],
    tour: &mut Tour,
) -> Result<(), AllocError>
    requires rotation { IsRotation rotation.now }
    requires system { IsNumberedSystem (length marks.old) (length visited.old) (next_dart rotation.now)
        (node_row rotation.now) }
    requires marks_len { length marks.old ≡ length rotation.now.edges }
    requires visited_len { length visited.old ≡ length rotation.now.nodes }
    requires start_below { start < 2 * length marks.old }
    requires tree_len { length tour.old.tree.items ≡ length tour.old.darts.items }
    requires first_len { length tour.old.first.items ≡ length tour.old.darts.items }
    requires clean { AreClean (next_dart rotation.now) (node_row rotation.now) start (seen_in marks.old) visited.old }
    ensures walk { OnOk result (IsWalkAppended (next_dart rotation.now)
        (node_row rotation.now) start tour.old.darts.items tour.old.tree.items tour.old.first.items tour.new.darts.items
        tour.new.tree.items tour.new.first.items) }
    ensures starts { OnOk result (tour.new.starts.items ≡ tour.old.starts.items) }
    ensures marks { OnOk result (AreMarkedInComponent (next_dart rotation.now)
        (node_row rotation.now) start (seen_in marks.old) visited.old (seen_in marks.new) visited.new) }
{
    visited[tail_row(rotation, start) as usize] = true;
    let mut current = start;
    'walk: loop {
        let is_new = mark_new_edge(rotation, current, marks, visited);
        let is_tree = is_tree_edge(marks, (current / 2) as usize);
        tour.darts.push(current)?;
        tour.tree.push(is_tree)?;
        tour.first.push(is_new)?;
        current = dart_after(rotation, is_tree, current);
        if current == start {
            return Ok(());
        }
    }
}

/// The walk of the component of each start, one after another.
fn walks(alloc: Global, rotation: &Rotation, starts: &[u32]) -> Result<Tour, AllocError>
    requires starts { AreComponentStarts rotation.now starts.now }
    ensures tour { IfOk result (λ t. IsTour (length rotation.now.edges) (next_dart rotation.now)
        (node_row rotation.now) starts.now t.darts.items t.tree.items t.first.items t.starts.items) }
    ensures rotation { OnOk result (IsRotation rotation.now) }
{
    let edges = rotation.edges() as usize;
    let nodes = rotation.nodes() as usize;
    let mut marks = new_edges(alloc, edges)?;
    let mut visited = vec![in alloc; false; nodes]?;
    let mut tour = Tour {
        darts: Vec::new(alloc),
        tree: Vec::new(alloc),
        first: Vec::new(alloc),
        starts: Vec::new(alloc),
    };
    tour.starts.push(0)?;
    for start in starts {
        walk(rotation, *start, &mut marks, &mut visited, &mut tour)?;
        let place = tour.darts.len() as u32;
        tour.starts.push(place)?;
    }
    Ok(tour)
}

/// The dart at whose second place an edge ends while another one that began later is open, neither of them a tree edge.
fn crossing(
    alloc: Global,
    darts: &[u32],
    tree: &[bool],
    first: &[bool],
) -> Result<Option<u32>, AllocError>
    requires pairs { ArePairs (number_at darts.now) (flag_at tree.now) (flag_at first.now) (length darts.now) }
    requires tree_len { length tree.now ≡ length darts.now }
    requires first_len { length first.now ≡ length darts.now }
    ensures { IfOk result (λ o. MatchOption o (OthersNest (number_at darts.now) (flag_at tree.now) (length darts.now))
        (λ d. IsFirstCrossing (number_at darts.now) (flag_at tree.now) (length darts.now) d)) }
{
    let mut open: Vec<usize> = Vec::new(alloc);
    for place in 0..darts.len() {
        if !tree[place] {
            if first[place] {
                open.push(place)?;
            } else if let Some(top) = open.pop() {
                if darts[top] != reversed(darts[place]) {
                    return Ok(Some(darts[place]));
                }
            }
        }
    }
    Ok(None)
}

/// The walk round a spanning tree of each component, where no two other edges cross. A component's walk begins at its
/// entry of `starts`, a dart.
pub fn tour(alloc: Global, rotation: &Rotation, starts: &[u32]) -> Result<Tour, TourFault>
    requires starts { AreComponentStarts rotation.now starts.now }
    ensures tour { IfOk result (λ t. IsTheTour (length rotation.now.edges) (next_dart rotation.now)
        (node_row rotation.now) starts.now t.darts.items t.tree.items t.first.items t.starts.items) }
    ensures nested { IfOk result (λ t. OthersNest (number_at t.darts.items) (flag_at t.tree.items)
        (length t.darts.items)) }
    ensures plane { IfOk result (λ t. IsTrue (is_plane (map_of_rotation rotation.now))) }
    ensures fault { IfErr result (IsTourFault rotation.now starts.now) }
    ensures never_crossed { IsTrue (is_plane (map_of_rotation rotation.now)) → IfErr result (λ e. e ≡ faults.Memory) }
{
    let Ok(tour) = walks(alloc, rotation, starts) else {
        return Err(TourFault::Memory);
    };
    match crossing(alloc, &tour.darts, &tour.tree, &tour.first) {
        Ok(None) => Ok(tour),
        Ok(Some(dart)) => Err(TourFault::Crossed {
            edge: rotation.id(dart).edge().0,
        }),
        Err(_) => Err(TourFault::Memory),
    }
}

/// The same where the components are known to be plane: there no two other edges cross, and none are looked for.
pub fn plane_tour(alloc: Global, rotation: &Rotation, starts: &[u32]) -> Result<Tour, AllocError>
    requires starts { AreComponentStarts rotation.now starts.now }
    requires plane { IsTrue (is_plane (map_of_rotation rotation.now)) }
    ensures tour { IfOk result (λ t. IsTheTour (length rotation.now.edges) (next_dart rotation.now)
        (node_row rotation.now) starts.now t.darts.items t.tree.items t.first.items t.starts.items) }
    ensures nested { IfOk result (λ t. OthersNest (number_at t.darts.items) (flag_at t.tree.items)
        (length t.darts.items)) }
{
    let tour = walks(alloc, rotation, starts)?;
    Ok(tour)
}
