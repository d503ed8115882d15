//! Walks over a grid of more than 100,000 edges, stepped in turn, against walks over the rows.

ghost use Rattle.std.specs.Prelude.{◌≡◌, ◌<◌};

use crate::maps::{grid_edges, grid_image};
use bit_words::Steps;
use navigate::{node_walk, ring_walk};
use pemb_file::{Served, open};
use plane_model::EdgeTable;
use std::alloc::Global;
use std::marker::Brand;
use std::sync::ledger::{Blank, Ledger};
use std::test::Fail;
use topo_base::{IdNumber, LARGEST_ID, NodeId, Signed, SignedNumber};

/// The size of the grid.
const SIZE: u32 = 220;

/// Two corners of the grid, a node in its middle, and the opposite corner.
const NODES: [IdNumber; 4] = [1, 221, 24_421, 48_841];

/// A closed edge and its node.
const CLOSED_EDGE: SignedNumber = 102_240;

const CLOSED_NODE: IdNumber = 53_841;

/// A walk over rows whose ids are 1, 2, 3 and so on.
#[derive(Clone, Copy)]
struct RowWalk<'a> {
    edges: &'a EdgeTable,
    /// Whether it goes round a node.
    round: bool,
    first: SignedNumber,
    /// The next signed edge, unless the walk is at its end.
    at: Option<SignedNumber>,
}

impl<'a> RowWalk<'a> {
    /// The walk from a signed edge on until it comes back.
    fn from(edges: &'a EdgeTable, round: bool, first: SignedNumber) -> RowWalk<'a> {
        RowWalk {
            edges,
            round,
            first,
            at: Some(first),
        }
    }

    /// The next signed edge, or None at the end.
    fn step(&mut self) -> Option<SignedNumber> {
        let Some(at) = self.at else {
            return None;
        };
        self.at = match following(self.edges, self.round, at) {
            Some(next) if next != self.first => Some(next),
            _ => None,
        };
        Some(at)
    }
}

/// The signed edge after one, round a node or along a ring.
fn following(edges: &EdgeTable, round: bool, at: SignedNumber) -> Option<SignedNumber> {
    let Some(row) = (at.unsigned_abs() as usize).checked_sub(1) else {
        return None;
    };
    if row >= edges.len() {
        return None;
    }
    let edge = edges.row(row);
    Some(if (at > 0) != round {
        edge.next_left
    } else {
        edge.next_right
    })
}

/// An edge as a signed one, forward.
fn forward(edge: IdNumber) -> Option<Signed> {
    if edge > LARGEST_ID {
        return None;
    }
    Signed::new(edge as SignedNumber)
}

/// The smallest signed edge that leaves a node, by rows that rise by id.
fn smallest_leaving(edges: &EdgeTable, node: IdNumber) -> Option<SignedNumber> {
    for row in 0..edges.len() {
        let edge = edges.row(row);
        let Some(signed) = forward(edge.id) else {
            return None;
        };
        if edge.start == node {
            return Some(signed.value());
        }
        if edge.end == node {
            return Some(signed.reverse().value());
        }
    }
    None
}

/// The number of a signed edge.
fn number(edge: Option<Signed>) -> Option<SignedNumber> {
    match edge {
        Some(edge) => Some(edge.value()),
        None => None,
    }
}

/// Whether a ring and a node have the same walks over the file and over the rows, where both are stepped in turn
/// `count` times.
fn agree_in_turn<C: Ledger>(
    served: Served<'_>,
    edges: &EdgeTable,
    ring: SignedNumber,
    node: IdNumber,
    count: u32,
    steps: &mut Steps<C>,
) -> bool {
    let (Some(edge), Some(first)) = (Signed::new(ring), smallest_leaving(edges, node)) else {
        return false;
    };
    let Some(mut ring_walk) = ring_walk(served, edge, steps) else {
        return false;
    };
    let Some(mut node_walk) = node_walk(served, NodeId(node), steps) else {
        return false;
    };
    let mut ring_rows = RowWalk::from(edges, false, ring);
    let mut node_rows = RowWalk::from(edges, true, first);
    for _ in 0..count {
        if number(ring_walk.step(steps)) != ring_rows.step() {
            return false;
        }
        if number(node_walk.step(steps)) != node_rows.step() {
            return false;
        }
    }
    ring_walk.step(steps) == None && node_walk.step(steps) == None && ring_rows.step() == None
}

/// Whether they agree for the outer ring with each of the nodes, and for a closed edge with its node.
fn agree<C: Ledger>(alloc: Global, edges: &EdgeTable, bytes: &[u8], blank: Blank) -> bool
    requires name { blank.name ≡ C.name }
    requires parts { blank.parts ≡ C.parts }
    requires some { 0 < blank.parts }
{
    let mut steps = Steps::<C>::new(alloc, blank);
    let Ok(file) = open(bytes, &mut steps) else {
        return false;
    };
    let served = Served::of(&file);
    for node in NODES {
        if !agree_in_turn(served, edges, -1, node, 880, &mut steps) {
            return false;
        }
    }
    agree_in_turn(served, edges, CLOSED_EDGE, CLOSED_NODE, 2, &mut steps)
}

#[test]
fn walks_in_turn_over_a_hundred_thousand_edges(rt: HostRuntime) -> Result<(), Fail> {
    let alloc = rt.alloc();
    let edges = grid_edges(alloc, SIZE)?;
    let image = grid_image(alloc, SIZE)?;
    assert_eq!(rt; edges.len(), 104_154);
    assert!(rt; agree::<Brand>(alloc, &edges, &image, Blank::new(1)));
    Ok(())
}
