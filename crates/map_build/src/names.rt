//! The ids of what a walk comes to, by number.

ghost use Rattle.std.specs.Prelude.{◌≡◌, length, IfErr, IfOk, IsTrue};
ghost use Rattle.plane_model.specs.InRange.{is_in_range};
ghost use Rattle.plane_model.specs.Rows.{rows_of};
ghost use Rattle.plane_model.specs.Consistent.{is_consistent};
ghost use Rattle.code_laws.specs.Numbers.{tree_edges};
ghost use Rattle.map_build.specs.Tours.{IsWalkOf, code_of_tour};
ghost use Rattle.map_build.specs.declared.fault.BuildFault.TheVariants as faults;
ghost use Rattle.map_build.specs.Named.{AreNamesOf};

use crate::by_number::{directions, edge_ids, face_ids, node_ids};
use crate::checked::Walked;
use crate::fault::BuildFault;
use bit_words::ones;
use plane_model::Tables;
use spanning_pair::Tour;
use std::alloc::Global;
use topo_base::IdNumber;
use turan_code::number;

/// The ids of the edges, nodes and faces that a walk comes to, each by number, and the directions of the edges.
#[derive(Drop)]
pub(crate) struct Names {
    pub(crate) edges: Vec<IdNumber>,
    /// Whether each edge runs forward where the walk first comes to it.
    pub(crate) forward: Vec<bool>,
    pub(crate) nodes: Vec<IdNumber>,
    pub(crate) faces: Vec<IdNumber>,
}

/// How many edges the spanning trees have.
fn tree_edges(tour: &Tour) -> usize
    requires { length tour.now.tree.items ≡ length tour.now.first.items }
    ensures { result ≡ tree_edges (code_of_tour tour.now) }
{
    ones(&tour.tree) / 2
}

/// The ids of what the walk of tables comes to.
pub(crate) fn name_walk(
    alloc: Global,
    tables: &Tables,
    walked: &Walked,
) -> Result<Names, BuildFault>
    requires in_range { IsTrue (is_in_range (rows_of tables.now)) }
    requires consistent { IsTrue (is_consistent (rows_of tables.now)) }
    requires walk { IsWalkOf (rows_of tables.now) walked.now }
    ensures names { IfOk result (AreNamesOf (rows_of tables.now) walked.now) }
    ensures memory { IfErr result (λ e. e ≡ faults.Memory) }
{
    let tour = &walked.tour;
    let numbering = number(alloc, &tour.tree, &tour.first, &tour.starts)?;
    let tree_edges = tree_edges(tour);
    let node_count = walked.placement.starts().len() + tree_edges;
    let face_count = tables.edges.len() - tree_edges;
    // Each list of numbers is given back as soon as it is used up.
    let nodes = {
        let numbers = numbering.node;
        node_ids(alloc, node_count, &tables.edges, &tour.darts, &numbers)?
    };
    let faces = {
        let numbers = numbering.ring;
        face_ids(alloc, face_count, &tables.edges, &tour.darts, &numbers)?
    };
    let numbers = numbering.edge;
    Ok(Names {
        edges: edge_ids(alloc, &tables.edges, &tour.darts, &numbers)?,
        forward: directions(
            alloc,
            tables.edges.len(),
            &tour.darts,
            &tour.first,
            &numbers,
        )?,
        nodes,
        faces,
    })
}
