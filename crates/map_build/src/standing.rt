//! What stands in faces: components and isolated nodes, in the order of their places.

ghost use Rattle.std.specs.Prelude.{◌≡◌, IfOk, map};
ghost use Rattle.std.specs.List.{IsDistinct};
ghost use Rattle.std.specs.List.Sorted.{IsPermutation};
ghost use Rattle.std.specs.Prelude.{nat_eq};
ghost use Rattle.map_build.specs.Standing.{AreInOrder};

use std::alloc::{AllocError, Global};
use topo_base::IdNumber;

/// Something that stands in a face.
#[derive(Clone, Copy, PartialEq, Eq, PartialOrd, Ord)]
pub(crate) struct Standing {
    /// The place of the face: 0 for face 0, and else 1 + the number of the face.
    pub(crate) place: u32,
    /// What orders the things that stand in one face: the id of a node, or the key of a component.
    pub(crate) key: u64,
    /// The number of a component, and 0 for a node.
    pub(crate) component: u32,
}

/// All that stands in faces, by place and then by key.
pub(crate) fn in_order(mut standing: Vec<Standing>) -> Vec<Standing>
    requires apart { IsDistinct nat_eq (map (λ s. s.key) standing.items) }
    ensures permutation { IsPermutation standing.items result.items }
    ensures order { AreInOrder result.items }
{
    standing.sort_unstable();
    standing
}

/// The numbers of components that stand in faces.
pub(crate) fn standing_components(
    alloc: Global,
    standing: &[Standing],
) -> Result<Vec<u32>, AllocError>
    ensures { IfOk result (λ components. components.items ≡ map (λ s. s.component) standing.now) }
{
    standing.iter().map(|one| one.component).collect(alloc)
}

/// The ids of nodes that stand in faces.
pub(crate) fn standing_nodes(
    alloc: Global,
    standing: &[Standing],
) -> Result<Vec<IdNumber>, AllocError>
    ensures { IfOk result (λ ids. ids.items ≡ map (λ s. s.key) standing.now) }
{
    standing.iter().map(|one| one.key).collect(alloc)
}

/// The places of what stands in faces.
pub(crate) fn standing_places(alloc: Global, standing: &[Standing]) -> Result<Vec<u32>, AllocError>
    ensures { IfOk result (λ places. places.items ≡ map (λ s. s.place) standing.now) }
{
    standing.iter().map(|one| one.place).collect(alloc)
}
