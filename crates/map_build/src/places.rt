//! The places of faces, what stands in them, and the regions that they are in.

ghost use Rattle.std.specs.Prelude.{◌≡◌, ◌≤◌, ◌<◌, ◌*◌, ◌^◌, ◌+◌, ◌∷◌, ℕ, IfOk, IsTrue, length, map, nat_eq, nat_le, slice_index};
ghost use Rattle.std.specs.List.{All, IsDistinct, list_all};
ghost use Rattle.std.specs.List.Sorted.{IsPermutation};
ghost use Rattle.plane_model.specs.Sets.{is_distinct};
ghost use Rattle.topo_base.specs.declared.id.TheConstants.{LARGEST_ID};
ghost use Rattle.id_index.specs.Index.{IsIndex};
ghost use Rattle.id_names.specs.Names.{AreDistinctIds};
ghost use Rattle.map_build.specs.DartRows.{key_of_dart};
ghost use Rattle.map_build.specs.Made.{place_of};
ghost use Rattle.map_build.specs.Standing.{AreInOrder};
ghost use Rattle.map_build.specs.Placed.{IsKnown, IsKnownOrNone, AreOrdered, member_region, placed_nodes, placed_components};

use crate::rows::edge_key;
use crate::standing::{Standing, in_order, standing_components};
use id_index::IdIndex;
use plane_model::{EdgeTable, NodeTable};
use region_tree::MemberPlace;
use std::alloc::{AllocError, Global};
use topo_base::IdNumber;

/// The numbers of faces by their ids.
#[derive(Drop)]
pub(crate) struct FacePlaces<'a> {
    faces: &'a [IdNumber],
    numbers: IdIndex,
    ghost index: { IsIndex faces.now numbers },
    ghost names: { AreDistinctIds (LARGEST_ID + 1) faces.now },
    ghost few: { length faces.now < 2 ^ 32 },
}

impl<'a> FacePlaces<'a> {
    /// The places of these faces.
    pub(crate) fn new(alloc: Global, faces: &'a [IdNumber]) -> Result<Self, AllocError>
        requires names { AreDistinctIds (LARGEST_ID + 1) faces.now }
        requires few { length faces.now < 2 ^ 32 }
        ensures faces { IfOk result (λ places. places.faces.now ≡ faces.now) }
    {
        Ok(FacePlaces {
            faces,
            numbers: IdIndex::new(alloc, faces)?,
        })
    }

    /// The place of a face: 0 for face 0, and else 1 + its number.
    fn place(&self, face: IdNumber) -> u32
        requires { IsKnown self.now.faces.now face }
        ensures { result ≡ place_of self.now.faces.now face }
    {
        if face == 0 {
            return 0;
        }
        match self.numbers.row_of(face) {
            Some(number) => number + 1,
            None => unreachable!(),
        }
    }

    /// The places of the faces that contain components.
    pub(crate) fn of_components(
        &self,
        alloc: Global,
        containing: &[IdNumber],
    ) -> Result<Vec<u32>, AllocError>
        requires { All (IsKnown self.now.faces.now) containing.now }
        ensures { IfOk result (λ places. places.items ≡ map (place_of self.now.faces.now) containing.now) }
    {
        let mut places = Vec::new(alloc);
        for face in containing {
            places.push(self.place(*face))?;
        }
        Ok(places)
    }

    /// The isolated nodes in their faces.
    fn of_nodes(&self, alloc: Global, nodes: &NodeTable) -> Result<Vec<Standing>, AllocError>
        requires { All (λ n. IsKnownOrNone self.now.faces.now n.face) nodes.now }
        ensures { IfOk result (λ standing. standing.items ≡ placed_nodes self.now.faces.now nodes.now) }
    {
        let mut standing = Vec::new(alloc);
        for row in 0..nodes.len() {
            let node = nodes.row(row);
            if let Some(face) = node.face {
                standing.push(Standing {
                    place: self.place(face),
                    key: node.id,
                    component: 0,
                })?;
            }
        }
        Ok(standing)
    }

    /// The isolated nodes in the order of their places, and in one place by id.
    pub(crate) fn isolated_nodes(
        &self,
        alloc: Global,
        nodes: &NodeTable,
    ) -> Result<Vec<Standing>, AllocError>
        requires known { All (λ n. IsKnownOrNone self.now.faces.now n.face) nodes.now }
        requires apart { IsTrue (is_distinct (map (λ n. n.id) nodes.now)) }
        ensures nodes { IfOk result (λ standing. IsPermutation (placed_nodes self.now.faces.now nodes.now)
            standing.items) }
        ensures order { IfOk result (λ standing. AreInOrder standing.items) }
    {
        let standing = self.of_nodes(alloc, nodes)?;
        Ok(in_order(standing))
    }

    /// The regions of face 0 and of each face by number: 0 where a face is no member, and else 1 + the number of its
    /// region.
    pub(crate) fn member_regions(
        &self,
        alloc: Global,
        members: &[MemberPlace],
    ) -> Result<Vec<u32>, AllocError>
        requires known { All (λ p. IsKnown self.now.faces.now p.face) members.now }
        requires few { All (λ p. p.region < 2 ^ 24) members.now }
        requires apart { IsTrue (is_distinct (map (λ p. p.face) members.now)) }
        ensures { IfOk result (λ regions. regions.items ≡ map (member_region members.now) (0 ∷ self.now.faces.now)) }
    {
        let mut regions = vec![in alloc; 0; self.faces.len() + 1]?;
        for member in members {
            regions[self.place(member.face) as usize] = member.region + 1;
        }
        Ok(regions)
    }
}

/// The components in the order of their places, and in one place by the signed edge of their start.
pub(crate) fn component_order(
    alloc: Global,
    edges: &EdgeTable,
    starts: &[u32],
    places: &[u32],
) -> Result<Vec<u32>, AllocError>
    requires starts { (j : ℕ) → j < length starts.now → slice_index starts.now j < 2 * length edges.now }
    requires ids { IsTrue (list_all (λ e. nat_le e.id LARGEST_ID) edges.now) }
    requires many { length places.now ≡ length starts.now }
    requires few { length places.now < 2 ^ 32 }
    requires apart { IsDistinct nat_eq (map (key_of_dart edges.now) starts.now) }
    ensures { IfOk result (λ order. AreOrdered places.now (map (key_of_dart edges.now) starts.now) order.items) }
{
    let standing = components(alloc, edges, starts, places)?;
    standing_components(alloc, &in_order(standing))
}

/// The components in the faces that contain them.
fn components(
    alloc: Global,
    edges: &EdgeTable,
    starts: &[u32],
    places: &[u32],
) -> Result<Vec<Standing>, AllocError>
    requires starts { (j : ℕ) → j < length starts.now → slice_index starts.now j < 2 * length edges.now }
    requires ids { IsTrue (list_all (λ e. nat_le e.id LARGEST_ID) edges.now) }
    requires many { length places.now ≡ length starts.now }
    requires few { length places.now < 2 ^ 32 }
    ensures { IfOk result (λ standing. standing.items ≡ placed_components places.now
        (map (key_of_dart edges.now) starts.now)) }
{
    let mut standing = Vec::new(alloc);
    for component in 0..places.len() {
        standing.push(Standing {
            place: places[component],
            key: edge_key(edges, starts[component]),
            component: component as u32,
        })?;
    }
    Ok(standing)
}
