//! From tables to the image.

ghost use Rattle.std.specs.Prelude.{◌≡◌, IfErr, IfOk, IsTrue, OnOk, is_none, length};
ghost use Rattle.plane_model.specs.InRange.{is_in_range};
ghost use Rattle.plane_model.specs.Rows.{rows_of};
ghost use Rattle.plane_model.specs.PlaneMap.{map_of};
ghost use Rattle.plane_model.specs.Consistent.{is_consistent};
ghost use Rattle.plane_model.specs.Faults.{first_fault};
ghost use Rattle.region_tree.specs.Parts.{member_places};
ghost use Rattle.pemb_file.specs.Draft.{file_of_draft};
ghost use Rattle.pemb_file.specs.Parts.{contents_of_parts};
ghost use Rattle.file_laws.specs.Image.{image_of};
ghost use Rattle.file_laws.specs.Lawful.{is_lawful, StandsFor};
ghost use Rattle.map_build.specs.BuildFaults.{Names as NamesFault};
ghost use Rattle.map_build.specs.Made.{contents_of_map};
ghost use Rattle.map_build.specs.Placed.{ArePlaced, joined_contents};
ghost use Rattle.map_build.specs.Tours.{IsWalkOf};

use crate::checked::{Walked, walk};
use crate::fault::BuildFault;
use crate::names::{Names, name_walk};
use crate::places::{FacePlaces, component_order};
use crate::regions::number_regions;
use crate::standing::{Standing, standing_nodes, standing_places};
use pemb_file::{Draft, ImageParts, write_draft};
use plane_model::Tables;
use region_tree::{MemberPlace, RegionParts};
use spanning_pair::Tour;
use std::alloc::{AllocError, Global};
use topo_base::IdNumber;

/// What stands in the faces of a map, and the regions that they are in.
#[derive(Drop)]
pub(crate) struct Placed {
    /// The place of each component.
    places: Vec<u32>,
    /// The components in the order of their places.
    order: Vec<u32>,
    /// The isolated nodes in the order of their places.
    isolated: Vec<Standing>,
    /// The region of face 0 and of each face by number: 0 for none, and else 1 + the number of the region.
    members: Vec<u32>,
}

/// What stands in these faces, which are those that the walk of tables comes to, and the regions of these members.
fn place(
    alloc: Global,
    tables: &Tables,
    walked: &Walked,
    faces: &[IdNumber],
    members: &[MemberPlace],
) -> Result<Placed, AllocError>
    requires in_range { IsTrue (is_in_range (rows_of tables.now)) }
    requires consistent { IsTrue (is_consistent (rows_of tables.now)) }
    requires walk { IsWalkOf (rows_of tables.now) walked.now }
    requires faces { faces.now ≡ (contents_of_map (map_of (rows_of tables.now))).faces }
    requires members { members.now ≡ member_places (map_of (rows_of tables.now)) }
    ensures { IfOk result (ArePlaced (rows_of tables.now) walked.now faces.now) }
{
    let face_places = FacePlaces::new(alloc, faces)?;
    let places = face_places.of_components(alloc, walked.placement.faces())?;
    let order = component_order(alloc, &tables.edges, walked.placement.starts(), &places)?;
    let isolated = face_places.isolated_nodes(alloc, &tables.nodes)?;
    let members = face_places.member_regions(alloc, members)?;
    Ok(Placed {
        places,
        order,
        isolated,
        members,
    })
}

/// The parts that hold what a walk comes to, what stands in its faces, and regions.
fn join(
    alloc: Global,
    tour: Tour,
    names: Names,
    placed: Placed,
    regions: RegionParts,
) -> Result<ImageParts, AllocError>
    ensures tree { IfOk result (λ parts. parts.tree.items ≡ tour.tree.items) }
    ensures first { IfOk result (λ parts. parts.first.items ≡ tour.first.items) }
    ensures contents { IfOk result (λ parts. contents_of_parts parts ≡ joined_contents tour names placed regions) }
{
    let mut nodes = names.nodes;
    nodes.extend_from_slice(&standing_nodes(alloc, &placed.isolated)?)?;
    let isolated = standing_places(alloc, &placed.isolated)?;
    Ok(ImageParts {
        tree: tour.tree,
        first: tour.first,
        starts: tour.starts,
        forward: names.forward,
        nodes,
        edges: names.edges,
        faces: names.faces,
        places: placed.places,
        place_order: placed.order,
        isolated,
        region_bits: regions.bits,
        regions: regions.ids,
        members: placed.members,
    })
}

/// What the image of tables is made of.
#[derive(Drop)]
struct Gathered {
    tour: Tour,
    names: Names,
    placed: Placed,
    regions: RegionParts,
}

/// What the image of consistent tables is made of, or what is first wrong with the tables.
fn gather(alloc: Global, tables: &Tables) -> Result<Gathered, BuildFault>
    requires in_range { IsTrue (is_in_range (rows_of tables.now)) }
    ensures consistent { OnOk result (IsTrue (is_consistent (rows_of tables.now))) }
    ensures walk { IfOk result (λ g. length g.tour.tree.items ≡ length g.tour.first.items) }
    ensures contents { IfOk result (λ g. joined_contents g.tour g.names g.placed g.regions
        ≡ contents_of_map (map_of (rows_of tables.now))) }
    ensures refused { IfErr result (λ e. NamesFault e (first_fault (rows_of tables.now))) }
{
    let walked = walk(alloc, tables)?;
    let regions = number_regions(alloc, tables)?;
    let names = name_walk(alloc, tables, &walked)?;
    let placed = place(alloc, tables, &walked, &names.faces, &regions.members)?;
    Ok(Gathered {
        tour: walked.tour,
        names,
        placed,
        regions,
    })
}

/// A draft of the image of the map of tables, or why there is none: what `build` gives, but for the digest.
pub fn draft(alloc: Global, tables: Tables) -> Result<Draft, BuildFault>
    requires in_range { IsTrue (is_in_range (rows_of tables)) }
    ensures consistent { OnOk result (IsTrue (is_consistent (rows_of tables))) }
    ensures lawful { IfOk result (λ draft. IsTrue (is_lawful (file_of_draft draft))) }
    ensures stands { IfOk result (λ draft. StandsFor (file_of_draft draft) (rows_of tables)) }
    ensures image { IfOk result (λ draft. file_of_draft draft ≡ image_of 2 (contents_of_map (map_of (rows_of tables)))) }
    ensures refused { IfErr result (λ e. NamesFault e (first_fault (rows_of tables))) }
    ensures exactly { is_none (first_fault (rows_of tables)) ≡ is_consistent (rows_of tables) }
{
    // The tables are given back before lists are joined and the image is written, so that these are never held at once.
    let gathered = {
        let tables = tables;
        gather(alloc, &tables)?
    };
    let Gathered {
        tour,
        names,
        placed,
        regions,
    } = gathered;
    let parts = join(alloc, tour, names, placed, regions)?;
    Ok(write_draft(alloc, &parts)?)
}

/// The image of the map of tables, or why there is none. Its bytes are a function of the map alone: tables with the
/// same map give the same image, whatever the order of their rows, and so does a row for face 0.
pub fn build(alloc: Global, tables: Tables) -> Result<Vec<u8>, BuildFault>
    requires in_range { IsTrue (is_in_range (rows_of tables)) }
    ensures consistent { OnOk result (IsTrue (is_consistent (rows_of tables))) }
    ensures lawful { IfOk result (λ image. IsTrue (is_lawful image.items)) }
    ensures stands { IfOk result (λ image. StandsFor image.items (rows_of tables)) }
    ensures image { IfOk result (λ image. image.items ≡ image_of 2 (contents_of_map (map_of (rows_of tables)))) }
    ensures refused { IfErr result (λ e. NamesFault e (first_fault (rows_of tables))) }
    ensures exactly { is_none (first_fault (rows_of tables)) ≡ is_consistent (rows_of tables) }
{
    let draft = draft(alloc, tables)?;
    Ok(draft.seal())
}
