//! How many nodes, edges and rings each component has.

ghost use Rattle.std.specs.Prelude.{◌≡◌, ℕ, ◌*◌, ◌<◌, ◌^◌, IfOk, Some, length, replicate};
ghost use Rattle.plane_model.specs.Component.{component, edge_count, node_count, ring_count};
ghost use Rattle.plane_model.specs.PlaneMap.{ring};
ghost use Rattle.rotation_check.specs.Darts.{map_of_rotation};
ghost use Rattle.euler_check.specs.Counts.{AreCounted, AreCountsOf};
ghost use Rattle.euler_check.specs.Marks.{number_at};
ghost use Rattle.euler_check.specs.Numbers.{ArePartNumbers};

use crate::numbering::PartNumbering;
use crate::places::{components_of_nodes, components_of_rings};
use rotation_check::Rotation;
use std::alloc::{AllocError, Global};
use topo_base::{IdNumber, Refusal};

/// A zero for each of so many parts.
fn zeros(alloc: Global, parts: u32) -> Result<Vec<u32>, AllocError>
    ensures { IfOk result (λ counts. counts.items ≡ replicate parts 0) }
{
    vec![in alloc; 0; parts as usize]
}

/// How many times each of so many parts stands in a list, by its number.
fn count_parts(alloc: Global, parts: u32, numbers: &[Option<u32>]) -> Result<Vec<u32>, AllocError>
    requires below { (i x : ℕ) → i < length numbers.now → number_at numbers.now i ≡ Some x → x < parts }
    requires few { length numbers.now < 2 ^ 32 }
    ensures { IfOk result (λ counts. AreCounted parts (number_at numbers.now) (length numbers.now) counts.items) }
{
    let mut counts = zeros(alloc, parts)?;
    for part in numbers {
        if let Some(part) = part {
            counts[*part as usize] += 1;
        }
    }
    Ok(counts)
}

/// How many nodes each component has, by its number; an isolated node is in none.
fn count_nodes(
    alloc: Global,
    rotation: &Rotation,
    components: &PartNumbering,
) -> Result<Vec<u32>, AllocError>
    requires { ArePartNumbers rotation.now.edges (component (map_of_rotation rotation.now)) components.now }
    ensures { IfOk result (λ counts. AreCountsOf rotation.now node_count components.now counts.items) }
{
    let numbers = components_of_nodes(alloc, rotation, components)?;
    count_parts(alloc, components.count(), &numbers)
}

/// How many rings each component has, by its number.
fn count_rings(
    alloc: Global,
    rotation: &Rotation,
    rings: &PartNumbering,
    components: &PartNumbering,
) -> Result<Vec<u32>, AllocError>
    requires rings { ArePartNumbers rotation.now.edges (ring (map_of_rotation rotation.now)) rings.now }
    requires components { ArePartNumbers rotation.now.edges (component (map_of_rotation rotation.now)) components.now }
    ensures { IfOk result (λ counts. AreCountsOf rotation.now ring_count components.now counts.items) }
{
    let numbers = components_of_rings(alloc, rotation, rings, components)?;
    count_parts(alloc, components.count(), &numbers)
}

/// How many edges each component has, by its number.
fn count_edges(
    alloc: Global,
    rotation: &Rotation,
    components: &PartNumbering,
) -> Result<Vec<u32>, AllocError>
    requires { ArePartNumbers rotation.now.edges (component (map_of_rotation rotation.now)) components.now }
    ensures { IfOk result (λ counts. AreCountsOf rotation.now edge_count components.now counts.items) }
{
    let mut counts = zeros(alloc, components.count())?;
    for row in 0..rotation.edges() {
        counts[components.number(2 * row) as usize] += 1;
    }
    Ok(counts)
}

/// The components of a rotation, and how many nodes, edges and rings each has, by its number.
#[derive(Drop)]
pub struct EulerCounts<'a> {
    pub rotation: &'a Rotation<'a>,
    pub components: &'a PartNumbering,
    pub nodes: Vec<u32>,
    pub edges: Vec<u32>,
    pub rings: Vec<u32>,
}

impl<'a> EulerCounts<'a> {
    ghost use Rattle.std.specs.Prelude.{◌≡◌, ◌*◌, ◌<◌, IfOk, IfSome, length};
    ghost use Rattle.plane_model.specs.Component.{component, is_plane_component};
    ghost use Rattle.plane_model.specs.Faults.{not_plane};
    ghost use Rattle.plane_model.specs.PlaneMap.{ring};
    ghost use Rattle.rotation_check.specs.Darts.{map_of_rotation, signed_edge};
    ghost use Rattle.euler_check.specs.Counts.{AreEulerCounts, edge_id, euler_refusal, lesser};
    ghost use Rattle.euler_check.specs.Numbers.{ArePartNumbers};

    /// The counts of each component of a rotation.
    pub fn of_components(
        alloc: Global,
        rotation: &'a Rotation<'a>,
        rings: &PartNumbering,
        components: &'a PartNumbering,
    ) -> Result<Self, AllocError>
        requires rings { ArePartNumbers rotation.now.edges (ring (map_of_rotation rotation.now)) rings.now }
        requires components { ArePartNumbers rotation.now.edges (component (map_of_rotation rotation.now))
            components.now }
        ensures rotation { IfOk result (λ counts. counts.rotation.now ≡ rotation.now) }
        ensures counts { IfOk result AreEulerCounts }
    {
        Ok(EulerCounts {
            rotation,
            components,
            nodes: count_nodes(alloc, rotation, components)?,
            edges: count_edges(alloc, rotation, components)?,
            rings: count_rings(alloc, rotation, rings, components)?,
        })
    }

    /// Whether the component of a dart is plane.
    fn is_plane(&self, dart: u32) -> bool
        requires counts { AreEulerCounts self.now }
        requires dart { dart < 2 * length self.now.rotation.now.edges }
        ensures { result ≡ is_plane_component (map_of_rotation self.now.rotation.now)
            (signed_edge self.now.rotation.now.edges dart) }
    {
        let component = self.components.number(dart) as usize;
        let nodes_and_rings = u64::from(self.nodes[component]) + u64::from(self.rings[component]);
        nodes_and_rings == u64::from(self.edges[component]) + 2
    }

    /// The counts of the component of a dart, which isn't plane, with the dart's edge.
    fn refusal(&self, dart: u32) -> Refusal
        requires counts { AreEulerCounts self.now }
        requires dart { dart < 2 * length self.now.rotation.now.edges }
        ensures { result ≡ euler_refusal (map_of_rotation self.now.rotation.now)
            (signed_edge self.now.rotation.now.edges dart) }
    {
        let component = self.components.number(dart) as usize;
        Refusal::Euler {
            edge: self.edge_id(dart),
            nodes: self.nodes[component].into(),
            edges: self.edges[component].into(),
            rings: self.rings[component].into(),
        }
    }

    /// The id of the edge of a dart.
    fn edge_id(&self, dart: u32) -> IdNumber
        requires { dart < 2 * length self.now.rotation.now.edges }
        ensures { result ≡ edge_id self.now.rotation.now.edges dart }
    {
        self.rotation.id(dart).edge().0
    }

    /// The dart whose edge has the lesser id, where the one may be none.
    fn lesser(&self, least: Option<u32>, dart: u32) -> u32
        requires least { IfSome least (λ other. other < 2 * length self.now.rotation.now.edges) }
        requires dart { dart < 2 * length self.now.rotation.now.edges }
        ensures { result ≡ lesser self.now.rotation.now.edges least dart }
    {
        match least {
            Some(other) if self.edge_id(other) <= self.edge_id(dart) => other,
            _ => dart,
        }
    }

    /// The component that isn't plane and has the least edge id of such components.
    pub fn first_not_plane(&self) -> Option<Refusal>
        requires { AreEulerCounts self.now }
        ensures { result ≡ not_plane (map_of_rotation self.now.rotation.now) }
    {
        let mut least: Option<u32> = None;
        for row in 0..self.rotation.edges() {
            let dart = 2 * row;
            if !self.is_plane(dart) {
                least = Some(self.lesser(least, dart));
            }
        }
        Some(self.refusal(least?))
    }
}
