//! Regions numbered in preorder.

ghost use Rattle.std.specs.Prelude.{◌≡◌, ◌<◌, ◌≤◌, ℕ, IfOk, IsTrue, length, map, slice_index};
ghost use Rattle.std.specs.List.Sorted.{IsNonDecreasing};
ghost use Rattle.plane_model.specs.PlaneMap.{PlaneMap};
ghost use Rattle.plane_model.specs.Sets.{is_distinct};
ghost use Rattle.region_tree.specs.MemberPlaces.{AreNumbersOf};
ghost use Rattle.region_tree.specs.Parts.{member_places, region_bits, region_ids};
ghost use Rattle.region_tree.specs.Ready.{IsReady};

use crate::checking::Hierarchy;
use crate::members::{member_places, rows_by_face};
use crate::parts::RegionParts;
use crate::siblings::{link, slots};
use crate::walk::{Walked, walk};
use plane_model::MemberRow;
use std::alloc::{AllocError, Global};
use topo_base::IdNumber;

/// The number of each place in an order of the places.
fn numbers(alloc: Global, order: &[u32]) -> Result<Vec<u32>, AllocError>
    requires few { length order.now ≤ 16777216 }
    requires within { (x : ℕ) → x < length order.now → slice_index order.now x < length order.now }
    requires apart { IsTrue (is_distinct order.now) }
    ensures { IfOk result (λ numbers. AreNumbersOf order.now numbers.items) }
{
    let mut numbers = vec![in alloc; 0; order.len()]?;
    for (number, place) in order.iter().enumerate() {
        numbers[*place as usize] = number as u32;
    }
    Ok(numbers)
}

/// The ids of these places.
fn ids_of(alloc: Global, ids: &[IdNumber], order: &[u32]) -> Result<Vec<IdNumber>, AllocError>
    requires { (x : ℕ) → x < length order.now → slice_index order.now x < length ids.now }
    ensures { IfOk result (λ found. found.items ≡ map (slice_index ids.now) order.now) }
{
    let mut found = Vec::with_capacity(alloc, order.len())?;
    for place in order {
        found.push(ids[*place as usize])?;
    }
    Ok(found)
}

/// The regions by number, with the members.
pub fn number(
    alloc: Global,
    hierarchy: &Hierarchy,
    members: &[MemberRow],
) -> Result<RegionParts, AllocError>
    requires few { length hierarchy.now.ids.items ≤ 16777216 }
    requires rising { IsNonDecreasing hierarchy.now.ids.items }
    requires ready { (m : PlaneMap) × IsReady m hierarchy.now.ids.items hierarchy.now.parents.items members.now }
    ensures bits { IfOk result (λ p. (m : PlaneMap) → IsReady m hierarchy.now.ids.items hierarchy.now.parents.items
        members.now → p.bits.items ≡ region_bits m) }
    ensures ids { IfOk result (λ p. (m : PlaneMap) → IsReady m hierarchy.now.ids.items hierarchy.now.parents.items
        members.now → p.ids.items ≡ region_ids m) }
    ensures members { IfOk result (λ p. (m : PlaneMap) → IsReady m hierarchy.now.ids.items hierarchy.now.parents.items
        members.now → p.members.items ≡ member_places m) }
{
    let slots = slots(alloc, &hierarchy.parents)?;
    let siblings = link(alloc, &slots)?;
    let Walked { bits, order } = walk(alloc, &siblings, &slots)?;
    let ids = ids_of(alloc, &hierarchy.ids, &order)?;
    let numbers = numbers(alloc, &order)?;
    let rows = rows_by_face(alloc, members)?;
    let members = member_places(alloc, &hierarchy.ids, &numbers, &rows)?;
    Ok(RegionParts { bits, ids, members })
}
