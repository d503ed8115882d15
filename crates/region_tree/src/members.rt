//! Rows of members: what is wrong with them, and the numbers of their regions.

ghost use Rattle.std.specs.Prelude.{◌≡◌, ◌≤◌, ◌<◌, ◌^◌, ℕ, IfErr, IfOk, IsPermutation, List, true, None, OnOk, length, map, option_map, slice_get, Some};
ghost use Rattle.std.specs.List.Sorted.{IsNonDecreasing, IsNonDecreasingBy};
ghost use Rattle.topo_base.specs.declared.refusal.Refusal.TheVariants.{MemberTwice};
ghost use Rattle.plane_model.specs.declared.rows.RegionRow.{RegionRow};
ghost use Rattle.plane_model.specs.declared.rows.MemberRow.{MemberRow};
ghost use Rattle.plane_model.specs.Sets.{has};
ghost use Rattle.plane_model.specs.Faults.{first_in, least_twice};
ghost use Rattle.rotation_check.specs.Checked.{Names};
ghost use Rattle.region_tree.specs.Checked.{member_fault, missing_face, missing_region};
ghost use Rattle.region_tree.specs.MemberPlaces.{AreMemberPlaces, IsMemberPlace};
ghost use Rattle.region_tree.specs.Tables.{region_map, region_tables};

use crate::checking::refuse;
use crate::faces::FaceIndex;
use crate::parts::MemberPlace;
use crate::rows::{has_id, place_of};
use id_index::IdIndex;
use plane_model::{FaceRow, MemberRow};
use rotation_check::CheckFault;
use std::alloc::{AllocError, Global};
use topo_base::{IdNumber, Refusal, Table};

/// What is wrong where a member's region is not there.
fn missing_region(ids: &[IdNumber], row: &MemberRow) -> Option<Refusal>
    requires few { length ids.now ≤ 16777216 }
    requires rising { IsNonDecreasing ids.now }
    ensures { result ≡ missing_region ids.now row.now }
{
    if has_id(ids, row.region) {
        return None;
    }
    Some(Refusal::NoRegion {
        table: Table::Member,
        id: row.face,
        region: row.region,
    })
}

/// The first member whose region is not there.
fn first_missing_region(ids: &[IdNumber], rows: &[MemberRow]) -> Option<Refusal>
    requires few { length ids.now ≤ 16777216 }
    requires rising { IsNonDecreasing ids.now }
    ensures { result ≡ first_in (missing_region ids.now) rows.now }
{
    for row in rows {
        let fault = missing_region(ids, row);
        if fault.is_some() {
            return fault;
        }
    }
    None
}

/// Nothing where each member's face is there, or what is wrong with the first whose face is not.
fn check_faces(alloc: Global, members: &[MemberRow], faces: &[FaceRow]) -> Result<(), CheckFault>
    requires { length faces.now ≤ 16777216 }
    ensures fine { OnOk result (first_in (missing_face (map (λ f. f.id) faces.now)) members.now ≡ None) }
    ensures refused { IfErr result (λ e. Names e (first_in (missing_face (map (λ f. f.id) faces.now)) members.now)) }
{
    let index = FaceIndex::new(alloc, faces)?;
    refuse(index.first_missing(members))
}

/// The faces of rows.
fn member_faces(alloc: Global, rows: &[MemberRow]) -> Result<Vec<IdNumber>, AllocError>
    ensures { IfOk result (λ faces. faces.items ≡ map (λ x. x.face) rows.now) }
{
    rows.iter().map(|row| row.face).collect(alloc)
}

/// The least face that stands in two rows.
fn repeated_face(alloc: Global, rows: &[MemberRow]) -> Result<Option<Refusal>, AllocError>
    requires { length rows.now < 2 ^ 32 }
    ensures { IfOk result (λ fault. fault ≡ option_map MemberTwice (least_twice (map (λ x. x.face) rows.now))) }
{
    let index = IdIndex::new(alloc, &member_faces(alloc, rows)?)?;
    Ok(index.repeated().map(|face| Refusal::MemberTwice { face }))
}

/// Nothing where each member's region and face are there and no face is a member twice, or what is first wrong with
/// the rows of members, where these are the rising ids of the regions.
pub fn check_members(
    alloc: Global,
    ids: &[IdNumber],
    members: &[MemberRow],
    faces: &[FaceRow],
) -> Result<(), CheckFault>
    requires few { length ids.now ≤ 16777216 }
    requires rising { IsNonDecreasing ids.now }
    requires few_members { length members.now < 2 ^ 32 }
    requires few_faces { length faces.now ≤ 16777216 }
    ensures fine { OnOk result ((regions : List RegionRow) → ids.now
        ≡ (region_map regions members.now faces.now).regions.keys
        → member_fault (region_tables regions members.now faces.now) ≡ None) }
    ensures refused { IfErr result (λ e. (regions : List RegionRow)
        → ids.now ≡ (region_map regions members.now faces.now).regions.keys
        → Names e (member_fault (region_tables regions members.now faces.now))) }
{
    refuse(first_missing_region(ids, members))?;
    check_faces(alloc, members, faces)?;
    refuse(repeated_face(alloc, members)?)
}

/// The rows rising by face.
pub fn rows_by_face(alloc: Global, members: &[MemberRow]) -> Result<Vec<MemberRow>, AllocError>
    ensures same { IfOk result (λ rows. IsPermutation members.now rows.items) }
    ensures rising { IfOk result (λ rows. IsNonDecreasingBy (λ x. x.face) rows.items) }
{
    let mut rows = Vec::from_slice(alloc, members)?;
    rows.sort_unstable_by_key(|row| row.face);
    Ok(rows)
}

/// A member with the number of its region; the region's place has a number.
fn member_place(ids: &[IdNumber], numbers: &[u32], row: &MemberRow) -> MemberPlace
    requires few { length ids.now ≤ 16777216 }
    requires rising { IsNonDecreasing ids.now }
    requires numbers { length numbers.now ≡ length ids.now }
    requires there { has ids.now row.now.region ≡ true }
    ensures { IsMemberPlace ids.now numbers.now row.now result }
{
    let Some(place) = place_of(ids, row.region) else {
        unreachable!();
    };
    MemberPlace {
        face: row.face,
        region: numbers[place as usize],
    }
}

/// Members with the numbers of their regions.
pub fn member_places(
    alloc: Global,
    ids: &[IdNumber],
    numbers: &[u32],
    rows: &[MemberRow],
) -> Result<Vec<MemberPlace>, AllocError>
    requires few { length ids.now ≤ 16777216 }
    requires rising { IsNonDecreasing ids.now }
    requires numbers { length numbers.now ≡ length ids.now }
    requires there { (k : ℕ) (row : MemberRow) → slice_get rows.now k ≡ Some row → has ids.now row.region ≡ true }
    ensures { IfOk result (λ places. AreMemberPlaces ids.now numbers.now rows.now places.items) }
{
    let mut places = Vec::new(alloc);
    for row in rows {
        places.push(member_place(ids, numbers, row))?;
    }
    Ok(places)
}
