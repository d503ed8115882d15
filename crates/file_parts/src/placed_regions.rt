//! Hierarchies of a few regions, of a long chain and of one wide region, built and asked; and rows that are none.

ghost use Rattle.std.specs.Prelude.{◌≡◌, ◌&&◌, ◌<◌, ◌≤◌, ℕ, IfOk, IfSome, IsTrue, length, slice_index};
ghost use Rattle.bit_words.specs.PackedView.{fields_of};
ghost use Rattle.plane_model.specs.InRange.{is_in_range};
ghost use Rattle.region_tree.specs.RegionView.{regions_of};
ghost use Rattle.region_tree.specs.Tables.{region_tables};

mod names;

use crate::placed_regions::names::{NamesImage, names_image, names_in};
use bit_words::{BitMaker, BitView, PackedMaker, PackedView, Steps, WordView};
use image_words::{bytes_of, fields_in};
use min_max_tree::MinMaxView;
use parens::{ParenView, check_balanced};
use plane_model::{FaceRow, MemberRow, RegionRow};
use rank_select::RankView;
use region_tree::{MemberPlace, RegionParts, RegionView, build};
use rotation_check::CheckFault;
use std::alloc::{AllocError, Global};
use std::marker::Brand;
use std::process::Abort;
use std::sync::ledger::{Blank, Ledger};
use std::test::Fail;
use topo_base::{IdNumber, LARGEST_ID, Refusal, Table};
use worked_maps::{Member, Region, are_faces_in_range, are_members_in_range, are_regions_in_range};

/// Rows of regions, members and faces.
#[derive(Drop)]
struct Tables {
    regions: Vec<RegionRow>,
    members: Vec<MemberRow>,
    faces: Vec<FaceRow>,
}

fn rows(
    alloc: Global,
    regions: &[Region],
    members: &[Member],
    faces: &[IdNumber],
) -> Result<Tables, AllocError> {
    Ok(Tables {
        regions: regions
            .iter()
            .map(|&(id, parent)| RegionRow { id, parent })
            .collect(alloc)?,
        members: members
            .iter()
            .map(|&(region, face)| MemberRow { region, face })
            .collect(alloc)?,
        faces: faces.iter().map(|&id| FaceRow { id }).collect(alloc)?,
    })
}

fn are_in_range(regions: &[RegionRow], members: &[MemberRow], faces: &[FaceRow]) -> bool
    ensures { IsTrue result → IsTrue (is_in_range (region_tables regions.now members.now faces.now)) }
{
    if !are_regions_in_range(regions)
        || !are_members_in_range(members)
        || !are_faces_in_range(faces)
    {
        return false;
    }
    regions.len() <= 16_777_216 && members.len() <= 16_777_217 && faces.len() <= 16_777_216
}

fn built(alloc: Global, tables: &Tables) -> Result<Result<RegionParts, CheckFault>, Fail> {
    if !are_in_range(&tables.regions, &tables.members, &tables.faces) {
        return Err(Fail::new("a number that is out of range"));
    }
    Ok(build(alloc, &tables.regions, &tables.members, &tables.faces))
}

/// What is first wrong with these rows.
fn fault(
    alloc: Global,
    regions: &[Region],
    members: &[Member],
    faces: &[IdNumber],
) -> Result<Option<CheckFault>, Fail> {
    let tables = rows(alloc, regions, members, faces)?;
    Ok(built(alloc, &tables)?.err())
}

/// Fails unless these rows are a hierarchy with these parts.
fn is_built(
    rt: &impl Abort,
    alloc: Global,
    given: (&[Region], &[Member], &[IdNumber]),
    bits: &[bool],
    ids: &[IdNumber],
    members: &[MemberPlace],
) -> Result<(), Fail> {
    let tables = rows(alloc, given.0, given.1, given.2)?;
    let parts = built(alloc, &tables)??;
    assert_eq!(rt; parts.bits.as_slice(), bits);
    assert_eq!(rt; parts.ids.as_slice(), ids);
    assert_eq!(rt; parts.members.as_slice(), members);
    Ok(())
}

#[test]
fn a_region_lies_in_another(rt: HostRuntime) -> Result<(), Fail> {
    is_built(
        &rt,
        rt.alloc(),
        (&[(1, None), (2, Some(1))], &[(2, 1), (1, 2)], &[1, 2]),
        &[true, true, false, false],
        &[1, 2],
        &[
            MemberPlace { face: 1, region: 1 },
            MemberPlace { face: 2, region: 0 },
        ],
    )
}

#[test]
fn roots_and_children_rise_by_id_whatever_the_order_of_rows(rt: HostRuntime) -> Result<(), Fail> {
    is_built(
        &rt,
        rt.alloc(),
        (
            &[
                (9, Some(7)),
                (2, None),
                (5, Some(7)),
                (7, None),
                (1, Some(5)),
                (4, Some(7)),
            ],
            &[(1, 8), (2, 0), (7, 3)],
            &[3, 8],
        ),
        &[
            true, false, true, true, false, true, true, false, false, true, false, false,
        ],
        &[2, 7, 4, 5, 1, 9],
        &[
            MemberPlace { face: 0, region: 0 },
            MemberPlace { face: 3, region: 1 },
            MemberPlace { face: 8, region: 4 },
        ],
    )
}

#[test]
fn no_rows_are_a_hierarchy(rt: HostRuntime) -> Result<(), Fail> {
    is_built(&rt, rt.alloc(), (&[], &[], &[]), &[], &[], &[])
}

#[test]
fn faults_come_in_their_order(rt: HostRuntime) -> Result<(), Fail> {
    let alloc = rt.alloc();
    let no_region = |table, id, region| Refusal::NoRegion { table, id, region };
    assert_eq!(rt;
        fault(alloc, &[(6, Some(8)), (5, None), (5, None)], &[], &[])?,
        Some(CheckFault::Refused(Refusal::IdTwice {
            table: Table::Region,
            id: 5
        })),
        "an id twice, before a parent that is not there"
    );
    assert_eq!(rt;
        fault(alloc, &[(6, Some(8)), (5, Some(9)), (1, Some(1))], &[], &[])?,
        Some(CheckFault::Refused(no_region(Table::Region, 6, 8))),
        "the first parent that is not there, before a cycle"
    );
    assert_eq!(rt;
        fault(
            alloc,
            &[(1, Some(2)), (2, Some(1))],
            &[(2, 1), (1, 2)],
            &[1, 2]
        )?,
        Some(CheckFault::Refused(Refusal::RegionCycle { region: 1 })),
        "two regions in one another"
    );
    assert_eq!(rt;
        fault(
            alloc,
            &[
                (1, Some(5)),
                (3, Some(4)),
                (4, Some(3)),
                (5, Some(6)),
                (6, Some(5))
            ],
            &[(9, 9)],
            &[]
        )?,
        Some(CheckFault::Refused(Refusal::RegionCycle { region: 3 })),
        "the least on a cycle, not one whose chain runs into one"
    );
    assert_eq!(rt;
        fault(alloc, &[], &[(1, 1)], &[1])?,
        Some(CheckFault::Refused(no_region(Table::Member, 1, 1))),
        "a member without its region"
    );
    assert_eq!(rt;
        fault(alloc, &[(1, None)], &[(1, 4), (1, 3), (1, 3)], &[3])?,
        Some(CheckFault::Refused(Refusal::NoFace {
            table: Table::Member,
            id: 1,
            face: 4
        })),
        "a face that is not there, before a face twice"
    );
    assert_eq!(rt;
        fault(alloc, &[(1, None)], &[(1, 1), (1, 1)], &[1])?,
        Some(CheckFault::Refused(Refusal::MemberTwice { face: 1 })),
        "a face twice"
    );
    Ok(())
}

/// Regions as bytes.
#[derive(Drop)]
struct Image {
    places: usize,
    faces: usize,
    bits: Vec<u8>,
    counts: Vec<u8>,
    nodes: Vec<u8>,
    names: NamesImage,
    members: Vec<u8>,
}

fn bit_maker(alloc: Global, bits: &[bool]) -> Result<BitMaker, Fail>
    requires { length bits.now ≤ 2147483647 }
    ensures { IfOk result (λ maker. length maker ≡ length bits.now) }
{
    let mut maker = BitMaker::new(alloc);
    for bit in bits {
        maker.push(*bit)?;
    }
    Ok(maker)
}

fn packed(alloc: Global, numbers: &[u32]) -> Result<PackedMaker, Fail>
    requires { length numbers.now ≤ 2147483647 }
{
    let mut maker = PackedMaker::new(alloc, 32);
    for number in numbers {
        maker.push(u64::from(*number))?;
    }
    Ok(maker)
}

/// The image of the regions of rows; `members` has for each face by number 0 or 1 + the number of its region.
fn image_of(alloc: Global, tables: &Tables, members: &[u32]) -> Result<Image, Fail> {
    if !are_in_range(&tables.regions, &tables.members, &tables.faces) || members.len() > 9 {
        return Err(Fail::new("a number that is out of range"));
    }
    let parts = build(alloc, &tables.regions, &tables.members, &tables.faces)?;
    if parts.ids.len() > 16777216 || parts.bits.len() > 2147483647 {
        return Err(Fail::new("too many regions"));
    }
    let maker = bit_maker(alloc, &parts.bits)?;
    let counts = rank_select::make_counts(alloc, &maker)?;
    let nodes = min_max_tree::make(alloc, &maker)?;
    Ok(Image {
        places: parts.bits.len(),
        faces: members.len(),
        bits: bytes_of(alloc, maker.finish().as_slice())?,
        counts: bytes_of(alloc, counts.finish().as_slice())?,
        nodes: bytes_of(alloc, nodes.as_slice())?,
        names: names_image(alloc, &parts.ids)?,
        members: bytes_of(alloc, packed(alloc, members)?.finish().as_slice())?,
    })
}

/// The parentheses of an image.
fn parens_in<'a, C: Ledger>(image: &'a Image, steps: &mut Steps<C>) -> Option<ParenView<'a>> {
    let words = WordView::new(image.bits.as_slice())?;
    let nodes = WordView::new(image.nodes.as_slice())?;
    let places = image.places;
    if places > 2147483647 || places.div_ceil(64) > words.len() {
        return None;
    }
    let bits = BitView::new(words, places);
    let counts = fields_in(image.counts.as_slice(), places.div_ceil(512) + 1, 32)?;
    if nodes.len() != min_max_tree::node_count(places) {
        return None;
    }
    rank_select::check_counts(bits, counts, steps).ok()?;
    min_max_tree::check(bits, nodes, steps).ok()?;
    check_balanced(bits, 0, places, steps).ok()?;
    Some(ParenView::new(RankView::new(bits, counts), MinMaxView::new(bits, nodes)))
}

/// Whether no field is above a number.
fn are_at_most<C: Ledger>(fields: PackedView<'_>, most: usize, steps: &mut Steps<C>) -> bool
    ensures { IsTrue result → (k : ℕ) → k < length (fields_of fields.entry)
        → slice_index (fields_of fields.entry) k ≤ most }
{
    for place in 0..fields.count() {
        if fields.field(place, steps) > most as u64 {
            return false;
        }
    }
    true
}

/// The regions of an image. None where something is not right.
fn open<'a, C: Ledger>(image: &'a Image, steps: &mut Steps<C>) -> Option<RegionView<'a>>
    ensures { IfSome result (λ view. length (regions_of view).members ≡ image.now.faces) }
{
    let tree = parens_in(image, steps)?;
    let names = names_in(&image.names, steps)?;
    let members = fields_in(image.members.as_slice(), image.faces, 32)?;
    if tree.opens_before(tree.len(), steps) != names.count() {
        return None;
    }
    if !are_at_most(members, names.count(), steps) {
        return None;
    }
    Some(RegionView::new(tree, names, members))
}

/// What three faces and two regions are asked.
#[derive(Clone, Copy, Debug, PartialEq, Eq)]
struct Asked {
    regions: [Option<usize>; 3],
    parents: [Option<usize>; 2],
    common: [Option<usize>; 3],
    ids: [IdNumber; 2],
    numbers: [Option<usize>; 3],
    rising: [usize; 2],
}

fn answers<C: Ledger>(alloc: Global, image: &Image, blank: Blank) -> Option<Asked>
    requires name { blank.name ≡ C.name }
    requires parts { blank.parts ≡ C.parts }
    requires some { 0 < blank.parts }
{
    let mut steps = Steps::<C>::new(alloc, blank);
    if image.faces != 3 {
        return None;
    }
    let view = open(image, &mut steps)?;
    if view.count() != 2 {
        return None;
    }
    Some(Asked {
        regions: [
            view.of_face(0, &mut steps),
            view.of_face(1, &mut steps),
            view.of_face(2, &mut steps),
        ],
        parents: [view.parent(0, &mut steps), view.parent(1, &mut steps)],
        common: [
            view.common(0, 1, &mut steps),
            view.common(1, 0, &mut steps),
            view.common(1, 1, &mut steps),
        ],
        ids: [view.id_of(0, &mut steps), view.id_of(1, &mut steps)],
        numbers: [
            view.number_of(1, &mut steps),
            view.number_of(2, &mut steps),
            view.number_of(3, &mut steps),
        ],
        rising: [view.number_at(0, &mut steps), view.number_at(1, &mut steps)],
    })
}

#[test]
fn two_regions_are_asked(rt: HostRuntime) -> Result<(), Fail> {
    let alloc = rt.alloc();
    let nested = rows(
        alloc,
        &[(2, Some(1)), (1, None)],
        &[(2, 1), (1, 2)],
        &[1, 2],
    )?;
    let image = image_of(alloc, &nested, &[0, 2, 1])?;
    assert_eq!(rt;
        answers::<Brand>(alloc, &image, Blank::new(1)),
        Some(Asked {
            regions: [None, Some(1), Some(0)],
            parents: [None, Some(0)],
            common: [Some(0), Some(0), Some(1)],
            ids: [1, 2],
            numbers: [Some(0), Some(1), None],
            rising: [0, 1]
        })
    );
    let beside = rows(alloc, &[(1, None), (2, None)], &[(1, 0), (2, 1)], &[1])?;
    let image = image_of(alloc, &beside, &[1, 2, 0])?;
    assert_eq!(rt;
        answers::<Brand>(alloc, &image, Blank::new(1)),
        Some(Asked {
            regions: [Some(0), Some(1), None],
            parents: [None, None],
            common: [None, None, Some(1)],
            ids: [1, 2],
            numbers: [Some(0), Some(1), None],
            rising: [0, 1]
        })
    );
    let far = rows(
        alloc,
        &[(1, Some(LARGEST_ID)), (LARGEST_ID, None)],
        &[(LARGEST_ID, 0), (1, LARGEST_ID)],
        &[LARGEST_ID],
    )?;
    let image = image_of(alloc, &far, &[1, 0, 2])?;
    assert_eq!(rt;
        answers::<Brand>(alloc, &image, Blank::new(1)),
        Some(Asked {
            regions: [Some(0), None, Some(1)],
            parents: [None, Some(0)],
            common: [Some(0), Some(0), Some(1)],
            ids: [LARGEST_ID, 1],
            numbers: [Some(1), None, None],
            rising: [1, 0]
        })
    );
    Ok(())
}

/// How 100,000 regions lie.
#[derive(Clone, Copy, Debug, PartialEq, Eq)]
enum Shape {
    /// Each in the one of the next id.
    Chain,
    /// All others in the one of the greatest id.
    Wide,
}

impl Shape {
    fn parent(self, id: IdNumber) -> Option<IdNumber>
        requires { id ≤ 100000 }
    {
        match self {
            _ if id == 100000 => None,
            Shape::Chain => Some(id + 1),
            Shape::Wide => Some(100000),
        }
    }

    fn regions(self, alloc: Global) -> Result<Vec<RegionRow>, Fail> {
        let mut regions = Vec::new(alloc);
        for id in 1..100001 {
            regions.push(RegionRow {
                id,
                parent: self.parent(id),
            })?;
        }
        Ok(regions)
    }

    /// The parent of a region by number, as the numbers of the shape say.
    fn number_of_parent(self, region: usize) -> Option<usize> {
        match self {
            Shape::Chain => region.checked_sub(1),
            Shape::Wide => if region == 0 { None } else { Some(0) },
        }
    }

    /// The common region of two regions by number.
    fn common(self, first: usize, second: usize) -> usize {
        match self {
            Shape::Chain => first.min(second),
            Shape::Wide => if first == second { first } else { 0 },
        }
    }

    /// The id of a region by number.
    fn id(self, region: usize) -> usize
        requires { region < 100000 }
    {
        match self {
            Shape::Chain => 100000 - region,
            Shape::Wide => if region == 0 { 100000 } else { region },
        }
    }
}

/// Whether regions of a shape are as it says.
fn sampled<C: Ledger>(alloc: Global, image: &Image, shape: Shape, blank: Blank) -> Option<bool>
    requires name { blank.name ≡ C.name }
    requires parts { blank.parts ≡ C.parts }
    requires some { 0 < blank.parts }
{
    let mut steps = Steps::<C>::new(alloc, blank);
    let view = open(image, &mut steps)?;
    if view.count() != 100000 {
        return None;
    }
    for k in 0..100 {
        let region = 997 * k;
        let other = 99999 - 991 * k;
        if view.parent(region, &mut steps) != shape.number_of_parent(region) {
            return Some(false);
        }
        if view.common(region, other, &mut steps) != Some(shape.common(region, other)) {
            return Some(false);
        }
        if view.id_of(other, &mut steps) as usize != shape.id(other) {
            return Some(false);
        }
        let risen = view.number_at(other, &mut steps);
        if view.id_of(risen, &mut steps) as usize != other + 1 {
            return Some(false);
        }
    }
    Some(true)
}

#[test]
fn a_long_chain_and_a_wide_region_are_built_and_asked(rt: HostRuntime) -> Result<(), Fail> {
    let alloc = rt.alloc();
    for shape in [Shape::Chain, Shape::Wide] {
        let tables = Tables {
            regions: shape.regions(alloc)?,
            members: Vec::new(alloc),
            faces: Vec::new(alloc),
        };
        let image = image_of(alloc, &tables, &[])?;
        let found = sampled::<Brand>(alloc, &image, shape, Blank::new(1));
        assert_eq!(rt; found, Some(true), "{shape:?}");
    }
    Ok(())
}
