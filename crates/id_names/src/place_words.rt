//! The places in words, and the marks and back pointers of their cycles.

ghost use Rattle.std.specs.Prelude.{◌≡◌, ◌<◌, ◌≤◌, ◌^◌, ◌++◌, [], ◌∷◌, map, filter_map, length, IfOk, IfSome, OnOk, is_some};
ghost use Rattle.std.specs.List.{All, range_with_len};
ghost use Rattle.bit_words.specs.Bits.{HoldsBits};
ghost use Rattle.rank_select.specs.Counts.{counts_of};
ghost use Rattle.id_names.specs.Cycles.{AreInverse, IsPlacePermutation, marked, back_pointers, one_before};
ghost use Rattle.id_names.specs.Making.{place_width, spacing, HoldsFields};

use crate::cycles::{cycle_marks, one_before};
use crate::inverse::binary_digits;
use crate::packing::packed;
use bit_words::{BitMaker, Memory, PackedMaker};
use rank_select::make_counts;
use std::alloc::{AllocError, Global};

/// The words of the places and of their inverse.
#[derive(Drop)]
pub(crate) struct PlaceWords {
    pub(crate) places: Vec<u64>,
    pub(crate) marks: Vec<u64>,
    pub(crate) mark_counts: Vec<u64>,
    pub(crate) back: Vec<u64>,
    pub(crate) marked: u32,
}

/// How far marks stand from one another: the nearer, the fewer tests a walk makes, and the more pointers there are.
fn spacing(count: usize) -> u32
    requires { count ≤ 16777216 }
    ensures { result ≡ spacing count }
{
    let stride = binary_digits(count + 2);
    if stride > 4 { 1 } else { stride }
}

/// Which of these are pointers.
fn mark_bits(alloc: Global, pointers: &[Option<u32>]) -> Result<BitMaker, Memory>
    requires { length pointers.now ≤ 16777216 }
    ensures { IfOk result (λ bits. bits ≡ map is_some pointers.now) }
{
    let mut bits = BitMaker::new(alloc);
    for pointer in pointers {
        bits.push(pointer.is_some())?;
    }
    Ok(bits)
}

/// The pointers among these.
fn some_pointers(alloc: Global, pointers: &[Option<u32>]) -> Result<Vec<u32>, AllocError>
    ensures { IfOk result (λ some. some.items ≡ filter_map (λ pointer. pointer) pointers.now) }
{
    pointers
        .iter()
        .filter_map(|pointer| *pointer)
        .collect(alloc)
}

/// Which numbers are marked, and the pointers of these.
#[derive(Drop)]
struct Marked {
    marks: BitMaker,
    back: PackedMaker,
}

/// Marks in long cycles, so far from one another.
fn marked_apart(
    alloc: Global,
    width: u32,
    places: &[u32],
    numbers: &[u32],
    stride: u32,
) -> Result<Marked, Memory>
    requires few { length places.now ≤ 16777216 }
    requires places { IsPlacePermutation places.now }
    requires numbers { AreInverse places.now numbers.now }
    requires some { 1 ≤ stride }
    requires width { width ≡ place_width (length places.now) }
    ensures marks { IfOk result (λ m. m.marks ≡ marked places.now stride) }
    ensures back { IfOk result (λ m. m.back ≡ record { width = width; items = back_pointers places.now stride }) }
{
    let Ok(pointers) = cycle_marks(alloc, places, numbers, stride) else {
        return Err(Memory);
    };
    let marks = mark_bits(alloc, &pointers)?;
    let Ok(back) = some_pointers(alloc, &pointers) else {
        return Err(Memory);
    };
    let back = packed(alloc, width, &back)?;
    Ok(Marked { marks, back })
}

/// Which numbers another one comes before.
fn marks_of_all(alloc: Global, numbers: &[u32]) -> Result<BitMaker, Memory>
    requires few { length numbers.now ≤ 16777216 }
    ensures { IfOk result (λ marks. marks ≡ map is_some (map (one_before numbers.now)
        (range_with_len 0 (length numbers.now)))) }
{
    let mut marks = BitMaker::new(alloc);
    for number in 0..numbers.len() {
        marks.push(one_before(numbers, number).is_some())?;
    }
    Ok(marks)
}

/// Puts a pointer at the end, where there is one.
fn push_pointer(back: &mut PackedMaker, pointer: Option<u32>) -> Result<(), Memory>
    requires fits { IfSome pointer (λ number. number < 2 ^ back.old.width) }
    requires room { length back.old.items < 2147483647 }
    ensures { OnOk result (back.new ≡ record back.old {
      items = back.old.items
          ++ filter_map (λ pointer. pointer) (pointer ∷ []);
    }) }
{
    match pointer {
        Some(number) => back.push(u64::from(number)),
        None => Ok(()),
    }
}

/// The numbers before those that another one comes before.
fn pointers_to_all(alloc: Global, width: u32, numbers: &[u32]) -> Result<PackedMaker, Memory>
    requires few { length numbers.now ≤ 16777216 }
    requires some { 1 ≤ width }
    requires narrow { width ≤ 31 }
    requires fit { All (λ number. number < 2 ^ width) numbers.now }
    ensures { IfOk result (λ back. back ≡ record {
      width = width;
      items = filter_map (λ pointer. pointer)
          (map (one_before numbers.now) (range_with_len 0 (length numbers.now)));
    }) }
{
    let mut back = PackedMaker::with_room(alloc, width, numbers.len())?;
    for number in 0..numbers.len() {
        push_pointer(&mut back, one_before(numbers, number))?;
    }
    Ok(back)
}

/// The marks of all members of cycles of several: no cycle is followed for these.
fn all_marked(alloc: Global, width: u32, places: &[u32], numbers: &[u32]) -> Result<Marked, Memory>
    requires few { length places.now ≤ 16777216 }
    requires places { IsPlacePermutation places.now }
    requires numbers { AreInverse places.now numbers.now }
    requires width { width ≡ place_width (length places.now) }
    ensures marks { IfOk result (λ m. m.marks ≡ marked places.now 1) }
    ensures back { IfOk result (λ m. m.back ≡ record { width = width; items = back_pointers places.now 1 }) }
{
    let marks = marks_of_all(alloc, numbers)?;
    let back = pointers_to_all(alloc, width, numbers)?;
    Ok(Marked { marks, back })
}

/// The marks so far from one another, and the pointers back.
fn marked_numbers(
    alloc: Global,
    width: u32,
    places: &[u32],
    numbers: &[u32],
    stride: u32,
) -> Result<Marked, Memory>
    requires few { length places.now ≤ 16777216 }
    requires places { IsPlacePermutation places.now }
    requires numbers { AreInverse places.now numbers.now }
    requires some { 1 ≤ stride }
    requires width { width ≡ place_width (length places.now) }
    ensures marks { IfOk result (λ m. m.marks ≡ marked places.now stride) }
    ensures back { IfOk result (λ m. m.back ≡ record { width = width; items = back_pointers places.now stride }) }
{
    if stride == 1 {
        all_marked(alloc, width, places, numbers)
    } else {
        marked_apart(alloc, width, places, numbers, stride)
    }
}

/// The words of the places and of their inverse, by the numbers at the places.
pub(crate) fn place_words(
    alloc: Global,
    places: &[u32],
    numbers: &[u32],
) -> Result<PlaceWords, Memory>
    requires few { length places.now ≤ 16777216 }
    requires places { IsPlacePermutation places.now }
    requires numbers { AreInverse places.now numbers.now }
    ensures places { IfOk result (λ words. HoldsFields words.places.items
        (place_width (length places.now)) places.now) }
    ensures marks { IfOk result (λ words. HoldsBits words.marks.items
        (marked places.now (spacing (length places.now)))) }
    ensures mark_counts { IfOk result (λ words. HoldsFields words.mark_counts.items 32
        (counts_of (marked places.now (spacing (length places.now))))) }
    ensures back { IfOk result (λ words. HoldsFields words.back.items (place_width (length places.now))
        (back_pointers places.now (spacing (length places.now)))) }
    ensures marked { IfOk result (λ words. words.marked ≡ length (back_pointers places.now
        (spacing (length places.now)))) }
{
    let width = binary_digits(places.len()).max(1);
    let stride = spacing(places.len());
    let Marked { marks, back } = marked_numbers(alloc, width, places, numbers, stride)?;
    let mark_counts = make_counts(alloc, &marks)?;
    let marked = back.count() as u32;
    let places = packed(alloc, width, places)?;
    Ok(PlaceWords {
        places: places.finish(),
        marks: marks.finish(),
        mark_counts: mark_counts.finish(),
        back: back.finish(),
        marked,
    })
}
