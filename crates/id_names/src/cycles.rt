//! The cycles of a permutation: in long ones every so many members are marked, with a pointer back.

ghost use Rattle.std.specs.Prelude.{◌≡◌, ℕ, ◌<◌, ◌≤◌, IfOk, None, false, length, slice_index, slice_index_or};
ghost use Rattle.id_names.specs.Cycles.{one_before, AreInverse, IsPlacePermutation, HavePointers, AreVisited, cycle, marks_of};

use std::alloc::{AllocError, Global};

/// What a walk along a cycle knows of the marks that it has set.
#[derive(Clone, Copy)]
struct Marker {
    /// How far marks stand from one another.
    stride: u32,
    /// The last member that was marked, or the first of all.
    last: u32,
    /// How many members were passed since.
    since: u32,
}

impl Marker {
    ghost use Rattle.std.specs.Prelude.{◌≡◌, ◌<◌, length};
    ghost use Rattle.id_names.specs.Marker.{marker_past, marks_past};

    /// Passes the next member, and marks it where it stands far enough behind the last mark.
    #[inline]
    fn pass(&mut self, member: u32, marks: &mut [Option<u32>])
        requires within { member < length marks.old }
        requires since { self.old.since < self.old.stride }
        ensures marker { self.new ≡ marker_past self.old member }
        ensures marks { marks.new ≡ marks_past self.old member marks.old }
    {
        self.since += 1;
        if self.since == self.stride {
            marks[member as usize] = Some(self.last);
            self.last = member;
            self.since = 0;
        }
    }
}

/// Visits a cycle, and marks it where it is long. It is walked from both ends at once, so that what is read at one
/// doesn't wait for the other: `behind` takes the members of the end, which are marked once the walks have met.
fn visit_and_mark(
    places: &[u32],
    numbers: &[u32],
    stride: u32,
    first: u32,
    visited: &mut [bool],
    marks: &mut [Option<u32>],
    behind: &mut Vec<u32>,
) -> Result<(), AllocError>
    requires few { length places.now ≤ 16777216 }
    requires places { IsPlacePermutation places.now }
    requires numbers { AreInverse places.now numbers.now }
    requires first { first < length places.now }
    requires some { 1 ≤ stride }
    requires visited { length visited.old ≡ length places.now }
    requires size { length marks.old ≡ length places.now }
    requires unvisited { (i : ℕ) → i < length (cycle places.now first)
        → slice_index_or visited.old (slice_index (cycle places.now first) i) false ≡ false }
    requires fresh { (i : ℕ) → i < length (cycle places.now first)
        → slice_index_or marks.old (slice_index (cycle places.now first) i) None ≡ None }
    ensures visited { IfOk result (λ _. AreVisited (cycle places.now first) visited.old visited.new) }
    ensures marks { IfOk result (λ _. HavePointers stride (cycle places.now first) marks.old marks.new) }
{
    behind.clear();
    visited[first as usize] = true;
    let mut marker = Marker {
        stride,
        last: first,
        since: 0,
    };
    let mut member = places[first as usize];
    let mut end = numbers[first as usize];
    while !visited[member as usize] {
        visited[member as usize] = true;
        marker.pass(member, marks);
        member = places[member as usize];
        if !visited[end as usize] {
            visited[end as usize] = true;
            behind.push(end)?;
            end = numbers[end as usize];
        }
    }
    while let Some(member) = behind.pop() {
        marker.pass(member, marks);
    }
    // Where another member is marked the cycle is long, and its first one is marked too.
    if marker.last != first {
        marks[first as usize] = Some(marker.last);
    }
    Ok(())
}

/// The pointers back of the marked numbers, and none for the others: one sweep, which follows each cycle once.
pub(crate) fn cycle_marks(
    alloc: Global,
    places: &[u32],
    numbers: &[u32],
    stride: u32,
) -> Result<Vec<Option<u32>>, AllocError>
    requires few { length places.now ≤ 16777216 }
    requires places { IsPlacePermutation places.now }
    requires numbers { AreInverse places.now numbers.now }
    requires some { 1 ≤ stride }
    ensures { IfOk result (λ marks. marks.items ≡ marks_of places.now stride) }
{
    let mut visited = vec![in alloc; false; places.len()]?;
    let mut marks = vec![in alloc; None; places.len()]?;
    let mut behind = Vec::new(alloc);
    for first in 0..places.len() as u32 {
        if !visited[first as usize] {
            visit_and_mark(
                places,
                numbers,
                stride,
                first,
                &mut visited,
                &mut marks,
                &mut behind,
            )?;
        }
    }
    Ok(marks)
}

/// The number before another in its cycle, or None where that is the same.
pub(crate) fn one_before(numbers: &[u32], number: usize) -> Option<u32>
    requires few { length numbers.now ≤ 16777216 }
    requires within { number < length numbers.now }
    ensures { result ≡ one_before numbers.now number }
{
    let before = numbers[number];
    if before as usize == number {
        None
    } else {
        Some(before)
    }
}
