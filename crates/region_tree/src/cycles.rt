//! The least region on a cycle of parents. As many steps up as there are regions, or more, lead from a region to one
//! on a cycle or to none, and each region on a cycle is reached so; twice as many steps are found from so many.

ghost use Rattle.std.specs.Prelude.{◌≡◌, ℕ, ◌+◌, ◌<◌, ◌≤◌, find, length, map, option_and_then, slice_index_or, IfOk, IfSome};
ghost use Rattle.std.specs.List.{range_with_len};
ghost use Rattle.region_tree.specs.Ancestors.{AreParentNumbers, IsFarUp, IsLeastOf, comes_back, lesser, parent_at};

use std::alloc::{AllocError, Global};

/// The place that steps lead to from a place, which itself may be none.
fn beyond(reached: &[Option<u32>], place: Option<u32>) -> Option<u32>
    requires { IfSome place (λ p. p < length reached.now) }
    ensures { result ≡ option_and_then (parent_at reached.now) place }
{
    reached[place? as usize]
}

/// The places that twice as many steps lead to.
fn doubled(alloc: Global, reached: &[Option<u32>]) -> Result<Vec<Option<u32>>, AllocError>
    requires { AreParentNumbers reached.now }
    ensures { IfOk result (λ twice. twice.items ≡ map (option_and_then (parent_at reached.now)) reached.now) }
{
    let mut twice = Vec::with_capacity(alloc, reached.len())?;
    for place in reached {
        twice.push(beyond(reached, *place))?;
    }
    Ok(twice)
}

/// The places that as many steps up as there are places, or more, lead to.
fn far_up(alloc: Global, parents: &[Option<u32>]) -> Result<Vec<Option<u32>>, AllocError>
    requires few { length parents.now ≤ 16777216 }
    requires places { AreParentNumbers parents.now }
    ensures { IfOk result (λ far. IsFarUp parents.now far.items) }
{
    let mut far = Vec::from_slice(alloc, parents)?;
    let mut steps = 1;
    while steps < parents.len() {
        far = doubled(alloc, &far)?;
        steps *= 2;
    }
    Ok(far)
}

/// The lesser of two places, where there are any.
fn lesser(least: Option<u32>, place: Option<u32>) -> Option<u32>
    ensures { result ≡ lesser least place }
{
    match (least, place) {
        (Some(least), Some(place)) => Some(least.min(place)),
        (None, place) => place,
        (least, None) => least,
    }
}

/// The least of some places.
fn least(places: &[Option<u32>]) -> Option<u32>
    ensures { IsLeastOf places.now (length places.now) result }
{
    let mut least = None;
    for place in places {
        least = lesser(least, *place);
    }
    least
}

/// The least place that its own parents lead back to.
pub fn least_on_cycle(alloc: Global, parents: &[Option<u32>]) -> Result<Option<u32>, AllocError>
    requires few { length parents.now ≤ 16777216 }
    requires places { AreParentNumbers parents.now }
    ensures { IfOk result (λ place. place ≡ find (comes_back (parent_at parents.now) (length parents.now))
        (range_with_len 0 (length parents.now))) }
{
    Ok(least(&far_up(alloc, parents)?))
}
