//! Places that lie right inside one another, as a first one and next ones.

ghost use Rattle.std.specs.Prelude.{◌≡◌, ℕ, ◌<◌, ◌≤◌, IfOk, None, length, replicate, slice_index};
ghost use Rattle.region_tree.specs.Siblings.{AreSiblings, slots_of};

use std::alloc::{AllocError, Global};

/// The first place in each slot, and behind each place the next in its slot.
#[derive(Drop)]
pub struct Siblings {
    pub first: Vec<Option<u32>>,
    pub next: Vec<Option<u32>>,
}

/// The slots of places: the number of the parent, or for roots the number of places.
pub fn slots(alloc: Global, parents: &[Option<u32>]) -> Result<Vec<u32>, AllocError>
    requires { length parents.now ≤ 16777216 }
    ensures { IfOk result (λ slots. slots.items ≡ slots_of parents.now) }
{
    let count = parents.len() as u32;
    parents
        .iter()
        .map(|place| place.unwrap_or(count))
        .collect(alloc)
}

/// So many times no place.
fn no_places(alloc: Global, count: usize) -> Result<Vec<Option<u32>>, AllocError>
    ensures { IfOk result (λ places. places.items ≡ replicate count None) }
{
    vec![in alloc; None; count]
}

/// The first and the next places of slots.
pub fn link(alloc: Global, slots: &[u32]) -> Result<Siblings, AllocError>
    requires few { length slots.now ≤ 16777216 }
    requires within { (k : ℕ) → k < length slots.now → slice_index slots.now k ≤ length slots.now }
    ensures { IfOk result (λ s. AreSiblings slots.now s.first.items s.next.items) }
{
    let count = slots.len();
    let mut first = no_places(alloc, count + 1)?;
    let mut next = no_places(alloc, count)?;
    for place in (0..count).rev() {
        let slot = slots[place] as usize;
        next[place] = first[slot];
        first[slot] = Some(place as u32);
    }
    Ok(Siblings { first, next })
}
