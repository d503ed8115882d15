//! Places in preorder, and as parentheses.

ghost use Rattle.std.specs.Prelude.{◌≡◌, ℕ, ◌+◌, ◌<◌, ◌≤◌, ◌++◌, IfOk, OnOk, length, slice_index};
ghost use Rattle.region_tree.specs.Siblings.{AreSiblings, places_in};
ghost use Rattle.region_tree.specs.Walked.{AreForest, IsOpened, bits_in, order_in, steps_of};

use crate::siblings::Siblings;
use std::alloc::{AllocError, Global};

/// What a walk has still to do: a place and those behind it in its slot, or the end of a place.
#[derive(Clone, Copy)]
pub enum Step {
    Open(u32),
    Close,
}

/// Places in preorder, and as parentheses.
#[derive(Drop)]
pub struct Walked {
    pub bits: Vec<bool>,
    pub order: Vec<u32>,
}

/// The step of a place, if there is one, is to be done next.
fn put(left: &mut Vec<Step>, place: Option<u32>) -> Result<(), AllocError>
    ensures { OnOk result (left.new.items ≡ left.old.items ++ steps_of place) }
{
    if let Some(place) = place {
        left.push(Step::Open(place))?;
    }
    Ok(())
}

/// A place is opened: those inside it are to be done next, then its end, then those behind it.
fn put_open(left: &mut Vec<Step>, siblings: &Siblings, place: u32) -> Result<(), AllocError>
    requires next { place < length siblings.now.next.items }
    requires first { place < length siblings.now.first.items }
    ensures { OnOk result (IsOpened left.old.items left.new.items siblings.now.first.items siblings.now.next.items
        place) }
{
    put(left, siblings.next[place as usize])?;
    left.push(Step::Close)?;
    put(left, siblings.first[place as usize])
}

/// The places of slots, each before those inside it.
pub fn walk(alloc: Global, siblings: &Siblings, slots: &[u32]) -> Result<Walked, AllocError>
    requires siblings { AreSiblings slots.now siblings.now.first.items siblings.now.next.items }
    requires within { (k : ℕ) → k < length slots.now → slice_index slots.now k ≤ length slots.now }
    requires forest { AreForest slots.now }
    ensures bits { IfOk result (λ w. w.bits.items ≡ bits_in slots.now (places_in slots.now (length slots.now))) }
    ensures order { IfOk result (λ w. w.order.items ≡ order_in slots.now (places_in slots.now (length slots.now))) }
{
    let mut bits = Vec::new(alloc);
    let mut order = Vec::new(alloc);
    let mut left = Vec::new(alloc);
    put(&mut left, siblings.first[slots.len()])?;
    while let Some(step) = left.pop() {
        match step {
            Step::Open(place) => {
                bits.push(true)?;
                order.push(place)?;
                put_open(&mut left, siblings, place)?;
            }
            Step::Close => {
                bits.push(false)?;
            }
        }
    }
    Ok(Walked { bits, order })
}
