//! The rings of a round.

ghost use Rattle.std.specs.Prelude.{◌≡◌, ◌<◌, ◌^◌, ◌++◌, ℕ, Bool, List, IsTrue, IfOk, OnOk, length, slice_index};
ghost use Rattle.std.specs.List.{filter, Contains};
ghost use Rattle.std.specs.List.Sorted.{IsStrictlyIncreasing};
ghost use Rattle.plane_model.specs.Sets.{has};
ghost use Rattle.islands.specs.Lists.{AreLists, AreChains, listed};
ghost use Rattle.islands.specs.Numbered.{AreBelow};
ghost use Rattle.islands.specs.Rounds.{AreRoundRings, is_marked, is_fresh, fresh_on};

use crate::gather::NumbersByKey;
use std::alloc::{AllocError, Global};

/// Whether a ring's component was reached.
fn is_reached(components: &[u32], reached: &[bool], ring: u32) -> bool
    requires ring { ring < length components.now }
    requires component { slice_index components.now ring < length reached.now }
    ensures { result ≡ is_marked reached.now (slice_index components.now ring) }
{
    reached[components[ring as usize] as usize]
}

/// Appends those of a face's rings whose component was not reached.
fn add_fresh(
    on_face: &NumbersByKey,
    face: u32,
    components: &[u32],
    reached: &[bool],
    now: &mut Vec<u32>,
) -> Result<(), AllocError>
    requires face { face < length on_face.now.last.items }
    requires same { length on_face.now.before.items ≡ length components.now }
    requires chains { AreChains on_face.now.last.items on_face.now.before.items }
    requires components { (i : ℕ) → i < length components.now → slice_index components.now i < length reached.now }
    ensures { OnOk result (now.new.items ≡ now.old.items ++ filter (is_fresh components.now reached.now)
        (listed on_face.now.last.items on_face.now.before.items face)) }
{
    let mut left = on_face.last[face as usize];
    while left != 0 {
        let ring = left - 1;
        if !is_reached(components, reached, ring) {
            now.push(ring)?;
        }
        left = on_face.before[ring as usize];
    }
    Ok(())
}

/// The rings on the faces of the front whose component was not reached.
fn collect(
    alloc: Global,
    on_face: &NumbersByKey,
    components: &[u32],
    reached: &[bool],
    front: &[u32],
) -> Result<Vec<u32>, AllocError>
    requires front { (k : ℕ) → k < length front.now → slice_index front.now k < length on_face.now.last.items }
    requires same { length on_face.now.before.items ≡ length components.now }
    requires chains { AreChains on_face.now.last.items on_face.now.before.items }
    requires components { (i : ℕ) → i < length components.now → slice_index components.now i < length reached.now }
    ensures { IfOk result (λ now. now.items ≡ fresh_on components.now reached.now
        (listed on_face.now.last.items on_face.now.before.items) front.now) }
{
    let mut now: Vec<u32> = Vec::new(alloc);
    for f in front {
        add_fresh(on_face, *f, components, reached, &mut now)?;
    }
    Ok(now)
}

/// The numbers in rising order, each once.
fn rising(numbers: Vec<u32>) -> Vec<u32>
    ensures increasing { IsStrictlyIncreasing result.items }
    ensures all { (i : ℕ) → Contains numbers.items i → Contains result.items i }
    ensures only { (i : ℕ) → Contains result.items i → Contains numbers.items i }
{
    let mut sorted = numbers;
    sorted.sort_unstable();
    sorted.dedup();
    sorted
}

/// The rings of a round, rising.
pub fn round_rings(
    alloc: Global,
    on_face: &NumbersByKey,
    components: &[u32],
    reached: &[bool],
    front: &[u32],
) -> Result<Vec<u32>, AllocError>
    requires front { (k : ℕ) → k < length front.now → slice_index front.now k < length on_face.now.last.items }
    requires same { length on_face.now.before.items ≡ length components.now }
    requires chains { AreChains on_face.now.last.items on_face.now.before.items }
    requires components { (i : ℕ) → i < length components.now → slice_index components.now i < length reached.now }
    ensures { IfOk result (λ now. (faces : List ℕ) → AreLists faces (listed on_face.now.last.items on_face.now.before.items)
        → AreRoundRings faces components.now front.now reached.now now.items) }
{
    let found = collect(alloc, on_face, components, reached, front)?;
    Ok(rising(found))
}
