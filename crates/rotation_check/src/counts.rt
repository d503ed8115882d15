//! How often numbers stand in a list, and where.

ghost use Rattle.std.specs.Prelude.{ℕ, ◌<◌, ◌^◌, length, slice_index, IfOk};
ghost use Rattle.rotation_check.specs.Counts.{AreCountsOfEach, ArePlacesOfEach};

use std::alloc::{AllocError, Global};

/// How often each number below `bound` stands among the values.
pub fn count_each(alloc: Global, values: &[u32], bound: usize) -> Result<Vec<u32>, AllocError>
    requires below { (k : ℕ) → k < length values.now → slice_index values.now k < bound }
    requires short { length values.now < 2 ^ 32 }
    ensures { IfOk result (λ counts. AreCountsOfEach values.now bound counts.items) }
{
    let mut counts = vec![in alloc; 0u32; bound]?;
    for value in values {
        counts[*value as usize] += 1;
    }
    Ok(counts)
}

/// For each number below `bound` that stands among the values, a place where it stands; 0 for one that doesn't.
pub fn place_each(alloc: Global, values: &[u32], bound: usize) -> Result<Vec<u32>, AllocError>
    requires below { (k : ℕ) → k < length values.now → slice_index values.now k < bound }
    requires short { length values.now < 2 ^ 32 }
    ensures { IfOk result (λ places. ArePlacesOfEach values.now bound places.items) }
{
    let mut places = vec![in alloc; 0u32; bound]?;
    for (place, value) in values.iter().enumerate() {
        places[*value as usize] = place as u32;
    }
    Ok(places)
}
