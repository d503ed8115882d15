//! Numbers packed into fields of one width.

ghost use Rattle.std.specs.Prelude.{◌≡◌, ◌<◌, ◌≤◌, ◌^◌, length, IfOk};
ghost use Rattle.std.specs.List.{All};

use bit_words::{Memory, PackedMaker};
use std::alloc::Global;

/// These numbers by so many bits each.
pub(crate) fn packed(alloc: Global, width: u32, numbers: &[u32]) -> Result<PackedMaker, Memory>
    requires few { length numbers.now ≤ 16777216 }
    requires some { 1 ≤ width }
    requires narrow { width ≤ 31 }
    requires fit { All (λ number. number < 2 ^ width) numbers.now }
    ensures { IfOk result (λ maker. maker ≡ record { width = width; items = numbers.now }) }
{
    let mut maker = PackedMaker::with_room(alloc, width, numbers.len())?;
    for number in numbers {
        maker.push(u64::from(*number))?;
    }
    Ok(maker)
}
