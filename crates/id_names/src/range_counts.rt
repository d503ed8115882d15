//! How many numbers were seen in each of some ranges, which tells where some were not.

ghost use Rattle.std.specs.Prelude.{◌<◌};

use crate::inverse::binary_digits;

/// How many ranges there are.
const RANGES: usize = 1024;

/// How often a number of each range was seen. It says where to look for those that were not, and nothing rests on it.
#[derive(Drop)]
pub(crate) struct RangeCounts {
    seen: [u32; RANGES],
    /// A range has two to the power of this many numbers.
    shift: u32,
    ghost narrow: { shift < 64 },
}

impl RangeCounts {
    /// No number seen, of so many.
    pub(crate) fn over(count: usize) -> RangeCounts {
        RangeCounts {
            seen: [0; RANGES],
            shift: binary_digits(count).saturating_sub(10),
        }
    }

    /// Sees a number.
    #[inline]
    pub(crate) fn see(&mut self, number: usize) {
        let range = number >> self.shift;
        if range < RANGES {
            self.seen[range] = self.seen[range].wrapping_add(1);
        }
    }

    /// Whether a number of this one's range may not have been seen.
    #[inline]
    pub(crate) fn may_lack(&self, number: usize) -> bool {
        let range = number >> self.shift;
        range >= RANGES || (self.seen[range] as usize) < 1 << self.shift
    }
}
