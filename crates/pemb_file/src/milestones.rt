//! Milestones among rising places, between which a halving begins.

ghost use Rattle.std.specs.Prelude.{◌<◌, ◌≤◌};
ghost use Rattle.pemb_file.specs.declared.milestones.TheConstants.{MOST};

/// There are no more milestones than so many.
const MOST: usize = 1024;

/// How many of some rising places are below each milestone. Milestones are the multiples of a stride, from 0 on.
#[derive(Clone, Copy)]
pub(crate) struct Milestones {
    stride: u32,
    below: [u32; MOST],
    count: usize,
    ghost strides: { 0 < stride },
    ghost room: { count ≤ MOST },
}

impl Milestones {
    ghost use Rattle.std.specs.Prelude.{ℕ, ◌≡◌, ◌<◌, ◌+◌, ◌*◌, IfSome, MatchOption};
    ghost use Rattle.pemb_file.specs.Milestones.{AreMilestones, IsAround, IsMilestone};
    ghost use Rattle.pemb_file.specs.declared.milestones.TheConstants.{MOST};

    /// None so far.
    pub(crate) fn none() -> Milestones
        ensures { (at : ℕ → ℕ) → (places : ℕ) → AreMilestones at places result }
    {
        Milestones {
            stride: 1,
            below: [0; MOST],
            count: 0,
        }
    }

    /// None so far of those for places up to a greatest one.
    pub(crate) fn up_to(greatest: u32) -> Milestones
        ensures milestones { (at : ℕ → ℕ) → (places : ℕ) → AreMilestones at places result }
        ensures none { result.count ≡ 0 }
    {
        Milestones {
            stride: greatest / (MOST as u32 - 2) + 1,
            below: [0; MOST],
            count: 0,
        }
    }

    /// The next milestone. None where there is room for no more.
    pub(crate) fn next(&self) -> Option<u64>
        ensures room { IfSome result (λ place. (self.now).count < MOST) }
        ensures place { IfSome result (λ place. place ≡ (self.now).count * (self.now).stride) }
    {
        if self.count == MOST {
            return None;
        }
        Some(self.count as u64 * u64::from(self.stride))
    }

    /// Puts down how many places are below the next milestone.
    pub(crate) fn put(&mut self, below: u32)
        requires { (self.old).count < MOST }
        ensures milestones { (at : ℕ → ℕ) → (places : ℕ) → AreMilestones at places self.old
            → IsMilestone at places ((self.old).count * (self.old).stride) below → AreMilestones at places self.new }
        ensures count { (self.new).count ≡ (self.old).count + 1 }
        ensures stride { (self.new).stride ≡ (self.old).stride }
    {
        self.below[self.count] = below;
        self.count += 1;
    }

    /// Between which of so many entries those below a place end.
    #[inline]
    pub(crate) fn around(&self, place: usize, entries: usize) -> (usize, usize)
        ensures { (at : ℕ → ℕ) → AreMilestones at entries self.now → IsAround at entries place result.0 result.1 }
    {
        let milestone = place / self.stride as usize;
        if milestone < self.count.saturating_sub(1) {
            let from = self.below[milestone] as usize;
            let to = self.below[milestone + 1] as usize;
            (from, to)
        } else {
            (0, entries)
        }
    }
}
