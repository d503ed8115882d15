//! Places of a rising list among which a number is looked for.

/// The places from `from` to before `to`, with the least and the greatest number that may stand there, and how many
/// more places are chosen by these before the middle is.
#[derive(Clone, Copy)]
pub(crate) struct Span {
    pub(crate) from: usize,
    pub(crate) to: usize,
    pub(crate) least: u64,
    pub(crate) greatest: u64,
    pub(crate) probes: usize,
}

impl Span {
    ghost use Rattle.std.specs.Prelude.{◌≡◌, ◌<◌, ◌≤◌, ◌+◌, ◌-◌, ◌/◌};

    /// The place to look at: as far along the places as `wanted` is along the numbers, or the middle.
    pub(crate) fn place(&self, wanted: u64) -> usize
        requires { self.now.from < self.now.to }
        ensures from { self.now.from ≤ result }
        ensures to { result < self.now.to }
        ensures middle { self.now.probes ≡ 0 → result ≡ self.now.from + (self.now.to - self.now.from) / 2 }
    {
        if self.probes == 0 {
            return self.from + (self.to - self.from) / 2;
        }
        let last = self.to - 1 - self.from;
        let along = wanted
            .saturating_sub(self.least)
            .saturating_mul(last as u64);
        let share = along / self.greatest.saturating_sub(self.least).max(1);
        self.from + last.min(share as usize)
    }

    /// The places behind this one, where a number stands that is less than the wanted one.
    pub(crate) fn behind(&self, place: usize, number: u64) -> Span
        requires { place < self.now.to }
        ensures from { result.from ≡ place + 1 }
        ensures to { result.to ≡ self.now.to }
        ensures probes { result.probes ≡ self.now.probes - 1 }
    {
        Span {
            from: place + 1,
            least: number.saturating_add(1),
            probes: self.probes.saturating_sub(1),
            ..*self
        }
    }

    /// The places before this one, where a number stands that is greater than the wanted one.
    pub(crate) fn before(&self, place: usize, number: u64) -> Span
        ensures from { result.from ≡ self.now.from }
        ensures to { result.to ≡ place }
        ensures probes { result.probes ≡ self.now.probes - 1 }
    {
        Span {
            to: place,
            greatest: number.saturating_sub(1),
            probes: self.probes.saturating_sub(1),
            ..*self
        }
    }
}
