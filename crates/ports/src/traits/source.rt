//! Where bytes come from.

ghost use Rattle.std.specs.Prelude.{◌≡◌, ℕ, ◌≤◌, List, length, take, Option, IfOk, OnOk, OnErr};
ghost use Rattle.std.specs.Io.KnownBytes.{Consumes};
ghost use Rattle.ports.specs.Outside.{Rose, IsEndAt};

use super::Failed;

/// Bytes that come in.
pub trait Source {
    /// The bytes still to come, where the source tells them.
    ghost left: { Self → Option (List ℕ) };

    /// How many calls failed. It never falls, and stops at `u64::MAX`.
    ghost faults: { Self → ℕ };

    /// Moves the next bytes into the front of `into`, and answers how many.
    /// With room for more than nothing, `Ok(0)` is the end of the input.
    /// After `Failed` nothing was taken.
    fn take(&mut self, into: &mut [u8]) -> Result<usize, Failed>
        ensures within { IfOk result (λ k. k ≤ length into.new) }
        ensures moved { IfOk result (λ k. Consumes (left self.old) (left self.new) (take k into.new)) }
        ensures end { IfOk result (λ k. IsEndAt (left self.old) (length into.new) k) }
        ensures no_fault { OnOk result (faults self.new ≡ faults self.old) }

        ensures failed { OnErr result (Rose (faults self.old) (faults self.new)) }
        ensures kept { OnErr result (left self.new ≡ left self.old) }
        ensures never_falls { faults self.old ≤ faults self.new };
}
