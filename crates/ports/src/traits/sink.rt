//! Where bytes go.

ghost use Rattle.std.specs.Prelude.{◌≡◌, ℕ, ◌≤◌, List, Option, OnOk, OnErr};
ghost use Rattle.std.specs.Io.KnownBytes.{Appends};
ghost use Rattle.ports.specs.Outside.{Rose, GainsPart};

use super::Failed;

/// Bytes that go out.
pub trait Sink {
    /// The bytes so far, where the sink tells them.
    ghost held: { Self → Option (List ℕ) };

    /// How many calls failed. It never falls, and stops at `u64::MAX`.
    ghost faults: { Self → ℕ };

    /// Appends all of the bytes. After `Failed` some bytes at their front were
    /// appended, and nothing else.
    fn put(&mut self, bytes: &[u8]) -> Result<(), Failed>
        ensures appended { OnOk result (Appends (held self.old) (held self.new) bytes.now) }
        ensures no_fault { OnOk result (faults self.new ≡ faults self.old) }

        ensures failed { OnErr result (Rose (faults self.old) (faults self.new)) }
        ensures prefix { OnErr result (GainsPart (held self.old) (held self.new) bytes.now) }
        ensures never_falls { faults self.old ≤ faults self.new };
}
