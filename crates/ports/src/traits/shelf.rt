//! Files by name, read and written in pieces.

ghost use Rattle.std.specs.Prelude.{◌≡◌, ℕ, ◌≤◌, length, take, Option, IfOk, OnOk, OnErr, IsErrOf};
ghost use Rattle.ports.specs.Outside.{Files, Rose, IsPartAt, IsHeld, IsNotHeld, WhereTold, OthersStay, IsStarted, IsStartedAtMost, IsExtended, IsExtendedInPart, CountsWrite};

use super::Failed;

/// Why a file was not read.
#[derive(Clone, Copy, Debug, PartialEq, Eq)]
pub enum ShelfFault {
    /// No file has the name.
    Missing,
    /// The read failed, or what has the name is no file.
    Failed,
}

/// Files by name.
pub trait Shelf {
    /// The bytes of each name that is held, where the shelf tells them.
    ghost files: { Self → Option Files };

    /// How many reads failed. It never falls, and stops at `u64::MAX`.
    ghost faults: { Self → ℕ };

    /// How many writes failed. It never falls, and stops at `u64::MAX`.
    ghost write_faults: { Self → ℕ };

    /// How many reads asked for a name that is not held. It never falls, and
    /// stops at `u64::MAX`.
    ghost misses: { Self → ℕ };

    /// Copies bytes of a file from place `at` on, counted from 0, into the
    /// front of `into`, and answers how many. With room for more than nothing,
    /// `Ok(0)` says that the file has no byte at that place.
    fn read_at(&mut self, name: &str, at: u64, into: &mut [u8]) -> Result<usize, ShelfFault>
        ensures within { IfOk result (λ k. k ≤ length into.new) }
        ensures read { IfOk result (λ k. IsPartAt (files self.old) name.now at (length into.new) (take k into.new)) }
        ensures no_fault { OnOk result (faults self.new ≡ faults self.old) }
        ensures no_miss { OnOk result (misses self.new ≡ misses self.old) }
        ensures no_write_fault { write_faults self.new ≡ write_faults self.old }

        ensures missing { IsErrOf result ShelfFault.Missing
            → Rose (misses self.old) (misses self.new) × IsNotHeld (files self.old) name.now }
        ensures missing_alone { IsErrOf result ShelfFault.Missing → faults self.new ≡ faults self.old }
        ensures failed { IsErrOf result ShelfFault.Failed → Rose (faults self.old) (faults self.new) }
        ensures failed_alone { IsErrOf result ShelfFault.Failed → misses self.new ≡ misses self.old }

        ensures kept { files self.new ≡ files self.old }
        ensures never_falls { faults self.old ≤ faults self.new }
        ensures misses_never_fall { misses self.old ≤ misses self.new };

    /// Makes the name hold no byte, whether it was held or not.
    fn start(&mut self, name: &str) -> Result<(), Failed>
        ensures started { OnOk result (WhereTold (IsStarted name.now) (files self.old) (files self.new)) }
        ensures held { OnOk result (IsHeld (files self.new) name.now) }
        ensures left { OnErr result (WhereTold (IsStartedAtMost name.now) (files self.old) (files self.new)) }
        ensures others { WhereTold (OthersStay name.now) (files self.old) (files self.new) }
        ensures counted { CountsWrite result (write_faults self.old) (write_faults self.new) }
        ensures no_fault { faults self.new ≡ faults self.old }
        ensures no_miss { misses self.new ≡ misses self.old };

    /// Puts all of the bytes behind those that the name holds. After `Failed`
    /// some bytes at their front were put there, and nothing else.
    fn append(&mut self, name: &str, bytes: &[u8]) -> Result<(), Failed>
        requires { IsHeld (files self.old) name.now }
        ensures appended { OnOk result (WhereTold (IsExtended name.now bytes.now) (files self.old) (files self.new)) }
        ensures held { OnOk result (IsHeld (files self.new) name.now) }
        ensures prefix { OnErr result (WhereTold (IsExtendedInPart name.now bytes.now) (files self.old)
            (files self.new)) }
        ensures others { WhereTold (OthersStay name.now) (files self.old) (files self.new) }
        ensures counted { CountsWrite result (write_faults self.old) (write_faults self.new) }
        ensures no_fault { faults self.new ≡ faults self.old }
        ensures no_miss { misses self.new ≡ misses self.old };
}
