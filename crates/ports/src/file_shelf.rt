//! Files of the system.

ghost use Rattle.std.specs.Prelude.{◌≡◌, ◌≤◌, length, None, IfOk, OnOk, IsErr, IsErrOf};
ghost use Rattle.ports.specs.Outside.{CountsWrite, one_more};

use crate::kept_file::{KeptFile, append_to_file, read_file_at, start_file};
use crate::traits::Failed;
use crate::traits::shelf::{Shelf, ShelfFault};
use std::fs::Files;
use std::io::ErrorKind;

/// The files of the system, by path. It tells no bytes.
///
/// A path with nothing there, also under a folder that isn't there, is missing.
/// A folder or anything else that can't be read in the place of a file, and
/// every other error, is a failed read. A write to any of these is a failed
/// write.
///
/// One file stays open: a read that goes on where the last one ended, and an
/// append behind `start`, cost one call of the system, and every other piece
/// opens its file anew. None is open after an append.
#[derive(Drop)]
pub struct FileShelf<'r, R: Files> {
    rt: &'r R,
    open: Option<KeptFile<R::File>>,
    fault_count: u64,
    write_fault_count: u64,
    miss_count: u64,
}

impl<'r, R: Files> FileShelf<'r, R> {
    ghost use Rattle.ports.specs.Adapters.{file_faults, file_write_faults, file_misses};

    /// The files that the runtime reaches.
    pub fn new(rt: &'r R) -> FileShelf<'r, R>
        ensures faults { file_faults result ≡ 0 }
        ensures write_faults { file_write_faults result ≡ 0 }
        ensures misses { file_misses result ≡ 0 }
    {
        FileShelf {
            rt,
            open: None,
            fault_count: 0,
            write_fault_count: 0,
            miss_count: 0,
        }
    }

    /// Counts a failed write.
    fn failed_write(&mut self) -> Failed
        ensures counted { self.new ≡ record self.old { write_fault_count = one_more self.old.write_fault_count } }
        ensures never_falls { file_write_faults self.old ≤ file_write_faults self.new }
    {
        self.write_fault_count = self.write_fault_count.saturating_add(1);
        Failed
    }
}

impl<R: Files> Shelf for FileShelf<'_, R> {
    ghost use Rattle.ports.specs.Adapters.{file_faults, file_write_faults, file_misses};

    ghost files = { λ _. None };

    ghost faults = { λ s. s.fault_count };

    ghost write_faults = { λ s. s.write_fault_count };

    ghost misses = { λ s. s.miss_count };

    /// Makes one read.
    fn read_at(&mut self, name: &str, at: u64, into: &mut [u8]) -> Result<usize, ShelfFault>
        ensures within { IfOk result (λ k. k ≤ length into.new) }
        ensures no_fault { OnOk result (file_faults self.new ≡ file_faults self.old) }
        ensures no_miss { OnOk result (file_misses self.new ≡ file_misses self.old) }
        ensures no_write_fault { file_write_faults self.new ≡ file_write_faults self.old }

        ensures missing { IsErrOf result ShelfFault.Missing → file_misses self.new ≡ one_more (file_misses self.old) }
        ensures missing_alone { IsErrOf result ShelfFault.Missing → file_faults self.new ≡ file_faults self.old }
        ensures failed { IsErrOf result ShelfFault.Failed → file_faults self.new ≡ one_more (file_faults self.old) }
        ensures failed_alone { IsErrOf result ShelfFault.Failed → file_misses self.new ≡ file_misses self.old }

        ensures never_falls { file_faults self.old ≤ file_faults self.new }
        ensures misses_never_fall { file_misses self.old ≤ file_misses self.new }
    {
        match read_file_at(self.rt, &mut self.open, name, at, into) {
            Ok(count) => Ok(count),
            Err(e) if e.kind() == ErrorKind::NotFound => {
                self.miss_count = self.miss_count.saturating_add(1);
                Err(ShelfFault::Missing)
            }
            Err(_) => {
                self.fault_count = self.fault_count.saturating_add(1);
                Err(ShelfFault::Failed)
            }
        }
    }

    /// Makes the file, or empties the one that is there.
    fn start(&mut self, name: &str) -> Result<(), Failed>
        ensures counted { CountsWrite result (file_write_faults self.old) (file_write_faults self.new) }
        ensures no_fault { file_faults self.new ≡ file_faults self.old }
        ensures no_miss { file_misses self.new ≡ file_misses self.old }
    {
        match start_file(self.rt, &mut self.open, name) {
            Ok(()) => Ok(()),
            Err(_) => Err(self.failed_write()),
        }
    }

    /// Writes until the bytes are out. A write of nothing is a fault.
    fn append(&mut self, name: &str, bytes: &[u8]) -> Result<(), Failed>
        ensures counted { CountsWrite result (file_write_faults self.old) (file_write_faults self.new) }
        ensures no_fault { file_faults self.new ≡ file_faults self.old }
        ensures no_miss { file_misses self.new ≡ file_misses self.old }
    {
        match append_to_file(self.rt, &mut self.open, name, bytes) {
            Ok(()) => Ok(()),
            Err(_) => Err(self.failed_write()),
        }
    }
}
