//! Bytes that come from a reader.

ghost use Rattle.std.specs.Prelude.{◌≡◌, ◌≤◌, ◌<◌, length, take, None, IfOk, OnOk, OnErr};
ghost use Rattle.std.specs.Io.KnownBytes.{Consumes, Keeps, IsAtEnd};
ghost use Rattle.ports.specs.Outside.{one_more};

use crate::traits::Failed;
use crate::traits::source::Source;
use std::io::Read;

/// A reader as a source. It makes one read a call, tells no bytes, and counts
/// each error of the reader, an interruption too, as a fault.
#[derive(Drop)]
pub struct StdSource<R: Read + Drop> {
    reader: R,
    fault_count: u64,
}

impl<R: Read + Drop> StdSource<R> {
    ghost use Rattle.ports.specs.Adapters.{source_reader, reader_faults};

    /// Takes from the reader, from where it stands.
    pub fn new(reader: R) -> StdSource<R>
        ensures reader { source_reader result ≡ reader }
        ensures faults { reader_faults result ≡ 0 }
    {
        StdSource {
            reader,
            fault_count: 0,
        }
    }
}

impl<R: Read + Drop> Source for StdSource<R> {
    ghost use Rattle.ports.specs.Adapters.{source_reader, reader_faults};

    ghost left = { λ _. None };

    ghost faults = { λ s. s.fault_count };

    /// Where the reader's bytes are known, they are the ones that are moved.
    fn take(&mut self, into: &mut [u8]) -> Result<usize, Failed>
        ensures within { IfOk result (λ k. k ≤ length into.new) }
        ensures moved { IfOk result (λ k. Consumes (R.remaining (source_reader self.old))
            (R.remaining (source_reader self.new)) (take k into.new)) }
        ensures end { IfOk result (λ k. k ≡ 0 → 0 < length into.new → IsAtEnd (R.remaining (source_reader self.new))) }
        ensures no_fault { OnOk result (reader_faults self.new ≡ reader_faults self.old) }
        ensures failed { OnErr result (reader_faults self.new ≡ one_more (reader_faults self.old)) }
        ensures kept { OnErr result (Keeps (R.remaining (source_reader self.old))
            (R.remaining (source_reader self.new))) }
        ensures never_falls { reader_faults self.old ≤ reader_faults self.new }
    {
        match self.reader.read(into) {
            Ok(count) => Ok(count),
            Err(_) => {
                self.fault_count = self.fault_count.saturating_add(1);
                Err(Failed)
            }
        }
    }
}
