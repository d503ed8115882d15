//! Bytes that go into memory.

ghost use Rattle.std.specs.Prelude.{◌≡◌, ◌≤◌, ◌++◌, [], Some, Contains, OnOk, OnErr, IsErr};
ghost use Rattle.ports.specs.Outside.{Rose, GainsPart, one_more};

use crate::failing_calls::FailingCalls;
use crate::traits::Failed;
use crate::traits::sink::Sink;
use std::alloc::Global;

/// Bytes taken into memory. The calls that are listed fail.
#[derive(Drop)]
pub struct MemorySink<'a> {
    bytes: Vec<u8>,
    calls: FailingCalls<'a>,
    fault_count: u64,
}

impl<'a> MemorySink<'a> {
    ghost use Rattle.ports.specs.MemorySink.{sink_bytes, sink_failing, sink_calls, sink_faults};

    /// Holds nothing; the calls whose numbers, counted from 1, stand in
    /// `failing` answer `Failed`.
    pub fn new(alloc: Global, failing: &'a [u64]) -> MemorySink<'a>
        ensures bytes { sink_bytes result ≡ [] }
        ensures failing { sink_failing result ≡ failing.now }
        ensures calls { sink_calls result ≡ 0 }
        ensures faults { sink_faults result ≡ 0 }
    {
        MemorySink {
            bytes: Vec::new(alloc),
            calls: FailingCalls::new(failing),
            fault_count: 0,
        }
    }

    /// The bytes so far.
    pub fn bytes(&self) -> &[u8]
        ensures { result.now ≡ sink_bytes self.now }
    {
        self.bytes.as_slice()
    }

    /// Appends all bytes or none. Want of memory is a fault.
    fn append(&mut self, bytes: &[u8]) -> Result<(), Failed>
        ensures appended { OnOk result (sink_bytes self.new ≡ sink_bytes self.old ++ bytes.now) }
        ensures no_fault { OnOk result (sink_faults self.new ≡ sink_faults self.old) }
        ensures failed { OnErr result (sink_faults self.new ≡ one_more (sink_faults self.old)) }
        ensures kept { OnErr result (sink_bytes self.new ≡ sink_bytes self.old) }
        ensures never_falls { sink_faults self.old ≤ sink_faults self.new }
        ensures same_calls { sink_calls self.new ≡ sink_calls self.old }
        ensures same_failing { sink_failing self.new ≡ sink_failing self.old }
    {
        match self.bytes.extend_from_slice(bytes) {
            Ok(()) => Ok(()),
            Err(_) => {
                self.fault_count = self.fault_count.saturating_add(1);
                Err(Failed)
            }
        }
    }
}

impl Sink for MemorySink<'_> {
    ghost use Rattle.ports.specs.MemorySink.{sink_bytes, sink_failing, sink_calls, sink_faults, GainsHalf};

    ghost held = { λ s. Some s.bytes.items };

    ghost faults = { λ s. s.fault_count };

    /// A call that is listed appends the first half of its bytes, rounded
    /// down. Where memory is wanting nothing is appended, which is a fault of
    /// its own.
    fn put(&mut self, bytes: &[u8]) -> Result<(), Failed>
        ensures appended { OnOk result (sink_bytes self.new ≡ sink_bytes self.old ++ bytes.now) }
        ensures no_fault { OnOk result (sink_faults self.new ≡ sink_faults self.old) }

        ensures failed { OnErr result (Rose (sink_faults self.old) (sink_faults self.new)) }
        ensures prefix { OnErr result (GainsPart (Some (sink_bytes self.old)) (Some (sink_bytes self.new)) bytes.now) }
        ensures never_falls { sink_faults self.old ≤ sink_faults self.new }

        ensures listed { Contains (sink_failing self.old) (sink_calls self.new) → IsErr result }
        ensures half { Contains (sink_failing self.old) (sink_calls self.new) → GainsHalf self.old self.new bytes.now }
        ensures nothing { ¬ Contains (sink_failing self.old) (sink_calls self.new)
            → OnErr result (sink_bytes self.new ≡ sink_bytes self.old) }

        ensures calls { sink_calls self.new ≡ one_more (sink_calls self.old) }
        ensures same_failing { sink_failing self.new ≡ sink_failing self.old }
    {
        if self.calls.next_fails() {
            let _ = self.append(&bytes[..bytes.len() / 2]);
            self.fault_count = self.fault_count.saturating_add(1);
            return Err(Failed);
        }
        self.append(bytes)
    }
}
