//! Bytes that come from memory.

ghost use Rattle.std.specs.Prelude.{◌≡◌, ◌↔◌, ◌<◌, ◌≤◌, [], min, length, take, drop, Contains, IfOk, OnOk, OnErr, IsOk, IsErr};
ghost use Rattle.std.specs.Io.KnownBytes.{Consumes};
ghost use Rattle.ports.specs.Outside.{Rose, IsEndAt, one_more};

use crate::failing_calls::FailingCalls;
use crate::traits::Failed;
use crate::traits::source::Source;

/// Bytes in memory, at most a piece a call. The calls that are listed fail.
#[derive(Drop)]
pub struct MemorySource<'a> {
    bytes: &'a [u8],
    piece: usize,
    calls: FailingCalls<'a>,
    fault_count: u64,
    ghost some_piece: { 0 < piece },
}

impl<'a> MemorySource<'a> {
    ghost use Rattle.ports.specs.MemorySource.{source_bytes, source_piece, source_failing, source_calls, source_faults};

    /// Gives `bytes`, at most `piece` of them a call; the calls whose numbers,
    /// counted from 1, stand in `failing` answer `Failed`.
    pub fn new(bytes: &'a [u8], piece: usize, failing: &'a [u64]) -> MemorySource<'a>
        requires { 0 < piece }
        ensures bytes { source_bytes result ≡ bytes.now }
        ensures piece { source_piece result ≡ piece }
        ensures failing { source_failing result ≡ failing.now }
        ensures calls { source_calls result ≡ 0 }
        ensures faults { source_faults result ≡ 0 }
    {
        MemorySource {
            bytes,
            piece,
            calls: FailingCalls::new(failing),
            fault_count: 0,
        }
    }
}

impl Source for MemorySource<'_> {
    ghost use Rattle.ports.specs.MemorySource.{source_left, source_bytes, source_piece, source_failing, source_calls, source_faults};

    ghost left = { λ s. source_left s };

    ghost faults = { λ s. s.fault_count };

    /// A call that does not fail gives as many bytes as the least of the
    /// piece, the room and the bytes left, and leaves the rest of `into`.
    fn take(&mut self, into: &mut [u8]) -> Result<usize, Failed>
        ensures within { IfOk result (λ k. k ≤ length into.new) }
        ensures count { IfOk result (λ k. k ≡ min (source_piece self.old)
            (min (length into.new) (length (source_bytes self.old)))) }
        ensures moved { IfOk result (λ k. Consumes (source_left self.old) (source_left self.new) (take k into.new)) }
        ensures rest { IfOk result (λ k. drop k into.new ≡ drop k into.old) }
        ensures end { IfOk result (λ k. IsEndAt (source_left self.old) (length into.new) k) }
        ensures no_fault { OnOk result (source_faults self.new ≡ source_faults self.old) }

        // It fails exactly at the calls that are listed.
        ensures listed { IsErr result ↔ Contains (source_failing self.old) (source_calls self.new) }
        ensures none_listed { source_failing self.old ≡ [] → IsOk result }
        ensures failed { OnErr result (Rose (source_faults self.old) (source_faults self.new)) }
        ensures untouched { OnErr result (into.new ≡ into.old) }
        ensures kept { OnErr result (source_left self.new ≡ source_left self.old) }
        ensures never_falls { source_faults self.old ≤ source_faults self.new }

        ensures calls { source_calls self.new ≡ one_more (source_calls self.old) }
        ensures same_piece { source_piece self.new ≡ source_piece self.old }
        ensures same_failing { source_failing self.new ≡ source_failing self.old }
    {
        if self.calls.next_fails() {
            self.fault_count = self.fault_count.saturating_add(1);
            return Err(Failed);
        }
        let count = self.piece.min(into.len()).min(self.bytes.len());
        let (front, rest) = self.bytes.split_at(count);
        into[..count].copy_from_slice(front);
        self.bytes = rest;
        Ok(count)
    }
}
