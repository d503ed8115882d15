//! Files in memory.

ghost use Rattle.std.specs.Prelude.{◌≡◌, ◌≢◌, ◌↔◌, ℕ, ◌-◌, ◌≤◌, [], min, List, length, take, drop, None, Some, Contains, IfSome, IfOk, OnOk, OnErr, IsErr, IsErrOf, IsSome, MatchOption};
ghost use Rattle.std.specs.BTreeMap.{get_by_text};
ghost use Rattle.ports.specs.Outside.{Files, IsPartAt, IsHeld, IsStarted, IsExtended, IsExtendedInPart, OthersStay, CountsWrite, one_more};
ghost use Rattle.ports.specs.HeldFiles.{files_of};

use crate::failing_calls::FailingCalls;
use crate::traits::Failed;
use crate::traits::shelf::{Shelf, ShelfFault};
use bit_words::Memory;
use std::alloc::{AllocError, Global};
use std::collections::BTreeMap;

/// Files in memory, by name. The calls that are listed fail.
#[derive(Drop)]
pub struct MemoryShelf<'a> {
    alloc: Global,
    held: BTreeMap<String, Vec<u8>>,
    calls: FailingCalls<'a>,
    fault_count: u64,
    write_fault_count: u64,
    miss_count: u64,
}

impl<'a> MemoryShelf<'a> {
    ghost use Rattle.ports.specs.MemoryShelf.{shelf_files, shelf_failing, shelf_calls, shelf_faults, shelf_write_faults, shelf_misses};

    /// Holds nothing; the calls whose numbers, counted from 1, stand in
    /// `failing` answer `Failed`. Only calls of the trait count.
    pub fn new(alloc: Global, failing: &'a [u64]) -> MemoryShelf<'a>
        ensures files { (name : List ℕ) → shelf_files result name ≡ None }
        ensures failing { shelf_failing result ≡ failing.now }
        ensures calls { shelf_calls result ≡ 0 }
        ensures faults { shelf_faults result ≡ 0 }
        ensures write_faults { shelf_write_faults result ≡ 0 }
        ensures misses { shelf_misses result ≡ 0 }
    {
        MemoryShelf {
            alloc,
            held: BTreeMap::new(alloc),
            calls: FailingCalls::new(failing),
            fault_count: 0,
            write_fault_count: 0,
            miss_count: 0,
        }
    }

    /// Puts `bytes` under the name, in place of what it held. Where memory is
    /// wanting nothing changes.
    pub fn add(&mut self, name: &str, bytes: &[u8]) -> Result<(), Memory>
        ensures held { OnOk result (shelf_files self.new name.now ≡ Some bytes.now) }
        ensures others { OnOk result ((other : List ℕ) → other ≢ name.now
            → shelf_files self.new other ≡ shelf_files self.old other) }
        ensures kept { OnErr result (shelf_files self.new ≡ shelf_files self.old) }
        ensures same_failing { shelf_failing self.new ≡ shelf_failing self.old }
        ensures same_calls { shelf_calls self.new ≡ shelf_calls self.old }
        ensures no_fault { shelf_faults self.new ≡ shelf_faults self.old }
        ensures no_write_fault { shelf_write_faults self.new ≡ shelf_write_faults self.old }
        ensures no_miss { shelf_misses self.new ≡ shelf_misses self.old }
    {
        let Ok(key) = String::from_str(self.alloc, name) else {
            return Err(Memory);
        };
        let Ok(value) = Vec::from_slice(self.alloc, bytes) else {
            return Err(Memory);
        };
        match self.held.insert(key, value) {
            Ok(_) => Ok(()),
            Err(_) => Err(Memory),
        }
    }

    /// The bytes under the name.
    pub fn file(&self, name: &str) -> Option<&[u8]>
        ensures { MatchOption result (shelf_files self.now name.now ≡ None)
            (λ bytes. shelf_files self.now name.now ≡ Some bytes.now) }
    {
        self.held.get(name).map(|bytes| bytes.as_slice())
    }

    /// Puts all bytes behind those of the name, or none. Want of memory is a
    /// fault.
    fn extend(&mut self, name: &str, bytes: &[u8]) -> Result<(), Failed>
        requires { IsHeld (Some (shelf_files self.old)) name.now }
        ensures extended { OnOk result (IsExtended name.now bytes.now (shelf_files self.old) (shelf_files self.new)) }
        ensures kept { OnErr result (shelf_files self.new name.now ≡ shelf_files self.old name.now) }
        ensures others { OthersStay name.now (shelf_files self.old) (shelf_files self.new) }
        ensures counted { CountsWrite result (shelf_write_faults self.old) (shelf_write_faults self.new) }
        ensures no_fault { shelf_faults self.new ≡ shelf_faults self.old }
        ensures no_miss { shelf_misses self.new ≡ shelf_misses self.old }
        ensures same_calls { shelf_calls self.new ≡ shelf_calls self.old }
        ensures same_failing { shelf_failing self.new ≡ shelf_failing self.old }
    {
        match extend_file(&mut self.held, name, bytes) {
            Ok(()) => Ok(()),
            Err(_) => Err(self.failed_write()),
        }
    }

    /// Counts a failed write.
    fn failed_write(&mut self) -> Failed
        ensures counted { self.new ≡ record self.old { write_fault_count = one_more self.old.write_fault_count } }
        ensures never_falls { shelf_write_faults self.old ≤ shelf_write_faults self.new }
    {
        self.write_fault_count = self.write_fault_count.saturating_add(1);
        Failed
    }
}

/// Puts all bytes behind those of a name that is held, or none.
fn extend_file(
    held: &mut BTreeMap<String, Vec<u8>>,
    name: &str,
    bytes: &[u8],
) -> Result<(), AllocError>
    requires { IsSome (get_by_text held.old name.now) }
    ensures extended { OnOk result (IsExtended name.now bytes.now (files_of held.old) (files_of held.new)) }
    ensures kept { OnErr result (files_of held.new name.now ≡ files_of held.old name.now) }
    ensures others { OthersStay name.now (files_of held.old) (files_of held.new) }
{
    match held.get_mut(name) {
        Some(file) => file.extend_from_slice(bytes),
        None => unreachable!(),
    }
}

impl Shelf for MemoryShelf<'_> {
    ghost use Rattle.ports.specs.MemoryShelf.{shelf_files, shelf_failing, shelf_calls, shelf_faults, shelf_write_faults, shelf_misses, GainsHalf};

    ghost files = { λ s. Some (shelf_files s) };

    ghost faults = { λ s. s.fault_count };

    ghost write_faults = { λ s. s.write_fault_count };

    ghost misses = { λ s. s.miss_count };

    /// A call that does not fail gives as many bytes as the room and the bytes
    /// from the place on allow, and leaves the rest of `into`.
    fn read_at(&mut self, name: &str, at: u64, into: &mut [u8]) -> Result<usize, ShelfFault>
        ensures within { IfOk result (λ k. k ≤ length into.new) }
        ensures read { IfOk result (λ k. IsPartAt (Some (shelf_files self.old)) name.now at (length into.new)
            (take k into.new)) }
        ensures count { IfOk result (λ k. IfSome (shelf_files self.old name.now)
            (λ bytes. k ≡ min (length into.new) (length bytes - at))) }
        ensures rest { IfOk result (λ k. drop k into.new ≡ drop k into.old) }
        ensures no_fault { OnOk result (shelf_faults self.new ≡ shelf_faults self.old) }
        ensures no_miss { OnOk result (shelf_misses self.new ≡ shelf_misses self.old) }
        ensures no_write_fault { shelf_write_faults self.new ≡ shelf_write_faults self.old }

        // It fails exactly at the calls that are listed.
        ensures listed { IsErrOf result ShelfFault.Failed ↔ Contains (shelf_failing self.old) (shelf_calls self.new) }
        ensures none_listed { shelf_failing self.old ≡ [] → ¬ IsErrOf result ShelfFault.Failed }
        ensures failed { IsErrOf result ShelfFault.Failed → shelf_faults self.new ≡ one_more (shelf_faults self.old) }
        ensures failed_alone { IsErrOf result ShelfFault.Failed → shelf_misses self.new ≡ shelf_misses self.old }

        ensures missing { IsErrOf result ShelfFault.Missing
            → shelf_misses self.new ≡ one_more (shelf_misses self.old) × (shelf_files self.old name.now ≡ None) }
        ensures missing_alone { IsErrOf result ShelfFault.Missing → shelf_faults self.new ≡ shelf_faults self.old }

        ensures untouched { OnErr result (into.new ≡ into.old) }
        ensures kept { shelf_files self.new ≡ shelf_files self.old }
        ensures never_falls { shelf_faults self.old ≤ shelf_faults self.new }
        ensures misses_never_fall { shelf_misses self.old ≤ shelf_misses self.new }
        ensures calls { shelf_calls self.new ≡ one_more (shelf_calls self.old) }
        ensures same_failing { shelf_failing self.new ≡ shelf_failing self.old }
    {
        if self.calls.next_fails() {
            self.fault_count = self.fault_count.saturating_add(1);
            return Err(ShelfFault::Failed);
        }
        let Some(bytes) = self.held.get(name) else {
            self.miss_count = self.miss_count.saturating_add(1);
            return Err(ShelfFault::Missing);
        };
        Ok(copy_from(bytes.as_slice(), at, into))
    }

    /// A call that is listed changes nothing, nor does one that finds no memory.
    fn start(&mut self, name: &str) -> Result<(), Failed>
        ensures started { OnOk result (IsStarted name.now (shelf_files self.old) (shelf_files self.new)) }
        ensures kept { OnErr result (shelf_files self.new ≡ shelf_files self.old) }
        ensures others { OthersStay name.now (shelf_files self.old) (shelf_files self.new) }
        ensures listed { Contains (shelf_failing self.old) (shelf_calls self.new) → IsErr result }
        ensures counted { CountsWrite result (shelf_write_faults self.old) (shelf_write_faults self.new) }
        ensures no_fault { shelf_faults self.new ≡ shelf_faults self.old }
        ensures no_miss { shelf_misses self.new ≡ shelf_misses self.old }
        ensures calls { shelf_calls self.new ≡ one_more (shelf_calls self.old) }
        ensures same_failing { shelf_failing self.new ≡ shelf_failing self.old }
    {
        if self.calls.next_fails() {
            return Err(self.failed_write());
        }
        match self.add(name, &[]) {
            Ok(()) => Ok(()),
            Err(_) => Err(self.failed_write()),
        }
    }

    /// A call that is listed puts the first half of its bytes, rounded down.
    /// Where memory is wanting nothing is put, which is a fault of its own.
    fn append(&mut self, name: &str, bytes: &[u8]) -> Result<(), Failed>
        requires { IsHeld (Some (shelf_files self.old)) name.now }
        ensures appended { OnOk result (IsExtended name.now bytes.now (shelf_files self.old) (shelf_files self.new)) }
        ensures prefix { OnErr result (IsExtendedInPart name.now bytes.now (shelf_files self.old)
            (shelf_files self.new)) }
        ensures others { OthersStay name.now (shelf_files self.old) (shelf_files self.new) }
        ensures listed { Contains (shelf_failing self.old) (shelf_calls self.new) → IsErr result }
        ensures half { Contains (shelf_failing self.old) (shelf_calls self.new)
            → GainsHalf name.now bytes.now self.old self.new }
        ensures nothing { ¬ Contains (shelf_failing self.old) (shelf_calls self.new)
            → OnErr result (shelf_files self.new name.now ≡ shelf_files self.old name.now) }
        ensures counted { CountsWrite result (shelf_write_faults self.old) (shelf_write_faults self.new) }
        ensures no_fault { shelf_faults self.new ≡ shelf_faults self.old }
        ensures no_miss { shelf_misses self.new ≡ shelf_misses self.old }
        ensures calls { shelf_calls self.new ≡ one_more (shelf_calls self.old) }
        ensures same_failing { shelf_failing self.new ≡ shelf_failing self.old }
    {
        if self.calls.next_fails() {
            let _ = self.extend(name, &bytes[..bytes.len() / 2]);
            return Err(self.failed_write());
        }
        self.extend(name, bytes)
    }
}

/// Copies the bytes from a place on as far as there is room, and answers how
/// many.
fn copy_from(bytes: &[u8], at: u64, into: &mut [u8]) -> usize
    ensures count { result ≡ min (length into.new) (length bytes.now - at) }
    ensures copied { take result into.new ≡ take result (drop at bytes.now) }
    ensures rest { drop result into.new ≡ drop result into.old }
{
    let start = bytes.len().min(at as usize);
    let rest = &bytes[start..];
    let count = into.len().min(rest.len());
    into[..count].copy_from_slice(&rest[..count]);
    count
}
