//! Bytes that go to a writer.

ghost use Rattle.std.specs.Prelude.{◌≡◌, ◌≤◌, None, OnOk, OnErr, IsTrue, IsFalse};
ghost use Rattle.std.specs.Io.KnownBytes.{Appends};
ghost use Rattle.ports.specs.Outside.{GainsPart, one_more};

use crate::traits::Failed;
use crate::traits::sink::Sink;
use std::io::Write;

/// A writer as a sink. It tells no bytes, and counts each error of the writer,
/// and each write that takes nothing, as a fault.
///
/// It never flushes. std's standard output keeps no buffer, so all that was put
/// is out; the owner of a writer that does keep one takes it back by
/// `into_inner` and flushes it.
#[derive(Drop)]
pub struct StdSink<W: Write + Drop> {
    writer: W,
    fault_count: u64,
}

impl<W: Write + Drop> StdSink<W> {
    ghost use Rattle.ports.specs.Adapters.{sink_writer, writer_faults};

    /// Puts behind what the writer holds.
    pub fn new(writer: W) -> StdSink<W>
        ensures writer { sink_writer result ≡ writer }
        ensures faults { writer_faults result ≡ 0 }
    {
        StdSink {
            writer,
            fault_count: 0,
        }
    }

    /// Gives the writer back.
    pub fn into_inner(self) -> W
        ensures { result ≡ sink_writer self }
    {
        self.writer
    }
}

impl<W: Write + Drop> Sink for StdSink<W> {
    ghost use Rattle.ports.specs.Adapters.{sink_writer, writer_faults};

    ghost held = { λ _. None };

    ghost faults = { λ s. s.fault_count };

    /// Writes until the bytes are out. Where the writer's bytes are known,
    /// these come behind them.
    fn put(&mut self, bytes: &[u8]) -> Result<(), Failed>
        ensures appended { OnOk result (Appends (W.contents (sink_writer self.old))
            (W.contents (sink_writer self.new)) bytes.now) }
        ensures no_fault { OnOk result (writer_faults self.new ≡ writer_faults self.old) }
        ensures failed { OnErr result (writer_faults self.new ≡ one_more (writer_faults self.old)) }
        ensures prefix { OnErr result (GainsPart (W.contents (sink_writer self.old))
            (W.contents (sink_writer self.new)) bytes.now) }
        ensures never_falls { writer_faults self.old ≤ writer_faults self.new }
    {
        if write_out(&mut self.writer, bytes) {
            return Ok(());
        }
        self.fault_count = self.fault_count.saturating_add(1);
        Err(Failed)
    }
}

/// Writes until the bytes are out, and answers whether they all went.
pub(crate) fn write_out<W: Write>(writer: &mut W, bytes: &[u8]) -> bool
    ensures all { IsTrue result → Appends (W.contents writer.old) (W.contents writer.new) bytes.now }
    ensures part { IsFalse result → GainsPart (W.contents writer.old) (W.contents writer.new) bytes.now }
{
    let mut rest = bytes;
    while !rest.is_empty() {
        match writer.write(rest) {
            Ok(0) => return false,
            Ok(count) => rest = &rest[count..],
            Err(_) => return false,
        }
    }
    true
}
