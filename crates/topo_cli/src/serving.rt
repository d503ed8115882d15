//! The script, answered from an opened file.

ghost use Rattle.navigate.specs.Bound.{served_map};
ghost use Rattle.topo_cli.specs.Call.{sink_call, source_call};
ghost use Rattle.topo_cli.specs.Serving.{IsServedAs};

use crate::image::words_for_marks;
use crate::status::Status;
use bit_words::Steps;
use pemb_file::Served;
use ports::{Sink, Source};
use scratch_region::Marks;
use std::alloc::Global;
use std::sync::ledger::Ledger;
use topo_serve::{ServeFault, serve};

/// Answers the script. All memory is taken before its first byte.
pub fn serve_script<S: Source, K: Sink, L: Ledger>(
    alloc: Global,
    served: Served<'_>,
    script: &mut S,
    out: &mut K,
    steps: &mut Steps<L>,
) -> Status
    ensures { IsServedAs (served_map served.entry) (source_call S.left S.faults script.old script.new)
        (sink_call K.held K.faults out.old out.new) steps.old steps.new result }
{
    let mut words = match words_for_marks(alloc, &served) {
        Ok(words) => words,
        Err(_) => return Status::Memory,
    };
    let mut marks = Marks::none(&mut words);
    match serve(served, &mut marks, script, out, steps) {
        Ok(()) => Status::Done,
        Err(ServeFault::ReadFault) => Status::ReadFault,
        Err(ServeFault::WriteFault) => Status::WriteFault,
        Err(ServeFault::ScriptTooLong) => Status::TooLong,
    }
}
