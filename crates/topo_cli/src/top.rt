//! The top call.

ghost use Rattle.std.specs.Prelude.{◌≤◌, Some, map, string_bytes};
ghost use Rattle.topo_cli.specs.Call.{IsIdle, IsUntouched, ShelfCall, SourceCall, call_of, shelf_call, sink_call, source_call};
ghost use Rattle.topo_cli.specs.Ended.{EndsLoading, IsTold};
ghost use Rattle.topo_cli.specs.Outcome.{IsPromised};
ghost use Rattle.topo_cli.specs.Words.{Form, form};

use crate::command::{Command, command_of};
use crate::counting::line_of_counts;
use crate::dumping::{table_names, words_for_dump, write_tables};
use crate::files::write_file;
use crate::hopping::hops_line;
use crate::image::open_draft;
use crate::lines::{missing_text, refused_text, unlawful_text};
use crate::load::{LoadFault, load_draft, load_file};
use crate::serving::serve_script;
use crate::status::Status;
use crate::trial::{grid_draft, trial_lines};
use bit_words::Steps;
use file_parts::upgraded;
use outline_text::border_text;
use pemb_file::{Served, open};
use ports::{Failed, Shelf, Sink, Source};
use std::alloc::Global;
use std::sync::ledger::Ledger;
use topo_base::{FaceId, RegionId};

/// Writes the line of a status, and ends with that status.
fn tell<K: Sink>(out: &mut K, line: &[u8], status: Status) -> Status
    ensures { IsTold line.now status result (sink_call K.held K.faults out.old out.new) }
{
    match out.put(line) {
        Ok(()) => status,
        Err(Failed) => Status::WriteFault,
    }
}

/// Tells why tables or a file can't be loaded.
fn end_loading<K: Sink>(alloc: Global, fault: LoadFault, out: &mut K) -> Status
    ensures { EndsLoading fault result (sink_call K.held K.faults out.old out.new) }
{
    match fault {
        LoadFault::Missing(name) => match missing_text(alloc, name.as_str()) {
            Ok(line) => tell(out, line.as_bytes(), Status::Missing),
            Err(_) => Status::Memory,
        },
        LoadFault::ReadFault => Status::ReadFault,
        LoadFault::TooLong => Status::TooLong,
        LoadFault::Refused(why) => match refused_text(alloc, why) {
            Ok(line) => tell(out, line.as_bytes(), Status::TablesRefused),
            Err(_) => Status::Memory,
        },
        LoadFault::Unlawful(why) => match unlawful_text(alloc, why) {
            Ok(line) => tell(out, line.as_bytes(), Status::FileRefused),
            Err(_) => Status::Memory,
        },
        LoadFault::Memory => Status::Memory,
    }
}

/// Answers the script from the tables of a folder: from the image of their map, opened.
fn ask<H: Shelf, S: Source, K: Sink, L: Ledger>(
    alloc: Global,
    dir: &str,
    shelf: &mut H,
    script: &mut S,
    out: &mut K,
    steps: &mut Steps<L>,
) -> Status
    ensures { IsPromised (call_of (Some (Form.Ask dir.now)) (shelf_call H.files H.misses H.faults H.write_faults
        shelf.old shelf.new) (source_call S.left S.faults script.old script.new)
        (sink_call K.held K.faults out.old out.new) steps.old steps.new) result }
{
    let draft = match load_draft(alloc, shelf, dir) {
        Ok(draft) => draft,
        Err(fault) => return end_loading(alloc, fault, out),
    };
    let opened = open_draft(&draft, steps);
    let served = Served::of(&opened);
    serve_script(alloc, served, script, out, steps)
}

/// Writes the image of a folder's tables to a file.
fn build_file<H: Shelf, K: Sink, L: Ledger>(
    alloc: Global,
    dir: &str,
    file: &str,
    shelf: &mut H,
    out: &mut K,
    steps: &mut Steps<L>,
) -> Status
    ensures { (script : SourceCall) → IsIdle script
        → IsPromised (call_of (Some (Form.Build dir.now file.now))
        (shelf_call H.files H.misses H.faults H.write_faults shelf.old shelf.new) script
        (sink_call K.held K.faults out.old out.new) steps.old steps.new) result }
{
    let draft = match load_draft(alloc, shelf, dir) {
        Ok(draft) => draft,
        Err(why) => return end_loading(alloc, why, out),
    };
    let opened = open_draft(&draft, steps);
    let served = Served::of(&opened);
    let line = match line_of_counts(alloc, "built", &served) {
        Ok(line) => line,
        Err(_) => return Status::Memory,
    };
    let image = draft.seal();
    match write_file(shelf, file, &image) {
        Ok(()) => tell(out, &line, Status::Done),
        Err(Failed) => Status::WriteFault,
    }
}

/// Answers the script from a file.
fn query_file<H: Shelf, S: Source, K: Sink, L: Ledger>(
    alloc: Global,
    file: &str,
    shelf: &mut H,
    script: &mut S,
    out: &mut K,
    steps: &mut Steps<L>,
) -> Status
    ensures { IsPromised (call_of (Some (Form.Query file.now))
        (shelf_call H.files H.misses H.faults H.write_faults shelf.old shelf.new)
        (source_call S.left S.faults script.old script.new)
        (sink_call K.held K.faults out.old out.new) steps.old steps.new) result }
{
    let bytes = match load_file(alloc, shelf, file) {
        Ok(bytes) => bytes,
        Err(why) => return end_loading(alloc, why, out),
    };
    match open(&bytes, steps) {
        Ok(opened) => serve_script(alloc, Served::of(&opened), script, out, steps),
        Err(why) => end_loading(alloc, LoadFault::Unlawful(why), out),
    }
}

/// Tells whether a file is lawful.
fn check_file<H: Shelf, K: Sink, L: Ledger>(
    alloc: Global,
    file: &str,
    shelf: &mut H,
    out: &mut K,
    steps: &mut Steps<L>,
) -> Status
    ensures { (script : SourceCall) → IsIdle script
        → IsPromised (call_of (Some (Form.Check file.now)) (shelf_call H.files H.misses H.faults H.write_faults
        shelf.old shelf.new) script (sink_call K.held K.faults out.old out.new) steps.old steps.new) result }
{
    let bytes = match load_file(alloc, shelf, file) {
        Ok(bytes) => bytes,
        Err(why) => return end_loading(alloc, why, out),
    };
    let opened = match open(&bytes, steps) {
        Ok(opened) => opened,
        Err(why) => return end_loading(alloc, LoadFault::Unlawful(why), out),
    };
    let served = Served::of(&opened);
    match line_of_counts(alloc, "lawful", &served) {
        Ok(line) => tell(out, &line, Status::Done),
        Err(_) => Status::Memory,
    }
}

/// Tells the shortest walk from one face of a file to another.
fn hops<H: Shelf, K: Sink, L: Ledger>(
    alloc: Global,
    file: &str,
    from: FaceId,
    to: FaceId,
    shelf: &mut H,
    out: &mut K,
    steps: &mut Steps<L>,
) -> Status
    ensures { (script : SourceCall) → IsIdle script
        → IsPromised (call_of (Some (Form.Hops file.now from.0 to.0))
        (shelf_call H.files H.misses H.faults H.write_faults shelf.old shelf.new) script
        (sink_call K.held K.faults out.old out.new) steps.old steps.new) result }
{
    let bytes = match load_file(alloc, shelf, file) {
        Ok(bytes) => bytes,
        Err(why) => return end_loading(alloc, why, out),
    };
    let opened = match open(&bytes, steps) {
        Ok(opened) => opened,
        Err(why) => return end_loading(alloc, LoadFault::Unlawful(why), out),
    };
    let served = Served::of(&opened);
    match hops_line(alloc, served, from, to, steps) {
        Ok(line) => tell(out, &line, Status::Done),
        Err(_) => Status::Memory,
    }
}

/// Tells the outline of a region of a file.
fn border<H: Shelf, K: Sink, L: Ledger>(
    alloc: Global,
    file: &str,
    region: RegionId,
    shelf: &mut H,
    out: &mut K,
    steps: &mut Steps<L>,
) -> Status
    ensures { (script : SourceCall) → IsIdle script → IsPromised (call_of (Some (Form.Border file.now region.0))
        (shelf_call H.files H.misses H.faults H.write_faults shelf.old shelf.new) script
        (sink_call K.held K.faults out.old out.new) steps.old steps.new) result }
{
    let bytes = match load_file(alloc, shelf, file) {
        Ok(bytes) => bytes,
        Err(why) => return end_loading(alloc, why, out),
    };
    let opened = match open(&bytes, steps) {
        Ok(opened) => opened,
        Err(why) => return end_loading(alloc, LoadFault::Unlawful(why), out),
    };
    let served = Served::of(&opened);
    match border_text(alloc, served, region, steps) {
        Ok(text) => tell(out, &text, Status::Done),
        Err(_) => Status::Memory,
    }
}

/// Writes the file of form 2 that stands for the map of a file. All memory is taken before the first write.
fn upgrade<H: Shelf, K: Sink, L: Ledger>(
    alloc: Global,
    old_file: &str,
    new_file: &str,
    shelf: &mut H,
    out: &mut K,
    steps: &mut Steps<L>,
) -> Status
    ensures { (script : SourceCall) → IsIdle script
        → IsPromised (call_of (Some (Form.Upgrade old_file.now new_file.now))
        (shelf_call H.files H.misses H.faults H.write_faults shelf.old shelf.new) script
        (sink_call K.held K.faults out.old out.new) steps.old steps.new) result }
{
    let bytes = match load_file(alloc, shelf, old_file) {
        Ok(bytes) => bytes,
        Err(why) => return end_loading(alloc, why, out),
    };
    let opened = match open(&bytes, steps) {
        Ok(opened) => opened,
        Err(why) => return end_loading(alloc, LoadFault::Unlawful(why), out),
    };
    let served = Served::of(&opened);
    let line = match line_of_counts(alloc, "upgraded", &served) {
        Ok(line) => line,
        Err(_) => return Status::Memory,
    };
    let image = match upgraded(alloc, served, steps) {
        Ok(image) => image,
        Err(_) => return Status::Memory,
    };
    match write_file(shelf, new_file, &image) {
        Ok(()) => tell(out, &line, Status::Done),
        Err(Failed) => Status::WriteFault,
    }
}

/// Writes the tables of a file to a folder. All memory is taken before the first write.
fn dump<H: Shelf, K: Sink, L: Ledger>(
    alloc: Global,
    file: &str,
    dir: &str,
    shelf: &mut H,
    out: &mut K,
    steps: &mut Steps<L>,
) -> Status
    ensures { (script : SourceCall) → IsIdle script
        → IsPromised (call_of (Some (Form.Dump file.now dir.now))
        (shelf_call H.files H.misses H.faults H.write_faults shelf.old shelf.new) script
        (sink_call K.held K.faults out.old out.new) steps.old steps.new) result }
{
    let bytes = match load_file(alloc, shelf, file) {
        Ok(bytes) => bytes,
        Err(why) => return end_loading(alloc, why, out),
    };
    let opened = match open(&bytes, steps) {
        Ok(opened) => opened,
        Err(why) => return end_loading(alloc, LoadFault::Unlawful(why), out),
    };
    let served = Served::of(&opened);
    let line = match line_of_counts(alloc, "dumped", &served) {
        Ok(line) => line,
        Err(_) => return Status::Memory,
    };
    let names = match table_names(alloc, dir) {
        Ok(names) => names,
        Err(_) => return Status::Memory,
    };
    let mut words = match words_for_dump(alloc, served) {
        Ok(words) => words,
        Err(_) => return Status::Memory,
    };
    match write_tables(served, dir, &names, &mut words, shelf, steps) {
        Ok(()) => tell(out, &line, Status::Done),
        Err(Failed) => Status::WriteFault,
    }
}

/// Tells the sums of the walks over a grid.
fn trial<K: Sink, L: Ledger>(alloc: Global, size: u32, out: &mut K, steps: &mut Steps<L>) -> Status
    requires some { 1 ≤ size }
    requires size { size ≤ 1000 }
    ensures { (shelf : ShelfCall) (script : SourceCall) → IsUntouched shelf → IsIdle script
        → IsPromised (call_of (Some (Form.Trial size)) shelf script
        (sink_call K.held K.faults out.old out.new) steps.old steps.new) result }
{
    let draft = match grid_draft(alloc, size) {
        Ok(draft) => draft,
        Err(why) => return end_loading(alloc, why, out),
    };
    let opened = open_draft(&draft, steps);
    let served = Served::of(&opened);
    match trial_lines(alloc, size, served, steps) {
        Ok(text) => tell(out, &text, Status::Done),
        Err(_) => Status::Memory,
    }
}

/// Does what the words ask, and ends with the status that says how it went. What is read of a file or an image is
/// counted.
pub fn run<H: Shelf, S: Source, K: Sink, L: Ledger>(
    alloc: Global,
    words: &[String],
    shelf: &mut H,
    script: &mut S,
    out: &mut K,
    steps: &mut Steps<L>,
) -> Status
    ensures { IsPromised (call_of (form (map string_bytes words.now))
        (shelf_call H.files H.misses H.faults H.write_faults shelf.old shelf.new)
        (source_call S.left S.faults script.old script.new)
        (sink_call K.held K.faults out.old out.new) steps.old steps.new) result }
{
    match command_of(words) {
        Some(Command::Ask { dir }) => ask(alloc, dir, shelf, script, out, steps),
        Some(Command::Build { dir, file }) => build_file(alloc, dir, file, shelf, out, steps),
        Some(Command::Query { file }) => query_file(alloc, file, shelf, script, out, steps),
        Some(Command::Check { file }) => check_file(alloc, file, shelf, out, steps),
        Some(Command::Trial { size }) => trial(alloc, size, out, steps),
        Some(Command::Hops { file, from, to }) => hops(alloc, file, from, to, shelf, out, steps),
        Some(Command::Border { file, region }) => border(alloc, file, region, shelf, out, steps),
        Some(Command::Upgrade { old, new }) => upgrade(alloc, old, new, shelf, out, steps),
        Some(Command::Dump { file, dir }) => dump(alloc, file, dir, shelf, out, steps),
        None => tell(out, b"usage\n", Status::Usage),
    }
}
