//! The tables of an opened file, written to a folder.

ghost use Rattle.std.specs.Prelude.{◌≡◌, ◌≤◌, ◌+◌, IfOk, OnErr, OnOk, length, string_bytes};
ghost use Rattle.ports.specs.Outside.{Rose, WhereTold};
ghost use Rattle.pemb_file.specs.Served.{contents_of_view};
ghost use Rattle.navigate.specs.Bound.{served_map};
ghost use Rattle.table_dump.specs.Ahead.{words_to_dump};
ghost use Rattle.table_dump.specs.Dumped.{AreWritten, AreWrittenInPart};
ghost use Rattle.table_dump.specs.Prices.{most_dump_words};
ghost use Rattle.topo_cli.specs.Dumping.{AreTableNames};
ghost use Rattle.topo_cli.specs.Outcome.{folder_of};

use bit_words::Steps;
use pemb_file::Served;
use ports::{Failed, Shelf};
use std::alloc::{AllocError, Global};
use std::sync::ledger::Ledger;
use table_dump::{DumpFault, DumpNames, dump, words_to_dump};

/// The names of a folder's tables.
#[derive(Drop)]
pub struct TableNames {
    node: String,
    edge: String,
    face: String,
    region: String,
    member: String,
}

/// The names of a folder's tables.
pub fn table_names(alloc: Global, dir: &str) -> Result<TableNames, AllocError>
    ensures { IfOk result (AreTableNames dir.now) }
{
    let node = format!(in alloc; "{dir}/node.csv")?;
    let edge = format!(in alloc; "{dir}/edge.csv")?;
    let face = format!(in alloc; "{dir}/face.csv")?;
    let region = format!(in alloc; "{dir}/region.csv")?;
    let member = format!(in alloc; "{dir}/member.csv")?;
    Ok(TableNames {
        node,
        edge,
        face,
        region,
        member,
    })
}

/// The words that a dump is lent.
pub fn words_for_dump(alloc: Global, served: Served<'_>) -> Result<Vec<u64>, AllocError>
    ensures room { IfOk result (λ words. words_to_dump (contents_of_view served.entry) ≤ length words.items) }
    ensures few { IfOk result (λ words. length words.items ≤ 2147483647) }
{
    vec![in alloc; 0; words_to_dump(served)]
}

/// Writes the tables of an opened file's map to a folder, one after the other, over lent words. No memory is taken.
pub fn write_tables<H: Shelf, L: Ledger>(
    served: Served<'_>,
    dir: &str,
    names: &TableNames,
    words: &mut [u64],
    shelf: &mut H,
    steps: &mut Steps<L>,
) -> Result<(), Failed>
    requires names { AreTableNames dir.now names.now }
    requires room { words_to_dump (contents_of_view served) ≤ length words.old }
    requires few { length words.old ≤ 2147483647 }
    ensures written { OnOk result (WhereTold (AreWritten (folder_of dir.now (served_map served.entry)))
        (H.files shelf.old) (H.files shelf.new)) }
    ensures part { OnErr result (WhereTold (AreWrittenInPart (folder_of dir.now (served_map served.entry)))
        (H.files shelf.old) (H.files shelf.new)) }
    ensures rose { OnErr result (Rose (H.write_faults shelf.old) (H.write_faults shelf.new)) }
    ensures least { OnOk result (steps.old + length (served_map served.entry).edges.keys ≤ steps.new) }
    ensures most { steps.new ≤ steps.old + most_dump_words (served_map served.entry) }
    ensures grows { steps.old ≤ steps.new }
{
    let _dir = dir;
    let node = names.node.as_str();
    let edge = names.edge.as_str();
    let face = names.face.as_str();
    let region = names.region.as_str();
    let member = names.member.as_str();
    let names = DumpNames {
        node,
        edge,
        face,
        region,
        member,
    };
    match dump(served, names, words, shelf, steps) {
        Ok(()) => Ok(()),
        Err(DumpFault::WriteFault) => Err(Failed),
    }
}
