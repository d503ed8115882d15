//! The five tables of an opened file, written under five names.

ghost use Rattle.std.specs.Prelude.{◌≡◌, ◌≤◌, ◌+◌, length, OnErr, OnOk};
ghost use Rattle.ports.specs.Outside.{CountsWrite, WhereTold};
ghost use Rattle.pemb_file.specs.Served.{contents_of_view};
ghost use Rattle.navigate.specs.Bound.{served_map};
ghost use Rattle.table_dump.specs.Ahead.{words_to_dump};
ghost use Rattle.table_dump.specs.Dumped.{AreApart, AreWritten, AreWrittenInPart, dumped_files, names_in};
ghost use Rattle.table_dump.specs.Prices.{most_dump_words};

use crate::fault::DumpFault;
use crate::file_names::DumpNames;
use crate::gathered::Gathered;
use crate::table::write_table;
use bit_words::Steps;
use pemb_file::Served;
use ports::{Failed, Shelf};
use std::sync::ledger::Ledger;
use topo_base::Table;

/// Writes the five tables, one after the other.
fn write_tables<H: Shelf, C: Ledger>(
    served: Served<'_>,
    names: DumpNames<'_>,
    words: &mut [u64],
    shelf: &mut H,
    steps: &mut Steps<C>,
) -> Result<(), Failed>
    requires apart { AreApart (names_in names) }
    requires room { words_to_dump (contents_of_view served) ≤ length words.old }
    requires few { length words.old ≤ 2147483647 }
    ensures written { OnOk result (WhereTold (AreWritten (dumped_files names.entry (served_map served.entry)))
        (H.files shelf.old) (H.files shelf.new)) }
    ensures part { OnErr result (WhereTold (AreWrittenInPart (dumped_files names.entry (served_map served.entry)))
        (H.files shelf.old) (H.files shelf.new)) }
    ensures counted { CountsWrite result (H.write_faults shelf.old) (H.write_faults shelf.new) }
    ensures no_fault { H.faults shelf.new ≡ H.faults shelf.old }
    ensures no_miss { H.misses shelf.new ≡ H.misses shelf.old }
    ensures least { OnOk result (steps.old + length (served_map served.entry).edges.keys ≤ steps.new) }
    ensures grows { steps.old ≤ steps.new }
    ensures paid { steps.new ≤ steps.old + most_dump_words (served_map served.entry) }
{
    let mut text = Gathered::new();
    write_table(
        served,
        Table::Node,
        names.node,
        words,
        shelf,
        &mut text,
        steps,
    )?;
    write_table(
        served,
        Table::Edge,
        names.edge,
        words,
        shelf,
        &mut text,
        steps,
    )?;
    write_table(
        served,
        Table::Face,
        names.face,
        words,
        shelf,
        &mut text,
        steps,
    )?;
    write_table(
        served,
        Table::Region,
        names.region,
        words,
        shelf,
        &mut text,
        steps,
    )?;
    write_table(
        served,
        Table::Member,
        names.member,
        words,
        shelf,
        &mut text,
        steps,
    )
}

/// Writes the tables of an opened file's map under five names that differ, rows rising by id and members by face, each
/// in place of what its name held. After a fault the tables before one of them are written, in the order of the names,
/// and of that one nothing or a part: its name holds what it held, or nothing, or a front of its text. All other names
/// stay as they are. The lent words are for what is read ahead, table by table.
pub fn dump<H: Shelf, C: Ledger>(
    served: Served<'_>,
    names: DumpNames<'_>,
    words: &mut [u64],
    shelf: &mut H,
    steps: &mut Steps<C>,
) -> Result<(), DumpFault>
    requires apart { AreApart (names_in names) }
    requires room { words_to_dump (contents_of_view served) ≤ length words.old }
    requires few { length words.old ≤ 2147483647 }
    ensures written { OnOk result (WhereTold (AreWritten (dumped_files names.entry (served_map served.entry)))
        (H.files shelf.old) (H.files shelf.new)) }
    ensures part { OnErr result (WhereTold (AreWrittenInPart (dumped_files names.entry (served_map served.entry)))
        (H.files shelf.old) (H.files shelf.new)) }
    ensures counted { CountsWrite result (H.write_faults shelf.old) (H.write_faults shelf.new) }
    ensures no_fault { H.faults shelf.new ≡ H.faults shelf.old }
    ensures no_miss { H.misses shelf.new ≡ H.misses shelf.old }
    ensures least { OnOk result (steps.old + length (served_map served.entry).edges.keys ≤ steps.new) }
    ensures grows { steps.old ≤ steps.new }
    ensures paid { steps.new ≤ steps.old + most_dump_words (served_map served.entry) }
{
    match write_tables(served, names, words, shelf, steps) {
        Ok(()) => Ok(()),
        Err(Failed) => Err(DumpFault::WriteFault),
    }
}
