//! The lines that the program itself writes.

ghost use Rattle.std.specs.Prelude.{◌≡◌, ◌++◌, IfOk, string_bytes};
ghost use Rattle.plane_model.specs.Reading.{column_name as name_of_column};
ghost use Rattle.topo_cli.specs.Tables.{Ending};
ghost use Rattle.topo_cli.specs.Text.{status_line, file_fault_text, refusal_text, seq_text, shown_number, table_name as name_of_table};

use code_laws::SeqFault;
use pemb_file::FileFault;
use std::alloc::{AllocError, Global};
use topo_base::{Column, Refusal, Table};

fn table_name(table: Table) -> &'static str
    ensures { result.now ≡ name_of_table table }
{
    match table {
        Table::Node => "node",
        Table::Edge => "edge",
        Table::Face => "face",
        Table::Region => "region",
        Table::Member => "member",
    }
}

fn column_name(column: Column) -> &'static str
    ensures { result.now ≡ name_of_column column }
{
    match column {
        Column::NodeId => "node_id",
        Column::ContainingFace => "containing_face",
        Column::EdgeId => "edge_id",
        Column::StartNode => "start_node",
        Column::EndNode => "end_node",
        Column::NextLeftEdge => "next_left_edge",
        Column::NextRightEdge => "next_right_edge",
        Column::LeftFace => "left_face",
        Column::RightFace => "right_face",
        Column::FaceId => "face_id",
        Column::RegionId => "region_id",
        Column::Parent => "parent",
    }
}

/// A text and one more number field of 128 bits.
fn with_long_number(mut text: String, name: &str, number: u128) -> Result<String, AllocError>
    ensures { IfOk result (λ whole. string_bytes whole ≡ string_bytes text ++ shown_number name.now number) }
{
    write!(text, " {name}={number}")?;
    Ok(text)
}

/// A text and one more number field.
fn with_number(mut text: String, name: &str, number: u64) -> Result<String, AllocError>
    ensures { IfOk result (λ whole. string_bytes whole ≡ string_bytes text ++ shown_number name.now number) }
{
    write!(text, " {name}={number}")?;
    Ok(text)
}

/// The number of a refusal, and its fields.
fn refusal_text(alloc: Global, why: Refusal) -> Result<String, AllocError>
    ensures { IfOk result (λ text. string_bytes text ≡ refusal_text why) }
{
    match why {
        Refusal::ColumnMissing { table, column } => {
            let table = table_name(table);
            let column = column_name(column);
            format!(in alloc; "F1 table={table} column={column}")
        }
        Refusal::ColumnTwice { table, column } => {
            let table = table_name(table);
            let column = column_name(column);
            format!(in alloc; "F2 table={table} column={column}")
        }
        Refusal::RowShape {
            table,
            row,
            fields,
            wanted,
        } => {
            let table = table_name(table);
            let text = format!(in alloc; "F3 table={table} row={row}")?;
            let text = with_number(text, "fields", fields)?;
            with_number(text, "wanted", wanted)
        }
        Refusal::BadNumber { table, row, column } => {
            let table = table_name(table);
            let column = column_name(column);
            format!(in alloc; "F4 table={table} row={row} column={column}")
        }
        Refusal::EmptyNumber { table, row, column } => {
            let table = table_name(table);
            let column = column_name(column);
            format!(in alloc; "F5 table={table} row={row} column={column}")
        }
        Refusal::TooMany { table } => {
            let table = table_name(table);
            format!(in alloc; "F6 table={table}")
        }
        Refusal::IdTwice { table, id } => {
            let table = table_name(table);
            format!(in alloc; "F7 table={table} id={id}")
        }
        Refusal::NoNode { edge, node } => format!(in alloc; "F8 edge={edge} node={node}"),
        Refusal::NoEdge { edge, next } => format!(in alloc; "F9 edge={edge} next={next}"),
        Refusal::NoFace { table, id, face } => {
            let table = table_name(table);
            format!(in alloc; "F10 table={table} id={id} face={face}")
        }
        Refusal::WrongEnd { edge, next } => format!(in alloc; "F11 edge={edge} next={next}"),
        Refusal::NextTwice { next } => format!(in alloc; "F12 next={next}"),
        Refusal::SplitNode { node } => format!(in alloc; "F13 node={node}"),
        Refusal::NodeFace { node } => format!(in alloc; "F14 node={node}"),
        Refusal::MixedRing { edge, next } => format!(in alloc; "F15 edge={edge} next={next}"),
        Refusal::Euler {
            edge,
            nodes,
            edges,
            rings,
        } => {
            let text = format!(in alloc; "F16 edge={edge} nodes={nodes}")?;
            let text = with_number(text, "edges", edges)?;
            with_number(text, "rings", rings)
        }
        Refusal::FaceCycle {
            rings,
            faces,
            components,
        } => {
            let text = format!(in alloc; "F17 rings={rings} faces={faces}")?;
            with_number(text, "components", components)
        }
        Refusal::Unplaced { edge } => format!(in alloc; "F18 edge={edge}"),
        Refusal::BareFace { face } => format!(in alloc; "F19 face={face}"),
        Refusal::NoRegion { table, id, region } => {
            let table = table_name(table);
            format!(in alloc; "F20 table={table} id={id} region={region}")
        }
        Refusal::RegionCycle { region } => format!(in alloc; "F21 region={region}"),
        Refusal::MemberTwice { face } => format!(in alloc; "F22 face={face}"),
    }
}

/// The line that says that a needed file is not held.
pub fn missing_text(alloc: Global, name: &str) -> Result<String, AllocError>
    ensures { IfOk result (λ text. string_bytes text ≡ status_line (Ending.Missing name.now)) }
{
    format!(in alloc; "missing {name}\n")
}

/// The line that says why tables are refused.
pub fn refused_text(alloc: Global, why: Refusal) -> Result<String, AllocError>
    ensures { IfOk result (λ text. string_bytes text ≡ status_line (Ending.Refused why)) }
{
    let refusal = refusal_text(alloc, why)?;
    format!(in alloc; "refused {refusal}\n")
}

/// What stands of a fault of the sequences behind its number.
fn seq_fault_text(alloc: Global, why: SeqFault) -> Result<String, AllocError>
    ensures { IfOk result (λ text. string_bytes text ≡ seq_text why) }
{
    match why {
        SeqFault::Starts { index } => format!(in alloc; " starts index={index}"),
        SeqFault::Ones { found } => format!(in alloc; " ones found={found}"),
        SeqFault::Tree { component } => format!(in alloc; " tree component={component}"),
        SeqFault::Dual { component } => format!(in alloc; " dual component={component}"),
    }
}

/// The number of a fault of a file, and its fields.
fn file_fault_text(alloc: Global, why: FileFault) -> Result<String, AllocError>
    ensures { IfOk result (λ text. string_bytes text ≡ file_fault_text why) }
{
    match why {
        FileFault::NotWords { bytes } => format!(in alloc; "G1 bytes={bytes}"),
        FileFault::NotPemb { words } => format!(in alloc; "G2 words={words}"),
        FileFault::UnknownForm { form } => format!(in alloc; "G3 form={form}"),
        FileFault::Length { want, have } => {
            let text = String::from_str(alloc, "G4")?;
            let text = with_long_number(text, "want", want)?;
            with_number(text, "have", have)
        }
        FileFault::Digest { at } => format!(in alloc; "G5 at={at}"),
        FileFault::Count { word, found } => format!(in alloc; "G6 word={word} found={found}"),
        FileFault::Sequence(why) => {
            let fault = seq_fault_text(alloc, why)?;
            format!(in alloc; "G7{fault}")
        }
        FileFault::Directory {
            section,
            at,
            want,
            found,
        } => {
            let text = format!(in alloc; "G8 section={section} at={at}")?;
            let text = with_number(text, "want", want)?;
            with_number(text, "found", found)
        }
        FileFault::Name { section, at } => format!(in alloc; "G9 section={section} at={at}"),
        FileFault::Place { section, at } => format!(in alloc; "G10 section={section} at={at}"),
        FileFault::Start { component } => format!(in alloc; "G11 component={component}"),
        FileFault::RegionPart { section, at } => {
            format!(in alloc; "G12 section={section} at={at}")
        }
        FileFault::Padding { word } => format!(in alloc; "G13 word={word}"),
    }
}

/// The line that tells why a file is refused.
pub fn unlawful_text(alloc: Global, why: FileFault) -> Result<String, AllocError>
    ensures { IfOk result (λ text. string_bytes text ≡ status_line (Ending.Unlawful why)) }
{
    let fault = file_fault_text(alloc, why)?;
    format!(in alloc; "refused {fault}\n")
}
