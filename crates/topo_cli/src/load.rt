//! Loading the tables of a folder, or a built file.

ghost use Rattle.std.specs.Prelude.{◌≡◌, ◌≤◌, ◌++◌, IfOk, IfErr, IfSome, IsTrue, MatchOption, Ok, codes, length, string_bytes, true, ◌&&◌};
ghost use Rattle.std.specs.List.{list_all};
ghost use Rattle.ports.specs.Outside.{Files, IsNotHeld, Rose};
ghost use Rattle.plane_model.specs.InRange.{is_edge_in_range, is_face_id, is_id, is_in_range, is_none_or};
ghost use Rattle.plane_model.specs.Reading.{edge_rows, face_rows, member_rows, node_rows, region_rows};
ghost use Rattle.plane_model.specs.Rows.{rows_of};
ghost use Rattle.pemb_file.specs.Draft.{file_of_draft};
ghost use Rattle.topo_cli.specs.Files.{IsWhole};
ghost use Rattle.topo_cli.specs.Loading.{Builds, IsMetWhereTold, ShowsInCounts, IsStopped, MissesNothing, NamesFile, NamesNeeded, NamesOnly};
ghost use Rattle.topo_cli.specs.Limits.{most_bytes};
ghost use Rattle.topo_cli.specs.Tables.{loaded, opened, optional_table, served, table};
ghost use Rattle.topo_cli.specs.Words.{edge_table, face_table, member_table, node_table, region_table};

use crate::files::{FileFault, read_file};
use map_build::{BuildFault, draft};
use pemb_file::Draft;
use plane_model::{EdgeTable, FaceRow, MemberRow, NodeTable, RegionRow, Tables};
use ports::Shelf;
use std::alloc::{AllocError, Global};
use topo_base::Refusal;
use topo_csv::{CsvFault, read_edges, read_faces, read_members, read_nodes, read_regions};

/// Why tables or a file can't be loaded.
#[derive(Debug, Drop)]
pub enum LoadFault {
    /// No file is held under this name.
    Missing(String),
    /// A read failed.
    ReadFault,
    /// A table or the file has more bytes than the limit.
    TooLong,
    /// What is first wrong with the tables.
    Refused(Refusal),
    /// What is first wrong with the file.
    Unlawful(pemb_file::FileFault),
    /// An allocation failed.
    Memory,
}

impl From<AllocError> for LoadFault {
    ghost use Rattle.std.specs.Prelude.{◌≡◌};
    ghost use Rattle.topo_cli.specs.declared.load.LoadFault.TheVariants.{Memory};

    ghost from_gives = { λ _ e. e ≡ Memory };

    fn from(_error: AllocError) -> LoadFault {
        LoadFault::Memory
    }
}

impl From<CsvFault> for LoadFault {
    ghost use Rattle.topo_cli.specs.Loading.{IsSame};

    ghost from_gives = { IsSame };

    fn from(fault: CsvFault) -> LoadFault {
        match fault {
            CsvFault::Refused(why) => LoadFault::Refused(why),
            CsvFault::Memory => LoadFault::Memory,
        }
    }
}

impl From<BuildFault> for LoadFault {
    ghost use Rattle.topo_cli.specs.Loading.{IsSameBuild};

    ghost from_gives = { IsSameBuild };

    fn from(fault: BuildFault) -> LoadFault {
        match fault {
            BuildFault::Refused(why) => LoadFault::Refused(why),
            BuildFault::Memory => LoadFault::Memory,
        }
    }
}

/// The bytes of a table or a file.
pub fn held_bytes<H: Shelf>(
    alloc: Global,
    shelf: &mut H,
    name: String,
) -> Result<Vec<u8>, LoadFault>
    ensures whole { IfOk result (λ bytes. IsWhole (H.files shelf.old) (string_bytes name) bytes.items) }
    ensures short { IfOk result (λ bytes. length bytes.items ≤ most_bytes) }
    ensures named { IfErr result (NamesOnly (string_bytes name)) }
    ensures stopped { IfErr result (IsStopped (H.files shelf.old) (string_bytes name)) }
    ensures shown { IfErr result (λ e. ShowsInCounts e (H.misses shelf.old) (H.misses shelf.new) (H.faults shelf.old)
        (H.faults shelf.new)) }
    ensures kept { H.files shelf.new ≡ H.files shelf.old }
    ensures never_falls { H.faults shelf.old ≤ H.faults shelf.new }
    ensures misses_never_fall { H.misses shelf.old ≤ H.misses shelf.new }
    ensures no_write_fault { H.write_faults shelf.new ≡ H.write_faults shelf.old }
{
    match read_file(alloc, shelf, name.as_str()) {
        Ok(bytes) => Ok(bytes),
        Err(FileFault::Missing) => Err(LoadFault::Missing(name)),
        Err(FileFault::Failed) => Err(LoadFault::ReadFault),
        Err(FileFault::TooLong) => Err(LoadFault::TooLong),
        Err(FileFault::Memory) => Err(LoadFault::Memory),
    }
}

/// The bytes of a table that a folder may lack.
fn optional_bytes<H: Shelf>(
    alloc: Global,
    shelf: &mut H,
    name: String,
) -> Result<Option<Vec<u8>>, LoadFault>
    ensures whole { IfOk result (λ found. MatchOption found (IsNotHeld (H.files shelf.old) (string_bytes name))
        (λ bytes. IsWhole (H.files shelf.old) (string_bytes name) bytes.items)) }
    ensures short { IfOk result (λ found. IfSome found (λ bytes. length bytes.items ≤ most_bytes)) }
    ensures named { IfErr result MissesNothing }
    ensures stopped { IfErr result (IsStopped (H.files shelf.old) (string_bytes name)) }
    ensures shown { IfErr result (λ e. ShowsInCounts e (H.misses shelf.old) (H.misses shelf.new) (H.faults shelf.old)
        (H.faults shelf.new)) }
    ensures kept { H.files shelf.new ≡ H.files shelf.old }
    ensures never_falls { H.faults shelf.old ≤ H.faults shelf.new }
    ensures misses_never_fall { H.misses shelf.old ≤ H.misses shelf.new }
    ensures no_write_fault { H.write_faults shelf.new ≡ H.write_faults shelf.old }
{
    match held_bytes(alloc, shelf, name) {
        Ok(bytes) => Ok(Some(bytes)),
        Err(LoadFault::Missing(_)) => Ok(None),
        Err(fault) => Err(fault),
    }
}

/// The rows of a folder's node table.
fn load_nodes<H: Shelf>(alloc: Global, shelf: &mut H, dir: &str) -> Result<NodeTable, LoadFault>
    ensures rows { IfOk result (λ rows. IfSome (H.files shelf.old)
        (λ files. table node_rows files (node_table dir.now) ≡ Ok rows)) }
    ensures in_range { IfOk result (λ rows. IsTrue (list_all (λ r. is_id r.id
        && is_none_or is_face_id r.face) rows)) }
    ensures few { IfOk result (λ rows. length rows ≤ 16_777_216) }
    ensures ends { IfErr result (IsMetWhereTold (H.files shelf.old)
        (λ files. table node_rows files (node_table dir.now))) }
    ensures named { IfErr result (NamesOnly (node_table dir.now)) }
    ensures shown { IfErr result (λ e. ShowsInCounts e (H.misses shelf.old) (H.misses shelf.new) (H.faults shelf.old)
        (H.faults shelf.new)) }
    ensures kept { H.files shelf.new ≡ H.files shelf.old }
    ensures never_falls { H.faults shelf.old ≤ H.faults shelf.new }
    ensures misses_never_fall { H.misses shelf.old ≤ H.misses shelf.new }
    ensures no_write_fault { H.write_faults shelf.new ≡ H.write_faults shelf.old }
{
    let name = format!(in alloc; "{dir}/node.csv")?;
    let bytes = held_bytes(alloc, shelf, name)?;
    Ok(read_nodes(alloc, &bytes)?)
}

/// The rows of a folder's edge table.
fn load_edges<H: Shelf>(alloc: Global, shelf: &mut H, dir: &str) -> Result<EdgeTable, LoadFault>
    ensures rows { IfOk result (λ rows. IfSome (H.files shelf.old)
        (λ files. table edge_rows files (edge_table dir.now) ≡ Ok rows)) }
    ensures in_range { IfOk result (λ rows. IsTrue (list_all is_edge_in_range rows)) }
    ensures few { IfOk result (λ rows. length rows ≤ 16_777_216) }
    ensures ends { IfErr result (IsMetWhereTold (H.files shelf.old)
        (λ files. table edge_rows files (edge_table dir.now))) }
    ensures named { IfErr result (NamesOnly (edge_table dir.now)) }
    ensures shown { IfErr result (λ e. ShowsInCounts e (H.misses shelf.old) (H.misses shelf.new) (H.faults shelf.old)
        (H.faults shelf.new)) }
    ensures kept { H.files shelf.new ≡ H.files shelf.old }
    ensures never_falls { H.faults shelf.old ≤ H.faults shelf.new }
    ensures misses_never_fall { H.misses shelf.old ≤ H.misses shelf.new }
    ensures no_write_fault { H.write_faults shelf.new ≡ H.write_faults shelf.old }
{
    let name = format!(in alloc; "{dir}/edge.csv")?;
    let bytes = held_bytes(alloc, shelf, name)?;
    Ok(read_edges(alloc, &bytes)?)
}

/// The rows of a folder's face table.
fn load_faces<H: Shelf>(alloc: Global, shelf: &mut H, dir: &str) -> Result<Vec<FaceRow>, LoadFault>
    ensures rows { IfOk result (λ rows. IfSome (H.files shelf.old)
        (λ files. table face_rows files (face_table dir.now) ≡ Ok rows.items)) }
    ensures in_range { IfOk result (λ rows. IsTrue (list_all (λ r. is_face_id r.id) rows.items)) }
    ensures few { IfOk result (λ rows. length rows.items ≤ 16_777_216) }
    ensures ends { IfErr result (IsMetWhereTold (H.files shelf.old)
        (λ files. table face_rows files (face_table dir.now))) }
    ensures named { IfErr result (NamesOnly (face_table dir.now)) }
    ensures shown { IfErr result (λ e. ShowsInCounts e (H.misses shelf.old) (H.misses shelf.new) (H.faults shelf.old)
        (H.faults shelf.new)) }
    ensures kept { H.files shelf.new ≡ H.files shelf.old }
    ensures never_falls { H.faults shelf.old ≤ H.faults shelf.new }
    ensures misses_never_fall { H.misses shelf.old ≤ H.misses shelf.new }
    ensures no_write_fault { H.write_faults shelf.new ≡ H.write_faults shelf.old }
{
    let name = format!(in alloc; "{dir}/face.csv")?;
    let bytes = held_bytes(alloc, shelf, name)?;
    Ok(read_faces(alloc, &bytes)?)
}

/// The rows of a folder's region table, or none where it has no such table.
fn load_regions<H: Shelf>(
    alloc: Global,
    shelf: &mut H,
    dir: &str,
) -> Result<Vec<RegionRow>, LoadFault>
    ensures rows { IfOk result (λ rows. IfSome (H.files shelf.old)
        (λ files. optional_table region_rows files (region_table dir.now) ≡ Ok rows.items)) }
    ensures in_range { IfOk result (λ rows. IsTrue (list_all (λ r. is_id r.id
        && is_none_or is_id r.parent) rows.items)) }
    ensures few { IfOk result (λ rows. length rows.items ≤ 16_777_216) }
    ensures ends { IfErr result (IsMetWhereTold (H.files shelf.old)
        (λ files. optional_table region_rows files (region_table dir.now))) }
    ensures named { IfErr result MissesNothing }
    ensures shown { IfErr result (λ e. ShowsInCounts e (H.misses shelf.old) (H.misses shelf.new) (H.faults shelf.old)
        (H.faults shelf.new)) }
    ensures kept { H.files shelf.new ≡ H.files shelf.old }
    ensures never_falls { H.faults shelf.old ≤ H.faults shelf.new }
    ensures misses_never_fall { H.misses shelf.old ≤ H.misses shelf.new }
    ensures no_write_fault { H.write_faults shelf.new ≡ H.write_faults shelf.old }
{
    let name = format!(in alloc; "{dir}/region.csv")?;
    match optional_bytes(alloc, shelf, name)? {
        Some(bytes) => Ok(read_regions(alloc, &bytes)?),
        None => Ok(Vec::new(alloc)),
    }
}

/// The rows of a folder's member table, or none where it has no such table.
fn load_members<H: Shelf>(
    alloc: Global,
    shelf: &mut H,
    dir: &str,
) -> Result<Vec<MemberRow>, LoadFault>
    ensures rows { IfOk result (λ rows. IfSome (H.files shelf.old)
        (λ files. optional_table member_rows files (member_table dir.now) ≡ Ok rows.items)) }
    ensures in_range { IfOk result (λ rows. IsTrue (list_all (λ r. is_id r.region && is_face_id r.face) rows.items)) }
    ensures few { IfOk result (λ rows. length rows.items ≤ 16_777_217) }
    ensures ends { IfErr result (IsMetWhereTold (H.files shelf.old)
        (λ files. optional_table member_rows files (member_table dir.now))) }
    ensures named { IfErr result MissesNothing }
    ensures shown { IfErr result (λ e. ShowsInCounts e (H.misses shelf.old) (H.misses shelf.new) (H.faults shelf.old)
        (H.faults shelf.new)) }
    ensures kept { H.files shelf.new ≡ H.files shelf.old }
    ensures never_falls { H.faults shelf.old ≤ H.faults shelf.new }
    ensures misses_never_fall { H.misses shelf.old ≤ H.misses shelf.new }
    ensures no_write_fault { H.write_faults shelf.new ≡ H.write_faults shelf.old }
{
    let name = format!(in alloc; "{dir}/member.csv")?;
    match optional_bytes(alloc, shelf, name)? {
        Some(bytes) => Ok(read_members(alloc, &bytes)?),
        None => Ok(Vec::new(alloc)),
    }
}

/// The tables of a folder, in range. The region and the member table may be missing.
pub fn load_tables<H: Shelf>(alloc: Global, shelf: &mut H, dir: &str) -> Result<Tables, LoadFault>
    ensures loaded { IfOk result (λ tables. IfSome (H.files shelf.old)
        (λ files. loaded files dir.now ≡ Ok (rows_of tables))) }
    ensures in_range { IfOk result (λ tables. IsTrue (is_in_range (rows_of tables))) }
    ensures ends { IfErr result (IsMetWhereTold (H.files shelf.old) (λ files. loaded files dir.now)) }
    ensures named { IfErr result (NamesNeeded dir.now) }
    ensures shown { IfErr result (λ e. ShowsInCounts e (H.misses shelf.old) (H.misses shelf.new) (H.faults shelf.old)
        (H.faults shelf.new)) }
    ensures kept { H.files shelf.new ≡ H.files shelf.old }
    ensures never_falls { H.faults shelf.old ≤ H.faults shelf.new }
    ensures misses_never_fall { H.misses shelf.old ≤ H.misses shelf.new }
    ensures no_write_fault { H.write_faults shelf.new ≡ H.write_faults shelf.old }
{
    let nodes = load_nodes(alloc, shelf, dir)?;
    let edges = load_edges(alloc, shelf, dir)?;
    let faces = load_faces(alloc, shelf, dir)?;
    let regions = load_regions(alloc, shelf, dir)?;
    let members = load_members(alloc, shelf, dir)?;
    Ok(Tables {
        nodes,
        edges,
        faces,
        regions,
        members,
    })
}

/// A draft of the image of a folder's tables that are consistent.
pub fn load_draft<H: Shelf>(alloc: Global, shelf: &mut H, dir: &str) -> Result<Draft, LoadFault>
    ensures built { IfOk result (λ draft. Builds (H.files shelf.old) dir.now (file_of_draft draft)) }
    ensures ends { IfErr result (IsMetWhereTold (H.files shelf.old) (λ files. served files dir.now)) }
    ensures named { IfErr result (NamesNeeded dir.now) }
    ensures shown { IfErr result (λ e. ShowsInCounts e (H.misses shelf.old) (H.misses shelf.new) (H.faults shelf.old)
        (H.faults shelf.new)) }
    ensures kept { H.files shelf.new ≡ H.files shelf.old }
    ensures never_falls { H.faults shelf.old ≤ H.faults shelf.new }
    ensures misses_never_fall { H.misses shelf.old ≤ H.misses shelf.new }
    ensures no_write_fault { H.write_faults shelf.new ≡ H.write_faults shelf.old }
{
    let tables = load_tables(alloc, shelf, dir)?;
    Ok(draft(alloc, tables)?)
}

/// The bytes of a built file.
pub fn load_file<H: Shelf>(alloc: Global, shelf: &mut H, file: &str) -> Result<Vec<u8>, LoadFault>
    ensures whole { IfOk result (λ bytes. IsWhole (H.files shelf.old) file.now bytes.items) }
    ensures short { IfOk result (λ bytes. length bytes.items ≤ most_bytes) }
    ensures ends { IfErr result (IsMetWhereTold (H.files shelf.old) (λ files. opened files file.now)) }
    ensures named { IfErr result (NamesFile file.now) }
    ensures shown { IfErr result (λ e. ShowsInCounts e (H.misses shelf.old) (H.misses shelf.new) (H.faults shelf.old)
        (H.faults shelf.new)) }
    ensures kept { H.files shelf.new ≡ H.files shelf.old }
    ensures no_write_fault { H.write_faults shelf.new ≡ H.write_faults shelf.old }
{
    let name = String::from_str(alloc, file)?;
    held_bytes(alloc, shelf, name)
}
