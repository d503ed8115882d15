//! The records of a table one by one.

ghost use Rattle.std.specs.Prelude.{◌≡◌, IfOk, true, [], ◌∷◌, map};
ghost use Rattle.csv.specs.Records.{fields_of};
ghost use Rattle.csv.specs.Reading.{default_config, records, strip_bom};
ghost use Rattle.topo_csv.specs.Left.{GivesNext, IsReading, left_in};
ghost use Rattle.topo_csv.specs.Texts.{text_of};

use crate::field::Field;
use csv::{ByteRecord, ErrorKind, Reader, ReaderBuilder};
use std::alloc::{AllocError, Global};

/// A reader that takes the header for a record like any other, and records of any length.
pub fn records(alloc: Global, bytes: &[u8]) -> Reader<&[u8]>
    ensures reading { IsReading result }
    ensures left { left_in result ≡ records default_config (strip_bom bytes.now) }
{
    ReaderBuilder::new()
        .has_headers(false)
        .flexible(true)
        .from_reader(alloc, bytes)
}

/// Takes the next record into `fields`, which is left empty at the end, and says whether there
/// was one.
pub fn next_record(reader: &mut Reader<&[u8]>, fields: &mut ByteRecord) -> Result<bool, AllocError>
    requires { IsReading reader.old }
    ensures reading { IfOk result (λ found. found ≡ true → IsReading reader.new) }
    ensures gives { IfOk result (λ found. GivesNext (left_in reader.old) found (fields_of fields.new)
        (left_in reader.new)) }
{
    let found = match reader.read_byte_record(fields) {
        Ok(found) => found,
        Err(e) => match e.kind() {
            // A slice has no io error: only memory can fail.
            ErrorKind::OutOfMemory | ErrorKind::Io(_) => return Err(AllocError),
            _ => unreachable!(),
        },
    };
    if !found {
        fields.clear();
    }
    Ok(found)
}

/// The fields of a record that the crate's reader gave.
pub fn fields_in<'a>(alloc: Global, row: &'a ByteRecord) -> Result<Vec<Field<'a>>, AllocError>
    ensures { IfOk result (λ fields. map text_of fields.items ≡ fields_of row.now) }
{
    let mut fields = Vec::with_capacity(alloc, row.len())?;
    for text in row {
        fields.push(Field::new(text))?;
    }
    Ok(fields)
}

/// The record of these fields.
pub fn record_of(alloc: Global, fields: &[Field<'_>]) -> Result<ByteRecord, AllocError>
    ensures { IfOk result (λ row. fields_of row ≡ map text_of fields.now) }
{
    let mut row = ByteRecord::new(alloc);
    for field in fields {
        row.push_field(field.text())?;
    }
    Ok(row)
}
