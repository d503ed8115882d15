//! The fields of a row.

ghost use Rattle.std.specs.Prelude.{◌≡◌};
ghost use Rattle.topo_base.specs.Spelling.{id_number, positive_number, signed_number};
ghost use Rattle.plane_model.specs.Reading.{field, optional, required};
ghost use Rattle.topo_csv.specs.Lines.{line_of, optional_value, required_value, table_of};
ghost use Rattle.topo_csv.specs.Texts.{text_of};

use crate::field::Field;
use crate::header::Header;
use topo_base::{Column, IdNumber, Refusal, SignedNumber};

/// A record below a header.
#[derive(Clone, Copy)]
pub struct Line<'a> {
    pub header: &'a Header,
    /// The number of the row, from 1 on.
    pub row: u64,
    pub fields: &'a [Field<'a>],
}

impl<'a> Line<'a> {
    /// The field in a column, which is empty where there is none.
    fn field(&self, column: Column) -> Field<'a>
        ensures { text_of result ≡ field (line_of self.now) column }
    {
        let Some(place) = self.header.place(column) else {
            return Field::new(&[]);
        };
        match self.fields.get(place) {
            Some(field) => *field,
            None => Field::new(&[]),
        }
    }

    /// What was read of the field in a column, which has to be there.
    fn required<N: Copy>(
        &self,
        column: Column,
        found: &Field<'_>,
        number: Option<N>,
    ) -> Result<N, Refusal>
        requires { text_of found.now ≡ field (line_of self.now) column }
        ensures { result ≡ required_value (table_of self.now) (line_of self.now) column number }
    {
        let table = self.header.table;
        let row = self.row;
        if found.text().is_empty() {
            return Err(Refusal::EmptyNumber { table, row, column });
        }
        number.ok_or(Refusal::BadNumber { table, row, column })
    }

    /// What was read of the field in a column, or nothing where it is empty.
    fn optional<N: Copy>(
        &self,
        column: Column,
        found: &Field<'_>,
        number: Option<N>,
    ) -> Result<Option<N>, Refusal>
        requires { text_of found.now ≡ field (line_of self.now) column }
        ensures { result ≡ optional_value (table_of self.now) (line_of self.now) column number }
    {
        if found.text().is_empty() {
            return Ok(None);
        }
        Ok(Some(self.required(column, found, number)?))
    }

    /// The number from 0 on in a column that may not be NULL.
    pub fn id(&self, column: Column) -> Result<IdNumber, Refusal>
        ensures { result ≡ required id_number (table_of self.now) (line_of self.now) column }
    {
        let field = self.field(column);
        self.required(column, &field, field.id())
    }

    /// The same from 1 on.
    pub fn positive(&self, column: Column) -> Result<IdNumber, Refusal>
        ensures { result ≡ required positive_number (table_of self.now) (line_of self.now) column }
    {
        let field = self.field(column);
        self.required(column, &field, field.positive())
    }

    /// The same of a signed edge.
    pub fn signed(&self, column: Column) -> Result<SignedNumber, Refusal>
        ensures { result ≡ required signed_number (table_of self.now) (line_of self.now) column }
    {
        let field = self.field(column);
        self.required(column, &field, field.signed())
    }

    /// The number from 0 on in a column that may be NULL.
    pub fn optional_id(&self, column: Column) -> Result<Option<IdNumber>, Refusal>
        ensures { result ≡ optional id_number (table_of self.now) (line_of self.now) column }
    {
        let field = self.field(column);
        self.optional(column, &field, field.id())
    }

    /// The same from 1 on.
    pub fn optional_positive(&self, column: Column) -> Result<Option<IdNumber>, Refusal>
        ensures { result ≡ optional positive_number (table_of self.now) (line_of self.now) column }
    {
        let field = self.field(column);
        self.optional(column, &field, field.positive())
    }
}
