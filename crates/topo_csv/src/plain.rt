//! The records of a table without quotes, where a comma ends each field but the last, and the end of the line that.

ghost use Rattle.std.specs.Prelude.{◌≡◌, ◌<◌, ◌≤◌, ◌^◌, IfOk, IfSome, IsTrue, MatchOption, Some, [], ◌∷◌, length, map, take};
ghost use Rattle.std.specs.List.{position_or_len};
ghost use Rattle.csv.specs.Machine.{next_record};
ghost use Rattle.csv.specs.Reading.{default_config, records, strip_bom};
ghost use Rattle.csv.specs.declared.parser.State.TheVariants as state;
ghost use Rattle.topo_base.specs.Spelling.{digits_behind};
ghost use Rattle.topo_csv.specs.Plain.{begins_record, ends_field, ends_line, has_no_quote, is_end_before, IsCut};
ghost use Rattle.topo_csv.specs.Texts.{text_of};

use crate::field::Field;
use std::alloc::AllocError;
use topo_base::IdNumber;

/// So many digits make a number in range, whatever they are.
const MOST_DIGITS: usize = 18;

/// The byte order mark in UTF-8.
const MARK: [u8; 3] = [0xEF, 0xBB, 0xBF];

/// Digits at the front of some bytes.
#[derive(Clone, Copy)]
struct Digits {
    count: usize,
    /// The number that they make.
    number: IdNumber,
}

/// The digits at the front of some bytes, no more than `MOST_DIGITS`.
fn front_digits(bytes: &[u8]) -> Digits
    ensures within { result.count ≤ length bytes.now }
    ensures spelled { digits_behind 0 (take result.count bytes.now) ≡ Some result.number }
    ensures small { result.number < 10 ^ 18 }
{
    let most = bytes.len().min(MOST_DIGITS);
    let mut count = 0;
    let mut number = 0;
    while count < most && bytes[count].is_ascii_digit() {
        number = 10 * number + IdNumber::from(bytes[count] - b'0');
        count += 1;
    }
    Digits { count, number }
}

/// Whether a byte ends a line.
fn ends_line(byte: u8) -> bool
    ensures { result ≡ ends_line byte }
{
    byte == b'\r' || byte == b'\n'
}

/// Whether a byte ends a field.
fn ends_field(byte: u8) -> bool
    ensures { result ≡ ends_field byte }
{
    byte == b',' || ends_line(byte)
}

/// Whether a field ends in front of these bytes.
fn is_end(bytes: &[u8]) -> bool
    ensures { result ≡ is_end_before bytes.now }
{
    match bytes {
        [] => true,
        [byte, ..] => ends_field(*byte),
    }
}

/// How many bytes come before the end of a field.
fn field_len(bytes: &[u8]) -> usize
    ensures { result ≡ position_or_len ends_field bytes.now }
{
    let mut len = 0;
    while len < bytes.len() && !ends_field(bytes[len]) {
        len += 1;
    }
    len
}

/// A field, and the bytes behind it.
#[derive(Clone, Copy)]
struct Cut<'a> {
    field: Field<'a>,
    behind: &'a [u8],
}

/// The field at the front of some bytes, whatever it is.
fn cut_any<'a>(bytes: &'a [u8]) -> Cut<'a>
    ensures { IsCut bytes.now (text_of result.field) result.behind.now }
{
    let (text, behind) = bytes.split_at(field_len(bytes));
    let field = Field::new(text);
    Cut { field, behind }
}

/// The same, where it is likely digits.
fn cut_digits<'a>(bytes: &'a [u8]) -> Cut<'a>
    ensures { IsCut bytes.now (text_of result.field) result.behind.now }
{
    let digits = front_digits(bytes);
    let (text, behind) = bytes.split_at(digits.count);
    if is_end(behind) {
        let field = Field::of_digits(text, digits.number);
        return Cut { field, behind };
    }
    cut_any(bytes)
}

/// The same, where it begins with a `-` and is likely digits behind that.
fn cut_negative_digits<'a>(bytes: &'a [u8], unsigned: &'a [u8]) -> Cut<'a>
    requires { bytes.now ≡ 45 ∷ unsigned.now }
    ensures { IsCut bytes.now (text_of result.field) result.behind.now }
{
    let digits = front_digits(unsigned);
    let (text, behind) = bytes.split_at(1 + digits.count);
    if is_end(behind) {
        let field = Field::of_negative_digits(text, digits.number);
        return Cut { field, behind };
    }
    cut_any(bytes)
}

/// The field at the front of some bytes.
fn cut_field<'a>(bytes: &'a [u8]) -> Cut<'a>
    ensures { IsCut bytes.now (text_of result.field) result.behind.now }
{
    match bytes.split_first() {
        Some((b'-', unsigned)) => cut_negative_digits(bytes, unsigned),
        _ => cut_digits(bytes),
    }
}

/// These bytes without the ends of lines at their front.
fn from_record(bytes: &[u8]) -> &[u8]
    ensures same { next_record default_config state.StartRecord [] [] result.now
        ≡ next_record default_config state.StartRecord [] [] bytes.now }
    ensures begins { IsTrue (begins_record result.now) }
    ensures plain { IsTrue (has_no_quote bytes.now) → IsTrue (has_no_quote result.now) }
{
    let mut left = bytes;
    while let Some((byte, more)) = left.split_first() {
        if !ends_line(*byte) {
            break;
        }
        left = more;
    }
    left
}

/// Takes the fields of the next record into `fields`, and gives the bytes behind it. None where there is no record.
pub fn plain_record<'a>(
    bytes: &'a [u8],
    fields: &mut Vec<Field<'a>>,
) -> Result<Option<&'a [u8]>, AllocError>
    requires { IsTrue (has_no_quote bytes.now) }
    ensures gives { IfOk result (λ found. MatchOption found
        ((records default_config bytes.now ≡ []) × (fields.new.items ≡ []))
        (λ behind. records default_config bytes.now
        ≡ map text_of fields.new.items ∷ records default_config behind.now)) }
    ensures plain { IfOk result (λ found. IfSome found (λ behind. IsTrue (has_no_quote behind.now))) }
{
    fields.clear();
    let mut left = from_record(bytes);
    if left.is_empty() {
        return Ok(None);
    }
    loop {
        let cut = cut_field(left);
        fields.push(cut.field)?;
        let Some((end, more)) = cut.behind.split_first() else {
            return Ok(Some(cut.behind));
        };
        if *end != b',' {
            return Ok(Some(more));
        }
        left = more;
    }
}

/// Bytes without the byte order mark at their start.
pub fn without_mark(bytes: &[u8]) -> &[u8]
    ensures { result.now ≡ strip_bom bytes.now }
{
    match bytes.strip_prefix(&MARK) {
        Some(rest) => rest,
        None => bytes,
    }
}
