//! A field and the number in it.

ghost use Rattle.std.specs.Prelude.{◌≡◌, ◌<◌, ◌^◌, Some};
ghost use Rattle.topo_csv.specs.Numbers.{digits_behind_sign, spelled_number};

use topo_base::{IdNumber, SignedNumber, read_id, read_signed};

/// A field of a record. Its number is read once, as it is cut out.
#[derive(Clone, Copy)]
pub struct Field<'a> {
    text: &'a [u8],
    /// The number that the text spells: from 0 on, or behind a `-` below zero.
    number: Option<SignedNumber>,
    ghost spelled: { number ≡ spelled_number text.now },
}

/// The number that a text spells.
fn read_number(text: &[u8]) -> Option<SignedNumber>
    ensures { result ≡ spelled_number text.now }
{
    match read_id(text) {
        Some(number) => SignedNumber::try_from(number).ok(),
        None => read_signed(text),
    }
}

/// The number that a text of digits behind a `-` spells, where these make this number: none where they begin with a 0.
fn below_zero(text: &[u8], number: IdNumber) -> Option<SignedNumber>
    requires spelled { digits_behind_sign text.now ≡ Some number }
    requires small { number < 10 ^ 18 }
    ensures { result ≡ spelled_number text.now }
{
    let first = *text.get(1)?;
    if first == b'0' {
        None
    } else {
        Some(-(number as SignedNumber))
    }
}

impl<'a> Field<'a> {
    ghost use Rattle.std.specs.Prelude.{◌≡◌, ◌<◌, ◌^◌, Some};
    ghost use Rattle.topo_base.specs.Spelling.{digits_behind, id_number, positive_number, signed_number};
    ghost use Rattle.topo_csv.specs.Numbers.{digits_behind_sign};
    ghost use Rattle.topo_csv.specs.Texts.{text_of};

    /// The field with this text.
    pub fn new(text: &'a [u8]) -> Field<'a>
        ensures { text_of result ≡ text.now }
    {
        Field {
            text,
            number: read_number(text),
        }
    }

    /// The field with this text of digits, which make this number.
    pub fn of_digits(text: &'a [u8], number: IdNumber) -> Field<'a>
        requires spelled { digits_behind 0 text.now ≡ Some number }
        requires small { number < 10 ^ 18 }
        ensures { text_of result ≡ text.now }
    {
        let is_plain = !matches!(text, [] | [b'0', _, ..]);
        Field {
            text,
            number: if is_plain {
                Some(number as SignedNumber)
            } else {
                None
            },
        }
    }

    /// The field with this text of digits behind a `-`, which make this number without it.
    pub fn of_negative_digits(text: &'a [u8], number: IdNumber) -> Field<'a>
        requires spelled { digits_behind_sign text.now ≡ Some number }
        requires small { number < 10 ^ 18 }
        ensures { text_of result ≡ text.now }
    {
        Field {
            text,
            number: below_zero(text, number),
        }
    }

    /// Its text.
    pub fn text(&self) -> &'a [u8]
        ensures { result.now ≡ text_of self.now }
    {
        self.text
    }

    /// The number from 0 on.
    pub fn id(&self) -> Option<IdNumber>
        ensures { result ≡ id_number (text_of self.now) }
    {
        IdNumber::try_from(self.number?).ok()
    }

    /// The same from 1 on.
    pub fn positive(&self) -> Option<IdNumber>
        ensures { result ≡ positive_number (text_of self.now) }
    {
        match self.id() {
            Some(0) => None,
            number => number,
        }
    }

    /// The number of a signed edge.
    pub fn signed(&self) -> Option<SignedNumber>
        ensures { result ≡ signed_number (text_of self.now) }
    {
        if self.number? == 0 { None } else { self.number }
    }
}
