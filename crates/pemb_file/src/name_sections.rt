//! The sections of names, which depend on the form of the file and on how many names there are.

ghost use Rattle.std.specs.Prelude.{◌≡◌, ◌<◌, ◌≤◌, ◌^◌};
ghost use Rattle.bit_words.specs.Digits.{digits};
ghost use Rattle.id_names.specs.Making.{place_width as place_width_of};

use crate::form::{Form, binary_digits};
use crate::section::Section;

/// The names in the seven sections behind a number: how many names, and how many back pointers.
#[derive(Clone, Copy)]
pub(crate) struct NameSections {
    pub(crate) behind: u64,
    pub(crate) form: Form,
    pub(crate) count: u128,
    pub(crate) back: u64,
    ghost low: { behind ≤ 60 },
    ghost few: { count < 2 ^ 66 },
}

/// How many bits a place has, among so many names.
fn place_width(names: u128) -> u32
    ensures width { result ≡ place_width_of names }
    ensures some { 1 ≤ result }
    ensures narrow { result ≤ 128 }
{
    binary_digits(names).max(1)
}

/// How many high parts there may be, among so many names.
fn high_parts(names: u128) -> u128
    requires { names < 2 ^ 66 }
    ensures parts { result ≡ 2 ^ digits names }
    ensures few { result ≤ 2 ^ 66 }
{
    1 << binary_digits(names)
}

impl NameSections {
    ghost use Rattle.std.specs.Prelude.{◌≡◌, ◌<◌, ◌≤◌, ◌+◌, ◌^◌};
    ghost use Rattle.bit_words.specs.Digits.{digits};
    ghost use Rattle.rank_select.specs.Counts.{blocks};
    ghost use Rattle.id_names.specs.Making.{place_width};
    ghost use Rattle.file_laws.specs.Layout.{sized, bits, fields, low_width};
    ghost use Rattle.pemb_file.specs.Form.{number_of};
    ghost use Rattle.pemb_file.specs.Section.{seen};

    /// How many bits the high parts have.
    fn high_bits(self) -> u128
        ensures count { result ≡ self.count + 2 ^ digits self.count }
        ensures few { result < 2 ^ 67 }
    {
        self.count + high_parts(self.count)
    }

    /// The high parts.
    pub(crate) fn high(self) -> Section
        ensures { seen result ≡ bits (self.behind + 1) (self.count + 2 ^ digits self.count) }
    {
        Section {
            number: self.behind + 1,
            count: self.high_bits(),
            width: 1,
        }
    }

    /// The counts of the high parts.
    pub(crate) fn high_counts(self) -> Section
        ensures { seen result ≡ fields (self.behind + 2) (blocks (self.count + 2 ^ digits self.count) + 1) }
    {
        Section {
            number: self.behind + 2,
            count: (self.high_bits() + 511) / 512 + 1,
            width: 32,
        }
    }

    /// The low parts.
    pub(crate) fn lows(self) -> Section
        ensures { seen result ≡ sized (self.behind + 3) self.count (low_width (number_of self.form) self.count) }
    {
        Section {
            number: self.behind + 3,
            count: self.count,
            width: self.form.low_width(self.count),
        }
    }

    /// The places.
    pub(crate) fn places(self) -> Section
        ensures { seen result ≡ sized (self.behind + 4) self.count (place_width self.count) }
    {
        Section {
            number: self.behind + 4,
            count: self.count,
            width: place_width(self.count),
        }
    }

    /// The marks.
    pub(crate) fn marks(self) -> Section
        ensures { seen result ≡ bits (self.behind + 5) self.count }
    {
        Section {
            number: self.behind + 5,
            count: self.count,
            width: 1,
        }
    }

    /// The counts of the marks.
    pub(crate) fn mark_counts(self) -> Section
        ensures { seen result ≡ fields (self.behind + 6) (blocks self.count + 1) }
    {
        Section {
            number: self.behind + 6,
            count: (self.count + 511) / 512 + 1,
            width: 32,
        }
    }

    /// The back pointers.
    pub(crate) fn back(self) -> Section
        ensures { seen result ≡ sized (self.behind + 7) self.back (place_width self.count) }
    {
        Section {
            number: self.behind + 7,
            count: u128::from(self.back),
            width: place_width(self.count),
        }
    }
}
