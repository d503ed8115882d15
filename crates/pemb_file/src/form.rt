//! The forms of a file.

ghost use Rattle.std.specs.Prelude.{◌≡◌, ◌≤◌};
ghost use Rattle.bit_words.specs.Digits.{digits};

/// The form of a file, which says how many bits its ids have.
#[derive(Clone, Copy, Debug, PartialEq, Eq)]
pub(crate) enum Form {
    /// Form 1: ids of 31 bits.
    One,
    /// Form 2: ids of 63 bits.
    Two,
}

/// How many binary digits a number has.
pub(crate) fn binary_digits(number: u128) -> u32
    ensures count { result ≡ digits number }
    ensures few { result ≤ 128 }
{
    u128::BITS - number.leading_zeros()
}

impl Form {
    ghost use Rattle.std.specs.Prelude.{◌≡◌, ◌≤◌};
    ghost use Rattle.file_laws.specs.Layout.{id_bits, low_width};
    ghost use Rattle.pemb_file.specs.Form.{number_of, form_of};

    /// The form of this number, where there is one.
    pub(crate) fn from_number(number: u64) -> Option<Form>
        ensures { result ≡ form_of number }
    {
        match number {
            1 => Some(Form::One),
            2 => Some(Form::Two),
            _ => None,
        }
    }

    /// The number of the form, the second word of a file.
    pub(crate) fn number(self) -> u64
        ensures { result ≡ number_of self }
    {
        match self {
            Form::One => 1,
            Form::Two => 2,
        }
    }

    /// How many bits an id has.
    fn id_bits(self) -> u32
        ensures { result ≡ id_bits (number_of self) }
    {
        match self {
            Form::One => 31,
            Form::Two => 63,
        }
    }

    /// How many bits the low part of an id has, among so many names.
    pub(crate) fn low_width(self, names: u128) -> u32
        ensures width { result ≡ low_width (number_of self) names }
        ensures some { 1 ≤ result }
        ensures narrow { result ≤ 63 }
    {
        self.id_bits().saturating_sub(binary_digits(names)).max(1)
    }
}
