//! A section of a file by itself: how much it holds, and by how many bits each.

ghost use Rattle.std.specs.Prelude.{◌<◌, ◌≤◌, ◌^◌};

/// A section: its number, and how many fields of how many bits it has.
#[derive(Clone, Copy)]
pub(crate) struct Section {
    pub(crate) number: u64,
    pub(crate) count: u128,
    pub(crate) width: u32,
    ghost few: { count < 2 ^ 68 },
    ghost narrow: { width ≤ 128 },
}

impl Section {
    ghost use Rattle.std.specs.Prelude.{◌≡◌, ◌<◌, ◌*◌, ◌^◌};
    ghost use Rattle.file_laws.specs.Layout.{sized, section_bits, section_words};

    /// How many bits a section has.
    pub(crate) fn bits(self) -> u128
        ensures bits { result ≡ section_bits (sized self.number self.count self.width) }
        ensures few { result < 2 ^ 75 }
    {
        self.count * u128::from(self.width)
    }

    /// How many words a section has.
    pub(crate) fn words(self) -> u128
        ensures words { result ≡ section_words (sized self.number self.count self.width) }
        ensures few { result < 2 ^ 70 }
    {
        (self.bits() + 63) / 64
    }
}
