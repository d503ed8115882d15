//! Lent words, and the sets and lists carved out of them.

ghost use Rattle.std.specs.Prelude.{◌≤◌, length};

use crate::marks::Marks;
use crate::numbers::Numbers;

/// Lent words from which sets and lists are carved.
#[derive(Drop)]
pub struct Region<'r> {
    words: &'r mut [u64],
    ghost few: { length words.now ≤ 2147483647 },
}

/// More words were asked for than are left. The region is handed back as it was.
#[derive(Drop)]
pub struct Short<'r> {
    pub need: usize,
    pub left: usize,
    pub region: Region<'r>,
}

impl<'r> Region<'r> {
    ghost use Rattle.std.specs.Prelude.{◌≡◌, ◌<◌, ◌*◌, ◌+◌, ◌≤◌, ◌↔◌, length, replicate, IsErr, IfOk, IfErr};
    ghost use Rattle.scratch_region.specs.Marks.{room_of, IsEmpty};
    ghost use Rattle.scratch_region.specs.Numbers.{numbers_of};
    ghost use Rattle.scratch_region.specs.Region.{words_left};

    /// All of these words.
    pub fn new(words: &'r mut [u64]) -> Region<'r>
        requires { length words.old ≤ 2147483647 }
        ensures { words_left result ≡ length words.old }
    {
        Region { words }
    }

    /// How many words are left.
    pub fn left(&self) -> usize
        ensures { result ≡ words_left self.now }
    {
        self.words.len()
    }

    /// An empty set over so many words, whatever they held, and the region without them.
    pub fn carve(self, words: usize) -> Result<(Marks<'r>, Region<'r>), Short<'r>>
        ensures short { IsErr result ↔ (words_left self.entry < words) }
        ensures room { IfOk result (λ parts. room_of parts.0 ≡ 64 * words) }
        ensures empty { IfOk result (λ parts. IsEmpty parts.0) }
        ensures left { IfOk result (λ parts. words_left parts.1 + words ≡ words_left self.entry) }
        ensures need { IfErr result (λ short. short.need ≡ words) }
        ensures had { IfErr result (λ short. short.left ≡ words_left self.entry) }
        ensures kept { IfErr result (λ short. short.region ≡ self.entry) }
    {
        let left = self.words.len();
        if left < words {
            return Err(Short {
                need: words,
                left,
                region: self,
            });
        }
        let Region { words: all } = self;
        let (front, back) = all.split_at_mut(words);
        Ok((Marks::none(front), Region { words: back }))
    }
    /// A list of so many zeros, one a word, and the region without these words.
    pub fn carve_numbers(self, count: usize) -> Result<(Numbers<'r>, Region<'r>), Short<'r>>
        ensures short { IsErr result ↔ (words_left self.entry < count) }
        ensures zeros { IfOk result (λ parts. numbers_of parts.0 ≡ replicate count 0) }
        ensures left { IfOk result (λ parts. words_left parts.1 + count ≡ words_left self.entry) }
        ensures need { IfErr result (λ short. short.need ≡ count) }
        ensures had { IfErr result (λ short. short.left ≡ words_left self.entry) }
        ensures kept { IfErr result (λ short. short.region ≡ self.entry) }
    {
        let all = self.words.len();
        if all < count {
            return Err(Short {
                need: count,
                left: all,
                region: self,
            });
        }
        let Region { words } = self;
        let (numbers, rest) = words.split_at_mut(count);
        Ok((Numbers::zeros(numbers), Region { words: rest }))
    }
}
