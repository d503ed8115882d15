//! A list of numbers over lent words.

ghost use Rattle.std.specs.Prelude.{◌≡◌, length, replicate};
ghost use Rattle.scratch_region.specs.Numbers.{numbers_of};

use crate::marks::zero;

/// A list of numbers of 64 bits, as long as it was carved.
#[derive(Drop)]
pub struct Numbers<'r> {
    words: &'r mut [u64],
}

impl<'r> Numbers<'r> {
    ghost use Rattle.std.specs.Prelude.{◌≡◌, ◌<◌, length, replicate, slice_index, slice_set};
    ghost use Rattle.scratch_region.specs.Numbers.{numbers_of};

    /// A zero in each of these words, whatever they held.
    pub(crate) fn zeros(words: &'r mut [u64]) -> Numbers<'r>
        ensures { numbers_of result ≡ replicate (length words.old) 0 }
    {
        zero(words);
        Numbers { words }
    }

    /// How many numbers there are.
    pub fn len(&self) -> usize
        ensures { result ≡ length (numbers_of self.now) }
    {
        self.words.len()
    }

    /// The number at a place.
    pub fn get(&self, i: usize) -> u64
        requires { i < length (numbers_of self.now) }
        ensures { result ≡ slice_index (numbers_of self.now) i }
    {
        self.words[i]
    }

    /// Puts a number at a place.
    pub fn set(&mut self, i: usize, value: u64)
        requires { i < length (numbers_of self.old) }
        ensures { numbers_of self.new ≡ slice_set (numbers_of self.old) i value }
    {
        self.words[i] = value;
    }
}
