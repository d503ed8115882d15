//! A set of numbers over lent words.

ghost use Rattle.std.specs.Prelude.{◌≡◌, ◌≤◌, ℕ, length, slice_index};

/// A set of numbers, one bit for each that it has room for.
#[derive(Drop)]
pub struct Marks<'r> {
    words: &'r mut [u64],
    ghost few: { length words.now ≤ 2147483647 },
}

impl<'r> Marks<'r> {
    ghost use Rattle.std.specs.Prelude.{◌≡◌, ◌<◌, ◌==◌, ◌*◌, ◌≤◌, ℕ, length, false, true, if◌then◌else◌};
    ghost use Rattle.scratch_region.specs.Marks.{room_of, is_marked, IsEmpty};

    /// No number, with room for 64 times as many as there are words, whatever they held.
    pub fn none(words: &'r mut [u64]) -> Marks<'r>
        requires { length words.old ≤ 2147483647 }
        ensures room { room_of result ≡ 64 * length words.old }
        ensures empty { IsEmpty result }
    {
        zero(words);
        Marks { words }
    }

    /// How many numbers there is room for.
    pub fn room(&self) -> usize
        ensures { result ≡ room_of self.now }
    {
        64 * self.words.len()
    }

    /// Whether a number is marked.
    pub fn has(&self, i: usize) -> bool
        requires { i < room_of self.now }
        ensures { result ≡ is_marked self.now i }
    {
        self.words[i / 64] >> (i % 64) & 1 == 1
    }

    /// Marks a number.
    pub fn set(&mut self, i: usize)
        requires { i < room_of self.old }
        ensures room { room_of self.new ≡ room_of self.old }
        ensures marked { (j : ℕ) → is_marked self.new j ≡ (if j == i then true else is_marked self.old j) }
    {
        self.words[i / 64] |= 1 << (i % 64);
    }

    /// Takes a mark away.
    pub fn clear(&mut self, i: usize)
        requires { i < room_of self.old }
        ensures room { room_of self.new ≡ room_of self.old }
        ensures marked { (j : ℕ) → is_marked self.new j ≡ (if j == i then false else is_marked self.old j) }
    {
        self.words[i / 64] &= !(1 << (i % 64));
    }

    /// Takes all marks away, word by word.
    pub fn clear_all(&mut self)
        ensures room { room_of self.new ≡ room_of self.old }
        ensures empty { IsEmpty self.new }
    {
        zero(self.words);
    }
}

/// Puts 0 into each word.
pub(crate) fn zero(words: &mut [u64])
    ensures { (k : ℕ) → slice_index words.new k ≡ 0 }
{
    for word in words.iter_mut() {
        *word = 0;
    }
}
