//! The pairs of one kind that stand round a gap, as a stack over lent words.

ghost use Rattle.std.specs.Prelude.{◌≤◌, length};
ghost use Rattle.scratch_region.specs.Numbers.{numbers_of};

use scratch_region::Numbers;

/// The pairs of one kind that stand round a gap, by their numbers, the innermost one last.
#[derive(Drop)]
pub(crate) struct OpenPairs<'r> {
    numbers: Numbers<'r>,
    /// How many pairs stand round the gap.
    depth: usize,
    /// How many pairs have opened before the gap.
    opened: usize,
    /// How many places of the kind stand before the gap.
    place: usize,
    ghost within: { depth ≤ length (numbers_of numbers) },
}

impl<'r> OpenPairs<'r> {
    ghost use Rattle.std.specs.Prelude.{◌≡◌, ◌<◌, ◌≤◌, ◌+◌, ◌⊎◌, true, false, [], length, IsTrue};
    ghost use Rattle.scratch_region.specs.Numbers.{numbers_of};
    ghost use Rattle.code_laws.specs.Enclosing.{IsLastOf};
    ghost use Rattle.code_tour.specs.OpenPairs.{open_numbers, room_of, Passes};

    /// No pairs yet, with room for as many as there are numbers.
    pub(crate) fn new(numbers: Numbers<'r>) -> OpenPairs<'r>
        ensures numbers { open_numbers result ≡ [] }
        ensures room { room_of result ≡ length (numbers_of numbers.entry) }
        ensures depth { result.depth ≡ 0 }
        ensures opened { result.opened ≡ 0 }
        ensures place { result.place ≡ 0 }
    {
        OpenPairs {
            numbers,
            depth: 0,
            opened: 0,
            place: 0,
        }
    }

    /// How many places of the kind stand before the gap.
    pub(crate) fn place(&self) -> usize
        ensures { result ≡ self.now.place }
    {
        self.place
    }

    /// The number of the innermost pair.
    pub(crate) fn innermost(&self) -> Option<u64>
        ensures { IsLastOf (open_numbers self.now) result }
    {
        if self.depth == 0 {
            return None;
        }
        Some(self.numbers.get(self.depth - 1))
    }

    /// Passes the next place, which opens or closes a pair, and gives the number of the pair.
    pub(crate) fn pass(&mut self, opens: bool) -> u64
        requires room { IsTrue opens → self.old.depth < room_of self.old }
        requires few { self.old.opened < 2147483648 }
        requires before { self.old.place < 2147483648 }
        requires open { IsTrue opens ⊎ (0 < self.old.depth) }
        ensures passes { Passes opens self.old self.new result }
        ensures room { room_of self.new ≡ room_of self.old }
        ensures place { self.new.place ≡ self.old.place + 1 }
    {
        self.place += 1;
        if opens {
            let number = self.opened as u64;
            self.numbers.set(self.depth, number);
            self.depth += 1;
            self.opened += 1;
            number
        } else {
            self.depth -= 1;
            self.numbers.get(self.depth)
        }
    }
}
