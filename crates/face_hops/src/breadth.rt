//! The distances of all faces from one, by a search by breadth over lent words.

ghost use Rattle.std.specs.Prelude.{◌≡◌, ◌<◌, ◌≤◌, ◌+◌, ◌*◌, ℕ, List, length, replicate, slice_index, slice_set};
ghost use Rattle.scratch_region.specs.Numbers.{numbers_of};
ghost use Rattle.pemb_file.specs.Served.{contents_of_view};
ghost use Rattle.face_hops.specs.Distances.{AreDistances};
ghost use Rattle.face_hops.specs.Prices.{search_price};
ghost use Rattle.face_hops.specs.Search.{numbers_with, queue_with, tail_with};

use bit_words::Steps;
use navigate::rings_at;
use pemb_file::Served;
use scratch_region::Numbers;
use std::sync::ledger::Ledger;

/// A search by breadth from the face at a place. A face that was reached has 1 + its distance as its number, and all
/// others 0. The faces that were reached stand in a queue, the nearest first, and those before its head were gone
/// round.
#[derive(Drop)]
pub(crate) struct Search<'a, 'r> {
    served: Served<'a>,
    /// The place from which it searches.
    from: usize,
    /// The numbers by place.
    numbers: Numbers<'r>,
    /// The places in the order in which they were reached.
    queue: Numbers<'r>,
    head: usize,
    tail: usize,
}

/// Gives a place a number and puts it at the end of the queue, unless it has one. Where the queue ends then.
fn reach(
    numbers: &mut Numbers<'_>,
    queue: &mut Numbers<'_>,
    tail: usize,
    place: usize,
    number: u64,
) -> usize
    requires place { place < length (numbers_of numbers.old) }
    requires room { slice_index (numbers_of numbers.old) place ≡ 0 → tail < length (numbers_of queue.old) }
    requires fits { tail < 2147483648 }
    ensures numbers { numbers_of numbers.new ≡ numbers_with (numbers_of numbers.old) place number }
    ensures queue { numbers_of queue.new ≡ queue_with (numbers_of numbers.old) (numbers_of queue.old) tail place }
    ensures tail { result ≡ tail_with (numbers_of numbers.old) tail place }
{
    if numbers.get(place) != 0 {
        return tail;
    }
    numbers.set(place, number);
    queue.set(tail, place as u64);
    tail + 1
}

impl<'a, 'r> Search<'a, 'r> {
    ghost use Rattle.std.specs.Prelude.{◌≡◌, ◌<◌, ◌≤◌, ◌+◌, ◌*◌, ℕ, List, [], ◌∷◌, length, replicate, slice_index, slice_set};
    ghost use Rattle.scratch_region.specs.Numbers.{numbers_of};
    ghost use Rattle.file_laws.specs.MapOfFile.{face_at_place};
    ghost use Rattle.pemb_file.specs.Served.{contents_of_view};
    ghost use Rattle.face_hops.specs.Distances.{AreDistances};
    ghost use Rattle.face_hops.specs.Prices.{rounds_price, search_price};
    ghost use Rattle.face_hops.specs.Searching.{IsSearching};

    /// The search at its beginning: the face at the place was reached, and none was gone round.
    fn begin(
        served: Served<'a>,
        from: usize,
        mut numbers: Numbers<'r>,
        mut queue: Numbers<'r>,
    ) -> Search<'a, 'r>
        requires from { from ≤ length (contents_of_view served).faces }
        requires numbers { numbers_of numbers ≡ replicate (length (contents_of_view served).faces + 1) 0 }
        requires queue { numbers_of queue ≡ replicate (length (contents_of_view served).faces + 1) 0 }
        ensures searching { IsSearching result }
        ensures served { result.served ≡ served.entry }
        ensures from { result.from ≡ from }
        ensures head { result.head ≡ 0 }
    {
        numbers.set(from, 1);
        queue.set(0, from as u64);
        Search {
            served,
            from,
            numbers,
            queue,
            head: 0,
            tail: 1,
        }
    }

    /// Goes round the face at the head of the queue and reaches each face beside it.
    fn go_round<C: Ledger>(&mut self, steps: &mut Steps<C>)
        requires searching { IsSearching self.old }
        requires more { self.old.head < self.old.tail }
        ensures searching { IsSearching self.new }
        ensures served { self.new.served ≡ self.old.served }
        ensures from { self.new.from ≡ self.old.from }
        ensures head { self.new.head ≡ self.old.head + 1 }
        ensures kept { (i : ℕ) → i ≤ self.old.head
            → slice_index (numbers_of self.new.queue) i ≡ slice_index (numbers_of self.old.queue) i }
        ensures grows { steps.old ≤ steps.new }
        ensures paid { steps.new ≤ steps.old + rounds_price (contents_of_view self.old.served)
            (face_at_place (contents_of_view self.old.served) (slice_index (numbers_of self.old.queue) self.old.head)
            ∷ []) }
    {
        let place = self.queue.get(self.head) as usize;
        let number = self.numbers.get(place) + 1;
        let mut rings = rings_at(self.served, place, steps);
        while let Some(p) = rings.pass(steps) {
            let across = rings.place_across(p, steps);
            self.tail = reach(
                &mut self.numbers,
                &mut self.queue,
                self.tail,
                across,
                number,
            );
        }
        self.head += 1;
    }

    /// Goes round all faces that are reached. The numbers are the distances then.
    fn finish<C: Ledger>(mut self, steps: &mut Steps<C>) -> Numbers<'r>
        requires { IsSearching self }
        ensures distances { AreDistances (contents_of_view self.entry.served) self.entry.from (numbers_of result) }
        ensures grows { steps.old ≤ steps.new }
        ensures paid { steps.new ≤ steps.old + search_price (contents_of_view self.entry.served) }
    {
        while self.head < self.tail {
            self.go_round(steps);
        }
        let Search { numbers, .. } = self;
        numbers
    }
}

/// Gives each place 1 + the distance of its face from the one at a place, and 0 where no path leads to it.
pub(crate) fn distances_from<'r, C: Ledger>(
    served: Served<'_>,
    from: usize,
    numbers: Numbers<'r>,
    queue: Numbers<'r>,
    steps: &mut Steps<C>,
) -> Numbers<'r>
    requires from { from ≤ length (contents_of_view served).faces }
    requires numbers { numbers_of numbers ≡ replicate (length (contents_of_view served).faces + 1) 0 }
    requires queue { numbers_of queue ≡ replicate (length (contents_of_view served).faces + 1) 0 }
    ensures distances { AreDistances (contents_of_view served.entry) from (numbers_of result) }
    ensures grows { steps.old ≤ steps.new }
    ensures paid { steps.new ≤ steps.old + search_price (contents_of_view served.entry) }
{
    Search::begin(served, from, numbers, queue).finish(steps)
}
