//! The counter of the words that are read.

use std::alloc::Global;
use std::marker::Model;
use std::sync::ledger::{Blank, Book, Ledger, Share};

/// How many words were read: a number that contracts see and no code can read. Only reads of a `WordView` raise it.
///
/// A caller that counts nothing takes a `Blank` and begins with `Steps::new`, which asks for the allocator besides.
#[derive(Drop)]
pub struct Steps<C: Ledger> {
    book: Book<C>,
    share: Share<C>,
}

impl<C: Ledger> Model for Steps<C> {
    ghost use Rattle.std.specs.Prelude.{ℕ, ◌<◌};

    ghost Value = { ℕ };

    ghost view = { λ s. s.book.total };

    ghost invariant = { λ s. 0 < s.share.parts };
}

impl<C: Ledger> Steps<C> {
    ghost use Rattle.std.specs.Prelude.{◌≡◌, ◌+◌, ◌%◌, ◌<◌, ◌≤◌};

    /// A counter that stands at 0. It asks for the allocator, which it doesn't use: so a call that is handed
    /// none can count its reads on the counter of its caller alone.
    pub fn new(_alloc: Global, blank: Blank) -> Steps<C>
        requires name { blank.name ≡ C.name }
        requires parts { blank.parts ≡ C.parts }
        requires some { 0 < blank.parts }
        ensures { result ≡ 0 }
    {
        let (book, share) = blank.open::<C>();
        Steps { book, share }
    }

    /// One step more. Private to the crate, where reads of a `WordView` alone call it.
    #[inline]
    pub(crate) fn tick(&mut self)
        ensures { self.new ≡ self.old + 1 }
    {
        self.book.add(&mut self.share, 1);
    }

    /// One step more where the `width` bits from bit `from` on stand in one word, else two.
    #[inline]
    pub(crate) fn tick_words(&mut self, from: usize, width: u32)
        ensures one_word { from % 64 + width ≤ 64 → self.new ≡ self.old + 1 }
        ensures two_words { 64 < from % 64 + width → self.new ≡ self.old + 2 }
    {
        self.tick();
        if from % 64 + width as usize > 64 {
            self.tick();
        }
    }
}
