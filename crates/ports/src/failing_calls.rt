//! Calls that are to fail, by their numbers.

ghost use Rattle.std.specs.Prelude.{◌≡◌, ◌↔◌, Contains, IsTrue};
ghost use Rattle.ports.specs.Outside.{one_more};

/// The numbers of the calls that are to fail, and how many calls there were.
#[derive(Drop)]
pub(crate) struct FailingCalls<'a> {
    numbers: &'a [u64],
    made: u64,
}

impl<'a> FailingCalls<'a> {
    ghost use Rattle.ports.specs.FailingCalls.{failing_numbers, calls_made};

    /// Before the first call, which has number 1.
    pub(crate) fn new(numbers: &'a [u64]) -> FailingCalls<'a>
        ensures numbers { failing_numbers result ≡ numbers.now }
        ensures made { calls_made result ≡ 0 }
    {
        FailingCalls { numbers, made: 0 }
    }

    /// Counts the next call, and answers whether it is to fail. The numbers
    /// stop at `u64::MAX`.
    pub(crate) fn next_fails(&mut self) -> bool
        ensures listed { IsTrue result ↔ Contains (failing_numbers self.old) (calls_made self.new) }
        ensures made { calls_made self.new ≡ one_more (calls_made self.old) }
        ensures same_numbers { failing_numbers self.new ≡ failing_numbers self.old }
    {
        self.made = self.made.saturating_add(1);
        self.numbers.contains(&self.made)
    }
}
