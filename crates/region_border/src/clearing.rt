//! Marks taken away.

ghost use Rattle.std.specs.Prelude.{ℕ, ◌≡◌, ◌<◌, ◌≤◌, false};
ghost use Rattle.scratch_region.specs.Marks.{room_of, is_marked};

use scratch_region::Marks;

/// Takes the marks of all numbers below one away.
pub(crate) fn clear_below(marks: &mut Marks<'_>, end: usize)
    requires { end ≤ room_of marks.old }
    ensures room { room_of marks.new ≡ room_of marks.old }
    ensures cleared { (j : ℕ) → j < end → is_marked marks.new j ≡ false }
    ensures kept { (j : ℕ) → end ≤ j → is_marked marks.new j ≡ is_marked marks.old j }
{
    for number in 0..end {
        marks.clear(number);
    }
}
