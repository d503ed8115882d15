//! The ends of edges: what stands at the two positions of each, in one list over lent words.

ghost use Rattle.std.specs.Prelude.{◌≡◌, ◌<◌, ◌+◌, ◌*◌, Bool, length, not, slice_set};
ghost use Rattle.std.specs.Int.{cast_unsigned, w64};
ghost use Rattle.scratch_region.specs.Numbers.{numbers_of};
ghost use Rattle.table_dump.specs.Ends.{end_at, face_in, next_in, node_in, with_sides};

use scratch_region::Numbers;
use topo_base::{IdNumber, SignedNumber};

/// How many numbers an end has: the ids of its node and its face, and the signed edge that follows on its ring.
pub(crate) const NUMBERS: usize = 3;

/// The end of the edge at a place in the order of ids, at the position of its forward signed edge or at the other one.
pub(crate) fn end_at(place: usize, forward: bool) -> usize
    requires { place < 16777216 }
    ensures end { result ≡ end_at place forward }
    ensures few { result < 33554432 }
{
    if forward { 2 * place } else { 2 * place + 1 }
}

/// Puts the ids of the node and the face of an end.
pub(crate) fn put_sides(ends: &mut Numbers<'_>, end: usize, node: IdNumber, face: IdNumber)
    requires few { end < 33554432 }
    requires within { 3 * end + 2 < length (numbers_of ends.old) }
    ensures { numbers_of ends.new ≡ with_sides (numbers_of ends.old) end node face }
{
    ends.set(NUMBERS * end, node);
    ends.set(NUMBERS * end + 1, face);
}

/// Puts the signed edge that follows that of an end on its ring.
pub(crate) fn put_next(ends: &mut Numbers<'_>, end: usize, next: SignedNumber)
    requires few { end < 33554432 }
    requires within { 3 * end + 2 < length (numbers_of ends.old) }
    ensures { numbers_of ends.new ≡ slice_set (numbers_of ends.old) (3 * end + 2) (cast_unsigned w64 next) }
{
    ends.set(NUMBERS * end + 2, next.cast_unsigned());
}

/// The id of the node of an end.
pub(crate) fn node_in(ends: &Numbers<'_>, end: usize) -> IdNumber
    requires few { end < 33554432 }
    requires within { 3 * end + 2 < length (numbers_of ends.now) }
    ensures { result ≡ node_in (numbers_of ends.now) end }
{
    ends.get(NUMBERS * end)
}

/// The id of the face of an end.
pub(crate) fn face_in(ends: &Numbers<'_>, end: usize) -> IdNumber
    requires few { end < 33554432 }
    requires within { 3 * end + 2 < length (numbers_of ends.now) }
    ensures { result ≡ face_in (numbers_of ends.now) end }
{
    ends.get(NUMBERS * end + 1)
}

/// The signed edge that follows that of an end on its ring.
pub(crate) fn next_in(ends: &Numbers<'_>, end: usize) -> SignedNumber
    requires few { end < 33554432 }
    requires within { 3 * end + 2 < length (numbers_of ends.now) }
    ensures { result ≡ next_in (numbers_of ends.now) end }
{
    ends.get(NUMBERS * end + 2).cast_signed()
}
