//! The components that have begun before a gap.

ghost use Rattle.std.specs.Prelude.{◌≡◌, ◌<◌, ◌≤◌, ◌+◌, length};
ghost use Rattle.code_laws.specs.Code.{component_of};
ghost use Rattle.turan_code.specs.TuranView.{code_of_parts};
ghost use Rattle.code_tour.specs.Gap.{AreShort, HasBegun};

use bit_words::Steps;
use std::sync::ledger::Ledger;
use turan_code::TuranParts;

/// How many components have begun before a gap, and where the next one begins, or the last one ends.
#[derive(Clone, Copy)]
pub(crate) struct Begun {
    pub(crate) count: usize,
    pub(crate) next: usize,
}

/// What has begun with position `p`, where this has before it.
pub(crate) fn begun_with<C: Ledger>(
    parts: TuranParts<'_>,
    p: usize,
    begun: Begun,
    steps: &mut Steps<C>,
) -> Begun
    requires short { AreShort parts }
    requires within { p < length (code_of_parts parts).a }
    requires begun { HasBegun (code_of_parts parts) p begun }
    ensures begun { HasBegun (code_of_parts parts.entry) (p + 1) result }
    ensures component { result.count ≡ component_of (code_of_parts parts.entry) p + 1 }
    ensures grows { steps.old ≤ steps.new }
    ensures cost { steps.new ≤ steps.old + 2 }
{
    if begun.next != p {
        return begun;
    }
    let count = begun.count + 1;
    Begun {
        count,
        next: parts.starts.field(count, steps) as usize,
    }
}
