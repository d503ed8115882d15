//! A tour of a code, from its first position to its last.

ghost use Rattle.std.specs.Prelude.{◌≤◌, length};
ghost use Rattle.turan_code.specs.TuranView.{code_of_parts};
ghost use Rattle.code_tour.specs.Gap.{AreShort, IsGap};

use crate::gap::Gap;
use crate::passed::Passed;
use crate::two_lists::two_lists;
use bit_words::Steps;
use scratch_region::Region;
use std::sync::ledger::Ledger;
use turan_code::{TuranParts, TuranView};

/// A tour of a code, which passes position after position, with what stands round the gap before the next one.
#[derive(Drop)]
pub struct Tour<'a, 'r> {
    parts: TuranParts<'a>,
    gap: Gap<'r>,
    position: usize,
    ghost short: { AreShort parts },
    ghost within: { position ≤ length (code_of_parts parts).a },
    ghost right: { IsGap (code_of_parts parts) position gap },
}

impl<'a, 'r> Tour<'a, 'r> {
    ghost use Rattle.std.specs.Prelude.{◌≡◌, ◌<◌, ◌≤◌, ◌+◌, length, IsNone, IsSome, IfSome, MatchOption};
    ghost use Rattle.scratch_region.specs.Region.{words_left};
    ghost use Rattle.code_laws.specs.Numbers.{edge_count};
    ghost use Rattle.turan_code.specs.TuranView.{code_of_view};
    ghost use Rattle.code_tour.specs.Passed.{IsPassed};
    ghost use Rattle.code_tour.specs.Tour.{code_in, position_of};

    /// The tour of a code from its first position on, over lent words, one for each edge. No word is read.
    pub fn new(code: TuranView<'a>, room: Region<'r>) -> Tour<'a, 'r>
        requires { edge_count (code_of_view code) ≤ words_left room }
        ensures code { code_in result ≡ code_of_view code.entry }
        ensures first { position_of result ≡ 0 }
    {
        let parts = code.parts();
        let _len = code.len();
        let (tree, dual) = two_lists(room, parts.tree.len() / 2, parts.dual.len() / 2);
        let gap = Gap::new(parts, tree, dual);
        Tour {
            parts,
            gap,
            position: 0,
        }
    }

    /// The numbers at the next position, or None at the end.
    pub fn pass<C: Ledger>(&mut self, steps: &mut Steps<C>) -> Option<Passed>
        ensures code { code_in self.new ≡ code_in self.old }
        ensures numbers { IfSome result (IsPassed (code_in self.old) (position_of self.old)) }
        ensures end { MatchOption result (position_of self.old ≡ length (code_in self.old).a)
            (λ _. position_of self.old < length (code_in self.old).a) }
        ensures next { MatchOption result (position_of self.new ≡ position_of self.old)
            (λ _. position_of self.new ≡ position_of self.old + 1) }
        ensures least { IsSome result → steps.old + 1 ≤ steps.new }
        ensures free { IsNone result → steps.new ≡ steps.old }
        ensures most { steps.new ≤ steps.old + 4 }
    {
        let parts = self.parts;
        let p = self.position;
        if p == parts.a.bits().len() {
            return None;
        }
        let passed = self.gap.pass(parts, p, steps);
        self.position = p + 1;
        Some(passed)
    }
}
