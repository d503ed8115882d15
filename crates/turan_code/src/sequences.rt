//! Three sequences and the starts of components, and what is wrong with them.

use crate::count::ones_between;
use bit_words::{BitView, PackedView, Steps};
use parens::check_balanced;
use std::sync::ledger::Ledger;

/// Three sequences and the starts of components, which may be no code.
#[derive(Clone, Copy)]
pub(crate) struct Sequences<'a> {
    pub(crate) a: BitView<'a>,
    pub(crate) tree: BitView<'a>,
    pub(crate) dual: BitView<'a>,
    pub(crate) starts: PackedView<'a>,
}

impl<'a> Sequences<'a> {
    ghost use Rattle.std.specs.Prelude.{◌≡◌, ◌≤◌, ◌<◌, ◌+◌, ◌-◌, ◌*◌, ◌==◌, ◌&&◌, length, IsTrue, IsSome, Option, option_map, nat_lt, if◌then◌else◌, true};
    ghost use Rattle.bit_words.specs.Bits.{rank};
    ghost use Rattle.bit_words.specs.BitView.{bits_of};
    ghost use Rattle.parens.specs.Matching.{is_balanced};
    ghost use Rattle.code_laws.specs.Code.{parens, place, start_of};
    ghost use Rattle.code_laws.specs.SeqFault.{is_start, starts_fault, balance_fault_of};
    ghost use Rattle.turan_code.specs.Sequences.{code_of_sequences, AreFew, AreLaidOut};

    /// The parentheses of one kind of edges.
    fn parens(&self, kind: bool) -> BitView<'a>
        ensures { bits_of result ≡ parens (code_of_sequences self.now) kind }
    {
        if kind { self.tree } else { self.dual }
    }

    /// Whether entry `index` of the starts, with this value, is right after the entry before it.
    fn is_start(&self, index: usize, start: u64, before: u64) -> bool
        requires { index ≤ 2147483647 }
        ensures { result ≡ ((if index == 0 then start == 0 else nat_lt before start)
            && (if index + 1 == length (code_of_sequences self.now).starts
            then start == length (code_of_sequences self.now).a else true)) }
    {
        let rises = if index == 0 {
            start == 0
        } else {
            before < start
        };
        rises && (index + 1 != self.starts.count() || start == self.a.len() as u64)
    }

    /// The first entry of the starts that is not 0 at first, above the one before it, or the number of positions in
    /// the end.
    pub(crate) fn wrong_start<C: Ledger>(&self, steps: &mut Steps<C>) -> Option<usize>
        requires { AreFew (code_of_sequences self.now) }
        ensures index { result ≡ starts_fault (code_of_sequences self.now) }
        ensures some_steps { steps.old + 1 ≤ steps.new }
        ensures cost { steps.new ≤ steps.old + 2 * length (code_of_sequences self.now).starts }
    {
        let mut before = 0;
        for index in 0..self.starts.count() {
            let start = self.starts.field(index, steps);
            if !self.is_start(index, start, before) {
                return Some(index);
            }
            before = start;
        }
        None
    }

    /// How many ones there are among the positions.
    pub(crate) fn ones<C: Ledger>(&self, steps: &mut Steps<C>) -> usize
        requires { AreFew (code_of_sequences self.now) }
        ensures ones { result ≡ rank true (code_of_sequences self.now).a (length (code_of_sequences self.now).a) }
        ensures grows { steps.old ≤ steps.new }
        ensures cost { steps.new ≤ steps.old + length (code_of_sequences self.now).a }
    {
        ones_between(&self.a, 0, self.a.len(), steps)
    }

    /// How many positions of one kind stand from position `from` to before `to`.
    fn places_between<C: Ledger>(
        &self,
        kind: bool,
        from: usize,
        to: usize,
        steps: &mut Steps<C>,
    ) -> usize
        requires few { AreFew (code_of_sequences self.now) }
        requires order { from ≤ to }
        requires within { to ≤ length (code_of_sequences self.now).a }
        ensures places { place (code_of_sequences self.now) kind from + result
            ≡ place (code_of_sequences self.now) kind to }
        ensures grows { steps.old ≤ steps.new }
        ensures cost { steps.new ≤ steps.old + (to - from) }
    {
        let ones = ones_between(&self.a, from, to, steps);
        if kind { ones } else { to - from - ones }
    }

    /// Whether the parentheses of one kind from `from` to before `to` are balanced.
    fn is_balanced<C: Ledger>(
        &self,
        kind: bool,
        from: usize,
        to: usize,
        steps: &mut Steps<C>,
    ) -> bool
        requires few { length (parens (code_of_sequences self.now) kind) ≤ 2147483647 }
        requires order { from ≤ to }
        requires within { to ≤ length (parens (code_of_sequences self.now) kind) }
        ensures balanced { result ≡ is_balanced (parens (code_of_sequences self.now) kind) from to }
        ensures grows { steps.old ≤ steps.new }
        ensures cost { steps.new ≤ steps.old + (to - from) + 8 }
        ensures cheap { IsTrue result → steps.new ≤ steps.old + 5 * (to - from) }
    {
        if from == to {
            return true;
        }
        match check_balanced(self.parens(kind), from, to, steps) {
            Ok(()) => true,
            Err(_) => false,
        }
    }

    /// The first component whose part of the parentheses of one kind is not balanced.
    pub(crate) fn unbalanced<C: Ledger>(&self, kind: bool, steps: &mut Steps<C>) -> Option<usize>
        requires { AreLaidOut (code_of_sequences self.now) }
        ensures component { result ≡ balance_fault_of (code_of_sequences self.now) kind }
        ensures grows { steps.old ≤ steps.new }
        ensures cost { steps.new ≤ steps.old + 2 * length (code_of_sequences self.now).starts
            + length (code_of_sequences self.now).a + 5 * length (parens (code_of_sequences self.now) kind) + 8 }
    {
        let mut start = 0;
        let mut place = 0;
        for component in 0..self.starts.count() - 1 {
            let end = self.starts.field(component + 1, steps) as usize;
            let next = place + self.places_between(kind, start, end, steps);
            if !self.is_balanced(kind, place, next, steps) {
                return Some(component);
            }
            start = end;
            place = next;
        }
        None
    }
}
