//! Items in a list: those that a walk gives, and numbers.

ghost use Rattle.std.specs.Prelude.{◌≡◌, ◌≤◌, ◌+◌, ◌++◌, ℕ, List, [], map, flat_map, length, OnOk, MatchOption, option_map};
ghost use Rattle.topo_base.specs.Script as script;
ghost use Rattle.topo_base.specs.Script.{item_text};
ghost use Rattle.plane_model.specs.Answers.{after_colon};
ghost use Rattle.topo_serve.specs.Gathering.{out_at, Writes};
ghost use Rattle.topo_serve.specs.Items.{items_of};

use crate::gathered::{Gathered, gather};
use crate::item::{Item, gather_item};
use crate::next_items::NextItems;
use bit_words::Steps;
use ports::{Failed, Sink};
use std::sync::ledger::Ledger;
use topo_base::{IdNumber, Signed};

/// The items of an answer, one after the other.
pub(crate) trait Items {
    /// The items that are left.
    ghost items: { Self → List script.Item };

    /// How many words reading them takes at most.
    ghost allowance: { Self → ℕ };

    /// The next items, as many as are given at once: none at the end alone.
    fn next_items<C: Ledger>(&mut self, steps: &mut Steps<C>) -> NextItems
        ensures next { items self.old ≡ items_of result ++ items self.new }
        ensures end { items_of result ≡ [] → items self.old ≡ [] }
        ensures least { steps.old + length (items_of result) ≤ steps.new }
        ensures free { items_of result ≡ [] → steps.new ≡ steps.old }
        ensures paid { steps.new + allowance self.new ≤ steps.old + allowance self.old };
}

/// Gathers the texts of the next items.
#[inline(always)]
fn gather_items<K: Sink>(out: &mut K, text: &mut Gathered, items: &NextItems) -> Result<(), Failed>
    ensures { Writes result (out_at (K.held out.old) (K.faults out.old) text.old.items)
        (out_at (K.held out.new) (K.faults out.new) text.new.items) (flat_map item_text (items_of items.now)) }
{
    match items {
        NextItems::Edges(edges) => list_edges(out, text, edges.as_slice()),
        NextItems::One(item) => gather_item(out, text, *item),
        NextItems::End => Ok(()),
    }
}

/// The items of a walk, to its end.
fn list<W: Items, K: Sink, C: Ledger>(
    walk: &mut W,
    out: &mut K,
    text: &mut Gathered,
    steps: &mut Steps<C>,
) -> Result<(), Failed>
    ensures writes { Writes result (out_at (K.held out.old) (K.faults out.old) text.old.items)
        (out_at (K.held out.new) (K.faults out.new) text.new.items) (flat_map item_text (W.items walk.old)) }
    ensures least { OnOk result (steps.old + length (W.items walk.old) ≤ steps.new) }
    ensures grows { steps.old ≤ steps.new }
    ensures paid { steps.new ≤ steps.old + W.allowance walk.old }
{
    loop {
        let items = walk.next_items(steps);
        if items.is_empty() {
            return Ok(());
        }
        gather_items(out, text, &items)?;
    }
}

/// Signed edges as items, and then the items of a walk, to its end.
pub(crate) fn list_behind<W: Items, K: Sink, C: Ledger>(
    edges: &[Signed],
    walk: &mut W,
    out: &mut K,
    text: &mut Gathered,
    steps: &mut Steps<C>,
) -> Result<(), Failed>
    ensures writes { Writes result (out_at (K.held out.old) (K.faults out.old) text.old.items)
        (out_at (K.held out.new) (K.faults out.new) text.new.items)
        (flat_map item_text (map script.Signed_edge edges.now ++ W.items walk.old)) }
    ensures least { OnOk result (steps.old + length (W.items walk.old) ≤ steps.new) }
    ensures grows { steps.old ≤ steps.new }
    ensures paid { steps.new ≤ steps.old + W.allowance walk.old }
{
    list_edges(out, text, edges)?;
    list(walk, out, text, steps)
}

/// The items of a walk, or that what is asked for is unknown where there is none.
pub(crate) fn list_known<W: Items, K: Sink, C: Ledger>(
    walk: &mut Option<W>,
    out: &mut K,
    text: &mut Gathered,
    steps: &mut Steps<C>,
) -> Result<(), Failed>
    ensures writes { Writes result (out_at (K.held out.old) (K.faults out.old) text.old.items)
        (out_at (K.held out.new) (K.faults out.new) text.new.items) (after_colon (option_map W.items walk.old)) }
    ensures least { OnOk result (MatchOption walk.old (steps.old ≤ steps.new)
        (λ w. steps.old + length (W.items w) ≤ steps.new)) }
    ensures grows { steps.old ≤ steps.new }
    ensures paid { MatchOption walk.old (steps.new ≡ steps.old) (λ w. steps.new ≤ steps.old + W.allowance w) }
{
    match walk {
        Some(walk) => list(walk, out, text, steps),
        None => gather(out, text, b" unknown"),
    }
}

/// Numbers as items.
#[inline(always)]
pub(crate) fn list_numbers<K: Sink>(
    out: &mut K,
    text: &mut Gathered,
    numbers: &[IdNumber],
) -> Result<(), Failed>
    ensures { Writes result (out_at (K.held out.old) (K.faults out.old) text.old.items)
        (out_at (K.held out.new) (K.faults out.new) text.new.items)
        (flat_map item_text (map script.Number numbers.now)) }
{
    for number in numbers {
        gather_item(out, text, Item::Number(*number))?;
    }
    Ok(())
}

/// Signed edges as items.
#[inline(always)]
fn list_edges<K: Sink>(out: &mut K, text: &mut Gathered, edges: &[Signed]) -> Result<(), Failed>
    ensures { Writes result (out_at (K.held out.old) (K.faults out.old) text.old.items)
        (out_at (K.held out.new) (K.faults out.new) text.new.items)
        (flat_map item_text (map script.Signed_edge edges.now)) }
{
    for edge in edges {
        gather_item(out, text, Item::Edge(*edge))?;
    }
    Ok(())
}
