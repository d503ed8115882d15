//! Codes of small maps and of a long random walk, and the faults of sequences.

ghost use Rattle.std.specs.Prelude.{◌≡◌, ◌<◌, ◌≤◌, length};
ghost use Rattle.turan_code.specs.TuranView.{code_of_view};

mod image;
mod plain;

use crate::tests::image::{Bits, Walk, image_of};
use crate::tests::plain::{Growing, Plain, number_orbits, plain_of};
use crate::{CodeNumbering, RingNumber, SeqFault, TuranView, check, make, number};
use bit_words::Steps;
use std::alloc::Global;
use std::marker::Brand;
use std::sync::ledger::{Blank, Ledger};
use std::test::Fail;

/// What `check` says of the code of a walk with these bits as its first sequence. None where sizes do not fit.
fn told<C: Ledger>(
    alloc: Global,
    a: u64,
    walk: Walk<'_>,
    blank: Blank,
) -> Result<Option<Result<(), SeqFault>>, Fail>
    requires same { length walk.tree.now ≡ length walk.first.now }
    requires few { length walk.tree.now ≤ 2147483647 }
    requires few_starts { length walk.starts.now ≤ 2147483647 }
    requires name { blank.name ≡ C.name }
    requires parts { blank.parts ≡ C.parts }
    requires some { 0 < blank.parts }
{
    let mut steps = Steps::<C>::new(alloc, blank);
    let mut image = image_of(alloc, walk)?;
    image.a = Bits::new(alloc, walk.tree.len(), &[a], &[], &[])?;
    let Some(found) = image.sequences() else {
        return Ok(None);
    };
    Ok(Some(check(found.a, found.tree, found.dual, found.starts, &mut steps)))
}

/// What is wanted at each position. A ring is 0 where it is an outer one, and else one more than its shell.
#[derive(Clone, Copy)]
struct Want<'a> {
    mate: &'a [usize],
    next: &'a [usize],
    turn: &'a [usize],
    component: &'a [u32],
    edge: &'a [u32],
    node: &'a [u32],
    ring: &'a [u32],
}

/// What is said at one position.
#[derive(Clone, Copy, Debug, PartialEq, Eq)]
struct Said {
    mate: usize,
    next: usize,
    turn: usize,
    first: bool,
    component: u32,
    edge: u32,
    node: u32,
    ring: RingNumber,
}

impl<'a> Want<'a> {
    /// What is wanted at position `p`. None past the last one.
    fn said_at(self, p: usize) -> Option<Said> {
        let mate = *self.mate.get(p)?;
        let component = *self.component.get(p)?;
        Some(Said {
            mate,
            next: *self.next.get(p)?,
            turn: *self.turn.get(p)?,
            first: p < mate,
            component,
            edge: *self.edge.get(p)?,
            node: *self.node.get(p)?,
            ring: match self.ring.get(p)?.checked_sub(1) {
                Some(shell) => RingNumber::Shell(shell),
                None => RingNumber::Outer(component),
            },
        })
    }
}

/// What a view says at position `p`.
fn said_at<C: Ledger>(view: TuranView<'_>, p: usize, steps: &mut Steps<C>) -> Said
    requires { p < length (code_of_view view).a }
{
    Said {
        mate: view.mate(p, steps),
        next: view.next(p, steps),
        turn: view.turn(p, steps),
        first: view.is_first(p, steps),
        component: view.component_of(p, steps),
        edge: view.edge_of(p, steps),
        node: view.node_of(p, steps),
        ring: view.ring_of(p, steps),
    }
}

/// Whether steps back undo steps at position `p`.
fn undone<C: Ledger>(view: TuranView<'_>, p: usize, steps: &mut Steps<C>) -> bool
    requires { p < length (code_of_view view).a }
{
    let next = view.next(p, steps);
    let turn = view.turn(p, steps);
    view.next_back(next, steps) == p && view.turn_back(turn, steps) == p
}

/// Whether across the edge of position `p` stands what stands at its mate.
fn is_crossed<C: Ledger>(view: TuranView<'_>, p: usize, steps: &mut Steps<C>) -> bool
    requires { p < length (code_of_view view).a }
{
    let mate = view.mate(p, steps);
    view.node_reached(p, steps) == view.node_of(mate, steps)
        && view.ring_across(p, p, steps) == view.ring_of(mate, steps)
}

/// Whether the stop at position `p` says what is said of it by itself.
fn is_stop<C: Ledger>(view: TuranView<'_>, kind: bool, p: usize, steps: &mut Steps<C>) -> bool
    requires { p < length (code_of_view view).a }
{
    let mut near = p;
    let stop = view.stop(kind, p, &mut near, steps);
    let next = if kind {
        view.turn(p, steps)
    } else {
        view.next(p, steps)
    };
    stop.edge == view.edge_of(p, steps)
        && stop.is_first == view.is_first(p, steps)
        && stop.next == next
        && near == view.component_of(p, steps) as usize
        && view.after(stop.over, &mut near, steps) == next
}

/// The first wrong position of a view, among each `stride`th and the last ones of the components.
fn wrong_position<C: Ledger>(
    view: TuranView<'_>,
    want: Want<'_>,
    stride: usize,
    steps: &mut Steps<C>,
) -> Option<usize>
    requires { 0 < stride }
{
    if view.parts().a.bits().len() != view.len() {
        return Some(0);
    }
    for p in 0..view.len() {
        let last = want.component.get(p) != want.component.get(p + 1);
        if (last || p % stride == 0)
            && (want.said_at(p) != Some(said_at(view, p, steps))
                || !undone(view, p, steps)
                || !is_crossed(view, p, steps)
                || !is_stop(view, true, p, steps)
                || !is_stop(view, false, p, steps))
        {
            return Some(p);
        }
    }
    None
}

/// Whether these are the wanted numbers.
fn are_wanted(numbering: &CodeNumbering, want: Want<'_>) -> bool {
    numbering.edge.as_slice() == want.edge
        && numbering.node.as_slice() == want.node
        && numbering.ring.as_slice() == want.ring
}

/// Whether the first positions by numbers below 8 are the first with their number.
fn firsts_are_wanted<C: Ledger>(view: TuranView<'_>, want: Want<'_>, steps: &mut Steps<C>) -> bool {
    for number in 0..8 {
        if view.first_of_edge(number, steps) != first_with(want.edge, number)
            || view.first_of_node(number, steps) != first_with(want.node, number)
            || view.first_of_shell(number, steps) != first_with(want.ring, number + 1)
            || view.start_of(number, steps) != first_with(want.component, number)
        {
            return false;
        }
    }
    true
}

/// The first place of a number.
fn first_with(numbers: &[u32], number: u32) -> Option<usize> {
    numbers.iter().position(|of_place| *of_place == number)
}

/// What is not as wanted.
#[derive(Clone, Copy, Debug, PartialEq, Eq)]
enum Wrong {
    Image,
    Position(usize),
    Firsts,
    Numbers,
}

/// What is wrong with the view of the code of a walk or with its numbers.
fn examined<C: Ledger>(
    alloc: Global,
    walk: Walk<'_>,
    want: Want<'_>,
    blank: Blank,
) -> Result<Option<Wrong>, Fail>
    requires same { length walk.tree.now ≡ length walk.first.now }
    requires few { length walk.tree.now ≤ 2147483647 }
    requires few_starts { length walk.starts.now ≤ 2147483647 }
    requires name { blank.name ≡ C.name }
    requires parts { blank.parts ≡ C.parts }
    requires some { 0 < blank.parts }
{
    let mut steps = Steps::<C>::new(alloc, blank);
    let image = image_of(alloc, walk)?;
    let Some(view) = image.view(&mut steps) else {
        return Ok(Some(Wrong::Image));
    };
    if let Some(p) = wrong_position(view, want, 1, &mut steps) {
        return Ok(Some(Wrong::Position(p)));
    }
    if !firsts_are_wanted(view, want, &mut steps) {
        return Ok(Some(Wrong::Firsts));
    }
    let numbering = number(alloc, walk.tree, walk.first, walk.starts)?;
    if !are_wanted(&numbering, want) {
        return Ok(Some(Wrong::Numbers));
    }
    Ok(None)
}

/// One number for each ring: that of the component for its outer ring, and numbers from `components` on for shells.
fn ring_names(
    alloc: Global,
    components: &[u32],
    rings: &[u32],
    count: u32,
) -> Result<Vec<u32>, Fail> {
    let mut names = Vec::new(alloc);
    for (component, ring) in components.iter().zip(rings) {
        names.push(match ring.checked_sub(1) {
            Some(shell) => count.saturating_add(shell),
            None => *component,
        })?;
    }
    Ok(names)
}

/// Whether each edge, node and ring has one number, by the orbits of what is wanted.
fn numbers_are_of_orbits(alloc: Global, want: Want<'_>, components: u32) -> Result<bool, Fail> {
    let rings = ring_names(alloc, want.component, want.ring, components)?;
    Ok(
        number_orbits(alloc, want.mate, want.edge)?
            && number_orbits(alloc, want.turn, want.node)?
            && number_orbits(alloc, want.next, rings.as_slice())?,
    )
}

/// What of a view and of the numbers of its walk is not as in a plain walk.
fn unlike<C: Ledger>(
    alloc: Global,
    view: TuranView<'_>,
    numbering: &CodeNumbering,
    plain: &Plain,
    steps: &mut Steps<C>,
) -> Result<Option<Wrong>, Fail> {
    let want = Want {
        mate: plain.mate.as_slice(),
        next: plain.next.as_slice(),
        turn: plain.turn.as_slice(),
        component: plain.component.as_slice(),
        edge: numbering.edge.as_slice(),
        node: numbering.node.as_slice(),
        ring: numbering.ring.as_slice(),
    };
    if let Some(p) = wrong_position(view, want, 97, steps) {
        return Ok(Some(Wrong::Position(p)));
    }
    if !numbers_are_of_orbits(alloc, want, plain.components)? {
        return Ok(Some(Wrong::Numbers));
    }
    Ok(None)
}

/// What of the code of a walk is not as reading the walk with stacks gives it.
fn compared<C: Ledger>(alloc: Global, walk: Walk<'_>, blank: Blank) -> Result<Option<Wrong>, Fail>
    requires same { length walk.tree.now ≡ length walk.first.now }
    requires few { length walk.tree.now ≤ 2147483647 }
    requires few_starts { length walk.starts.now ≤ 2147483647 }
    requires name { blank.name ≡ C.name }
    requires parts { blank.parts ≡ C.parts }
    requires some { 0 < blank.parts }
{
    let mut steps = Steps::<C>::new(alloc, blank);
    let image = image_of(alloc, walk)?;
    let Some(view) = image.view(&mut steps) else {
        return Ok(Some(Wrong::Image));
    };
    let numbering = number(alloc, walk.tree, walk.first, walk.starts)?;
    let plain = plain_of(alloc, walk)?;
    unlike(alloc, view, &numbering, &plain, &mut steps)
}

#[test]
fn a_sound_code_is_told_and_each_fault_is_named(rt: HostRuntime) -> Result<(), Fail> {
    let edge = Walk {
        tree: &[true, true],
        first: &[true, false],
        starts: &[0, 2],
    };
    let closes_first = Walk {
        tree: &[false, false],
        first: &[false, true],
        starts: &[0, 2],
    };
    let no_positions = Walk {
        tree: &[],
        first: &[],
        starts: &[0],
    };
    let short = Walk {
        starts: &[0, 1],
        ..edge
    };
    let split = Walk {
        starts: &[0, 1, 2],
        ..edge
    };
    let alloc = rt.alloc();
    let sound = told::<Brand>(alloc, 0b11, edge, Blank::new(1))?;
    assert_eq!(rt; sound, Some(Ok(())));
    let empty = told::<Brand>(alloc, 0, no_positions, Blank::new(1))?;
    assert_eq!(rt; empty, Some(Ok(())));
    let starts = told::<Brand>(alloc, 0b11, short, Blank::new(1))?;
    assert_eq!(rt; starts, Some(Err(SeqFault::Starts { index: 1 })));
    let ones = told::<Brand>(alloc, 0b01, edge, Blank::new(1))?;
    assert_eq!(rt; ones, Some(Err(SeqFault::Ones { found: 1 })));
    let tree = told::<Brand>(alloc, 0b11, split, Blank::new(1))?;
    assert_eq!(rt; tree, Some(Err(SeqFault::Tree { component: 0 })));
    let dual = told::<Brand>(alloc, 0, closes_first, Blank::new(1))?;
    assert_eq!(rt; dual, Some(Err(SeqFault::Dual { component: 0 })));
    Ok(())
}

#[test]
fn the_words_of_a_triangle_are_made(rt: HostRuntime) -> Result<(), Fail> {
    let words = make(
        rt.alloc(),
        &[true, true, false, true, true, false],
        &[true, true, true, false, false, false],
        &[0, 6],
    )?;
    // A field of 32 bits in the high half of a word counts 4294967296.
    assert_eq!(rt; words.a.as_slice(), [27].as_slice());
    assert_eq!(rt; words.a_counts.as_slice(), [4 * 4294967296].as_slice());
    assert_eq!(rt; words.b.as_slice(), [3].as_slice());
    assert_eq!(rt; words.b_counts.as_slice(), [2 * 4294967296].as_slice());
    assert_eq!(rt; words.b_tree.as_slice(), [0].as_slice());
    assert_eq!(rt; words.dual.as_slice(), [1].as_slice());
    assert_eq!(rt; words.dual_counts.as_slice(), [4294967296].as_slice());
    assert_eq!(rt; words.dual_tree.as_slice(), [0].as_slice());
    assert_eq!(rt; words.starts.as_slice(), [6 * 4294967296].as_slice());
    Ok(())
}

#[test]
fn a_triangle_has_its_steps_and_numbers(rt: HostRuntime) -> Result<(), Fail> {
    let walk = Walk {
        tree: &[true, true, false, true, true, false],
        first: &[true, true, true, false, false, false],
        starts: &[0, 6],
    };
    let want = Want {
        mate: &[4, 3, 5, 1, 0, 2],
        next: &[1, 2, 0, 4, 5, 3],
        turn: &[5, 4, 3, 2, 1, 0],
        component: &[0, 0, 0, 0, 0, 0],
        edge: &[0, 1, 2, 1, 0, 2],
        node: &[0, 1, 2, 2, 1, 0],
        ring: &[0, 0, 0, 1, 1, 1],
    };
    let wrong = examined::<Brand>(rt.alloc(), walk, want, Blank::new(1))?;
    assert_eq!(rt; wrong, None);
    Ok(())
}

#[test]
fn a_closed_edge_has_two_rings_and_an_open_one_two_nodes(rt: HostRuntime) -> Result<(), Fail> {
    let closed = Walk {
        tree: &[false, false],
        first: &[true, false],
        starts: &[0, 2],
    };
    let want = Want {
        mate: &[1, 0],
        next: &[0, 1],
        turn: &[1, 0],
        component: &[0, 0],
        edge: &[0, 0],
        node: &[0, 0],
        ring: &[0, 1],
    };
    let wrong = examined::<Brand>(rt.alloc(), closed, want, Blank::new(1))?;
    assert_eq!(rt; wrong, None);
    let open = Walk {
        tree: &[true, true],
        ..closed
    };
    let want = Want {
        next: &[1, 0],
        turn: &[0, 1],
        node: &[0, 1],
        ring: &[0, 0],
        ..want
    };
    let wrong = examined::<Brand>(rt.alloc(), open, want, Blank::new(1))?;
    assert_eq!(rt; wrong, None);
    Ok(())
}

#[test]
fn components_are_walked_each_by_itself(rt: HostRuntime) -> Result<(), Fail> {
    let two_edges = Walk {
        tree: &[true, true, true, true],
        first: &[true, false, true, false],
        starts: &[0, 2, 4],
    };
    let want = Want {
        mate: &[1, 0, 3, 2],
        next: &[1, 0, 3, 2],
        turn: &[0, 1, 2, 3],
        component: &[0, 0, 1, 1],
        edge: &[0, 0, 1, 1],
        node: &[0, 2, 1, 3],
        ring: &[0, 0, 0, 0],
    };
    let wrong = examined::<Brand>(rt.alloc(), two_edges, want, Blank::new(1))?;
    assert_eq!(rt; wrong, None);
    let both_kinds = Walk {
        tree: &[true, false, true, false, false, false, true, true],
        first: &[true, true, false, false, true, false, true, false],
        starts: &[0, 4, 8],
    };
    let want = Want {
        mate: &[2, 3, 0, 1, 5, 4, 7, 6],
        next: &[1, 0, 3, 2, 6, 5, 7, 4],
        turn: &[3, 2, 1, 0, 5, 6, 4, 7],
        component: &[0, 0, 0, 0, 1, 1, 1, 1],
        edge: &[0, 2, 0, 2, 3, 3, 1, 1],
        node: &[0, 2, 2, 0, 1, 1, 1, 3],
        ring: &[0, 0, 1, 1, 0, 2, 0, 0],
    };
    let wrong = examined::<Brand>(rt.alloc(), both_kinds, want, Blank::new(1))?;
    assert_eq!(rt; wrong, None);
    Ok(())
}

#[test]
fn a_long_code_is_that_of_reading_it_with_stacks(rt: HostRuntime) -> Result<(), Fail> {
    let mut walk = Growing::new(rt.alloc());
    for edges in [1, 30000, 2, 511, 19486] {
        walk.push_component(edges)?;
    }
    walk.starts.push(walk.positions)?;
    assert_eq!(rt; walk.tree.len(), 100000);
    assert_eq!(rt; walk.first.len(), 100000);
    assert_eq!(rt; walk.starts.len(), 6);
    let walk = Walk {
        tree: walk.tree.as_slice(),
        first: walk.first.as_slice(),
        starts: walk.starts.as_slice(),
    };
    let wrong = compared::<Brand>(rt.alloc(), walk, Blank::new(1))?;
    assert_eq!(rt; wrong, None);
    Ok(())
}
