//! Random walks, and their codes read with stacks.

ghost use Rattle.std.specs.Prelude.{◌≤◌, length};

use crate::tests::image::Walk;
use std::alloc::Global;
use std::test::Fail;

/// A walk that grows, with how many edges of each kind are open.
#[derive(Drop)]
pub(super) struct Growing {
    pub(super) tree: Vec<bool>,
    pub(super) first: Vec<bool>,
    pub(super) starts: Vec<u32>,
    pub(super) positions: u32,
    open_of_tree: usize,
    open_others: usize,
    random: u64,
}

impl Growing {
    /// No component yet.
    pub(super) fn new(alloc: Global) -> Growing {
        Growing {
            tree: Vec::new(alloc),
            first: Vec::new(alloc),
            starts: Vec::new(alloc),
            positions: 0,
            open_of_tree: 0,
            open_others: 0,
            random: 7,
        }
    }

    /// Whether the next random number has this bit.
    fn tossed(&mut self) -> bool {
        self.random = self
            .random
            .wrapping_mul(6364136223846793005)
            .wrapping_add(1442695040888963407);
        self.random >> 63 == 1
    }

    /// Puts a position of a kind that opens or closes an edge.
    fn push(&mut self, of_tree: bool, opens: bool) -> Result<(), Fail> {
        let open = if of_tree {
            &mut self.open_of_tree
        } else {
            &mut self.open_others
        };
        *open = if opens {
            open.saturating_add(1)
        } else {
            open.saturating_sub(1)
        };
        self.tree.push(of_tree)?;
        self.first.push(opens)?;
        self.positions = self.positions.saturating_add(1);
        Ok(())
    }

    /// Puts a start and then so many edges, each closed in the end.
    pub(super) fn push_component(&mut self, edges: usize) -> Result<(), Fail> {
        self.starts.push(self.positions)?;
        let mut left = edges;
        for _ in 0..edges.saturating_mul(2) {
            let none_open = self.open_of_tree == 0 && self.open_others == 0;
            let opens = left > 0 && (none_open || self.tossed());
            let of_tree = self.tossed();
            if opens {
                left = left.saturating_sub(1);
                self.push(of_tree, true)?;
            } else {
                let of_tree = if of_tree {
                    self.open_of_tree > 0
                } else {
                    self.open_others == 0
                };
                self.push(of_tree, false)?;
            }
        }
        Ok(())
    }
}

/// A code by reading its walk with stacks.
#[derive(Drop)]
pub(super) struct Plain {
    pub(super) components: u32,
    pub(super) mate: Vec<usize>,
    pub(super) next: Vec<usize>,
    pub(super) turn: Vec<usize>,
    pub(super) component: Vec<u32>,
}

/// The other position of each edge, by a stack for each kind. It ends where none is open.
fn plain_mates(alloc: Global, walk: Walk<'_>) -> Result<Vec<usize>, Fail> {
    let mut mates = vec![in alloc; 0; walk.tree.len()]?;
    let mut of_tree = Vec::new(alloc);
    let mut others = Vec::new(alloc);
    for p in 0..walk.tree.len().min(walk.first.len()) {
        let stack = if walk.tree[p] {
            &mut of_tree
        } else {
            &mut others
        };
        if walk.first[p] {
            stack.push(p)?;
        } else if let Some(open) = stack.pop() {
            set(mates.as_mut_slice(), p, open);
            set(mates.as_mut_slice(), open, p);
        }
    }
    Ok(mates)
}

/// Puts a number at a place, if there is such a place.
fn set(numbers: &mut [usize], place: usize, number: usize) {
    if place < numbers.len() {
        numbers[place] = number;
    }
}

/// The component of each position, and the position after it round its component.
#[derive(Drop)]
struct Rounds {
    component: Vec<u32>,
    after: Vec<usize>,
}

fn plain_rounds(alloc: Global, starts: &[u32]) -> Result<Rounds, Fail>
    requires { length starts.now ≤ 2147483647 }
{
    let mut component = Vec::new(alloc);
    let mut after = Vec::new(alloc);
    for j in 1..starts.len() {
        let start = starts[j - 1] as usize;
        let end = starts[j] as usize;
        for p in start..end {
            component.push((j - 1) as u32)?;
            after.push(if p + 1 == end { start } else { p + 1 })?;
        }
    }
    Ok(Rounds { component, after })
}

/// Of each position, the one after it, or after its mate where its edge is of this kind. It ends at a wrong mate.
fn plain_steps(
    alloc: Global,
    kind: bool,
    tree: &[bool],
    mates: &[usize],
    after: &[usize],
) -> Result<Vec<usize>, Fail> {
    let mut steps = Vec::new(alloc);
    for p in 0..tree.len().min(mates.len()) {
        let from = if tree[p] == kind { mates[p] } else { p };
        let Some(to) = after.get(from) else {
            break;
        };
        steps.push(*to)?;
    }
    Ok(steps)
}

pub(super) fn plain_of(alloc: Global, walk: Walk<'_>) -> Result<Plain, Fail>
    requires { length walk.starts.now ≤ 2147483647 }
{
    let mate = plain_mates(alloc, walk)?;
    let rounds = plain_rounds(alloc, walk.starts)?;
    let mates = mate.as_slice();
    let after = rounds.after.as_slice();
    Ok(Plain {
        components: walk.starts.len() as u32,
        next: plain_steps(alloc, false, walk.tree, mates, after)?,
        turn: plain_steps(alloc, true, walk.tree, mates, after)?,
        component: rounds.component,
        mate,
    })
}

/// Marks a place. False where it is marked or there is no such place.
fn mark(marks: &mut [bool], place: usize) -> bool {
    if place >= marks.len() || marks[place] {
        return false;
    }
    marks[place] = true;
    true
}

/// Whether each orbit of a step has one number, and no other orbit has it.
pub(super) fn number_orbits(alloc: Global, steps: &[usize], numbers: &[u32]) -> Result<bool, Fail> {
    let mut passed = vec![in alloc; false; steps.len()]?;
    let mut taken = vec![in alloc; false; steps.len()]?;
    for start in 0..steps.len().min(numbers.len()) {
        let number = numbers[start];
        if !passed[start] && !mark(taken.as_mut_slice(), number as usize) {
            return Ok(false);
        }
        let mut at = start;
        for _ in 0..steps.len() {
            if !mark(passed.as_mut_slice(), at) {
                break;
            }
            if numbers.get(at) != Some(&number) {
                return Ok(false);
            }
            at = steps.get(at).copied().unwrap_or(start);
        }
        if at != start {
            return Ok(false);
        }
    }
    Ok(steps.len() == numbers.len())
}
