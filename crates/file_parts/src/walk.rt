//! The walk of a code: for each position its kind and whether it is the first of its edge, and the starts.

ghost use Rattle.std.specs.Prelude.{◌≡◌, ◌≤◌, ◌<◌, IfOk, length};
ghost use Rattle.turan_code.specs.TuranView.{code_of_view};
ghost use Rattle.code_laws.specs.Code.{component_count, is_tree};
ghost use Rattle.code_laws.specs.Numbers.{tree_edges as tree_count};
ghost use Rattle.file_parts.specs.Walk.{firsts};

use bit_words::Steps;
use std::alloc::{AllocError, Global};
use std::sync::ledger::Ledger;
use turan_code::TuranView;

/// Whether the edge at a position is one of the trees: these have the first numbers.
fn is_tree_edge<C: Ledger>(
    code: TuranView<'_>,
    tree_edges: u32,
    p: usize,
    steps: &mut Steps<C>,
) -> bool
    requires count { tree_edges ≡ tree_count (code_of_view code) }
    requires within { p < length (code_of_view code).a }
    ensures kind { result ≡ is_tree (code_of_view code.entry) p }
    ensures grows { steps.old ≤ steps.new }
{
    code.edge_of(p, steps) < tree_edges
}

/// For each position, whether its edge is one of the trees.
pub(crate) fn tree_bits<C: Ledger>(
    alloc: Global,
    code: TuranView<'_>,
    tree_edges: u32,
    steps: &mut Steps<C>,
) -> Result<Vec<bool>, AllocError>
    requires { tree_edges ≡ tree_count (code_of_view code) }
    ensures tree { IfOk result (λ tree. tree.items ≡ (code_of_view code.entry).a) }
    ensures grows { steps.old ≤ steps.new }
{
    let len = code.len();
    let mut tree = Vec::with_capacity(alloc, len)?;
    for p in 0..len {
        let kind = is_tree_edge(code, tree_edges, p, steps);
        tree.push(kind)?;
    }
    Ok(tree)
}

/// For each position, whether it is the first of its edge.
pub(crate) fn first_bits<C: Ledger>(
    alloc: Global,
    code: TuranView<'_>,
    steps: &mut Steps<C>,
) -> Result<Vec<bool>, AllocError>
    ensures first { IfOk result (λ first. first.items ≡ firsts (code_of_view code.entry)) }
    ensures grows { steps.old ≤ steps.new }
{
    let len = code.len();
    let mut first = Vec::with_capacity(alloc, len)?;
    for p in 0..len {
        let is_first = code.is_first(p, steps);
        first.push(is_first)?;
    }
    Ok(first)
}

/// The first position of each component, and in the end the number of positions.
pub(crate) fn starts<C: Ledger>(
    alloc: Global,
    code: TuranView<'_>,
    components: u32,
    steps: &mut Steps<C>,
) -> Result<Vec<u32>, AllocError>
    requires { components ≡ component_count (code_of_view code) }
    ensures starts { IfOk result (λ starts. starts.items ≡ (code_of_view code.entry).starts) }
    ensures grows { steps.old ≤ steps.new }
{
    let mut starts = Vec::with_capacity(alloc, components as usize + 1)?;
    for component in 0..components {
        let Some(start) = code.start_of(component, steps) else {
            unreachable!()
        };
        starts.push(start as u32)?;
    }
    starts.push(code.len() as u32)?;
    Ok(starts)
}
