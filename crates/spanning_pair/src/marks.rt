//! What is known of the edges while they are walked.

ghost use Rattle.std.specs.Prelude.{◌≡◌, ◌<◌, IfOk, length, not, replicate};
ghost use Rattle.spanning_pair.specs.Marks.{seen_in, trees_in};
ghost use Rattle.spanning_pair.specs.Tours.{flag_at};
ghost use Rattle.spanning_pair.specs.declared.marks.EdgeMark.TheVariants as marks;

use std::alloc::{AllocError, Global};

/// What is known of an edge.
#[derive(Clone, Copy)]
pub enum EdgeMark {
    /// It was not seen yet.
    New,
    /// It was seen, and is a tree edge.
    Tree,
    /// It was seen, and is no tree edge.
    Other,
}

/// The marks of so many edges, all of them new.
pub fn new_edges(alloc: Global, edges: usize) -> Result<Vec<EdgeMark>, AllocError>
    ensures { IfOk result (λ made. made.items ≡ replicate edges marks.New) }
{
    vec![in alloc; EdgeMark::New; edges]
}

/// Whether an edge was not seen yet.
pub fn is_new_edge(marks: &[EdgeMark], edge: usize) -> bool
    requires { edge < length marks.now }
    ensures { result ≡ not (flag_at (seen_in marks.now) edge) }
{
    matches!(marks[edge], EdgeMark::New)
}

/// Whether an edge was seen and is a tree edge.
pub fn is_tree_edge(marks: &[EdgeMark], edge: usize) -> bool
    requires { edge < length marks.now }
    ensures { result ≡ flag_at (trees_in marks.now) edge }
{
    matches!(marks[edge], EdgeMark::Tree)
}
