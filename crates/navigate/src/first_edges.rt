//! The first signed edges of a list, which are put down at once.

ghost use Rattle.std.specs.Prelude.{◌≤◌};
ghost use Rattle.navigate.specs.declared.first_edges.TheConstants.{FIRST};

use crate::directed::with_direction;
use topo_base::Signed;

/// So many signed edges or faces are put down at once, at most.
pub const FIRST: usize = 128;

/// The first signed edges of a list.
#[derive(Clone, Copy)]
pub struct FirstEdges {
    edges: [Signed; FIRST],
    count: usize,
    ghost room: { count ≤ FIRST },
}

impl FirstEdges {
    ghost use Rattle.std.specs.Prelude.{◌≡◌, ◌≤◌, ◌+◌, ◌++◌, [], length};
    ghost use Rattle.navigate.specs.FirstEdges.{edges_in};
    ghost use Rattle.navigate.specs.declared.first_edges.TheConstants.{FIRST};

    /// None yet.
    pub fn none() -> FirstEdges
        ensures { edges_in result ≡ [] }
    {
        FirstEdges {
            edges: [with_direction(1, true); FIRST],
            count: 0,
        }
    }

    /// None again.
    pub(crate) fn clear(&mut self)
        ensures { edges_in self.new ≡ [] }
    {
        self.count = 0;
    }

    /// Some more behind them.
    pub(crate) fn extend(&mut self, edges: &[Signed])
        requires { length (edges_in self.old) + length edges.now ≤ FIRST }
        ensures { edges_in self.new ≡ edges_in self.old ++ edges.now }
    {
        for edge in edges {
            self.edges[self.count] = *edge;
            self.count += 1;
        }
    }

    /// The signed edges.
    pub fn as_slice(&self) -> &[Signed]
        ensures { result.now ≡ edges_in self.now }
    {
        &self.edges[..self.count]
    }
}
